//! Copies and compares lists of accesses, such as transcripts.
ghost use Rattle.std.specs.Prelude.{◌≡◌, ◌↔◌, IfOk, IsTrue};

use board::Access;
use std::alloc::{AllocError, Global};

/// Returns a copy of these accesses. Fails with `AllocError` if there is no memory for the copy.
pub(crate) fn copied(alloc: Global, accesses: &[Access]) -> Result<Vec<Access>, AllocError>
    ensures { IfOk result (λ copy. copy.items ≡ accesses.now) }
{
    let mut copy = Vec::with_capacity(alloc, accesses.len())?;
    for access in accesses {
        copy.push(access.copy(alloc)?)?;
    }
    Ok(copy)
}

/// Returns whether both lists have the same accesses in the same order.
pub(crate) fn same_accesses(accesses: &[Access], others: &[Access]) -> bool
    ensures { IsTrue result ↔ (accesses.now ≡ others.now) }
{
    if accesses.len() != others.len() {
        return false;
    }
    for i in 0..accesses.len() {
        if !accesses[i].same(&others[i]) {
            return false;
        }
    }
    true
}
