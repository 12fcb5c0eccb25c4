//! Defines orders of accesses: for each round the generals who make the accesses, in order.
ghost use Rattle.std.specs.Prelude.{◌≡◌, ◌==◌, ◌<◌, All, IfOk, map, filter};
ghost use Rattle.campaign_orders.specs.Least.{order_cmp};
ghost use Rattle.world.specs.KindLists.{names_in};
ghost use Rattle.world.specs.Playing.{lists_in};

use board::Access;
use std::alloc::{AllocError, Global};
use std::cmp::Ordering;

/// Returns for each of the first `rounds` rounds the generals who made its accesses, in the ledger's order.
///
/// # Errors
///
/// Fails with `AllocError` if it runs out of memory.
pub fn order_in(alloc: Global, accesses: &[Access], rounds: u8) -> Result<Vec<Vec<u8>>, AllocError>
    requires { All (λ a. a.general < 256) accesses.now }
    ensures { IfOk result (λ order. lists_in order.items ≡ names_in 1 accesses.now rounds) }
{
    let mut order = Vec::new(alloc);
    for before in 0..rounds {
        order.push(names_of(alloc, accesses, u32::from(before) + 1)?)?;
    }
    Ok(order)
}

/// Returns the generals who made the accesses of this round, in the ledger's order. Fails with `AllocError` if it runs
/// out of memory.
fn names_of(alloc: Global, accesses: &[Access], round: u32) -> Result<Vec<u8>, AllocError>
    requires { All (λ a. a.general < 256) accesses.now }
    ensures { IfOk result (λ names. names.items ≡ map (λ a. a.general) (filter (λ a. a.round == round) accesses.now)) }
{
    let mut names = Vec::new(alloc);
    for access in accesses {
        if access.round == round {
            names.push(access.general as u8)?;
        }
    }
    Ok(names)
}

/// Compares two orders of accesses. At the first access in which they differ, the lesser order has the general with the
/// lower number.
pub(crate) fn compared(order: &[Vec<u8>], other: &[Vec<u8>]) -> Ordering
    ensures { result ≡ order_cmp (lists_in order.now) (lists_in other.now) }
{
    order.cmp(&other)
}

/// Returns a copy of an order of accesses. Fails with `AllocError` if it runs out of memory.
pub(crate) fn copied(alloc: Global, order: &[Vec<u8>]) -> Result<Vec<Vec<u8>>, AllocError>
    ensures { IfOk result (λ copy. lists_in copy.items ≡ lists_in order.now) }
{
    let mut copy = Vec::new(alloc);
    for names in order {
        copy.push(Vec::from_slice(alloc, names.as_slice())?)?;
    }
    Ok(copy)
}
