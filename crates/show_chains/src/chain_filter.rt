//! Selects signed orders from a list: by signer, by order, or by whether another list contains them.
ghost use Rattle.std.specs.Prelude.{◌≡◌, ◌++◌, ◌∷◌, [], cond, not, filter, IfOk, OnOk};
ghost use Rattle.label.specs.Labels.{on};
ghost use Rattle.show_chains.specs.Owed.{is_among};
ghost use Rattle.show_chains.specs.Strokes.{of_order};

use crate::signed_order::SignedOrder;
use std::alloc::{AllocError, Global};

/// Returns those signed orders that this general has not signed.
///
/// # Errors
///
/// Fails with `AllocError` if memory runs out.
pub(crate) fn unsigned(
    alloc: Global,
    chains: &[SignedOrder],
    general: u8,
) -> Result<Vec<SignedOrder>, AllocError>
    ensures { IfOk result (λ kept. kept.items ≡ filter (λ ch. not (on ch.signers general)) chains.now) }
{
    let mut kept = Vec::new(alloc);
    for chain in chains {
        push_if(alloc, &mut kept, chain, !chain.has(general))?;
    }
    Ok(kept)
}

/// Returns those signed orders of `chains` that `others` also contains. Fails with `AllocError` if memory runs out.
pub(crate) fn among(
    alloc: Global,
    chains: &[SignedOrder],
    others: &[SignedOrder],
) -> Result<Vec<SignedOrder>, AllocError>
    ensures { IfOk result (λ kept. kept.items ≡ filter (is_among others.now) chains.now) }
{
    let mut kept = Vec::new(alloc);
    for chain in chains {
        push_if(alloc, &mut kept, chain, chain.is_among(others))?;
    }
    Ok(kept)
}

/// Returns those signed orders of `chains` that `others` does not contain. Fails with `AllocError` if memory runs out.
pub(crate) fn apart(
    alloc: Global,
    chains: &[SignedOrder],
    others: &[SignedOrder],
) -> Result<Vec<SignedOrder>, AllocError>
    ensures { IfOk result (λ kept. kept.items ≡ filter (λ ch. not (is_among others.now ch)) chains.now) }
{
    let mut kept = Vec::new(alloc);
    for chain in chains {
        push_if(alloc, &mut kept, chain, !chain.is_among(others))?;
    }
    Ok(kept)
}

/// Returns those signed orders of `chains` whose order is this one. Fails with `AllocError` if memory runs out.
pub(crate) fn of_order(
    alloc: Global,
    chains: &[SignedOrder],
    order: u32,
) -> Result<Vec<SignedOrder>, AllocError>
    ensures { IfOk result (λ kept. kept.items ≡ of_order order chains.now) }
{
    let mut kept = Vec::new(alloc);
    for chain in chains {
        push_if(alloc, &mut kept, chain, chain.order() == order)?;
    }
    Ok(kept)
}

/// Appends a copy of the signed order if `is_wanted`. Fails with `AllocError` if memory runs out.
fn push_if(
    alloc: Global,
    kept: &mut Vec<SignedOrder>,
    chain: &SignedOrder,
    is_wanted: bool,
) -> Result<(), AllocError>
    ensures { OnOk result (kept.new.items ≡ kept.old.items ++ cond is_wanted (chain.now ∷ []) []) }
{
    if is_wanted {
        kept.push(chain.copied(alloc)?)?;
    }
    Ok(())
}
