//! Searches all sets of traitors for the cheapest break.
ghost use Rattle.std.specs.Prelude.{◌≡◌, ◌≤◌, ℕ, Bool, IfOk, IfSome, count_by, filter};
ghost use Rattle.book.specs.Table.{AreNumbersWithin};
ghost use Rattle.label.specs.Labels.{generals as all_generals};
ghost use Rattle.lies.specs.Attempts.{NoneCheaperAmong, members};
ghost use Rattle.lies.specs.Search.{IsFoundAmong, cheaper_break, success_of};

use crate::attempt::Success;
use crate::attempts::cheapest_attempt;
use crate::found::Found;
use arrayvec::ArrayVec;
use combine::Combine;
use std::alloc::{AllocError, Global};

/// Returns the cheapest break by exactly `count` traitors, or `None` if there is none. It needs the fewest orders other
/// than RETREAT to loyal generals.
///
/// # Errors
///
/// Fails with `AllocError` if there is no memory for a list of attempts.
pub(crate) fn cheapest_break<C: Combine>(
    alloc: Global,
    rule: &C,
    generals: u8,
    bound: u8,
    commander: u8,
    count: u8,
) -> Result<Option<Found>, AllocError>
    requires { AreNumbersWithin generals bound commander }
    ensures found { IfOk result (λ found. IfSome found
        (IsFoundAmong (C.combined rule.now) generals bound commander count)) }
    ensures least { IfOk result (λ found. (traitor : ℕ → Bool) → count_by traitor (all_generals generals) ≡ count →
        NoneCheaperAmong (C.combined rule.now) generals bound commander (success_of found)
        (filter traitor (all_generals generals))) }
{
    let mut best: Option<Found> = None;
    for set in 0..1u32 << generals {
        let traitors = members(generals, set);
        if traitors.len() == usize::from(count) {
            let success = cheapest_attempt(
                alloc,
                rule,
                generals,
                bound,
                commander,
                traitors.as_slice(),
            )?;
            best = cheaper(best, traitors, success);
        }
    }
    Ok(best)
}

/// Returns the generals whose bit is set, in ascending order. There are at most 13 generals.
fn members(generals: u8, set: u32) -> ArrayVec<u8, 13>
    requires { generals ≤ 13 }
    ensures { result.items ≡ members generals set }
{
    let mut traitors = ArrayVec::new();
    for general in 0..generals {
        if set >> general & 1 == 1 {
            traitors.push(general);
        }
    }
    traitors
}

/// Returns the best break so far, or the success of these traitors if it is cheaper.
fn cheaper(
    best: Option<Found>,
    traitors: ArrayVec<u8, 13>,
    success: Option<Success>,
) -> Option<Found>
    ensures { result ≡ cheaper_break best traitors success }
{
    match (best, success) {
        (best, None) => best,
        (None, Some(success)) => Some(Found { traitors, success }),
        (Some(best), Some(success)) => {
            if success.attacks < best.success.attacks {
                Some(Found { traitors, success })
            } else {
                Some(best)
            }
        }
    }
}
