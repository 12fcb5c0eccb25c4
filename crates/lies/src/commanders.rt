//! Searches all commanders asked about for the cheapest break.
ghost use Rattle.std.specs.Prelude.{◌≡◌, ◌<◌, ℕ, Bool, IfOk, IfSome, count_by, filter};
ghost use Rattle.book.specs.Table.{AreNumbersWithin};
ghost use Rattle.label.specs.Labels.{generals as all_generals};
ghost use Rattle.lies.specs.Asked.{IsAsked, is_asked};
ghost use Rattle.lies.specs.Attempts.{NoneCheaperAmong};
ghost use Rattle.lies.specs.Commanders.{IsFoundUnder, cheaper_under, success_under};

use crate::found::{Found, FoundUnder};
use crate::search::cheapest_break;
use combine::Combine;
use std::alloc::{AllocError, Global};

/// Returns the cheapest break by exactly `count` traitors under a commander asked about, or `None` if there is none. If
/// no commander is given, all generals are asked about.
///
/// # Errors
///
/// Fails with `AllocError` if there is no memory for a list of attempts.
pub(crate) fn cheapest_asked<C: Combine>(
    alloc: Global,
    rule: &C,
    generals: u8,
    bound: u8,
    given: Option<u8>,
    count: u8,
) -> Result<Option<FoundUnder>, AllocError>
    requires { (c : ℕ) → c < generals → AreNumbersWithin generals bound c }
    ensures found { IfOk result (λ found. IfSome found
        (IsFoundUnder (C.combined rule.now) generals bound given count)) }
    ensures least { IfOk result (λ found. (c : ℕ) (traitor : ℕ → Bool) → IsAsked generals given c →
        count_by traitor (all_generals generals) ≡ count →
        NoneCheaperAmong (C.combined rule.now) generals bound c (success_under found)
        (filter traitor (all_generals generals))) }
{
    let mut best: Option<FoundUnder> = None;
    for commander in 0..generals {
        if is_asked(given, commander) {
            let found = cheapest_break(alloc, rule, generals, bound, commander, count)?;
            best = cheaper(best, commander, found);
        }
    }
    Ok(best)
}

/// Returns whether the general is asked about as commander.
fn is_asked(given: Option<u8>, commander: u8) -> bool
    ensures { result ≡ is_asked given commander }
{
    match given {
        None => true,
        Some(given) => given == commander,
    }
}

/// Returns the best break so far, or the break found under this commander if it is cheaper.
fn cheaper(best: Option<FoundUnder>, commander: u8, found: Option<Found>) -> Option<FoundUnder>
    ensures { result ≡ cheaper_under best commander found }
{
    match (best, found) {
        (best, None) => best,
        (None, Some(found)) => Some(FoundUnder { commander, found }),
        (Some(best), Some(found)) => {
            if found.success.attacks < best.found.success.attacks {
                Some(FoundUnder { commander, found })
            } else {
                Some(best)
            }
        }
    }
}
