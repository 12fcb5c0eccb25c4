//! Turns what threads and checks report into evidence and into the errors of `muster`.
ghost use Rattle.std.specs.Prelude.{◌≡◌, ◌<◌, ◌≤◌, ◌++◌, ◌∷◌, [], None, Ok, Err, length, vec_capacity, IsSome, MatchBool, MatchOption, MatchResult};
ghost use Rattle.threads.specs.declared.error.MusterError.TheVariants.{Unaccounted};

use crate::error::MusterError;
use std::io;

/// Evidence that a general's thread could not be started. Only `kept` creates one.
#[derive(Clone, Copy)]
pub struct Unstarted(());

/// Returns `Ok` if `is_so`, a condition that must hold if the ledger accounts for the letters.
///
/// # Errors
///
/// `Unaccounted` if `is_so` is false.
pub(crate) fn accounted(is_so: bool) -> Result<(), MusterError>
    ensures { MatchBool is_so (result ≡ Ok tt) (result ≡ Err Unaccounted) }
{
    if is_so {
        Ok(())
    } else {
        Err(MusterError::Unaccounted)
    }
}

/// Returns the value in `found`. If the ledger accounts for the letters, there is one.
///
/// # Errors
///
/// `Unaccounted` if `found` is `None`.
pub(crate) fn found<T: Drop>(found: Option<T>) -> Result<T, MusterError>
    ensures { MatchOption found (result ≡ Err Unaccounted) (λ own. result ≡ Ok own) }
{
    match found {
        Some(own) => Ok(own),
        None => Err(MusterError::Unaccounted),
    }
}

/// Appends the handle of a started thread to `handles`, which must have room for it, and returns `None`. If the thread
/// was not started, this returns the evidence for that.
pub(crate) fn kept<H: Drop>(handles: &mut Vec<H>, started: io::Result<H>) -> Option<Unstarted>
    requires { length handles.old.items < vec_capacity handles.old }
    ensures handle { MatchResult started
        (λ handle. (result ≡ None) × (handles.new.items ≡ handles.old.items ++ handle ∷ []))
        (λ _. IsSome result × (handles.new.items ≡ handles.old.items)) }
    ensures room { vec_capacity handles.old ≤ vec_capacity handles.new }
{
    match started {
        Err(_) => Some(Unstarted(())),
        Ok(handle) => {
            let Ok(()) = handles.push(handle) else {
                unreachable!()
            };
            None
        }
    }
}
