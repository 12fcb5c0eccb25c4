//! Defines the evidence that the post returned a letter.
ghost use Rattle.std.specs.Prelude.{◌≡◌, Ok, IsErrAnd, MatchResult};

use round::Letter;

/// Evidence that the post had no room for a letter and returned it. Only `posted` creates one.
#[derive(Clone, Copy)]
pub struct Returned {
    /// The general whose letter was returned.
    general: u32,
}

/// Checks the result of posting a letter.
///
/// # Errors
///
/// `Returned` if the post was full and returned the letter.
pub(super) fn posted(sent: Result<(), Letter>) -> Result<(), Returned>
    ensures { MatchResult sent (λ _. result ≡ Ok tt) (λ back. IsErrAnd result (λ r. r.general ≡ back.general)) }
{
    match sent {
        Ok(()) => Ok(()),
        Err(back) => {
            let general = back.general;
            Err(Returned { general })
        }
    }
}
