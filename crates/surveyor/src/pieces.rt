//! Divides a survey into pieces, which are played one after another, and describes a rejected campaign in a piece.
ghost use Rattle.std.specs.Prelude.{◌≡◌, ◌≢◌, ◌<◌, ◌≤◌, ◌-◌};

use crate::fault::SurveyFailure;
use scenario::ScenarioError;

/// Returns how many campaigns one piece of a survey has. A piece is played as a whole before its outcomes are printed.
/// `generals` is the greatest number of generals in a campaign of the survey: a piece has 16,384 campaigns if it is
/// below 8, and otherwise 1,024.
pub fn at_once(generals: u8) -> u64
    ensures least { 1024 ≤ result }
    ensures few { generals < 8 → result ≡ 16384 }
    ensures many { 8 ≤ generals → result ≡ 1024 }
{
    if generals < 8 { 16_384 } else { 1_024 }
}

/// Returns the failure of a survey in which the campaign of some seed from `first` to `end - 1` was rejected with
/// `error`. The failure is `Memory` if memory ran out, and otherwise names these seeds and the error.
pub fn refused(first: u64, end: u64, error: ScenarioError) -> SurveyFailure
    ensures memory { error ≡ ScenarioError.Memory → result ≡ SurveyFailure.Memory }
    ensures campaign { error ≢ ScenarioError.Memory → result ≡ SurveyFailure.Campaign first (end - 1) error }
{
    match error {
        ScenarioError::Memory => SurveyFailure::Memory,
        error => SurveyFailure::Campaign(first, end.saturating_sub(1), error),
    }
}
