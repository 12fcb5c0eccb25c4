//! Displays errors that contain an unknown key, with the key's control characters escaped.
ghost use Rattle.std.specs.Prelude.{◌≡◌};
ghost use Rattle.streams.specs.declared.escaped.Kept.TheVariants.{Nothing};

use scenario::ScenarioError;
use std::fmt;
use streams::{Escaped, Kept};
use trial::SettingError;

/// A scenario's error that is displayed as usual, but with the control characters of an unknown key escaped.
#[derive(Clone, Copy)]
pub struct ShownScenarioError<'a>(pub &'a ScenarioError);

impl fmt::Display for ShownScenarioError<'_> {
    ghost use Rattle.std.specs.Prelude.{Some};
    ghost use Rattle.cli_report.specs.ShownErrors.{scenario_text};

    ghost output = { λ shown. Some (scenario_text (shown.0).now) };

    fn fmt<W: fmt::Write>(&self, f: &mut fmt::Formatter<W>) -> fmt::Result {
        match self.0 {
            ScenarioError::Unknown(None, key) => write!(f, "S2 {}", shown_key(key.as_str())),
            ScenarioError::Unknown(Some(index), key) => {
                write!(f, "S2 traitor[{index}].{}", shown_key(key.as_str()))
            }
            error => write!(f, "{error}"),
        }
    }
}

/// A setting's error that is displayed as usual, but with the control characters of an unknown key escaped.
#[derive(Clone, Copy)]
pub struct ShownSettingError<'a>(pub &'a SettingError);

impl fmt::Display for ShownSettingError<'_> {
    ghost use Rattle.std.specs.Prelude.{Some};
    ghost use Rattle.cli_report.specs.ShownErrors.{setting_text};

    ghost output = { λ shown. Some (setting_text (shown.0).now) };

    fn fmt<W: fmt::Write>(&self, f: &mut fmt::Formatter<W>) -> fmt::Result {
        match self.0 {
            SettingError::Unknown(key) => write!(f, "K2 {}", shown_key(key.as_str())),
            error => write!(f, "{error}"),
        }
    }
}

/// Returns a key that is displayed with its control characters escaped.
fn shown_key(key: &str) -> Escaped<'_>
    ensures text { result.text.now ≡ key.now }
    ensures kept { result.kept ≡ Nothing }
{
    Escaped {
        text: key,
        kept: Kept::Nothing,
    }
}
