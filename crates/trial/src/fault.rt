//! Defines why a text is not a setting: the first fault and its place.
ghost use Rattle.std.specs.Prelude.{◌≡◌};
ghost use Rattle.trial.specs.declared.fault.SettingError.TheVariants.{Memory};

use crate::place::SettingPlace;
use std::alloc::{AllocError, AllocFailed};
use std::fmt;

/// What is wrong at a place of a setting. Its text is a code from K2 to K5.
#[derive(Clone, Copy, Debug, PartialEq, Eq)]
pub enum SettingFault {
    /// The key is missing.
    Key,
    /// The value has the wrong type.
    Kind,
    /// The value is out of its range.
    Range,
    /// There is no such general.
    General,
}

impl fmt::Display for SettingFault {
    ghost use Rattle.std.specs.Prelude.{Some};
    ghost use Rattle.trial.specs.ErrorText.{code_of};

    ghost output = { λ fault. Some (code_of fault) };

    fn fmt<W: fmt::Write>(&self, f: &mut fmt::Formatter<W>) -> fmt::Result {
        f.write_str(match self {
            SettingFault::Key => "K2",
            SettingFault::Kind => "K3",
            SettingFault::Range => "K4",
            SettingFault::General => "K5",
        })
    }
}

/// Why no setting could be read from a text: the text's first fault, or that memory ran out.
#[derive(Debug, Drop)]
pub enum SettingError {
    /// K1: the text is not TOML.
    Toml,
    /// K2: the text has this key, which is not a key of a setting.
    Unknown(String),
    /// K2 to K5: the setting has this fault at this place.
    At(SettingFault, SettingPlace),
    /// Memory ran out.
    Memory,
}

impl fmt::Display for SettingError {
    ghost use Rattle.std.specs.Prelude.{Some};
    ghost use Rattle.trial.specs.ErrorText.{told};

    ghost output = { λ error. Some (told error) };

    fn fmt<W: fmt::Write>(&self, f: &mut fmt::Formatter<W>) -> fmt::Result {
        match self {
            SettingError::Toml => write!(f, "K1"),
            SettingError::Unknown(key) => write!(f, "K2 {key}"),
            SettingError::At(fault, place) => write!(f, "{fault} {place}"),
            SettingError::Memory => write!(f, "out of memory"),
        }
    }
}

impl From<AllocError> for SettingError {
    ghost from_gives = { λ _ e. e ≡ Memory };

    fn from(_e: AllocError) -> SettingError {
        SettingError::Memory
    }
}

impl<T: Drop> From<AllocFailed<T>> for SettingError {
    ghost from_gives = { λ _ e. e ≡ Memory };

    fn from(_e: AllocFailed<T>) -> SettingError {
        SettingError::Memory
    }
}
