//! Defines the errors of a list of accesses: what is wrong with it, and why no schedule makes these accesses.
ghost use Rattle.std.specs.Prelude.{◌≡◌};
ghost use Rattle.campaign_schedules.specs.declared.fault.AccessesError.TheVariants.{Memory};

use std::alloc::{AllocError, AllocFailed};
use std::error::Error;
use std::fmt;

/// What is wrong with a list of accesses.
#[derive(Clone, Copy, Debug, PartialEq, Eq, Drop)]
pub enum AccessFault {
    /// The word at this round and place is not the number of a general, 0 to 12, or the round is the sixth. Round and
    /// place are counted from 1.
    Text(u64, u64),
    /// The access at this round and place, by the general in the last field, is the first that cannot be made. Round
    /// and place are counted from 1.
    Never(u64, u64, u8),
}

impl fmt::Display for AccessFault {
    ghost use Rattle.std.specs.Prelude.{Some};
    ghost use Rattle.campaign_schedules.specs.ErrorText.{fault_told};

    ghost output = { λ fault. Some (fault_told fault) };

    fn fmt<W: fmt::Write>(&self, f: &mut fmt::Formatter<W>) -> fmt::Result {
        match self {
            AccessFault::Text(round, place) => write!(f, "X5 round {round} access {place}"),
            AccessFault::Never(round, place, general) => {
                write!(f, "X6 round {round} access {place} general {general}")
            }
        }
    }
}

impl Error for AccessFault {}

/// Why there is no schedule for a list of accesses.
#[derive(Clone, Copy, Debug, PartialEq, Eq, Drop)]
pub enum AccessesError {
    /// The list has this fault, which is its first.
    At(AccessFault),
    Memory,
}

impl fmt::Display for AccessesError {
    ghost use Rattle.std.specs.Prelude.{Some};
    ghost use Rattle.campaign_schedules.specs.ErrorText.{told};

    ghost output = { λ error. Some (told error) };

    fn fmt<W: fmt::Write>(&self, f: &mut fmt::Formatter<W>) -> fmt::Result {
        match self {
            AccessesError::At(fault) => write!(f, "{fault}"),
            AccessesError::Memory => f.write_str("out of memory"),
        }
    }
}

impl Error for AccessesError {}

impl From<AllocError> for AccessesError {
    ghost from_gives = { λ _ e. e ≡ Memory };

    fn from(_error: AllocError) -> AccessesError {
        AccessesError::Memory
    }
}

impl<T: Drop> From<AllocFailed<T>> for AccessesError {
    ghost from_gives = { λ _ e. e ≡ Memory };

    fn from(_error: AllocFailed<T>) -> AccessesError {
        AccessesError::Memory
    }
}
