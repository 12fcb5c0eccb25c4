//! Defines the errors of `muster` and `gather`.
ghost use Rattle.std.specs.Prelude.{◌≡◌};
ghost use Rattle.threads.specs.declared.error.MusterError.TheVariants.{Memory};

use std::alloc::{AllocError, AllocFailed};
use std::error::Error;
use std::fmt;

/// Why `muster` returns no chronicle, or `gather` no letters.
#[derive(Clone, Copy, Debug, PartialEq, Eq)]
pub enum MusterError {
    /// An allocation failed.
    Memory,
    /// M2: the ledger does not account for the letters, or the board's first words were not the scenario's.
    Unaccounted,
    /// M3: a thread could not be started.
    Spawn,
    /// M4: the post had no room for a general's letter.
    Post,
}

impl fmt::Display for MusterError {
    ghost use Rattle.std.specs.Prelude.{Some};
    ghost use Rattle.threads.specs.ErrorText.{told};

    ghost output = { λ error. Some (told error) };

    fn fmt<W: fmt::Write>(&self, f: &mut fmt::Formatter<W>) -> fmt::Result {
        f.write_str(match self {
            MusterError::Memory => "out of memory",
            MusterError::Unaccounted => "M2",
            MusterError::Spawn => "M3",
            MusterError::Post => "M4",
        })
    }
}

impl Error for MusterError {}

impl From<AllocError> for MusterError {
    ghost from_gives = { λ _ e. e ≡ Memory };

    fn from(_e: AllocError) -> MusterError {
        MusterError::Memory
    }
}

impl<T: Drop> From<AllocFailed<T>> for MusterError {
    ghost from_gives = { λ _ e. e ≡ Memory };

    fn from(_e: AllocFailed<T>) -> MusterError {
        MusterError::Memory
    }
}
