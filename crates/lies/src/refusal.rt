//! Why the search gives no answer.
use book::TableError;
use std::alloc::AllocError;
use std::error::Error;
use std::fmt;

/// The reason why the search gives no answer.
#[derive(Clone, Copy, Debug, PartialEq, Eq, Drop)]
pub enum BreakError {
    /// There is no message table with these numbers, or no memory.
    Table(TableError),
}

impl From<AllocError> for BreakError {
    ghost use Rattle.std.specs.Prelude.{◌≡◌};
    ghost use Rattle.lies.specs.Refusal.{no_memory};

    ghost from_gives = { λ _ e. e ≡ no_memory };

    fn from(_error: AllocError) -> BreakError {
        BreakError::Table(TableError::Memory)
    }
}
