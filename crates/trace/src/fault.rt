//! Defines the errors of schedules and chronicles: what is wrong with a text, and in which line.
ghost use Rattle.std.specs.Prelude.{◌≡◌};
ghost use Rattle.trace.specs.declared.fault.TraceError.TheVariants.{Memory};

use std::alloc::{AllocError, AllocFailed};
use std::error::Error;
use std::fmt;

/// A fault in a line of a schedule or a chronicle.
#[derive(Clone, Copy, Debug, PartialEq, Eq, Drop)]
pub enum TraceFault {
    /// X1: the line is not a valid line of a schedule or a chronicle.
    Line,
    /// X2: the first or second line of a chronicle is missing, or it is not the one for the scenario.
    Scenario,
    /// X3: a line after the second differs from the chronicle of the replay.
    Differs,
}

impl fmt::Display for TraceFault {
    ghost use Rattle.std.specs.Prelude.{Some};
    ghost use Rattle.trace.specs.ErrorText.{code_of};

    ghost output = { λ fault. Some (code_of fault) };

    fn fmt<W: fmt::Write>(&self, f: &mut fmt::Formatter<W>) -> fmt::Result {
        f.write_str(match self {
            TraceFault::Line => "X1",
            TraceFault::Scenario => "X2",
            TraceFault::Differs => "X3",
        })
    }
}

impl Error for TraceFault {}

/// Why a text is not a schedule, or not the chronicle of a scenario, or why a text could not be written.
#[derive(Clone, Copy, Debug, PartialEq, Eq, Drop)]
pub enum TraceError {
    /// The text has this fault in this line, counted from 1.
    At(TraceFault, u64),
    /// X4: the sink failed.
    Write,
    /// An allocation failed.
    Memory,
}

impl fmt::Display for TraceError {
    ghost use Rattle.std.specs.Prelude.{Some};
    ghost use Rattle.trace.specs.ErrorText.{told};

    ghost output = { λ error. Some (told error) };

    fn fmt<W: fmt::Write>(&self, f: &mut fmt::Formatter<W>) -> fmt::Result {
        match self {
            TraceError::At(fault, line) => write!(f, "{fault} line {line}"),
            TraceError::Write => f.write_str("X4"),
            TraceError::Memory => f.write_str("out of memory"),
        }
    }
}

impl Error for TraceError {}

impl From<AllocError> for TraceError {
    ghost from_gives = { λ _ e. e ≡ Memory };

    fn from(_e: AllocError) -> TraceError {
        TraceError::Memory
    }
}

impl<T: Drop> From<AllocFailed<T>> for TraceError {
    ghost from_gives = { λ _ e. e ≡ Memory };

    fn from(_e: AllocFailed<T>) -> TraceError {
        TraceError::Memory
    }
}
