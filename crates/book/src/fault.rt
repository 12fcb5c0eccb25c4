//! Why a text is not a message table.
ghost use Rattle.std.specs.Prelude.{◌≡◌};
ghost use Rattle.book.specs.declared.fault.TableError.TheVariants.{Memory};

use std::alloc::AllocError;
use std::error::Error;
use std::fmt;

/// What is wrong with a line of a message table.
#[derive(Clone, Copy, Debug, PartialEq, Eq, Drop)]
pub enum TableFault {
    /// B1: the line does not have the required form, or its order is above 2^32 - 1.
    Line,
    /// B2: the numbers of the first line are out of their limits.
    Range,
    /// B3: the label is not one of the campaign's labels, or the receiver is not a general or is on the label.
    Place,
    /// B4: an earlier line has the same label and receiver.
    Twice,
}

impl fmt::Display for TableFault {
    ghost use Rattle.std.specs.Prelude.{Some};
    ghost use Rattle.book.specs.ErrorText.{code_of};

    ghost output = { λ fault. Some (code_of fault) };

    fn fmt<W: fmt::Write>(&self, f: &mut fmt::Formatter<W>) -> fmt::Result {
        f.write_str(match self {
            TableFault::Line => "B1",
            TableFault::Range => "B2",
            TableFault::Place => "B3",
            TableFault::Twice => "B4",
        })
    }
}

impl Error for TableFault {}

/// Why a text is not read as a message table: its first fault, or too little memory.
#[derive(Clone, Copy, Debug, PartialEq, Eq, Drop)]
pub enum TableError {
    /// The line with this number, counted from 1, has this fault.
    At(TableFault, u64),
    /// The memory does not suffice.
    Memory,
}

impl fmt::Display for TableError {
    ghost use Rattle.std.specs.Prelude.{Some};
    ghost use Rattle.book.specs.ErrorText.{told};

    ghost output = { λ error. Some (told error) };

    fn fmt<W: fmt::Write>(&self, f: &mut fmt::Formatter<W>) -> fmt::Result {
        match self {
            TableError::At(fault, line) => write!(f, "{fault} line {line}"),
            TableError::Memory => f.write_str("out of memory"),
        }
    }
}

impl Error for TableError {}

impl From<AllocError> for TableError {
    ghost from_gives = { λ _ e. e ≡ Memory };

    fn from(_e: AllocError) -> TableError {
        TableError::Memory
    }
}
