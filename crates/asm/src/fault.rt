//! Faults of assembly texts, and the errors of the assembler.

ghost use Rattle.std.specs.Prelude.{◌≡◌, ◌≢◌, OnErr, OnOk};
ghost use Rattle.asm.specs.declared.fault.AsmError.TheVariants.{Memory as OutOfMemory};
ghost use Rattle.asm.specs.declared.fault.LineError.TheVariants.{Memory, Fault as At};

use std::alloc::{AllocError, AllocFailed};
use std::error::Error;
use std::fmt;

/// What is wrong with a line, or with the text as a whole.
#[derive(Clone, Copy, Debug, PartialEq, Eq, Drop)]
pub enum AsmFault {
    /// A1: the line does not have the form `NAME: MNEMONIC OPERANDS ; COMMENT`, or has a character that is not ASCII
    /// before the comment.
    Line,
    /// A2: the mnemonic is unknown.
    Mnemonic,
    /// A3: the number or the kind of the operands is wrong.
    Operand,
    /// A4: a jump leads to a name that is not defined.
    Label,
    /// A5: an earlier line has already defined the name.
    Twice,
    /// A6: a number or distance is outside its range.
    Range,
    /// A7: the program has no units, or more than 4,096.
    Count,
}

impl fmt::Display for AsmFault {
    ghost use Rattle.std.specs.Prelude.{Some};
    ghost use Rattle.asm.specs.ErrorText.{code_of};

    ghost output = { λ fault. Some (code_of fault) };

    fn fmt<W: fmt::Write>(&self, f: &mut fmt::Formatter<W>) -> fmt::Result {
        f.write_str(match self {
            AsmFault::Line => "A1",
            AsmFault::Mnemonic => "A2",
            AsmFault::Operand => "A3",
            AsmFault::Label => "A4",
            AsmFault::Twice => "A5",
            AsmFault::Range => "A6",
            AsmFault::Count => "A7",
        })
    }
}

impl Error for AsmFault {}

/// Why assembling failed: the first fault with its line, or out of memory.
#[derive(Clone, Copy, Debug, PartialEq, Eq, Drop)]
pub enum AsmError {
    /// The fault, and the number of its line, counted from 1. For `Count`, it is the number of lines, or 1 if there are
    /// none.
    At(AsmFault, u64),
    Memory,
}

impl AsmError {
    /// Fails with `AllocError` if this error is out of memory, and succeeds if it is a fault.
    pub(crate) fn want_of_memory(self) -> Result<(), AllocError>
        ensures fault { OnOk result (self ≢ OutOfMemory) }
        ensures memory { OnErr result (self ≡ OutOfMemory) }
    {
        match self {
            AsmError::Memory => Err(AllocError),
            AsmError::At(_, _) => Ok(()),
        }
    }
}

impl fmt::Display for AsmError {
    ghost use Rattle.std.specs.Prelude.{Some};
    ghost use Rattle.asm.specs.ErrorText.{told};

    ghost output = { λ error. Some (told error) };

    fn fmt<W: fmt::Write>(&self, f: &mut fmt::Formatter<W>) -> fmt::Result {
        match self {
            AsmError::At(fault, line) => write!(f, "{fault} line {line}"),
            AsmError::Memory => f.write_str("out of memory"),
        }
    }
}

impl Error for AsmError {}

/// Why a line could not be read: its fault, or out of memory.
#[derive(Clone, Copy, Drop)]
pub enum LineError {
    Memory,
    Fault(AsmFault),
}

impl LineError {
    /// Fails with `AllocError` if this error is out of memory, and succeeds if it is a fault.
    pub(crate) fn want_of_memory(self) -> Result<(), AllocError>
        ensures fault { OnOk result (self ≢ Memory) }
        ensures memory { OnErr result (self ≡ Memory) }
    {
        match self {
            LineError::Memory => Err(AllocError),
            LineError::Fault(_) => Ok(()),
        }
    }
}

impl From<AllocError> for LineError {
    ghost from_gives = { λ _ e. e ≡ Memory };

    fn from(_e: AllocError) -> LineError {
        LineError::Memory
    }
}

impl<T: Drop> From<AllocFailed<T>> for LineError {
    ghost from_gives = { λ _ e. e ≡ Memory };

    fn from(_e: AllocFailed<T>) -> LineError {
        LineError::Memory
    }
}

impl From<AsmFault> for LineError {
    ghost from_gives = { λ f e. e ≡ At f };

    fn from(f: AsmFault) -> LineError {
        LineError::Fault(f)
    }
}

impl From<AllocError> for AsmError {
    ghost from_gives = { λ _ e. e ≡ OutOfMemory };

    fn from(_e: AllocError) -> AsmError {
        AsmError::Memory
    }
}

impl<T: Drop> From<AllocFailed<T>> for AsmError {
    ghost from_gives = { λ _ e. e ≡ OutOfMemory };

    fn from(_e: AllocFailed<T>) -> AsmError {
        AsmError::Memory
    }
}
