//! Faults of bytecode, and the errors of decoding.
ghost use Rattle.std.specs.Prelude.{◌≡◌};
ghost use Rattle.codec.specs.declared.fault.CodecError.TheVariants.{Memory};

use std::alloc::{AllocError, AllocFailed};
use std::error::Error;
use std::fmt;

/// What is wrong with bytes that encode no program.
#[derive(Clone, Copy, Debug, PartialEq, Eq, Drop)]
pub enum CodecFault {
    /// C1: the length is not a multiple of 8.
    Length,
    /// C2: no instruction has this opcode.
    Opcode,
    /// C3: a field that must be zero is not: one that the instruction does not use, or one in the second unit of a wide
    /// instruction.
    Reserved,
    /// C4: the second unit of a wide instruction is missing.
    WideCut,
    /// C5: the instruction uses a register above r10.
    Register,
    /// C6: the instruction is in RFC 9669, but is not supported.
    LeftOut,
    /// C7: the `offset` or `imm` field, which selects the instruction, has a value that selects none.
    Operand,
    /// C8: the program has no units, or more than 4,096.
    Count,
}

impl fmt::Display for CodecFault {
    ghost use Rattle.std.specs.Prelude.{Some};
    ghost use Rattle.codec.specs.ErrorText.{code_of};

    ghost output = { λ fault. Some (code_of fault) };

    fn fmt<W: fmt::Write>(&self, f: &mut fmt::Formatter<W>) -> fmt::Result {
        f.write_str(match self {
            CodecFault::Length => "C1",
            CodecFault::Opcode => "C2",
            CodecFault::Reserved => "C3",
            CodecFault::WideCut => "C4",
            CodecFault::Register => "C5",
            CodecFault::LeftOut => "C6",
            CodecFault::Operand => "C7",
            CodecFault::Count => "C8",
        })
    }
}

impl Error for CodecFault {}

/// Why decoding failed: the first fault with its unit, or out of memory.
#[derive(Clone, Copy, Debug, PartialEq, Eq, Drop)]
pub enum CodecError {
    /// The fault, and the unit where the instruction at fault begins. For `Length`, the unit is the incomplete one, and
    /// for `Count` it is 0.
    At(CodecFault, usize),
    Memory,
}

impl fmt::Display for CodecError {
    ghost use Rattle.std.specs.Prelude.{Some};
    ghost use Rattle.codec.specs.ErrorText.{told};

    ghost output = { λ error. Some (told error) };

    fn fmt<W: fmt::Write>(&self, f: &mut fmt::Formatter<W>) -> fmt::Result {
        match self {
            CodecError::At(fault, unit) => write!(f, "{fault} unit {unit}"),
            CodecError::Memory => f.write_str("out of memory"),
        }
    }
}

impl Error for CodecError {}

impl From<AllocError> for CodecError {
    ghost from_gives = { λ _ e. e ≡ Memory };

    fn from(_e: AllocError) -> CodecError {
        CodecError::Memory
    }
}

impl<T: Drop> From<AllocFailed<T>> for CodecError {
    ghost from_gives = { λ _ e. e ≡ Memory };

    fn from(_e: AllocFailed<T>) -> CodecError {
        CodecError::Memory
    }
}
