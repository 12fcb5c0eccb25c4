//! Errors of the verifier: why a program is rejected or could not be checked.
use crate::reason::Reason;
use insn::Program;
use std::alloc::AllocError;
use std::error::Error;
use std::fmt;

/// Why a program is rejected or could not be checked.
#[derive(Clone, Copy, Debug, PartialEq, Eq, Drop)]
pub enum VerifyError {
    /// The reason for which an instruction is rejected, and the unit where it starts. A unit is 8 bytes of bytecode.
    At(Reason, usize),
    /// The verifier ran out of memory.
    Memory,
}

impl fmt::Display for VerifyError {
    ghost use Rattle.std.specs.Prelude.{Some};
    ghost use Rattle.verify.specs.ErrorText.{told};

    ghost output = { λ fault. Some (told fault) };

    fn fmt<W: fmt::Write>(&self, f: &mut fmt::Formatter<W>) -> fmt::Result {
        match self {
            VerifyError::At(reason, unit) => write!(f, "{reason} unit {unit}"),
            VerifyError::Memory => f.write_str("out of memory"),
        }
    }
}

impl Error for VerifyError {}

impl From<AllocError> for VerifyError {
    ghost use Rattle.std.specs.Prelude.{◌≡◌};
    ghost use Rattle.verify.specs.declared.error.VerifyError.TheVariants.{Memory};

    ghost from_gives = { λ _ e. e ≡ Memory };

    fn from(_e: AllocError) -> VerifyError {
        VerifyError::Memory
    }
}

/// A program that was not accepted, returned to the caller, and the error.
#[derive(Drop)]
pub struct Refused {
    /// The program that was rejected.
    pub program: Program,
    /// Why the program was not accepted.
    pub fault: VerifyError,
}
