//! Reasons for which the verifier rejects an instruction, V1 to V13.
use std::error::Error;
use std::fmt;

/// The reason for which the verifier rejects an instruction.
#[derive(Clone, Copy, Debug, PartialEq, Eq, Drop)]
pub enum Reason {
    /// V1: a jump leads to itself or to an earlier instruction.
    BackJump,
    /// V2: a jump leads past the end of the program.
    JumpOut,
    /// V3: a jump leads into the second half of a wide instruction.
    JumpInWide,
    /// V4: the last instruction is not the exit.
    LastNotExit,
    /// V5: a register is read that may be unset, or that holds a number on one path and a pointer on another.
    Unset,
    /// V6: r10, the frame pointer, is written.
    FrameWrite,
    /// V7: a pointer is used in a way that is not allowed, or the base of an access is not a pointer.
    PointerUse,
    /// V8: an access may leave its region.
    Bounds,
    /// V9: a stack cell is read that may not hold a byte.
    StackUnset,
    /// V10: the context is written.
    ContextWrite,
    /// V11: a helper is called that does not exist.
    Helper,
    /// V12: a helper is called with an argument that it does not accept.
    Argument,
    /// V13: the program ends with a pointer in r0.
    ExitPointer,
}

impl fmt::Display for Reason {
    ghost use Rattle.std.specs.Prelude.{Some};
    ghost use Rattle.verify.specs.ErrorText.{code_of};

    ghost output = { λ reason. Some (code_of reason) };

    fn fmt<W: fmt::Write>(&self, f: &mut fmt::Formatter<W>) -> fmt::Result {
        f.write_str(match self {
            Reason::BackJump => "V1",
            Reason::JumpOut => "V2",
            Reason::JumpInWide => "V3",
            Reason::LastNotExit => "V4",
            Reason::Unset => "V5",
            Reason::FrameWrite => "V6",
            Reason::PointerUse => "V7",
            Reason::Bounds => "V8",
            Reason::StackUnset => "V9",
            Reason::ContextWrite => "V10",
            Reason::Helper => "V11",
            Reason::Argument => "V12",
            Reason::ExitPointer => "V13",
        })
    }
}

impl Error for Reason {}
