//! The instructions of a program, and the operands and sizes that they use.
use crate::reg::Reg;
use word::{ByteOrder, Condition, Narrow, Operation, SwapSize, Width};

/// The second operand of an instruction: a register or an immediate number.
#[derive(Clone, Copy, PartialEq, Eq)]
pub enum Operand {
    Register(Reg),
    Immediate(i32),
}

/// The size of a load or store: 1, 2, 4 or 8 bytes.
#[derive(Clone, Copy, PartialEq, Eq)]
pub enum Size {
    Byte,
    Half,
    Word,
    Double,
}

/// An instruction. Jump distances are in units, counted from the next instruction, and memory offsets are in bytes. A
/// unit is 8 bytes of bytecode.
#[derive(Clone, Copy)]
pub enum Insn {
    /// Sets `dst` to the result of the operation on `dst` and the operand.
    Arithmetic {
        width: Width,
        operation: Operation,
        dst: Reg,
        operand: Operand,
    },
    /// Sets `dst` to its negation.
    Negate {
        width: Width,
        dst: Reg,
    },
    /// Sets `dst` to the low 8, 16 or 32 bits of `src`, sign-extended to the width.
    SignExtend {
        width: Width,
        part: Narrow,
        dst: Reg,
        src: Reg,
    },
    /// Sets `dst` to its low 2, 4 or 8 bytes in the given byte order, with the bytes above them cleared.
    Swap {
        order: ByteOrder,
        size: SwapSize,
        dst: Reg,
    },
    /// Sets `dst` to a 64-bit number. This is the wide instruction, the only one that takes two units.
    LoadImmediate {
        dst: Reg,
        number: u64,
    },
    /// Jumps by `distance` units.
    Jump {
        distance: i16,
    },
    /// Jumps by `distance` units, which may be more than in a `Jump`.
    LongJump {
        distance: i32,
    },
    /// Jumps by `distance` units if the condition holds for `dst` and the operand.
    Branch {
        width: Width,
        condition: Condition,
        dst: Reg,
        operand: Operand,
        distance: i16,
    },
    /// Sets `dst` to the 1, 2, 4 or 8 bytes at `base` plus `offset`.
    Load {
        size: Size,
        dst: Reg,
        base: Reg,
        offset: i16,
    },
    /// Sets `dst` to the 1, 2 or 4 bytes at `base` plus `offset`, sign-extended to 64 bits.
    LoadSigned {
        part: Narrow,
        dst: Reg,
        base: Reg,
        offset: i16,
    },
    /// Stores the low 1, 2, 4 or 8 bytes of the source at `base` plus `offset`.
    Store {
        size: Size,
        base: Reg,
        offset: i16,
        source: Operand,
    },
    /// Calls the helper with this number.
    Call {
        helper: i32,
    },
    /// Ends the program, which returns r0.
    Exit,
}

impl Insn {
    ghost use Rattle.std.specs.Prelude.{◌≡◌, ◌≤◌, ◌↔◌, IsTrue};
    ghost use Rattle.insn.specs.Insn.{units_of, IsWell};

    /// Returns whether the instruction is allowed in a program. Only a sign extension from 32 to 32 bits is not (RFC
    /// 9669, section 4.1).
    pub fn is_well(&self) -> bool
        ensures { IsTrue result ↔ IsWell self.now }
    {
        match self {
            Insn::SignExtend {
                width: Width::W32,
                part: Narrow::Word,
                ..
            } => false,
            _ => true,
        }
    }

    /// Returns the number of 64-bit units that the instruction takes: 2 for the wide one, and otherwise 1 (RFC 9669,
    /// section 3.2).
    pub fn units(&self) -> u16
        ensures units { result ≡ units_of self.now }
        ensures some { 1 ≤ result }
        ensures few { result ≤ 2 }
    {
        match self {
            Insn::LoadImmediate { .. } => 2,
            _ => 1,
        }
    }
}
