//! The sentence that says why a program is rejected, as data.

use crate::values::NumberSpan;
use absval::AbsVal;
use helper::Helper;
use insn::Reg;
use semantics::Region;

/// Why a program is rejected: which register, stack cell or jump is at fault, what was known of it, and what is
/// required.
#[derive(Clone, Copy)]
pub enum Sentence {
    /// The program's structure is at fault: a jump, or the last instruction.
    Structure(Structure),
    /// A register is misused.
    Register(RegisterMisuse),
    /// Memory is misused.
    Memory(AccessMisuse),
    /// A call does not fit its helper.
    Call(Misfit),
}

/// A fault of a program's structure. The first number in a variant is the unit to which the jump leads.
#[derive(Clone, Copy)]
pub enum Structure {
    /// The jump leads to itself or to an earlier instruction.
    Back(i64),
    /// The jump leads past the end of the program. The second number is the program's number of units.
    Out(i64, usize),
    /// The jump leads into the second half of a wide instruction.
    Inside(i64),
    /// The last instruction is not the exit.
    NoExit,
}

/// A misuse of a register. A variant has the register, and what was known of it.
#[derive(Clone, Copy)]
pub enum RegisterMisuse {
    /// The register may be unset, or hold a number on one path and a pointer on another.
    Unset(Reg),
    /// The program writes r10, the pointer to the end of the stack.
    Frame,
    /// The register would point too far: to these offsets in the region.
    Far(Reg, Region, NumberSpan),
    /// The number in this register moves a pointer, but may be above or below 0.
    EitherSign(Reg, AbsVal),
    /// The register holds a pointer, and the instruction computes with it in a way that is not allowed.
    Computed(Reg, AbsVal),
    /// The register holds a pointer, which cannot be compared.
    Compared(Reg, AbsVal),
    /// The first register holds a pointer that is not stored as a whole. The second is the base register of the store.
    Stored(Reg, AbsVal, Reg, AbsVal),
    /// The register is the base of a load or store, but is not known to hold a pointer.
    NoBase(Reg, AbsVal),
    /// The program exits with a pointer in r0.
    Exit(AbsVal),
}

/// A misuse of memory. A variant has the base register.
#[derive(Clone, Copy)]
pub enum AccessMisuse {
    /// The access may touch bytes outside the region. The numbers are the first and the last offset that it may touch.
    Outside(Reg, Region, NumberSpan),
    /// The access reads this stack cell, which may hold no byte. Cells are numbered from the lowest, 0. The numbers in
    /// between are the first and the last offset that the access may touch.
    Empty(Reg, NumberSpan, u16),
    /// The access stores to the context, which is read-only.
    Context(Reg, AbsVal),
}

/// Why a call does not fit its helper, or calls no helper.
#[derive(Clone, Copy)]
pub enum Misfit {
    /// No helper has this number.
    Helper(i32),
    /// The helper accepts only a number up to this one in the register.
    Above(Helper, Reg, AbsVal, u64),
    /// The helper accepts only a pointer in the register.
    NoPointer(Helper, Reg, AbsVal),
    /// The sum of slot and count may be this number, but the board has only 64 words.
    Board(u64),
}
