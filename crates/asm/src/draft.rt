//! Instructions as the assembler stores them before the distances of their jumps are known.

ghost use Rattle.std.specs.Prelude.{◌≡◌, ◌≤◌};
ghost use Rattle.asm.specs.Program.{source_units};
ghost use Rattle.asm.specs.Views.{source_view};

use crate::operand::Aim;
use insn::{Insn, Operand, Reg};
use word::{Condition, Width};

/// An instruction whose jump distance may not be known yet. A jump to a name gets its distance after all lines are
/// read.
#[derive(Clone, Copy)]
pub enum DraftInstruction {
    Plain(Insn),
    Jump(Aim),
    LongJump(Aim),
    Branch(Width, Condition, Reg, Operand, Aim),
}

/// An instruction as read from a line. `name` is the name to which it jumps, or empty if it jumps to none.
#[derive(Clone, Copy)]
pub struct Statement<'a> {
    pub draft: DraftInstruction,
    pub name: &'a [u8],
}

/// An instruction as read from a line, with the number of that line, counted from 1.
#[derive(Clone, Copy)]
pub struct Kept<'a> {
    pub statement: Statement<'a>,
    pub line: u64,
}

/// Returns the number of units that an instruction takes: 2 for the wide one, and otherwise 1.
pub fn units(statement: &Statement<'_>) -> u64
    ensures units { result ≡ source_units (source_view statement.now) }
    ensures bound { result ≤ 2 }
{
    match &statement.draft {
        DraftInstruction::Plain(insn) => insn.units() as u64,
        _ => 1,
    }
}
