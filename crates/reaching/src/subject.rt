//! Registers and cells of the stack, and whether an instruction sets one of them.
ghost use Rattle.std.specs.Prelude.{◌≡◌};
ghost use Rattle.reaching.specs.Setting.{writes, sets};

use crate::cells::held_at;
use crate::register::result_of;
use crate::transfer::left_by;
use insn::{Insn, Reg};
use verify::AbsState;

/// A register, or a cell of the stack, of which explanations say where it was set. Cells are numbered from 0, the
/// lowest one.
#[derive(Clone, Copy)]
pub enum Subject {
    Register(Reg),
    Cell(u16),
}

/// Checks whether an instruction writes a register. A call writes r0 to r5.
fn writes(insn: &Insn, r: Reg) -> bool
    ensures { result ≡ writes insn.now r }
{
    if let Insn::Call { .. } = insn {
        return r.number() <= 5;
    }
    match result_of(insn) {
        Some(dst) => dst.number() == r.number(),
        None => false,
    }
}

/// Checks whether an instruction changes what is known of a cell of the stack. `state` is known before the instruction.
fn changes(insn: &Insn, cell: u16, state: &AbsState) -> bool
    ensures { result ≡ sets (Subject.Cell cell) insn.now state.now }
{
    let place = usize::from(cell);
    let before = held_at(&state.stack, place);
    !before.is_same(held_at(&left_by(insn, state).stack, place))
}

impl Subject {
    /// Checks whether an instruction sets the register or cell: whether it writes the register, or changes what is
    /// known of the cell. A call writes r0 to r5. `state` is known before the instruction.
    pub fn is_set_by(&self, insn: &Insn, state: &AbsState) -> bool
        ensures { result ≡ sets self.now insn.now state.now }
    {
        match self {
            Subject::Register(r) => writes(insn, *r),
            Subject::Cell(cell) => changes(insn, *cell, state),
        }
    }
}
