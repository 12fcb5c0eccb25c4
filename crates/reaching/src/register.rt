//! Finds registers by their numbers, and the register to which an instruction writes its result.
ghost use Rattle.std.specs.Prelude.{◌≡◌, ◌<◌};
ghost use Rattle.verify.specs.Registers.{known_at};
ghost use Rattle.reaching.specs.Left.{result_of};

use absval::AbsVal;
use helper::reads::numbered;
use insn::{Insn, Reg};

/// Returns what is known of the register with this number, 0 to 10.
pub(crate) fn known_at(registers: &[AbsVal; 11], number: usize) -> AbsVal
    requires { number < 11 }
    ensures { result ≡ known_at registers.now number }
{
    registers[number]
}

/// Returns the register to which an instruction writes its result, which is r0 for a call. Returns `None` for jumps,
/// stores and the exit.
pub fn result_of(insn: &Insn) -> Option<Reg>
    ensures { result ≡ result_of insn.now }
{
    match insn {
        Insn::Arithmetic { dst, .. }
        | Insn::Negate { dst, .. }
        | Insn::SignExtend { dst, .. }
        | Insn::Swap { dst, .. }
        | Insn::LoadImmediate { dst, .. }
        | Insn::Load { dst, .. }
        | Insn::LoadSigned { dst, .. } => Some(*dst),
        Insn::Call { .. } => Some(numbered(0)),
        Insn::Jump { .. }
        | Insn::LongJump { .. }
        | Insn::Branch { .. }
        | Insn::Store { .. }
        | Insn::Exit => None,
    }
}
