//! Functions that do nothing. The contract of each gives the caller's proof a fact about instructions that their types
//! guarantee.
ghost use Rattle.std.specs.Prelude.{◌≤◌, FitsSigned};
ghost use Rattle.std.specs.Int.{w16, w32};
ghost use Rattle.insn.specs.Insn.{IsInsn, IsOperand, IsWell};

use crate::insn::{Insn, Operand};
use crate::reg::Reg;

/// Does nothing. Its contract states that an instruction is well-formed unless it is a sign extension from 32 to 32
/// bits.
pub(crate) fn recall_insn(insn: &Insn)
    requires { IsWell insn.now }
    ensures { IsInsn insn.now }
{
    match insn {
        Insn::Arithmetic { dst, operand, .. } => {
            recall_register(*dst);
            recall_operand(*operand);
        }
        Insn::Negate { dst, .. } | Insn::Swap { dst, .. } => recall_register(*dst),
        Insn::SignExtend { dst, src, .. } => {
            recall_register(*dst);
            recall_register(*src);
        }
        Insn::LoadImmediate { dst, number } => {
            recall_register(*dst);
            let _number = *number;
        }
        Insn::Jump { distance } => recall_short(*distance),
        Insn::LongJump { distance } => recall_long(*distance),
        Insn::Branch {
            dst,
            operand,
            distance,
            ..
        } => {
            recall_register(*dst);
            recall_operand(*operand);
            recall_short(*distance);
        }
        Insn::Load {
            dst,
            base,
            offset,
            ..
        }
        | Insn::LoadSigned {
            dst,
            base,
            offset,
            ..
        } => {
            recall_register(*dst);
            recall_register(*base);
            recall_short(*offset);
        }
        Insn::Store {
            base,
            offset,
            source,
            ..
        } => {
            recall_register(*base);
            recall_short(*offset);
            recall_operand(*source);
        }
        Insn::Call { helper } => recall_long(*helper),
        Insn::Exit => {}
    }
}

/// Does nothing. Its contract states that an operand is one of r0 to r10 or a number of 32 bits.
fn recall_operand(operand: Operand)
    ensures { IsOperand operand }
{
    match operand {
        Operand::Register(register) => recall_register(register),
        Operand::Immediate(number) => recall_long(number),
    }
}

/// Does nothing. Its contract states that a register is one of r0 to r10.
fn recall_register(register: Reg)
    ensures { register ≤ 10 }
{
    let _number = register.number();
}

/// Does nothing. Its contract states that the number fits in 16 bits.
fn recall_short(number: i16)
    ensures { FitsSigned w16 number }
{}

/// Does nothing. Its contract states that the number fits in 32 bits.
fn recall_long(number: i32)
    ensures { FitsSigned w32 number }
{}
