//! Finds the registers that an instruction reads.
ghost use Rattle.std.specs.Prelude.{◌≡◌, ◌≤◌, ◌∷◌, []};
ghost use Rattle.semantics.specs.Call.{helper_of};
ghost use Rattle.helper.specs.declared.argument.Argument.{Argument};
ghost use Rattle.helper.specs.Reads.{of_operand, of_first, of_argument, of_helper, read_by};

use crate::argument::Argument;
use crate::table::{arguments, helper_of};
use insn::{Insn, Operand, Reg};
use word::Operation;

/// Up to three registers.
pub type RegisterTriple = [Option<Reg>; 3];

/// Returns the register of an operand, or `None` if the operand is an immediate number.
pub fn of_operand(operand: Operand) -> Option<Reg>
    ensures { result ≡ of_operand operand }
{
    match operand {
        Operand::Register(r) => Some(r),
        Operand::Immediate(_) => None,
    }
}

/// Returns the register `dst` if the operation reads it, or `None` for a move, which only writes it.
pub fn of_first(operation: Operation, dst: Reg) -> Option<Reg>
    ensures { result ≡ of_first operation dst }
{
    match operation {
        Operation::Move => None,
        _ => Some(dst),
    }
}

/// Returns the register with the given number.
pub fn numbered(number: u8) -> Reg
    requires { number ≤ 10 }
    ensures { result ≡ number }
{
    match Reg::new(number) {
        Some(r) => r,
        None => unreachable!(),
    }
}

/// Returns the register with this number, or `None` if the helper takes no argument in it.
fn of_argument(number: u8, argument: Option<Argument>) -> Option<Reg>
    requires { number ≤ 10 }
    ensures { result ≡ of_argument number argument }
{
    match argument {
        None => None,
        Some(_) => Some(numbered(number)),
    }
}

/// Returns the registers in which the helper with this number takes its arguments, or no registers if there is no such
/// helper.
fn of_call(number: i32) -> RegisterTriple
    ensures { result ≡ of_helper (helper_of number) }
{
    let Some(helper) = helper_of(number) else {
        return [None, None, None];
    };
    let [first, second, third] = arguments(helper);
    [
        of_argument(1, first),
        of_argument(2, second),
        of_argument(3, third),
    ]
}

/// Returns the registers that an instruction reads, in the order in which the verifier checks that they are set.
pub fn read_by(insn: &Insn) -> RegisterTriple
    ensures { result ≡ read_by insn.now }
{
    match insn {
        Insn::Arithmetic {
            operation,
            dst,
            operand,
            ..
        } => [of_first(*operation, *dst), of_operand(*operand), None],
        Insn::Branch { dst, operand, .. } => [Some(*dst), of_operand(*operand), None],
        Insn::Negate { dst, .. } | Insn::Swap { dst, .. } => [Some(*dst), None, None],
        Insn::SignExtend { src, .. } => [Some(*src), None, None],
        Insn::Load { base, .. } | Insn::LoadSigned { base, .. } => [Some(*base), None, None],
        Insn::Store { base, source, .. } => [Some(*base), of_operand(*source), None],
        Insn::Call { helper } => of_call(*helper),
        Insn::Exit => [Some(numbered(0)), None, None],
        Insn::LoadImmediate { .. } | Insn::Jump { .. } | Insn::LongJump { .. } => [
            None, None, None,
        ],
    }
}
