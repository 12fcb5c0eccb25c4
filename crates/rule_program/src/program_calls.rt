//! Finds the first call of a program.
ghost use Rattle.std.specs.Prelude.{◌≡◌, ℕ, false, IfSome, IfNone};
ghost use Rattle.rule_program.specs.Calls.{is_call, is_call_at, IsFirstCall};

use insn::{Insn, Program};

/// Returns the unit at which the first call of the program starts, or `None` if it has no call.
pub(crate) fn first_call(program: &Program) -> Option<usize>
    ensures call { IfSome result (IsFirstCall program.now) }
    ensures none { IfNone result ((unit : ℕ) → is_call_at program.now unit ≡ false) }
{
    for unit in 0..program.units() {
        if is_call_at(program, unit) {
            return Some(unit);
        }
    }
    None
}

/// Returns whether a call starts at this unit.
fn is_call_at(program: &Program, unit: usize) -> bool
    ensures { result ≡ is_call_at program.now unit }
{
    match program.at(unit) {
        Some(insn) => is_call(insn),
        None => false,
    }
}

/// Returns whether the instruction is a call.
fn is_call(insn: Insn) -> bool
    ensures { result ≡ is_call insn }
{
    matches!(insn, Insn::Call { .. })
}
