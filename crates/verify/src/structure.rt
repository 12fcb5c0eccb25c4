//! The structure of programs: checks that jumps lead forward to an instruction, and that the program ends with the
//! exit.
ghost use Rattle.std.specs.Prelude.{◌≡◌, ◌<◌, ◌≤◌, ◌+◌, ◌+ℤ◌, ◌<ℤ◌, ℕ, List, [], pos, length, false, is_some};
ghost use Rattle.insn.specs.declared.insn.Insn.{Insn as InsnValue};
ghost use Rattle.insn.specs.Program.{slots_of};
ghost use Rattle.verify.specs.Structure.{first_fault, target_checks, jump_checks, checks_at, checks_from, last_checks, structural_fault, is_exit};

use crate::error::VerifyError;
use crate::reason::Reason;
use insn::{Insn, Program};

/// Returns the unit to which a jump at `unit` by `distance` leads. It may be outside the program, and even negative.
pub(crate) fn target(unit: usize, distance: i32) -> i64
    requires { unit < 4096 }
    ensures { result ≡ pos (unit + 1) +ℤ distance }
{
    unit as i64 + 1 + i64::from(distance)
}

/// Returns the unit to which a jump at `unit` by `distance` leads. It must lead forward.
pub(crate) fn forward_target(unit: usize, distance: i32) -> usize
    requires bound { unit < 4096 }
    requires forward { pos unit <ℤ (pos (unit + 1) +ℤ distance) }
    ensures { pos result ≡ pos (unit + 1) +ℤ distance }
{
    target(unit, distance) as usize
}

/// Returns the fault of a jump at `unit` by `distance`, or `None` if it leads forward to an instruction. `end` is the
/// program's number of units.
fn target_fault(program: &Program, end: usize, unit: usize, distance: i32) -> Option<VerifyError>
    requires end { end ≡ length (slots_of program.now) }
    requires bound { end ≤ 4096 }
    requires inside { unit < end }
    ensures { result ≡ first_fault (target_checks program.now unit (pos (unit + 1) +ℤ distance)) }
{
    let target = target(unit, distance);
    if target <= unit as i64 {
        return Some(VerifyError::At(Reason::BackJump, unit));
    }
    let target = target as usize;
    if target >= end {
        return Some(VerifyError::At(Reason::JumpOut, unit));
    }
    if program.at(target).is_none() {
        return Some(VerifyError::At(Reason::JumpInWide, unit));
    }
    None
}

/// Returns the fault of the instruction at `unit` if it is a jump that does not lead forward to an instruction, and
/// otherwise `None`. `end` is the program's number of units.
#[inline(always)]
fn jump_fault(program: &Program, end: usize, unit: usize, insn: &Insn) -> Option<VerifyError>
    requires end { end ≡ length (slots_of program.now) }
    requires bound { end ≤ 4096 }
    requires inside { unit < end }
    ensures { result ≡ first_fault (jump_checks program.now unit insn.now) }
{
    match insn {
        Insn::Jump { distance } => target_fault(program, end, unit, i32::from(*distance)),
        Insn::LongJump { distance } => target_fault(program, end, unit, *distance),
        Insn::Branch { distance, .. } => target_fault(program, end, unit, i32::from(*distance)),
        _ => None,
    }
}

/// Checks whether an instruction is a jump.
#[inline(always)]
fn is_jump(insn: &Insn) -> bool
    ensures { result ≡ false → (program : List InsnValue) (unit : ℕ) → jump_checks program unit insn.now ≡ [] }
{
    matches!(
        insn,
        Insn::Jump { .. } | Insn::LongJump { .. } | Insn::Branch { .. }
    )
}

/// Returns the fault of the instruction with this index if it is a jump that does not lead forward to an instruction,
/// and otherwise `None`. `end` is the program's number of units.
#[inline(always)]
fn fault_of(program: &Program, end: usize, index: usize) -> Option<VerifyError>
    requires end { end ≡ length (slots_of program.now) }
    requires bound { end ≤ 4096 }
    requires inside { index < length program.now }
    ensures { result ≡ first_fault (checks_at program.now 0 program.now index) }
{
    let unit = program.unit_of(index);
    jump_fault(program, end, unit, &program.instructions()[index])
}

/// Checks whether the instruction with this index is a jump that does not lead forward to an instruction. `end` is the
/// program's number of units.
#[inline(never)]
fn is_faulty(program: &Program, end: usize, index: usize) -> bool
    requires end { end ≡ length (slots_of program.now) }
    requires bound { end ≤ 4096 }
    requires inside { index < length program.now }
    ensures { result ≡ is_some (first_fault (checks_at program.now 0 program.now index)) }
{
    fault_of(program, end, index).is_some()
}

/// Checks whether the instruction with this index is a jump that does not lead forward to an instruction. The unit
/// where it starts is computed only for jumps, to save time. `end` is the program's number of units.
#[inline(always)]
fn has_fault(program: &Program, end: usize, index: usize) -> bool
    requires end { end ≡ length (slots_of program.now) }
    requires bound { end ≤ 4096 }
    requires inside { index < length program.now }
    ensures { result ≡ is_some (first_fault (checks_at program.now 0 program.now index)) }
{
    if !is_jump(&program.instructions()[index]) {
        return false;
    }
    is_faulty(program, end, index)
}

/// Returns the fault of the first jump that does not lead forward to an instruction, or `None` if there is no such
/// jump.
fn first_jump_fault(program: &Program) -> Option<VerifyError>
    ensures { result ≡ first_fault (checks_from program.now 0 program.now) }
{
    let end = program.units();
    for index in 0..program.len() {
        if has_fault(program, end, index) {
            return fault_of(program, end, index);
        }
    }
    None
}

/// Checks whether an instruction is the exit.
fn is_the_exit(insn: &Insn) -> bool
    ensures { result ≡ is_exit insn.now }
{
    match insn {
        Insn::Exit => true,
        _ => false,
    }
}

/// Returns the fault `LastNotExit` if the last instruction is not the exit, and otherwise `None`.
fn last_fault(program: &Program) -> Option<VerifyError>
    ensures { result ≡ first_fault (last_checks 0 program.now) }
{
    let last = program.len() - 1;
    if is_the_exit(&program.instructions()[last]) {
        return None;
    }
    Some(VerifyError::At(Reason::LastNotExit, program.unit_of(last)))
}

/// Returns the first fault of a program's structure: that of a jump, or else of the last instruction. Returns `None` if
/// there is none.
pub(crate) fn find_fault(program: &Program) -> Option<VerifyError>
    ensures { result ≡ structural_fault program.now }
{
    if let Some(fault) = first_jump_fault(program) {
        return Some(fault);
    }
    last_fault(program)
}
