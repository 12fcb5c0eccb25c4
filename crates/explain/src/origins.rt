//! Finds the register from which a number of either sign was computed, if that register's number may itself have either
//! sign. A number has either sign if, read as signed, it may be above or below 0.
ghost use Rattle.std.specs.Prelude.{◌≡◌, ◌<◌, IfSome, option_map, slice_get};
ghost use Rattle.insn.specs.Program.{instruction_at};
ghost use Rattle.reaching.specs.Marks.{known_by};
ghost use Rattle.explain.specs.Origins.{is_either_sign, number_at, computed_of, is_set, last_set, origin_at, origin_of, summed, other_number};

use crate::sentence::{RegisterMisuse, Sentence};
use absval::AbsVal;
use helper::reads::{of_first, of_operand};
use insn::{Insn, Operand, Program, Reg};
use reaching::{UnitMark, known_by};
use verify::AbsState;
use word::{Operation, Width};

/// Checks whether a value is a number that, read as signed, may be above or below 0.
fn is_either_sign(value: AbsVal) -> bool
    ensures { result ≡ is_either_sign value }
{
    match value {
        AbsVal::Number(numbers) => numbers.as_signed().is_none(),
        AbsVal::Unset | AbsVal::Pointer(..) => false,
    }
}

/// Returns the register if its number, read as signed, may be above or below 0, and otherwise `None`.
fn number_at(state: &AbsState, register: Option<Reg>) -> Option<Reg>
    ensures { result ≡ number_at state.now.registers register }
{
    let r = register?;
    if is_either_sign(state.known(r)) {
        Some(r)
    } else {
        None
    }
}

/// Returns the first register that an arithmetic instruction reads and whose number, read as signed, may be above or
/// below 0. Returns `None` if there is none, or for `arsh`, which is explained by a rule of its own.
fn computed_of(insn: &Insn, state: &AbsState) -> Option<Reg>
    ensures { result ≡ computed_of insn.now state.now.registers }
{
    let Insn::Arithmetic {
        operation,
        dst,
        operand,
        ..
    } = insn
    else {
        return None;
    };
    if let Operation::ArithmeticShiftRight = operation {
        return None;
    }
    match number_at(state, of_first(*operation, *dst)) {
        Some(r) => Some(r),
        None => number_at(state, of_operand(*operand)),
    }
}

/// Checks whether a unit is marked as setting the subject, the register or stack cell in question.
pub(crate) fn is_set(marks: &[UnitMark], unit: usize) -> bool
    ensures { result ≡ is_set (slice_get marks.now unit) }
{
    match marks.get(unit) {
        Some(UnitMark::Sets) => true,
        _ => false,
    }
}

/// Returns the last unit below `unit` that is marked as setting the subject, or `None` if there is none.
pub(crate) fn last_set(marks: &[UnitMark], unit: usize) -> Option<usize>
    ensures set { result ≡ last_set marks.now unit }
    ensures below { IfSome result (λ n. n < unit) }
{
    if unit == 0 {
        return None;
    }
    if is_set(marks, unit - 1) {
        return Some(unit - 1);
    }
    last_set(marks, unit - 1)
}

/// Returns the register from which the instruction at `unit` computes its result, and `unit`. Returns `None` if no
/// number that it reads may be above or below 0, if no instruction starts there, or if no path leads there.
fn origin_at(unit: usize, insn: Option<Insn>, state: Option<&AbsState>) -> Option<(Reg, usize)>
    ensures origin { result ≡ origin_at unit insn (option_map (λ a. a.now) state.entry) }
    ensures there { IfSome result (λ origin. origin.1 ≡ unit) }
{
    let Some(insn) = insn else {
        return None;
    };
    let Some(state) = state else {
        return None;
    };
    let r = computed_of(&insn, state)?;
    Some((r, unit))
}

/// Finds the last unit that set the subject below `unit`. Returns the register from which it was computed there, whose
/// number may be above or below 0, and that unit. Returns `None` if there is no such register.
pub(crate) fn origin_of(
    program: &Program,
    states: &[Option<AbsState>],
    marks: &[UnitMark],
    unit: usize,
) -> Option<(Reg, usize)>
    ensures origin { result ≡ origin_of program.now (slice_get states.now) marks.now unit }
    ensures below { IfSome result (λ origin. origin.1 < unit) }
{
    let place = last_set(marks, unit)?;
    origin_at(place, program.at(place), known_by(states, place))
}

/// Returns the register of the number if an instruction adds a pointer to a number, in the number's register, and is
/// rejected for this. Otherwise returns `None`.
fn summed(insn: &Insn, sentence: &Sentence) -> Option<Reg>
    ensures { result ≡ summed insn.now sentence.now }
{
    let Sentence::Register(RegisterMisuse::Computed(_, _)) = sentence else {
        return None;
    };
    match insn {
        Insn::Arithmetic {
            width: Width::W64,
            operation: Operation::Add,
            dst,
            operand: Operand::Register(_),
        } => Some(*dst),
        _ => None,
    }
}

/// Returns the register of the number if an instruction is rejected because it adds a pointer to that number, and the
/// number may be above or below 0. Otherwise returns `None`.
pub(crate) fn other_number(
    insn: &Insn,
    state: Option<&AbsState>,
    sentence: &Sentence,
) -> Option<Reg>
    ensures { result ≡ other_number insn.now (option_map (λ a. a.now) state.entry) sentence.now }
{
    number_at(state?, summed(insn, sentence))
}
