//! Finds what is wrong with a rejected call: no such helper, or an argument that the helper does not accept.
ghost use Rattle.std.specs.Prelude.{◌≡◌, ◌≤◌, option_map, ◌+◌, Some};
ghost use Rattle.insn.specs.declared.insn.Insn.{Insn};
ghost use Rattle.helper.specs.Table.{bound_of, arguments_of};
ghost use Rattle.explain.specs.Shortfalls.{misfit_of, misfit_at, past_board, arguments_misfit, call_misfit, no_helper};

use crate::sentence::{Misfit, Sentence};
use absval::{AbsVal, NumberSet};
use helper::reads::numbered;
use helper::{Argument, BOARD_WORDS, Helper};
use insn::{Insn, Reg};
use verify::AbsState;

/// Returns the sentence that says that the argument in register `r` may be greater than `most`, or `None` if it cannot.
fn above(helper: Helper, r: Reg, numbers: NumberSet, most: u64) -> Option<Sentence>
    ensures { result ≡ misfit_of helper r (Some (most + 1)) (AbsVal.Number numbers) }
{
    if numbers.greatest() <= most {
        return None;
    }
    let value = AbsVal::Number(numbers);
    Some(Sentence::Call(Misfit::Above(helper, r, value, most)))
}

/// Returns the sentence that says that the argument in register `r` is rejected. The helper accepts a number up to its
/// limit or, if it has no limit, a pointer. `value` is what is known of the argument. Returns `None` if the argument is
/// accepted, or if it should be a pointer and may be unset.
fn misfit_of(helper: Helper, r: Reg, argument: Argument, value: AbsVal) -> Option<Sentence>
    ensures { result ≡ misfit_of helper r (bound_of argument) value }
{
    match (argument.greatest(), value) {
        (Some(most), AbsVal::Number(numbers)) => above(helper, r, numbers, most),
        (Some(most), _) => Some(Sentence::Call(Misfit::Above(helper, r, value, most))),
        (None, AbsVal::Number(_)) => { Some(Sentence::Call(Misfit::NoPointer(helper, r, value))) }
        (None, _) => None,
    }
}

/// Returns the sentence that says that the argument in register `r` is rejected. Returns `None` if the helper accepts
/// it, if it should be a pointer and may be unset, or if the helper takes no argument there.
fn misfit_at(
    helper: Helper,
    state: &AbsState,
    r: Reg,
    argument: Option<Argument>,
) -> Option<Sentence>
    ensures { result ≡ misfit_at helper state.now.registers r argument }
{
    let argument = argument?;
    misfit_of(helper, r, argument, state.known(r))
}

/// Returns the sentence that says that the words from a slot on may go past the end of the board, which has 64. It is
/// not checked that they may. `counts` is what is known of their number. Returns `None` if slot or count is not known
/// to be a number up to 64.
fn past_board(slots: AbsVal, counts: AbsVal) -> Option<Sentence>
    ensures { result ≡ past_board slots counts }
{
    let AbsVal::Number(slots) = slots else {
        return None;
    };
    let AbsVal::Number(counts) = counts else {
        return None;
    };
    if slots.greatest() > BOARD_WORDS || counts.greatest() > BOARD_WORDS {
        return None;
    }
    let sum = slots.greatest() + counts.greatest();
    Some(Sentence::Call(Misfit::Board(sum)))
}

/// Returns the sentence that says that the arguments of a call are rejected: the first that the helper does not accept
/// or, if there is none, that slot and count together may go past the end of the board. Returns `None` if there is
/// none, and r1 or r3 is not known to be a number up to 64.
fn arguments_misfit(
    helper: Helper,
    state: &AbsState,
    arguments: [Option<Argument>; 3],
) -> Option<Sentence>
    ensures { result ≡ arguments_misfit helper state.now.registers arguments }
{
    let [first, second, third] = arguments;
    if let Some(sentence) = misfit_at(helper, state, numbered(1), first) {
        return Some(sentence);
    }
    if let Some(sentence) = misfit_at(helper, state, numbered(2), second) {
        return Some(sentence);
    }
    if let Some(sentence) = misfit_at(helper, state, numbered(3), third) {
        return Some(sentence);
    }
    let slots = state.known(numbered(1));
    past_board(slots, state.known(numbered(3)))
}

/// Returns the sentence that says that a helper does not accept the arguments of a call. Returns `None` if the
/// instruction is not a call of a helper, or if no sentence fits its arguments.
pub(crate) fn call_misfit(insn: &Insn, state: &AbsState) -> Option<Sentence>
    ensures { result ≡ call_misfit insn.now state.now.registers }
{
    let Insn::Call { helper: number } = insn else {
        return None;
    };
    let helper = helper::helper_of(*number)?;
    arguments_misfit(helper, state, helper::arguments(helper))
}

/// Returns the sentence that says that no helper has the number that an instruction calls. It is not checked that none
/// has. Returns `None` if the instruction is not a call.
pub(crate) fn no_helper(insn: &Insn) -> Option<Sentence>
    ensures { result ≡ no_helper insn.now }
{
    let Insn::Call { helper: number } = insn else {
        return None;
    };
    Some(Sentence::Call(Misfit::Helper(*number)))
}
