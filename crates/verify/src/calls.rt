//! Calls of helpers: checks their arguments, and changes the abstract state as the call does.
ghost use Rattle.std.specs.Prelude.{◌≡◌, ◌+◌, ◌*◌, ◌≤◌, ◌<◌, true, [], ◌∷◌, None, Some};
ghost use Rattle.absval.specs.NumberSets.{within, greatest};
ghost use Rattle.semantics.specs.Limits.{board_words, most_generals};
ghost use Rattle.semantics.specs.Call.{helper_of};
ghost use Rattle.absval.specs.Contains.{is_number};
ghost use Rattle.helper.specs.Table.{bound_of, arguments_of};
ghost use Rattle.verify.specs.Registers.{known_at};
ghost use Rattle.verify.specs.Reasons.{unless, outcome};
ghost use Rattle.verify.specs.Calls.{answer_of, argument_reason, taken_reason, arguments_reason, IsBelow, IsPointer, window_from, copy_reason, row_reason, window_reason, call_reason, is_certain, known_behind};
ghost use Rattle.verify.specs.MemoryTable.{write_refused};
ghost use Rattle.verify.specs.Transfer.{written, copied, stack_behind, called};

use crate::memory::check_bytes;
use crate::reason::Reason;
use crate::registers::known_at;
use crate::state::AbsState;
use absmem::AbsStack;
use absval::{AbsVal, NumberSet, Offsets, window_of};
use helper::{Argument, BOARD_WORDS, Helper};
use range::Range;
use semantics::Region;

/// Checks that a helper accepts a value as this argument: a number that is not above the argument's greatest one, or a
/// pointer if the argument is a pointer. Fails with `Unset` or `Argument`.
fn check_argument(argument: Argument, value: AbsVal) -> Result<(), Reason>
    ensures { result ≡ answer_of (argument_reason (bound_of argument) value) }
{
    match value {
        AbsVal::Unset => Err(Reason::Unset),
        AbsVal::Number(numbers) => check_number(argument, numbers),
        AbsVal::Pointer(..) => match argument.greatest() {
            None => Ok(()),
            Some(_) => Err(Reason::Argument),
        },
    }
}

/// Checks that a helper accepts a number as this argument: the argument must be a number, and `numbers` must not exceed
/// its greatest one. Fails with `Argument`.
fn check_number(argument: Argument, numbers: NumberSet) -> Result<(), Reason>
    ensures { result ≡ answer_of (argument_reason (bound_of argument) (AbsVal.Number numbers)) }
{
    match argument.greatest() {
        Some(greatest) if numbers.greatest() <= greatest => Ok(()),
        _ => Err(Reason::Argument),
    }
}

/// Checks the value of a register as an argument of a call. Always succeeds if the helper takes no argument in this
/// register.
fn check_taken(argument: Option<Argument>, value: AbsVal) -> Result<(), Reason>
    ensures { result ≡ answer_of (taken_reason argument value) }
{
    match argument {
        None => Ok(()),
        Some(argument) => check_argument(argument, value),
    }
}

/// Checks the arguments of a call in r1, r2 and r3, in this order. An argument that is `None` is not checked. Fails
/// with `Unset` or `Argument`.
fn check_arguments(
    registers: &[AbsVal; 11],
    first: Option<Argument>,
    second: Option<Argument>,
    third: Option<Argument>,
) -> Result<(), Reason>
    ensures { result ≡ answer_of (arguments_reason (first ∷ second ∷ third ∷ []) 1 registers.now) }
{
    check_taken(first, known_at(registers, 1))?;
    check_taken(second, known_at(registers, 2))?;
    check_taken(third, known_at(registers, 3))
}

/// Returns the numbers that `value` may be. It must be known to be a number.
fn number(value: AbsVal) -> NumberSet
    requires { is_number value ≡ true }
    ensures { value ≡ AbsVal.Number result }
{
    match value {
        AbsVal::Number(numbers) => numbers,
        AbsVal::Unset | AbsVal::Pointer(..) => unreachable!(),
    }
}

/// Returns the region and the offsets of a pointer. `value` must be known to be a pointer.
fn pointer(value: AbsVal) -> (Region, Offsets)
    requires { IsPointer value }
    ensures { value ≡ AbsVal.Pointer result.0 result.1 }
{
    match value {
        AbsVal::Pointer(region, offsets) => (region, offsets),
        AbsVal::Unset | AbsVal::Number(_) => unreachable!(),
    }
}

/// Checks whether a call certainly writes all of the cells that it may write: the pointer has only one possible offset,
/// and there is only one possible count.
fn is_certain(offsets: Offsets, counts: NumberSet) -> bool
    ensures { result ≡ is_certain offsets counts }
{
    offsets.is_one() && counts.is_one()
}

/// Records that a call writes 8-byte words to the stack, at a pointer with these offsets. `counts` contains the
/// possible numbers of words. Fails with `Bounds` if the words may leave the stack.
fn write_words(stack: &mut AbsStack, offsets: Offsets, counts: NumberSet) -> Result<(), Reason>
    requires { greatest counts ≤ board_words }
    ensures { let at = window_from Region.Stack offsets (8 * greatest counts) in
        outcome result stack.new
        ≡ unless (write_refused Region.Stack at) (written (is_certain offsets counts) at stack.old) }
{
    let Some(window) = window_of(Region::Stack, offsets, 0, 8 * counts.greatest() as usize) else {
        return Err(Reason::Bounds);
    };
    if is_certain(offsets, counts) {
        stack.put_bytes(window.place, window.size);
    } else {
        stack.spread_bytes(window.place, window.size);
    }
    Ok(())
}

/// Checks `board_copy`, which copies words of the board to the stack, and records what it writes. `slots` is what is
/// known of the first word's slot, `target` of the pointer, and `counts` of the number of words. Fails with `Argument`,
/// `ContextWrite` or `Bounds`.
fn copy(stack: &mut AbsStack, slots: AbsVal, target: AbsVal, counts: AbsVal) -> Result<(), Reason>
    requires slots { IsBelow board_words slots }
    requires target { IsPointer target }
    requires counts { IsBelow (board_words + 1) counts }
    ensures { outcome result stack.new ≡ unless (copy_reason slots target counts) (copied target counts stack.old) }
{
    let slots = number(slots);
    let (region, offsets) = pointer(target);
    let counts = number(counts);
    if slots.greatest() + counts.greatest() > BOARD_WORDS {
        return Err(Reason::Argument);
    }
    match region {
        Region::Context => Err(Reason::ContextWrite),
        Region::Stack => write_words(stack, offsets, counts),
    }
}

/// Checks that `send_row` can read orders of 4 bytes each at the pointer `source`. `counts` is what is known of the
/// number of orders. Fails with `Bounds` or `StackUnset`.
fn check_row(stack: &AbsStack, source: AbsVal, counts: AbsVal) -> Result<(), Reason>
    requires source { IsPointer source }
    requires counts { IsBelow (most_generals + 1) counts }
    ensures { result ≡ answer_of (row_reason stack.now source counts) }
{
    let (region, offsets) = pointer(source);
    let counts = number(counts);
    let Some(window) = window_of(region, offsets, 0, 4 * counts.greatest() as usize) else {
        return Err(Reason::Bounds);
    };
    check_bytes(stack, region, window)
}

/// Checks the memory that a call reads or writes at its pointer, and records what it writes. Most helpers access no
/// memory. Fails with the reason for which the memory is rejected.
fn pass_window(state: &mut AbsState, helper: Helper) -> Result<(), Reason>
    requires { arguments_reason (arguments_of helper) 1 state.old.registers ≡ None }
    ensures { outcome result state.new ≡ unless (window_reason helper state.old) (record state.old {
      stack =
          stack_behind helper state.old;
    }) }
{
    let first = state.registers[1];
    let second = state.registers[2];
    let third = state.registers[3];
    match helper {
        Helper::BoardCopy => copy(&mut state.stack, first, second, third),
        Helper::SendRow => check_row(&state.stack, second, third),
        _ => Ok(()),
    }
}

/// Records the registers after a call: r0 is a number in `range`, and r1 to r5 are unset.
fn put_result(registers: &mut [AbsVal; 11], range: Range)
    ensures { registers.new ≡ known_behind (within range) registers.old }
{
    registers[0] = AbsVal::Number(NumberSet::within(range));
    for r in 1..6 {
        registers[r] = AbsVal::Unset;
    }
}

/// Checks a call of the helper with the given number, and changes the abstract state to what is known after the call.
/// Fails with the reason for which the call is rejected.
pub fn call(state: &mut AbsState, number: i32) -> Result<(), Reason>
    ensures { outcome result state.new ≡ unless (call_reason state.old number) (called (helper_of number) state.old) }
{
    let Some(helper) = helper::helper_of(number) else {
        return Err(Reason::Helper);
    };
    let [first, second, third] = helper::arguments(helper);
    check_arguments(&state.registers, first, second, third)?;
    pass_window(state, helper)?;
    put_result(&mut state.registers, helper::result(helper));
    Ok(())
}
