//! The table of helpers: their numbers, the arguments that they accept, and the ranges of what they return.
ghost use Rattle.std.specs.Prelude.{◌≡◌};
ghost use Rattle.semantics.specs.Call.{helper_of};
ghost use Rattle.helper.specs.Table.{arguments_of, AcceptsThese, TestsThese};
ghost use Rattle.helper.specs.Results.{returned_range, Returns};

use crate::argument::{Argument, BOARD_WORDS, MOST_GENERALS, MOST_LABELS};
use range::Range;
use semantics::Helper;

/// Returns the helper with a number from 1 to 11, or `None` for any other number.
pub fn helper_of(number: i32) -> Option<Helper>
    ensures { result ≡ helper_of number }
{
    match number {
        1 => Some(Helper::BoardGet),
        2 => Some(Helper::BoardSwap),
        3 => Some(Helper::BoardAdd),
        4 => Some(Helper::BoardCas),
        5 => Some(Helper::BoardCopy),
        6 => Some(Helper::Send),
        7 => Some(Helper::SendRow),
        8 => Some(Helper::Sway),
        9 => Some(Helper::Honest),
        10 => Some(Helper::SignOrder),
        11 => Some(Helper::PassOn),
        _ => None,
    }
}

/// Returns the kinds of the arguments that a helper takes in r1, r2 and r3, or `None` for a register in which it takes
/// none. A call checks them in this order.
pub fn arguments(helper: Helper) -> [Option<Argument>; 3]
    ensures exact { result ≡ arguments_of helper }
    ensures tests { TestsThese helper (arguments_of helper) }
    ensures accepts { AcceptsThese helper (arguments_of helper) }
{
    let (first, second, third) = match helper {
        Helper::BoardGet => (Argument::Slot, None, None),
        Helper::BoardSwap | Helper::BoardAdd => (Argument::Slot, Some(Argument::Word), None),
        Helper::BoardCas => (Argument::Slot, Some(Argument::Word), Some(Argument::Word)),
        Helper::BoardCopy => (
            Argument::Slot,
            Some(Argument::StackPointer),
            Some(Argument::Words),
        ),
        Helper::Send => (
            Argument::Label,
            Some(Argument::Receiver),
            Some(Argument::Word),
        ),
        Helper::SendRow => (
            Argument::Label,
            Some(Argument::ReadablePointer),
            Some(Argument::Orders),
        ),
        Helper::Sway => (Argument::Receiver, Some(Argument::Word), None),
        Helper::Honest => (Argument::Receiver, None, None),
        Helper::SignOrder => (Argument::Word, Some(Argument::Receivers), None),
        Helper::PassOn => (Argument::Held, Some(Argument::Receivers), None),
    };
    [Some(first), second, third]
}

/// Returns the range of the numbers that a helper may return in r0.
pub fn result(helper: Helper) -> Range
    ensures exact { result ≡ returned_range helper }
    ensures holds { Returns helper (returned_range helper).0 (returned_range helper).1 }
{
    let hi = match helper {
        Helper::BoardGet | Helper::BoardSwap | Helper::BoardAdd | Helper::BoardCas => u64::MAX,
        Helper::BoardCopy => BOARD_WORDS,
        Helper::Send | Helper::SignOrder | Helper::PassOn => 1,
        Helper::SendRow => MOST_GENERALS,
        Helper::Sway | Helper::Honest => MOST_LABELS,
    };
    Range { lo: 0, hi }
}
