//! Tests of helpers, the calls that a program can make, and of their numbers.

use helper::{Argument, Helper, arguments, helper_of, result};

/// Numbers, each with the helper that has it. No helper has the numbers 0 and 1000.
const NUMBERS: &[(i32, Option<Helper>)] = &[
    (0, None),
    (1, Some(Helper::BoardGet)),
    (6, Some(Helper::Send)),
    (9, Some(Helper::Honest)),
    (10, Some(Helper::SignOrder)),
    (11, Some(Helper::PassOn)),
    (1000, None),
];

/// Checks that `send_row` takes a label and at most 13 orders, and that `board_copy` returns at most 64 words.
fn has_bounds() -> bool {
    let [first, _, third] = arguments(Helper::SendRow);
    first == Some(Argument::Label)
        && third.and_then(|argument| argument.greatest()) == Some(13)
        && result(Helper::BoardCopy).hi == 64
}

#[test]
fn helpers_are_looked_up(rt: HostRuntime) {
    for &(number, helper) in NUMBERS {
        assert!(rt; helper_of(number) == helper, "{number}");
    }
    assert!(rt; has_bounds());
}
