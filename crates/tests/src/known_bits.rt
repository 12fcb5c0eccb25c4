//! Tests of sets of numbers, which the verifier describes by a range and by known bits: the results of operations, and
//! what a conditional jump shows about them.

use absval::NumberSet;
use word::{Condition, Operation, Width};

/// A set of numbers: its least and its greatest number, the mask of the unknown bits, and the value of the known bits.
type Known = (u64, u64, u64, u64);

/// Operations on two sets. Each row has the width, the operation, the two sets and the set of the results.
const OPERATIONS: &[(Width, Operation, Known, Known, Known)] = &[
    (
        Width::W64,
        Operation::And,
        (5, 53, 48, 5),
        (17, 23, 6, 17),
        (1, 21, 20, 1),
    ),
    (
        Width::W64,
        Operation::Or,
        (5, 53, 48, 5),
        (17, 23, 6, 17),
        (21, 55, 34, 21),
    ),
    (
        Width::W64,
        Operation::Xor,
        (0, 8, 8, 0),
        (17, 23, 6, 17),
        (17, 31, 14, 17),
    ),
    (
        Width::W64,
        Operation::Move,
        (0, 8, 8, 0),
        (17, 23, 6, 17),
        (17, 23, 6, 17),
    ),
    (
        Width::W64,
        Operation::Mod,
        (0, 8, 8, 0),
        (1, 1, 0, 1),
        (0, 0, 0, 0),
    ),
    (
        Width::W32,
        Operation::And,
        (0, 8, 8, 0),
        (17, 23, 6, 17),
        (0, 0, 0, 0),
    ),
    (
        Width::W32,
        Operation::Or,
        (0, 8, 8, 0),
        (17, 23, 6, 17),
        (17, 31, 14, 17),
    ),
    (
        Width::W32,
        Operation::Xor,
        (0x5_0000_0003, 0xd_0000_0003, 0x8_0000_0000, 0x5_0000_0003),
        (0, 8, 8, 0),
        (3, 11, 8, 3),
    ),
    (
        Width::W32,
        Operation::Move,
        (0, 8, 8, 0),
        (0x1_0000_0009, 0x1_0000_000c, 0x2_0000_0000, 8),
        (9, 12, u64::MAX, 0),
    ),
];

/// Conditional jumps. Each row has the width, the condition, whether the jump is taken, the two sets before the jump,
/// and the two sets after it. The last are `None` if the jump cannot go this way.
const EDGES: &[(Width, Condition, bool, Known, Known, Option<(Known, Known)>)] = &[
    (
        Width::W64,
        Condition::Equal,
        true,
        (0, 8, 8, 0),
        (4, 4, 0, 4),
        None,
    ),
    (
        Width::W64,
        Condition::Equal,
        true,
        (0, 8, 8, 0),
        (0, 0, 0, 0),
        Some(((0, 0, 0, 0), (0, 0, 0, 0))),
    ),
    (
        Width::W64,
        Condition::Equal,
        true,
        (4, 4, 0, 4),
        (0, 8, 8, 0),
        None,
    ),
    (
        Width::W64,
        Condition::AtLeast,
        true,
        (0, 8, 8, 0),
        (4, 4, 0, 4),
        Some(((4, 8, 8, 0), (4, 4, 0, 4))),
    ),
    (
        Width::W32,
        Condition::AnyBit,
        true,
        (0, 8, 8, 0),
        (4, 4, 0, 4),
        Some(((0, 8, 8, 0), (4, 4, 0, 4))),
    ),
];

/// Returns the set with this range and these known bits, or `None` if it is empty.
fn set((lo, hi, open, ones): Known) -> Option<NumberSet> {
    let numbers = NumberSet::operate(
        Width::W64,
        Operation::And,
        NumberSet::any(),
        NumberSet::exactly(open),
    );
    let numbers = NumberSet::operate(Width::W64, Operation::Or, numbers, NumberSet::exactly(ones));
    let (numbers, _) = NumberSet::refine(
        Width::W64,
        Condition::AtMost,
        true,
        numbers,
        NumberSet::exactly(hi),
    )?;
    let (numbers, _) = NumberSet::refine(
        Width::W64,
        Condition::AtLeast,
        true,
        numbers,
        NumberSet::exactly(lo),
    )?;
    Some(numbers)
}

/// Checks whether a set has this range and these known bits.
fn is(numbers: NumberSet, (lo, hi, open, ones): Known) -> bool {
    let range = numbers.range();
    let bits = numbers.bits();
    range.lo == lo && range.hi == hi && bits.mask == open && bits.value == ones
}

/// Checks whether the set `made` is the result of an operation on the sets `a` and `b`.
fn gives(width: Width, operation: Operation, a: Known, b: Known, made: Known) -> bool {
    let (Some(first), Some(second)) = (set(a), set(b)) else {
        return false;
    };
    is(first, a) && is(second, b) && is(NumberSet::operate(width, operation, first, second), made)
}

/// Checks whether the sets `a` and `b` become the sets `left` after a conditional jump. `left` is `None` if the jump
/// cannot go this way.
fn leaves(
    width: Width,
    condition: Condition,
    taken: bool,
    a: Known,
    b: Known,
    left: Option<(Known, Known)>,
) -> bool {
    let (Some(first), Some(second)) = (set(a), set(b)) else {
        return false;
    };
    if !is(first, a) || !is(second, b) {
        return false;
    }
    match (
        NumberSet::refine(width, condition, taken, first, second),
        left,
    ) {
        (Some((first, second)), Some((c, d))) => is(first, c) && is(second, d),
        (None, None) => true,
        _ => false,
    }
}

/// Checks whether `both` is the join of the sets `a` and `b`: the set that describes what may be in either.
fn joins(a: Known, b: Known, both: Known) -> bool {
    let (Some(first), Some(second)) = (set(a), set(b)) else {
        return false;
    };
    is(first.join(second), both)
}

#[test]
fn operations_keep_bits(rt: HostRuntime) {
    for (row, &(width, operation, a, b, result)) in OPERATIONS.iter().enumerate() {
        assert!(rt; gives(width, operation, a, b, result), "row {row}");
    }
    assert!(rt; joins((1, 9, 8, 1), (21, 23, 2, 21), (1, 23, 30, 1)));
}

#[test]
fn edges_keep_bits(rt: HostRuntime) {
    for (row, &(width, condition, taken, a, b, left)) in EDGES.iter().enumerate() {
        assert!(rt; leaves(width, condition, taken, a, b, left), "row {row}");
    }
}
