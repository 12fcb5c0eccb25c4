//! Tests of what the verifier learns from a conditional jump. If the jump is taken, the two ranges that it compares
//! become narrower, and likewise if it is not taken. For each condition there are rows in which a range is just at the
//! limit.

use crate::ranges::range;
use range::edges::refine;
use word::{Condition, Width};

/// Two ranges. Each is given by its least and its greatest number.
type Pair = ((u64, u64), (u64, u64));

/// A row of the test: the width, the condition, whether the jump is taken, the two ranges before the jump, and the two
/// ranges after it. The last are `None` if the jump cannot go this way.
type Row = (Width, Condition, bool, (u64, u64), (u64, u64), Option<Pair>);

/// Rows for equality and inequality, and for tests of bits (`AnyBit`). From a test of bits the verifier learns nothing.
const EQUALITIES: &[Row] = &[
    (Width::W64, Condition::Equal, true, (7, 9), (5, 6), None),
    (
        Width::W32,
        Condition::Equal,
        true,
        (3, 0xffff_ffff),
        (5, 9),
        Some(((5, 9), (5, 9))),
    ),
    (
        Width::W32,
        Condition::Equal,
        true,
        (3, 0x1_0000_0000),
        (5, 9),
        Some(((3, 0x1_0000_0000), (5, 9))),
    ),
    (
        Width::W32,
        Condition::Equal,
        true,
        (5, 9),
        (3, 0x1_0000_0000),
        Some(((5, 9), (3, 0x1_0000_0000))),
    ),
    (Width::W64, Condition::Equal, false, (7, 7), (7, 7), None),
    (
        Width::W64,
        Condition::Equal,
        false,
        (7, 9),
        (9, 9),
        Some(((7, 8), (9, 9))),
    ),
    (
        Width::W64,
        Condition::Equal,
        false,
        (7, 7),
        (7, 9),
        Some(((7, 7), (8, 9))),
    ),
    (
        Width::W64,
        Condition::Equal,
        false,
        (9, 9),
        (7, 9),
        Some(((9, 9), (7, 8))),
    ),
    (
        Width::W64,
        Condition::NotEqual,
        true,
        (7, 9),
        (7, 7),
        Some(((8, 9), (7, 7))),
    ),
    (
        Width::W32,
        Condition::NotEqual,
        false,
        (5, 9),
        (3, 0xffff_ffff),
        Some(((5, 9), (5, 9))),
    ),
    (
        Width::W64,
        Condition::AnyBit,
        true,
        (7, 9),
        (5, 6),
        Some(((7, 9), (5, 6))),
    ),
    (
        Width::W64,
        Condition::AnyBit,
        false,
        (7, 9),
        (7, 7),
        Some(((7, 9), (7, 7))),
    ),
];

/// Rows for unsigned comparisons.
const ORDERS: &[Row] = &[
    (
        Width::W32,
        Condition::Above,
        true,
        (3, 0xffff_ffff),
        (5, 9),
        Some(((6, 0xffff_ffff), (5, 9))),
    ),
    (
        Width::W64,
        Condition::Above,
        false,
        (3, u64::MAX),
        (5, 9),
        Some(((3, 9), (5, 9))),
    ),
    (
        Width::W64,
        Condition::AtLeast,
        true,
        (3, u64::MAX),
        (5, 9),
        Some(((5, u64::MAX), (5, 9))),
    ),
    (
        Width::W32,
        Condition::AtLeast,
        false,
        (3, 0xffff_ffff),
        (5, 9),
        Some(((3, 8), (5, 9))),
    ),
    (
        Width::W32,
        Condition::Below,
        true,
        (3, 0xffff_ffff),
        (5, 9),
        Some(((3, 8), (5, 9))),
    ),
    (
        Width::W64,
        Condition::Below,
        false,
        (3, u64::MAX),
        (5, 9),
        Some(((5, u64::MAX), (5, 9))),
    ),
    (
        Width::W64,
        Condition::AtMost,
        true,
        (3, u64::MAX),
        (5, 9),
        Some(((3, 9), (5, 9))),
    ),
    (
        Width::W32,
        Condition::AtMost,
        false,
        (3, 0xffff_ffff),
        (5, 9),
        Some(((6, 0xffff_ffff), (5, 9))),
    ),
    (Width::W64, Condition::Below, true, (7, 9), (5, 7), None),
    (Width::W64, Condition::AtMost, true, (7, 9), (5, 6), None),
];

/// Rows for signed comparisons, from which the verifier learns something only about ranges without negative numbers.
const SIGNED_ORDERS: &[Row] = &[
    (
        Width::W64,
        Condition::SignedAbove,
        true,
        (3, 0x7fff_ffff_ffff_ffff),
        (5, 0x7fff_ffff_ffff_ffff),
        Some(((6, 0x7fff_ffff_ffff_ffff), (5, 0x7fff_ffff_ffff_fffe))),
    ),
    (
        Width::W64,
        Condition::SignedAbove,
        true,
        (3, 0x8000_0000_0000_0000),
        (5, 9),
        Some(((3, 0x8000_0000_0000_0000), (5, 9))),
    ),
    (
        Width::W32,
        Condition::SignedAbove,
        true,
        (3, 0x8000_0000),
        (5, 9),
        Some(((3, 0x8000_0000), (5, 9))),
    ),
    (
        Width::W32,
        Condition::SignedAbove,
        false,
        (7, 9),
        (5, 6),
        None,
    ),
    (
        Width::W64,
        Condition::SignedAtLeast,
        true,
        (5, 9),
        (3, 0x8000_0000_0000_0000),
        Some(((5, 9), (3, 0x8000_0000_0000_0000))),
    ),
    (
        Width::W32,
        Condition::SignedAtLeast,
        true,
        (3, 9),
        (5, 0x7fff_ffff),
        Some(((5, 9), (5, 9))),
    ),
    (
        Width::W32,
        Condition::SignedAtLeast,
        true,
        (5, 9),
        (3, 0x8000_0000),
        Some(((5, 9), (3, 0x8000_0000))),
    ),
    (
        Width::W64,
        Condition::SignedAtLeast,
        false,
        (7, 9),
        (5, 7),
        None,
    ),
    (
        Width::W64,
        Condition::SignedBelow,
        true,
        (3, 0x8000_0000_0000_0000),
        (5, 9),
        Some(((3, 0x8000_0000_0000_0000), (5, 9))),
    ),
    (
        Width::W32,
        Condition::SignedBelow,
        true,
        (3, 0x7fff_ffff),
        (5, 9),
        Some(((3, 8), (5, 9))),
    ),
    (
        Width::W32,
        Condition::SignedBelow,
        true,
        (3, 0x8000_0000),
        (5, 9),
        Some(((3, 0x8000_0000), (5, 9))),
    ),
    (
        Width::W64,
        Condition::SignedBelow,
        false,
        (3, 0x7fff_ffff_ffff_ffff),
        (5, 9),
        Some(((5, 0x7fff_ffff_ffff_ffff), (5, 9))),
    ),
    (
        Width::W64,
        Condition::SignedAtMost,
        true,
        (3, 0x8000_0000_0000_0000),
        (5, 9),
        Some(((3, 0x8000_0000_0000_0000), (5, 9))),
    ),
    (
        Width::W32,
        Condition::SignedAtMost,
        true,
        (3, 0x7fff_ffff),
        (5, 9),
        Some(((3, 9), (5, 9))),
    ),
    (
        Width::W32,
        Condition::SignedAtMost,
        true,
        (3, 0x8000_0000),
        (5, 9),
        Some(((3, 0x8000_0000), (5, 9))),
    ),
    (
        Width::W64,
        Condition::SignedAtMost,
        false,
        (3, 0x7fff_ffff_ffff_ffff),
        (5, 9),
        Some(((6, 0x7fff_ffff_ffff_ffff), (5, 9))),
    ),
];

/// Checks whether the ranges `a` and `b` become the ranges `left` after a conditional jump. `left` is `None` if the
/// jump cannot go this way.
fn leaves(
    width: Width,
    condition: Condition,
    taken: bool,
    a: (u64, u64),
    b: (u64, u64),
    left: Option<Pair>,
) -> bool {
    let (Some(a), Some(b)) = (range(a), range(b)) else {
        return false;
    };
    match (refine(width, condition, taken, a, b), left) {
        (Some((first, second)), Some((c, d))) => {
            first.lo == c.0 && first.hi == c.1 && second.lo == d.0 && second.hi == d.1
        }
        (None, None) => true,
        _ => false,
    }
}

#[test]
fn equalities(rt: HostRuntime) {
    for (row, &(width, condition, taken, a, b, left)) in EQUALITIES.iter().enumerate() {
        assert!(rt; leaves(width, condition, taken, a, b, left), "row {row}");
    }
}

#[test]
fn orders(rt: HostRuntime) {
    for (row, &(width, condition, taken, a, b, left)) in ORDERS.iter().enumerate() {
        assert!(rt; leaves(width, condition, taken, a, b, left), "row {row}");
    }
}

#[test]
fn signed_orders(rt: HostRuntime) {
    for (row, &(width, condition, taken, a, b, left)) in SIGNED_ORDERS.iter().enumerate() {
        assert!(rt; leaves(width, condition, taken, a, b, left), "row {row}");
    }
}
