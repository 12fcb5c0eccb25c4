//! Tests of operations on ranges of numbers. For each case that the verifier distinguishes there are rows in which an
//! operand is just at the limit of the case.

use range::Range;
use range::operations::operate;
use range::unary_operations::{negate, sign_extend, swap};
use word::{ByteOrder, Narrow, Operation, SwapSize, Width};

/// A row of the test: the width, the operation, two ranges, and the range of its results. A range is given by its least
/// and its greatest number.
type Row = (Width, Operation, (u64, u64), (u64, u64), (u64, u64));

/// Rows for sums, differences and products: those that never overflow, those that always do, and those that sometimes
/// do.
const SUMS: &[Row] = &[
    (
        Width::W64,
        Operation::Add,
        (2, u64::MAX - 9),
        (3, 9),
        (5, u64::MAX),
    ),
    (
        Width::W64,
        Operation::Add,
        (u64::MAX - 5, u64::MAX - 4),
        (5, 5),
        (0, u64::MAX),
    ),
    (
        Width::W64,
        Operation::Add,
        (u64::MAX - 4, u64::MAX - 2),
        (5, 9),
        (0, 6),
    ),
    (Width::W64, Operation::Add, (2, 20), (3, 9), (5, 29)),
    (
        Width::W64,
        Operation::Add,
        (u64::MAX - 3, u64::MAX - 2),
        (9, 12),
        (5, 9),
    ),
    (Width::W64, Operation::Sub, (20, 30), (4, 9), (11, 26)),
    (
        Width::W64,
        Operation::Sub,
        (2, 4),
        (6, 9),
        (u64::MAX - 6, u64::MAX - 1),
    ),
    (Width::W64, Operation::Mul, (2, 3), (5, 7), (10, 21)),
    (Width::W64, Operation::Sub, (9, 20), (4, 9), (0, 16)),
    (Width::W64, Operation::Sub, (5, 6), (6, 6), (0, u64::MAX)),
    (
        Width::W64,
        Operation::Sub,
        (2, 5),
        (6, 9),
        (u64::MAX - 6, u64::MAX),
    ),
    (
        Width::W64,
        Operation::Mul,
        (2, 3),
        (5, 0x5555_5555_5555_5555),
        (10, u64::MAX),
    ),
    (
        Width::W64,
        Operation::Mul,
        (2, 0x1_0000_0000),
        (3, 0x1_0000_0000),
        (0, u64::MAX),
    ),
    (
        Width::W32,
        Operation::Add,
        (2, 0xffff_fff6),
        (3, 9),
        (5, 0xffff_ffff),
    ),
    (
        Width::W32,
        Operation::Add,
        (0xffff_fffa, 0xffff_fffb),
        (5, 5),
        (0, 0xffff_ffff),
    ),
    (
        Width::W32,
        Operation::Add,
        (0xffff_fffb, 0xffff_fffd),
        (5, 9),
        (0, 6),
    ),
    (
        Width::W32,
        Operation::Add,
        (0xffff_fffc, 0xffff_fffd),
        (9, 12),
        (5, 9),
    ),
    (Width::W32, Operation::Sub, (20, 30), (4, 9), (11, 26)),
    (Width::W32, Operation::Sub, (5, 6), (6, 6), (0, 0xffff_ffff)),
    (
        Width::W32,
        Operation::Sub,
        (2, 5),
        (6, 9),
        (0xffff_fff9, 0xffff_ffff),
    ),
    (
        Width::W32,
        Operation::Mul,
        (2, 3),
        (5, 0x5555_5555),
        (10, 0xffff_ffff),
    ),
    (
        Width::W32,
        Operation::Mul,
        (2, 65536),
        (3, 65536),
        (0, 0xffff_ffff),
    ),
];

/// Rows for quotients and remainders. The divisors are positive, are zero, or may be both. Some signed operands may be
/// negative.
const QUOTIENTS: &[Row] = &[
    (
        Width::W64,
        Operation::SignedDiv,
        (0x7fff_ffff_ffff_ffff, 0x7fff_ffff_ffff_ffff),
        (1, 0x7fff_ffff_ffff_ffff),
        (1, 0x7fff_ffff_ffff_ffff),
    ),
    (
        Width::W64,
        Operation::SignedDiv,
        (20, 0x8000_0000_0000_0000),
        (2, 3),
        (0, u64::MAX),
    ),
    (
        Width::W64,
        Operation::SignedDiv,
        (20, 50),
        (2, 0x8000_0000_0000_0000),
        (0, u64::MAX),
    ),
    (Width::W64, Operation::SignedDiv, (20, 50), (0, 0), (0, 0)),
    (
        Width::W64,
        Operation::SignedMod,
        (3, 6),
        (7, 0x7fff_ffff_ffff_ffff),
        (3, 6),
    ),
    (
        Width::W64,
        Operation::SignedMod,
        (5, 0x7fff_ffff_ffff_ffff),
        (6, 9),
        (0, 8),
    ),
    (Width::W64, Operation::SignedMod, (3, 7), (7, 20), (0, 7)),
    (
        Width::W64,
        Operation::SignedMod,
        (20, 0x8000_0000_0000_0000),
        (6, 9),
        (0, u64::MAX),
    ),
    (
        Width::W64,
        Operation::SignedMod,
        (20, 50),
        (2, 0x8000_0000_0000_0000),
        (0, u64::MAX),
    ),
    (Width::W64, Operation::SignedMod, (20, 50), (0, 0), (20, 50)),
    (Width::W64, Operation::SignedMod, (20, 50), (0, 1), (0, 50)),
    (Width::W64, Operation::SignedMod, (20, 50), (1, 9), (0, 8)),
    (
        Width::W32,
        Operation::SignedDiv,
        (0x7fff_ffff, 0x7fff_ffff),
        (1, 0x7fff_ffff),
        (1, 0x7fff_ffff),
    ),
    (
        Width::W32,
        Operation::SignedDiv,
        (20, 0x8000_0000),
        (2, 3),
        (0, 0xffff_ffff),
    ),
    (
        Width::W32,
        Operation::SignedDiv,
        (20, 50),
        (2, 0x8000_0000),
        (0, 0xffff_ffff),
    ),
    (Width::W32, Operation::SignedDiv, (20, 50), (0, 1), (0, 50)),
    (
        Width::W32,
        Operation::SignedMod,
        (3, 6),
        (7, 0x7fff_ffff),
        (3, 6),
    ),
    (
        Width::W32,
        Operation::SignedMod,
        (5, 0x7fff_ffff),
        (6, 9),
        (0, 8),
    ),
    (
        Width::W32,
        Operation::SignedMod,
        (20, 0x8000_0000),
        (6, 9),
        (0, 0xffff_ffff),
    ),
    (
        Width::W32,
        Operation::SignedMod,
        (20, 50),
        (2, 0x8000_0000),
        (0, 0xffff_ffff),
    ),
    (Width::W64, Operation::Div, (20, 50), (0, 0), (0, 0)),
    (Width::W64, Operation::Div, (20, 50), (0, 1), (0, 50)),
    (Width::W64, Operation::Div, (20, 50), (1, 6), (3, 50)),
    (Width::W64, Operation::Mod, (3, 6), (7, 9), (3, 6)),
    (Width::W64, Operation::Mod, (3, 7), (7, 20), (0, 7)),
    (Width::W64, Operation::Mod, (3, 50), (1, 9), (0, 8)),
    (Width::W64, Operation::Mod, (3, 50), (0, 0), (3, 50)),
    (Width::W64, Operation::Mod, (3, 50), (0, 1), (0, 50)),
];

/// Rows for bitwise operations, for shifts by one known count and by several possible ones, and for moves.
const BITS_AND_SHIFTS: &[Row] = &[
    (
        Width::W64,
        Operation::ShiftLeft,
        (3, 0xfff_ffff_ffff_ffff),
        (68, 68),
        (48, u64::MAX - 15),
    ),
    (
        Width::W64,
        Operation::ShiftLeft,
        (3, 0x1000_0000_0000_0000),
        (4, 4),
        (0, u64::MAX),
    ),
    (
        Width::W64,
        Operation::ShiftLeft,
        (3, u64::MAX),
        (64, 64),
        (3, u64::MAX),
    ),
    (
        Width::W64,
        Operation::ShiftLeft,
        (1, 2),
        (1, 2),
        (0, u64::MAX),
    ),
    (
        Width::W64,
        Operation::ShiftRight,
        (20, 50),
        (66, 66),
        (5, 12),
    ),
    (Width::W64, Operation::ShiftRight, (20, 50), (1, 2), (0, 50)),
    (
        Width::W64,
        Operation::ArithmeticShiftRight,
        (20, 0x7fff_ffff_ffff_ffff),
        (66, 66),
        (5, 0x1fff_ffff_ffff_ffff),
    ),
    (
        Width::W64,
        Operation::ArithmeticShiftRight,
        (20, 0x8000_0000_0000_0000),
        (2, 2),
        (0, u64::MAX),
    ),
    (
        Width::W64,
        Operation::ArithmeticShiftRight,
        (20, 50),
        (1, 2),
        (0, 50),
    ),
    (Width::W64, Operation::And, (4, 9), (5, 300), (0, 9)),
    (Width::W64, Operation::And, (5, 300), (4, 9), (0, 9)),
    (Width::W64, Operation::Or, (5, 9), (6, 300), (6, 511)),
    (Width::W64, Operation::Or, (6, 300), (5, 9), (6, 511)),
    (Width::W64, Operation::Xor, (5, 9), (6, 255), (0, 255)),
    (Width::W64, Operation::Xor, (5, 256), (6, 9), (0, 511)),
    (Width::W64, Operation::And, (6, 6), (3, 3), (2, 2)),
    (
        Width::W64,
        Operation::Move,
        (0, u64::MAX),
        (5, 300),
        (5, 300),
    ),
    (
        Width::W32,
        Operation::ShiftLeft,
        (3, 0x1000_0000),
        (4, 4),
        (0, 0xffff_ffff),
    ),
    (
        Width::W32,
        Operation::ShiftLeft,
        (3, 0xffff_ffff),
        (32, 32),
        (3, 0xffff_ffff),
    ),
    (
        Width::W32,
        Operation::ShiftLeft,
        (1, 2),
        (1, 2),
        (0, 0xffff_ffff),
    ),
    (
        Width::W32,
        Operation::ShiftRight,
        (20, 50),
        (34, 34),
        (5, 12),
    ),
    (Width::W32, Operation::ShiftRight, (20, 50), (1, 2), (0, 50)),
    (
        Width::W32,
        Operation::ArithmeticShiftRight,
        (20, 0x7fff_ffff),
        (34, 34),
        (5, 0x1fff_ffff),
    ),
    (
        Width::W32,
        Operation::ArithmeticShiftRight,
        (20, 0x8000_0000),
        (2, 2),
        (0, 0xffff_ffff),
    ),
    (
        Width::W32,
        Operation::ArithmeticShiftRight,
        (20, 50),
        (1, 2),
        (0, 50),
    ),
    (Width::W32, Operation::And, (6, 6), (3, 3), (2, 2)),
    (
        Width::W32,
        Operation::Move,
        (0, u64::MAX),
        (5, 300),
        (5, 300),
    ),
];

/// Rows for 32-bit operations on 64-bit ranges. The upper halves of the numbers in a range are equal or differ.
const LOW_HALVES: &[Row] = &[
    (
        Width::W32,
        Operation::Move,
        (0, u64::MAX),
        (0xffff_ffff, 0x1_0000_0000),
        (0, 0xffff_ffff),
    ),
    (
        Width::W32,
        Operation::Sub,
        (0x5_0000_0009, 0x5_0000_0014),
        (0x3_0000_0004, 0x3_0000_0009),
        (0, 16),
    ),
];

/// Returns the range with these ends, or `None` if `lo` is greater than `hi`.
pub(crate) fn range((lo, hi): (u64, u64)) -> Option<Range> {
    if lo <= hi {
        Some(Range { lo, hi })
    } else {
        None
    }
}

/// Checks whether the range `ends` is the result of an operation on the ranges `a` and `b`.
fn gives(
    width: Width,
    operation: Operation,
    a: (u64, u64),
    b: (u64, u64),
    ends: (u64, u64),
) -> bool {
    let (Some(a), Some(b)) = (range(a), range(b)) else {
        return false;
    };
    let found = operate(width, operation, a, b);
    found.lo == ends.0 && found.hi == ends.1
}

#[test]
fn sums(rt: HostRuntime) {
    for (row, &(width, operation, a, b, result)) in SUMS.iter().enumerate() {
        assert!(rt; gives(width, operation, a, b, result), "row {row}");
    }
}

#[test]
fn quotients(rt: HostRuntime) {
    for (row, &(width, operation, a, b, result)) in QUOTIENTS.iter().enumerate() {
        assert!(rt; gives(width, operation, a, b, result), "row {row}");
    }
}

#[test]
fn bits_and_shifts(rt: HostRuntime) {
    for (row, &(width, operation, a, b, result)) in BITS_AND_SHIFTS.iter().enumerate() {
        assert!(rt; gives(width, operation, a, b, result), "row {row}");
    }
}

#[test]
fn low_halves(rt: HostRuntime) {
    for (row, &(width, operation, a, b, result)) in LOW_HALVES.iter().enumerate() {
        assert!(rt; gives(width, operation, a, b, result), "row {row}");
    }
}

/// Negations. Each row has the width, a range, and the range of the negated numbers.
const NEGATED: &[(Width, (u64, u64), (u64, u64))] = &[
    (
        Width::W64,
        (0x1_0000_0001, 0x1_0000_0001),
        (0xffff_fffe_ffff_ffff, 0xffff_fffe_ffff_ffff),
    ),
    (Width::W64, (1, 2), (0, u64::MAX)),
    (Width::W32, (1, 2), (0, 0xffff_ffff)),
];

/// Sign extensions. Each row has the width, the size of the part that is extended, a range, and the range of the
/// results.
const EXTENDED: &[(Width, Narrow, (u64, u64), (u64, u64))] = &[
    (Width::W64, Narrow::Byte, (3, 127), (3, 127)),
    (
        Width::W64,
        Narrow::Byte,
        (384, 384),
        (0xffff_ffff_ffff_ff80, 0xffff_ffff_ffff_ff80),
    ),
    (Width::W64, Narrow::Half, (3, 32767), (3, 32767)),
    (Width::W64, Narrow::Half, (3, 32768), (0, u64::MAX)),
    (Width::W64, Narrow::Word, (3, 0x7fff_ffff), (3, 0x7fff_ffff)),
    (Width::W64, Narrow::Word, (3, 0x8000_0000), (0, u64::MAX)),
    (Width::W32, Narrow::Byte, (3, 128), (0, 0xffff_ffff)),
];

/// Byte swaps. Each row has the byte order, the size, a range, and the range of the results.
const SWAPPED: &[(ByteOrder, SwapSize, (u64, u64), (u64, u64))] = &[
    (ByteOrder::Little, SwapSize::Half, (3, 65535), (3, 65535)),
    (ByteOrder::Little, SwapSize::Half, (3, 65536), (0, 65535)),
    (
        ByteOrder::Little,
        SwapSize::Half,
        (0x1122_3344_5566_7788, 0x1122_3344_5566_7788),
        (30600, 30600),
    ),
    (
        ByteOrder::Little,
        SwapSize::Word,
        (3, 0xffff_ffff),
        (3, 0xffff_ffff),
    ),
    (
        ByteOrder::Little,
        SwapSize::Word,
        (3, 0x1_0000_0000),
        (0, 0xffff_ffff),
    ),
    (ByteOrder::Little, SwapSize::Double, (3, 300), (3, 300)),
    (ByteOrder::Big, SwapSize::Half, (3, 65535), (0, 65535)),
    (
        ByteOrder::Big,
        SwapSize::Half,
        (0x1122_3344_5566_7788, 0x1122_3344_5566_7788),
        (34935, 34935),
    ),
    (
        ByteOrder::Big,
        SwapSize::Word,
        (3, 0xffff_ffff),
        (0, 0xffff_ffff),
    ),
    (ByteOrder::Big, SwapSize::Double, (3, 300), (0, u64::MAX)),
    (ByteOrder::Reversed, SwapSize::Half, (3, 65535), (0, 65535)),
    (
        ByteOrder::Reversed,
        SwapSize::Half,
        (0x1122_3344_5566_7788, 0x1122_3344_5566_7788),
        (34935, 34935),
    ),
    (
        ByteOrder::Reversed,
        SwapSize::Word,
        (3, 0xffff_ffff),
        (0, 0xffff_ffff),
    ),
    (
        ByteOrder::Reversed,
        SwapSize::Double,
        (3, 300),
        (0, u64::MAX),
    ),
];

/// Checks whether the range `ends` is the result when the numbers of range `a` are negated.
fn negates(width: Width, a: (u64, u64), ends: (u64, u64)) -> bool {
    let Some(a) = range(a) else {
        return false;
    };
    let found = negate(width, a);
    found.lo == ends.0 && found.hi == ends.1
}

/// Checks whether the range `ends` is the result when the numbers of range `a` are sign-extended.
fn extends(width: Width, part: Narrow, a: (u64, u64), ends: (u64, u64)) -> bool {
    let Some(a) = range(a) else {
        return false;
    };
    let found = sign_extend(width, part, a);
    found.lo == ends.0 && found.hi == ends.1
}

/// Checks whether the range `ends` is the result when the bytes of the numbers of range `a` are swapped.
fn swaps(order: ByteOrder, size: SwapSize, a: (u64, u64), ends: (u64, u64)) -> bool {
    let Some(a) = range(a) else {
        return false;
    };
    let found = swap(order, size, a);
    found.lo == ends.0 && found.hi == ends.1
}

#[test]
fn operations_on_one(rt: HostRuntime) {
    for (row, &(width, a, ends)) in NEGATED.iter().enumerate() {
        assert!(rt; negates(width, a, ends), "row {row}");
    }
    for (row, &(width, part, a, ends)) in EXTENDED.iter().enumerate() {
        assert!(rt; extends(width, part, a, ends), "row {row}");
    }
    for (row, &(order, size, a, ends)) in SWAPPED.iter().enumerate() {
        assert!(rt; swaps(order, size, a, ends), "row {row}");
    }
}

/// Checks that the join of the ranges 3 to 5 and 9 to 12 is the range 3 to 12.
fn are_joined() -> bool {
    let both = Range { lo: 3, hi: 5 }.join(Range { lo: 9, hi: 12 });
    both.lo == 3 && both.hi == 12 && both.contains(7) && !both.contains(13)
}

#[test]
fn joins(rt: HostRuntime) {
    assert!(rt; are_joined());
    assert!(rt; Range::exactly(7).is_single() && Range::full().contains(u64::MAX));
}
