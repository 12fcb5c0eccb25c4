//! Tests of arithmetic, comparisons and byte swaps of 64-bit words.

use word::arithmetic::{alu32, alu64, negate, sign_extend};
use word::comparison::{compare32, compare64};
use word::swap::swap;
use word::{ByteOrder, Condition, Narrow, Operation, SwapSize, Width};

const MINUS_ONE: u64 = u64::MAX;

const LEAST: u64 = 0x8000_0000_0000_0000;

/// A row of the test: an operation, its two operands, and the result.
type Row = (Operation, u64, u64, u64);

/// Divisions, remainders and shifts of 64 bits.
const WIDE: &[Row] = &[
    (Operation::Div, 5, 0, 0),
    (Operation::Mod, 0x1_0000_0005, 0, 0x1_0000_0005),
    (Operation::SignedDiv, LEAST, MINUS_ONE, LEAST),
    (Operation::SignedMod, LEAST, MINUS_ONE, 0),
    // -13 divided by 3 is -4, with remainder -1.
    (Operation::SignedDiv, MINUS_ONE - 12, 3, MINUS_ONE - 3),
    (Operation::SignedMod, MINUS_ONE - 12, 3, MINUS_ONE),
    (Operation::ShiftLeft, 1, 65, 2),
    (Operation::ShiftRight, 8, 65, 4),
    (
        Operation::ArithmeticShiftRight,
        MINUS_ONE - 7,
        65,
        MINUS_ONE - 3,
    ),
];

/// Divisions, remainders and shifts of 32 bits.
const NARROW: &[Row] = &[
    (Operation::Div, 5, 0, 0),
    (Operation::Mod, 0x1_0000_0005, 0, 5),
    (Operation::SignedDiv, 0x8000_0000, MINUS_ONE, 0x8000_0000),
    (Operation::SignedMod, 0x8000_0000, MINUS_ONE, 0),
    (Operation::ShiftLeft, 0x8000_0001, 33, 2),
    (
        Operation::ArithmeticShiftRight,
        0x8000_0000,
        31,
        0xffff_ffff,
    ),
];

#[test]
fn divides_and_shifts(rt: HostRuntime) {
    for &(operation, a, b, result) in WIDE {
        assert!(rt; alu64(operation, a, b) == result);
    }
    for &(operation, a, b, result) in NARROW {
        assert!(rt; alu32(operation, a, b) == result);
    }
}

/// Sign extensions. Each row has the width, the size of the part that is extended, the word and the result.
const EXTENSIONS: &[(Width, Narrow, u64, u64)] = &[
    (Width::W64, Narrow::Byte, 0x80, 18_446_744_073_709_551_488),
    (Width::W32, Narrow::Half, 0x1_8000, 0xffff_8000),
    (Width::W64, Narrow::Word, 0x1_7fff_ffff, 0x7fff_ffff),
];

#[test]
fn extends_signs(rt: HostRuntime) {
    for &(width, part, word, result) in EXTENSIONS {
        assert!(rt; sign_extend(width, part, word) == result);
    }
    assert!(rt; negate(Width::W64, 1) == MINUS_ONE && negate(Width::W32, 0x1_0000_0000) == 0);
}

#[test]
fn compares(rt: HostRuntime) {
    assert!(rt;
        compare64(Condition::SignedAbove, 1, u64::MAX) && compare64(Condition::AnyBit, 6, 10)
    );
    assert!(rt; !compare64(Condition::Above, 1, u64::MAX) && !compare64(Condition::AnyBit, 6, 9));
    assert!(rt; compare32(Condition::Equal, 0x1_0000_0000, 0));
    assert!(rt; compare32(Condition::SignedBelow, 0x8000_0000, 0));
}

/// The word whose bytes the swaps in `SWAPS` reorder.
const WORD: u64 = 0x1122_3344_5566_7788;

/// Byte swaps of `WORD`. Each row has the byte order, the size and the result.
const SWAPS: &[(ByteOrder, SwapSize, u64)] = &[
    (ByteOrder::Big, SwapSize::Half, 34935),
    (ByteOrder::Little, SwapSize::Word, 0x5566_7788),
    (ByteOrder::Reversed, SwapSize::Word, 0x8877_6655),
    (ByteOrder::Big, SwapSize::Double, 0x8877_6655_4433_2211),
    (ByteOrder::Little, SwapSize::Double, WORD),
];

#[test]
fn puts_bytes_in_order(rt: HostRuntime) {
    for &(order, size, result) in SWAPS {
        assert!(rt; swap(order, size, WORD) == result);
    }
}
