//! Computes the ranges of the results of operations with one operand: negation, sign extension and byte swaps.

ghost use Rattle.std.specs.Prelude.{◌≡◌, ◌+◌, ◌<◌, ◌^◌, ◌-◌, ℕ};
ghost use Rattle.word.specs.Arithmetic.{bits_of, negated, sign_extended, swapped, swapped_bytes};
ghost use Rattle.range.specs.Interval.{IsIn};
ghost use Rattle.range.specs.Table.{negations, extensions, swaps, part_bits};

use crate::range::Range;
use crate::width::{of_width, used};
use word::{ByteOrder, Narrow, SwapSize, Width, arithmetic, swap};

/// Returns a range that contains `-x`, wrapped at the width, for all numbers `x` of `a`.
pub fn negate(width: Width, a: Range) -> Range
    ensures exact { result ≡ negations width a.0 a.1 }
    ensures holds { (x : ℕ) → IsIn a.0 a.1 x → IsIn result.0 result.1 (negated width x) }
    ensures below { result.1 < 2 ^ bits_of width }
{
    let a = used(width, a);
    if a.is_single() {
        return Range::exactly(arithmetic::negate(width, a.lo));
    }
    of_width(width)
}

/// Returns a range that contains all numbers of `a` after their low 8, 16 or 32 bits are sign-extended to the width.
pub fn sign_extend(width: Width, part: Narrow, a: Range) -> Range
    ensures exact { result ≡ extensions width part a.0 a.1 }
    ensures holds { (x : ℕ) → IsIn a.0 a.1 x → IsIn result.0 result.1 (sign_extended width part x) }
    ensures below { result.1 < 2 ^ bits_of width }
{
    let a = used(width, a);
    if a.is_single() {
        return Range::exactly(arithmetic::sign_extend(width, part, a.lo));
    }
    if a.hi < least_negative_part(part) {
        return a;
    }
    of_width(width)
}

/// Returns the least number of 8, 16 or 32 bits that is negative as signed, such as 0x80.
fn least_negative_part(part: Narrow) -> u64
    ensures { result ≡ 2 ^ (part_bits part - 1) }
{
    match part {
        Narrow::Byte => 0x80,
        Narrow::Half => 0x8000,
        Narrow::Word => 0x8000_0000,
    }
}

/// Returns a range that contains all numbers of `a` after their low 2, 4 or 8 bytes are put in the given byte order.
/// The bytes above them become zero.
pub fn swap(order: ByteOrder, size: SwapSize, a: Range) -> Range
    ensures exact { result ≡ swaps order size a.0 a.1 }
    ensures holds { (x : ℕ) → IsIn a.0 a.1 x → IsIn result.0 result.1 (swapped order size x) }
    ensures below { result.1 < 2 ^ 64 }
{
    if a.is_single() {
        return Range::exactly(swap::swap(order, size, a.lo));
    }
    let top = greatest_of(size);
    match order {
        ByteOrder::Little if a.hi <= top => a,
        _ => Range { lo: 0, hi: top },
    }
}

/// Returns the greatest number of 2, 4 or 8 bytes, such as 0xffff.
fn greatest_of(size: SwapSize) -> u64
    ensures { result + 1 ≡ 256 ^ swapped_bytes size }
{
    match size {
        SwapSize::Half => 0xffff,
        SwapSize::Word => 0xffff_ffff,
        SwapSize::Double => u64::MAX,
    }
}
