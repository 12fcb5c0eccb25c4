//! Computes the ranges of shifted numbers.

ghost use Rattle.std.specs.Prelude.{◌≡◌, ◌≤◌, ◌<◌, ◌^◌};
ghost use Rattle.word.specs.Arithmetic.{bits_of};
ghost use Rattle.range.specs.Table.{left_shifts, right_shifts, signed_shifts};

use crate::range::Range;
use crate::width::{bit_count, greatest, least_negative, of_width};
use word::Width;

/// Returns a range that contains `x << y`, cut to the width, for all numbers `x` of `a` and `y` of `b`. The count `y`
/// is taken modulo the width in bits.
pub(crate) fn shift_left(width: Width, a: Range, b: Range) -> Range
    requires left { a.1 < 2 ^ bits_of width }
    ensures exact { result ≡ left_shifts width a.0 a.1 b.0 b.1 }
    ensures below { result.1 < 2 ^ bits_of width }
{
    if b.lo != b.hi {
        return of_width(width);
    }
    let count = b.lo % bit_count(width);
    if a.hi > greatest(width) >> count {
        return of_width(width);
    }
    Range {
        lo: a.lo << count,
        hi: a.hi << count,
    }
}

/// Returns a range that contains `x >> y`, with zeros shifted in, for all numbers `x` of `a` and `y` of `b`. The
/// count `y` is taken modulo the width in bits.
pub(crate) fn shift_right(width: Width, a: Range, b: Range) -> Range
    ensures exact { result ≡ right_shifts width a.0 a.1 b.0 b.1 }
    ensures below { result.1 ≤ a.1 }
{
    if b.lo != b.hi {
        return Range { lo: 0, hi: a.hi };
    }
    let count = b.lo % bit_count(width);
    Range {
        lo: a.lo >> count,
        hi: a.hi >> count,
    }
}

/// Returns a range that contains `x >> y`, with copies of the sign bit shifted in, for all numbers `x` of `a` and `y`
/// of `b`. The count `y` is taken modulo the width in bits.
pub(crate) fn shift_signed(width: Width, a: Range, b: Range) -> Range
    requires left { a.1 < 2 ^ bits_of width }
    ensures exact { result ≡ signed_shifts width a.0 a.1 b.0 b.1 }
    ensures below { result.1 < 2 ^ bits_of width }
{
    if a.hi < least_negative(width) {
        return shift_right(width, a, b);
    }
    of_width(width)
}
