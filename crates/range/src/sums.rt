//! Computes the ranges of sums, differences and products that wrap at the width.

ghost use Rattle.std.specs.Prelude.{◌≡◌, ◌<◌, ◌^◌};
ghost use Rattle.word.specs.Arithmetic.{bits_of};
ghost use Rattle.range.specs.Table.{sums, differences, products};

use crate::range::Range;
use crate::width::{greatest, of_width};
use word::Width;

/// Returns a range that contains `x + y`, wrapped at the width, for all numbers `x` of `a` and `y` of `b`.
pub(crate) fn add(width: Width, a: Range, b: Range) -> Range
    requires left { a.1 < 2 ^ bits_of width }
    requires right { b.1 < 2 ^ bits_of width }
    ensures exact { result ≡ sums width a.0 a.1 b.0 b.1 }
    ensures below { result.1 < 2 ^ bits_of width }
{
    let top = greatest(width);
    if a.hi <= top - b.hi {
        return Range {
            lo: a.lo + b.lo,
            hi: a.hi + b.hi,
        };
    }
    if a.lo > top - b.lo {
        return Range {
            lo: a.lo - (top - b.lo) - 1,
            hi: a.hi - (top - b.hi) - 1,
        };
    }
    of_width(width)
}

/// Returns a range that contains `x - y`, wrapped at the width, for all numbers `x` of `a` and `y` of `b`.
pub(crate) fn subtract(width: Width, a: Range, b: Range) -> Range
    requires left { a.1 < 2 ^ bits_of width }
    requires right { b.1 < 2 ^ bits_of width }
    ensures exact { result ≡ differences width a.0 a.1 b.0 b.1 }
    ensures below { result.1 < 2 ^ bits_of width }
{
    if a.lo >= b.hi {
        return Range {
            lo: a.lo - b.hi,
            hi: a.hi - b.lo,
        };
    }
    if a.hi < b.lo {
        let top = greatest(width);
        return Range {
            lo: a.lo + (top - b.hi) + 1,
            hi: a.hi + (top - b.lo) + 1,
        };
    }
    of_width(width)
}

/// Returns a range that contains `x * y`, wrapped at the width, for all numbers `x` of `a` and `y` of `b`.
pub(crate) fn multiply(width: Width, a: Range, b: Range) -> Range
    requires left { a.1 < 2 ^ bits_of width }
    requires right { b.1 < 2 ^ bits_of width }
    ensures exact { result ≡ products width a.0 a.1 b.0 b.1 }
    ensures below { result.1 < 2 ^ bits_of width }
{
    let Some(hi) = a.hi.checked_mul(b.hi) else {
        return of_width(width);
    };
    if hi > greatest(width) {
        return of_width(width);
    }
    Range {
        lo: a.lo * b.lo,
        hi,
    }
}
