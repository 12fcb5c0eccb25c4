//! Computes the ranges of quotients and remainders.

ghost use Rattle.std.specs.Prelude.{◌≡◌, ◌≤◌, ◌<◌, ◌^◌};
ghost use Rattle.word.specs.Arithmetic.{bits_of};
ghost use Rattle.range.specs.Table.{quotients, remainders, signed_quotients, signed_remainders};

use crate::range::Range;
use crate::width::{least_negative, of_width};
use word::Width;

/// Returns a range that contains `x / y` for all numbers `x` of `a` and `y` of `b`. A quotient by 0 is 0.
pub(crate) fn divide(width: Width, a: Range, b: Range) -> Range
    ensures exact { result ≡ quotients a.0 a.1 b.0 b.1 }
    ensures below { result.1 ≤ a.1 }
{
    let _ = width;
    if b.lo >= 1 {
        return Range {
            lo: a.lo / b.hi,
            hi: a.hi / b.lo,
        };
    }
    if b.hi == 0 {
        return Range { lo: 0, hi: 0 };
    }
    Range { lo: 0, hi: a.hi }
}

/// Returns a range that contains `x % y` for all numbers `x` of `a` and `y` of `b`. If `y` is 0, the remainder is
/// `x`.
pub(crate) fn remain(width: Width, a: Range, b: Range) -> Range
    ensures exact { result ≡ remainders a.0 a.1 b.0 b.1 }
    ensures below { result.1 ≤ a.1 }
{
    let _ = width;
    if b.lo >= 1 {
        if a.hi < b.lo {
            return a;
        }
        return Range {
            lo: 0,
            hi: a.hi.min(b.hi - 1),
        };
    }
    if b.hi == 0 {
        return a;
    }
    Range { lo: 0, hi: a.hi }
}

/// Returns a range that contains the signed quotients of all numbers of `a` and `b`. If any of them is negative as
/// signed, the range has all numbers of the width.
pub(crate) fn divide_signed(width: Width, a: Range, b: Range) -> Range
    requires left { a.1 < 2 ^ bits_of width }
    requires right { b.1 < 2 ^ bits_of width }
    ensures exact { result ≡ signed_quotients width a.0 a.1 b.0 b.1 }
    ensures below { result.1 < 2 ^ bits_of width }
{
    let limit = least_negative(width);
    if a.hi < limit && b.hi < limit {
        return divide(width, a, b);
    }
    of_width(width)
}

/// Returns a range that contains the signed remainders of all numbers of `a` and `b`. If any of them is negative as
/// signed, the range has all numbers of the width.
pub(crate) fn remain_signed(width: Width, a: Range, b: Range) -> Range
    requires left { a.1 < 2 ^ bits_of width }
    requires right { b.1 < 2 ^ bits_of width }
    ensures exact { result ≡ signed_remainders width a.0 a.1 b.0 b.1 }
    ensures below { result.1 < 2 ^ bits_of width }
{
    let limit = least_negative(width);
    if a.hi < limit && b.hi < limit {
        return remain(width, a, b);
    }
    of_width(width)
}
