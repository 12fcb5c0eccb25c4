//! Computes the ranges of the results of AND, OR and XOR.

ghost use Rattle.std.specs.Prelude.{◌≡◌, ◌≤◌, ◌<◌, ◌^◌, ℕ};
ghost use Rattle.range.specs.Table.{ones, common_bits, joined_bits, differing_bits};

use crate::range::Range;

/// Returns a range that contains `x & y` for all numbers `x` of `a` and `y` of `b`.
pub(crate) fn and(a: Range, b: Range) -> Range
    ensures exact { result ≡ common_bits a.0 a.1 b.0 b.1 }
    ensures below { result.1 ≤ a.1 }
{
    Range {
        lo: 0,
        hi: a.hi.min(b.hi),
    }
}

/// Returns the least number of the form 2^k - 1 (0, 1, 3, 7 and so on) that is at least `x`.
pub(crate) fn ones_over(x: u64) -> u64
    ensures exact { result ≡ ones x }
    ensures covers { x ≤ result }
    ensures least { (k : ℕ) → x < 2 ^ k → result < 2 ^ k }
{
    if x == 0 {
        return 0;
    }
    u64::MAX >> x.leading_zeros()
}

/// Returns a range that contains `x | y` for all numbers `x` of `a` and `y` of `b`.
pub(crate) fn or(a: Range, b: Range) -> Range
    ensures exact { result ≡ joined_bits a.0 a.1 b.0 b.1 }
    ensures below { (k : ℕ) → a.1 < 2 ^ k → b.1 < 2 ^ k → result.1 < 2 ^ k }
{
    Range {
        lo: a.lo.max(b.lo),
        hi: ones_over(a.hi.max(b.hi)),
    }
}

/// Returns a range that contains `x ^ y` for all numbers `x` of `a` and `y` of `b`.
pub(crate) fn xor(a: Range, b: Range) -> Range
    ensures exact { result ≡ differing_bits a.0 a.1 b.0 b.1 }
    ensures below { (k : ℕ) → a.1 < 2 ^ k → b.1 < 2 ^ k → result.1 < 2 ^ k }
{
    Range {
        lo: 0,
        hi: ones_over(a.hi.max(b.hi)),
    }
}
