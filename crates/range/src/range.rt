//! Defines ranges of words: the type, membership and joins.

ghost use Rattle.std.specs.Prelude.{◌≡◌, ◌↔◌, ◌≤◌, ◌<◌, ◌^◌, ℕ, IsTrue};
ghost use Rattle.range.specs.Interval.{IsIn};
ghost use Rattle.range.specs.Table.{single, whole, joined};

use std::marker::Model;
use word::Width;

/// The range of words from `lo` to `hi`, which includes both.
#[derive(Clone, Copy)]
pub struct Range {
    pub lo: u64,
    pub hi: u64,
}

impl Model for Range {
    ghost use Rattle.std.specs.Prelude.{ℕ, ◌≤◌};

    ghost Value = { ℕ × ℕ };

    ghost view = { λ r. (r.lo, r.hi) };

    ghost invariant = { λ r. r.lo ≤ r.hi };

    ghost inverse = { λ v. record { lo = v.0; hi = v.1 } };
}

impl Range {
    /// Returns the range of all 64-bit words.
    pub fn full() -> Range
        ensures exact { result ≡ whole Width.W64 }
        ensures holds { (x : ℕ) → x < 2 ^ 64 → IsIn result.0 result.1 x }
    {
        Range {
            lo: 0,
            hi: u64::MAX,
        }
    }

    /// Returns the range that contains only `n`.
    pub fn exactly(n: u64) -> Range
        ensures exact { result ≡ single n }
        ensures holds { IsIn result.0 result.1 n }
    {
        Range { lo: n, hi: n }
    }

    /// Checks whether the range contains `x`.
    pub fn contains(self, x: u64) -> bool
        ensures { IsTrue result ↔ IsIn self.0 self.1 x }
    {
        self.lo <= x && x <= self.hi
    }

    /// Checks whether the range contains only one number.
    pub fn is_single(self) -> bool
        ensures { IsTrue result ↔ (self.0 ≡ self.1) }
    {
        self.lo == self.hi
    }

    /// Returns the smallest range that contains all numbers of both ranges.
    pub fn join(self, other: Range) -> Range
        ensures exact { result ≡ joined self.0 self.1 other.0 other.1 }
        ensures left { (x : ℕ) → IsIn self.0 self.1 x → IsIn result.0 result.1 x }
        ensures right { (x : ℕ) → IsIn other.0 other.1 x → IsIn result.0 result.1 x }
    {
        Range {
            lo: self.lo.min(other.lo),
            hi: self.hi.max(other.hi),
        }
    }
}
