//! Narrows the ranges of the two numbers that a conditional jump compared, where it is taken and where it is not.

ghost use Rattle.std.specs.Prelude.{◌≡◌, ◌≢◌, ◌<◌, ◌≤◌, ◌+◌, ℕ, IsTrue, true};
ghost use Rattle.word.specs.Arithmetic.{compared};
ghost use Rattle.range.specs.Interval.{IsIn};
ghost use Rattle.range.specs.Edges.{equal, different, above, at_least, exchanged, edge, opposite, edge_limit, refined, is_refined, HoldBoth, without, meets};

use crate::range::Range;
use crate::width::{greatest, least_negative};
use word::{Condition, Width};

/// Narrows two ranges by what is known if a jump on `condition` is taken, or is not taken. Every pair of numbers that
/// goes this way stays in the results. `None` means that no pair of numbers of `a` and `b` goes this way.
#[inline(always)]
pub fn refine(
    width: Width,
    condition: Condition,
    taken: bool,
    a: Range,
    b: Range,
) -> Option<(Range, Range)>
    ensures exact { result ≡ refined width condition taken a b }
    ensures holds { (x y : ℕ) → IsIn a.0 a.1 x → IsIn b.0 b.1 y → compared width condition x y ≡ taken
        → HoldBoth result x y }
{
    let top = greatest_refined(width, condition);
    if a.hi > top || b.hi > top {
        return Some((a, b));
    }
    if taken {
        return edge_where(condition, a, b);
    }
    edge_where(other_edge(condition), a, b)
}

/// Checks whether a jump on this condition can narrow the two ranges. It cannot for `AnyBit`, or if a range has
/// numbers that are too great for this condition.
#[inline(always)]
pub fn tells(width: Width, condition: Condition, a: Range, b: Range) -> bool
    ensures { result ≡ is_refined width condition a b }
{
    let limit = greatest_refined(width, condition);
    a.hi <= limit && b.hi <= limit && condition != Condition::AnyBit
}

/// Returns the greatest number for which a comparison narrows ranges. For a signed condition it is the greatest
/// number that is not negative as signed, else the greatest number of the width.
#[inline(always)]
fn greatest_refined(width: Width, condition: Condition) -> u64
    ensures { result + 1 ≡ edge_limit width condition }
{
    match condition {
        Condition::SignedAbove => least_negative(width) - 1,
        Condition::SignedAtLeast => least_negative(width) - 1,
        Condition::SignedBelow => least_negative(width) - 1,
        Condition::SignedAtMost => least_negative(width) - 1,
        Condition::Equal => greatest(width),
        Condition::Above => greatest(width),
        Condition::AtLeast => greatest(width),
        Condition::AnyBit => greatest(width),
        Condition::NotEqual => greatest(width),
        Condition::Below => greatest(width),
        Condition::AtMost => greatest(width),
    }
}

/// Returns the condition that holds exactly where `condition` does not hold. For `AnyBit`, which narrows no range,
/// returns `AnyBit`.
#[inline(always)]
fn other_edge(condition: Condition) -> Condition
    ensures { result ≡ opposite condition }
{
    match condition {
        Condition::Equal => Condition::NotEqual,
        Condition::Above => Condition::AtMost,
        Condition::AtLeast => Condition::Below,
        Condition::AnyBit => Condition::AnyBit,
        Condition::NotEqual => Condition::Equal,
        Condition::SignedAbove => Condition::SignedAtMost,
        Condition::SignedAtLeast => Condition::SignedBelow,
        Condition::Below => Condition::AtLeast,
        Condition::AtMost => Condition::Above,
        Condition::SignedBelow => Condition::SignedAtLeast,
        Condition::SignedAtMost => Condition::SignedAbove,
    }
}

/// Narrows two ranges by what is known if a condition holds between their numbers. If the condition is signed, no
/// number may be negative as signed. `None` means that the condition holds for no pair of their numbers.
#[inline(always)]
fn edge_where(condition: Condition, a: Range, b: Range) -> Option<(Range, Range)>
    ensures exact { result ≡ edge condition a b }
    ensures holds { (x y : ℕ) → IsIn a.0 a.1 x → IsIn b.0 b.1 y → meets condition x y ≡ true
        → HoldBoth result x y }
{
    match condition {
        Condition::Equal => where_equal(a, b),
        Condition::Above => where_above(a, b),
        Condition::AtLeast => where_at_least(a, b),
        Condition::AnyBit => Some((a, b)),
        Condition::NotEqual => where_different(a, b),
        Condition::SignedAbove => where_above(a, b),
        Condition::SignedAtLeast => where_at_least(a, b),
        Condition::Below => turned(where_above(b, a)),
        Condition::AtMost => turned(where_at_least(b, a)),
        Condition::SignedBelow => turned(where_above(b, a)),
        Condition::SignedAtMost => turned(where_at_least(b, a)),
    }
}

/// Exchanges the two ranges of a pair. Returns `None` if there is no pair.
fn turned(pair: Option<(Range, Range)>) -> Option<(Range, Range)>
    ensures exact { result ≡ exchanged pair }
    ensures holds { (x y : ℕ) → HoldBoth pair y x → HoldBoth result x y }
{
    match pair {
        Some((a, b)) => Some((b, a)),
        None => None,
    }
}

/// Narrows two ranges by what is known if their numbers are equal: both become the common part. Returns `None` if
/// they have no number in common.
#[inline(always)]
fn where_equal(a: Range, b: Range) -> Option<(Range, Range)>
    ensures exact { result ≡ equal a b }
    ensures holds { (x y : ℕ) → IsIn a.0 a.1 x → IsIn b.0 b.1 y → x ≡ y → HoldBoth result x y }
{
    let lo = a.lo.max(b.lo);
    let hi = a.hi.min(b.hi);
    if hi < lo {
        return None;
    }
    let common = Range { lo, hi };
    Some((common, common))
}

/// Narrows two ranges by what is known if their numbers differ. Returns `None` if both have only one number, and it
/// is the same.
#[inline(always)]
fn where_different(a: Range, b: Range) -> Option<(Range, Range)>
    ensures exact { result ≡ different a b }
    ensures holds { (x y : ℕ) → IsIn a.0 a.1 x → IsIn b.0 b.1 y → x ≢ y → HoldBoth result x y }
{
    if a.lo == b.hi && b.lo == a.hi {
        return None;
    }
    Some((less_number(a, b), less_number(b, a)))
}

/// Removes the only number of `b` from `a`, if it is an end of `a`. Returns `a` if `b` has several numbers, or if its
/// only number is not an end of `a`. The two ranges must not be the same single number.
#[inline(always)]
fn less_number(a: Range, b: Range) -> Range
    requires { a.0 ≡ b.1 → b.0 ≢ a.1 }
    ensures exact { result ≡ without a b }
    ensures holds { (x y : ℕ) → IsIn a.0 a.1 x → IsIn b.0 b.1 y → x ≢ y → IsIn result.0 result.1 x }
{
    if b.lo != b.hi {
        return a;
    }
    if a.lo == b.lo {
        return Range {
            lo: a.lo + 1,
            hi: a.hi,
        };
    }
    if a.hi == b.lo {
        return Range {
            lo: a.lo,
            hi: a.hi - 1,
        };
    }
    a
}

/// Narrows two ranges by what is known if the first number is above the second. Returns `None` if this holds for no
/// pair of their numbers.
#[inline(always)]
fn where_above(a: Range, b: Range) -> Option<(Range, Range)>
    ensures exact { result ≡ above a b }
    ensures holds { (x y : ℕ) → IsIn a.0 a.1 x → IsIn b.0 b.1 y → y < x → HoldBoth result x y }
{
    if a.hi <= b.lo {
        return None;
    }
    let first = Range {
        lo: a.lo.max(b.lo + 1),
        hi: a.hi,
    };
    let second = Range {
        lo: b.lo,
        hi: b.hi.min(a.hi - 1),
    };
    Some((first, second))
}

/// Narrows two ranges by what is known if the first number is at least the second. Returns `None` if this holds for
/// no pair of their numbers.
#[inline(always)]
fn where_at_least(a: Range, b: Range) -> Option<(Range, Range)>
    ensures exact { result ≡ at_least a b }
    ensures holds { (x y : ℕ) → IsIn a.0 a.1 x → IsIn b.0 b.1 y → y ≤ x → HoldBoth result x y }
{
    if a.hi < b.lo {
        return None;
    }
    let first = Range {
        lo: a.lo.max(b.lo),
        hi: a.hi,
    };
    let second = Range {
        lo: b.lo,
        hi: b.hi.min(a.hi),
    };
    Some((first, second))
}
