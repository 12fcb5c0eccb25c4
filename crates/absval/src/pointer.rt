//! Pointer arithmetic: the offsets of a pointer after a number from a range is added or subtracted.
ghost use Rattle.std.specs.Prelude.{pos, negsuc, ◌≡◌, ◌≤◌, ◌+ℤ◌, ◌-ℤ◌, ◌≤ℤ◌, ℕ, ℤ, IfSome, Some, None, if◌then◌else◌};
ghost use Rattle.std.specs.Int.{w64, cast_signed};
ghost use Rattle.absval.specs.Limits.{is_near, IsOffset};
ghost use Rattle.absval.specs.Table.{in_a_row, raised as known_raised, lowered as known_lowered};

use crate::value::{LIMIT, Offsets};
use range::Range;
use std::marker::Model;

/// A range of signed numbers, both ends included.
#[derive(Clone, Copy)]
pub(crate) struct SignedRange {
    pub(crate) low: i64,
    pub(crate) high: i64,
}

impl Model for SignedRange {
    ghost use Rattle.std.specs.Prelude.{ℤ, ◌≤ℤ◌};

    ghost Value = { ℤ × ℤ };

    ghost view = { λ s. (s.low, s.high) };

    ghost invariant = { λ s. s.low ≤ℤ s.high };

    ghost inverse = { λ v. record { low = v.0; high = v.1 } };
}

/// Returns a range with its numbers read as signed. Returns `None` if it contains both 2^63 - 1 and 2^63, at which the
/// sign changes.
pub(crate) fn as_signed(range: Range) -> Option<SignedRange>
    ensures holds { IfSome result (λ s. (n : ℕ) → range.0 ≤ n → n ≤ range.1 →
        (s.0 ≤ℤ cast_signed w64 n) × (cast_signed w64 n ≤ℤ s.1)) }
    ensures exact { result ≡ in_a_row range }
{
    let low = range.lo.cast_signed();
    let high = range.hi.cast_signed();
    if low > high {
        return None;
    }
    Some(SignedRange { low, high })
}

/// Returns the offsets after numbers from `by` are added, or `None` if one may be below -65,536 or above 65,536.
pub(crate) fn raised(offsets: Offsets, by: SignedRange) -> Option<Offsets>
    ensures holds { IfSome result (λ r. (o z : ℤ) → offsets.0 ≤ℤ o → o ≤ℤ offsets.1 → by.0 ≤ℤ z → z ≤ℤ by.1 →
        (r.0 ≤ℤ (o +ℤ z)) × ((o +ℤ z) ≤ℤ r.1)) }
    ensures exact { result ≡ known_raised offsets by }
{
    let low = sum(offsets.low, by.low)?;
    let high = sum(offsets.high, by.high)?;
    Some(Offsets { low, high })
}

/// Returns the offsets after numbers from `by` are subtracted, or `None` if one may be below -65,536 or above 65,536.
pub(crate) fn lowered(offsets: Offsets, by: SignedRange) -> Option<Offsets>
    ensures holds { IfSome result (λ r. (o z : ℤ) → offsets.0 ≤ℤ o → o ≤ℤ offsets.1 → by.0 ≤ℤ z → z ≤ℤ by.1 →
        (r.0 ≤ℤ (o -ℤ z)) × ((o -ℤ z) ≤ℤ r.1)) }
    ensures exact { result ≡ known_lowered offsets by }
{
    let low = difference(offsets.low, by.high)?;
    let high = difference(offsets.high, by.low)?;
    Some(Offsets { low, high })
}

/// Returns `offset` + `by`, or `None` if it is not from -65,536 to 65,536.
fn sum(offset: i32, by: i64) -> Option<i32>
    ensures same { IfSome result (λ r. r ≡ offset +ℤ by) }
    ensures limits { IfSome result IsOffset }
    ensures exact { result ≡ (if is_near (offset +ℤ by) then Some (offset +ℤ by) else None) }
{
    within(i64::from(offset).checked_add(by)?)
}

/// Returns `offset` - `by`, or `None` if it is not from -65,536 to 65,536.
fn difference(offset: i32, by: i64) -> Option<i32>
    ensures same { IfSome result (λ r. r ≡ offset -ℤ by) }
    ensures limits { IfSome result IsOffset }
    ensures exact { result ≡ (if is_near (offset -ℤ by) then Some (offset -ℤ by) else None) }
{
    within(i64::from(offset).checked_sub(by)?)
}

/// Returns `offset` if it is from -65,536 to 65,536, and otherwise `None`.
fn within(offset: i64) -> Option<i32>
    ensures same { IfSome result (λ r. r ≡ offset) }
    ensures limits { IfSome result IsOffset }
    ensures exact { result ≡ (if is_near offset then Some offset else None) }
{
    if offset < -i64::from(LIMIT) || offset > i64::from(LIMIT) {
        return None;
    }
    Some(offset as i32)
}
