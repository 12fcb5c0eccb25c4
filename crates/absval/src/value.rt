//! Abstract values, which say what the verifier knows of a value, and the offsets of pointers.
ghost use Rattle.std.specs.Prelude.{◌≡◌};
ghost use Rattle.std.specs.Ordering.{int_eq};

use crate::number_set::NumberSet;
use semantics::Region;
use std::marker::Model;

/// The greatest distance of an offset from 0, in bytes.
pub(crate) const LIMIT: i32 = 65_536;

/// A pointer's offset in bytes, from -65,536 to 65,536.
#[derive(Clone, Copy)]
pub struct Offset {
    pub at: i32,
}

impl Model for Offset {
    ghost use Rattle.std.specs.Prelude.{ℤ};
    ghost use Rattle.absval.specs.Limits.{IsOffset};

    ghost Value = { ℤ };

    ghost view = { λ o. o.at };

    ghost invariant = { λ o. IsOffset o.at };

    ghost inverse = { λ v. record { at = v } };
}

/// A range of a pointer's possible offsets in bytes, both ends included. It is within -65,536 to 65,536.
#[derive(Clone, Copy, PartialEq, Eq)]
pub struct Offsets {
    pub low: i32,
    pub high: i32,
}

impl Model for Offsets {
    ghost use Rattle.std.specs.Prelude.{ℤ};
    ghost use Rattle.absval.specs.Limits.{AreOffsets};

    ghost Value = { ℤ × ℤ };

    ghost view = { λ o. (o.low, o.high) };

    ghost invariant = { λ o. AreOffsets o.low o.high };

    ghost inverse = { λ v. record { low = v.0; high = v.1 } };
}

impl Offsets {
    /// Returns the range that contains only `offset`.
    pub fn exactly(offset: Offset) -> Offsets
        ensures { result ≡ (offset, offset) }
    {
        Offsets {
            low: offset.at,
            high: offset.at,
        }
    }

    /// Returns the least offset in the range.
    pub fn least(self) -> Offset
        ensures { result ≡ self.0 }
    {
        let _high = self.high;
        Offset { at: self.low }
    }

    /// Checks whether the range has only one offset.
    pub fn is_one(self) -> bool
        ensures { result ≡ int_eq self.0 self.1 }
    {
        self.low == self.high
    }
}

/// An abstract value: what the verifier knows of a value.
#[derive(Clone, Copy)]
pub enum AbsVal {
    /// Nothing is known: the value may be unset, a number or a pointer.
    Unset,
    /// The value is a number in this set.
    Number(NumberSet),
    /// The value is a pointer into this region, with one of these offsets.
    Pointer(Region, Offsets),
}
