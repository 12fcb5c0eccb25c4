//! Defines known bits of words (in the field, a tnum): the type, membership and joins.

ghost use Rattle.std.specs.Prelude.{◌≡◌, ◌↔◌, ◌≤◌, ◌<◌, ◌^◌, ℕ, IsTrue, bit_or};
ghost use Rattle.word.specs.Arithmetic.{bits_of};
ghost use Rattle.bits.specs.Known.{HasBits, has_bits, single, unknown, joined};

use std::marker::Model;
use word::Width;

/// The words that have certain known bits. A bit that is set in `mask` is unknown, and any other bit is as in
/// `value`.
#[derive(Clone, Copy)]
pub struct Bits {
    /// The bits that are unknown.
    pub mask: u64,
    /// The bits that are known to be 1.
    pub value: u64,
}

impl Model for Bits {
    ghost use Rattle.std.specs.Prelude.{ℕ, ◌≡◌, bit_and};

    ghost Value = { ℕ × ℕ };

    ghost view = { λ b. (b.mask, b.value) };

    ghost invariant = { λ b. bit_and b.mask b.value ≡ 0 };

    ghost inverse = { λ v. record { mask = v.0; value = v.1 } };
}

impl Bits {
    /// Returns the known bits of only one number, `n`: all 64 bits are known.
    pub fn exactly(n: u64) -> Bits
        ensures exact { result ≡ single n }
        ensures holds { HasBits result n }
    {
        Bits { mask: 0, value: n }
    }

    /// Returns the known bits of an arbitrary number of this width: all its bits are unknown, and any bits above are
    /// 0.
    pub fn unknown(width: Width) -> Bits
        ensures exact { result ≡ unknown width }
        ensures holds { (x : ℕ) → x < 2 ^ bits_of width → HasBits result x }
    {
        let mask = match width {
            Width::W32 => 0xffff_ffff,
            Width::W64 => u64::MAX,
        };
        Bits { mask, value: 0 }
    }

    /// Checks whether the word `x` has these known bits.
    pub fn contains(self, x: u64) -> bool
        ensures exact { result ≡ has_bits self x }
        ensures means { IsTrue result ↔ HasBits self x }
    {
        x | self.mask == self.value | self.mask
    }

    /// Returns the least word that has these known bits.
    pub fn least(self) -> u64
        ensures exact { result ≡ self.1 }
        ensures least { (x : ℕ) → HasBits self x → result ≤ x }
    {
        self.value
    }

    /// Returns the greatest word that has these known bits.
    pub fn greatest(self) -> u64
        ensures exact { result ≡ bit_or self.1 self.0 }
        ensures greatest { (x : ℕ) → HasBits self x → x ≤ result }
    {
        self.value | self.mask
    }

    /// Returns the known bits that two sets of words have in common. A bit is known if it is known in both with the
    /// same value. The result contains all words of both sets.
    pub fn join(self, other: Bits) -> Bits
        ensures exact { result ≡ joined self other }
        ensures left { (x : ℕ) → HasBits self x → HasBits result x }
        ensures right { (x : ℕ) → HasBits other x → HasBits result x }
    {
        let mask = self.mask | other.mask | (self.value ^ other.value);
        Bits {
            mask,
            value: self.value & !mask,
        }
    }
}
