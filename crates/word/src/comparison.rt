//! Compares two words by the conditions of conditional jumps.

ghost use Rattle.std.specs.Prelude.{◌≡◌, ◌↔◌, IsTrue};
ghost use Rattle.word.specs.Arithmetic.{compared, related};

use crate::low_bits::low_word;
use crate::{Condition, Width};

/// Checks whether a condition holds between two words, such as `a > b`.
pub fn compare64(condition: Condition, a: u64, b: u64) -> bool
    ensures { result ≡ compared Width.W64 condition a b }
{
    match condition {
        Condition::Equal => a == b,
        Condition::Above => a > b,
        Condition::AtLeast => a >= b,
        Condition::AnyBit => a & b != 0,
        Condition::NotEqual => a != b,
        Condition::SignedAbove => a.cast_signed() > b.cast_signed(),
        Condition::SignedAtLeast => a.cast_signed() >= b.cast_signed(),
        Condition::Below => a < b,
        Condition::AtMost => a <= b,
        Condition::SignedBelow => a.cast_signed() < b.cast_signed(),
        Condition::SignedAtMost => a.cast_signed() <= b.cast_signed(),
    }
}

/// Checks whether a condition holds between the low 32 bits of two words.
pub fn compare32(condition: Condition, a: u64, b: u64) -> bool
    ensures { result ≡ compared Width.W32 condition a b }
{
    related32(condition, low_word(a), low_word(b))
}

/// Checks whether a condition holds between two 32-bit numbers.
fn related32(condition: Condition, x: u32, y: u32) -> bool
    ensures { result ≡ related Width.W32 condition x y }
{
    match condition {
        Condition::Equal => x == y,
        Condition::Above => x > y,
        Condition::AtLeast => x >= y,
        Condition::AnyBit => x & y != 0,
        Condition::NotEqual => x != y,
        Condition::SignedAbove => x.cast_signed() > y.cast_signed(),
        Condition::SignedAtLeast => x.cast_signed() >= y.cast_signed(),
        Condition::Below => x < y,
        Condition::AtMost => x <= y,
        Condition::SignedBelow => x.cast_signed() < y.cast_signed(),
        Condition::SignedAtMost => x.cast_signed() <= y.cast_signed(),
    }
}
