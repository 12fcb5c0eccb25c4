//! Defines the limits of 32-bit and 64-bit operations, and the ranges of the low bits that they use.

ghost use Rattle.std.specs.Prelude.{◌≡◌, ◌+◌, ◌<◌, ◌^◌, ℕ};
ghost use Rattle.word.specs.Arithmetic.{bits_of, taken};
ghost use Rattle.range.specs.Interval.{IsIn};
ghost use Rattle.range.specs.Table.{whole, low, sign_limit};

use crate::range::Range;
use word::Width;

/// Returns the greatest number of 32 or 64 bits.
pub(crate) fn greatest(width: Width) -> u64
    ensures { result + 1 ≡ 2 ^ bits_of width }
{
    match width {
        Width::W32 => 0xffff_ffff,
        Width::W64 => u64::MAX,
    }
}

/// Returns the least number of 32 or 64 bits that is negative as signed, 2^31 or 2^63.
pub(crate) fn least_negative(width: Width) -> u64
    ensures { result ≡ sign_limit width }
{
    match width {
        Width::W32 => 0x8000_0000,
        Width::W64 => 0x8000_0000_0000_0000,
    }
}

/// Returns the number of bits of the width, 32 or 64.
pub(crate) fn bit_count(width: Width) -> u64
    ensures { result ≡ bits_of width }
{
    match width {
        Width::W32 => 32,
        Width::W64 => 64,
    }
}

/// Returns the range of all numbers of 32 or 64 bits.
pub fn of_width(width: Width) -> Range
    ensures exact { result ≡ whole width }
    ensures holds { (x : ℕ) → x < 2 ^ bits_of width → IsIn result.0 result.1 x }
    ensures below { result.1 < 2 ^ bits_of width }
{
    Range {
        lo: 0,
        hi: greatest(width),
    }
}

/// Returns a range that contains the low 32 or 64 bits, which operations of this width use, of all numbers of `a`.
pub fn used(width: Width, a: Range) -> Range
    ensures exact { result ≡ low width a.0 a.1 }
    ensures holds { (x : ℕ) → IsIn a.0 a.1 x → IsIn result.0 result.1 (taken width x) }
    ensures below { result.1 < 2 ^ bits_of width }
{
    match width {
        Width::W64 => a,
        Width::W32 => low_word(a),
    }
}

/// Returns a range that contains the low 32 bits of all numbers of `a`.
fn low_word(a: Range) -> Range
    ensures exact { result ≡ low Width.W32 a.0 a.1 }
    ensures holds { (x : ℕ) → IsIn a.0 a.1 x → IsIn result.0 result.1 (taken Width.W32 x) }
    ensures below { result.1 < 2 ^ 32 }
{
    if a.hi < 0x1_0000_0000 {
        return a;
    }
    if a.lo / 0x1_0000_0000 == a.hi / 0x1_0000_0000 {
        return Range {
            lo: a.lo % 0x1_0000_0000,
            hi: a.hi % 0x1_0000_0000,
        };
    }
    Range {
        lo: 0,
        hi: 0xffff_ffff,
    }
}
