//! Writes what is known of a value, such as `0 to 255` or `stack -16 to -8`.
ghost use Rattle.std.specs.Prelude.{◌≡◌, ◌==◌, ◌||◌, ◌++◌, string_bytes, OnOk};
ghost use Rattle.std.specs.Int.{w64, cast_signed};
ghost use Rattle.explain.specs.Values.{words_text, span_text, is_any, range_text, is_bound, bits_text, numbers_text, region_text, value_text};

use absval::{AbsVal, NumberSet};
use asm::{put, put_number, put_unsigned};
use bits::Bits;
use range::Range;
use semantics::Region;
use std::alloc::AllocError;

/// A range of signed numbers, both ends included.
#[derive(Clone, Copy)]
pub struct NumberSpan {
    /// The least number.
    pub low: i64,
    /// The greatest number.
    pub high: i64,
}

/// Returns the range from `low` to `high`.
pub(crate) fn between(low: i64, high: i64) -> NumberSpan
    ensures { result ≡ record { low = low; high = high } }
{
    NumberSpan { low, high }
}

/// Appends a range of signed numbers, such as `-8 to -1`, or `-8` if it has only one number.
pub(crate) fn put_span(out: &mut String, span: NumberSpan) -> Result<(), AllocError>
    ensures { OnOk result (string_bytes out.new ≡ string_bytes out.old ++ span_text (span.low, span.high)) }
{
    put_number(out, span.low)?;
    if span.low == span.high {
        return Ok(());
    }
    put(out, " to ")?;
    put_number(out, span.high)
}

/// Appends a range of unsigned numbers, such as `0 to 255`, or `7` if it has only one number.
fn put_words(out: &mut String, range: Range) -> Result<(), AllocError>
    ensures { OnOk result (string_bytes out.new ≡ string_bytes out.old ++ words_text range) }
{
    put_unsigned(out, range.lo)?;
    if range.lo == range.hi {
        return Ok(());
    }
    put(out, " to ")?;
    put_unsigned(out, range.hi)
}

/// Checks whether the range contains every 64-bit number.
fn is_any(range: Range) -> bool
    ensures { result ≡ is_any range }
{
    range.lo == 0 && range.hi == u64::MAX
}

/// Returns the range from `range.lo` to `range.hi`, with both read as signed 64-bit numbers in two's complement.
fn signed(range: Range) -> NumberSpan
    ensures { result ≡ record { low = cast_signed w64 range.0; high = cast_signed w64 range.1 } }
{
    NumberSpan {
        low: range.lo.cast_signed(),
        high: range.hi.cast_signed(),
    }
}

/// Appends a range of numbers, such as `0 to 255` or `any number`. If all are 2^63 or more, they are written as
/// negative numbers.
fn put_range(out: &mut String, range: Range) -> Result<(), AllocError>
    ensures { OnOk result (string_bytes out.new ≡ string_bytes out.old ++ range_text range) }
{
    if is_any(range) {
        return put(out, "any number");
    }
    if range.lo >= 0x8000_0000_0000_0000 {
        put_span(out, signed(range))
    } else {
        put_words(out, range)
    }
}

/// Checks whether known bits say no more than an upper bound: the open bits are the lowest, and no bit is known to be
/// set.
fn is_bound(bits: Bits) -> bool
    ensures { result ≡ is_bound bits }
{
    bits.value == 0 && bits.mask & bits.mask.wrapping_add(1) == 0
}

/// Appends the bits that are open (not known), and those that are known to be set, such as `, bits 0x7 open, 0x8 set`.
fn put_bits(out: &mut String, bits: Bits) -> Result<(), AllocError>
    ensures { OnOk result (string_bytes out.new ≡ string_bytes out.old ++ bits_text bits) }
{
    let Bits { mask, value } = bits;
    write!(out, ", bits 0x{mask:x} open, 0x{value:x} set")
}

/// Appends the numbers that a value may be: their range, and the known bits if these say more than the range.
fn put_numbers(out: &mut String, numbers: NumberSet) -> Result<(), AllocError>
    ensures { OnOk result (string_bytes out.new ≡ string_bytes out.old ++ numbers_text numbers) }
{
    let range = numbers.range();
    let bits = numbers.bits();
    put_range(out, range)?;
    if range.lo == range.hi || is_bound(bits) {
        return Ok(());
    }
    put_bits(out, bits)
}

/// Returns the name of a region: `stack` or `context`.
pub(crate) fn region_name(region: Region) -> &'static str
    ensures { result.now ≡ region_text region }
{
    match region {
        Region::Stack => "stack",
        Region::Context => "context",
    }
}

/// Appends what is known of a value: `perhaps unset`, numbers such as `0 to 255`, or a pointer such as `stack -16 to
/// -8`.
pub(crate) fn put_known(out: &mut String, value: AbsVal) -> Result<(), AllocError>
    ensures { OnOk result (string_bytes out.new ≡ string_bytes out.old ++ value_text value) }
{
    match value {
        AbsVal::Unset => put(out, "perhaps unset"),
        AbsVal::Number(numbers) => put_numbers(out, numbers),
        AbsVal::Pointer(region, offsets) => {
            put(out, region_name(region))?;
            put(out, " ")?;
            put_span(
                out,
                NumberSpan {
                    low: i64::from(offsets.low),
                    high: i64::from(offsets.high),
                },
            )
        }
    }
}
