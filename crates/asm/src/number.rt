//! Reads numbers with an optional sign, and converts them to 16, 32 or 64 bits.

ghost use Rattle.std.specs.Prelude.{◌≡◌, ◌^◌};
ghost use Rattle.asm.specs.Number.{number_of, signed_within, bits_within};

use text::magnitude;

/// A number as it is written: whether it has a minus, and the digits. If they mean more than 2^64, `magnitude` is 2^64.
#[derive(Clone, Copy)]
pub struct Number {
    pub negative: bool,
    pub magnitude: u128,
}

/// Reads a decimal or hexadecimal number that may have a minus, such as `-8`. Returns `None` if the text is not such a
/// number.
#[tactic(auto, unfolding(crate::specs::Number::number_of))]
pub fn read_number(text: &[u8]) -> Option<Number>
    ensures { result ≡ number_of text.now }
{
    if text.len() >= 1 && text[0] == b'-' {
        let magnitude = magnitude(&text[1..])?;
        return Some(Number {
            negative: true,
            magnitude,
        });
    }
    let magnitude = magnitude(text)?;
    Some(Number {
        negative: false,
        magnitude,
    })
}

/// Returns a number as a signed 16-bit number, or `None` if it does not fit.
#[tactic(auto, unfolding(crate::specs::Number::signed_within))]
pub fn fit16(number: Number) -> Option<i16>
    ensures { result ≡ signed_within (2 ^ 15) number }
{
    if number.negative {
        if number.magnitude <= 0x8000 {
            Some((-(number.magnitude as i32)) as i16)
        } else {
            None
        }
    } else if number.magnitude < 0x8000 {
        Some(number.magnitude as i16)
    } else {
        None
    }
}

/// Returns a number as a signed 32-bit number, or `None` if it does not fit.
#[tactic(auto, unfolding(crate::specs::Number::signed_within))]
pub fn fit32(number: Number) -> Option<i32>
    ensures { result ≡ signed_within (2 ^ 31) number }
{
    if number.negative {
        if number.magnitude <= 0x8000_0000 {
            Some((-(number.magnitude as i64)) as i32)
        } else {
            None
        }
    } else if number.magnitude < 0x8000_0000 {
        Some(number.magnitude as i32)
    } else {
        None
    }
}

/// Returns a number from -2^63 to 2^64 - 1 as a 64-bit word, modulo 2^64. Returns `None` for other numbers.
#[tactic(auto, unfolding(crate::specs::Number::bits_within))]
pub fn fit64(number: Number) -> Option<u64>
    ensures { result ≡ bits_within number }
{
    if number.negative {
        if number.magnitude <= 0x8000_0000_0000_0000 {
            Some(if number.magnitude == 0 {
                0
            } else {
                (0x1_0000_0000_0000_0000 - number.magnitude) as u64
            })
        } else {
            None
        }
    } else if number.magnitude < 0x1_0000_0000_0000_0000 {
        Some(number.magnitude as u64)
    } else {
        None
    }
}
