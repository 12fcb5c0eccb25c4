//! Reads numbers that are written in decimal or hexadecimal digits.
ghost use Rattle.std.specs.Prelude.{◌≡◌, ◌+◌, ◌*◌, ◌≤◌, ◌^◌, IfSome};
ghost use Rattle.text.specs.Number.{capped, digit_in, digits_on, decimal_of, magnitude_of};
ghost use Rattle.text.specs.Base.{radix_of};

use crate::base::Base;

/// Returns the value of a digit, 0 to 15. Returns `None` if the byte is not a digit of the base. Hexadecimal digits may
/// be upper or lower case.
pub fn digit(base: Base, byte: u8) -> Option<u8>
    ensures value { result ≡ digit_in (radix_of base) byte }
    ensures bound { IfSome result (λ d. d ≤ 15) }
{
    match (base, byte) {
        (_, b'0'..=b'9') => Some(byte - b'0'),
        (Base::Sixteen, b'a'..=b'f') => Some(byte - b'a' + 10),
        (Base::Sixteen, b'A'..=b'F') => Some(byte - b'A' + 10),
        _ => None,
    }
}

/// Returns the number with one more digit at its end: `number` times the base plus `digit`. Returns 2^64 if this is
/// greater.
fn put_digit(base: Base, number: u128, digit: u8) -> u128
    requires { number ≤ 2 ^ 64 }
    ensures value { result ≡ capped (number * radix_of base + digit) }
    ensures bound { result ≤ 2 ^ 64 }
{
    let next = number * u128::from(base.radix()) + u128::from(digit);
    if next < 0x1_0000_0000_0000_0000 {
        next
    } else {
        0x1_0000_0000_0000_0000
    }
}

/// Reads a number that is written in digits of the base, possibly with leading zeros. Returns 2^64 if the number is
/// greater, 0 if there are no digits, and `None` if a byte is not a digit of the base.
pub fn digits(base: Base, bytes: &[u8]) -> Option<u128>
    ensures value { result ≡ digits_on (radix_of base) 0 bytes.now }
    ensures bound { IfSome result (λ n. n ≤ 2 ^ 64) }
{
    let mut number = 0;
    for byte in bytes {
        match digit(base, *byte) {
            None => return None,
            Some(d) => number = put_digit(base, number, d),
        }
    }
    Some(number)
}

/// Reads a decimal number without leading zeros. Returns 2^64 if the number is greater. Returns `None` if the bytes are
/// not such a number, for example if there are none.
#[tactic(auto, unfolding(crate::specs::Number::decimal_of))]
pub fn decimal(bytes: &[u8]) -> Option<u128>
    ensures value { result ≡ decimal_of bytes.now }
    ensures bound { IfSome result (λ n. n ≤ 2 ^ 64) }
{
    match bytes {
        [] => None,
        [first, _, ..] if *first == b'0' => None,
        _ => digits(Base::Ten, bytes),
    }
}

/// Reads a number that is written in decimal digits, or as `0x` and hexadecimal digits. Leading zeros are allowed.
/// Returns 2^64 if the number is greater. Returns `None` if the bytes are not such a number, for example if there are
/// none.
#[tactic(auto, unfolding(crate::specs::Number::magnitude_of))]
pub fn magnitude(bytes: &[u8]) -> Option<u128>
    ensures value { result ≡ magnitude_of bytes.now }
    ensures bound { IfSome result (λ n. n ≤ 2 ^ 64) }
{
    if bytes.len() >= 2 && bytes[0] == b'0' && bytes[1] == b'x' {
        if bytes.len() == 2 {
            return None;
        }
        return digits(Base::Sixteen, &bytes[2..]);
    }
    if bytes.is_empty() {
        return None;
    }
    digits(Base::Ten, bytes)
}
