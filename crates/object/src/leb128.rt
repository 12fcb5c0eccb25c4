//! Reads the numbers and strings of line number information.
ghost use Rattle.std.specs.Prelude.{◌≡◌, ◌<◌, ◌≤◌, length, drop, IfSome};
ghost use Rattle.object.specs.Numbers.{last_byte, joined, number_in, unsigned_at, signed_at, string_at};

use crate::number::byte_at;
use text::{Stop, cut};

/// The greatest number of bytes in a LEB128 number.
const MOST: u8 = 10;

/// A number that was read, and the byte index after it.
#[derive(Clone, Copy)]
pub struct Read {
    /// The number, modulo 2^64.
    pub value: u64,
    /// The byte index after the number.
    pub next: usize,
}

/// Returns the value of the last byte of a LEB128 number. In a signed number, a byte of 64 or more means `byte` - 128,
/// and is returned modulo 2^64.
fn last_byte(signed: bool, byte: u8) -> u64
    requires { byte < 128 }
    ensures { result ≡ last_byte signed byte }
{
    if signed && byte >= 64 {
        u64::from(byte) + (u64::MAX - 127)
    } else {
        u64::from(byte)
    }
}

/// Prepends a byte to a LEB128 number: the low seven bits of the result are those of `byte`, and the higher bits are
/// the number `more`, modulo 2^64.
fn joined(byte: u8, more: Read) -> Read
    requires { 128 ≤ byte }
    ensures { result ≡ joined byte more }
{
    let low = u64::from(byte - 128);
    Read {
        value: more.value.wrapping_mul(128).wrapping_add(low),
        next: more.next,
    }
}

/// Reads the LEB128 number at the byte index `place`. Returns `None` if the number has more than `most` bytes or does
/// not end.
#[tactic(auto, using(crate::proofs::NumberLemmas::number_none, crate::proofs::NumberLemmas::number_some))]
fn number_in(signed: bool, most: u8, bytes: &[u8], place: usize) -> Option<Read>
    ensures read { result ≡ number_in signed most place bytes.now }
    ensures on { IfSome result (λ number. place < number.next) }
    ensures within { IfSome result (λ number. number.next ≤ length bytes.now) }
{
    if most == 0 || place >= bytes.len() {
        return None;
    }
    let byte = byte_at(bytes, place);
    if byte < 128 {
        return Some(Read {
            value: last_byte(signed, byte),
            next: place + 1,
        });
    }
    match number_in(signed, most - 1, bytes, place + 1) {
        Some(more) => Some(joined(byte, more)),
        None => None,
    }
}

/// Reads the unsigned LEB128 number at the byte index `place`. Returns `None` if it has more than 10 bytes or does not
/// end.
pub fn unsigned_at(bytes: &[u8], place: usize) -> Option<Read>
    ensures read { result ≡ unsigned_at place bytes.now }
    ensures on { IfSome result (λ number. place < number.next) }
    ensures within { IfSome result (λ number. number.next ≤ length bytes.now) }
{
    number_in(false, MOST, bytes, place)
}

/// Reads the signed LEB128 number at the byte index `place`. Returns `None` if it has more than 10 bytes or does not
/// end.
pub fn signed_at(bytes: &[u8], place: usize) -> Option<Read>
    ensures read { result ≡ signed_at place bytes.now }
    ensures on { IfSome result (λ number. place < number.next) }
    ensures within { IfSome result (λ number. number.next ≤ length bytes.now) }
{
    number_in(true, MOST, bytes, place)
}

/// Returns the bytes from index `place` on, or no bytes if `place` is past the end.
fn rest(bytes: &[u8], place: usize) -> &[u8]
    ensures { result.now ≡ drop place bytes.now }
{
    if place <= bytes.len() {
        &bytes[place..]
    } else {
        &[]
    }
}

/// Returns the bytes from index `place` on, up to but not including the first zero or the end.
pub fn string_at(bytes: &[u8], place: usize) -> &[u8]
    ensures read { result.now ≡ string_at place bytes.now }
    ensures bound { length result.now ≤ length bytes.now }
{
    let (string, _) = cut(Stop::Byte(0), rest(bytes, place));
    string
}
