//! Reads little-endian numbers and ranges of bytes that may be past the end.
ghost use Rattle.std.specs.Prelude.{◌≡◌, ◌+◌, length, nat_le};
ghost use Rattle.object.specs.Number.{number_at, window};

use byteorder::{ByteOrder, LittleEndian};

/// Returns whether `bytes` has at least `size` bytes from `place` on.
fn has(bytes: &[u8], place: usize, size: usize) -> bool
    ensures { result ≡ nat_le (place + size) (length bytes.now) }
{
    size <= bytes.len() && place <= bytes.len() - size
}

/// Returns the byte at index `place`, or 0 if `bytes` has no such index.
pub fn byte_at(bytes: &[u8], place: usize) -> u8
    ensures { result ≡ number_at 1 place bytes.now }
{
    if has(bytes, place, 1) {
        bytes[place]
    } else {
        0
    }
}

/// Returns the 16-bit little-endian number in the 2 bytes from index `place` on, or 0 if `bytes` does not have both.
pub fn half_at(bytes: &[u8], place: usize) -> u16
    ensures { result ≡ number_at 2 place bytes.now }
{
    if has(bytes, place, 2) {
        LittleEndian::read_u16(&bytes[place..])
    } else {
        0
    }
}

/// Returns the 32-bit little-endian number in the 4 bytes from index `place` on, or 0 if `bytes` does not have all
/// four.
pub fn word_at(bytes: &[u8], place: usize) -> u32
    ensures { result ≡ number_at 4 place bytes.now }
{
    if has(bytes, place, 4) {
        LittleEndian::read_u32(&bytes[place..])
    } else {
        0
    }
}

/// Returns the 64-bit little-endian number in the 8 bytes from index `place` on, or 0 if `bytes` does not have all
/// eight.
pub fn double_at(bytes: &[u8], place: usize) -> u64
    ensures { result ≡ number_at 8 place bytes.now }
{
    if has(bytes, place, 8) {
        LittleEndian::read_u64(&bytes[place..])
    } else {
        0
    }
}

/// Returns the `size` bytes from index `start` on, or no bytes if `bytes` does not have all of them.
pub fn window(bytes: &[u8], start: u64, size: u64) -> &[u8]
    ensures { result.now ≡ window start size bytes.now }
{
    let length = bytes.len() as u64;
    if size <= length && start <= length - size {
        let place = start as usize;
        &bytes[place..place + size as usize]
    } else {
        &[]
    }
}
