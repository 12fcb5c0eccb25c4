//! Cuts texts at a stop, a given kind of byte: finds the first stop, and splits a text into pieces and lines.
ghost use Rattle.std.specs.Prelude.{◌≡◌, ◌<◌, ◌≤◌, [], IfNone, IfSome, length};
ghost use Rattle.text.specs.Parts.{until, before, from, pieces, lines_of, GivesPieces, GivesLines};

use crate::stop::{Stop, stops};

/// Returns how many bytes a text has before its first stop: the first byte of the kind that `stop` names. If there is
/// no such byte, this is the length of the text.
pub fn find(stop: Stop, bytes: &[u8]) -> usize
    ensures found { result ≡ until stop bytes.now }
    ensures inside { result ≤ length bytes.now }
{
    for (i, byte) in bytes.iter().enumerate() {
        if stops(stop, *byte) {
            return i;
        }
    }
    bytes.len()
}

/// Cuts a text before its first stop: the first byte of the kind that `stop` names. Returns the bytes before it, and
/// the bytes from it on. If there is no such byte, returns the whole text and no bytes.
pub fn cut(stop: Stop, bytes: &[u8]) -> (&[u8], &[u8])
    ensures front { result.0.now ≡ before stop bytes.now }
    ensures back { result.1.now ≡ from stop bytes.now }
{
    bytes.split_at(find(stop, bytes))
}

/// Returns the bytes before and after the first stop of a text: the first byte of the kind that `stop` names. If there
/// is no such byte, returns the whole text and `None`.
pub fn piece(stop: Stop, bytes: &[u8]) -> (&[u8], Option<&[u8]>)
    ensures first { GivesPieces stop result.0.now result.1 (pieces stop bytes.now) }
    ensures last { IfNone result.1 (result.0.now ≡ bytes.now) }
    ensures shorter { IfSome result.1 (λ rest. length rest.now < length bytes.now) }
{
    let (front, rest) = cut(stop, bytes);
    match rest {
        [] => (front, None),
        [_, after @ ..] => (front, Some(after)),
    }
}

/// Returns the first line of a text without its line feed, and the text after this line feed. Returns `None` if the
/// text is empty.
pub fn line(bytes: &[u8]) -> Option<(&[u8], &[u8])>
    ensures first { GivesLines result (lines_of bytes.now) }
    ensures shorter { IfSome result (λ cut. length cut.1.now < length bytes.now) }
{
    if bytes.is_empty() {
        return None;
    }
    let (front, after) = piece(Stop::Byte(b'\n'), bytes);
    match after {
        None => Some((front, &[])),
        Some(rest) => Some((front, rest)),
    }
}
