//! Splits a text after its first line.
ghost use Rattle.std.specs.Prelude.{◌≡◌, ◌<◌, IfNone, IfSome, length};
ghost use Rattle.text.specs.Stop.{feed};
ghost use Rattle.text.specs.Parts.{GivesPieces, pieces};

use memchr::memchr;

/// Returns the first line of a text without its LF, and the text after this LF. If the text has no LF, returns the
/// whole text and `None`.
pub fn parted(text: &[u8]) -> (&[u8], Option<&[u8]>)
    ensures first { GivesPieces feed result.0.now result.1 (pieces feed text.now) }
    ensures last { IfNone result.1 (result.0.now ≡ text.now) }
    ensures shorter { IfSome result.1 (λ rest. length rest.now < length text.now) }
{
    match memchr(b'\n', text) {
        Some(end) => (&text[..end], Some(&text[end + 1..])),
        None => (text, None),
    }
}
