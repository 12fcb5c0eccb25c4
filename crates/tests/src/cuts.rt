//! Tests of `may_begin_text`, which accepts bytes if they are UTF-8, except that the last character may be cut.

use streams::may_begin_text;

/// Bytes with which a text can begin: none, a letter, the first byte of a two-byte character, two bytes of a three-byte
/// character, and three bytes of a four-byte character.
const BEGINNINGS: &[&[u8]] = &[b"", b"a", b"a\xc3", b"\xe2\x82", b"\xf0\x9f\x98"];

/// Bytes with which no text can begin: a two-byte character that a parenthesis cuts short, a byte that UTF-8 never
/// uses, a continuation byte after a letter, and the beginning of a surrogate.
const OTHERS: &[&[u8]] = &[b"\xc3(", b"\xff", b"a\x80", b"\xed\xa0"];

#[test]
fn texts_are_cut_within_characters(rt: HostRuntime) {
    assert!(rt; BEGINNINGS.iter().all(|front| may_begin_text(front)));
    assert!(rt; !OTHERS.iter().any(|front| may_begin_text(front)));
}
