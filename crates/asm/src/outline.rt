//! Splits a line of assembly, such as `loop: add r1, 8 ; next`, into its name, its mnemonic and its operands.

ghost use Rattle.std.specs.Prelude.{◌≡◌, [], map, drop};
ghost use Rattle.text.specs.declared.stop.Stop.TheVariants.{Solid};
ghost use Rattle.text.specs.Stop.{comma};
ghost use Rattle.text.specs.Parts.{from, pieces};
ghost use Rattle.asm.specs.Line.{is_token, is_word, is_all_blank, token_of, tokens_on, line_words, outline_of, outlined, named};
ghost use Rattle.asm.specs.Views.{GivesOption, GivesWords, GivesOutline};

use crate::fault::{AsmFault, LineError};
use crate::operand::{is_name, letter};
use text::{Stop, cut, find, piece};

/// Returns whether a text has only ASCII characters and no carriage return.
fn token_bytes(text: &[u8]) -> bool
    ensures { result ≡ is_token text.now }
{
    for byte in text {
        if *byte >= 128 || *byte == b'\r' {
            return false;
        }
    }
    true
}

/// Returns whether a text has only letters, digits, `_` and `.`.
fn word_bytes(text: &[u8]) -> bool
    ensures { result ≡ is_word text.now }
{
    for byte in text {
        if !(letter(*byte) || (b'0' <= *byte && *byte <= b'9') || *byte == b'.') {
            return false;
        }
    }
    true
}

/// Returns the text without the spaces and tabs at its beginning.
fn skip_blank(text: &[u8]) -> &[u8]
    ensures { result.now ≡ from Solid text.now }
{
    cut(Stop::Solid, text).1
}

/// Returns whether a text has only spaces and tabs.
fn all_blank(text: &[u8]) -> bool
    ensures { result ≡ is_all_blank text.now }
{
    skip_blank(text).is_empty()
}

/// Returns an operand without the spaces and tabs around it. Returns `None` if it is empty, has a space or tab inside,
/// or has a character that is not allowed.
fn token(piece: &[u8]) -> Option<&[u8]>
    ensures { GivesOption (λ r. r.now) result (token_of piece.now) }
{
    let (word, rest) = cut(Stop::Blank, skip_blank(piece));
    if word.is_empty() {
        return None;
    }
    if all_blank(rest) && token_bytes(word) {
        Some(word)
    } else {
        None
    }
}

/// Appends the operands in `text`, which commas separate, to `words`. Fails with `Line` if an operand is not a single
/// word, or with `Memory`.
fn push_operands<'a>(words: &mut Vec<&'a [u8]>, text: &'a [u8]) -> Result<(), LineError>
    ensures { GivesWords words.new.items result (tokens_on (map (λ r. r.now) words.old.items) (pieces comma text.now)) }
{
    let mut rest = Some(text);
    while let Some(text) = rest {
        let (front, after) = piece(Stop::Byte(b','), text);
        let Some(word) = token(front) else {
            return Err(LineError::Fault(AsmFault::Line));
        };
        words.push(word)?;
        rest = after;
    }
    Ok(())
}

/// Appends the mnemonic and the operands in `body` to `words`, which must be empty. Appends nothing if `body` is empty.
/// Fails with `Line` if `body` does not have this form, and with `Memory`.
#[tactic(auto, unfolding(crate::specs::Line::line_words))]
fn push_words<'a>(words: &mut Vec<&'a [u8]>, body: &'a [u8]) -> Result<(), LineError>
    requires { words.old.items ≡ [] }
    ensures { GivesWords words.new.items result (line_words body.now) }
{
    if body.is_empty() {
        return Ok(());
    }
    let (word, rest) = cut(Stop::Blank, body);
    if !word_bytes(word) {
        return Err(LineError::Fault(AsmFault::Line));
    }
    words.push(word)?;
    if all_blank(rest) {
        return Ok(());
    }
    push_operands(words, rest)
}

/// Returns the text without its first byte. An empty text stays empty.
fn behind_first(text: &[u8]) -> &[u8]
    ensures { result.now ≡ drop 1 text.now }
{
    match text {
        [] => text,
        [_, rest @ ..] => rest,
    }
}

/// Reads a line that begins with a name and a colon. Returns the name, and appends the mnemonic and the operands to
/// `words`, which must be empty. Fails with `Line` if the line does not have this form, or with `Memory`.
#[tactic(auto, unfolding(crate::specs::Line::named))]
fn read_named<'a>(words: &mut Vec<&'a [u8]>, code: &'a [u8]) -> Result<Option<&'a [u8]>, LineError>
    requires { words.old.items ≡ [] }
    ensures { GivesOutline words.new.items result (named code.now) }
{
    let (name, rest) = cut(Stop::Byte(b':'), code);
    if !is_name(name) {
        return Err(LineError::Fault(AsmFault::Line));
    }
    match push_words(words, skip_blank(behind_first(rest))) {
        Ok(()) => Ok(Some(name)),
        Err(e) => Err(e),
    }
}

/// Reads a line without its comment. Returns its name, or `None` if it has none, and appends the mnemonic and the
/// operands to `words`, which must be empty. Fails with `Line` if the line does not have this form, or with `Memory`.
#[tactic(auto, unfolding(crate::specs::Line::outlined))]
fn read_outlined<'a>(
    words: &mut Vec<&'a [u8]>,
    code: &'a [u8],
) -> Result<Option<&'a [u8]>, LineError>
    requires { words.old.items ≡ [] }
    ensures { GivesOutline words.new.items result (outlined code.now) }
{
    let (first, _rest) = cut(Stop::Blank, code);
    if find(Stop::Byte(b':'), first) < first.len() {
        return read_named(words, code);
    }
    match push_words(words, code) {
        Ok(()) => Ok(None),
        Err(e) => Err(e),
    }
}

/// Reads a line such as `loop: add r1, 8 ; next`. Returns its name, or `None` if it has none, and replaces `words` by
/// the mnemonic and the operands. Fails with `Line` if the line does not have this form, or with `Memory`.
#[tactic(auto, unfolding(crate::specs::Line::outline_of))]
pub fn read_outline<'a>(
    words: &mut Vec<&'a [u8]>,
    line: &'a [u8],
) -> Result<Option<&'a [u8]>, LineError>
    ensures { GivesOutline words.new.items result (outline_of line.now) }
{
    words.clear();
    read_outlined(words, skip_blank(cut(Stop::Byte(b';'), line).0))
}
