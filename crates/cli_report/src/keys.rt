//! Finds the line of a key in a TOML text, and marks the key or its value there.
ghost use Rattle.std.specs.Prelude.{◌≡◌, ◌+◌, ◌<◌, ◌≤◌, ◌^◌, IfOk, option_map};
ghost use Rattle.cli_report.specs.Keys.{begins_with, ends_word, entry_line, found, found_view, header, quoted_value, shown_at, table_at, table_of, value_end, value_in, value_marked, word_marked};
ghost use Rattle.cli_report.specs.Report.{mark_view};

use crate::lines::{all_marked, marked, trimmed};
use crate::report::{Mark, behind};
use std::alloc::{AllocError, Global};
use text::{Stop, cut, find};

/// A line of a TOML text: its number, counted from 1, its bytes, and how many `[[traitor]]` headers the text has up to
/// and including this line.
#[derive(Clone, Copy)]
pub(crate) struct Found<'a> {
    pub number: u64,
    pub line: &'a [u8],
    pub tables: u64,
}

/// Returns the header `[[traitor]]`, which begins the table of a traitor.
pub(crate) fn header() -> &'static [u8]
    ensures { result.now ≡ header }
{
    b"[[traitor]]"
}

/// Checks whether these bytes end the word before them: they are empty, or begin with `=`, `#` or white space.
fn ends_word(bytes: &[u8]) -> bool
    ensures { result ≡ ends_word bytes.now }
{
    match bytes {
        [] => true,
        [byte, ..] => *byte == b'='
            || *byte == b'#'
            || *byte == b' '
            || *byte == b'\t'
            || *byte == b'\r',
    }
}

/// Checks whether the first word of a line is `word`.
fn begins_with(word: &[u8], line: &[u8]) -> bool
    ensures { result ≡ begins_with word.now line.now }
{
    let (_, solid) = cut(Stop::Solid, line);
    solid.starts_with(word) && ends_word(behind(solid, word.len()))
}

/// Returns how many `[[traitor]]` headers there are up to and including this line, if `tables` headers are before it.
fn table_at(tables: u64, line: &[u8]) -> u64
    requires { tables + 1 < 2 ^ 64 }
    ensures at { result ≡ table_at tables line.now }
    ensures bound { result ≤ tables + 1 }
{
    if begins_with(header(), line) {
        tables + 1
    } else {
        tables
    }
}

/// Returns the first line with the first word `word` in table `sought`, the table after that many `[[traitor]]`
/// headers. Table 0 is the top of the text. Returns `None` if there is no such line.
#[tactic(auto, unfolding(crate::specs::Keys::found))]
pub(crate) fn find_line<'a>(sought: u128, word: &[u8], text: &'a [u8]) -> Option<Found<'a>>
    ensures { option_map found_view result ≡ found sought word.now text.now }
{
    let mut rest = text;
    let mut tables = 0;
    let mut number = 1;
    while let Some((line, after)) = text::line(rest) {
        tables = table_at(tables, line);
        if u128::from(tables) == sought && begins_with(word, line) {
            return Some(Found {
                number,
                line,
                tables,
            });
        }
        number += 1;
        rest = after;
    }
    None
}

/// Returns a line from its value on. The value begins after the first `=` and the blanks that follow it.
pub(crate) fn value_end(line: &[u8]) -> &[u8]
    ensures { result.now ≡ value_end line.now }
{
    let (_, behind_key) = cut(Stop::Byte(b'='), line);
    cut(Stop::Solid, behind(behind_key, 1)).1
}

/// Returns the value in a line such as `order = 1 # attack`, without the comment and the white space around the value.
pub(crate) fn value_in(line: &[u8]) -> &[u8]
    ensures { result.now ≡ value_in line.now }
{
    trimmed(cut(Stop::Byte(b'#'), value_end(line)).0)
}

/// Returns the text between the quotation marks of the value in a line. It ends at the next byte that is the same as
/// the first byte of the value.
pub(crate) fn quoted_value(line: Found<'_>) -> &[u8]
    ensures { result.now ≡ quoted_value (found_view line.entry) }
{
    match value_end(line.line) {
        [mark, text @ ..] => cut(Stop::Byte(*mark), text).0,
        [] => &[],
    }
}

/// Returns the number of the table, counted from 1, that has the first line `general = G`, where G is `general`. It is
/// 0 for the top of the text, and `None` if there is no such line.
#[tactic(auto, unfolding(crate::specs::Keys::table_of))]
pub(crate) fn table_of(alloc: Global, general: u8, text: &[u8]) -> Result<Option<u64>, AllocError>
    ensures { IfOk result (λ table. table ≡ table_of general text.now) }
{
    let digits = format!(in alloc; "{general}")?;
    let mut rest = text;
    let mut tables = 0;
    while let Some((line, after)) = text::line(rest) {
        tables = table_at(tables, line);
        if begins_with(b"general", line) && value_in(line) == digits.as_bytes() {
            return Ok(Some(tables));
        }
        rest = after;
    }
    Ok(None)
}

/// Marks `word`, the first word of a line.
fn word_marked<'a>(word: &[u8], found: Found<'a>) -> Mark<'a>
    ensures { mark_view result ≡ word_marked word.now (found_view found.entry) }
{
    marked(
        found.number,
        trimmed(found.line),
        find(Stop::Solid, found.line),
        word.len(),
    )
}

/// Marks the value in a line, without the comment after it.
fn value_marked(found: Found<'_>) -> Mark<'_>
    ensures { mark_view result ≡ value_marked (found_view found.entry) }
{
    let before = found.line.len().saturating_sub(value_end(found.line).len());
    marked(
        found.number,
        trimmed(found.line),
        before,
        value_in(found.line).len(),
    )
}

/// Marks the value in a line if `by_value` is true, and otherwise its first word, `word`. If its first word is another
/// one, marks all of the line.
pub(crate) fn shown_at<'a>(by_value: bool, word: &[u8], found: Found<'a>) -> Mark<'a>
    ensures { mark_view result ≡ shown_at by_value word.now (found_view found.entry) }
{
    if !begins_with(word, found.line) {
        all_marked(found.number, trimmed(found.line))
    } else if by_value {
        value_marked(found)
    } else {
        word_marked(word, found)
    }
}

/// Returns the line of the key `word` in traitor's table `index`, counted from 0. If the table has no such key, returns
/// its header, and if there is no such header, the line of the key `traitor` at the top of the text. Returns `None` if
/// there is no such line either.
pub(crate) fn entry_line<'a>(index: usize, word: &[u8], text: &'a [u8]) -> Option<Found<'a>>
    ensures { option_map found_view result ≡ entry_line index word.now text.now }
{
    let table = index as u128 + 1;
    if let Some(line) = find_line(table, word, text) {
        return Some(line);
    }
    if let Some(line) = find_line(table, header(), text) {
        return Some(line);
    }
    find_line(0, b"traitor", text)
}
