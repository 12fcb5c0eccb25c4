//! Reports a text that is not TOML, at the place that the parser names.
ghost use Rattle.std.specs.Prelude.{◌≡◌, ◌↔◌, IfOk, IsErr, length, string_bytes};
ghost use Rattle.text.specs.Stop.{feed};
ghost use Rattle.text.specs.Parts.{pieces};
ghost use Rattle.toml.specs.Errors.{IsMemory, span_end, span_start};
ghost use Rattle.cli_report.specs.Assembly.{last_of};
ghost use Rattle.cli_report.specs.Report.{mark_view};
ghost use Rattle.cli_report.specs.Toml.{TellsToml, span_marked, span_told};

use crate::lines::{line_at, marked, trimmed};
use crate::report::{Mark, front, report};
use std::alloc::{AllocError, Global};
use streams::{Escaped, Kept};
use text::{Stop, piece};
use toml::de::Error;
use toml::table_from_str;

/// Returns how many lines the bytes have, including the one after the last line feed, and that last line.
pub(crate) fn last_line(bytes: &[u8]) -> (u64, &[u8])
    ensures number { result.0 ≡ length (pieces feed bytes.now) }
    ensures last { result.1.now ≡ last_of (pieces feed bytes.now) }
{
    let mut number = 1;
    let (mut last, mut rest) = piece(Stop::Byte(b'\n'), bytes);
    while let Some(more) = rest {
        (last, rest) = piece(Stop::Byte(b'\n'), more);
        number += 1;
    }
    (number, last)
}

/// Marks the bytes of a text from offset `start` to offset `end`, as far as they are in the line where they begin.
fn span_marked(text: &[u8], start: usize, end: usize) -> Mark<'_>
    ensures { mark_view result ≡ span_marked text.now start end }
{
    let (number, last) = last_line(front(text, start));
    let line = line_at(text, number).unwrap_or(&[]);
    marked(number, trimmed(line), last.len(), end.saturating_sub(start))
}

/// Returns the report of a parser's message about the bytes from offset `start` to offset `end` of a text.
fn span_told(
    alloc: Global,
    name: &str,
    text: &[u8],
    message: &str,
    start: usize,
    end: usize,
) -> Result<String, AllocError>
    ensures { IfOk result (λ told. string_bytes told ≡ span_told name.now text.now message.now start end) }
{
    let message = Escaped {
        text: message,
        kept: Kept::Nothing,
    };
    let sentence = format!(in alloc; "the text is not TOML: {message}")?;
    let mark = span_marked(text, start, end);
    report(alloc, name, sentence.as_str(), Some(mark), None)
}

/// Returns the byte offsets where the fault that the parser found begins and ends.
///
/// # Errors
///
/// Fails if the parser ran out of memory before it found a fault.
fn span_of(error: &Error) -> Result<(usize, usize), AllocError>
    ensures memory { IsErr result ↔ IsMemory error.now }
    ensures span { IfOk result (λ span. (span.0 ≡ span_start error.now) × (span.1 ≡ span_end error.now)) }
{
    match error.span() {
        Some(span) => Ok((span.start, span.end)),
        None => Err(AllocError),
    }
}

/// Returns the report of a text that is not TOML: the parser's message and its place. `name` is the file's name.
pub(crate) fn not_toml(alloc: Global, name: &str, text: &[u8]) -> Result<String, AllocError>
    ensures { IfOk result (λ told. TellsToml name.now text.now (string_bytes told)) }
{
    let Ok(text) = str::from_utf8(text) else {
        return report(alloc, name, "the text is not UTF-8", None, None);
    };
    let error = match table_from_str(alloc, text) {
        Ok(_) => return report(alloc, name, "the text is TOML", None, None),
        Err(error) => error,
    };
    let (start, end) = span_of(&error)?;
    span_told(alloc, name, text.as_bytes(), error.message(), start, end)
}
