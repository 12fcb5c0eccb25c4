//! Finds the lines of a file, and marks parts of them for the excerpts of reports.
ghost use Rattle.std.specs.Prelude.{◌≡◌, option_map};
ghost use Rattle.cli_report.specs.Lines.{all_marked, is_white, line_at, marked, trimmed};
ghost use Rattle.cli_report.specs.Report.{mark_view};

use crate::report::Mark;
use text::{Stop, find};

/// Checks whether a byte is a space, a tab or a carriage return.
fn is_white(byte: u8) -> bool
    ensures { result ≡ is_white byte }
{
    byte == b' ' || byte == b'\t' || byte == b'\r'
}

/// Returns a line without the spaces, tabs and carriage returns at its end.
pub(crate) fn trimmed(line: &[u8]) -> &[u8]
    ensures { result.now ≡ trimmed line.now }
{
    let mut size = line.len();
    'ends: while size > 0 {
        if !is_white(line[size - 1]) {
            return &line[..size];
        }
        size -= 1;
    }
    &[]
}

/// Returns line `number` of a text, counted from 1, or `None` if there is no such line.
pub(crate) fn line_at(text: &[u8], number: u64) -> Option<&[u8]>
    ensures { option_map (λ line. line.now) result ≡ line_at text.now number }
{
    let mut rest = text;
    let mut left = number;
    'lines: while left > 1 {
        let (_, after) = text::line(rest)?;
        rest = after;
        left -= 1;
    }
    let (line, _) = text::line(rest)?;
    Some(line)
}

/// Marks the `size` bytes after the first `before` bytes of a line, as far as the line has them. `number` is the line's
/// number.
pub(crate) fn marked(number: u64, line: &[u8], before: usize, size: usize) -> Mark<'_>
    ensures { mark_view result ≡ marked number line.now before size }
{
    let from = before.min(line.len());
    Mark {
        number,
        line,
        from,
        size: size.min(line.len() - from),
    }
}

/// Marks a whole line, except the blanks at its beginning. `number` is the line's number.
pub(crate) fn all_marked(number: u64, line: &[u8]) -> Mark<'_>
    ensures { mark_view result ≡ all_marked number line.now }
{
    marked(number, line, find(Stop::Solid, line), line.len())
}
