//! Splits an assembly text into lines.

ghost use Rattle.std.specs.Prelude.{◌≡◌, ◌<◌, IfSome, length};
ghost use Rattle.asm.specs.Program.{without_return, lines_of};
ghost use Rattle.asm.specs.Keeping.{GivesLines};

use text::{Stop, piece};

/// Returns a line without the carriage return at its end, if it has one.
fn without_carriage(line: &[u8]) -> &[u8]
    ensures { result.now ≡ without_return line.now }
{
    if line.len() >= 1 && line[line.len() - 1] == b'\r' {
        &line[..line.len() - 1]
    } else {
        line
    }
}

/// Returns the first line without its line end, and the text after it, or `None` if the text is empty. A line ends with
/// a line feed, before which a carriage return may be.
pub fn next_line(text: &[u8]) -> Option<(&[u8], &[u8])>
    ensures first { GivesLines result (lines_of text.now) }
    ensures shorter { IfSome result (λ cut. length cut.1.now < length text.now) }
{
    if text.is_empty() {
        return None;
    }
    let (front, after) = piece(Stop::Byte(b'\n'), text);
    match after {
        None => Some((front, &[])),
        Some(rest) => Some((without_carriage(front), rest)),
    }
}
