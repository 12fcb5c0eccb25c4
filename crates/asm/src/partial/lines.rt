//! Splits a text into lines.

ghost use Rattle.std.specs.Prelude.{◌≡◌, ◌<◌, length, IfSome};
ghost use Rattle.text.specs.Parts.{lines_of, GivesLines};

/// Returns the first line without its line feed, and the text after it, or `None` if the text is empty.
pub fn first_line(text: &str) -> Option<(&str, &str)>
    ensures first { GivesLines result (lines_of text.now) }
    ensures shorter { IfSome result (λ cut. length cut.1.now < length text.now) }
{
    if text.is_empty() {
        return None;
    }
    match text.split_once('\n') {
        Some(cut) => Some(cut),
        None => Some((text, "")),
    }
}
