//! Displays untrusted text without the control characters that a terminal would obey.
ghost use Rattle.std.specs.Prelude.{◌≡◌, ◌<◌, Some, true};
ghost use Rattle.std.specs.Char.{digit_char, is_control};
ghost use Rattle.std.specs.Fmt.{DisplaysOnOk};
ghost use Rattle.std.specs.Str.{encode_utf8_all};
ghost use Rattle.streams.specs.Escapes.{displayed, escape, escaped, is_escaped, is_kept};

use crate::name::has_control;
use std::fmt;

/// Which control character is displayed unchanged.
#[derive(Clone, Copy)]
pub enum Kept {
    /// No control character, because the text is part of a line.
    Nothing,
    /// The tab, because the text is a line of a file.
    Tab,
    /// The line feed, because the text has several lines.
    LineFeed,
}

/// A text for display on a terminal. A control character is displayed as an escape, such as `\u001b`, as in JSON. Only
/// the character that `kept` names, and characters that are not controls, are displayed unchanged.
#[derive(Clone, Copy)]
pub struct Escaped<'a> {
    pub text: &'a str,
    pub kept: Kept,
}

impl fmt::Display for Escaped<'_> {
    ghost use Rattle.std.specs.Prelude.{Some};
    ghost use Rattle.streams.specs.Escapes.{escaped};

    ghost output = { λ e. Some (escaped e.kept (e.text).now) };

    fn fmt<W: fmt::Write>(&self, f: &mut fmt::Formatter<W>) -> fmt::Result {
        put_text(f, self.kept, self.text)
    }
}

/// Writes a text with its control characters escaped, except the one that `kept` names. A text without control
/// characters is written with one call.
fn put_text<W: fmt::Write>(f: &mut fmt::Formatter<W>, kept: Kept, text: &str) -> fmt::Result
    ensures { DisplaysOnOk W.write_str_gives f.old result (Some (escaped kept text.now)) f.new }
{
    if !has_control(text) {
        return f.write_str(text);
    }
    for character in text.chars() {
        put(f, kept, character)?;
    }
    Ok(())
}

/// Writes a character: as an escape such as `\u001b` if it is a control character that `kept` does not name, and
/// otherwise unchanged.
fn put<W: fmt::Write>(f: &mut fmt::Formatter<W>, kept: Kept, character: char) -> fmt::Result
    ensures { DisplaysOnOk W.write_str_gives f.old result (Some (encode_utf8_all (displayed kept character))) f.new }
{
    if is_escaped(kept, character) {
        put_escape(f, character)
    } else {
        f.write_char(character)
    }
}

/// Writes a control character as an escape, such as `\u001b`.
fn put_escape<W: fmt::Write>(f: &mut fmt::Formatter<W>, control: char) -> fmt::Result
    requires { is_control control ≡ true }
    ensures { DisplaysOnOk W.write_str_gives f.old result (Some (encode_utf8_all (escape control))) f.new }
{
    let number = u32::from(control);
    f.write_str("\\u00")?;
    f.write_char(digit(number / 16))?;
    f.write_char(digit(number % 16))
}

/// Returns the lower-case hexadecimal digit for a number below 16.
fn digit(number: u32) -> char
    requires { number < 16 }
    ensures { result ≡ digit_char number }
{
    if number < 10 {
        char::from(48 + number as u8)
    } else {
        char::from(87 + number as u8)
    }
}

/// Checks whether a character must be escaped: whether it is a control character that `kept` does not name.
fn is_escaped(kept: Kept, character: char) -> bool
    ensures { result ≡ is_escaped kept character }
{
    character.is_control() && !is_kept(kept, character)
}

/// Checks whether `kept` names this control character.
fn is_kept(kept: Kept, character: char) -> bool
    ensures { result ≡ is_kept kept character }
{
    match kept {
        Kept::Nothing => false,
        Kept::Tab => character == '\t',
        Kept::LineFeed => character == '\n',
    }
}
