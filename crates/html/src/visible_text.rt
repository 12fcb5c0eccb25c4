//! Shows the hidden characters of untrusted text as numbers such as `[U+200B]`, so that a reader sees every character.
ghost use Rattle.std.specs.Prelude.{◌≡◌, ◌<◌, ◌++◌, string_bytes, OnOk};
ghost use Rattle.std.specs.Str.{encode_utf8_all};
ghost use Rattle.html.specs.Escaped.{escaped};
ghost use Rattle.html.specs.Page.{shown};
ghost use Rattle.html.specs.Visible.{digit, fifth, is_control, is_hidden, is_ignored, is_ignored_above, is_ignored_below, is_plain, made_visible, numbered, visible};

use crate::escapes::put_character;
use std::alloc::AllocError;

/// Appends a text with its markup escaped. A character that is invisible, or that changes the order of other
/// characters, is shown as its number, such as `[U+200B]`.
///
/// # Errors
///
/// Fails if there is no memory for the text.
pub(crate) fn put_shown(out: &mut String, text: &str) -> Result<(), AllocError>
    ensures { OnOk result (string_bytes out.new ≡ string_bytes out.old ++ shown text.now) }
{
    for character in text.chars() {
        put_visible(out, character)?;
    }
    Ok(())
}

/// Appends a character, escaped if it is markup, or as its number if it is hidden. Checks first for plain characters,
/// which are the most frequent.
#[tactic(auto, using(crate::proofs::PlainLemmas::plain_written))]
fn put_visible(out: &mut String, character: char) -> Result<(), AllocError>
    ensures { OnOk result (string_bytes out.new ≡ string_bytes out.old
        ++ encode_utf8_all (escaped (made_visible character))) }
{
    if is_plain(character) {
        return out.push(character);
    }
    if is_hidden(character) {
        put_number(out, u32::from(character))
    } else {
        put_character(out, character)
    }
}

/// Appends the Unicode number of a character in brackets, such as `[U+200B]`, with at least four hexadecimal digits.
#[tactic(auto, using(crate::proofs::NumberLemmas::number_written))]
fn put_number(out: &mut String, number: u32) -> Result<(), AllocError>
    ensures { OnOk result (string_bytes out.new ≡ string_bytes out.old ++ encode_utf8_all (escaped (numbered number))) }
{
    out.push_str("[U+")?;
    put_fifth(out, number)?;
    put_character(out, digit(number / 4096 % 16))?;
    put_character(out, digit(number / 256 % 16))?;
    put_character(out, digit(number / 16 % 16))?;
    put_character(out, digit(number % 16))?;
    out.push_str("]")
}

/// Appends the fifth hexadecimal digit of a number, counted from the right. Appends nothing if the number is below
/// 0x10000.
#[tactic(auto, using(crate::proofs::NumberLemmas::one_written))]
fn put_fifth(out: &mut String, number: u32) -> Result<(), AllocError>
    ensures { OnOk result (string_bytes out.new ≡ string_bytes out.old ++ encode_utf8_all (escaped (fifth number))) }
{
    if number < 65536 {
        return Ok(());
    }
    put_character(out, digit(number / 65536 % 16))
}

/// Returns the upper-case hexadecimal digit for a value below 16.
fn digit(value: u32) -> char
    requires { value < 16 }
    ensures { result ≡ digit value }
{
    if value < 10 {
        char::from(48 + value as u8)
    } else {
        char::from(55 + value as u8)
    }
}

/// Checks whether a character is written unchanged: whether it is printable ASCII and not markup.
#[inline(always)]
fn is_plain(character: char) -> bool
    ensures { result ≡ is_plain character }
{
    matches!(character, ' '..='!' | '#'..='%' | '('..=';' | '=' | '?'..='~')
}

/// Checks whether a character is hidden: whether it is invisible or changes the order of other characters.
fn is_hidden(character: char) -> bool
    ensures { result ≡ is_hidden character }
{
    is_control(character)
        || is_ignored_below(character)
        || is_ignored(character)
        || is_ignored_above(character)
}

/// Checks whether a character is a control character other than the tab, the line feed and the carriage return.
fn is_control(character: char) -> bool
    ensures { result ≡ is_control character }
{
    matches!(
        character,
        '\u{0}'..='\u{8}' | '\u{B}'..='\u{C}' | '\u{E}'..='\u{1F}' | '\u{7F}'..='\u{9F}'
    )
}

/// Checks whether a character below U+2000 is hidden: whether it is invisible or changes the order of other characters.
/// Control characters are not counted.
fn is_ignored_below(character: char) -> bool
    ensures { result ≡ is_ignored_below character }
{
    matches!(
        character,
        '\u{AD}'
            | '\u{34F}'
            | '\u{61C}'
            | '\u{115F}'..='\u{1160}'
            | '\u{17B4}'..='\u{17B5}'
            | '\u{180B}'..='\u{180F}'
    )
}

/// Checks whether a character from U+2000 to U+FFFF is hidden: whether it is invisible or changes the order of other
/// characters.
fn is_ignored(character: char) -> bool
    ensures { result ≡ is_ignored character }
{
    matches!(
        character,
        '\u{200B}'
            | '\u{200E}'..='\u{200F}'
            | '\u{202A}'..='\u{202E}'
            | '\u{2060}'..='\u{206F}'
            | '\u{3164}'
            | '\u{FEFF}'
            | '\u{FFA0}'
            | '\u{FFF0}'..='\u{FFFB}'
    )
}

/// Checks whether a character from U+10000 on is hidden, which means invisible.
fn is_ignored_above(character: char) -> bool
    ensures { result ≡ is_ignored_above character }
{
    matches!(
        character,
        '\u{1BCA0}'..='\u{1BCA3}' | '\u{1D173}'..='\u{1D17A}' | '\u{E0000}'..='\u{E0FFF}'
    )
}
