//! Escapes untrusted text for XML and HTML, so that no character of it is read as markup.
ghost use Rattle.std.specs.Prelude.{◌≡◌, ◌++◌, string_bytes, OnOk, option_map};
ghost use Rattle.std.specs.Str.{encode_utf8_all};
ghost use Rattle.html.specs.Escaped.{is_character, reference, shown, written};

use std::alloc::AllocError;

/// Appends a character so that it can be neither read as markup nor forbidden in XML. For example, `<` becomes `&lt;`.
/// The result may be written between tags and in a quoted attribute value.
///
/// # Errors
///
/// Fails if there is no memory for the text.
pub fn put_character(out: &mut String, character: char) -> Result<(), AllocError>
    ensures { OnOk result (string_bytes out.new ≡ string_bytes out.old ++ encode_utf8_all (written character)) }
{
    match reference(character) {
        Some(reference) => out.push_str(reference),
        None => out.push(shown(character)),
    }
}

/// Returns the XML reference for a character, such as `&lt;` for `<`. Only markup characters have one, and white space
/// that an XML reader may change. Returns `None` for any other character.
fn reference(character: char) -> Option<&'static str>
    ensures { option_map (λ r. r.now) result ≡ reference character }
{
    match character {
        '&' => Some("&amp;"),
        '<' => Some("&lt;"),
        '>' => Some("&gt;"),
        '"' => Some("&quot;"),
        '\'' => Some("&#39;"),
        '\t' => Some("&#9;"),
        '\n' => Some("&#10;"),
        '\r' => Some("&#13;"),
        _ => None,
    }
}

/// Returns the character itself if XML allows it in a document, and otherwise the replacement character U+FFFD.
fn shown(character: char) -> char
    ensures { result ≡ shown character }
{
    if is_character(character) {
        character
    } else {
        '\u{FFFD}'
    }
}

/// Checks whether XML allows the character in a document.
fn is_character(character: char) -> bool
    ensures { result ≡ is_character character }
{
    matches!(
        character,
        '\t' | '\n' | '\r' | ' '..='\u{D7FF}' | '\u{E000}'..='\u{FFFD}' | '\u{10000}'..='\u{10FFFF}'
    )
}
