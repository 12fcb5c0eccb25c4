//! Matches texts against patterns. In a pattern `*` matches any text, and `#` matches a decimal number.
use std::alloc::{AllocError, Global};

/// Checks whether the whole text matches the pattern, in which `*` matches any text and `#` a decimal number.
pub fn is_like(alloc: Global, pattern: &[u8], text: &[u8]) -> Result<bool, AllocError> {
    let pieces: Vec<&[u8]> = pattern.split(|sign| *sign == b'*').collect(alloc)?;
    Ok(are_found(pieces.as_slice(), text))
}

/// Checks whether the text matches a pattern that is given as its pieces between the stars. The pieces must occur in
/// the text in this order, the first at its beginning and the last at its end.
fn are_found(pieces: &[&[u8]], text: &[u8]) -> bool {
    match pieces {
        [] => text.is_empty(),
        [whole] => is_whole(*whole, text),
        [first, middle @ .., last] => match behind(*first, text) {
            Some(rest) => are_behind(middle, *last, rest),
            None => false,
        },
    }
}

/// Checks whether the pieces of a pattern in `middle` occur in the text in this order, followed by the piece `last` at
/// its end.
fn are_behind(middle: &[&[u8]], last: &[u8], text: &[u8]) -> bool {
    let mut rest = text;
    for piece in middle {
        let Some(after) = behind_first(*piece, rest) else {
            return false;
        };
        rest = after;
    }
    is_end(last, rest)
}

/// Returns the text after the first match of this piece of a pattern. Returns `None` if the text has no match.
fn behind_first<'a>(piece: &[u8], text: &'a [u8]) -> Option<&'a [u8]> {
    for start in 0..=text.len() {
        if let Some(rest) = behind(piece, &text[start..]) {
            return Some(rest);
        }
    }
    None
}

/// Checks whether the end of the text matches this piece of a pattern.
fn is_end(piece: &[u8], text: &[u8]) -> bool {
    for start in 0..=text.len() {
        if is_whole(piece, &text[start..]) {
            return true;
        }
    }
    false
}

/// Checks whether the whole text matches this piece of a pattern.
fn is_whole(piece: &[u8], text: &[u8]) -> bool {
    match behind(piece, text) {
        Some(rest) => rest.is_empty(),
        None => false,
    }
}

/// Returns the text after a match of this piece of a pattern at the beginning. Returns `None` if the text does not
/// begin with a match.
fn behind<'a>(piece: &[u8], text: &'a [u8]) -> Option<&'a [u8]> {
    let mut rest = text;
    for sign in piece {
        let after = if *sign == b'#' {
            behind_number(rest)
        } else {
            behind_byte(rest, *sign)
        };
        rest = after?;
    }
    Some(rest)
}

/// Returns the text after its first byte if this is `byte`. Returns `None` if it is another byte or the text is empty.
fn behind_byte(text: &[u8], byte: u8) -> Option<&[u8]> {
    match text {
        [first, rest @ ..] if *first == byte => Some(rest),
        _ => None,
    }
}

/// Returns the text after the decimal digits with which it begins. Returns `None` if it does not begin with a digit.
fn behind_number(text: &[u8]) -> Option<&[u8]> {
    match text.iter().position(|byte| !byte.is_ascii_digit()) {
        Some(0) => None,
        Some(place) => Some(&text[place..]),
        None if text.is_empty() => None,
        None => Some(&[]),
    }
}
