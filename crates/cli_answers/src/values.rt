//! Turns a word of a printed line into a JSON value.
ghost use Rattle.std.specs.Prelude.{◌≡◌, IfOk, option_and_then, option_map};
ghost use Rattle.std.specs.Str.Lossy.{utf8_lossy};
ghost use Rattle.serde_json.specs.Data.{string};
ghost use Rattle.serde_json.specs.View.{view};
ghost use Rattle.text.specs.Parts.{left};
ghost use Rattle.text.specs.Stop.{space};
ghost use Rattle.cli_answers.specs.Values.{before_comma, joined, number_of, numbers_of, place_of, places, power_of, received_of, rule_of, small, told, yes_no_of};

use combine::Rule;
use serde_json::Value;
use std::alloc::{AllocError, Global};
use text::{DOT, SPACE, decimal, piece};

/// Returns the number that `word` is: decimal, without leading zeros, and below 2^64. Returns `None` for any other
/// word.
pub(crate) fn small(word: &[u8]) -> Option<u64>
    ensures { result ≡ small word.now }
{
    let number = decimal(word)?;
    u64::try_from(number).ok()
}

/// Returns the JSON number that `word` is: decimal, without leading zeros, and below 2^64. Returns `None` for any other
/// word.
fn number(word: &[u8]) -> Option<Value>
    ensures { option_map view result ≡ number_of word.now }
{
    let number = small(word)?;
    Some(Value::from(number))
}

/// Returns a number as a JSON value, or null for a dash. Returns `None` for any other word.
fn place(word: &[u8]) -> Option<Value>
    ensures { option_map view result ≡ place_of word.now }
{
    if word == b"-".as_slice() {
        return Some(Value::Null);
    }
    number(word)
}

/// Returns a number as a JSON value, or null for `nothing`. Returns `None` for any other word.
fn received(word: &[u8]) -> Option<Value>
    ensures { option_map view result ≡ received_of word.now }
{
    if word == b"nothing".as_slice() {
        Some(Value::Null)
    } else {
        number(word)
    }
}

/// Returns a word without the comma at its end, or `None` if it ends otherwise.
fn before_comma(word: &[u8]) -> Option<&[u8]>
    ensures { option_map (λ w. w.now) result ≡ before_comma word.now }
{
    word.strip_suffix(b",")
}

/// Returns the JSON number before the comma at the end of `word`, or `None` for any other word.
fn before_comma_number(word: &[u8]) -> Option<Value>
    ensures { option_map view result ≡ option_and_then number_of (before_comma word.now) }
{
    number(before_comma(word)?)
}

/// Returns a JSON boolean for `yes` or `no`, or null for a dash. Returns `None` for any other word.
fn yes_no(word: &[u8]) -> Option<Value>
    ensures { option_map view result ≡ yes_no_of word.now }
{
    if word == b"-".as_slice() {
        Some(Value::Null)
    } else if word == b"yes".as_slice() {
        Some(Value::Bool(true))
    } else if word == b"no".as_slice() {
        Some(Value::Bool(false))
    } else {
        None
    }
}

/// Returns numbers joined by dots, such as `0.2`, as a JSON array, or `None` for any other word.
pub(crate) fn numbers(alloc: Global, word: &[u8]) -> Result<Option<Value>, AllocError>
    ensures { IfOk result (λ o. option_map view o ≡ numbers_of word.now) }
{
    let mut items = Vec::new(alloc);
    let mut rest = Some(word);
    while let Some(numbers) = rest {
        let (first, further) = piece(DOT, numbers);
        let Some(value) = number(first) else {
            return Ok(None);
        };
        items.push(value)?;
        rest = further;
    }
    Ok(Some(Value::Array(items)))
}

/// Returns numbers joined by dots, such as `0.2`, as a JSON array, or an empty array for a dash. Returns `None` for
/// any other word.
fn joined(alloc: Global, word: &[u8]) -> Result<Option<Value>, AllocError>
    ensures { IfOk result (λ o. option_map view o ≡ joined word.now) }
{
    if word == b"-".as_slice() {
        return Ok(Some(Value::Array(Vec::new(alloc))));
    }
    numbers(alloc, word)
}

/// Returns words separated by spaces as a JSON array of numbers, with null for a dash. Returns `None` if a word is
/// neither. If `words` is `None`, the array is empty.
pub(crate) fn places(alloc: Global, words: Option<&[u8]>) -> Result<Option<Value>, AllocError>
    ensures { IfOk result (λ o. option_map view o ≡ places (left space words.entry)) }
{
    let mut items = Vec::new(alloc);
    let mut rest = words;
    while let Some(numbers) = rest {
        let (first, further) = piece(SPACE, numbers);
        let Some(value) = place(first) else {
            return Ok(None);
        };
        items.push(value)?;
        rest = further;
    }
    Ok(Some(Value::Array(items)))
}

/// Returns the word of a decision rule as a JSON text, or `None` for any other word.
fn rule(alloc: Global, word: &[u8]) -> Result<Option<Value>, AllocError>
    ensures { IfOk result (λ o. option_map view o ≡ rule_of word.now) }
{
    match Rule::named(word) {
        Some(_) => Ok(Some(spelled(alloc, word)?)),
        None => Ok(None),
    }
}

/// Returns the exponent of a power of two, such as `2^18`, as a JSON number, or `None` for any other word.
fn power(word: &[u8]) -> Option<Value>
    ensures { option_map view result ≡ power_of word.now }
{
    let exponent = word.strip_prefix(b"2^")?;
    number(exponent)
}

/// Returns the JSON value of a word, if it is what `kind` says. For `N` it is a number, for `P` a number or null, for
/// `A` a boolean or null, for `S` an array of numbers, for `C` the word of a rule, and for `E` the exponent of a power
/// of two. For `N,` it is a number before a comma, for `O` a number, or null for `nothing`, and for `W` any word. Any
/// other `kind` is the word itself. Returns `None` if the word does not fit.
#[tactic(auto, unfolding(crate::specs::Values::told))]
pub(crate) fn told(alloc: Global, kind: &[u8], word: &[u8]) -> Result<Option<Value>, AllocError>
    ensures { IfOk result (λ o. option_map view o ≡ told kind.now word.now) }
{
    if kind == b"N".as_slice() {
        Ok(number(word))
    } else if kind == b"P".as_slice() {
        Ok(place(word))
    } else if kind == b"A".as_slice() {
        Ok(yes_no(word))
    } else if kind == b"S".as_slice() {
        joined(alloc, word)
    } else if kind == b"C".as_slice() {
        rule(alloc, word)
    } else if kind == b"E".as_slice() {
        Ok(power(word))
    } else if kind == b"N,".as_slice() {
        Ok(before_comma_number(word))
    } else if kind == b"O".as_slice() {
        Ok(received(word))
    } else if kind == b"W".as_slice() {
        Ok(Some(spelled(alloc, word)?))
    } else if word == kind {
        Ok(Some(spelled(alloc, word)?))
    } else {
        Ok(None)
    }
}

/// Returns a word as a JSON text. Bytes that are not UTF-8 become replacement characters.
pub(crate) fn spelled(alloc: Global, word: &[u8]) -> Result<Value, AllocError>
    ensures { IfOk result (λ v. view v ≡ string (utf8_lossy word.now)) }
{
    Ok(Value::String(String::from_utf8_lossy(alloc, word)?))
}
