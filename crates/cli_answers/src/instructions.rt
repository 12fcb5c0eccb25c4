//! Turns a line about an instruction into JSON members: its unit, its place in the source text, the instruction, what
//! it reads, and what it gives.
ghost use Rattle.std.specs.Prelude.{◌≡◌, ◌∷◌, IfOk, OnOk, codes, drop, option_map};
ghost use Rattle.serde_json.specs.Data.{array};
ghost use Rattle.serde_json.specs.View.{members_view, view};
ghost use Rattle.text.specs.Parts.{left, pieces};
ghost use Rattle.text.specs.Stop.{semicolon};
ghost use Rattle.cli_answers.specs.Instructions.{behind_place, each, instruction_object, line_in, place_in, shown, trimmed, unit_of, with_instruction, with_parts, with_source, with_source_line, with_unit, without_end, without_space};

use crate::texts::{called, parted, put_text};
use crate::values::{small, spelled};
use serde_json::{Map, Value, put};
use std::alloc::{AllocError, Global};
use text::{SPACE, Stop, cut, piece};

/// The stop between the parts of a line.
const SEMICOLON: Stop = Stop::Byte(b';');

/// The stop at the point of an arrow.
const ARROW: Stop = Stop::Byte(b'>');

/// The stop at a closing bracket.
const CLOSING: Stop = Stop::Byte(b')');

/// Returns a text without the space at its start, if it has one.
fn without_space(text: &[u8]) -> &[u8]
    ensures { result.now ≡ without_space text.now }
{
    match text {
        [first, rest @ ..] if *first == b' ' => rest,
        _ => text,
    }
}

/// Returns a text without the shaft of an arrow at its end, if it has one.
fn without_shaft(text: &[u8]) -> &[u8]
    ensures { result.now ≡ without_end (codes " -") text.now }
{
    match text.strip_suffix(b" -") {
        Some(front) => front,
        None => text,
    }
}

/// Returns a text without the space at its end, if it has one.
fn without_last_space(text: &[u8]) -> &[u8]
    ensures { result.now ≡ without_end (codes " ") text.now }
{
    match text.strip_suffix(b" ") {
        Some(front) => front,
        None => text,
    }
}

/// Returns a text without the spaces at its start and end, and without the shaft of an arrow at its end.
fn trimmed(text: &[u8]) -> &[u8]
    ensures { result.now ≡ trimmed text.now }
{
    without_last_space(without_shaft(without_space(text)))
}

/// Returns the JSON text of a part of a line, or `None` if the part is empty.
fn shown(alloc: Global, part: &[u8]) -> Result<Option<Value>, AllocError>
    ensures { IfOk result (λ o. option_map view o ≡ shown part.now) }
{
    let text = trimmed(part);
    if text.is_empty() {
        return Ok(None);
    }
    Ok(Some(spelled(alloc, text)?))
}

/// Returns the parts of a text between semicolons as a JSON array, without the empty ones. If `text` is `None`, the
/// array is empty.
fn parts(alloc: Global, text: Option<&[u8]>) -> Result<Value, AllocError>
    ensures { IfOk result (λ all. view all ≡ array (each shown (left semicolon text.entry))) }
{
    let mut items = Vec::new(alloc);
    let mut rest = text;
    while let Some(parts) = rest {
        let (first, further) = piece(SEMICOLON, parts);
        if let Some(value) = shown(alloc, first)? {
            items.push(value)?;
        }
        rest = further;
    }
    Ok(Value::Array(items))
}

/// Adds an instruction to the object, what it reads and what it gives. Semicolons separate the parts of `reads` and
/// `gives`.
fn put_parts(
    alloc: Global,
    object: &mut Map<String, Value>,
    instruction: &[u8],
    reads: Option<&[u8]>,
    gives: &[u8],
) -> Result<(), AllocError>
    ensures { OnOk result (members_view object.new.entries
        ≡ with_parts (instruction.now ∷ left semicolon reads.entry) (pieces semicolon gives.now)
        (members_view object.old.entries)) }
{
    put_text(alloc, object, "instruction", trimmed(instruction))?;
    put(object, alloc, "reads", parts(alloc, reads)?)?;
    put(object, alloc, "gives", parts(alloc, Some(gives))?)
}

/// Adds the instruction of a line to the object, what it reads and what it gives. `text` is what the line has after the
/// instruction's place.
fn put_instruction(
    alloc: Global,
    object: &mut Map<String, Value>,
    text: &[u8],
) -> Result<(), AllocError>
    ensures { OnOk result (members_view object.new.entries
        ≡ with_instruction text.now (members_view object.old.entries)) }
{
    let (front, gives) = parted(ARROW, text);
    let (instruction, reads) = piece(SEMICOLON, front);
    put_parts(alloc, object, instruction, reads, gives)
}

/// Returns the place in brackets at the start of a text, or `None` if there is none.
fn place_in(text: &[u8]) -> Option<&[u8]>
    ensures { option_map (λ p. p.now) result ≡ place_in text.now }
{
    match text {
        [first, rest @ ..] if *first == b'(' => {
            let (place, _) = cut(CLOSING, rest);
            Some(place)
        }
        _ => None,
    }
}

/// Returns the bytes after the first two, or none if there are no more.
pub(crate) fn behind_two(bytes: &[u8]) -> &[u8]
    ensures { result.now ≡ drop 2 bytes.now }
{
    match bytes {
        [_, _, rest @ ..] => rest,
        _ => &[],
    }
}

/// Returns the text after the place in brackets and a space. Without such a place, this is the whole text.
pub(crate) fn behind_place(text: &[u8]) -> &[u8]
    ensures { result.now ≡ behind_place text.now }
{
    match text {
        [first, rest @ ..] if *first == b'(' => {
            let (_, behind) = cut(CLOSING, rest);
            behind_two(behind)
        }
        _ => text,
    }
}

/// Returns the number of a line of the source text, or `None` if the place is no such line.
fn line_in(place: &[u8]) -> Option<u64>
    ensures { result ≡ line_in place.now }
{
    small(place.strip_prefix(b"line ")?)
}

/// Adds the number of a line of the source text to the object. Nothing is added for `None`.
fn put_source_line(
    alloc: Global,
    object: &mut Map<String, Value>,
    number: Option<u64>,
) -> Result<(), AllocError>
    ensures { OnOk result (members_view object.new.entries
        ≡ with_source_line number (members_view object.old.entries)) }
{
    match number {
        Some(number) => put(object, alloc, "source_line", Value::from(number)),
        None => Ok(()),
    }
}

/// Adds a place to the object, and the number of its line if it is a line of the source text. Nothing is added for
/// `None`.
fn put_source(
    alloc: Global,
    object: &mut Map<String, Value>,
    place: Option<&[u8]>,
) -> Result<(), AllocError>
    ensures { OnOk result (members_view object.new.entries
        ≡ with_source (option_map (λ p. p.now) place.entry) (members_view object.old.entries)) }
{
    match place {
        Some(place) => {
            put_text(alloc, object, "place", place)?;
            put_source_line(alloc, object, line_in(place))
        }
        None => Ok(()),
    }
}

/// Returns the unit with which a line begins, or `None` if it begins with no number.
pub(crate) fn unit_of(line: &[u8]) -> Option<u64>
    ensures { result ≡ unit_of line.now }
{
    let (word, _) = cut(SPACE, line);
    small(word)
}

/// Adds a unit to the object, and the place with which `text` begins.
pub(crate) fn put_unit(
    alloc: Global,
    object: &mut Map<String, Value>,
    unit: u64,
    text: &[u8],
) -> Result<(), AllocError>
    ensures { OnOk result (members_view object.new.entries
        ≡ with_unit unit text.now (members_view object.old.entries)) }
{
    put(object, alloc, "unit", Value::from(unit))?;
    put_source(alloc, object, place_in(text))
}

/// Returns the JSON object of a line about an instruction: its unit, its place in the source text, the instruction, what
/// it reads, and what it gives. Returns `None` if the line begins with no number.
#[tactic(auto, unfolding(crate::specs::Instructions::instruction_object))]
pub(crate) fn instruction_object(
    alloc: Global,
    line: &[u8],
) -> Result<Option<Map<String, Value>>, AllocError>
    ensures { IfOk result (λ o. option_map (λ object. members_view object.entries) o ≡ instruction_object line.now) }
{
    let Some(unit) = unit_of(line) else {
        return Ok(None);
    };
    let (_, text) = parted(SPACE, line);
    let mut object = called(alloc, "instruction")?;
    put_unit(alloc, &mut object, unit, text)?;
    put_instruction(alloc, &mut object, behind_place(text))?;
    Ok(Some(object))
}
