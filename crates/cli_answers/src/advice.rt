//! Adds to a rejected file's JSON object what its explanation says besides the sentence: the help with its edit, and of a
//! program the rejected instruction, the notes, and what is known at each instruction.
ghost use Rattle.std.specs.Prelude.{◌≡◌, IfOk, OnOk, option_and_then, option_map};
ghost use Rattle.serde_json.specs.View.{items_view, members_view, view};
ghost use Rattle.text.specs.Parts.{lines_of, pieces};
ghost use Rattle.cli_answers.specs.Advice.{edit, edit_by, edit_of, fact_of, has_colon, help_in, help_of, instructions, is_fact, judged_of, last_piece, note_of, quote, unit_before, unit_replaced, with_edit, with_explanation, with_help, with_judged, with_judgement};
ghost use Rattle.cli_answers.specs.Instructions.{each};

use crate::instructions::{behind_place, behind_two, instruction_object, put_unit, unit_of};
use crate::texts::{parted, put_text};
use crate::values::spelled;
use serde_json::{Map, Value, put};
use std::alloc::{AllocError, Global};
use text::{SPACE, Stop, cut, line, piece};

/// The stop at a backquote.
const QUOTE: Stop = Stop::Byte(b'`');

/// The stop before a sentence.
const COLON: Stop = Stop::Byte(b':');

/// Returns the text after the words `help: ` or ` = help: ` at the start of a line, or `None` if there are none.
fn help_in(line: &[u8]) -> Option<&[u8]>
    ensures { option_map (λ h. h.now) result ≡ help_in line.now }
{
    let (_, words) = cut(Stop::Solid, line);
    match line.strip_prefix(b"help: ") {
        Some(help) => Some(help),
        None => words.strip_prefix(b"= help: "),
    }
}

/// Returns the help of the first line that has one, or `None` if none has.
fn help_of(lines: &[u8]) -> Option<&[u8]>
    ensures { option_map (λ h. h.now) result ≡ help_of (lines_of lines.now) }
{
    let mut rest = lines;
    while let Some((first, behind)) = line(rest) {
        if let Some(help) = help_in(first) {
            return Some(help);
        }
        rest = behind;
    }
    None
}

/// Returns the instructions of a help, which are between backquotes, as JSON texts.
fn instructions(alloc: Global, help: &[u8]) -> Result<Vec<Value>, AllocError>
    ensures { IfOk result (λ all. items_view all.items ≡ instructions (pieces quote help.now)) }
{
    let mut items = Vec::new(alloc);
    let mut rest = help;
    while let (_, Some(quoted)) = piece(QUOTE, rest) {
        let (instruction, behind) = piece(QUOTE, quoted);
        items.push(spelled(alloc, instruction)?)?;
        rest = match behind {
            Some(behind) => behind,
            None => &[],
        };
    }
    Ok(items)
}

/// Returns the text after the last backquote, or the whole text if there is none.
fn behind_quotes(help: &[u8]) -> &[u8]
    ensures { result.now ≡ last_piece (pieces quote help.now) }
{
    let mut rest = help;
    while let (_, Some(behind)) = piece(QUOTE, rest) {
        rest = behind;
    }
    rest
}

/// Returns the unit before which a help puts its instructions, or `None` if it puts them elsewhere. `text` is what the
/// help has after them.
fn unit_before(text: &[u8]) -> Option<u64>
    ensures { result ≡ unit_before text.now }
{
    unit_of(text.strip_prefix(b" before unit ")?)
}

/// Returns the unit in whose place a help puts its instructions, or `None` if it puts them elsewhere. `text` is what the
/// help has after them.
fn unit_replaced(text: &[u8]) -> Option<u64>
    ensures { result ≡ unit_replaced text.now }
{
    unit_of(text.strip_prefix(b" in place of unit ")?)
}

/// Returns the JSON object of an edit: the instructions, and the unit before which they are put, or in whose place if
/// `instead` is true.
fn edit(alloc: Global, added: Vec<Value>, instead: bool, unit: u64) -> Result<Value, AllocError>
    ensures { IfOk result (λ v. view v ≡ edit (items_view added.items) instead unit) }
{
    let mut object = Map::new(alloc);
    put(&mut object, alloc, "instead", Value::Bool(instead))?;
    put(&mut object, alloc, "instructions", Value::Array(added))?;
    put(&mut object, alloc, "unit", Value::from(unit))?;
    Ok(Value::Object(object))
}

/// Returns the edit with these instructions, or `None` if `text`, the text after them, does not say where they are put.
fn edit_by(alloc: Global, added: Vec<Value>, text: &[u8]) -> Result<Option<Value>, AllocError>
    ensures { IfOk result (λ o. option_map view o ≡ edit_by (items_view added.items) text.now) }
{
    match (unit_before(text), unit_replaced(text)) {
        (Some(unit), _) => Ok(Some(edit(alloc, added, false, unit)?)),
        (None, Some(unit)) => Ok(Some(edit(alloc, added, true, unit)?)),
        (None, None) => Ok(None),
    }
}

/// Returns the edit whose instructions a help has between backquotes, or `None` if the text after them does not say where
/// they are put.
fn edit_in(alloc: Global, help: &[u8]) -> Result<Option<Value>, AllocError>
    ensures { IfOk result (λ o. option_map view o
        ≡ edit_by (instructions (pieces quote help.now)) (last_piece (pieces quote help.now))) }
{
    edit_by(alloc, instructions(alloc, help)?, behind_quotes(help))
}

/// Returns the edit that a help describes, such as ``with `and r2, 7` before unit 4 the program is accepted``. Returns
/// `None` if the help describes no edit.
#[tactic(auto, unfolding(crate::specs::Advice::edit_of))]
fn edit_of(alloc: Global, help: &[u8]) -> Result<Option<Value>, AllocError>
    ensures { IfOk result (λ o. option_map view o ≡ edit_of help.now) }
{
    let (front, _) = cut(QUOTE, help);
    if front == b"with ".as_slice() {
        edit_in(alloc, help)
    } else {
        Ok(None)
    }
}

/// Adds an edit to the object. Nothing is added for `None`.
fn put_edit(
    alloc: Global,
    object: &mut Map<String, Value>,
    edit: Option<Value>,
) -> Result<(), AllocError>
    ensures { OnOk result (members_view object.new.entries
        ≡ with_edit (option_map view edit) (members_view object.old.entries)) }
{
    match edit {
        Some(edit) => put(object, alloc, "edit", edit),
        None => Ok(()),
    }
}

/// Adds to the object the help that the lines have, and its edit. Nothing is added if no line has a help.
pub(crate) fn put_help(
    alloc: Global,
    object: &mut Map<String, Value>,
    lines: &[u8],
) -> Result<(), AllocError>
    ensures { OnOk result (members_view object.new.entries
        ≡ with_help (help_of (lines_of lines.now)) (members_view object.old.entries)) }
{
    match help_of(lines) {
        Some(help) => {
            put_text(alloc, object, "help", help)?;
            put_edit(alloc, object, edit_of(alloc, help)?)
        }
        None => Ok(()),
    }
}

/// Returns the note that a line has as a JSON text, or `None` if it has none.
fn note_of(alloc: Global, line: &[u8]) -> Result<Option<Value>, AllocError>
    ensures { IfOk result (λ o. option_map view o ≡ note_of line.now) }
{
    match line.strip_prefix(b"note: ") {
        Some(note) => Ok(Some(spelled(alloc, note)?)),
        None => Ok(None),
    }
}

/// Returns the notes of all lines that have one.
fn notes(alloc: Global, lines: &[u8]) -> Result<Vec<Value>, AllocError>
    ensures { IfOk result (λ all. items_view all.items ≡ each note_of (lines_of lines.now)) }
{
    let mut notes = Vec::new(alloc);
    let mut rest = lines;
    while let Some((first, behind)) = line(rest) {
        if let Some(note) = note_of(alloc, first)? {
            notes.push(note)?;
        }
        rest = behind;
    }
    Ok(notes)
}

/// Checks whether a text has a colon.
fn has_colon(text: &[u8]) -> bool
    ensures { result ≡ has_colon text.now }
{
    let (_, behind) = cut(COLON, text);
    !behind.is_empty()
}

/// Checks whether a line says what is known at an instruction, by the text after the unit and the place. In the excerpt
/// of a report this begins with a vertical bar, and where the verifier says why, the instruction ends with a colon.
fn is_fact(text: &[u8]) -> bool
    ensures { result ≡ is_fact text.now }
{
    let (front, _) = cut(Stop::Byte(b';'), text);
    match text {
        [first, ..] if *first == b'|' => false,
        _ => !has_colon(front),
    }
}

/// Returns the JSON object of a line that says what is known at an instruction, or `None` for another line.
fn fact_of(alloc: Global, line: &[u8]) -> Result<Option<Value>, AllocError>
    ensures { IfOk result (λ o. option_map view o ≡ fact_of line.now) }
{
    let (_, text) = parted(SPACE, line);
    if !is_fact(behind_place(text)) {
        return Ok(None);
    }
    match instruction_object(alloc, line)? {
        Some(object) => Ok(Some(Value::Object(object))),
        None => Ok(None),
    }
}

/// Returns the JSON objects of the lines that say what is known at an instruction.
fn facts(alloc: Global, lines: &[u8]) -> Result<Vec<Value>, AllocError>
    ensures { IfOk result (λ all. items_view all.items ≡ each fact_of (lines_of lines.now)) }
{
    let mut facts = Vec::new(alloc);
    let mut rest = lines;
    while let Some((first, behind)) = line(rest) {
        if let Some(fact) = fact_of(alloc, first)? {
            facts.push(fact)?;
        }
        rest = behind;
    }
    Ok(facts)
}

/// Adds an instruction to the object, and the sentence after the colon behind it.
fn put_judged(alloc: Global, object: &mut Map<String, Value>, text: &[u8]) -> Result<(), AllocError>
    ensures { OnOk result (members_view object.new.entries ≡ with_judged text.now (members_view object.old.entries)) }
{
    let (instruction, behind) = cut(COLON, text);
    put_text(alloc, object, "instruction", instruction)?;
    put_text(alloc, object, "sentence", behind_two(behind))
}

/// Returns the JSON object of a line that says why an instruction is rejected: the unit, its place in the source text,
/// the instruction, and the sentence. Returns `None` if the line begins with no number.
#[tactic(auto, unfolding(crate::specs::Advice::judged_of))]
fn judged_of(alloc: Global, line: &[u8]) -> Result<Option<Value>, AllocError>
    ensures { IfOk result (λ o. option_map view o ≡ judged_of line.now) }
{
    let Some(unit) = unit_of(line) else {
        return Ok(None);
    };
    let (_, text) = parted(SPACE, line);
    let mut object = Map::new(alloc);
    put_unit(alloc, &mut object, unit, text)?;
    put_judged(alloc, &mut object, behind_place(text))?;
    Ok(Some(Value::Object(object)))
}

/// Returns the JSON object of the line that says why an instruction is rejected. Returns `None` if there is no line, or
/// if it begins with no number.
fn judged_in(alloc: Global, why: Option<&[u8]>) -> Result<Option<Value>, AllocError>
    ensures { IfOk result (λ o. option_map view o ≡ option_and_then judged_of (option_map (λ l. l.now) why.entry)) }
{
    match why {
        Some(line) => judged_of(alloc, line),
        None => Ok(None),
    }
}

/// Adds why an instruction is rejected to the object, the notes, and what is known at each instruction. Nothing is added
/// for `None`.
fn put_judgement(
    alloc: Global,
    object: &mut Map<String, Value>,
    why: Option<Value>,
    lines: &[u8],
) -> Result<(), AllocError>
    ensures { OnOk result (members_view object.new.entries
        ≡ with_judgement (option_map view why) (lines_of lines.now) (members_view object.old.entries)) }
{
    let Some(why) = why else {
        return Ok(());
    };
    put(object, alloc, "why", why)?;
    put(object, alloc, "notes", Value::Array(notes(alloc, lines)?))?;
    put(object, alloc, "facts", Value::Array(facts(alloc, lines)?))
}

/// Adds to the object what the verifier's explanation says: why an instruction is rejected, the notes, and what is known
/// at each instruction. `why` is the line that says why. Nothing is added for `None`.
pub(crate) fn put_explanation(
    alloc: Global,
    object: &mut Map<String, Value>,
    why: Option<&[u8]>,
    lines: &[u8],
) -> Result<(), AllocError>
    ensures { OnOk result (members_view object.new.entries
        ≡ with_explanation (option_map (λ l. l.now) why.entry) (lines_of lines.now)
        (members_view object.old.entries)) }
{
    let judged = judged_in(alloc, why)?;
    put_judgement(alloc, object, judged, lines)
}
