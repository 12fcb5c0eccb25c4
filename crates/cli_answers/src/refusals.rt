//! Turns the text that says why a task was not done into a JSON object: a file was rejected, or it could not be read.
ghost use Rattle.std.specs.Prelude.{◌≡◌, IfNone, IfOk, IfSome, OnOk, drop, false, option_and_then, option_map, slice_get, true};
ghost use Rattle.serde_json.specs.View.{members_view};
ghost use Rattle.text.specs.Parts.{lines_of};
ghost use Rattle.cli_answers.specs.Lines.{object_line};
ghost use Rattle.cli_answers.specs.Refusals.{class_of, fault_object, is_keyed, is_reported, is_unsafe, is_why, namer, namer_behind, namer_of, numbered, placed_refusal, refusal_object, refused_object, reported, said, second_of, sentence_of, why, with_namer, with_sentence, with_verified};

use crate::advice::{put_explanation, put_help};
use crate::json_lines::push_object;
use crate::objects::unshaped;
use crate::position::Held;
use crate::shape::error_places;
use crate::shaped::first_shaped;
use crate::texts::{called, parted, put_text};
use serde_json::{Map, Value, put};
use std::alloc::{AllocError, Global};
use text::{FEED, SPACE, line};

/// Checks whether an error code says that the verifier rejects a program: it begins with `V`, or is `S8`, the code
/// for a traitor's program.
fn is_unsafe(code: &[u8]) -> bool
    ensures { result ≡ is_unsafe code.now }
{
    match code {
        [first, ..] if *first == b'V' => true,
        _ => code == b"S8".as_slice(),
    }
}

/// Returns the class of a rejected file by its error code: `unsafe` if the verifier rejects a program, else
/// `malformed`.
fn class_of(code: &[u8]) -> &'static str
    ensures { result.now ≡ class_of code.now }
{
    if is_unsafe(code) {
        "unsafe"
    } else {
        "malformed"
    }
}

/// Returns a line without its prefix `error: `, or `None` if the line does not begin with it.
fn behind_mark(line: &[u8]) -> Option<&[u8]>
    ensures some { IfSome result (λ s. (is_reported line.now ≡ true) × (s.now ≡ drop 7 line.now)) }
    ensures none { IfNone result (is_reported line.now ≡ false) }
{
    line.strip_prefix(b"error: ")
}

/// Returns the first line that begins with `error: `, without this prefix, or `None` if no line begins with it.
fn reported(lines: &[u8]) -> Option<&[u8]>
    ensures { option_map (λ s. s.now) result ≡ reported (lines_of lines.now) }
{
    let mut rest = lines;
    while let Some((first, behind)) = line(rest) {
        if let Some(sentence) = behind_mark(first) {
            return Some(sentence);
        }
        rest = behind;
    }
    None
}

/// Checks whether a line of the verifier's explanation is neither a note nor a help message.
fn is_why(line: &[u8]) -> bool
    ensures { result ≡ is_why line.now }
{
    line.strip_prefix(b"note: ").is_none() && line.strip_prefix(b"help: ").is_none()
}

/// Returns the line of the verifier's explanation that says why a program is rejected: the last one that is neither a
/// note nor a help message. Returns `None` if there is no such line.
fn why(lines: &[u8]) -> Option<&[u8]>
    ensures { option_map (λ l. l.now) result ≡ why (lines_of lines.now) }
{
    let mut last = None;
    let mut rest = lines;
    while let Some((first, behind)) = line(rest) {
        if is_why(first) {
            last = Some(first);
        }
        rest = behind;
    }
    last
}

/// Returns the first of the lines, or `None` if there are none.
fn first_of(lines: &[u8]) -> Option<&[u8]>
    ensures { option_map (λ l. l.now) result ≡ slice_get (lines_of lines.now) 0 }
{
    let (first, _) = line(lines)?;
    Some(first)
}

/// Returns the line that says why a file is rejected with this code, if no line begins with `error: `. Returns `None`
/// for codes other than the verifier's (`V`) and those of object files (`O`), or if there is no such line.
fn said<'a>(code: &[u8], lines: &'a [u8]) -> Option<&'a [u8]>
    ensures { option_map (λ l. l.now) result ≡ said code.now (lines_of lines.now) }
{
    match code {
        [first, ..] if *first == b'V' => why(lines),
        [first, ..] if *first == b'O' => first_of(lines),
        _ => None,
    }
}

/// Returns the sentence that says why a file is rejected with this code, or `None` if the lines do not have one.
fn sentence_of<'a>(code: &[u8], lines: &'a [u8]) -> Option<&'a [u8]>
    ensures { option_map (λ s. s.now) result ≡ sentence_of code.now (lines_of lines.now) }
{
    match reported(lines) {
        Some(sentence) => Some(sentence),
        None => said(code, lines),
    }
}

/// Returns the second of the lines, or `None` if there are fewer than two.
fn second_of(lines: &[u8]) -> Option<&[u8]>
    ensures { option_map (λ l. l.now) result ≡ second_of (lines_of lines.now) }
{
    let (_, behind) = line(lines)?;
    first_of(behind)
}

/// Returns the words without the prefix ` is named by `, or `None` if they do not begin with it.
fn namer_behind(words: &[u8]) -> Option<&[u8]>
    ensures { option_map (λ k. k.now) result ≡ namer_behind words.now }
{
    words.strip_prefix(b" is named by ")
}

/// Returns where a file is named: the text after the last ` is named by ` in a line, or `None` if the line has no
/// such words.
fn namer(line: &[u8]) -> Option<&[u8]>
    ensures { option_map (λ k. k.now) result ≡ namer line.now }
{
    let mut last = None;
    let mut rest = line;
    while let [_, behind @ ..] = rest {
        if let Some(key) = namer_behind(rest) {
            last = Some(key);
        }
        rest = behind;
    }
    last
}

/// Returns where a scenario names the object file that is rejected with this code. Returns `None` for another kind of
/// file (the code does not begin with `O`), or if the second line does not say where.
fn namer_of<'a>(code: &[u8], lines: &'a [u8]) -> Option<&'a [u8]>
    ensures { option_map (λ k. k.now) result ≡ namer_of code.now (lines_of lines.now) }
{
    match code {
        [first, ..] if *first == b'O' => namer(second_of(lines)?),
        _ => None,
    }
}

/// Returns where a scenario names the file that could not be read, or `None` if the first line does not say it.
fn namer_of_fault(lines: &[u8]) -> Option<&[u8]>
    ensures { option_map (λ k. k.now) result ≡ option_and_then namer (slice_get (lines_of lines.now) 0) }
{
    namer(first_of(lines)?)
}

/// Adds where a file is named to the object, as its member `named_by`. Nothing is added for `None`.
fn put_namer(
    alloc: Global,
    object: &mut Map<String, Value>,
    key: Option<&[u8]>,
) -> Result<(), AllocError>
    ensures { OnOk result (members_view object.new.entries
        ≡ with_namer (option_map (λ k. k.now) key.entry) (members_view object.old.entries)) }
{
    match key {
        Some(key) => put_text(alloc, object, "named_by", key),
        None => Ok(()),
    }
}

/// Adds a sentence to the object as its member `sentence`. Nothing is added for `None`.
fn put_sentence(
    alloc: Global,
    object: &mut Map<String, Value>,
    sentence: Option<&[u8]>,
) -> Result<(), AllocError>
    ensures { OnOk result (members_view object.new.entries
        ≡ with_sentence (option_map (λ s. s.now) sentence.entry) (members_view object.old.entries)) }
{
    match sentence {
        Some(sentence) => put_text(alloc, object, "sentence", sentence),
        None => Ok(()),
    }
}

/// Checks whether the place of an error code is a key of a scenario or a setting: the code begins with `K`, or with `S`
/// and is none of those for a traitor's program.
fn is_keyed(code: &[u8]) -> bool
    ensures { result ≡ is_keyed code.now }
{
    match code {
        [first, ..] if *first == b'K' => true,
        [first, ..] if *first == b'S' => code != b"S7".as_slice() && code != b"S8".as_slice(),
        _ => false,
    }
}

/// Returns the JSON object of a place by its numbers: a line or unit, a traitor and his program's error code, or a
/// general.
fn numbered(alloc: Global, place: &[u8]) -> Result<Map<String, Value>, AllocError>
    ensures { IfOk result (λ object. members_view object.entries ≡ numbered place.now) }
{
    match first_shaped(alloc, Held::at_first(), error_places(), place)? {
        Some(object) => Ok(object),
        None => called(alloc, "refused"),
    }
}

/// Returns a JSON object for a rejected file with the numbers of the place, unless this is a key.
fn placed_refusal(
    alloc: Global,
    code: &[u8],
    place: &[u8],
) -> Result<Map<String, Value>, AllocError>
    ensures { IfOk result (λ object. members_view object.entries ≡ placed_refusal code.now place.now) }
{
    if is_keyed(code) {
        called(alloc, "refused")
    } else {
        numbered(alloc, place)
    }
}

/// Adds to the object what the verifier's explanation says, if it rejects a program, as the error code says.
fn put_verified(
    alloc: Global,
    object: &mut Map<String, Value>,
    code: &[u8],
    lines: &[u8],
) -> Result<(), AllocError>
    ensures { OnOk result (members_view object.new.entries
        ≡ with_verified code.now (lines_of lines.now) (members_view object.old.entries)) }
{
    if is_unsafe(code) {
        put_explanation(alloc, object, why(lines), lines)
    } else {
        Ok(())
    }
}

/// Returns the JSON object for a rejected file: its error code, the place of the error (both from `told`), and its
/// class. `lines` may add where an object file is named, why the file is rejected, and advice.
fn refused(alloc: Global, told: &[u8], lines: &[u8]) -> Result<Map<String, Value>, AllocError>
    ensures { IfOk result (λ object. members_view object.entries ≡ refused_object told.now (lines_of lines.now)) }
{
    let (code, place) = parted(SPACE, told);
    let mut object = placed_refusal(alloc, code, place)?;
    put_text(alloc, &mut object, "code", code)?;
    put_text(alloc, &mut object, "place", place)?;
    put(
        &mut object,
        alloc,
        "class",
        Value::try_from_str(alloc, class_of(code))?,
    )?;
    put_namer(alloc, &mut object, namer_of(code, lines))?;
    put_sentence(alloc, &mut object, sentence_of(code, lines))?;
    put_help(alloc, &mut object, lines)?;
    put_verified(alloc, &mut object, code, lines)?;
    Ok(object)
}

/// Returns the JSON object for a file that could not be read: the fault, the file as its place (both from `told`),
/// and its class. `lines` may add where the file is named, and a sentence that says why.
fn fault(alloc: Global, told: &[u8], lines: &[u8]) -> Result<Map<String, Value>, AllocError>
    ensures { IfOk result (λ object. members_view object.entries ≡ fault_object told.now (lines_of lines.now)) }
{
    let (fault, file) = parted(SPACE, told);
    let mut object = called(alloc, "fault")?;
    put_text(alloc, &mut object, "fault", fault)?;
    put_text(alloc, &mut object, "place", file)?;
    put(
        &mut object,
        alloc,
        "class",
        Value::try_from_str(alloc, "unreadable")?,
    )?;
    put_namer(alloc, &mut object, namer_of_fault(lines))?;
    put_sentence(alloc, &mut object, reported(lines))?;
    Ok(object)
}

/// Returns the JSON object for the text that says why a task was not done. A first line that reports neither a
/// rejected file nor a file's fault becomes a member `text`.
#[tactic(auto, unfolding(crate::specs::Refusals::refusal_object))]
pub(crate) fn refusal_object(alloc: Global, text: &[u8]) -> Result<Map<String, Value>, AllocError>
    ensures { IfOk result (λ object. members_view object.entries ≡ refusal_object text.now) }
{
    let (line, others) = parted(FEED, text);
    let (word, told) = parted(SPACE, line);
    if word == b"refused".as_slice() {
        refused(alloc, told, others)
    } else if word == b"fault".as_slice() {
        fault(alloc, told, others)
    } else {
        unshaped(alloc, line)
    }
}

/// Returns as a line of JSON why a task was not done. For a rejected file, the object has the error code, the place,
/// and the class `malformed` or `unsafe`. For a file that could not be read, it has the fault, and the file as its
/// place. If later lines have a sentence that says why, or say where a scenario names the file, the object has these,
/// too.
///
/// # Errors
///
/// Fails with `AllocError` if there is not enough memory.
pub fn refusal(alloc: Global, text: &[u8]) -> Result<Vec<u8>, AllocError>
    ensures { IfOk result (λ line. line.items ≡ object_line (refusal_object text.now)) }
{
    let mut out = Vec::new(alloc);
    let object = refusal_object(alloc, text)?;
    push_object(alloc, &mut out, object)?;
    Ok(out)
}
