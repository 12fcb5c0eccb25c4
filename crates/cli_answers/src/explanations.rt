//! Turns a line that explains how a lieutenant decides into JSON members: a list of orders that he combines, or a line
//! with a reason after a colon.
ghost use Rattle.std.specs.Prelude.{◌≡◌, ◌∷◌, IfOk, drop, option_map};
ghost use Rattle.serde_json.specs.View.{items_view, members_view, view};
ghost use Rattle.text.specs.Parts.{left, pieces};
ghost use Rattle.text.specs.Stop.{comma};
ghost use Rattle.cli_answers.specs.Explanations.{entry_of, labelled, list_object, reason_in, reasoned, with_entries};
ghost use Rattle.cli_answers.specs.Shaped.{found};
ghost use Rattle.cli_answers.specs.Values.{all};

use crate::labels::put_place;
use crate::position::Held;
use crate::shape::{Within, reasons};
use crate::shaped::{first_shaped, put_told};
use crate::texts::{called, parted, put_text};
use crate::values::numbers;
use serde_json::{Map, Value, put};
use std::alloc::{AllocError, Global};
use text::{Stop, cut, piece};

/// The stop before a reason or an outcome.
const COLON: Stop = Stop::Byte(b':');

/// The stop between the entries of a list.
const COMMA: Stop = Stop::Byte(b',');

/// Returns the text after a colon and a space, or `None` if `text` does not begin with them.
fn reason_in(text: &[u8]) -> Option<&[u8]>
    ensures { option_map (λ r. r.now) result ≡ reason_in text.now }
{
    text.strip_prefix(b": ")
}

/// Returns the JSON object of a line `FRONT: REASON`, such as `decision 1 0: no order, so 0`. Returns `None` if the front
/// has none of the shapes of such lines.
pub(crate) fn reasoned(
    alloc: Global,
    held: Held,
    line: &[u8],
) -> Result<Option<Map<String, Value>>, AllocError>
    ensures { IfOk result (λ o. option_map (λ object. members_view object.entries) o ≡ reasoned held line.now) }
{
    let (front, behind) = cut(COLON, line);
    let Some(reason) = reason_in(behind) else {
        return Ok(None);
    };
    let Some(object) = first_shaped(alloc, held, reasons(), front)? else {
        return Ok(None);
    };
    let mut object = object;
    put_text(alloc, &mut object, "sentence", reason)?;
    Ok(Some(object))
}

/// Returns the JSON object of a list's entry: a label, and the order that the lieutenant holds for it, or null. Returns
/// `None` for another text.
fn entry(alloc: Global, text: &[u8]) -> Result<Option<Value>, AllocError>
    ensures { IfOk result (λ o. option_map view o ≡ entry_of text.now) }
{
    let mut object = Map::new(alloc);
    let parts = [("", "-"), ("S", "label"), ("O", "order")];
    if put_told(alloc, &mut object, &parts, text)? {
        Ok(Some(Value::Object(object)))
    } else {
        Ok(None)
    }
}

/// Returns the entries of a list, which commas separate, as a JSON array. Returns `None` if a text is not an entry. If
/// `texts` is `None`, the array is empty.
fn entries(alloc: Global, texts: Option<&[u8]>) -> Result<Option<Vec<Value>>, AllocError>
    ensures { IfOk result (λ o. option_map (λ values. items_view values.items) o
        ≡ all entry_of (left comma texts.entry)) }
{
    let mut items = Vec::new(alloc);
    let mut rest = texts;
    while let Some(texts) = rest {
        let (first, further) = piece(COMMA, texts);
        let Some(value) = entry(alloc, first)? else {
            return Ok(None);
        };
        items.push(value)?;
        rest = further;
    }
    Ok(Some(items))
}

/// Adds the entries of a list to the object: first the order that the lieutenant received, and then the array `orders`.
/// Commas separate the texts of the others. Returns whether all texts are entries.
fn put_entries(
    alloc: Global,
    object: &mut Map<String, Value>,
    first: &[u8],
    others: Option<&[u8]>,
) -> Result<bool, AllocError>
    ensures { IfOk result (λ fits. found fits (members_view object.new.entries)
        ≡ with_entries (first.now ∷ left comma others.entry) (members_view object.old.entries)) }
{
    let parts = [("", "-"), ("received", "-"), ("O", "received")];
    if !put_told(alloc, object, &parts, first)? {
        return Ok(false);
    }
    let Some(orders) = entries(alloc, others)? else {
        return Ok(false);
    };
    put(object, alloc, "orders", Value::Array(orders))?;
    Ok(true)
}

/// Adds the entries of a list to the object, which commas separate. Returns whether all texts are entries.
fn put_list(
    alloc: Global,
    object: &mut Map<String, Value>,
    texts: &[u8],
) -> Result<bool, AllocError>
    ensures { IfOk result (λ fits. found fits (members_view object.new.entries)
        ≡ with_entries (pieces comma texts.now) (members_view object.old.entries)) }
{
    let (first, others) = piece(COMMA, texts);
    put_entries(alloc, object, first, others)
}

/// Returns the JSON object of a line such as `0: received 1, 0.2 1, 0.3 0: majority 1`: the list of orders that a
/// lieutenant combines at a label, and what results from it. Returns `None` for another line.
pub(crate) fn list_object(
    alloc: Global,
    held: Held,
    line: &[u8],
) -> Result<Option<Map<String, Value>>, AllocError>
    ensures { IfOk result (λ o. option_map (λ object. members_view object.entries) o ≡ list_object held line.now) }
{
    let (label, behind) = parted(COLON, line);
    let (texts, outcome) = parted(COLON, behind);
    let Some(label) = numbers(alloc, label)? else {
        return Ok(None);
    };
    let mut object = called(alloc, "list")?;
    put(&mut object, alloc, "label", label)?;
    if !put_list(alloc, &mut object, texts)? {
        return Ok(None);
    }
    put_text(alloc, &mut object, "outcome", behind_first(outcome))?;
    put_place(alloc, &mut object, held, Within::General)?;
    Ok(Some(object))
}

/// Returns the bytes after the first one, or none if there is none.
fn behind_first(bytes: &[u8]) -> &[u8]
    ensures { result.now ≡ drop 1 bytes.now }
{
    match bytes {
        [_, rest @ ..] => rest,
        _ => &[],
    }
}
