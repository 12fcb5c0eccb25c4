//! Cuts texts at a stop, and makes members of a JSON object that are texts.
ghost use Rattle.std.specs.Prelude.{◌≡◌, IfOk, OnOk};
ghost use Rattle.serde_json.specs.View.{members_view};
ghost use Rattle.text.specs.Parts.{before};
ghost use Rattle.cli_answers.specs.Texts.{behind_stop, called, with_text};

use crate::values::spelled;
use serde_json::{Map, Value, put};
use std::alloc::{AllocError, Global};
use text::{Stop, cut};

/// Cuts bytes at the first stop. The stop is in neither result, and the second result is empty if there is no stop.
pub(crate) fn parted(stop: Stop, bytes: &[u8]) -> (&[u8], &[u8])
    ensures front { result.0.now ≡ before stop bytes.now }
    ensures back { result.1.now ≡ behind_stop stop bytes.now }
{
    let (front, back) = cut(stop, bytes);
    match back {
        [] => (front, back),
        [_, behind @ ..] => (front, behind),
    }
}

/// Returns an object whose only member is `line`, the kind of line that it describes.
pub(crate) fn called(alloc: Global, line: &str) -> Result<Map<String, Value>, AllocError>
    ensures { IfOk result (λ object. members_view object.entries ≡ called line.now) }
{
    let mut object = Map::new(alloc);
    put(
        &mut object,
        alloc,
        "line",
        Value::try_from_str(alloc, line)?,
    )?;
    Ok(object)
}

/// Adds a text to the object as the member `name`. Bytes that are not UTF-8 become replacement characters.
pub(crate) fn put_text(
    alloc: Global,
    object: &mut Map<String, Value>,
    name: &str,
    text: &[u8],
) -> Result<(), AllocError>
    ensures { OnOk result (members_view object.new.entries
        ≡ with_text name.now text.now (members_view object.old.entries)) }
{
    put(object, alloc, name, spelled(alloc, text)?)
}
