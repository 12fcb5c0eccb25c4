//! Turns a line into the members of a JSON object, by a shape (a pattern of words) that fits the line.
ghost use Rattle.std.specs.Prelude.{◌≡◌, IfOk, OnOk, map, option_map};
ghost use Rattle.serde_json.specs.View.{members_view, view};
ghost use Rattle.text.specs.Parts.{pieces};
ghost use Rattle.text.specs.Stop.{space};
ghost use Rattle.cli_answers.specs.Shaped.{first_shaped, found, shaped, told_by, with_mark, with_name};
ghost use Rattle.cli_answers.specs.Shapes.{row_of};

use crate::labels::put_place;
use crate::position::Held;
use crate::shape::Shape;
use crate::texts::called;
use crate::values::{places, told};
use serde_json::{Map, Value, put};
use std::alloc::{AllocError, Global};
use text::{SPACE, piece};

/// Adds a value to the object as the member `name`. Nothing is added if the name is a dash.
fn put_named(
    alloc: Global,
    object: &mut Map<String, Value>,
    name: &str,
    value: Value,
) -> Result<(), AllocError>
    ensures { OnOk result (members_view object.new.entries
        ≡ with_name name.now (view value) (members_view object.old.entries)) }
{
    if name == "-" {
        return Ok(());
    }
    put(object, alloc, name, value)
}

/// Adds the values of a line's words to the object. Each of `parts` is what a word may be, and its name in the
/// object. Returns whether all words fit.
pub(crate) fn put_told(
    alloc: Global,
    object: &mut Map<String, Value>,
    parts: &[(&'static str, &'static str)],
    line: &[u8],
) -> Result<bool, AllocError>
    ensures { IfOk result (λ fits. found fits (members_view object.new.entries)
        ≡ told_by (map (λ p. (p.0.now, p.1.now)) parts.now) (pieces space line.now) (members_view object.old.entries)) }
{
    let mut rest = Some(line);
    for (kind, name) in parts {
        if *kind == "*" {
            let Some(value) = places(alloc, rest)? else {
                return Ok(false);
            };
            put_named(alloc, object, name, value)?;
            return Ok(true);
        }
        let Some(words) = rest else {
            return Ok(false);
        };
        let (word, further) = piece(SPACE, words);
        let Some(value) = told(alloc, kind.as_bytes(), word)? else {
            return Ok(false);
        };
        put_named(alloc, object, name, value)?;
        rest = further;
    }
    Ok(rest.is_none())
}

/// Adds the mark of a shape to the object: a member that is true, or false, for all lines of this shape. Nothing is
/// added if the shape has no mark.
fn put_mark(alloc: Global, object: &mut Map<String, Value>, shape: &Shape) -> Result<(), AllocError>
    ensures { OnOk result (members_view object.new.entries
        ≡ with_mark (row_of shape.now) (members_view object.old.entries)) }
{
    if shape.mark.is_empty() {
        return Ok(());
    }
    put(object, alloc, shape.mark, Value::Bool(shape.holds))
}

/// Returns the JSON object of a line that fits this shape (a pattern of words), or `None` if the line does not fit.
#[tactic(auto, unfolding(crate::specs::Shaped::shaped))]
pub(crate) fn shaped(
    alloc: Global,
    shape: &Shape,
    line: &[u8],
) -> Result<Option<Map<String, Value>>, AllocError>
    ensures { IfOk result (λ o. option_map (λ object. members_view object.entries) o
        ≡ shaped (row_of shape.now) (pieces space line.now)) }
{
    let mut object = called(alloc, shape.line)?;
    put_mark(alloc, &mut object, shape)?;
    if put_told(alloc, &mut object, shape.parts, line)? {
        Ok(Some(object))
    } else {
        Ok(None)
    }
}

/// Returns the JSON object of a printed line, by the first of these shapes (patterns of words) that fits it. If the
/// shape says so, the object also has the round, general or label to which the line belongs. Returns `None` if no
/// shape fits.
pub(crate) fn first_shaped(
    alloc: Global,
    held: Held,
    shapes: &[Shape],
    line: &[u8],
) -> Result<Option<Map<String, Value>>, AllocError>
    ensures { IfOk result (λ o. option_map (λ object. members_view object.entries) o
        ≡ first_shaped held (map row_of shapes.now) (pieces space line.now)) }
{
    for shape in shapes {
        if let Some(object) = shaped(alloc, shape, line)? {
            let mut placed = object;
            put_place(alloc, &mut placed, held, shape.within)?;
            return Ok(Some(placed));
        }
    }
    Ok(None)
}
