//! Turns a line of an answer into a JSON object, by the first form that fits the line.
ghost use Rattle.std.specs.Prelude.{◌≡◌, IfOk, map, option_map};
ghost use Rattle.serde_json.specs.View.{members_view};
ghost use Rattle.text.specs.Parts.{pieces};
ghost use Rattle.text.specs.Stop.{space};
ghost use Rattle.cli_answers.specs.Objects.{explanation_object, line_object, other_object, unshaped};
ghost use Rattle.cli_answers.specs.Shaped.{first_shaped};
ghost use Rattle.board.specs.Wording as asking;
ghost use Rattle.cli_answers.specs.Shapes.{access_row};

use crate::explanations::{list_object, reasoned};
use crate::instructions::instruction_object;
use crate::labels::put_place;
use crate::position::Held;
use crate::shape::{access_shape, shapes};
use crate::shaped::{first_shaped, shaped};
use crate::texts::called;
use crate::values::spelled;
use board::{Wording, wordings};
use serde_json::{Map, Value, put};
use std::alloc::{AllocError, Global};

/// Returns the JSON object of a line that describes an access to the board, with its round. The first of `wordings`
/// (one for each kind of request) that fits the line names the line's words. Returns `None` if none fits.
fn access_object(
    alloc: Global,
    held: Held,
    wordings: &[Wording],
    line: &[u8],
) -> Result<Option<Map<String, Value>>, AllocError>
    ensures { IfOk result (λ o. option_map (λ object. members_view object.entries) o
        ≡ first_shaped held (map access_row (map asking.row_of wordings.now)) (pieces space line.now)) }
{
    for wording in wordings {
        let shape = access_shape(wording);
        if let Some(object) = shaped(alloc, &shape, line)? {
            let mut placed = object;
            put_place(alloc, &mut placed, held, shape.within)?;
            return Ok(Some(placed));
        }
    }
    Ok(None)
}

/// Returns the JSON object of a line that fits no shape (pattern of words). Its member `text` is the line.
pub(crate) fn unshaped(alloc: Global, line: &[u8]) -> Result<Map<String, Value>, AllocError>
    ensures { IfOk result (λ object. members_view object.entries ≡ unshaped line.now) }
{
    let mut object = called(alloc, "text")?;
    put(&mut object, alloc, "text", spelled(alloc, line)?)?;
    Ok(object)
}

/// Returns the JSON object of a line of an explanation or a trace: a line with a reason, a list of orders, or a line
/// about an instruction. Returns `None` for any other line.
#[tactic(auto, unfolding(crate::specs::Objects::explanation_object))]
fn explanation_object(
    alloc: Global,
    held: Held,
    line: &[u8],
) -> Result<Option<Map<String, Value>>, AllocError>
    ensures { IfOk result (λ o. option_map (λ object. members_view object.entries) o
        ≡ explanation_object held line.now) }
{
    if let Some(object) = reasoned(alloc, held, line)? {
        return Ok(Some(object));
    }
    if let Some(object) = list_object(alloc, held, line)? {
        return Ok(Some(object));
    }
    instruction_object(alloc, line)
}

/// Returns the JSON object of a line that fits a shape or is of an explanation or a trace. Returns `None` for any other
/// line.
fn other_object(
    alloc: Global,
    held: Held,
    line: &[u8],
) -> Result<Option<Map<String, Value>>, AllocError>
    ensures { IfOk result (λ o. option_map (λ object. members_view object.entries) o
        ≡ other_object held line.now) }
{
    if let Some(object) = first_shaped(alloc, held, shapes(), line)? {
        return Ok(Some(object));
    }
    explanation_object(alloc, held, line)
}

/// Returns the JSON object of a line. `held` is what earlier lines say about where the line belongs.
#[tactic(auto, unfolding(crate::specs::Objects::line_object))]
pub(crate) fn line_object(
    alloc: Global,
    held: Held,
    line: &[u8],
) -> Result<Map<String, Value>, AllocError>
    ensures { IfOk result (λ object. members_view object.entries ≡ line_object held line.now) }
{
    if let Some(access) = access_object(alloc, held, wordings(), line)? {
        return Ok(access);
    }
    match other_object(alloc, held, line)? {
        Some(object) => Ok(object),
        None => unshaped(alloc, line),
    }
}
