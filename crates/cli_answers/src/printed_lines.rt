//! Lays out an answer, or the reason why a task was not done, in the requested form: as text, as JSON, or as one
//! line.
ghost use Rattle.std.specs.Prelude.{◌≡◌, IfOk, IfSome};
ghost use Rattle.cli_answers.specs.Printing.{answer_as, named_line, refusal_as};

use crate::outcome::{first_line, judged, outcome};
use cli_words::TaskRequest;
use label::Shape;
use std::alloc::{AllocError, Global};
use streams::FileName;

/// Returns a line with its file's name before it, such as `a.toml: sound`.
fn named_line(alloc: Global, name: &str, line: &[u8]) -> Result<Vec<u8>, AllocError>
    ensures { IfOk result (λ all. IfSome (named_line name.now line.now) (λ known. all.items ≡ known)) }
{
    let name = FileName(name);
    let mut lines = format!(in alloc; "{name}: ")?.into_bytes();
    lines.extend_from_slice(line)?;
    lines.push(b'\n')?;
    Ok(lines)
}

/// Returns the text of an answer in the requested form. For the answer of a trial, `place` gives the number of
/// generals, the commander, the general and the round.
pub(crate) fn answer_lines(
    alloc: Global,
    request: &TaskRequest,
    place: Option<Shape>,
    text: &[u8],
) -> Result<Vec<u8>, AllocError>
    ensures { IfOk result (λ all. IfSome (answer_as request.now place text.now) (λ known. all.items ≡ known)) }
{
    let name = judged(&request.task);
    match (request.json, request.verdicts) {
        (false, false) => text.to_vec(alloc),
        (true, false) => crate::json_lines::answer(alloc, place, text),
        (false, true) => named_line(alloc, name, outcome(text)),
        (true, true) => crate::file_line::answer_of(alloc, name, outcome(text)),
    }
}

/// Returns the text that says why a task was not done, in the requested form.
pub(crate) fn refusal_lines(
    alloc: Global,
    request: &TaskRequest,
    text: &[u8],
) -> Result<Vec<u8>, AllocError>
    ensures { IfOk result (λ all. IfSome (refusal_as request.now text.now) (λ known. all.items ≡ known)) }
{
    let name = judged(&request.task);
    match (request.json, request.verdicts) {
        (false, false) => text.to_vec(alloc),
        (true, false) => crate::refusals::refusal(alloc, text),
        (false, true) => named_line(alloc, name, first_line(text)),
        (true, true) => crate::file_line::refusal_of(alloc, name, text),
    }
}
