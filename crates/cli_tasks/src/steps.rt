//! Describes the run of a program: its steps (`check --trace`), and its calls that should send orders, but have no effect
//! (`check --explain` in a setting).
ghost use Rattle.std.specs.Prelude.{◌≡◌, ◌++◌, IfOk, option_map, string_bytes};
ghost use Rattle.cli_tasks.specs.Answers.{AreSlipsBehind, steps_behind};

use crate::unit_places::written_in;
use cli_words::Notation;
use mem::Context;
use std::alloc::{AllocError, Global};
use trial::Setting;
use verify::Verified;

/// Appends an empty line and one line for each step of the program's run in this setting to `lines`. Returns `lines`
/// unchanged if `traced` is not set.
///
/// # Errors
///
/// Fails with `AllocError` if memory runs out.
pub(crate) fn with_steps(
    alloc: Global,
    lines: String,
    traced: bool,
    program: &Verified,
    setting: &Setting,
) -> Result<String, AllocError>
    ensures { IfOk result (λ text. string_bytes text ≡ string_bytes lines
        ++ steps_behind traced program.now setting.now) }
{
    if !traced {
        return Ok(lines);
    }
    let bytes = setting.context(alloc)?;
    let context = Context::new(bytes.as_slice());
    let steps = trial::traced(alloc, program, &context, setting.shape(), setting.board())?;
    let mut text = lines;
    text.push_str("\n")?;
    text.push_str(steps.as_str())?;
    Ok(text)
}

/// Appends a note to the text about an accepted program for each call of its run in this setting that should send
/// orders, but has no effect. The note names the unit of the call and, if it is known, the line of the file where the
/// call is written. `file` has the bytes of the program's file, and `asked` says how the program is written in it.
/// Returns the text unchanged if `asked` is `None`.
///
/// # Errors
///
/// Fails with `AllocError` if memory runs out.
pub(crate) fn with_slips(
    alloc: Global,
    told: String,
    asked: Option<&Notation>,
    file: &[u8],
    program: &Verified,
    setting: &Setting,
) -> Result<String, AllocError>
    ensures { IfOk result (λ text. AreSlipsBehind
        (option_map (λ notation. notation.now) asked.entry) file.now program.now setting.now (string_bytes told)
        (string_bytes text)) }
{
    let Some(notation) = asked else {
        return Ok(told);
    };
    let places = written_in(alloc, notation, file)?;
    let bytes = setting.context(alloc)?;
    let context = Context::new(bytes.as_slice());
    let slips = trial::slips(alloc, program, &context, setting.shape(), setting.board())?;
    let notes = trial::trial_notes(alloc, slips.as_slice(), setting.shape(), places.as_slice())?;
    let mut text = told;
    text.push_str(notes.as_str())?;
    Ok(text)
}
