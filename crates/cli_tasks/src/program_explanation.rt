//! Explains a program: what the verifier knows at each instruction and, if it rejects the program, why (`check
//! --explain`).
ghost use Rattle.std.specs.Prelude.{IfOk, IfErr, option_map, string_bytes};
ghost use Rattle.cli_tasks.specs.Programs.{Explains, IsBehind, IsWhy};
ghost use Rattle.cli_tasks.specs.ProgramRefusals.{RefusesNotation};

use crate::programs::program_in;
use crate::refusal::InputRefusal;
use crate::unit_places::{statements_in, written_in};
use cli_words::Notation;
use explain::{UnitTexts, explanation_at};
use insn::Program;
use std::alloc::{AllocError, Global};

/// Returns the explanation of a program that was read from a file with the bytes `bytes`. For each unit the explanation
/// shows how and on which line of the file it is written.
fn told(
    alloc: Global,
    notation: &Notation,
    bytes: &[u8],
    program: &Program,
) -> Result<String, AllocError>
    ensures { IfOk result (λ text. Explains notation.now bytes.now program.now (string_bytes text)) }
{
    let places = written_in(alloc, notation, bytes)?;
    let statements = statements_in(alloc, notation, bytes)?;
    let written = UnitTexts {
        places: places.as_slice(),
        statements: statements.as_slice(),
    };
    explanation_at(alloc, program, &written)
}

/// Appends an empty line and the explanation of an accepted program to `lines`. `bytes` are the bytes of the program's
/// file, and `asked` says how it is written. Returns `lines` unchanged if `asked` is `None`.
pub(crate) fn with_explanation(
    alloc: Global,
    lines: String,
    asked: Option<&Notation>,
    bytes: &[u8],
    program: &Program,
) -> Result<String, AllocError>
    ensures { IfOk result (λ text. IsBehind (option_map (λ notation. notation.now) asked.entry) bytes.now program.now
        (string_bytes lines) (string_bytes text)) }
{
    let Some(notation) = asked else {
        return Ok(lines);
    };
    let told = told(alloc, notation, bytes, program)?;
    let mut text = lines;
    text.push_str(told.as_str())?;
    text.push_str("\n")?;
    Ok(text)
}

/// Reads a program from the bytes of a file, and returns its explanation, whether or not the verifier accepts it.
/// `notation` says whether the file is bytecode, assembly or an ELF object.
///
/// # Errors
///
/// Fails if the bytes are not a program in this notation, or if memory runs out.
pub fn explanation(alloc: Global, notation: &Notation, bytes: &[u8]) -> Result<String, InputRefusal>
    ensures why { IfOk result (λ text. IsWhy notation.now bytes.now (string_bytes text)) }
    ensures refused { IfErr result (RefusesNotation notation.now bytes.now) }
{
    let program = program_in(alloc, notation, bytes)?;
    Ok(told(alloc, notation, bytes, &program)?)
}
