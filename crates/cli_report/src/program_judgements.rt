//! Explains a traitor's program that the verifier rejects, and names the lines of the scenario that contain it.
ghost use Rattle.std.specs.Prelude.{◌≡◌, ◌++◌, IfOk, codes, length, map, option_map, replicate, string_bytes, unwrap_or};
ghost use Rattle.std.specs.Str.{IsUtf8};
ghost use Rattle.toml.specs.Parse.{parse_document};
ghost use Rattle.toml.specs.View.{table_view};
ghost use Rattle.scenario.specs.Sources.{source_by};
ghost use Rattle.asm.specs.Places.{AreWritten, line_text};
ghost use Rattle.asm.specs.Program.{lines_of, nothing, read_on};
ghost use Rattle.insn.specs.Program.{slots_of};
ghost use Rattle.scenario.specs.Seen.{source_of};
ghost use Rattle.cli_report.specs.Judged.{ArePlaced, AreStated, GivesProgram, IsExplained, IsExplainedBy, IsExplainedOf, IsJudged, IsMadeBy, judged_of, lines_before, pushed_down};
ghost use Rattle.cli_report.specs.Keys.{found_view};

use crate::keys::{Found, value_end};
use crate::lines::trimmed;
use crate::program_faults::{is_long, source_line};
use crate::report::behind;
use crate::sources::table_in;
use explain::explanation_at;
use insn::Program;
use scenario::{ProgramFault, ProgramText, ScenarioError, program, written_by};
use std::alloc::{AllocError, Global};
use toml::Table;

/// Returns how many lines of a file are before the first line of a program, which is a TOML string over several lines.
/// `line` is the line with the program's key.
fn lines_before(line: Found<'_>) -> u64
    ensures { result ≡ lines_before (found_view line.entry) }
{
    let rest = behind(value_end(line.line), 3);
    if trimmed(rest).len() == 0 {
        line.number
    } else {
        line.number.saturating_sub(1)
    }
}

/// Returns `lines` empty lines and then the text. This gives the text's lines the numbers that they have in a file.
fn pushed_down(alloc: Global, lines: u64, text: &str) -> Result<String, AllocError>
    ensures { IfOk result (λ pushed. string_bytes pushed ≡ pushed_down lines text.now) }
{
    let mut pushed = String::new(alloc);
    for _line in 0..lines {
        pushed.push_str("\n")?;
    }
    pushed.push_str(text)?;
    Ok(pushed)
}

/// Returns the text `line N`, where N is `number`.
fn line_text(alloc: Global, number: u64) -> Result<String, AllocError>
    ensures { IfOk result (λ text. string_bytes text ≡ line_text number) }
{
    format!(in alloc; "line {number}")
}

/// Returns the text `line N`, where N is `number`, `units` times. It is the place of each unit if all are in one line.
fn all_at(alloc: Global, units: usize, number: u64) -> Result<Vec<String>, AllocError>
    ensures { IfOk result (λ places. map string_bytes places.items ≡ replicate units (line_text number)) }
{
    let mut places = Vec::with_capacity(alloc, units)?;
    for _unit in 0..units {
        places.push(line_text(alloc, number)?)?;
    }
    Ok(places)
}

/// Returns for each unit of a program its place in a file, as the text `line N`. `line` is the line with the program's
/// key. If it is `None`, returns no places.
fn placed(
    alloc: Global,
    written: ProgramText<'_>,
    line: Option<Found<'_>>,
    program: &Program,
) -> Result<Vec<String>, AllocError>
    ensures { IfOk result (λ places. ArePlaced (source_of written.entry) (option_map found_view line.entry) program.now
        (map string_bytes places.items)) }
{
    let Some(line) = line else {
        return Ok(Vec::new(alloc));
    };
    match written {
        ProgramText::Asm(text) if is_long(value_end(line.line)) => {
            let text = pushed_down(alloc, lines_before(line), text)?;
            asm::places(alloc, text.as_str())
        }
        ProgramText::Asm(_) | ProgramText::Code(_) => all_at(alloc, program.units(), line.number),
    }
}

/// Returns for each unit of a program its statement in assembly. Returns none if the program is written as bytecode.
fn stated(alloc: Global, written: ProgramText<'_>) -> Result<Vec<String>, AllocError>
    ensures { IfOk result (λ statements. AreStated (source_of written.entry) (map string_bytes statements.items)) }
{
    match written {
        ProgramText::Asm(text) => asm::statements(alloc, text),
        ProgramText::Code(_) => Ok(Vec::new(alloc)),
    }
}

/// Returns the program that a source gave, or `None` if the source had a fault.
///
/// # Errors
///
/// Fails with `AllocError` if there was not enough memory to make it.
fn made(program: Result<Program, ScenarioError>) -> Result<Option<Program>, AllocError>
    ensures { IsMadeBy program result }
{
    match program {
        Ok(program) => Ok(Some(program)),
        Err(ScenarioError::Memory) => Err(AllocError),
        Err(_) => Ok(None),
    }
}

/// Assembles or decodes the source of a general's program. Returns `None` if the source has a fault.
#[tactic(auto, using(crate::proofs::MadeLemmas::made_is_had))]
fn program_of(
    alloc: Global,
    general: u8,
    written: ProgramText<'_>,
) -> Result<Option<Program>, AllocError>
    ensures { IfOk result (GivesProgram (source_of written.entry)) }
{
    made(program(alloc, general, written))
}

/// Returns an empty line and the explanation of a program, or an empty text if its source has a fault. `line` is the
/// line with the program's key.
#[tactic(auto, using(crate::proofs::MadeLemmas::unmade_is_silent))]
pub(crate) fn explained_of(
    alloc: Global,
    general: u8,
    written: ProgramText<'_>,
    line: Option<Found<'_>>,
) -> Result<String, AllocError>
    ensures { IfOk result (λ told. IsExplainedOf (source_of written.entry) (option_map found_view line.entry)
        (string_bytes told)) }
{
    let Some(program) = program_of(alloc, general, written)? else {
        return Ok(String::new(alloc));
    };
    let places = placed(alloc, written, line, &program)?;
    let statements = stated(alloc, written)?;
    let lists = explain::UnitTexts {
        places: places.as_slice(),
        statements: statements.as_slice(),
    };
    let told = explanation_at(alloc, &program, &lists)?;
    let told = told.as_str();
    format!(in alloc; "\n{told}")
}

/// Returns an empty line and the explanation of this general's program in a scenario, which `table` is. Returns an
/// empty text if he has no program there.
fn explained_in(
    alloc: Global,
    general: u8,
    table: &Table,
    line: Option<Found<'_>>,
) -> Result<String, AllocError>
    ensures { IfOk result (λ told. IsExplainedBy (source_by general (table_view table.now))
        (option_map found_view line.entry) (string_bytes told)) }
{
    match written_by(table, general) {
        Some(written) => explained_of(alloc, general, written, line),
        None => Ok(String::new(alloc)),
    }
}

/// Returns an empty line and the explanation of this general's program in the text of a scenario. Returns an empty text
/// if the scenario is not TOML or has no such program.
fn explained(alloc: Global, text: &[u8], general: u8) -> Result<String, AllocError>
    ensures { IfOk result (λ told. IsExplained text.now general (string_bytes told)) }
{
    let line = source_line(alloc, general, text)?;
    let Ok(text) = str::from_utf8(text) else {
        return Ok(String::new(alloc));
    };
    match table_in(alloc, text)? {
        Some(table) => explained_in(alloc, general, &table, line),
        None => Ok(String::new(alloc)),
    }
}

/// Returns the general whose program the verifier rejects, or `None` for another error.
pub(crate) fn judged_of(error: &ScenarioError) -> Option<u8>
    ensures { result ≡ judged_of error.now }
{
    match error {
        ScenarioError::Program(general, ProgramFault::Verifier(_, _)) => Some(*general),
        ScenarioError::Program(_, ProgramFault::Asm(_, _)) => None,
        ScenarioError::Program(_, ProgramFault::Hex) => None,
        ScenarioError::Program(_, ProgramFault::Code(_, _)) => None,
        ScenarioError::Toml => None,
        ScenarioError::Unknown(_, _) => None,
        ScenarioError::At(_, _) => None,
        ScenarioError::Memory => None,
    }
}

/// Returns what follows the report of an error in a scenario: the explanation of the program if the verifier rejects
/// it, and otherwise an empty text.
pub(crate) fn judged(
    alloc: Global,
    text: &[u8],
    error: &ScenarioError,
) -> Result<String, AllocError>
    ensures { IfOk result (λ behind. IsJudged text.now (judged_of error.now) (string_bytes behind)) }
{
    match judged_of(error) {
        Some(general) => explained(alloc, text, general),
        None => Ok(String::new(alloc)),
    }
}
