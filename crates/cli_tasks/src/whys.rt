//! Makes the report that is printed after the error line of a rejected input if the task must explain its errors.
ghost use Rattle.std.specs.Prelude.{◌≡◌, ◌++◌, IfOk, IfSome, string_bytes};
ghost use Rattle.streams.specs.Names.{shown};
ghost use Rattle.cli_report.specs.Bytecode.{bytecode_told};
ghost use Rattle.cli_tasks.specs.Faults.{IsTold, IsToldIf, IsUnjudged, text_fault};
ghost use Rattle.cli_tasks.specs.Hints.{is_reported};
ghost use Rattle.cli_tasks.specs.Seeming.{seems_at_first};
ghost use Rattle.cli_tasks.specs.declared.refusal.InputRefusal.TheVariants.{Trace};
ghost use Rattle.cli_tasks.specs.Whys.{TellsWhy, TellsWhyOf, campaign_again, is_explained, role_view, seems_line};

use crate::failure::TaskFailure;
use crate::hint::Hint;
use crate::likeness::seems;
use crate::refusal::InputRefusal;
use asm::AsmError;
use book::TableError;
use cli_words::Task;
use codec::CodecError;
use scenario::Campaign;
use std::alloc::{AllocError, Global};
use streams::FileName;
use trace::{TraceError, signed_told_again, told_again};

/// What the file at fault should be: a schedule, a chronicle of this campaign, or anything else.
#[derive(Clone, Copy)]
pub enum FileRole<'a> {
    Schedule,
    Chronicle(&'a Campaign),
    Nothing,
}

/// Checks whether the task was called with `--explain`, so that it must explain also why it rejects its input.
pub fn is_explained(task: &Task) -> bool
    ensures { result ≡ is_explained task.now }
{
    match task {
        Task::Check { explained, .. }
        | Task::Assemble { explained, .. }
        | Task::AssemblePartly { explained, .. }
        | Task::Disassemble { explained, .. }
        | Task::DisassemblePartly { explained, .. } => *explained,
        Task::ExplainDecisions { .. } => true,
        Task::Play { explained, .. }
        | Task::Muster { explained, .. }
        | Task::Audit { explained, .. } => explained.is_some(),
        Task::Book(_)
        | Task::Form { .. }
        | Task::Refute { .. }
        | Task::Exhaust { .. }
        | Task::Certify { .. }
        | Task::Explore { .. }
        | Task::Tree { .. }
        | Task::Draw { .. }
        | Task::Page { .. }
        | Task::Retrace { .. } => false,
    }
}

/// Returns the name of a file as it is printed: on one line, with control characters escaped.
fn shown_name(alloc: Global, file: &str) -> Result<String, AllocError>
    ensures { IfOk result (λ name. IfSome (shown file.now) (λ told. string_bytes name ≡ told)) }
{
    format!(in alloc; "{}", FileName(file))
}

/// Returns the report on rejected bytecode: what the bytes seem to be instead, and the fault at this unit.
fn bytecode_told(
    alloc: Global,
    name: &str,
    bytes: &[u8],
    fault: codec::CodecFault,
    unit: usize,
) -> Result<String, AllocError>
    ensures { IfOk result (λ told. string_bytes told ≡ seems_line (seems_at_first bytes.now)
        ++ bytecode_told name.now bytes.now fault unit) }
{
    let why = cli_report::of_bytecode(alloc, name, bytes, fault, unit)?;
    match seems(bytes) {
        Some(likeness) => {
            let why = why.as_str();
            format!(in alloc; "\n{likeness}{why}")
        }
        None => Ok(why),
    }
}

/// Returns the text that `text`, a faulty chronicle of the campaign, should have been. The report shows where the two
/// differ.
fn campaign_again(alloc: Global, campaign: &Campaign, text: &[u8]) -> Result<Vec<u8>, AllocError>
    ensures { IfOk result (λ again. again.items ≡ campaign_again campaign.now text.now) }
{
    match campaign {
        Campaign::Oral(scenario) => told_again(alloc, scenario, text),
        Campaign::Signed(scenario) => signed_told_again(alloc, scenario, text),
    }
}

/// Returns the report on a rejected line of a schedule or a chronicle. Returns an empty report if the file is neither,
/// as `of` says, or if `error` is not about a line. Fails with `AllocError` if it runs out of memory.
fn trace_told(
    alloc: Global,
    of: FileRole<'_>,
    error: &TraceError,
    name: &str,
    bytes: &[u8],
) -> Result<String, AllocError>
    ensures { IfOk result (λ told. TellsWhy (Trace error.now) (role_view of.entry) name.now bytes.now
        (string_bytes told)) }
{
    match (error, of) {
        (TraceError::At(_, line), FileRole::Schedule) => {
            cli_report::of_schedule(alloc, name, bytes, *line)
        }
        (TraceError::At(fault, line), FileRole::Chronicle(campaign)) => {
            let again = campaign_again(alloc, campaign, bytes)?;
            cli_report::of_chronicle(alloc, name, bytes, *fault, *line, again.as_slice())
        }
        (TraceError::At(..), FileRole::Nothing) => Ok(String::new(alloc)),
        (TraceError::Write, _) => Ok(String::new(alloc)),
        (TraceError::Memory, _) => Ok(String::new(alloc)),
    }
}

/// Returns the report that is printed after the error line of a rejected file. The file has the name `name` and the
/// bytes `bytes`, and `of` says what it should be. The report is empty for errors that need no report.
fn told_by(
    alloc: Global,
    of: FileRole<'_>,
    refusal: &InputRefusal,
    name: &str,
    bytes: &[u8],
) -> Result<String, AllocError>
    ensures { IfOk result (λ told. TellsWhy refusal.now (role_view of.entry) name.now bytes.now (string_bytes told)) }
{
    match refusal {
        InputRefusal::Codec(CodecError::At(fault, unit)) => {
            bytecode_told(alloc, name, bytes, *fault, *unit)
        }
        InputRefusal::Assembly(AsmError::At(fault, line)) => {
            cli_report::of_assembly(alloc, name, bytes, *fault, *line)
        }
        InputRefusal::Table(TableError::At(fault, line)) => {
            cli_report::of_table(alloc, name, bytes, *fault, *line)
        }
        InputRefusal::Scenario(error) => cli_report::of_scenario(alloc, name, bytes, error),
        InputRefusal::Setting(error) => cli_report::of_setting(alloc, name, bytes, error),
        InputRefusal::Trace(error) => trace_told(alloc, of, error, name, bytes),
        InputRefusal::Codec(CodecError::Memory) => Ok(String::new(alloc)),
        InputRefusal::Assembly(AsmError::Memory) => Ok(String::new(alloc)),
        InputRefusal::Table(TableError::Memory) => Ok(String::new(alloc)),
        InputRefusal::Object(_) => Ok(String::new(alloc)),
        InputRefusal::Verifier(_) => Ok(String::new(alloc)),
        InputRefusal::Threads(error) => cli_report::of_muster(alloc, *error),
        InputRefusal::Accesses(_) => Ok(String::new(alloc)),
        InputRefusal::Stranger { general, generals } => {
            cli_report::of_stranger(alloc, name, bytes, *general, *generals)
        }
        InputRefusal::Tolerated => Ok(String::new(alloc)),
        InputRefusal::RuleCall { .. } => Ok(String::new(alloc)),
        InputRefusal::LongSearch { .. } => Ok(String::new(alloc)),
        InputRefusal::LongScenario => Ok(String::new(alloc)),
        InputRefusal::NotText => Ok(String::new(alloc)),
        InputRefusal::Memory => Ok(String::new(alloc)),
    }
}

/// Returns the failure of a task that rejects the file named `file` for the reason `refusal`, with `text` as the hint.
/// There is no hint if the file is not UTF-8 or memory ran out: these are failures of their own, `Text` and `Memory`.
fn with_text<'a>(refusal: InputRefusal, file: &'a str, text: String) -> TaskFailure<'a>
    ensures { result ≡ text_fault refusal file.entry text }
{
    match refusal {
        InputRefusal::Memory => TaskFailure::Memory,
        InputRefusal::NotText => TaskFailure::Text(file),
        refusal => TaskFailure::Refused(refusal, Some(Hint::Explained(text))),
    }
}

/// Returns the failure of a task that rejects the file named `file` with the bytes `bytes`, with a report on the fault
/// as the hint. The report is empty for a fault that needs none. The failure is `Text`, without a hint, if the file is
/// not UTF-8, and `Memory` if memory runs out.
fn told<'a>(
    alloc: Global,
    of: FileRole<'_>,
    refusal: InputRefusal,
    file: &'a str,
    bytes: &[u8],
) -> TaskFailure<'a>
    ensures { IsTold refusal file.entry (TellsWhyOf refusal (role_view of.entry) file.entry.now bytes.now) result }
{
    let Ok(name) = shown_name(alloc, file) else {
        return TaskFailure::Memory;
    };
    match told_by(alloc, of, &refusal, name.as_str(), bytes) {
        Ok(text) => with_text(refusal, file, text),
        Err(_) => TaskFailure::Memory,
    }
}

/// Checks whether the task prints a report on this refusal. It does if the task must explain its errors, except for a
/// fault of an ELF object, which is always explained by its hint.
fn is_reported(task: &Task, refusal: &InputRefusal) -> bool
    ensures { result ≡ is_reported task.now refusal.now }
{
    match refusal {
        InputRefusal::Object(_) => false,
        _ => is_explained(task),
    }
}

/// Returns the failure of a task that rejects its first file, without explaining a program. If an ELF object has no
/// code for the entry function, the hint says why. For another refusal, if the task must explain its errors, the hint
/// is a report on `own`, the bytes in which the fault is located. Otherwise there is a hint only if `own` should be
/// bytecode and is not: it says what these bytes seem to be. If memory ran out, or if the file is not UTF-8 text, there
/// is never a hint.
pub fn unjudged<'a>(
    alloc: Global,
    task: &Task,
    refusal: InputRefusal,
    file: &'a str,
    own: &[u8],
) -> TaskFailure<'a>
    ensures { IsUnjudged (is_reported task.now refusal) refusal file.entry own.now result }
{
    if is_reported(task, &refusal) {
        told(alloc, FileRole::Nothing, refusal, file, own)
    } else {
        TaskFailure::of_bytes(refusal, file, own)
    }
}

/// Returns the failure of a task that rejects the second file, which has the name `file` and the bytes `bytes`. If
/// `explained` is set, the hint is a report on the fault, except if memory ran out or the file is not UTF-8 text.
/// Otherwise there is no hint.
pub fn later<'a>(
    alloc: Global,
    explained: bool,
    of: FileRole<'_>,
    refusal: InputRefusal,
    file: &'a str,
    bytes: &[u8],
) -> TaskFailure<'a>
    ensures { IsToldIf explained refusal file.entry
        (TellsWhyOf refusal (role_view of.entry) file.entry.now bytes.now) result }
{
    if explained {
        told(alloc, of, refusal, file, bytes)
    } else {
        TaskFailure::of(refusal, file)
    }
}
