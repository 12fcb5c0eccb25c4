//! Reports why a scenario that names files is rejected, at a line of the scenario or of one of these files.
ghost use Rattle.std.specs.Prelude.{◌≡◌, ◌≢◌, IfOk, IfSome, None, option_map, string_bytes};
ghost use Rattle.std.specs.Str.{IsUtf8};
ghost use Rattle.streams.specs.Names.{shown};
ghost use Rattle.cli_report.specs.declared.refusal.Taken.TheVariants.{Any, Oral};
ghost use Rattle.cli_report.specs.Refused.{IsErrorIn, IsErrorOf, IsRefusalShown, IsReportShown, IsTold, IsToldOf, taken_by};

use crate::shown_errors::ShownScenarioError;
use cli_words::{Account, Task};
use scenario::ScenarioError;
use std::alloc::{AllocError, Global};
use streams::FileName;

/// Which campaigns a task accepts. A message table, for example, is printed only for oral ones.
#[derive(Clone, Copy)]
pub enum Taken {
    /// The task accepts only oral campaigns.
    Oral,
    /// The task accepts oral and signed campaigns.
    Any,
}

/// Returns which campaigns the task accepts, or `None` if it does not explain why it rejects a scenario.
fn taken_by(task: &Task) -> Option<Taken>
    ensures { result ≡ taken_by task.now }
{
    match task {
        Task::Play {
            account: Account::Chronicle,
            explained: Some(_),
            ..
        } => Some(Taken::Any),
        Task::Play {
            account: Account::Table,
            explained: Some(_),
            ..
        } => Some(Taken::Oral),
        Task::Muster {
            explained: Some(_),
            ..
        } => Some(Taken::Any),
        Task::Audit {
            explained: Some(_),
            ..
        } => Some(Taken::Any),
        _ => None,
    }
}

/// Returns the error with which a scenario was read, or `None` if it was accepted.
///
/// # Errors
///
/// Fails with `AllocError` if there was not enough memory to read the text.
fn error_in<T: Drop>(read: Result<T, ScenarioError>) -> Result<Option<ScenarioError>, AllocError>
    ensures { IsErrorIn read result }
{
    match read {
        Ok(_) => Ok(None),
        Err(ScenarioError::Memory) => Err(AllocError),
        Err(error) => Ok(Some(error)),
    }
}

/// Returns the error of a text if it must be an oral campaign, or `None` if it is one.
fn error_of_oral(alloc: Global, text: &str) -> Result<Option<ScenarioError>, AllocError>
    ensures { IfOk result (IsErrorOf Oral text.now) }
{
    error_in(scenario::read(alloc, text))
}

/// Returns the error of a text if it must be an oral or a signed campaign, or `None` if it is one.
fn error_of_any(alloc: Global, text: &str) -> Result<Option<ScenarioError>, AllocError>
    ensures { IfOk result (IsErrorOf Any text.now) }
{
    error_in(scenario::read_any(alloc, text))
}

/// Returns the error of a text if it must be a campaign of the kind `taken`, or `None` if it is one.
fn error_of(alloc: Global, taken: Taken, text: &str) -> Result<Option<ScenarioError>, AllocError>
    ensures { IfOk result (IsErrorOf taken text.now) }
{
    match taken {
        Taken::Oral => error_of_oral(alloc, text),
        Taken::Any => error_of_any(alloc, text),
    }
}

/// Returns the name of a file as reports show it.
fn shown_name(alloc: Global, file: &str) -> Result<String, AllocError>
    ensures { IfOk result (λ name. IfSome (shown file.now) (λ own. string_bytes name ≡ own)) }
{
    format!(in alloc; "{}", FileName(file))
}

/// Returns the report of an error of the scenario in this file. `own` is its text, and `made` is its resolved text,
/// which has the contents of files in place of their names.
fn report_shown(
    alloc: Global,
    file: &str,
    own: &str,
    made: &str,
    error: &ScenarioError,
) -> Result<String, AllocError>
    ensures { IfOk result (λ report. IsReportShown file.now own.now made.now error.now (string_bytes report)) }
{
    let name = shown_name(alloc, file)?;
    crate::file_errors::of_made(alloc, name.as_str(), own, made, error)
}

/// Returns the line `refused ...` for an error of the scenario in this file, and then the report of the error. `own` is
/// the scenario's text, and `made` is its resolved text, which has the contents of files in place of their names.
fn refusal_shown(
    alloc: Global,
    file: &str,
    own: &str,
    made: &str,
    error: &ScenarioError,
) -> Result<String, AllocError>
    ensures { IfOk result (λ lines. IsRefusalShown file.now own.now made.now error.now (string_bytes lines)) }
{
    let report = report_shown(alloc, file, own, made, error)?;
    let report = report.as_str();
    let error = ShownScenarioError(error);
    format!(in alloc; "refused {error}{report}")
}

/// Returns the line `refused ...` and the report if the resolved text `made` is not a campaign of the kind `taken`, or
/// `None` if it is. The resolved text has the contents of files in place of their names.
fn told_of(
    alloc: Global,
    taken: Taken,
    file: &str,
    own: &str,
    made: &str,
) -> Result<Option<String>, AllocError>
    ensures { IfOk result (λ lines. IsToldOf taken file.now own.now made.now (option_map string_bytes lines)) }
{
    match error_of(alloc, taken, made)? {
        Some(error) => Ok(Some(refusal_shown(alloc, file, own, made, &error)?)),
        None => Ok(None),
    }
}

/// Returns the line `refused ...` and the report for the scenario of a task. Returns `None` if the scenario is
/// accepted, or if the task does not explain why it rejects one. `made` is the scenario with the contents of files in
/// place of their names.
fn told(alloc: Global, task: &Task, own: &str, made: &str) -> Result<Option<String>, AllocError>
    ensures { IfOk result (λ lines. IsTold task.now own.now made.now (option_map string_bytes lines)) }
{
    match taken_by(task) {
        Some(taken) => told_of(alloc, taken, task.file().unwrap_or(""), own, made),
        None => Ok(None),
    }
}

/// Returns the line `refused ...` and the report for the scenario of a task that names files. The report is at a line
/// of the scenario or of one of its files. Returns `None` if the scenario is accepted, or if the task does not explain
/// why it rejects one.
///
/// `own` is the scenario as it was read, and `made` is its resolved text, which has the contents of the files in place
/// of their names. The result is also `None` if the two are equal, since then no file is named, or if one of them is
/// not UTF-8.
///
/// # Errors
///
/// Fails with `AllocError` if there is not enough memory.
pub fn refused(
    alloc: Global,
    task: &Task,
    own: &[u8],
    made: &[u8],
) -> Result<Option<String>, AllocError>
    ensures unnamed { own.now ≡ made.now → IfOk result (λ lines. lines ≡ None) }
    ensures told { own.now ≢ made.now → IsUtf8 own.now → IsUtf8 made.now →
        IfOk result (λ lines. IsTold task.now own.now made.now (option_map string_bytes lines)) }
    ensures own_text { ¬ IsUtf8 own.now → IfOk result (λ lines. lines ≡ None) }
    ensures made_text { ¬ IsUtf8 made.now → IfOk result (λ lines. lines ≡ None) }
{
    if own == made {
        return Ok(None);
    }
    match (str::from_utf8(own), str::from_utf8(made)) {
        (Ok(own), Ok(made)) => told(alloc, task, own, made),
        _ => Ok(None),
    }
}
