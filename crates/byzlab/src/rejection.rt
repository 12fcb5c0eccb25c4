//! Reports that a task is not done, because a file cannot be read or written or a scenario is rejected. The report has
//! the form that the request asks for.
ghost use Rattle.std.specs.Prelude.{◌≡◌, ◌↔◌, IfErr, IfOk, IsErr, None, Ok, Some, if◌then◌else◌};
ghost use Rattle.std.specs.IoError.{error_kind};
ghost use Rattle.cli_tasks.specs.Whys.{is_explained};
ghost use Rattle.cli_tasks.specs.declared.failure.TaskFailure.TheVariants.{Read as unreadable};
ghost use Rattle.byzlab.specs.Failures.{IsSaidOf};
ghost use Rattle.byzlab.specs.Rejected.{TellsUnkept, TellsUntaken, said_of};

use crate::failures::{Explained, Unwritten, unread};
use crate::kept_files::Unkept;
use crate::noted_line::{Noted, noted_on};
use crate::told_line::{ReportOutcome, ReportedLine, told_on};
use crate::watched_stream::Watched;
use cli_tasks::{FileProblem, TaskFailure};
use cli_words::TaskRequest;
use std::alloc::AllocError;
use std::fmt::Display;
use std::io::{self, ErrorKind, Stderr, Stdout};

/// A record of a line that was reported on the standard streams and says why a task is not done.
pub type TurnedDown<D> = ReportedLine<D, Stdout, Stderr>;

/// A record of the report that a file cannot be read.
pub type Unread<'a> = TurnedDown<Explained<TaskFailure<'a>>>;

/// A record of the report that a file was not written.
pub type NotKept = TurnedDown<Explained<Unwritten>>;

/// A record of the report that a scenario is rejected.
#[derive(Drop)]
pub enum Rejected<'a> {
    /// The scenario cannot be read.
    Unread(Unread<'a>),
    /// A file that the scenario names is rejected.
    Untaken(TurnedDown<Explained<String>>),
    /// The scenario is rejected. The report is at one of its lines, or at a line of a file that it names.
    Refused(TurnedDown<String>),
}

impl Rejected<'_> {
    /// Returns how the report went: whether memory ran out, and whether the output failed.
    pub fn said(self) -> ReportOutcome
        ensures { result ≡ said_of self.entry }
    {
        match self {
            Rejected::Unread(told) => told.said(),
            Rejected::Untaken(told) => told.said(),
            Rejected::Refused(told) => told.said(),
        }
    }
}

/// Writes this line to standard error. If the write fails, ignores this.
pub fn note<D: Display + Drop>(rt: &HostRuntime, line: D) -> Noted<D, Stderr>
    ensures { result.line ≡ line }
{
    noted_on(line, &mut rt.stderr())
}

/// Reports with this line that the task of the request is not done, and returns a record of the report.
pub fn turn_down<D: Display + Drop>(
    rt: &HostRuntime,
    request: &TaskRequest,
    line: D,
) -> TurnedDown<D>
    ensures line { result.line ≡ line }
    ensures said { IsSaidOf request.now result.said }
{
    let mut out = Watched::new(rt.stdout());
    told_on(rt.alloc(), request, line, &mut out, &mut rt.stderr())
}

/// Reports that the file with this name was not read, because it could not be opened or read.
///
/// # Errors
///
/// Fails with `AllocError` if the error is that memory ran out.
pub fn tell_unread<'a>(
    rt: &HostRuntime,
    request: &TaskRequest,
    name: &'a str,
    error: io::Error,
) -> Result<Unread<'a>, AllocError>
    ensures line { IfOk result (λ told. told.line.lines ≡ unreadable name.entry) }
    ensures why { IfOk result (λ told.
        told.line.kind ≡ (if is_explained request.now.task then Some (error_kind error) else None)) }
    ensures said { IfOk result (λ told. IsSaidOf request.now told.said) }
    ensures memory { IsErr result ↔ (error_kind error ≡ ErrorKind.OutOfMemory) }
{
    let line = unread(&request.task, name, error)?;
    Ok(turn_down(rt, request, line))
}

/// Returns what opening or reading the file with this name gave. If that failed, reports this, and returns a record of
/// the report.
///
/// # Errors
///
/// Fails with `AllocError` if it failed because memory ran out.
pub fn given_or_told<'a, T>(
    rt: &HostRuntime,
    request: &TaskRequest,
    name: &'a str,
    outcome: io::Result<T>,
) -> Result<Result<T, Unread<'a>>, AllocError>
    ensures given { IfOk outcome (λ given. result ≡ Ok (Ok given)) }
    ensures failed { IfErr outcome (λ _. IfOk result IsErr) }
    ensures line { IfOk result (λ r. IfErr r (λ told. told.line.lines ≡ unreadable name.entry)) }
    ensures why { IfErr outcome (λ error. IfOk result (λ r. IfErr r (λ told.
        told.line.kind ≡ (if is_explained request.now.task then Some (error_kind error) else None)))) }
    ensures said { IfOk result (λ r. IfErr r (λ told. IsSaidOf request.now told.said)) }
    ensures memory { IfErr outcome (λ error. IsErr result ↔ (error_kind error ≡ ErrorKind.OutOfMemory)) }
{
    match outcome {
        Ok(given) => Ok(Ok(given)),
        Err(error) => Ok(Err(tell_unread(rt, request, name, error)?)),
    }
}

/// Reports these lines about a file. If a kind of error is given, and the task explains what it rejects, adds the
/// sentence for errors of that kind.
pub fn tell_explained<D: Display + Drop>(
    rt: &HostRuntime,
    request: &TaskRequest,
    lines: D,
    kind: Option<ErrorKind>,
) -> TurnedDown<Explained<D>>
    ensures line { result.line.lines ≡ lines }
    ensures why { result.line.kind ≡ (if is_explained request.now.task then kind else None) }
    ensures said { IsSaidOf request.now result.said }
{
    turn_down(rt, request, Explained::by(&request.task, lines, kind))
}

/// Reports that a file that a scenario names is rejected.
///
/// # Errors
///
/// Fails with `AllocError` if the reason is that memory ran out.
pub fn tell_neighbour(
    rt: &HostRuntime,
    request: &TaskRequest,
    untaken: FileProblem,
) -> Result<TurnedDown<Explained<String>>, AllocError>
    ensures line { IfOk result (λ told. TellsUntaken request.now.task untaken told.line) }
    ensures said { IfOk result (λ told. IsSaidOf request.now told.said) }
    ensures memory { IsErr result ↔ (untaken ≡ FileProblem.Memory) }
{
    match untaken {
        FileProblem::Told { lines, kind } => Ok(tell_explained(rt, request, lines, kind)),
        FileProblem::Memory => Err(AllocError),
    }
}

/// Reports that a file was not written.
///
/// # Errors
///
/// Fails with `AllocError` if the reason is that memory ran out.
pub fn tell_unkept(
    rt: &HostRuntime,
    request: &TaskRequest,
    unkept: Unkept,
) -> Result<NotKept, AllocError>
    ensures line { IfOk result (λ told. TellsUnkept request.now.task unkept told.line) }
    ensures said { IfOk result (λ told. IsSaidOf request.now told.said) }
    ensures memory { IsErr result ↔ (unkept ≡ Unkept.Memory) }
{
    match unkept {
        Unkept::Unwritten(name, kind) => {
            Ok(tell_explained(rt, request, Unwritten { name }, Some(kind)))
        }
        Unkept::Memory => Err(AllocError),
    }
}
