//! What is reported about files that cannot be read or written, and about outputs that failed: a line, and a sentence
//! with the reason.

ghost use Rattle.std.specs.Prelude.{◌≡◌, ◌↔◌, ◌||◌, IfOk, IsErr, None, Some, if◌then◌else◌, is_some, option_map};
ghost use Rattle.std.specs.IoError.{error_kind};
ghost use Rattle.cli_tasks.specs.Whys.{is_explained};
ghost use Rattle.cli_tasks.specs.declared.failure.TaskFailure.TheVariants.{Read as unreadable};
ghost use Rattle.cli_words.specs.Tasks.{target_of};
ghost use Rattle.byzlab.specs.Failures.{IsWhy, why_text};

use cli_tasks::{FileName, TaskFailure, is_explained, reason};
use cli_words::Task;
use std::alloc::AllocError;
use std::fmt::{self, Display};
use std::io::{self, ErrorKind};

/// Lines to report and, if there is a kind of error, the sentence for errors of this kind.
#[derive(Drop)]
pub struct Explained<D: Display + Drop> {
    pub lines: D,
    pub kind: Option<ErrorKind>,
}

impl<D: Display + Drop> Display for Explained<D> {
    ghost use Rattle.byzlab.specs.Failures.{explained_text};

    ghost output = { λ explained. explained_text (D.output explained.lines) explained.kind };

    fn fmt<W: fmt::Write>(&self, f: &mut fmt::Formatter<W>) -> fmt::Result {
        self.lines.fmt(f)?;
        match self.kind {
            Some(kind) => write!(f, "\nerror: {}", reason(kind)),
            None => Ok(()),
        }
    }
}

impl<D: Display + Drop> Explained<D> {
    ghost use Rattle.std.specs.Prelude.{◌≡◌, None, if◌then◌else◌};
    ghost use Rattle.cli_tasks.specs.Whys.{is_explained};

    /// Returns the lines together with the kind of error, which is left out if the task does not explain what it
    /// rejects.
    pub fn by(task: &Task, lines: D, kind: Option<ErrorKind>) -> Explained<D>
        ensures lines { result.lines ≡ lines }
        ensures kind { result.kind ≡ (if is_explained task.now then kind else None) }
    {
        let kind = if is_explained(task) { kind } else { None };
        Explained { lines, kind }
    }
}

/// The line `fault write NAME`, that the file with this name was not written.
#[derive(Drop)]
pub struct Unwritten {
    pub name: String,
}

impl Display for Unwritten {
    ghost use Rattle.std.specs.Prelude.{Some, codes, string_bytes};
    ghost use Rattle.std.specs.Fmt.{◌++?◌};
    ghost use Rattle.streams.specs.Names.{shown};

    ghost output = { λ unwritten. Some (codes "fault write ") ++? shown (string_bytes unwritten.name) };

    fn fmt<W: fmt::Write>(&self, f: &mut fmt::Formatter<W>) -> fmt::Result {
        write!(f, "fault write {}", FileName(self.name.as_str()))
    }
}

/// Returns what is reported about a file with this name if it could not be opened or read because of `error`.
///
/// # Errors
///
/// Fails with `AllocError` if the error is that memory ran out.
pub fn unread<'a>(
    task: &Task,
    name: &'a str,
    error: io::Error,
) -> Result<Explained<TaskFailure<'a>>, AllocError>
    ensures line { IfOk result (λ told. told.lines ≡ unreadable name.entry) }
    ensures why { IfOk result (λ told. told.kind ≡ (if is_explained task.now then Some (error_kind error) else None)) }
    ensures memory { IsErr result ↔ (error_kind error ≡ ErrorKind.OutOfMemory) }
{
    let kind = error.kind();
    if kind == ErrorKind::OutOfMemory {
        return Err(AllocError);
    }
    Ok(Explained::by(task, TaskFailure::Read(name), Some(kind)))
}

/// Returns the sentence for an output that failed with an error of this kind. `named` says whether the command line
/// names the file of the output.
fn why(named: bool, kind: ErrorKind) -> &'static str
    ensures { result.now ≡ why_text named kind }
{
    match kind {
        ErrorKind::PermissionDenied if named => {
            "the system does not permit it, or permits no new file in its folder"
        }
        kind => reason(kind),
    }
}

/// Returns the sentence for an output that failed. `status` is the exit status of its task. Returns `None` if this is
/// not 1, if the output did not fail, or if the task neither names its output nor explains what it rejects.
pub fn why_unwritten(status: u8, task: &Task, fault: Option<ErrorKind>) -> Option<&'static str>
    ensures { IsWhy status (is_some (target_of task.now) || is_explained task.now) (is_some (target_of task.now)) fault
        (option_map (λ why. why.now) result) }
{
    let named = task.target().is_some();
    match fault {
        Some(kind) if status == 1 && (named || is_explained(task)) => Some(why(named, kind)),
        _ => None,
    }
}
