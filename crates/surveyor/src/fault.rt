//! Why a survey cannot be finished, with the line that is then reported and the exit status.
ghost use Rattle.std.specs.Prelude.{◌≡◌, ◌⊎◌, IfSome};
ghost use Rattle.std.specs.Fmt.{with_newline};
ghost use Rattle.std.specs.Io.KnownBytes.{Appends};
ghost use Rattle.surveyor.specs.Statuses.{fault_text, status_of};

use scenario::ScenarioError;
use std::alloc::{AllocError, AllocFailed};
use std::fmt;
use std::io::{self, ErrorKind};
use streams::{FileName, Output};

/// Why a task of `./byzlab survey` cannot be finished. Its text is the line that is reported.
#[derive(Drop)]
pub enum SurveyFailure {
    /// The file with this name cannot be read.
    Unread(String),
    /// The file with this name is not UTF-8 text.
    NotText(String),
    /// The file with this name cannot be written. If there is no name, standard output cannot be written.
    Unwritten(Option<String>),
    /// A program, or a line of a file that `--sum` reads, is rejected. The text is the line that says why.
    Refused(String),
    /// A campaign is rejected with this error. Its seed is one of those from the first number to the second, both
    /// included.
    Campaign(u64, u64, ScenarioError),
    /// The command line is not UTF-8.
    Words,
    /// Memory ran out.
    Memory,
}

impl fmt::Display for SurveyFailure {
    ghost use Rattle.surveyor.specs.Statuses.{fault_text};

    ghost output = { fault_text };

    fn fmt<W: fmt::Write>(&self, f: &mut fmt::Formatter<W>) -> fmt::Result {
        match self {
            SurveyFailure::Unread(name) => write!(f, "fault read {}", FileName(name.as_str())),
            SurveyFailure::NotText(name) => write!(f, "fault text {}", FileName(name.as_str())),
            SurveyFailure::Unwritten(Some(name)) => write!(
                f,
                "fault write {}",
                FileName(name.as_str())
            ),
            SurveyFailure::Unwritten(None) => f.write_str("fault write"),
            SurveyFailure::Refused(line) => f.write_str(line.as_str()),
            SurveyFailure::Campaign(first, last, error) => {
                write!(f, "refused {error} (for seeds {first}..{last})")
            }
            SurveyFailure::Words => f.write_str("error: the words are not UTF-8"),
            SurveyFailure::Memory => f.write_str("out of memory"),
        }
    }
}

impl From<AllocError> for SurveyFailure {
    ghost use Rattle.std.specs.Prelude.{◌≡◌};
    ghost use Rattle.surveyor.specs.declared.fault.SurveyFailure.TheVariants.{Memory};

    ghost from_gives = { λ _ fault. fault ≡ Memory };

    fn from(_error: AllocError) -> SurveyFailure {
        SurveyFailure::Memory
    }
}

impl<T: Drop> From<AllocFailed<T>> for SurveyFailure {
    ghost use Rattle.std.specs.Prelude.{◌≡◌};
    ghost use Rattle.surveyor.specs.declared.fault.SurveyFailure.TheVariants.{Memory};

    ghost from_gives = { λ _ fault. fault ≡ Memory };

    fn from(_error: AllocFailed<T>) -> SurveyFailure {
        SurveyFailure::Memory
    }
}

impl From<io::Error> for SurveyFailure {
    ghost use Rattle.std.specs.Prelude.{◌≡◌, ◌⊎◌};
    ghost use Rattle.std.specs.IoError.{error_kind};
    ghost use Rattle.surveyor.specs.Faults.{IsUnprinted, failure_of};
    ghost use Rattle.surveyor.specs.declared.fault.SurveyFailure.TheVariants.{Words as NotTextual};

    ghost from_gives = { λ error fault. (fault ≡ failure_of (error_kind error)) × ((fault ≡ NotTextual) ⊎ IsUnprinted fault) };

    fn from(error: io::Error) -> SurveyFailure {
        match error.kind() {
            ErrorKind::OutOfMemory => SurveyFailure::Memory,
            ErrorKind::InvalidData => SurveyFailure::Words,
            _ => SurveyFailure::Unwritten(None),
        }
    }
}

/// Returns the exit status of the program for a failure: 2 if the command line is not UTF-8, 3 if memory ran out, and
/// otherwise 1.
fn status_of(fault: &SurveyFailure) -> u8
    ensures { result ≡ status_of fault.now }
{
    match fault {
        SurveyFailure::Unread(_)
        | SurveyFailure::NotText(_)
        | SurveyFailure::Unwritten(_)
        | SurveyFailure::Refused(_)
        | SurveyFailure::Campaign(_, _, _) => 1,
        SurveyFailure::Words => 2,
        SurveyFailure::Memory => 3,
    }
}

/// Reports the failure on `error`, which is standard error. Returns the exit status of the program, 1 to 3.
pub fn tell<F: Output>(fault: &SurveyFailure, error: &mut F) -> u8
    ensures status { result ≡ status_of fault.now }
    ensures told { F.fails error.old ⊎ IfSome (with_newline (fault_text fault.now))
        (Appends (F.contents error.old) (F.contents error.new)) }
{
    let _ = error.tell(fault);
    status_of(fault)
}
