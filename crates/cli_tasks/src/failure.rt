//! Why a task of the command line failed, with the text of its error and its exit status.
ghost use Rattle.std.specs.Prelude.{◌≡◌};
ghost use Rattle.cli_tasks.specs.Faults.{fault_of, fault_of_bytes, status_of};

use crate::hint::Hint;
use crate::refusal::InputRefusal;
use std::fmt;
use streams::FileName;

/// The error of a task that could not be done, for example `fault read FILE`.
#[derive(Drop)]
pub enum TaskFailure<'a> {
    /// The file with this name could not be read.
    Read(&'a str),
    /// The file with this name is not UTF-8 text.
    Text(&'a str),
    /// The input is rejected for this reason. The hint, if there is one, is printed after the error line.
    Refused(InputRefusal, Option<Hint>),
    /// The output could not be written.
    Write,
    /// Memory ran out.
    Memory,
}

impl fmt::Display for TaskFailure<'_> {
    ghost use Rattle.cli_tasks.specs.Faults.{fault_text};

    ghost output = { fault_text };

    fn fmt<W: fmt::Write>(&self, f: &mut fmt::Formatter<W>) -> fmt::Result {
        match self {
            TaskFailure::Read(file) => write!(f, "fault read {}", FileName(file)),
            TaskFailure::Text(file) => write!(f, "fault text {}", FileName(file)),
            TaskFailure::Refused(refusal, None) => write!(f, "refused {refusal}"),
            TaskFailure::Refused(refusal, Some(hint)) => write!(f, "refused {refusal}{hint}"),
            TaskFailure::Write => f.write_str("fault write"),
            TaskFailure::Memory => f.write_str("out of memory"),
        }
    }
}

impl<'a> TaskFailure<'a> {
    /// Returns the failure of a task that rejects the file named `file` for the reason `refusal`, without a hint.
    pub(crate) fn of(refusal: InputRefusal, file: &'a str) -> TaskFailure<'a>
        ensures { result ≡ fault_of refusal file.entry }
    {
        match refusal {
            InputRefusal::Memory => TaskFailure::Memory,
            InputRefusal::NotText => TaskFailure::Text(file),
            refusal => TaskFailure::Refused(refusal, None),
        }
    }

    /// Returns the failure of a task that rejects the file named `file` with the bytes `bytes` for the reason
    /// `refusal`. If the bytes are not bytecode, the hint says what they seem to be. If an ELF object has no code for
    /// the entry function, the hint says why. Otherwise there is no hint.
    pub(crate) fn of_bytes(refusal: InputRefusal, file: &'a str, bytes: &[u8]) -> TaskFailure<'a>
        ensures { result ≡ fault_of_bytes refusal file.entry bytes.now }
    {
        match refusal {
            InputRefusal::Codec(error) => TaskFailure::Refused(
                InputRefusal::Codec(error),
                Hint::of_bytes(bytes),
            ),
            InputRefusal::Object(fault) => {
                TaskFailure::Refused(InputRefusal::Object(fault), Some(Hint::Fault(fault)))
            }
            refusal => TaskFailure::of(refusal, file),
        }
    }

    /// Returns the exit status of a task with this failure: 3 if memory ran out, and 1 for any other failure.
    pub fn status(&self) -> u8
        ensures { result ≡ status_of self.now }
    {
        match self {
            TaskFailure::Memory => 3,
            _ => 1,
        }
    }
}
