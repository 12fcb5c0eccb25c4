//! Reports why the program or a request cannot go on: the command line is not UTF-8, help cannot be printed, or memory
//! ran out.
ghost use Rattle.std.specs.Prelude.{◌≡◌};
ghost use Rattle.byzlab.specs.Failures.{failure_of};

use crate::noted_line::Noted;
use crate::rejection::note;
use std::io::{ErrorKind, Stderr};

/// A record of the report that the program or a request cannot go on. Only `lacking` makes this value.
#[derive(Drop)]
pub struct Stopped {
    /// The line that was reported.
    told: Noted<&'static str, Stderr>,
    /// The exit status: 1, 2 or 3.
    status: u8,
}

impl Stopped {
    /// Returns the exit status: 1, 2 or 3.
    pub fn status(&self) -> u8
        ensures { result ≡ self.now.status }
    {
        self.status
    }
}

/// Reports on standard error why the program or a request cannot go on after an error of this kind.
pub fn lacking(rt: &HostRuntime, kind: ErrorKind) -> Stopped
    ensures { (result.told.line.now, result.status) ≡ failure_of kind }
{
    let (line, status) = failure(kind);
    Stopped {
        told: note(rt, line),
        status,
    }
}

/// Returns the line and the exit status for an error of this kind: memory ran out (status 3), the command line is not
/// UTF-8 (2), or help cannot be printed (1).
fn failure(kind: ErrorKind) -> (&'static str, u8)
    ensures { ((result.0).now, result.1) ≡ failure_of kind }
{
    match kind {
        ErrorKind::OutOfMemory => ("out of memory", 3),
        ErrorKind::InvalidData => ("error: the words are not UTF-8", 2),
        _ => ("fault write", 1),
    }
}
