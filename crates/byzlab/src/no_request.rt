//! What is printed if words of the command line ask for no task: help, or what is wrong with the words.
ghost use Rattle.std.specs.Prelude.{◌≡◌, IfOk};
ghost use Rattle.byzlab.specs.Failures.{IsUnasked, IsUnaskedBy, error_of};

use crate::noted_line::Noted;
use crate::rejection::note;
use clap::Error;
use cli_words::TaskError;
use std::io::{self, ErrorKind, Stderr};
use streams::{Escaped, Kept};

/// Words that ask for no task, after help was printed or the reason was reported. Only `Unasked::told` makes this
/// value.
#[derive(Drop)]
pub struct Unasked {
    /// Why the words ask for no task.
    why: Why,
    /// The exit status: 2, or 0 if the words ask for help or for the version.
    status: u8,
}

/// Why words ask for no task, after this was reported.
#[derive(Drop)]
pub enum Why {
    /// `clap`, the parser of the command line, rejects the words, or they ask for help. This error was printed.
    Printed(Error),
    /// `clap`, the parser of the command line, accepts the words, but they ask for no task. This line was reported.
    Noted(Noted<TaskError, Stderr>),
}

impl Unasked {
    /// Reports why words ask for no task, or prints the help that they ask for.
    ///
    /// # Errors
    ///
    /// Fails if memory runs out, or if help cannot be printed.
    pub fn told(rt: &HostRuntime, error: TaskError) -> io::Result<Unasked>
        ensures error { IfOk result (λ unasked. error_of unasked.why ≡ error) }
        ensures status { IfOk result (λ unasked. IsUnasked error unasked.status) }
    {
        match error {
            TaskError::Words(refusal) => {
                let status = print(rt, &refusal)?;
                let why = Why::Printed(refusal);
                Ok(Unasked { why, status })
            }
            TaskError::Misuse(misuse) => {
                let why = Why::Noted(note(rt, TaskError::Misuse(misuse)));
                Ok(Unasked { why, status: 2 })
            }
            TaskError::Memory => Err(io::Error::from(ErrorKind::OutOfMemory)),
        }
    }

    /// Returns the exit status: 2, or 0 if the words ask for help or for the version.
    pub fn status(&self) -> u8
        ensures { result ≡ self.now.status }
    {
        self.status
    }
}

/// Prints why `clap`, the parser of the command line, rejects the words, or prints help or the version. Returns the
/// exit status: 0 for help and the version, and otherwise 2.
///
/// # Errors
///
/// Fails if help or the version cannot be printed, or if memory runs out.
fn print(rt: &HostRuntime, refusal: &Error) -> io::Result<u8>
    ensures { IfOk result (IsUnaskedBy refusal.now) }
{
    if refusal.use_stderr() {
        print_mistake(rt, refusal)?;
        return Ok(2);
    }
    refusal.print(rt)?;
    Ok(0)
}

/// Prints on standard error why `clap`, the parser of the command line, rejects the words. Their control characters are
/// escaped.
///
/// # Errors
///
/// Fails if memory runs out.
fn print_mistake(rt: &HostRuntime, refusal: &Error) -> io::Result<()> {
    let text = format!(in rt.alloc(); "{refusal}")?;
    let _ = rt.eprint(Escaped {
        text: text.as_str(),
        kept: Kept::LineFeed,
    });
    Ok(())
}
