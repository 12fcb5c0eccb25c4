//! The progress line of a call with several files. It shows on a terminal how many files are done.
ghost use Rattle.std.specs.Prelude.{◌≡◌, ◌≤◌, IsOk, None};

use std::io::{self, IsTerminal, Write};
use std::time::Instant;

/// Blanks that are as wide as the longest progress line.
const BLANK: &str = "                                                  ";

/// The progress of a call with several files. If standard error is a terminal, it is shown there after the first
/// second, on one line that is overwritten.
#[derive(Drop)]
pub struct ProgressLine<'a> {
    rt: &'a HostRuntime,
    /// When the call began, or `None` if no progress is shown.
    start: Option<Instant>,
    all: usize,
}

impl<'a> ProgressLine<'a> {
    /// Returns the progress line of a call with `all` files, and starts its clock. The line is never shown if there is
    /// at most one file.
    pub fn of(rt: &'a HostRuntime, all: usize) -> ProgressLine<'a>
        ensures all { result.all ≡ all }
        ensures alone { all ≤ 1 → result.start ≡ None }
    {
        let is_watched = 1 < all && rt.stderr().is_terminal();
        let start = if is_watched {
            Instant::now(rt).ok()
        } else {
            None
        };
        ProgressLine { rt, start, all }
    }

    /// Clears the progress line, so that a shorter line can be written there. Does nothing in the first second, or if
    /// no progress is shown.
    ///
    /// # Errors
    ///
    /// Fails if the clock cannot be read, or if standard error cannot be written.
    pub fn clear(&self) -> io::Result<()>
        ensures { self.now.start ≡ None → IsOk result }
    {
        let Some(start) = self.start else {
            return Ok(());
        };
        if start.elapsed(self.rt)?.as_secs() < 1 {
            return Ok(());
        }
        let mut stderr = self.rt.stderr();
        write!(stderr, "\r{BLANK}\r")?;
        stderr.flush()
    }

    /// Shows how many files are done. Does nothing in the first second, or if no progress is shown.
    ///
    /// # Errors
    ///
    /// Fails if the clock cannot be read, or if standard error cannot be written.
    pub fn tell(&self, done: usize) -> io::Result<()>
        ensures { self.now.start ≡ None → IsOk result }
    {
        let Some(start) = self.start else {
            return Ok(());
        };
        if start.elapsed(self.rt)?.as_secs() < 1 {
            return Ok(());
        }
        let all = self.all;
        let end = if done == all { '\n' } else { '\r' };
        let mut stderr = self.rt.stderr();
        write!(stderr, "\r{done} of {all} files{end}")?;
        stderr.flush()
    }
}
