//! Shows the progress of a survey on standard error: as a bar on a terminal, and otherwise as a line each minute. No
//! contract can say what is shown there, and when.
ghost use Rattle.std.specs.Prelude.{◌≡◌};

use std::alloc::{AllocError, Global};
use std::io::{IsTerminal, Write};
use std::time::Instant;

/// The width of the progress bar, in characters.
const SIGNS: u64 = 20;

/// The progress of a survey of the seeds from `first` to `last`, which is shown on standard error. On a terminal it is
/// one line that is overwritten. Elsewhere a new line is written once a minute. To continue an interrupted survey, give
/// `--seeds` from the seed after the last one shown.
#[derive(Drop)]
pub struct SurveyProgress<'a> {
    rt: &'a HostRuntime,
    first: u64,
    last: u64,
    /// The time at which the survey began, or `None` if the clock cannot be read.
    start: Option<Instant>,
    /// How many full minutes the survey had taken when the clock was last read.
    minutes: u64,
}

impl<'a> SurveyProgress<'a> {
    /// Starts to measure a survey of the seeds from `first` to `last`, both included.
    pub fn of(rt: &'a HostRuntime, first: u64, last: u64) -> SurveyProgress<'a>
        ensures first { result.first ≡ first }
        ensures last { result.last ≡ last }
        ensures minutes { result.minutes ≡ 0 }
    {
        SurveyProgress {
            rt,
            first,
            last,
            start: Instant::now(rt).ok(),
            minutes: 0,
        }
    }

    /// Shows that the campaigns of all seeds from the first to `done` have been played, and that `broken` of them are
    /// broken.
    ///
    /// # Errors
    ///
    /// Fails with `AllocError` if memory runs out.
    pub fn tell(&mut self, done: u64, broken: u64) -> Result<(), AllocError>
        ensures first { self.new.first ≡ self.old.first }
        ensures last { self.new.last ≡ self.old.last }
    {
        let mut stderr = self.rt.stderr();
        let (first, last) = (self.first, self.last);
        if !stderr.is_terminal() {
            if self.is_time() {
                let _ = writeln!(
                    stderr,
                    "seeds {first}..{done} of {first}..{last} done, {broken} broken"
                );
            }
            return Ok(());
        }
        let count = done.saturating_sub(first).saturating_add(1);
        let whole = last.saturating_sub(first).saturating_add(1);
        let bar = bar(self.rt.alloc(), count, whole)?;
        let _ = write!(
            stderr,
            "\r[{bar}] seeds {first}..{done} of {first}..{last} done, {broken} broken"
        );
        if done == last {
            let _ = writeln!(stderr, "");
        }
        let _ = stderr.flush();
        Ok(())
    }

    /// Reads the clock and stores the time. Returns whether a further full minute has passed since the clock was last
    /// read.
    fn is_time(&mut self) -> bool
        ensures first { self.new.first ≡ self.old.first }
        ensures last { self.new.last ≡ self.old.last }
    {
        let Some(start) = self.start else {
            return false;
        };
        let Ok(gone) = start.elapsed(self.rt) else {
            return false;
        };
        let minutes = gone.as_secs() / 60;
        let is_time = self.minutes < minutes;
        self.minutes = minutes;
        is_time
    }
}

/// Returns the text of a progress bar of 20 characters. The filled share is `done / whole`.
///
/// # Errors
///
/// Fails with `AllocError` if memory runs out.
fn bar(alloc: Global, done: u64, whole: u64) -> Result<String, AllocError> {
    let mut out = String::new(alloc);
    let full = u128::from(done) * u128::from(SIGNS) / u128::from(whole.max(1));
    for sign in 0..SIGNS {
        out.push_str(if u128::from(sign) < full { "#" } else { " " })?;
    }
    Ok(out)
}
