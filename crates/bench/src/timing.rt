//! Measures times and prints them.

use anyhow::Result;
use std::rt::Clock;
use std::time::Instant;

/// How often each work is timed. The median of these times is reported.
pub const TIMES: usize = 25;

/// Returns the time since `start` in nanoseconds.
pub fn nanoseconds<C: Clock>(clock: &C, start: Instant) -> Result<u64> {
    Ok(u64::try_from(start.elapsed(clock)?.as_nanos())?)
}

/// Prints the description `what` on standard output, and the time in nanoseconds on standard error.
pub fn report_time<R: Print + Eprint>(rt: &R, what: &str, time: u64) -> Result<()> {
    println!(rt; "{what}")?;
    eprintln!(rt; "{what}: {time} ns")?;
    Ok(())
}
