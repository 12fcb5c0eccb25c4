//! Reads schedules from their text.
ghost use Rattle.std.specs.Prelude.{◌≡◌, ◌≢◌, ◌≤◌, ◌<◌, ◌^◌, ◌++◌, ◌∷◌, [], IfOk, IfErr, IfSome, Ok, Err, None, Some};
ghost use Rattle.text.specs.Parts.{pieces, lines_of};
ghost use Rattle.trace.specs.declared.fault.TraceError.TheVariants.{Memory};
ghost use Rattle.trace.specs.Schedules.{star, number_within, entry_of, entries_told, line_told, schedule_lines_told, schedule_told};

use crate::fault::{TraceError, TraceFault};
use std::alloc::{AllocError, Global};
use text::{SPACE, Stop, decimal, line, piece};
use world::{Repeat, Schedule, ScheduleLine};

const STAR: Stop = Stop::Byte(b'*');

/// The greatest length of a schedule's text: 1 MiB.
pub const MOST_SCHEDULE_BYTES: usize = 1_048_576;

/// The greatest number of lines in a schedule, which has one line for each round.
const MOST_LINES: u64 = 5;

/// Returns the number that `part` spells in decimal, or `None` if it is not a number from `least` to `most`.
#[tactic(auto, unfolding(crate::specs::Schedules::number_within))]
pub(crate) fn number_within(least: u16, most: u16, part: &[u8]) -> Option<u16>
    ensures value { result ≡ number_within least most part.now }
    ensures bound { IfSome result (λ n. n ≤ most) }
{
    let number = decimal(part)?;
    if (least as u128) <= number && number <= (most as u128) {
        Some(number as u16)
    } else {
        None
    }
}

/// Parses an entry of a schedule, `G` or `G*K`: general G (0 to 12), K times (1 to 4096) or once. Returns `None` if
/// `part` is neither.
#[tactic(auto, using(crate::proofs::EntryLemmas::entry_too_long))]
fn entry(part: &[u8]) -> Option<Repeat>
    ensures { result ≡ entry_of (pieces star part.now) }
{
    let (general, rest) = piece(STAR, part);
    let Some(rest) = rest else {
        let general = number_within(0, 12, general)? as u8;
        return Some(Repeat { general, times: 1 });
    };
    let (times, None) = piece(STAR, rest) else {
        return None;
    };
    let general = number_within(0, 12, general)? as u8;
    let times = number_within(1, 4096, times)?;
    Some(Repeat { general, times })
}

/// Parses a line of a schedule, which is a list of entries `G` or `G*K` separated by single spaces. An empty line has
/// no entries. Returns `None` if the line is not such a list.
///
/// # Errors
///
/// `AllocError` if an allocation fails.
fn entries(alloc: Global, line: &[u8]) -> Result<Option<ScheduleLine>, AllocError>
    ensures { IfOk result (λ told. told ≡ line_told line.now) }
{
    let mut repeats = Vec::new(alloc);
    if line.is_empty() {
        return Ok(Some(ScheduleLine { repeats }));
    }
    let mut rest = Some(line);
    while let Some(parts) = rest {
        let (part, behind) = piece(SPACE, parts);
        let Some(repeat) = entry(part) else {
            return Ok(None);
        };
        repeats.push(repeat)?;
        rest = behind;
    }
    Ok(Some(ScheduleLine { repeats }))
}

/// Reads a schedule from its text, which has one line for each round. A line is a list of entries `G` or `G*K`,
/// separated by spaces.
///
/// # Errors
///
/// `At` with `Line` and the first line that is not a list of entries, or line 6 if there is one. `At` with `Line` and
/// line 1 if the text has more than 1,048,576 bytes. `Memory` if an allocation fails.
#[tactic(auto, unfolding(crate::specs::Schedules::schedule_told))]
pub fn read_schedule(alloc: Global, text: &str) -> Result<Schedule, TraceError>
    ensures told { IfOk result (λ s. schedule_told text.now ≡ Ok s) }
    ensures fault { IfErr result (λ e. e ≢ Memory → schedule_told text.now ≡ Err e) }
{
    if text.len() > MOST_SCHEDULE_BYTES {
        return Err(TraceError::At(TraceFault::Line, 1));
    }
    let mut lines = Vec::new(alloc);
    let mut rest = text.as_bytes();
    let mut number = 1;
    while let Some((next, behind)) = line(rest) {
        let Some(entries) = entries(alloc, next)? else {
            return Err(TraceError::At(TraceFault::Line, number));
        };
        if number > MOST_LINES {
            return Err(TraceError::At(TraceFault::Line, number));
        }
        lines.push(entries)?;
        rest = behind;
        number += 1;
    }
    Ok(Schedule { lines })
}
