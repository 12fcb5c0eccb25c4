//! Makes a random schedule from a seed.
ghost use Rattle.std.specs.Prelude.{◌≡◌, ◌<◌, IfOk, Ok, map, string_bytes};
ghost use Rattle.campaign_schedules.specs.Seeded.{after, entry_of, more_times, seeded, words};
ghost use Rattle.campaign_orders.specs.Text.{schedule_text};
ghost use Rattle.trace.specs.Schedules.{schedule_told};

use crate::laws::schedules_are_read;
use campaign_orders::schedule_text;
use rand_chacha::ChaCha8Rng;
use rand_core::SeedableRng;
use rand_core::utils::NextWord;
use std::alloc::{AllocError, Global};
use world::{Repeat, Schedule, ScheduleLine};

/// The number of lines of a random schedule, one for each round. A schedule can have no more.
const LINES: u8 = 5;

/// The number of entries in each line of a random schedule.
const ENTRIES: u8 = 128;

/// Returns how many turns after the first an entry gives a general: `number` modulo 256 if the entry is long, else
/// modulo 4.
fn more_times(is_long: bool, number: u32) -> u16
    ensures times { result ≡ more_times is_long number }
    ensures few { result < 256 }
{
    if is_long {
        (number % 256) as u16
    } else {
        (number % 4) as u16
    }
}

/// Returns the schedule entry that a word of the random generator means: a general from 0 to 12, with 1 to 256 turns.
fn entry_of(word: u32) -> Repeat
    ensures { result ≡ entry_of word }
{
    Repeat {
        general: (word % 13) as u8,
        times: more_times(word / 4096 % 2 == 1, word / 65536) + 1,
    }
}

/// Returns a schedule line with an entry for each of the next 128 words of the random generator.
fn line(alloc: Global, generator: &mut ChaCha8Rng) -> Result<ScheduleLine, AllocError>
    ensures entries { IfOk result (λ line. line ≡ map entry_of (words 128 generator.old)) }
    ensures after { IfOk result (λ _. generator.new ≡ after 128 generator.old) }
{
    let mut repeats = Vec::new(alloc);
    for made in 0..ENTRIES {
        let _ = made;
        let word = generator.next_word();
        repeats.push(entry_of(word))?;
    }
    Ok(ScheduleLine { repeats })
}

/// Returns the random schedule that a seed gives: 5 lines of 128 entries.
fn seeded_schedule(alloc: Global, seed: u64) -> Result<Schedule, AllocError>
    ensures { IfOk result (λ schedule. schedule ≡ seeded seed) }
{
    let mut generator = ChaCha8Rng::seed_from_u64(seed);
    let mut lines = Vec::new(alloc);
    for made in 0..LINES {
        let _ = made;
        let line = line(alloc, &mut generator)?;
        lines.push(line)?;
    }
    Ok(Schedule { lines })
}

/// Returns the text of the random schedule that a seed gives: 5 lines of 128 entries, made from the words of the
/// random generator ChaCha8.
///
/// # Errors
///
/// Fails with `AllocError` if it runs out of memory.
pub fn seeded(alloc: Global, seed: u64) -> Result<String, AllocError>
    ensures text { IfOk result (λ text. string_bytes text ≡ schedule_text (seeded seed)) }
    ensures read { IfOk result (λ text. schedule_told (string_bytes text) ≡ Ok (seeded seed)) }
{
    schedules_are_read();
    let schedule = seeded_schedule(alloc, seed)?;
    schedule_text(alloc, &schedule)
}
