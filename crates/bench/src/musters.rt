//! Times campaigns with a thread for each general and, for comparison, the same number of threads that do nothing.

use crate::chronicles::{MessageKind, scenario_of};
use crate::task::{Workload, report_task};
use crate::texts::{COLLUDING, idle, signing};
use crate::timing::nanoseconds;
use anyhow::{Result, bail};
use round::Scenario;
use signed_threads::muster_signed;
use std::rt::Clock;
use std::sync::Wait;
use std::thread;
use std::thread::Threads;
use std::time::Instant;
use threads::{Open, muster};

/// Plays a campaign once, with a thread for each general, and returns how long this takes in nanoseconds. Fails if
/// the campaign cannot be played, the clock cannot be read, or memory runs out.
pub fn muster_once<R: Clock + Threads + Wait + Sync + AllocGlobal>(
    rt: &R,
    messages: MessageKind,
    scenario: &Scenario,
) -> Result<u64> {
    let copy = scenario.copy(rt.alloc())?;
    match messages {
        MessageKind::Oral => oral_muster_once(rt, copy),
        MessageKind::Signed => signed_muster_once(rt, copy),
    }
}

/// Plays an oral campaign once, with a thread for each general, and returns how long this takes in nanoseconds.
fn oral_muster_once<R: Clock + Threads + Wait + Sync + AllocGlobal>(
    rt: &R,
    scenario: Scenario,
) -> Result<u64> {
    let start = Instant::now(rt)?;
    let chronicle = muster(rt, rt.alloc(), scenario, &Open);
    let time = nanoseconds(rt, start);
    match chronicle {
        Ok(_) => time,
        Err(_) => bail!("a muster is refused"),
    }
}

/// Plays a signed campaign once, with a thread for each general, and returns how long this takes in nanoseconds.
fn signed_muster_once<R: Clock + Threads + Wait + Sync + AllocGlobal>(
    rt: &R,
    scenario: Scenario,
) -> Result<u64> {
    let start = Instant::now(rt)?;
    let chronicle = muster_signed(rt, rt.alloc(), scenario, &Open);
    let time = nanoseconds(rt, start);
    match chronicle {
        Ok(_) => time,
        Err(_) => bail!("a signed muster is refused"),
    }
}

/// Starts `generals` threads that do nothing and waits for them, once in each of `rounds` rounds. Returns how long
/// this takes in nanoseconds, and adds the number of started threads to `count`. The time is for comparison with
/// `muster_once`, where each general keeps one thread through all rounds. Fails if the clock cannot be read.
pub fn start_once<R: Clock + Threads + Wait + Sync>(
    rt: &R,
    generals: u8,
    rounds: u8,
    count: &mut u64,
) -> Result<u64> {
    let start = Instant::now(rt)?;
    for _ in 0..rounds {
        *count = count.wrapping_add(started_at_once(rt, generals));
    }
    nanoseconds(rt, start)
}

/// Starts `wanted` threads that do nothing and waits for them. Returns how many could be started.
fn started_at_once<R: Threads + Wait + Sync>(rt: &R, wanted: u8) -> u64 {
    thread::scope(thread::scope_env(), rt, |scope| -> u64 {
        let mut count = 0u64;
        for _ in 0..wanted {
            let builder = thread::Builder::new().stack_size(1 << 20);
            if builder.spawn_scoped(scope, move || 1u8).is_ok() {
                count = count.wrapping_add(1);
            }
        }
        count
    })
}

/// Times campaigns that are played with threads. In one, four of thirteen generals take 4,096 steps in each of five
/// rounds. Another has signed messages, which four of thirteen generals sign and pass on. In the last, two of seven
/// generals share the board in three rounds.
pub fn report_musters<R: Print + Eprint + Clock + Threads + Wait + Sync + AllocGlobal>(
    rt: &R,
) -> Result<()> {
    let text = idle(rt.alloc())?;
    let what = "muster, 13 generals, four idle traitors: 65 letters";
    report_muster(rt, MessageKind::Oral, text.as_str(), what)?;
    let what = "threads alone, 13 generals, four idle traitors: 65 letters";
    report_task(rt, what, &Workload::Threads(13, 5))?;
    let text = signing(rt.alloc())?;
    let what = "muster, signed, 13 generals, four traitors: 65 letters";
    report_muster(rt, MessageKind::Signed, text.as_str(), what)?;
    report_musters_of_seven(rt)
}

/// Times the campaign of seven generals when it is played with threads, and the same number of idle threads.
fn report_musters_of_seven<R: Print + Eprint + Clock + Threads + Wait + Sync + AllocGlobal>(
    rt: &R,
) -> Result<()> {
    let what = "muster, 7 generals, two colluders: 21 letters";
    report_muster(rt, MessageKind::Oral, COLLUDING, what)?;
    let what = "threads alone, 7 generals, two colluders: 21 letters";
    report_task(rt, what, &Workload::Threads(7, 3))
}

/// Times the campaign whose scenario is `text` when it is played with threads.
fn report_muster<R: Print + Eprint + Clock + Threads + Wait + Sync + AllocGlobal>(
    rt: &R,
    messages: MessageKind,
    text: &str,
    what: &str,
) -> Result<()> {
    let scenario = scenario_of(rt.alloc(), messages, text)?;
    report_task(rt, what, &Workload::Muster(messages, &scenario))
}
