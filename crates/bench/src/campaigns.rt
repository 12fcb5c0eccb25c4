//! Times campaigns: from a scenario to its chronicle, from the scenario's text to the chronicle's text, audits, and
//! the slowest close of a round with signed messages.

use crate::chronicles::{MessageKind, audited, freely, scenario_of, told_freely};
use crate::task::{Workload, report_task};
use crate::texts::{COLLUDING, idle, signing};
use crate::timing::nanoseconds;
use anyhow::{Result, bail};
use round::Scenario;
use signed::{SignedWorld, play_signed};
use std::alloc::Global;
use std::rt::Clock;
use std::str;
use std::sync::Wait;
use std::thread::Threads;
use std::time::Instant;
use world::{Event, EventError, play};

/// Returns how long it takes to play a campaign once, from its scenario to its chronicle, in nanoseconds.
pub fn play_once<C: Clock>(
    alloc: Global,
    clock: &C,
    messages: MessageKind,
    scenario: &Scenario,
) -> Result<u64> {
    let copy = scenario.copy(alloc)?;
    match messages {
        MessageKind::Oral => play_oral(alloc, clock, copy),
        MessageKind::Signed => sign_once(alloc, clock, copy),
    }
}

/// Returns how long it takes to play a campaign with oral messages once, from its scenario to its chronicle, in
/// nanoseconds.
fn play_oral<C: Clock>(alloc: Global, clock: &C, scenario: Scenario) -> Result<u64> {
    let schedule = freely(alloc);
    let start = Instant::now(clock)?;
    let chronicle = play(alloc, scenario, &schedule);
    let time = nanoseconds(clock, start);
    match chronicle {
        Ok(_) => time,
        Err(_) => bail!("out of memory"),
    }
}

/// Returns how long it takes to play a campaign with signed messages once, from its scenario to its chronicle, in
/// nanoseconds.
fn sign_once<C: Clock>(alloc: Global, clock: &C, scenario: Scenario) -> Result<u64> {
    let schedule = freely(alloc);
    let start = Instant::now(clock)?;
    let chronicle = play_signed(alloc, scenario, &schedule);
    let time = nanoseconds(clock, start);
    match chronicle {
        Ok(_) => time,
        Err(_) => bail!("out of memory"),
    }
}

/// Reads a scenario from its text, plays it, and returns the text of its chronicle.
fn chronicle_of(alloc: Global, messages: MessageKind, text: &str) -> Result<Vec<u8>> {
    told_freely(alloc, messages, scenario_of(alloc, messages, text)?)
}

/// Returns how long it takes to play a campaign once, from the text of its scenario to the text of its chronicle, in
/// nanoseconds.
pub fn tell_once<C: Clock>(
    alloc: Global,
    clock: &C,
    messages: MessageKind,
    text: &str,
) -> Result<u64> {
    let start = Instant::now(clock)?;
    let told = chronicle_of(alloc, messages, text);
    let time = nanoseconds(clock, start);
    match told {
        Ok(_) => time,
        Err(error) => Err(error),
    }
}

/// Returns how long it takes to audit the text of a scenario's chronicle once, in nanoseconds. Fails if the text is
/// rejected.
pub fn audit_once<C: Clock>(
    alloc: Global,
    clock: &C,
    messages: MessageKind,
    scenario: &Scenario,
    text: &str,
) -> Result<u64> {
    let start = Instant::now(clock)?;
    let verdict = audited(alloc, messages, scenario, text);
    let time = nanoseconds(clock, start);
    match verdict {
        Ok(_) => time,
        Err(_) => bail!("an audit has found a fault"),
    }
}

/// The events of a round before its close in the signed campaign of thirteen generals, each with how often it
/// happens.
const TURNS: &[(Event, u32)] = &[
    (Event::Post(1), 1),
    (Event::Post(2), 1),
    (Event::Post(3), 1),
    (Event::Post(4), 1),
    (Event::Post(5), 1),
    (Event::Post(6), 1),
    (Event::Post(7), 1),
    (Event::Post(8), 1),
    (Event::Post(9), 1),
    (Event::Tick(0), 80),
    (Event::Tick(10), 80),
    (Event::Tick(11), 80),
    (Event::Tick(12), 80),
];

/// Lets all thirteen generals of the signed campaign finish in the open round.
fn act(world: &mut SignedWorld) -> Result<(), EventError> {
    for (event, times) in TURNS {
        for _ in 0..*times {
            world.apply(*event)?;
        }
    }
    Ok(())
}

/// Closes a round, and returns how long this takes in nanoseconds.
fn close<C: Clock>(clock: &C, world: &mut SignedWorld) -> Result<u64> {
    let start = Instant::now(clock)?;
    world.apply(Event::Close)?;
    nanoseconds(clock, start)
}

/// Plays the `bound + 1` rounds of a campaign, and returns how long the slowest close takes in nanoseconds.
fn dearest<C: Clock>(clock: &C, world: &mut SignedWorld, bound: u8) -> Result<u64> {
    let mut dearest = 0;
    for _ in 0..=bound {
        act(world)?;
        dearest = close(clock, world)?.max(dearest);
    }
    Ok(dearest)
}

/// Plays a campaign with signed messages, and returns how long its slowest close takes in nanoseconds.
pub fn close_once<C: Clock>(alloc: Global, clock: &C, scenario: &Scenario) -> Result<u64> {
    let mut world = SignedWorld::open(alloc, scenario.copy(alloc)?)?;
    dearest(clock, &mut world, scenario.bound())
}

/// The descriptions that are printed for what is timed with one campaign.
#[derive(Clone, Copy)]
struct Names {
    play: &'static str,
    tell: &'static str,
    audit: &'static str,
}

/// The descriptions for the campaign of seven generals, two of whom collude.
const TWO_OF_SEVEN: Names = Names {
    play: "play, two colluding traitors of seven",
    tell: "from text to text, two colluding traitors of seven",
    audit: "audit, two colluding traitors of seven",
};

/// The descriptions for the campaign of thirteen generals, four of whom have long programs.
const FOUR_LONG: Names = Names {
    play: "play, four long traitors of thirteen",
    tell: "from text to text, four long traitors of thirteen",
    audit: "audit, four long traitors of thirteen",
};

/// The descriptions for the campaign of thirteen generals, four of whom sign orders and pass chains on.
const SIGNED: Names = Names {
    play: "play, signed, four traitors of thirteen",
    tell: "from text to text, signed, four traitors of thirteen",
    audit: "audit, signed, four traitors of thirteen",
};

/// Times all campaigns, and prints descriptions and times.
pub fn report_campaigns<R: Print + Eprint + Clock + Threads + Wait + Sync + AllocGlobal>(
    rt: &R,
) -> Result<()> {
    report_oral(rt, COLLUDING, &TWO_OF_SEVEN)?;
    let text = idle(rt.alloc())?;
    report_oral(rt, text.as_str(), &FOUR_LONG)?;
    let text = signing(rt.alloc())?;
    report_signed(rt, text.as_str())
}

/// Times a campaign with oral messages, whose scenario is `text`.
fn report_oral<R: Print + Eprint + Clock + Threads + Wait + Sync + AllocGlobal>(
    rt: &R,
    text: &str,
    names: &Names,
) -> Result<()> {
    let scenario = scenario_of(rt.alloc(), MessageKind::Oral, text)?;
    report_task(
        rt,
        names.play,
        &Workload::Play(MessageKind::Oral, &scenario),
    )?;
    report_texts(rt, MessageKind::Oral, scenario, text, names)
}

/// Times a campaign with signed messages, whose scenario is `text`.
fn report_signed<R: Print + Eprint + Clock + Threads + Wait + Sync + AllocGlobal>(
    rt: &R,
    text: &str,
) -> Result<()> {
    let scenario = scenario_of(rt.alloc(), MessageKind::Signed, text)?;
    report_task(
        rt,
        SIGNED.play,
        &Workload::Play(MessageKind::Signed, &scenario),
    )?;
    let what = "dearest close, signed, four traitors of thirteen";
    report_task(rt, what, &Workload::Close(&scenario))?;
    report_texts(rt, MessageKind::Signed, scenario, text, &SIGNED)
}

/// Times a campaign from the text of its scenario to the text of its chronicle, and times the audit of that text.
fn report_texts<R: Print + Eprint + Clock + Threads + Wait + Sync + AllocGlobal>(
    rt: &R,
    messages: MessageKind,
    scenario: Scenario,
    text: &str,
    names: &Names,
) -> Result<()> {
    report_task(rt, names.tell, &Workload::Tell(messages, text))?;
    let chronicle = chronicle_of(rt.alloc(), messages, text)?;
    let told = str::from_utf8(chronicle.as_slice())?;
    report_task(rt, names.audit, &Workload::Audit(messages, &scenario, told))
}
