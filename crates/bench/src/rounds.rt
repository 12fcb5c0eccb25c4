//! Times how a general's context is computed in a round, and how a round's letters are delivered.
ghost use Rattle.std.specs.Prelude.{◌≡◌, ◌≤◌, suc, List, IfOk, length};
ghost use Rattle.round.specs.Letters.{Letter as LetterSeen};
ghost use Rattle.round.specs.Origin.{AreLettersOf, AreRoundsOf};
ghost use Rattle.round.specs.Told.{WasTold};

use crate::chronicles::{MessageKind, freely, played, scenario_of};
use crate::median::median;
use crate::timing::{TIMES, nanoseconds, report_time};
use anyhow::{Result, bail};
use round::{Letter, Received, Round, Scenario, are_letters_of, are_rounds_of};
use std::alloc::{AllocError, Global};
use std::rt::Clock;
use std::time::Instant;
use world::Chronicle;

/// A campaign of thirteen loyal generals. In its last round, each lieutenant relays 990 labels.
const THIRTEEN: &str = "generals = 13\nbound = 4\ncommander = 0\norder = 1\n";

/// Plays the campaign `THIRTEEN` and returns its chronicle.
fn thirteen(alloc: Global) -> Result<Chronicle> {
    let scenario = scenario_of(alloc, MessageKind::Oral, THIRTEEN)?;
    Ok(played(alloc, &scenario, &freely(alloc))?)
}

/// Times a context and a delivery in the last round of thirteen generals. Prints descriptions on standard output, and
/// times on standard error.
pub fn report_rounds<R: Print + Eprint + Clock + AllocGlobal>(rt: &R) -> Result<()> {
    let alloc = rt.alloc();
    let chronicle = thirteen(alloc)?;
    let scenario = chronicle.scenario();
    let Some((last, before)) = chronicle.letters().split_last() else {
        bail!("a campaign has a round");
    };
    if before.len() > usize::from(scenario.bound()) || !are_rounds_of(scenario, before) {
        bail!("letters of another campaign");
    }
    let mut told = told_by(alloc, scenario, before)?;
    report_context(rt, scenario, &told)?;
    report_delivery(rt, scenario, &mut told, last.letters())
}

/// Delivers the letters of these rounds to the lieutenants, and returns what they received.
fn told_by(alloc: Global, scenario: &Scenario, rounds: &[Round]) -> Result<Received, AllocError>
    requires few { length rounds.now ≤ scenario.now.bound }
    requires letters { AreRoundsOf scenario.now rounds.now }
    ensures { IfOk result (WasTold scenario.now rounds.now) }
{
    let mut told = Received::new(alloc, scenario)?;
    for round in rounds {
        told.deliver(scenario, round.letters());
    }
    Ok(told)
}

fn report_context<R: Print + Eprint + Clock + AllocGlobal>(
    rt: &R,
    scenario: &Scenario,
    told: &Received,
) -> Result<()>
    requires told { (before : List (List LetterSeen)) × WasTold scenario.now before told.now }
    requires left { told.now.rounds ≤ scenario.now.bound }
{
    let time = context_time(rt.alloc(), rt, scenario, told)?;
    let what = "context, the last of thirteen generals in the last round";
    report_time(rt, what, time)
}

/// Returns the median time in nanoseconds that it takes to compute the last general's context.
fn context_time<C: Clock>(
    alloc: Global,
    clock: &C,
    scenario: &Scenario,
    told: &Received,
) -> Result<u64>
    requires told { (before : List (List LetterSeen)) × WasTold scenario.now before told.now }
    requires left { told.now.rounds ≤ scenario.now.bound }
{
    let mut times = Vec::with_capacity(alloc, TIMES)?;
    for _ in 0..TIMES {
        times.push(context_once(alloc, clock, scenario, told)?)?;
    }
    Ok(median(&mut times).unwrap_or(0))
}

/// Returns how long it takes to compute the last general's context once, in nanoseconds.
fn context_once<C: Clock>(
    alloc: Global,
    clock: &C,
    scenario: &Scenario,
    told: &Received,
) -> Result<u64>
    requires told { (before : List (List LetterSeen)) × WasTold scenario.now before told.now }
    requires left { told.now.rounds ≤ scenario.now.bound }
{
    let general = scenario.generals() - 1;
    let start = Instant::now(clock)?;
    let _context = told.context(alloc, scenario, general)?;
    nanoseconds(clock, start)
}

fn report_delivery<R: Print + Eprint + Clock + AllocGlobal>(
    rt: &R,
    scenario: &Scenario,
    told: &mut Received,
    letters: &[Letter],
) -> Result<()>
    requires told { (before : List (List LetterSeen)) × WasTold scenario.now before told.old }
    requires left { told.old.rounds ≤ scenario.now.bound }
{
    let time = delivery_time(rt.alloc(), rt, scenario, told, letters)?;
    report_time(
        rt,
        "delivery, the last round of thirteen generals: 12 trees",
        time,
    )
}

/// Returns the median time in nanoseconds that it takes to deliver a round's letters to all lieutenants.
fn delivery_time<C: Clock>(
    alloc: Global,
    clock: &C,
    scenario: &Scenario,
    told: &mut Received,
    letters: &[Letter],
) -> Result<u64>
    requires told { (before : List (List LetterSeen)) × WasTold scenario.now before told.old }
    requires left { told.old.rounds ≤ scenario.now.bound }
{
    let _few = scenario.bound();
    if !are_letters_of(scenario, u32::from(told.rounds()) + 1, letters) {
        bail!("letters of another round");
    }
    let mut times = Vec::with_capacity(alloc, TIMES)?;
    for _ in 0..TIMES {
        times.push(deliver_once(clock, scenario, told, letters)?)?;
    }
    Ok(median(&mut times).unwrap_or(0))
}

/// Returns how long it takes to deliver a round's letters once, in nanoseconds. Undoes the delivery after that.
fn deliver_once<C: Clock>(
    clock: &C,
    scenario: &Scenario,
    told: &mut Received,
    letters: &[Letter],
) -> Result<u64>
    requires told { (before : List (List LetterSeen)) × WasTold scenario.now before told.old }
    requires left { told.old.rounds ≤ scenario.now.bound }
    requires letters { AreLettersOf scenario.now (suc told.old.rounds) letters.now }
    ensures told { (before : List (List LetterSeen)) → WasTold scenario.now before told.old →
        WasTold scenario.now before told.new }
    ensures rounds { told.new.rounds ≡ told.old.rounds }
{
    let start = Instant::now(clock)?;
    told.deliver(scenario, letters);
    let time = start.elapsed(clock);
    told.forget(scenario);
    Ok(u64::try_from(time?.as_nanos())?)
}
