//! Makes calls that read scenarios and schedules, and reads random schedules.
use crate::chronicles::{MessageKind, played, told, told_freely};
use crate::hostile_calls::campaign::SampleCampaign;
use crate::hostile_calls::changes::next;
use crate::hostile_calls::marks::{back, ready};
use crate::hostile_calls::outcome::{CallAnswer, CallOutcome, compared};
use anyhow::{Result, bail};
use round::Scenario;
use scenario::{ScenarioError, read};
use std::alloc::{AllocError, Global};
use trace::{TraceError, TraceFault, read_schedule};
use world::Schedule;

/// Calls `read` twice on the text of a campaign's scenario, and compares the results.
pub fn reads<R: Print + AllocGlobal>(rt: &R, campaign: SampleCampaign) -> Result<CallOutcome> {
    ready(rt);
    let first = read(rt.alloc(), campaign.text());
    back(rt);
    let again = read(rt.alloc(), campaign.text());
    let first = read_as(rt.alloc(), first)?;
    compared(first, read_as(rt.alloc(), again)?)
}

/// Returns the answer of `read`: the text of the scenario's chronicle if the generals act one after another, or that
/// memory ran out.
fn read_as(alloc: Global, answer: Result<Scenario, ScenarioError>) -> Result<CallAnswer> {
    match answer {
        Ok(scenario) => Ok(CallAnswer::Bytes(told_freely(alloc, MessageKind::Oral, scenario)?)),
        Err(ScenarioError::Memory) => Ok(CallAnswer::Memory),
        Err(_) => bail!("a scenario is refused"),
    }
}

/// Calls `read_schedule` twice on the text of a campaign's schedule, and compares the results.
pub fn reads_schedule<R: Print + AllocGlobal>(
    rt: &R,
    campaign: SampleCampaign,
) -> Result<CallOutcome> {
    ready(rt);
    let first = read_schedule(rt.alloc(), campaign.schedule_text());
    back(rt);
    let again = read_schedule(rt.alloc(), campaign.schedule_text());
    let first = told_by(rt.alloc(), campaign, first)?;
    compared(first, told_by(rt.alloc(), campaign, again)?)
}

/// Returns the answer of `read_schedule`: the text of the campaign's chronicle by this schedule, or that memory ran
/// out.
fn told_by(
    alloc: Global,
    campaign: SampleCampaign,
    answer: Result<Schedule, TraceError>,
) -> Result<CallAnswer> {
    match answer {
        Ok(schedule) => scheduled(alloc, campaign, &schedule),
        Err(TraceError::Memory) => Ok(CallAnswer::Memory),
        Err(_) => bail!("a schedule is refused"),
    }
}

/// Plays the campaign by a schedule, and returns the text of its chronicle as an answer.
fn scheduled(alloc: Global, campaign: SampleCampaign, schedule: &Schedule) -> Result<CallAnswer> {
    let scenario = campaign.scenario(alloc, MessageKind::Oral)?;
    Ok(CallAnswer::Bytes(told(alloc, MessageKind::Oral, scenario, schedule)?))
}

/// The pieces of text that random schedules are made of.
const PIECES: &[&str; 16] = &[
    "0", "3", "4", "12", "13", "*15", "*4096", "*4097", "*0", " ", " ", " ", "\n", "\n", "01", "-",
];

/// The number of random schedules that are read.
const SCHEDULES: u32 = 10_000;

/// Reads random schedules, and plays a campaign by each that is accepted. Fails if one is not accepted or rejected as
/// promised.
pub fn report<R: Print + AllocGlobal>(rt: &R) -> Result<()> {
    let alloc = rt.alloc();
    let scenario = SampleCampaign::Seven.scenario(alloc, MessageKind::Oral)?;
    if !are_answered(alloc, &scenario)? {
        bail!("a schedule is not answered as it should be");
    }
    println!(rt; "{SCHEDULES} schedules: each answered")?;
    Ok(())
}

/// Checks whether all random schedules are accepted or rejected as promised.
fn are_answered(alloc: Global, scenario: &Scenario) -> Result<bool, AllocError> {
    let mut state = 1;
    for _ in 0..SCHEDULES {
        let schedule = schedule(alloc, &mut state)?;
        if !is_answered(alloc, scenario, schedule.as_str())? {
            return Ok(false);
        }
    }
    Ok(true)
}

/// Reads a text as a schedule and, if it is accepted, plays the campaign by it. Returns whether the text is accepted,
/// or is rejected because of one of its first six lines.
fn is_answered(alloc: Global, scenario: &Scenario, text: &str) -> Result<bool, AllocError> {
    match read_schedule(alloc, text) {
        Ok(schedule) => {
            let _chronicle = played(alloc, scenario, &schedule)?;
            Ok(true)
        }
        Err(TraceError::At(TraceFault::Line, 1..=6)) => Ok(true),
        Err(_) => Ok(false),
    }
}

/// Returns a random text of up to 31 pieces, which may be a schedule.
fn schedule(alloc: Global, state: &mut u64) -> Result<String, AllocError> {
    let mut schedule = String::new(alloc);
    for _ in 0..next(state) % 32 {
        schedule.push_str(PIECES[(next(state) % 16) as usize])?;
    }
    Ok(schedule)
}
