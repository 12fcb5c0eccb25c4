//! Makes calls on worlds: `open`, `apply`, `play`, and `muster`, which uses threads, each for both kinds of messages.
use crate::chronicles;
use crate::chronicles::{MessageKind, told_freely};
use crate::hostile_calls::campaign::SampleCampaign;
use crate::hostile_calls::marks::{back, ready};
use crate::hostile_calls::outcome::{CallAnswer, CallOutcome, compared, led};
use crate::hostile_calls::worlds::{Led, Made};
use anyhow::{Result, bail};
use round::Scenario;
use std::alloc::{AllocError, Global};
use std::str;
use std::sync::Wait;
use std::thread::Threads;
use threads::MusterError;
use world::{Event, EventError, Schedule};

/// Opens the world of a campaign's scenario twice, with `World::open` or `SignedWorld::open`, and compares the
/// results.
pub fn opens<R: Print + AllocGlobal>(
    rt: &R,
    messages: MessageKind,
    campaign: SampleCampaign,
) -> Result<CallOutcome> {
    let scenario = campaign.scenario(rt.alloc(), messages)?;
    ready(rt);
    let first = Led::open(rt.alloc(), messages, scenario);
    back(rt);
    opens_again(rt.alloc(), messages, campaign, first)
}

/// Opens the world of a campaign's scenario again, and compares both results.
fn opens_again(
    alloc: Global,
    messages: MessageKind,
    campaign: SampleCampaign,
    first: Result<Led, AllocError>,
) -> Result<CallOutcome> {
    let first = opened(alloc, first, campaign)?;
    let again = Led::open(alloc, messages, campaign.scenario(alloc, messages)?);
    compared(first, opened(alloc, again, campaign)?)
}

/// Returns the answer of a call that opens a world: the text of the world's chronicle after the campaign's events, or
/// that memory ran out.
fn opened(
    alloc: Global,
    answer: Result<Led, AllocError>,
    campaign: SampleCampaign,
) -> Result<CallAnswer> {
    match answer {
        Ok(world) => Ok(CallAnswer::Bytes(led_on(alloc, world, campaign)?)),
        Err(_) => Ok(CallAnswer::Memory),
    }
}

/// Applies the campaign's events to the world, and returns the text of its chronicle.
fn led_on(alloc: Global, mut world: Led, campaign: SampleCampaign) -> Result<Vec<u8>> {
    let events = campaign.events(alloc)?;
    let _is_refused = happen(&mut world, events.as_slice())?;
    world.text(alloc)
}

/// Calls `apply` for each of a campaign's events. If memory runs out for an event, applies it again. Fails if the
/// chronicle at the end differs from the one that results with enough memory.
pub fn happens<R: Print + AllocGlobal>(
    rt: &R,
    messages: MessageKind,
    campaign: SampleCampaign,
) -> Result<CallOutcome> {
    let events = campaign.events(rt.alloc())?;
    let mut world = Led::open(
        rt.alloc(),
        messages,
        campaign.scenario(rt.alloc(), messages)?,
    )?;
    ready(rt);
    let happened = happen(&mut world, events.as_slice());
    back(rt);
    ended(rt.alloc(), happened?, world, messages, campaign)
}

/// Compares the chronicle of a world after all events with the one that results with enough memory, and returns the
/// outcome.
fn ended(
    alloc: Global,
    is_refused: bool,
    world: Led,
    messages: MessageKind,
    campaign: SampleCampaign,
) -> Result<CallOutcome> {
    let first = world.text(alloc)?;
    let ample = told_freely(alloc, messages, campaign.scenario(alloc, messages)?)?;
    led(is_refused, first.as_slice(), ample.as_slice())
}

/// Applies these events to the world, and returns whether memory ran out for any of them.
fn happen(world: &mut Led, events: &[Event]) -> Result<bool> {
    let mut is_refused = false;
    for event in events {
        if is_refused_first(world, *event)? {
            is_refused = true;
        }
    }
    Ok(is_refused)
}

/// Applies an event to the world, and returns whether memory ran out for it. If so, checks that the decisions are
/// unchanged, and applies the event again.
fn is_refused_first(world: &mut Led, event: Event) -> Result<bool> {
    let before = world.decisions();
    match world.apply(event) {
        Ok(()) => Ok(false),
        Err(EventError::Memory) => happens_again(world, event, before.as_slice()),
        Err(_) => bail!("an event is refused"),
    }
}

/// Checks that the decisions are still `before` after an event for which memory ran out, and applies this event
/// again.
fn happens_again(world: &mut Led, event: Event, before: &[u32]) -> Result<bool> {
    if world.decisions().as_slice() != before {
        bail!("a refused event changed the decisions");
    }
    if world.apply(event).is_err() {
        bail!("an event is refused twice");
    }
    Ok(true)
}

/// Plays a campaign by its schedule twice, with `play` or `play_signed`, and compares the results.
pub fn plays<R: Print + AllocGlobal>(
    rt: &R,
    messages: MessageKind,
    campaign: SampleCampaign,
) -> Result<CallOutcome> {
    let schedule = campaign.schedule(rt.alloc())?;
    let scenario = campaign.scenario(rt.alloc(), messages)?;
    ready(rt);
    let first = Made::play(rt.alloc(), messages, scenario, &schedule);
    back(rt);
    plays_again(rt.alloc(), messages, campaign, &schedule, first)
}

/// Plays a campaign by its schedule again, and compares both results.
fn plays_again(
    alloc: Global,
    messages: MessageKind,
    campaign: SampleCampaign,
    schedule: &Schedule,
    first: Result<Made, AllocError>,
) -> Result<CallOutcome> {
    let first = chronicled(alloc, first)?;
    let scenario = campaign.scenario(alloc, messages)?;
    let again = Made::play(alloc, messages, scenario, schedule);
    compared(first, chronicled(alloc, again)?)
}

/// Returns the answer of a call that plays a campaign: the text of the chronicle, or that memory ran out.
fn chronicled(alloc: Global, answer: Result<Made, AllocError>) -> Result<CallAnswer> {
    match answer {
        Ok(chronicle) => Ok(CallAnswer::Bytes(chronicle.text(alloc)?)),
        Err(_) => Ok(CallAnswer::Memory),
    }
}

/// Calls `muster` or `muster_signed` twice on a campaign's scenario. The order of the accesses depends on the threads,
/// so the chronicles are audited and not compared.
pub fn musters<R: Print + Threads + Wait + Sync + AllocGlobal>(
    rt: &R,
    messages: MessageKind,
    campaign: SampleCampaign,
) -> Result<CallOutcome> {
    let scenario = campaign.scenario(rt.alloc(), messages)?;
    ready(rt);
    let first = Made::muster(rt, messages, scenario);
    back(rt);
    musters_again(rt, messages, campaign, first)
}

/// Calls `muster` or `muster_signed` again, audits both chronicles, and returns the outcome.
fn musters_again<R: Threads + Wait + Sync + AllocGlobal>(
    rt: &R,
    messages: MessageKind,
    campaign: SampleCampaign,
    first: Result<Made, MusterError>,
) -> Result<CallOutcome> {
    let scenario = campaign.scenario(rt.alloc(), messages)?;
    let first = audited(rt.alloc(), messages, first, &scenario)?;
    let again = Made::muster(rt, messages, scenario.copy(rt.alloc())?);
    compared(first, audited(rt.alloc(), messages, again, &scenario)?)
}

/// Returns the answer of a muster. It has no bytes if an audit accepts the chronicle. Otherwise it says that memory ran
/// out, or that a thread could not be started.
fn audited(
    alloc: Global,
    messages: MessageKind,
    answer: Result<Made, MusterError>,
    scenario: &Scenario,
) -> Result<CallAnswer> {
    match answer {
        Ok(chronicle) => audit(alloc, messages, scenario, &chronicle),
        Err(MusterError::Memory) => Ok(CallAnswer::Memory),
        Err(MusterError::Spawn) => Ok(CallAnswer::NoThread),
        Err(_) => bail!("the muster is refused"),
    }
}

/// Audits a chronicle, and returns an answer without bytes. Fails if the chronicle is rejected.
fn audit(
    alloc: Global,
    messages: MessageKind,
    scenario: &Scenario,
    chronicle: &Made,
) -> Result<CallAnswer> {
    let text = chronicle.text(alloc)?;
    let told = str::from_utf8(text.as_slice())?;
    match chronicles::audited(alloc, messages, scenario, told) {
        Ok(_) => Ok(CallAnswer::Bytes(Vec::new(alloc))),
        Err(_) => bail!("a chronicle is not sound"),
    }
}
