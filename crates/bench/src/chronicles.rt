//! Reads, plays, writes and audits campaigns with oral or signed messages.

use anyhow::{Result, bail};
use round::Scenario;
use scenario::{Campaign, read, read_any};
use signed::{SignedChronicle, play_signed};
use std::alloc::{AllocError, Global};
use trace::{Latch, TraceError, check, check_signed, write_chronicle, write_signed};
use world::{Chronicle, Schedule, Verdict, play};

/// Whether a campaign's messages are oral or signed.
#[derive(Clone, Copy)]
pub enum MessageKind {
    Oral,
    Signed,
}

/// Reads a scenario with this kind of messages from its text.
pub fn scenario_of(alloc: Global, messages: MessageKind, text: &str) -> Result<Scenario> {
    match messages {
        MessageKind::Oral => oral_scenario(alloc, text),
        MessageKind::Signed => signed_scenario(alloc, text),
    }
}

fn oral_scenario(alloc: Global, text: &str) -> Result<Scenario> {
    match read(alloc, text) {
        Ok(scenario) => Ok(scenario),
        Err(_) => bail!("a scenario is refused"),
    }
}

fn signed_scenario(alloc: Global, text: &str) -> Result<Scenario> {
    match read_any(alloc, text) {
        Ok(Campaign::Signed(scenario)) => Ok(scenario),
        _ => bail!("a signed scenario is refused"),
    }
}

/// Returns a schedule without entries, so that the generals act one after another.
pub fn freely(alloc: Global) -> Schedule {
    Schedule {
        lines: Vec::new(alloc),
    }
}

/// Plays a scenario with oral messages by a schedule, and returns its chronicle.
pub fn played(
    alloc: Global,
    scenario: &Scenario,
    schedule: &Schedule,
) -> Result<Chronicle, AllocError> {
    play(alloc, scenario.copy(alloc)?, schedule)
}

/// Returns the text of a chronicle with oral messages.
pub fn text(alloc: Global, chronicle: &Chronicle) -> Result<Vec<u8>> {
    let mut sink = Latch::new(Vec::new(alloc));
    match write_chronicle(chronicle, &mut sink) {
        Ok(()) => Ok(sink.into_writer()),
        Err(_) => bail!("a chronicle is not written"),
    }
}

/// Returns the text of a chronicle with signed messages.
pub fn signed_text(alloc: Global, chronicle: &SignedChronicle) -> Result<Vec<u8>> {
    let mut sink = Latch::new(Vec::new(alloc));
    match write_signed(chronicle, &mut sink) {
        Ok(()) => Ok(sink.into_writer()),
        Err(_) => bail!("a signed chronicle is not written"),
    }
}

/// Plays a scenario by a schedule, and returns the text of its chronicle.
pub fn told(
    alloc: Global,
    messages: MessageKind,
    scenario: Scenario,
    schedule: &Schedule,
) -> Result<Vec<u8>> {
    match messages {
        MessageKind::Oral => text(alloc, &play(alloc, scenario, schedule)?),
        MessageKind::Signed => signed_text(alloc, &play_signed(alloc, scenario, schedule)?),
    }
}

/// Plays a scenario in which the generals act one after another, and returns the text of its chronicle.
pub fn told_freely(alloc: Global, messages: MessageKind, scenario: Scenario) -> Result<Vec<u8>> {
    told(alloc, messages, scenario, &freely(alloc))
}

/// Audits a text that should be the chronicle of the scenario, and returns the verdict on the campaign.
///
/// # Errors
///
/// Fails with the text's first fault, or with `Memory` if memory runs out.
pub fn audited(
    alloc: Global,
    messages: MessageKind,
    scenario: &Scenario,
    text: &str,
) -> Result<Verdict, TraceError> {
    match messages {
        MessageKind::Oral => check(alloc, scenario, text),
        MessageKind::Signed => check_signed(alloc, scenario, text),
    }
}
