//! Reads, plays and replays the campaigns of these tests. Functions that return an `Option` return `None` if a text is
//! rejected or memory runs out.

use round::{Letter, Scenario};
use scenario::read;
use std::alloc::{AllocError, Global};
use trace::{Latch, read_schedule, write_chronicle};
use world::{Chronicle, play, replay};

/// Returns the text of a campaign: its keys, followed by its tables of traitors.
pub(crate) fn joined(alloc: Global, keys: &str, traitors: &str) -> Result<String, AllocError> {
    let mut text = String::from_str(alloc, keys)?;
    text.push_str(traitors)?;
    Ok(text)
}

/// Returns the scenario with these keys and traitors.
pub(crate) fn told(alloc: Global, keys: &str, traitors: &str) -> Option<Scenario> {
    let Ok(text) = joined(alloc, keys, traitors) else {
        return None;
    };
    match read(alloc, text.as_str()) {
        Ok(scenario) => Some(scenario),
        Err(_) => None,
    }
}

/// Plays a campaign by a schedule, and returns its chronicle.
pub(crate) fn played(
    alloc: Global,
    keys: &str,
    traitors: &str,
    schedule: &str,
) -> Option<Chronicle> {
    let Ok(schedule) = read_schedule(alloc, schedule) else {
        return None;
    };
    let Some(scenario) = told(alloc, keys, traitors) else {
        return None;
    };
    match play(alloc, scenario, &schedule) {
        Ok(chronicle) => Some(chronicle),
        Err(_) => None,
    }
}

/// Returns the letters of a chronicle's first round.
pub(crate) fn first_letters(chronicle: &Chronicle) -> &[Letter] {
    match chronicle.letters() {
        [first, ..] => first.letters(),
        [] => &[],
    }
}

/// Returns copies of the lists of generals, one list for each round.
fn named(alloc: Global, names: &[&[u8]]) -> Result<Vec<Vec<u8>>, AllocError> {
    let mut rounds = Vec::new(alloc);
    for generals in names {
        rounds.push(Vec::from_slice(alloc, generals)?)?;
    }
    Ok(rounds)
}

/// Replays a campaign, and returns its chronicle. `names` lists for each round the generals who make accesses, in the
/// order of these accesses.
pub(crate) fn replayed(
    alloc: Global,
    keys: &str,
    traitors: &str,
    names: &[&[u8]],
) -> Option<Chronicle> {
    let Ok(names) = named(alloc, names) else {
        return None;
    };
    let Some(scenario) = told(alloc, keys, traitors) else {
        return None;
    };
    match replay(alloc, scenario, names.as_slice()) {
        Ok(chronicle) => Some(chronicle),
        Err(_) => None,
    }
}

/// Returns the text of a chronicle.
fn text(alloc: Global, chronicle: &Chronicle) -> Option<Vec<u8>> {
    let mut sink = Latch::new(Vec::new(alloc));
    match write_chronicle(chronicle, &mut sink) {
        Ok(()) => Some(sink.into_writer()),
        Err(_) => None,
    }
}

/// Returns whether two chronicles have the same text.
pub(crate) fn are_told_alike(alloc: Global, chronicle: &Chronicle, other: &Chronicle) -> bool {
    let Some(told) = text(alloc, chronicle) else {
        return false;
    };
    let Some(other) = text(alloc, other) else {
        return false;
    };
    told.as_slice() == other.as_slice()
}
