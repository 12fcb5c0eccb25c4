//! Tests the readers of scenarios and schedules: how faults are printed, and whether texts that are cut or randomly
//! changed are accepted or rejected.

use crate::scenarios::joined;
use crate::texts::{COLLUDING, SEVEN};
use scenario::{ScenarioError, read};
use std::alloc::{AllocError, Global};
use trace::{TraceError, TraceFault, read_schedule};

/// A schedule of five lines, one for each round.
const SCHEDULE: &str = "4*15 0*2
0 4*4096 12

1*1 2 3
4*15
";

/// Errors of schedules and chronicles, and how they are printed.
const PRINTED_FAULTS: &[(TraceError, &str)] = &[
    (TraceError::At(TraceFault::Line, 6), "X1 line 6"),
    (TraceError::At(TraceFault::Scenario, 2), "X2 line 2"),
    (TraceError::At(TraceFault::Differs, 16), "X3 line 16"),
    (TraceError::Write, "X4"),
    (TraceError::Memory, "out of memory"),
];

/// Returns whether a fault is printed as `expected`.
fn is_printed(alloc: Global, fault: TraceError, expected: &str) -> bool {
    match fault.to_string(alloc) {
        Ok(text) => text.as_str() == expected,
        Err(_) => false,
    }
}

/// Returns whether the error for running out of memory while a scenario is read is printed as `expected`.
fn is_refused_memory_printed(alloc: Global, expected: &str) -> bool {
    match ScenarioError::Memory.to_string(alloc) {
        Ok(text) => text.as_str() == expected,
        Err(_) => false,
    }
}

#[test]
fn faults_of_texts_are_printed(rt: HostRuntime) {
    let alloc = rt.alloc();
    for &(fault, expected) in PRINTED_FAULTS {
        assert!(rt; is_printed(alloc, fault, expected), "{expected}");
    }
    assert!(rt; is_refused_memory_printed(alloc, "out of memory"));
}

/// Returns whether the text is accepted as a scenario. Fails if memory runs out.
fn tells_scenario(alloc: Global, text: &str) -> Result<bool, AllocError> {
    match read(alloc, text) {
        Ok(_) => Ok(true),
        Err(ScenarioError::Memory) => Err(AllocError),
        Err(_) => Ok(false),
    }
}

/// Returns whether the text is accepted as a schedule. Fails if it is rejected for another reason than a faulty line
/// (X1) from 1 to 6.
fn tells_schedule(alloc: Global, text: &str) -> Result<bool, AllocError> {
    match read_schedule(alloc, text) {
        Ok(_) => Ok(true),
        Err(TraceError::At(TraceFault::Line, 1..=6)) => Ok(false),
        Err(_) => Err(AllocError),
    }
}

/// The kind of text to be read.
#[derive(Clone, Copy)]
enum Reading {
    Scenario,
    Schedule,
}

/// Returns whether the text is accepted as a text of this kind.
fn is_taken(alloc: Global, reading: Reading, text: &str) -> Result<bool, AllocError> {
    match reading {
        Reading::Scenario => tells_scenario(alloc, text),
        Reading::Schedule => tells_schedule(alloc, text),
    }
}

/// Returns how many beginnings of the text are rejected. The empty text and the whole text count as beginnings.
fn refused_beginnings(alloc: Global, reading: Reading, text: &str) -> Result<u32, AllocError> {
    let mut refused = 0u32;
    for end in 0..=text.len() {
        if let Some(beginning) = text.get(..end) {
            if !is_taken(alloc, reading, beginning)? {
                refused = refused.wrapping_add(1);
            }
        }
    }
    Ok(refused)
}

/// Returns whether exactly `refused` beginnings of the text are rejected.
fn has_refused(alloc: Global, reading: Reading, text: &str, refused: u32) -> bool {
    match refused_beginnings(alloc, reading, text) {
        Ok(found) => found == refused,
        Err(_) => false,
    }
}

/// Checks that the scenario of two colluders has 431 bytes, and that exactly `refused` of its beginnings are rejected.
fn has_refused_of_scenario(alloc: Global, refused: u32) -> bool {
    match joined(alloc, SEVEN, COLLUDING) {
        Ok(scenario) => {
            scenario.len() == 431
                && has_refused(alloc, Reading::Scenario, scenario.as_str(), refused)
        }
        Err(_) => false,
    }
}

/// Checks which beginnings of texts are accepted. The scenario has 432 beginnings, of which six are accepted. They end
/// after the four keys, after the first traitor or after the second, each with or without the last line feed.
#[test]
fn beginnings_of_texts(rt: HostRuntime) {
    let alloc = rt.alloc();
    assert!(rt; has_refused_of_scenario(alloc, 426));
    assert!(rt; has_refused(alloc, Reading::Schedule, SCHEDULE, 10));
}

/// Returns the next random number: the upper 31 bits of the state of a linear congruential generator.
fn next(state: &mut u64) -> u64 {
    *state = state
        .wrapping_mul(6364136223846793005)
        .wrapping_add(1442695040888963407);
    *state >> 33
}

/// Replaces, removes or inserts a byte at a random index. It does nothing if the index is past the end.
fn change(bytes: &mut Vec<u8>, state: &mut u64) -> Result<(), AllocError> {
    let kind = next(state) % 3;
    let place = next(state) as usize % 1024;
    let byte = (next(state) % 128) as u8;
    if place >= bytes.len() {
        return Ok(());
    }
    match kind {
        0 => bytes[place] = byte,
        1 => {
            let _ = bytes.remove(place);
        }
        _ => bytes.insert(place, byte)?,
    }
    Ok(())
}

/// Returns the bytes of the text with one to four random changes.
fn changed(alloc: Global, text: &str, state: &mut u64) -> Result<Vec<u8>, AllocError> {
    let mut bytes = text.as_bytes().to_vec(alloc)?;
    for _ in 0..=next(state) % 4 {
        change(&mut bytes, state)?;
    }
    Ok(bytes)
}

/// Changes the text randomly, and returns whether it is then accepted as a text of this kind.
fn is_taken_changed(
    alloc: Global,
    reading: Reading,
    text: &str,
    state: &mut u64,
) -> Result<bool, AllocError> {
    let bytes = changed(alloc, text, state)?;
    match std::str::from_utf8(bytes.as_slice()) {
        Ok(changed) => is_taken(alloc, reading, changed),
        Err(_) => Err(AllocError),
    }
}

/// Returns how many of `count` randomly changed texts are accepted. Fails if reading one of them neither accepts nor
/// rejects it.
fn taken_changed(
    alloc: Global,
    reading: Reading,
    text: &str,
    seed: u64,
    count: u32,
) -> Result<u32, AllocError> {
    let mut state = seed;
    let mut taken = 0u32;
    for _ in 0..count {
        if is_taken_changed(alloc, reading, text, &mut state)? {
            taken = taken.wrapping_add(1);
        }
    }
    Ok(taken)
}

/// Checks that each of `count` randomly changed texts is accepted or rejected, and that both happen.
fn are_some_taken(alloc: Global, reading: Reading, text: &str, seed: u64, count: u32) -> bool {
    match taken_changed(alloc, reading, text, seed, count) {
        Ok(taken) => 0 < taken && taken < count,
        Err(_) => false,
    }
}

/// Checks that some of 6,000 randomly changed scenarios of two colluders are accepted and the others rejected, from two
/// seeds.
fn are_some_scenarios_taken(alloc: Global) -> bool {
    match joined(alloc, SEVEN, COLLUDING) {
        Ok(scenario) => {
            are_some_taken(alloc, Reading::Scenario, scenario.as_str(), 1, 3000)
                && are_some_taken(alloc, Reading::Scenario, scenario.as_str(), 2, 3000)
        }
        Err(_) => false,
    }
}

#[test]
fn changed_texts(rt: HostRuntime) {
    let alloc = rt.alloc();
    assert!(rt; are_some_scenarios_taken(alloc));
    assert!(rt; are_some_taken(alloc, Reading::Schedule, SCHEDULE, 3, 4000));
}
