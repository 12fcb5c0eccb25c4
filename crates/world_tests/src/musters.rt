//! Tests campaigns with one thread for each general, in which accesses may come in any order.

use crate::scenarios::{are_told_alike, played, told};
use crate::texts::{
    COLLUDING, FOUR, SEVEN, SEVEN_AND_THREE_STEPS, SEVEN_AND_TWO_STEPS, SEVEN_ON_A_BOARD, SWAYING,
};
use crate::threaded_campaigns::{AGREED, count, mustered, replays};
use board::Access;
use std::alloc::Global;
use std::sync::Wait;
use std::thread::Threads;
use threads::{MusterError, Open, muster_with};
use world::Chronicle;

/// Rows for campaigns of two colluders: the keys, the first reply, the number of accesses, and how many times the
/// campaign is played.
const COLLUSIONS: &[(&str, u64, usize, u32)] = &[
    (SEVEN, 0, 6, 21),
    (SEVEN_AND_THREE_STEPS, 0, 6, 1),
    (SEVEN_AND_TWO_STEPS, 0, 0, 1),
    (SEVEN_ON_A_BOARD, 5, 6, 1),
];

/// Returns whether each round has exactly two of these accesses.
fn are_two_a_round(accesses: &[Access]) -> bool {
    for (place, access) in accesses.iter().enumerate() {
        if access.round as usize != place / 2 + 1 {
            return false;
        }
    }
    true
}

/// Checks that two colluders made this number of accesses, with replies that count up from `first`, and that the
/// lieutenants agreed. Also checks that replaying the accesses gives the same chronicle.
fn have_colluded(alloc: Global, chronicle: &Chronicle, first: u64, accesses: usize) -> bool {
    count(chronicle.accesses(), accesses, first)
        && are_two_a_round(chronicle.accesses())
        && chronicle.verdict() == AGREED
        && replays(alloc, chronicle)
}

/// Plays the campaign of two colluders in threads, and checks its accesses, its decisions and its replay.
fn collude<R: Threads + Wait + Sync>(
    rt: &R,
    alloc: Global,
    keys: &str,
    first: u64,
    accesses: usize,
) -> bool {
    match mustered(rt, alloc, keys, COLLUDING, &Open) {
        Some(chronicle) => have_colluded(alloc, &chronicle, first, accesses),
        None => false,
    }
}

#[test]
fn two_colluders_in_any_order(rt: HostRuntime) {
    let alloc = rt.alloc();
    for &(keys, first, accesses, times) in COLLUSIONS {
        for _ in 0..times {
            assert!(rt; collude(&rt, alloc, keys, first, accesses));
        }
    }
}

/// Checks that a campaign fails with `Spawn` if its threads are to have stacks of 2^60 bytes.
fn cannot_start<R: Threads + Wait + Sync>(
    rt: &R,
    alloc: Global,
    keys: &str,
    traitors: &str,
) -> bool {
    let Some(scenario) = told(alloc, keys, traitors) else {
        return false;
    };
    match muster_with(rt, alloc, scenario, &Open, 1 << 60) {
        Ok(_) => false,
        Err(failed) => failed.error == MusterError::Spawn,
    }
}

/// Checks that a campaign played with threads has the same chronicle as played in one thread.
fn is_told_as_played<R: Threads + Wait + Sync>(
    rt: &R,
    alloc: Global,
    keys: &str,
    traitors: &str,
) -> bool {
    let Some(played) = played(alloc, keys, traitors, "") else {
        return false;
    };
    let Some(mustered) = mustered(rt, alloc, keys, traitors, &Open) else {
        return false;
    };
    are_told_alike(alloc, &mustered, &played)
}

#[test]
fn a_thread_that_cannot_start(rt: HostRuntime) {
    let alloc = rt.alloc();
    assert!(rt; cannot_start(&rt, alloc, FOUR, SWAYING));
    assert!(rt; is_told_as_played(&rt, alloc, FOUR, SWAYING));
}
