//! Plays campaigns with one thread for each general, and checks them, for several tests.

use crate::scenarios::{are_told_alike, told};
use board::Access;
use round::{Letter, Round};
use semantics::Reply;
use std::alloc::{AllocError, Global};
use std::sync::Wait;
use std::thread::Threads;
use threads::{Gate, muster};
use world::{Chronicle, Verdict, replay};

/// The verdict of a campaign in which the loyal lieutenants agree, the commander is a traitor, and the bound holds.
pub(crate) const AGREED: Verdict = Verdict {
    alike: true,
    obeyed: None,
    bound: true,
};

/// Plays a campaign with one thread for each general, and returns its chronicle, or `None` if this fails.
pub(crate) fn mustered<R: Threads + Wait + Sync, G: Gate + Sync>(
    rt: &R,
    alloc: Global,
    keys: &str,
    traitors: &str,
    gate: &G,
) -> Option<Chronicle> {
    let Some(scenario) = told(alloc, keys, traitors) else {
        return None;
    };
    match muster(rt, alloc, scenario, gate) {
        Ok(chronicle) => Some(chronicle),
        Err(_) => None,
    }
}

/// Returns the generals who made the accesses of a round, in the order of the accesses.
fn names_in(alloc: Global, accesses: &[Access], round: usize) -> Result<Vec<u8>, AllocError> {
    let mut names = Vec::new(alloc);
    for access in accesses {
        if access.round as usize == round {
            names.push(u8::try_from(access.general).unwrap_or(u8::MAX))?;
        }
    }
    Ok(names)
}

/// Returns for each round the generals who made its accesses, in the order of the accesses.
fn names(alloc: Global, chronicle: &Chronicle) -> Result<Vec<Vec<u8>>, AllocError> {
    let mut rounds = Vec::new(alloc);
    for place in 0..chronicle.letters().len() {
        rounds.push(names_in(alloc, chronicle.accesses(), place + 1)?)?;
    }
    Ok(rounds)
}

/// Replays a chronicle's campaign with the accesses in the same order, and returns the replay's chronicle.
fn replayed(alloc: Global, chronicle: &Chronicle) -> Result<Chronicle, AllocError> {
    let names = names(alloc, chronicle)?;
    replay(alloc, chronicle.scenario().copy(alloc)?, names.as_slice())
}

/// Returns whether the replay of a chronicle's accesses has the same text as the chronicle.
pub(crate) fn replays(alloc: Global, chronicle: &Chronicle) -> bool {
    match replayed(alloc, chronicle) {
        Ok(again) => are_told_alike(alloc, chronicle, &again),
        Err(_) => false,
    }
}

/// Returns the word of a reply, or `None` for a reply of several copied words.
pub(crate) fn word(reply: &Reply) -> Option<u64> {
    match reply {
        Reply::Word(word) => Some(*word),
        Reply::Words(_) => None,
    }
}

/// Returns whether there are `number` accesses whose replies count up from `first`.
pub(crate) fn count(accesses: &[Access], number: usize, first: u64) -> bool {
    let mut next = first;
    for access in accesses {
        if word(&access.reply) != Some(next) {
            return false;
        }
        next = next.wrapping_add(1);
    }
    accesses.len() == number
}

/// Returns copies of the letters of these rounds, by round.
pub(crate) fn letters(alloc: Global, rounds: &[Round]) -> Result<Vec<Letter>, AllocError> {
    let mut all = Vec::new(alloc);
    for round in rounds {
        for letter in round.letters() {
            all.push(letter.copy(alloc)?)?;
        }
    }
    Ok(all)
}
