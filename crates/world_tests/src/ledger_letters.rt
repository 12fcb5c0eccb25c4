//! Tests for which letters a ledger accounts.

use crate::texts::{COLLUDING, SEVEN};
use crate::threaded_campaigns::{letters, mustered};
use board::Access;
use round::{Letter, Round};
use std::alloc::{AllocError, Global};
use std::sync::Wait;
use std::thread::Threads;
use threads::{MusterError, Open, gather};
use world::Chronicle;

/// Plays the campaign of two colluders among seven generals in threads, and returns its chronicle.
fn colluded<R: Threads + Wait + Sync>(rt: &R, alloc: Global) -> Option<Chronicle> {
    mustered(rt, alloc, SEVEN, COLLUDING, &Open)
}

/// Returns whether two rounds have equal letters.
fn are_alike(round: &Round, other: &Round) -> bool {
    for (letter, other) in round.letters().iter().zip(other.letters().iter()) {
        if !letter.same(other) {
            return false;
        }
    }
    round.letters().len() == 7 && other.letters().len() == 7
}

/// Returns whether these rounds have the same letters as the chronicle's three rounds.
fn are_rounds(rounds: &[Round], chronicle: &Chronicle) -> bool {
    for (round, other) in rounds.iter().zip(chronicle.letters().iter()) {
        if !are_alike(round, other) {
            return false;
        }
    }
    rounds.len() == 3 && chronicle.letters().len() == 3
}

/// Returns the chronicle's letters in reverse order.
fn reversed(alloc: Global, chronicle: &Chronicle) -> Result<Vec<Letter>, AllocError> {
    let mut all = letters(alloc, chronicle.letters())?;
    all.reverse();
    Ok(all)
}

/// Returns whether `gather` arranges these letters into the chronicle's rounds.
fn gathers(alloc: Global, chronicle: &Chronicle, letters: Vec<Letter>) -> bool {
    match gather(alloc, chronicle.scenario(), chronicle.accesses(), letters) {
        Ok(rounds) => are_rounds(rounds.as_slice(), chronicle),
        Err(_) => false,
    }
}

/// Returns whether `gather` arranges the chronicle's letters, given in reverse order, into its rounds.
fn are_gathered(alloc: Global, chronicle: &Chronicle) -> bool {
    match reversed(alloc, chronicle) {
        Ok(letters) => gathers(alloc, chronicle, letters),
        Err(_) => false,
    }
}

/// Returns whether `gather` rejects the letters because the ledger does not account for them.
fn refuses(alloc: Global, chronicle: &Chronicle, ledger: &[Access], letters: Vec<Letter>) -> bool {
    matches!(
        gather(alloc, chronicle.scenario(), ledger, letters),
        Err(MusterError::Unaccounted)
    )
}

/// Returns the chronicle's letters without the one at index `place`.
fn without(alloc: Global, chronicle: &Chronicle, place: usize) -> Result<Vec<Letter>, AllocError> {
    let mut fewer = letters(alloc, chronicle.letters())?;
    if place < fewer.len() {
        let _left_out = fewer.remove(place);
    }
    Ok(fewer)
}

/// Returns the chronicle's letters with a second copy of the one at index `place`.
fn with(alloc: Global, chronicle: &Chronicle, place: usize) -> Result<Vec<Letter>, AllocError> {
    let mut more = letters(alloc, chronicle.letters())?;
    if let Some(letter) = more.get(place) {
        let again = letter.copy(alloc)?;
        more.push(again)?;
    }
    Ok(more)
}

/// Checks that the ledger does not account for the chronicle's letters without the one at index `place`.
fn is_missed(alloc: Global, chronicle: &Chronicle, place: usize) -> bool {
    match without(alloc, chronicle, place) {
        Ok(fewer) => refuses(alloc, chronicle, chronicle.accesses(), fewer),
        Err(_) => false,
    }
}

/// Checks that the ledger does not account for the chronicle's letters with a second copy of the one at index `place`.
fn is_wanted_once(alloc: Global, chronicle: &Chronicle, place: usize) -> bool {
    match with(alloc, chronicle, place) {
        Ok(more) => refuses(alloc, chronicle, chronicle.accesses(), more),
        Err(_) => false,
    }
}

/// Checks that `gather` accepts the chronicle's 21 letters, and rejects them if one of them is missing or occurs twice.
fn are_just_these(alloc: Global, chronicle: &Chronicle) -> bool {
    for place in 0..21 {
        if !is_missed(alloc, chronicle, place) || !is_wanted_once(alloc, chronicle, place) {
            return false;
        }
    }
    are_gathered(alloc, chronicle)
}

/// Plays the campaign of two colluders, and checks that `gather` accepts its letters and rejects them if one is missing
/// or occurs twice.
fn gathers_just_these<R: Threads + Wait + Sync>(rt: &R, alloc: Global) -> bool {
    match colluded(rt, alloc) {
        Some(chronicle) => are_just_these(alloc, &chronicle),
        None => false,
    }
}

#[test]
fn just_the_letters_are_gathered(rt: HostRuntime) {
    assert!(rt; gathers_just_these(&rt, rt.alloc()));
}

/// Returns a copy of a ledger.
fn copied(alloc: Global, ledger: &[Access]) -> Result<Vec<Access>, AllocError> {
    let mut entries = Vec::new(alloc);
    for access in ledger {
        entries.push(access.copy(alloc)?)?;
    }
    Ok(entries)
}

/// Returns a copy of a ledger with one more entry: the last access again, but made by general 12, who does not exist.
fn with_a_stranger(alloc: Global, ledger: &[Access]) -> Result<Vec<Access>, AllocError> {
    let mut entries = copied(alloc, ledger)?;
    if let Some(last) = ledger.last() {
        let mut again = last.copy(alloc)?;
        again.general = 12;
        entries.push(again)?;
    }
    Ok(entries)
}

/// Returns whether this ledger does not account for the chronicle's letters.
fn is_another(alloc: Global, chronicle: &Chronicle, ledger: &[Access]) -> bool {
    match letters(alloc, chronicle.letters()) {
        Ok(letters) => refuses(alloc, chronicle, ledger, letters),
        Err(_) => false,
    }
}

/// Checks that the ledger without its last entry does not account for the chronicle's letters.
fn is_wanted_whole(alloc: Global, chronicle: &Chronicle) -> bool {
    match chronicle.accesses().split_last() {
        Some((_, fewer)) => is_another(alloc, chronicle, fewer),
        None => false,
    }
}

/// Checks that the ledger does not account for the chronicle's letters if it has one more access, by a general who does
/// not exist.
fn is_wanted_alone(alloc: Global, chronicle: &Chronicle) -> bool {
    match with_a_stranger(alloc, chronicle.accesses()) {
        Ok(more) => is_another(alloc, chronicle, more.as_slice()),
        Err(_) => false,
    }
}

/// Checks that the ledger of two colluders' campaign has six entries, and that it does not account for the letters with
/// one entry less or more.
fn has_its_ledger<R: Threads + Wait + Sync>(rt: &R, alloc: Global) -> bool {
    match colluded(rt, alloc) {
        Some(chronicle) => {
            chronicle.accesses().len() == 6
                && is_wanted_whole(alloc, &chronicle)
                && is_wanted_alone(alloc, &chronicle)
        }
        None => false,
    }
}

#[test]
fn other_ledgers_account_for_nothing(rt: HostRuntime) {
    assert!(rt; has_its_ledger(&rt, rt.alloc()));
}
