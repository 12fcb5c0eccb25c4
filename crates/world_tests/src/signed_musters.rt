//! Tests signed campaigns with one thread for each general, and for which of their letters a ledger accounts.

use crate::signed_worlds::three;
use crate::texts::{PASSING, SIGNING_TWICE};
use crate::threaded_campaigns::letters;
use round::Letter;
use signed::SignedChronicle;
use signed_threads::{gather_signed, muster_signed};
use std::alloc::{AllocError, Global};
use std::sync::Wait;
use std::thread::Threads;
use threads::{MusterError, Open};

/// Plays the campaign of three generals with these traitors' tables in threads, and returns its chronicle.
fn mustered<R: Threads + Wait + Sync>(
    rt: &R,
    alloc: Global,
    traitors: &str,
) -> Option<SignedChronicle> {
    let Some(scenario) = three(alloc, traitors) else {
        return None;
    };
    match muster_signed(rt, alloc, scenario, &Open) {
        Ok(chronicle) => Some(chronicle),
        Err(_) => None,
    }
}

/// Returns whether the lieutenants of the campaign of three generals with these traitors' tables make these decisions
/// when it is played in threads.
fn decide<R: Threads + Wait + Sync>(
    rt: &R,
    alloc: Global,
    traitors: &str,
    decisions: &[u32],
) -> bool {
    match mustered(rt, alloc, traitors) {
        Some(chronicle) => chronicle.decisions() == decisions,
        None => false,
    }
}

#[test]
fn threads_sign_as_worlds_do(rt: HostRuntime) {
    let alloc = rt.alloc();
    assert!(rt; decide(&rt, alloc, PASSING, &[1, 1]));
    assert!(rt; decide(&rt, alloc, SIGNING_TWICE, &[0, 0]));
}

/// Returns whether `gather_signed` accepts these letters for the chronicle's ledger.
fn accepts(alloc: Global, chronicle: &SignedChronicle, letters: Vec<Letter>) -> bool {
    matches!(
        gather_signed(alloc, chronicle.scenario(), chronicle.accesses(), letters),
        Ok(_)
    )
}

/// Returns whether `gather_signed` rejects these letters because the chronicle's ledger does not account for them.
fn refuses(alloc: Global, chronicle: &SignedChronicle, letters: Vec<Letter>) -> bool {
    matches!(
        gather_signed(alloc, chronicle.scenario(), chronicle.accesses(), letters),
        Err(MusterError::Unaccounted)
    )
}

/// Returns the chronicle's letters in reverse order.
fn reversed(alloc: Global, chronicle: &SignedChronicle) -> Result<Vec<Letter>, AllocError> {
    let mut all = letters(alloc, chronicle.letters())?;
    all.reverse();
    Ok(all)
}

/// Checks that `gather_signed` accepts the chronicle's letters in reverse order. It must reject them without the first
/// one, and must reject the letters of the other chronicle.
fn are_just_these(
    alloc: Global,
    chronicle: &SignedChronicle,
    other: &SignedChronicle,
) -> Result<bool, AllocError> {
    let all = reversed(alloc, chronicle)?;
    let mut fewer = reversed(alloc, chronicle)?;
    let _first = fewer.pop();
    let others = reversed(alloc, other)?;
    let is_whole = accepts(alloc, chronicle, all);
    let is_missed = refuses(alloc, chronicle, fewer);
    let is_foreign = refuses(alloc, chronicle, others);
    Ok(is_whole && is_missed && is_foreign)
}

/// Plays two signed campaigns of three generals in threads, and checks that `gather_signed` accepts for each only its
/// own letters.
fn gathers_just_these<R: Threads + Wait + Sync>(rt: &R, alloc: Global) -> bool {
    let Some(passing) = mustered(rt, alloc, PASSING) else {
        return false;
    };
    let Some(signing) = mustered(rt, alloc, SIGNING_TWICE) else {
        return false;
    };
    matches!(are_just_these(alloc, &passing, &signing), Ok(true))
        && matches!(are_just_these(alloc, &signing, &passing), Ok(true))
}

#[test]
fn just_the_signed_letters_are_gathered(rt: HostRuntime) {
    assert!(rt; gathers_just_these(&rt, rt.alloc()));
}
