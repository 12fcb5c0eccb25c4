//! Plays a signed campaign from its scenario to its chronicle, by a schedule or as a replay.
ghost use Rattle.std.specs.Prelude.{◌≡◌, IfOk};
ghost use Rattle.signed.specs.Chronicle.{signed_chronicle_of, signed_decisions};
ghost use Rattle.signed.specs.Kind.{signed_kind, played};
ghost use Rattle.signed.specs.Promises.{AgreeUnderSignedBound, IsSignedVerdictOn};
ghost use Rattle.world.specs.Agreement.{IsFinished};
ghost use Rattle.world.specs.KindLists.{IsComplete, listed, replayed};
ghost use Rattle.world.specs.Playing.{lists_in};
ghost use Rattle.world.specs.Promises.{AreSafeThroughout, AreWhole, IsWellUnderBound};
ghost use Rattle.world.specs.Schedules.{lines_by};

use crate::chronicle::SignedChronicle;
use crate::signed_world::SignedWorld;
use round::Scenario;
use std::alloc::{AllocError, Global};
use world::{Schedule, rounds_played, schedule_played};

/// Returns the chronicle of the scenario's signed campaign, played by a schedule. In each round the entries of the
/// schedule's line for this round are played one by one. Then all loyal generals post their letters, ascending, and all
/// traitors run to their ends, ascending.
///
/// # Errors
///
/// Fails with `AllocError` if it runs out of memory.
pub fn play_signed(
    alloc: Global,
    scenario: Scenario,
    schedule: &Schedule,
) -> Result<SignedChronicle, AllocError>
    ensures listed { IfOk result
        (λ chronicle. chronicle ≡ signed_chronicle_of (played scenario (listed scenario (lines_by schedule.now)))) }
    ensures complete { IfOk result (λ _. IsComplete signed_kind scenario (listed scenario (lines_by schedule.now))) }
    ensures safe { IfOk result (λ _. AreSafeThroughout signed_kind scenario (listed scenario (lines_by schedule.now))) }
    ensures letters { IfOk result (λ chronicle. AreWhole signed_kind scenario chronicle.accesses chronicle.letters) }
    ensures decisions { IfOk result (λ chronicle. chronicle.decisions ≡ signed_decisions scenario chronicle.letters) }
    ensures agree { IfOk result (λ chronicle. AgreeUnderSignedBound scenario chronicle.decisions) }
    ensures verdict { IfOk result (λ chronicle. IsSignedVerdictOn scenario chronicle.decisions chronicle.verdict) }
    ensures well { IfOk result (λ chronicle. IsWellUnderBound chronicle.verdict) }
{
    scenario.recall();
    let world = played_listed(alloc, scenario, schedule)?;
    match world.chronicle() {
        Some(chronicle) => Ok(chronicle),
        None => unreachable!(),
    }
}

/// Returns the chronicle of the scenario's signed campaign, replayed. `names` lists for each round the generals who
/// make accesses, in the order of these accesses. Traitors make their further accesses at the end of the round,
/// ascending. Lists for rounds after the last are ignored.
///
/// # Errors
///
/// Fails with `AllocError` if it runs out of memory.
pub fn replay_signed(
    alloc: Global,
    scenario: Scenario,
    names: &[Vec<u8>],
) -> Result<SignedChronicle, AllocError>
    ensures replayed { IfOk result
        (λ chronicle. chronicle
        ≡ signed_chronicle_of (played scenario (replayed signed_kind scenario (lists_in names.now)))) }
    ensures complete { IfOk result
        (λ _. IsComplete signed_kind scenario (replayed signed_kind scenario (lists_in names.now))) }
    ensures safe { IfOk result (λ _. AreSafeThroughout signed_kind scenario (replayed signed_kind scenario (lists_in names.now))) }
    ensures letters { IfOk result (λ chronicle. AreWhole signed_kind scenario chronicle.accesses chronicle.letters) }
    ensures decisions { IfOk result (λ chronicle. chronicle.decisions ≡ signed_decisions scenario chronicle.letters) }
    ensures agree { IfOk result (λ chronicle. AgreeUnderSignedBound scenario chronicle.decisions) }
    ensures verdict { IfOk result (λ chronicle. IsSignedVerdictOn scenario chronicle.decisions chronicle.verdict) }
    ensures well { IfOk result (λ chronicle. IsWellUnderBound chronicle.verdict) }
{
    scenario.recall();
    let world = played_named(alloc, scenario, names)?;
    match world.chronicle() {
        Some(chronicle) => Ok(chronicle),
        None => unreachable!(),
    }
}

/// Returns the finished world of a signed campaign, played by a schedule. Fails with `AllocError` if it runs out of
/// memory.
fn played_listed(
    alloc: Global,
    scenario: Scenario,
    schedule: &Schedule,
) -> Result<SignedWorld, AllocError>
    ensures listed { IfOk result (λ world. world ≡ played scenario (listed scenario (lines_by schedule.now))) }
    ensures finished { IfOk result IsFinished }
{
    scenario.recall();
    let opened = SignedWorld::open(alloc, scenario)?;
    let world = schedule_played(opened, schedule)?;
    Ok(world)
}

/// Returns the finished world of a signed campaign, replayed. `names` lists for each round the generals who make
/// accesses, in the order of these accesses. Fails with `AllocError` if it runs out of memory.
fn played_named(
    alloc: Global,
    scenario: Scenario,
    names: &[Vec<u8>],
) -> Result<SignedWorld, AllocError>
    ensures replayed { IfOk result
        (λ world. world ≡ played scenario (replayed signed_kind scenario (lists_in names.now))) }
    ensures finished { IfOk result IsFinished }
{
    scenario.recall();
    let opened = SignedWorld::open(alloc, scenario)?;
    let world = rounds_played(opened, names)?;
    Ok(world)
}
