//! Plays signed campaigns with one thread for each general.
ghost use Rattle.std.specs.Prelude.{◌≡◌, ◌↔◌, suc, All, IfOk, IfErr, IfSome};
ghost use Rattle.board.specs.Board.{IsLegal};
ghost use Rattle.signed.specs.Chronicle.{signed_chronicle_of, signed_decisions};
ghost use Rattle.signed.specs.Kind.{signed_kind};
ghost use Rattle.signed.specs.Promises.{AgreeUnderSignedBound, IsSignedVerdictOn};
ghost use Rattle.world.specs.KindLists.{IsComplete, names_in, replay_world, replayed};
ghost use Rattle.world.specs.Promises.{AreSafeThroughout, AreWhole, IsWellUnderBound};
ghost use Rattle.world.specs.Safety.{IsShort};
ghost use Rattle.threads.specs.Outcomes.{LacksMemory, LacksAccount, LacksThread, LacksRoom, HasAnEndForEach, IsHaltOf};
ghost use Rattle.threads.specs.Served.{AreGated};
ghost use Rattle.threads.specs.declared.error.MusterError.TheVariants.{Memory, Unaccounted, Spawn, Post};

use crate::conclusion::conclude;
use crate::delivered_chains::DeliveredChains;
use round::Scenario;
use signed::SignedChronicle;
use std::alloc::Global;
use std::sync::Wait;
use std::thread::Threads;
use threads::{AccountedCampaign, FailedMuster, Gate, STACK, muster_as};

/// Plays the scenario's signed campaign with one thread for each general. The thread makes its general's letter in each
/// round. Before each access to the board, `gate` may hold the traitor who makes it.
///
/// The following holds for all programs that the verifier accepts, for all gates, and in whatever order the generals
/// take the board's lock:
///
/// - The chronicle is the one that replaying its own accesses gives, and this replay is a complete run.
/// - The accesses are a legal ledger of a board that has the scenario's words at first.
/// - No activation traps or takes more steps than its program has instructions (`safe`).
/// - Each letter is complete: a traitor's letter is the run of his program to its end, with his accesses (`whole`).
/// - Each lieutenant decides what SM(m) gives from the chains that the letters send.
/// - With at most m traitors among at least m + 2 generals, all loyal lieutenants decide on the same order, and on the
///   commander's order if he is loyal (TOPLAS 1982, Theorem 2).
///
/// For each access in a letter of the chronicle, `Gate::passed` holds for its general, its round and its number in the
/// letter, counted from 0.
///
/// The function returns after it has joined all its threads.
///
/// # Errors
///
/// The errors are those of `threads::muster`. It is not proved that `Post` and `Unaccounted` never happen with the
/// threads that are started here.
pub fn muster_signed<R: Threads + Wait + Sync, G: Gate + Sync>(
    rt: &R,
    alloc: Global,
    scenario: Scenario,
    gate: &G,
) -> Result<SignedChronicle, FailedMuster>
    ensures scenario { IfOk result (λ chronicle. chronicle.scenario ≡ scenario) }
    ensures replay { IfOk result
        (λ chronicle. chronicle ≡ signed_chronicle_of (replay_world signed_kind scenario chronicle.accesses)) }
    ensures complete { IfOk result (λ chronicle. IsComplete signed_kind scenario
        (replayed signed_kind scenario (names_in 1 chronicle.accesses (suc scenario.bound)))) }
    ensures legal { IfOk result (λ chronicle. IsLegal scenario.board chronicle.accesses) }
    ensures safe { IfOk result (λ chronicle. AreSafeThroughout signed_kind scenario
        (replayed signed_kind scenario (names_in 1 chronicle.accesses (suc scenario.bound)))) }
    ensures whole { IfOk result (λ chronicle. AreWhole signed_kind scenario chronicle.accesses chronicle.letters) }
    ensures short { IfOk result (λ chronicle. All (λ letters. All IsShort letters) chronicle.letters) }
    ensures decisions { IfOk result
        (λ chronicle. chronicle.decisions ≡ signed_decisions scenario chronicle.letters) }
    ensures agree { IfOk result (λ chronicle. AgreeUnderSignedBound scenario chronicle.decisions) }
    ensures verdict { IfOk result (λ chronicle. IsSignedVerdictOn scenario chronicle.decisions chronicle.verdict) }
    ensures well { IfOk result (λ chronicle. IsWellUnderBound chronicle.verdict) }
    ensures passed { IfOk result (λ chronicle. AreGated (G.passed gate.now) chronicle.letters) }
    ensures memory { IfErr result (λ failed. failed.error ≡ Memory ↔ LacksMemory failed.outcomes) }
    ensures unaccounted { IfErr result (λ failed. failed.error ≡ Unaccounted ↔ LacksAccount failed.outcomes) }
    ensures spawn { IfErr result (λ failed. failed.error ≡ Spawn ↔ LacksThread failed.outcomes) }
    ensures post { IfErr result (λ failed. failed.error ≡ Post ↔ LacksRoom failed.outcomes) }
    ensures ends { IfErr result (λ failed. HasAnEndForEach scenario.generals failed.outcomes) }
    ensures found { IfErr result (λ failed. IfSome failed.outcomes.halt (IsHaltOf signed_kind scenario)) }
{
    muster_signed_with(rt, alloc, scenario, gate, STACK)
}

/// Plays the scenario's signed campaign as `muster_signed` does. Each thread gets a stack of `stack` bytes.
///
/// # Errors
///
/// The errors are those of `muster_signed`.
pub fn muster_signed_with<R: Threads + Wait + Sync, G: Gate + Sync>(
    rt: &R,
    alloc: Global,
    scenario: Scenario,
    gate: &G,
    stack: usize,
) -> Result<SignedChronicle, FailedMuster>
    ensures scenario { IfOk result (λ chronicle. chronicle.scenario ≡ scenario) }
    ensures replay { IfOk result
        (λ chronicle. chronicle ≡ signed_chronicle_of (replay_world signed_kind scenario chronicle.accesses)) }
    ensures complete { IfOk result (λ chronicle. IsComplete signed_kind scenario
        (replayed signed_kind scenario (names_in 1 chronicle.accesses (suc scenario.bound)))) }
    ensures legal { IfOk result (λ chronicle. IsLegal scenario.board chronicle.accesses) }
    ensures safe { IfOk result (λ chronicle. AreSafeThroughout signed_kind scenario
        (replayed signed_kind scenario (names_in 1 chronicle.accesses (suc scenario.bound)))) }
    ensures whole { IfOk result (λ chronicle. AreWhole signed_kind scenario chronicle.accesses chronicle.letters) }
    ensures short { IfOk result (λ chronicle. All (λ letters. All IsShort letters) chronicle.letters) }
    ensures decisions { IfOk result
        (λ chronicle. chronicle.decisions ≡ signed_decisions scenario chronicle.letters) }
    ensures agree { IfOk result (λ chronicle. AgreeUnderSignedBound scenario chronicle.decisions) }
    ensures verdict { IfOk result (λ chronicle. IsSignedVerdictOn scenario chronicle.decisions chronicle.verdict) }
    ensures well { IfOk result (λ chronicle. IsWellUnderBound chronicle.verdict) }
    ensures passed { IfOk result (λ chronicle. AreGated (G.passed gate.now) chronicle.letters) }
    ensures memory { IfErr result (λ failed. failed.error ≡ Memory ↔ LacksMemory failed.outcomes) }
    ensures unaccounted { IfErr result (λ failed. failed.error ≡ Unaccounted ↔ LacksAccount failed.outcomes) }
    ensures spawn { IfErr result (λ failed. failed.error ≡ Spawn ↔ LacksThread failed.outcomes) }
    ensures post { IfErr result (λ failed. failed.error ≡ Post ↔ LacksRoom failed.outcomes) }
    ensures ends { IfErr result (λ failed. HasAnEndForEach scenario.generals failed.outcomes) }
    ensures found { IfErr result (λ failed. IfSome failed.outcomes.halt (IsHaltOf signed_kind scenario)) }
{
    let campaign = muster_as::<R, G, DeliveredChains>(rt, alloc, &scenario, gate, stack)?;
    let AccountedCampaign {
        accesses,
        rounds,
        told,
        decisions,
    } = campaign;
    Ok(conclude(scenario, accesses, rounds, told, decisions))
}
