//! Plays campaigns with one thread for each general.
ghost use Rattle.std.specs.Prelude.{◌≡◌, ◌≤◌, ◌↔◌, [], suc, length, All, IfOk, IfErr, IfSome};
ghost use mathlib.Core.List.{IsPrefix};
ghost use Rattle.board.specs.Board.{IsLegal};
ghost use Rattle.round.specs.Letters.{Letter as LetterSeen, messages};
ghost use Rattle.world.specs.Chronicle.{decisions, chronicle_of};
ghost use Rattle.world.specs.KindAccounted.{AreAccounted};
ghost use Rattle.world.specs.Lists.{IsComplete, replayed, names_in};
ghost use Rattle.world.specs.Promises.{AgreeIfTolerable, AreSafeThroughout, AreWhole, IsVerdictOn, IsWellUnderBound};
ghost use Rattle.world.specs.Replay.{replay_of};
ghost use Rattle.world.specs.Safety.{IsShort};
ghost use Rattle.world.specs.World.{oral_kind};
ghost use Rattle.threads.specs.Outcomes.{IfUnlike, LacksMemory, LacksAccount, LacksThread, LacksRoom, HasAnEndForEach, IsHaltOf};
ghost use Rattle.threads.specs.Served.{AreGated, IsGated};
ghost use Rattle.threads.specs.declared.error.MusterError.TheVariants.{Memory, Unaccounted, Spawn, Post};

use crate::accounted_campaign::AccountedCampaign;
use crate::claim::Claim;
use crate::collection::collect;
use crate::conclusion::{conclude, judge};
use crate::delivered::Delivered;
use crate::ending::Ending;
use crate::failed_muster::FailedMuster;
use crate::gate::Gate;
use board::Board;
use round::{Received, Scenario};
use shared_board::{Room, SharedBoard, Unshared, Witness};
use std::alloc::Global;
use std::marker::Brand;
use std::sync::Wait;
use std::thread::Threads;
use world::Chronicle;

/// The stack size, in bytes, that a muster gives each of its threads unless its caller says otherwise.
pub const STACK: usize = 1 << 20;

/// Plays the scenario's campaign with one thread for each general. The thread makes its general's letter in each round.
/// Before each access to the board, `gate` may hold the traitor who makes it.
///
/// The following holds for all programs that the verifier accepts, for all gates, and in whatever order the generals
/// take the board's lock:
///
/// - The chronicle is the one that replaying its own accesses gives, and this replay is a complete run.
/// - The accesses are a legal ledger of a board that has the scenario's words at first.
/// - No activation traps or takes more steps than its program has instructions (`safe`).
/// - Each letter is complete: a traitor's letter is the run of his program to its end, with his accesses (`whole`).
/// - Each lieutenant decides what OM(m) gives from the recorded messages.
/// - If the traitors are few enough, all loyal lieutenants decide on the same order, and on the commander's order if he
///   is loyal (TOPLAS 1982, Theorem 1). At most m traitors among more than 3m generals are few enough.
///
/// For each access in a letter of the chronicle, `Gate::passed` holds for its general, its round and its number in the
/// letter, counted from 0.
///
/// The function returns after it has joined all its threads.
///
/// # Errors
///
/// `FailedMuster` says how each thread has ended, and this decides its error:
///
/// - `Spawn` if a general's thread could not be started. The threads that were started are joined first.
/// - Otherwise the error for the failure of the lowest general who failed: `Memory` if an allocation failed, `Post` if
///   the post was full when he posted his letter, `Unaccounted` if he was given another general's task.
/// - Otherwise the error for what halted this thread: `Memory` if an allocation failed, else `Unaccounted`. Then letters
///   are missing, the letters of a round are not one from each general, or the board does not account for the letters.
///
/// It is not proved that `Post` and `Unaccounted` never happen with the threads that are started here.
pub fn muster<R: Threads + Wait + Sync, G: Gate + Sync>(
    rt: &R,
    alloc: Global,
    scenario: Scenario,
    gate: &G,
) -> Result<Chronicle, FailedMuster>
    ensures scenario { IfOk result (λ chronicle. chronicle.scenario ≡ scenario) }
    ensures replay { IfOk result (λ chronicle. chronicle ≡ chronicle_of (replay_of scenario chronicle.accesses)) }
    ensures complete { IfOk result
        (λ chronicle. IsComplete scenario (replayed scenario (names_in 1 chronicle.accesses (suc scenario.bound)))) }
    ensures legal { IfOk result (λ chronicle. IsLegal scenario.board chronicle.accesses) }
    ensures safe { IfOk result (λ chronicle. AreSafeThroughout oral_kind scenario
        (replayed scenario (names_in 1 chronicle.accesses (suc scenario.bound)))) }
    ensures whole { IfOk result (λ chronicle. AreWhole oral_kind scenario chronicle.accesses chronicle.letters) }
    ensures short { IfOk result (λ chronicle. All (λ letters. All IsShort letters) chronicle.letters) }
    ensures decisions { IfOk result
        (λ chronicle. chronicle.decisions ≡ decisions scenario (messages chronicle.letters)) }
    ensures agree { IfOk result (λ chronicle. AgreeIfTolerable scenario chronicle.decisions) }
    ensures verdict { IfOk result (λ chronicle. IsVerdictOn scenario chronicle.decisions chronicle.verdict) }
    ensures well { IfOk result (λ chronicle. IsWellUnderBound chronicle.verdict) }
    ensures passed { IfOk result (λ chronicle. AreGated (G.passed gate.now) chronicle.letters) }
    ensures memory { IfErr result (λ failed. failed.error ≡ Memory ↔ LacksMemory failed.outcomes) }
    ensures unaccounted { IfErr result (λ failed. failed.error ≡ Unaccounted ↔ LacksAccount failed.outcomes) }
    ensures spawn { IfErr result (λ failed. failed.error ≡ Spawn ↔ LacksThread failed.outcomes) }
    ensures post { IfErr result (λ failed. failed.error ≡ Post ↔ LacksRoom failed.outcomes) }
    ensures ends { IfErr result (λ failed. HasAnEndForEach scenario.generals failed.outcomes) }
    ensures found { IfErr result (λ failed. IfSome failed.outcomes.halt (IsHaltOf oral_kind scenario)) }
{
    muster_with(rt, alloc, scenario, gate, STACK)
}

/// Plays the scenario's campaign as `muster` does. Each thread gets a stack of `stack` bytes.
///
/// # Errors
///
/// The errors are those of `muster`.
pub fn muster_with<R: Threads + Wait + Sync, G: Gate + Sync>(
    rt: &R,
    alloc: Global,
    scenario: Scenario,
    gate: &G,
    stack: usize,
) -> Result<Chronicle, FailedMuster>
    ensures scenario { IfOk result (λ chronicle. chronicle.scenario ≡ scenario) }
    ensures replay { IfOk result (λ chronicle. chronicle ≡ chronicle_of (replay_of scenario chronicle.accesses)) }
    ensures complete { IfOk result
        (λ chronicle. IsComplete scenario (replayed scenario (names_in 1 chronicle.accesses (suc scenario.bound)))) }
    ensures legal { IfOk result (λ chronicle. IsLegal scenario.board chronicle.accesses) }
    ensures safe { IfOk result (λ chronicle. AreSafeThroughout oral_kind scenario
        (replayed scenario (names_in 1 chronicle.accesses (suc scenario.bound)))) }
    ensures whole { IfOk result (λ chronicle. AreWhole oral_kind scenario chronicle.accesses chronicle.letters) }
    ensures short { IfOk result (λ chronicle. All (λ letters. All IsShort letters) chronicle.letters) }
    ensures decisions { IfOk result
        (λ chronicle. chronicle.decisions ≡ decisions scenario (messages chronicle.letters)) }
    ensures agree { IfOk result (λ chronicle. AgreeIfTolerable scenario chronicle.decisions) }
    ensures verdict { IfOk result (λ chronicle. IsVerdictOn scenario chronicle.decisions chronicle.verdict) }
    ensures well { IfOk result (λ chronicle. IsWellUnderBound chronicle.verdict) }
    ensures passed { IfOk result (λ chronicle. AreGated (G.passed gate.now) chronicle.letters) }
    ensures memory { IfErr result (λ failed. failed.error ≡ Memory ↔ LacksMemory failed.outcomes) }
    ensures unaccounted { IfErr result (λ failed. failed.error ≡ Unaccounted ↔ LacksAccount failed.outcomes) }
    ensures spawn { IfErr result (λ failed. failed.error ≡ Spawn ↔ LacksThread failed.outcomes) }
    ensures post { IfErr result (λ failed. failed.error ≡ Post ↔ LacksRoom failed.outcomes) }
    ensures ends { IfErr result (λ failed. HasAnEndForEach scenario.generals failed.outcomes) }
    ensures found { IfErr result (λ failed. IfSome failed.outcomes.halt (IsHaltOf oral_kind scenario)) }
{
    let campaign = muster_as::<R, G, Received>(rt, alloc, &scenario, gate, stack)?;
    let AccountedCampaign {
        accesses,
        rounds,
        decisions,
        ..
    } = campaign;
    Ok(conclude(scenario, accesses, rounds, decisions))
}

/// Plays the scenario's oral or signed campaign, with one thread for each general, each with a stack of `stack` bytes.
/// Returns its accesses, its letters, what they have delivered, and the lieutenants' decisions. The accesses are a
/// legal history from the scenario's words on, and account for the letters. Each access has passed the gate.
///
/// # Errors
///
/// The errors are those of `muster`.
pub fn muster_as<R: Threads + Wait + Sync, G: Gate + Sync, D: Delivered + Sync>(
    rt: &R,
    alloc: Global,
    scenario: &Scenario,
    gate: &G,
    stack: usize,
) -> Result<AccountedCampaign<D>, FailedMuster>
    ensures legal { IfOk result (λ campaign. IsLegal scenario.now.board campaign.accesses.items) }
    ensures accounted { IfOk result
        (λ campaign. AreAccounted D.kind scenario.now [] campaign.accesses.items campaign.rounds.items) }
    ensures told { IfOk result (λ campaign. D.was_told scenario.now campaign.rounds.items campaign.told) }
    ensures decisions { IfOk result
        (λ campaign. campaign.decisions.items ≡ D.decided scenario.now campaign.rounds.items) }
    ensures passed { IfOk result (λ campaign. AreGated (G.passed gate.now) campaign.rounds.items) }
    ensures memory { IfErr result (λ failed. failed.error ≡ Memory ↔ LacksMemory failed.outcomes) }
    ensures unaccounted { IfErr result (λ failed. failed.error ≡ Unaccounted ↔ LacksAccount failed.outcomes) }
    ensures spawn { IfErr result (λ failed. failed.error ≡ Spawn ↔ LacksThread failed.outcomes) }
    ensures post { IfErr result (λ failed. failed.error ≡ Post ↔ LacksRoom failed.outcomes) }
    ensures ends { IfErr result (λ failed. HasAnEndForEach scenario.now.generals failed.outcomes) }
    ensures found { IfErr result (λ failed. IfSome failed.outcomes.halt (IsHaltOf D.kind scenario.now)) }
{
    let threads = scenario.generals();
    let unshared = Unshared::new(Board::new(alloc, *scenario.board()), threads + 1);
    mustered::<R, G, Brand, D>(rt, alloc, scenario, gate, stack, unshared)
}

/// Plays the scenario's campaign as `muster_as` does, on the board `unshared`. `J` is this board's name in proofs. No
/// thread uses the board yet, and it must have the scenario's words.
///
/// # Errors
///
/// The errors are those of `muster`.
fn mustered<R: Threads + Wait + Sync, G: Gate + Sync, J: Room + Send + Sync, D: Delivered + Sync>(
    rt: &R,
    alloc: Global,
    scenario: &Scenario,
    gate: &G,
    stack: usize,
    unshared: Unshared,
) -> Result<AccountedCampaign<D>, FailedMuster>
    requires book { unshared.book ≡ J.book }
    requires opening { unshared.opening ≡ J.opening }
    requires words { unshared.opening ≡ scenario.now.board }
    requires ledger { (unshared.name ≡ J.name) × (unshared.parts ≡ J.parts) }
    requires threads { unshared.parts ≡ suc scenario.now.generals }
    ensures legal { IfOk result (λ campaign. IsLegal scenario.now.board campaign.accesses.items) }
    ensures accounted { IfOk result
        (λ campaign. AreAccounted D.kind scenario.now [] campaign.accesses.items campaign.rounds.items) }
    ensures told { IfOk result (λ campaign. D.was_told scenario.now campaign.rounds.items campaign.told) }
    ensures decisions { IfOk result
        (λ campaign. campaign.decisions.items ≡ D.decided scenario.now campaign.rounds.items) }
    ensures passed { IfOk result (λ campaign. AreGated (G.passed gate.now) campaign.rounds.items) }
    ensures memory { IfErr result (λ failed. failed.error ≡ Memory ↔ LacksMemory failed.outcomes) }
    ensures unaccounted { IfErr result (λ failed. failed.error ≡ Unaccounted ↔ LacksAccount failed.outcomes) }
    ensures spawn { IfErr result (λ failed. failed.error ≡ Spawn ↔ LacksThread failed.outcomes) }
    ensures post { IfErr result (λ failed. failed.error ≡ Post ↔ LacksRoom failed.outcomes) }
    ensures ends { IfErr result (λ failed. HasAnEndForEach scenario.now.generals failed.outcomes) }
    ensures found { IfErr result (λ failed. IfSome failed.outcomes.halt (IsHaltOf D.kind scenario.now)) }
{
    let threads = scenario.generals() + 1;
    let (board, mut witnesses) = SharedBoard::<J>::new(alloc, unshared, threads)?;
    let Some(witness) = witnesses.pop() else {
        unreachable!()
    };
    by_board::<R, G, J, Brand, D>(rt, alloc, scenario, gate, stack, board, witness, witnesses)
}

/// Plays the scenario's campaign as `muster_as` does, on `board`, which must have the scenario's words at first. Each
/// general gets one of `witnesses`. `witness` is kept to take the board back at the end, so the campaign's accesses
/// begin with those that it has seen.
///
/// # Errors
///
/// The errors are those of `muster`.
fn by_board<
    R: Threads + Wait + Sync,
    G: Gate + Sync,
    J: Room + Send + Sync,
    C: Claim + Send + Sync,
    D: Delivered + Sync,
>(
    rt: &R,
    alloc: Global,
    scenario: &Scenario,
    gate: &G,
    stack: usize,
    board: SharedBoard<J>,
    witness: Witness<J>,
    witnesses: Vec<Witness<J>>,
) -> Result<AccountedCampaign<D>, FailedMuster>
    requires words { J.opening ≡ scenario.now.board }
    requires witnesses { scenario.now.generals ≤ length witnesses.items }
    requires unserved { All (λ w. w.made ≡ 0) witnesses.items }
    requires claim { (l : LetterSeen) → C.holds l ↔ IsGated (G.passed gate.now) l }
    ensures unlike { IfErr result (λ failed. IfSome failed.outcomes.halt (λ halt.
        IfUnlike halt (λ b. (b.opening ≡ scenario.now.board) × IsPrefix witness.seen b.ledger))) }
    ensures history { IfOk result (λ campaign. IsPrefix witness.seen campaign.accesses.items) }
    ensures legal { IfOk result (λ campaign. IsLegal scenario.now.board campaign.accesses.items) }
    ensures accounted { IfOk result
        (λ campaign. AreAccounted D.kind scenario.now [] campaign.accesses.items campaign.rounds.items) }
    ensures told { IfOk result (λ campaign. D.was_told scenario.now campaign.rounds.items campaign.told) }
    ensures decisions { IfOk result
        (λ campaign. campaign.decisions.items ≡ D.decided scenario.now campaign.rounds.items) }
    ensures passed { IfOk result (λ campaign. AreGated (G.passed gate.now) campaign.rounds.items) }
    ensures memory { IfErr result (λ failed. failed.error ≡ Memory ↔ LacksMemory failed.outcomes) }
    ensures unaccounted { IfErr result (λ failed. failed.error ≡ Unaccounted ↔ LacksAccount failed.outcomes) }
    ensures spawn { IfErr result (λ failed. failed.error ≡ Spawn ↔ LacksThread failed.outcomes) }
    ensures post { IfErr result (λ failed. failed.error ≡ Post ↔ LacksRoom failed.outcomes) }
    ensures ends { IfErr result (λ failed. HasAnEndForEach scenario.now.generals failed.outcomes) }
    ensures found { IfErr result (λ failed. IfSome failed.outcomes.halt (IsHaltOf D.kind scenario.now)) }
{
    let ((rounds, told), generals) = collect::<R, G, J, C, D>(
        rt, alloc, scenario, gate, &board, witnesses, stack,
    )?;
    let board = board.into_board(rt, witness);
    let judged = judge(rt, alloc, scenario, &board, &rounds, &told);
    let (decisions, _generals) = Ending::new(judged, generals).told()?;
    Ok(AccountedCampaign {
        accesses: board.into_ledger(),
        rounds,
        told,
        decisions,
    })
}
