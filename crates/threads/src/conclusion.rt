//! Judges a campaign that has ended: compares its letters with the ledger, and makes its decisions and its chronicle.
ghost use Rattle.std.specs.Prelude.{◌≡◌, ◌≢◌, ◌≤◌, [], suc, All, List, length, Ok, IfOk, OnOk, IfErr, IsErrAnd, MatchBool};
ghost use Rattle.std.specs.Thread.{IsSync};
ghost use Rattle.board.specs.Board.{IsLegal};
ghost use Rattle.round.specs.Letters.{Letter as LetterSeen, messages};
ghost use Rattle.world.specs.KindAccounted.{AreAccounted};
ghost use Rattle.world.specs.Chronicle.{decisions, chronicle_of};
ghost use Rattle.world.specs.Lists.{IsComplete, replayed, names_in};
ghost use Rattle.world.specs.Promises.{AgreeIfTolerable, AreSafeThroughout, AreWhole, IsVerdictOn, IsWellUnderBound};
ghost use Rattle.world.specs.Replay.{replay_of};
ghost use Rattle.world.specs.Safety.{IsShort};
ghost use Rattle.world.specs.World.{oral_kind};
ghost use Rattle.threads.specs.Outcomes.{halt_as, IfUnlike, IsHaltOf};
ghost use Rattle.threads.specs.declared.error.MusterError.TheVariants.{Memory, Unaccounted, Spawn, Post};

use crate::account::are_accounted;
use crate::delivered::Delivered;
use crate::halt::Halt;
use arrayvec::ArrayVec;
use board::{Access, Board};
use round::{Round, Scenario};
use std::alloc::{AllocError, Global};
use std::snapshot::Snapshot;
use std::thread;
use std::thread::Threads;
use world::Chronicle;

/// Evidence that a board does not account for the letters of a campaign. Only `accounted` creates one.
#[derive(Drop)]
pub struct Unlike {
    /// A snapshot of this board.
    board: Snapshot<Board>,
    /// A snapshot of these letters, by round.
    rounds: Snapshot<Vec<Round>>,
}

/// Returns the order on which each lieutenant decides, ascending by lieutenant, if the ledger of `board` accounts for
/// the letters in `rows`. `board` served the campaign, and `told` is what these letters have delivered. One thread
/// compares the letters with the ledger while another makes the decisions.
///
/// # Errors
///
/// `Unlike` if the board opened with other words than the scenario's, or if its ledger does not account for the
/// letters. `Memory` if an allocation fails.
pub(crate) fn judge<R: Threads + Sync, D: Delivered + Sync>(
    rt: &R,
    alloc: Global,
    scenario: &Scenario,
    board: &Board,
    rows: &Vec<Round>,
    told: &D,
) -> Result<ArrayVec<u32, 12>, Halt>
    requires rounds { length rows.now.items ≡ suc scenario.now.bound }
    requires told { D.was_told scenario.now rows.now.items told.now }
    requires all { D.count told.now ≡ suc scenario.now.bound }
    ensures legal { OnOk result (IsLegal scenario.now.board board.now.ledger) }
    ensures accounted { OnOk result (AreAccounted D.kind scenario.now [] board.now.ledger rows.now.items) }
    ensures decisions { IfOk result (λ orders. orders.items ≡ D.decided scenario.now rows.now.items) }
    ensures unaccounted { IfErr result (λ e. halt_as e ≡ Unaccounted →
        ¬ ((board.now.opening ≡ scenario.now.board) × AreAccounted D.kind scenario.now [] board.now.ledger rows.now.items)) }
    ensures memory { IfErr result (λ e. halt_as e ≡ Memory → board.now.opening ≡ scenario.now.board) }
    ensures started { IfErr result (λ e. halt_as e ≢ Spawn) }
    ensures posted { IfErr result (λ e. halt_as e ≢ Post) }
    ensures unlike { IfErr result (λ e. IfUnlike e (λ b. b ≡ board.now)) }
    ensures found { board.now.opening ≡ scenario.now.board → IfErr result (IsHaltOf D.kind scenario.now) }
{
    let (compared, decided) = thread::join(
        rt,
        || -> Result<(), Halt>
            requires rounds { length rows.now.items ≡ suc scenario.now.bound }
            requires told { D.was_told scenario.now rows.now.items told.now }
            ensures legal { OnOk result (IsLegal scenario.entry.now.board board.entry.now.ledger) }
            ensures accounted { OnOk result (AreAccounted D.kind scenario.entry.now [] board.entry.now.ledger rows.entry.now.items) }
            ensures unaccounted { IfErr result (λ e. halt_as e ≡ Unaccounted
                → ¬ ((board.entry.now.opening ≡ scenario.entry.now.board)
                × AreAccounted D.kind scenario.entry.now [] board.entry.now.ledger rows.entry.now.items)) }
            ensures opening { OnOk result (board.entry.now.opening ≡ scenario.entry.now.board) }
            ensures memory { IfErr result (λ e. halt_as e ≡ Memory → board.entry.now.opening ≡ scenario.entry.now.board) }
            ensures started { IfErr result (λ e. halt_as e ≢ Spawn) }
            ensures posted { IfErr result (λ e. halt_as e ≢ Post) }
            ensures unlike { IfErr result (λ e. IfUnlike e (λ b. b ≡ board.entry.now)) }
            ensures found { board.entry.now.opening ≡ scenario.entry.now.board
                → IfErr result (IsHaltOf D.kind scenario.entry.now) }
        { account(alloc, scenario, board, rows, told) },
        || -> Result<ArrayVec<u32, 12>, AllocError>
            requires shared { IsSync R.row }
            requires told { (before : List (List LetterSeen)) × D.was_told scenario.now before told.now }
            requires all { D.count told.now ≡ suc scenario.now.bound }
            ensures { IfOk result (λ orders. (before : List (List LetterSeen)) →
                D.was_told scenario.entry.now before told.entry.now
                → orders.items ≡ D.decided scenario.entry.now before) }
        { told.decide(rt, alloc, scenario) },
    );
    compared?;
    Ok(decided?)
}

/// Checks that the ledger of `board` accounts for the letters in `rows`, which has them by round. `board` served the
/// campaign, and `told` is what these letters have delivered.
///
/// # Errors
///
/// `Unlike` if the board opened with other words than the scenario's, or if its ledger does not account for the
/// letters. `Memory` if an allocation fails.
fn account<D: Delivered>(
    alloc: Global,
    scenario: &Scenario,
    board: &Board,
    rows: &Vec<Round>,
    told: &D,
) -> Result<(), Halt>
    requires rounds { length rows.now.items ≡ suc scenario.now.bound }
    requires told { D.was_told scenario.now rows.now.items told.now }
    ensures legal { OnOk result (IsLegal scenario.now.board board.now.ledger) }
    ensures opening { OnOk result (board.now.opening ≡ scenario.now.board) }
    ensures accounted { OnOk result (AreAccounted D.kind scenario.now [] board.now.ledger rows.now.items) }
    ensures unaccounted { IfErr result (λ e. halt_as e ≡ Unaccounted →
        ¬ ((board.now.opening ≡ scenario.now.board) × AreAccounted D.kind scenario.now [] board.now.ledger rows.now.items)) }
    ensures memory { IfErr result (λ e. halt_as e ≡ Memory → board.now.opening ≡ scenario.now.board) }
    ensures started { IfErr result (λ e. halt_as e ≢ Spawn) }
    ensures posted { IfErr result (λ e. halt_as e ≢ Post) }
    ensures unlike { IfErr result (λ e. IfUnlike e (λ b. b ≡ board.now)) }
    ensures found { board.now.opening ≡ scenario.now.board → IfErr result (IsHaltOf D.kind scenario.now) }
{
    let is_opened = board.opening().as_slice() == scenario.board().as_slice();
    accounted(board, rows, is_opened)?;
    let are_accounted = are_accounted(alloc, told, scenario, rows.as_slice(), 0, board.ledger())?;
    accounted(board, rows, are_accounted)?;
    Ok(())
}

/// Returns `Ok` if `is_so`, a condition that must hold if the board accounts for the letters in `rows`.
///
/// # Errors
///
/// `Unlike` with snapshots of the board and of the letters if `is_so` is false.
fn accounted(board: &Board, rows: &Vec<Round>, is_so: bool) -> Result<(), Unlike>
    ensures { MatchBool is_so (result ≡ Ok tt) (IsErrAnd result
        (λ unlike. (unlike.board.value ≡ board.now) × (unlike.rounds.value.items ≡ rows.now.items))) }
{
    if is_so {
        Ok(())
    } else {
        Err(Unlike {
            board: Snapshot::of(board),
            rounds: Snapshot::of(rows),
        })
    }
}

/// Returns the chronicle of a campaign: its accesses, its letters by round and the lieutenants' decisions. The accesses
/// must be legal and account for the letters, so the chronicle is the same as that of the replay of the accesses.
/// `orders` must be the decisions to which the letters lead, ascending by lieutenant.
pub(crate) fn conclude(
    scenario: Scenario,
    accesses: Vec<Access>,
    rows: Vec<Round>,
    orders: ArrayVec<u32, 12>,
) -> Chronicle
    requires legal { IsLegal scenario.board accesses.items }
    requires accounted { AreAccounted oral_kind scenario [] accesses.items rows.items }
    requires decisions { orders.items ≡ decisions scenario (messages rows.items) }
    ensures scenario { result.scenario ≡ scenario }
    ensures accesses { result.accesses ≡ accesses.items }
    ensures letters { result.letters ≡ rows.items }
    ensures replay { result ≡ chronicle_of (replay_of scenario result.accesses) }
    ensures complete { IsComplete scenario (replayed scenario (names_in 1 result.accesses (suc scenario.bound))) }
    ensures legal { IsLegal scenario.board result.accesses }
    ensures safe { AreSafeThroughout oral_kind scenario
        (replayed scenario (names_in 1 result.accesses (suc scenario.bound))) }
    ensures whole { AreWhole oral_kind scenario result.accesses result.letters }
    ensures short { All (λ letters. All IsShort letters) result.letters }
    ensures decisions { result.decisions ≡ decisions scenario (messages result.letters) }
    ensures agree { AgreeIfTolerable scenario result.decisions }
    ensures verdict { IsVerdictOn scenario result.decisions result.verdict }
    ensures well { IsWellUnderBound result.verdict }
{
    scenario.recall();
    Chronicle::of(scenario, accesses, rows, orders)
}
