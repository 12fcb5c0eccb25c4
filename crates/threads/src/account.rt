//! Checks whether a ledger accounts for the letters of a campaign.
ghost use Rattle.std.specs.Prelude.{◌≡◌, ◌↔◌, ◌<◌, ◌≤◌, ℕ, suc, take, drop, min, sum_by, length, All, List, IsTrue, IfOk, OnOk};
ghost use Rattle.round.specs.Scenario.{program_of};
ghost use Rattle.round.specs.Letters.{Letter as LetterSeen};
ghost use Rattle.world.specs.Kind.{accesses_of};
ghost use Rattle.world.specs.KindAccounted.{IsLetterOf, IsAccountedRound, AreAccounted};
ghost use Rattle.threads.specs.Holding.{EndedInTime, Stands};

use crate::delivered::Delivered;
use board::Access;
use round::{Letter, Round, Scenario};
use std::alloc::{AllocError, Global};

/// Returns whether `transcript` is exactly the list of this general's accesses in `piece`, in the same order. `piece`
/// may also contain accesses of other generals.
fn is_part(piece: &[Access], general: u32, transcript: &[Access]) -> bool
    ensures { IsTrue result ↔ (accesses_of general piece.now ≡ transcript.now) }
{
    let mut next = 0;
    for access in piece {
        if access.general == general {
            if next >= transcript.len() || !access.same(&transcript[next]) {
                return false;
            }
            next += 1;
        }
    }
    next == transcript.len()
}

/// Returns whether each access of `piece` was made in round `round`, by a general whose number is below `generals`.
fn are_known(piece: &[Access], generals: u32, round: u32) -> bool
    ensures { IsTrue result ↔ All (λ a. (a.general < generals) × (a.round ≡ round)) piece.now }
{
    piece.iter().all(|access| access.general < generals && access.round == round)
}

/// Returns whether the general's activation ended as it should: his program exited, or it used up its patience. It must
/// not have taken more steps than the patience allows.
fn is_over(scenario: &Scenario, letter: &Letter) -> bool
    ensures { IsTrue result ↔ EndedInTime scenario.now letter.now }
{
    match scenario.patience() {
        None => letter.exited,
        Some(patience) => letter.steps <= patience && (letter.exited || patience <= letter.steps),
    }
}

/// Returns whether `letter` is the letter expected of this general in this round. It must name him and the round,
/// contain his program and exactly his accesses in `piece`, and show that his activation ended in time. Its context is
/// not checked here.
fn stands(scenario: &Scenario, piece: &[Access], general: u8, round: u32, letter: &Letter) -> bool
    requires { general < scenario.now.generals }
    ensures { IsTrue result ↔ Stands scenario.now piece.now general round letter.now }
{
    letter.general == u32::from(general)
        && letter.round == round
        && letter.program.same(scenario.seat(general))
        && is_over(scenario, letter)
        && is_part(piece, u32::from(general), letter.transcript.as_slice())
}

/// Returns whether `letter` is this general's letter of round `rounds` + 1, and its transcript is exactly his accesses
/// in `piece`. `told` is what the letters of the first `rounds` rounds have delivered, and perhaps later ones.
///
/// # Errors
///
/// `AllocError` if an allocation fails.
fn holds_letter<D: Delivered>(
    alloc: Global,
    told: &D,
    scenario: &Scenario,
    rounds: u8,
    piece: &[Access],
    general: u8,
    letter: &Letter,
) -> Result<bool, AllocError>
    requires told { (rows : List (List LetterSeen)) × D.was_told scenario.now rows told.now }
    requires passed { rounds ≤ D.count told.now }
    requires left { rounds ≤ scenario.now.bound }
    requires general { general < scenario.now.generals }
    ensures { IfOk result (λ b. (rows : List (List LetterSeen)) → D.was_told scenario.now rows told.now → IsTrue b ↔
        (IsLetterOf D.kind scenario.now (take rounds rows) general (program_of scenario.now general) letter.now
        × (accesses_of general piece.now ≡ letter.now.transcript))) }
{
    letter.recall();
    scenario.recall();
    let round = u32::from(rounds) + 1;
    if !stands(scenario, piece, general, round, letter) {
        return Ok(false);
    }
    let is_briefed = told.is_briefed(alloc, scenario, rounds, general, letter)?;
    Ok(is_briefed)
}

/// Returns whether `letters` has exactly one letter of round `rounds` + 1 for each general, in ascending order, and
/// `piece` has exactly the accesses in these letters. `told` is what the letters of the first
/// `rounds` rounds have delivered, and perhaps later ones.
///
/// # Errors
///
/// `AllocError` if an allocation fails.
fn holds_round<D: Delivered>(
    alloc: Global,
    told: &D,
    scenario: &Scenario,
    rounds: u8,
    piece: &[Access],
    letters: &[Letter],
) -> Result<bool, AllocError>
    requires told { (rows : List (List LetterSeen)) × D.was_told scenario.now rows told.now }
    requires passed { rounds ≤ D.count told.now }
    requires left { rounds ≤ scenario.now.bound }
    ensures { IfOk result (λ b. (rows : List (List LetterSeen)) → D.was_told scenario.now rows told.now →
        IsTrue b ↔ IsAccountedRound D.kind scenario.now (take rounds rows) piece.now letters.now) }
{
    let generals = scenario.generals();
    let round = u32::from(rounds) + 1;
    if letters.len() != usize::from(generals) || !are_known(piece, u32::from(generals), round) {
        return Ok(false);
    }
    for general in 0..generals {
        let letter = &letters[usize::from(general)];
        if !holds_letter(alloc, told, scenario, rounds, piece, general, letter)? {
            return Ok(false);
        }
    }
    Ok(true)
}

/// Returns how many accesses the transcripts of these letters contain together, but at most `most`.
fn count_accesses(letters: &[Letter], most: usize) -> usize
    ensures { result ≡ min (sum_by (λ l. length l.transcript) letters.now) most }
{
    let mut count = 0;
    for i in 0..letters.len() {
        let letter = &letters[i];
        count += letter.transcript.len().min(most - count);
    }
    count
}

/// Returns whether `rest`, the ledger's accesses from index `at` of the rounds on, accounts for the letters of these
/// rounds: `rows[at]` and all later ones. `rows` has the letters of all rounds, and `told` is what they have delivered.
///
/// # Errors
///
/// `AllocError` if an allocation fails.
pub(crate) fn are_accounted<D: Delivered>(
    alloc: Global,
    told: &D,
    scenario: &Scenario,
    rows: &[Round],
    at: u8,
    rest: &[Access],
) -> Result<bool, AllocError>
    requires rounds { length rows.now ≡ suc scenario.now.bound }
    requires at { at ≤ length rows.now }
    requires told { D.was_told scenario.now rows.now told.now }
    ensures { IfOk result (λ b.
        IsTrue b ↔ AreAccounted D.kind scenario.now (take at rows.now) rest.now (drop at rows.now)) }
{
    if usize::from(at) == rows.len() {
        return Ok(rest.is_empty());
    }
    let letters = rows[usize::from(at)].letters();
    let (piece, later) = rest.split_at(count_accesses(letters, rest.len()));
    if !holds_round(alloc, told, scenario, at, piece, letters)? {
        return Ok(false);
    }
    scenario.recall();
    let more = are_accounted(alloc, told, scenario, rows, at + 1, later)?;
    Ok(more)
}
