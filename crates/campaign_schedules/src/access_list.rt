//! Parses a list of accesses, such as `1 2 1/2`: for each round the generals who access the board, in this order.
//! Slashes separate the rounds. Rejecting another text needs no memory.
ghost use Rattle.std.specs.Prelude.{◌≡◌, ◌+◌, ◌∷◌, ◌<◌, ◌≤◌, ◌^◌, ℕ, List, [], Err, Ok, Some, IfErr, IfOk, OnOk, MatchResult, vec_len};
ghost use Rattle.std.specs.Result.{result_err};
ghost use Rattle.campaign_schedules.specs.Accesses.{accesses_told, general_of, row_fault, row_told, slash};
ghost use Rattle.campaign_schedules.specs.Arranged.{IfFault};
ghost use Rattle.campaign_schedules.specs.declared.fault.AccessFault.{AccessFault as Fault};
ghost use Rattle.campaign_schedules.specs.declared.fault.AccessesError.TheVariants.{At};
ghost use Rattle.text.specs.Parts.{pieces};
ghost use Rattle.text.specs.Stop.{space};
ghost use Rattle.world.specs.Playing.{lists_in};

use crate::fault::{AccessFault, AccessesError};
use std::alloc::{AllocError, Global};
use text::{Stop, decimal, piece};

const SLASH: Stop = Stop::Byte(b'/');

const SPACE: Stop = Stop::Byte(b' ');

/// The largest number of rounds in a list of accesses.
const MOST_ROUNDS: u64 = 5;

/// Parses the decimal number of a general, from 0 to 12. Returns `None` if `part` is not such a number.
#[tactic(auto, unfolding(crate::specs::Accesses::general_of))]
fn general_of(part: &[u8]) -> Option<u8>
    ensures { result ≡ general_of part.now }
{
    let number = decimal(part)?;
    if number < 13 {
        Some(number as u8)
    } else {
        None
    }
}

/// Returns the place of the next general in a round's list. `part` is the text between two spaces. The result is
/// `place` if it is empty, and `place + 1` if it is the number of a general.
///
/// # Errors
///
/// Fails with `Text` if `part` is neither empty nor the number of a general.
fn place_behind(round: u64, place: u64, part: &[u8]) -> Result<u64, AccessFault>
    requires { place + 1 < 2 ^ 64 }
    ensures behind { (parts : List (List ℕ)) → MatchResult result
        (λ next. row_fault round place (part.now ∷ parts) ≡ row_fault round next parts)
        (λ fault. row_fault round place (part.now ∷ parts) ≡ Some fault) }
    ensures next { IfOk result (λ next. next ≤ place + 1) }
{
    if part.is_empty() {
        return Ok(place);
    }
    match general_of(part) {
        Some(_) => Ok(place + 1),
        None => Err(AccessFault::Text(round, place)),
    }
}

/// Returns the fault of the first word in a round's text that is not the number of a general, or `None` if all are.
fn row_fault(round: u64, text: &[u8]) -> Option<AccessFault>
    ensures { result ≡ row_fault round 1 (pieces space text.now) }
{
    let mut place = 1;
    let mut rest = Some(text);
    while let Some(parts) = rest {
        let (part, behind) = piece(SPACE, parts);
        match place_behind(round, place, part) {
            Ok(next) => place = next,
            Err(fault) => return Some(fault),
        }
        rest = behind;
    }
    None
}

/// Returns the first fault of a text that should be a list of accesses: a word that is not the number of a general,
/// or a sixth round. Returns `None` if the text has no fault.
#[tactic(auto, unfolding(crate::specs::Accesses::accesses_told), using(crate::proofs::Listed::told_fault))]
fn fault_of(text: &str) -> Option<AccessFault>
    ensures { result ≡ result_err (accesses_told text.now) }
{
    let mut round = 1;
    let mut rest = Some(text.as_bytes());
    while let Some(parts) = rest {
        let (part, behind) = piece(SLASH, parts);
        if let Some(fault) = row_fault(round, part) {
            return Some(fault);
        }
        if round > MOST_ROUNDS {
            return Some(AccessFault::Text(round, 1));
        }
        round += 1;
        rest = behind;
    }
    None
}

/// Appends the general whose number `part` is. Appends nothing if it is not the number of a general.
#[tactic(auto, using(crate::proofs::Listed::taken_in, crate::proofs::Listed::passed_by))]
fn take_in(row: &mut Vec<u8>, part: &[u8]) -> Result<(), AllocError>
    ensures { OnOk result ((round : ℕ) (told : List ℕ) (parts : List (List ℕ)) →
        row_told round row.old.items (part.now ∷ parts) ≡ Ok told → row_told round row.new.items parts ≡ Ok told) }
{
    let Some(general) = general_of(part) else {
        return Ok(());
    };
    row.push(general)?;
    Ok(())
}

/// Returns the generals whom the text of a round lists. Words that are not numbers of generals are skipped.
fn row_of(alloc: Global, text: &[u8]) -> Result<Vec<u8>, AllocError>
    ensures { IfOk result (λ row. (round : ℕ) (told : List ℕ) →
        row_told round [] (pieces space text.now) ≡ Ok told → told ≡ row.items) }
{
    let mut row = Vec::new(alloc);
    let mut rest = Some(text);
    while let Some(parts) = rest {
        let (part, behind) = piece(SPACE, parts);
        take_in(&mut row, part)?;
        rest = behind;
    }
    Ok(row)
}

/// Returns for each round of the text the generals whom it lists. Slashes separate the rounds.
#[tactic(auto, unfolding(crate::specs::Accesses::accesses_told), using(crate::proofs::Listed::row_taken))]
fn rows_of(alloc: Global, text: &str) -> Result<Vec<Vec<u8>>, AllocError>
    ensures { IfOk result (λ rows. (told : List (List ℕ)) →
        accesses_told text.now ≡ Ok told → told ≡ lists_in rows.items) }
{
    let mut rows = Vec::new(alloc);
    let mut rest = Some(text.as_bytes());
    while let Some(parts) = rest {
        let (part, behind) = piece(SLASH, parts);
        rows.push(row_of(alloc, part)?)?;
        rest = behind;
    }
    Ok(rows)
}

/// Returns for each round of the text, at most 5, the generals whom it lists.
///
/// # Errors
///
/// Fails with the first fault of the text if it has one, which needs no memory. Otherwise fails only with `Memory`,
/// if memory runs out.
#[tactic(auto, using(crate::proofs::Listed::listed, crate::proofs::Listed::faulty))]
pub(crate) fn accesses_of(alloc: Global, text: &str) -> Result<Vec<Vec<u8>>, AccessesError>
    ensures told { IfOk result (λ rows. accesses_told text.now ≡ Ok (lists_in rows.items)) }
    ensures few { IfOk result (λ rows. vec_len rows ≤ 5) }
    ensures fault { IfErr result (λ e. IfFault e (λ fault. accesses_told text.now ≡ Err fault)) }
    ensures unlisted { (fault : Fault) → accesses_told text.now ≡ Err fault → result ≡ Err (At fault) }
{
    if let Some(fault) = fault_of(text) {
        return Err(AccessesError::At(fault));
    }
    Ok(rows_of(alloc, text)?)
}
