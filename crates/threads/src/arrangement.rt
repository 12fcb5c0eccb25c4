//! Arranges letters by round and general.
ghost use Rattle.std.specs.Prelude.{◌≡◌, ◌+◌, ◌<◌, ◌≤◌, ◌∷◌, [], suc, length, MatchOption, IfOk, IfSome, slice_get};
ghost use Rattle.std.specs.List.{remove};
ghost use Rattle.world.specs.World.{each};
ghost use Rattle.world.specs.Accounted.{letter_by, letters_by};
ghost use Rattle.threads.specs.Taking.{left_by, left_by_all, IsGrid};

use round::{Letter, Round};
use std::alloc::{AllocError, Global};

/// Returns the index of the first letter of this general in this round, or `None` if there is no such letter.
fn index_of(letters: &[Letter], general: u32, round: u32) -> Option<usize>
    ensures within { IfSome result (λ i. i < length letters.now) }
    ensures found { MatchOption result (letter_by general round letters.now ≡ None)
        (λ i. letter_by general round letters.now ≡ slice_get letters.now i) }
    ensures left { IfSome result (λ i. left_by general round letters.now ≡ remove letters.now i) }
{
    for i in 0..letters.len() {
        let letter = &letters[i];
        if letter.general == general && letter.round == round {
            return Some(i);
        }
    }
    None
}

/// Removes the first letter of this general in this round from `letters` and returns it. Returns `None` if there is no
/// such letter.
fn take(letters: &mut Vec<Letter>, general: u32, round: u32) -> Option<Letter>
    ensures found { result ≡ letter_by general round letters.old.items }
    ensures left { IfSome result (λ _. letters.new.items ≡ left_by general round letters.old.items) }
    ensures fewer { IfSome result (λ _. length letters.new.items + 1 ≡ length letters.old.items) }
{
    match index_of(letters.as_slice(), general, round) {
        Some(i) => Some(letters.remove(i)),
        None => None,
    }
}

/// Removes the first letter of each general in this round from `letters`, and returns these letters, ascending by
/// general. Returns `None` if a general has no letter of this round.
///
/// # Errors
///
/// `AllocError` if an allocation fails.
fn take_round(
    alloc: Global,
    letters: &mut Vec<Letter>,
    generals: u32,
    round: u32,
) -> Result<Option<Vec<Letter>>, AllocError>
    ensures row { IfOk result (λ o. MatchOption o (length (letters_by generals round letters.old.items) < generals)
        (λ row. (row.items ≡ letters_by generals round letters.old.items) × (length row.items ≡ generals))) }
    ensures left { IfOk result (λ o. IfSome o (λ _. letters.new.items ≡ left_by_all generals round letters.old.items)) }
    ensures fewer { IfOk result (λ o. IfSome o (λ _. length letters.new.items + generals ≡ length letters.old.items)) }
{
    let mut row = Vec::with_capacity(alloc, generals as usize)?;
    for general in 0..generals {
        match take(letters, general, round) {
            Some(letter) => row.push(letter)?,
            None => return Ok(None),
        }
    }
    Ok(Some(row))
}

/// Returns the letters by round, and within a round by general, ascending. Returns `None` unless `letters` has exactly
/// one letter for each general and round and no other letter.
///
/// # Errors
///
/// `AllocError` if an allocation fails.
pub(crate) fn arrange(
    alloc: Global,
    letters: Vec<Letter>,
    generals: u32,
    rounds: u32,
) -> Result<Option<Vec<Round>>, AllocError>
    ensures grid { IfOk result (λ o. MatchOption o (¬ IsGrid generals rounds letters.items)
        (λ rows. IsGrid generals rounds letters.items
        × (rows.items ≡ each rounds (λ r. letters_by generals (suc r) letters.items ∷ [])))) }
    ensures count { IfOk result (λ o. IfSome o (λ rows. length rows.items ≡ rounds)) }
{
    let mut left = letters;
    let mut rows = Vec::with_capacity(alloc, rounds as usize)?;
    for r in 0..rounds {
        match take_round(alloc, &mut left, generals, r + 1)? {
            Some(letters) => rows.push(Round { letters })?,
            None => return Ok(None),
        }
    }
    if left.is_empty() {
        Ok(Some(rows))
    } else {
        Ok(None)
    }
}
