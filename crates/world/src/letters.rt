//! Makes the letters of a round when it is closed: first drafts, which need memory, then the letters, which need none.
ghost use Rattle.std.specs.Prelude.{◌≡◌, ◌≢◌, ◌<◌, ◌≤◌, ◌+◌, ℕ, [], suc, List, Some, length, ◌++◌, ◌&&◌, drop, IfOk, slice_get, vec_len, vec_capacity};
ghost use Rattle.std.specs.List.{list_all};
ghost use Rattle.board.specs.Board.{Access as Entry};
ghost use Rattle.round.specs.Activation.{Activation};
ghost use Rattle.round.specs.Contexts.{faithful_letter};
ghost use Rattle.round.specs.Running.{letter_left};
ghost use Rattle.round.specs.Runs.{IsLetter};
ghost use Rattle.round.specs.Told.{WasTold};
ghost use Rattle.world.specs.Closing.{AreDraftsOf, Begun, draft_of, drafts_held, letter_from, letters_from};
ghost use Rattle.world.specs.Part.{Acting, owes_no_letter};
ghost use Rattle.world.specs.World.{accesses_of};

use crate::draft::{LetterDraft, Transcript};
use crate::part::Progress;
use board::Access;
use round::{Letter, Received, Round, Scenario, loyal_letter};
use std::alloc::{AllocError, Global};
use std::mem::replace;

/// Returns the drafts of all generals' letters in the open round, ascending. `parts` has what each general has done in
/// it so far. Writing letters from these drafts, into a list with room for them, allocates no memory. Fails with
/// `AllocError` if it runs out of memory.
pub(crate) fn drafts(
    alloc: Global,
    told: &Received,
    scenario: &Scenario,
    closed: &[Round],
    accesses: &[Access],
    parts: &[Progress],
) -> Result<Vec<LetterDraft>, AllocError>
    requires told { WasTold scenario.now closed.now told.now }
    requires left { length closed.now ≤ scenario.now.bound }
    ensures { IfOk result (λ drafts. drafts.items ≡ drafts_held scenario.now closed.now accesses.now parts.now) }
{
    let mut drafts = Vec::with_capacity(alloc, usize::from(scenario.generals()))?;
    for general in 0..scenario.generals() {
        drafts.push(draft(alloc, told, scenario, closed, accesses, parts, general)?)?;
    }
    Ok(drafts)
}

/// Returns the draft of one general's letter in the open round: a traitor's accesses, or a loyal general's letter if he
/// has posted. Fails with `AllocError` if it runs out of memory.
fn draft(
    alloc: Global,
    told: &Received,
    scenario: &Scenario,
    closed: &[Round],
    accesses: &[Access],
    parts: &[Progress],
    general: u8,
) -> Result<LetterDraft, AllocError>
    requires told { WasTold scenario.now closed.now told.now }
    requires left { length closed.now ≤ scenario.now.bound }
    requires inside { general < scenario.now.generals }
    ensures { IfOk result (λ draft. draft
        ≡ draft_of scenario.now closed.now accesses.now general (slice_get parts.now general)) }
{
    match parts.get(usize::from(general)) {
        Some(Progress::Acting(_)) => Ok(LetterDraft::Begun(transcript(
            alloc,
            accesses,
            u32::from(general),
        )?)),
        Some(Progress::Posted) => Ok(LetterDraft::Whole(loyal(
            alloc, told, scenario, closed, general,
        )?)),
        Some(Progress::Silent) => Ok(LetterDraft::Missing),
        None => Ok(LetterDraft::Missing),
    }
}

/// Returns a loyal general's letter of the open round, in which he relays what he received in the closed rounds. Fails
/// with `AllocError` if it runs out of memory.
fn loyal(
    alloc: Global,
    told: &Received,
    scenario: &Scenario,
    closed: &[Round],
    general: u8,
) -> Result<Letter, AllocError>
    requires told { WasTold scenario.now closed.now told.now }
    requires left { length closed.now ≤ scenario.now.bound }
    requires inside { general < scenario.now.generals }
    ensures { IfOk result (λ letter. letter ≡ faithful_letter scenario.now closed.now general) }
{
    scenario.recall();
    let round = closed.len() as u32 + 1;
    let context = told.context(alloc, scenario, general)?;
    loyal_letter(alloc, u32::from(general), round, context)
}

/// Returns a copy of those accesses that were made by this general, in their order.
///
/// # Errors
///
/// Fails with `AllocError` if there is no memory for the copy.
pub fn transcript(
    alloc: Global,
    accesses: &[Access],
    general: u32,
) -> Result<Transcript, AllocError>
    ensures { IfOk result (λ own. own ≡ accesses_of general accesses.now) }
{
    let mut own = Vec::new(alloc);
    for access in accesses {
        if access.general == general {
            own.push(access.copy(alloc)?)?;
        }
    }
    Ok(Transcript { accesses: own })
}

/// Returns the letters of `generals` generals in a round, made from their drafts and the traitors' activations. They
/// are written into `list`, which must be empty and have room for them, so no memory is allocated.
///
/// The activations are moved out of `parts`, which should then be dropped.
pub fn letters(
    mut list: Vec<Letter>,
    mut drafts: Vec<LetterDraft>,
    parts: &mut Vec<Progress>,
    generals: u8,
    round: u32,
) -> Vec<Letter>
    requires empty { list.items ≡ [] }
    requires room { generals ≤ vec_capacity list }
    requires count { length drafts.items ≡ generals }
    requires runs { AreDraftsOf round drafts.items parts.old.items }
    ensures { result.items ≡ letters_from generals round drafts.items parts.old.items }
{
    for general in 0..generals {
        write(&mut list, &mut drafts, parts, general, round);
    }
    list
}

/// Appends one general's letter to `list`. It appends nothing if his draft says that he has no letter.
fn write(
    list: &mut Vec<Letter>,
    drafts: &mut Vec<LetterDraft>,
    parts: &mut Vec<Progress>,
    general: u8,
    round: u32,
)
    requires room { vec_len list.old < vec_capacity list.old }
    requires there { general < length drafts.old.items }
    requires run { (transcript : List Entry) (a : Activation) →
        slice_get drafts.old.items general ≡ Some (Begun transcript)
        → slice_get parts.old.items general ≡ Some (Acting a) → IsLetter (letter_left general round transcript a) }
    ensures list { list.new.items ≡ list.old.items
        ++ letter_from general round (slice_get drafts.old.items general) (slice_get parts.old.items general) }
    ensures few { vec_len list.new ≤ vec_len list.old + 1 }
    ensures room { vec_capacity list.new ≡ vec_capacity list.old }
    ensures count { length drafts.new.items ≡ length drafts.old.items }
    ensures drafts { (j : ℕ) → j ≢ general → slice_get drafts.new.items j ≡ slice_get drafts.old.items j }
    ensures parts { (j : ℕ) → j ≢ general → slice_get parts.new.items j ≡ slice_get parts.old.items j }
{
    let place = usize::from(general);
    match replace(&mut drafts[place], LetterDraft::Missing) {
        LetterDraft::Begun(transcript) => {
            if place < parts.len() {
                leave(
                    list,
                    &mut parts[place],
                    transcript,
                    u32::from(general),
                    round,
                );
            }
        }
        LetterDraft::Whole(letter) => list.push_reserved(letter),
        LetterDraft::Missing => {}
    }
}

/// Appends a traitor's letter to `list`. It is made from his accesses and from his activation, which is moved out of
/// `part`.
fn leave(
    list: &mut Vec<Letter>,
    part: &mut Progress,
    transcript: Transcript,
    general: u32,
    round: u32,
)
    requires room { vec_len list.old < vec_capacity list.old }
    requires run { (a : Activation) → part.old ≡ Acting a → IsLetter (letter_left general round transcript a) }
    ensures list { list.new.items ≡ list.old.items
        ++ letter_from general round (Some (Begun transcript)) (Some part.old) }
    ensures few { vec_len list.new ≤ vec_len list.old + 1 }
    ensures room { vec_capacity list.new ≡ vec_capacity list.old }
{
    if let Progress::Acting(running) = replace(part, Progress::Silent) {
        list.push_reserved(running.into_letter(general, round, transcript.accesses));
    }
}

/// Returns the accesses of the ledger from index `opened` on.
pub fn since(ledger: &[Access], opened: usize) -> &[Access]
    ensures { result.now ≡ drop opened ledger.now }
{
    if opened > ledger.len() {
        return &ledger[ledger.len()..];
    }
    &ledger[opened..]
}

/// Returns whether `full` is true and every loyal general has posted in the open round. `full` says whether all of them
/// posted in each closed round.
pub fn is_full(full: bool, parts: &[Progress]) -> bool
    ensures { result ≡ (full && list_all owes_no_letter parts.now) }
{
    full && all_posted(parts)
}

/// Returns whether every loyal general has posted in the open round.
fn all_posted(parts: &[Progress]) -> bool
    ensures { result ≡ list_all owes_no_letter parts.now }
{
    parts.iter().all(|part| part.owes_no_letter())
}
