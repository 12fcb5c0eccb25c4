//! Drafts the letters of a round when it is closed, and makes the chains sent with them. This is all of a close that
//! needs memory.
ghost use Rattle.std.specs.Prelude.{◌≡◌, ◌≤◌, ◌<◌, length, IfOk, slice_get};
ghost use Rattle.signed.specs.Entries.{dispatched};
ghost use Rattle.signed.specs.Sending.{draft_behind, draft_in, drafts_behind, entries_drafted, part_in, sent_drafted, signatures, IsSent};
ghost use Rattle.signed.specs.Sent.{held_behind};

use crate::dispatch::dispatched;
use crate::held_chains::Held;
use crate::loyal_letters::loyal_letter;
use crate::sent_chains::{Sending, SentRound};
use crate::signer::Signer;
use board::Access;
use round::Scenario;
use semantics::Entry;
use std::alloc::{AllocError, Global};
use world::Progress;
use world::draft::LetterDraft;
use world::letters::transcript;

/// Returns the drafts of all generals' letters in the open round, ascending. `parts` has what each general has done in
/// it so far. Fails with `AllocError` if it runs out of memory.
pub(crate) fn drafts(
    alloc: Global,
    scenario: &Scenario,
    sent: &[SentRound],
    accesses: &[Access],
    parts: &[Progress],
) -> Result<Vec<LetterDraft>, AllocError>
    requires left { length sent.now ≤ scenario.now.bound }
    requires sent { IsSent scenario.now sent.now }
    ensures { IfOk result (λ drafts. drafts.items ≡ drafts_behind scenario.now sent.now accesses.now parts.now) }
{
    let mut drafts = Vec::with_capacity(alloc, usize::from(scenario.generals()))?;
    for general in 0..scenario.generals() {
        drafts.push(draft(alloc, scenario, sent, accesses, parts, general)?)?;
    }
    Ok(drafts)
}

/// Returns the draft of one general's letter in the open round: a traitor's accesses, or a loyal general's letter if he
/// has posted. Fails with `AllocError` if it runs out of memory.
fn draft(
    alloc: Global,
    scenario: &Scenario,
    sent: &[SentRound],
    accesses: &[Access],
    parts: &[Progress],
    general: u8,
) -> Result<LetterDraft, AllocError>
    requires left { length sent.now ≤ scenario.now.bound }
    requires sent { IsSent scenario.now sent.now }
    requires inside { general < scenario.now.generals }
    ensures { IfOk result (λ draft. draft
        ≡ draft_behind scenario.now sent.now accesses.now general (slice_get parts.now general)) }
{
    match parts.get(usize::from(general)) {
        Some(Progress::Acting(_)) => Ok(LetterDraft::Begun(transcript(
            alloc,
            accesses,
            u32::from(general),
        )?)),
        Some(Progress::Posted) => Ok(LetterDraft::Whole(loyal_letter(
            alloc, scenario, sent, general,
        )?)),
        Some(Progress::Silent) => Ok(LetterDraft::Missing),
        None => Ok(LetterDraft::Missing),
    }
}

/// Returns the chains that each general sends in the round after those in `sent`, ascending by sender. A sender's
/// signature is the last on his chains. Fails with `AllocError` if it runs out of memory.
pub(crate) fn sendings(
    alloc: Global,
    scenario: &Scenario,
    sent: &[SentRound],
    signers: &[Signer],
    drafts: &[LetterDraft],
    parts: &[Progress],
) -> Result<SentRound, AllocError>
    requires sent { IsSent scenario.now sent.now }
    requires signers { signers.now ≡ signatures scenario.now.generals scenario.now.commander }
    ensures { IfOk result (λ round. round ≡ sent_drafted scenario.now sent.now drafts.now parts.now) }
{
    let mut sendings = Vec::with_capacity(alloc, usize::from(scenario.generals()))?;
    for general in 0..scenario.generals() {
        let signer = &signers[usize::from(general)];
        sendings.push(sending(alloc, scenario, sent, signer, drafts, parts, general)?)?;
    }
    Ok(SentRound { sendings })
}

/// Returns the chains that this general sends in the round after those in `sent`, with his signature as the last. Fails
/// with `AllocError` if it runs out of memory.
fn sending(
    alloc: Global,
    scenario: &Scenario,
    sent: &[SentRound],
    signer: &Signer,
    drafts: &[LetterDraft],
    parts: &[Progress],
    general: u8,
) -> Result<Sending, AllocError>
    requires sent { IsSent scenario.now sent.now }
    requires inside { general < scenario.now.generals }
    requires own { signer.now ≡ record { general = general; commander = scenario.now.commander } }
    ensures { IfOk result (λ sending. sending
        ≡ dispatched scenario.now.generals scenario.now.commander general
        (held_behind scenario.now.generals sent.now general)
        (entries_drafted (slice_get drafts.now general) (slice_get parts.now general))) }
{
    scenario.recall();
    let held = Held::behind(alloc, sent, general)?;
    let place = usize::from(general);
    let entries = entries(drafts.get(place), parts.get(place));
    dispatched(alloc, signer, scenario.generals(), &held, entries)
}

/// Returns the entries of a general's outbox, at most 8. They are in a traitor's activation, or in the draft of a loyal
/// general's letter. A general without either has none.
fn entries<'a>(draft: Option<&'a LetterDraft>, part: Option<&'a Progress>) -> &'a [Entry]
    ensures same { result.now ≡ entries_drafted (draft_in draft.entry) (part_in part.entry) }
    ensures few { length result.now ≤ 8 }
{
    match (draft, part) {
        (Some(LetterDraft::Begun(_)), Some(Progress::Acting(running))) => running
            .outbox()
            .entries(),
        (Some(LetterDraft::Whole(letter)), _) => letter.outbox.entries(),
        _ => &[],
    }
}
