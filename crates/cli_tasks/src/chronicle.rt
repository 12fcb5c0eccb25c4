//! Plays a campaign by a schedule, and writes its chronicle or its message table. Appends the explanation of the
//! decisions if one is asked for (subcommand `play`).
ghost use Rattle.std.specs.Prelude.{◌≡◌, ◌++◌, ◌∷◌, IfOk};
ghost use Rattle.trace.specs.SignedText.{signed_text};
ghost use Rattle.trace.specs.Text.{chronicle_text};
ghost use Rattle.show_table.specs.Retold.{IsWhole};
ghost use Rattle.cli_tasks.specs.Campaigns.{IsAccount, IsFollowed, IsOralPlayed, IsPlayed, IsSignedPlayed, asked, signed_behind};

use cli_words::{Account, Lieutenants};
use round::Scenario;
use scenario::Campaign;
use show_table::table;
use signed::{SignedChronicle, explain_signed, play_signed};
use std::alloc::{AllocError, Global};
use trace::{Latch, write_chronicle, write_signed};
use trial::campaign_notes;
use world::{Chronicle, Schedule, play};

/// Plays the campaign by the schedule. Returns its chronicle or its message table, as `account` says; a signed campaign
/// always gets its chronicle. If `explained` names lieutenants, the explanation of their decisions follows. The whole
/// text is in memory, and takes some bytes for each word and access in it.
///
/// # Errors
///
/// Fails with `AllocError` if memory runs out.
pub fn played(
    alloc: Global,
    campaign: Campaign,
    schedule: &Schedule,
    account: Account,
    explained: Option<Lieutenants>,
) -> Result<Vec<u8>, AllocError>
    ensures { IfOk result (λ text. IsPlayed campaign schedule.now account explained text.items) }
{
    match campaign {
        Campaign::Oral(scenario) => oral_played(alloc, scenario, schedule, account, explained),
        Campaign::Signed(scenario) => signed_played(alloc, scenario, schedule, explained),
    }
}

/// Plays an oral campaign by the schedule. Returns its chronicle or its message table, as `account` says. If
/// `explained` names lieutenants, the explanation of their decisions follows.
#[tactic(auto, using(crate::proofs::CampaignLemmas::played_wholly))]
fn oral_played(
    alloc: Global,
    scenario: Scenario,
    schedule: &Schedule,
    account: Account,
    explained: Option<Lieutenants>,
) -> Result<Vec<u8>, AllocError>
    ensures { IfOk result (λ text. IsOralPlayed scenario schedule.now account explained text.items) }
{
    scenario.recall();
    let chronicle = play(alloc, scenario, schedule)?;
    let front = account_text(alloc, &chronicle, account)?;
    with_decisions(alloc, front, &chronicle, explained)
}

/// Returns an oral campaign as text: its chronicle or its message table, as `account` says.
fn account_text(
    alloc: Global,
    chronicle: &Chronicle,
    account: Account,
) -> Result<Vec<u8>, AllocError>
    requires { IsWhole chronicle.now }
    ensures { IfOk result (λ text. IsAccount account chronicle.now text.items) }
{
    match account {
        Account::Chronicle => chronicle_text(alloc, chronicle),
        Account::Table => Ok(table(alloc, chronicle)?.into_bytes()),
    }
}

/// Plays a signed campaign by the schedule, and returns its chronicle. If `explained` names lieutenants, the
/// explanation of their decisions follows.
fn signed_played(
    alloc: Global,
    scenario: Scenario,
    schedule: &Schedule,
    explained: Option<Lieutenants>,
) -> Result<Vec<u8>, AllocError>
    ensures { IfOk result (λ text. IsSignedPlayed scenario schedule.now explained text.items) }
{
    let chronicle = play_signed(alloc, scenario, schedule)?;
    let front = signed_chronicle_text(alloc, &chronicle)?;
    with_signed_decisions(alloc, front, &chronicle, explained)
}

/// Returns the text of an oral campaign's chronicle.
pub(crate) fn chronicle_text(alloc: Global, chronicle: &Chronicle) -> Result<Vec<u8>, AllocError>
    ensures { IfOk result (λ text. text.items ≡ chronicle_text chronicle.now) }
{
    let mut latch = Latch::new(Vec::new(alloc));
    match write_chronicle(chronicle, &mut latch) {
        Ok(()) => Ok(latch.into_writer()),
        Err(_) => Err(AllocError),
    }
}

/// Appends a line feed, then `lines` and then `notes` to a text. After a text that ends with a line feed this makes an
/// empty line.
#[tactic(auto, using(crate::proofs::CampaignLemmas::behind_lines))]
fn with_lines(front: Vec<u8>, lines: &str, notes: &str) -> Result<Vec<u8>, AllocError>
    ensures { IfOk result (λ text. text.items ≡ front.items ++ 10 ∷ (lines.now ++ notes.now)) }
{
    let mut text = front;
    text.push(b'\n')?;
    text.extend_from_slice(lines.as_bytes())?;
    text.extend_from_slice(notes.as_bytes())?;
    Ok(text)
}

/// Appends an empty line and the explanation of decisions in an oral campaign to its text, with a note for each call of
/// a traitor that has no effect. Returns the text unchanged if `explained` is `None`.
#[tactic(auto, using(crate::proofs::CampaignLemmas::alone, crate::proofs::CampaignLemmas::followed))]
pub(crate) fn with_decisions(
    alloc: Global,
    front: Vec<u8>,
    chronicle: &Chronicle,
    explained: Option<Lieutenants>,
) -> Result<Vec<u8>, AllocError>
    requires { IsWhole chronicle.now }
    ensures { IfOk result (λ text. IsFollowed explained chronicle.now front.items text.items) }
{
    let Some(who) = explained else {
        return Ok(front);
    };
    let lines = show_table::explained(alloc, chronicle, asked(who))?;
    let notes = campaign_notes(alloc, chronicle.letters())?;
    with_lines(front, lines.as_str(), notes.as_str())
}

/// Appends an empty line and the explanation of decisions in a signed campaign to its text, with a note for each call
/// of a traitor that has no effect. Returns the text unchanged if `explained` is `None`.
#[tactic(auto, using(crate::proofs::CampaignLemmas::signed_alone, crate::proofs::CampaignLemmas::signed_followed))]
pub(crate) fn with_signed_decisions(
    alloc: Global,
    front: Vec<u8>,
    chronicle: &SignedChronicle,
    explained: Option<Lieutenants>,
) -> Result<Vec<u8>, AllocError>
    ensures { IfOk result (λ text. text.items ≡ front.items ++ signed_behind explained chronicle.now) }
{
    let Some(who) = explained else {
        return Ok(front);
    };
    let lines = explain_signed(alloc, chronicle, asked(who))?;
    let notes = campaign_notes(alloc, chronicle.letters())?;
    with_lines(front, lines.as_str(), notes.as_str())
}

/// Returns the number of the lieutenant whose decision is explained, or `None` if the decisions of all lieutenants are.
fn asked(who: Lieutenants) -> Option<u8>
    ensures { result ≡ asked who }
{
    match who {
        Lieutenants::All => None,
        Lieutenants::One(general) => Some(general),
    }
}

/// Returns the text of a signed campaign's chronicle.
pub(crate) fn signed_chronicle_text(
    alloc: Global,
    chronicle: &SignedChronicle,
) -> Result<Vec<u8>, AllocError>
    ensures { IfOk result (λ text. text.items ≡ signed_text chronicle.now) }
{
    let mut latch = Latch::new(Vec::new(alloc));
    match write_signed(chronicle, &mut latch) {
        Ok(()) => Ok(latch.into_writer()),
        Err(_) => Err(AllocError),
    }
}
