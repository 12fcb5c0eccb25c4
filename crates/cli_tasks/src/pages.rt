//! Writes campaigns as HTML pages (subcommand `page`).
ghost use Rattle.std.specs.Prelude.{◌≡◌, IfErr, IfOk, None, Some, option_map};
ghost use Rattle.cli_tasks.specs.Pages.{IsCampaignPaged, IsPage, IsRecordTold};
ghost use Rattle.cli_tasks.specs.Promises.{AreFaithful};
ghost use Rattle.cli_tasks.specs.Refusals.{RefusesChronicle, RefusesText};
ghost use Rattle.show_table.specs.Retold.{IsWhole};
ghost use Rattle.scenario.specs.declared.messages.Campaign.TheVariants.{Oral, Signed};
ghost use Rattle.show_page.specs.SignedAccount.{signed_page_text};

use crate::refusal::InputRefusal;
use crate::sound_chronicles::{sound_chronicle, sound_signed_chronicle};
use book::recall_orders;
use round::Scenario;
use scenario::Campaign;
use show_page::{page_text, signed_page_text};
use show_table::{hearing, told_table};
use signed::{SignedChronicle, play_signed};
use std::alloc::{AllocError, Global};
use world::{Chronicle, Schedule, play};

/// Plays the campaign by the schedule, and returns its HTML page. `text` is the text of the campaign's scenario.
///
/// # Errors
///
/// Fails with `AllocError` if memory runs out.
pub fn paged(
    alloc: Global,
    text: &str,
    campaign: Campaign,
    schedule: &Schedule,
) -> Result<Vec<u8>, AllocError>
    ensures { IfOk result (λ page. IsCampaignPaged campaign text.now schedule.now page.items) }
{
    match campaign {
        Campaign::Oral(scenario) => oral_paged(alloc, text, scenario, schedule),
        Campaign::Signed(scenario) => signed_paged(alloc, text, scenario, schedule),
    }
}

/// Plays an oral campaign by the schedule, and returns it as an HTML page. `text` is the text of its scenario.
#[tactic(auto, using(crate::proofs::PageLemmas::played_paged))]
fn oral_paged(
    alloc: Global,
    text: &str,
    scenario: Scenario,
    schedule: &Schedule,
) -> Result<Vec<u8>, AllocError>
    ensures { IfOk result (λ page. IsCampaignPaged (Oral scenario) text.now schedule.now page.items) }
{
    scenario.recall();
    let chronicle = play(alloc, scenario, schedule)?;
    Ok(page_of(alloc, text, Some(schedule), &chronicle)?)
}

/// Plays a signed campaign by the schedule, and returns it as an HTML page. `text` is the text of its scenario.
fn signed_paged(
    alloc: Global,
    text: &str,
    scenario: Scenario,
    schedule: &Schedule,
) -> Result<Vec<u8>, AllocError>
    ensures { IfOk result (λ page. IsCampaignPaged (Signed scenario) text.now schedule.now page.items) }
{
    scenario.recall();
    let chronicle = play_signed(alloc, scenario, schedule)?;
    Ok(signed_page_of(alloc, text, Some(schedule), &chronicle)?)
}

/// Reads a chronicle of the campaign, and returns it as an HTML page. `text` is the text of the campaign's scenario.
///
/// # Errors
///
/// Fails with `Trace` and the line at fault if the bytes are not a chronicle of the campaign, with `NotText` if they
/// are not UTF-8, and with `Memory` if memory runs out.
pub fn record_paged(
    alloc: Global,
    text: &str,
    campaign: &Campaign,
    bytes: &[u8],
) -> Result<Vec<u8>, InputRefusal>
    ensures told { IfOk result (λ page. IsRecordTold campaign.now text.now bytes.now page.items) }
    ensures refused { IfErr result (RefusesText (RefusesChronicle campaign.now) bytes.now) }
{
    match campaign {
        Campaign::Oral(scenario) => oral_record_paged(alloc, text, scenario, bytes),
        Campaign::Signed(scenario) => signed_record_paged(alloc, text, scenario, bytes),
    }
}

/// Reads a chronicle of an oral campaign, and returns it as an HTML page. `text` is the text of the campaign's
/// scenario.
#[tactic(auto, using(crate::proofs::PageLemmas::told_paged))]
fn oral_record_paged(
    alloc: Global,
    text: &str,
    scenario: &Scenario,
    bytes: &[u8],
) -> Result<Vec<u8>, InputRefusal>
    ensures told { IfOk result (λ page. IsRecordTold (Oral scenario.now) text.now bytes.now page.items) }
    ensures refused { IfErr result (RefusesText (RefusesChronicle (Oral scenario.now)) bytes.now) }
{
    scenario.recall();
    let chronicle = sound_chronicle(alloc, scenario, bytes)?;
    Ok(page_of(alloc, text, None, &chronicle)?)
}

/// Reads a chronicle of a signed campaign, and returns it as an HTML page. `text` is the text of the campaign's
/// scenario.
fn signed_record_paged(
    alloc: Global,
    text: &str,
    scenario: &Scenario,
    bytes: &[u8],
) -> Result<Vec<u8>, InputRefusal>
    ensures told { IfOk result (λ page. IsRecordTold (Signed scenario.now) text.now bytes.now page.items) }
    ensures refused { IfErr result (RefusesText (RefusesChronicle (Signed scenario.now)) bytes.now) }
{
    scenario.recall();
    let chronicle = sound_signed_chronicle(alloc, scenario, bytes)?;
    Ok(signed_page_of(alloc, text, None, &chronicle)?)
}

/// Returns an oral campaign as an HTML page. It shows the scenario's text, the schedule if there is one, the chronicle,
/// and the message table that the letters in the chronicle give.
fn page_of(
    alloc: Global,
    scenario_text: &str,
    schedule: Option<&Schedule>,
    chronicle: &Chronicle,
) -> Result<Vec<u8>, AllocError>
    requires whole { IsWhole chronicle.now }
    requires faithful { AreFaithful chronicle.now }
    ensures { IfOk result (λ page. IsPage scenario_text.now
        (option_map (λ s. s.now) schedule.entry) chronicle.now page.items) }
{
    chronicle.scenario().recall();
    let told = hearing(alloc, chronicle)?;
    recall_orders(told.trees());
    let table = told_table(&told, chronicle);
    Ok(page_text(alloc, scenario_text, schedule, &table, chronicle)?.into_bytes())
}

/// Returns a signed campaign as an HTML page. It shows the scenario's text, the schedule if there is one, and the
/// chronicle.
fn signed_page_of(
    alloc: Global,
    scenario_text: &str,
    schedule: Option<&Schedule>,
    chronicle: &SignedChronicle,
) -> Result<Vec<u8>, AllocError>
    ensures { IfOk result (λ page. page.items
        ≡ signed_page_text scenario_text.now (option_map (λ s. s.now) schedule.entry) chronicle.now) }
{
    Ok(signed_page_text(alloc, scenario_text, schedule, chronicle)?.into_bytes())
}
