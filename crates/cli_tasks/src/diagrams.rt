//! Draws campaigns as space-time diagrams in SVG (subcommand `draw`).
ghost use Rattle.std.specs.Prelude.{◌≡◌, IfErr, IfOk};
ghost use Rattle.cli_tasks.specs.Diagrams.{IsCampaignDrawn, IsDiagram, IsRecordDrawn};
ghost use Rattle.cli_tasks.specs.Promises.{AreFaithful};
ghost use Rattle.cli_tasks.specs.Refusals.{RefusesChronicle, RefusesText};
ghost use Rattle.show_table.specs.Retold.{IsWhole};
ghost use Rattle.scenario.specs.declared.messages.Campaign.TheVariants.{Oral, Signed};
ghost use Rattle.show_chains.specs.Svg.{signed_svg};

use crate::refusal::InputRefusal;
use crate::sound_chronicles::{sound_chronicle, sound_signed_chronicle};
use book::recall_orders;
use round::Scenario;
use scenario::Campaign;
use show_chains::signed_campaign_svg;
use show_diagram::campaign_svg;
use show_table::{hearing, told_table};
use signed::{SignedChronicle, play_signed};
use std::alloc::{AllocError, Global};
use world::{Chronicle, Schedule, play};

/// Plays the campaign by the schedule, and returns its space-time diagram in SVG.
///
/// # Errors
///
/// Fails with `AllocError` if memory runs out.
pub fn diagrammed(
    alloc: Global,
    campaign: Campaign,
    schedule: &Schedule,
) -> Result<Vec<u8>, AllocError>
    ensures { IfOk result (λ picture. IsCampaignDrawn campaign schedule.now picture.items) }
{
    match campaign {
        Campaign::Oral(scenario) => oral_diagrammed(alloc, scenario, schedule),
        Campaign::Signed(scenario) => signed_diagrammed(alloc, scenario, schedule),
    }
}

/// Plays an oral campaign by the schedule, and returns its space-time diagram in SVG.
#[tactic(auto, using(crate::proofs::DiagramLemmas::played_drawn))]
fn oral_diagrammed(
    alloc: Global,
    scenario: Scenario,
    schedule: &Schedule,
) -> Result<Vec<u8>, AllocError>
    ensures { IfOk result (λ picture. IsCampaignDrawn (Oral scenario) schedule.now picture.items) }
{
    scenario.recall();
    let chronicle = play(alloc, scenario, schedule)?;
    Ok(diagram_of(alloc, &chronicle)?)
}

/// Plays a signed campaign by the schedule, and returns its space-time diagram in SVG.
fn signed_diagrammed(
    alloc: Global,
    scenario: Scenario,
    schedule: &Schedule,
) -> Result<Vec<u8>, AllocError>
    ensures { IfOk result (λ picture. IsCampaignDrawn (Signed scenario) schedule.now picture.items) }
{
    scenario.recall();
    let chronicle = play_signed(alloc, scenario, schedule)?;
    Ok(signed_diagram_of(alloc, &chronicle)?)
}

/// Reads a chronicle of the campaign, and returns its space-time diagram in SVG.
///
/// # Errors
///
/// Fails with `Trace` and the line at fault if the bytes are not a chronicle of the campaign, with `NotText` if they
/// are not UTF-8, and with `Memory` if memory runs out.
pub fn record_diagrammed(
    alloc: Global,
    campaign: &Campaign,
    bytes: &[u8],
) -> Result<Vec<u8>, InputRefusal>
    ensures drawn { IfOk result (λ picture. IsRecordDrawn campaign.now bytes.now picture.items) }
    ensures refused { IfErr result (RefusesText (RefusesChronicle campaign.now) bytes.now) }
{
    match campaign {
        Campaign::Oral(scenario) => oral_record_diagrammed(alloc, scenario, bytes),
        Campaign::Signed(scenario) => signed_record_diagrammed(alloc, scenario, bytes),
    }
}

/// Reads a chronicle of an oral campaign, and returns its space-time diagram in SVG.
#[tactic(auto, using(crate::proofs::DiagramLemmas::told_drawn))]
fn oral_record_diagrammed(
    alloc: Global,
    scenario: &Scenario,
    bytes: &[u8],
) -> Result<Vec<u8>, InputRefusal>
    ensures drawn { IfOk result (λ picture. IsRecordDrawn (Oral scenario.now) bytes.now picture.items) }
    ensures refused { IfErr result (RefusesText (RefusesChronicle (Oral scenario.now)) bytes.now) }
{
    scenario.recall();
    let chronicle = sound_chronicle(alloc, scenario, bytes)?;
    Ok(diagram_of(alloc, &chronicle)?)
}

/// Reads a chronicle of a signed campaign, and returns its space-time diagram in SVG.
fn signed_record_diagrammed(
    alloc: Global,
    scenario: &Scenario,
    bytes: &[u8],
) -> Result<Vec<u8>, InputRefusal>
    ensures drawn { IfOk result (λ picture. IsRecordDrawn (Signed scenario.now) bytes.now picture.items) }
    ensures refused { IfErr result (RefusesText (RefusesChronicle (Signed scenario.now)) bytes.now) }
{
    scenario.recall();
    let chronicle = sound_signed_chronicle(alloc, scenario, bytes)?;
    Ok(signed_diagram_of(alloc, &chronicle)?)
}

/// Returns the space-time diagram of an oral campaign in SVG. It shows the chronicle, and the message table that the
/// letters in it give.
fn diagram_of(alloc: Global, chronicle: &Chronicle) -> Result<Vec<u8>, AllocError>
    requires whole { IsWhole chronicle.now }
    requires faithful { AreFaithful chronicle.now }
    ensures { IfOk result (λ picture. IsDiagram chronicle.now picture.items) }
{
    chronicle.scenario().recall();
    let told = hearing(alloc, chronicle)?;
    recall_orders(told.trees());
    let table = told_table(&told, chronicle);
    Ok(campaign_svg(alloc, &table, chronicle)?.into_bytes())
}

/// Returns the space-time diagram of a signed campaign's chronicle in SVG.
fn signed_diagram_of(alloc: Global, chronicle: &SignedChronicle) -> Result<Vec<u8>, AllocError>
    ensures { IfOk result (λ picture. picture.items ≡ signed_svg chronicle.now) }
{
    Ok(signed_campaign_svg(alloc, chronicle)?.into_bytes())
}
