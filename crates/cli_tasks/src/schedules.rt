//! Makes schedules for a campaign, from its chronicle or from a list of accesses (subcommand `schedule`).
ghost use Rattle.std.specs.Prelude.{IfErr, IfOk, string_bytes};
ghost use Rattle.campaign_schedules.specs.Arranged.{IfFault, IsArranged, IsUnarranged};
ghost use Rattle.cli_tasks.specs.Explained.{scenario_of};
ghost use Rattle.cli_tasks.specs.Refusals.{RefusesChronicle, RefusesText};
ghost use Rattle.cli_tasks.specs.CampaignRefusals.{RefusesListed};
ghost use Rattle.cli_tasks.specs.Retracing.{Arranges, IsScheduleFor, kind_of};
ghost use Rattle.scenario.specs.declared.messages.Campaign.TheVariants.{Oral, Signed};

use crate::campaigns::any_campaign;
use crate::refusal::InputRefusal;
use crate::texts::as_text;
use campaign_schedules::AccessesError;
use round::Scenario;
use scenario::Campaign;
use std::alloc::Global;

/// Reads a chronicle of the campaign, and returns the text of a schedule by which the campaign has this chronicle.
///
/// # Errors
///
/// Fails with `Trace` and the line at fault if the bytes are not a chronicle of the campaign, with `NotText` if they
/// are not UTF-8, and with `Memory` if memory runs out.
pub fn retraced(alloc: Global, campaign: &Campaign, bytes: &[u8]) -> Result<Vec<u8>, InputRefusal>
    ensures retraced { IfOk result (λ lines. IsScheduleFor campaign.now bytes.now lines.items) }
    ensures refused { IfErr result (RefusesText (RefusesChronicle campaign.now) bytes.now) }
{
    match campaign {
        Campaign::Oral(scenario) => oral_retraced(alloc, scenario, bytes),
        Campaign::Signed(scenario) => signed_retraced(alloc, scenario, bytes),
    }
}

/// Reads a chronicle of an oral campaign, and returns the text of a schedule by which the campaign has this chronicle.
fn oral_retraced(alloc: Global, scenario: &Scenario, bytes: &[u8]) -> Result<Vec<u8>, InputRefusal>
    ensures retraced { IfOk result (λ lines. IsScheduleFor (Oral scenario.now) bytes.now lines.items) }
    ensures refused { IfErr result (RefusesText (RefusesChronicle (Oral scenario.now)) bytes.now) }
{
    Ok(campaign_schedules::retraced(alloc, scenario, as_text(bytes)?)?.into_bytes())
}

/// Reads a chronicle of a signed campaign, and returns the text of a schedule by which the campaign has this chronicle.
fn signed_retraced(
    alloc: Global,
    scenario: &Scenario,
    bytes: &[u8],
) -> Result<Vec<u8>, InputRefusal>
    ensures retraced { IfOk result (λ lines. IsScheduleFor (Signed scenario.now) bytes.now lines.items) }
    ensures refused { IfErr result (RefusesText (RefusesChronicle (Signed scenario.now)) bytes.now) }
{
    Ok(campaign_schedules::signed_retraced(alloc, scenario, as_text(bytes)?)?.into_bytes())
}

/// Reads a campaign from `bytes`, and returns the text of a schedule in which its accesses to the board happen in the
/// sequence that `list` gives.
///
/// # Errors
///
/// Fails first if the bytes are not a campaign, then if `list` is not a list of accesses, and then for the first listed
/// access that cannot happen. Fails with `Memory` if memory runs out.
#[tactic(auto, using(crate::proofs::ListedLemmas::of_campaign, crate::proofs::ListedLemmas::of_accesses))]
pub fn arranged(alloc: Global, bytes: &[u8], list: &str) -> Result<String, InputRefusal>
    ensures arranged { IfOk result (λ lines. Arranges list.now bytes.now (string_bytes lines)) }
    ensures refused { IfErr result (RefusesText (RefusesListed list.now) bytes.now) }
{
    let campaign = any_campaign(alloc, bytes)?;
    Ok(arrangement(alloc, &campaign, list)?)
}

/// Returns the text of a schedule in which the campaign's accesses to the board happen in the sequence that `list`
/// gives. Fails with the first fault of the list or of one of its accesses, or if memory runs out.
fn arrangement(alloc: Global, campaign: &Campaign, list: &str) -> Result<String, AccessesError>
    ensures arranged { IfOk result
        (λ lines. IsArranged (kind_of campaign.now) (scenario_of campaign.now) list.now (string_bytes lines)) }
    ensures unarranged { IfErr result
        (λ e. IfFault e (IsUnarranged (kind_of campaign.now) (scenario_of campaign.now) list.now)) }
{
    match campaign {
        Campaign::Oral(scenario) => campaign_schedules::arranged(alloc, scenario, list),
        Campaign::Signed(scenario) => campaign_schedules::signed_arranged(alloc, scenario, list),
    }
}
