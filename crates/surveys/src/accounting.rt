//! Plays a campaign, which a text describes or a seed draws, and returns its account.
ghost use Rattle.std.specs.Prelude.{◌≡◌, ◌≢◌, ◌++◌, [], ◌∷◌, IfOk, IfErr, OnOk, cond, filter};
ghost use Rattle.std.specs.List.{range_with_len};
ghost use Rattle.round.specs.Scenario.{is_traitor};
ghost use Rattle.scenario.specs.declared.messages.Campaign.TheVariants.{Oral, Signed};
ghost use Rattle.scenario.specs.declared.fault.ScenarioError.TheVariants.{Memory};
ghost use Rattle.surveys.specs.Accounting.{IsAccount, IsAccountOf, decisions_in};
ghost use Rattle.surveys.specs.Judging.{IsRefused, verdict_in};
ghost use Rattle.surveys.specs.Wording.{campaign_text};
ghost use Rattle.world.specs.Promises.{IsWellUnderBound};

use crate::account::Account;
use crate::ending::CampaignEnding;
use crate::family::Family;
use crate::finding::Finding;
use crate::judgement::{scenario_in, traitors_in, unscheduled};
use crate::scenario_text::campaign_text;
use round::Scenario;
use scenario::{Campaign, ScenarioError, read_any};
use signed::play_signed;
use std::alloc::{AllocError, Global};
use world::{Verdict, play};

/// Returns the ending of a campaign: the verdict and a copy of the decisions.
fn ended(alloc: Global, verdict: Verdict, decisions: &[u32]) -> Result<CampaignEnding, AllocError>
    ensures verdict { IfOk result (λ e. e.verdict ≡ verdict) }
    ensures decisions { IfOk result (λ e. e.decisions.items ≡ decisions.now) }
{
    Ok(CampaignEnding {
        verdict,
        decisions: Vec::from_slice(alloc, decisions)?,
    })
}

/// Plays an oral campaign without a schedule, and returns its verdict and its lieutenants' decisions.
fn oral_ending(alloc: Global, scenario: Scenario) -> Result<CampaignEnding, AllocError>
    ensures verdict { IfOk result (λ e. e.verdict ≡ verdict_in (Oral scenario)) }
    ensures decisions { IfOk result (λ e. e.decisions.items ≡ decisions_in (Oral scenario)) }
    ensures well { IfOk result (λ e. IsWellUnderBound e.verdict) }
{
    let chronicle = play(alloc, scenario, &unscheduled(alloc))?;
    ended(alloc, chronicle.verdict(), chronicle.decisions())
}

/// Plays a signed campaign without a schedule, and returns its verdict and its lieutenants' decisions.
fn signed_ending(alloc: Global, scenario: Scenario) -> Result<CampaignEnding, AllocError>
    ensures verdict { IfOk result (λ e. e.verdict ≡ verdict_in (Signed scenario)) }
    ensures decisions { IfOk result (λ e. e.decisions.items ≡ decisions_in (Signed scenario)) }
    ensures well { IfOk result (λ e. IsWellUnderBound e.verdict) }
{
    let chronicle = play_signed(alloc, scenario, &unscheduled(alloc))?;
    ended(alloc, chronicle.verdict(), chronicle.decisions())
}

/// Plays an oral or signed campaign without a schedule, and returns its verdict and its lieutenants' decisions.
fn ending_in(alloc: Global, campaign: Campaign) -> Result<CampaignEnding, AllocError>
    ensures verdict { IfOk result (λ e. e.verdict ≡ verdict_in campaign) }
    ensures decisions { IfOk result (λ e. e.decisions.items ≡ decisions_in campaign) }
    ensures well { IfOk result (λ e. IsWellUnderBound e.verdict) }
{
    match campaign {
        Campaign::Oral(scenario) => oral_ending(alloc, scenario),
        Campaign::Signed(scenario) => signed_ending(alloc, scenario),
    }
}

/// Appends the number `general` to `traitors` if `is_traitor` is true.
fn push_traitor(traitors: &mut Vec<u32>, is_traitor: bool, general: u8) -> Result<(), AllocError>
    ensures { OnOk result (traitors.new.items ≡ traitors.old.items ++ cond is_traitor (general ∷ []) []) }
{
    if is_traitor {
        traitors.push(u32::from(general))?;
    }
    Ok(())
}

/// Returns the numbers of the scenario's traitors, ascending.
fn listed_traitors(alloc: Global, scenario: &Scenario) -> Result<Vec<u32>, AllocError>
    ensures { IfOk result (λ traitors. traitors.items
        ≡ filter (is_traitor scenario.now) (range_with_len 0 scenario.now.generals)) }
{
    let mut traitors = Vec::new(alloc);
    for general in 0..scenario.generals() {
        push_traitor(&mut traitors, scenario.is_traitor(general), general)?;
    }
    Ok(traitors)
}

/// Plays the campaign that the TOML text describes, and returns its account. The account names `seed` as its seed.
///
/// # Errors
///
/// Returns the first fault of the text, or `Memory` if it runs out of memory.
pub fn account_of(alloc: Global, text: &str, seed: u64) -> Result<Account, ScenarioError>
    ensures account { IfOk result (IsAccount text.now seed) }
    ensures refused { IfErr result (λ e. e ≢ Memory → IsRefused text.now e) }
{
    let campaign = read_any(alloc, text)?;
    let scenario = scenario_in(&campaign);
    let generals = scenario.generals();
    let bound = scenario.bound();
    let order = scenario.order();
    let count = traitors_in(scenario);
    let traitors = listed_traitors(alloc, scenario)?;
    let CampaignEnding { verdict, decisions } = ending_in(alloc, campaign)?;
    Ok(Account {
        finding: Finding {
            seed,
            generals,
            bound,
            traitors: count,
            verdict,
        },
        order,
        traitors,
        decisions,
    })
}

/// Plays the campaign that `seed` draws from `family`, and returns its account.
///
/// # Errors
///
/// Returns the first fault of the campaign's text, or `Memory` if it runs out of memory.
pub fn accounted(alloc: Global, family: &Family, seed: u64) -> Result<Account, ScenarioError>
    ensures account { IfOk result (IsAccountOf family.now seed) }
    ensures refused { IfErr result (λ e. e ≢ Memory → IsRefused (campaign_text family.now seed) e) }
{
    let text = campaign_text(alloc, family, seed)?;
    account_of(alloc, text.as_str(), seed)
}
