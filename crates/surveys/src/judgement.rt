//! Plays a campaign, which a text describes or a seed draws, and returns its verdict.
ghost use Rattle.std.specs.Prelude.{◌≡◌, ◌≢◌, [], IfOk, IfErr};
ghost use Rattle.scenario.specs.declared.messages.Campaign.TheVariants.{Oral, Signed};
ghost use Rattle.scenario.specs.declared.fault.ScenarioError.TheVariants.{Memory};
ghost use Rattle.surveys.specs.Judging.{IsFindingOf, IsFound, IsJudged, IsRefused, scenario_in, traitors_in, verdict_in};
ghost use Rattle.surveys.specs.Wording.{campaign_text};
ghost use Rattle.world.specs.Promises.{IsWellUnderBound};

use crate::family::Family;
use crate::finding::Finding;
use crate::scenario_text::campaign_text;
use round::Scenario;
use scenario::{Campaign, ScenarioError, read_any};
use signed::play_signed;
use std::alloc::{AllocError, Global};
use world::{Schedule, Verdict, play};

/// Returns an empty schedule.
pub(crate) fn unscheduled(alloc: Global) -> Schedule
    ensures { result ≡ [] }
{
    Schedule {
        lines: Vec::new(alloc),
    }
}

/// Plays an oral campaign without a schedule, and returns the verdict on it.
fn oral_verdict(alloc: Global, scenario: Scenario) -> Result<Verdict, AllocError>
    ensures same { IfOk result (λ v. v ≡ verdict_in (Oral scenario)) }
    ensures well { IfOk result IsWellUnderBound }
{
    let chronicle = play(alloc, scenario, &unscheduled(alloc))?;
    Ok(chronicle.verdict())
}

/// Plays a signed campaign without a schedule, and returns the verdict on it.
fn signed_verdict(alloc: Global, scenario: Scenario) -> Result<Verdict, AllocError>
    ensures same { IfOk result (λ v. v ≡ verdict_in (Signed scenario)) }
    ensures well { IfOk result IsWellUnderBound }
{
    let chronicle = play_signed(alloc, scenario, &unscheduled(alloc))?;
    Ok(chronicle.verdict())
}

/// Plays an oral or signed campaign without a schedule, and returns the verdict on it.
fn verdict_in(alloc: Global, campaign: Campaign) -> Result<Verdict, AllocError>
    ensures same { IfOk result (λ v. v ≡ verdict_in campaign) }
    ensures well { IfOk result IsWellUnderBound }
{
    match campaign {
        Campaign::Oral(scenario) => oral_verdict(alloc, scenario),
        Campaign::Signed(scenario) => signed_verdict(alloc, scenario),
    }
}

/// Plays, without a schedule, the campaign that the TOML text describes. Returns the verdict on it.
///
/// # Errors
///
/// Returns the first fault of the text, or `Memory` if it runs out of memory.
pub fn verdict_on(alloc: Global, text: &str) -> Result<Verdict, ScenarioError>
    ensures judged { IfOk result (IsJudged text.now) }
    ensures refused { IfErr result (λ e. e ≢ Memory → IsRefused text.now e) }
{
    let campaign = read_any(alloc, text)?;
    Ok(verdict_in(alloc, campaign)?)
}

/// Returns the scenario of an oral or signed campaign.
pub(crate) fn scenario_in(campaign: &Campaign) -> &Scenario
    ensures { result.now ≡ scenario_in campaign.now }
{
    match campaign {
        Campaign::Oral(scenario) => scenario,
        Campaign::Signed(scenario) => scenario,
    }
}

/// Returns how many traitors the scenario has.
#[tactic(auto, using(crate::proofs::Ranges::count_range))]
pub(crate) fn traitors_in(scenario: &Scenario) -> u64
    ensures { result ≡ traitors_in scenario.now }
{
    let mut count = 0;
    for general in 0..scenario.generals() {
        if scenario.is_traitor(general) {
            count += 1;
        }
    }
    count
}

/// Plays the campaign that the TOML text describes, and returns its result. The result names `seed` as its seed.
///
/// # Errors
///
/// Returns the first fault of the text, or `Memory` if it runs out of memory.
pub fn found(alloc: Global, text: &str, seed: u64) -> Result<Finding, ScenarioError>
    ensures found { IfOk result (IsFound text.now seed) }
    ensures refused { IfErr result (λ e. e ≢ Memory → IsRefused text.now e) }
{
    let campaign = read_any(alloc, text)?;
    let scenario = scenario_in(&campaign);
    let generals = scenario.generals();
    let bound = scenario.bound();
    let traitors = traitors_in(scenario);
    Ok(Finding {
        seed,
        generals,
        bound,
        traitors,
        verdict: verdict_in(alloc, campaign)?,
    })
}

/// Plays the campaign that `seed` draws from `family`, and returns its result.
///
/// # Errors
///
/// Returns the first fault of the campaign's text, or `Memory` if it runs out of memory.
pub fn judged(alloc: Global, family: &Family, seed: u64) -> Result<Finding, ScenarioError>
    ensures found { IfOk result (IsFindingOf family.now seed) }
    ensures refused { IfErr result (λ e. e ≢ Memory → IsRefused (campaign_text family.now seed) e) }
{
    let text = campaign_text(alloc, family, seed)?;
    found(alloc, text.as_str(), seed)
}
