//! Reads campaigns whose decisions may be explained, and checks that the general whose decision is explained is a
//! lieutenant.
ghost use Rattle.std.specs.Prelude.{◌≡◌, None, IfErr, IfOk, OnOk};
ghost use Rattle.cli_tasks.specs.Explained.{RefusesExplained, TellsAsked, scenario_of, stranger_asked};
ghost use Rattle.cli_tasks.specs.Refusals.{RefusesText};
ghost use Rattle.cli_tasks.specs.Schedules.{is_chronicle};
ghost use Rattle.cli_tasks.specs.Strangers.{IsOf};

use crate::campaigns::asked_campaign;
use crate::refusal::InputRefusal;
use crate::strangers::know_tree;
use cli_words::{Account, Lieutenants};
use round::Scenario;
use scenario::Campaign;
use std::alloc::Global;

/// Checks that `explained` names a lieutenant of the scenario. All lieutenants, and none, are allowed too.
///
/// # Errors
///
/// Fails with `Stranger` if the named general is not a lieutenant.
fn know_asked(scenario: &Scenario, explained: Option<Lieutenants>) -> Result<(), InputRefusal>
    ensures known { OnOk result (stranger_asked scenario.now explained ≡ None) }
    ensures refused { IfErr result (IsOf scenario.now.generals (stranger_asked scenario.now explained)) }
{
    match explained {
        Some(Lieutenants::One(general)) => {
            know_tree(scenario.generals(), scenario.commander(), general, &[])
        }
        Some(Lieutenants::All) | None => Ok(()),
    }
}

/// Checks that `explained` names a lieutenant of an oral or signed campaign. All lieutenants, and none, are allowed
/// too.
///
/// # Errors
///
/// Fails with `Stranger` if the named general is not a lieutenant.
fn know_asked_in(campaign: &Campaign, explained: Option<Lieutenants>) -> Result<(), InputRefusal>
    ensures known { OnOk result (stranger_asked (scenario_of campaign.now) explained ≡ None) }
    ensures refused { IfErr result
        (IsOf (scenario_of campaign.now).generals (stranger_asked (scenario_of campaign.now) explained)) }
{
    match campaign {
        Campaign::Oral(scenario) => know_asked(scenario, explained),
        Campaign::Signed(scenario) => know_asked(scenario, explained),
    }
}

/// Reads the campaign that `play`, `muster` or `audit` needs. `account` says whether it is printed as a chronicle or as
/// a message table, and `explained` which decisions are explained. Only an oral campaign has a message table.
///
/// # Errors
///
/// Fails with `Scenario` for the first fault of the scenario, with `NotText` if the bytes are not UTF-8, with
/// `Stranger` if `explained` names a general who is not a lieutenant, and with `Memory` if memory runs out.
#[tactic(auto, using(crate::proofs::ExplainedLemmas::campaign_asked))]
pub(crate) fn played_campaign(
    alloc: Global,
    bytes: &[u8],
    account: Account,
    explained: Option<Lieutenants>,
) -> Result<Campaign, InputRefusal>
    ensures told { IfOk result (TellsAsked (is_chronicle account) explained bytes.now) }
    ensures refused { IfErr result (RefusesText (RefusesExplained (is_chronicle account) explained) bytes.now) }
{
    let campaign = asked_campaign(alloc, bytes, account)?;
    know_asked_in(&campaign, explained)?;
    Ok(campaign)
}
