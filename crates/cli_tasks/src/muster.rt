//! Runs a campaign with a thread for each general, and writes its chronicle (subcommand `muster`).
ghost use Rattle.std.specs.Prelude.{IfOk, IfErr};
ghost use Rattle.cli_tasks.specs.Campaigns.{IsMustered, IsOralMustered, IsSignedMustered};
ghost use Rattle.cli_tasks.specs.CampaignRefusals.{RefusesMuster};

use crate::chronicle::{
    chronicle_text, signed_chronicle_text, with_decisions, with_signed_decisions,
};
use crate::refusal::InputRefusal;
use cli_words::Lieutenants;
use round::Scenario;
use scenario::Campaign;
use signed_threads::muster_signed;
use std::alloc::Global;
use std::sync::Wait;
use std::thread::Threads;
use threads::{Open, muster};

/// Runs a campaign, with oral or with signed messages, with a thread for each general, and waits for the threads.
/// Returns the text of its chronicle. If `explained` names lieutenants, the explanation of their decisions follows.
///
/// # Errors
///
/// Fails with `Threads` if the threads make no chronicle, for example if one cannot be started, and with `Memory` if
/// memory runs out. How the threads have ended decides which error `Threads` has.
pub fn mustered<T: Threads + Wait + Sync>(
    rt: &T,
    alloc: Global,
    campaign: Campaign,
    explained: Option<Lieutenants>,
) -> Result<Vec<u8>, InputRefusal>
    ensures mustered { IfOk result (λ text. IsMustered campaign explained text.items) }
    ensures refused { IfErr result RefusesMuster }
{
    match campaign {
        Campaign::Oral(scenario) => oral_mustered(rt, alloc, scenario, explained),
        Campaign::Signed(scenario) => signed_mustered(rt, alloc, scenario, explained),
    }
}

/// Runs an oral campaign with a thread for each general, and returns the text of its chronicle. If `explained` names
/// lieutenants, the explanation of their decisions follows.
#[tactic(auto, using(crate::proofs::CampaignLemmas::is_mustered, crate::proofs::CampaignLemmas::mustered_wholly, crate::proofs::MusterLemmas::refuses_muster))]
fn oral_mustered<T: Threads + Wait + Sync>(
    rt: &T,
    alloc: Global,
    scenario: Scenario,
    explained: Option<Lieutenants>,
) -> Result<Vec<u8>, InputRefusal>
    ensures mustered { IfOk result (λ text. IsOralMustered scenario explained text.items) }
    ensures refused { IfErr result RefusesMuster }
{
    scenario.recall();
    let chronicle = muster(rt, alloc, scenario, &Open)?;
    let text = chronicle_text(alloc, &chronicle)?;
    Ok(with_decisions(alloc, text, &chronicle, explained)?)
}

/// Runs a signed campaign with a thread for each general, and returns the text of its chronicle. If `explained` names
/// lieutenants, the explanation of their decisions follows.
#[tactic(auto, using(crate::proofs::CampaignLemmas::is_signed_mustered, crate::proofs::MusterLemmas::refuses_muster))]
fn signed_mustered<T: Threads + Wait + Sync>(
    rt: &T,
    alloc: Global,
    scenario: Scenario,
    explained: Option<Lieutenants>,
) -> Result<Vec<u8>, InputRefusal>
    ensures mustered { IfOk result (λ text. IsSignedMustered scenario explained text.items) }
    ensures refused { IfErr result RefusesMuster }
{
    let chronicle = muster_signed(rt, alloc, scenario, &Open)?;
    let text = signed_chronicle_text(alloc, &chronicle)?;
    Ok(with_signed_decisions(alloc, text, &chronicle, explained)?)
}
