//! Turns the options that `clap` has parsed into a task: to play campaigns, to print one with `--campaign`, to search
//! with `--break`, or to sum with `--sum`.
ghost use Rattle.std.specs.Prelude.{IfErr, IfOk};
ghost use Rattle.clap.specs.Words.{found_of, rows_of};
ghost use Rattle.surveyor.specs.Asked.{IsAsked};
ghost use Rattle.surveyor.specs.Flags.{has};
ghost use Rattle.surveyor.specs.Meant.{Asks};
ghost use Rattle.surveyor.specs.Wrong.{AsksNothing, IsRefused};
ghost use Rattle.surveyor.specs.declared.task.Merge.{Merge};
ghost use Rattle.surveyor.specs.declared.task.OneCampaign.{OneCampaign};
ghost use Rattle.surveyor.specs.declared.task.Survey.{Survey};

mod breaks;
mod campaigns;
mod plays;
mod sums;

use crate::task::{Asked, AskedError, Merge, OneCampaign, Survey};
use crate::word_values::{given, has, names};
use breaks::break_of;
use campaigns::campaign_of;
use clap::ArgMatches;
use plays::survey_of;
use std::alloc::Global;
use sums::merge_of;

/// Returns the task that the parsed options describe.
///
/// # Errors
///
/// Fails if a value is wrong, if two options cannot be used together, or if memory runs out.
#[tactic(auto, using(crate::proofs::MeantLemmas::no_merge_asked, crate::proofs::MeantLemmas::no_campaign_asked, crate::proofs::MeantLemmas::no_survey_asked))]
pub fn meant(alloc: Global, found: &ArgMatches) -> Result<Asked, AskedError>
    ensures asked { IfOk result IsAsked }
    ensures told { IfOk result (Asks (rows_of (found_of found.now))) }
    ensures refused { let rows = rows_of (found_of found.now) in
        IfErr result (IsRefused rows (AsksNothing rows)) }
{
    if let Some(names) = names(found) {
        return Ok(Asked::Merge(merge_of(alloc, found, names)?));
    }
    if let Some(word) = given(found, "campaign") {
        return Ok(Asked::Campaign(campaign_of(alloc, found, word)?));
    }
    if has(found, "break") {
        let (survey, is_table) = break_of(alloc, found)?;
        return Ok(Asked::Break(survey, is_table));
    }
    Ok(Asked::Survey(survey_of(alloc, found)?))
}
