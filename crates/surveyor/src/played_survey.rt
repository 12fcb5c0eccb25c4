//! Plays the campaigns of a survey, prints a line for each or a summary of all, and writes campaigns to the folder of
//! `--keep`.
ghost use Rattle.std.specs.Prelude.{◌≡◌, ◌≢◌, ◌++◌, IfErr, IfOk, OnOk, Some, is_some, map, true};
ghost use Rattle.std.specs.Io.KnownBytes.{Appends};
ghost use Rattle.surveyor.specs.Asked.{IsSurvey};
ghost use Rattle.surveys.specs.Judging.{IsRefusedIn};
ghost use Rattle.surveyor.specs.Ends.{IsStopped, IsUnsurveyed};
ghost use Rattle.surveyor.specs.Faults.{IsKeptIn, IsUnkeptIn, IsUnprinted};
ghost use Rattle.surveyor.specs.Kept.{Gains, campaign_file, campaign_files};
ghost use Rattle.surveyor.specs.Printed.{IsPrinted, IsSurveyed, broken_seeds, head_in, kept_seeds, lines_in};

use crate::accounts::accounted;
use crate::family::family_of;
use crate::fault::SurveyFailure;
use crate::keeper::Keeper;
use crate::kept_campaigns::open_folder;
use crate::minimal_campaigns::shrunken;
use crate::pieces::{at_once, refused};
use crate::printer::{print, put_summary};
use crate::progress::SurveyProgress;
use crate::task::{ReportKind, Survey};
use std::alloc::{AllocError, Global};
use std::thread::Threads;
use streams::Output;
use surveys::{
    Family, Finding, RunningCounts, campaign_text, failed_in, head, is_sound, lines_text, seeds_in,
    survey,
};

/// Plays a campaign for each seed of a survey, and prints what the survey asks for, such as a summary, a line for each
/// campaign, or the least broken campaign.
///
/// # Errors
///
/// Fails if the family's file or a campaign is rejected, if the output or a campaign's file cannot be written, or if
/// memory runs out.
#[tactic(auto, using(crate::proofs::FaultLemmas::untaken, crate::proofs::FaultLemmas::unopened, crate::proofs::FaultLemmas::unended_least, crate::proofs::FaultLemmas::unended_accounts, crate::proofs::FaultLemmas::unended_drawn))]
pub fn surveyed<T: Threads + Sync, O: Output, K: Keeper>(
    rt: &HostRuntime,
    threads: &T,
    out: &mut O,
    keeper: &mut K,
    asked: &Survey,
) -> Result<(), SurveyFailure>
    requires { IsSurvey asked.now }
    ensures answered { OnOk result
        (IsSurveyed asked.now (O.contents out.old) (O.contents out.new) (K.files keeper.old) (K.files keeper.new)) }
    ensures refused { IfErr result (IsUnsurveyed asked.now) }
{
    let family = family_of(rt, asked)?;
    if let Some(folder) = &asked.keep {
        open_folder(rt, folder.as_str(), asked.first)?;
    }
    if asked.shape == ReportKind::Least {
        return shrunken(rt, threads, out, keeper, asked, &family);
    }
    if asked.shape == ReportKind::Accounts {
        return accounted(rt, threads, out, keeper, asked, &family);
    }
    played(rt, threads, out, keeper, asked, &family)
}

/// Plays the campaigns of a family, and prints a line for each or a summary of all. If the survey names a folder,
/// writes the broken campaigns to it, or all campaigns with `--keep-all`.
///
/// # Errors
///
/// Fails if a campaign is rejected, if the output or a campaign's file cannot be written, or if memory runs out.
#[tactic(auto, using(crate::proofs::FaultLemmas::stopped_printing, crate::proofs::FaultLemmas::stopped_keeping, crate::proofs::FaultLemmas::stopped_by_memory, crate::proofs::FaultLemmas::stopped_campaign))]
fn played<T: Threads + Sync, O: Output, K: Keeper>(
    rt: &HostRuntime,
    threads: &T,
    out: &mut O,
    keeper: &mut K,
    asked: &Survey,
    family: &Family,
) -> Result<(), SurveyFailure>
    requires asked { IsSurvey asked.now }
    requires shape { asked.now.shape ≢ ReportKind.Least }
    requires counted { asked.now.shape ≢ ReportKind.Accounts }
    ensures printed { OnOk result
        (IsPrinted asked.now family.now (O.contents out.old) (O.contents out.new) (K.files keeper.old)
        (K.files keeper.new)) }
    ensures stopped { IfErr result (IsStopped asked.now (IsRefusedIn family.now)) }
{
    let alloc = rt.alloc();
    let end = asked.last + 1;
    let many = at_once(asked.generals.high);
    let mut counts = RunningCounts::new(alloc)?;
    let mut next = asked.first;
    let mut broken: u64 = 0;
    let mut progress = SurveyProgress::of(rt, asked.first, asked.last);
    put_head(rt, out, asked.shape, family)?;
    while next < end {
        let until = next.saturating_add(many).min(end);
        let found = match survey(threads, alloc, family, next, until) {
            Ok(found) => found,
            Err(error) => return Err(refused(next, until, error)),
        };
        put_lines(rt, out, asked.shape, found.as_slice())?;
        let seeds = kept_seeds(alloc, asked.keeps_all, found.as_slice())?;
        keep_all(rt, keeper, asked, family, seeds.as_slice())?;
        counts.add(alloc, found.as_slice())?;
        broken = broken.saturating_add(failed_in(found.as_slice()));
        next = until;
        progress.tell(next.saturating_sub(1), broken)?;
    }
    put_summary(alloc, out, asked.shape, &counts)
}

/// Returns the seeds of the campaigns that are written to files: of all campaigns if `keeps_all` is set, and otherwise
/// of the broken ones.
///
/// # Errors
///
/// Fails with `AllocError` if memory runs out.
pub(crate) fn kept_seeds(
    alloc: Global,
    keeps_all: bool,
    found: &[Finding],
) -> Result<Vec<u64>, AllocError>
    ensures { IfOk result (λ seeds. seeds.items ≡ kept_seeds keeps_all found.now) }
{
    if keeps_all {
        seeds_in(alloc, found)
    } else {
        broken_seeds(alloc, found)
    }
}

/// Returns the seeds of the broken campaigns: those in which the loyal lieutenants do not agree, or do not obey a loyal
/// commander.
///
/// # Errors
///
/// Fails with `AllocError` if memory runs out.
fn broken_seeds(alloc: Global, found: &[Finding]) -> Result<Vec<u64>, AllocError>
    ensures { IfOk result (λ seeds. seeds.items ≡ broken_seeds found.now) }
{
    let mut seeds = Vec::new(alloc);
    for finding in found {
        if !is_sound(finding.verdict) {
            seeds.push(finding.seed)?;
        }
    }
    Ok(seeds)
}

/// Prints the first line of the output of `--lines`, which describes the family. Prints nothing if another form is
/// asked for.
///
/// # Errors
///
/// Fails if the output cannot be written, or if memory runs out.
pub(crate) fn put_head<O: Output>(
    rt: &HostRuntime,
    out: &mut O,
    shape: ReportKind,
    family: &Family,
) -> Result<(), SurveyFailure>
    ensures written { OnOk result (Appends (O.contents out.old) (O.contents out.new) (head_in shape family.now)) }
    ensures refused { IfErr result IsUnprinted }
{
    if shape != ReportKind::Lines {
        return Ok(());
    }
    print(out, head(rt.alloc(), family)?.as_str())
}

/// Prints a line for each of these campaigns with `--lines`. Prints nothing if another form is asked for.
///
/// # Errors
///
/// Fails if the output cannot be written, or if memory runs out.
fn put_lines<O: Output>(
    rt: &HostRuntime,
    out: &mut O,
    shape: ReportKind,
    found: &[Finding],
) -> Result<(), SurveyFailure>
    ensures written { OnOk result (Appends (O.contents out.old) (O.contents out.new) (lines_in shape found.now)) }
    ensures refused { IfErr result IsUnprinted }
{
    if shape != ReportKind::Lines {
        return Ok(());
    }
    print(out, lines_text(rt.alloc(), found)?.as_str())
}

/// Writes the campaigns of these seeds to the folder of `--keep` or `--keep-all`. Does nothing if the survey has no
/// such folder.
///
/// # Errors
///
/// Fails if a file cannot be written, or if memory runs out.
#[tactic(auto, using(crate::proofs::FaultLemmas::kept_where, crate::proofs::KeptLemmas::none_gained))]
pub(crate) fn keep_all<K: Keeper>(
    rt: &HostRuntime,
    keeper: &mut K,
    asked: &Survey,
    family: &Family,
    seeds: &[u64],
) -> Result<(), SurveyFailure>
    ensures kept { OnOk result
        (Gains (K.files keeper.old) (K.files keeper.new) (campaign_files asked.now.keep family.now seeds.now)) }
    ensures unkept { IfErr result (IsKeptIn (is_some asked.now.keep)) }
{
    match &asked.keep {
        Some(folder) => keep_in(rt, keeper, folder.as_str(), family, seeds),
        None => Ok(()),
    }
}

/// Writes the campaign of each of these seeds to the file SEED.toml in the folder named `folder`.
///
/// # Errors
///
/// Fails if a file cannot be written, or if memory runs out.
#[tactic(auto, using(crate::proofs::FaultLemmas::unkept_one, crate::proofs::FaultLemmas::unkept_by_memory))]
fn keep_in<K: Keeper>(
    rt: &HostRuntime,
    keeper: &mut K,
    folder: &str,
    family: &Family,
    seeds: &[u64],
) -> Result<(), SurveyFailure>
    ensures kept { OnOk result (Gains (K.files keeper.old) (K.files keeper.new)
        (map (campaign_file folder.now family.now) seeds.now)) }
    ensures unkept { IfErr result IsUnkeptIn }
{
    for seed in seeds {
        let text = campaign_text(rt.alloc(), family, *seed)?;
        keeper.keep(folder, *seed, text.as_str())?;
    }
    Ok(())
}
