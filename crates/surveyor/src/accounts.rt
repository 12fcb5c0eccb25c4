//! `--lines --details`: plays the campaigns of a survey and prints a JSON line for each, with its traitors, its order
//! and the decisions.
ghost use Rattle.std.specs.Prelude.{◌≡◌, IfErr, IfOk, OnOk, flat_map, map};
ghost use Rattle.std.specs.Io.KnownBytes.{Appends};
ghost use Rattle.surveys.specs.Account.{Account as Told};
ghost use Rattle.surveys.specs.Accounting.{account_text};
ghost use Rattle.surveys.specs.Judging.{IsRefusedIn};
ghost use Rattle.surveyor.specs.Asked.{IsSurvey};
ghost use Rattle.surveyor.specs.Ends.{IsStopped};
ghost use Rattle.surveyor.specs.Faults.{IsUnprinted};
ghost use Rattle.surveyor.specs.Printed.{IsPrinted};

use crate::fault::SurveyFailure;
use crate::keeper::Keeper;
use crate::pieces::{at_once, refused};
use crate::played_survey::{keep_all, kept_seeds, put_head};
use crate::printer::print;
use crate::progress::SurveyProgress;
use crate::task::{ReportKind, Survey};
use std::alloc::{AllocError, Global};
use std::thread::Threads;
use streams::Output;
use surveys::{Account, Family, Finding, accounts, accounts_text, failed_in};

/// Plays the campaigns of a family, and prints a first line that describes the family and then a line for each
/// campaign, with its traitors, its order and the decisions. If the survey names a folder, writes the broken campaigns
/// to it, or all campaigns with `--keep-all`.
///
/// # Errors
///
/// Fails if a campaign is rejected, if the output or a campaign's file cannot be written, or if memory runs out.
#[tactic(auto, using(crate::proofs::FaultLemmas::stopped_printing, crate::proofs::FaultLemmas::stopped_keeping, crate::proofs::FaultLemmas::stopped_by_memory, crate::proofs::FaultLemmas::stopped_campaign))]
pub fn accounted<T: Threads + Sync, O: Output, K: Keeper>(
    rt: &HostRuntime,
    threads: &T,
    out: &mut O,
    keeper: &mut K,
    asked: &Survey,
    family: &Family,
) -> Result<(), SurveyFailure>
    requires asked { IsSurvey asked.now }
    requires shape { asked.now.shape ≡ ReportKind.Accounts }
    ensures printed { OnOk result
        (IsPrinted asked.now family.now (O.contents out.old) (O.contents out.new) (K.files keeper.old)
        (K.files keeper.new)) }
    ensures stopped { IfErr result (IsStopped asked.now (IsRefusedIn family.now)) }
{
    let alloc = rt.alloc();
    let end = asked.last + 1;
    let many = at_once(asked.generals.high);
    let mut next = asked.first;
    let mut broken: u64 = 0;
    let mut progress = SurveyProgress::of(rt, asked.first, asked.last);
    put_head(rt, out, ReportKind::Lines, family)?;
    while next < end {
        let until = next.saturating_add(many).min(end);
        let found = match accounts(threads, alloc, family, next, until) {
            Ok(found) => found,
            Err(error) => return Err(refused(next, until, error)),
        };
        put_accounts(rt, out, found.as_slice())?;
        let findings = findings_of(alloc, found.as_slice())?;
        let seeds = kept_seeds(alloc, asked.keeps_all, findings.as_slice())?;
        keep_all(rt, keeper, asked, family, seeds.as_slice())?;
        broken = broken.saturating_add(failed_in(findings.as_slice()));
        next = until;
        progress.tell(next.saturating_sub(1), broken)?;
    }
    Ok(())
}

/// Prints a line for each of these accounts: one account describes one campaign, with its traitors, its order and the
/// decisions.
///
/// # Errors
///
/// Fails if the output cannot be written, or if memory runs out.
fn put_accounts<O: Output>(
    rt: &HostRuntime,
    out: &mut O,
    accounts: &[Account],
) -> Result<(), SurveyFailure>
    ensures written { OnOk result (Appends (O.contents out.old) (O.contents out.new) (flat_map account_text accounts.now)) }
    ensures refused { IfErr result IsUnprinted }
{
    print(out, accounts_text(rt.alloc(), accounts)?.as_str())
}

/// Returns the result of each campaign from its account, without the traitors, the order and the decisions.
///
/// # Errors
///
/// Fails with `AllocError` if memory runs out.
fn findings_of(alloc: Global, accounts: &[Account]) -> Result<Vec<Finding>, AllocError>
    ensures { IfOk result (λ findings. findings.items ≡ map (λ (a : Told). a.finding) accounts.now) }
{
    let mut findings = Vec::new(alloc);
    for account in accounts {
        findings.push(account.finding)?;
    }
    Ok(findings)
}
