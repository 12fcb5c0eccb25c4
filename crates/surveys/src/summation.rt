//! Counts the outcomes of surveyed campaigns.
ghost use Rattle.std.specs.Prelude.{◌≡◌, count_by};
ghost use Rattle.surveys.specs.Sums.{has, is_denied, is_sound, least, lesser, sums_of, tally_of};

use crate::finding::Finding;
use crate::sums::{CampaignOutcome, Sums, Tally};
use world::Verdict;

/// Checks whether a campaign's result has this outcome.
pub fn has(outcome: CampaignOutcome, finding: &Finding) -> bool
    ensures { result ≡ has outcome finding.now }
{
    let verdict = finding.verdict;
    match outcome {
        CampaignOutcome::Kept => verdict.bound,
        CampaignOutcome::Broken => !verdict.alike,
        CampaignOutcome::Disobeyed => is_denied(verdict.obeyed),
    }
}

/// Checks whether the answer is no. It is false if there is no answer.
fn is_denied(answer: Option<bool>) -> bool
    ensures { result ≡ is_denied answer }
{
    match answer {
        None => false,
        Some(answer) => !answer,
    }
}

/// Checks whether a verdict is sound: the loyal lieutenants decide alike and obey a loyal commander.
pub fn is_sound(verdict: Verdict) -> bool
    ensures { result ≡ is_sound verdict }
{
    verdict.alike && !is_denied(verdict.obeyed)
}

/// Returns how many of the campaigns have this outcome.
fn count(outcome: CampaignOutcome, findings: &[Finding]) -> u64
    ensures { result ≡ count_by (has outcome) findings.now }
{
    let mut count = 0;
    for finding in findings {
        if has(outcome, finding) {
            count += 1;
        }
    }
    count
}

/// Returns the lesser of `seed` and the least seed so far, or `seed` if there is none so far.
fn lesser(least: Option<u64>, seed: u64) -> u64
    ensures { lesser least (Some seed) ≡ Some result }
{
    match least {
        None => seed,
        Some(least) => least.min(seed),
    }
}

/// Returns the least seed of the campaigns with this outcome, or `None` if there are no such campaigns.
fn least(outcome: CampaignOutcome, findings: &[Finding]) -> Option<u64>
    ensures { result ≡ least outcome findings.now }
{
    let mut least = None;
    for finding in findings {
        if has(outcome, finding) {
            least = Some(lesser(least, finding.seed));
        }
    }
    least
}

/// Returns how many of the campaigns have this outcome, and the least of their seeds, if there are any.
pub fn tally_of(outcome: CampaignOutcome, findings: &[Finding]) -> Tally
    ensures { result ≡ tally_of outcome findings.now }
{
    Tally {
        count: count(outcome, findings),
        first: least(outcome, findings),
    }
}

/// Returns how many campaigns there are, and how many of them have each outcome.
pub fn sums_of(findings: &[Finding]) -> Sums
    ensures { result ≡ sums_of findings.now }
{
    Sums {
        campaigns: findings.len() as u64,
        kept: tally_of(CampaignOutcome::Kept, findings),
        broken: tally_of(CampaignOutcome::Broken, findings),
        disobeyed: tally_of(CampaignOutcome::Disobeyed, findings),
    }
}
