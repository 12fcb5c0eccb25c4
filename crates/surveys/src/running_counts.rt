//! The counts of a survey's outcomes, which are kept while the survey goes on.
ghost use Rattle.std.specs.Prelude.{◌≡◌, ◌+◌, ◌<◌, ◌^◌, [], ◌++◌, List, IfOk, OnErr, OnOk, filter, length};
ghost use Rattle.surveys.specs.Groups.{is_occupied};
ghost use Rattle.surveys.specs.Running.{counts_of, group_added, groups_added, sums_added, tally_added};
ghost use Rattle.surveys.specs.Sums.{lesser};
ghost use Rattle.surveys.specs.declared.finding.Finding.{Finding as Found};

use crate::campaign_groups::all_groups;
use crate::finding::Finding;
use crate::group::Group;
use crate::summation::sums_of;
use crate::sums::{Sums, Tally};
use std::alloc::{AllocError, Global};
use std::marker::Model;

/// The counts of the outcomes of campaigns, to which further campaigns can be added. Its size does not depend on the
/// number of campaigns.
#[derive(Drop)]
pub struct RunningCounts {
    /// The counts of all campaigns together.
    sums: Sums,
    /// The counts for each combination of number of generals, bound and number of traitors, as `all_groups` lists them.
    groups: Vec<Group>,
}

impl Model for RunningCounts {
    ghost use Rattle.surveys.specs.Running.{Counts};

    ghost Value = { Counts };

    ghost view = { λ c. record { sums = c.sums; groups = c.groups.items } };
}

impl RunningCounts {
    /// Returns the counts of no campaigns.
    ///
    /// # Errors
    ///
    /// Fails with `AllocError` if it runs out of memory.
    pub fn new(alloc: Global) -> Result<RunningCounts, AllocError>
        ensures { IfOk result (λ counts. counts ≡ counts_of []) }
    {
        Ok(RunningCounts {
            sums: sums_of(&[]),
            groups: all_groups(alloc, &[])?,
        })
    }

    /// Adds further campaigns. There may be fewer than 2^64 campaigns in all.
    ///
    /// # Errors
    ///
    /// Fails with `AllocError` if it runs out of memory. The counts are then unchanged.
    #[tactic(auto, using(crate::proofs::RunningLemmas::counts_both))]
    pub fn add(&mut self, alloc: Global, findings: &[Finding]) -> Result<(), AllocError>
        ensures added { (before : List Found) → self.old ≡ counts_of before
            → length before + length findings.now < 2 ^ 64
            → OnOk result (self.new ≡ counts_of (before ++ findings.now)) }
        ensures unchanged { OnErr result (self.new ≡ self.old) }
    {
        let further = all_groups(alloc, findings)?;
        let groups = groups_added(alloc, self.groups.as_slice(), further.as_slice())?;
        self.sums = sums_added(self.sums, sums_of(findings));
        self.groups = groups;
        Ok(())
    }

    /// Returns the counts of all campaigns together.
    pub fn sums(&self) -> Sums
        ensures { result ≡ self.now.sums }
    {
        self.sums
    }

    /// Returns the groups that have campaigns: one for each combination of number of generals, bound and number of
    /// traitors that occurs, in ascending order of the three.
    ///
    /// # Errors
    ///
    /// Fails with `AllocError` if it runs out of memory.
    pub fn groups(&self, alloc: Global) -> Result<Vec<Group>, AllocError>
        ensures { IfOk result (λ groups. groups.items ≡ filter is_occupied self.now.groups) }
    {
        occupied(alloc, self.groups.as_slice())
    }
}

/// Returns the groups that have campaigns, in their order.
fn occupied(alloc: Global, groups: &[Group]) -> Result<Vec<Group>, AllocError>
    ensures { IfOk result (λ some. some.items ≡ filter is_occupied groups.now) }
{
    let mut some = Vec::new(alloc);
    for group in groups {
        if group.sums.campaigns != 0 {
            some.push(*group)?;
        }
    }
    Ok(some)
}

/// Returns the lesser of two seeds. If only one is given, returns that one.
fn lesser(a: Option<u64>, b: Option<u64>) -> Option<u64>
    ensures { result ≡ lesser a b }
{
    match (a, b) {
        (None, b) => b,
        (a, None) => a,
        (Some(a), Some(b)) => Some(a.min(b)),
    }
}

/// Returns the counts of an outcome in two parts of a survey together, each at most 2^64 - 1.
fn tally_added(a: Tally, b: Tally) -> Tally
    ensures { result ≡ tally_added a b }
{
    Tally {
        count: a.count.saturating_add(b.count),
        first: lesser(a.first, b.first),
    }
}

/// Returns the counts of all outcomes in two parts of a survey together, each at most 2^64 - 1.
fn sums_added(a: Sums, b: Sums) -> Sums
    ensures { result ≡ sums_added a b }
{
    Sums {
        campaigns: a.campaigns.saturating_add(b.campaigns),
        kept: tally_added(a.kept, b.kept),
        broken: tally_added(a.broken, b.broken),
        disobeyed: tally_added(a.disobeyed, b.disobeyed),
    }
}

/// Returns the counts of two groups with the same numbers together, each at most 2^64 - 1.
fn group_added(a: &Group, b: &Group) -> Group
    ensures { result ≡ group_added a.now b.now }
{
    Group {
        generals: a.generals,
        bound: a.bound,
        traitors: a.traitors,
        sums: sums_added(a.sums, b.sums),
        failed: a.failed.saturating_add(b.failed),
    }
}

/// Adds each group of `further` to the group at the same index of `groups`, and returns the results.
fn groups_added(
    alloc: Global,
    groups: &[Group],
    further: &[Group],
) -> Result<Vec<Group>, AllocError>
    ensures { IfOk result (λ added. added.items ≡ groups_added groups.now further.now) }
{
    let mut added = Vec::new(alloc);
    for (group, more) in groups.iter().zip(further) {
        added.push(group_added(group, more))?;
    }
    Ok(added)
}
