//! Groups the campaigns of a survey by number of generals, bound and number of traitors.
ghost use Rattle.std.specs.Prelude.{◌≡◌, ◌++◌, [], ◌∷◌, IfOk, OnOk};
ghost use Rattle.surveys.specs.Groups.{all_groups, failed_in, group_of, groups_by_bound, groups_in, of_bound, of_generals, of_traitors};

use crate::finding::Finding;
use crate::group::Group;
use crate::summation::{is_sound, sums_of};
use std::alloc::{AllocError, Global};

/// Returns the results of the campaigns with `generals` generals, in their order.
fn of_generals(
    alloc: Global,
    findings: &[Finding],
    generals: u8,
) -> Result<Vec<Finding>, AllocError>
    ensures { IfOk result (λ some. some.items ≡ of_generals generals findings.now) }
{
    let mut some = Vec::new(alloc);
    for finding in findings {
        if finding.generals == generals {
            some.push(*finding)?;
        }
    }
    Ok(some)
}

/// Returns the results of the campaigns with the bound `bound`, in their order.
fn of_bound(alloc: Global, findings: &[Finding], bound: u8) -> Result<Vec<Finding>, AllocError>
    ensures { IfOk result (λ some. some.items ≡ of_bound bound findings.now) }
{
    let mut some = Vec::new(alloc);
    for finding in findings {
        if finding.bound == bound {
            some.push(*finding)?;
        }
    }
    Ok(some)
}

/// Returns the results of the campaigns with `traitors` traitors, in their order.
fn of_traitors(
    alloc: Global,
    findings: &[Finding],
    traitors: u8,
) -> Result<Vec<Finding>, AllocError>
    ensures { IfOk result (λ some. some.items ≡ of_traitors traitors findings.now) }
{
    let mut some = Vec::new(alloc);
    for finding in findings {
        if finding.traitors == u64::from(traitors) {
            some.push(*finding)?;
        }
    }
    Ok(some)
}

/// Returns how many of the campaigns failed: the loyal lieutenants do not decide alike or do not obey a loyal
/// commander.
pub fn failed_in(findings: &[Finding]) -> u64
    ensures { result ≡ failed_in findings.now }
{
    let mut count = 0;
    for finding in findings {
        if !is_sound(finding.verdict) {
            count += 1;
        }
    }
    count
}

/// Appends the group of the campaigns in `findings` that have `traitors` traitors, which may be empty. All campaigns in
/// `findings` have `generals` generals and the bound `bound`.
fn push_group(
    alloc: Global,
    groups: &mut Vec<Group>,
    findings: &[Finding],
    generals: u8,
    bound: u8,
    traitors: u8,
) -> Result<(), AllocError>
    ensures { OnOk result (groups.new.items ≡ groups.old.items ++ group_of generals bound findings.now traitors ∷ []) }
{
    let some = of_traitors(alloc, findings, traitors)?;
    groups.push(Group {
        generals,
        bound,
        traitors,
        sums: sums_of(some.as_slice()),
        failed: failed_in(some.as_slice()),
    })?;
    Ok(())
}

/// Appends a group for each number of traitors, 0 to 13. All campaigns in `findings` have `generals` generals and the
/// bound `bound`.
#[tactic(auto, unfolding(crate::specs::Groups::groups_in))]
fn push_groups(
    alloc: Global,
    groups: &mut Vec<Group>,
    findings: &[Finding],
    generals: u8,
    bound: u8,
) -> Result<(), AllocError>
    ensures { OnOk result (groups.new.items ≡ groups.old.items ++ groups_in generals bound findings.now) }
{
    for traitors in 0..14 {
        push_group(alloc, groups, findings, generals, bound, traitors)?;
    }
    Ok(())
}

/// Appends the groups of the campaigns in `findings` that have the bound `bound`: one for each number of traitors. All
/// campaigns in `findings` have `generals` generals.
fn push_bound(
    alloc: Global,
    groups: &mut Vec<Group>,
    findings: &[Finding],
    generals: u8,
    bound: u8,
) -> Result<(), AllocError>
    ensures { OnOk result (groups.new.items ≡ groups.old.items
        ++ groups_in generals bound (of_bound bound findings.now)) }
{
    let some = of_bound(alloc, findings, bound)?;
    push_groups(alloc, groups, some.as_slice(), generals, bound)
}

/// Appends a group for each combination of a bound, 0 to 4, and a number of traitors, 0 to 13. All campaigns in
/// `findings` have `generals` generals.
#[tactic(auto, unfolding(crate::specs::Groups::groups_by_bound))]
fn push_bounds(
    alloc: Global,
    groups: &mut Vec<Group>,
    findings: &[Finding],
    generals: u8,
) -> Result<(), AllocError>
    ensures { OnOk result (groups.new.items ≡ groups.old.items ++ groups_by_bound generals findings.now) }
{
    for bound in 0..5 {
        push_bound(alloc, groups, findings, generals, bound)?;
    }
    Ok(())
}

/// Appends the groups of the campaigns in `findings` that have `generals` generals: one for each combination of a bound
/// and a number of traitors.
fn push_generals(
    alloc: Global,
    groups: &mut Vec<Group>,
    findings: &[Finding],
    generals: u8,
) -> Result<(), AllocError>
    ensures { OnOk result (groups.new.items ≡ groups.old.items
        ++ groups_by_bound generals (of_generals generals findings.now)) }
{
    let some = of_generals(alloc, findings, generals)?;
    push_bounds(alloc, groups, some.as_slice(), generals)
}

/// Returns a group for each combination of a number of generals, 0 to 13, a bound, 0 to 4, and a number of traitors, 0 to
/// 13, in ascending order of the three. A group is empty if no campaign in `findings` has its numbers.
///
/// # Errors
///
/// Fails with `AllocError` if it runs out of memory.
#[tactic(auto, unfolding(crate::specs::Groups::all_groups))]
pub fn all_groups(alloc: Global, findings: &[Finding]) -> Result<Vec<Group>, AllocError>
    ensures { IfOk result (λ groups. groups.items ≡ all_groups findings.now) }
{
    let mut groups = Vec::new(alloc);
    for generals in 0..14 {
        push_generals(alloc, &mut groups, findings, generals)?;
    }
    Ok(groups)
}
