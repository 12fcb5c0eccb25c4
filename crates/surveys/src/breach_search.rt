//! Searches the campaigns of many seeds for the least broken one.
ghost use Rattle.std.specs.Prelude.{◌≡◌, ◌≢◌, ◌≤◌, IfErr, IfOk, IfSome, IfNone, Ok, map};
ghost use Rattle.std.specs.List.{AllZip};
ghost use Rattle.rayon.specs.Numbers.{nat_range};
ghost use Rattle.scenario.specs.declared.fault.ScenarioError.TheVariants.{Memory};
ghost use Rattle.surveys.specs.Breaches.{IsAnswerTo, IsBreaking, IsFirstError, IsLeastBreach, IsLeastOf, IsRefusedBy, IsRefusedIn, IsRefusedWith, IsShrunk, NoneBreaks, better, least_so_far};
ghost use Rattle.surveys.specs.Plotting.{plot_of};

use crate::breach::{Breach, Breaking};
use crate::campaign_order::is_before;
use crate::family::Family;
use crate::minimal_campaign::shrunk;
use crate::narrower_family::narrowed;
use crate::seeded_plots::plot_of;
use crate::span::CountRange;
use rayon::prelude::*;
use scenario::ScenarioError;
use std::alloc::{AllocError, Global};
use std::thread::Threads;

/// Plays the campaign that `seed` draws from `family`. If it is broken, which means that its loyal lieutenants do not
/// decide alike or do not obey a loyal commander, returns the reduced campaign. Otherwise returns `None`.
///
/// # Errors
///
/// Returns the first fault of the campaign's text or of a reduction's text, or `Memory` if it runs out of memory.
pub fn breach_of(alloc: Global, family: &Family, seed: u64) -> Result<Option<Breach>, ScenarioError>
    ensures shrunk { IfOk result (IsShrunk (plot_of family.now) seed) }
    ensures refused { IfErr result (IsRefusedBy (plot_of family.now) seed) }
{
    let plot = plot_of(alloc, family, seed)?;
    match shrunk(alloc, plot)? {
        Some(plot) => Ok(Some(Breach { seed, plot })),
        None => Ok(None),
    }
}

/// Plays the campaigns of the seeds from `first` to `end` - 1 in as many threads as there are processors. Returns an
/// entry for each seed in ascending order: its reduced campaign, `None` if its campaign is not broken, or its error.
fn gathered<R: Threads + Sync>(
    rt: &R,
    alloc: Global,
    family: &Family,
    first: u64,
    end: u64,
) -> Result<Vec<Result<Option<Breach>, ScenarioError>>, AllocError>
    ensures { IfOk result (λ answers. AllZip (IsAnswerTo (plot_of family.now)) (nat_range first end) answers.items) }
{
    (first..end)
        .into_par_iter()
        .map(
            |seed: u64| -> Result<Option<Breach>, ScenarioError>
                ensures { IsAnswerTo (plot_of family.entry.now) seed result }
            { breach_of(alloc, family, seed) },
        )
        .with_min_len(LEAST_PIECE)
        .collect(rt, alloc)
}

/// The least number of campaigns for which a thread is worth its cost, if each is played and may be reduced.
const LEAST_PIECE: usize = 8;

/// Returns the values of all answers in their order, or the first error among the answers.
fn all_of(
    alloc: Global,
    answers: Vec<Result<Option<Breach>, ScenarioError>>,
) -> Result<Vec<Option<Breach>>, ScenarioError>
    ensures found { IfOk result (λ found. answers.items ≡ map Ok found.items) }
    ensures refused { IfErr result (λ e. e ≢ Memory → IsFirstError answers.items e) }
{
    let mut found = Vec::new(alloc);
    for answer in answers {
        found.push(answer?)?;
    }
    Ok(found)
}

/// Plays the campaign that `family` makes from each seed from `first` to `end` - 1. Returns an entry for each seed in
/// ascending order: the reduced campaign if the seed's campaign is broken, and otherwise `None`. A campaign is broken
/// if its loyal lieutenants do not decide alike or do not obey a loyal commander.
///
/// # Errors
///
/// Returns the fault of the first seed whose campaign, or a reduction of it, has a faulty text. Fails with `Memory` if
/// it runs out of memory.
pub fn breaches<R: Threads + Sync>(
    rt: &R,
    alloc: Global,
    family: &Family,
    first: u64,
    end: u64,
) -> Result<Vec<Option<Breach>>, ScenarioError>
    ensures shrunk { IfOk result (λ found. AllZip (IsShrunk (plot_of family.now)) (nat_range first end) found.items) }
    ensures refused { IfErr result (λ e. e ≢ Memory → IsRefusedIn (plot_of family.now) first end e) }
{
    let answers = gathered(rt, alloc, family, first, end)?;
    all_of(alloc, answers)
}

/// Returns the lesser of two reduced campaigns by `is_before`, or the first if neither is less. If only one is given,
/// returns that one, and if neither is, `None`.
pub fn better(first: Option<Breach>, second: Option<Breach>) -> Option<Breach>
    ensures { result ≡ better first second }
{
    let Some(here) = first else { return second };
    let Some(there) = second else {
        return Some(here);
    };
    if is_before(&there, &here) {
        Some(there)
    } else {
        Some(here)
    }
}

/// Returns the least of the reduced campaigns by `is_before`, or `None` if there are none.
pub fn least(found: Vec<Option<Breach>>) -> Option<Breach>
    ensures { IsLeastOf found.items result }
{
    let mut least = None;
    for breach in found {
        least = better(least, breach);
    }
    least
}

/// How many campaigns are searched before the least of them is chosen, so that the memory of a search does not grow with
/// the number of seeds.
const AT_ONCE: u64 = 1024;

/// Returns the least of the reduced campaigns of the seeds from `first` to `end` - 1, by `is_before`. Returns `None` if
/// IC1 and IC2 hold in all campaigns of these seeds.
///
/// # Errors
///
/// Returns the fault of the first seed whose campaign, or a reduction of it, has a faulty text. Fails with `Memory` if
/// it runs out of memory.
pub fn least_breach<R: Threads + Sync>(
    rt: &R,
    alloc: Global,
    family: &Family,
    first: u64,
    end: u64,
) -> Result<Option<Breach>, ScenarioError>
    ensures least { IfOk result (IsLeastBreach (plot_of family.now) first end) }
    ensures refused { IfErr result (λ e. e ≢ Memory → IsRefusedIn (plot_of family.now) first end e) }
{
    let mut so_far = None;
    let mut next = first;
    while next < end {
        let until = next.saturating_add(AT_ONCE).min(end);
        let found = breaches(rt, alloc, family, next, until)?;
        so_far = better(so_far, least(found));
        next = until;
    }
    Ok(so_far)
}

/// Returns the lesser of the earlier result and the reduced campaign `breach`, which was found with `traitors`
/// traitors. Returns the earlier result if neither is less. If only one is given, returns that one, and if neither is,
/// `None`.
fn least_so_far(traitors: u8, breach: Option<Breach>, earlier: Option<Breaking>) -> Option<Breaking>
    ensures { result ≡ least_so_far traitors breach earlier }
{
    let Some(breach) = breach else { return earlier };
    let Some(least) = earlier else {
        return Some(Breaking { traitors, breach });
    };
    if is_before(&breach, &least.breach) {
        Some(Breaking { traitors, breach })
    } else {
        Some(least)
    }
}

/// Searches for the least broken campaign with `generals` generals, 2 to 13, and the bound `bound`, after its
/// reduction. The search plays the campaigns of the seeds from `first` to `end` - 1 with each number of traitors in the
/// range `traitors`. Returns `None` if none of them is broken. If several campaigns are equally small, it returns the
/// one that was found with the fewest traitors.
///
/// # Errors
///
/// Returns a fault of a campaign's text or of a reduction's text. If several campaigns have one, it is from the
/// campaign with the fewest traitors and, among these, with the least seed. Fails with `Memory` if it runs out of
/// memory.
pub fn breaking<R: Threads + Sync>(
    rt: &R,
    alloc: Global,
    family: &Family,
    generals: u8,
    bound: u8,
    traitors: CountRange,
    first: u64,
    end: u64,
) -> Result<Option<Breaking>, ScenarioError>
    requires least { 2 ≤ generals }
    requires most { generals ≤ 13 }
    ensures some { IfOk result (λ found. IfSome found (IsBreaking family.now generals bound traitors first end)) }
    ensures none { IfOk result (λ found. IfNone found (NoneBreaks family.now generals bound traitors first end)) }
    ensures refused { IfErr result (λ e. e ≢ Memory → IsRefusedWith family.now generals bound traitors first end e) }
{
    let mut least: Option<Breaking> = None;
    for count in u16::from(traitors.low)..u16::from(traitors.high) + 1 {
        let traitors = count as u8;
        let family = narrowed(alloc, family, generals, bound, traitors)?;
        let breach = least_breach(rt, alloc, &family, first, end)?;
        least = least_so_far(traitors, breach, least);
    }
    Ok(least)
}
