//! Finds the seeds that are missing in a survey, and those that occur more than once.
ghost use Rattle.std.specs.Prelude.{◌≡◌, ◌++◌, IfOk, OnOk};
ghost use Rattle.surveys.specs.Covering.{AreApart, AreAscending, AreDoubles, AreHoles, gaps, repeated, seeds_in, stretch, stretches, stretches_from};

use crate::finding::Finding;
use crate::stretch::Stretch;
use std::alloc::{AllocError, Global};

/// Returns the seeds of these campaigns, in the order of the campaigns.
///
/// # Errors
///
/// Fails with `AllocError` if it runs out of memory.
pub fn seeds_in(alloc: Global, findings: &[Finding]) -> Result<Vec<u64>, AllocError>
    ensures { IfOk result (λ seeds. seeds.items ≡ seeds_in findings.now) }
{
    let mut seeds = Vec::new(alloc);
    for finding in findings {
        seeds.push(finding.seed)?;
    }
    Ok(seeds)
}

/// Returns the seeds of these campaigns in ascending order. A repeated seed stays repeated.
fn ascending(alloc: Global, findings: &[Finding]) -> Result<Vec<u64>, AllocError>
    ensures { IfOk result (λ seeds. AreAscending (seeds_in findings.now) seeds.items) }
{
    let mut seeds = seeds_in(alloc, findings)?;
    seeds.sort_unstable();
    Ok(seeds)
}

/// Appends the range of the seeds from `first` to `last`, unless `first` is greater than `last`.
fn push_stretch(found: &mut Vec<Stretch>, first: u128, last: u64) -> Result<(), AllocError>
    ensures { OnOk result (found.new.items ≡ found.old.items ++ stretch first last) }
{
    if first <= u128::from(last) {
        found.push(Stretch {
            first: first as u64,
            last,
        })?;
    }
    Ok(())
}

/// Returns the ranges of the seeds from `next` to `last` that are missing in `seeds`, which are ascending.
fn gaps(alloc: Global, next: u64, seeds: &[u64], last: u64) -> Result<Vec<Stretch>, AllocError>
    ensures { IfOk result (λ found. found.items ≡ gaps next seeds.now last) }
{
    let mut found = Vec::new(alloc);
    let mut next = u128::from(next);
    for seed in seeds {
        if next < u128::from(*seed) {
            push_stretch(&mut found, next, (*seed - 1).min(last))?;
        }
        next = next.max(u128::from(*seed) + 1);
    }
    push_stretch(&mut found, next, last)?;
    Ok(found)
}

/// Returns the ranges of the seeds from `first` to `last`, both included, for which there is no campaign. Between two
/// ranges there is always a seed that has a campaign.
///
/// # Errors
///
/// Fails with `AllocError` if it runs out of memory.
pub fn holes(
    alloc: Global,
    findings: &[Finding],
    first: u64,
    last: u64,
) -> Result<Vec<Stretch>, AllocError>
    ensures holes { IfOk result (λ found. AreHoles first last (seeds_in findings.now) found.items) }
    ensures apart { IfOk result (λ found. AreApart found.items) }
{
    let seeds = ascending(alloc, findings)?;
    gaps(alloc, first, seeds.as_slice(), last)
}

/// Returns each of the ascending `seeds` that equals the seed before it.
fn repeated(alloc: Global, seeds: &[u64]) -> Result<Vec<u64>, AllocError>
    ensures { IfOk result (λ found. found.items ≡ repeated seeds.now) }
{
    let mut found = Vec::new(alloc);
    for place in 1..seeds.len() {
        if seeds[place - 1] == seeds[place] {
            found.push(seeds[place])?;
        }
    }
    Ok(found)
}

/// Continues the range `begun` with the ascending `seeds` as far as they are consecutive, and puts later seeds into
/// further ranges. Returns all these ranges.
fn stretches_from(alloc: Global, begun: Stretch, seeds: &[u64]) -> Result<Vec<Stretch>, AllocError>
    ensures { IfOk result (λ found. found.items ≡ stretches_from begun.first begun.last seeds.now) }
{
    let mut found = Vec::new(alloc);
    let mut open = begun;
    for seed in seeds {
        if u128::from(*seed) <= u128::from(open.last) + 1 {
            open.last = open.last.max(*seed);
        } else {
            found.push(open)?;
            open = Stretch {
                first: *seed,
                last: *seed,
            };
        }
    }
    found.push(open)?;
    Ok(found)
}

/// Returns the ascending `seeds` as ranges of consecutive seeds: `[3, 4, 8]` gives 3 to 4, and 8 to 8.
fn stretches(alloc: Global, seeds: &[u64]) -> Result<Vec<Stretch>, AllocError>
    ensures { IfOk result (λ found. found.items ≡ stretches seeds.now) }
{
    match seeds.split_first() {
        Some((first, rest)) => stretches_from(
            alloc,
            Stretch {
                first: *first,
                last: *first,
            },
            rest,
        ),
        None => Ok(Vec::new(alloc)),
    }
}

/// Returns the ranges of the seeds for which there is more than one campaign. Between two ranges there is always a seed
/// that has at most one.
///
/// # Errors
///
/// Fails with `AllocError` if it runs out of memory.
pub fn doubles(alloc: Global, findings: &[Finding]) -> Result<Vec<Stretch>, AllocError>
    ensures doubles { IfOk result (λ found. AreDoubles (seeds_in findings.now) found.items) }
    ensures apart { IfOk result (λ found. AreApart found.items) }
{
    let seeds = ascending(alloc, findings)?;
    let twice = repeated(alloc, seeds.as_slice())?;
    stretches(alloc, twice.as_slice())
}
