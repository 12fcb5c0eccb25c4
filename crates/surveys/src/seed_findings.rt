//! Plays the campaigns of many seeds in parallel, and returns their results.
ghost use Rattle.std.specs.Prelude.{◌≢◌, IfErr, IfOk};
ghost use Rattle.std.specs.List.{AllZip};
ghost use Rattle.rayon.specs.Numbers.{nat_range};
ghost use Rattle.scenario.specs.declared.fault.ScenarioError.TheVariants.{Memory};
ghost use Rattle.surveys.specs.Judging.{IsFindingOf, IsRefusedBy, IsRefusedIn};

use crate::family::Family;
use crate::finding::Finding;
use crate::judgement::judged;
use rayon::prelude::*;
use scenario::ScenarioError;
use std::alloc::{AllocError, Global};
use std::thread::Threads;

/// The least number of campaigns for which a thread is worth its cost. To play one campaign takes 8 microseconds to
/// some milliseconds.
const LEAST_PIECE: usize = 32;

/// Plays the campaigns of the seeds from `first` to `end` - 1 in parallel. The inner result has the campaigns' results
/// in the order of the seeds, or the fault of one of the campaigns' texts. The outer error says that memory ran out
/// while the results were collected.
fn gathered<R: Threads + Sync>(
    rt: &R,
    alloc: Global,
    family: &Family,
    first: u64,
    end: u64,
) -> Result<Result<Vec<Finding>, ScenarioError>, AllocError>
    ensures found { IfOk result
        (λ all. IfOk all (λ findings. AllZip (IsFindingOf family.now) (nat_range first end) findings.items)) }
    ensures refused { IfOk result (λ all. IfErr all (λ e. e ≢ Memory → IsRefusedIn family.now first end e)) }
{
    (first..end)
        .into_par_iter()
        .map(
            |seed: u64| -> Result<Finding, ScenarioError>
                ensures { IfOk result (IsFindingOf family.entry.now seed)
                    × IfErr result (IsRefusedBy family.entry.now seed) }
            { judged(alloc, family, seed) },
        )
        .with_min_len(LEAST_PIECE)
        .collect(rt, alloc)
}

/// Plays the campaigns that the seeds from `first` to `end` - 1 draw from `family`, in as many threads as there are
/// processors. Returns their results, in the order of the seeds.
///
/// # Errors
///
/// Returns the fault of one of the campaigns' texts, or `Memory` when out of memory.
pub fn survey<R: Threads + Sync>(
    rt: &R,
    alloc: Global,
    family: &Family,
    first: u64,
    end: u64,
) -> Result<Vec<Finding>, ScenarioError>
    ensures found { IfOk result (λ findings. AllZip (IsFindingOf family.now) (nat_range first end) findings.items) }
    ensures refused { IfErr result (λ e. e ≢ Memory → IsRefusedIn family.now first end e) }
{
    gathered(rt, alloc, family, first, end)?
}
