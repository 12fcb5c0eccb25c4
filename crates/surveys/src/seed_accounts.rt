//! Plays the campaigns of many seeds in parallel, and returns their accounts.
ghost use Rattle.std.specs.Prelude.{◌≢◌, IfErr, IfOk};
ghost use Rattle.std.specs.List.{AllZip};
ghost use Rattle.rayon.specs.Numbers.{nat_range};
ghost use Rattle.scenario.specs.declared.fault.ScenarioError.TheVariants.{Memory};
ghost use Rattle.surveys.specs.Accounting.{IsAccountOf};
ghost use Rattle.surveys.specs.Judging.{IsRefusedBy, IsRefusedIn};

use crate::account::Account;
use crate::accounting::accounted;
use crate::family::Family;
use rayon::prelude::*;
use scenario::ScenarioError;
use std::alloc::{AllocError, Global};
use std::thread::Threads;

/// The least number of campaigns for which a thread is worth its cost. To play one campaign takes 8 microseconds to
/// some milliseconds.
const LEAST_PIECE: usize = 32;

/// Plays the campaigns of the seeds from `first` to `end` - 1 in parallel. The inner result has their accounts in the
/// order of the seeds, or the fault of one of the campaigns' texts. The outer error says that memory ran out while the
/// results were collected.
fn gathered<R: Threads + Sync>(
    rt: &R,
    alloc: Global,
    family: &Family,
    first: u64,
    end: u64,
) -> Result<Result<Vec<Account>, ScenarioError>, AllocError>
    ensures accounts { IfOk result
        (λ all. IfOk all (λ accounts. AllZip (IsAccountOf family.now) (nat_range first end) accounts.items)) }
    ensures refused { IfOk result (λ all. IfErr all (λ e. e ≢ Memory → IsRefusedIn family.now first end e)) }
{
    (first..end)
        .into_par_iter()
        .map(
            |seed: u64| -> Result<Account, ScenarioError>
                ensures { IfOk result (IsAccountOf family.entry.now seed)
                    × IfErr result (IsRefusedBy family.entry.now seed) }
            { accounted(alloc, family, seed) },
        )
        .with_min_len(LEAST_PIECE)
        .collect(rt, alloc)
}

/// Plays the campaigns that the seeds from `first` to `end` - 1 draw from `family`, in as many threads as there are
/// processors. Returns their accounts, in the order of the seeds.
///
/// # Errors
///
/// Returns the fault of one of the campaigns' texts, or `Memory` when out of memory.
pub fn accounts<R: Threads + Sync>(
    rt: &R,
    alloc: Global,
    family: &Family,
    first: u64,
    end: u64,
) -> Result<Vec<Account>, ScenarioError>
    ensures accounts { IfOk result (λ accounts. AllZip (IsAccountOf family.now) (nat_range first end) accounts.items) }
    ensures refused { IfErr result (λ e. e ≢ Memory → IsRefusedIn family.now first end e) }
{
    gathered(rt, alloc, family, first, end)?
}
