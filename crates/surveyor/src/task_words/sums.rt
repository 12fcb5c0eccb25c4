//! Turns the parsed options into the task of `--sum`.
ghost use Rattle.std.specs.Prelude.{◌≡◌, ◌↔◌, ◌⊎◌, false, true, IfErr, IfOk, IsSomeAnd, IsTrue, codes, map, string_bytes};
ghost use Rattle.clap.specs.Words.{found_of, rows_of};
ghost use Rattle.surveyor.specs.Flags.{given};
ghost use Rattle.surveyor.specs.Meant.{AreSaid, IsMerging, bars_sum, names_in};
ghost use Rattle.surveyor.specs.Wrong.{AreNoSeeds, AreTwice, IsRefused, IsSaid};
ghost use Rattle.surveyor.specs.declared.task.Merge.{Merge};

use super::plays::{printed, told_seeds};
use crate::task::{AskedError, Merge};
use crate::word_values::{given, has_any};
use clap::ArgMatches;
use std::alloc::{AllocError, Global};

const MERGE: &str =
    "--sum plays nothing: it can be used only with --seeds, --table, --csv and --svg";

const ONCE: &str = "standard input can be read only once";

/// Checks whether an option is given that cannot be used with `--sum`.
fn bars_sum(found: &ArgMatches) -> bool
    ensures { result ≡ bars_sum (rows_of (found_of found.now)) }
{
    has_any(
        found,
        &[
            "generals",
            "bound",
            "traitors",
            "commander",
            "orders",
            "grid",
            "rule",
            "patience",
            "signed",
            "adversary",
            "lines",
            "details",
            "shrink",
            "break",
            "campaign",
            "keep",
            "keep-all",
        ],
    )
}

/// Returns copies of the names of the files.
///
/// # Errors
///
/// Fails with `AllocError` if memory runs out.
fn files(alloc: Global, names: &[&str]) -> Result<Vec<String>, AllocError>
    ensures { IfOk result (λ files. map string_bytes files.items ≡ map (λ name. name.now) names.now) }
{
    let mut files = Vec::new(alloc);
    for name in names {
        files.push(String::from_str(alloc, name)?)?;
    }
    Ok(files)
}

/// Checks whether standard input, `-`, is named more than once.
fn is_read_twice(names: &[&str]) -> bool
    ensures { IsTrue result ↔ AreTwice (map (λ name. name.now) names.now) }
{
    names.iter().filter(|name| **name == "-").count() > 1
}

/// Returns the first and the last seed of `--seeds`, or `None` if the option is not given.
///
/// # Errors
///
/// Fails if its value is not a range of at most 10,000,000 seeds, each less than 2^64 - 1.
fn said_seeds(found: &ArgMatches) -> Result<Option<(u64, u64)>, AskedError>
    ensures told { IfOk result (AreSaid (given (codes "seeds") (rows_of (found_of found.now)))) }
    ensures refused { let word = given (codes "seeds") (rows_of (found_of found.now)) in IfErr result (IsSaid
        (codes "--seeds takes at most 10000000 seeds below 18446744073709551615, such as 7 or 1..1000")
        (IsSomeAnd word AreNoSeeds)) }
{
    match given(found, "seeds") {
        None => Ok(None),
        Some(word) => match told_seeds(word) {
            Ok(seeds) => Ok(Some(seeds)),
            Err(error) => Err(error),
        },
    }
}

/// Checks that `--sum` can read these files and can be used with the other options.
///
/// # Errors
///
/// Fails if an option is given that cannot be used with `--sum`, or if standard input, `-`, is named more than once.
fn summable(found: &ArgMatches, names: &[&str]) -> Result<(), AskedError>
    ensures told { IfOk result (λ _. (bars_sum (rows_of (found_of found.now)) ≡ false)
        × (AreTwice (map (λ name. name.now) names.now) → ⊥)) }
    ensures refused { IfErr result (λ e.
        IsSaid (codes "--sum plays nothing: it can be used only with --seeds, --table, --csv and --svg")
        (bars_sum (rows_of (found_of found.now)) ≡ true) e
        ⊎ IsSaid (codes "standard input can be read only once") (AreTwice (map (λ name. name.now) names.now)) e) }
{
    if bars_sum(found) {
        return Err(AskedError::Value(MERGE));
    }
    if is_read_twice(names) {
        return Err(AskedError::Value(ONCE));
    }
    Ok(())
}

/// Returns the task to sum the lines of these files.
///
/// # Errors
///
/// Fails if an option cannot be used with `--sum`, if standard input is named more than once, if a value is wrong, or
/// if memory runs out.
#[tactic(auto, using(crate::proofs::MeantLemmas::no_merge_shape, crate::proofs::MeantLemmas::no_merge_seeds, crate::proofs::MeantLemmas::no_merge_sum, crate::proofs::MeantLemmas::once_named))]
pub(super) fn merge_of(
    alloc: Global,
    found: &ArgMatches,
    names: &[&str],
) -> Result<Merge, AskedError>
    requires { names_in (rows_of (found_of found.now)) ≡ Some (map (λ name. name.now) names.now) }
    ensures told { IfOk result (IsMerging (map (λ name. name.now) names.now) (rows_of (found_of found.now))) }
    ensures refused { let rows = rows_of (found_of found.now) in IfErr result (IsRefused rows
        ((m : Merge) → IsMerging (map (λ name. name.now) names.now) rows m → ⊥)) }
{
    let shape = printed(found)?;
    summable(found, names)?;
    let seeds = said_seeds(found)?;
    Ok(Merge {
        names: files(alloc, names)?,
        seeds,
        shape,
    })
}
