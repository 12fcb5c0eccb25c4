//! Turns the parsed options into the task of `--campaign`.
ghost use Rattle.std.specs.Prelude.{◌≡◌, ◌⊎◌, Some, false, true, IfErr, IfOk, codes};
ghost use Rattle.clap.specs.Words.{found_of, rows_of};
ghost use Rattle.surveyor.specs.Asked.{IsSurvey};
ghost use Rattle.surveyor.specs.Flags.{given};
ghost use Rattle.surveyor.specs.Meant.{IsSeed, IsShowing, bars_campaign};
ghost use Rattle.surveyor.specs.Wrong.{IsNoSeed, IsRefused, IsSaid};
ghost use Rattle.surveyor.specs.declared.task.OneCampaign.{OneCampaign};

use super::plays::survey_of;
use crate::numbers::seed;
use crate::task::{AskedError, OneCampaign};
use crate::word_values::has_any;
use clap::ArgMatches;
use std::alloc::Global;

const FAMILY: &str =
    "--campaign prints one campaign: it can be used only with options of the family";

const SEED: &str = "--campaign takes a seed below 18446744073709551615";

/// Checks whether an option is given that cannot be used with `--campaign`.
fn bars_campaign(found: &ArgMatches) -> bool
    ensures { result ≡ bars_campaign (rows_of (found_of found.now)) }
{
    has_any(
        found,
        &[
            "seeds", "lines", "details", "table", "csv", "svg", "shrink", "break", "keep",
            "keep-all",
        ],
    )
}

/// Parses the seed of `--campaign`, whose value is `word`.
///
/// # Errors
///
/// Fails if an option is given that cannot be used with `--campaign`, or if the word is not a number less than 2^64 -
/// 1.
fn told_seed(found: &ArgMatches, word: &str) -> Result<u64, AskedError>
    ensures told { IfOk result (IsSeed word.now) }
    ensures single { IfOk result (λ _. bars_campaign (rows_of (found_of found.now)) ≡ false) }
    ensures refused { IfErr result (λ e.
        IsSaid (codes "--campaign prints one campaign: it can be used only with options of the family")
        (bars_campaign (rows_of (found_of found.now)) ≡ true) e
        ⊎ IsSaid (codes "--campaign takes a seed below 18446744073709551615") (IsNoSeed word.now) e) }
{
    if bars_campaign(found) {
        return Err(AskedError::Value(FAMILY));
    }
    match seed(word) {
        Some(seed) => Ok(seed),
        None => Err(AskedError::Value(SEED)),
    }
}

/// Returns the task of `--campaign`, whose value is `word`.
///
/// # Errors
///
/// Fails if a value is wrong, if an option is given that cannot be used with `--campaign`, or if memory runs out.
#[tactic(auto, using(crate::proofs::MeantLemmas::no_shown_seed, crate::proofs::MeantLemmas::no_shown_survey))]
pub(super) fn campaign_of(
    alloc: Global,
    found: &ArgMatches,
    word: &str,
) -> Result<OneCampaign, AskedError>
    requires { given (codes "campaign") (rows_of (found_of found.now)) ≡ Some word.now }
    ensures survey { IfOk result (λ r. IsSurvey r.survey) }
    ensures told { IfOk result (IsShowing word.now (rows_of (found_of found.now))) }
    ensures refused { let rows = rows_of (found_of found.now) in
        IfErr result (IsRefused rows ((r : OneCampaign) → IsShowing word.now rows r → ⊥)) }
{
    let seed = told_seed(found, word)?;
    let survey = survey_of(alloc, found)?;
    Ok(OneCampaign { survey, seed })
}
