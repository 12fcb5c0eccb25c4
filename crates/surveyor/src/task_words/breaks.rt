//! Turns the parsed options into the task of `--break`.
ghost use Rattle.std.specs.Prelude.{◌≡◌, ◌≢◌, ◌⊎◌, Bool, true, IfErr, IfOk, MatchOption, codes, is_some};
ghost use Rattle.clap.specs.Words.{found_of, rows_of};
ghost use Rattle.surveyor.specs.Asked.{IsSurvey};
ghost use Rattle.surveyor.specs.Flags.{has};
ghost use Rattle.surveyor.specs.Meant.{IsBreaking, break_shape};
ghost use Rattle.surveyor.specs.Wrong.{IsNoBreak, IsRefused, IsSaid};
ghost use Rattle.surveyor.specs.declared.task.Survey.{Survey};

use super::plays::survey_of;
use crate::task::{AskedError, ReportKind, Survey};
use crate::word_values::has;
use clap::ArgMatches;
use std::alloc::Global;

const BREAK: &str = "--break can be used with --table, but not with --lines, --svg or --shrink";

const KEEP: &str = "--break cannot be used with --keep: redirect its output to a file";

/// Returns whether `--break` prints only a table of numbers. `shape` is the form of output that the other options name.
/// Returns `None` if `--break` cannot print this form.
fn is_table(shape: ReportKind) -> Option<bool>
    ensures { MatchOption result ((is_table : Bool) → shape ≢ break_shape is_table) (λ is_table. shape ≡ break_shape is_table) }
{
    match shape {
        ReportKind::Sums => Some(false),
        ReportKind::Table => Some(true),
        ReportKind::Lines
        | ReportKind::Accounts
        | ReportKind::Csv
        | ReportKind::Picture
        | ReportKind::Least => None,
    }
}

/// Checks that `--break` can be used with the other options of this survey, and returns whether it prints only a table
/// of numbers.
///
/// # Errors
///
/// Fails if `--break` cannot print the survey's form of output, or if the survey has a folder for campaigns.
fn break_shape(survey: &Survey) -> Result<bool, AskedError>
    ensures told { IfOk result (λ is_table. (survey.now.shape ≡ break_shape is_table) × (survey.now.keep ≡ None)) }
    ensures refused { IfErr result (λ e.
        IsSaid (codes "--break can be used with --table, but not with --lines, --svg or --shrink") (IsNoBreak survey.now.shape) e
        ⊎ IsSaid (codes "--break cannot be used with --keep: redirect its output to a file")
        (is_some survey.now.keep ≡ true) e) }
{
    let Some(is_table) = is_table(survey.shape) else {
        return Err(AskedError::Value(BREAK));
    };
    if survey.keep.is_some() {
        return Err(AskedError::Value(KEEP));
    }
    Ok(is_table)
}

/// Returns the survey that `--break` searches, and whether only a table of numbers is printed.
///
/// # Errors
///
/// Fails if a value is wrong, if an option cannot be used with `--break`, or if memory runs out.
pub(super) fn break_of(alloc: Global, found: &ArgMatches) -> Result<(Survey, bool), AskedError>
    requires { has (codes "break") (rows_of (found_of found.now)) ≡ true }
    ensures survey { IfOk result (λ r. IsSurvey r.0) }
    ensures told { IfOk result (λ r. IsBreaking (rows_of (found_of found.now)) r.0 r.1) }
    ensures refused { let rows = rows_of (found_of found.now) in
        IfErr result (IsRefused rows ((s : Survey) (is_table : Bool) → IsBreaking rows s is_table → ⊥)) }
{
    let survey = survey_of(alloc, found)?;
    let is_table = break_shape(&survey)?;
    Ok((survey, is_table))
}
