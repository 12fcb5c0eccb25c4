//! Prints texts, and the summary of a survey: as sums, as a table, as CSV or as a picture.
ghost use Rattle.std.specs.Prelude.{◌≡◌, IfErr, IfOk, OnErr, OnOk, string_bytes};
ghost use Rattle.std.specs.Io.KnownBytes.{Appends};
ghost use Rattle.streams.specs.Writing.{AppendsFront};
ghost use Rattle.surveyor.specs.Faults.{IsUnprinted, unprinted};
ghost use Rattle.surveyor.specs.Printed.{counts_text};

use crate::fault::SurveyFailure;
use crate::task::ReportKind;
use std::alloc::{AllocError, Global};
use std::io::ErrorKind;
use streams::Output;
use surveys::{RunningCounts, csv_table, picture, sums_text, table};

/// Prints a text to `out`, which is standard output. If that fails, only the first bytes of the text may have been
/// printed.
///
/// # Errors
///
/// Fails with `Unwritten` if the output cannot be written, and with `Memory` if memory ran out.
pub fn print<O: Output>(out: &mut O, text: &str) -> Result<(), SurveyFailure>
    ensures written { OnOk result (Appends (O.contents out.old) (O.contents out.new) text.now) }
    ensures begun { OnErr result (AppendsFront (O.contents out.old) (O.contents out.new) text.now) }
    ensures failed { OnErr result (O.fails out.old) }
    ensures refused { IfErr result IsUnprinted }
{
    match out.put(text.as_bytes()) {
        Ok(()) => Ok(()),
        Err(error) => Err(unprinted(error.kind())),
    }
}

/// Returns the failure for a standard output that cannot be written: `Memory` if memory ran out, and otherwise
/// `Unwritten`.
pub fn unprinted(kind: ErrorKind) -> SurveyFailure
    ensures same { result ≡ unprinted kind }
    ensures unprinted { IsUnprinted result }
{
    match kind {
        ErrorKind::OutOfMemory => SurveyFailure::Memory,
        _ => SurveyFailure::Unwritten(None),
    }
}

/// Returns the summary with these counts in the form that `shape` names. It is empty for `Lines`, `Accounts` and
/// `Least`, which have no summary.
///
/// # Errors
///
/// Fails with `AllocError` if memory runs out.
fn summary(alloc: Global, shape: ReportKind, counts: &RunningCounts) -> Result<String, AllocError>
    ensures { IfOk result (λ text. string_bytes text ≡ counts_text shape counts.now) }
{
    match shape {
        ReportKind::Sums => sums_text(alloc, counts.sums()),
        ReportKind::Table => table(alloc, counts.groups(alloc)?.as_slice()),
        ReportKind::Csv => csv_table(alloc, counts.groups(alloc)?.as_slice()),
        ReportKind::Picture => picture(alloc, counts.groups(alloc)?.as_slice()),
        ReportKind::Lines | ReportKind::Accounts | ReportKind::Least => Ok(String::new(alloc)),
    }
}

/// Prints the summary with these counts in the form that `shape` names. Prints nothing for `Lines`, `Accounts` and
/// `Least`, which have no summary.
///
/// # Errors
///
/// Fails if the output cannot be written, or if memory runs out.
pub fn put_summary<O: Output>(
    alloc: Global,
    out: &mut O,
    shape: ReportKind,
    counts: &RunningCounts,
) -> Result<(), SurveyFailure>
    ensures written { OnOk result (Appends (O.contents out.old) (O.contents out.new) (counts_text shape counts.now)) }
    ensures refused { IfErr result IsUnprinted }
{
    let text = summary(alloc, shape, counts)?;
    print(out, text.as_str())
}
