//! `--break`: searches for the least campaign that breaks agreement, for each number of generals and each bound on the
//! traitors.
ghost use Rattle.std.specs.Prelude.{◌≡◌, ◌≤◌, ◌+◌, ◌-◌, min, Option, IfErr, IfOk, OnOk};
ghost use Rattle.std.specs.Io.KnownBytes.{Appends};
ghost use Rattle.surveys.specs.declared.breach.Breaking.{Breaking as Found};
ghost use Rattle.surveys.specs.Breakings.{breaking_text};
ghost use Rattle.surveyor.specs.Asked.{IsSurvey};
ghost use Rattle.surveyor.specs.Broken.{IsBreakAnswered, IsBroken, IsSearched, break_header, cut_to, gap};
ghost use Rattle.surveyor.specs.Ends.{IsSearchRefused, IsStopped, IsUnended};

use crate::family::family_of;
use crate::fault::SurveyFailure;
use crate::pieces::refused;
use crate::printer::print;
use crate::task::Survey;
use std::thread::Threads;
use streams::Output;
use surveys::{Breaking, CountRange, Family, breaking, breaking_text};

/// Searches for small campaigns that break agreement, and prints the least one found for each number of generals and
/// each bound that they can have. The search plays each seed's campaign with each number of traitors, and reduces the
/// broken ones. If `is_table` is true, prints only a row of numbers for each least campaign.
///
/// # Errors
///
/// Fails if the family's file or a campaign is rejected, if the output cannot be written, or if memory runs out.
#[tactic(auto, using(crate::proofs::FaultLemmas::unended, crate::proofs::FaultLemmas::untaken))]
pub fn broken<T: Threads + Sync, O: Output>(
    rt: &HostRuntime,
    threads: &T,
    out: &mut O,
    asked: &Survey,
    is_table: bool,
) -> Result<(), SurveyFailure>
    requires { IsSurvey asked.now }
    ensures answered { OnOk result (IsBreakAnswered asked.now is_table (O.contents out.old) (O.contents out.new)) }
    ensures refused { IfErr result (IsUnended asked.now (IsSearchRefused asked.now)) }
{
    let family = family_of(rt, asked)?;
    put_entries(rt, threads, out, asked, &family, is_table)
}

/// Prints the header of the table, if there is one, and the least campaign found for each number of generals and each
/// bound of the family.
///
/// # Errors
///
/// Fails if a campaign is rejected, if the output cannot be written, or if memory runs out.
#[tactic(auto, using(crate::proofs::FaultLemmas::stopped_printing))]
fn put_entries<T: Threads + Sync, O: Output>(
    rt: &HostRuntime,
    threads: &T,
    out: &mut O,
    asked: &Survey,
    family: &Family,
    is_table: bool,
) -> Result<(), SurveyFailure>
    requires { IsSurvey asked.now }
    ensures broken { OnOk result (IsBroken asked.now family.now is_table (O.contents out.old) (O.contents out.new)) }
    ensures stopped { IfErr result (IsStopped asked.now (IsSearchRefused asked.now family.now)) }
{
    print(out, break_header(is_table))?;
    let mut is_first = true;
    let end = asked.generals.high + 1;
    for generals in asked.generals.low..end {
        let most = bounds_end(generals, asked.bound);
        for bound in asked.bound.low..most {
            print(out, gap(is_table, is_first))?;
            put_entry(rt, threads, out, asked, family, generals, bound, is_table)?;
            is_first = false;
        }
    }
    Ok(())
}

/// Returns one more than the greatest bound to search for `generals` generals. This bound is the least of three
/// numbers: the upper end of `bound`, 4, and `generals - 2`.
fn bounds_end(generals: u8, bound: CountRange) -> u8
    ensures { result ≡ min bound.high (min 4 (generals - 2)) + 1 }
{
    bound.high.min(generals.saturating_sub(2).min(4)) + 1
}

/// Returns the header line of the table of `--break --table`, or an empty text if campaigns are printed.
fn break_header(is_table: bool) -> &'static str
    ensures { result.now ≡ break_header is_table }
{
    if is_table {
        "generals bound traitors statements seed\n"
    } else {
        ""
    }
}

/// Returns the text that separates a campaign from the one before it: an empty line. Returns no text before the first
/// campaign and in a table.
fn gap(is_table: bool, is_first: bool) -> &'static str
    ensures { result.now ≡ gap is_table is_first }
{
    if is_table || is_first { "" } else { "\n" }
}

/// Searches for the least campaign with this number of generals and this bound that breaks agreement, and prints it or,
/// if `is_table` is true, a row of its numbers.
///
/// # Errors
///
/// Fails if a campaign is rejected, if the output cannot be written, or if memory runs out.
#[tactic(auto, using(crate::proofs::FaultLemmas::stopped_printing, crate::proofs::FaultLemmas::stopped_by_memory))]
fn put_entry<T: Threads + Sync, O: Output>(
    rt: &HostRuntime,
    threads: &T,
    out: &mut O,
    asked: &Survey,
    family: &Family,
    generals: u8,
    bound: u8,
    is_table: bool,
) -> Result<(), SurveyFailure>
    requires asked { IsSurvey asked.now }
    requires least { 2 ≤ generals }
    requires most { generals ≤ 13 }
    ensures entry { OnOk result ((found : Option Found) × IsSearched asked.now family.now generals bound found
        × Appends (O.contents out.old) (O.contents out.new) (breaking_text is_table generals bound found)) }
    ensures stopped { IfErr result (IsStopped asked.now (IsSearchRefused asked.now family.now)) }
{
    let found = searched(rt, threads, asked, family, generals, bound)?;
    let text = breaking_text(rt.alloc(), is_table, generals, bound, found.as_ref())?;
    print(out, text.as_str())
}

/// Searches for campaigns with this number of generals and this bound that break agreement, and returns the least
/// reduced one. The search covers all seeds and all numbers of traitors of the survey. Returns `None` if agreement is
/// broken in no campaign.
///
/// # Errors
///
/// Fails if a campaign is rejected, or if memory runs out.
#[tactic(auto, using(crate::proofs::FaultLemmas::stopped_campaign))]
fn searched<T: Threads + Sync>(
    rt: &HostRuntime,
    threads: &T,
    asked: &Survey,
    family: &Family,
    generals: u8,
    bound: u8,
) -> Result<Option<Breaking>, SurveyFailure>
    requires asked { IsSurvey asked.now }
    requires least { 2 ≤ generals }
    requires most { generals ≤ 13 }
    ensures searched { IfOk result (IsSearched asked.now family.now generals bound) }
    ensures stopped { IfErr result (IsStopped asked.now (IsSearchRefused asked.now family.now)) }
{
    let (first, end) = (asked.first, asked.last + 1);
    let traitors = cut_to(generals, asked.traitors);
    match breaking(
        threads,
        rt.alloc(),
        family,
        generals,
        bound,
        traitors,
        first,
        end,
    ) {
        Ok(found) => Ok(found),
        Err(error) => Err(refused(first, end, error)),
    }
}

/// Limits both ends of a range of numbers of traitors to the number of generals.
fn cut_to(generals: u8, span: CountRange) -> CountRange
    ensures { result ≡ cut_to generals span }
{
    CountRange {
        low: span.low.min(generals),
        high: span.high.min(generals),
    }
}
