//! `--sum`: reads the lines of several surveys from files, and prints their common summary. Reports the seeds that are
//! missing or occur more than once.
ghost use Rattle.std.specs.Prelude.{◌≡◌, ◌≢◌, [], ◌++◌, IfErr, IfOk, OnOk, flat_map, length, string_bytes};
ghost use Rattle.surveys.specs.Parts.{AreOf};
ghost use Rattle.surveyor.specs.Faults.{IsNoPart, IsUnsummed, IsUntold};
ghost use Rattle.surveyor.specs.Statuses.{IsReported};
ghost use Rattle.surveyor.specs.Summed.{AreEnds, IsAskedFor, IsCoveredBy, IsSeedReport, IsSummed, IsTold, report_text, span_of, stretch_text, with_seed};

use crate::fault::SurveyFailure;
use crate::input::bytes_of;
use crate::printer::put_summary;
use crate::task::Merge;
use std::alloc::{AllocError, Global};
use streams::{FileName, Output};
use surveys::{Finding, PartError, Parts, RunningCounts, Stretch, doubles, holes, read_part};

/// Reads the lines that `--lines` printed into several files, and prints the summary of all their campaigns. Reports on
/// `error`, which is standard error, which seeds are missing, and which occur more than once. Returns the exit status:
/// 1 if there are such seeds, and otherwise 0.
///
/// # Errors
///
/// Fails if a file cannot be read, if a line is rejected, if the output cannot be written, or if memory runs out.
#[tactic(auto, using(crate::proofs::FaultLemmas::untold_summed, crate::proofs::FaultLemmas::unprinted_summed, crate::proofs::FaultLemmas::unsummed_by_memory))]
pub fn summed<O: Output, F: Output>(
    rt: &HostRuntime,
    out: &mut O,
    error: &mut F,
    asked: &Merge,
) -> Result<u8, SurveyFailure>
    ensures summed { IfOk result (IsSummed asked.now (O.contents out.old) (O.contents out.new)
        (IsReported (F.fails error.old) (F.contents error.old) (F.contents error.new))) }
    ensures refused { IfErr result (IsUnsummed asked.now) }
{
    let alloc = rt.alloc();
    let parts = told(rt, asked)?;
    let findings = parts.findings.as_slice();
    let mut counts = RunningCounts::new(alloc)?;
    counts.add(alloc, findings)?;
    put_summary(alloc, out, asked.shape, &counts)?;
    covered(alloc, error, asked.seeds, findings)
}

/// Reads the lines of all files that `--sum` names, and returns the results of their campaigns.
///
/// # Errors
///
/// Fails if a file cannot be read, if a line is rejected, or if memory runs out.
#[tactic(auto, using(crate::proofs::FaultLemmas::unread_one, crate::proofs::SumLemmas::none_told, crate::proofs::SumLemmas::told_more, crate::proofs::SumLemmas::no_part_told))]
fn told(rt: &HostRuntime, asked: &Merge) -> Result<Parts, SurveyFailure>
    ensures told { IfOk result (λ parts. IsTold asked.now parts.head.items parts.findings.items) }
    ensures refused { IfErr result (IsUntold asked.now) }
{
    let alloc = rt.alloc();
    let mut parts = Parts {
        head: Vec::new(alloc),
        findings: Vec::new(alloc),
    };
    let mut first = "";
    for name in &asked.names {
        let bytes = bytes_of(rt, name.as_str())?;
        first = first_name(&parts, first, name.as_str());
        match read_part(alloc, &mut parts, bytes.as_slice(), span_of(asked.seeds)) {
            Ok(()) => {}
            Err(error) => return Err(refused(alloc, name.as_str(), first, error)),
        }
    }
    Ok(parts)
}

/// Returns the name of the first file that had any lines: `first` if one had lines already, and otherwise `name`, the
/// file to be read next.
fn first_name<'a>(parts: &Parts, first: &'a str, name: &'a str) -> &'a str
    ensures none { parts.now.head.items ≡ [] → result.now ≡ name.entry.now }
    ensures some { parts.now.head.items ≢ [] → result.now ≡ first.entry.now }
{
    if parts.head.is_empty() { name } else { first }
}

/// Returns the first and the last seed that the files may contain: the two ends of `--seeds`, or 0 and 2^64 - 1 if the
/// option is not given.
fn span_of(seeds: Option<(u64, u64)>) -> (u64, u64)
    ensures { result ≡ span_of seeds }
{
    match seeds {
        None => (0, u64::MAX),
        Some(seeds) => seeds,
    }
}

/// Returns the failure for the file `name`, of which a line is rejected. Its family must be the family of `first`, the
/// first file with lines.
fn refused(alloc: Global, name: &str, first: &str, error: PartError) -> SurveyFailure
    ensures { IsNoPart name.now first.now error result }
{
    match refusal(alloc, name, first, error) {
        Ok(fault) => fault,
        Err(_) => SurveyFailure::Memory,
    }
}

/// Returns the failure for the file `name`, of which a line is rejected, with the line that reports this. `first` is
/// the first file with lines, and sets the family.
///
/// # Errors
///
/// Fails with `AllocError` if there is no memory for the line.
fn refusal(
    alloc: Global,
    name: &str,
    first: &str,
    error: PartError,
) -> Result<SurveyFailure, AllocError>
    ensures { IfOk result (IsNoPart name.now first.now error) }
{
    let name = FileName(name);
    let first = FileName(first);
    match error {
        PartError::Line(number) => {
            let line = format!(in alloc; "refused {name} line {number}")?;
            Ok(SurveyFailure::Refused(line))
        }
        PartError::Family(number) => {
            let line = format!(in alloc;
                "refused {name} line {number}: its family differs from that of {first}"
            )?;
            Ok(SurveyFailure::Refused(line))
        }
        PartError::Seed(number, seed) => {
            let line = format!(in alloc;
                "refused {name} line {number}: seed {seed} is not one of --seeds"
            )?;
            Ok(SurveyFailure::Refused(line))
        }
        PartError::Memory => Ok(SurveyFailure::Memory),
    }
}

/// Extends the range of seeds `ends` so that it contains `seed`. If there is no range yet, returns the range of only
/// this seed.
fn with_seed(ends: Option<(u64, u64)>, seed: u64) -> Option<(u64, u64)>
    ensures { result ≡ with_seed ends seed }
{
    match ends {
        None => Some((seed, seed)),
        Some((first, last)) => Some((first.min(seed), last.max(seed))),
    }
}

/// Returns the least and the greatest seed of these campaigns, or `None` if there are no campaigns.
fn ends(all: &[Finding]) -> Option<(u64, u64)>
    ensures { AreEnds all.now result }
{
    let mut ends: Option<(u64, u64)> = None;
    for finding in all {
        ends = with_seed(ends, finding.seed);
    }
    ends
}

/// Returns the first and the last seed that the files should contain: the ends of `--seeds` or, if it is not given, the
/// least and the greatest seed that they contain. Returns `None` if it is not given and they contain no campaign.
fn asked_for(seeds: Option<(u64, u64)>, all: &[Finding]) -> Option<(u64, u64)>
    ensures { IsAskedFor seeds all.now result }
{
    match seeds {
        Some(seeds) => Some(seeds),
        None => ends(all),
    }
}

/// Returns the exit status of `--sum`: 1 if seeds are missing (`holes`) or occur more than once (`doubles`), and
/// otherwise 0.
fn status_of(holes: &[Stretch], doubles: &[Stretch]) -> u8
    ensures well { result ≡ 0 → (length holes.now ≡ 0) × (length doubles.now ≡ 0) }
    ensures none { length holes.now ≡ 0 → length doubles.now ≡ 0 → result ≡ 0 }
    ensures ill { result ≢ 0 → result ≡ 1 }
{
    if !holes.is_empty() {
        return 1;
    }
    if !doubles.is_empty() {
        return 1;
    }
    0
}

/// Reports on `error`, which is standard error, which seeds are missing and which occur more than once. Returns the
/// exit status: 1 if there are such seeds, and otherwise 0.
///
/// # Errors
///
/// Fails if memory runs out.
#[tactic(auto, using(crate::proofs::CoverLemmas::seeds_reported, crate::proofs::CoverLemmas::nothing_reported, crate::proofs::CoverLemmas::put_reported))]
fn covered<F: Output>(
    alloc: Global,
    error: &mut F,
    seeds: Option<(u64, u64)>,
    all: &[Finding],
) -> Result<u8, SurveyFailure>
    requires { AreOf (span_of seeds).0 (span_of seeds).1 all.now }
    ensures covered { IfOk result (IsCoveredBy seeds all.now) }
    ensures told { IfOk result (λ _. IsSeedReport seeds all.now
        (IsReported (F.fails error.old) (F.contents error.old) (F.contents error.new))) }
    ensures memory { IfErr result (λ fault. fault ≡ SurveyFailure.Memory) }
{
    let span = asked_for(seeds, all);
    let Some((first, last)) = span else {
        return Ok(0);
    };
    let holes = holes(alloc, all, first, last)?;
    let doubles = doubles(alloc, all)?;
    let status = status_of(holes.as_slice(), doubles.as_slice());
    let report = report_text(alloc, holes.as_slice(), doubles.as_slice())?;
    let _ = error.put(report.as_bytes());
    Ok(status)
}

/// Returns the report on missing seeds (`holes`) and then on seeds that occur more than once (`doubles`), with a line
/// such as `hole 5..7` for each range of seeds.
///
/// # Errors
///
/// Fails with `AllocError` if memory runs out.
fn report_text(alloc: Global, holes: &[Stretch], doubles: &[Stretch]) -> Result<String, AllocError>
    ensures { IfOk result (λ text. string_bytes text ≡ report_text holes.now doubles.now) }
{
    let mut out = String::new(alloc);
    put_stretches(&mut out, "hole", holes)?;
    put_stretches(&mut out, "double", doubles)?;
    Ok(out)
}

/// Appends a line for each of these ranges of seeds, such as `hole 5..7`. Each line begins with `name`.
///
/// # Errors
///
/// Fails with `AllocError` if memory runs out.
fn put_stretches(out: &mut String, name: &str, stretches: &[Stretch]) -> Result<(), AllocError>
    ensures { OnOk result
        (string_bytes out.new ≡ string_bytes out.old ++ flat_map (stretch_text name.now) stretches.now) }
{
    for stretch in stretches {
        put_stretch(out, name, stretch)?;
    }
    Ok(())
}

/// Appends the line for a range of seeds, such as `hole 5..7`. The line begins with `name`.
///
/// # Errors
///
/// Fails with `AllocError` if memory runs out.
fn put_stretch(out: &mut String, name: &str, stretch: &Stretch) -> Result<(), AllocError>
    ensures { OnOk result (string_bytes out.new ≡ string_bytes out.old ++ stretch_text name.now stretch.now) }
{
    let (first, last) = (stretch.first, stretch.last);
    writeln!(out, "{name} {first}..{last}")
}
