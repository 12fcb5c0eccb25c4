//! Reads a part of a survey, which is a text, line by line.
ghost use Rattle.std.specs.Prelude.{◌≡◌, ◌≢◌, ◌↔◌, ◌+◌, ◌<◌, ◌^◌, ◌++◌, ℕ, List, [], length, IfErr, IfNone, IfSome, IsTrue, MatchResult, OnOk, Some, true};
ghost use Rattle.surveys.specs.declared.finding.Finding.{Finding as Found};
ghost use Rattle.surveys.specs.Heads.{is_head};
ghost use Rattle.surveys.specs.Parts.{Adds, AddsAll, IsFaulty, IsFurther, IsHeadLine, IsLine, IsOf, IsReadOn, IsSized, IsUnfed, IsUntaken, IsWrong, StopsAt};

use crate::finding::Finding;
use crate::heading::is_head;
use crate::line_reader::read_line;
use crate::parts::{PartError, Parts};
use std::alloc::{AllocError, Global};
use text::{Stop, find};

/// Cuts the bytes after the first line feed: returns the first line with its line feed, and the bytes after it. Returns
/// `None` if there is no line feed.
fn first_line(bytes: &[u8]) -> Option<(&[u8], &[u8])>
    ensures line { IfSome result (λ cut. IsLine cut.0.now) }
    ensures whole { IfSome result (λ cut. bytes.now ≡ cut.0.now ++ cut.1.now) }
    ensures none { IfNone result (IsUnfed bytes.now) }
{
    let end = find(Stop::Byte(b'\n'), bytes);
    if end < bytes.len() {
        return Some(bytes.split_at(end + 1));
    }
    None
}

/// Stores `line` as the head that all parts of the survey share. If a head is already stored, fails with `Family(1)`
/// unless `line` is the same. Fails with `Memory` if it runs out of memory.
fn take_head(head: &mut Vec<u8>, line: &[u8]) -> Result<(), PartError>
    ensures taken { OnOk result (head.new.items ≡ line.now) }
    ensures same { OnOk result (head.old.items ≢ [] → head.new.items ≡ head.old.items) }
    ensures foreign { IfErr result (λ e. e ≢ PartError.Memory
        → (e ≡ PartError.Family 1) × (head.old.items ≢ []) × (line.now ≢ head.old.items)) }
    ensures left { IfErr result (λ e. e ≢ PartError.Memory → head.new.items ≡ head.old.items) }
    ensures memory { IfErr result (λ e. e ≡ PartError.Memory → head.old.items ≡ []) }
{
    if head.is_empty() {
        head.extend_from_slice(line)?;
        return Ok(());
    }
    if head.as_slice() == line {
        return Ok(());
    }
    Err(PartError::Family(1))
}

/// Checks whether a campaign can have these numbers. It has at most 13 generals, and at most as many traitors. Its
/// bound is at most 4, and at most the number of generals less 2.
fn is_sized(finding: &Finding) -> bool
    ensures { IsTrue result ↔ IsSized finding.now }
{
    finding.generals <= 13
        && finding.bound <= 4
        && finding.bound + 2 <= finding.generals
        && finding.traitors <= u64::from(finding.generals)
}

/// Returns `told`, the campaign's result that was read from line `number`, if its seed is in the range `seeds`, both
/// ends included.
///
/// # Errors
///
/// Returns `Line` if no possible result was read, and `Seed` if the campaign's seed is not in the range.
fn taken(told: Option<Finding>, number: u64, seeds: (u64, u64)) -> Result<Finding, PartError>
    ensures taken { MatchResult result (λ f. (told ≡ Some f) × IsOf seeds.0 seeds.1 f)
        (IsUntaken seeds.0 seeds.1 number told) }
    ensures memory { IfErr result (λ e. e ≢ PartError.Memory) }
{
    let Some(finding) = told else {
        return Err(PartError::Line(number));
    };
    if !is_sized(&finding) {
        return Err(PartError::Line(number));
    }
    let seed = finding.seed;
    if seed < seeds.0 || seeds.1 < seed {
        return Err(PartError::Seed(number, seed));
    }
    Ok(finding)
}

/// Parses line `number` of a part, and appends the campaign's result that it describes. The seed must be in the range
/// `seeds`, both ends included. A line that repeats the head is skipped.
fn add_row(
    alloc: Global,
    head: &[u8],
    number: u64,
    line: &[u8],
    seeds: (u64, u64),
    findings: &mut Vec<Finding>,
) -> Result<(), PartError>
    requires head { IsHeadLine head.now }
    requires line { IsLine line.now }
    requires behind { 1 < number }
    ensures added { OnOk result (Adds head.now line.now seeds.0 seeds.1 findings.old.items findings.new.items) }
    ensures wrong { IfErr result (λ e. e ≢ PartError.Memory → IsWrong head.now line.now seeds.0 seeds.1 number e) }
    ensures left { IfErr result (λ e. e ≢ PartError.Memory → findings.new.items ≡ findings.old.items) }
    ensures memory { is_head line.now ≡ true → IfErr result (λ e. e ≢ PartError.Memory) }
{
    if is_head(line) {
        if line == head {
            return Ok(());
        }
        return Err(PartError::Family(number));
    }
    let told = read_line(alloc, line)?;
    match taken(told, number, seeds) {
        Ok(finding) => findings.push(finding)?,
        Err(untaken) => return Err(untaken),
    }
    Ok(())
}

/// Appends the campaigns' results that the lines after a head describe, up to the first invalid line, which it returns
/// as an error. The line after the head has number 2.
fn add_rows(
    alloc: Global,
    head: &[u8],
    lines: &[u8],
    seeds: (u64, u64),
    findings: &mut Vec<Finding>,
) -> Result<(), PartError>
    requires head { IsHeadLine head.now }
    requires few { length lines.now + 2 < 2 ^ 64 }
    ensures added { OnOk result (AddsAll head.now lines.now seeds.0 seeds.1 findings.old.items findings.new.items) }
    ensures wrong { IfErr result (λ e. e ≢ PartError.Memory
        → StopsAt head.now lines.now seeds.0 seeds.1 findings.old.items findings.new.items e) }
{
    let mut rest = lines;
    let mut number: u64 = 2;
    while !rest.is_empty() {
        let Some((line, behind)) = first_line(rest) else {
            return Err(PartError::Line(number));
        };
        add_row(alloc, head, number, line, seeds, findings)?;
        rest = behind;
        number += 1;
    }
    Ok(())
}

/// Reads a part of a survey, and appends its campaigns' results to `parts`. The first line is the head, which must be
/// the same in all parts. Each other line describes a campaign whose seed is in the range `seeds`, both ends included,
/// or repeats the head. A part may be empty.
///
/// # Errors
///
/// Returns the first invalid line and why it is invalid. The results of the lines before it are kept, and the lines
/// after it are not read. Fails with `Memory` if it runs out of memory.
pub fn read_part(
    alloc: Global,
    parts: &mut Parts,
    bytes: &[u8],
    seeds: (u64, u64),
) -> Result<(), PartError>
    ensures read { OnOk result (IsReadOn parts.old.head.items parts.new.head.items bytes.now seeds.0 seeds.1
        parts.old.findings.items parts.new.findings.items) }
    ensures wrong { IfErr result (λ e. e ≢ PartError.Memory → IsFaulty parts.old.head.items parts.new.head.items
        bytes.now seeds.0 seeds.1 parts.old.findings.items parts.new.findings.items e) }
    // A correct part is read without an error, and gives just the campaigns that it was written from.
    ensures taken { (head : List ℕ) (told : List Found) → IsFurther parts.old.head.items head bytes.now
        seeds.0 seeds.1 told → IfErr result (λ e. e ≡ PartError.Memory) }
    ensures told { (head : List ℕ) (told : List Found) → IsFurther parts.old.head.items head bytes.now
        seeds.0 seeds.1 told → OnOk result (parts.new.findings.items ≡ parts.old.findings.items ++ told) }
{
    if bytes.is_empty() {
        return Ok(());
    }
    let Some((line, behind)) = first_line(bytes) else {
        return Err(PartError::Line(1));
    };
    if !is_head(line) {
        return Err(PartError::Line(1));
    }
    take_head(&mut parts.head, line)?;
    add_rows(
        alloc,
        parts.head.as_slice(),
        behind,
        seeds,
        &mut parts.findings,
    )
}
