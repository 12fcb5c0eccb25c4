//! Finishes the subcommands `draw`, `page` and `schedule` when the campaign has been read: reads the second file, which
//! is a schedule or a chronicle of the campaign.
ghost use Rattle.std.specs.Prelude.{IfErr, IfOk, IsSomeAnd, option_map, string_bytes};
ghost use Rattle.cli_tasks.specs.Faults.{Stops};
ghost use Rattle.cli_tasks.specs.Serving.{IsDrawnAs, IsDrawnBy, IsPagedAs, IsPagedBy, IsRetracedBy, IsToldLater};
ghost use Rattle.cli_tasks.specs.declared.first_answer.FirstAnswer.TheVariants.{Draw, DrawRecorded, Page, PageRecorded, Retrace};

use crate::diagrams::{diagrammed, record_diagrammed};
use crate::failure::TaskFailure;
use crate::pages::{paged, record_paged};
use crate::reader::read_second;
use crate::schedules::retraced;
use crate::service::scheduled;
use crate::whys::{FileRole, later};
use scenario::Campaign;
use std::alloc::Global;
use streams::Source;

/// Plays the campaign by the schedule in the second file, and returns its space-time diagram in SVG. Without a second
/// file the schedule is empty.
pub(crate) fn draw_by<'a, R: Source>(
    alloc: Global,
    campaign: Campaign,
    reported: bool,
    file: &'a str,
    second: Option<R>,
) -> Result<Vec<u8>, TaskFailure<'a>>
    ensures drawn { IfOk result (λ text. IsDrawnBy (option_map R.bytes second) campaign text.items) }
    ensures fault { IfErr result
        (Stops (IsSomeAnd second R.fails)
        (IsToldLater reported file.entry.now (option_map R.bytes second) (Draw campaign)) file.entry.now) }
{
    let schedule = scheduled(alloc, reported, file, second)?;
    match diagrammed(alloc, campaign, &schedule) {
        Ok(picture) => Ok(picture),
        Err(_) => Err(TaskFailure::Memory),
    }
}

/// Reads the chronicle of the campaign from the second file, and returns its space-time diagram in SVG. The failure
/// describes the fault if `reported` is set.
pub(crate) fn draw_record<'a, R: Source>(
    alloc: Global,
    campaign: &Campaign,
    reported: bool,
    file: &'a str,
    second: Option<R>,
) -> Result<Vec<u8>, TaskFailure<'a>>
    ensures drawn { IfOk result (λ text. IsDrawnAs (option_map R.bytes second) campaign.now text.items) }
    ensures fault { IfErr result
        (Stops (IsSomeAnd second R.fails)
        (IsToldLater reported file.entry.now (option_map R.bytes second)
        (DrawRecorded campaign.now)) file.entry.now) }
{
    let bytes = read_second(alloc, file, second)?;
    match record_diagrammed(alloc, campaign, bytes.as_slice()) {
        Ok(picture) => Ok(picture),
        Err(refusal) => {
            Err(later(
                alloc,
                reported,
                FileRole::Nothing,
                refusal,
                file,
                bytes.as_slice(),
            ))
        }
    }
}

/// Plays the campaign by the schedule in the second file, and returns it as an HTML page. Without a second file the
/// schedule is empty. `text` is the text of the campaign's scenario.
pub(crate) fn page_by<'a, R: Source>(
    alloc: Global,
    campaign: Campaign,
    text: String,
    reported: bool,
    file: &'a str,
    second: Option<R>,
) -> Result<Vec<u8>, TaskFailure<'a>>
    ensures told { IfOk result (λ page. IsPagedBy (option_map R.bytes second) campaign (string_bytes text) page.items) }
    ensures fault { IfErr result
        (Stops (IsSomeAnd second R.fails)
        (IsToldLater reported file.entry.now (option_map R.bytes second) (Page campaign text)) file.entry.now) }
{
    let schedule = scheduled(alloc, reported, file, second)?;
    match paged(alloc, text.as_str(), campaign, &schedule) {
        Ok(page) => Ok(page),
        Err(_) => Err(TaskFailure::Memory),
    }
}

/// Reads the chronicle of the campaign from the second file, and returns it as an HTML page. `text` is the text of the
/// campaign's scenario.
pub(crate) fn page_record<'a, R: Source>(
    alloc: Global,
    campaign: Campaign,
    text: String,
    reported: bool,
    file: &'a str,
    second: Option<R>,
) -> Result<Vec<u8>, TaskFailure<'a>>
    ensures told { IfOk result (λ page. IsPagedAs (option_map R.bytes second) campaign (string_bytes text) page.items) }
    ensures fault { IfErr result
        (Stops (IsSomeAnd second R.fails)
        (IsToldLater reported file.entry.now (option_map R.bytes second)
        (PageRecorded campaign text)) file.entry.now) }
{
    let bytes = read_second(alloc, file, second)?;
    match record_paged(alloc, text.as_str(), &campaign, bytes.as_slice()) {
        Ok(page) => Ok(page),
        Err(refusal) => {
            Err(later(
                alloc,
                reported,
                FileRole::Nothing,
                refusal,
                file,
                bytes.as_slice(),
            ))
        }
    }
}

/// Reads a chronicle of the campaign from the second file. Returns the text of a schedule by which the campaign has this
/// chronicle.
pub(crate) fn retrace_of<'a, R: Source>(
    alloc: Global,
    campaign: &Campaign,
    reported: bool,
    file: &'a str,
    second: Option<R>,
) -> Result<Vec<u8>, TaskFailure<'a>>
    ensures retraced { IfOk result (λ text. IsRetracedBy (option_map R.bytes second) campaign.now text.items) }
    ensures fault { IfErr result
        (Stops (IsSomeAnd second R.fails)
        (IsToldLater reported file.entry.now (option_map R.bytes second) (Retrace campaign.now)) file.entry.now) }
{
    let bytes = read_second(alloc, file, second)?;
    match retraced(alloc, campaign, bytes.as_slice()) {
        Ok(lines) => Ok(lines),
        Err(refusal) => {
            Err(later(
                alloc,
                reported,
                FileRole::Nothing,
                refusal,
                file,
                bytes.as_slice(),
            ))
        }
    }
}
