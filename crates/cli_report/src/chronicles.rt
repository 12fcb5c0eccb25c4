//! Reports faults of a schedule or a chronicle, at the line of the fault.
ghost use Rattle.std.specs.Prelude.{◌≡◌, IfOk, option_map, string_bytes};
ghost use Rattle.cli_report.specs.Chronicles.{chronicle_advice, chronicle_line_told, chronicle_sentence, chronicle_told, is_last, replayed_told, schedule_advice, schedule_line_told, schedule_sentence, schedule_told, wanted_in};
ghost use Rattle.cli_report.specs.Report.{help_words};

use crate::assembly::{begins_marked, has};
use crate::lines::{all_marked, line_at, trimmed};
use crate::report::{Help, front, report, shown_line};
use crate::toml_errors::last_line;
use std::alloc::{AllocError, Global};
use trace::{MOST_SCHEDULE_BYTES, TraceFault};

/// Returns a help message for a line in the encoding of another system: it begins with a byte order mark, or has a
/// carriage return. Returns `None` for another line.
fn ends_help(number: u64, line: &[u8]) -> Option<Help<'static>>
    ensures { option_map help_words result ≡ chronicle_advice number None line.now }
{
    if begins_marked(number, line) {
        Some(Help::Said("the file begins with a byte order mark: save it without one"))
    } else if has(b'\r', line) {
        Some(Help::Said("the file has Windows line ends: each line must end with only a line feed"))
    } else {
        None
    }
}

/// Returns a help message for a faulty line of a schedule, or `None` if no cause is likely.
fn schedule_help(number: u64, line: &[u8]) -> Option<Help<'static>>
    ensures { option_map help_words result ≡ schedule_advice number line.now }
{
    match ends_help(number, line) {
        Some(help) => Some(help),
        None if has(b'#', line) => Some(Help::Said("a schedule has no comments")),
        None => None,
    }
}

/// Returns the report of a fault in line `number` of a schedule. If `line` is `None`, the report has no excerpt.
fn schedule_line_told(
    alloc: Global,
    name: &str,
    number: u64,
    line: Option<&[u8]>,
) -> Result<String, AllocError>
    ensures { IfOk result (λ told. string_bytes told
        ≡ schedule_line_told name.now number (option_map (λ l. l.now) line.entry)) }
{
    let sentence =
        "a line has entries separated by one space: `G`, or `G*K` for K times `G`, with G 0 to 12 and K 1 to 4096; \
         a schedule has at most 5 lines and 1048576 bytes";
    let Some(line) = line else {
        return report(alloc, name, sentence, None, None);
    };
    let mark = all_marked(number, trimmed(line));
    report(
        alloc,
        name,
        sentence,
        Some(mark),
        schedule_help(number, line),
    )
}

/// Returns the report of a fault in line `number` of a schedule, counted from 1. Only the first 1,048,576 bytes of the
/// text, the most that a schedule may have, can be in the excerpt. `name` is the file's name.
#[tactic(auto, unfolding(crate::specs::Chronicles::schedule_told))]
pub fn of_schedule(
    alloc: Global,
    name: &str,
    text: &[u8],
    number: u64,
) -> Result<String, AllocError>
    ensures { IfOk result (λ told. string_bytes told ≡ schedule_told name.now text.now number) }
{
    let line = line_at(front(text, MOST_SCHEDULE_BYTES), number);
    schedule_line_told(alloc, name, number, line)
}

/// Checks whether line `number` of a text, counted from 1, is the one after the last line feed.
fn is_last(text: &[u8], number: u64) -> bool
    ensures { result ≡ is_last text.now number }
{
    number == last_line(text).0
}

/// Returns the error sentence for a fault in a line of a chronicle. `last` says whether the line is after the last line
/// feed of the file, so that it is cut off or empty.
fn chronicle_sentence(last: bool, fault: TraceFault) -> &'static str
    ensures { result.now ≡ chronicle_sentence last fault }
{
    match fault {
        TraceFault::Line if last => "the file is cut off: this line has no line feed at its end",
        _ if last => "the file ends here, but the campaign's chronicle has more lines",
        TraceFault::Line => "no line of a chronicle has this shape",
        TraceFault::Scenario => "the first two lines are not those of this scenario's campaign",
        TraceFault::Differs => "this line differs from the campaign's",
    }
}

/// Returns a help message for a faulty line of a chronicle: the line that the campaign's own chronicle has there or, if
/// this is not known, a likely cause. Returns `None` if no cause is likely.
fn chronicle_help<'a>(number: u64, wanted: Option<&'a str>, line: &[u8]) -> Option<Help<'a>>
    ensures { option_map help_words result ≡ chronicle_advice number (option_map (λ w. w.now) wanted.entry) line.now }
{
    match wanted {
        Some(wanted) => Some(Help::Has(wanted)),
        None => ends_help(number, line),
    }
}

/// Returns the report of a fault in line `number` of a chronicle. `wanted` is the line that the campaign's own
/// chronicle has there, if it is known. If `line` is `None`, the report has no excerpt.
fn chronicle_line_told(
    alloc: Global,
    name: &str,
    last: bool,
    fault: TraceFault,
    number: u64,
    wanted: Option<&str>,
    line: Option<&[u8]>,
) -> Result<String, AllocError>
    ensures { IfOk result (λ told. string_bytes told
        ≡ chronicle_line_told name.now last fault number (option_map (λ w. w.now) wanted.entry)
        (option_map (λ l. l.now) line.entry)) }
{
    let sentence = chronicle_sentence(last, fault);
    match line {
        Some(line) => {
            let mark = all_marked(number, trimmed(line));
            report(
                alloc,
                name,
                sentence,
                Some(mark),
                chronicle_help(number, wanted, line),
            )
        }
        None => match wanted {
            Some(wanted) => report(alloc, name, sentence, None, Some(Help::Has(wanted))),
            None => report(alloc, name, sentence, None, None),
        },
    }
}

/// Returns line `number` of `again`, the campaign's own chronicle, with control characters escaped. Returns `None` if
/// there is no such line, or if the line in the file does not have the form of a chronicle's line.
fn wanted_in(
    alloc: Global,
    fault: TraceFault,
    again: &[u8],
    number: u64,
) -> Result<Option<String>, AllocError>
    ensures { IfOk result (λ wanted. option_map string_bytes wanted ≡ wanted_in fault again.now number) }
{
    if fault == TraceFault::Line {
        return Ok(None);
    }
    match line_at(again, number) {
        Some(line) => Ok(Some(shown_line(alloc, line)?)),
        None => Ok(None),
    }
}

/// Returns the report of a fault at line `number` of a chronicle, counted from 1. `wanted` is the line that the
/// campaign's own chronicle has there, if it is known.
#[tactic(auto, unfolding(crate::specs::Chronicles::chronicle_told))]
fn chronicle_told(
    alloc: Global,
    name: &str,
    text: &[u8],
    fault: TraceFault,
    number: u64,
    wanted: Option<&str>,
) -> Result<String, AllocError>
    ensures { IfOk result (λ told. string_bytes told
        ≡ chronicle_told name.now text.now fault number (option_map (λ w. w.now) wanted.entry)) }
{
    let last = is_last(text, number);
    let line = line_at(text, number);
    chronicle_line_told(alloc, name, last, fault, number, wanted, line)
}

/// Returns the report of a fault at line `number` of a chronicle, counted from 1. `name` is the file's name, and
/// `again` is the correct chronicle of the campaign.
pub fn of_chronicle(
    alloc: Global,
    name: &str,
    text: &[u8],
    fault: TraceFault,
    number: u64,
    again: &[u8],
) -> Result<String, AllocError>
    ensures { IfOk result (λ told. string_bytes told ≡ replayed_told name.now text.now fault number again.now) }
{
    match wanted_in(alloc, fault, again, number)? {
        Some(wanted) => chronicle_told(alloc, name, text, fault, number, Some(wanted.as_str())),
        None => chronicle_told(alloc, name, text, fault, number, None),
    }
}
