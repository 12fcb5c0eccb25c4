//! Reports faults of a message table, at the line of the fault.
ghost use Rattle.std.specs.Prelude.{◌≡◌, IfOk, option_map, string_bytes};
ghost use Rattle.cli_report.specs.Messages.{first_sentence, shape_advice, stranger_line_told, table_advice, table_line_told, table_sentence, table_told};
ghost use Rattle.cli_report.specs.Report.{help_words};

use crate::assembly::{begins_marked, has};
use crate::lines::{all_marked, line_at, trimmed};
use crate::report::{Help, report};
use book::TableFault;
use combine::Rule;
use std::alloc::{AllocError, Global};

/// Returns the error sentence for a message table with a first line that does not have the required form.
fn first_sentence(alloc: Global) -> Result<String, AllocError>
    ensures { IfOk result (λ text. string_bytes text ≡ first_sentence) }
{
    let names = Rule::names();
    format!(in alloc;
        "the first line must be `generals N bound M commander C`, perhaps with ` rule R` after it, where R is {names}"
    )
}

/// Returns the error sentence for a fault in line `number` of a message table, counted from 1.
fn sentence(alloc: Global, fault: TableFault, number: u64) -> Result<String, AllocError>
    ensures { IfOk result (λ text. string_bytes text ≡ table_sentence fault number) }
{
    let sentence = match fault {
        TableFault::Line if number == 1 => return first_sentence(alloc),
        TableFault::Line =>
            "a line must be `tell LABEL RECEIVER ORDER`, with the label's generals joined by dots, \
             numbers without leading zeros, and an order of at most 4294967295",
        TableFault::Range =>
            "there must be 2 to 13 generals, a bound of 0 to 4 and at most generals - 2, and a commander below generals",
        TableFault::Place =>
            "there is no such label, or no such receiver for it: a label begins with the commander, \
             has at most bound + 1 generals, none twice, and the receiver is not on it",
        TableFault::Twice => "an earlier line has an order for this label and receiver",
    };
    String::from_str(alloc, sentence)
}

/// Returns a help message for a line that does not have the form of a message table's lines, or `None` if no cause is
/// likely.
fn shape_help(number: u64, line: &[u8]) -> Option<Help<'static>>
    ensures { option_map help_words result ≡ shape_advice number line.now }
{
    let sentence = if begins_marked(number, line) {
        "the file begins with a byte order mark: save it without one"
    } else if has(b'\r', line) {
        "the file has Windows line ends: each line must end with only a line feed"
    } else if line.is_empty() {
        "a table has no empty line"
    } else if has(b'?', line) {
        "put an order, which is a number, in place of `?`"
    } else if has(b'#', line) || has(b';', line) {
        "a table has no comments"
    } else if has(b'\t', line) {
        "the parts of a line are separated by one space, not by a tab"
    } else {
        return None;
    };
    Some(Help::Said(sentence))
}

/// Returns a help message for a faulty line of a message table, or `None` if no cause is likely.
fn help(fault: TableFault, number: u64, line: &[u8]) -> Option<Help<'static>>
    ensures { option_map help_words result ≡ table_advice fault number line.now }
{
    match fault {
        TableFault::Line => shape_help(number, line),
        _ => None,
    }
}

/// Returns the report of a fault in line `number` of a message table. If `line` is `None`, the report has no excerpt.
fn line_told(
    alloc: Global,
    name: &str,
    fault: TableFault,
    number: u64,
    line: Option<&[u8]>,
) -> Result<String, AllocError>
    ensures { IfOk result (λ told. string_bytes told
        ≡ table_line_told name.now fault number (option_map (λ l. l.now) line.entry)) }
{
    let sentence = sentence(alloc, fault, number)?;
    let Some(line) = line else {
        return report(alloc, name, sentence.as_str(), None, None);
    };
    let mark = all_marked(number, trimmed(line));
    let help = help(fault, number, line);
    report(alloc, name, sentence.as_str(), Some(mark), help)
}

/// Returns the report of a fault at line `number` of a message table, counted from 1. `name` is the file's name.
#[tactic(auto, unfolding(crate::specs::Messages::table_told))]
pub fn of_table(
    alloc: Global,
    name: &str,
    text: &[u8],
    fault: TableFault,
    number: u64,
) -> Result<String, AllocError>
    ensures { IfOk result (λ told. string_bytes told ≡ table_told name.now text.now fault number) }
{
    line_told(alloc, name, fault, number, line_at(text, number))
}

/// Returns the report that a general named on the command line is not in a message table, which has `generals`
/// generals. `line` is the first line of the table. If it is `None`, the report has no excerpt.
pub(crate) fn stranger_line_told(
    alloc: Global,
    name: &str,
    generals: u8,
    line: Option<&[u8]>,
) -> Result<String, AllocError>
    ensures { IfOk result (λ told. string_bytes told
        ≡ stranger_line_told name.now generals (option_map (λ l. l.now) line.entry)) }
{
    let last = generals.saturating_sub(1);
    let sentence = format!(in alloc; "the table has the generals 0 to {last}")?;
    let Some(line) = line else {
        return report(alloc, name, sentence.as_str(), None, None);
    };
    let mark = all_marked(1, trimmed(line));
    report(alloc, name, sentence.as_str(), Some(mark), None)
}
