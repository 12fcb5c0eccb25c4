//! Reports faults of a traitor's program, at its lines in the scenario's text.
ghost use Rattle.std.specs.Prelude.{◌≡◌, IfOk, nat_eq, option_and_then, option_map, string_bytes};
ghost use Rattle.std.specs.List.{starts_with};
ghost use Rattle.toml.specs.View.{table_view};
ghost use Rattle.scenario.specs.Seen.{source_of};
ghost use Rattle.cli_report.specs.Assembly.{spot_view, unit_mark};
ghost use Rattle.cli_report.specs.Keys.{found_view};
ghost use Rattle.cli_report.specs.Report.{mark_view};
ghost use Rattle.cli_report.specs.Scenarios.{IsProgramTold, IsRefusedAt, IsRefusedBy, IsRefusedProgram, IsUnitShown, before_feed, before_quote, behind_feed, behind_feeds, bytecode_shown, code_line_told, end_spot, hex_told, is_feed, is_long, line_behind, line_spot, long_spot, program_line, source_line, source_shown, spot_in, spot_told, text_told, unit_end, verifier_sentence};

use crate::assembly::{Spot, code_told, sentence, unit_mark};
use crate::bytecode::{unit_place, unit_sentence};
use crate::keys::{Found, find_line, table_of, value_end};
use crate::lines::{line_at, marked, trimmed};
use crate::report::{Mark, behind, front, report};
use crate::scenarios::{key_mark, value_mark};
use crate::sources::{document_of, source_in};
use crate::units::line_of_unit;
use scenario::{ProgramFault, ProgramText};
use std::alloc::{AllocError, Global};
use toml::Table;
use verify::Reason;

/// Returns the line of the key `word` in the table of this general, or `None` if the table has no such key.
#[tactic(auto, unfolding(crate::specs::Scenarios::program_line))]
fn program_line<'a>(
    alloc: Global,
    general: u8,
    word: &[u8],
    text: &'a [u8],
) -> Result<Option<Found<'a>>, AllocError>
    ensures { IfOk result (λ line. option_map found_view line ≡ program_line general word.now text.now) }
{
    match table_of(alloc, general, text)? {
        Some(table) => Ok(find_line(u128::from(table), word, text)),
        None => Ok(None),
    }
}

/// Returns the line with the key of a general's program: `asm` or, if his table has no such key, `code`. Returns `None`
/// if it has neither.
pub(crate) fn source_line(
    alloc: Global,
    general: u8,
    text: &[u8],
) -> Result<Option<Found<'_>>, AllocError>
    ensures { IfOk result (λ line. option_map found_view line ≡ source_line general text.now) }
{
    match program_line(alloc, general, b"asm", text)? {
        Some(line) => Ok(Some(line)),
        None => program_line(alloc, general, b"code", text),
    }
}

/// Checks whether a TOML value is a string over several lines, which begins with three quotation marks.
pub(crate) fn is_long(value: &[u8]) -> bool
    ensures { result ≡ is_long value.now }
{
    value.starts_with(b"\"\"\"") || value.starts_with(b"'''")
}

/// Checks whether the text of a TOML string begins with an escaped line feed, written `\n`.
fn is_feed(text: &[u8]) -> bool
    ensures { result ≡ is_feed text.now }
{
    match text {
        [first, second, ..] => *first == b'\\' && *second == b'n',
        _ => false,
    }
}

/// Returns the text of a TOML string after its first escaped line feed, written `\n`, or no bytes if it has none.
fn behind_feed(text: &[u8]) -> &[u8]
    ensures { result.now ≡ behind_feed text.now }
{
    for i in 0..text.len() {
        let rest = behind(text, i);
        if is_feed(rest) {
            return behind(rest, 2);
        }
    }
    &[]
}

/// Returns the text of a TOML string after its first `number` escaped line feeds, written `\n`, or no bytes if it has
/// fewer.
fn behind_feeds(text: &[u8], number: u64) -> &[u8]
    ensures { result.now ≡ behind_feeds number text.now }
{
    let mut rest = text;
    for fed in 0..number {
        rest = behind_feed(rest);
    }
    rest
}

/// Checks whether the text begins with `quote`, the quotation marks of a TOML string.
fn stands_at(quote: &[u8], text: &[u8]) -> bool
    ensures { result ≡ starts_with nat_eq text.now quote.now }
{
    text.starts_with(quote)
}

/// Returns the text before its first escaped line feed, written `\n`, or its first `quote`. Returns all of it if it has
/// neither.
fn before_feed<'a>(quote: &[u8], text: &'a [u8]) -> &'a [u8]
    ensures { result.now ≡ before_feed quote.now text.now }
{
    for i in 0..text.len() {
        let rest = behind(text, i);
        if is_feed(rest) || stands_at(quote, rest) {
            return &text[..i];
        }
    }
    text
}

/// Returns the text before its first `quote`, which ends a TOML string over several lines. Returns all of it if it has
/// none.
fn before_quote<'a>(quote: &[u8], text: &'a [u8]) -> &'a [u8]
    ensures { result.now ≡ before_quote quote.now text.now }
{
    for i in 0..text.len() {
        let rest = behind(text, i);
        if stands_at(quote, rest) {
            return &text[..i];
        }
    }
    text
}

/// Returns a line of a program with its place. `line` is the line of the file that contains it, and `end` is the part
/// of that line from the program's line, `code`, on.
fn end_spot<'a>(line: Found<'a>, end: &[u8], code: &'a [u8]) -> Spot<'a>
    ensures { spot_view result ≡ end_spot (found_view line.entry) end.now code.now }
{
    let before = line.line.len().saturating_sub(end.len());
    Spot {
        number: line.number,
        shown: line.line,
        front: front(line.line, before),
        code,
    }
}

/// Returns the line that is `more` lines after line `first` of a text, with its number, or `None` if there is no such
/// line.
#[tactic(auto, unfolding(crate::specs::Scenarios::line_behind))]
fn line_behind(text: &[u8], first: u64, more: u64) -> Option<(u64, &[u8])>
    ensures { option_map (λ line. (line.0, line.1.now)) result ≡ line_behind text.now first more }
{
    let number = first.checked_add(more)?;
    let line = line_at(text, number)?;
    Some((number, line))
}

/// Returns the line of a program that begins where a line of the file begins, with its place. It ends before the
/// quotation marks `quote`, if the line of the file has them. Returns `None` if `line` is `None`.
fn line_spot<'a>(quote: &[u8], line: Option<(u64, &'a [u8])>) -> Option<Spot<'a>>
    ensures { option_map spot_view result
        ≡ option_map (line_spot quote.now) (option_map (λ l. (l.0, l.1.now)) line.entry) }
{
    let (number, line) = line?;
    Some(Spot {
        number,
        shown: line,
        front: &[],
        code: before_quote(quote, line),
    })
}

/// Returns line `number` of a program, with its place. The program is a TOML string over several lines, which ends at
/// `quote`. `line` is the line of the program's key, and `rest` is what follows the opening quotation marks there.
/// Returns `None` if the file has no such line.
fn long_spot<'a>(
    text: &'a [u8],
    number: u64,
    line: Found<'a>,
    quote: &[u8],
    rest: &'a [u8],
) -> Option<Spot<'a>>
    ensures { option_map spot_view result ≡ long_spot text.now number (found_view line.entry) quote.now rest.now }
{
    if trimmed(rest).is_empty() {
        line_spot(quote, line_behind(text, line.number, number))
    } else if number <= 1 {
        Some(end_spot(line, rest, before_quote(quote, rest)))
    } else {
        line_spot(quote, line_behind(text, line.number, number - 1))
    }
}

/// Returns line `number` of a program in the file `text`, with its place. `line` is the line of the file with the
/// program's key. Returns `None` if the file has no such line.
fn spot_in<'a>(text: &'a [u8], number: u64, line: Found<'a>) -> Option<Spot<'a>>
    ensures { option_map spot_view result ≡ spot_in text.now number (found_view line.entry) }
{
    let value = value_end(line.line);
    if is_long(value) {
        return long_spot(text, number, line, front(value, 3), behind(value, 3));
    }
    let end = behind_feeds(behind(value, 1), number.saturating_sub(1));
    let code = before_feed(front(value, 1), end);
    Some(end_spot(line, end, code))
}

/// Returns line `number` of a program in the file `text`, with its place. `line` is the line of the file with the
/// program's key. Returns `None` if `line` is `None`, or if the file has no such line.
fn spot_of<'a>(text: &'a [u8], number: u64, line: Option<Found<'a>>) -> Option<Spot<'a>>
    ensures { option_map spot_view result
        ≡ option_and_then (spot_in text.now number) (option_map found_view line.entry) }
{
    match line {
        Some(line) => spot_in(text, number, line),
        None => None,
    }
}

/// Returns the report of an assembler's fault in a line of a program. `spot` is that line with its place in the file.
/// If it is `None`, the report has no excerpt.
fn spot_told(
    alloc: Global,
    name: &str,
    fault: asm::AsmFault,
    spot: Option<Spot<'_>>,
) -> Result<String, AllocError>
    ensures { IfOk result (λ told. string_bytes told ≡ spot_told name.now fault (option_map spot_view spot.entry)) }
{
    match spot {
        Some(spot) => code_told(alloc, name, fault, spot),
        None => report(alloc, name, sentence(fault, &[]), None, None),
    }
}

/// Returns the report of an assembler's fault at line `number` of a program in the scenario `text`. `name` is the
/// scenario's file name, and `line` is its line with the program's key, if there is one.
pub(crate) fn text_told(
    alloc: Global,
    name: &str,
    text: &[u8],
    fault: asm::AsmFault,
    number: u64,
    line: Option<Found<'_>>,
) -> Result<String, AllocError>
    ensures { IfOk result (λ told. string_bytes told
        ≡ text_told name.now text.now fault number (option_map found_view line.entry)) }
{
    spot_told(alloc, name, fault, spot_of(text, number, line))
}

/// Returns a line with bytecode, from the hex digits of unit `unit`, counted from 0, on. A unit past 4096 has no
/// digits.
fn unit_end(line: &[u8], unit: usize) -> &[u8]
    ensures { result.now ≡ unit_end line.now unit }
{
    if unit > 4096 {
        return &[];
    }
    behind(behind(value_end(line), 1), 16 * unit)
}

/// Returns the report of a fault in unit `unit` of bytecode, counted from 0. `line` is the line with the bytecode. If
/// it is `None`, the report has no excerpt.
pub(crate) fn code_line_told(
    alloc: Global,
    name: &str,
    fault: codec::CodecFault,
    unit: usize,
    line: Option<Found<'_>>,
) -> Result<String, AllocError>
    ensures { IfOk result (λ told. string_bytes told
        ≡ code_line_told name.now fault unit (option_map found_view line.entry)) }
{
    let Some(line) = line else {
        return report(alloc, name, unit_sentence(fault, &[]), None, None);
    };
    let end = unit_end(line.line, unit);
    let digits = front(end, 16);
    let (from, size) = unit_place(fault, digits);
    let before = line.line.len().saturating_sub(end.len());
    let mark = marked(line.number, trimmed(line.line), before + from, size);
    report(alloc, name, unit_sentence(fault, digits), Some(mark), None)
}

/// Returns the error sentence for a program that the verifier rejects at unit `unit`.
pub(crate) fn verifier_sentence(
    alloc: Global,
    reason: Reason,
    unit: usize,
) -> Result<String, AllocError>
    ensures { IfOk result (λ text. string_bytes text ≡ verifier_sentence reason unit) }
{
    format!(in alloc; "the verifier rejects this program: {reason} at its unit {unit}")
}

/// Marks the statement in a line of a program. `spot` is that line with its place in the file. If it is `None`, returns
/// `None`.
fn spot_shown(spot: Option<Spot<'_>>) -> Option<Mark<'_>>
    ensures { option_map mark_view result ≡ option_map unit_mark (option_map spot_view spot.entry) }
{
    match spot {
        Some(spot) => Some(unit_mark(spot)),
        None => None,
    }
}

/// Marks the statement of unit `unit` in a program with the assembly `asm`. `line` is the line of the file `text` with
/// the program's key. Returns `None` if the statement is not found.
pub(crate) fn unit_shown<'a>(
    alloc: Global,
    text: &'a [u8],
    unit: usize,
    asm: &str,
    line: Option<Found<'a>>,
) -> Result<Option<Mark<'a>>, AllocError>
    ensures { IfOk result (λ mark. IsUnitShown text.now unit asm.now (option_map found_view line.entry)
        (option_map mark_view mark)) }
{
    let number = line_of_unit(alloc, asm, unit)?;
    Ok(spot_shown(spot_of(text, number, line)))
}

/// Marks the key `asm` of this general's program or, if he has no such key, all of the line with the key `code`.
/// Returns `None` if he has neither.
fn source_shown(alloc: Global, general: u8, text: &[u8]) -> Result<Option<Mark<'_>>, AllocError>
    ensures { IfOk result (λ mark. option_map mark_view mark ≡ source_shown general text.now) }
{
    let line = source_line(alloc, general, text)?;
    Ok(key_mark(b"asm", line))
}

/// Marks the key `code` of this general's program. Returns `None` if he has no such key.
fn bytecode_shown(alloc: Global, general: u8, text: &[u8]) -> Result<Option<Mark<'_>>, AllocError>
    ensures { IfOk result (λ mark. option_map mark_view mark ≡ bytecode_shown general text.now) }
{
    let line = program_line(alloc, general, b"code", text)?;
    Ok(key_mark(b"code", line))
}

/// Marks what the verifier rejects in a general's program: the statement of unit `unit` in assembly, or the key of
/// bytecode. Returns `None` if the file `text` does not have it.
fn refused_at<'a>(
    alloc: Global,
    text: &'a [u8],
    general: u8,
    unit: usize,
    source: Option<ProgramText<'_>>,
) -> Result<Option<Mark<'a>>, AllocError>
    ensures { IfOk result (λ mark. IsRefusedAt text.now general unit (option_map source_of source.entry)
        (option_map mark_view mark)) }
{
    match source {
        None => source_shown(alloc, general, text),
        Some(ProgramText::Code(_)) => bytecode_shown(alloc, general, text),
        Some(ProgramText::Asm(asm)) => {
            let line = program_line(alloc, general, b"asm", text)?;
            unit_shown(alloc, text, unit, asm, line)
        }
    }
}

/// Returns the report of a general's program that the verifier rejects. `tables` is the scenario's text, parsed, or
/// `None` if it is not TOML.
fn refused_by(
    alloc: Global,
    name: &str,
    text: &[u8],
    general: u8,
    reason: Reason,
    unit: usize,
    tables: Option<&Table>,
) -> Result<String, AllocError>
    ensures { IfOk result (λ told. IsRefusedBy name.now text.now general reason unit
        (option_map (λ t. table_view t.now) tables.entry) (string_bytes told)) }
{
    let sentence = verifier_sentence(alloc, reason, unit)?;
    let mark = refused_at(alloc, text, general, unit, source_in(tables, general))?;
    report(alloc, name, sentence.as_str(), mark, None)
}

/// Returns the report of a general's program in the scenario `text` that the verifier rejects at unit `unit`.
fn refused_told(
    alloc: Global,
    name: &str,
    text: &[u8],
    general: u8,
    reason: Reason,
    unit: usize,
) -> Result<String, AllocError>
    ensures { IfOk result (λ told. IsRefusedProgram name.now text.now general reason unit (string_bytes told)) }
{
    let tables = document_of(alloc, text)?;
    refused_by(alloc, name, text, general, reason, unit, tables.as_ref())
}

/// Returns the report of a general's bytecode that is not an even number of hex digits.
fn hex_told(alloc: Global, name: &str, text: &[u8], general: u8) -> Result<String, AllocError>
    ensures { IfOk result (λ told. string_bytes told ≡ hex_told name.now text.now general) }
{
    let line = program_line(alloc, general, b"code", text)?;
    let sentence = "bytecode must be an even number of hex digits, without spaces";
    report(alloc, name, sentence, value_mark(b"code", line), None)
}

/// Returns the report of a fault in the program of this general in the scenario `text`.
pub(crate) fn program_told(
    alloc: Global,
    name: &str,
    text: &[u8],
    general: u8,
    fault: ProgramFault,
) -> Result<String, AllocError>
    ensures { IfOk result (λ told. IsProgramTold name.now text.now general fault (string_bytes told)) }
{
    match fault {
        ProgramFault::Asm(fault, number) => {
            let line = program_line(alloc, general, b"asm", text)?;
            text_told(alloc, name, text, fault, number, line)
        }
        ProgramFault::Hex => hex_told(alloc, name, text, general),
        ProgramFault::Code(fault, unit) => {
            let line = program_line(alloc, general, b"code", text)?;
            code_line_told(alloc, name, fault, unit, line)
        }
        ProgramFault::Verifier(reason, unit) => {
            refused_told(alloc, name, text, general, reason, unit)
        }
    }
}
