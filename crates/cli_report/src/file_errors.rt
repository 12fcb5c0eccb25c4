//! Reports errors of a scenario that names files, at a line of the scenario or of one of these files.
ghost use Rattle.std.specs.Prelude.{◌≡◌, IfOk, None, codes, option_and_then, option_map, string_bytes};
ghost use Rattle.toml.specs.Parse.{parse_document};
ghost use Rattle.toml.specs.View.{table_view};
ghost use Rattle.scenario.specs.Seen.{source_of};
ghost use Rattle.scenario.specs.Sources.{source_by};
ghost use Rattle.cli_report.specs.Judged.{judged_of};
ghost use Rattle.cli_report.specs.Keys.{found_view};
ghost use Rattle.cli_report.specs.Made.{IsMadeJudged, IsOwnUnitTold, IsRefusedFile, IsRefusedTold, IsUnitTold, ReportsMade, ReportsProgram, TellsMade, asm_told, assembly_of, bytes_shown, code_shown, digits_of, file_source, file_told, hex_told, in_file, key_told, line_shown, other_key, own_index, own_line, own_mark, own_place, own_place_told, own_source, own_word, unit_digits, unit_told};
ghost use Rattle.cli_report.specs.Report.{mark_view, report_text};

use crate::assembly::{of_assembly, sentence, unit_mark, whole};
use crate::bytecode::unit_sentence;
use crate::keys::{Found, entry_line, find_line, quoted_value, shown_at};
use crate::lines::line_at;
use crate::program_faults::{code_line_told, text_told, unit_shown, verifier_sentence};
use crate::program_judgements::{explained_of, judged_of};
use crate::report::{Mark, behind, front, report, shown_line};
use crate::scenarios::{
    is_of_value, key_mark, place_mark, place_sentence, unknown_told, value_mark,
};
use crate::sources::{source_in, table_in};
use crate::strategies::strategy_help;
use crate::toml_errors::not_toml;
use crate::units::line_of_unit;
use scenario::{
    ProgramFault, ProgramText, ScenarioError, ScenarioFault, ScenarioKey, ScenarioPlace, origin,
    seat,
};
use std::alloc::{AllocError, Global};
use toml::Table;
use verify::Reason;

/// Returns the place in the scenario's own text from which a place in the resolved text comes. The resolved text has
/// the contents of files in place of their names, and a table for each traitor, so several of its tables can come from
/// one.
fn own_place(alloc: Global, own: &str, place: ScenarioPlace) -> Result<ScenarioPlace, AllocError>
    ensures { IfOk result (λ at. at ≡ own_place (parse_document own.now) place) }
{
    match place {
        ScenarioPlace::Table(index) => Ok(ScenarioPlace::Table(origin(alloc, own, index)?)),
        ScenarioPlace::Entry(index, name) => Ok(ScenarioPlace::Entry(
            origin(alloc, own, index)?,
            name,
        )),
        place => Ok(place),
    }
}

/// Returns the number of the table in the scenario's own text from which table `at` of the resolved text comes. The
/// resolved text has the contents of files in place of their names. `None` means the top of the text.
fn own_index(alloc: Global, own: &str, at: Option<usize>) -> Result<Option<usize>, AllocError>
    ensures { IfOk result (λ index. index ≡ own_index (parse_document own.now) at) }
{
    match at {
        Some(index) => Ok(Some(origin(alloc, own, index)?)),
        None => Ok(None),
    }
}

/// Returns the key that a table may have in place of `name`: `generals`, `asm_file` or `code_file`. Any other key is
/// returned unchanged.
fn other_key(name: ScenarioKey) -> &'static str
    ensures { result.now ≡ other_key name }
{
    match name {
        ScenarioKey::General => "generals",
        ScenarioKey::Asm => "asm_file",
        ScenarioKey::Code => "code_file",
        name => name.text(),
    }
}

/// Returns the key that table `index` of the scenario's own text has: `name` itself, or a key that may replace it, such
/// as `asm_file` for `asm`.
fn own_word(index: usize, name: ScenarioKey, own: &[u8]) -> &'static str
    ensures { result.now ≡ own_word index name own.now }
{
    match find_line(index as u128 + 1, name.text().as_bytes(), own) {
        Some(_) => name.text(),
        None => other_key(name),
    }
}

/// Marks a place in the scenario's own text. Returns `None` if its line is not found.
#[tactic(auto, unfolding(crate::specs::Made::own_mark))]
fn own_mark(fault: ScenarioFault, place: ScenarioPlace, own: &[u8]) -> Option<Mark<'_>>
    ensures { option_map mark_view result ≡ own_mark fault place own.now }
{
    match place {
        ScenarioPlace::Entry(index, name) => {
            let word = own_word(index, name, own).as_bytes();
            Some(shown_at(is_of_value(fault), word, entry_line(index, word, own)?))
        }
        place => place_mark(fault, place, own),
    }
}

/// Returns the report of a fault at a place in the scenario's own text. `name` is the file's name.
#[tactic(auto, unfolding(crate::specs::Made::own_place_told))]
fn own_place_told(
    alloc: Global,
    name: &str,
    own: &[u8],
    fault: ScenarioFault,
    place: ScenarioPlace,
) -> Result<String, AllocError>
    ensures { IfOk result (λ told. string_bytes told ≡ own_place_told name.now own.now fault place) }
{
    let sentence = place_sentence(alloc, fault, place)?;
    let mark = own_mark(fault, place, own);
    let help = strategy_help(alloc, fault, place, own)?;
    report(alloc, name, sentence.as_str(), mark, help)
}

/// Returns the line of the key `word` in table `table` of the scenario's own text, or `None` if the table has no such
/// key.
fn own_line<'a>(table: Option<usize>, word: &[u8], own: &'a [u8]) -> Option<Found<'a>>
    ensures { option_map found_view result ≡ own_line table word.now own.now }
{
    match table {
        Some(index) => find_line(index as u128 + 1, word, own),
        None => None,
    }
}

/// Returns the assembly of a program, or an empty text if the program is not written in assembly.
fn assembly_of<'a>(source: Option<ProgramText<'a>>) -> &'a str
    ensures { result.now ≡ assembly_of (option_map source_of source.entry) }
{
    match source {
        Some(ProgramText::Asm(text)) => text,
        _ => "",
    }
}

/// Returns the hex digits of a program, or an empty text if the program is not written in hex digits.
fn digits_of<'a>(source: Option<ProgramText<'a>>) -> &'a str
    ensures { result.now ≡ digits_of (option_map source_of source.entry) }
{
    match source {
        Some(ProgramText::Code(text)) => text,
        _ => "",
    }
}

/// Returns the report of a fault in line `number` of an assembly file. `key` is the line of the scenario that names
/// this file. If it is `None`, the report has no excerpt.
fn file_told(
    alloc: Global,
    name: &str,
    fault: asm::AsmFault,
    number: u64,
    source: Option<ProgramText<'_>>,
    key: Option<Found<'_>>,
) -> Result<String, AllocError>
    ensures { IfOk result (λ told. string_bytes told
        ≡ file_told name.now fault number (option_map source_of source.entry) (option_map found_view key.entry)) }
{
    let Some(key) = key else {
        return report(alloc, name, sentence(fault, &[]), None, None);
    };
    let file = shown_line(alloc, quoted_value(key))?;
    let text = assembly_of(source).as_bytes();
    of_assembly(alloc, file.as_str(), text, fault, number)
}

/// Returns the report of a fault in line `number` of a traitor's assembly, which is in the scenario or in a file that
/// it names. `table` is the number of his table in the scenario's own text.
fn asm_told(
    alloc: Global,
    name: &str,
    own: &[u8],
    fault: asm::AsmFault,
    number: u64,
    source: Option<ProgramText<'_>>,
    table: Option<usize>,
) -> Result<String, AllocError>
    ensures { IfOk result (λ told. string_bytes told
        ≡ asm_told name.now own.now fault number (option_map source_of source.entry) table
        (own_line table (codes "asm") own.now)) }
{
    match own_line(table, b"asm", own) {
        Some(line) => text_told(alloc, name, own, fault, number, Some(line)),
        None => {
            let key = own_line(table, b"asm_file", own);
            file_told(alloc, name, fault, number, source, key)
        }
    }
}

/// Returns the hex digits of unit `unit`, counted from 0: at most 16. A unit past 4096 has none.
fn unit_digits(digits: &[u8], unit: usize) -> &[u8]
    ensures { result.now ≡ unit_digits digits.now unit }
{
    if unit > 4096 {
        return &[];
    }
    front(behind(digits, 16 * unit), 16)
}

/// Marks the name of the bytecode file in table `table` of the scenario or, if it has none, the name of the object
/// file. Returns `None` if it has neither.
fn bytes_shown(table: Option<usize>, own: &[u8]) -> Option<Mark<'_>>
    ensures { option_map mark_view result ≡ bytes_shown table own.now }
{
    match own_line(table, b"code_file", own) {
        Some(line) => Some(shown_at(true, b"code_file", line)),
        None => value_mark(b"elf", own_line(table, b"elf", own)),
    }
}

/// Returns the report of a fault in unit `unit` of a traitor's bytecode, which is in the scenario or in a file that it
/// names. `table` is the number of his table in the scenario's own text.
fn unit_told(
    alloc: Global,
    name: &str,
    own: &[u8],
    fault: codec::CodecFault,
    unit: usize,
    source: Option<ProgramText<'_>>,
    table: Option<usize>,
) -> Result<String, AllocError>
    ensures { IfOk result (λ told. string_bytes told
        ≡ unit_told name.now own.now fault unit (option_map source_of source.entry) table
        (own_line table (codes "code") own.now)) }
{
    if let Some(line) = own_line(table, b"code", own) {
        return code_line_told(alloc, name, fault, unit, Some(line));
    }
    let digits = unit_digits(digits_of(source).as_bytes(), unit);
    let mark = bytes_shown(table, own);
    report(alloc, name, unit_sentence(fault, digits), mark, None)
}

/// Returns the report of a program in an assembly file that the verifier rejects, at the line of unit `unit`.
fn unit_of_file_told(
    alloc: Global,
    file: &str,
    reason: Reason,
    unit: usize,
    text: &str,
) -> Result<String, AllocError>
    ensures { IfOk result (λ told. IsUnitTold file.now reason unit text.now (string_bytes told)) }
{
    let sentence = verifier_sentence(alloc, reason, unit)?;
    let number = line_of_unit(alloc, text, unit)?;
    line_told(alloc, file, sentence.as_str(), text, number)
}

/// Returns the report with this sentence, at line `number` of a file with this text.
fn line_told(
    alloc: Global,
    file: &str,
    sentence: &str,
    text: &str,
    number: u64,
) -> Result<String, AllocError>
    ensures { IfOk result (λ told. string_bytes told
        ≡ report_text file.now sentence.now (line_shown text.now number) None) }
{
    let mark = line_shown(text.as_bytes(), number);
    report(alloc, file, sentence, mark, None)
}

/// Marks the statement in line `number` of an assembly text. Returns `None` if there is no such line.
fn line_shown(text: &[u8], number: u64) -> Option<Mark<'_>>
    ensures { option_map mark_view result ≡ line_shown text.now number }
{
    let line = line_at(text, number)?;
    Some(unit_mark(whole(number, line)))
}

/// Returns the report of a program that the verifier rejects at unit `unit`. `mark` is the part to mark in the
/// scenario's own text.
fn key_told(
    alloc: Global,
    name: &str,
    reason: Reason,
    unit: usize,
    mark: Option<Mark<'_>>,
) -> Result<String, AllocError>
    ensures { IfOk result (λ told. string_bytes told
        ≡ key_told name.now reason unit (option_map mark_view mark.entry)) }
{
    let sentence = verifier_sentence(alloc, reason, unit)?;
    report(alloc, name, sentence.as_str(), mark, None)
}

/// Marks the key `code` in table `table` of the scenario or, if it has none, the name of the bytecode file or object
/// file. Returns `None` if it has none of them.
fn code_shown(table: Option<usize>, own: &[u8]) -> Option<Mark<'_>>
    ensures { option_map mark_view result ≡ code_shown table own.now (own_line table (codes "code") own.now) }
{
    match own_line(table, b"code", own) {
        Some(line) => Some(shown_at(false, b"code", line)),
        None => bytes_shown(table, own),
    }
}

/// Returns the report of a program that the verifier rejects and whose assembly is in the scenario. The report is at
/// the line of unit `unit`, and `line` is the line with the program's key.
fn own_unit_told(
    alloc: Global,
    name: &str,
    own: &[u8],
    reason: Reason,
    unit: usize,
    text: &str,
    line: Found<'_>,
) -> Result<String, AllocError>
    ensures { IfOk result (λ told. IsOwnUnitTold name.now own.now reason unit text.now (found_view line.entry)
        (string_bytes told)) }
{
    let mark = unit_shown(alloc, own, unit, text, Some(line))?;
    key_told(alloc, name, reason, unit, mark)
}

/// Returns the report of a traitor's program that the verifier rejects, at its place in the scenario or in its assembly
/// file. `table` is the number of his table in the scenario's own text.
fn refused_told(
    alloc: Global,
    name: &str,
    own: &[u8],
    reason: Reason,
    unit: usize,
    source: Option<ProgramText<'_>>,
    table: Option<usize>,
) -> Result<String, AllocError>
    ensures { IfOk result (λ told. IsRefusedTold name.now own.now reason unit (option_map source_of source.entry) table
        (own_line table (codes "asm") own.now) (string_bytes told)) }
{
    match own_line(table, b"asm", own) {
        Some(line) => { own_unit_told(alloc, name, own, reason, unit, assembly_of(source), line) }
        None => refused_file_told(alloc, name, own, reason, unit, source, table),
    }
}

/// Returns the report of a traitor's program that the verifier rejects and whose assembly is not in the scenario. It is
/// at a line of his assembly file or, without such a file, at the key of his bytecode.
fn refused_file_told(
    alloc: Global,
    name: &str,
    own: &[u8],
    reason: Reason,
    unit: usize,
    source: Option<ProgramText<'_>>,
    table: Option<usize>,
) -> Result<String, AllocError>
    ensures { IfOk result (λ told. IsRefusedFile name.now own.now reason unit (option_map source_of source.entry) table
        (own_line table (codes "asm_file") own.now) (string_bytes told)) }
{
    match own_line(table, b"asm_file", own) {
        Some(key) => {
            let file = shown_line(alloc, quoted_value(key))?;
            unit_of_file_told(alloc, file.as_str(), reason, unit, assembly_of(source))
        }
        None => key_told(alloc, name, reason, unit, code_shown(table, own)),
    }
}

/// Returns the report of a scenario's bytecode that is not an even number of hex digits. `table` is the number of the
/// table with this bytecode.
fn hex_told(
    alloc: Global,
    name: &str,
    own: &[u8],
    table: Option<usize>,
) -> Result<String, AllocError>
    ensures { IfOk result (λ told. string_bytes told ≡ hex_told name.now own.now table) }
{
    let sentence = "bytecode must be an even number of hex digits, without spaces";
    let mark = value_mark(b"code", own_line(table, b"code", own));
    report(alloc, name, sentence, mark, None)
}

/// Returns the report of a fault in a traitor's program. `source` is the program, and `table` is the number of his
/// table in the scenario's own text.
fn program_told(
    alloc: Global,
    name: &str,
    own: &[u8],
    source: Option<ProgramText<'_>>,
    table: Option<usize>,
    fault: ProgramFault,
) -> Result<String, AllocError>
    ensures { IfOk result (λ told. ReportsProgram name.now own.now (option_map source_of source.entry) table fault
        (string_bytes told)) }
{
    match fault {
        ProgramFault::Asm(fault, number) => {
            asm_told(alloc, name, own, fault, number, source, table)
        }
        ProgramFault::Hex => hex_told(alloc, name, own, table),
        ProgramFault::Code(fault, unit) => {
            unit_told(alloc, name, own, fault, unit, source, table)
        }
        ProgramFault::Verifier(reason, unit) => {
            refused_told(alloc, name, own, reason, unit, source, table)
        }
    }
}

/// Returns the report of an error that was found in the resolved text of a scenario, which has the contents of files in
/// place of their names. `made` is the resolved text, parsed, and `own` is the scenario's own text.
fn made_report(
    alloc: Global,
    name: &str,
    own: &str,
    made: Option<&Table>,
    error: &ScenarioError,
) -> Result<String, AllocError>
    ensures { IfOk result (λ told. ReportsMade name.now own.now
        (option_map (λ t. table_view t.now) made.entry) error.now (string_bytes told)) }
{
    let bytes = own.as_bytes();
    match error {
        ScenarioError::Toml => not_toml(alloc, name, bytes),
        ScenarioError::Unknown(at, key) => {
            let at = own_index(alloc, own, *at)?;
            unknown_told(alloc, name, bytes, at, key.as_str())
        }
        ScenarioError::At(fault, place) => {
            let place = own_place(alloc, own, *place)?;
            own_place_told(alloc, name, bytes, *fault, place)
        }
        ScenarioError::Program(general, fault) => {
            let table = seat(alloc, own, *general)?;
            program_told(alloc, name, bytes, source_in(made, *general), table, *fault)
        }
        ScenarioError::Memory => report(alloc, name, "there is not enough memory", None, None),
    }
}

/// Returns a made-up line 0, after which the text of an assembly file begins. The lines of the file are counted from
/// it.
fn in_file() -> Found<'static>
    ensures { found_view result ≡ in_file }
{
    Found {
        number: 0,
        line: b"asm='''",
        tables: 0,
    }
}

/// Returns the line from which the lines of a program are counted, if its assembly is not in the scenario. It is a
/// made-up line 0 for an assembly file, and otherwise the line with the key of the bytecode or of the object file.
/// Returns `None` if table `table` has none of these keys.
fn file_source(table: Option<usize>, own: &[u8]) -> Option<Found<'_>>
    ensures { option_map found_view result ≡ file_source table own.now }
{
    if let Some(_) = own_line(table, b"asm_file", own) {
        return Some(in_file());
    }
    if let Some(line) = own_line(table, b"code", own) {
        return Some(line);
    }
    if let Some(line) = own_line(table, b"code_file", own) {
        return Some(line);
    }
    own_line(table, b"elf", own)
}

/// Returns the line from which the lines of a program in table `table` are counted: the line with the program's key, or
/// a made-up line 0 for an assembly file. Returns `None` if the table has no such key.
fn own_source(table: Option<usize>, own: &[u8]) -> Option<Found<'_>>
    ensures { option_map found_view result ≡ own_source table own.now }
{
    match own_line(table, b"asm", own) {
        Some(line) => Some(line),
        None => file_source(table, own),
    }
}

/// Returns what follows the report of an error: the explanation of the program if the verifier rejects it. Returns an
/// empty text for any other error, and if `made`, the resolved scenario, does not contain the program.
fn made_judged(
    alloc: Global,
    own: &str,
    made: Option<&Table>,
    error: &ScenarioError,
) -> Result<String, AllocError>
    ensures { IfOk result (λ behind. IsMadeJudged own.now (option_map (λ t. table_view t.now) made.entry)
        (judged_of error.now) (string_bytes behind)) }
{
    let Some(general) = judged_of(error) else {
        return Ok(String::new(alloc));
    };
    let Some(written) = source_in(made, general) else {
        return Ok(String::new(alloc));
    };
    let table = seat(alloc, own, general)?;
    explained_of(alloc, general, written, own_source(table, own.as_bytes()))
}

/// Returns the report of an error of a scenario that names files, at a line of the scenario or of one of these files.
/// If the verifier rejects a program, the explanation of the program follows.
///
/// `own` is the scenario's own text, and `made` is its resolved text, which has the contents of the files in place of
/// their names. `name` is the name of the scenario's file.
pub fn of_made(
    alloc: Global,
    name: &str,
    own: &str,
    made: &str,
    error: &ScenarioError,
) -> Result<String, AllocError>
    ensures { IfOk result (λ told. TellsMade name.now own.now made.now error.now (string_bytes told)) }
{
    let table = table_in(alloc, made)?;
    let mut told = made_report(alloc, name, own, table.as_ref(), error)?;
    let behind = made_judged(alloc, own, table.as_ref(), error)?;
    told.push_str(behind.as_str())?;
    Ok(told)
}
