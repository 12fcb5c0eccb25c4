//! Reports faults of an assembly text: the sentence, the part of the line to mark, and a help message.
ghost use Rattle.std.specs.Prelude.{◌≡◌, ◌≤◌, IfOk, codes, drop, length, option_map, string_bytes};
ghost use Rattle.asm.specs.Helper.{helpers};
ghost use Rattle.text.specs.declared.stop.Stop.TheVariants.{Blank};
ghost use Rattle.text.specs.Stop.{comma, semicolon};
ghost use Rattle.text.specs.Parts.{before, pieces, until};
ghost use Rattle.cli_report.specs.Assembly.{are_several, assembly_advice, assembly_sentence, assembly_told, begins_marked, call_sentence, code_in, code_told, has, has_capital, is_call, lacks_comma, last_of, last_operand, line_told, mnemonic_in, operand_advice, operand_sentence, operands_in, operands_part, or_small, outline_advice, mnemonic_part, outline_part, outline_sentence, part_of, part_view, past_ascii, place_in, range_sentence, spot_view, statement_in, statement_place, takes_several, unit_mark, whole};
ghost use Rattle.cli_report.specs.Mnemonics.{mnemonic_names};
ghost use Rattle.cli_report.specs.Nearest.{near};
ghost use Rattle.cli_report.specs.Lines.{trimmed};
ghost use Rattle.cli_report.specs.Report.{help_words, mark_view, near_words};

use crate::lines::{line_at, marked, trimmed};
use crate::mnemonics::{self, Takes, taken};
use crate::nearest_name::near;
use crate::report::{Help, Mark, report};
use asm::AsmFault;
use explain::HELPERS;
use std::alloc::{AllocError, Global};
use text::{Stop, cut, find, piece};

/// Returns the part of a line before its comment, which begins with `;`, without the white space at its end.
fn before_comment(line: &[u8]) -> &[u8]
    ensures { result.now ≡ trimmed (before semicolon line.now) }
{
    trimmed(cut(Stop::Byte(b';'), line).0)
}

/// Returns the code of a line: the line without its comment, the blanks at its start and the white space at its end.
#[tactic(auto, unfolding(crate::specs::Assembly::code_in))]
fn code_in(line: &[u8]) -> &[u8]
    ensures { result.now ≡ code_in line.now }
{
    cut(Stop::Solid, before_comment(line)).1
}

/// Returns the bytes after the first one.
fn behind_first(bytes: &[u8]) -> &[u8]
    ensures { result.now ≡ drop 1 bytes.now }
{
    match bytes {
        [] => bytes,
        [_, rest @ ..] => rest,
    }
}

/// Returns the statement in the code of a line: the mnemonic and its operands. In `loop: mov r0, 1` it is `mov r0, 1`.
#[tactic(auto, unfolding(crate::specs::Assembly::statement_in))]
fn statement_in(code: &[u8]) -> &[u8]
    ensures { result.now ≡ statement_in code.now }
{
    let (word, _) = cut(Stop::Blank, code);
    if find(Stop::Byte(b':'), word) < word.len() {
        let (_, behind) = cut(Stop::Byte(b':'), code);
        cut(Stop::Solid, behind_first(behind)).1
    } else {
        code
    }
}

/// Returns the mnemonic in the code of a line. In `loop: mov r0, 1` it is `mov`.
fn mnemonic_in(code: &[u8]) -> &[u8]
    ensures { result.now ≡ mnemonic_in code.now }
{
    cut(Stop::Blank, statement_in(code)).0
}

/// Returns the operands in the code of a line, as one text. In `loop: mov r0, 1` it is `r0, 1`.
fn operands_in(code: &[u8]) -> &[u8]
    ensures { result.now ≡ operands_in code.now }
{
    let (_, behind) = cut(Stop::Blank, statement_in(code));
    cut(Stop::Solid, behind).1
}

/// Returns the text after the last comma of the operands, or all of the operands if they have no comma.
fn last_piece(operands: &[u8]) -> &[u8]
    ensures { result.now ≡ last_of (pieces comma operands.now) }
{
    let (mut last, mut rest) = piece(Stop::Byte(b','), operands);
    while let Some(more) = rest {
        (last, rest) = piece(Stop::Byte(b','), more);
    }
    last
}

/// Returns the last operand: the text after the last comma, without the blanks at its start.
#[tactic(auto, unfolding(crate::specs::Assembly::last_operand))]
fn last_operand(operands: &[u8]) -> &[u8]
    ensures { result.now ≡ last_operand operands.now }
{
    cut(Stop::Solid, last_piece(operands)).1
}

/// Returns the code from its first non-ASCII byte on, or no bytes if all of it is ASCII.
fn past_ascii(code: &[u8]) -> &[u8]
    ensures { result.now ≡ past_ascii code.now }
{
    for (i, byte) in code.iter().enumerate() {
        if *byte >= 128 {
            return &code[i..];
        }
    }
    &[]
}

/// Returns the part of the code to mark if the line does not have the form of assembly. It is the first non-ASCII byte,
/// or all of the code if it is ASCII. The result is the code from this part on, and the size of the part in bytes.
fn outline_part(code: &[u8]) -> (&[u8], usize)
    ensures { part_view result ≡ outline_part code.now (past_ascii code.now) }
{
    match past_ascii(code) {
        [] => (code, code.len()),
        end => (end, 1),
    }
}

/// Returns the part of the code to mark if the operands are wrong: the operands, or the mnemonic if there are none. The
/// result is the code from this part on, and the size of the part in bytes.
fn operands_part(code: &[u8]) -> (&[u8], usize)
    ensures { part_view result ≡ operands_part (statement_in code.now) (operands_in code.now) }
{
    match operands_in(code) {
        [] => mnemonic_part(code),
        operands => (operands, operands.len()),
    }
}

/// Returns the mnemonic as the part of the code to mark. The result is the code from the mnemonic on, and the size of
/// the mnemonic in bytes.
fn mnemonic_part(code: &[u8]) -> (&[u8], usize)
    ensures { part_view result ≡ mnemonic_part (statement_in code.now) }
{
    let statement = statement_in(code);
    (statement, find(Stop::Blank, statement))
}

/// Returns the part of the code to mark for this fault. The result is the code from this part on, and the size of the
/// part in bytes.
fn part_of(fault: AsmFault, code: &[u8]) -> (&[u8], usize)
    ensures { part_view result ≡ part_of fault code.now }
{
    match fault {
        AsmFault::Line => outline_part(code),
        AsmFault::Mnemonic => mnemonic_part(code),
        AsmFault::Operand | AsmFault::Range => operands_part(code),
        AsmFault::Label => {
            let operand = last_operand(operands_in(code));
            (operand, operand.len())
        }
        AsmFault::Twice => (code, find(Stop::Byte(b':'), code)),
        AsmFault::Count => (code, code.len()),
    }
}

/// Returns the part of a line to mark for this fault: how many bytes of the line are before it, and its size in bytes.
#[tactic(auto, unfolding(crate::specs::Assembly::place_in))]
fn place_in(fault: AsmFault, line: &[u8]) -> (usize, usize)
    ensures place { result ≡ place_in fault line.now }
    ensures inside { result.0 ≤ length line.now }
{
    let (end, size) = part_of(fault, code_in(line));
    (before_comment(line).len().saturating_sub(end.len()), size)
}

/// Returns the place of the statement in a line: how many bytes of the line are before it, and its size in bytes.
#[tactic(auto, unfolding(crate::specs::Assembly::statement_place))]
fn statement_place(line: &[u8]) -> (usize, usize)
    ensures place { result ≡ statement_place line.now }
    ensures inside { result.0 ≤ length line.now }
{
    let statement = statement_in(code_in(line));
    (
        before_comment(line).len().saturating_sub(statement.len()),
        statement.len(),
    )
}

/// Returns the error sentence for a line that does not have the form `[name:] [mnemonic operands] [; comment]`.
fn outline_sentence(code: &[u8]) -> &'static str
    ensures { result.now ≡ outline_sentence (past_ascii code.now) }
{
    match past_ascii(code) {
        [] =>
            "a line is `[name:] [mnemonic operands] [; comment]`, with commas between the operands",
        _ => "a character outside a comment is not ASCII",
    }
}

/// Returns the error sentence for a wrong operand of `call`. If the operand begins with a letter or `_`, the sentence
/// is that no helper has this name.
fn call_sentence(operands: &[u8]) -> &'static str
    ensures { result.now ≡ call_sentence operands.now }
{
    match operands {
        [b'a'..=b'z' | b'A'..=b'Z' | b'_', ..] => "there is no helper of this name",
        _ => Takes::Call.text(),
    }
}

/// Returns the error sentence for wrong operands. It says which operands the mnemonic takes, if these are known.
fn operand_sentence(takes: Option<Takes>, operands: &[u8]) -> &'static str
    ensures { result.now ≡ operand_sentence takes operands.now }
{
    match takes {
        None => "the operands do not fit the mnemonic",
        Some(Takes::Call) => call_sentence(operands),
        Some(takes) => takes.text(),
    }
}

/// Returns the error sentence for a number out of range. It says which range numbers have in the operands that the
/// mnemonic takes.
fn range_sentence(takes: Option<Takes>) -> &'static str
    ensures { result.now ≡ range_sentence takes }
{
    match takes {
        Some(Takes::Wide) => "a number here must be -9223372036854775808 to 18446744073709551615",
        Some(Takes::Load | Takes::StoreRegister) => "an offset must be -32768 to 32767",
        Some(Takes::Target) =>
            "a jump must lead at most 32767 units forward (2147483647 with `ja.w`)",
        Some(Takes::Branch) =>
            "a number here must be -2147483648 to 2147483647, and a jump must lead at most 32767 units forward",
        Some(Takes::StoreNumber) =>
            "a number here must be -2147483648 to 2147483647, and an offset -32768 to 32767",
        _ => "a number here must be -2147483648 to 2147483647",
    }
}

/// Returns the error sentence for a fault in the code of a line.
pub(crate) fn sentence(fault: AsmFault, code: &[u8]) -> &'static str
    ensures { result.now ≡ assembly_sentence fault code.now }
{
    match fault {
        AsmFault::Line => outline_sentence(code),
        AsmFault::Mnemonic => "there is no such mnemonic",
        AsmFault::Operand => operand_sentence(taken(mnemonic_in(code)), operands_in(code)),
        AsmFault::Label => "no line defines this name",
        AsmFault::Twice => "an earlier line defines this name",
        AsmFault::Range => range_sentence(taken(mnemonic_in(code))),
        AsmFault::Count => "a program must have 1 to 4096 units",
    }
}

/// Checks whether `bytes` contains `byte`.
pub(crate) fn has(byte: u8, bytes: &[u8]) -> bool
    ensures { result ≡ has byte bytes.now }
{
    bytes.iter().any(|b| *b == byte)
}

/// Checks whether the bytes contain an ASCII capital letter.
fn has_capital(bytes: &[u8]) -> bool
    ensures { result ≡ has_capital bytes.now }
{
    bytes.iter().any(|b| b'A' <= *b && *b <= b'Z')
}

/// Checks whether line `number` is the first one of a file and begins with a byte order mark (EF BB BF).
pub(crate) fn begins_marked(number: u64, line: &[u8]) -> bool
    ensures { result ≡ begins_marked number line.now }
{
    number == 1 && line.starts_with(b"\xEF\xBB\xBF")
}

/// Checks whether a mnemonic with these operands takes more than one.
fn takes_several(takes: Option<Takes>) -> bool
    ensures { result ≡ takes_several takes }
{
    match takes {
        Some(
            Takes::Arithmetic
            | Takes::Registers
            | Takes::Branch
            | Takes::Load
            | Takes::StoreRegister
            | Takes::StoreNumber
            | Takes::Wide,
        ) => true,
        _ => false,
    }
}

/// Checks whether a text between commas looks like several operands, such as `r0 1`. It does if it contains a blank,
/// unless the first blank is inside brackets, as in `[r1 +8]`.
fn are_several(bytes: &[u8]) -> bool
    ensures { result ≡ are_several bytes.now }
{
    let word = cut(Stop::Blank, bytes).0;
    (has(b' ', bytes) || has(b'\t', bytes)) && (!has(b'[', word) || has(b']', word))
}

/// Checks whether a comma is likely to be missing. It is if the mnemonic takes several operands, and the text before
/// the first comma or the text after the last one looks like several operands.
fn lacks_comma(takes: Option<Takes>, operands: &[u8]) -> bool
    ensures { result ≡ lacks_comma takes operands.now }
{
    let first = trimmed(cut(Stop::Byte(b','), operands).0);
    takes_several(takes) && (are_several(first) || are_several(last_operand(operands)))
}

/// Returns a help message for a line that does not have the form of assembly, or `None` if no cause is likely.
fn outline_help(number: u64, line: &[u8], code: &[u8]) -> Option<Help<'static>>
    ensures { option_map help_words result ≡ outline_advice number line.now code.now }
{
    let sentence = if begins_marked(number, line) {
        "the file begins with a byte order mark: save it without one"
    } else if has(b'\r', line) {
        "a carriage return is allowed only right before a line feed"
    } else if has(b'#', code) || has(b'/', code) {
        "a comment begins with `;`"
    } else if has(b'=', code) {
        "`r0 = 1` is written `mov r0, 1`"
    } else if lacks_comma(taken(mnemonic_in(code)), operands_in(code)) {
        "a comma is missing between the operands: `mov r0, 1`"
    } else if has(b'[', code) {
        "an operand contains no spaces: `[r1+8]`"
    } else {
        return None;
    };
    Some(Help::Said(sentence))
}

/// Returns the help message that `name`, of the kind `kind`, is a similar name. If there is no such name, but the code
/// has a capital letter, returns the message that names are written in lower case. Otherwise returns `None`.
fn or_small(code: &[u8], kind: &'static str, name: Option<&'static str>) -> Option<Help<'static>>
    ensures { option_map help_words result
        ≡ or_small code.now (option_map (near_words kind.now) (option_map (λ n. n.now) name.entry)) }
{
    match name {
        Some(name) => Some(Help::Near(kind, name)),
        None if has_capital(code) => Some(Help::Said(
            "mnemonics, registers and helpers are written in lower case",
        )),
        None => None,
    }
}

/// Returns the name of a helper that is similar to `word`, or `None` if there is no such helper.
fn near_helper(alloc: Global, word: &[u8]) -> Result<Option<&'static str>, AllocError>
    ensures { IfOk result (λ name. option_map (λ n. n.now) name ≡ near word.now helpers) }
{
    near(alloc, word, &HELPERS)
}

/// Checks whether the mnemonic takes a helper as its operand, as `call` does.
fn is_call(takes: Option<Takes>) -> bool
    ensures { result ≡ is_call takes }
{
    match takes {
        Some(Takes::Call) => true,
        _ => false,
    }
}

/// Returns a help message for a word that is not the name of a helper, or `None` if no cause is likely.
fn helper_help(alloc: Global, word: &[u8]) -> Result<Option<Help<'static>>, AllocError>
    ensures { IfOk result (λ help. option_map help_words help
        ≡ or_small word.now (option_map (near_words (codes "helper")) (near word.now helpers))) }
{
    let name = near_helper(alloc, word)?;
    Ok(or_small(word, "helper", name))
}

/// Returns a help message for operands that do not fit the mnemonic, or `None` if no cause is likely.
fn operand_help(
    alloc: Global,
    takes: Option<Takes>,
    operands: &[u8],
) -> Result<Option<Help<'static>>, AllocError>
    ensures { IfOk result (λ help. option_map help_words help ≡ operand_advice takes operands.now) }
{
    if is_call(takes) {
        return helper_help(alloc, operands);
    }
    Ok(or_small(operands, "helper", None))
}

/// Returns a help message for a word that is not a mnemonic, or `None` if no cause is likely.
fn mnemonic_help(alloc: Global, word: &[u8]) -> Result<Option<Help<'static>>, AllocError>
    ensures { IfOk result (λ help. option_map help_words help
        ≡ or_small word.now (option_map (near_words (codes "mnemonic")) (near word.now mnemonic_names))) }
{
    let names = mnemonics::names(alloc)?;
    let name = near(alloc, word, names.as_slice())?;
    Ok(or_small(word, "mnemonic", name))
}

/// Returns a help message for a fault in line `number` of a text, or `None` if no cause is likely.
fn help(
    alloc: Global,
    fault: AsmFault,
    number: u64,
    line: &[u8],
    code: &[u8],
) -> Result<Option<Help<'static>>, AllocError>
    ensures { IfOk result (λ help. option_map help_words help ≡ assembly_advice fault number line.now code.now) }
{
    match fault {
        AsmFault::Line => Ok(outline_help(number, line, code)),
        AsmFault::Mnemonic => mnemonic_help(alloc, mnemonic_in(code)),
        AsmFault::Operand => operand_help(alloc, taken(mnemonic_in(code)), operands_in(code)),
        _ => Ok(None),
    }
}

/// A line of assembly, `code`, and its place in a file. `number` and `shown` are the number and the bytes of the file's
/// line. `front` contains the bytes of that line before the assembly, such as `asm = "` in a scenario.
#[derive(Clone, Copy)]
pub(crate) struct Spot<'a> {
    pub number: u64,
    pub shown: &'a [u8],
    pub front: &'a [u8],
    pub code: &'a [u8],
}

/// Returns the line of assembly that is all of line `number` in a file, with its place.
pub(crate) fn whole(number: u64, line: &[u8]) -> Spot<'_>
    ensures { spot_view result ≡ whole number line.now }
{
    Spot {
        number,
        shown: line,
        front: &[],
        code: line,
    }
}

/// Marks the statement of a line of assembly, in the line of the file that contains it.
pub(crate) fn unit_mark(spot: Spot<'_>) -> Mark<'_>
    ensures { mark_view result ≡ unit_mark (spot_view spot.entry) }
{
    let (from, size) = statement_place(spot.code);
    marked(
        spot.number,
        trimmed(spot.shown),
        spot.front.len() + from,
        size,
    )
}

/// Returns the report of a fault in a line of assembly at a place in a file. `name` is the file's name.
pub(crate) fn code_told(
    alloc: Global,
    name: &str,
    fault: AsmFault,
    spot: Spot<'_>,
) -> Result<String, AllocError>
    ensures { IfOk result (λ told. string_bytes told ≡ code_told name.now fault (spot_view spot.entry)) }
{
    let code = code_in(spot.code);
    let (from, size) = place_in(fault, spot.code);
    let help = help(alloc, fault, spot.number, spot.code, code)?;
    let mark = marked(
        spot.number,
        trimmed(spot.shown),
        spot.front.len() + from,
        size,
    );
    report(alloc, name, sentence(fault, code), Some(mark), help)
}

/// Returns the report of a fault in line `number` of an assembly file. If `line` is `None`, the report has no excerpt.
fn line_told(
    alloc: Global,
    name: &str,
    fault: AsmFault,
    number: u64,
    line: Option<&[u8]>,
) -> Result<String, AllocError>
    ensures { IfOk result (λ told. string_bytes told
        ≡ line_told name.now fault number (option_map (λ l. l.now) line.entry)) }
{
    let Some(line) = line else {
        return report(alloc, name, sentence(fault, &[]), None, None);
    };
    code_told(alloc, name, fault, whole(number, line))
}

/// Returns the report of a fault at line `number` of an assembly text, counted from 1. `name` is the file's name.
#[tactic(auto, unfolding(crate::specs::Assembly::assembly_told))]
pub fn of_assembly(
    alloc: Global,
    name: &str,
    text: &[u8],
    fault: AsmFault,
    number: u64,
) -> Result<String, AllocError>
    ensures { IfOk result (λ told. string_bytes told ≡ assembly_told name.now text.now fault number) }
{
    line_told(alloc, name, fault, number, line_at(text, number))
}
