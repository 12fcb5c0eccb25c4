//! Finds the words with which each unit of a program is written.
ghost use Rattle.std.specs.Prelude.{◌≡◌, ◌++◌, map, string_bytes, IfOk, MatchOption, Ok, OnOk, Some, true, false};
ghost use Rattle.std.specs.List.{list_all};
ghost use Rattle.asm.specs.Places.{for_units, is_visible, line_statements, statement_text, statements_of, word_text};
ghost use Rattle.asm.specs.Printing.{more_text, operands_text};
ghost use Rattle.asm.specs.Statement.{statement_of};
ghost use Rattle.asm.specs.Views.{source_view};

use crate::draft::{Statement, units};
use crate::line::next_line;
use crate::outline::read_outline;
use crate::statement::read_statement;
use crate::text_parts::put;
use std::alloc::{AllocError, Global};

/// Returns whether a byte is a visible ASCII character or a space.
fn is_visible(byte: u8) -> bool
    ensures { result ≡ is_visible byte }
{
    32 <= byte && byte < 127
}

/// Returns whether all bytes of a word are visible ASCII characters or spaces.
fn are_visible(word: &[u8]) -> bool
    ensures { result ≡ list_all is_visible word.now }
{
    word.iter().all(|byte| is_visible(*byte))
}

/// Returns a word as text, or `None` if it has a character that is neither a visible ASCII character nor a space.
fn visible(word: &[u8]) -> Option<&str>
    ensures { MatchOption result (list_all is_visible word.now ≡ false) (λ text. (list_all is_visible word.now ≡ true)
        × (text.now ≡ word.now)) }
{
    if !are_visible(word) {
        return None;
    }
    match str::from_utf8(word) {
        Ok(text) => Some(text),
        Err(_) => unreachable!(),
    }
}

/// Appends a word as it is written. Appends nothing if it has a character that is not visible.
fn put_word(out: &mut String, word: &[u8]) -> Result<(), AllocError>
    ensures { OnOk result (string_bytes out.new ≡ string_bytes out.old ++ word_text word.now) }
{
    match visible(word) {
        Some(text) => put(out, text),
        None => Ok(()),
    }
}

/// Appends the operands after the first, each with a comma and a space before it.
fn put_more(out: &mut String, operands: &[&[u8]]) -> Result<(), AllocError>
    ensures { OnOk result (string_bytes out.new ≡ string_bytes out.old
        ++ more_text (map word_text (map (λ w. w.now) operands.now))) }
{
    let [operand, rest @ ..] = operands else {
        return Ok(());
    };
    put(out, ", ")?;
    put_word(out, operand)?;
    put_more(out, rest)
}

/// Appends the operands of an instruction, such as ` r1, 8`, or nothing if there are none.
fn put_operands(out: &mut String, operands: &[&[u8]]) -> Result<(), AllocError>
    ensures { OnOk result (string_bytes out.new ≡ string_bytes out.old
        ++ operands_text (map word_text (map (λ w. w.now) operands.now))) }
{
    let [operand, rest @ ..] = operands else {
        return Ok(());
    };
    put(out, " ")?;
    put_word(out, operand)?;
    put_more(out, rest)
}

/// Appends an instruction in the words of its line, such as `add r1, 8`.
fn put_words(out: &mut String, words: &[&[u8]]) -> Result<(), AllocError>
    ensures { OnOk result (string_bytes out.new ≡ string_bytes out.old ++ statement_text (map (λ w. w.now) words.now)) }
{
    let [word, operands @ ..] = words else {
        return Ok(());
    };
    put_word(out, word)?;
    put_operands(out, operands)
}

/// Returns an instruction in the words of its line, such as `add r1, 8`.
fn statement_text(alloc: Global, words: &[&[u8]]) -> Result<String, AllocError>
    ensures { IfOk result (λ text. string_bytes text ≡ statement_text (map (λ w. w.now) words.now)) }
{
    let mut text = String::new(alloc);
    put_words(&mut text, words)?;
    Ok(text)
}

/// Appends an instruction in the words of its line to `statements`, once for each of its units.
fn put_units(
    alloc: Global,
    statements: &mut Vec<String>,
    words: &[&[u8]],
    statement: &Statement<'_>,
) -> Result<(), AllocError>
    ensures { OnOk result (map string_bytes statements.new.items ≡ map string_bytes statements.old.items
        ++ for_units (Ok (Some (source_view statement.now))) (statement_text (map (λ w. w.now) words.now))) }
{
    statements.push(statement_text(alloc, words)?)?;
    if units(statement) == 2 {
        statements.push(statement_text(alloc, words)?)?;
    }
    Ok(())
}

/// Appends the instruction that `words` make up to `statements`, once for each of its units. Appends nothing if the
/// words are not an instruction.
fn put_statement(
    alloc: Global,
    statements: &mut Vec<String>,
    words: &[&[u8]],
) -> Result<(), AllocError>
    ensures { OnOk result (map string_bytes statements.new.items ≡ map string_bytes statements.old.items
        ++ for_units (statement_of (map (λ w. w.now) words.now)) (statement_text (map (λ w. w.now) words.now))) }
{
    match read_statement(words) {
        Ok(Some(statement)) => put_units(alloc, statements, words, &statement),
        Ok(None) | Err(_) => Ok(()),
    }
}

/// Appends the instruction of a line to `statements`, once for each of its units. Appends nothing if the line has no
/// instruction, or has a fault.
#[tactic(auto, using(crate::proofs::WordingLemmas::nothing_added))]
fn put_line<'a>(
    alloc: Global,
    statements: &mut Vec<String>,
    words: &mut Vec<&'a [u8]>,
    line: &'a [u8],
) -> Result<(), AllocError>
    ensures { OnOk result (map string_bytes statements.new.items ≡ map string_bytes statements.old.items
        ++ line_statements line.now) }
{
    match read_outline(words, line) {
        Ok(_name) => put_statement(alloc, statements, words.as_slice()),
        Err(error) => error.want_of_memory(),
    }
}

/// Returns for each unit of the program in a text the instruction to which it belongs, in the words of its line, such
/// as `call board_get`. An `lddw` has two units, so it is returned twice.
///
/// # Errors
///
/// `AllocError` if out of memory.
pub fn statements(alloc: Global, text: &str) -> Result<Vec<String>, AllocError>
    ensures { IfOk result (λ statements. map string_bytes statements.items ≡ statements_of text.now) }
{
    let mut statements = Vec::new(alloc);
    let mut words = Vec::new(alloc);
    let mut rest = text.as_bytes();
    while let Some((line, after)) = next_line(rest) {
        put_line(alloc, &mut statements, &mut words, line)?;
        rest = after;
    }
    Ok(statements)
}
