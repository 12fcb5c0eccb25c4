//! Writes a unit with its number, its place in the source text, and its instruction, such as `3 (line 7) call
//! board_get`.
ghost use Rattle.std.specs.Prelude.{◌≡◌, ◌++◌, slice_get, string_bytes, OnOk};
ghost use Rattle.explain.specs.Units.{in_brackets, insn_at, statement_text, text_or_none, unit_text, written_in};

use asm::{put, put_instruction, put_unsigned};
use insn::Insn;
use std::alloc::AllocError;

/// How each unit of a program is written in its source text. A text that is missing or empty is not known.
#[derive(Clone, Copy)]
pub struct UnitTexts<'a> {
    /// The place of each unit, such as `line 7`.
    pub places: &'a [String],
    /// The instruction of each unit, such as `call board_get`.
    pub statements: &'a [String],
}

/// Returns the text of a unit, or the empty text if there is none.
fn text_of(texts: &[String], unit: usize) -> &str
    ensures { result.now ≡ text_or_none (slice_get texts.now unit) }
{
    match texts.get(unit) {
        Some(text) => text.as_str(),
        None => "",
    }
}

/// Appends a space and the place in brackets, such as ` (line 7)`. Appends nothing if the place is empty.
fn put_in_brackets(out: &mut String, place: &str) -> Result<(), AllocError>
    ensures { OnOk result (string_bytes out.new ≡ string_bytes out.old ++ in_brackets place.now) }
{
    if place.is_empty() {
        return Ok(());
    }
    put(out, " (")?;
    put(out, place)?;
    put(out, ")")
}

/// Appends the number of a unit and, if it is known, its place in the source text, such as `3 (line 7)`.
fn put_unit_text(out: &mut String, written: &UnitTexts<'_>, unit: usize) -> Result<(), AllocError>
    ensures { OnOk result (string_bytes out.new ≡ string_bytes out.old ++ unit_text (written_in written.now) unit) }
{
    put_unsigned(out, unit as u64)?;
    put_in_brackets(out, text_of(written.places, unit))
}

/// Appends an instruction as its source text has it, or as printed from the bytecode if `statement` is empty.
fn put_statement(out: &mut String, statement: &str, insn: &Insn) -> Result<(), AllocError>
    ensures { OnOk result (string_bytes out.new ≡ string_bytes out.old ++ statement_text statement.now insn.now) }
{
    if statement.is_empty() {
        return put_instruction(out, insn);
    }
    put(out, statement)
}

/// Appends a unit's number, its place in the source text and its instruction, such as `3 (line 7) call board_get`.
pub(crate) fn put_insn_at(
    out: &mut String,
    written: &UnitTexts<'_>,
    unit: usize,
    insn: &Insn,
) -> Result<(), AllocError>
    ensures { OnOk result (string_bytes out.new ≡ string_bytes out.old
        ++ insn_at (written_in written.now) unit insn.now) }
{
    put_unit_text(out, written, unit)?;
    put(out, " ")?;
    put_statement(out, text_of(written.statements, unit), insn)
}
