//! Finds the program of a general in a scenario that may have faults.
ghost use Rattle.std.specs.Prelude.{◌≡◌, option_map};
ghost use Rattle.toml.specs.View.{view, items_view, table_view};
ghost use Rattle.scenario.specs.Seen.{source_of};
ghost use Rattle.scenario.specs.Sources.{is_general, is_number, members_of, source_among, source_by, source_in, text_in};

use crate::keys::at;
use crate::place::ScenarioKey;
use crate::programs::ProgramText;
use toml::{Table, Value};

/// Returns whether the integer is the number `general`.
fn is_number(number: i64, general: u8) -> bool
    ensures { result ≡ is_number general number }
{
    match u64::try_from(number) {
        Ok(number) => number == u64::from(general),
        Err(_) => false,
    }
}

/// Returns whether the value is the number `general`. It is not if there is no value.
fn is_general(value: Option<&Value>, general: u8) -> bool
    ensures { result ≡ is_general general (option_map (λ v. view v.now) value.entry) }
{
    match value {
        Some(value) => match value.as_integer() {
            Some(number) => is_number(number, general),
            None => false,
        },
        None => false,
    }
}

/// Returns the value as a text, or `None` if it is not a text or there is no value.
fn text_in(value: Option<&Value>) -> Option<&str>
    ensures { option_map (λ t. t.now) result ≡ text_in (option_map (λ v. view v.now) value.entry) }
{
    match value {
        Some(value) => value.as_str(),
        None => None,
    }
}

/// Returns the program that a traitor's table contains: the text at `asm`, or else the text at `code`. Returns `None`
/// if it has neither.
fn written_in(table: &Table) -> Option<ProgramText<'_>>
    ensures { option_map source_of result ≡ source_in (table_view table.now) }
{
    match text_in(at(table, ScenarioKey::Asm)) {
        Some(text) => Some(ProgramText::Asm(text)),
        None => match text_in(at(table, ScenarioKey::Code)) {
            Some(text) => Some(ProgramText::Code(text)),
            None => None,
        },
    }
}

/// Returns an element of the list of traitors as a table, or `None` if it is not a table for this general.
fn table_of(value: &Value, general: u8) -> Option<&Table>
    ensures { option_map (λ t. table_view t.now) result ≡ members_of general (view value.now) }
{
    match value.as_table() {
        Some(table) if is_general(at(table, ScenarioKey::General), general) => Some(table),
        _ => None,
    }
}

/// Returns the program in the first table for this general in the list of traitors, or `None` if there is none.
fn written_among(values: &[Value], general: u8) -> Option<ProgramText<'_>>
    ensures { option_map source_of result ≡ source_among general (items_view values.now) }
{
    for index in 0..values.len() {
        if let Some(table) = table_of(&values[index], general) {
            return written_in(table);
        }
    }
    None
}

/// Returns the program of this general in a scenario, which is in the first traitor's table with his number. Returns
/// `None` if he has no table, or if it contains no program.
pub fn written_by(table: &Table, general: u8) -> Option<ProgramText<'_>>
    ensures { option_map source_of result ≡ source_by general (table_view table.now) }
{
    match at(table, ScenarioKey::Traitor) {
        Some(value) => match value.as_array() {
            Some(values) => written_among(values.as_slice(), general),
            None => None,
        },
        None => None,
    }
}
