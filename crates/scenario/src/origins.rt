//! Finds the table of a scenario's text from which a table of the resolved text comes, and the table of a general. The
//! resolved text has the contents of files in place of their names, and a table for each traitor.
ghost use Rattle.std.specs.Prelude.{◌≡◌, IfOk};
ghost use Rattle.toml.specs.Parse.{parse_document};
ghost use Rattle.toml.specs.View.{items_view, table_view, view};
ghost use Rattle.scenario.specs.ReferenceNames.{seats};
ghost use Rattle.scenario.specs.Origins.{has_general, is_among, is_general, is_seat, origin, origin_from, seat, seat_from, stands_for};
ghost use Rattle.toml.specs.Data.{as_table};

use crate::text_tables::{document, seats, traitors, value_at};
use std::alloc::{AllocError, Global};
use toml::{Table, Value};

/// Returns how many tables of the resolved text come from an element of the list of traitors: one for each general who
/// shares this table, and otherwise one.
#[tactic(auto, using(crate::proofs::OriginLemmas::counted))]
fn stands_for(value: &Value) -> usize
    ensures { result ≡ stands_for (view value.now) }
{
    let Some(table) = value.as_table() else {
        return 1;
    };
    match seats(table) {
        Some(generals) => generals.len(),
        None => 1,
    }
}

/// Returns the index of the element of the list of traitors from which table `number` of the resolved text comes. Both
/// are counted from 0. If that text has no such table, returns the number of elements.
fn origin_in(values: &[Value], number: usize) -> usize
    ensures { result ≡ origin_from 0 number (items_view values.now) }
{
    let mut left = number;
    for at in 0..values.len() {
        let tables = stands_for(&values[at]);
        if left < tables {
            return at;
        }
        left -= tables;
    }
    values.len()
}

/// Returns whether the value is the number `general`.
fn is_general(value: &Value, general: u8) -> bool
    ensures { result ≡ is_general general (view value.now) }
{
    match value.as_integer() {
        Some(number) => match u64::try_from(number) {
            Ok(number) => number == u64::from(general),
            Err(_) => false,
        },
        None => false,
    }
}

/// Returns whether the list contains the number `general`.
fn has_general(values: &[Value], general: u8) -> bool
    ensures { result ≡ has_general general (items_view values.now) }
{
    for at in 0..values.len() {
        if is_general(&values[at], general) {
            return true;
        }
    }
    false
}

/// Returns whether the traitor's table names this general. It may name others, too.
fn is_among(table: &Table, general: u8) -> bool
    ensures { result ≡ is_among general (table_view table.now) (seats (table_view table.now)) }
{
    match seats(table) {
        Some(generals) => has_general(generals, general),
        None => match value_at(table, "general") {
            Some(value) => is_general(value, general),
            None => false,
        },
    }
}

/// Returns whether an element of the list of traitors is a table that names this general. It may name others, too.
fn is_seat(value: &Value, general: u8) -> bool
    ensures { result ≡ is_seat general (as_table (view value.now)) }
{
    match value.as_table() {
        Some(table) => is_among(table, general),
        None => false,
    }
}

/// Returns the index of the first element of the list of traitors that is a table for this general, or `None` if there
/// is none.
fn seat_in(values: &[Value], general: u8) -> Option<usize>
    ensures { result ≡ seat_from 0 general (items_view values.now) }
{
    for at in 0..values.len() {
        if is_seat(&values[at], general) {
            return Some(at);
        }
    }
    None
}

/// Returns the index of the `[[traitor]]` table in a scenario's text from which table `number` of the resolved text
/// comes. Both are counted from 0. The resolved text has the contents of files in place of their names, and a table for
/// each traitor. If the scenario has no list of traitors, returns `number`.
///
/// # Errors
///
/// Fails with `AllocError` if an allocation fails.
pub fn origin(alloc: Global, text: &str, number: usize) -> Result<usize, AllocError>
    ensures { IfOk result (λ own. own ≡ origin number (parse_document text.now)) }
{
    let Some(table) = document(alloc, text)? else {
        return Ok(number);
    };
    match traitors(&table) {
        Some(values) => Ok(origin_in(values, number)),
        None => Ok(number),
    }
}

/// Returns the index, counted from 0, of the first `[[traitor]]` table of a scenario's text that names `general`. The
/// table may name others, too. Returns `None` if no table names him, or if the text is not TOML.
///
/// # Errors
///
/// Fails with `AllocError` if an allocation fails.
pub fn seat(alloc: Global, text: &str, general: u8) -> Result<Option<usize>, AllocError>
    ensures { IfOk result (λ own. own ≡ seat general (parse_document text.now)) }
{
    let Some(table) = document(alloc, text)? else {
        return Ok(None);
    };
    match traitors(&table) {
        Some(values) => Ok(seat_in(values, general)),
        None => Ok(None),
    }
}
