//! Parses the text of a scenario as TOML, and returns values in its tables.
ghost use Rattle.std.specs.Prelude.{◌≡◌, IfOk, OnOk, Some, is_some, option_and_then, option_map, codes};
ghost use Rattle.toml.specs.Data.{as_array, as_str, get_member};
ghost use Rattle.toml.specs.Parse.{parse_document};
ghost use Rattle.toml.specs.View.{items_view, table_view, view};
ghost use Rattle.scenario.specs.ReferenceNames.{first_items, function_at, is_nobodys, is_taken, name_at, seats, traitors};
ghost use Rattle.scenario.specs.Members.{put};
ghost use Rattle.scenario.specs.Parsed.{IsDocumentOf};

use crate::reference_key::ReferenceKey;
use std::alloc::{AllocError, Global};
use toml::de::Error;
use toml::{Table, Value};

/// The greatest number of generals that are read from the list of a shared table. It is one more than a campaign can
/// have.
const MOST_SEATS: usize = 14;

/// Returns the table that the parser returned, or `None` if the text is not TOML.
///
/// # Errors
///
/// Fails with `AllocError` if the parser ran out of memory.
fn told(parsed: Result<Table, Error>) -> Result<Option<Table>, AllocError>
    ensures { IsDocumentOf parsed result }
{
    match parsed {
        Ok(table) => Ok(Some(table)),
        Err(error) if error.is_memory() => Err(AllocError),
        Err(_) => Ok(None),
    }
}

/// Parses a text as TOML, and returns its table, or `None` if the text is not TOML.
///
/// # Errors
///
/// Fails with `AllocError` if an allocation fails.
pub(crate) fn document(alloc: Global, text: &str) -> Result<Option<Table>, AllocError>
    ensures { IfOk result (λ table. option_map table_view table ≡ parse_document text.now) }
{
    told(toml::table_from_str(alloc, text))
}

/// Returns whether the table has the key.
pub(crate) fn has(table: &Table, key: &str) -> bool
    ensures { result ≡ is_some (get_member key.now (table_view table.now)) }
{
    table.get(key).is_some()
}

/// Returns the text at a key, or `None` if the key is missing or its value is not a text.
fn text_at<'a>(table: &'a Table, key: &str) -> Option<&'a str>
    ensures { option_map (λ t. t.now) result ≡ option_and_then as_str (get_member key.now (table_view table.now)) }
{
    match table.get(key) {
        Some(value) => value.as_str(),
        None => None,
    }
}

/// Returns the elements of the list at a key, or `None` if the key is missing or its value is not a list.
fn list_at<'a>(table: &'a Table, key: &str) -> Option<&'a [Value]>
    ensures { option_map (λ ds. items_view ds.now) result
        ≡ option_and_then as_array (get_member key.now (table_view table.now)) }
{
    match table.get(key) {
        Some(value) => match value.as_array() {
            Some(array) => Some(array.as_slice()),
            None => None,
        },
        None => None,
    }
}

/// Returns whether a traitor's table gives the program by another key, so that it may not name a file of this kind.
/// Such a key is `asm` for an assembly file, `code` for a bytecode file, and `code` or `code_file` for an object file.
fn is_taken(table: &Table, key: ReferenceKey) -> bool
    ensures { result ≡ is_taken key (table_view table.now) }
{
    match key {
        ReferenceKey::Object => has(table, "code") || has(table, "code_file"),
        ReferenceKey::Assembly | ReferenceKey::Bytecode => has(table, key.place()),
    }
}

/// Returns the name of the file that a traitor's table gives by this key. Returns `None` if it gives none, or if the
/// table gives the program by another key.
pub(crate) fn name_at<'a>(table: &'a Table, key: ReferenceKey) -> Option<&'a str>
    ensures { option_map (λ n. n.now) result ≡ name_at key (table_view table.now) }
{
    if is_taken(table, key) {
        return None;
    }
    text_at(table, key.reference())
}

/// Returns the name of the function that a traitor's table names in an object file. Returns `None` if it names none, or
/// for a file of another kind.
pub(crate) fn function_at<'a>(table: &'a Table, key: ReferenceKey) -> Option<&'a str>
    ensures { option_map (λ f. f.now) result ≡ function_at key (table_view table.now) }
{
    match key {
        ReferenceKey::Object => text_at(table, "entry"),
        ReferenceKey::Assembly | ReferenceKey::Bytecode => None,
    }
}

/// Returns the first 14 values of a list, or all of them if there are fewer.
#[tactic(auto, using(crate::proofs::FirstLemmas::all_items, crate::proofs::FirstLemmas::cut_items))]
fn first(list: &[Value]) -> &[Value]
    ensures { items_view result.now ≡ first_items 14 (items_view list.now) }
{
    if list.len() <= MOST_SEATS {
        list
    } else {
        &list[..MOST_SEATS]
    }
}

/// Returns the generals who share a traitor's table. If there are more than 14, it returns the first 14, since a
/// scenario with more than 13 is rejected. Returns `None` if the table has a key `general`, or no list `generals`.
pub(crate) fn seats(table: &Table) -> Option<&[Value]>
    ensures { option_map (λ ds. items_view ds.now) result ≡ seats (table_view table.now) }
{
    if has(table, "general") {
        return None;
    }
    match list_at(table, "generals") {
        Some(generals) => Some(first(generals)),
        None => None,
    }
}

/// Returns whether a traitor's table is for an empty list of generals, and so for no one.
pub(crate) fn is_nobodys(table: &Table) -> bool
    ensures { result ≡ is_nobodys (seats (table_view table.now)) }
{
    match seats(table) {
        Some(generals) => is_nobody(generals),
        None => false,
    }
}

/// Returns whether a list of generals is empty.
#[tactic(auto, using(crate::proofs::FirstLemmas::somebody))]
fn is_nobody(generals: &[Value]) -> bool
    ensures { result ≡ is_nobodys (Some (items_view generals.now)) }
{
    match generals {
        [] => true,
        [_, ..] => false,
    }
}

/// Returns the list of traitors of a scenario, or `None` if it has no such list.
pub(crate) fn traitors(table: &Table) -> Option<&[Value]>
    ensures { option_map (λ ds. items_view ds.now) result ≡ traitors (table_view table.now) }
{
    list_at(table, "traitor")
}

/// Returns the value at a key, or `None` if the table does not have the key.
pub(crate) fn value_at<'a>(table: &'a Table, key: &str) -> Option<&'a Value>
    ensures { option_map (λ v. view v.now) result ≡ get_member key.now (table_view table.now) }
{
    table.get(key)
}

/// Sets the value at a key of a table, and replaces any value there.
///
/// # Errors
///
/// Fails with `AllocError` if an allocation fails.
pub(crate) fn put(
    alloc: Global,
    table: &mut Table,
    key: &str,
    value: Value,
) -> Result<(), AllocError>
    ensures { OnOk result (table_view table.new ≡ put key.now (view value) (table_view table.old)) }
{
    let name = String::from_str(alloc, key)?;
    table.insert(name, value)?;
    Ok(())
}
