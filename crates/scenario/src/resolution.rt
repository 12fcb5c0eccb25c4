//! Resolves a scenario's text: replaces each file's name by its contents, and gives each traitor a table of his own.
ghost use Rattle.std.specs.Prelude.{◌≡◌, IfOk, OnOk, option_map, string_bytes};
ghost use Rattle.toml.specs.Data.{item, no_items};
ghost use Rattle.toml.specs.Parse.{parse_document};
ghost use Rattle.toml.specs.View.{items_view, table_view, view};
ghost use Rattle.scenario.specs.Members.{join};
ghost use Rattle.scenario.specs.ReferenceNames.{traitors};
ghost use Rattle.scenario.specs.Parsed.{IsTextBy};
ghost use Rattle.scenario.specs.Resolved.{IsPrinted, Resolves, ResolvesList, element_refers, entry, is_spent, one_each, program, rebuilt, refers, resolved, table_refers, tables, tables_of, with_tables};

use crate::neighbour_files::{LoadedFile, text_named};
use crate::reference_key::ReferenceKey;
use crate::text_tables::{document, function_at, has, name_at, put, seats, traitors};
use std::alloc::{AllocError, Global};
use toml::ser::Error;
use toml::{Table, Value};

/// With how many tables the resolved list of traitors is long enough, so that no more are added. It is one more than a
/// scenario can have.
const MOST_TABLES: usize = 14;

/// Returns the kind of the file that a table names by `key`, and the text that replaces its name. Returns `None` if the
/// key names no file, or if the file was not read.
fn program<'a>(files: &'a [LoadedFile], table: &Table, key: &str) -> Option<(ReferenceKey, &'a str)>
    ensures { option_map (λ p. (p.0, (p.1).now)) result ≡ program files.now (table_view table.now) key.now }
{
    let of = ReferenceKey::of(key)?;
    let name = name_at(table, of)?;
    let text = text_named(files, of, name, function_at(table, of))?;
    Some((of, text))
}

/// Returns whether the key is `entry` and names a function in an object file that was read. The code of this function
/// replaces both keys, `elf` and `entry`.
fn is_spent(files: &[LoadedFile], table: &Table, key: &str) -> bool
    ensures { result ≡ is_spent files.now (table_view table.now) key.now }
{
    key == "entry"
        && function_at(table, ReferenceKey::Object).is_some()
        && program(files, table, "elf").is_some()
}

/// Copies an entry of the traitor's table `table` into `done`. If the entry names a file that was read, copies its
/// program instead. Copies nothing for the key `entry` of an object file that was read. If the key is `generals` and a
/// general is given, copies the key `general` with him instead.
///
/// # Errors
///
/// Fails with `AllocError` if an allocation fails.
fn put_entry(
    alloc: Global,
    done: &mut Table,
    files: &[LoadedFile],
    general: Option<&Value>,
    table: &Table,
    key: &str,
    value: &Value,
) -> Result<(), AllocError>
    ensures { OnOk result (table_view done.new
        ≡ entry files.now (option_map (λ v. view v.now) general.entry) (table_view table.now) key.now (view value.now)
        (table_view done.old)) }
{
    if is_spent(files, table, key) {
        return Ok(());
    }
    match (program(files, table, key), general) {
        (Some((of, text)), _) => put(alloc, done, of.place(), Value::string(alloc, text)?),
        (None, Some(general)) if key == "generals" => put(alloc, done, "general", general.clone()?),
        (None, _) => put(alloc, done, key, value.clone()?),
    }
}

/// Returns a copy of a traitor's table that contains programs in place of the names of their files. If a general is
/// given, the copy is only for him, and not for all the generals who share the table.
///
/// # Errors
///
/// Fails with `AllocError` if an allocation fails.
fn rebuilt(
    alloc: Global,
    files: &[LoadedFile],
    general: Option<&Value>,
    table: &Table,
) -> Result<Table, AllocError>
    ensures { IfOk result (λ t. table_view t
        ≡ rebuilt files.now (option_map (λ v. view v.now) general.entry) (table_view table.now)) }
{
    let mut done = Table::new(alloc);
    for (key, value) in table {
        put_entry(alloc, &mut done, files, general, table, key.as_str(), value)?;
    }
    Ok(done)
}

/// Appends a value to a list.
///
/// # Errors
///
/// Fails with `AllocError` if an allocation fails.
fn push(done: &mut Vec<Value>, value: Value) -> Result<(), AllocError>
    ensures { OnOk result (items_view done.new.items ≡ join (items_view done.old.items) (item (view value) no_items)) }
{
    Ok(done.push(value)?)
}

/// Appends a table to `done` for each of the generals who share `table`, with the program in place of the name of its
/// file.
///
/// # Errors
///
/// Fails with `AllocError` if an allocation fails.
fn push_each(
    alloc: Global,
    done: &mut Vec<Value>,
    files: &[LoadedFile],
    generals: &[Value],
    table: &Table,
) -> Result<(), AllocError>
    ensures { OnOk result (items_view done.new.items
        ≡ join (items_view done.old.items) (one_each files.now (table_view table.now) (items_view generals.now))) }
{
    for index in 0..generals.len() {
        let one = rebuilt(alloc, files, Some(&generals[index]), table)?;
        push(done, Value::Table(one))?;
    }
    Ok(())
}

/// Appends to `done` what replaces a traitor's table: a table for each of its generals, with the program in place of
/// the name of its file.
///
/// # Errors
///
/// Fails with `AllocError` if an allocation fails.
fn push_tables(
    alloc: Global,
    done: &mut Vec<Value>,
    files: &[LoadedFile],
    table: &Table,
) -> Result<(), AllocError>
    ensures { OnOk result (items_view done.new.items
        ≡ join (items_view done.old.items) (tables files.now (table_view table.now))) }
{
    match seats(table) {
        Some(generals) => push_each(alloc, done, files, generals, table),
        None => push(done, Value::Table(rebuilt(alloc, files, None, table)?)),
    }
}

/// Appends to `done` what replaces an element of the list of traitors: a table for each of its generals, or the element
/// itself if it is not a table.
///
/// # Errors
///
/// Fails with `AllocError` if an allocation fails.
fn push_any(
    alloc: Global,
    done: &mut Vec<Value>,
    files: &[LoadedFile],
    value: &Value,
) -> Result<(), AllocError>
    ensures { OnOk result (items_view done.new.items
        ≡ join (items_view done.old.items) (tables_of files.now (view value.now))) }
{
    match value.as_table() {
        Some(table) => push_tables(alloc, done, files, table),
        None => push(done, value.clone()?),
    }
}

/// Appends to `done` what replaces an element of the list of traitors, a table for each of its generals. Appends
/// nothing if `done` has 14 elements or more.
///
/// # Errors
///
/// Fails with `AllocError` if an allocation fails.
#[tactic(auto, using(crate::proofs::OriginLemmas::counted))]
fn push_element(
    alloc: Global,
    done: &mut Vec<Value>,
    files: &[LoadedFile],
    value: &Value,
) -> Result<(), AllocError>
    ensures { OnOk result (items_view done.new.items
        ≡ with_tables files.now (items_view done.old.items) (view value.now)) }
{
    if done.len() >= MOST_TABLES {
        return Ok(());
    }
    push_any(alloc, done, files, value)
}

/// Returns the list of traitors with a table for each traitor that contains his program. It ends with the element that
/// brings it to 14 tables or more, since a scenario with more than 13 traitors is rejected.
///
/// # Errors
///
/// Fails with `AllocError` if an allocation fails.
fn resolved_list(
    alloc: Global,
    files: &[LoadedFile],
    values: &[Value],
) -> Result<Vec<Value>, AllocError>
    ensures { IfOk result (λ all. items_view all.items ≡ resolved files.now (items_view values.now)) }
{
    let mut done = Vec::new(alloc);
    for index in 0..values.len() {
        push_element(alloc, &mut done, files, &values[index])?;
    }
    Ok(done)
}

/// Returns whether a traitor's table names a file, or has the key `generals`.
fn table_refers(table: &Table) -> bool
    ensures { result ≡ table_refers (table_view table.now) }
{
    has(table, "asm_file") || has(table, "code_file") || has(table, "elf") || has(table, "generals")
}

/// Returns whether an element of the list of traitors is a table that names a file or has the key `generals`.
fn element_refers(value: &Value) -> bool
    ensures { result ≡ element_refers (view value.now) }
{
    match value.as_table() {
        Some(table) => table_refers(table),
        None => false,
    }
}

/// Returns whether any table in the list of traitors names a file or has the key `generals`.
fn refers(values: &[Value]) -> bool
    ensures { result ≡ refers (items_view values.now) }
{
    for index in 0..values.len() {
        if element_refers(&values[index]) {
            return true;
        }
    }
    false
}

/// Returns the text that the TOML printer returned, or `None` if a date of the document has no text.
///
/// # Errors
///
/// Fails with `AllocError` if the printer ran out of memory.
fn text_of<T: Drop>(printed: Result<T, Error>) -> Result<Option<T>, AllocError>
    ensures { IsTextBy printed result }
{
    match printed {
        Ok(text) => Ok(Some(text)),
        Err(Error::DateInvalid) => Ok(None),
        Err(Error::OutOfMemory) => Err(AllocError),
    }
}

/// Returns a table as TOML text, or `None` if it has a date that TOML cannot write.
///
/// # Errors
///
/// Fails with `AllocError` if an allocation fails.
#[tactic(auto, using(crate::proofs::PrintLemmas::told_so))]
fn printed(alloc: Global, table: &Table) -> Result<Option<String>, AllocError>
    ensures { IfOk result (λ new. IsPrinted (table_view table.now) (option_map string_bytes new)) }
{
    text_of(toml::table_to_string(alloc, table))
}

/// Returns the resolved text of a scenario, which has programs in place of the names of their files, and a table for
/// each traitor. Returns `None` if no table names a file or has the key `generals`, or if TOML cannot write one of the
/// dates.
///
/// # Errors
///
/// Fails with `AllocError` if an allocation fails.
fn resolved_document(
    alloc: Global,
    files: &[LoadedFile],
    table: Table,
) -> Result<Option<String>, AllocError>
    ensures { IfOk result (λ new. ResolvesList files.now (table_view table) (traitors (table_view table))
        (option_map string_bytes new)) }
{
    let mut table = table;
    let Some(values) = traitors(&table) else {
        return Ok(None);
    };
    if !refers(values) {
        return Ok(None);
    }
    let list = resolved_list(alloc, files, values)?;
    put(alloc, &mut table, "traitor", Value::Array(list))?;
    printed(alloc, &table)
}

/// Returns the resolved text of a scenario, which has programs in place of the names of their files, and a table for
/// each traitor. Returns `None` if the text is not TOML, if no table names a file or has the key `generals`, or if TOML
/// cannot write one of the dates. The caller then reads the text itself. The proof covers TOML that nests at most 80
/// levels deep.
///
/// If a file is not in `files`, its key stays in the resolved text, and the reader rejects this key as unknown. The
/// same holds for the key of a file in a table that also has another source of its program, and for `generals` in a
/// table that also has `general`.
///
/// # Errors
///
/// Fails with `AllocError` if an allocation fails.
pub fn resolved(
    alloc: Global,
    text: &str,
    files: &[LoadedFile],
) -> Result<Option<String>, AllocError>
    ensures { IfOk result (λ new. Resolves files.now (parse_document text.now) (option_map string_bytes new)) }
{
    match document(alloc, text)? {
        Some(table) => resolved_document(alloc, files, table),
        None => Ok(None),
    }
}
