//! Lists the files that a scenario names.
ghost use Rattle.std.specs.Prelude.{◌≡◌, [], IfOk, OnOk, option_map, string_bytes};
ghost use Rattle.toml.specs.Data.{as_table};
ghost use Rattle.toml.specs.Parse.{parse_document};
ghost use Rattle.toml.specs.View.{items_view, table_view, view};
ghost use Rattle.scenario.specs.Asking.{asked, asked_all, asked_by, asked_in, asked_of, gathered, is_asked, with_asked};

use crate::neighbour_files::are_same;
use crate::reference_key::ReferenceKey;
use crate::text_tables::{document, function_at, is_nobodys, name_at, traitors};
use std::alloc::{AllocError, Global};
use std::marker::Model;
use toml::{Table, Value};

/// The greatest number of files that are read. At most 14 tables matter, and each names at most three files.
const MOST_FILES: usize = 42;

/// A reference: the name of a file in a traitor's table.
#[derive(Drop)]
pub struct Reference {
    /// The number of the table in the list of traitors, counted from 0.
    pub index: usize,
    pub key: ReferenceKey,
    pub name: String,
    /// The name of the function in an object file that is the program, or `None` for the only global function.
    pub function: Option<String>,
}

impl Model for Reference {
    ghost use Rattle.std.specs.Prelude.{option_map, string_bytes};
    ghost use Rattle.scenario.specs.Asking.{Asked};

    ghost Value = { Asked };

    ghost view = { λ a. record {
      index = a.index;
      key = a.key;
      name = string_bytes a.name;
      function = option_map string_bytes a.function;
    } };
}

impl Reference {
    ghost use Rattle.std.specs.Prelude.{◌≡◌, ◌&&◌, bytes_eq, option_map};
    ghost use Rattle.scenario.specs.ReferenceNames.{are_same, is_same};

    /// Returns whether the reference has this key, this name of a file and this name of a function.
    fn is_for(&self, key: ReferenceKey, name: &str, function: Option<&str>) -> bool
        ensures { result ≡ (is_same self.now.key key && (bytes_eq self.now.name name.now
            && are_same self.now.function (option_map (λ f. f.now) function.entry))) }
    {
        self.key.is_same(key)
            && self.name.as_str() == name
            && are_same(self.function.as_deref(), function)
    }
}

/// Returns a copy of a text, or `None` if there is no text.
///
/// # Errors
///
/// Fails with `AllocError` if an allocation fails.
pub(crate) fn copied(alloc: Global, text: Option<&str>) -> Result<Option<String>, AllocError>
    ensures { IfOk result (λ own. option_map string_bytes own ≡ option_map (λ t. t.now) text.entry) }
{
    match text {
        None => Ok(None),
        Some(text) => Ok(Some(String::from_str(alloc, text)?)),
    }
}

/// Returns whether one of these references has this key, this name of a file and this name of a function.
fn is_asked(all: &[Reference], key: ReferenceKey, name: &str, function: Option<&str>) -> bool
    ensures { result ≡ is_asked key name.now (option_map (λ f. f.now) function.entry) all.now }
{
    for own in all {
        if own.is_for(key, name, function) {
            return true;
        }
    }
    false
}

/// Appends a reference to `done`, unless it has a reference to the same file and function already, or 42 references.
///
/// # Errors
///
/// Fails with `AllocError` if an allocation fails.
fn add(
    alloc: Global,
    done: &mut Vec<Reference>,
    index: usize,
    key: ReferenceKey,
    name: &str,
    function: Option<&str>,
) -> Result<(), AllocError>
    ensures { OnOk result (done.new.items ≡ with_asked done.old.items (record {
      index = index;
      key = key;
      name = name.now;
      function = option_map (λ f. f.now) function.entry;
    })) }
{
    if done.len() >= MOST_FILES || is_asked(done.as_slice(), key, name, function) {
        return Ok(());
    }
    done.push(Reference {
        index,
        key,
        name: String::from_str(alloc, name)?,
        function: copied(alloc, function)?,
    })?;
    Ok(())
}

/// Appends the file that table `index` names by this key, if it names one, to the references in `done`.
///
/// # Errors
///
/// Fails with `AllocError` if an allocation fails.
fn ask(
    alloc: Global,
    done: &mut Vec<Reference>,
    index: usize,
    table: &Table,
    key: ReferenceKey,
) -> Result<(), AllocError>
    ensures { OnOk result (done.new.items ≡ gathered done.old.items (asked_by index (table_view table.now) key)) }
{
    match name_at(table, key) {
        Some(name) => add(alloc, done, index, key, name, function_at(table, key)),
        None => Ok(()),
    }
}

/// Appends the files that table `index` names to the references in `done`.
///
/// # Errors
///
/// Fails with `AllocError` if an allocation fails.
#[tactic(auto, using(crate::proofs::AskLemmas::gathered_more))]
fn ask_all(
    alloc: Global,
    done: &mut Vec<Reference>,
    index: usize,
    table: &Table,
) -> Result<(), AllocError>
    ensures { OnOk result (done.new.items ≡ gathered done.old.items (asked_all index (table_view table.now))) }
{
    ask(alloc, done, index, table, ReferenceKey::Assembly)?;
    ask(alloc, done, index, table, ReferenceKey::Bytecode)?;
    ask(alloc, done, index, table, ReferenceKey::Object)
}

/// Appends the files that element `index` of the list of traitors names to the references in `done`. An element that is
/// no table, or that is for an empty list of generals, names none.
///
/// # Errors
///
/// Fails with `AllocError` if an allocation fails.
fn ask_element(
    alloc: Global,
    done: &mut Vec<Reference>,
    index: usize,
    value: &Value,
) -> Result<(), AllocError>
    ensures { OnOk result (done.new.items ≡ gathered done.old.items (asked_of index (as_table (view value.now)))) }
{
    match value.as_table() {
        Some(table) if !is_nobodys(table) => ask_all(alloc, done, index, table),
        _ => Ok(()),
    }
}

/// Returns the first 42 files that the list of traitors names, each of them once.
///
/// # Errors
///
/// Fails with `AllocError` if an allocation fails.
fn asked_in(alloc: Global, values: &[Value]) -> Result<Vec<Reference>, AllocError>
    ensures { IfOk result (λ all. all.items ≡ gathered [] (asked_in 0 (items_view values.now))) }
{
    let mut done = Vec::new(alloc);
    for index in 0..values.len() {
        ask_element(alloc, &mut done, index, &values[index])?;
    }
    Ok(done)
}

/// Returns the files that the text of a scenario names, in the order of its tables and each of them once. If there are
/// more than 42 files, it returns the first 42, since a scenario with more is rejected. If the text is not TOML, it
/// names none.
///
/// # Errors
///
/// Fails with `AllocError` if an allocation fails.
pub fn asked(alloc: Global, text: &str) -> Result<Vec<Reference>, AllocError>
    ensures { IfOk result (λ all. all.items ≡ asked (parse_document text.now)) }
{
    let Some(table) = document(alloc, text)? else {
        return Ok(Vec::new(alloc));
    };
    match traitors(&table) {
        Some(values) => asked_in(alloc, values),
        None => Ok(Vec::new(alloc)),
    }
}
