//! Reads a table of tests into its rows.
use crate::item::{Item, ItemKey};
use crate::row::WorkedRow;
use anyhow::{Result, bail};
use std::alloc::Global;

/// Reads the text of a table of tests into its rows.
///
/// # Errors
///
/// Fails with the number of the first line that is not a line of a table.
pub fn rows(alloc: Global, text: &str) -> Result<Vec<WorkedRow>> {
    let mut rows = Vec::new(alloc);
    let mut number = 0usize;
    for line in text.lines() {
        number = number.saturating_add(1);
        if !is_taken(alloc, &mut rows, line)? {
            bail!("line {number} of the table has no shape: {line}");
        }
    }
    Ok(rows)
}

/// Reads a line of a table, and adds it to the rows. Returns `false` if it is not a line of a table.
fn is_taken(alloc: Global, rows: &mut Vec<WorkedRow>, line: &str) -> Result<bool> {
    if line.is_empty() || line.starts_with('#') {
        return Ok(true);
    }
    if let Some((times, text)) = line.split_once('|') {
        if let Some(times) = number_of_times(times) {
            return is_added(rows, times, text);
        }
    }
    let (word, value) = match line.split_once(' ') {
        Some(parts) => parts,
        None => (line, ""),
    };
    match ItemKey::named(word) {
        None => Ok(false),
        Some(ItemKey::Row) => {
            rows.push(WorkedRow::named(alloc, value)?)?;
            Ok(true)
        }
        Some(key) => is_begun(alloc, rows, key, value),
    }
}

/// Returns how often a line of text is repeated. `before` is what precedes its bar: a number, or nothing for a line
/// that is not repeated. Returns `None` for any other text.
fn number_of_times(before: &str) -> Option<usize> {
    if before.is_empty() {
        return Some(1);
    }
    before.parse::<usize>().ok()
}

/// Appends a line to the text below the last item, `times` times. Returns `false` if there is no item yet.
fn is_added(rows: &mut Vec<WorkedRow>, times: usize, text: &str) -> Result<bool> {
    let Some(row) = rows.last_mut() else {
        return Ok(false);
    };
    let Some(item) = row.last_item() else {
        return Ok(false);
    };
    let text = match text.strip_prefix(' ') {
        Some(text) => text,
        None => text,
    };
    for _ in 0..times {
        item.block.extend_from_slice(text.as_bytes())?;
        item.block.push(b'\n')?;
    }
    Ok(true)
}

/// Adds an item with this key and value to the last row. Returns `false` if there is no row yet.
fn is_begun(alloc: Global, rows: &mut Vec<WorkedRow>, key: ItemKey, value: &str) -> Result<bool> {
    let Some(row) = rows.last_mut() else {
        return Ok(false);
    };
    row.take_in(alloc, Item::of(alloc, key, value)?)?;
    Ok(true)
}
