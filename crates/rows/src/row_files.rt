//! Makes the files that the items of a row describe, and keeps them in memory.
use crate::item::{Item, ItemKey};
use crate::shelf::{FileContent, Shelf};
use anyhow::{Result, bail};
use std::alloc::Global;
use std::fs;
use std::rt::Files;

/// Makes the files that these items of a row describe, and keeps them in memory.
///
/// # Errors
///
/// Fails if an item does not describe a file, or if a file of data/ cannot be read.
pub fn shelf<R: Files + AllocGlobal>(rt: &R, items: &[Item]) -> Result<Shelf> {
    let mut shelf = Shelf::new(rt.alloc());
    for item in items {
        shelve(rt, &mut shelf, item)?;
    }
    Ok(shelf)
}

/// Adds the file that an item describes to the row's files, or changes the file that was added last.
fn shelve<R: Files + AllocGlobal>(rt: &R, shelf: &mut Shelf, item: &Item) -> Result<()> {
    let alloc = rt.alloc();
    let value = item.value.as_str();
    match item.key {
        ItemKey::File => put(rt, shelf, value, item.block.as_slice()),
        ItemKey::Unreadable => {
            shelf.put(alloc, value, FileContent::Unreadable)?;
            Ok(())
        }
        ItemKey::Hex | ItemKey::Line | ItemKey::Cut | ItemKey::Unended => {
            let Some(bytes) = shelf.last() else {
                bail!("{value}: there is no file yet");
            };
            change(alloc, bytes, item)
        }
        _ => bail!("{value}: words come first"),
    }
}

/// Adds a new file to the row's files. If `value` is `NAME = OTHER`, the new file NAME is a copy of the file OTHER.
/// Otherwise `value` is the name of the new file, and `block` its content.
fn put<R: Files + AllocGlobal>(rt: &R, shelf: &mut Shelf, value: &str, block: &[u8]) -> Result<()> {
    let alloc = rt.alloc();
    let (name, bytes) = match value.split_once(" = ") {
        Some((name, other)) => (name, copied(rt, shelf, other)?),
        None => (value, block.to_vec(alloc)?),
    };
    shelf.put(alloc, name, FileContent::Bytes(bytes))?;
    Ok(())
}

/// Returns the bytes of the file with this name: of the row's file or, if the row has no such file, of the file in the
/// folder data/.
pub fn copied<R: Files + AllocGlobal>(rt: &R, shelf: &Shelf, name: &str) -> Result<Vec<u8>> {
    match shelf.bytes(name) {
        Some(bytes) => Ok(bytes.to_vec(rt.alloc())?),
        None => Ok(fs::read(rt, name)?),
    }
}

/// Changes the content of a file as an item says: appends bytes, replaces a line, cuts the file, or removes its last
/// byte.
fn change(alloc: Global, bytes: &mut Vec<u8>, item: &Item) -> Result<()> {
    let value = item.value.as_str();
    match item.key {
        ItemKey::Hex => {
            let Ok(more) = hex::decode(alloc, value) else {
                bail!("{value}: no hex");
            };
            bytes.extend_from_slice(more.as_slice())?;
        }
        ItemKey::Line => *bytes = with_line(
            alloc,
            bytes.as_slice(),
            number(value)?,
            item.block.as_slice(),
        )?,
        ItemKey::Cut => bytes.truncate(number(value)?),
        _ => {
            let _ = bytes.pop();
        }
    }
    Ok(())
}

/// Parses a decimal number. Fails if `word` is not one, or if the number does not fit into `usize`.
pub fn number(word: &str) -> Result<usize> {
    match word.parse::<usize>() {
        Ok(number) => Ok(number),
        Err(_) => bail!("{word}: no number"),
    }
}

/// Returns a text in which `lines` replace line `number`. Lines are counted from 1.
fn with_line(alloc: Global, text: &[u8], number: usize, lines: &[u8]) -> Result<Vec<u8>> {
    let mut changed = Vec::new(alloc);
    let mut line = 1usize;
    if number == line {
        changed.extend_from_slice(lines)?;
    }
    for byte in text {
        if line != number {
            changed.push(*byte)?;
        }
        if *byte == b'\n' {
            line = line.saturating_add(1);
            if line == number {
                changed.extend_from_slice(lines)?;
            }
        }
    }
    Ok(changed)
}
