//! Runs a table of tests, and prints which of its rows have another answer than expected.
use crate::call_answers::answered;
use crate::item::ItemKey;
use crate::questions::difference;
use crate::reader::rows;
use crate::row::{ProgramCall, WorkedRow};
use crate::row_files::{number, shelf};
use crate::shelf::{AnswerOutput, FileContent, Shelf};
use anyhow::{Result, bail};
use std::alloc::Global;
use std::fs;
use std::rt::Files;
use std::sync::Wait;
use std::thread::Threads;

/// Makes the calls of all rows of a table. Prints each row with a wrong answer, with the first difference, and then how
/// many rows there are and how many are wrong.
pub fn report<R: Print + Files + Threads + Wait + Sync + AllocGlobal>(
    rt: &R,
    table: &str,
) -> Result<()> {
    let alloc = rt.alloc();
    let file = format!(in alloc; "{table}.rows")?;
    let text = fs::read_to_string(rt, file.as_str())?;
    let rows = rows(alloc, text.as_str())?;
    let mut wrong = 0usize;
    for row in &rows {
        if let Some(difference) = differing(rt, row)? {
            let name = row.name.as_str();
            println!(rt; "{table}: {name}: {difference}")?;
            wrong = wrong.saturating_add(1);
        }
    }
    let number = rows.len();
    println!(rt; "{table}: {number} rows, {wrong} wrong")?;
    Ok(())
}

/// Makes the calls of a row in turn. Returns a description of the first difference from the expected answers, or `None`
/// if there is none.
fn differing<R: Files + Threads + Wait + Sync + AllocGlobal>(
    rt: &R,
    row: &WorkedRow,
) -> Result<Option<String>> {
    let mut shelf = shelf(rt, row.files.as_slice())?;
    for call in &row.calls {
        let difference = match call.value(ItemKey::Beginnings) {
            None => called(rt, call, &mut shelf)?,
            Some(name) => beginnings(rt, call, &mut shelf, name)?,
        };
        if difference.is_some() {
            return Ok(difference);
        }
    }
    Ok(None)
}

/// Makes a call. Returns a description of the first difference between its answer and the expected one, or `None` if
/// there is none.
fn called<R: Files + Threads + Wait + Sync + AllocGlobal>(
    rt: &R,
    call: &ProgramCall,
    shelf: &mut Shelf,
) -> Result<Option<String>> {
    let alloc = rt.alloc();
    let mut words: Vec<&str> = Vec::new(alloc);
    for item in &call.items {
        match item.key {
            ItemKey::Words => {
                for word in item.value.as_str().split_whitespace() {
                    words.push(word)?;
                }
            }
            ItemKey::Word => words.push(item.value.as_str())?,
            _ => {}
        }
    }
    let told = answered(rt, words.as_slice(), shelf, output(alloc, call)?)?;
    let difference = difference(rt, call, shelf, &told)?;
    if let Some(name) = call.value(ItemKey::Keep) {
        shelf.put(alloc, name, FileContent::Bytes(told.out))?;
    }
    Ok(difference)
}

/// Returns the standard output for a call: one that keeps what is written, or one that fails, as the call's items say.
fn output(alloc: Global, call: &ProgramCall) -> Result<AnswerOutput> {
    let bytes = Vec::new(alloc);
    match call.value(ItemKey::Unflushed) {
        Some(most) => Ok(AnswerOutput::Unflushed {
            most: number(most)?,
            bytes,
        }),
        None if call.has(ItemKey::Full) => Ok(AnswerOutput::Full),
        None => Ok(AnswerOutput::Kept(bytes)),
    }
}

/// Makes the call once for each length that is shorter than the file `name`, with the file cut to this length. Returns
/// a description of the first difference from the expected answer, or `None` if there is none.
fn beginnings<R: Files + Threads + Wait + Sync + AllocGlobal>(
    rt: &R,
    call: &ProgramCall,
    shelf: &mut Shelf,
    name: &str,
) -> Result<Option<String>> {
    let alloc = rt.alloc();
    let Some(whole) = shelf.bytes(name) else {
        bail!("{name}: there is no such file");
    };
    let whole = whole.to_vec(alloc)?;
    for length in 0..whole.len() {
        let beginning = whole[..length].to_vec(alloc)?;
        shelf.put(alloc, name, FileContent::Bytes(beginning))?;
        if let Some(difference) = called(rt, call, shelf)? {
            return Ok(Some(format!(in alloc; "{length} bytes of {name}: {difference}")?));
        }
        shelf.drop_last();
    }
    Ok(None)
}
