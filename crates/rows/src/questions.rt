//! Compares the answer to a call with the expected answer, and describes the first difference.
use crate::call_answers::CallOutput;
use crate::comparison::{ComparisonResult, compare};
use crate::item::{Item, ItemKey};
use crate::likeness::is_like;
use crate::lines::{accesses, last, number_like};
use crate::rebuilt_lines::again;
use crate::row::ProgramCall;
use crate::row_files::{copied, number};
use crate::shelf::Shelf;
use anyhow::Result;
use std::alloc::Global;
use std::rt::Files;

/// Returns a description of the first difference between the answer `told` and the answer that the call's items expect.
/// Returns `None` if there is none. Unless an item says otherwise, the exit status must be 0, and standard output and
/// standard error must be empty.
pub fn difference<R: Files + AllocGlobal>(
    rt: &R,
    call: &ProgramCall,
    shelf: &Shelf,
    told: &CallOutput,
) -> Result<Option<String>> {
    let alloc = rt.alloc();
    if let Some(difference) = unasked(alloc, call, told)? {
        return Ok(Some(difference));
    }
    for item in &call.items {
        if let Some(difference) = asked(rt, item, shelf, told)? {
            return Ok(Some(difference));
        }
    }
    Ok(None)
}

/// The keys of items that say what standard output must be.
const OF_OUTPUT: [ItemKey; 9] = [
    ItemKey::Out,
    ItemKey::Like,
    ItemKey::Last,
    ItemKey::Has,
    ItemKey::Lacks,
    ItemKey::Times,
    ItemKey::Accesses,
    ItemKey::Again,
    ItemKey::Keep,
];

/// Checks whether an item of the call says what standard output must be.
fn asks_output(call: &ProgramCall) -> bool {
    for key in OF_OUTPUT {
        if call.has(key) {
            return true;
        }
    }
    false
}

/// Checks the exit status, standard error and standard output as far as no item of the call says what they must be. The
/// status must then be 0, and the outputs empty. Returns a description of the first difference, or `None`.
fn unasked(alloc: Global, call: &ProgramCall, told: &CallOutput) -> Result<Option<String>> {
    if !call.has(ItemKey::Status) && told.status != 0 {
        return is_status(alloc, 0, told);
    }
    if !call.has(ItemKey::Err) && !call.has(ItemKey::Tells) {
        if let Some(difference) = whole(alloc, "standard error", &told.err, &[])? {
            return Ok(Some(difference));
        }
    }
    if asks_output(call) {
        return Ok(None);
    }
    whole(alloc, "standard output", &told.out, &[])
}

/// Returns a description of the difference between the answer `told` and the answer that this item expects. Returns
/// `None` if there is none, or if the item expects nothing of the answer.
fn asked<R: Files + AllocGlobal>(
    rt: &R,
    item: &Item,
    shelf: &Shelf,
    told: &CallOutput,
) -> Result<Option<String>> {
    let alloc = rt.alloc();
    match item.key {
        ItemKey::Status => is_status(alloc, number(item.value.as_str())?, told),
        ItemKey::Out => {
            let expected = expected(rt, item, shelf)?;
            whole(alloc, "standard output", &told.out, expected.as_slice())
        }
        ItemKey::Err => whole(alloc, "standard error", &told.err, item.block.as_slice()),
        ItemKey::Like => alike(alloc, "standard output", &told.out, item.block.as_slice()),
        ItemKey::Tells => alike(alloc, "standard error", &told.err, item.block.as_slice()),
        ItemKey::Last => {
            let line = last(alloc, told.out.as_slice())?;
            alike(alloc, "the last line", &line, item.value.as_bytes())
        }
        ItemKey::Has | ItemKey::Lacks | ItemKey::Times => counted(alloc, item, told),
        ItemKey::Accesses => {
            let found = accesses(alloc, told.out.as_slice(), number(item.value.as_str())?)?;
            whole(alloc, "the accesses", &found, item.block.as_slice())
        }
        ItemKey::Again => {
            let found = again(alloc, told.out.as_slice())?;
            let expected = copied(rt, shelf, item.value.as_str())?;
            whole(alloc, "the text made again", &found, expected.as_slice())
        }
        _ => Ok(None),
    }
}

/// Returns the standard output that an item expects. If the item's value is `= NAME`, this is the content of the file
/// NAME, and otherwise the text below the item.
fn expected<R: Files + AllocGlobal>(rt: &R, item: &Item, shelf: &Shelf) -> Result<Vec<u8>> {
    match item.value.as_str().strip_prefix("= ") {
        Some(name) => copied(rt, shelf, name),
        None => Ok(item.block.as_slice().to_vec(rt.alloc())?),
    }
}

/// Returns a description of the difference if the exit status of the answer `told` is not `status`, and otherwise
/// `None`.
fn is_status(alloc: Global, status: usize, told: &CallOutput) -> Result<Option<String>> {
    let got = usize::from(told.status);
    if got == status {
        return Ok(None);
    }
    let err = String::from_utf8_lossy(alloc, told.err.as_slice())?;
    Ok(Some(format!(in alloc; "status {got}, not {status}: {err}")?))
}

/// Returns a description of the first line in which the text `got` differs from `expected`, or `None` if they are
/// equal. `what` names the text in the description.
fn whole(alloc: Global, what: &str, got: &Vec<u8>, expected: &[u8]) -> Result<Option<String>> {
    match compare(got.as_slice(), expected) {
        ComparisonResult::AsStored => Ok(None),
        ComparisonResult::Differs(line) => {
            let got = String::from_utf8_lossy(alloc, got.as_slice())?;
            let got = got.lines().nth(line.saturating_sub(1)).unwrap_or("");
            Ok(Some(format!(in alloc; "{what} differs at line {line}: {got}")?))
        }
    }
}

/// Returns a description of the text `got` if it does not match the pattern, and otherwise `None`. `what` names the
/// text in the description.
fn alike(alloc: Global, what: &str, got: &Vec<u8>, pattern: &[u8]) -> Result<Option<String>> {
    if is_like(alloc, pattern, got.as_slice())? {
        return Ok(None);
    }
    let got = String::from_utf8_lossy(alloc, got.as_slice())?;
    Ok(Some(format!(in alloc; "{what} is otherwise: {got}")?))
}

/// Counts the lines of standard output that match the item's pattern. Returns a description of the difference if the
/// item expects another number, and otherwise `None`.
fn counted(alloc: Global, item: &Item, told: &CallOutput) -> Result<Option<String>> {
    let value = item.value.as_str();
    let (times, pattern) = match item.key {
        ItemKey::Times => match value.split_once(' ') {
            Some((times, pattern)) => (number(times)?, pattern),
            None => (number(value)?, ""),
        },
        _ => (0, value),
    };
    let found = number_like(alloc, told.out.as_slice(), pattern.as_bytes())?;
    let is_right = match item.key {
        ItemKey::Has => found > 0,
        _ => found == times,
    };
    if is_right {
        return Ok(None);
    }
    Ok(Some(format!(in alloc; "{found} lines like: {pattern}")?))
}
