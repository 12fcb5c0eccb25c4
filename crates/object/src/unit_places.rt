//! Finds the source file and line of each 8-byte unit of a function's code.
ghost use Rattle.std.specs.Prelude.{◌≡◌, ◌<◌, ◌≤◌, ◌+◌, ◌++◌, codes, decimal, length, map, string_bytes, IfOk};
ghost use Rattle.object.specs.Entry.{function_of};
ghost use Rattle.object.specs.Symbol.{asked};
ghost use Rattle.object.specs.Header.{header_of};
ghost use Rattle.object.specs.Tables.{lines_in};
ghost use Rattle.object.specs.Places.{AreEntryPlaces, AreRows, TellsPlaces, name_in, is_of, row_here, row_of, texts_of, told, told_of};

use crate::header::{Header, header_of};
use crate::names::{name_of, plain};
use crate::registers::LineRow;
use crate::rows::read_rows;
use crate::symbol::Symbol;
use crate::tables::{line_strings_in, lines_in, source_in, strings_in};
use std::alloc::{AllocError, Global};

/// The greatest number of units of a program. A unit has 8 bytes.
const MOST_UNITS: u64 = 4096;

/// Returns the rows of the object's line number program. There are no rows if there is no header, or if the program's
/// last instruction is not complete. `section` is the index of the section whose lines are wanted.
fn rows_of(
    alloc: Global,
    object: &[u8],
    section: u16,
    header: Option<Header>,
) -> Result<Vec<LineRow>, AllocError>
    requires { header ≡ header_of (lines_in object.now) }
    ensures { IfOk result (λ rows. AreRows object.now section header rows.items) }
{
    let Some(header) = header else {
        return Ok(Vec::new(alloc));
    };
    let bytes = &lines_in(object)[..header.end];
    let source = source_in(object, bytes, section);
    match read_rows(alloc, header, &source)? {
        Some(rows) => Ok(rows),
        None => Ok(Vec::new(alloc)),
    }
}

/// Returns whether a row gives the file and line of this address: the address is at or after `row`, and before `next`,
/// the next row of the same sequence.
fn is_of(address: u64, row: LineRow, next: LineRow) -> bool
    ensures { result ≡ is_of address row next }
{
    row.registers.inside
        && !row.last
        && row.registers.address <= address
        && address < next.registers.address
}

/// Returns the row with this index if it gives the file and line of this address, and otherwise `None`.
fn row_here(rows: &[LineRow], address: u64, index: usize) -> Option<LineRow>
    requires { index + 1 < length rows.now }
    ensures { result ≡ row_here rows.now address index }
{
    let row = rows[index];
    if is_of(address, row, rows[index + 1]) {
        Some(row)
    } else {
        None
    }
}

/// Returns the first row that gives the file and line of this address, or `None` if there is no such row.
fn row_of(rows: &[LineRow], address: u64) -> Option<LineRow>
    ensures { result ≡ row_of rows.now address }
{
    for index in 0..rows.len().saturating_sub(1) {
        match row_here(rows, address, index) {
            Some(row) => return Some(row),
            None => {}
        }
    }
    None
}

/// Returns the path of the file with this number, or no bytes if there is no header or the path is not found.
fn name_in(object: &[u8], header: Option<Header>, file: u64) -> &[u8]
    requires { header ≡ header_of (lines_in object.now) }
    ensures { result.now ≡ name_in object.now header file }
{
    match header {
        Some(header) => name_of(
            header,
            &lines_in(object)[..header.program],
            line_strings_in(object),
            strings_in(object),
            file,
        ),
        None => &[],
    }
}

/// Returns a file and line as text, such as `traitor.c:12`.
fn joined(alloc: Global, name: &str, line: u64) -> Result<String, AllocError>
    ensures { IfOk result (λ text. string_bytes text ≡ name.now ++ codes ":" ++ decimal line) }
{
    format!(in alloc; "{name}:{line}")
}

/// Returns a file and line as text, such as `traitor.c:12`. The text is empty if the name cannot be printed on a line:
/// it must consist of 1 to 255 visible ASCII characters or spaces.
fn told(alloc: Global, name: &[u8], line: u64) -> Result<String, AllocError>
    ensures { IfOk result (λ text. string_bytes text ≡ told name.now line) }
{
    match plain(name) {
        Some(name) => joined(alloc, name, line),
        None => Ok(String::new(alloc)),
    }
}

/// Returns the file and line of a row as text, such as `traitor.c:12`. The text is empty if there is no row, its line
/// is 0, or its file's name cannot be printed on a line.
fn told_of(
    alloc: Global,
    object: &[u8],
    header: Option<Header>,
    row: Option<LineRow>,
) -> Result<String, AllocError>
    requires { header ≡ header_of (lines_in object.now) }
    ensures { IfOk result (λ text. string_bytes text ≡ told_of (name_in object.now header) row) }
{
    match row {
        Some(row) if row.registers.line != 0 => {
            let name = name_in(object, header, row.registers.file);
            told(alloc, name, row.registers.line)
        }
        _ => Ok(String::new(alloc)),
    }
}

/// Returns the file and line of each of the first `units` 8-byte units of a function as text, such as `traitor.c:12`. A
/// text is empty if the file or the line is not known.
fn texts_of(
    alloc: Global,
    object: &[u8],
    header: Option<Header>,
    rows: &[LineRow],
    function: Symbol,
    units: usize,
) -> Result<Vec<String>, AllocError>
    requires header { header ≡ header_of (lines_in object.now) }
    requires few { units ≤ 4096 }
    ensures { IfOk result (λ texts. map string_bytes texts.items
        ≡ texts_of (name_in object.now header) rows.now function.value units) }
{
    let mut texts = Vec::new(alloc);
    for unit in 0..units {
        let row = row_of(rows, function.value.wrapping_add(8 * unit as u64));
        texts.push(told_of(alloc, object, header, row)?)?;
    }
    Ok(texts)
}

/// Returns the file and line of each 8-byte unit of a function as text, such as `traitor.c:12`, for up to 4,096 units.
/// A text is empty if the file or the line is not known. Damaged tables, and sections of more than 65,536 bytes, count
/// as missing.
///
/// # Errors
///
/// `AllocError` if out of memory.
pub fn places(alloc: Global, object: &[u8], function: Symbol) -> Result<Vec<String>, AllocError>
    ensures { IfOk result (λ texts. TellsPlaces object.now function (map string_bytes texts.items)) }
{
    let header = header_of(lines_in(object));
    let units = (function.size / 8).min(MOST_UNITS) as usize;
    let rows = rows_of(alloc, object, function.section, header)?;
    texts_of(alloc, object, header, rows.as_slice(), function, units)
}

/// Returns the file and line of each 8-byte unit of an object's entry function as text, such as `traitor.c:12`. The
/// entry is the function with this name or, if no name is given, the only global function. The list is empty if the
/// object has no such entry.
///
/// # Errors
///
/// `AllocError` if out of memory.
pub fn entry_places(
    alloc: Global,
    object: &[u8],
    name: Option<&[u8]>,
) -> Result<Vec<String>, AllocError>
    ensures { IfOk result (λ texts. AreEntryPlaces object.now (function_of object.now (asked name.entry))
        (map string_bytes texts.items)) }
{
    match crate::entry_search::function(object, name) {
        Ok(function) => places(alloc, object, function),
        Err(_) => Ok(Vec::new(alloc)),
    }
}
