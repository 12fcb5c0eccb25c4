//! Writes the cells of a table.
ghost use Rattle.std.specs.Prelude.{◌≡◌, ◌++◌, OnOk, flat_map, string_bytes};
ghost use Rattle.surveys.specs.Tables.{cell_text, number_text, padded, row_text};

use crate::cell::NumberCell;
use itoa::Buffer;
use std::alloc::AllocError;

/// Appends `text` with spaces before it up to a width of `width` bytes. A longer text is appended as it is.
pub(crate) fn put_padded(out: &mut String, width: usize, text: &str) -> Result<(), AllocError>
    ensures { OnOk result (string_bytes out.new ≡ string_bytes out.old ++ padded width text.now) }
{
    for _ in 0..width.saturating_sub(text.len()) {
        out.push_str(" ")?;
    }
    out.push_str(text)
}

/// Appends a space and then a cell, right-aligned in its column. An empty cell is written as `-`.
fn put_cell(out: &mut String, cell: NumberCell) -> Result<(), AllocError>
    ensures { OnOk result (string_bytes out.new ≡ string_bytes out.old ++ cell_text cell) }
{
    out.push_str(" ")?;
    match cell.number {
        None => put_padded(out, cell.width, "-"),
        Some(number) => {
            let mut buffer = Buffer::new();
            put_padded(out, cell.width, buffer.format(number))
        }
    }
}

/// Appends the cells, each after a space, and a line feed.
pub(crate) fn put_row(out: &mut String, cells: &[NumberCell]) -> Result<(), AllocError>
    ensures { OnOk result (string_bytes out.new ≡ string_bytes out.old ++ row_text cells.now) }
{
    for cell in cells {
        put_cell(out, *cell)?;
    }
    out.push_str("\n")
}
