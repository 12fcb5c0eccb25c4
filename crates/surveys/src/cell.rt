//! A cell of a table: a number and its column's width.

/// A table cell: its column's width in bytes, and its number, or `None` if it is empty.
#[derive(Clone, Copy)]
pub struct NumberCell {
    pub width: usize,
    pub number: Option<u64>,
}
