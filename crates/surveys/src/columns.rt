//! Defines the columns of a survey's picture.

/// The columns of a picture: one for each number of traitors from `first` to `end` - 1. There is none if `end` is at most
/// `first`.
#[derive(Clone, Copy, Drop)]
pub(crate) struct Columns {
    /// The number of traitors of the first column.
    pub first: u32,
    /// The number of traitors of the last column, plus 1.
    pub end: u32,
}
