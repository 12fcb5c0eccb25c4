//! Ranges of small numbers, such as the numbers of generals in a family.

/// The numbers from `low` to `high`, both included.
#[derive(Clone, Copy)]
pub struct CountRange {
    pub low: u8,
    pub high: u8,
}
