//! Ranges of seeds.

/// The seeds from `first` to `last`, both included.
#[derive(Clone, Copy)]
pub struct Stretch {
    pub first: u64,
    pub last: u64,
}
