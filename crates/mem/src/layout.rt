//! The layout of a context, which is a list of 4-byte numbers: its size, and the indexes of some numbers.

/// The size of a context in bytes.
pub const BYTES: usize = 4096;

/// The index of the number of generals among the context's 4-byte numbers.
pub const AT_GENERALS: usize = 0;

/// The index of the commander among the context's 4-byte numbers.
pub const AT_COMMANDER: usize = 3;
