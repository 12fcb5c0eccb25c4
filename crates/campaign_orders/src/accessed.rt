//! Defines the result of an access to the board.
use round::Running;

/// The result of an access: the activation of the general who made it, and the board's words.
#[derive(Drop)]
pub(crate) struct Accessed {
    /// The activation after the access.
    pub(crate) running: Running,
    /// The board's words after the access.
    pub(crate) words: [u64; 64],
}
