//! What a program leaves when it has exited or was ended.
use outbox::Outbox;

/// What a program leaves when it has exited or was ended.
#[derive(Drop)]
pub struct Ended {
    /// The outbox, with the orders that the program set, and the entries that it made in a campaign with signatures.
    pub outbox: Outbox,
    /// The number of steps that the program took.
    pub steps: u32,
    /// The value with which the program exited, or `None` if it was ended before.
    pub r0: Option<u64>,
}
