//! Defines a relay: which general relays orders in which round.

/// A relay: which general relays orders in which round, the number of generals, and the commander.
#[derive(Clone, Copy, PartialEq, Eq)]
pub struct Shape {
    /// The number of generals, at most 13.
    pub generals: u32,
    /// The number of the commander.
    pub commander: u32,
    /// The number of the general who relays.
    pub general: u32,
    /// The round, from 1 to 5.
    pub round: u32,
}
