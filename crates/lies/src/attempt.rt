//! Attempts: what traitors try to bring about under a commander.

use crate::aim::Aims;
use crate::sender::Sender;

/// The commander's part in a campaign, and what loyal lieutenants are to decide so that IC1 or IC2 is broken.
#[derive(Clone, Copy)]
pub struct Attempt {
    /// The commander.
    pub sender: Sender,
    /// What one or two lieutenants are to decide.
    pub aims: Aims,
}

/// An attempt that succeeds, and what it costs.
#[derive(Clone, Copy)]
pub struct Success {
    /// The attempt.
    pub attempt: Attempt,
    /// How many orders other than RETREAT traitors send to loyal generals.
    pub attacks: u32,
}
