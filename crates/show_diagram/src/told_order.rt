//! Defines a message that a lieutenant received for one label.

/// A message that one general sent another for one label, or did not send. It does not contain the label, so messages
/// for different labels can be equal.
#[derive(Clone, Copy, PartialEq, Eq, Hash, Drop)]
pub struct Telling {
    /// The round, counted from 1.
    pub round: usize,
    /// The general who sent the message, or should have sent it.
    pub teller: u8,
    /// The order that was sent, or `None` if none was sent. 0 is RETREAT.
    pub told: Option<u32>,
    /// Whether a faithful general would have sent something else.
    pub differs: bool,
}
