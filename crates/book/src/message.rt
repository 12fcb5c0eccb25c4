//! A message of a message table: a label, a receiver and an order.
use label::Label;

/// A message: the order that the last general on the label sent to the receiver, as the one that he received along the
/// rest of the label.
#[derive(Drop)]
pub struct Message {
    /// The generals who relayed the order, the commander first.
    pub label: Label,
    /// The number of the general who received the order. He is not on the label.
    pub receiver: u8,
    /// The order, where 0 is RETREAT.
    pub order: u32,
}
