//! Defines the strokes of a diagram, which show what one general sent another in a round, and their paths.

/// A stroke, drawn as a line: the equal messages from one general to another in one round. All have the same order, or
/// none of them was sent, and all have the same `differs`.
#[derive(Clone, Copy, Drop)]
pub struct Stroke {
    /// The round, counted from 1.
    pub round: usize,
    /// The general who sent the messages.
    pub teller: u8,
    /// The general who received them.
    pub receiver: u8,
    /// The order that was sent, or `None` if none was sent. 0 is RETREAT.
    pub told: Option<u32>,
    /// Whether a faithful general would have sent something else.
    pub differs: bool,
    /// The number of labels for which this was sent, or in a signed campaign the number of chains.
    pub labels: usize,
    /// The index of the stroke in the list of its round and receiver, counted from 0.
    pub row: usize,
}

/// The path of a stroke in SVG units. It leads from the point (`left`, `top`) to the point (`lane`, `turn`), then down
/// to the y coordinate `row`, and from there to the x coordinate `tip`.
#[derive(Clone, Copy, Drop)]
pub struct StrokePath {
    /// The x coordinate of the sender's column.
    pub left: u128,
    /// The y coordinate at which the stroke begins.
    pub top: u128,
    /// The x coordinate at which the stroke leads down, to the left of the receiver's column.
    pub lane: u128,
    /// The y coordinate from which the stroke leads down.
    pub turn: u128,
    /// The y coordinate of the stroke's row in the receiver's list.
    pub row: u128,
    /// The x coordinate at which the stroke ends, beside the mark of its row.
    pub tip: u128,
}
