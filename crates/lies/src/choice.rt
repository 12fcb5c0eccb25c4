//! Votes and choices: what a plan decides for one general off a label.

/// How a general votes about a label: the order that he takes for it, and the orders that the two lieutenants aimed at
/// count for him in their lists.
#[derive(Clone, Copy, Default)]
pub struct Vote {
    /// The order that he takes for the label.
    pub taken: u32,
    /// The order that the first lieutenant counts for him.
    pub first: u32,
    /// The order that the second lieutenant counts for him.
    pub second: u32,
}

/// A general off a label, his vote, and what it costs the traitors.
#[derive(Clone, Copy, Default)]
pub struct Choice {
    /// The number of the general.
    pub general: u8,
    /// How he votes.
    pub vote: Vote,
    /// How many orders other than RETREAT traitors send for it to loyal generals.
    pub attacks: u32,
}
