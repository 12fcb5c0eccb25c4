//! Aims: which lieutenants are to decide on which orders.

/// A loyal lieutenant, and the order on which he is to decide.
#[derive(Clone, Copy)]
pub struct Aim {
    /// The number of the lieutenant.
    pub general: u8,
    /// The order, 0 or 1.
    pub order: u32,
}

/// What one or two loyal lieutenants are to decide.
#[derive(Clone, Copy)]
pub struct Aims {
    /// The first aim, if there is one.
    pub first: Option<Aim>,
    /// The second aim, if there is one.
    pub second: Option<Aim>,
}
