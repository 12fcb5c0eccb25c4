//! The statements in a traitor's program.

/// What a statement sends: an order, or the chain at an index.
#[derive(Clone, Copy)]
pub enum LieValue {
    /// This order, or the chain at this index.
    Number(u8),
    /// The parity of the board's count before the traitor incremented it: 0 or 1, as an order or an index.
    Parity,
}

/// A statement of a traitor's program, which sends something.
#[derive(Clone, Copy)]
pub enum Lie {
    /// Relays to this receiver, for each label, the order that the traitor took.
    Honest(u8),
    /// Sends this receiver this order for each label.
    Sway(u8, LieValue),
    /// Signs this order and sends it to these receivers. Bit `g` of the set is for general `g`.
    Sign(LieValue, u16),
    /// Signs the chain that the traitor holds at this index and sends it to these receivers. Bit `g` of the set is for
    /// general `g`.
    Pass(LieValue, u16),
}
