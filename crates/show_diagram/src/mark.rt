//! Defines the kinds of marks in a diagram, which its legend explains.

/// Which kinds of marks occur in a diagram, so that its legend explains these and no others.
#[derive(Clone, Copy, Drop)]
pub struct DiagramMarks {
    /// Whether circles with plain lines occur: messages that are as they should be.
    pub circle: bool,
    /// Whether diamonds with dashed lines occur: orders that were sent, although something else should have been
    /// sent.
    pub diamond: bool,
    /// Whether crosses with dotted lines occur: nothing was sent, although something should have been sent.
    pub cross: bool,
    /// Whether squares occur: they mark traitors.
    pub square: bool,
    /// Whether circles occur at names: they mark loyal generals.
    pub loyal: bool,
    /// Whether points occur: they mark accesses to the board.
    pub point: bool,
}
