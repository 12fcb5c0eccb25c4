//! Marks that say which units last set a register or a cell of the stack before a given unit.

/// What a unit does to a register or cell on its way to a given unit, for which the last setters are searched.
#[derive(Clone, Copy, PartialEq, Eq)]
pub enum UnitMark {
    /// The value after this unit does not reach the given unit: on every path the register or cell is set again, or no
    /// path leads there.
    Closed,
    /// The value before this unit can reach the given unit: the instruction keeps it, and a path leads there on which
    /// it is kept.
    Open,
    /// The instruction of this unit writes the register or changes what is known of the cell, and a path leads to the
    /// given unit on which this value is kept.
    Sets,
}
