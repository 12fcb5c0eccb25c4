//! What a message table shows: whether the bound, IC1 and IC2 hold.
/// Whether the loyal lieutenants obey the commander's order, which is IC2 (TOPLAS 1982).
#[derive(Clone, Copy)]
pub enum Obedience {
    /// The commander is named as a traitor, so IC2 requires nothing.
    Traitor,
    /// The commander is not named as a traitor, but did not send the same order to all lieutenants.
    Unlike,
    /// The commander is not named as a traitor and sent this order to all lieutenants, and each loyal lieutenant
    /// decides on it.
    Obeyed(u32),
    /// The commander is not named as a traitor and sent this order to all lieutenants, but not each loyal lieutenant
    /// decides on it.
    Disobeyed(u32),
}

/// Whether a message table satisfies IC1 and IC2 if some generals are named as traitors, and whether the bound holds.
#[derive(Clone, Copy)]
pub struct Conditions {
    /// The number of generals who are named as traitors.
    pub named: u8,
    /// Whether the number of generals is more than three times the bound.
    pub enough: bool,
    /// Whether at most `bound` generals are named as traitors.
    pub few: bool,
    /// Whether the bound holds, as the agreement theorem requires: `enough` and `few` are both true.
    pub bound: bool,
    /// Whether all loyal lieutenants decide alike (IC1).
    pub alike: bool,
    /// Whether the loyal lieutenants obey a loyal commander (IC2).
    pub obedience: Obedience,
}
