//! Defines the verdict on a campaign: whether IC1, IC2 and the bound hold.
/// Whether the loyal lieutenants of a campaign agree (IC1 and IC2 of TOPLAS 1982), and whether the theorem guarantees
/// it.
#[derive(Clone, Copy, PartialEq, Eq)]
pub struct Verdict {
    /// IC1: whether all loyal lieutenants decide on the same order.
    pub alike: bool,
    /// IC2: whether each loyal lieutenant decides on the commander's order. It is `None` if the commander is a traitor.
    pub obeyed: Option<bool>,
    /// Whether the bound holds: there are more generals than three times the bound, and at most as many traitors as the
    /// bound.
    pub bound: bool,
}
