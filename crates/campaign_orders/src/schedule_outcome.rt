//! Defines the result of making a schedule for an order of accesses: the schedule, or an access that cannot be made.
use world::{Schedule, ScheduleLine};

/// A schedule's line for one round, or why it cannot be made.
#[derive(Drop)]
pub enum Line {
    /// The line, which has one entry for each access.
    Made(ScheduleLine),
    /// The general at this index of the round's list makes no further access. The index is counted from 0.
    Stuck(usize),
}

/// A schedule for an order of accesses, or why it cannot be made.
#[derive(Drop)]
pub enum Scheduled {
    /// A schedule under which the accesses come in this order.
    By(Schedule),
    /// In this round, the general at this index of the round's list makes no further access. Both are counted from 0.
    Never(usize, usize),
}
