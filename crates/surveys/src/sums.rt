//! Counts of the outcomes of campaigns in a survey.

/// An outcome that is counted in a survey.
#[derive(Clone, Copy, PartialEq, Eq)]
pub enum CampaignOutcome {
    /// The bound holds.
    Kept,
    /// The loyal lieutenants do not decide alike.
    Broken,
    /// Not all loyal lieutenants obey a loyal commander.
    Disobeyed,
}

/// How many campaigns have an outcome, and the least of their seeds, if there are any.
#[derive(Clone, Copy)]
pub struct Tally {
    pub count: u64,
    pub first: Option<u64>,
}

/// How many campaigns there are, and how many of them have each outcome.
#[derive(Clone, Copy)]
pub struct Sums {
    pub campaigns: u64,
    pub kept: Tally,
    pub broken: Tally,
    pub disobeyed: Tally,
}
