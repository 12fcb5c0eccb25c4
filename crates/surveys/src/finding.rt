//! The result of one campaign in a survey.
use world::Verdict;

/// The result of the campaign that a seed draws.
#[derive(Clone, Copy)]
pub struct Finding {
    /// The seed of the campaign.
    pub seed: u64,
    /// The number of generals.
    pub generals: u8,
    /// The bound: how many traitors the algorithm must tolerate.
    pub bound: u8,
    /// The number of traitors.
    pub traitors: u64,
    /// The verdict on the lieutenants' decisions.
    pub verdict: Verdict,
}
