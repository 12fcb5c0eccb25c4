//! How a campaign ends: what the lieutenants decide, and the verdict.
use world::Verdict;

/// The end of a campaign: the lieutenants' decisions, and the verdict on them.
#[derive(Drop)]
pub struct CampaignEnding {
    /// The verdict on the decisions.
    pub verdict: Verdict,
    /// The decisions of the lieutenants, in ascending order of the lieutenants' numbers.
    pub decisions: Vec<u32>,
}
