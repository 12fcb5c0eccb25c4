//! Broken campaigns, reduced to the traitors and statements without which they would not be broken.
use crate::plot::Plot;

/// A broken campaign that a seed draws, after its reduction. A campaign is broken if its loyal lieutenants do not
/// decide alike or do not obey a loyal commander. The reduction removes traitors, and statements of their programs,
/// until the removal of any single one would mend the campaign. Another order of removals might leave fewer.
#[derive(Drop)]
pub struct Breach {
    /// The seed that draws the campaign.
    pub seed: u64,
    /// The campaign after its reduction.
    pub plot: Plot,
}

/// The least broken campaign that a search with several numbers of traitors found, after its reduction.
#[derive(Drop)]
pub struct Breaking {
    /// The number of traitors with which the search found the campaign, before its reduction.
    pub traitors: u8,
    /// The campaign after its reduction.
    pub breach: Breach,
}
