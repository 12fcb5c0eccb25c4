//! Combines a list of orders into one order, by a rule: majority or median (TOPLAS 1982, section 3).
#![tactic(auto)]

mod campaign_rule;
mod laws;
mod orders;
mod outcome;
mod rule;

pub use campaign_rule::{Majority, Median, Rule};
pub use laws::{median_is_middle, names_are_words, no_majority_is_retreat, outcomes_combine};
pub use outcome::Outcome;
pub use rule::Combine;
