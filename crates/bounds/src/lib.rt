//! Proves how many traitors can be tolerated. The bound of the agreement theorem is tight for every rule, and the
//! tolerance of OM(m) with the majority rule is exact. The files in specs/ define both.
#![tactic(auto)]

mod asked_table;
mod group;
mod laws;
mod refusal;
mod refutation;
mod story;
mod story_trees;
mod table_writer;

pub use asked_table::refuted;
pub use group::group_of;
pub use laws::{
    bound_is_tight, bound_is_tolerable, denial_breaks, division_breaks, om_is_decision_rule,
    stories_are_admissible, stories_break, tolerance, tolerance_is_exact, two_order_rules_agree,
};
pub use refusal::RefutationError;
pub use refutation::first_broken;
pub use story::Story;
pub use table_writer::story_table;
