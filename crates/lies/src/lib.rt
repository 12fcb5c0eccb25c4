//! Whether traitors, whatever they say, break IC1 or IC2: the shortest break by OM(m) as a message table, or the
//! certificate that there is none. The files in specs/ define both, and how much work the search is.
#![tactic(auto)]

mod aim;
mod attempt;
mod attempts;
mod break_table;
mod break_trees;
mod choice;
mod commanders;
mod cost;
mod found;
mod generals;
mod last_plan;
mod laws;
mod message;
mod places;
mod plan;
mod refusal;
mod search;
mod selection;
mod sender;
mod steps;
mod votes;

pub use break_table::{BreakTable, shortest_break};
pub use laws::{rules_project, two_orders_suffice};
pub use places::most_places;
pub use refusal::BreakError;
pub use steps::estimate;
