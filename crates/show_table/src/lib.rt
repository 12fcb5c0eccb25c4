//! Turns a campaign into a message table, and explains how its decisions are reached.
#![tactic(auto)]

mod explanation;
mod laws;
mod letter_table;

pub use explanation::{explained, traitors};
pub use laws::runs_are_whole;
pub use letter_table::{hearing, table, told_table};
