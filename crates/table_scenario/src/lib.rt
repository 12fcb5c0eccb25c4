//! Writes a message table as a scenario that can be played: the program of each traitor sends the orders that the table
//! says he sent. The files in specs/ define the text.
#![tactic(auto)]

mod dotted_label;
mod programs;
mod writer;

pub use writer::{is_short, scenario_of};
