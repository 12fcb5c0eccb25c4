//! The helpers that programs call: their numbers, the arguments that they accept, and the numbers that they return.
#![tactic(auto)]

mod argument;
mod laws;
pub mod reads;
mod table;

pub use argument::{Argument, BOARD_WORDS, MOST_GENERALS, MOST_HELD, MOST_LABELS, RECEIVER_SETS};
pub use laws::calls_trap_by_the_table;
pub use semantics::{Helper, Reply, Request, Slot, Span};
pub use table::{arguments, helper_of, result};
