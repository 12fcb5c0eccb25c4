//! Computes with known bits of words: from the known bits of an operation's operands, it computes the known bits of
//! the result.
#![tactic(auto)]

pub mod bits;
pub mod operations;

pub use bits::Bits;
