//! Plays signed campaigns with one thread for each general (`muster_signed`). `gather_signed` checks their letters
//! against the board's ledger.
#![tactic(auto)]

mod conclusion;
mod delivered_chains;
mod gathering;
mod musters;

pub use delivered_chains::DeliveredChains;
pub use gathering::gather_signed;
pub use musters::{muster_signed, muster_signed_with};
