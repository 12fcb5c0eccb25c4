//! Implements a board that threads share. A lock protects it, and one history has all accesses that it has replied
//! to.
#![tactic(auto)]

mod desk;
mod law;
mod room;
mod shared_board;
mod witness;

pub use room::Room;
pub use shared_board::{SharedBoard, Unshared};
pub use witness::Witness;
