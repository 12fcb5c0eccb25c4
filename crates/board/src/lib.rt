//! Implements the board, 64 words that traitors share, with the ledger of all its accesses. It also defines the words
//! by which texts and pictures describe a request.
#![tactic(auto)]

mod access;
mod board;
mod equality;
mod kept_facts;
mod laws;
mod wording;
mod words;

pub use access::Access;
pub use board::Board;
pub use kept_facts::recall_board;
pub use laws::boards_serve;
pub use wording::{Wording, numbers, span, worded, wordings};
