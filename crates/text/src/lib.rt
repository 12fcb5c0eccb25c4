//! Cuts texts at a given kind of byte, splits them into pieces and lines, and reads written numbers. A text is a list
//! of bytes.
#![tactic(auto)]

mod base;
mod laws;
mod number;
mod parts;
mod stop;

pub use base::Base;
pub use laws::digits_are_worth;
pub use number::{decimal, digit, digits, magnitude};
pub use parts::{cut, find, line, piece};
pub use stop::{DOT, FEED, SPACE, Stop};
