//! Computes what lieutenants decide from the messages in their trees (TOPLAS 1982, algorithm OM(m)).
#![tactic(auto)]

mod halves;
mod level;
mod recursion;

pub use halves::resolve_all;
pub use recursion::resolve;
