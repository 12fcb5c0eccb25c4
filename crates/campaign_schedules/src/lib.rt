//! Makes schedules of oral and signed campaigns: from a chronicle, from a list of accesses, or from a seed.
#![tactic(auto)]

mod access_list;
mod arrangement;
mod fault;
mod laws;
mod plan;
mod random_schedule;
mod schedules;

pub use arrangement::{arranged, signed_arranged};
pub use fault::{AccessFault, AccessesError};
pub use laws::{kept_schedules_play, schedules_are_read};
pub use random_schedule::seeded;
pub use schedules::{retraced, schedule_of, signed_retraced, signed_schedule_of};
