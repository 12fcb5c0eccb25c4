//! Defines what programs mean. src has the types of values, stack cells and requests, and specs defines steps, runs,
//! sound programs and plain programs.
#![tactic(auto)]

mod entry;
mod laws;
mod reply;
mod request;
mod value;

pub use entry::Entry;
pub use laws::{
    entries_are_few, few_places_are_set, ranges_are_kept, reached_is_run, reached_is_safe,
    relays_are_few, runs_stay_over, some_are_plain_and_sound, sound_is_safe_at_entry,
    states_stay_whole, steps_are_counted,
};
pub use reply::{Copied, Reply};
pub use request::{Helper, Request, Slot, Span};
pub use value::{Cell, Region, Value};
