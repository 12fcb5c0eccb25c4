//! Plays a campaign event by event, and judges the lieutenants' decisions. The world is the state of a campaign. The
//! definitions are in specs/.
#![tactic(auto)]

mod campaign;
mod chronicle;
pub mod draft;
mod event;
pub mod judgement;
mod laws;
pub mod letters;
mod opening;
mod outcome;
mod part;
pub mod parts;
mod played;
mod plays;
mod schedule;
mod verdict;
mod world;
mod world_view;

pub use campaign::{play, replay};
pub use chronicle::Chronicle;
pub use event::{Event, EventError};
pub use laws::{
    accounts_are_runs, activations_are_runs, activations_are_safe, bound_suffices, decisions_agree,
    idle_events_change_nothing, ledgers_are_legal, ledgers_decide, lists_are_complete,
    parts_are_placed, refusals_change_nothing, runs_are_accounted, runs_are_replays, verdicts_mean,
    worlds_agree,
};
pub use part::Progress;
pub use played::{names_played, round_finished, round_played, rounds_played, schedule_played};
pub use plays::PlayableWorld;
pub use schedule::{Repeat, Schedule, ScheduleLine};
pub use verdict::Verdict;
pub use world::World;
