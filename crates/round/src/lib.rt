//! Plays the rounds of a campaign: defines the scenario with its generals and their programs, makes the letters of a
//! round, delivers them to the lieutenants' trees, and runs a traitor's program for one round.
#![tactic(auto)]

mod accesses;
mod code;
mod delivery;
mod front;
mod laws;
mod letter;
mod letter_facts;
mod life;
mod loyalty;
mod origin;
mod round;
mod run;
mod scenario;
mod scenario_facts;
mod seat;
mod server;
mod tellers;
mod told_trees;
mod turns;

pub use code::same_code;
pub use delivery::deliver;
pub use laws::{
    contexts_tell, loyal_letters_follow, outboxes_tell, patience_is_kept, runs_are_safe,
    runs_follow_answers, runs_have_one_end,
};
pub use letter::Letter;
pub use life::{live, live_in};
pub use loyalty::{loyal_letter, loyal_letter_with, shape_told};
pub use origin::{are_letters_of, are_rounds_of};
pub use round::Round;
pub use run::Running;
pub use scenario::Scenario;
pub use seat::Player;
pub use server::Server;
pub use told_trees::{Received, context_for};
