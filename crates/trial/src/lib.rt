//! Runs trials: one program in one round, in a setting that a text describes (the general, the orders that he took,
//! and the board). Reports the result, traces the run step by step, or lists the calls that have no effect.
#![tactic(auto)]

mod fault;
mod held_chains;
mod helper_call;
mod keys;
mod laws;
mod letter_replay;
mod lines;
mod noted_step;
mod notes;
mod orders;
mod place;
mod program_run;
mod reader;
mod reasons;
mod relayed_labels;
mod run_slips;
mod setting;
mod steps;
mod trace_laws;
mod traced_run;
mod turn;
mod values;
mod words;

pub use fault::{SettingError, SettingFault};
pub use helper_call::HelperCall;
pub use laws::{contexts_are_settings, trials_are_runs, trials_end};
pub use letter_replay::letter_slips;
pub use lines::{first_lines, tried};
pub use notes::{campaign_notes, trial_notes};
pub use place::{SettingKey, SettingPlace};
pub use program_run::{Exited, run_in, run_on};
pub use reader::read;
pub use run_slips::slips;
pub use setting::Setting;
pub use trace_laws::{reasons_hold, traces_are_trials};
pub use traced_run::traced;
