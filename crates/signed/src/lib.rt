//! Plays campaigns with signed messages by SM(m): makes chains of signatures, decisions and chronicles. The definitions
//! are in specs/.
#![tactic(auto)]

mod acceptance;
mod accepted_chains;
mod briefing;
mod campaign;
mod chain;
mod chain_log;
mod chronicle;
mod dispatch;
mod entries;
mod explanation;
mod held_chains;
mod judgement;
mod laws;
mod letter_sendings;
mod loyal_letters;
mod open_round;
mod opening;
mod outset;
mod plays;
mod round_drafts;
mod sent_chains;
mod sets;
mod signed_world;
mod signer;

pub use accepted_chains::bringing_in;
pub use campaign::{play_signed, replay_signed};
pub use chain::Chain;
pub use chain_log::ChainLog;
pub use chronicle::SignedChronicle;
pub use explanation::{explain_one_signed, explain_signed};
pub use held_chains::Held;
pub use laws::{
    accepted_orders_decide, chains_are_few, chains_are_unforged, held_chains_are_few,
    loyal_entries_are_sent, signed_accounts_are_runs, signed_activations_are_safe,
    signed_agreement, signed_entries_are_sent, signed_ledgers_are_legal, signed_ledgers_decide,
    signed_lists_are_complete, signed_refusals_change_nothing, signed_runs_are_accounted,
    signed_runs_are_replays, signed_verdicts_mean, signed_worlds_agree, whatever_traitors_write,
};
pub use signed_world::SignedWorld;
pub use signer::Signer;
