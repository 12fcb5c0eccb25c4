//! Plays campaigns with one thread for each general (`muster`). The threads put their generals' letters into a shared
//! queue, the post. `gather` checks the letters against the board's ledger.
#![tactic(auto)]

mod account;
mod accounted_campaign;
mod answers;
mod arrangement;
mod camp;
mod claim;
mod collection;
mod collector;
mod conclusion;
mod conductor;
mod delivered;
mod ending;
mod error;
mod failed_muster;
mod failure;
mod gate;
mod general_end;
mod halt;
mod inbox;
mod knowledge;
mod ledger_letters;
mod musters;
mod outcomes;
mod post;
mod poster;
mod received;
mod resident;
mod round_letters;
mod rule;
mod served_accesses;
mod session;
mod tally;
mod task;

pub use accounted_campaign::AccountedCampaign;
pub use answers::Unstarted;
pub use claim::{AnyLetter, Claim};
pub use collector::Collector;
pub use conclusion::Unlike;
pub use delivered::Delivered;
pub use error::MusterError;
pub use failed_muster::FailedMuster;
pub use failure::{Failure, Foreign};
pub use gate::{Gate, Open};
pub use general_end::GeneralEnd;
pub use halt::Halt;
pub use ledger_letters::{gather, gather_as};
pub use musters::{STACK, muster, muster_as, muster_with};
pub use outcomes::Outcomes;
pub use post::{Post, PostOf};
pub use poster::Poster;
pub use round_letters::Strayed;
pub use shared_board::{Room, SharedBoard, Unshared, Witness};
pub use tally::{Returned, SomeoneFailed};
pub use task::Task;
