//! Defines a campaign that was played with threads, before its chronicle is made.
use arrayvec::ArrayVec;
use board::Access;
use round::Round;

/// A campaign that was played with threads, and whose ledger accounts for its letters.
#[derive(Drop)]
pub struct AccountedCampaign<D> {
    /// The accesses of the traitors' programs, in the board's order.
    pub accesses: Vec<Access>,
    /// The letters by round, within a round ascending by general.
    pub rounds: Vec<Round>,
    /// What these letters have delivered.
    pub told: D,
    /// The lieutenants' decisions, ascending by lieutenant.
    pub decisions: ArrayVec<u32, 12>,
}
