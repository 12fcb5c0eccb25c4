//! Which votes a general may cast, and what they mean for the label that he extends.
ghost use Rattle.std.specs.Prelude.{◌≡◌};
ghost use Rattle.label.specs.Labels.{on};
ghost use Rattle.lies.specs.Plans.{all_votes, may_cast, may_vote, next_aim, next_aims, vote_of};

use crate::aim::{Aim, Aims};
use crate::choice::Vote;
use crate::generals::is_among;
use crate::sender::Sender;

/// Returns all votes of orders 0 and 1.
#[tactic(auto, unfolding(crate::specs::Plans::all_votes))]
pub(crate) fn all_votes() -> [Vote; 8]
    ensures { result ≡ all_votes }
{
    [
        vote_of(0, 0, 0),
        vote_of(0, 0, 1),
        vote_of(0, 1, 0),
        vote_of(0, 1, 1),
        vote_of(1, 0, 0),
        vote_of(1, 0, 1),
        vote_of(1, 1, 0),
        vote_of(1, 1, 1),
    ]
}

/// Returns the vote of a general who takes the order `taken`, and for whom the lieutenants count these orders.
fn vote_of(taken: u32, first: u32, second: u32) -> Vote
    ensures { result ≡ vote_of taken first second }
{
    Vote {
        taken,
        first,
        second,
    }
}

/// Returns whether the general may vote like this about a label of this sender.
pub(crate) fn may_cast(
    sender: Sender,
    traitors: &[u8],
    aims: &Aims,
    general: u8,
    vote: &Vote,
) -> bool
    ensures { result ≡ may_cast sender (on traitors.now) aims.now general vote.now }
{
    sender.may_send(is_among(traitors, general), vote.taken)
        && may_vote(aims.first, general, vote.taken, vote.first)
        && may_vote(aims.second, general, vote.taken, vote.second)
}

/// Returns whether the general, who took the order `taken`, may vote like this in the list of the lieutenant aimed at.
fn may_vote(aim: Option<Aim>, general: u8, taken: u32, vote: u32) -> bool
    ensures { result ≡ may_vote aim general taken vote }
{
    match aim {
        None => vote == 0,
        Some(aim) => aim.general != general || vote == taken,
    }
}

/// Returns the aims for the label that the general extends, if he votes like this.
pub(crate) fn next_aims(aims: &Aims, general: u8, vote: &Vote) -> Aims
    ensures { result ≡ next_aims aims.now general vote.now }
{
    Aims {
        first: next_aim(aims.first, general, vote.first),
        second: next_aim(aims.second, general, vote.second),
    }
}

/// Returns the aim for the label that the general extends, whose vote in the list of the lieutenant aimed at is `vote`.
fn next_aim(aim: Option<Aim>, general: u8, vote: u32) -> Option<Aim>
    ensures { result ≡ next_aim aim general vote }
{
    match aim {
        Some(aim) if aim.general != general => Some(Aim {
            general: aim.general,
            order: vote,
        }),
        _ => None,
    }
}
