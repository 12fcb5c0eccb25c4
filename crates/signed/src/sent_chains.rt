//! Keeps the chains that were sent in the closed rounds, by round and sender.
ghost use Rattle.std.specs.Prelude.{◌≡◌, ◌≤◌, map, length};
ghost use Rattle.signed.specs.Sending.{dispatch_of};

use crate::chain::Chain;
use std::marker::Model;

/// The chains that one general sent in a round, at most 8, in the order of his outbox's entries. With each chain goes
/// the set of its receivers, in which bit g is set for general g.
#[derive(Drop)]
pub struct Sending {
    pub(crate) chains: Vec<(Chain, u16)>,
}

impl Model for Sending {
    ghost use Rattle.std.specs.Prelude.{◌≤◌, List, map, length};
    ghost use Rattle.signed.specs.Entries.{Dispatch};
    ghost use Rattle.signed.specs.Sending.{dispatch_of};

    ghost Value = { List Dispatch };

    ghost view = { λ s. map dispatch_of s.chains.items };

    ghost invariant = { λ s. length s.chains.items ≤ 8 };
}

impl Sending {
    /// Returns the chains, each with the set of its receivers, in which bit g is set for general g.
    pub fn chains(&self) -> &[(Chain, u16)]
        ensures same { map dispatch_of result.now ≡ self.now }
        ensures few { length result.now ≤ 8 }
    {
        self.chains.as_slice()
    }
}

/// The chains that were sent in a round, by sender. There are at most 13 senders.
#[derive(Drop)]
pub struct SentRound {
    pub(crate) sendings: Vec<Sending>,
}

impl Model for SentRound {
    ghost use Rattle.std.specs.Prelude.{◌≤◌, List, length};
    ghost use Rattle.signed.specs.Entries.{Dispatch};

    ghost Value = { List (List Dispatch) };

    ghost view = { λ r. r.sendings.items };

    ghost invariant = { λ r. length r.sendings.items ≤ 13 };
}

impl SentRound {
    /// Returns the chains of each sender, ascending by sender.
    pub fn sendings(&self) -> &[Sending]
        ensures same { result.now ≡ self.now }
        ensures few { length result.now ≤ 13 }
    {
        self.sendings.as_slice()
    }
}
