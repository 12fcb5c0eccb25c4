//! Defines the witness of a thread: its permission to make accesses, and what it knows of the shared board's history.
ghost use Rattle.std.specs.Prelude.{◌≡◌};
ghost use mathlib.Core.List.{IsPrefix};

use crate::law::Beginning;
use crate::room::Room;
use std::marker::{Model, PhantomData};
use std::sync::ledger::Share;

/// A thread's permission to make accesses to one shared board. It takes no bytes at run time. Contracts see it as the
/// prefix of the board's history that it has seen, and the number of accesses made with it.
#[derive(Drop)]
pub struct Witness<J: Room> {
    pub(crate) seen: Beginning,
    pub(crate) share: Share<J>,
    pub(crate) of: PhantomData<J>,
}

impl<J: Room> Model for Witness<J> {
    ghost use Rattle.std.specs.Prelude.{◌≡◌};
    ghost use Rattle.shared_board.specs.Witnessed.{Witnessed};

    ghost Value = { Witnessed };

    ghost view = { λ w. record { seen = w.seen.log; made = w.share.amount } };

    ghost invariant = { λ w. (w.seen.book ≡ J.book) × (w.share.parts ≡ 1) };
}

impl<J: Room> Witness<J> {
    /// Adds to this witness what another witness of the same board has seen of the history.
    pub fn learn(&mut self, other: &Witness<J>)
        ensures mine { IsPrefix self.old.seen self.new.seen }
        ensures theirs { IsPrefix other.now.seen self.new.seen }
        ensures made { self.new.made ≡ self.old.made }
    {
        self.seen.learn(&other.seen);
    }
}
