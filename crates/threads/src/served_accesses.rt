//! Keeps the accesses that the board served to one general for one task. He has passed a gate before each.
ghost use Rattle.std.specs.Prelude.{◌≡◌, ◌++◌, ◌∷◌, ◌==◌, ◌<◌, [], true, count_by, vec_len, vec_capacity, IfOk, OnOk, OnErr};
ghost use Rattle.semantics.specs.Call.{fits};
ghost use Rattle.semantics.specs.Replies.{words_in};
ghost use Rattle.board.specs.Requests.{IsReplyTo};
ghost use Rattle.shared_board.specs.Witnessed.{Serves};

use crate::gate::Gate;
use board::Access;
use semantics::{Reply, Request};
use shared_board::{Room, SharedBoard, Witness};
use std::alloc::{AllocError, Global};
use std::marker::Model;
use std::snapshot::Snapshot;
use std::sync::Wait;

/// Evidence that a general has passed a gate for his access number `nth` of a round, counted from 0. Only
/// `Passed::gate` creates one.
#[derive(Drop)]
pub(crate) struct Passed {
    general: u32,
    round: u32,
    nth: u64,
}

impl Passed {
    /// Waits at `gate` before the general's access number `nth` of this round, counted from 0. Returns evidence that he
    /// has passed.
    pub(crate) fn gate<G: Gate>(gate: &G, general: u32, round: u32, nth: u64) -> Passed
        ensures general { result.general ≡ general }
        ensures round { result.round ≡ round }
        ensures nth { result.nth ≡ nth }
        ensures passed { G.passed gate.now general round nth }
    {
        gate.before_access(general, round, nth);
        Passed {
            general,
            round,
            nth,
        }
    }

    /// Has the board serve the access, under its lock. Returns the reply and the served access, which must then be
    /// entered into the general's list (`Made::enter`).
    ///
    /// # Errors
    ///
    /// `AllocError` if an allocation fails. Then nothing was served.
    pub(crate) fn apply<R: Wait, J: Room>(
        self,
        rt: &R,
        board: &SharedBoard<J>,
        me: &mut Witness<J>,
        request: Request,
    ) -> Result<(Reply, Unentered), AllocError>
        ensures serves { IfOk result
            (λ r. Serves J.opening me.old self.general self.round request (words_in r.0) me.new) }
        ensures fits { IfOk result (λ r. fits request (words_in r.0) ≡ true) }
        ensures form { IfOk result (λ r. IsReplyTo request r.0) }
        ensures access { IfOk result (λ r. r.1.mark ≡ record {
          general = self.general;
          round = self.round;
          request = request;
          reply = words_in r.0;
        }) }
        ensures nth { IfOk result (λ r. r.1.nth ≡ self.nth) }
        ensures unserved { OnErr result (me.new ≡ me.old) }
    {
        let Passed {
            general,
            round,
            nth,
        } = self;
        let asked = request;
        let reply = board.apply(rt, me, general, round, asked)?;
        let access = Access {
            general,
            round,
            request,
            reply,
        };
        let mark = Mark::new(&access);
        let Access { reply, .. } = access;
        Ok((reply, Unentered { mark, nth }))
    }
}

/// An access that the board has served but that is not yet in its general's list (`Made`), with its number. Only
/// `Passed::apply` creates one, so the general has passed a gate for this number.
#[derive(Drop)]
pub(crate) struct Unentered {
    mark: Mark,
    nth: u64,
}

/// An access that was served: its round, and a snapshot of the whole access for proofs, which takes no memory.
#[derive(Drop)]
struct Mark {
    round: u32,
    whole: Snapshot<Access>,
}

impl Model for Mark {
    ghost use Rattle.std.specs.Prelude.{◌≡◌};
    ghost use Rattle.board.specs.Board.{Access as Entry};

    ghost Value = { Entry };

    ghost view = { λ m. m.whole.value };

    ghost invariant = { λ m. m.round ≡ m.whole.value.round };
}

impl Mark {
    /// Returns the mark of an access: its round, and a snapshot of it for proofs.
    fn new(access: &Access) -> Mark
        ensures { result ≡ access.now }
    {
        Mark {
            round: access.round,
            whole: Snapshot::of(access),
        }
    }

    /// Returns the round of the access.
    fn round(&self) -> u32
        ensures { result ≡ self.now.round }
    {
        self.round
    }
}

/// The accesses that the board has served to a general for one task, in order. Before each of them he has passed a
/// gate.
#[derive(Drop)]
pub(crate) struct Made {
    accesses: Vec<Mark>,
}

impl Made {
    /// Returns an empty list of accesses.
    pub(crate) fn new(alloc: Global) -> Made
        ensures { result.accesses.items ≡ [] }
    {
        Made {
            accesses: Vec::new(alloc),
        }
    }

    /// Returns how many accesses of this round are in the list.
    pub(crate) fn count(&self, round: u32) -> u64
        ensures { result ≡ count_by (λ a. a.round == round) self.now.accesses.items }
    {
        self.accesses
            .iter()
            .filter(|mark| mark.round() == round)
            .count() as u64
    }

    /// Makes room for one more access.
    ///
    /// # Errors
    ///
    /// `AllocError` if an allocation fails.
    pub(crate) fn make_room(&mut self) -> Result<(), AllocError>
        ensures same { self.new.accesses.items ≡ self.old.accesses.items }
        ensures room { OnOk result (vec_len self.new.accesses < vec_capacity self.new.accesses) }
    {
        self.accesses.reserve(1)
    }

    /// Appends a served access, for which there must be room. Its number must be the count of the accesses of its round
    /// that are already in the list.
    pub(crate) fn enter(&mut self, unentered: Unentered)
        requires room { vec_len self.old.accesses < vec_capacity self.old.accesses }
        requires nth { unentered.nth ≡ count_by (λ a. a.round == unentered.mark.round) self.old.accesses.items }
        ensures { self.new.accesses.items ≡ self.old.accesses.items ++ unentered.mark ∷ [] }
    {
        let Unentered { mark, .. } = unentered;
        self.accesses.push_reserved(mark);
    }
}
