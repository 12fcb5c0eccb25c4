//! Defines what the lock of a shared board protects: the board, the length of the history of accesses, and a count of
//! accesses.
ghost use Rattle.std.specs.Prelude.{◌≡◌, ◌<◌, ◌^◌, ◌++◌, ◌∷◌, [], suc, true, length, IsTrue, IfOk, OnOk, OnErr};
ghost use mathlib.Core.List.{IsPrefix};
ghost use Rattle.semantics.specs.Call.{fits};
ghost use Rattle.semantics.specs.Replies.{words_in};
ghost use Rattle.board.specs.Board.{Access as Entry, reply, next};
ghost use Rattle.board.specs.Requests.{IsReplyTo};
ghost use Rattle.shared_board.specs.History.{head_of, IsEntered};
ghost use Rattle.shared_board.specs.Witnessed.{Serves};

use crate::law::{Beginning, Enter, Head, Law, Look, Nothing};
use crate::room::Room;
use crate::witness::Witness;
use board::{Access, Board};
use logbook::Offer;
use semantics::{Reply, Request};
use std::alloc::AllocError;
use std::marker::Model;
use std::sync::Wait;
use std::sync::ledger::Book;

/// What the lock of a shared board protects: the board, the history of its accesses, which equals the board's ledger,
/// and the number of accesses made by witnesses (the threads' permissions).
#[derive(Drop)]
pub(crate) struct Desk<J: Room> {
    pub(crate) board: Board,
    pub(crate) head: Head,
    pub(crate) history: Beginning,
    pub(crate) served: Book<J>,
}

impl<J: Room> Model for Desk<J> {
    ghost use Rattle.std.specs.Prelude.{◌≡◌, length};
    ghost use Rattle.board.specs.Ledger.{RecordedBoard};
    ghost use Rattle.shared_board.specs.History.{head_of};

    ghost Value = { RecordedBoard };

    ghost view = { λ d. d.board };

    ghost invariant = { λ d. (d.head ≡ head_of J.book) × (d.history.book ≡ J.book) × (d.history.log ≡ d.board.ledger)
        × (d.board.opening ≡ J.opening) × (d.served.total ≡ length d.board.ledger) };
}

impl<J: Room> Desk<J> {
    /// Replies to a general's request in a round as the board does, and appends the access to the history. Fails with
    /// `AllocError` if memory runs out, and then changes nothing.
    pub(crate) fn serve<R: Wait>(
        &mut self,
        rt: &R,
        me: &mut Witness<J>,
        general: u32,
        round: u32,
        request: Request,
    ) -> Result<Reply, AllocError>
        ensures serves { IfOk result (λ r. Serves J.opening me.old general round request (words_in r) me.new) }
        ensures answer { IfOk result (λ r. words_in r ≡ reply self.old.words request) }
        ensures fits { IfOk result (λ r. fits request (words_in r) ≡ true) }
        ensures form { IfOk result (λ r. IsReplyTo request r) }
        ensures entered { OnOk result
            (self.new.ledger ≡ self.old.ledger ++ record {
              general = general;
              round = round;
              request = request;
              reply = reply self.old.words request;
            } ∷ []) }
        ensures seen { OnOk result (me.new.seen ≡ self.new.ledger) }
        ensures later { OnOk result (IsPrefix me.old.seen self.old.ledger) }
        ensures once { OnOk result (me.new.made ≡ suc me.old.made) }
        ensures unserved { OnErr result ((self.new ≡ self.old) × (me.new ≡ me.old)) }
    {
        let (_words, count) = (self.board.words(), self.board.ledger().len());
        let reply = self.board.apply(general, round, request)?;
        let mut seen = self.history.again();
        seen.learn(&me.seen);
        let is_entered = enter(
            &self.head,
            count as u64,
            &mut seen,
            &self.board.ledger()[count],
        );
        // Only the holder of the lock enters accesses, so the history is never longer. The contract of `logbook` does
        // not say so.
        if !is_entered {
            for _ in rt.forever() {}
            unreachable!()
        }
        self.served.add(&mut me.share, 1);
        me.seen = seen.again();
        self.history = seen;
        Ok(reply)
    }

    /// Consumes the state and returns the board. The board's ledger begins with the accesses that the witness, a
    /// thread's permission to make accesses, has seen.
    pub(crate) fn into_board<R: Wait>(self, rt: &R, witness: Witness<J>) -> Board
        ensures same { result ≡ self }
        ensures opening { result.opening ≡ J.opening }
        ensures met { IsPrefix witness.seen result.ledger }
    {
        let Desk {
            board,
            head,
            mut history,
            ..
        } = self;
        let Witness { seen, .. } = witness;
        history.learn(&seen);
        let count = look(&head, &mut history);
        if count != board.ledger().len() as u64 {
            // This cannot happen, for the reason given in `serve`.
            for _ in rt.forever() {}
            unreachable!()
        }
        board
    }
}

/// Returns the length of the history, that is, its number of accesses. After that, all of them count as seen.
fn look(head: &Head, seen: &mut Beginning) -> u64
    requires head { head.now ≡ head_of seen.old.book }
    ensures book { seen.new.book ≡ seen.old.book }
    ensures later { IsPrefix seen.old.log seen.new.log }
    ensures all { length seen.new.log ≡ result }
{
    let mut offer: Offer<Access, u64, Law, Nothing> = seen.plain::<Nothing, (), Look>(&());
    head.load::<Look, Nothing>(seen, &mut offer)
}

/// Appends an access to the history after exactly `count` others. Returns false, and appends nothing, if the history
/// has another length.
fn enter(head: &Head, count: u64, seen: &mut Beginning, access: &Access) -> bool
    requires head { head.now ≡ head_of seen.old.book }
    requires count { count < 2 ^ 63 }
    ensures book { seen.new.book ≡ seen.old.book }
    ensures entered { IsTrue result → IsEntered seen.old.log count access.now seen.new.log }
{
    let mut offer: Offer<Access, u64, Law, Nothing> = seen.plain::<Nothing, Access, Enter>(access);
    let mut pen = seen.no_pen();
    let found = head.compare_exchange::<Enter, Nothing>(
        count,
        count + 1,
        seen,
        &mut offer,
        &mut pen,
    );
    found == count
}
