//! Implements the shared board: creates it with a witness (a permission) for each thread, makes accesses, and returns
//! the board at the end.
ghost use Rattle.std.specs.Prelude.{◌≡◌, ◌<◌, ◌≤◌, [], true, All, length, IfOk, OnErr};
ghost use mathlib.Core.List.{IsPrefix};
ghost use Rattle.semantics.specs.Call.{fits};
ghost use Rattle.semantics.specs.Replies.{words_in};
ghost use Rattle.board.specs.Board.{IsLegal, words_after};
ghost use Rattle.board.specs.Requests.{IsReplyTo};
ghost use Rattle.shared_board.specs.Witnessed.{Serves};

use crate::desk::Desk;
use crate::law::{Beginning, Head};
use crate::room::Room;
use crate::witness::Witness;
use board::Board;
use logbook::{Seen, Start};
use semantics::{Reply, Request};
use std::alloc::{AllocError, Global};
use std::marker::{Model, PhantomData};
use std::sync::ledger::Blank;
use std::sync::{Mutex, Wait};

/// A board without accesses that is not shared yet. No type names its history.
#[derive(Drop)]
pub struct Unshared {
    board: Board,
    head: Head,
    history: Beginning,
    blank: Blank,
}

impl Model for Unshared {
    ghost use Rattle.std.specs.Prelude.{◌≡◌, []};
    ghost use Rattle.shared_board.specs.History.{head_of};
    ghost use Rattle.shared_board.specs.Witnessed.{UnsharedSeen};

    ghost Value = { UnsharedSeen };

    ghost view = { λ u. record {
      opening = u.board.opening;
      book = u.history.book;
      name = u.blank.name;
      parts = u.blank.parts;
    } };

    ghost invariant = { λ u. (u.board.ledger ≡ []) × (u.head ≡ head_of u.history.book) × (u.history.log ≡ []) };
}

impl Unshared {
    /// Prepares a board to be shared by `threads` threads. The board must have had no access.
    pub fn new(board: Board, threads: u8) -> Unshared
        requires { board.ledger ≡ [] }
        ensures opening { result.opening ≡ board.opening }
        ensures parts { result.parts ≡ threads }
    {
        let (history, mut first, _second) = Seen::open(Start::alone(), 0, 0);
        Unshared {
            board,
            head: Head::tracked(0, &mut first),
            history,
            blank: Blank::new(u64::from(threads)),
        }
    }
}

/// A board that threads share, protected by a lock. Its type names the history of all accesses that it has replied
/// to. Whenever the lock is free, the board's ledger equals this history and is legal: each answer is the board's.
#[derive(Drop)]
pub struct SharedBoard<J: Room> {
    desk: Mutex<Desk<J>>,
}

impl<J: Room> SharedBoard<J> {
    /// Shares a board. The type `J` names it, so that no witness of another board fits. Returns the shared board, and
    /// one witness (a permission to make accesses) for each of the `threads` threads.
    ///
    /// # Errors
    ///
    /// Fails with `AllocError` if there is no memory for the list of witnesses.
    pub fn new(
        alloc: Global,
        unshared: Unshared,
        threads: u8,
    ) -> Result<(SharedBoard<J>, Vec<Witness<J>>), AllocError>
        requires book { unshared.book ≡ J.book }
        requires opening { unshared.opening ≡ J.opening }
        requires ledger { (unshared.name ≡ J.name) × (unshared.parts ≡ J.parts) }
        requires threads { unshared.parts ≡ threads }
        ensures count { IfOk result (λ r. length r.1.items ≡ threads) }
        ensures fresh { IfOk result (λ r. All (λ w. (w.seen ≡ []) × (w.made ≡ 0)) r.1.items) }
    {
        let Unshared {
            board,
            head,
            history,
            blank,
        } = unshared;
        let (served, mut all) = blank.open::<J>();
        let mut witnesses = Vec::with_capacity(alloc, usize::from(threads))?;
        for _ in 0..threads {
            witnesses.push(Witness {
                seen: history.again(),
                share: all.split_off(1, 0),
                of: PhantomData,
            })?;
        }
        let desk = Desk {
            board,
            head,
            history,
            served,
        };
        Ok((
            SharedBoard {
                desk: Mutex::new(desk),
            },
            witnesses,
        ))
    }

    /// Waits for the lock, replies to a general's request in a round, and appends the access to the history.
    ///
    /// Exactly one access is appended, after all accesses that the witness has seen. The reply is the board's at this
    /// point of the history.
    ///
    /// # Errors
    ///
    /// Fails with `AllocError` if there is no memory for the reply or the history's entry. The board and the witness
    /// are then unchanged.
    pub fn apply<R: Wait>(
        &self,
        rt: &R,
        me: &mut Witness<J>,
        general: u32,
        round: u32,
        request: Request,
    ) -> Result<Reply, AllocError>
        ensures serves { IfOk result (λ r. Serves J.opening me.old general round request (words_in r) me.new) }
        ensures fits { IfOk result (λ r. fits request (words_in r) ≡ true) }
        ensures form { IfOk result (λ r. IsReplyTo request r) }
        ensures unserved { OnErr result (me.new ≡ me.old) }
    {
        self.desk.lock(rt).serve(rt, me, general, round, request)
    }

    /// Consumes the shared board, and returns the board with the ledger of all its accesses. The ledger is legal:
    /// each answer is the board's. It begins with the accesses that the witness has seen.
    pub fn into_board<R: Wait>(self, rt: &R, witness: Witness<J>) -> Board
        ensures opening { result.opening ≡ J.opening }
        ensures legal { IsLegal result.opening result.ledger }
        ensures left { result.words ≡ words_after result.opening result.ledger }
        ensures met { IsPrefix witness.seen result.ledger }
    {
        let SharedBoard { desk } = self;
        let board = desk.into_inner().into_board(rt, witness);
        let (_legal, _left) = (board.ledger(), board.words());
        board
    }
}
