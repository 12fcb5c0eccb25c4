//! Defines gates, which may hold a general before each access to the board, and the board as a general reaches it
//! through a gate.
ghost use Rattle.std.specs.Prelude.{◌≡◌, ℕ, ◌++◌, ◌∷◌, ◌<◌, ◌==◌, [], true, List, count_by, vec_len, vec_capacity, IfOk, OnErr};
ghost use Rattle.semantics.specs.Call.{fits};
ghost use Rattle.semantics.specs.Replies.{words_in};
ghost use Rattle.board.specs.Board.{Access as Entry};
ghost use Rattle.board.specs.Requests.{IsReplyTo};
ghost use Rattle.shared_board.specs.Witnessed.{Serves};
ghost use Rattle.threads.specs.Served.{told_in, HavePassed, AreWitnessed};

use crate::poster::Poster;
use crate::served_accesses::{Made, Passed};
use crate::session::Session;
use round::Server;
use semantics::{Reply, Request};
use shared_board::{Room, SharedBoard, Witness};
use std::alloc::{AllocError, Global};
use std::marker::{Model, PhantomData};
use std::sync::Wait;

/// A gate, which may hold a general before each of his accesses to the board for as long as it likes.
pub trait Gate {
    /// What is known after this gate has let a general pass, given his number, the round, and the number of the access
    /// in that round, counted from 0. A gate that does not define it states nothing.
    ghost passed: { Self → ℕ → ℕ → ℕ → Type 0 } = { λ _ _ _ _. Unit {0} };

    /// Holds a general before an access until he may go on. `nth` is the number of the access, counted from 0 for this
    /// general and round. It is called before each access, and never while the board's lock is held. The contract does
    /// not promise this to an implementer.
    fn before_access(&self, general: u32, round: u32, nth: u64)
        ensures { passed self.now general round nth };
}

/// A gate that lets every general pass at once.
#[derive(Clone, Copy)]
pub struct Open;

impl Gate for Open {
    fn before_access(&self, _general: u32, _round: u32, _nth: u64) {}
}

/// The board as one general uses it for one task. For each access he first passes the gate and then takes the board's
/// lock. Contracts see the accesses of his earlier tasks (`T::before`) followed by those of this task, and the part of
/// the board's history that he has seen.
#[derive(Drop)]
pub(crate) struct Gated<'a, R, G: Gate, J: Room, T: Session> {
    rt: &'a R,
    gate: &'a G,
    board: &'a SharedBoard<J>,
    /// The general's permission to have accesses served.
    me: Witness<J>,
    /// All accesses that the board has served for this task.
    made: Made,
    session: PhantomData<T>,
}

impl<'a, R, G: Gate, J: Room, T: Session> Model for Gated<'a, R, G, J, T> {
    ghost use Rattle.std.specs.Prelude.{◌++◌, ℕ, []};
    ghost use Rattle.threads.specs.Served.{HavePassed, Served, AreWitnessed};

    ghost Value = { Served };

    ghost view = { λ g. record { made = T.before ++ g.made.accesses.items; seen = g.me.seen } };

    ghost invariant = { λ g. AreWitnessed (T.before ++ g.made.accesses.items) g.me
        × ((general round nth : ℕ) → G.passed g.gate.now general round nth → T.passed general round nth)
        × HavePassed T.passed [] g.made.accesses.items };
}

impl<'a, R, G: Gate, J: Room, T: Session> Gated<'a, R, G, J, T> {
    /// Returns the board as the general with the witness `me` uses it for his next task. The witness must have been
    /// used for as many accesses as `T::before` has, and the board's history that it has seen must contain these in
    /// this order. `T::passed` must hold for every access for which `Gate::passed` holds.
    pub(crate) fn new(
        rt: &'a R,
        alloc: Global,
        gate: &'a G,
        board: &'a SharedBoard<J>,
        me: Witness<J>,
    ) -> Gated<'a, R, G, J, T>
        requires before { AreWitnessed T.before me }
        requires passed { (general round nth : ℕ) → G.passed gate.now general round nth → T.passed general round nth }
        ensures { result.made ≡ T.before }
    {
        Gated {
            rt,
            gate,
            board,
            me,
            made: Made::new(alloc),
            session: PhantomData,
        }
    }

    /// Returns the witness when the task is done. It has been used for exactly the accesses of the earlier tasks and of
    /// this one. Each access of this task has passed the gate (`T::passed`).
    pub(crate) fn into_witness(self) -> Witness<J>
        ensures served { AreWitnessed self.entry.made result }
        ensures passed { (now : List Entry) × (self.entry.made ≡ T.before ++ now) × HavePassed T.passed [] now }
    {
        self.me
    }
}

/// Evidence that a general's posted letters contain as many accesses as were served to him, and that the board's
/// history contains them all. Only `Settled::new` creates one.
#[derive(Drop)]
pub(crate) struct Settled {
    poster: Poster,
}

impl Settled {
    /// Drops the witness, and returns the evidence for its general's poster. The letters posted with `poster` must
    /// contain as many accesses as were served through the witness, and the history that the witness has seen must
    /// contain them all.
    pub(crate) fn new<J: Room>(poster: Poster, me: Witness<J>) -> Settled
        requires { AreWitnessed (told_in poster.posted) me }
        ensures { result.poster ≡ poster }
    {
        drop(me);
        Settled { poster }
    }
}

impl<'a, R: Wait, G: Gate, J: Room, T: Session> Server for Gated<'a, R, G, J, T> {
    ghost served = { λ gated. gated.made };

    fn serve(&mut self, general: u32, round: u32, request: Request) -> Result<Reply, AllocError> {
        self.made.make_room()?;
        serve_entered(
            self.rt,
            self.gate,
            self.board,
            &mut self.me,
            &mut self.made,
            general,
            round,
            request,
        )
    }
}

/// Passes the gate, has the board serve an access, and appends the access to `made`, which must have room for it.
/// Returns the board's reply.
///
/// # Errors
///
/// `AllocError` if an allocation fails. Then nothing was served or appended.
fn serve_entered<R: Wait, G: Gate, J: Room>(
    rt: &R,
    gate: &G,
    board: &SharedBoard<J>,
    me: &mut Witness<J>,
    made: &mut Made,
    general: u32,
    round: u32,
    request: Request,
) -> Result<Reply, AllocError>
    requires room { vec_len made.old.accesses < vec_capacity made.old.accesses }
    ensures serves { IfOk result (λ r. Serves J.opening me.old general round request (words_in r) me.new) }
    ensures fits { IfOk result (λ r. fits request (words_in r) ≡ true) }
    ensures form { IfOk result (λ r. IsReplyTo request r) }
    ensures entered { IfOk result (λ r. made.new.accesses.items ≡ made.old.accesses.items ++ record {
      general = general;
      round = round;
      request = request;
      reply = words_in r;
    } ∷ []) }
    ensures passed { IfOk result (λ _.
        G.passed gate.now general round (count_by (λ a. a.round == round) made.old.accesses.items)) }
    ensures unserved { OnErr result (me.new ≡ me.old) }
    ensures unentered { OnErr result (made.new.accesses.items ≡ made.old.accesses.items) }
{
    let passed = Passed::gate(gate, general, round, made.count(round));
    let (reply, unentered) = passed.apply(rt, board, me, request)?;
    made.enter(unentered);
    Ok(reply)
}
