//! Runs the thread of one general through all rounds.
ghost use Rattle.std.specs.Prelude.{◌≡◌, ◌≢◌, ℕ, ◌++◌, ◌∷◌, [], All, IfOk, IfErr, IsErrAnd};
ghost use Rattle.round.specs.Letters.{Letter as LetterSeen};
ghost use Rattle.threads.specs.Answers.{end_of, IsFailureOf};
ghost use Rattle.threads.specs.Duties.{IsDone};
ghost use Rattle.threads.specs.Outcomes.{failure_as};
ghost use Rattle.threads.specs.Served.{told_in, IsGated, AreWitnessed};
ghost use Rattle.threads.specs.declared.error.MusterError.TheVariants.{Unaccounted, Post as PostFull};

use crate::claim::Claim;
use crate::failure::{Failure, is_his};
use crate::gate::{Gate, Gated, Settled};
use crate::general_end::GeneralEnd;
use crate::inbox::{Closed, Inbox};
use crate::post::PostOf;
use crate::poster::Poster;
use crate::session::Session;
use crate::tally::{PostedCount, Reported, Uncounted, send};
use crate::task::Task;
use round::Letter;
use shared_board::{Room, SharedBoard, Witness};
use std::alloc::Global;
use std::marker::Brand;
use std::sync::Wait;

/// Evidence that a general has failed, and why. Only `GeneralThread::stay` creates one.
#[derive(Clone, Copy)]
pub(crate) struct Failed {
    failure: Failure,
}

impl Failed {
    /// Returns why the general has failed.
    pub(crate) fn failure(self) -> Failure
        ensures { result ≡ self.failure }
    {
        self.failure
    }
}

/// The result of a general's thread. Only `GeneralThread::stay` creates one.
#[derive(Drop)]
pub(crate) struct Answer {
    /// The general whose thread returned this answer.
    general: u32,
    /// `Ok` if his inbox was closed: the evidence for that, and evidence that his letters contain all his accesses.
    /// `Err` if he failed: the evidence that he reported it to the thread that waits for the letters.
    ended: Result<(Closed, Settled), Reported>,
}

impl Answer {
    /// Returns how the thread has ended.
    pub(crate) fn end(self) -> GeneralEnd
        ensures { result ≡ end_of self }
    {
        let failure = match self.ended {
            Ok(_) => None,
            Err(reported) => Some(reported.failure()),
        };
        GeneralEnd {
            general: self.general,
            failure,
        }
    }
}

/// A general, with his inbox and what he shares with the other generals. His thread runs it through all rounds.
#[derive(Drop)]
pub(crate) struct GeneralThread<'a, G, J: Room> {
    pub(crate) general: u32,
    pub(crate) gate: &'a G,
    pub(crate) board: &'a SharedBoard<J>,
    pub(crate) inbox: &'a Inbox,
    pub(crate) tally: &'a PostedCount,
}

impl<'a, G: Gate, J: Room> GeneralThread<'a, G, J> {
    /// Does the general's tasks until his inbox is closed or he fails. If he fails, this reports it to the thread that
    /// waits for the letters. Returns how his thread ended.
    pub(crate) fn stay<R: Wait, C: Claim>(
        self,
        rt: &R,
        alloc: Global,
        post: &PostOf<C>,
        poster: Poster,
        me: Witness<J>,
    ) -> Answer
        requires post { poster.table ≡ post.now.table }
        requires general { poster.general ≡ self.general }
        requires unposted { poster.posted ≡ [] }
        requires unserved { me.made ≡ 0 }
        requires claim { (l : LetterSeen) → IsGated (G.passed self.gate.now) l → C.holds l }
        ensures general { result.general ≡ self.entry.general }
        ensures closed { IfOk result.ended (λ r. r.0.general ≡ self.entry.inbox.now.general) }
        ensures poster { IfOk result.ended (λ r. r.1.poster.table ≡ post.now.table) }
        ensures his { IfOk result.ended (λ r. r.1.poster.general ≡ self.entry.general) }
        ensures passed { IfOk result.ended (λ r. All (IsGated (G.passed self.entry.gate.now)) r.1.poster.posted) }
        ensures failed { IfErr result.ended (λ reported. IsFailureOf self.entry.general reported.failed.failure) }
    {
        let ended = match self.do_tasks(rt, alloc, post, poster, me) {
            Ok(closed) => Ok(closed),
            Err(failure) => Err(self.tally.failed(rt, Failed { failure })),
        };
        Answer {
            general: self.general,
            ended,
        }
    }

    /// Does each task from the general's inbox until the inbox is closed. Returns evidence that it was closed, and
    /// evidence that the letters he posted contain all his accesses.
    ///
    /// # Errors
    ///
    /// `Memory` if an allocation fails, `Returned` if the post is full, `Foreign` if a task is another general's.
    fn do_tasks<R: Wait, C: Claim>(
        &self,
        rt: &R,
        alloc: Global,
        post: &PostOf<C>,
        mut poster: Poster,
        mut me: Witness<J>,
    ) -> Result<(Closed, Settled), Failure>
        requires post { poster.table ≡ post.now.table }
        requires general { poster.general ≡ self.now.general }
        requires unposted { poster.posted ≡ [] }
        requires unserved { me.made ≡ 0 }
        requires claim { (l : LetterSeen) → IsGated (G.passed self.now.gate.now) l → C.holds l }
        ensures closed { IfOk result (λ r. r.0.general ≡ self.now.inbox.now.general) }
        ensures poster { IfOk result (λ r. r.1.poster.table ≡ post.now.table) }
        ensures his { IfOk result (λ r. r.1.poster.general ≡ self.now.general) }
        ensures passed { IfOk result (λ r. All (IsGated (G.passed self.now.gate.now)) r.1.poster.posted) }
        ensures failed { IfErr result (IsFailureOf self.now.general) }
    {
        for _ in rt.forever() {
            let task = match self.inbox.next(rt) {
                Ok(task) => task,
                Err(closed) => return Ok((closed, Settled::new(poster, me))),
            };
            let (uncounted, again) = self.do_task(rt, alloc, post, poster, me, task)?;
            poster = self.tally.posted(rt, uncounted);
            me = again;
        }
        unreachable!()
    }

    /// Makes the general's letter for `task` and posts it. Returns his poster, which the caller must pass on to be
    /// counted, and his witness. His posted letters, with this one, contain exactly the accesses that were served
    /// through his witness.
    ///
    /// # Errors
    ///
    /// `Memory` if an allocation fails, `Returned` if the post is full, `Foreign` if the task is another general's.
    fn do_task<R: Wait, C: Claim>(
        &self,
        rt: &R,
        alloc: Global,
        post: &PostOf<C>,
        poster: Poster,
        me: Witness<J>,
        task: Task,
    ) -> Result<(Uncounted, Witness<J>), Failure>
        requires post { poster.table ≡ post.now.table }
        requires general { poster.general ≡ self.now.general }
        requires told { AreWitnessed (told_in poster.posted) me }
        requires claim { (l : LetterSeen) → IsGated (G.passed self.now.gate.now) l → C.holds l }
        ensures post { IfOk result (λ r. r.0.poster.table ≡ post.now.table) }
        ensures general { IfOk result (λ r. r.0.poster.general ≡ self.now.general) }
        ensures done { IfOk result (λ r. (letter : LetterSeen) × IsDone task letter
            × IsGated (G.passed self.now.gate.now) letter × (r.0.poster.posted ≡ poster.posted ++ letter ∷ [])) }
        ensures told { IfOk result (λ r. AreWitnessed (told_in r.0.poster.posted) r.1) }
        ensures theirs { task.general ≢ self.now.general → IsErrAnd result (λ f. failure_as f ≡ Unaccounted) }
        ensures own { IfErr result (λ f. failure_as f ≡ Unaccounted → task.general ≢ self.now.general) }
        ensures failed { IfErr result (IsFailureOf self.now.general) }
    {
        let (letter, me) = self.letter::<R, Brand>(rt, alloc, &poster, me, task)?;
        let uncounted = send(rt, post, poster, letter)?;
        Ok((uncounted, me))
    }

    /// Makes the general's letter for `task`, and returns it with his witness. Each access in it has passed the gate.
    /// The accesses in his earlier letters and in this one are all that were served through his witness.
    ///
    /// # Errors
    ///
    /// `Memory` if an allocation fails, `Foreign` if the task is another general's.
    fn letter<R: Wait, T: Session>(
        &self,
        rt: &R,
        alloc: Global,
        poster: &Poster,
        me: Witness<J>,
        task: Task,
    ) -> Result<(Letter, Witness<J>), Failure>
        requires told { AreWitnessed (told_in poster.now.posted) me }
        requires before { T.before ≡ told_in poster.now.posted }
        requires passed { (general round nth : ℕ) → G.passed self.now.gate.now general round nth
            → T.passed general round nth }
        ensures general { IfOk result (λ r. r.0.general ≡ self.now.general) }
        ensures done { IfOk result (λ r. IsDone task r.0) }
        ensures served { IfOk result (λ r. AreWitnessed (told_in poster.now.posted ++ r.0.transcript) r.1) }
        ensures gated { IfOk result (λ r. IsGated T.passed r.0) }
        ensures theirs { task.general ≢ self.now.general → IsErrAnd result (λ f. failure_as f ≡ Unaccounted) }
        ensures own { IfErr result (λ f. failure_as f ≡ Unaccounted → task.general ≢ self.now.general) }
        ensures failed { IfErr result (IsFailureOf self.now.general) }
        ensures posted { IfErr result (λ f. failure_as f ≢ PostFull) }
    {
        is_his(&task, self.general)?;
        let mut server: Gated<'_, R, G, J, T> = Gated::new(rt, alloc, self.gate, self.board, me);
        let letter = task.letter(alloc, &mut server)?;
        Ok((letter, server.into_witness()))
    }
}
