//! Defines the post: the queue into which the generals' threads put their letters. Each general's letters are taken out
//! in the order in which he posted them, each exactly once.
ghost use Rattle.std.specs.Prelude.{◌≡◌, ℕ, ◌<◌, ◌++◌, ◌∷◌, [], List, All, map, true, length, IfOk, IfErr, slice_index_or, IfSome, MatchOption, MatchResult};
ghost use Rattle.crossbeam_queue.specs.Passes.{view, IsPassOf};
ghost use Rattle.round.specs.Letters.{Letter as LetterSeen};
ghost use Rattle.threads.specs.Delivery.{AreDelivered, posted};
ghost use Rattle.threads.specs.Seen.{PosterSeen, poster_seen, collector_seen};

use crate::claim::{AnyLetter, Claim};
use crate::collector::Collector;
use crate::knowledge::Known;
use crate::poster::Poster;
use crate::rule::{Hire, Put, Queue, Return, Took};
use crossbeam_queue::Pass;
use round::Letter;
use std::alloc::{AllocError, Global};
use std::marker::Model;
use std::sync::Wait;

/// A queue of letters that threads share. For each general, the letters already taken, followed by those still queued,
/// are exactly the letters that he has posted, in order. The claim `C` holds for each letter in the queue.
#[derive(Drop)]
pub struct PostOf<C: Claim> {
    queue: Queue<C>,
    alloc: Global,
}

/// A post that accepts any letter.
pub type Post = PostOf<AnyLetter>;

impl<C: Claim> Model for PostOf<C> {
    ghost use Rattle.crossbeam_queue.specs.Passes.{ruled_capacity};
    ghost use Rattle.threads.specs.Seen.{PostSeen};

    ghost Value = { PostSeen };

    ghost view = { λ p. record { table = p.queue.table.shared.table_id; capacity = ruled_capacity p.queue } };
}

impl<C: Claim> PostOf<C> {
    /// Returns an empty post with room for `capacity` letters, a poster for each of `generals` generals, ascending, and
    /// the collector.
    ///
    /// # Errors
    ///
    /// `AllocError` if an allocation fails.
    pub fn new(
        alloc: Global,
        generals: u8,
        capacity: usize,
    ) -> Result<(PostOf<C>, Vec<Poster>, Collector), AllocError>
        requires { 0 < capacity }
        ensures post { IfOk result (λ r. r.0.capacity ≡ capacity) }
        ensures count { IfOk result (λ r. length r.1.items ≡ generals) }
        ensures posters { IfOk result (λ r. (g : ℕ) (d : PosterSeen) → g < generals →
            slice_index_or r.1.items g d ≡ poster_seen r.0.table g []) }
        ensures collector { IfOk result (λ r. r.2 ≡ collector_seen r.0.table [] generals) }
    {
        let (queue, mut pass) = Queue::<C>::ruled(alloc, capacity)?;
        let mut posters = Vec::with_capacity(alloc, usize::from(generals))?;
        for _ in 0..generals {
            let theirs = queue.another::<Hire>(&mut pass);
            posters.push(Poster { pass: theirs })?;
        }
        Ok((PostOf { queue, alloc }, posters, Collector { pass }))
    }

    /// Posts a letter of the poster's general, for which the claim `C` must hold. Returns the poster, and the letter as
    /// an error if the post is full.
    pub fn post<R: Wait>(
        &self,
        rt: &R,
        poster: Poster,
        letter: Letter,
    ) -> (Poster, Result<(), Letter>)
        requires post { poster.table ≡ self.now.table }
        requires general { letter.general ≡ poster.general }
        requires claim { C.holds letter }
        ensures post { result.0.table ≡ poster.table }
        ensures general { result.0.general ≡ poster.general }
        ensures posted { MatchResult result.1
            (λ _. result.0.posted ≡ poster.posted ++ letter ∷ [])
            (λ back. (back ≡ letter) × (result.0.posted ≡ poster.posted)) }
    {
        let Poster { mut pass } = poster;
        let sent = self.queue.push_as::<Put, R>(rt, &mut pass, letter);
        (Poster { pass }, sent)
    }

    /// Takes the oldest letter out of the post. Returns the collector, and the letter or `None` if the post is empty.
    pub fn take<R: Wait>(&self, rt: &R, collector: Collector) -> (Collector, Option<Letter>)
        requires post { collector.table ≡ self.now.table }
        ensures post { result.0.table ≡ collector.table }
        ensures generals { result.0.generals ≡ collector.generals }
        ensures taken { MatchOption result.1
            (result.0.taken ≡ collector.taken)
            (λ letter. result.0.taken ≡ collector.taken ++ letter ∷ []) }
        ensures claim { IfSome result.1 C.holds }
    {
        let Collector { mut pass } = collector;
        let taken = self.queue.pop_as::<Took<C>, R>(rt, &mut pass);
        (Collector { pass }, taken)
    }

    /// Ends the post, and returns the letters still queued, oldest first. Together with the letters taken earlier, they
    /// are exactly the letters that the generals of `posters` have posted.
    ///
    /// # Errors
    ///
    /// `AllocError` if an allocation fails. Then only letters that were still queued are lost.
    pub fn settle<R: Wait>(
        self,
        rt: &R,
        posters: Vec<Poster>,
        collector: Collector,
    ) -> Result<Vec<Letter>, AllocError>
        requires posters { All (λ p. p.table ≡ self.table) posters.items }
        requires collector { collector.table ≡ self.table }
        ensures left { IfOk result
            (λ left. AreDelivered (collector.taken ++ left.items)
            (map (λ p. posted p.general p.posted) posters.items)) }
        ensures lost { IfErr result (λ _. (queued : List LetterSeen)
            × AreDelivered (collector.taken ++ queued) (map (λ p. posted p.general p.posted) posters.items)) }
        ensures claim { IfOk result (λ left. All C.holds left.items) }
    {
        let PostOf { queue, alloc } = self;
        let Collector { pass } = collector;
        let mut pass = all_back(&queue, pass, posters);
        queue.learn_as::<Took<C>>(&mut pass);
        let left = Vec::with_capacity(alloc, queue.capacity())?;
        let (_, left) = drain(rt, &queue, pass, left)?;
        Ok(left)
    }
}

/// Returns all posters to the collector's pass, so that this pass knows which letters each of them has posted. Returns
/// the collector's pass.
fn all_back<C: Claim>(
    queue: &Queue<C>,
    mut pass: Pass<Letter, Known>,
    mut posters: Vec<Poster>,
) -> Pass<Letter, Known>
    requires pass { IsPassOf queue.now pass }
    requires takes { (view pass).takes ≡ true }
    requires back { (view pass).back ≡ [] }
    requires posters { All (λ p. p.table ≡ queue.now.table.shared.table_id) posters.items }
    ensures pass { IsPassOf queue.now result }
    ensures takes { (view result).takes ≡ true }
    ensures taken { (view result).letters ≡ (view pass).letters }
    ensures back { (view result).back ≡ map (λ p. posted p.general p.posted) posters.items }
{
    while let Some(poster) = posters.pop() {
        let Poster { pass: theirs } = poster;
        queue.absorb::<Return>(&mut pass, theirs);
    }
    pass
}

/// Takes all queued letters, oldest first, and appends them to `left`, which must be empty. Returns the collector's
/// pass and these letters.
///
/// # Errors
///
/// `AllocError` if an allocation fails.
fn drain<R: Wait, C: Claim>(
    rt: &R,
    queue: &Queue<C>,
    mut pass: Pass<Letter, Known>,
    mut left: Vec<Letter>,
) -> Result<(Pass<Letter, Known>, Vec<Letter>), AllocError>
    requires pass { IsPassOf queue.now pass }
    requires takes { (view pass).takes ≡ true }
    requires none { left.items ≡ [] }
    ensures order { IfOk result (λ r. (view r.0).letters ≡ (view pass).letters ++ r.1.items) }
    ensures delivered { IfOk result (λ r. AreDelivered ((view pass).letters ++ r.1.items) (view pass).back) }
    ensures claim { IfOk result (λ r. All C.holds r.1.items) }
{
    for _ in rt.forever() {
        match queue.pop_as::<Took<C>, R>(rt, &mut pass) {
            Some(letter) => left.push(letter)?,
            None => break,
        }
    }
    Ok((pass, left))
}
