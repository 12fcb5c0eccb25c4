//! Counts the letters posted in a round, and records whether a general has failed.
ghost use Rattle.std.specs.Prelude.{◌≡◌, ◌↔◌, ◌⊎◌, ◌+◌, ◌≤◌, min, None, Some, IsSome, IsTrue, IfOk, OnOk, IfErr};

mod uncounted_letter;

use crate::camp::HandedOut;
use crate::poster::Poster;
use crate::resident::Failed;
pub(crate) use uncounted_letter::{Uncounted, send};

/// Evidence that all generals have posted their letters of a round. Only `Count::begin_again` creates one.
#[derive(Drop)]
pub(crate) struct AllPosted<D> {
    letters: usize,
    /// The evidence that they were given their tasks of this round.
    out: HandedOut<D>,
}

impl<D> AllPosted<D> {
    /// Returns how many letters the generals have posted in this round.
    pub(crate) fn letters(&self) -> usize
        ensures { result ≡ self.now.letters }
    {
        self.letters
    }
}

/// Evidence that a general has failed, found when a round was over. Only `Count::begin_again` creates one.
#[derive(Clone, Copy)]
pub struct SomeoneFailed {
    failed: Failed,
}

/// Evidence that a general's failure was recorded. Only `Count::fail` creates one.
#[derive(Clone, Copy)]
pub(super) struct Counted {
    failed: Failed,
}

/// How many letters of the current round are posted, and why a general has failed, if one has.
#[derive(Drop)]
pub(super) struct Count {
    posted: usize,
    failed: Option<Failed>,
}

impl Count {
    /// Returns the count at the start: no posted letters and no failure.
    pub(super) fn new() -> Count
        ensures posted { result.posted ≡ 0 }
        ensures failed { result.failed ≡ None }
    {
        Count {
            posted: 0,
            failed: None,
        }
    }

    /// Counts one more posted letter, and returns the poster with which it was posted. The count stays at 2^64 - 1 if
    /// it has reached that.
    pub(super) fn add(&mut self, uncounted: Uncounted) -> Poster
        ensures count { self.new ≡ record self.old { posted = min (self.old.posted + 1) 0xffff_ffff_ffff_ffff } }
        ensures poster { result ≡ uncounted.poster }
    {
        self.posted = self.posted.saturating_add(1);
        let Uncounted { poster } = uncounted;
        poster
    }

    /// Records that a general has failed, and returns the evidence that this was recorded.
    pub(super) fn fail(&mut self, failed: Failed) -> Counted
        ensures count { self.new ≡ record self.old { failed = Some failed } }
        ensures counted { result.failed ≡ failed }
    {
        self.failed = Some(failed);
        Counted { failed }
    }

    /// Sets the count to 0 for the next round, and returns evidence that all generals have posted. Before the call,
    /// `generals` letters must be posted or a general must have failed.
    ///
    /// # Errors
    ///
    /// `SomeoneFailed` if a general has failed.
    pub(super) fn begin_again<D: Drop>(
        &mut self,
        generals: usize,
        out: HandedOut<D>,
    ) -> Result<AllPosted<D>, SomeoneFailed>
        requires over { (generals ≤ self.old.posted) ⊎ IsSome self.old.failed }
        ensures count { self.new ≡ record self.old { posted = 0 } }
        ensures nobody { OnOk result (self.old.failed ≡ None) }
        ensures all { IfOk result (λ all. (all.letters ≡ self.old.posted) × (generals ≤ all.letters)) }
        ensures out { IfOk result (λ all. all.out ≡ out) }
        ensures failed { IfErr result (λ someone. self.old.failed ≡ Some someone.failed) }
    {
        let letters = self.posted;
        self.posted = 0;
        match self.failed {
            Some(failed) => Err(SomeoneFailed { failed }),
            None => Ok(AllPosted { letters, out }),
        }
    }

    /// Returns whether the wait for a round is over: at least `generals` letters are posted, or a general has failed.
    pub(super) fn is_over(&self, generals: usize) -> bool
        ensures { IsTrue result ↔ ((generals ≤ self.now.posted) ⊎ IsSome self.now.failed) }
    {
        self.posted >= generals || self.failed.is_some()
    }
}
