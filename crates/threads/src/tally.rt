//! Counts the letters that the generals have posted, so that a thread can wait until all have.
ghost use Rattle.std.specs.Prelude.{◌≡◌, ◌≤◌, IfOk};

mod count;
mod returned_letter;

use crate::camp::HandedOut;
use crate::failure::Failure;
use crate::poster::Poster;
use crate::resident::Failed;
pub use count::SomeoneFailed;
use count::{Count, Counted};
pub(crate) use count::{AllPosted, Uncounted, send};
pub use returned_letter::Returned;
use std::sync::{Condvar, Mutex, Wait};

/// Evidence that a general has failed, and that this was reported to the thread that waits for the letters. Only
/// `PostedCount::failed` creates one.
#[derive(Clone, Copy)]
pub(crate) struct Reported {
    failed: Failed,
    counted: Counted,
}

impl Reported {
    /// Returns why the general has failed.
    pub(crate) fn failure(self) -> Failure
        ensures { result ≡ self.failed.failure }
    {
        self.failed.failure()
    }
}

/// How many letters were posted in the current round, and whether a general has failed. The generals' threads update
/// it, and the thread that conducts the rounds waits for it.
#[derive(Drop)]
pub(crate) struct PostedCount {
    generals: usize,
    count: Mutex<Count>,
    changed: Condvar,
}

impl PostedCount {
    /// Returns the count for `generals` generals, none of whom has posted a letter.
    pub(crate) fn new(generals: usize) -> PostedCount
        ensures { result.generals ≡ generals }
    {
        PostedCount {
            generals,
            count: Mutex::new(Count::new()),
            changed: Condvar::new(),
        }
    }

    /// Counts a letter that was posted in the current round, and returns the poster with which it was posted. Wakes the
    /// waiting thread if all letters are posted or a general has failed.
    pub(crate) fn posted<R: Wait>(&self, rt: &R, uncounted: Uncounted) -> Poster
        ensures { result ≡ uncounted.poster }
    {
        let mut count = self.count.lock(rt);
        let poster = count.add(uncounted);
        if count.is_over(self.generals) {
            self.changed.notify_one();
        }
        poster
    }

    /// Records that a general has failed, and wakes the thread that waits for the letters. Returns evidence that the
    /// failure was reported.
    pub(crate) fn failed<R: Wait>(&self, rt: &R, failed: Failed) -> Reported
        ensures { result.failed ≡ failed }
    {
        let counted = self.count.lock(rt).fail(failed);
        self.changed.notify_one();
        Reported { failed, counted }
    }

    /// Waits until every general has posted his letter of this round, and sets the count to 0 for the next round. `out`
    /// is evidence that all generals were given their tasks.
    ///
    /// # Errors
    ///
    /// `SomeoneFailed` if a general has failed.
    pub(crate) fn all_posted<R: Wait, D: Drop>(
        &self,
        rt: &R,
        out: HandedOut<D>,
    ) -> Result<AllPosted<D>, SomeoneFailed>
        ensures all { IfOk result (λ all. self.now.generals ≤ all.letters) }
        ensures out { IfOk result (λ all. all.out ≡ out) }
    {
        let mut count = self.changed.wait_while(
            rt,
            self.count.lock(rt),
            |count| !count.is_over(self.generals),
        );
        count.begin_again(self.generals, out)
    }
}
