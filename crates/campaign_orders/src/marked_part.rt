//! Defines a general's part in the open round together with its mark, which is a hash of it.
ghost use Rattle.std.specs.Prelude.{◌≡◌, IfOk, Some};
ghost use Rattle.campaign_orders.specs.OpenRounds.{IsPartAfter};

use crate::access::next_access;
use crate::accessed::Accessed;
use crate::marks::part_mark;
use std::alloc::{AllocError, Global};
use std::marker::Model;
use world::Progress;

/// A general's part in the open round, and its mark (a hash), which is computed only once. Contracts see only the part.
#[derive(Drop)]
pub(crate) struct MarkedPart {
    progress: Progress,
    mark: u64,
}

impl Model for MarkedPart {
    ghost use Rattle.world.specs.declared.part.Progress.{Progress as ProgressSeen};

    ghost Value = { ProgressSeen };

    ghost view = { λ p. p.progress };
}

impl MarkedPart {
    /// Returns this part with its mark, which is computed from it.
    pub(crate) fn new(progress: Progress) -> MarkedPart
        ensures { result ≡ progress }
    {
        let mark = part_mark(&progress);
        MarkedPart { progress, mark }
    }

    /// Returns a copy of a part, with its mark. Fails with `AllocError` if it runs out of memory.
    pub(crate) fn copied(alloc: Global, progress: &Progress) -> Result<MarkedPart, AllocError>
        ensures { IfOk result (λ part. part ≡ progress.now) }
    {
        match progress {
            Progress::Acting(running) => {
                let copy = running.copy(alloc)?;
                Ok(MarkedPart::new(Progress::Acting(copy)))
            }
            Progress::Silent => Ok(MarkedPart::new(Progress::Silent)),
            Progress::Posted => Ok(MarkedPart::new(Progress::Posted)),
        }
    }

    /// Returns the general's part in the open round.
    pub(crate) fn progress(&self) -> &Progress
        ensures { result.now ≡ self.now }
    {
        &self.progress
    }

    /// Returns the mark of the part.
    pub(crate) fn mark(&self) -> u64 {
        self.mark
    }

    /// Returns the general's activation after his next access, to a board with these words, and the board's words after
    /// it. Returns `None` if he makes no further access. This part stays unchanged. Fails with `AllocError` if it runs
    /// out of memory.
    pub(crate) fn next_access(
        &self,
        alloc: Global,
        words: &[u64; 64],
        general: u32,
    ) -> Result<Option<Accessed>, AllocError>
        ensures { IfOk result (λ made. IsPartAfter general words.now (Some self.now) made) }
    {
        match &self.progress {
            Progress::Acting(running) => next_access(alloc, running, words, general),
            Progress::Silent => Ok(None),
            Progress::Posted => Ok(None),
        }
    }
}
