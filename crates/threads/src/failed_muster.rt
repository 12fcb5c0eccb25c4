//! Defines why a muster returned no campaign.
ghost use Rattle.std.specs.Prelude.{◌≡◌, ◌↔◌, [], Some, map};
ghost use Rattle.threads.specs.Outcomes.{error_by, first_failure, LacksMemory, LacksAccount, LacksThread, LacksRoom};
ghost use Rattle.threads.specs.declared.error.MusterError.TheVariants.{Memory, Unaccounted, Spawn, Post};
ghost use Rattle.threads.specs.declared.halt.Halt.TheVariants.{Unprepared};

use crate::error::MusterError;
use crate::general_end::GeneralEnd;
use crate::halt::Halt;
use crate::outcomes::Outcomes;
use arrayvec::ArrayVec;
use std::alloc::AllocError;

/// Why a muster returned no campaign: the error, and how its threads have ended, which decides the error.
#[derive(Drop)]
pub struct FailedMuster {
    /// The error to report.
    pub error: MusterError,
    /// How the threads have ended.
    pub outcomes: Outcomes,
}

impl FailedMuster {
    /// Returns the failure of a muster whose calling thread was halted by `halt`, if by anything, and whose generals'
    /// threads have ended so. `error` must be the error for this.
    #[tactic(auto, using(crate::proofs::Coded::memory_by, crate::proofs::Coded::account_by, crate::proofs::Coded::thread_by, crate::proofs::Coded::room_by))]
    pub(crate) fn new(
        error: MusterError,
        halt: Option<Halt>,
        generals: ArrayVec<GeneralEnd, 13>,
    ) -> FailedMuster
        requires { error_by halt (first_failure (map (λ end. end.failure) generals.items)) ≡ Some error }
        ensures memory { result.error ≡ Memory ↔ LacksMemory result.outcomes }
        ensures unaccounted { result.error ≡ Unaccounted ↔ LacksAccount result.outcomes }
        ensures spawn { result.error ≡ Spawn ↔ LacksThread result.outcomes }
        ensures post { result.error ≡ Post ↔ LacksRoom result.outcomes }
        ensures halt { result.outcomes.halt ≡ halt }
        ensures generals { result.outcomes.generals ≡ generals }
    {
        FailedMuster {
            error,
            outcomes: Outcomes { halt, generals },
        }
    }
}

impl From<FailedMuster> for MusterError {
    ghost from_gives = { λ failed error. error ≡ failed.error };

    fn from(failed: FailedMuster) -> MusterError {
        failed.error
    }
}

/// An allocation failed before a thread was started.
impl From<AllocError> for FailedMuster {
    ghost from_gives = { λ _ failed. (failed.error ≡ Memory) × (failed.outcomes.halt ≡ Some Unprepared)
        × (failed.outcomes.generals.items ≡ []) };

    fn from(_refused: AllocError) -> FailedMuster {
        FailedMuster {
            error: MusterError::Memory,
            outcomes: Outcomes {
                halt: Some(Halt::Unprepared),
                generals: ArrayVec::new(),
            },
        }
    }
}
