//! Defines why a general can fail.
ghost use Rattle.std.specs.Prelude.{◌≡◌, ◌≢◌, MatchResult};
ghost use Rattle.threads.specs.Outcomes.{failure_as};
ghost use Rattle.threads.specs.declared.failure.Failure.TheVariants.{Memory, Foreign as NotHis, Returned as Back};

use crate::error::MusterError;
use crate::tally::Returned;
use crate::task::Task;
use std::alloc::AllocError;

/// Evidence that a general was given another general's task. Only `is_his` creates one.
#[derive(Clone, Copy)]
pub struct Foreign {
    /// The general who was given another general's task.
    general: u32,
}

/// Why a general has failed. Each variant except `Memory` contains evidence that only the code that finds this fault
/// can create.
#[derive(Clone, Copy)]
pub enum Failure {
    /// An allocation failed.
    Memory,
    /// He was given another general's task.
    Foreign(Foreign),
    /// The post had no room for his letter, and returned it.
    Returned(Returned),
}

impl Failure {
    /// Returns the error that `muster` reports for this failure.
    pub fn error(self) -> MusterError
        ensures { result ≡ failure_as self }
    {
        match self {
            Failure::Memory => MusterError::Memory,
            Failure::Foreign(_) => MusterError::Unaccounted,
            Failure::Returned(_) => MusterError::Post,
        }
    }
}

impl From<AllocError> for Failure {
    ghost from_gives = { λ _ failure. failure ≡ Memory };

    fn from(_refused: AllocError) -> Failure {
        Failure::Memory
    }
}

impl From<Foreign> for Failure {
    ghost from_gives = { λ foreign failure. failure ≡ NotHis foreign };

    fn from(foreign: Foreign) -> Failure {
        Failure::Foreign(foreign)
    }
}

impl From<Returned> for Failure {
    ghost from_gives = { λ returned failure. failure ≡ Back returned };

    fn from(returned: Returned) -> Failure {
        Failure::Returned(returned)
    }
}

/// Checks that a task belongs to this general.
///
/// # Errors
///
/// `Foreign` if it belongs to another general.
pub(crate) fn is_his(task: &Task, general: u32) -> Result<(), Foreign>
    ensures { MatchResult result (λ _. task.now.general ≡ general)
        (λ foreign. (task.now.general ≢ general) × (foreign.general ≡ general)) }
{
    if task.general() == general {
        Ok(())
    } else {
        Err(Foreign { general })
    }
}
