//! Defines what can halt the thread that conducts a campaign.
ghost use Rattle.std.specs.Prelude.{◌≡◌};
ghost use Rattle.threads.specs.Outcomes.{halt_as};
ghost use Rattle.threads.specs.declared.halt.Halt.TheVariants.{Memory, Failed, Strayed as Astray, Unlike as NotTheirs};

use crate::answers::Unstarted;
use crate::conclusion::Unlike;
use crate::error::MusterError;
use crate::round_letters::Strayed;
use crate::tally::SomeoneFailed;
use std::alloc::{AllocError, AllocFailed};

/// What halted the thread that called a muster, before it had a campaign. Each variant except `Unprepared` and `Memory`
/// contains evidence that only the code that finds this fault can create.
#[derive(Drop)]
pub enum Halt {
    /// An allocation failed before a thread was started.
    Unprepared,
    /// A general's thread could not be started, so no round was conducted.
    Unstarted(Unstarted),
    /// An allocation failed after all threads were started.
    Memory,
    /// A general has failed.
    Failed(SomeoneFailed),
    /// The letters taken for a round are not exactly one letter of that round for each general.
    Strayed(Strayed),
    /// The board does not account for the letters.
    Unlike(Unlike),
}

impl Halt {
    /// Returns the error that a muster reports if this halted it and no general has failed.
    pub fn error(&self) -> MusterError
        ensures { result ≡ halt_as self.now }
    {
        match self {
            Halt::Unprepared | Halt::Memory => MusterError::Memory,
            Halt::Unstarted(_) => MusterError::Spawn,
            Halt::Failed(_) | Halt::Strayed(_) | Halt::Unlike(_) => MusterError::Unaccounted,
        }
    }
}

impl From<AllocError> for Halt {
    ghost from_gives = { λ _ halt. halt ≡ Memory };

    fn from(_refused: AllocError) -> Halt {
        Halt::Memory
    }
}

impl<T: Drop> From<AllocFailed<T>> for Halt {
    ghost from_gives = { λ _ halt. halt ≡ Memory };

    fn from(_refused: AllocFailed<T>) -> Halt {
        Halt::Memory
    }
}

impl From<SomeoneFailed> for Halt {
    ghost from_gives = { λ someone halt. halt ≡ Failed someone };

    fn from(someone: SomeoneFailed) -> Halt {
        Halt::Failed(someone)
    }
}

impl From<Strayed> for Halt {
    ghost from_gives = { λ strayed halt. halt ≡ Astray strayed };

    fn from(strayed: Strayed) -> Halt {
        Halt::Strayed(strayed)
    }
}

impl From<Unlike> for Halt {
    ghost from_gives = { λ unlike halt. halt ≡ NotTheirs unlike };

    fn from(unlike: Unlike) -> Halt {
        Halt::Unlike(unlike)
    }
}
