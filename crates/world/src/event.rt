//! Defines the events of a campaign, and why an event is rejected.
use std::alloc::AllocError;
use std::error::Error;
use std::fmt;

/// An event of a campaign: a tick, a post or a close.
#[derive(Clone, Copy)]
pub enum Event {
    /// The traitor with this number takes a step: his program executes one instruction, or makes a request that the
    /// board answers.
    Tick(u32),
    /// The loyal general with this number posts his letter.
    Post(u32),
    /// The open round is closed: its letters are delivered, and the next round begins.
    Close,
}

/// Why an event is rejected, or cannot be applied.
#[derive(Clone, Copy, Debug, PartialEq, Eq)]
pub enum EventError {
    /// E1: all rounds are closed.
    NotOpen,
    /// E2: there is no such general, or he is of the wrong kind: a tick needs a traitor, and a post needs a loyal
    /// general.
    NoGeneral,
    /// An allocation failed.
    Memory,
}

impl fmt::Display for EventError {
    ghost use Rattle.std.specs.Prelude.{Some};
    ghost use Rattle.world.specs.ErrorText.{told};

    ghost output = { λ error. Some (told error) };

    fn fmt<W: fmt::Write>(&self, f: &mut fmt::Formatter<W>) -> fmt::Result {
        f.write_str(match self {
            EventError::NotOpen => "E1",
            EventError::NoGeneral => "E2",
            EventError::Memory => "out of memory",
        })
    }
}

impl Error for EventError {}

impl From<AllocError> for EventError {
    ghost use Rattle.std.specs.Prelude.{◌≡◌};
    ghost use Rattle.world.specs.declared.event.EventError.TheVariants.{Memory};

    ghost from_gives = { λ _ e. e ≡ Memory };

    fn from(_error: AllocError) -> EventError {
        EventError::Memory
    }
}
