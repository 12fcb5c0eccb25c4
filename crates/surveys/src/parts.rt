//! What was read from the parts of a survey, and why a part is rejected.
ghost use Rattle.std.specs.Prelude.{◌≡◌};
ghost use Rattle.surveys.specs.declared.parts.PartError.TheVariants.{Memory};

use crate::finding::Finding;
use std::alloc::{AllocError, AllocFailed};

/// What was read from the parts of a survey.
#[derive(Drop)]
pub struct Parts {
    /// The head, with its line feed, that all parts share. It is empty as long as no head was read.
    pub head: Vec<u8>,
    /// The results of the campaigns, in the order in which they were read.
    pub findings: Vec<Finding>,
}

/// Why a text is rejected as a part of a survey. Lines are counted from 1.
#[derive(Clone, Copy, Drop)]
pub enum PartError {
    /// The line with this number is cut off, or is neither a head nor the line of a campaign. The first line must be a
    /// head.
    Line(u64),
    /// The line with this number is a head, but differs from the head of the earlier parts.
    Family(u64),
    /// The line with the first number describes a campaign, but its seed, the second number, is not among the requested
    /// seeds.
    Seed(u64, u64),
    /// Out of memory.
    Memory,
}

impl From<AllocError> for PartError {
    ghost from_gives = { λ _ e. e ≡ Memory };

    fn from(_error: AllocError) -> PartError {
        PartError::Memory
    }
}

impl<T: Drop> From<AllocFailed<T>> for PartError {
    ghost from_gives = { λ _ e. e ≡ Memory };

    fn from(_error: AllocFailed<T>) -> PartError {
        PartError::Memory
    }
}
