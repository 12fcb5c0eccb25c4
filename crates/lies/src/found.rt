//! A break that was found: who the traitors are, and what they bring about.

use crate::attempt::Success;
use arrayvec::ArrayVec;

/// The traitors of a break in ascending order, and their attempt.
#[derive(Drop)]
pub(crate) struct Found {
    /// The numbers of the traitors.
    pub(crate) traitors: ArrayVec<u8, 13>,
    /// What they attempt, and what it costs.
    pub(crate) success: Success,
}

/// A break that was found, and its commander.
#[derive(Drop)]
pub(crate) struct FoundUnder {
    /// The number of the commander.
    pub(crate) commander: u8,
    /// The break.
    pub(crate) found: Found,
}
