//! Defines a space of labels, those that one lieutenant is not on, and the errors of ranking labels in it.
use std::error::Error;
use std::fmt;

/// The labels of a campaign that a given lieutenant is not on. They are the labels of the orders that he receives.
#[derive(Clone, Copy)]
pub struct Space {
    /// The number of generals, at most 13.
    pub generals: u8,
    /// The number of the commander.
    pub commander: u8,
    /// The number of the lieutenant who is on none of the labels.
    pub general: u8,
}

/// Why a label has no rank, or why no label has a given rank.
#[derive(Clone, Copy, Debug, PartialEq, Eq)]
pub enum LabelError {
    /// L1: the label is not in the space.
    NotALabel,
    /// L2: the rank is at least the number of labels.
    Rank,
}

impl fmt::Display for LabelError {
    ghost use Rattle.std.specs.Prelude.{Some};
    ghost use Rattle.label.specs.ErrorText.{told};

    ghost output = { λ error. Some (told error) };

    fn fmt<W: fmt::Write>(&self, f: &mut fmt::Formatter<W>) -> fmt::Result {
        f.write_str(match self {
            LabelError::NotALabel => "L1",
            LabelError::Rank => "L2",
        })
    }
}

impl Error for LabelError {}
