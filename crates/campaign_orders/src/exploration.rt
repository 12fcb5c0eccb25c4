//! Defines the result of exploring a campaign's orders of accesses: the outcomes found, and how many orders were
//! covered.
ghost use Rattle.std.specs.Prelude.{◌≡◌};

use crate::finding::DecisionGroup;
use std::marker::Model;

/// How many of a campaign's orders of accesses an exploration covers.
#[derive(Clone, Copy)]
pub enum Reach {
    /// All orders, and there are fewer than 2^64 - 1. Every outcome was found, and the counts are exact.
    Whole,
    /// All orders, and there are 2^64 - 1 or more. Every outcome was found, and a count of 2^64 - 1 means at least this
    /// number.
    Beyond,
    /// Only some of the orders. There may be other outcomes, and the counts are lower bounds.
    InPart,
}

/// The outcomes of a campaign that were found, in the order in which they were found, and how many orders of accesses
/// they cover.
#[derive(Drop)]
pub struct Exploration {
    pub(crate) findings: Vec<DecisionGroup>,
    pub(crate) reach: Reach,
}

impl Model for Exploration {
    ghost use Rattle.campaign_orders.specs.Exploring.{Exploration as Explored};

    ghost Value = { Explored };

    ghost view = { λ e. record { findings = e.findings.items; reach = e.reach } };
}

impl Exploration {
    /// Returns the outcomes found, each with its count of orders and an example.
    pub fn findings(&self) -> &[DecisionGroup]
        ensures { result.now ≡ self.now.findings }
    {
        self.findings.as_slice()
    }

    /// Returns how many of the campaign's orders of accesses the outcomes cover.
    pub fn reach(&self) -> Reach
        ensures { result ≡ self.now.reach }
    {
        self.reach
    }
}
