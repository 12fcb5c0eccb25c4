//! Defines the strokes of a signed campaign's diagram. A stroke is a line from a sender to a receiver, for the chains
//! with one order.
ghost use Rattle.std.specs.Prelude.{◌≡◌};
ghost use Rattle.show_chains.specs.Strokes.{in_row};

use crate::signed_order::SignedOrder;
use show_diagram::Stroke;
use std::marker::Model;

/// What the strokes between two generals in a round have in common: the round, the sender, the receiver, whether the
/// chains were sent, and whether a loyal general would have done otherwise.
#[derive(Clone, Copy, Drop)]
pub struct Way {
    /// The round, counted from 1.
    pub round: usize,
    /// The general who sends or withholds the chains.
    pub teller: u8,
    /// The general who receives the chains, or would receive them.
    pub receiver: u8,
    /// Whether the chains were sent. If not, a loyal general in the sender's place would have sent them.
    pub sent: bool,
    /// Whether a loyal general in the sender's place would have done otherwise.
    pub differs: bool,
}

/// A stroke with its chains: all chains with one order that one general sent or withheld from another in a round.
#[derive(Drop)]
pub struct ChainStroke {
    pub(crate) stroke: Stroke,
    pub(crate) chains: Vec<SignedOrder>,
}

impl Model for ChainStroke {
    ghost use Rattle.show_chains.specs.Strokes.{Drawn};

    ghost Value = { Drawn };

    ghost view = { λ s. record { stroke = s.stroke; chains = s.chains.items } };
}

impl ChainStroke {
    /// Returns the stroke without its chains.
    pub(crate) fn stroke(&self) -> &Stroke
        ensures { result.now ≡ self.now.stroke }
    {
        &self.stroke
    }

    /// Returns the stroke with this number as its row in the receiver's list.
    pub(crate) fn in_row(self, row: usize) -> ChainStroke
        ensures { result ≡ in_row self row }
    {
        let ChainStroke { stroke, chains } = self;
        ChainStroke {
            stroke: Stroke { row, ..stroke },
            chains,
        }
    }

    /// Returns the chains of the stroke.
    pub(crate) fn chains(&self) -> &[SignedOrder]
        ensures { result.now ≡ self.now.chains }
    {
        self.chains.as_slice()
    }
}
