//! Defines a round as the list of its letters.
ghost use Rattle.std.specs.Prelude.{◌≡◌};

use crate::letter::Letter;
use std::marker::Model;

/// The letters of a round. Contracts see it as a list of letters.
#[derive(Drop)]
pub struct Round {
    /// The letters, ascending by general. A loyal general who has not posted has none.
    pub letters: Vec<Letter>,
}

impl Model for Round {
    ghost use Rattle.std.specs.Prelude.{List};
    ghost use Rattle.round.specs.Letters.{Letter as LetterSeen};

    ghost Value = { List LetterSeen };

    ghost view = { λ r. r.letters.items };
}

impl Round {
    /// Returns the letters of the round.
    pub fn letters(&self) -> &[Letter]
        ensures { result.now ≡ self.now }
    {
        self.letters.as_slice()
    }
}
