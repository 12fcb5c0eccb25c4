//! Reads the board and the closed rounds of a world while it is played.
ghost use Rattle.std.specs.Prelude.{◌≡◌};

use crate::world::World;
use round::Round;

impl World {
    /// Returns the board's current words.
    pub fn words(&self) -> &[u64; 64]
        ensures { result.now ≡ self.now.words }
    {
        self.board.words()
    }

    /// Returns the letters of the closed rounds, the first round first, and within a round by general.
    pub fn closed_rounds(&self) -> &[Round]
        ensures { result.now ≡ self.now.closed }
    {
        self.closed.as_slice()
    }
}
