//! Recalls for proofs what the type of a letter guarantees.
ghost use Rattle.round.specs.Runs.{IsLetter};

use crate::letter::Letter;

impl Letter {
    /// Does nothing. Its contract gives the caller's proof the facts that hold for every letter (`IsLetter` in
    /// specs/Runs).
    pub fn recall(&self)
        ensures { IsLetter self.now }
    {
        let _general = self.general;
    }
}
