//! Recalls for proofs what the types of scenarios and players guarantee.
ghost use Rattle.std.specs.Prelude.{◌≡◌, ℕ, List, Option, Some, IfSome, slice_get};
ghost use Rattle.insn.specs.declared.insn.Insn.{Insn};
ghost use Rattle.semantics.specs.Run.{IsSound};
ghost use Rattle.round.specs.Scenario.{IsScenario};

use crate::scenario::Scenario;
use crate::seat::Player;

impl Scenario {
    /// Does nothing. Its contract says that the scenario's numbers are within their limits, such as at most 13
    /// generals.
    pub fn recall(&self)
        ensures { IsScenario self.now }
    {
        let _generals = self.generals();
    }
}

/// Does nothing. Its contract says that the program of each player is sound.
pub(crate) fn recall_sound(seats: &[Player])
    ensures { (i : ℕ) (program : List Insn) → slice_get seats.now i ≡ Some (Some program) → IsSound program }
{
    for seat in seats {
        let _sound = seat.program();
    }
}
