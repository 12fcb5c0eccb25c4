//! Computes the outcome of a campaign from its world: the lieutenants' decisions and the chronicle.
ghost use Rattle.std.specs.Prelude.{◌≡◌, ◌↔◌, IfSome, IsSome};
ghost use Rattle.round.specs.Letters.{messages};
ghost use Rattle.world.specs.Agreement.{IsFinished};
ghost use Rattle.world.specs.Chronicle.{decisions, chronicle_of};
ghost use Rattle.world.specs.Promises.{AgreeIfTolerable};

use crate::chronicle::Chronicle;
use crate::world::World;
use arrayvec::ArrayVec;
use resolve::resolve;

impl World {
    /// Returns the order on which each lieutenant decides from the messages so far, ascending by lieutenant. He decides
    /// by OM(m) with the scenario's rule, where m is the bound (TOPLAS 1982). It allocates no memory.
    ///
    /// Suppose all rounds are closed, every loyal general has posted in each, and the traitors are few enough. Then all
    /// loyal lieutenants decide on the same order, and on the commander's order if he is loyal.
    pub fn decisions(&self) -> ArrayVec<u32, 12>
        ensures values { result.items ≡ decisions self.now.scenario (messages self.now.closed) }
        ensures agree { IsFinished self.now → AgreeIfTolerable self.now.scenario result.items }
    {
        self.scenario.recall();
        let rule = self.scenario.rule();
        let mut decisions = ArrayVec::new();
        for tree in self.told.trees() {
            decisions.push(resolve(tree, &rule));
        }
        decisions
    }

    /// Returns the chronicle of the world's campaign. Returns `None` if a round is open, or if a loyal general had not
    /// posted in some closed round. It allocates no memory.
    pub fn chronicle(self) -> Option<Chronicle>
        ensures finished { IsSome result ↔ IsFinished self }
        ensures told { IfSome result (λ chronicle. chronicle ≡ chronicle_of self) }
    {
        if self.closed.len() <= usize::from(self.scenario.bound()) || !self.full {
            return None;
        }
        let decisions = self.decisions();
        let World {
            scenario,
            closed,
            board,
            ..
        } = self;
        Some(Chronicle::of(scenario, board.into_ledger(), closed, decisions))
    }
}
