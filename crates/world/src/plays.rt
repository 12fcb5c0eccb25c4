//! Defines worlds that can be played, whether their campaigns are oral or signed.
ghost use Rattle.std.specs.Prelude.{◌≡◌, ◌≤◌, length, OnErr, OnOk, replicate, slice_get};
ghost use Rattle.world.specs.declared.event.Event.TheVariants.{Tick, Post, Close};
ghost use Rattle.world.specs.Campaigns.{AreCampaigns};
ghost use Rattle.world.specs.Kind.{Kind, World as WorldSeen, happen, run};
ghost use Rattle.world.specs.KindHeld.{AheadTo, IsReached};
ghost use Rattle.world.specs.World.{oral_kind};

use crate::part::Progress;
use crate::world::World;
use round::Scenario;
use std::alloc::AllocError;

/// A world that can be played by ticks, posts and closes.
pub trait PlayableWorld {
    ghost kind: { Kind };

    ghost seen: { Self → WorldSeen };

    /// Returns the scenario of the campaign.
    fn campaign(&self) -> &Scenario
        ensures value { result.now ≡ (seen self.now).scenario }
        ensures reached { IsReached kind (seen self.now) }
        ensures campaigns { AreCampaigns kind };

    /// Returns what each general does in the open round, ascending by general. It is empty if all rounds are closed.
    fn open_parts(&self) -> &[Progress]
        ensures { result.now ≡ (seen self.now).parts };

    /// Returns the number of closed rounds.
    fn rounds(&self) -> usize
        ensures { result ≡ length (seen self.now).closed };

    /// Takes one tick of a traitor's activation: a step of his program, or a request that the board answers. For any
    /// other general it does nothing.
    ///
    /// # Errors
    ///
    /// Fails with `AllocError` if there is no memory for an access. Then the world is unchanged.
    fn tick(&mut self, general: u32) -> Result<(), AllocError>
        ensures done { OnOk result (seen self.new ≡ happen kind (seen self.old) (Tick general)) }
        ensures undone { OnErr result (seen self.new ≡ seen self.old) };

    /// Takes ticks of the traitor `general` until his next tick would be a request to the board, his activation has
    /// ended, or it has taken at least `limit` steps since it began. Returns the number of ticks taken, which is 0 if
    /// the general is not a traitor with a running activation.
    fn run_on(&mut self, general: u32, limit: u32) -> u32
        ensures same { seen self.new ≡ run kind (seen self.old) (replicate result (Tick general)) }
        ensures far { AheadTo limit result (seen self.old).parts general (slice_get (seen self.old).parts general)
            (seen self.new).parts };

    /// Marks a loyal general as having posted his letter. It does nothing if he has already posted or is not a loyal
    /// general.
    fn give_post(&mut self, general: u32)
        ensures { seen self.new ≡ happen kind (seen self.old) (Post general) };

    /// Closes the open round: delivers its letters, and begins the next round if there is one.
    ///
    /// # Errors
    ///
    /// Fails with `AllocError` if there is no memory for the letters or the next round. Then the world is unchanged.
    fn close_round(&mut self) -> Result<(), AllocError>
        requires { length (seen self.old).closed ≤ (seen self.old).scenario.bound }
        ensures done { OnOk result (seen self.new ≡ happen kind (seen self.old) Close) }
        ensures undone { OnErr result (seen self.new ≡ seen self.old) };
}

impl PlayableWorld for World {
    ghost kind = { oral_kind };

    ghost seen = { λ w. w };

    fn campaign(&self) -> &Scenario {
        &self.scenario
    }

    fn open_parts(&self) -> &[Progress] {
        self.parts.as_slice()
    }

    fn rounds(&self) -> usize {
        self.closed.len()
    }

    fn tick(&mut self, general: u32) -> Result<(), AllocError> {
        self.turn(general)
    }

    fn run_on(&mut self, general: u32, limit: u32) -> u32 {
        self.ahead(general, limit)
    }

    fn give_post(&mut self, general: u32) {
        self.post(general);
    }

    fn close_round(&mut self) -> Result<(), AllocError> {
        self.close()
    }
}
