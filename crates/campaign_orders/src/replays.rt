//! Plays a campaign from its start up to some access.
ghost use Rattle.std.specs.Prelude.{◌≡◌, IfOk};
ghost use Rattle.campaign_orders.specs.Layers.{reached};
ghost use Rattle.campaign_orders.specs.OpenRounds.{world_in};
ghost use Rattle.campaign_orders.specs.Stages.{world_at};
ghost use Rattle.world.specs.Kind.{opening};
ghost use Rattle.world.specs.Playing.{lists_in};
ghost use Rattle.world.specs.World.{oral_kind};

use crate::open_round::OpenRound;
use crate::stage::Stage;
use round::Scenario;
use std::alloc::{AllocError, Global};
use world::{World, names_played, round_played};

/// Plays a campaign from its start and returns its world after these accesses. `rows` lists for each closed round the
/// generals who made its accesses, and `names` lists those for the open round. Fails with `AllocError` if it runs out
/// of memory.
pub(crate) fn played(
    alloc: Global,
    scenario: &Scenario,
    rows: &[Vec<u8>],
    names: &[u8],
) -> Result<World, AllocError>
    ensures { IfOk result (λ world. world ≡ reached (opening oral_kind scenario.now) (lists_in rows.now) names.now) }
{
    let mut world = World::open(alloc, scenario.copy(alloc)?)?;
    for (round, row) in rows.iter().enumerate() {
        let _ = round;
        let next = round_played(world, row.as_slice())?;
        world = next;
    }
    let last = names_played(world, names)?;
    Ok(last)
}

/// Plays a campaign from its start and returns the open round after these accesses. `rows` lists for each closed round
/// the generals who made its accesses, and `names` lists those for the open round. Fails with `AllocError` if it runs
/// out of memory.
pub(crate) fn played_round(
    alloc: Global,
    scenario: &Scenario,
    rows: &[Vec<u8>],
    names: &[u8],
) -> Result<OpenRound, AllocError>
    ensures { IfOk result (λ round. world_in (lists_in rows.now) names.now round
        ≡ reached (opening oral_kind scenario.now) (lists_in rows.now) names.now) }
{
    let world = played(alloc, scenario, rows, names)?;
    let round = OpenRound::begin(alloc, world)?;
    Ok(round)
}

/// Returns the stage with its world as an open round. If the stage has no world, this plays the campaign from its
/// start. `rows` lists for each closed round the generals who made its accesses, and `names` lists those for the open
/// round. Fails with `AllocError` if it runs out of memory.
pub(crate) fn opened_stage(
    alloc: Global,
    stage: Stage,
    rows: &[Vec<u8>],
    names: &[u8],
) -> Result<Stage, AllocError>
    ensures { IfOk result
        (λ later. world_at (lists_in rows.now) names.now later ≡ world_at (lists_in rows.now) names.now stage) }
{
    match stage {
        Stage::Open(round) => Ok(Stage::Open(round)),
        Stage::Begun(scenario) => {
            let round = played_round(alloc, scenario.scenario(), rows, names)?;
            Ok(Stage::Open(round))
        }
    }
}
