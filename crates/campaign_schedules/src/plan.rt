//! Plans the accesses of a campaign that has just begun, oral or signed.
ghost use Rattle.std.specs.Prelude.{◌≡◌, IfOk};
ghost use Rattle.campaign_orders.specs.Planning.{BringsBack, IsPlan, IsScheduleOf};
ghost use Rattle.world.specs.Kind.{opening};
ghost use Rattle.world.specs.Playing.{lists_in};

use campaign_orders::{Scheduled, schedule_from};
use round::Scenario;
use std::alloc::{AllocError, Global};
use world::PlayableWorld;

/// Returns a schedule under which the generals in `names`, by round, make their accesses in this order, before any other
/// accesses. The scenario's campaign begins in `world`. For the order of accesses of a complete run, the schedule
/// repeats that run. If a general makes no further access in his round, returns that round and his index instead. Fails
/// with `AllocError` if it runs out of memory.
pub(crate) fn planned<W: PlayableWorld + Drop>(
    alloc: Global,
    scenario: &Scenario,
    world: W,
    names: &[Vec<u8>],
) -> Result<Scheduled, AllocError>
    requires { W.seen world ≡ opening W.kind scenario.now }
    ensures made { IfOk result
        (λ scheduled. IsScheduleOf W.kind (opening W.kind scenario.now) (lists_in names.now) scheduled) }
    ensures plan { IfOk result (λ scheduled. IsPlan W.kind scenario.now (lists_in names.now) scheduled) }
    ensures again { IfOk result (λ scheduled. BringsBack W.kind scenario.now (lists_in names.now) scheduled) }
{
    scenario.recall();
    let _campaign = world.campaign();
    schedule_from(world, alloc, names)
}
