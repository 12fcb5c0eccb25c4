//! Makes a schedule by which the generals access the board in a given order, in oral and in signed campaigns.
ghost use Rattle.std.specs.Prelude.{◌≡◌, ◌≤◌, Err, IfErr, IfOk, length, string_bytes};
ghost use Rattle.campaign_schedules.specs.Accesses.{accesses_told};
ghost use Rattle.campaign_schedules.specs.Arranged.{IfFault, IsArranged, IsArrangement, IsListedAt, IsNever, IsUnarranged, IsUnmade};
ghost use Rattle.campaign_schedules.specs.declared.fault.AccessFault.{AccessFault as Fault};
ghost use Rattle.campaign_schedules.specs.declared.fault.AccessesError.TheVariants.{At};
ghost use Rattle.signed.specs.Kind.{signed_kind};
ghost use Rattle.world.specs.Kind.{opening};
ghost use Rattle.world.specs.Playing.{lists_in};
ghost use Rattle.world.specs.World.{oral_kind};

use crate::access_list::accesses_of;
use crate::fault::{AccessFault, AccessesError};
use crate::plan::planned;
use campaign_orders::{Scheduled, recall_short, schedule_text};
use round::Scenario;
use signed::SignedWorld;
use std::alloc::Global;
use world::{PlayableWorld, World};

/// Returns the fault of a listed access that cannot be made. The arguments `round` and `place` are counted from 0,
/// but the numbers in the fault from 1.
fn never(rows: &[Vec<u8>], round: usize, place: usize) -> AccessFault
    requires { IsListedAt (lists_in rows.now) round place }
    ensures { IsNever (lists_in rows.now) round place result }
{
    match rows.get(round) {
        Some(row) => match row.get(place) {
            Some(general) => AccessFault::Never(round as u64 + 1, place as u64 + 1, *general),
            None => unreachable!(),
        },
        None => unreachable!(),
    }
}

/// Returns the text of a schedule by which the generals of an oral campaign access the board in the order that `text`
/// lists, such as `1 2 1/2`. Slashes separate the rounds, and spaces separate the generals of a round. In each round the
/// listed generals make their accesses first, and then all programs run to their ends. The schedule has one entry for
/// each listed access. Parsing the returned text gives this schedule again.
///
/// # Errors
///
/// Fails with the fault of the first word that is not the number of a general, or of a sixth round, which needs no
/// memory. Otherwise fails with the fault of the first access that cannot be made, or with `Memory` if memory runs
/// out.
#[tactic(auto, using(crate::proofs::Stopping::arranged_as, crate::proofs::Stopping::unarranged_as))]
pub fn arranged(alloc: Global, scenario: &Scenario, text: &str) -> Result<String, AccessesError>
    ensures arranged { IfOk result (λ lines. IsArranged oral_kind scenario.now text.now (string_bytes lines)) }
    ensures unarranged { IfErr result (λ e. IfFault e (IsUnarranged oral_kind scenario.now text.now)) }
    ensures unlisted { (fault : Fault) → accesses_told text.now ≡ Err fault → result ≡ Err (At fault) }
{
    let rows = accesses_of(alloc, text)?;
    let world = World::open(alloc, scenario.copy(alloc)?)?;
    arrangement(alloc, scenario, world, rows.as_slice())
}

/// Returns the text of a schedule by which the generals of a signed campaign access the board in the order that `text`
/// lists. List and schedule are as those of `arranged`.
///
/// # Errors
///
/// Fails as `arranged` does.
#[tactic(auto, using(crate::proofs::Stopping::arranged_as, crate::proofs::Stopping::unarranged_as))]
pub fn signed_arranged(
    alloc: Global,
    scenario: &Scenario,
    text: &str,
) -> Result<String, AccessesError>
    ensures arranged { IfOk result (λ lines. IsArranged signed_kind scenario.now text.now (string_bytes lines)) }
    ensures unarranged { IfErr result (λ e. IfFault e (IsUnarranged signed_kind scenario.now text.now)) }
    ensures unlisted { (fault : Fault) → accesses_told text.now ≡ Err fault → result ≡ Err (At fault) }
{
    let rows = accesses_of(alloc, text)?;
    let world = SignedWorld::open(alloc, scenario.copy(alloc)?)?;
    arrangement(alloc, scenario, world, rows.as_slice())
}

/// Returns the text of a schedule by which the generals in `rows` access the board in this order, in the scenario's
/// campaign, which begins in `world`. `rows` has for each round the generals who make accesses, and at most 5 rounds.
///
/// # Errors
///
/// Fails with the fault of the first access that cannot be made, or with `Memory` if memory runs out.
fn arrangement<W: PlayableWorld + Drop>(
    alloc: Global,
    scenario: &Scenario,
    world: W,
    rows: &[Vec<u8>],
) -> Result<String, AccessesError>
    requires begins { W.seen world ≡ opening W.kind scenario.now }
    requires few { length rows.now ≤ 5 }
    ensures arranged { IfOk result
        (λ lines. IsArrangement W.kind scenario.now (lists_in rows.now) (string_bytes lines)) }
    ensures unarranged { IfErr result (λ e. IfFault e (IsUnmade W.kind scenario.now (lists_in rows.now))) }
{
    scenario.recall();
    recall_short(scenario);
    let _campaign = world.campaign();
    match planned(alloc, scenario, world, rows)? {
        Scheduled::By(schedule) => Ok(schedule_text(alloc, &schedule)?),
        Scheduled::Never(round, place) => Err(AccessesError::At(never(rows, round, place))),
    }
}
