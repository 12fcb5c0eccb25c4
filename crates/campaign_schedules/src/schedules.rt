//! Makes a schedule that repeats a campaign, oral or signed, from its chronicle or from its accesses.
ghost use Rattle.std.specs.Prelude.{◌≡◌, ◌≢◌, suc, IfOk, IfErr, string_bytes};
ghost use Rattle.campaign_orders.specs.Schedules.{schedule_from};
ghost use Rattle.campaign_orders.specs.Text.{schedule_text};
ghost use Rattle.campaign_schedules.specs.Reading.{IsReadAs};
ghost use Rattle.campaign_schedules.specs.Retraced.{ComesAgain, IsLedgerOfRun, IsRetraced, IsSignedRetraced};
ghost use Rattle.signed.specs.Kind.{signed_kind};
ghost use Rattle.trace.specs.Audit.{IsFaultOf};
ghost use Rattle.trace.specs.Laws.{IsSoundText};
ghost use Rattle.trace.specs.SignedAudit.{IsSignedFaultOf, IsSoundSignedText};
ghost use Rattle.trace.specs.declared.fault.TraceError.TheVariants.{Memory};
ghost use Rattle.world.specs.Kind.{opening};
ghost use Rattle.world.specs.KindLists.{names_in};
ghost use Rattle.world.specs.World.{oral_kind};

use crate::plan::planned;
use board::Access;
use campaign_orders::{Scheduled, order_in, recall_short, schedule_text};
use round::Scenario;
use signed::SignedWorld;
use std::alloc::{AllocError, Global};
use trace::{TraceError, sound_chronicle, sound_signed_chronicle};
use world::{PlayableWorld, Schedule, World};

/// Returns the text of a schedule by which the scenario's oral campaign has the chronicle `text` again. The schedule has
/// one entry for each access. In each round the generals make their accesses in the order of the chronicle, and then
/// all programs run to their ends. Parsing the returned text gives this schedule again.
///
/// # Errors
///
/// Fails as `trace::sound_chronicle` does, if the text is not a chronicle of the scenario or memory runs out.
pub fn retraced(alloc: Global, scenario: &Scenario, text: &str) -> Result<String, TraceError>
    ensures sound { IfOk result (λ _. IsSoundText scenario.now text.now) }
    ensures retraced { IfOk result (λ lines. IsRetraced scenario.now text.now (string_bytes lines)) }
    ensures unsound { IfErr result (λ e. e ≢ Memory → IsSoundText scenario.now text.now → ⊥) }
    ensures fault { IfErr result (λ e. e ≢ Memory → IsFaultOf scenario.now text.now e) }
{
    scenario.recall();
    let chronicle = sound_chronicle(alloc, scenario, text.as_bytes())?;
    let schedule = schedule_of(alloc, scenario, chronicle.accesses())?;
    Ok(schedule_text(alloc, &schedule)?)
}

/// Returns the text of a schedule by which the scenario's signed campaign has the chronicle `text` again. The schedule
/// is as that of `retraced`.
///
/// # Errors
///
/// Fails as `trace::sound_signed_chronicle` does, if the text is not a chronicle of the scenario or memory runs out.
pub fn signed_retraced(alloc: Global, scenario: &Scenario, text: &str) -> Result<String, TraceError>
    ensures sound { IfOk result (λ _. IsSoundSignedText scenario.now text.now) }
    ensures retraced { IfOk result (λ lines. IsSignedRetraced scenario.now text.now (string_bytes lines)) }
    ensures unsound { IfErr result (λ e. e ≢ Memory → IsSoundSignedText scenario.now text.now → ⊥) }
    ensures fault { IfErr result (λ e. e ≢ Memory → IsSignedFaultOf scenario.now text.now e) }
{
    scenario.recall();
    let chronicle = sound_signed_chronicle(alloc, scenario, text.as_bytes())?;
    let schedule = signed_schedule_of(alloc, scenario, chronicle.accesses())?;
    Ok(schedule_text(alloc, &schedule)?)
}

/// Returns a schedule by which the scenario's oral campaign has the same accesses again. It has one entry for each
/// access.
///
/// # Errors
///
/// Fails with `AllocError` if it runs out of memory.
pub fn schedule_of(
    alloc: Global,
    scenario: &Scenario,
    accesses: &[Access],
) -> Result<Schedule, AllocError>
    requires { IsLedgerOfRun oral_kind scenario.now accesses.now }
    ensures again { IfOk result (λ schedule. ComesAgain oral_kind scenario.now accesses.now schedule) }
    ensures entries { IfOk result (λ schedule. schedule ≡ schedule_from oral_kind (opening oral_kind scenario.now)
        (names_in 1 accesses.now (suc scenario.now.bound))) }
    ensures read { IfOk result (λ schedule. IsReadAs (schedule_text schedule) schedule) }
{
    let world = World::open(alloc, scenario.copy(alloc)?)?;
    repetition(alloc, scenario, world, accesses)
}

/// Returns a schedule by which the scenario's signed campaign has the same accesses again. It has one entry for each
/// access.
///
/// # Errors
///
/// Fails with `AllocError` if it runs out of memory.
pub fn signed_schedule_of(
    alloc: Global,
    scenario: &Scenario,
    accesses: &[Access],
) -> Result<Schedule, AllocError>
    requires { IsLedgerOfRun signed_kind scenario.now accesses.now }
    ensures again { IfOk result (λ schedule. ComesAgain signed_kind scenario.now accesses.now schedule) }
    ensures entries { IfOk result (λ schedule. schedule ≡ schedule_from signed_kind (opening signed_kind scenario.now)
        (names_in 1 accesses.now (suc scenario.now.bound))) }
    ensures read { IfOk result (λ schedule. IsReadAs (schedule_text schedule) schedule) }
{
    let world = SignedWorld::open(alloc, scenario.copy(alloc)?)?;
    repetition(alloc, scenario, world, accesses)
}

/// Returns a schedule by which the scenario's campaign, which begins in `world`, has the same accesses again. It has one
/// entry for each access. Fails with `AllocError` if it runs out of memory.
fn repetition<W: PlayableWorld + Drop>(
    alloc: Global,
    scenario: &Scenario,
    world: W,
    accesses: &[Access],
) -> Result<Schedule, AllocError>
    requires begins { W.seen world ≡ opening W.kind scenario.now }
    requires ledger { IsLedgerOfRun W.kind scenario.now accesses.now }
    ensures again { IfOk result (λ schedule. ComesAgain W.kind scenario.now accesses.now schedule) }
    ensures entries { IfOk result (λ schedule. schedule ≡ schedule_from W.kind (opening W.kind scenario.now)
        (names_in 1 accesses.now (suc scenario.now.bound))) }
    ensures read { IfOk result (λ schedule. IsReadAs (schedule_text schedule) schedule) }
{
    scenario.recall();
    recall_short(scenario);
    let _campaign = world.campaign();
    let order = order_in(alloc, accesses, scenario.bound() as u8 + 1)?;
    match planned(alloc, scenario, world, order.as_slice())? {
        Scheduled::By(schedule) => Ok(schedule),
        // All accesses of a run can be made in the order of that run.
        Scheduled::Never(_, _) => unreachable!(),
    }
}
