//! Plays campaigns from a scenario to their chronicle, by a schedule or as a replay. The functions that are generic
//! over the world work for oral and signed campaigns.
ghost use Rattle.std.specs.Prelude.{◌≡◌, IfOk, ◌<◌, [], suc, OnOk, replicate, slice_get, slice_index_or};
ghost use Rattle.round.specs.Letters.{messages};
ghost use Rattle.world.specs.Agreement.{IsFinished};
ghost use Rattle.world.specs.Chronicle.{decisions, chronicle_of};
ghost use Rattle.world.specs.Lists.{IsComplete, listed, replayed};
ghost use Rattle.world.specs.Playing.{lists_in, line_events};
ghost use Rattle.world.specs.Promises.{AgreeIfTolerable, AreSafeThroughout, AreWhole, IsVerdictOn, IsWellUnderBound};
ghost use Rattle.world.specs.Schedules.{lines_by, entries_of};
ghost use Rattle.world.specs.World.{opening, oral_kind, run};
ghost use Rattle.world.specs.declared.event.Event.TheVariants.{Tick, Post, Close};
ghost use Rattle.round.specs.Scenario.{program_of};
ghost use Rattle.world.specs.Kind.{each, happen, run as run_of};
ghost use Rattle.world.specs.KindLists.{event_of, post_of, ticks_of, wound_up, listed_rounds, replayed_rounds, ticks_named, names_events};

use crate::chronicle::Chronicle;
use crate::parts;
use crate::plays::PlayableWorld;
use crate::schedule::{Repeat, Schedule};
use crate::world::World;
use round::Scenario;
use std::alloc::{AllocError, Global};

/// Returns the chronicle of the scenario's campaign, played by a schedule. In each round the entries of the schedule's
/// line for this round are played one by one. Then all loyal generals post their letters, ascending, and all traitors
/// run to their ends, ascending.
///
/// # Errors
///
/// Fails with `AllocError` if it runs out of memory.
pub fn play(alloc: Global, scenario: Scenario, schedule: &Schedule) -> Result<Chronicle, AllocError>
    ensures listed { IfOk result
        (λ chronicle. chronicle ≡ chronicle_of (run (opening scenario) (listed scenario (lines_by schedule.now)))) }
    ensures complete { IfOk result (λ _. IsComplete scenario (listed scenario (lines_by schedule.now))) }
    ensures safe { IfOk result (λ _. AreSafeThroughout oral_kind scenario (listed scenario (lines_by schedule.now))) }
    ensures letters { IfOk result (λ chronicle. AreWhole oral_kind scenario chronicle.accesses chronicle.letters) }
    ensures decisions { IfOk result
        (λ chronicle. chronicle.decisions ≡ decisions scenario (messages chronicle.letters)) }
    ensures agree { IfOk result (λ chronicle. AgreeIfTolerable scenario chronicle.decisions) }
    ensures verdict { IfOk result (λ chronicle. IsVerdictOn scenario chronicle.decisions chronicle.verdict) }
    ensures well { IfOk result (λ chronicle. IsWellUnderBound chronicle.verdict) }
{
    scenario.recall();
    let world = played(alloc, scenario, schedule)?;
    match world.chronicle() {
        Some(chronicle) => Ok(chronicle),
        None => unreachable!(),
    }
}

/// Returns the chronicle of the scenario's campaign, replayed. `names` lists for each round the generals who make
/// accesses, in the order of these accesses. Traitors make their further accesses at the end of the round, ascending.
/// Lists for rounds after the last are ignored.
///
/// # Errors
///
/// Fails with `AllocError` if it runs out of memory.
pub fn replay(alloc: Global, scenario: Scenario, names: &[Vec<u8>]) -> Result<Chronicle, AllocError>
    ensures replayed { IfOk result
        (λ chronicle. chronicle ≡ chronicle_of (run (opening scenario) (replayed scenario (lists_in names.now)))) }
    ensures complete { IfOk result (λ _. IsComplete scenario (replayed scenario (lists_in names.now))) }
    ensures safe { IfOk result (λ _. AreSafeThroughout oral_kind scenario (replayed scenario (lists_in names.now))) }
    ensures letters { IfOk result (λ chronicle. AreWhole oral_kind scenario chronicle.accesses chronicle.letters) }
    ensures decisions { IfOk result
        (λ chronicle. chronicle.decisions ≡ decisions scenario (messages chronicle.letters)) }
    ensures agree { IfOk result (λ chronicle. AgreeIfTolerable scenario chronicle.decisions) }
    ensures verdict { IfOk result (λ chronicle. IsVerdictOn scenario chronicle.decisions chronicle.verdict) }
    ensures well { IfOk result (λ chronicle. IsWellUnderBound chronicle.verdict) }
{
    scenario.recall();
    let world = replayed(alloc, scenario, names)?;
    match world.chronicle() {
        Some(chronicle) => Ok(chronicle),
        None => unreachable!(),
    }
}

/// Returns the finished world of the scenario's campaign, played by a schedule. Fails with `AllocError` if it runs out
/// of memory.
fn played(alloc: Global, scenario: Scenario, schedule: &Schedule) -> Result<World, AllocError>
    ensures listed { IfOk result (λ world. world ≡ run (opening scenario) (listed scenario (lines_by schedule.now))) }
    ensures finished { IfOk result IsFinished }
{
    scenario.recall();
    let mut world = World::open(alloc, scenario)?;
    play_listed(&mut world, schedule)?;
    Ok(world)
}

/// Returns the finished world of the scenario's campaign, replayed. `names` lists for each round the generals who make
/// accesses, in the order of these accesses. Fails with `AllocError` if it runs out of memory.
fn replayed(alloc: Global, scenario: Scenario, names: &[Vec<u8>]) -> Result<World, AllocError>
    ensures replayed { IfOk result (λ world. world ≡ run (opening scenario) (replayed scenario (lists_in names.now))) }
    ensures finished { IfOk result IsFinished }
{
    scenario.recall();
    let mut world = World::open(alloc, scenario)?;
    play_named(&mut world, names)?;
    Ok(world)
}

/// Takes `times` ticks of a general's activation, or fewer if it ends. The ticks between two accesses are taken
/// together. For a general who is not a traitor it does nothing. Fails with `AllocError` if it runs out of memory.
fn tick_often<W: PlayableWorld>(world: &mut W, general: u32, times: u32) -> Result<(), AllocError>
    ensures { OnOk result (W.seen world.new ≡ run_of W.kind (W.seen world.old) (replicate times (Tick general))) }
{
    let mut left = times;
    while left > 0 {
        if parts::is_still(world.open_parts(), general) {
            return Ok(());
        }
        let steps = parts::steps(world.open_parts(), general);
        let taken = world.run_on(general, steps.saturating_add(left));
        left -= taken;
        if left > 0 {
            world.tick(general)?;
            left -= 1;
        }
    }
    Ok(())
}

/// Plays an entry of a schedule's line, which names a general and a number of times: a traitor's ticks or a loyal
/// general's posts. It does nothing if there is no such general. Fails with `AllocError` if it runs out of memory.
fn play_entry<W: PlayableWorld>(world: &mut W, repeat: Repeat) -> Result<(), AllocError>
    ensures { OnOk result (W.seen world.new
        ≡ run_of W.kind (W.seen world.old)
        (line_events (W.seen world.old).scenario (replicate repeat.times repeat.general))) }
{
    if repeat.general >= world.campaign().generals() {
        return Ok(());
    }
    if repeat.times == 0 {
        return Ok(());
    }
    repeated(world, repeat.general, u32::from(repeat.times))
}

/// Plays `times` ticks of this general if he is a traitor, or `times` posts of his letter if he is loyal. Fails with
/// `AllocError` if it runs out of memory.
fn repeated<W: PlayableWorld>(world: &mut W, general: u8, times: u32) -> Result<(), AllocError>
    requires inside { general < (W.seen world.old).scenario.generals }
    requires some { 0 < times }
    ensures { OnOk result (W.seen world.new
        ≡ run_of W.kind (W.seen world.old)
        (replicate times (event_of general (program_of (W.seen world.old).scenario general)))) }
{
    if world.campaign().is_traitor(general) {
        return tick_often(world, u32::from(general), times);
    }
    post_often(world, u32::from(general), times);
    Ok(())
}

/// Posts a loyal general's letter `times` times. That has the effect of one post.
fn post_often<W: PlayableWorld>(world: &mut W, general: u32, times: u32)
    requires { 0 < times }
    ensures { W.seen world.new ≡ run_of W.kind (W.seen world.old) (replicate times (Post general)) }
{
    let _ = times;
    world.give_post(general);
}

/// Plays the entries of a schedule's line in their order. Fails with `AllocError` if it runs out of memory.
fn play_line<W: PlayableWorld>(world: &mut W, repeats: &[Repeat]) -> Result<(), AllocError>
    ensures { OnOk result (W.seen world.new
        ≡ run_of W.kind (W.seen world.old) (line_events (W.seen world.old).scenario (entries_of repeats.now))) }
{
    for repeat in repeats {
        play_entry(world, *repeat)?;
    }
    Ok(())
}

/// Takes ticks of a traitor's activation until it has made one more access or has ended. For any other general it does
/// nothing. Fails with `AllocError` if it runs out of memory.
fn tick_to_access<W: PlayableWorld>(world: &mut W, general: u32) -> Result<(), AllocError>
    ensures { OnOk result (W.seen world.new
        ≡ run_of W.kind (W.seen world.old) (ticks_named general (slice_get (W.seen world.old).parts general))) }
{
    world.campaign().recall();
    match parts::instructions(world.open_parts(), general) {
        None => Ok(()),
        Some(most) => {
            world.run_on(general, most);
            world.tick(general)
        }
    }
}

/// Lets each general in `names` make his next access, in this order. A traitor's program runs until then. If his
/// activation ends before that, he makes none. Names of loyal generals have no effect.
///
/// # Errors
///
/// Fails with `AllocError` if it runs out of memory. The world is then valid, but nothing else is known about it, and
/// it should be dropped.
pub(crate) fn play_names<W: PlayableWorld>(world: &mut W, names: &[u8]) -> Result<(), AllocError>
    ensures { OnOk result (W.seen world.new
        ≡ run_of W.kind (W.seen world.old) (names_events W.kind (W.seen world.old) names.now)) }
{
    for general in names {
        tick_to_access(world, u32::from(*general))?;
    }
    Ok(())
}

/// Marks the general as having posted his letter if he is loyal. For a traitor it does nothing.
fn post_if_loyal<W: PlayableWorld>(world: &mut W, general: u8)
    requires { general < (W.seen world.old).scenario.generals }
    ensures { W.seen world.new
        ≡ run_of W.kind (W.seen world.old) (post_of general (program_of (W.seen world.old).scenario general)) }
{
    if !world.campaign().is_traitor(general) {
        world.give_post(u32::from(general));
    }
}

/// Takes ticks of a traitor's activation until it has ended. For a loyal general it does nothing. Fails with
/// `AllocError` if it runs out of memory.
fn tick_to_end<W: PlayableWorld>(world: &mut W, general: u8) -> Result<(), AllocError>
    requires { general < (W.seen world.old).scenario.generals }
    ensures { OnOk result (W.seen world.new
        ≡ run_of W.kind (W.seen world.old) (ticks_of general (program_of (W.seen world.old).scenario general))) }
{
    match world.campaign().seat(general).program() {
        Some(program) => {
            let most = program.program().len();
            tick_often(world, u32::from(general), most as u32)
        }
        None => Ok(()),
    }
}

/// Marks all loyal generals as having posted their letters.
fn all_post<W: PlayableWorld>(world: &mut W)
    ensures { W.seen world.new
        ≡ run_of W.kind (W.seen world.old)
        (each (W.seen world.old).scenario.generals (λ g. post_of g (program_of (W.seen world.old).scenario g))) }
{
    for general in 0..world.campaign().generals() {
        post_if_loyal(world, general);
    }
}

/// Takes ticks of all traitors' activations until they have ended, one traitor after the other, ascending. Fails with
/// `AllocError` if it runs out of memory.
fn all_end<W: PlayableWorld>(world: &mut W) -> Result<(), AllocError>
    ensures { OnOk result (W.seen world.new
        ≡ run_of W.kind (W.seen world.old)
        (each (W.seen world.old).scenario.generals (λ g. ticks_of g (program_of (W.seen world.old).scenario g)))) }
{
    for general in 0..world.campaign().generals() {
        tick_to_end(world, general)?;
    }
    Ok(())
}

/// Closes the open round. If all rounds are closed, it does nothing. Fails with `AllocError` if it runs out of memory.
fn end_round<W: PlayableWorld>(world: &mut W) -> Result<(), AllocError>
    ensures { OnOk result (W.seen world.new ≡ happen W.kind (W.seen world.old) Close) }
{
    if world.rounds() > usize::from(world.campaign().bound()) {
        return Ok(());
    }
    world.close_round()
}

/// Finishes the round: all loyal generals post their letters, all traitors' activations run to their ends, and the
/// round is closed.
///
/// # Errors
///
/// Fails with `AllocError` if it runs out of memory. The world is then valid, but nothing else is known about it, and
/// it should be dropped.
pub(crate) fn wind_up<W: PlayableWorld>(world: &mut W) -> Result<(), AllocError>
    ensures { OnOk result (W.seen world.new ≡ run_of W.kind (W.seen world.old) (wound_up (W.seen world.old).scenario)) }
{
    all_post(world);
    all_end(world)?;
    end_round(world)
}

/// Plays a round by this line of a schedule, and finishes it: loyal generals post, traitors run to their ends, and the
/// round is closed. Fails with `AllocError` if it runs out of memory.
fn listed_round<W: PlayableWorld>(world: &mut W, line: &[Repeat]) -> Result<(), AllocError>
    ensures { OnOk result (W.seen world.new
        ≡ run_of W.kind
        (run_of W.kind (W.seen world.old) (line_events (W.seen world.old).scenario (entries_of line.now)))
        (wound_up (W.seen world.old).scenario)) }
{
    play_line(world, line)?;
    wind_up(world)
}

/// Plays a round in which the generals in `names` make their accesses in this order, and finishes it: loyal generals
/// post, traitors run to their ends, and the round is closed.
///
/// # Errors
///
/// Fails with `AllocError` if it runs out of memory. The world is then valid, but nothing else is known about it, and
/// it should be dropped.
pub(crate) fn named_round<W: PlayableWorld>(world: &mut W, names: &[u8]) -> Result<(), AllocError>
    ensures { OnOk result (W.seen world.new
        ≡ run_of W.kind (run_of W.kind (W.seen world.old) (names_events W.kind (W.seen world.old) names.now))
        (wound_up (W.seen world.old).scenario)) }
{
    play_names(world, names)?;
    wind_up(world)
}

/// Plays `bound + 1` rounds by a schedule. If the world has just been opened, this is the whole campaign.
///
/// # Errors
///
/// Fails with `AllocError` if it runs out of memory. The world is then valid, but nothing else is known about it, and
/// it should be dropped.
pub(crate) fn play_listed<W: PlayableWorld>(
    world: &mut W,
    schedule: &Schedule,
) -> Result<(), AllocError>
    ensures { OnOk result (W.seen world.new
        ≡ run_of W.kind (W.seen world.old)
        (listed_rounds (W.seen world.old).scenario (suc (W.seen world.old).scenario.bound) (lines_by schedule.now))) }
{
    let rounds = usize::from(world.campaign().bound()) + 1;
    for round in 0..rounds {
        listed_round(world, line_at(schedule, round))?;
    }
    Ok(())
}

/// Plays `bound + 1` rounds. `names` lists for each round the generals who make accesses, in the order of these
/// accesses. Traitors make their further accesses at the end of the round. If the world has just been opened, this is
/// the whole campaign.
///
/// # Errors
///
/// Fails with `AllocError` if it runs out of memory. The world is then valid, but nothing else is known about it, and
/// it should be dropped.
pub(crate) fn play_named<W: PlayableWorld>(
    world: &mut W,
    names: &[Vec<u8>],
) -> Result<(), AllocError>
    ensures { OnOk result (W.seen world.new
        ≡ run_of W.kind (W.seen world.old)
        (replayed_rounds W.kind (W.seen world.old) (suc (W.seen world.old).scenario.bound) (lists_in names.now))) }
{
    let rounds = usize::from(world.campaign().bound()) + 1;
    for round in 0..rounds {
        named_round(world, names_at(names, round))?;
    }
    Ok(())
}

/// Returns the entries of a schedule's line for a round, counted from 0, or no entries if the schedule has no line for
/// it.
fn line_at(schedule: &Schedule, round: usize) -> &[Repeat]
    ensures { result.now ≡ slice_index_or schedule.now round [] }
{
    match schedule.lines.get(round) {
        Some(line) => line.repeats.as_slice(),
        None => &[],
    }
}

/// Returns the list of `names` for a round, counted from 0, or an empty list if there is none for it.
fn names_at(names: &[Vec<u8>], round: usize) -> &[u8]
    ensures { result.now ≡ slice_index_or (lists_in names.now) round [] }
{
    match names.get(round) {
        Some(line) => line.as_slice(),
        None => &[],
    }
}
