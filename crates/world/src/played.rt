//! Plays a world that the caller passes, of any kind of campaign, and returns it. If there is no memory, the world is
//! dropped.
ghost use Rattle.std.specs.Prelude.{◌≡◌, suc, IfOk};
ghost use Rattle.world.specs.Kind.{run};
ghost use Rattle.world.specs.KindLists.{wound_up, listed_rounds, replayed_rounds, names_events};
ghost use Rattle.world.specs.Playing.{lists_in};
ghost use Rattle.world.specs.Schedules.{lines_by};

use crate::campaign::{named_round, play_listed, play_named, play_names, wind_up};
use crate::plays::PlayableWorld;
use crate::schedule::Schedule;
use std::alloc::AllocError;

/// Returns the world after the generals that are named have made their accesses in this order, in the open round.
///
/// # Errors
///
/// Fails with `AllocError` if it runs out of memory.
pub fn names_played<W: PlayableWorld + Drop>(mut world: W, names: &[u8]) -> Result<W, AllocError>
    ensures { IfOk result (λ played. W.seen played
        ≡ run W.kind (W.seen world) (names_events W.kind (W.seen world) names.now)) }
{
    play_names(&mut world, names)?;
    Ok(world)
}

/// Returns the world with its round finished: all loyal generals post, all traitors run to their ends, and the round is
/// closed.
///
/// # Errors
///
/// Fails with `AllocError` if it runs out of memory.
pub fn round_finished<W: PlayableWorld + Drop>(mut world: W) -> Result<W, AllocError>
    ensures { IfOk result (λ played. W.seen played
        ≡ run W.kind (W.seen world) (wound_up (W.seen world).scenario)) }
{
    wind_up(&mut world)?;
    Ok(world)
}

/// Returns the world after a round in which these generals make their accesses in this order, with the round finished.
///
/// # Errors
///
/// Fails with `AllocError` if it runs out of memory.
pub fn round_played<W: PlayableWorld + Drop>(mut world: W, names: &[u8]) -> Result<W, AllocError>
    ensures { IfOk result (λ played. W.seen played
        ≡ run W.kind (run W.kind (W.seen world) (names_events W.kind (W.seen world) names.now))
        (wound_up (W.seen world).scenario)) }
{
    named_round(&mut world, names)?;
    Ok(world)
}

/// Returns the world after `bound + 1` rounds by a schedule. From the opening of a world on, this is the whole campaign.
///
/// # Errors
///
/// Fails with `AllocError` if it runs out of memory.
pub fn schedule_played<W: PlayableWorld + Drop>(
    mut world: W,
    schedule: &Schedule,
) -> Result<W, AllocError>
    ensures { IfOk result (λ played. W.seen played
        ≡ run W.kind (W.seen world)
        (listed_rounds (W.seen world).scenario (suc (W.seen world).scenario.bound) (lines_by schedule.now))) }
{
    play_listed(&mut world, schedule)?;
    Ok(world)
}

/// Returns the world after `bound + 1` rounds in which these generals, by round, make their accesses in this order.
/// Accesses that are not named follow as each round is finished. From the opening of a world on, this is the whole
/// campaign.
///
/// # Errors
///
/// Fails with `AllocError` if it runs out of memory.
pub fn rounds_played<W: PlayableWorld + Drop>(
    mut world: W,
    names: &[Vec<u8>],
) -> Result<W, AllocError>
    ensures { IfOk result (λ played. W.seen played
        ≡ run W.kind (W.seen world)
        (replayed_rounds W.kind (W.seen world) (suc (W.seen world).scenario.bound) (lists_in names.now))) }
{
    play_named(&mut world, names)?;
    Ok(world)
}
