//! Applies events to the generals' parts in the open round and to the board, and reads the parts.
ghost use Rattle.std.specs.Prelude.{◌≡◌, ◌↔◌, IsTrue, OnOk, OnErr, slice_get, is_some};
ghost use Rattle.world.specs.World.{unfit, named_by};
ghost use Rattle.world.specs.Held.{ticked_of, posted_of, AheadTo, AsksNext, steps_of};
ghost use Rattle.world.specs.Playing.{IsStill, program_length};

use crate::event::Event;
use crate::part::Progress;
use board::Board;
use std::alloc::AllocError;

/// Returns whether an event names a general who does not exist or is of the wrong kind: a tick needs a traitor, and a
/// post needs a loyal general. It is false for a close.
pub fn is_unfit(parts: &[Progress], event: Event) -> bool
    ensures { result ≡ is_some (unfit event (slice_get parts.now (named_by event))) }
{
    match event {
        Event::Tick(general) => !matches!(parts.get(general as usize), Some(Progress::Acting(_))),
        Event::Post(general) => !matches!(
            parts.get(general as usize),
            Some(Progress::Silent | Progress::Posted)
        ),
        Event::Close => false,
    }
}

/// Takes one tick of a traitor's activation: a step of his program, or a request that the board answers. For any other
/// general it does nothing.
///
/// # Errors
///
/// Fails with `AllocError` if the tick makes a request and there is no memory for the access. Then nothing has changed.
pub fn turn(
    parts: &mut Vec<Progress>,
    board: &mut Board,
    general: u32,
    round: u32,
) -> Result<(), AllocError>
    ensures done { OnOk result
        ((parts.new.items, board.new)
        ≡ ticked_of general round parts.old.items board.old (slice_get parts.old.items general)) }
    ensures undone { OnErr result ((parts.new.items ≡ parts.old.items) × (board.new ≡ board.old)) }
    ensures asking { OnErr result (AsksNext (slice_get parts.old.items general)) }
{
    let place = general as usize;
    if place >= parts.len() {
        return Ok(());
    }
    match &mut parts[place] {
        Progress::Acting(running) => running.turn(board, general, round),
        Progress::Silent => Ok(()),
        Progress::Posted => Ok(()),
    }
}

/// Takes ticks of the traitor `general` until his next tick would be a request to the board, his activation has ended,
/// or it has taken at least `limit` steps since it began. Returns the number of ticks taken, which is 0 if the general
/// is not a traitor with a running activation.
pub fn ahead(parts: &mut Vec<Progress>, general: u32, limit: u32) -> u32
    ensures { AheadTo limit result parts.old.items general (slice_get parts.old.items general) parts.new.items }
{
    let place = general as usize;
    if place >= parts.len() {
        return 0;
    }
    match &mut parts[place] {
        Progress::Acting(running) => {
            let before = running.steps();
            running.ahead(limit);
            running.steps() - before
        }
        Progress::Silent => 0,
        Progress::Posted => 0,
    }
}

/// Marks a loyal general as having posted his letter. It does nothing if he has already posted or is not a loyal
/// general.
pub fn mark_posted(parts: &mut Vec<Progress>, general: u32)
    ensures { parts.new.items ≡ posted_of general parts.old.items (slice_get parts.old.items general) }
{
    let place = general as usize;
    if let Some(Progress::Silent) = parts.get(place) {
        parts[place] = Progress::Posted;
    }
}

/// Returns whether ticks of this general change nothing: his activation has ended, or he is not a traitor.
pub fn is_still(parts: &[Progress], general: u32) -> bool
    ensures { IsTrue result ↔ IsStill (slice_get parts.now general) }
{
    match parts.get(general as usize) {
        Some(Progress::Acting(running)) => running.has_ended(),
        Some(Progress::Silent) => true,
        Some(Progress::Posted) => true,
        None => true,
    }
}

/// Returns how many steps a traitor's activation has taken, or 0 for any other general.
pub fn steps(parts: &[Progress], general: u32) -> u32
    ensures { result ≡ steps_of (slice_get parts.now general) }
{
    match parts.get(general as usize) {
        Some(Progress::Acting(running)) => running.steps(),
        Some(Progress::Silent) => 0,
        Some(Progress::Posted) => 0,
        None => 0,
    }
}

/// Returns how many instructions a traitor's program has, or `None` for any other general.
pub fn instructions(parts: &[Progress], general: u32) -> Option<u32>
    ensures { result ≡ program_length (slice_get parts.now general) }
{
    match parts.get(general as usize) {
        Some(Progress::Acting(running)) => Some(running.program().program().len() as u32),
        Some(Progress::Silent) => None,
        Some(Progress::Posted) => None,
        None => None,
    }
}
