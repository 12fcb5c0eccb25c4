//! Pending states: what the verifier's pass knows at units that it has not visited yet.
ghost use Rattle.std.specs.Prelude.{◌≡◌, ◌-◌, ◌<◌, ◌≤◌, ◌++◌, Some, None, [], length, replicate, slice_set, is_none, pos, IfOk, vec_len, vec_capacity};
ghost use Rattle.verify.specs.Judgement.{KnownSoFar, reached_at, along, joined_with};
ghost use Rattle.verify.specs.Kept.{unboxed, AtHand};

use crate::registers;
use crate::state::AbsState;
use std::alloc::{AllocError, Global};
use std::marker::Model;

/// What the verifier's pass knows at each unit that it has not visited yet, and a spare box that can be used again.
#[derive(Drop)]
pub struct Pending {
    /// What is known at each unit, up to the last one for which a state was kept. The units after it have no state.
    states: Vec<Option<Box<AbsState>>>,
    /// The number of units. `states` has reserved memory for this number of entries.
    units: usize,
    spare: Option<Box<AbsState>>,
}

impl Model for Pending {
    ghost use Rattle.std.specs.Prelude.{vec_len, vec_capacity};
    ghost use Rattle.verify.specs.Kept.{KeptStates, all_unboxed, padded, HasRoom};

    ghost Value = { KeptStates };

    ghost view = { λ p. record { items = padded p.units (all_unboxed p.states.items); places = vec_len p.states } };

    ghost invariant = { λ p. HasRoom (vec_len p.states) (vec_capacity p.states) p.units };
}

/// Puts a state into a box of its own.
pub fn boxed(alloc: Global, state: AbsState) -> Result<Box<AbsState>, AllocError>
    ensures { IfOk result (λ b. b.value ≡ state) }
{
    let boxed = Box::new(alloc, state)?;
    Ok(boxed)
}

/// The number of units from which on `empty` reserves memory for all states once. 128 states take 131,072 bytes, which
/// is as much as an allocator has ready or requests from the system at once.
const MANY_STATES: usize = 128;

/// Allocates memory for `states` states in one piece, and returns it as an empty vector.
fn room_for_states(alloc: Global, states: usize) -> Result<Vec<AbsState>, AllocError>
    ensures { IfOk result (λ room. room.items ≡ []) }
{
    Vec::with_capacity(alloc, states)
}

/// Returns pending states for `units` units, with no state kept.
///
/// If there are many units, memory for all their states is allocated in one piece and released at once. An allocator
/// such as glibc's then keeps that much memory instead of returning it to the system, and the states of the next
/// program, each in its own box, need no new pages. If this allocation fails, `empty` still succeeds.
pub fn empty(alloc: Global, units: usize) -> Result<Pending, AllocError>
    ensures { IfOk result (λ pending. pending.items ≡ replicate units None) }
{
    if units >= MANY_STATES {
        drop(room_for_states(alloc, units));
    }
    let states = Vec::with_capacity(alloc, units)?;
    Ok(Pending {
        states,
        units,
        spare: None,
    })
}

/// Removes and returns the state that is kept for a unit, or returns `None` if none is kept.
pub fn take(pending: &mut Pending, unit: usize) -> Option<Box<AbsState>>
    requires { unit < length pending.old.items }
    ensures value { unboxed result ≡ reached_at pending.old.items unit }
    ensures rest { pending.new.items ≡ slice_set pending.old.items unit None }
    ensures places { pending.new.places ≡ pending.old.places }
{
    if unit >= pending.states.len() {
        return None;
    }
    pending.states[unit].take()
}

/// Returns a copy of the state that is kept for a unit, or `None` if none is kept.
pub fn kept(pending: &Pending, unit: usize) -> Option<AbsState>
    requires { unit < length pending.now.items }
    ensures { result ≡ reached_at pending.now.items unit }
{
    if unit >= pending.states.len() {
        return None;
    }
    match &pending.states[unit] {
        Some(state) => Some(state.copy()),
        None => None,
    }
}

/// Appends `None` to `states` until there is an entry for each unit before `unit`. The memory must be reserved.
fn extend(states: &mut Vec<Option<Box<AbsState>>>, unit: usize)
    requires behind { vec_len states.old ≤ unit }
    requires room { unit ≤ vec_capacity states.old }
    ensures items { states.new.items ≡ states.old.items ++ replicate (unit - vec_len states.old) None }
    ensures len { vec_len states.new ≡ unit }
    ensures capacity { vec_capacity states.new ≡ vec_capacity states.old }
{
    while states.len() < unit {
        states.push_reserved(None);
    }
}

/// Keeps a state for a unit that has no entry in `states` yet.
#[inline(never)]
fn keep_behind(pending: &mut Pending, unit: usize, state: Box<AbsState>)
    requires behind { pending.old.places ≤ unit }
    requires inside { unit < length pending.old.items }
    ensures { pending.new.items ≡ slice_set pending.old.items unit (Some state.value) }
{
    extend(&mut pending.states, unit);
    pending.states.push_reserved(Some(state));
}

/// Keeps a state for a unit that already has an entry in `states`. A state that was kept there is replaced.
#[inline(always)]
fn keep_inside(pending: &mut Pending, unit: usize, state: Box<AbsState>)
    requires { unit < pending.old.places }
    ensures { pending.new.items ≡ slice_set pending.old.items unit (Some state.value) }
{
    pending.states[unit] = Some(state);
}

/// Keeps a state for a unit. A state that was kept for it is replaced.
fn keep(pending: &mut Pending, unit: usize, state: Box<AbsState>)
    requires { unit < length pending.old.items }
    ensures { pending.new.items ≡ slice_set pending.old.items unit (Some state.value) }
{
    if unit >= pending.states.len() {
        keep_behind(pending, unit, state);
        return;
    }
    keep_inside(pending, unit, state);
}

/// Checks whether no state is kept for a unit. The unit must have an entry in `states`.
#[inline(always)]
fn is_free(pending: &Pending, unit: usize) -> bool
    requires { unit < pending.now.places }
    ensures { result ≡ is_none (reached_at pending.now.items unit) }
{
    pending.states[unit].is_none()
}

/// Removes the state that is kept for a unit, and returns its join with `state`. Returns `state` if none is kept. The
/// box of the removed state becomes the spare one.
#[inline(never)]
fn meet(pending: &mut Pending, unit: usize, mut state: Box<AbsState>) -> Box<AbsState>
    requires { unit < length pending.old.items }
    ensures value { result.value ≡ joined_with (reached_at pending.old.items unit) state.value }
    ensures rest { pending.new.items ≡ slice_set pending.old.items unit None }
    ensures places { pending.new.places ≡ pending.old.places }
{
    let Some(before) = take(pending, unit) else {
        return state;
    };
    state.join(&before);
    pending.spare = Some(before);
    state
}

/// Removes the state that is kept for a unit, and returns its join with `state`. Returns `state` if none is kept. The
/// unit must have an entry in `states`.
#[inline(always)]
fn come_inside(pending: &mut Pending, unit: usize, state: Box<AbsState>) -> Box<AbsState>
    requires inside { unit < length pending.old.items }
    requires placed { unit < pending.old.places }
    ensures value { result.value ≡ joined_with (reached_at pending.old.items unit) state.value }
    ensures rest { pending.new.items ≡ slice_set pending.old.items unit None }
    ensures places { pending.new.places ≡ pending.old.places }
{
    if is_free(pending, unit) {
        return state;
    }
    meet(pending, unit, state)
}

/// Removes the state that is kept for a unit, and returns its join with `state`. Returns `state` if none is kept.
#[inline(always)]
pub fn come(pending: &mut Pending, unit: usize, state: Box<AbsState>) -> Box<AbsState>
    requires { unit < length pending.old.items }
    ensures value { result.value ≡ joined_with (reached_at pending.old.items unit) state.value }
    ensures rest { pending.new.items ≡ slice_set pending.old.items unit None }
{
    if unit >= pending.states.len() {
        return state;
    }
    come_inside(pending, unit, state)
}

/// Returns a copy of a state in a box. The spare box is used if there is one. A new box is made with the entry state
/// first, which takes the fewest writes.
pub fn second(
    alloc: Global,
    pending: &mut Pending,
    state: &AbsState,
) -> Result<Box<AbsState>, AllocError>
    ensures value { IfOk result (λ b. b.value ≡ state.now) }
    ensures rest { pending.new.items ≡ pending.old.items }
{
    let mut spare = match pending.spare.take() {
        Some(spare) => spare,
        None => boxed(alloc, registers::at_entry())?,
    };
    spare.assign(state);
    Ok(spare)
}

/// Keeps a state for a unit. If one is already kept, keeps the join of both.
#[inline(always)]
pub fn flow(pending: &mut Pending, unit: usize, state: Box<AbsState>)
    requires { unit < length pending.old.items }
    ensures { pending.new.items ≡ along (pos unit, state.value) pending.old.items }
{
    if unit >= pending.states.len() {
        keep_behind(pending, unit, state);
        return;
    }
    let state = come_inside(pending, unit, state);
    keep_inside(pending, unit, state);
}

/// Removes and returns the state that is kept for a unit. Returns `None` if none is kept, or if there is no such unit.
#[inline(always)]
pub fn take_next(pending: &mut Pending, unit: usize) -> Option<Box<AbsState>>
    ensures value { unboxed result ≡ reached_at pending.old.items unit }
    ensures rest { pending.new.items ≡ slice_set pending.old.items unit None }
{
    if unit >= pending.states.len() {
        return None;
    }
    take(pending, unit)
}

/// Undoes `take_next`: keeps `state` for the unit from which it was taken. Does nothing if `state` is `None`.
pub fn put_back(pending: &mut Pending, unit: usize, state: Option<Box<AbsState>>)
    ensures { (reached : KnownSoFar) → AtHand reached unit state pending.old.items → pending.new.items ≡ reached }
{
    if let Some(state) = state {
        if unit < pending.units {
            keep(pending, unit, state);
        }
    }
}
