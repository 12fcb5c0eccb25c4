//! Passes on, along the ways of a program, which units set a cell of the stack last.
ghost use Rattle.std.specs.Prelude.{◌≡◌, ◌<◌, length, replicate, slice_get, option_map, IfOk};
ghost use Rattle.insn.specs.Program.{slots_of, instruction_at};
ghost use Rattle.reaching.specs.Marks.{known_by};
ghost use Rattle.reaching.specs.Setters.{way_from, ways_from, way_at, setters_at, setters_behind, led, led_to, passed_on};

use crate::setters::Setters;
use crate::unit_marks::known_by;
use crate::ways::{Way, way_of};
use insn::{Insn, Program};
use std::alloc::{AllocError, Global};
use verify::AbsState;

/// Returns the way from the instruction at `unit`. It ends there if there is no instruction, or if `state` is `None`
/// because no path leads to it.
fn way_from(unit: usize, insn: Option<Insn>, state: Option<&AbsState>) -> Way
    requires { unit < 4096 }
    ensures { result ≡ way_from unit insn (option_map (λ a. a.now) state.entry) }
{
    let Some(insn) = insn else {
        return Way::End;
    };
    let Some(_state) = state else {
        return Way::End;
    };
    way_of(&insn, unit)
}

/// Returns the way from each unit of a program. `states` has what is known before each unit. Fails if memory runs out.
pub(crate) fn ways_from(
    alloc: Global,
    program: &Program,
    states: &[Option<AbsState>],
) -> Result<Vec<Way>, AllocError>
    ensures { IfOk result (λ vec. vec.items
        ≡ ways_from program.now (slice_get states.now) (length (slots_of program.now))) }
{
    let mut ways = Vec::new(alloc);
    for unit in 0..program.units() {
        ways.push(way_from(unit, program.at(unit), known_by(states, unit)))?;
    }
    Ok(ways)
}

/// Returns the way from a unit. `ways` has the way from each unit.
pub(crate) fn way_at(
    program: &Program,
    states: &[Option<AbsState>],
    ways: &[Way],
    unit: usize,
) -> Way
    requires inside { unit < length (slots_of program.now) }
    requires ways { ways.now ≡ ways_from program.now (slice_get states.now) (length (slots_of program.now)) }
    ensures { result ≡ way_from unit (instruction_at program.now unit) (known_by (slice_get states.now unit)) }
{
    way_in(ways, unit)
}

/// Returns the way from a unit, from a list. It ends there if the list has no such unit.
fn way_in(ways: &[Way], unit: usize) -> Way
    ensures { result ≡ way_at (slice_get ways.now unit) }
{
    match ways.get(unit) {
        Some(way) => *way,
        None => Way::End,
    }
}

/// Returns a list with an entry for each of the given number of units. No unit has setters. Fails if memory runs out.
#[inline(never)]
pub(crate) fn nowhere(alloc: Global, units: usize) -> Result<Vec<Setters>, AllocError>
    ensures { IfOk result (λ setters. setters.items ≡ replicate units Setters.Nowhere) }
{
    vec![in alloc; Setters::Nowhere; units]
}

/// Returns the setters of a unit from a list. There are none if it has no such unit.
pub(crate) fn setters_at(into: &[Setters], unit: usize) -> Setters
    ensures { result ≡ setters_at (slice_get into.now unit) }
{
    match into.get(unit) {
        Some(found) => *found,
        None => Setters::Nowhere,
    }
}

/// Records that a path with these setters leads to a unit. Changes nothing if there is no such unit.
fn lead(into: &mut Vec<Setters>, unit: usize, more: Setters)
    ensures { into.new.items ≡ led into.old.items unit more }
{
    if unit < into.len() {
        into[unit] = into[unit].joined(more);
    }
}

/// Records that paths with these setters lead along a way. Changes nothing for units that do not exist.
fn lead_on(into: &mut Vec<Setters>, way: Way, more: Setters)
    ensures { into.new.items ≡ led_to into.old.items way more }
{
    match way {
        Way::End => (),
        Way::One(to) => lead(into, to, more),
        Way::Two(next, to) => {
            lead(into, next, more);
            lead(into, to, more)
        }
    }
}

/// Returns the setters after the instruction at a unit, from those before it. If it sets the cell, which `changed`
/// says, this is only the unit itself.
fn setters_behind(changed: bool, unit: usize, before: Setters) -> Setters
    requires { unit < 4096 }
    ensures { result ≡ setters_behind changed unit before }
{
    if changed {
        Setters::Units(unit as u16, unit as u16, false)
    } else {
        before
    }
}

/// Passes the setters of a unit, which are the units that set a cell last on the paths to it, on along the way from this
/// unit. If its instruction sets the cell, which `changed` says, passes on only the unit itself.
pub(crate) fn pass_on(into: &mut Vec<Setters>, unit: usize, way: Way, changed: bool)
    requires { unit < 4096 }
    ensures { into.new.items ≡ passed_on into.old.items unit way changed }
{
    let before = setters_at(into.as_slice(), unit);
    lead_on(into, way, setters_behind(changed, unit, before));
}
