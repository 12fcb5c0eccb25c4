//! Finds which units last set a register or a cell of the stack before a given unit (reaching definitions).
ghost use Rattle.std.specs.Prelude.{◌≡◌, ◌<◌, length, replicate, slice_get, option_map, IfOk};
ghost use Rattle.insn.specs.Program.{slots_of, instruction_at};
ghost use Rattle.reaching.specs.Marks.{known_by, mark_of, marks};

use crate::mark::UnitMark;
use crate::subject::Subject;
use crate::ways::leads_open;
use insn::Program;
use std::alloc::{AllocError, Global};
use verify::AbsState;

/// Returns what is known before a unit. Returns `None` if no path leads to it, or if the list has no such unit.
pub fn known_by(states: &[Option<AbsState>], unit: usize) -> Option<&AbsState>
    ensures { option_map (λ a. a.now) result ≡ known_by (slice_get states.now unit) }
{
    states.get(unit)?.as_ref()
}

/// Returns a list of `units` marks, all of them `Closed`. Fails if memory runs out.
#[inline(never)]
fn closed(alloc: Global, units: usize) -> Result<Vec<UnitMark>, AllocError>
    ensures { IfOk result (λ marks. marks.items ≡ replicate units UnitMark.Closed) }
{
    vec![in alloc; UnitMark::Closed; units]
}

/// Returns the mark of a unit, which says what its instruction does to the register or cell. `behind` has the marks of
/// all later units.
fn mark_of(
    subject: &Subject,
    behind: &[UnitMark],
    program: &Program,
    states: &[Option<AbsState>],
    unit: usize,
) -> UnitMark
    ensures { result ≡ mark_of subject.now behind.now unit (instruction_at program.now unit)
        (known_by (slice_get states.now unit)) }
{
    let Some(insn) = program.at(unit) else {
        return UnitMark::Closed;
    };
    let Some(state) = known_by(states, unit) else {
        return UnitMark::Closed;
    };
    if !leads_open(behind, &insn, unit) {
        return UnitMark::Closed;
    }
    if subject.is_set_by(&insn, state) {
        UnitMark::Sets
    } else {
        UnitMark::Open
    }
}

/// Returns a mark for each unit of a program. The units with the mark `Sets` are those that last set the register or
/// cell before the unit `unit`. `states` has what is known before each unit. Fails if memory runs out.
pub fn marks(
    alloc: Global,
    program: &Program,
    states: &[Option<AbsState>],
    subject: &Subject,
    unit: usize,
) -> Result<Vec<UnitMark>, AllocError>
    requires { unit < length (slots_of program.now) }
    ensures { IfOk result (λ vec. vec.items ≡ marks program.now (slice_get states.now) subject.now unit) }
{
    let mut marks = closed(alloc, program.units())?;
    marks[unit] = UnitMark::Open;
    for below in 0..unit {
        let place = unit - (below + 1);
        let mark = mark_of(subject, marks.as_slice(), program, states, place);
        marks[place] = mark;
    }
    Ok(marks)
}
