//! Finds for each cell of the stack which units of a program set it last on the paths to each unit.
ghost use Rattle.std.specs.Prelude.{◌≡◌, ◌<◌, length, slice_get, option_map, IfOk};
ghost use Rattle.insn.specs.Program.{slots_of, instruction_at};
ghost use Rattle.reaching.specs.declared.subject.Subject.TheVariants.{Cell};
ghost use Rattle.reaching.specs.Marks.{known_by};
ghost use Rattle.reaching.specs.Setting.{set_by};
ghost use Rattle.reaching.specs.Setters.{ways_from, setters, setters_at};
ghost use Rattle.reaching.specs.Columns.{stack_behind, stacks_behind, stack_at, changed_in, IsColumn, AreColumns};

use crate::cells::held_at;
use crate::flow::{nowhere, pass_on, setters_at, way_at, ways_from};
use crate::setters::Setters;
use crate::transfer::left_by;
use crate::unit_marks::known_by;
use crate::ways::Way;
use absmem::AbsStack;
use insn::{Insn, Program};
use std::alloc::{AllocError, Global};
use verify::AbsState;

/// For one cell of the stack and each unit of a program, the units that set the cell last on the paths to this unit. A
/// unit sets the cell if its instruction changes what is known of it.
#[derive(Drop)]
pub struct Column {
    pub setters: Vec<Setters>,
}

/// Returns the abstract stack after a store or a call. Returns `None` for any other instruction, and if `state` is
/// `None` because no path leads to the instruction.
fn stack_behind(insn: Option<Insn>, state: Option<&AbsState>) -> Option<AbsStack>
    ensures { result ≡ stack_behind insn (option_map (λ a. a.now) state.entry) }
{
    let Some(insn) = insn else {
        return None;
    };
    let Some(state) = state else {
        return None;
    };
    match &insn {
        Insn::Store { .. } | Insn::Call { .. } => Some(left_by(&insn, state).stack.copy()),
        _ => None,
    }
}

/// Returns an entry for each unit: the abstract stack after its instruction. An entry is `None` if the instruction is
/// neither a store nor a call, or if no path leads to it. Fails if memory runs out.
fn stacks_behind(
    alloc: Global,
    program: &Program,
    states: &[Option<AbsState>],
) -> Result<Vec<Option<AbsStack>>, AllocError>
    ensures { IfOk result (λ vec. vec.items
        ≡ stacks_behind program.now (slice_get states.now) (length (slots_of program.now))) }
{
    let mut stacks = Vec::new(alloc);
    for unit in 0..program.units() {
        stacks.push(stack_behind(program.at(unit), known_by(states, unit)))?;
    }
    Ok(stacks)
}

/// Returns the abstract stack after the instruction at a unit. Returns `None` if the list has none for this unit.
fn stack_at(stacks: &[Option<AbsStack>], unit: usize) -> Option<&AbsStack>
    ensures { option_map (λ s. s.now) result ≡ stack_at (slice_get stacks.now unit) }
{
    stacks.get(unit)?.as_ref()
}

/// Checks whether an instruction changes what is known of a cell. `state` is known before the instruction, and `behind`
/// is the abstract stack after it. Returns `false` if one of them is `None`.
fn changed_in(cell: u16, state: Option<&AbsState>, behind: Option<&AbsStack>) -> bool
    ensures { result ≡ changed_in cell (option_map (λ a. a.now) state.entry) (option_map (λ s. s.now) behind.entry) }
{
    let Some(state) = state else {
        return false;
    };
    let Some(behind) = behind else {
        return false;
    };
    let place = usize::from(cell);
    !held_at(&state.stack, place).is_same(held_at(behind, place))
}

/// Checks whether the instruction at a unit sets a cell, which means that it changes what is known of the cell.
/// `stacks` has an entry for each unit: the abstract stack after its instruction.
fn sets_cell(
    program: &Program,
    states: &[Option<AbsState>],
    stacks: &[Option<AbsStack>],
    cell: u16,
    unit: usize,
) -> bool
    requires inside { unit < length (slots_of program.now) }
    requires left { stacks.now ≡ stacks_behind program.now (slice_get states.now) (length (slots_of program.now)) }
    ensures { result ≡ set_by (Cell cell) (instruction_at program.now unit) (known_by (slice_get states.now unit)) }
{
    changed_in(cell, known_by(states, unit), stack_at(stacks, unit))
}

/// Returns for each unit which units set a cell last on the paths to it. `stacks` has an entry for each unit: the
/// abstract stack after its instruction. `ways` has the way from each unit. Fails if memory runs out.
fn setters_of(
    alloc: Global,
    program: &Program,
    states: &[Option<AbsState>],
    stacks: &[Option<AbsStack>],
    ways: &[Way],
    cell: u16,
) -> Result<Vec<Setters>, AllocError>
    requires stacks { stacks.now ≡ stacks_behind program.now (slice_get states.now) (length (slots_of program.now)) }
    requires ways { ways.now ≡ ways_from program.now (slice_get states.now) (length (slots_of program.now)) }
    ensures { IfOk result (λ vec. vec.items ≡ setters program.now (slice_get states.now) (Cell cell)) }
{
    let mut into = nowhere(alloc, program.units())?;
    for unit in 0..program.units() {
        let way = way_at(program, states, ways, unit);
        let changed = sets_cell(program, states, stacks, cell, unit);
        pass_on(&mut into, unit, way, changed);
    }
    Ok(into)
}

/// Returns the units that set a cell last on the paths to a unit, from the column of this cell. Returns `Nowhere` if the
/// program has no such unit. `states` has what is known before each unit.
pub fn last_setters(
    program: &Program,
    states: &[Option<AbsState>],
    column: &Column,
    cell: u16,
    unit: usize,
) -> Setters
    requires { IsColumn program.now (slice_get states.now) cell column.now }
    ensures { result ≡ setters_at (slice_get (setters program.now (slice_get states.now) (Cell cell)) unit) }
{
    setters_at(column.setters.as_slice(), unit)
}

/// Returns a column for each of the 512 cells of the stack, from the lowest on. It has for each unit of the program the
/// units that set the cell last on the paths to this unit. `states` has what is known before each unit. Fails if memory
/// runs out.
pub fn columns(
    alloc: Global,
    program: &Program,
    states: &[Option<AbsState>],
) -> Result<Vec<Column>, AllocError>
    ensures { IfOk result (λ vec. AreColumns program.now (slice_get states.now) vec.items) }
{
    let stacks = stacks_behind(alloc, program, states)?;
    let ways = ways_from(alloc, program, states)?;
    let mut columns = Vec::new(alloc);
    for cell in 0..512 {
        let (behind, onward) = (stacks.as_slice(), ways.as_slice());
        let setters = setters_of(alloc, program, states, behind, onward, cell)?;
        columns.push(Column { setters })?;
    }
    Ok(columns)
}
