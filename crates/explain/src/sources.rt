//! Finds what a stack cell holds at a unit, and which units set it.
ghost use Rattle.std.specs.Prelude.{◌≡◌, ◌<◌, ◌++◌, string_bytes, OnOk};
ghost use Rattle.explain.specs.Sources.{sources, others_text, further_text, from_text};
ghost use Rattle.explain.specs.Here.{Stands, known_of, held_here, same_held};

use absmem::AbsStack;
use asm::{put, put_unsigned};
use insn::Program;
use reaching::{CellContent, Column, Setters, held_at, last_setters};
use std::alloc::AllocError;
use verify::AbsState;

/// What a stack cell holds at a unit, and the units that set it last on the paths to that unit.
#[derive(Clone, Copy)]
pub(crate) struct Held {
    pub content: CellContent,
    pub setters: Setters,
}

impl Held {
    /// Checks whether two cells have the same content, set by the same units.
    pub(crate) fn is_same(self, other: Held) -> bool
        ensures { result ≡ same_held self other }
    {
        self.content.is_same(other.content) && self.setters.is_same(other.setters)
    }
}

/// A program, what is known at each of its units, and for each of the 512 stack cells which units set it last on the
/// paths to each unit.
#[derive(Clone, Copy)]
pub(crate) struct Surveyed<'a> {
    pub program: &'a Program,
    pub states: &'a [Option<AbsState>],
    pub columns: &'a [Column],
}

/// A unit of a program, and what is known of the stack there.
#[derive(Clone, Copy)]
pub(crate) struct Here<'a> {
    pub surveyed: Surveyed<'a>,
    pub unit: usize,
    pub stack: &'a AbsStack,
}

/// Returns the units that set a stack cell last on the paths to the unit `here`.
fn sources(here: &Here<'_>, cell: usize) -> Setters
    requires stands { Stands here.now }
    requires inside { cell < 512 }
    ensures { result ≡ sources here.now.surveyed.program.now (known_of here.now.surveyed) here.now.unit cell }
{
    let Surveyed {
        program,
        states,
        columns,
    } = here.surveyed;
    let column = &columns[cell];
    last_setters(program, states, column, cell as u16, here.unit)
}

/// Returns what a stack cell holds at the unit `here`, and the units that set it last.
pub(crate) fn held_here(here: &Here<'_>, cell: usize) -> Held
    requires stands { Stands here.now }
    requires inside { cell < 512 }
    ensures { (result.content, result.setters) ≡ held_here here.now cell }
{
    Held {
        content: held_at(here.stack, cell),
        setters: sources(here, cell),
    }
}

/// Appends the end of a list of units: whether there are others between the first and the last.
fn put_others(out: &mut String, more: bool) -> Result<(), AllocError>
    ensures { OnOk result (string_bytes out.new ≡ string_bytes out.old ++ others_text more) }
{
    if more {
        put(out, " or others between)")
    } else {
        put(out, ")")
    }
}

/// Appends the units after the first and the closing bracket, such as ` or 5)`. `more` says whether there are others
/// between the first and the last.
fn put_further(out: &mut String, first: u16, last: u16, more: bool) -> Result<(), AllocError>
    ensures { OnOk result (string_bytes out.new ≡ string_bytes out.old ++ further_text first last more) }
{
    if first == last {
        return put(out, ")");
    }
    put(out, " or ")?;
    put_unsigned(out, u64::from(last))?;
    put_others(out, more)
}

/// Appends the units that set a stack cell, such as ` (from 3 or 5)`: the first, the last, and whether there are others
/// between. Appends nothing if there are none.
pub(crate) fn put_from(out: &mut String, setters: Setters) -> Result<(), AllocError>
    ensures { OnOk result (string_bytes out.new ≡ string_bytes out.old ++ from_text setters) }
{
    let Setters::Units(first, last, more) = setters else {
        return Ok(());
    };
    put(out, " (from ")?;
    put_unsigned(out, u64::from(first))?;
    put_further(out, first, last, more)
}
