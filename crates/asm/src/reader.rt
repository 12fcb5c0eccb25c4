//! Reads the lines of an assembly text in order, and stores their names and instructions.

ghost use Rattle.std.specs.Prelude.{◌≡◌, ◌+◌, ◌^◌, ◌<◌, ◌≤◌, ◌++◌, ◌∷◌, [], map, length, OnOk, IfErr, IfOk, Some, None};
ghost use Rattle.asm.specs.Program.{Read, line_read, with_words, with_name, with_source, read_on, nothing, lines_of};
ghost use Rattle.asm.specs.Views.{kept_view, source_view, draft_view, name_view};
ghost use Rattle.asm.specs.Keeping.{KeepsRead, GivesRead, Keeps, GivesGathered, units_kept};

use crate::draft::{DraftInstruction, Kept, Statement, units};
use crate::fault::{AsmError, AsmFault, LineError};
use crate::line::next_line;
use crate::outline::read_outline;
use crate::statement::read_statement;
use insn::Program;
use std::alloc::Global;
use std::collections::BTreeMap;

/// The greatest number of units of a program. Further instructions are counted, but not stored.
pub const MOST_UNITS: u64 = Program::MOST_UNITS as u64;

/// What the assembler has read of a text so far.
#[derive(Drop)]
pub struct Reading<'a> {
    /// For each name, the unit that follows it.
    pub names: BTreeMap<&'a [u8], u64>,
    /// The number of units that all instructions take.
    pub units: u64,
    /// The instructions with their lines, up to but not including the one with which the units exceed 4,096.
    pub sources: Vec<Kept<'a>>,
    /// The number of lines, set after the last one is read.
    pub lines: u64,
}

/// Defines a name for the next unit. Fails with `Twice` if the name is already defined, or with `Memory`.
fn put_name<'a>(reading: &mut Reading<'a>, name: &'a [u8]) -> Result<(), LineError>
    ensures read { (r : Read) → Keeps reading.old r → GivesRead result reading.new (with_name r (Some name.now)) }
    ensures units { reading.new.units ≡ reading.old.units }
{
    if reading.names.contains_key(name) {
        return Err(LineError::Fault(AsmFault::Twice));
    }
    reading.names.insert(name, reading.units)?;
    Ok(())
}

/// Defines the name of a line for the next unit. Does nothing if the line has no name. Fails with `Twice` if the name
/// is already defined, or with `Memory`.
fn read_name<'a>(reading: &mut Reading<'a>, name: Option<&'a [u8]>) -> Result<(), LineError>
    ensures read { (r : Read) → Keeps reading.old r →
        GivesRead result reading.new (with_name r (name_view name.entry)) }
    ensures units { reading.new.units ≡ reading.old.units }
{
    match name {
        None => Ok(()),
        Some(name) => put_name(reading, name),
    }
}

/// Appends an instruction and the number of its line to the stored ones. Fails with `Memory`.
fn push_kept<'a>(
    sources: &mut Vec<Kept<'a>>,
    draft: DraftInstruction,
    name: &'a [u8],
    line: u64,
) -> Result<(), LineError>
    ensures ok { OnOk result (map kept_view sources.new.items ≡ map kept_view sources.old.items ++ (record {
      source =
          draft_view draft name.now;
      line = line;
    }) ∷ []) }
    ensures err { IfErr result (λ e. e ≡ LineError.Memory) }
{
    let statement = Statement { draft, name };
    sources.extend_from_slice(&[Kept { statement, line }])?;
    Ok(())
}

/// Adds the units of an instruction to the count, and stores the instruction unless the count exceeds 4,096. Fails with
/// `Memory`.
fn put_source<'a>(
    reading: &mut Reading<'a>,
    statement: &Statement<'a>,
    line: u64,
) -> Result<(), LineError>
    requires { reading.old.units + 2 < 2 ^ 64 }
    ensures read { (r : Read) → Keeps reading.old r →
        KeepsRead result reading.new (with_source r line (Some (source_view statement.now))) }
    ensures units { reading.new.units ≤ reading.old.units + 2 }
{
    reading.units += units(statement);
    if reading.units <= MOST_UNITS {
        push_kept(&mut reading.sources, statement.draft, statement.name, line)?;
    }
    Ok(())
}

/// Reads an instruction from the words of a line, and stores it. Does nothing if there are no words. Fails with the
/// line's fault, or with `Memory`.
#[tactic(auto, unfolding(crate::specs::Program::with_words))]
fn put_words<'a>(reading: &mut Reading<'a>, words: &[&'a [u8]], line: u64) -> Result<(), LineError>
    requires { reading.old.units + 2 < 2 ^ 64 }
    ensures read { (r : Read) → Keeps reading.old r →
        GivesRead result reading.new (with_words r line (map (λ w. w.now) words.now)) }
    ensures units { reading.new.units ≤ reading.old.units + 2 }
{
    match read_statement(words) {
        Err(fault) => Err(LineError::Fault(fault)),
        Ok(None) => Ok(()),
        Ok(Some(statement)) => put_source(reading, &statement, line),
    }
}

/// Reads a line, and stores its name and its instruction. Fails with the line's fault, or with `Memory`.
#[tactic(auto, unfolding(crate::specs::Program::line_read, crate::specs::Program::with_line))]
fn read_line<'a>(
    reading: &mut Reading<'a>,
    words: &mut Vec<&'a [u8]>,
    text: &'a [u8],
    line: u64,
) -> Result<(), LineError>
    requires { reading.old.units + 2 < 2 ^ 64 }
    ensures read { (r : Read) → Keeps reading.old r → GivesRead result reading.new (line_read r line text.now) }
    ensures units { reading.new.units ≤ reading.old.units + 2 }
{
    let name = match read_outline(words, text) {
        Ok(name) => name,
        Err(e) => return Err(e),
    };
    match read_name(reading, name) {
        Ok(()) => {}
        Err(e) => return Err(e),
    }
    put_words(reading, words, line)
}

/// Reads all lines of a text. Fails with the first line's fault and its number, or with `Memory`.
pub fn gather<'a>(alloc: Global, text: &'a [u8]) -> Result<Reading<'a>, AsmError>
    ensures read { GivesGathered result (read_on nothing 1 (lines_of text.now)) }
    ensures units { IfOk result (λ reading. reading.units ≤ 4096 → reading.units ≡ units_kept reading.sources.items) }
    ensures lines { IfOk result (λ reading. reading.lines ≡ length (lines_of text.now)) }
{
    let mut reading = Reading {
        names: BTreeMap::new(alloc),
        units: 0,
        sources: Vec::new(alloc),
        lines: 0,
    };
    let mut words = Vec::new(alloc);
    let mut lines = 0;
    let mut rest = text;
    while let Some((line, after)) = next_line(rest) {
        lines += 1;
        match read_line(&mut reading, &mut words, line, lines) {
            Ok(()) => {}
            Err(LineError::Memory) => return Err(AsmError::Memory),
            Err(LineError::Fault(fault)) => return Err(AsmError::At(fault, lines)),
        }
        rest = after;
    }
    reading.lines = lines;
    Ok(reading)
}
