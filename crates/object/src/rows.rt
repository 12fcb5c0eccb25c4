//! Runs a line number program: its state machine appends rows of addresses, files and lines.
ghost use Rattle.std.specs.Prelude.{◌≡◌, ◌<◌, ◌≤◌, ◌++◌, length, IfOk, OnOk, option_to_list};
ghost use Rattle.object.specs.Rows.{GivesRows, advanced, after, at_start, row_by, started};
ghost use Rattle.object.specs.Sources.{IsSource, origins_of};

use crate::header::Header;
use crate::origin::origin_of;
use crate::registers::{LineRegisters, LineRow};
use crate::source::LineSections;
use crate::step::{Step, step_at};
use std::alloc::{AllocError, Global};

/// Returns the registers at the beginning of a sequence.
fn at_start() -> LineRegisters
    ensures { result ≡ at_start }
{
    LineRegisters {
        address: 0,
        inside: false,
        file: 1,
        line: 1,
    }
}

/// Returns the registers with `address` added to the address and `line` added to the line, modulo 2^64.
fn advanced(registers: LineRegisters, address: u64, line: u64) -> LineRegisters
    ensures { result ≡ advanced registers address line }
{
    let mut next = registers;
    next.address = registers.address.wrapping_add(address);
    next.line = registers.line.wrapping_add(line);
    next
}

/// Returns the registers with a new address in the function's section. Without an address, they are marked as outside
/// this section.
fn started(registers: LineRegisters, address: Option<u64>) -> LineRegisters
    ensures { result ≡ started registers address }
{
    let mut next = registers;
    match address {
        Some(address) => {
            next.address = address;
            next.inside = true;
        }
        None => next.inside = false,
    }
    next
}

/// Returns the row that an instruction appends, or `None` if it appends none. `registers` are those before the
/// instruction.
fn row_by(registers: LineRegisters, step: Step) -> Option<LineRow>
    ensures { result ≡ row_by registers step }
{
    match step {
        Step::Row(address, line) => Some(LineRow {
            registers: advanced(registers, address, line),
            last: false,
        }),
        Step::End => Some(LineRow {
            registers,
            last: true,
        }),
        _ => None,
    }
}

/// Appends the row of an instruction to `rows`, if the instruction has one.
fn put_row(rows: &mut Vec<LineRow>, registers: LineRegisters, step: Step) -> Result<(), AllocError>
    ensures { OnOk result (rows.new.items ≡ rows.old.items ++ option_to_list (row_by registers step)) }
{
    match row_by(registers, step) {
        Some(row) => {
            rows.push(row)?;
            Ok(())
        }
        None => Ok(()),
    }
}

/// Returns the registers after an instruction. `registers` are those before it.
fn after(source: &LineSections, registers: LineRegisters, step: Step) -> LineRegisters
    requires { IsSource source.now }
    ensures { result ≡ after (origins_of source.now) registers step }
{
    match step {
        Step::Row(address, line) => advanced(registers, address, line),
        Step::Address(by) => advanced(registers, by, 0),
        Step::Line(by) => advanced(registers, 0, by),
        Step::File(file) => {
            let mut next = registers;
            next.file = file;
            next
        }
        Step::Start(place) => started(registers, origin(source, place)),
        Step::End => at_start(),
        Step::Other => registers,
    }
}

/// Returns the address that the operand at the byte index `place` means, or `None` if it is not in the function's
/// section.
fn origin(source: &LineSections, place: usize) -> Option<u64>
    requires { IsSource source.now }
    ensures { result ≡ origins_of source.now place }
{
    origin_of(
        source.bytes,
        source.symbols,
        source.section,
        source.size,
        source.relocations,
        place,
    )
}

/// Returns the rows that a line number program appends, or `None` if its last instruction is not complete. The program
/// begins at `header.program` and ends with the bytes of `source`.
///
/// # Errors
///
/// `AllocError` if out of memory.
pub fn read_rows(
    alloc: Global,
    header: Header,
    source: &LineSections,
) -> Result<Option<Vec<LineRow>>, AllocError>
    requires source { IsSource source.now }
    requires range { 0 < header.range }
    requires opcodes { header.opcodes ≤ 13 }
    requires begins { header.program ≤ length source.now.bytes.now }
    ensures { IfOk result (GivesRows header source.now.bytes.now (origins_of source.now)) }
{
    let mut rows = Vec::new(alloc);
    let mut registers = at_start();
    let mut place = header.program;
    while place < source.bytes.len() {
        let Some(stepped) = step_at(header, source.bytes, place) else {
            return Ok(None);
        };
        put_row(&mut rows, registers, stepped.step)?;
        registers = after(source, registers, stepped.step);
        place = stepped.next;
    }
    Ok(Some(rows))
}
