//! Reports faults of bytecode: the sentence, and the part of the unit's hex digits to mark.
ghost use Rattle.std.specs.Prelude.{◌≡◌, ◌≤◌, IfOk, option_map, string_bytes};
ghost use Rattle.cli_report.specs.Bytecode.{byte_of, bytecode_told, choice_place, choice_sentence, left_out_place, left_out_sentence, unit_at, unit_marked, unit_place, unit_sentence, unit_told};
ghost use Rattle.cli_report.specs.Report.{mark_view};

use crate::lines::marked;
use crate::report::{Mark, behind, front, report};
use codec::CodecFault;
use std::alloc::{AllocError, Global};
use text::{Base, digits};

/// The greatest size of a program in bytes: 4096 units of 8 bytes.
const MOST_BYTES: usize = 32768;

/// Returns the number in the first two hex digits, or 0 if they are no hex digits.
fn byte_of(hex: &[u8]) -> u128
    ensures { result ≡ byte_of hex.now }
{
    digits(Base::Sixteen, front(hex, 2)).unwrap_or(0)
}

/// Returns the error sentence for a BPF instruction with this opcode that byzlab does not support.
fn left_out_sentence(opcode: u128) -> &'static str
    ensures { result.now ≡ left_out_sentence opcode }
{
    match opcode {
        0x85 =>
            "a local call of a function in the program (group base32), or a call of a helper by its BTF id, \
             is not supported",
        0x18 => "a wide load of a map, a variable or code (group base64) is not supported",
        0xc3 => "a 32-bit atomic instruction (group atomic32) is not supported",
        0xdb => "a 64-bit atomic instruction (group atomic64) is not supported",
        _ => "a packet load (group packet) is not supported",
    }
}

/// Returns the error sentence for a field that selects no form of the instruction with this opcode. For example, the
/// width of a byte swap must be 16, 32 or 64 bits.
fn choice_sentence(opcode: u128) -> &'static str
    ensures { result.now ≡ choice_sentence opcode }
{
    match opcode {
        0xd4 | 0xd7 | 0xdc => "the number of a byte swap must be 16, 32 or 64, its width in bits",
        0xbc | 0xbf =>
            "the offset of a move must be 0, or the number of bits to sign-extend: 8, 16 or, in 64 bits, 32",
        _ => "the offset of a division or remainder must be 0, or 1 if it is signed",
    }
}

/// Returns the error sentence for a fault in the unit of bytecode with these hex digits.
pub(crate) fn unit_sentence(fault: CodecFault, hex: &[u8]) -> &'static str
    ensures { result.now ≡ unit_sentence fault hex.now }
{
    match fault {
        CodecFault::Length => "the file ends within this unit, and a unit has 8 bytes",
        CodecFault::Opcode => "no instruction has this opcode",
        CodecFault::Reserved => "a field that this instruction does not use is not zero",
        CodecFault::WideCut => "the second half of this wide instruction is missing",
        CodecFault::Register => "the registers are r0 to r10",
        CodecFault::LeftOut => left_out_sentence(byte_of(hex)),
        CodecFault::Operand => choice_sentence(byte_of(hex)),
        CodecFault::Count => "a program must have 1 to 4096 units",
    }
}

/// Returns which hex digits of a unit show that its instruction is not supported: how many digits are before them, and
/// how many they are.
fn left_out_place(opcode: u128) -> (usize, usize)
    ensures { result ≡ left_out_place opcode }
{
    match opcode {
        0x85 | 0x18 => (2, 2),
        _ => (0, 2),
    }
}

/// Returns which hex digits of a unit select the form of its instruction: how many digits are before them, and how many
/// they are.
fn choice_place(opcode: u128) -> (usize, usize)
    ensures { result ≡ choice_place opcode }
{
    match opcode {
        0xd4 | 0xd7 | 0xdc => (8, 8),
        _ => (4, 4),
    }
}

/// Returns which hex digits of a unit are at fault: how many digits are before them, and how many they are.
pub(crate) fn unit_place(fault: CodecFault, hex: &[u8]) -> (usize, usize)
    ensures place { result ≡ unit_place fault hex.now }
    ensures few { result.0 ≤ 8 }
{
    match fault {
        CodecFault::Opcode => (0, 2),
        CodecFault::Register => (2, 2),
        CodecFault::LeftOut => left_out_place(byte_of(hex)),
        CodecFault::Operand => choice_place(byte_of(hex)),
        _ => (0, 16),
    }
}

/// Returns the 8 bytes of unit `unit`, counted from 0. If the file ends within or before the unit, returns the bytes
/// that it has. Returns none from unit 4096 on.
fn unit_at(bytes: &[u8], unit: usize) -> &[u8]
    ensures { result.now ≡ unit_at bytes.now unit }
{
    let program = front(bytes, MOST_BYTES);
    if unit >= 4096 {
        return &[];
    }
    front(behind(program, 8 * unit), 8)
}

/// Marks the hex digits that are at fault in a unit. Returns `None` if the file has no such unit, or if the fault is
/// the number of units.
fn unit_marked(fault: CodecFault, unit: usize, hex: &[u8]) -> Option<Mark<'_>>
    ensures { option_map mark_view result ≡ unit_marked fault unit hex.now }
{
    if fault == CodecFault::Count || hex.is_empty() {
        return None;
    }
    let (from, size) = unit_place(fault, hex);
    Some(marked(unit as u64, hex, from, size))
}

/// Returns the report of a fault at unit `unit` of bytecode, counted from 0. The excerpt shows the unit's number and
/// its hex digits. `name` is the file's name.
#[tactic(auto, unfolding(crate::specs::Bytecode::bytecode_told))]
pub fn of_bytecode(
    alloc: Global,
    name: &str,
    bytes: &[u8],
    fault: CodecFault,
    unit: usize,
) -> Result<String, AllocError>
    ensures { IfOk result (λ told. string_bytes told ≡ bytecode_told name.now bytes.now fault unit) }
{
    let hex = hex::encode(alloc, unit_at(bytes, unit))?;
    let hex = hex.as_bytes();
    report(
        alloc,
        name,
        unit_sentence(fault, hex),
        unit_marked(fault, unit, hex),
        None,
    )
}
