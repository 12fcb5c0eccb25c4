//! Tests of the codec, which decodes bytes into programs and encodes programs.

use codec::{CodecError, CodecFault, decode, encode};
use insn::Program;
use std::alloc::Global;

/// Checks whether the codec rejects the bytes with `fault` at the unit `unit`.
fn is_refused(alloc: Global, bytes: &[u8], fault: CodecFault, unit: usize) -> bool {
    match decode(alloc, bytes) {
        Err(error) => error == CodecError::At(fault, unit),
        Ok(_) => false,
    }
}

/// Checks that bytes are rejected if they have more units than a program may have. If their number is not a multiple of
/// 8, this is reported first.
#[test]
fn long_bytes_are_refused(rt: HostRuntime) {
    let alloc = rt.alloc();
    assert!(rt; is_refused(alloc, &[0; 32_775], CodecFault::Length, 4096));
    assert!(rt; is_refused(alloc, &[0; 32_776], CodecFault::Count, 0));
}

/// What the codec does with one unit of 8 bytes.
#[derive(Clone, Copy, PartialEq, Eq)]
enum Answer {
    /// It decodes the unit to a program, and encodes this program to the same bytes.
    Taken,
    /// It rejects the unit, because the project does not support this instruction.
    LeftOut,
    /// It rejects the unit, because no instruction has this opcode.
    Unknown,
    /// It does anything else, for example rejects the unit for another reason.
    Other,
}

/// Checks whether the codec encodes a program to these bytes.
fn is_spelt(alloc: Global, program: &Program, bytes: &[u8]) -> bool {
    match encode(alloc, program) {
        Ok(spelt) => spelt.as_slice() == bytes,
        Err(_) => false,
    }
}

/// Returns the answer for a unit that was decoded to a program. `is_spelt` says whether the program is encoded to the
/// same unit.
fn taken(is_spelt: bool) -> Answer {
    if is_spelt {
        Answer::Taken
    } else {
        Answer::Other
    }
}

/// Decodes a unit, and encodes the result if it is a program. Returns what the codec did.
fn answered(alloc: Global, unit: &[u8]) -> Answer {
    match decode(alloc, unit) {
        Ok(program) => taken(is_spelt(alloc, &program, unit)),
        Err(CodecError::At(CodecFault::LeftOut, _)) => Answer::LeftOut,
        Err(CodecError::At(CodecFault::Opcode, _)) => Answer::Unknown,
        _ => Answer::Other,
    }
}

/// Counts for how many opcodes the codec does `wanted`. Each opcode is tried in a unit in which all other bytes are 0.
fn count(alloc: Global, wanted: Answer) -> u32 {
    let mut found = 0u32;
    for opcode in 0..=255u8 {
        if answered(alloc, &[opcode, 0, 0, 0, 0, 0, 0, 0]) == wanted {
            found = found.wrapping_add(1);
        }
    }
    found
}

/// Tries each of the 256 opcodes in a unit in which all other bytes are 0. 117 opcodes are supported, and 113 of these
/// units are accepted. The other four are the wide instruction, whose second half is missing, and the three swaps,
/// since a swap of 0 bits does not exist.
#[test]
fn opcodes_taken(rt: HostRuntime) {
    let alloc = rt.alloc();
    assert!(rt; count(alloc, Answer::Taken) == 113 && count(alloc, Answer::LeftOut) == 8);
    assert!(rt; count(alloc, Answer::Unknown) == 131 && count(alloc, Answer::Other) == 4);
}
