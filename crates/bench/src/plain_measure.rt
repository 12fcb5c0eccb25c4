//! Defines the plain loop over a program's units, to which other work is compared.
use byteorder::{ByteOrder, LittleEndian};
use std::alloc::{AllocError, Global};

/// Reads bytecode as units of 8 bytes, little-endian. Bytes after the last whole unit are left out.
pub fn units_of(alloc: Global, bytecode: &[u8]) -> Result<Vec<u64>, AllocError> {
    let mut units = Vec::with_capacity(alloc, bytecode.len() / 8)?;
    for unit in bytecode.chunks_exact(8) {
        units.push(LittleEndian::read_u64(unit))?;
    }
    Ok(units)
}

/// Runs the plain loop, which mixes each unit into a sum, and returns the sum. Each step needs the result of the step
/// before it, so that the processor cannot do several steps at a time.
pub fn mixed(units: &[u64], first: u64) -> u64 {
    units.iter().fold(
        first,
        |sum, unit| (sum ^ *unit).rotate_left(7).wrapping_add(sum),
    )
}
