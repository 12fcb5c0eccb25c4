//! Makes pseudorandom numbers, and changes bytes.
use std::alloc::{AllocError, Global};

/// Returns the next number of a linear congruential generator, from 0 to 2^31 - 1: the top 31 bits of its new state.
pub fn next(state: &mut u64) -> u64 {
    *state = stepped(*state);
    *state >> 33
}

/// Returns the state after `state` of the linear congruential generator.
pub fn stepped(state: u64) -> u64 {
    state
        .wrapping_mul(6364136223846793005)
        .wrapping_add(1442695040888963407)
}

/// Returns the bytes with `byte` at index `place`, or unchanged if there is no such index.
pub fn with_byte(
    alloc: Global,
    bytes: &[u8],
    place: usize,
    byte: u8,
) -> Result<Vec<u8>, AllocError> {
    let mut changed = bytes.to_vec(alloc)?;
    if place < changed.len() {
        changed[place] = byte;
    }
    Ok(changed)
}
