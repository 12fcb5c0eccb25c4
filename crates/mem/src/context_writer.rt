//! Writes the bytes of a context: eight numbers on the campaign and the general, the order taken for each label, and
//! zeros.
ghost use Rattle.std.specs.Prelude.{◌≡◌, ◌<◌, ◌≤◌, ◌+◌, ◌*◌, ◌^◌, ◌++◌, All, length, flat_map, vec_len, vec_capacity, IfOk};
ghost use Rattle.word.specs.Bytes.{little_bytes};
ghost use Rattle.mem.specs.ContextLayout.{context_bytes, context_numbers};

use crate::layout::BYTES;
use byteorder::{ByteOrder, LittleEndian};
use label::Shape;
use std::alloc::{AllocError, Global};

/// Replaces `bytes` by the context of a general in one round of a campaign with this bound. `shape` has the general,
/// the round and the other numbers of the campaign. `values` are the orders that he took for the labels that he relays,
/// in the order of their ranks. There may be at most 1,000 of them.
///
/// The vector must have room for 4,096 bytes, so that nothing is allocated. A general relays at most 990 labels, with
/// 13 generals in round 5 (11 * 10 * 9), and there is room for 1,016 orders.
pub fn write_context(bytes: &mut Vec<u8>, shape: Shape, bound: u8, values: &[u32])
    requires room { 4096 ≤ vec_capacity bytes.old }
    requires rounds { shape.round ≤ shape.generals }
    requires few { length values.now ≤ 1000 }
    ensures bytes { bytes.new.items ≡ context_bytes (context_numbers shape bound values.now) }
    ensures words { All (λ v. v < 2 ^ 32) values.now }
{
    bytes.clear();
    let header = [
        shape.generals,
        u32::from(bound),
        shape.general,
        shape.commander,
        shape.round,
        values.len() as u32,
        shape.generals - shape.round,
        0,
    ];
    spell(bytes, &header);
    spell(bytes, values);
    let Ok(()) = bytes.resize(BYTES, 0) else {
        unreachable!()
    };
}

/// Returns a context that begins with the eight numbers of `header`, then has the at most 1,000 numbers of `numbers`,
/// and then zeros up to 4,096 bytes. All numbers take 4 bytes.
///
/// # Errors
///
/// `AllocError` if out of memory.
pub fn context_telling(
    alloc: Global,
    header: &[u32; 8],
    numbers: &[u32],
) -> Result<Vec<u8>, AllocError>
    requires few { length numbers.now ≤ 1000 }
    ensures { IfOk result (λ bytes. bytes.items ≡ context_bytes (header.now ++ numbers.now)) }
{
    let mut bytes = Vec::with_capacity(alloc, BYTES)?;
    spell(&mut bytes, header);
    spell(&mut bytes, numbers);
    let Ok(()) = bytes.resize(BYTES, 0) else {
        unreachable!()
    };
    Ok(bytes)
}

/// Appends each number as 4 bytes in little-endian order. The vector must have room for them.
fn spell(bytes: &mut Vec<u8>, numbers: &[u32])
    requires room { vec_len bytes.old + 4 * length numbers.now ≤ vec_capacity bytes.old }
    ensures bytes { bytes.new.items ≡ bytes.old.items ++ flat_map (little_bytes 4) numbers.now }
    ensures len { vec_len bytes.new ≡ vec_len bytes.old + 4 * length numbers.now }
    ensures capacity { vec_capacity bytes.old ≤ vec_capacity bytes.new }
{
    let front = bytes.len();
    let Ok(()) = bytes.resize(front + 4 * numbers.len(), 0) else {
        unreachable!()
    };
    LittleEndian::write_u32_into(numbers, &mut bytes.as_mut_slice()[front..]);
}
