//! Masks: 64-bit words with consecutive bits set, one bit for each stack cell.
ghost use Rattle.std.specs.Prelude.{◌≡◌, ◌+◌, ◌-◌, ◌*◌, ◌^◌, ◌/◌, ◌<◌, ◌≤◌, ◌↔◌, ◌==◌, ℕ, IsTrue, min, if◌then◌else◌};
ghost use Rattle.std.specs.Int.{bit_at};

/// Returns a word whose lowest `count` bits are set.
fn lowest(count: usize) -> u64
    requires { count ≤ 64 }
    ensures { result ≡ 2 ^ count - 1 }
{
    if count == 64 {
        return u64::MAX;
    }
    (1 << count) - 1
}

/// Returns a word with the bits of the cells from index `place` up to but not including `end`, as far as they are in
/// word `number`. Word n has the bits of the cells from 64n on.
pub(crate) fn window(number: usize, place: usize, end: usize) -> u64
    requires ordered { place ≤ end }
    requires within { end ≤ 512 }
    requires begun { place / 64 ≤ number }
    requires met { 64 * number ≤ end }
    ensures { result ≡ 2 ^ min (end - 64 * number) 64 - 2 ^ (place - 64 * number) }
{
    let start = 64 * number;
    let from = place.saturating_sub(start);
    let to = (end - start).min(64);
    lowest(to) - lowest(from)
}

/// Checks whether there are 1 to 63 cells from index `place` up to but not including `end`, and all their bits are in
/// one word.
pub(crate) fn is_in_word(place: usize, end: usize) -> bool
    requires { place ≤ end }
    ensures { IsTrue result ↔ ((place < end) × (end < place + 64) × (end ≤ 64 * (place / 64) + 64)) }
{
    let size = end - place;
    0 < size && size < 64 && place % 64 + size <= 64
}

/// Returns a word with the bits of the cells from index `place` up to but not including `end`. There must be fewer than
/// 64 cells, with all their bits in one word.
pub(crate) fn in_word(place: usize, end: usize) -> u64
    requires ordered { place ≤ end }
    requires few { end < place + 64 }
    requires ends { end ≤ 64 * (place / 64) + 64 }
    ensures { result ≡ 2 ^ min (end - 64 * (place / 64)) 64 - 2 ^ (place - 64 * (place / 64)) }
{
    ((1 << (end - place)) - 1) << (place % 64)
}

/// Returns `word` with the bits of `mask` set, or cleared if `value` is false. The other bits are unchanged.
pub(crate) fn put(word: u64, mask: u64, value: bool) -> u64
    ensures { (i : ℕ) → i < 64 →
        bit_at result i ≡ (if bit_at mask i == 1 then (if value then 1 else 0) else bit_at word i) }
{
    if value { word | mask } else { word & !mask }
}

/// Checks whether all bits of `mask` are set in `word`.
pub(crate) fn has(word: u64, mask: u64) -> bool
    ensures { IsTrue result ↔ ((i : ℕ) → i < 64 → bit_at mask i ≡ 1 → bit_at word i ≡ 1) }
{
    word & mask == mask
}
