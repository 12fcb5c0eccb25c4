//! Windows: the cells (bytes) of the stack or the context that an access may touch.
ghost use Rattle.std.specs.Prelude.{pos, ◌≡◌, ◌≢◌, ◌+◌, ◌≤◌, ◌≤ℤ◌, ◌+ℤ◌, ℕ, ℤ, IfSome, IfNone};
ghost use Rattle.semantics.specs.declared.value.Region.{Region};
ghost use Rattle.semantics.specs.Memory.{window as window_at, room_of};
ghost use Rattle.absval.specs.Windows.{base_of, LiesIn, window_known};

use crate::value::Offsets;
use semantics::Region;

/// A window: consecutive cells (bytes) of a region that an access may touch.
#[derive(Clone, Copy)]
pub struct Window {
    /// The index of the first cell in its region.
    pub place: usize,
    /// The number of cells.
    pub size: usize,
}

/// Returns the number of cells of a region.
fn room(region: Region) -> usize
    ensures room { result ≡ room_of region }
    ensures few { result ≤ 4096 }
{
    match region {
        Region::Stack => 512,
        Region::Context => 4096,
    }
}

/// Returns `offset` + `distance`.
fn sum(offset: i32, distance: i16) -> i64
    ensures { result ≡ offset +ℤ distance }
{
    i64::from(offset) + i64::from(distance)
}

/// Returns the index of the cell at offset `at` of a region. The offset after the last cell has an index too. Returns
/// `None` for other offsets outside the region.
fn place_of(region: Region, at: i64) -> Option<usize>
    ensures place { IfSome result (λ n. pos n ≡ at +ℤ pos (base_of region)) }
    ensures none { IfNone result ((n : ℕ) → n ≤ room_of region → pos n ≢ at +ℤ pos (base_of region)) }
    ensures few { IfSome result (λ n. n ≤ 4096) }
{
    match region {
        Region::Stack => stack_place(at),
        Region::Context => context_place(at),
    }
}

/// Returns the index of the stack cell at an offset from -512 to 0, or `None` for any other offset. The lowest cell has
/// index 0.
fn stack_place(at: i64) -> Option<usize>
    ensures place { IfSome result (λ n. pos n ≡ at +ℤ pos 512) }
    ensures none { IfNone result ((n : ℕ) → n ≤ 512 → pos n ≢ at +ℤ pos 512) }
    ensures few { IfSome result (λ n. n ≤ 4096) }
{
    if at < -512 || at > 0 {
        return None;
    }
    Some((at + 512) as usize)
}

/// Returns the index of the context byte at an offset from 0 to 4,096, or `None` for any other offset.
fn context_place(at: i64) -> Option<usize>
    ensures place { IfSome result (λ n. pos n ≡ at +ℤ pos 0) }
    ensures none { IfNone result ((n : ℕ) → n ≤ 4096 → pos n ≢ at +ℤ pos 0) }
    ensures few { IfSome result (λ n. n ≤ 4096) }
{
    if at < 0 || at > 4096 {
        return None;
    }
    Some(at as usize)
}

/// Returns the index of the cell at `offset` + `distance` of a region. The offset after the last cell has an index too.
/// Returns `None` for other offsets outside the region.
fn place_at(region: Region, offset: i32, distance: i16) -> Option<usize>
    ensures place { IfSome result (λ n. pos n ≡ (offset +ℤ distance) +ℤ pos (base_of region)) }
    ensures none { IfNone result ((n : ℕ) → n ≤ room_of region → pos n ≢ (offset +ℤ distance) +ℤ pos (base_of region)) }
    ensures few { IfSome result (λ n. n ≤ 4096) }
{
    place_of(region, sum(offset, distance))
}

/// Returns the window of an access of `size` bytes at `distance` from a pointer with these offsets: the cells that it
/// may touch. Returns `None` if one of them may be outside the region.
pub fn window_of(region: Region, offsets: Offsets, distance: i16, size: usize) -> Option<Window>
    requires { size ≤ 4096 }
    ensures exact { result ≡ window_known region offsets.0 offsets.1 distance size }
    ensures fits { IfSome result (λ w. w.place + w.size ≤ room_of region) }
    ensures holds { IfSome result (λ w. (o : ℤ) → offsets.0 ≤ℤ o → o ≤ℤ offsets.1 →
        LiesIn w.place w.size size (window_at region (o +ℤ distance) size)) }
    ensures least { IfSome result (λ w. pos w.place ≡ (offsets.0 +ℤ distance) +ℤ pos (base_of region)) }
    ensures greatest { IfSome result
        (λ w. pos (w.place + w.size) ≡ ((offsets.1 +ℤ distance) +ℤ pos (base_of region)) +ℤ pos size) }
{
    window_between(region, offsets.low, offsets.high, distance, size)
}

/// Returns the window of an access of `size` bytes at `offset` + `distance`: the cells that it touches. Returns `None`
/// if one of them is outside the region.
fn window_at(region: Region, offset: i32, distance: i16, size: usize) -> Option<Window>
    requires { size ≤ 4096 }
    ensures exact { result ≡ window_known region offset offset distance size }
    ensures fits { IfSome result (λ w. w.place + w.size ≤ room_of region) }
    ensures holds { IfSome result (λ w. (o : ℤ) → offset ≤ℤ o → o ≤ℤ offset →
        LiesIn w.place w.size size (window_at region (o +ℤ distance) size)) }
    ensures least { IfSome result (λ w. pos w.place ≡ (offset +ℤ distance) +ℤ pos (base_of region)) }
    ensures greatest { IfSome result
        (λ w. pos (w.place + w.size) ≡ ((offset +ℤ distance) +ℤ pos (base_of region)) +ℤ pos size) }
{
    let place = place_at(region, offset, distance)?;
    if place + size > room(region) {
        return None;
    }
    Some(Window { place, size })
}

/// Returns the window of an access of `size` bytes at `distance` from a pointer with an offset from `low` to `high`:
/// the cells that it may touch. Returns `None` if one of them may be outside the region.
fn window_between(region: Region, low: i32, high: i32, distance: i16, size: usize) -> Option<Window>
    requires { size ≤ 4096 }
    ensures exact { result ≡ window_known region low high distance size }
    ensures fits { IfSome result (λ w. w.place + w.size ≤ room_of region) }
    ensures holds { IfSome result (λ w. (o : ℤ) → low ≤ℤ o → o ≤ℤ high →
        LiesIn w.place w.size size (window_at region (o +ℤ distance) size)) }
    ensures least { IfSome result (λ w. pos w.place ≡ (low +ℤ distance) +ℤ pos (base_of region)) }
    ensures greatest { IfSome result
        (λ w. pos (w.place + w.size) ≡ ((high +ℤ distance) +ℤ pos (base_of region)) +ℤ pos size) }
{
    if low == high {
        return window_at(region, low, distance, size);
    }
    let first = place_at(region, low, distance)?;
    let last = place_at(region, high, distance)?;
    if last < first || last + size > room(region) {
        return None;
    }
    Some(Window {
        place: first,
        size: last - first + size,
    })
}
