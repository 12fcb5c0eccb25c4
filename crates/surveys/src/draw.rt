//! Draws pseudo-random numbers from a seed by SplitMix64.
ghost use Rattle.std.specs.Prelude.{◌≡◌, ◌≤◌, ◌<◌, ◌^◌};
ghost use Rattle.surveys.specs.Draws.{draw, folded, mixed, within};
ghost use Rattle.surveys.specs.Plotting.{count_in};

use crate::span::CountRange;

/// The number that SplitMix64 adds to its state from one random number to the next.
const STEP: u64 = 0x9e37_79b9_7f4a_7c15;

/// Combines a word with itself, shifted right by `places` bits, by exclusive or, and multiplies the result by `factor`,
/// modulo 2^64. `places` is 0 to 63.
fn folded(word: u64, places: u32, factor: u64) -> u64
    requires { places < 64 }
    ensures { result ≡ folded word places factor }
{
    (word ^ (word >> places)).wrapping_mul(factor)
}

/// Mixes the bits of a word: returns the random number that SplitMix64 computes from this state.
#[tactic(auto, unfolding(crate::specs::Draws::mixed))]
fn mixed(word: u64) -> u64
    ensures { result ≡ mixed word }
{
    let once = folded(word, 30, 0xbf58_476d_1ce4_e5b9);
    let twice = folded(once, 27, 0x94d0_49bb_1331_11eb);
    twice ^ (twice >> 31)
}

/// Returns the random number of 64 bits at index `place` of the sequence that `seed` determines. Indices are counted
/// from 0.
#[tactic(auto, unfolding(crate::specs::Draws::draw))]
pub(crate) fn draw(seed: u64, place: u16) -> u64
    ensures { result ≡ draw seed place }
{
    mixed(seed.wrapping_add((u64::from(place) + 1).wrapping_mul(STEP)))
}

/// Returns how many numbers a range contains, its ends included.
pub(crate) fn count_in(span: CountRange) -> u64
    requires { span.low ≤ span.high }
    ensures number { result ≡ count_in span }
    ensures some { 0 < result }
{
    u64::from(span.high) + 1 - u64::from(span.low)
}

/// Returns the number of `span` that the random number `drawn` selects: the least number of the span, plus `drawn`
/// modulo the count of its numbers.
pub(crate) fn within(span: CountRange, drawn: u64) -> u8
    requires { span.low ≤ span.high }
    ensures number { result ≡ within span drawn }
    ensures least { span.low ≤ result }
    ensures greatest { result ≤ span.high }
{
    let count = u64::from(span.high) + 1 - u64::from(span.low);
    span.low + (drawn % count) as u8
}
