//! Parses the numbers and ranges that options take, such as `4` and `4..7`.
ghost use Rattle.std.specs.Prelude.{ℕ, ◌≡◌, ◌≤◌, ◌<◌, ◌-◌, ◌^◌, ◌==◌, cond, IfNone, IfSome, None, Some};
ghost use Rattle.surveyor.specs.Numbers.{AreTold, IsNoSpan, IsTold};
ghost use Rattle.text.specs.Number.{decimal_of};

use surveys::CountRange;
use text::decimal;

/// The most seeds that a survey may have.
const MOST_SEEDS: u64 = 10_000_000;

/// Parses a decimal number less than `limit`. Returns `None` for any other word.
fn below(limit: u128, word: &str) -> Option<u64>
    requires { limit ≤ 2 ^ 64 }
    ensures inside { IfSome result (λ number. number < limit) }
    ensures told { IfSome result (λ number. decimal_of word.now ≡ Some number) }
    ensures refused { IfNone result ((number : ℕ) → decimal_of word.now ≡ Some number → limit ≤ number) }
{
    let number = decimal(word.as_bytes())?;
    if number < limit {
        Some(number as u64)
    } else {
        None
    }
}

/// Parses the two decimal numbers of a range, both less than `limit`. Returns `None` if a word is not such a number, or
/// if the first number is greater than the second.
fn both(limit: u128, low: &str, high: &str) -> Option<(u64, u64)>
    requires { limit ≤ 2 ^ 64 }
    ensures ordered { IfSome result (λ r. r.0 ≤ r.1) }
    ensures inside { IfSome result (λ r. r.1 < limit) }
    ensures told { IfSome result (λ r. AreTold low.now high.now r.0 r.1) }
    ensures refused { IfNone result ((a b : ℕ) → AreTold low.now high.now a b → a ≤ b → b < limit → ⊥) }
{
    let low = below(limit, low)?;
    let high = below(limit, high)?;
    if low <= high { Some((low, high)) } else { None }
}

/// Parses a range such as `4..7`, and returns its first and last number. One number, such as `4`, is the range of only
/// this number. Returns `None` for any other word, if the first number is greater than the last, or if the last is not
/// less than `limit`.
fn ends(limit: u128, word: &str) -> Option<(u64, u64)>
    requires { limit ≤ 2 ^ 64 }
    ensures ordered { IfSome result (λ r. r.0 ≤ r.1) }
    ensures inside { IfSome result (λ r. r.1 < limit) }
    ensures told { IfSome result (λ r. IsTold word.now r.0 r.1) }
    ensures refused { IfNone result (IsNoSpan limit word.now) }
{
    match word.split_once("..") {
        Some((low, high)) => both(limit, low, high),
        None => both(limit, word, word),
    }
}

/// Parses a decimal number less than `limit`. Returns `None` for any other word.
pub fn small(limit: u8, word: &str) -> Option<u8>
    ensures inside { IfSome result (λ number. number < limit) }
    ensures told { IfSome result (λ number. decimal_of word.now ≡ Some number) }
    ensures refused { IfNone result ((number : ℕ) → decimal_of word.now ≡ Some number → number < limit → ⊥) }
{
    let number = below(u128::from(limit), word)?;
    Some(number as u8)
}

/// Parses a range of numbers from 0 to 13, such as `4` or `4..7`. Returns `None` for any other word.
pub fn span(word: &str) -> Option<CountRange>
    ensures ordered { IfSome result (λ s. s.low ≤ s.high) }
    ensures inside { IfSome result (λ s. s.high < 14) }
    ensures told { IfSome result (λ s. IsTold word.now s.low s.high) }
    ensures refused { IfNone result (IsNoSpan 14 word.now) }
{
    let (low, high) = ends(14, word)?;
    Some(CountRange {
        low: low as u8,
        high: high as u8,
    })
}

/// Parses a range of at most 10,000,000 seeds, such as `1..1000`, and returns the first and the last seed. A seed is
/// less than 2^64 - 1. Returns `None` for any other word.
pub fn seeds(word: &str) -> Option<(u64, u64)>
    ensures ordered { IfSome result (λ r. r.0 ≤ r.1) }
    ensures inside { IfSome result (λ r. r.1 < 2 ^ 64 - 1) }
    ensures told { IfSome result (λ r. IsTold word.now r.0 r.1) }
    ensures few { IfSome result (λ r. r.1 - r.0 < 10000000) }
    ensures refused { IfNone result ((first last : ℕ) →
        IsTold word.now first last → first ≤ last → last < 2 ^ 64 - 1 → last - first < 10000000 → ⊥) }
{
    let (first, last) = ends(18_446_744_073_709_551_615, word)?;
    if last - first < MOST_SEEDS {
        Some((first, last))
    } else {
        None
    }
}

/// Parses the range of orders `0..V`, where V is 1 to 255, and returns V. Returns `None` for any other word.
pub fn orders(word: &str) -> Option<u8>
    ensures told { IfSome result (λ most. IsTold word.now 0 most) }
    ensures some { IfSome result (λ most. 1 ≤ most) }
    ensures refused { IfNone result ((most : ℕ) → IsTold word.now 0 most → 1 ≤ most → most < 256 → ⊥) }
{
    let (least, most) = ends(256, word)?;
    from_zero(least, most)
}

/// Returns `most`, which must be below 256, as the greatest order of a range of orders. Returns `None` unless the range
/// begins with 0 and `most` is greater than 0.
fn from_zero(least: u64, most: u64) -> Option<u8>
    requires { most < 256 }
    ensures { result ≡ cond (least == 0) (cond (most == 0) None (Some most)) None }
{
    if least != 0 {
        return None;
    }
    if most == 0 { None } else { Some(most as u8) }
}

/// Parses a seed, which is a decimal number less than 2^64 - 1. Returns `None` for any other word.
pub fn seed(word: &str) -> Option<u64>
    ensures inside { IfSome result (λ seed. seed < 2 ^ 64 - 1) }
    ensures told { IfSome result (λ seed. decimal_of word.now ≡ Some seed) }
    ensures refused { IfNone result ((seed : ℕ) → decimal_of word.now ≡ Some seed → seed < 2 ^ 64 - 1 → ⊥) }
{
    below(18_446_744_073_709_551_615, word)
}

/// Parses the value of `--patience`: how many steps a traitor's program may take in a round, 1 to 4,096. Returns `None`
/// for any other word.
pub fn patience(word: &str) -> Option<u32>
    ensures least { IfSome result (λ steps. 1 ≤ steps) }
    ensures most { IfSome result (λ steps. steps ≤ 4096) }
    ensures told { IfSome result (λ steps. decimal_of word.now ≡ Some steps) }
    ensures refused { IfNone result ((steps : ℕ) →
        decimal_of word.now ≡ Some steps → 1 ≤ steps → steps ≤ 4096 → ⊥) }
{
    let steps = below(4097, word)?;
    if steps == 0 { None } else { Some(steps as u32) }
}
