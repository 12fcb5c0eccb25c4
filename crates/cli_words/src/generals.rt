//! Parses the values of options: generals, bounds, orders, counts, seeds and depths.
ghost use Rattle.std.specs.Prelude.{◌≡◌, ◌≢◌, Ok, Err, IfOk, IfErr, Some, None, is_some, true};
ghost use Rattle.cli_words.specs.Generals.{bound_in, count_in, depth_in, general_in, generals_in, order_in, seed_in, size_in, traitors_in};
ghost use Rattle.cli_words.specs.declared.generals.GeneralsError.TheVariants.{NoGeneral, Memory};

use std::alloc::{AllocError, Global};
use text::{Stop, decimal, piece};

/// The comma, which separates the numbers of generals in a list.
const COMMA: Stop = Stop::Byte(b',');

/// Why a word does not list generals.
pub(crate) enum GeneralsError {
    /// A part of the word, between commas, is not the number of a general.
    NoGeneral,
    /// There was not enough memory.
    Memory,
}

impl From<AllocError> for GeneralsError {
    ghost from_gives = { λ _ e. e ≡ Memory };

    fn from(_error: AllocError) -> GeneralsError {
        GeneralsError::Memory
    }
}

/// Returns the generals that a word lists, such as `1,3`.
///
/// # Errors
///
/// Fails with `NoGeneral` if a part of the word is not the number of a general, 0 to 12. To find this out, no memory is
/// needed. Fails with `Memory` if there is not enough memory for the list.
pub(crate) fn generals(alloc: Global, word: &str) -> Result<Vec<u8>, GeneralsError>
    ensures named { IfOk result (λ generals. generals_in word.now ≡ Some generals.items) }
    ensures none { IfErr result (λ e. e ≢ Memory → generals_in word.now ≡ None) }
    ensures unnamed { generals_in word.now ≡ None → result ≡ Err NoGeneral }
{
    if !names_generals(word) {
        return Err(GeneralsError::NoGeneral);
    }
    Ok(named_in(alloc, word)?)
}

/// Checks whether each part of the word, between commas, is the number of a general, 0 to 12.
#[tactic(auto, unfolding(crate::specs::Generals::generals_in), using(crate::proofs::GeneralLemmas::behind_any))]
fn names_generals(word: &str) -> bool
    ensures { result ≡ is_some (generals_in word.now) }
{
    let mut rest = Some(word.as_bytes());
    while let Some(parts) = rest {
        let (part, behind) = piece(COMMA, parts);
        if general(part).is_none() {
            return false;
        }
        rest = behind;
    }
    true
}

/// Returns the generals that a word lists, such as `1,3`. Each part of the word must be the number of a general.
#[tactic(auto, unfolding(crate::specs::Generals::generals_in))]
fn named_in(alloc: Global, word: &str) -> Result<Vec<u8>, AllocError>
    requires { is_some (generals_in word.now) ≡ true }
    ensures { IfOk result (λ generals. generals_in word.now ≡ Some generals.items) }
{
    let mut generals = Vec::new(alloc);
    let mut rest = Some(word.as_bytes());
    while let Some(parts) = rest {
        let (part, behind) = piece(COMMA, parts);
        let Some(general) = general(part) else {
            unreachable!();
        };
        generals.push(general)?;
        rest = behind;
    }
    Ok(generals)
}

/// Parses the number of a general, 0 to 12. Returns `None` for any other word.
#[tactic(auto, unfolding(crate::specs::Generals::general_in))]
pub(crate) fn general(word: &[u8]) -> Option<u8>
    ensures { result ≡ general_in word.now }
{
    let number = decimal(word)?;
    if number < 13 {
        Some(number as u8)
    } else {
        None
    }
}

/// Parses an order, 0 to 4294967295. Returns `None` for any other word.
#[tactic(auto, unfolding(crate::specs::Generals::order_in))]
pub(crate) fn order(word: &[u8]) -> Option<u32>
    ensures { result ≡ order_in word.now }
{
    let number = decimal(word)?;
    if number < 4_294_967_296 {
        Some(number as u32)
    } else {
        None
    }
}

/// Parses a count, 1 to 18446744073709551615. Returns `None` for any other word.
#[tactic(auto, unfolding(crate::specs::Generals::count_in))]
pub(crate) fn count(word: &[u8]) -> Option<u64>
    ensures { result ≡ count_in word.now }
{
    let number = decimal(word)?;
    if 0 < number && number < 18_446_744_073_709_551_616 {
        Some(number as u64)
    } else {
        None
    }
}

/// Parses the seed of a random schedule, 0 to 18446744073709551615. Returns `None` for any other word.
#[tactic(auto, unfolding(crate::specs::Generals::seed_in))]
pub(crate) fn seed(word: &[u8]) -> Option<u64>
    ensures { result ≡ seed_in word.now }
{
    let number = decimal(word)?;
    if number < 18_446_744_073_709_551_616 {
        Some(number as u64)
    } else {
        None
    }
}

/// Reads a number of generals, 2 to 13. Returns `None` for any other word.
#[tactic(auto, unfolding(crate::specs::Generals::size_in))]
pub(crate) fn size(word: &[u8]) -> Option<u8>
    ensures { result ≡ size_in word.now }
{
    let number = decimal(word)?;
    if 1 < number && number < 14 {
        Some(number as u8)
    } else {
        None
    }
}

/// Parses a bound on the traitors, 0 to 4. Returns `None` for any other word.
#[tactic(auto, unfolding(crate::specs::Generals::bound_in))]
pub(crate) fn bound(word: &[u8]) -> Option<u8>
    ensures { result ≡ bound_in word.now }
{
    let number = decimal(word)?;
    if number < 5 { Some(number as u8) } else { None }
}

/// Parses a number of traitors, 0 to 12. Returns `None` for any other word.
#[tactic(auto, unfolding(crate::specs::Generals::traitors_in))]
pub(crate) fn traitors(word: &[u8]) -> Option<u8>
    ensures { result ≡ traitors_in word.now }
{
    let number = decimal(word)?;
    if number < 13 {
        Some(number as u8)
    } else {
        None
    }
}

/// Parses a number of levels of a tree, 0 to 4. Returns `None` for any other word.
#[tactic(auto, unfolding(crate::specs::Generals::depth_in))]
pub(crate) fn depth(word: &[u8]) -> Option<u8>
    ensures { result ≡ depth_in word.now }
{
    let number = decimal(word)?;
    if number < 5 { Some(number as u8) } else { None }
}
