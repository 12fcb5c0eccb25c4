//! Reads the key `board` of a setting: the board's words at the start.
ghost use Rattle.std.specs.Prelude.{◌≡◌, ◌≢◌, ◌≤◌, IfErr, length, replicate, option_map};
ghost use Rattle.toml.specs.View.{view, items_view};
ghost use Rattle.semantics.specs.Limits.{board_words};
ghost use Rattle.trial.specs.Checks.{board, over, set_word, word, words};
ghost use Rattle.trial.specs.Flaws.{Gives};
ghost use Rattle.trial.specs.declared.fault.SettingError.TheVariants.{Memory};

use crate::fault::{SettingError, SettingFault};
use crate::keys::{elements, natural, whole};
use crate::place::{SettingKey, SettingPlace};
use toml::Value;

/// Returns a word of the board, from 0 to 2^63 - 1.
///
/// # Errors
///
/// Fails at `place` with `Kind` if the value is not an integer, and with `Range` if it is negative.
#[tactic(auto, unfolding(crate::specs::Checks::word))]
fn word(place: SettingPlace, value: &Value) -> Result<u64, SettingError>
    ensures value { Gives (λ n. n) result (word place (view value.now)) }
    ensures fault { IfErr result (λ e. e ≢ Memory) }
{
    let integer = whole(place, value)?;
    natural(SettingFault::Range, place, integer)
}

/// Returns the board's words from an array of at most 64. The last words are 0 if the array is shorter.
///
/// # Errors
///
/// Fails with the first fault of an element, at its index.
fn listed(values: &[Value]) -> Result<[u64; 64], SettingError>
    requires { length values.now ≤ board_words }
    ensures gives { Gives (λ words. words) result (over set_word 0 (replicate board_words 0) (items_view values.now)) }
    ensures fault { IfErr result (λ e. e ≢ Memory) }
{
    let mut words = [0; 64];
    for index in 0..values.len() {
        words[index] = word(SettingPlace::Word(index), &values[index])?;
    }
    Ok(words)
}

/// Returns the board's 64 words from an array. The last words are 0 if the array is shorter.
///
/// # Errors
///
/// Fails with `Range` at `board` if the array has more than 64 elements, and otherwise with the first fault of an
/// element.
#[tactic(auto, unfolding(crate::specs::Checks::words), using(crate::proofs::Items::items_length_view))]
fn words(values: &[Value]) -> Result<[u64; 64], SettingError>
    ensures gives { Gives (λ words. words) result (words (items_view values.now)) }
    ensures fault { IfErr result (λ e. e ≢ Memory) }
{
    if values.len() > 64 {
        return Err(SettingError::At(SettingFault::Range, SettingPlace::Key(SettingKey::Board)));
    }
    listed(values)
}

/// Returns the board's words at the start of a trial: the words that the key `board` gives, or zeros if the key is
/// missing.
///
/// # Errors
///
/// Fails with the first fault of the key `board`.
#[tactic(auto, unfolding(crate::specs::Checks::board))]
pub fn board(value: Option<&Value>) -> Result<[u64; 64], SettingError>
    ensures gives { Gives (λ words. words) result (board (option_map (λ v. view v.now) value.entry)) }
    ensures fault { IfErr result (λ e. e ≢ Memory) }
{
    match value {
        None => Ok([0; 64]),
        Some(value) => words(elements(SettingPlace::Key(SettingKey::Board), value)?),
    }
}
