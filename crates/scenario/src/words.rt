//! Reads the words with which the board of a scenario begins.

ghost use Rattle.std.specs.Prelude.{◌≡◌, ℕ, ◌≤◌, length, replicate, option_map};
ghost use Rattle.toml.specs.View.{view, items_view};
ghost use Rattle.scenario.specs.Checks.{over, is_integer, word, set_word, board_words, board};
ghost use Rattle.scenario.specs.Flaws.{Gives};

use crate::fault::{ScenarioError, ScenarioFault};
use crate::keys::{elements, natural, whole};
use crate::place::{ScenarioKey, ScenarioPlace};
use toml::Value;

/// Checks that all elements of the list `board` are integers, or fails with the place of the first one that is not.
fn are_integers(values: &[Value]) -> Result<(), ScenarioError>
    ensures { Gives (λ _. tt) result (over is_integer 0 tt (items_view values.now)) }
{
    for index in 0..values.len() {
        whole(ScenarioPlace::Word(index), &values[index])?;
    }
    Ok(())
}

#[tactic(auto, unfolding(crate::specs::Checks::word))]
/// Returns word `index` of the list `board`. Fails with its place if the value is not an integer, or if it is negative.
fn word(index: usize, value: &Value) -> Result<u64, ScenarioError>
    ensures { Gives (λ n. n) result (word index (view value.now)) }
{
    let integer = whole(ScenarioPlace::Word(index), value)?;
    natural(ScenarioFault::Range, ScenarioPlace::Word(index), integer)
}

/// Returns the board's 64 words: these values, at most 64, and then zeros. Fails with the first value that is not a
/// word.
fn words(values: &[Value]) -> Result<[u64; 64], ScenarioError>
    requires { length values.now ≤ 64 }
    ensures { Gives (λ ws. ws) result (over set_word 0 (replicate 64 0) (items_view values.now)) }
{
    let mut words = [0; 64];
    for index in 0..values.len() {
        words[index] = word(index, &values[index])?;
    }
    Ok(words)
}

#[tactic(auto, unfolding(crate::specs::Checks::board_words), using(crate::proofs::Items::items_length_view))]
/// Returns the board's 64 words, from a list of at most 64 integers that are not negative. Fails with the first fault.
fn board_words(values: &[Value]) -> Result<[u64; 64], ScenarioError>
    ensures { Gives (λ ws. ws) result (board_words (items_view values.now)) }
{
    are_integers(values)?;
    if 64 < values.len() {
        return Err(ScenarioError::At(ScenarioFault::Range, ScenarioPlace::Key(ScenarioKey::Board)));
    }
    words(values)
}

/// Returns the board's 64 words. Words that the scenario does not give are 0.
///
/// # Errors
///
/// Fails with `At` and the first fault. In this order, the checks are that `board` is a list, that its elements are
/// integers, that there are at most 64 of them, and that none is negative.
#[tactic(auto, unfolding(crate::specs::Checks::board))]
pub fn board(value: Option<&Value>) -> Result<[u64; 64], ScenarioError>
    ensures { Gives (λ ws. ws) result (board (option_map (λ v. view v.now) value.entry)) }
{
    match value {
        None => Ok([0; 64]),
        Some(value) => board_words(elements(ScenarioPlace::Key(ScenarioKey::Board), value)?),
    }
}
