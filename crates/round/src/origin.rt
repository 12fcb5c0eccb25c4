//! Checks to which campaign and round a letter belongs.
ghost use Rattle.std.specs.Prelude.{◌≡◌, ◌<◌, ◌^◌, ◌↔◌, IsTrue, length};
ghost use Rattle.round.specs.Scenario.{shape_of};
ghost use Rattle.round.specs.Origin.{AreLettersOf, AreRoundsOf};

use crate::letter::Letter;
use crate::round::Round;
use crate::scenario::Scenario;

/// Returns whether all letters belong to this campaign and round: each names the round, and its outbox has the right
/// labels and receivers.
pub fn are_letters_of(scenario: &Scenario, round: u32, letters: &[Letter]) -> bool
    ensures { IsTrue result ↔ AreLettersOf scenario.now round letters.now }
{
    for letter in letters {
        if !is_letter_of(scenario, round, letter) {
            return false;
        }
    }
    true
}

/// Returns whether the letters of each round belong to this campaign and to that round. The first element of `rounds`
/// is round 1.
pub fn are_rounds_of(scenario: &Scenario, rounds: &[Round]) -> bool
    requires { length rounds.now < 2 ^ 32 }
    ensures { IsTrue result ↔ AreRoundsOf scenario.now rounds.now }
{
    let mut number = 0;
    for round in rounds {
        number += 1;
        if !are_letters_of(scenario, number, round.letters()) {
            return false;
        }
    }
    true
}

/// Returns whether a letter belongs to this campaign and round: it names the round, and its outbox has the right labels
/// and receivers.
fn is_letter_of(scenario: &Scenario, round: u32, letter: &Letter) -> bool
    ensures { IsTrue result ↔ ((letter.now.round ≡ round)
        × (letter.now.outbox.relay.shape ≡ shape_of scenario.now letter.now.general round)) }
{
    let shape = letter.outbox.shape();
    letter.round == round
        && shape.generals == u32::from(scenario.generals())
        && shape.commander == u32::from(scenario.commander())
        && shape.general == letter.general
        && shape.round == round
}
