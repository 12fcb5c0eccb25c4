//! Tests contexts, loyal generals' letters, and the delivery of letters.
ghost use Rattle.std.specs.Prelude.{◌≡◌, ◌<◌, IsTrue};
ghost use Rattle.round.specs.Told.{AreDue};

use crate::scenarios::{first_letters, played};
use crate::texts::{
    FIVE, FOUR, FOUR_AND_THREE_STEPS, FOUR_AND_TWO_STEPS, FOUR_OF_BYTES, NINE_FOR_FOUR,
    SEVEN_FOR_ONE, SWAYING,
};
use label::Label;
use round::{Letter, Round, Scenario, are_rounds_of, context_for, deliver, loyal_letter};
use std::alloc::{AllocError, Global};
use tree::Tree;
use world::Chronicle;

/// Returns a general's context after the rounds `before`. Returns `None` if these are not rounds of the campaign, if
/// there is no such general, or if memory runs out.
fn context(alloc: Global, scenario: &Scenario, general: u8, before: &[Round]) -> Option<Vec<u8>> {
    if before.len() > usize::from(scenario.bound()) || general >= scenario.generals() {
        return None;
    }
    if !are_rounds_of(scenario, before) {
        return None;
    }
    match context_for(alloc, scenario, general, before) {
        Ok(context) => Some(context),
        Err(_) => None,
    }
}

/// Plays a campaign, and returns a general's context after its first `behind` rounds.
fn context_behind(
    alloc: Global,
    keys: &str,
    traitors: &str,
    general: u8,
    behind: usize,
) -> Option<Vec<u8>> {
    let Some(chronicle) = played(alloc, keys, traitors, "") else {
        return None;
    };
    match chronicle.letters().get(..behind) {
        Some(before) => context(alloc, chronicle.scenario(), general, before),
        None => None,
    }
}

/// Returns 4,096 bytes: each number in four bytes, and then zeros.
fn spelt(alloc: Global, numbers: &[u32]) -> Result<Vec<u8>, AllocError> {
    let mut bytes = Vec::new(alloc);
    for number in numbers {
        bytes.extend_from_slice(&number.to_le_bytes())?;
    }
    bytes.resize(4096, 0)?;
    Ok(bytes)
}

/// A row of `CONTEXTS`: the keys and traitors of a campaign, a general, the number of rounds before his context, and
/// the numbers at its beginning.
type Row = (&'static str, &'static str, u8, usize, &'static [u32]);

/// Contexts in campaigns of four loyal generals, of four generals with a traitor as commander, and of five generals.
const CONTEXTS: &[Row] = &[
    (
        FOUR_OF_BYTES,
        "",
        0,
        0,
        &[4, 1, 0, 0, 1, 1, 3, 0, 0x0102_0304],
    ),
    (FOUR_OF_BYTES, "", 3, 0, &[4, 1, 3, 0, 1, 0, 3, 0]),
    (FOUR_OF_BYTES, "", 0, 1, &[4, 1, 0, 0, 2, 0, 2, 0]),
    (
        FOUR_OF_BYTES,
        "",
        3,
        1,
        &[4, 1, 3, 0, 2, 1, 2, 0, 0x0102_0304],
    ),
    (FOUR, SEVEN_FOR_ONE, 1, 1, &[4, 1, 1, 0, 2, 1, 2, 0, 7]),
    (FOUR, SEVEN_FOR_ONE, 2, 1, &[4, 1, 2, 0, 2, 1, 2, 0, 0]),
    (
        FIVE,
        NINE_FOR_FOUR,
        4,
        2,
        &[5, 2, 4, 1, 3, 3, 2, 0, 6, 9, 6],
    ),
    (
        FIVE,
        NINE_FOR_FOUR,
        0,
        2,
        &[5, 2, 0, 1, 3, 3, 2, 0, 0, 6, 6],
    ),
    (FIVE, NINE_FOR_FOUR, 1, 2, &[5, 2, 1, 1, 3, 0, 2, 0]),
];

/// Returns whether the context that a row describes begins with the row's numbers.
fn tells(alloc: Global, row: &Row) -> bool {
    let (keys, traitors, general, behind, numbers) = *row;
    let Some(bytes) = context_behind(alloc, keys, traitors, general, behind) else {
        return false;
    };
    let Ok(expected) = spelt(alloc, numbers) else {
        return false;
    };
    bytes.as_slice() == expected.as_slice()
}

#[test]
fn contexts_tell_what_was_told(rt: HostRuntime) {
    let alloc = rt.alloc();
    for (place, row) in CONTEXTS.iter().enumerate() {
        assert!(rt; tells(alloc, row), "row {place}");
    }
}

/// The bytes at the beginning of the first context of `CONTEXTS`.
const BYTES: &[u8] =
    b"\x04\0\0\0\x01\0\0\0\0\0\0\0\0\0\0\0\x01\0\0\0\x01\0\0\0\x03\0\0\0\0\0\0\0\x04\x03\x02\x01\0";

/// Checks that the first context of `CONTEXTS` has 4,096 bytes, and begins with `BYTES`.
fn begins_with_its_bytes(alloc: Global) -> bool {
    match context_behind(alloc, FOUR_OF_BYTES, "", 0, 0) {
        Some(bytes) => bytes.as_slice().starts_with(BYTES) && bytes.len() == 4096,
        None => false,
    }
}

#[test]
fn context_begins_with_its_bytes(rt: HostRuntime) {
    assert!(rt; begins_with_its_bytes(rt.alloc()));
}

/// Returns the letter that a loyal general would send in place of this letter's general, in the same round and with the
/// same context.
fn faithful(alloc: Global, letter: &Letter) -> Option<Letter> {
    letter.recall();
    let _shape = letter.outbox.shape();
    let Ok(context) = Vec::from_slice(alloc, letter.context.as_slice()) else {
        return None;
    };
    match loyal_letter(alloc, letter.general, letter.round, context) {
        Ok(faithful) => Some(faithful),
        Err(_) => None,
    }
}

/// Checks that the letter is the one that a loyal general would send exactly if its general is loyal.
fn is_faithful_if_loyal(alloc: Global, letter: &Letter) -> bool {
    let is_loyal = letter.program.program().is_none();
    match faithful(alloc, letter) {
        Some(faithful) => faithful.same(letter) == is_loyal,
        None => false,
    }
}

/// Checks that a copy of the letter equals it.
fn is_copied(alloc: Global, letter: &Letter) -> bool {
    match letter.copy(alloc) {
        Ok(copy) => copy.same(letter),
        Err(_) => false,
    }
}

/// Checks that the letter equals none of the chronicle's letters except the one of the same general and round.
fn is_its_own(chronicle: &Chronicle, letter: &Letter) -> bool {
    for round in chronicle.letters() {
        for other in round.letters() {
            let is_it = other.round == letter.round && other.general == letter.general;
            if letter.same(other) != is_it {
                return false;
            }
        }
    }
    true
}

/// Checks each letter of the chronicle. It must be the one that a loyal general would send exactly if its general is
/// loyal, equal its copy, and equal no other letter.
fn are_right(alloc: Global, chronicle: &Chronicle) -> bool {
    for round in chronicle.letters() {
        for letter in round.letters() {
            let is_right = is_copied(alloc, letter)
                && is_faithful_if_loyal(alloc, letter)
                && is_its_own(chronicle, letter);
            if !is_right {
                return false;
            }
        }
    }
    true
}

/// Checks the letters of four generals in a campaign in which traitor 3 sends orders to retreat.
fn follow_from_their_contexts(alloc: Global) -> bool {
    match played(alloc, FOUR, SWAYING, "") {
        Some(chronicle) => are_right(alloc, &chronicle),
        None => false,
    }
}

#[test]
fn letters_follow_from_their_contexts(rt: HostRuntime) {
    assert!(rt; follow_from_their_contexts(rt.alloc()));
}

/// Checks that two lists of four generals' letters differ only in general 3's letter.
fn last_differs(letters: &[Letter], others: &[Letter]) -> bool {
    for (letter, other) in letters.iter().zip(others.iter()) {
        if letter.general != other.general || letter.same(other) != (letter.general != 3) {
            return false;
        }
    }
    letters.len() == 4 && others.len() == 4
}

/// Checks that the first letters with a patience of two steps differ from those with three steps only in general 3's
/// letter.
fn differ_by_their_steps(alloc: Global) -> bool {
    let Some(short) = played(alloc, FOUR_AND_TWO_STEPS, SWAYING, "") else {
        return false;
    };
    let Some(long) = played(alloc, FOUR_AND_THREE_STEPS, SWAYING, "") else {
        return false;
    };
    last_differs(first_letters(&short), first_letters(&long))
}

/// Checks that letters differ if only their numbers of steps do. In the first round general 3 relays nothing, so his
/// letters with different patiences differ in nothing else.
#[test]
fn letters_differ_by_their_steps(rt: HostRuntime) {
    assert!(rt; differ_by_their_steps(rt.alloc()));
}

/// Returns whether the letter belongs to this round of the tree's campaign.
fn is_due(tree: &Tree, round: u32, letter: &Letter) -> bool
    ensures { IsTrue result → letter.now.outbox.relay.shape ≡ record {
      generals = tree.now.generals;
      commander = tree.now.commander;
      general = letter.now.general;
      round = round;
    } }
{
    let space = tree.space();
    let shape = letter.outbox.shape();
    shape.generals == u32::from(space.generals)
        && shape.commander == u32::from(space.commander)
        && shape.general == letter.general
        && shape.round == round
}

/// Returns whether there are letters, and all belong to one round of the tree's campaign.
fn are_due(tree: &Tree, letters: &[Letter]) -> bool
    ensures { IsTrue result → AreDue tree.now letters.now }
{
    let Some(first) = letters.first() else {
        return false;
    };
    let round = first.round;
    if round > u32::from(tree.bound()) + 1 {
        return false;
    }
    for letter in letters {
        if !is_due(tree, round, letter) {
            return false;
        }
    }
    true
}

/// Returns the tree's orders for the labels 0, 0.2 and 0.3: what commander 0 sent, and what generals 2 and 3 relayed.
fn orders(tree: &Tree) -> [Option<u32>; 3] {
    [
        tree.value(&Label::of(0)),
        tree.value(&Label::of(0).with(2)),
        tree.value(&Label::of(0).with(3)),
    ]
}

/// Delivers a round's letters into the tree, and checks that it then has the orders `told`. Also checks that the
/// letters belong to a round of the tree's campaign.
fn fills(tree: &mut Tree, round: &Round, told: [Option<u32>; 3]) -> bool {
    if !are_due(tree, round.letters()) {
        return false;
    }
    deliver(round.letters(), tree);
    orders(tree) == told
}

/// Delivers the letters of two rounds into the tree, and checks its orders after each.
fn are_filled_in(tree: &mut Tree, chronicle: &Chronicle) -> bool {
    match chronicle.letters() {
        [first, second] => {
            fills(tree, first, [Some(1), None, None])
                && fills(tree, second, [Some(1), Some(1), Some(0)])
        }
        _ => false,
    }
}

/// Checks how the letters of four generals, of whom traitor 3 sends orders to retreat, fill the tree of general 1.
fn fill_a_tree(alloc: Global) -> bool {
    let Ok(mut tree) = Tree::new(alloc, 4, 1, 0, 1) else {
        return false;
    };
    let Some(chronicle) = played(alloc, FOUR, SWAYING, "") else {
        return false;
    };
    are_filled_in(&mut tree, &chronicle)
}

#[test]
fn letters_fill_a_tree(rt: HostRuntime) {
    assert!(rt; fill_a_tree(rt.alloc()));
}
