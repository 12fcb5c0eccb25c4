//! Tests `live`, which runs a traitor's program in one round until it exits or its patience is used up.
ghost use Rattle.std.specs.Prelude.{◌≡◌};

use crate::scenarios::{first_letters, played};
use crate::texts::{COLLUDING, SEVEN, SPYING};
use board::Access;
use round::{Letter, Server, live};
use semantics::{Reply, Request};
use std::alloc::{AllocError, Global};
use world::Chronicle;

/// A server that replies to requests with these words, in order. It fails with `AllocError` once there are no more
/// words, and at a request to copy words.
#[derive(Drop)]
struct Answers<'a> {
    words: &'a [u64],
    served: Vec<Access>,
}

impl<'a> Answers<'a> {
    fn new(alloc: Global, words: &'a [u64]) -> Answers<'a> {
        Answers {
            words,
            served: Vec::new(alloc),
        }
    }
}

impl Server for Answers<'_> {
    ghost served = { λ answers. answers.served.items };

    fn serve(&mut self, general: u32, round: u32, request: Request) -> Result<Reply, AllocError> {
        let Some(word) = self.words.get(self.served.len()) else {
            return Err(AllocError);
        };
        let word = *word;
        match &request {
            Request::Get { .. } => {}
            Request::Swap { .. } => {}
            Request::Add { .. } => {}
            Request::Cas { .. } => {}
            Request::Copy { .. } => return Err(AllocError),
        }
        self.served.push(Access {
            general,
            round,
            request,
            reply: Reply::Word(word),
        })?;
        Ok(Reply::Word(word))
    }
}

/// Runs a letter's program again in the letter's context, with the replies of this server, and returns the new letter.
fn lived(
    alloc: Global,
    server: &mut Answers<'_>,
    letter: &Letter,
    patience: Option<u32>,
) -> Result<Letter, AllocError> {
    let Some(program) = letter.program.program() else {
        return Err(AllocError);
    };
    letter.recall();
    let _shape = letter.outbox.shape();
    let context = Vec::from_slice(alloc, letter.context.as_slice())?;
    let program = program.clone()?;
    live(
        alloc,
        server,
        letter.general,
        letter.round,
        program,
        context,
        patience,
    )
}

/// Returns whether the replies in a letter's transcript are the first of these words, in order.
fn had(letter: &Letter, words: &[u64]) -> bool {
    let mut rest = words;
    for access in &letter.transcript {
        let Reply::Word(word) = access.reply else {
            return false;
        };
        let [next, behind @ ..] = rest else {
            return false;
        };
        if *next != word {
            return false;
        }
        rest = behind;
    }
    true
}

/// Returns the replies in a letter's transcript, one word each.
fn words_of(alloc: Global, letter: &Letter) -> Result<Vec<u64>, AllocError> {
    let mut words = Vec::new(alloc);
    for access in &letter.transcript {
        if let Reply::Word(word) = access.reply {
            words.push(word)?;
        }
    }
    Ok(words)
}

/// Runs a letter's program again with these words as replies, and checks that the result is the same letter, with one
/// access.
fn lives_with(alloc: Global, letter: &Letter, words: &[u64]) -> bool {
    let mut server = Answers::new(alloc, words);
    match lived(alloc, &mut server, letter, None) {
        Ok(again) => again.same(letter) && server.served.len() == 1,
        Err(_) => false,
    }
}

/// Runs a letter's program again with the replies in its transcript, and checks that the result is the same letter,
/// with one access.
fn lives_again(alloc: Global, letter: &Letter) -> bool {
    match words_of(alloc, letter) {
        Ok(words) => lives_with(alloc, letter, words.as_slice()),
        Err(_) => false,
    }
}

/// The general and the round of each letter of two colluders.
const LIVES: &[(u32, u32)] = &[(0, 1), (4, 1), (0, 2), (4, 2), (0, 3), (4, 3)];

/// Checks that a letter is for the general and round at index `place` of `LIVES`, and that running its program again
/// gives the same letter.
fn is_life(alloc: Global, letter: &Letter, place: usize) -> bool {
    match LIVES.get(place) {
        Some(&(general, round)) => {
            letter.general == general && letter.round == round && lives_again(alloc, letter)
        }
        None => false,
    }
}

/// Checks that the chronicle's letters of traitors are those of `LIVES`, in this order, and that running each program
/// again gives the same letter.
fn are_lives(alloc: Global, chronicle: &Chronicle) -> bool {
    let mut place = 0usize;
    for round in chronicle.letters() {
        for letter in round.letters() {
            if letter.program.program().is_some() {
                if !is_life(alloc, letter, place) {
                    return false;
                }
                place = place.wrapping_add(1);
            }
        }
    }
    place == LIVES.len()
}

/// Plays the campaign of two colluders, in which general 4 acts first in the first round. Checks that running their
/// programs again gives the same letters.
fn colluders_live_again(alloc: Global) -> bool {
    match played(alloc, SEVEN, COLLUDING, "4*15") {
        Some(chronicle) => are_lives(alloc, &chronicle),
        None => false,
    }
}

#[test]
fn traitors_live_again(rt: HostRuntime) {
    assert!(rt; colluders_live_again(rt.alloc()));
}

/// Returns the first letter of general 5, a spy among seven generals. In six steps his program swaps word 5 of the
/// board for another and then reads word 6.
fn spy(chronicle: &Chronicle) -> Option<&Letter> {
    match first_letters(chronicle).get(5) {
        Some(letter) if letter.general == 5 => Some(letter),
        _ => None,
    }
}

/// A row of `PATIENCES`: a patience, and the spy's number of steps, number of accesses, and whether he exited.
type Patience = (Option<u32>, u32, usize, bool);

/// How the spy's program ends with each of these patiences.
const PATIENCES: &[Patience] = &[
    (None, 6, 2, true),
    (Some(4096), 6, 2, true),
    (Some(6), 6, 2, true),
    (Some(5), 5, 2, false),
    (Some(4), 4, 1, false),
    (Some(3), 3, 1, false),
    (Some(2), 2, 0, false),
    (Some(1), 1, 0, false),
];

/// Returns whether a letter has this number of steps and of accesses, `exited` as given, and as replies the first of 7,
/// 9 and 11.
fn has_taken(letter: &Letter, steps: u32, accesses: usize, exited: bool) -> bool {
    letter.steps == steps
        && letter.exited == exited
        && letter.transcript.len() == accesses
        && had(letter, &[7, 9, 11])
}

/// Runs a letter's program with the replies 7, 9 and 11, and checks that it ends as the row says. Also checks that the
/// server has served no other accesses.
fn takes(alloc: Global, letter: &Letter, row: &Patience) -> bool {
    let (patience, steps, accesses, exited) = *row;
    let mut server = Answers::new(alloc, &[7, 9, 11]);
    match lived(alloc, &mut server, letter, patience) {
        Ok(again) => {
            has_taken(&again, steps, accesses, exited) && server.served.len() == accesses
        }
        Err(_) => false,
    }
}

/// Runs a letter's program with each of the patiences in `PATIENCES`, and checks that it ends as that row says.
fn takes_all(alloc: Global, letter: &Letter) -> bool {
    for row in PATIENCES {
        if !takes(alloc, letter, row) {
            return false;
        }
    }
    true
}

/// Plays the campaign of seven generals in which general 5 is a spy, and returns its chronicle.
fn spied(alloc: Global) -> Option<Chronicle> {
    played(alloc, SEVEN, SPYING, "")
}

/// Checks that the spy's program ends with each patience as `PATIENCES` says.
fn spies_by_patience(alloc: Global) -> bool {
    let Some(chronicle) = spied(alloc) else {
        return false;
    };
    match spy(&chronicle) {
        Some(letter) => takes_all(alloc, letter),
        None => false,
    }
}

#[test]
fn the_last_permitted_request_is_served(rt: HostRuntime) {
    assert!(rt; spies_by_patience(rt.alloc()));
}

/// A row of `SCARCE`: a server's words, the patience, and the number of accesses. It is `None` if the server has too
/// few words.
type Scarcity = (&'static [u64], Option<u32>, Option<usize>);

/// How the spy's program ends if the server has few words for its replies.
const SCARCE: &[Scarcity] = &[
    (&[], None, None),
    (&[], Some(3), None),
    (&[7], None, None),
    (&[7], Some(5), None),
    (&[7], Some(4), Some(1)),
];

/// Runs a letter's program with this server, and returns the number of its accesses, or `None` if `live` fails.
fn accesses_with(
    alloc: Global,
    server: &mut Answers<'_>,
    letter: &Letter,
    patience: Option<u32>,
) -> Option<usize> {
    match lived(alloc, server, letter, patience) {
        Ok(again) => Some(again.transcript.len()),
        Err(_) => None,
    }
}

/// Runs a letter's program with a server of these words. Checks that it makes the row's number of accesses or fails,
/// and that every word was served.
fn comes_to(alloc: Global, letter: &Letter, row: &Scarcity) -> bool {
    let (words, patience, accesses) = *row;
    let mut server = Answers::new(alloc, words);
    accesses_with(alloc, &mut server, letter, patience) == accesses
        && server.served.len() == words.len()
}

/// Runs a letter's program for each row of `SCARCE`, and checks that it ends as the row says.
fn comes_to_all(alloc: Global, letter: &Letter) -> bool {
    for row in SCARCE {
        if !comes_to(alloc, letter, row) {
            return false;
        }
    }
    true
}

/// Checks that the spy's program ends as `SCARCE` says if the server has few words.
fn spies_in_scarcity(alloc: Global) -> bool {
    let Some(chronicle) = spied(alloc) else {
        return false;
    };
    match spy(&chronicle) {
        Some(letter) => comes_to_all(alloc, letter),
        None => false,
    }
}

#[test]
fn want_of_memory_at_an_access_ends_it(rt: HostRuntime) {
    assert!(rt; spies_in_scarcity(rt.alloc()));
}
