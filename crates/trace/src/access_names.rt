//! Reads from the text of a chronicle which generals make the accesses of each round.
ghost use Rattle.std.specs.Prelude.{◌≡◌, ◌<◌, ◌≤◌, ◌∷◌, ◌++◌, length, map, take, option_to_list, IfOk, IfSome};
ghost use Rattle.text.specs.Stop.{space, feed};
ghost use Rattle.text.specs.Parts.{pieces};
ghost use Rattle.world.specs.Playing.{lists_in};
ghost use Rattle.trace.specs.Names.{Named, general_of, with_line, named};
ghost use Rattle.trace.specs.Marks.{all_names, lines_left, marked};

use crate::first_line::parted;
use crate::schedule_reader::number_within;
use memchr::{memchr2, memrchr};
use std::alloc::{AllocError, Global};
use text::{SPACE, piece};

/// What one line of a chronicle's text says about rounds and accesses.
#[derive(Clone, Copy)]
enum Mark {
    /// The line begins a round.
    Round,
    /// The line records an access by the general of this number (0 to 12).
    Access(u8),
    /// The line neither begins a round nor records an access by a general.
    Other,
}

/// Returns the general's number (0 to 12) that a word spells in decimal, or `None` if the word is not such a number.
#[tactic(auto, using(crate::proofs::Generals::general_none))]
fn general(word: &[u8]) -> Option<u8>
    ensures { option_to_list result ≡ general_of word.now }
{
    Some(number_within(0, 12, word)? as u8)
}

/// Returns `Access` with the general whose number this word is, or `Other` if the word is not a general's number (0 to
/// 12). The word is the second one of a line that begins with `access`.
fn access(number: &[u8]) -> Mark
    ensures { (rest : Named) → marked result rest ≡ (general_of number.now ++ rest.0, rest.1) }
{
    match general(number) {
        Some(general) => Mark::Access(general),
        None => Mark::Other,
    }
}

/// Returns what a line says: it begins a round, it records an access by a general, or neither.
fn said(line: &[u8]) -> Mark
    ensures { (rest : Named) → marked result rest ≡ with_line (pieces space line.now) rest }
{
    let (word, Some(rest)) = piece(SPACE, line) else {
        return Mark::Other;
    };
    if word == b"round".as_slice() {
        Mark::Round
    } else if word == b"access".as_slice() {
        let (number, _) = piece(SPACE, rest);
        access(number)
    } else {
        Mark::Other
    }
}

/// Returns the text from the first line that contains a `u` or an `s`, or `None` if no line does. The lines before it
/// cannot begin with `round` or `access`. Most lines are rows of orders, which have neither letter.
fn from_next(text: &[u8]) -> Option<&[u8]>
    ensures names { named (map (pieces space) (lines_left result)) ≡ named (map (pieces space) (pieces feed text.now)) }
    ensures no_longer { IfSome result (λ rest. length rest.now ≤ length text.now) }
{
    let place = memchr2(b'u', b's', text)?;
    match memrchr(b'\n', &text[..place]) {
        Some(end) => Some(&text[end + 1..]),
        None => Some(text),
    }
}

/// Returns the generals who make the accesses that a text lists, in the order of its lines. The first list is for the
/// lines before the first `round` line, and each further list is for the lines after one `round` line. The result has
/// at most `most` lists, and the text is read only as far as they need.
///
/// # Errors
///
/// `AllocError` if an allocation fails.
#[tactic(auto, using(crate::proofs::MarkLemmas::few_lists))]
pub fn names(alloc: Global, text: &[u8], most: usize) -> Result<Vec<Vec<u8>>, AllocError>
    requires { 0 < most }
    ensures { IfOk result (λ lists. lists_in lists.items
        ≡ take most (all_names (named (map (pieces space) (pieces feed text.now))))) }
{
    let mut rounds = Vec::new(alloc);
    let mut names = Vec::new(alloc);
    let mut rest = Some(text);
    while let Some(lines) = rest {
        let (line, behind) = parted(lines);
        rest = behind;
        match said(line) {
            Mark::Round => {
                rounds.push(names)?;
                if rounds.len() == most {
                    return Ok(rounds);
                }
                names = Vec::new(alloc);
            }
            Mark::Access(general) => names.push(general)?,
            Mark::Other => rest = behind.and_then(from_next),
        }
    }
    rounds.push(names)?;
    Ok(rounds)
}
