//! Checks the form of a chronicle's lines. A *shape* is a pattern for a line: capital letters match any word of some
//! kind, such as `N` a number, and other words match themselves.
ghost use Rattle.std.specs.Prelude.{◌≡◌, ◌&&◌, ◌==◌, Some, option_map, codes, length, map};
ghost use Rattle.std.specs.List.{list_all, list_any};
ghost use Rattle.text.specs.Stop.{dot, space, feed};
ghost use Rattle.text.specs.Parts.{left, pieces};
ghost use Rattle.trace.specs.Shapes.{are_joined, are_places, are_receivers, behind, behind_shape, fits, is_access, is_copied, is_count, is_end};
ghost use Rattle.board.specs.Wording.{row_of};
ghost use Rattle.trace.specs.Shapes.{is_campaign, is_number, is_place, is_shaped, is_told, is_version, is_worded, is_yes_no, stands_for, unshaped_from};

use board::{Wording, wordings};
use combine::Rule;
use text::{DOT, FEED, SPACE, decimal, piece};

/// Returns whether a word is a number, or a dash, which means nothing was sent or given.
fn is_place(word: &[u8]) -> bool
    ensures { result ≡ is_place word.now }
{
    word == b"-".as_slice() || decimal(word).is_some()
}

/// Returns whether a word is `yes` or `no`.
fn is_yes_no(word: &[u8]) -> bool
    ensures { result ≡ is_yes_no word.now }
{
    word == b"yes".as_slice() || word == b"no".as_slice()
}

/// Returns whether a word is one or more numbers joined by dots, such as `0.2.5`.
fn are_joined(word: &[u8]) -> bool
    ensures { result ≡ are_joined word.now }
{
    let mut rest = Some(word);
    while let Some(numbers) = rest {
        let (number, further) = piece(DOT, numbers);
        if decimal(number).is_none() {
            return false;
        }
        rest = further;
    }
    true
}

/// Returns whether a word is a list of receivers: numbers joined by dots, such as `2.5`, or a dash for none.
fn are_receivers(word: &[u8]) -> bool
    ensures { result ≡ are_receivers word.now }
{
    word == b"-".as_slice() || are_joined(word)
}

/// Returns whether `word` matches `kind`, a word of a shape. `N` matches a number, and `P` a number or a dash. `A`
/// matches `yes` or `no`, and `B` also a dash. `S` matches numbers joined by dots, and `R` also a dash. `C` matches the
/// name of a rule. Any other word matches only itself.
#[tactic(auto, unfolding(crate::specs::Shapes::stands_for))]
fn stands_for(kind: &[u8], word: &[u8]) -> bool
    ensures { result ≡ stands_for kind.now word.now }
{
    if kind == b"N".as_slice() {
        decimal(word).is_some()
    } else if kind == b"P".as_slice() {
        is_place(word)
    } else if kind == b"A".as_slice() {
        is_yes_no(word)
    } else if kind == b"B".as_slice() {
        word == b"-".as_slice() || is_yes_no(word)
    } else if kind == b"S".as_slice() {
        are_joined(word)
    } else if kind == b"R".as_slice() {
        are_receivers(word)
    } else if kind == b"C".as_slice() {
        Rule::named(word).is_some()
    } else {
        word == kind
    }
}

/// Returns the words of `line` after the words that match `shape`, such as `1 -` for the shape `row N` and the line
/// `row 3 1 -`. Returns `None` if the line does not begin with words that match, and `Some(None)` if no words follow
/// them.
#[tactic(auto, unfolding(crate::specs::Shapes::behind_shape))]
fn behind<'a>(shape: &[u8], line: &'a [u8]) -> Option<Option<&'a [u8]>>
    ensures { option_map (left space) result ≡ behind_shape shape.now (pieces space line.now) }
{
    let mut kinds = Some(shape);
    let mut words = Some(line);
    while let Some(parts) = kinds {
        let (kind, further) = piece(SPACE, parts);
        let (word, rest) = piece(SPACE, words?);
        if !stands_for(kind, word) {
            return None;
        }
        kinds = further;
        words = rest;
    }
    Some(words)
}

/// Returns whether the words of `line` match the words of `shape`, one to one.
#[tactic(auto, using(crate::proofs::ShapeLemmas::more_left), unfolding(crate::specs::Shapes::fits))]
fn fits(shape: &[u8], line: &[u8]) -> bool
    ensures { result ≡ fits shape.now (pieces space line.now) }
{
    match behind(shape, line) {
        Some(None) => true,
        Some(Some(_)) | None => false,
    }
}

/// Returns whether a line names a version, such as `chronicle 1`.
#[tactic(auto, unfolding(crate::specs::Shapes::is_version))]
fn is_version(line: &[u8]) -> bool
    ensures { result ≡ is_version (pieces space line.now) }
{
    fits(b"chronicle 1", line) || fits(b"chronicle 2", line) || fits(b"chronicle 3", line)
}

/// Returns whether a line describes a campaign, in the form of any version. This is the second line of a chronicle.
#[tactic(auto, unfolding(crate::specs::Shapes::is_campaign))]
fn is_campaign(line: &[u8]) -> bool
    ensures { result ≡ is_campaign (pieces space line.now) }
{
    fits(b"generals N bound N commander N order N", line)
        || fits(
            b"generals N bound N commander N order N patience P rule C",
            line,
        )
        || fits(
            b"signed generals N bound N commander N order N patience P",
            line,
        )
}

/// Returns whether each word of `words`, which are separated by spaces, is a number or a dash.
fn are_places(words: &[u8]) -> bool
    ensures { result ≡ list_all is_place (pieces space words.now) }
{
    let mut rest = Some(words);
    while let Some(places) = rest {
        let (place, further) = piece(SPACE, places);
        if !is_place(place) {
            return false;
        }
        rest = further;
    }
    true
}

/// Returns whether a line has the orders sent for one label: `row N`, then a number or a dash for each of one or more
/// receivers.
#[tactic(auto, using(crate::proofs::ShapeLemmas::no_places, crate::proofs::ShapeLemmas::some_places))]
fn is_row(line: &[u8]) -> bool
    ensures { result ≡ are_places (behind_shape (codes "row N") (pieces space line.now)) }
{
    match behind(b"row N", line) {
        Some(Some(places)) => are_places(places),
        Some(None) | None => false,
    }
}

/// Returns whether a line begins a round or belongs to a letter: its first line, a signed chain, or the orders sent for
/// a label.
#[tactic(auto, unfolding(crate::specs::Shapes::is_told))]
fn is_told(line: &[u8]) -> bool
    ensures { result ≡ is_told (pieces space line.now) }
{
    fits(b"round N", line)
        || fits(b"letter N loyal", line)
        || fits(b"letter N steps N", line)
        || fits(b"chain N S to R", line)
        || is_row(line)
}

/// Returns whether `words` is exactly `count` numbers, separated by spaces. If `words` is `None`, returns whether
/// `count` is 0.
fn is_count(count: u128, words: Option<&[u8]>) -> bool
    ensures { result ≡ is_count (Some count) (left space words.entry) }
{
    let mut rest = words;
    let mut met = 0;
    while let Some(numbers) = rest {
        let (number, further) = piece(SPACE, numbers);
        if decimal(number).is_none() {
            return false;
        }
        rest = further;
        met += 1;
    }
    count == met
}

/// Returns whether `words` is the end of an access that copies words from the board: their number, an equals sign and
/// that many numbers, such as `2 = 7 0`.
fn is_copied(words: Option<&[u8]>) -> bool
    ensures { result ≡ is_copied (Some (left space words.entry)) }
{
    let Some(words) = words else {
        return false;
    };
    let (count, Some(rest)) = piece(SPACE, words) else {
        return false;
    };
    let (equals, copied) = piece(SPACE, rest);
    if equals != b"=".as_slice() {
        return false;
    }
    match decimal(count) {
        Some(count) => is_count(count, copied),
        None => false,
    }
}

/// Returns whether a line matches `shape` and then has the end of an access that copies words from the board, such as
/// `2 = 7 0`.
fn is_copy(shape: &[u8], line: &[u8]) -> bool
    ensures { result ≡ is_copied (behind_shape shape.now (pieces space line.now)) }
{
    match behind(shape, line) {
        Some(words) => is_copied(words),
        None => false,
    }
}

/// Returns whether a line records an access whose request is worded in this way.
fn is_worded(wording: &Wording, line: &[u8]) -> bool
    ensures { result ≡ is_worded (row_of wording.now) (pieces space line.now) }
{
    let shape = wording.shape.as_bytes();
    if wording.copies {
        is_copy(shape, line)
    } else {
        fits(shape, line)
    }
}

/// Returns whether a line records an access whose request is worded in one of these ways.
fn is_any(wordings: &[Wording], line: &[u8]) -> bool
    ensures { result ≡ list_any (λ r. is_worded r (pieces space line.now)) (map row_of wordings.now) }
{
    for wording in wordings {
        if is_worded(wording, line) {
            return true;
        }
    }
    false
}

/// Returns whether a line records an access with any of the board's requests.
#[tactic(auto, unfolding(crate::specs::Shapes::is_access))]
fn is_access(line: &[u8]) -> bool
    ensures { result ≡ is_access (pieces space line.now) }
{
    is_any(wordings(), line)
}

/// Returns whether a line is a lieutenant's decision or the campaign's verdict.
#[tactic(auto, unfolding(crate::specs::Shapes::is_end))]
fn is_end(line: &[u8]) -> bool
    ensures { result ≡ is_end (pieces space line.now) }
{
    fits(b"decision N N", line)
        || fits(b"decision N traitor N", line)
        || fits(b"verdict alike A obeyed B bound A", line)
}

/// Returns whether a line has the form of some line of a chronicle. Its place among the other lines is not checked.
#[tactic(auto, unfolding(crate::specs::Shapes::is_shaped))]
fn is_shaped(line: &[u8]) -> bool
    ensures { result ≡ is_shaped line.now }
{
    is_version(line) || is_campaign(line) || is_told(line) || is_access(line) || is_end(line)
}

/// Returns the number, counted from 1, of the first line that does not have the form of a chronicle's line or does not
/// end with an LF. Returns `None` if there is no such line. For an empty text it returns 1.
#[tactic(auto, using(crate::proofs::ShapeLemmas::shaped_line, crate::proofs::ShapeLemmas::unshaped_line))]
pub fn unshaped(text: &[u8]) -> Option<u64>
    ensures { result ≡ unshaped_from 1 (pieces feed text.now) }
{
    let mut rest = Some(text);
    let mut number = 1;
    while let Some(lines) = rest {
        let (line, behind) = piece(FEED, lines);
        let is_right = match behind {
            Some(_) => is_shaped(line),
            None => line.is_empty() && number > 1,
        };
        if !is_right {
            return Some(number);
        }
        rest = behind;
        number += 1;
    }
    None
}
