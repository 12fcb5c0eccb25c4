//! Writes the rounds of a signed campaign with their letters to a sink.
ghost use Rattle.std.specs.Prelude.{◌≡◌, flat_map, map};
ghost use Rattle.signed.specs.Sending.{dispatch_of};
ghost use Rattle.signed.specs.Sent.{sent_by, sent_in};
ghost use Rattle.trace.specs.Lines.{round_told};
ghost use Rattle.trace.specs.SignedText.{letter_lines};
ghost use Rattle.trace.specs.Sinks.{Wrote};
ghost use Rattle.trace.specs.Text.{rounds_told, text};

use crate::chains::put_chains;
use crate::letters::{general_of, letters_of, steps_of};
use crate::lines::{put_accesses, put_author, put_round};
use crate::sink::Sink;
use round::Letter;
use signed::{Chain, SignedChronicle};

/// Returns the number of the general who wrote the letter. There are at most 13 generals, so it fits in a byte.
fn number_of(letter: &Letter) -> u8
    ensures { result ≡ letter.now.general }
{
    letter.recall();
    let _shape = letter.outbox.shape();
    letter.general as u8
}

/// Returns the chains that the letter's general sent in this round, counted from 1. Bit g in the number with a chain
/// means that general g received it.
fn sent_by<'a>(chronicle: &'a SignedChronicle, round: usize, letter: &Letter) -> &'a [(Chain, u16)]
    ensures { map dispatch_of result.now
        ≡ sent_by (sent_in chronicle.now.scenario chronicle.now.letters) round letter.now.general }
{
    chronicle.sent(number_of(letter), round)
}

/// Writes the lines of a letter of this round: the first names its general, and each further line has a chain that he
/// sent.
fn put_letter<S: Sink>(sink: &mut S, chronicle: &SignedChronicle, round: usize, letter: &Letter)
    ensures { Wrote (S.contents sink.old) (S.has_failed sink.old)
        (text (letter_lines (sent_in chronicle.now.scenario chronicle.now.letters) round letter.now))
        (S.contents sink.new) (S.has_failed sink.new) }
{
    put_author(sink, general_of(letter), steps_of(letter));
    put_chains(sink, sent_by(chronicle, round, letter));
}

/// Writes the lines of `letters`, which are of this round, in their order.
fn put_letters<S: Sink>(sink: &mut S, chronicle: &SignedChronicle, round: usize, letters: &[Letter])
    ensures { Wrote (S.contents sink.old) (S.has_failed sink.old)
        (text (flat_map (letter_lines (sent_in chronicle.now.scenario chronicle.now.letters) round) letters.now))
        (S.contents sink.new) (S.has_failed sink.new) }
{
    for letter in letters {
        put_letter(sink, chronicle, round, letter);
    }
}

/// Writes the lines of a round: its first line with its number, its accesses, and `letters`.
fn put_one<S: Sink>(sink: &mut S, chronicle: &SignedChronicle, round: usize, letters: &[Letter])
    ensures { Wrote (S.contents sink.old) (S.has_failed sink.old)
        (text (round_told (letter_lines
        (sent_in chronicle.now.scenario chronicle.now.letters) round) round chronicle.now.accesses letters.now))
        (S.contents sink.new) (S.has_failed sink.new) }
{
    put_round(sink, round as u64);
    put_accesses(sink, round as u64, chronicle.accesses());
    put_letters(sink, chronicle, round, letters);
}

/// Writes the lines of all rounds. A round has its first line with its number, then its accesses, then its letters with
/// the chains sent.
pub fn put_signed_rounds<S: Sink>(sink: &mut S, chronicle: &SignedChronicle)
    ensures { Wrote (S.contents sink.old) (S.has_failed sink.old)
        (text (rounds_told (letter_lines
        (sent_in chronicle.now.scenario chronicle.now.letters)) chronicle.now.accesses 1 chronicle.now.letters))
        (S.contents sink.new) (S.has_failed sink.new) }
{
    let rounds = chronicle.letters();
    for number in 0..rounds.len() {
        put_one(sink, chronicle, number + 1, letters_of(rounds, number));
    }
}
