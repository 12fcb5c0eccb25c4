//! Writes the rounds of a campaign with their letters, and the lieutenants' decisions, to a sink.
ghost use Rattle.std.specs.Prelude.{◌≡◌, ◌<◌, [], flat_map, length, slice_get, slice_index_or};
ghost use Rattle.round.specs.Scenario.{is_traitor};
ghost use Rattle.label.specs.Lieutenants.{lieutenants};
ghost use Rattle.trace.specs.Sinks.{Wrote};
ghost use Rattle.trace.specs.Text.{text, row_lines, letter_lines, round_lines, decision_lines, steps_of};
ghost use Rattle.trace.specs.Lines.{decided_lines, one_round};

use crate::line_buffer::LineBuffer;
use crate::lines::{put_accesses, put_author, put_decision, put_round, put_row};
use crate::sink::Sink;
use crate::writer::put_all;
use board::Access;
use outbox::Outbox;
use round::{Letter, Round, Scenario};

/// Writes a line for each label of the outbox, ascending by rank, with the orders sent to the label's receivers.
fn put_rows<S: Sink>(sink: &mut S, outbox: &Outbox)
    ensures { Wrote (S.contents sink.old) (S.has_failed sink.old) (text (row_lines 0 outbox.now.rows))
        (S.contents sink.new) (S.has_failed sink.new) }
{
    let mut lines = LineBuffer::new();
    for rank in 0..outbox.labels() {
        put_row(sink, &mut lines, outbox, rank);
    }
    put_all(sink, lines.as_slice());
}

/// Returns the number of the general who wrote the letter.
pub(crate) fn general_of(letter: &Letter) -> u32
    ensures { result ≡ letter.now.general }
{
    letter.general
}

/// Returns the letter's outbox, which holds the orders that its general sent.
fn outbox_of(letter: &Letter) -> &Outbox
    ensures { result.now ≡ letter.now.outbox }
{
    &letter.outbox
}

/// Returns how many steps a traitor's program took in the round of this letter, or `None` if the letter's general is
/// loyal.
pub(crate) fn steps_of(letter: &Letter) -> Option<u32>
    ensures { result ≡ steps_of letter.now }
{
    match letter.program.program() {
        Some(_) => Some(letter.steps),
        None => None,
    }
}

/// Writes the lines of a letter: the first names its general, and each further line has the orders sent for one label.
fn put_letter<S: Sink>(sink: &mut S, letter: &Letter)
    ensures { Wrote (S.contents sink.old) (S.has_failed sink.old) (text (letter_lines letter.now)) (S.contents sink.new)
        (S.has_failed sink.new) }
{
    put_author(sink, general_of(letter), steps_of(letter));
    put_rows(sink, outbox_of(letter));
}

/// Writes the lines of these letters, in their order.
fn put_letters<S: Sink>(sink: &mut S, letters: &[Letter])
    ensures { Wrote (S.contents sink.old) (S.has_failed sink.old) (text (flat_map letter_lines letters.now))
        (S.contents sink.new) (S.has_failed sink.new) }
{
    for letter in letters {
        put_letter(sink, letter);
    }
}

/// Writes the lines of a round: its first line with its number, its accesses, and its letters.
fn put_one<S: Sink>(sink: &mut S, round: u64, accesses: &[Access], letters: &[Letter])
    ensures { Wrote (S.contents sink.old) (S.has_failed sink.old) (text (one_round round accesses.now letters.now))
        (S.contents sink.new) (S.has_failed sink.new) }
{
    put_round(sink, round);
    put_accesses(sink, round, accesses);
    put_letters(sink, letters);
}

/// Returns the letters of round `number`, counted from 0.
pub(crate) fn letters_of(rounds: &[Round], number: usize) -> &[Letter]
    requires { number < length rounds.now }
    ensures { result.now ≡ slice_index_or rounds.now number [] }
{
    rounds[number].letters()
}

/// Writes the lines of all rounds. A round has its first line with its number, then its accesses, then its letters.
pub fn put_rounds<S: Sink>(sink: &mut S, accesses: &[Access], rounds: &[Round])
    ensures { Wrote (S.contents sink.old) (S.has_failed sink.old) (text (round_lines 1 accesses.now rounds.now))
        (S.contents sink.new) (S.has_failed sink.new) }
{
    for number in 0..rounds.len() {
        put_one(
            sink,
            number as u64 + 1,
            accesses,
            letters_of(rounds, number),
        );
    }
}

/// Returns element `place` of the decisions, counted from 0, or `None` if there are fewer.
fn decision_at(decisions: &[u32], place: usize) -> Option<u32>
    ensures { result ≡ slice_get decisions.now place }
{
    decisions.get(place).copied()
}

/// Writes the line of a lieutenant's decision. It writes nothing if `decision` is `None`.
fn put_decided<S: Sink>(sink: &mut S, scenario: &Scenario, general: u8, decision: Option<u32>)
    requires { general < scenario.now.generals }
    ensures { Wrote (S.contents sink.old) (S.has_failed sink.old) (text (decided_lines scenario.now general decision))
        (S.contents sink.new) (S.has_failed sink.new) }
{
    match decision {
        Some(decision) => {
            put_decision(sink, general as u32, scenario.is_traitor(general), decision);
        }
        None => {}
    }
}

/// Writes a line for each lieutenant's decision, ascending by lieutenant.
pub fn put_decisions<S: Sink>(sink: &mut S, scenario: &Scenario, decisions: &[u32])
    ensures { Wrote (S.contents sink.old) (S.has_failed sink.old)
        (text (decision_lines scenario.now (lieutenants scenario.now.generals scenario.now.commander) decisions.now))
        (S.contents sink.new) (S.has_failed sink.new) }
{
    let mut place = 0;
    for general in 0..scenario.generals() {
        if general != scenario.commander() {
            put_decided(sink, scenario, general, decision_at(decisions, place));
            place += 1;
        }
    }
}
