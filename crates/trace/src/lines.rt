//! Writes single lines of a chronicle to a sink.
ghost use Rattle.std.specs.Prelude.{◌≡◌, ◌==◌, ◌<◌, ◌≤◌, ◌+◌, ◌++◌, ◌∷◌, [], ℕ, decimal, codes, length, map, filter, Option, slice_index_or};
ghost use Rattle.semantics.specs.Replies.{words_in};
ghost use Rattle.trace.specs.Sinks.{Wrote, WroteBut};
ghost use Rattle.trace.specs.Text.{author_line, further, text, access_line, place, question, yes_no, yes_no_none, verdict_line, decision_line};
ghost use Rattle.trace.specs.Lines.{mark, round_line, row_line};

use crate::line_buffer::LineBuffer;
use crate::sink::Sink;
use crate::writer::{put_all, put_headed, put_next};
use board::{Access, numbers, worded};
use outbox::{Outbox, ReceiverOrders};
use semantics::{Reply, Request};
use world::Verdict;

/// Writes each number in decimal with a space before it.
fn put_numbers<S: Sink>(sink: &mut S, numbers: &[u64])
    ensures { Wrote (S.contents sink.old) (S.has_failed sink.old) (further (map decimal numbers.now))
        (S.contents sink.new) (S.has_failed sink.new) }
{
    for number in numbers {
        put_next(sink, *number);
    }
}

/// Writes a word and then numbers in decimal, each with a space before it.
fn put_words<S: Sink>(sink: &mut S, word: &[u8], numbers: &[u64])
    ensures { Wrote (S.contents sink.old) (S.has_failed sink.old) (further (word.now ∷ map decimal numbers.now))
        (S.contents sink.new) (S.has_failed sink.new) }
{
    put_all(sink, b" ");
    put_all(sink, word);
    put_numbers(sink, numbers);
}

/// Writes a request: its word and its numbers, each with a space before it.
fn put_question<S: Sink>(sink: &mut S, request: &Request)
    ensures { Wrote (S.contents sink.old) (S.has_failed sink.old) (further (question request.now)) (S.contents sink.new)
        (S.has_failed sink.new) }
{
    let (numbers, count) = numbers(request);
    put_words(sink, worded(request).word.as_bytes(), &numbers[..count]);
}

/// Writes the words of the board's reply in decimal, each with a space before it.
fn put_reply<S: Sink>(sink: &mut S, reply: &Reply)
    ensures { Wrote (S.contents sink.old) (S.has_failed sink.old) (further (map decimal (words_in reply.now)))
        (S.contents sink.new) (S.has_failed sink.new) }
{
    match reply {
        Reply::Word(word) => put_next(sink, *word),
        Reply::Words(copied) => put_numbers(sink, copied.as_slice()),
    }
}

/// Writes the line of an access: its general, his request and the board's reply.
pub fn put_access<S: Sink>(sink: &mut S, access: &Access)
    ensures { Wrote (S.contents sink.old) (S.has_failed sink.old) (text (access_line access.now ∷ []))
        (S.contents sink.new) (S.has_failed sink.new) }
{
    put_headed(sink, b"access", access.general as u64);
    put_question(sink, &access.request);
    put_all(sink, b" =");
    put_reply(sink, &access.reply);
    put_all(sink, b"\n");
}

/// Writes the line of an access if it was made in this round, and nothing otherwise.
fn put_access_in<S: Sink>(sink: &mut S, round: u64, access: &Access)
    ensures { Wrote (S.contents sink.old) (S.has_failed sink.old)
        (text (map access_line (filter (λ a. a.round == round) (access.now ∷ [])))) (S.contents sink.new)
        (S.has_failed sink.new) }
{
    if u64::from(access.round) == round {
        put_access(sink, access);
    }
}

/// Writes a line for each access that was made in this round, in order.
pub fn put_accesses<S: Sink>(sink: &mut S, round: u64, accesses: &[Access])
    ensures { Wrote (S.contents sink.old) (S.has_failed sink.old)
        (text (map access_line (filter (λ a. a.round == round) accesses.now))) (S.contents sink.new)
        (S.has_failed sink.new) }
{
    for access in accesses {
        put_access_in(sink, round, access);
    }
}

/// Writes the line that begins a round, such as `round 1`.
pub fn put_round<S: Sink>(sink: &mut S, round: u64)
    ensures { Wrote (S.contents sink.old) (S.has_failed sink.old) (text (round_line round ∷ [])) (S.contents sink.new)
        (S.has_failed sink.new) }
{
    put_headed(sink, b"round", round);
    put_all(sink, b"\n");
}

/// Writes a space and an order, or a dash for no order.
pub fn put_order<S: Sink>(sink: &mut S, order: Option<u32>)
    ensures { Wrote (S.contents sink.old) (S.has_failed sink.old) (32 ∷ place order) (S.contents sink.new)
        (S.has_failed sink.new) }
{
    match order {
        Some(order) => put_next(sink, order as u64),
        None => put_all(sink, b" -"),
    }
}

/// Appends the orders that were sent to the receivers of the label of this rank, each after a space. A dash means that
/// none was sent. At most 143 bytes are appended: 11 for each of at most 13 receivers.
fn add_orders(line: &mut LineBuffer, outbox: &Outbox, rank: u32)
    requires rank { rank < length outbox.now.rows }
    requires room { length line.old + 143 ≤ 1024 }
    ensures orders { line.new ≡ line.old ++ further (map place (slice_index_or outbox.now.rows rank [])) }
    ensures short { length line.new ≤ length line.old + 143 }
{
    match outbox.told(rank) {
        ReceiverOrders::Alike { order, times } => line.add_alike(order, times),
        ReceiverOrders::Apart(orders) => line.add_orders(orders.as_slice()),
    }
}

/// Appends the line for the label of this rank: its rank, and the orders that were sent to its receivers. A line is at
/// most 158 bytes.
fn add_row(lines: &mut LineBuffer, outbox: &Outbox, rank: u32)
    requires rank { rank < length outbox.now.rows }
    requires room { length lines.old + 158 ≤ 1024 }
    ensures { lines.new ≡ lines.old ++ text (row_line rank (slice_index_or outbox.now.rows rank []) ∷ []) }
{
    lines.add(b"row");
    lines.add_number(rank);
    add_orders(lines, outbox, rank);
    lines.add(b"\n");
}

/// If fewer than 158 bytes of the buffer are free, which a line may need, writes the buffered lines and empties the
/// buffer.
fn put_full<S: Sink>(sink: &mut S, lines: &mut LineBuffer)
    ensures put { WroteBut (S.contents sink.old) (S.has_failed sink.old) lines.old (S.contents sink.new)
        (S.has_failed sink.new) lines.new }
    ensures room { length lines.new + 158 ≤ 1024 }
{
    if lines.is_full() {
        put_all(sink, lines.as_slice());
        lines.clear();
    }
}

/// Appends the line for the label of this rank to the buffer: its rank, and the orders that were sent to its receivers.
/// If fewer than 158 bytes are then free, writes all buffered lines and empties the buffer.
pub fn put_row<S: Sink>(sink: &mut S, lines: &mut LineBuffer, outbox: &Outbox, rank: u32)
    requires rank { rank < length outbox.now.rows }
    requires room { length lines.old + 158 ≤ 1024 }
    ensures put { WroteBut (S.contents sink.old) (S.has_failed sink.old)
        (lines.old ++ text (row_line rank (slice_index_or outbox.now.rows rank []) ∷ [])) (S.contents sink.new)
        (S.has_failed sink.new) lines.new }
    ensures room { length lines.new + 158 ≤ 1024 }
{
    add_row(lines, outbox, rank);
    put_full(sink, lines);
}

/// Writes the first line of a letter, such as `letter 2 steps 14` for a traitor, whose program took 14 steps, or
/// `letter 1 loyal` for a loyal general. `steps` is `None` if he is loyal.
pub fn put_author<S: Sink>(sink: &mut S, general: u32, steps: Option<u32>)
    ensures { Wrote (S.contents sink.old) (S.has_failed sink.old) (text (author_line general steps ∷ []))
        (S.contents sink.new) (S.has_failed sink.new) }
{
    put_headed(sink, b"letter", general as u64);
    match steps {
        None => put_all(sink, b" loyal\n"),
        Some(steps) => {
            put_headed(sink, b" steps", steps as u64);
            put_all(sink, b"\n");
        }
    }
}

/// Writes the word ` traitor` if the lieutenant is a traitor, and nothing otherwise.
fn put_mark<S: Sink>(sink: &mut S, is_traitor: bool)
    ensures { Wrote (S.contents sink.old) (S.has_failed sink.old) (further (mark is_traitor)) (S.contents sink.new)
        (S.has_failed sink.new) }
{
    if is_traitor {
        put_all(sink, b" traitor");
    }
}

/// Writes the line of a lieutenant's decision, such as `decision 1 0` or `decision 2 traitor 1`.
pub fn put_decision<S: Sink>(sink: &mut S, general: u32, is_traitor: bool, decision: u32)
    ensures { Wrote (S.contents sink.old) (S.has_failed sink.old)
        (text (decision_line general is_traitor decision ∷ [])) (S.contents sink.new) (S.has_failed sink.new) }
{
    put_headed(sink, b"decision", general as u64);
    put_mark(sink, is_traitor);
    put_next(sink, decision as u64);
    put_all(sink, b"\n");
}

/// Writes a space and `yes` or `no`.
fn put_yes_no<S: Sink>(sink: &mut S, is_so: bool)
    ensures { Wrote (S.contents sink.old) (S.has_failed sink.old) (32 ∷ yes_no is_so) (S.contents sink.new)
        (S.has_failed sink.new) }
{
    if is_so {
        put_all(sink, b" yes");
    } else {
        put_all(sink, b" no");
    }
}

/// Writes a space, and `yes`, `no` or a dash for `None`.
fn put_yes_no_none<S: Sink>(sink: &mut S, is_so: Option<bool>)
    ensures { Wrote (S.contents sink.old) (S.has_failed sink.old) (32 ∷ yes_no_none is_so) (S.contents sink.new)
        (S.has_failed sink.new) }
{
    match is_so {
        Some(is_so) => put_yes_no(sink, is_so),
        None => put_all(sink, b" -"),
    }
}

/// Writes the line of the verdict, such as `verdict alike yes obeyed - bound yes`.
pub fn put_verdict<S: Sink>(sink: &mut S, verdict: Verdict)
    ensures { Wrote (S.contents sink.old) (S.has_failed sink.old) (text (verdict_line verdict ∷ []))
        (S.contents sink.new) (S.has_failed sink.new) }
{
    put_all(sink, b"verdict alike");
    put_yes_no(sink, verdict.alike);
    put_all(sink, b" obeyed");
    put_yes_no_none(sink, verdict.obeyed);
    put_all(sink, b" bound");
    put_yes_no(sink, verdict.bound);
    put_all(sink, b"\n");
}
