//! Writes the words of a diagram: for strokes, for accesses to the board, and for the roles of generals.
ghost use Rattle.std.specs.Prelude.{◌≡◌, ◌++◌, decimal, flat_map, map, slice_index_or, string_bytes, OnOk};
ghost use Rattle.semantics.specs.Replies.{words_in};
ghost use Rattle.show_diagram.specs.Words.{access_outline, answer_words, answered_words, access_words, asked_words, copied_words, differs_words, kind, labels_words, order_words, outline, from_words, general_words, is_copy, kind_of, outline_of, piece_words, role_words, row_words, shown_words, stroke_words, tells_words, word_words};

use crate::stroke::Stroke;
use board::{Access, numbers, worded};
use semantics::{Reply, Request};
use std::alloc::AllocError;

/// Appends an order, or the word `nothing` if none was sent.
fn put_order(out: &mut String, told: Option<u32>) -> Result<(), AllocError>
    ensures { OnOk result (string_bytes out.new ≡ string_bytes out.old ++ order_words told) }
{
    match told {
        Some(order) => write!(out, "{order}"),
        None => out.push_str("nothing"),
    }
}

/// Appends a number of labels, such as `, 3 labels`, or nothing if the number is 1.
fn put_labels(out: &mut String, labels: usize) -> Result<(), AllocError>
    ensures { OnOk result (string_bytes out.new ≡ string_bytes out.old ++ labels_words labels) }
{
    if labels == 1 {
        out.push_str("")
    } else {
        write!(out, ", {labels} labels")
    }
}

/// Returns words that mark a stroke as one that a faithful general would not send, or the empty text if `differs` is
/// false.
fn differs_words(differs: bool) -> &'static str
    ensures { result.now ≡ differs_words differs }
{
    if differs {
        "; an honest relay would send something else"
    } else {
        ""
    }
}

/// Appends the full words of a stroke: the sender, the receiver, the order, the number of labels, and whether a
/// faithful general would send something else.
pub(crate) fn put_stroke_words(out: &mut String, stroke: &Stroke) -> Result<(), AllocError>
    ensures { OnOk result (string_bytes out.new ≡ string_bytes out.old ++ stroke_words stroke.now) }
{
    put_tells(out, stroke.teller, stroke.receiver)?;
    put_order(out, stroke.told)?;
    put_labels(out, stroke.labels)?;
    out.push_str(differs_words(stroke.differs))
}

/// Appends the sender and the receiver of a message, such as `general 2 sends general 3: `.
#[tactic(auto, unfolding(crate::specs::Words::tells_words))]
fn put_tells(out: &mut String, teller: u8, receiver: u8) -> Result<(), AllocError>
    ensures { OnOk result (string_bytes out.new ≡ string_bytes out.old ++ tells_words teller receiver) }
{
    write!(out, "general {teller} sends general {receiver}: ")
}

/// Appends the words of a stroke in its receiver's column: the sender, the order and the number of labels.
pub(crate) fn put_row_words(out: &mut String, stroke: &Stroke) -> Result<(), AllocError>
    ensures { OnOk result (string_bytes out.new ≡ string_bytes out.old ++ row_words stroke.now) }
{
    put_from(out, stroke.teller)?;
    put_order(out, stroke.told)?;
    put_labels(out, stroke.labels)
}

/// Appends the sender of a message, such as `from 2: `.
#[tactic(auto, unfolding(crate::specs::Words::from_words))]
fn put_from(out: &mut String, teller: u8) -> Result<(), AllocError>
    ensures { OnOk result (string_bytes out.new ≡ string_bytes out.old ++ from_words teller) }
{
    write!(out, "from {teller}: ")
}

/// Returns the CSS class of a stroke: `told` if a faithful general would send the same. Otherwise it is `lie` if an
/// order was sent, and `none` if none was sent.
pub fn kind(stroke: &Stroke) -> &'static str
    ensures { result.now ≡ kind stroke.now }
{
    kind_of(stroke.differs, stroke.told)
}

/// Returns the CSS class of a stroke: `told` if `differs` is false, else `lie` for an order and `none` for no order.
fn kind_of(differs: bool, told: Option<u32>) -> &'static str
    ensures { result.now ≡ kind_of differs told }
{
    match (differs, told) {
        (false, _) => "told",
        (true, Some(_)) => "lie",
        (true, None) => "none",
    }
}

/// Returns the path data of a stroke's mark: an arrowhead and a circle if a faithful general would send the same.
/// Otherwise it is an arrowhead and a diamond if an order was sent, and a cross if none was sent.
pub fn outline(stroke: &Stroke) -> &'static str
    ensures { result.now ≡ outline stroke.now }
{
    outline_of(stroke.differs, stroke.told)
}

/// Returns the path data of a stroke's mark: an arrowhead and a circle if `differs` is false, else an arrowhead and a
/// diamond for an order, and a cross for no order.
pub(crate) fn outline_of(differs: bool, told: Option<u32>) -> &'static str
    ensures { result.now ≡ outline_of differs told }
{
    match (differs, told) {
        (false, _) => "M-12-4L-7 0M-12 4L-7 0M0-4a4 4 0 0 1 0 8a4 4 0 0 1 0-8z",
        (true, Some(_)) => "M-12-4L-7 0M-12 4L-7 0M0-6l6 6l-6 6l-6-6z",
        (true, None) => "M-5-5L5 5M5-5L-5 5",
    }
}

/// Returns the path data of the mark of an access, a circle.
pub(crate) fn access_outline() -> &'static str
    ensures { result.now ≡ access_outline }
{
    "M0-4a4 4 0 0 1 0 8a4 4 0 0 1 0-8z"
}

/// Appends a request to the board as a sentence, such as `copies 2 words from word 0`.
///
/// # Errors
///
/// Fails if there is no memory for the text.
pub fn put_asked(out: &mut String, request: &Request) -> Result<(), AllocError>
    ensures { OnOk result (string_bytes out.new ≡ string_bytes out.old ++ asked_words request.now) }
{
    let (numbers, count) = numbers(request);
    put_sentence(out, worded(request).sentence, &numbers[..count])
}

/// Appends a sentence. After each piece comes the number that has the piece's index in `numbers`, or 0 if there is no
/// such number.
fn put_sentence(
    out: &mut String,
    sentence: &[(&'static str, usize)],
    numbers: &[u64],
) -> Result<(), AllocError>
    ensures { OnOk result (string_bytes out.new ≡ string_bytes out.old
        ++ flat_map (piece_words numbers.now) (map (λ p. (p.0.now, p.1)) sentence.now)) }
{
    for (piece, place) in sentence {
        put_piece(out, piece, number_at(numbers, *place))?;
    }
    Ok(())
}

/// Appends a piece of a sentence, followed by a number.
fn put_piece(out: &mut String, piece: &str, number: u64) -> Result<(), AllocError>
    ensures { OnOk result (string_bytes out.new ≡ string_bytes out.old ++ (piece.now ++ decimal number)) }
{
    write!(out, "{piece}{number}")
}

/// Returns the number at index `place`, or 0 if there is none.
fn number_at(numbers: &[u64], place: usize) -> u64
    ensures { result ≡ slice_index_or numbers.now place 0 }
{
    match numbers.get(place) {
        Some(number) => *number,
        None => 0,
    }
}

/// Appends the answer of the board, such as `; answer 5`.
fn put_answer(out: &mut String, reply: &Reply) -> Result<(), AllocError>
    ensures { OnOk result (string_bytes out.new ≡ string_bytes out.old ++ answer_words (words_in reply.now)) }
{
    out.push_str("; answer")?;
    put_answered(out, reply)
}

/// Appends the words of the board's answer, each after a space.
///
/// # Errors
///
/// Fails if there is no memory for the text.
pub fn put_answered(out: &mut String, reply: &Reply) -> Result<(), AllocError>
    ensures { OnOk result (string_bytes out.new ≡ string_bytes out.old ++ answered_words (words_in reply.now)) }
{
    match reply {
        Reply::Word(word) => put_word(out, *word),
        Reply::Words(copied) => put_all(out, copied.as_slice()),
    }
}

/// Appends a word of the board, after a space.
fn put_word(out: &mut String, word: u64) -> Result<(), AllocError>
    ensures { OnOk result (string_bytes out.new ≡ string_bytes out.old ++ word_words word) }
{
    write!(out, " {word}")
}

/// Appends several words of the board, each after a space.
fn put_all(out: &mut String, words: &[u64]) -> Result<(), AllocError>
    ensures { OnOk result (string_bytes out.new ≡ string_bytes out.old ++ answered_words words.now) }
{
    for word in words {
        put_word(out, *word)?;
    }
    Ok(())
}

/// Appends the full words of an access to the board: the general, his request and the answer.
///
/// # Errors
///
/// Fails if there is no memory for the text.
pub fn put_access_words(out: &mut String, access: &Access) -> Result<(), AllocError>
    ensures { OnOk result (string_bytes out.new ≡ string_bytes out.old ++ access_words access.now) }
{
    put_general(out, access.general)?;
    out.push_str(" ")?;
    put_asked(out, &access.request)?;
    put_answer(out, access.reply())
}

/// Appends the name of a general, such as `general 2`.
pub(crate) fn put_general(out: &mut String, general: u32) -> Result<(), AllocError>
    ensures { OnOk result (string_bytes out.new ≡ string_bytes out.old ++ general_words general) }
{
    write!(out, "general {general}")
}

/// Appends the words that are drawn next to the board for an access: the request and the answer. The answer is left
/// out if the request copies words.
pub(crate) fn put_shown(out: &mut String, access: &Access) -> Result<(), AllocError>
    ensures { OnOk result (string_bytes out.new ≡ string_bytes out.old ++ shown_words access.now) }
{
    put_asked(out, &access.request)?;
    if is_copy(&access.request) {
        return Ok(());
    }
    put_answer(out, access.reply())
}

/// Checks whether a request copies words of the board.
#[tactic(auto, unfolding(crate::specs::Words::is_copy))]
fn is_copy(request: &Request) -> bool
    ensures { result ≡ is_copy request.now }
{
    worded(request).copies
}

/// Appends the full words of each access that copies words, as a sentence. The diagram itself has no room for them.
///
/// # Errors
///
/// Fails if there is no memory for the text.
pub fn put_copied(out: &mut String, accesses: &[Access]) -> Result<(), AllocError>
    ensures { OnOk result (string_bytes out.new ≡ string_bytes out.old ++ flat_map copied_words accesses.now) }
{
    for access in accesses {
        put_copied_by(out, access)?;
    }
    Ok(())
}

/// Appends the full words of an access as a sentence, if its request copies words.
fn put_copied_by(out: &mut String, access: &Access) -> Result<(), AllocError>
    ensures { OnOk result (string_bytes out.new ≡ string_bytes out.old ++ copied_words access.now) }
{
    if !is_copy(&access.request) {
        return Ok(());
    }
    out.push_str(" In full: ")?;
    put_access_words(out, access)?;
    out.push_str(".")
}

/// Returns the role of a general and whether he is loyal, such as `commander, loyal`.
pub(crate) fn role_words(is_commander: bool, is_traitor: bool) -> &'static str
    ensures { result.now ≡ role_words is_commander is_traitor }
{
    match (is_commander, is_traitor) {
        (true, true) => "commander, traitor",
        (true, false) => "commander, loyal",
        (false, true) => "lieutenant, traitor",
        (false, false) => "lieutenant, loyal",
    }
}
