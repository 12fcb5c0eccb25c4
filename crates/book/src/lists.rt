//! Writes the list of orders that a lieutenant combines at each label, for the explanation of his decision.
ghost use Rattle.std.specs.Prelude.{◌≡◌, ◌≤◌, ◌+◌, ◌++◌, ◌∷◌, [], ℕ, List, true, length, IfOk, OnOk, None, string_bytes};
ghost use Rattle.std.specs.Fmt.{decimal};
ghost use Rattle.book.specs.Grammar.{is_place};
ghost use Rattle.book.specs.Explained.{dotted, held, list_lines, list_words, part_words};

use crate::message_source::Heard;
use arrayvec::ArrayVec;
use label::Label;
use std::alloc::{AllocError, Global};

/// Returns a label as text: the numbers of its generals joined by dots, such as `0.2.3`.
pub(crate) fn dotted(alloc: Global, label: &Label) -> Result<String, AllocError>
    ensures { IfOk result (λ text. string_bytes text ≡ dotted label.now) }
{
    match label.generals() {
        [] => Ok(String::new(alloc)),
        [first, rest @ ..] => joined(alloc, *first, rest),
    }
}

/// Returns the label of `first` and then the generals `rest` as text, such as `0.2.3`.
fn joined(alloc: Global, first: u8, rest: &[u8]) -> Result<String, AllocError>
    ensures { IfOk result (λ text. string_bytes text ≡ dotted (first ∷ rest.now)) }
{
    let mut text = format!(in alloc; "{first}")?;
    for general in rest {
        let next = format!(in alloc; ".{general}")?;
        text.push_str(next.as_str())?;
    }
    Ok(text)
}

/// The bytes reserved for the text of a label's first four generals, such as `10.11.12.9.`.
const ROOM_AHEAD: usize = 12;

/// The bytes reserved for the text of a list: eight labels of five generals of two digits, each with an order of ten
/// digits.
const ROOM_FOR_PARTS: usize = 216;

/// Returns the text with which the labels begin that have one general more than `label`, such as `0.2.`. The text of
/// `label` is `front` and then the number `last`.
fn behind(alloc: Global, label: &Label, front: &str, last: u8) -> Result<String, AllocError>
    requires { front.now ++ decimal last ≡ dotted label.now }
    ensures { IfOk result (λ text. (other : ℕ) →
        string_bytes text ++ decimal other ≡ dotted (label.now ++ other ∷ [])) }
{
    let _generals = label.len();
    let mut text = String::with_capacity(alloc, ROOM_AHEAD)?;
    write!(text, "{front}{last}.")?;
    Ok(text)
}

/// Appends one entry of a list: a label, and the order that the lieutenant holds for it or `nothing`, such as `, 0.2
/// 1`. The text of the label is `front` and then the number `general`.
fn push_part(
    parts: &mut String,
    front: &str,
    general: u8,
    held: Option<u32>,
) -> Result<(), AllocError>
    ensures { (w : List ℕ) → front.now ++ decimal general ≡ dotted w →
        OnOk result (string_bytes parts.new ≡ string_bytes parts.old ++ part_words w held) }
{
    match held {
        Some(order) => write!(parts, ", {front}{general} {order}"),
        None => write!(parts, ", {front}{general} nothing"),
    }
}

/// Appends the line of a label for which the lieutenant received no order: the entries `parts` of its list, and the
/// outcome `order` after `words`. The text of the label is `front` and then the number `last`.
fn push_silent_list(
    lines: &mut String,
    front: &str,
    last: u8,
    parts: &str,
    words: &str,
    order: u32,
) -> Result<(), AllocError>
    ensures { (w : List ℕ) → front.now ++ decimal last ≡ dotted w →
        OnOk result (string_bytes lines.new ≡ string_bytes lines.old
        ++ list_words w None parts.now (words.now ++ decimal order)) }
{
    write!(lines, "{front}{last}: received ")?;
    write!(lines, "nothing{parts}: {words}{order}\n")
}

/// Appends the line of a label: the order that the lieutenant received for it, the entries `parts` of its list, and the
/// outcome `order` after `words`. The text of the label is `front` and then the number `last`.
fn push_list(
    lines: &mut String,
    front: &str,
    last: u8,
    told: Option<u32>,
    parts: &str,
    words: &str,
    order: u32,
) -> Result<(), AllocError>
    ensures { (w : List ℕ) → front.now ++ decimal last ≡ dotted w →
        OnOk result (string_bytes lines.new ≡ string_bytes lines.old
        ++ list_words w told parts.now (words.now ++ decimal order)) }
{
    match told {
        Some(said) => write!(
            lines,
            "{front}{last}: received {said}{parts}: {words}{order}\n"
        ),
        None => push_silent_list(lines, front, last, parts, words, order),
    }
}

/// Appends the lines of a label and of the longer labels that begin with it. `relays` is the number of generals by
/// which a label can still grow. The text of the label is `front` and then the number `last`.
///
/// Returns the order that lieutenant `general` then holds for the label: what he decides about it or, if `relays` is 0,
/// the order that he received, if any.
pub(crate) fn push_lists<H: Heard>(
    alloc: Global,
    lines: &mut String,
    table: &H,
    general: u8,
    label: &Label,
    front: &str,
    last: u8,
    relays: u8,
) -> Result<Option<u32>, AllocError>
    requires place { is_place (H.seen table.now) label.now general ≡ true }
    requires spelt { front.now ++ decimal last ≡ dotted label.now }
    requires relays { length label.now + relays ≡ (H.seen table.now).bound + 1 }
    ensures held { IfOk result (λ order. order ≡ held (H.seen table.now) relays label.now general) }
    ensures lines { OnOk result
        (string_bytes lines.new ≡ string_bytes lines.old ++ list_lines (H.seen table.now) relays label.now general) }
{
    let told = table.told(label, general);
    if relays == 0 {
        return Ok(told);
    }
    let ahead = behind(alloc, label, front, last)?;
    let mut parts = String::with_capacity(alloc, ROOM_FOR_PARTS)?;
    let mut orders: ArrayVec<u32, 13> = ArrayVec::new();
    for other in 0..table.generals() {
        if other == general {
            orders.push(told.unwrap_or(0));
        } else if !label.has(other) {
            let next = label.with(other);
            let begun = ahead.as_str();
            let held = push_lists(
                alloc,
                lines,
                table,
                general,
                &next,
                begun,
                other,
                relays - 1,
            )?;
            push_part(&mut parts, begun, other, held)?;
            orders.push(held.unwrap_or(0));
        }
    }
    let outcome = table.rule().outcome(orders.as_slice());
    let order = outcome.order();
    let words = outcome.head();
    push_list(lines, front, last, told, parts.as_str(), words, order)?;
    Ok(Some(order))
}
