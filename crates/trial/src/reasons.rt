//! Explains in text why a program's call of a helper such as `send` has no effect.
ghost use Rattle.std.specs.Prelude.{◌≡◌, ◌<◌, ◌∷◌, ◌++◌, if◌then◌else◌, ◌==◌, List, ℕ, Some, length, slice_get, string_bytes, IfOk, OnOk};
ghost use Rattle.std.specs.Int.{bit_at};
ghost use Rattle.label.specs.Relay.{IsShape, relay};
ghost use Rattle.trial.specs.Notes.{are_signed, dotted, full, no_label, no_place, no_row, not_passed, oral_reason, passed_over, past, reason_of, signed_already, signed_reason, unheard, unheld, unsigned};

use crate::held_chains::HeldChains;
use crate::helper_call::HelperCall;
use crate::relayed_labels::labels_relayed;
use helper::Helper;
use label::{Shape, Space, unrank};
use std::alloc::{AllocError, Global};

/// Appends the reason why a call has no effect. `held` says which chains the general holds, or that messages are oral.
///
/// # Errors
///
/// Fails with `AllocError` if there is no memory for the text.
pub(crate) fn put_reason(
    alloc: Global,
    out: &mut String,
    shape: Shape,
    held: &HeldChains,
    call: HelperCall,
) -> Result<(), AllocError>
    requires { IsShape shape }
    ensures { OnOk result (string_bytes out.new ≡ string_bytes out.old ++ reason_of held.now shape call) }
{
    match held.signers() {
        None => put_oral_reason(alloc, out, shape, call),
        Some(signers) => put_signed_reason(out, shape, signers, call),
    }
}

/// Appends the reason why a call has no effect in a campaign with oral messages. Appends nothing for a helper that
/// sends no orders.
fn put_oral_reason(
    alloc: Global,
    out: &mut String,
    shape: Shape,
    call: HelperCall,
) -> Result<(), AllocError>
    requires { IsShape shape }
    ensures { OnOk result (string_bytes out.new ≡ string_bytes out.old
        ++ oral_reason shape call.first call.second call.third call.helper) }
{
    match call.helper {
        Helper::Send => put_no_place(alloc, out, shape, call.first, call.second),
        Helper::SendRow => put_no_row(alloc, out, shape, call.first, call.third),
        Helper::Sway | Helper::Honest => put_no_label(out, shape, call.first),
        Helper::SignOrder | Helper::PassOn => out.push_str("messages are not signed"),
        _ => Ok(()),
    }
}

/// Appends the reason why a call has no effect in a campaign with signed messages. `held` has the signers of each chain
/// that the general holds.
fn put_signed_reason(
    out: &mut String,
    shape: Shape,
    held: &[u16],
    call: HelperCall,
) -> Result<(), AllocError>
    requires { IsShape shape }
    ensures { OnOk result (string_bytes out.new ≡ string_bytes out.old
        ++ signed_reason shape held.now call.first call.helper) }
{
    match call.helper {
        Helper::SignOrder => put_unsigned(out, shape),
        Helper::PassOn => put_not_passed(out, shape.general, held, call.first),
        _ => put_are_signed(out),
    }
}

/// Appends that messages are signed, so that a call for oral messages has no effect.
fn put_are_signed(out: &mut String) -> Result<(), AllocError>
    ensures { OnOk result (string_bytes out.new ≡ string_bytes out.old ++ are_signed) }
{
    out.push_str("messages are signed")
}

/// Appends that a general can send no more chains in a round.
fn put_full(out: &mut String) -> Result<(), AllocError>
    ensures { OnOk result (string_bytes out.new ≡ string_bytes out.old ++ full) }
{
    out.push_str("a general sends at most 8 chains in a round")
}

/// Appends the reason why `sign_order` signs nothing: the general is not the commander, or can send no more chains.
fn put_unsigned(out: &mut String, shape: Shape) -> Result<(), AllocError>
    ensures { OnOk result (string_bytes out.new ≡ string_bytes out.old ++ unsigned shape) }
{
    if shape.general == shape.commander {
        return put_full(out);
    }
    out.push_str("only the commander signs orders")
}

/// Appends the reason why `pass_on` passes nothing on: the general holds no chain with this index, he has signed it, or
/// he can send no more chains. `held` has the signers of each chain that he holds.
fn put_not_passed(
    out: &mut String,
    general: u32,
    held: &[u16],
    index: u64,
) -> Result<(), AllocError>
    requires { general < 16 }
    ensures { OnOk result (string_bytes out.new ≡ string_bytes out.old
        ++ not_passed general index (length held.now) (slice_get held.now index)) }
{
    match held.get(index as usize) {
        None => put_unheld(out, held.len(), index),
        Some(signers) => put_signed_already(out, general, *signers, index),
    }
}

/// Appends that a chain's index is too great, because only `count` chains are held, or that none is held.
fn put_unheld(out: &mut String, count: usize, index: u64) -> Result<(), AllocError>
    ensures { OnOk result (string_bytes out.new ≡ string_bytes out.old ++ unheld index count) }
{
    if count == 0 {
        return out.push_str("no chain is held");
    }
    let last = count - 1;
    write!(out, "chain {index} is past the last, {last}")
}

/// Appends the reason why an existing chain with these signers is not passed on: the general is one of them, or he can
/// send no more chains.
fn put_signed_already(
    out: &mut String,
    general: u32,
    signers: u16,
    index: u64,
) -> Result<(), AllocError>
    requires { general < 16 }
    ensures { OnOk result (string_bytes out.new ≡ string_bytes out.old ++ signed_already general index signers) }
{
    if has_signed(signers, general) {
        return write!(out, "general {general} has already signed chain {index}");
    }
    put_full(out)
}

/// Checks whether a general, below 16, is in a set of signers.
fn has_signed(signers: u16, general: u32) -> bool
    requires { general < 16 }
    ensures { result ≡ (bit_at signers general == 1) }
{
    (signers >> general) & 1 == 1
}

/// Appends the reason why `send` sets no order for the label with this rank and this receiver: the label does not
/// exist, or does not go to him.
fn put_no_place(
    alloc: Global,
    out: &mut String,
    shape: Shape,
    rank: u64,
    receiver: u64,
) -> Result<(), AllocError>
    requires { IsShape shape }
    ensures { OnOk result (string_bytes out.new ≡ string_bytes out.old
        ++ no_place shape rank receiver (slice_get (relay shape) rank)) }
{
    let labels = labels_relayed(shape);
    if rank >= u64::from(labels) {
        return put_past(out, rank, labels);
    }
    let label = label_text(alloc, shape, rank as u32)?;
    let such = format!(in alloc; "the label {label}")?;
    put_unheard(out, shape, receiver, such.as_str())
}

/// Appends the reason why `send_row` sets no order for the label with this rank. `orders` is the number of orders
/// that the call passed.
fn put_no_row(
    alloc: Global,
    out: &mut String,
    shape: Shape,
    rank: u64,
    orders: u64,
) -> Result<(), AllocError>
    requires { IsShape shape }
    ensures { OnOk result (string_bytes out.new ≡ string_bytes out.old
        ++ no_row shape rank orders (slice_get (relay shape) rank)) }
{
    let labels = labels_relayed(shape);
    if rank >= u64::from(labels) {
        return put_past(out, rank, labels);
    }
    if orders == 0 {
        return out.push_str("no orders were given");
    }
    let label = label_text(alloc, shape, rank as u32)?;
    write!(out, "nobody receives the label {label}")
}

/// Appends the reason why `sway` or `honest` sets no order for a receiver: no label goes to him.
fn put_no_label(out: &mut String, shape: Shape, receiver: u64) -> Result<(), AllocError>
    requires { IsShape shape }
    ensures { OnOk result (string_bytes out.new ≡ string_bytes out.old
        ++ no_label shape receiver (length (relay shape))) }
{
    if labels_relayed(shape) == 0 {
        return out.push_str("nothing is relayed in this round");
    }
    put_unheard(out, shape, receiver, "every label")
}

/// Appends that `rank` is too great, because there are only `labels` labels, or that there are none.
fn put_past(out: &mut String, rank: u64, labels: u32) -> Result<(), AllocError>
    ensures { OnOk result (string_bytes out.new ≡ string_bytes out.old ++ past rank labels) }
{
    if labels == 0 {
        return out.push_str("nothing is relayed in this round");
    }
    let last = labels - 1;
    write!(out, "rank {rank} is past the last, {last}")
}

/// Appends the reason why a receiver gets no order for `such` (words that name one label or all labels). Either he
/// does not exist, or he is the sender, or he is on the label.
fn put_unheard(out: &mut String, shape: Shape, receiver: u64, such: &str) -> Result<(), AllocError>
    ensures { OnOk result (string_bytes out.new ≡ string_bytes out.old ++ unheard shape receiver such.now) }
{
    if receiver < u64::from(shape.generals) {
        return put_passed_over(out, shape.general, receiver, such);
    }
    write!(out, "there is no general {receiver}")
}

/// Appends the reason why an existing general gets no order for `such` (words that name one label or all labels).
/// Either he is the sender, or he is on the label.
fn put_passed_over(
    out: &mut String,
    sender: u32,
    receiver: u64,
    such: &str,
) -> Result<(), AllocError>
    ensures { OnOk result (string_bytes out.new ≡ string_bytes out.old ++ passed_over sender receiver such.now) }
{
    if receiver == u64::from(sender) {
        return write!(out, "general {receiver} is the sender himself");
    }
    write!(out, "general {receiver} is on {such}")
}

/// Returns the label with this rank among those that the general of `shape` relays in its round, as text such as
/// `0.2`.
fn label_text(alloc: Global, shape: Shape, rank: u32) -> Result<String, AllocError>
    requires shape { IsShape shape }
    requires within { rank < length (relay shape) }
    ensures { IfOk result (λ text. (label : List ℕ) → slice_get (relay shape) rank ≡ Some label →
        string_bytes text ≡ dotted label) }
{
    if shape.general == shape.commander {
        return dotted(alloc, &[]);
    }
    let space = Space {
        generals: shape.generals as u8,
        commander: shape.commander as u8,
        general: shape.general as u8,
    };
    match unrank(space, (shape.round - 1) as u8, rank) {
        Ok(label) => dotted(alloc, label.generals()),
        Err(_) => unreachable!(),
    }
}

/// Returns a label as text: its generals in decimal, joined by dots, such as `0.2`. The empty label is a dash.
fn dotted(alloc: Global, generals: &[u8]) -> Result<String, AllocError>
    ensures { IfOk result (λ text. string_bytes text ≡ dotted generals.now) }
{
    match generals {
        [] => String::from_str(alloc, "-"),
        [first, rest @ ..] => joined(alloc, *first, rest),
    }
}

/// Returns the label with the generals `first` and `rest` as text, joined by dots, such as `0.2`.
fn joined(alloc: Global, first: u8, rest: &[u8]) -> Result<String, AllocError>
    ensures { IfOk result (λ text. string_bytes text ≡ dotted (first ∷ rest.now)) }
{
    let mut text = format!(in alloc; "{first}")?;
    for general in rest {
        write!(text, ".{general}")?;
    }
    Ok(text)
}
