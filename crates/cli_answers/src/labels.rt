//! Adds to a line's JSON object where the line belongs: the round, the general, and the label with a given rank.
ghost use Rattle.std.specs.Prelude.{◌≡◌, ◌==◌, false, true, IfOk, OnOk, option_and_then, slice_get};
ghost use Rattle.label.specs.Relay.{IsShape, relay};
ghost use Rattle.serde_json.specs.View.{items_view, members_view};
ghost use Rattle.cli_answers.specs.Labels.{is_possible, label_of, numbers, own_label, placed, shape_of, with_label};

use crate::position::{Held, number_at};
use crate::shape::Within;
use label::{Label, Space, count, unrank};
use serde_json::{Map, Value, put};
use std::alloc::{AllocError, Global};

/// Checks whether the numbers can occur in a campaign: at most 13 generals, among them the commander and the general,
/// and a round from 1 to 5.
fn is_possible(held: Held) -> bool
    ensures same { result ≡ is_possible held }
    ensures within { result ≡ true → IsShape (shape_of held) }
{
    held.generals <= 13
        && held.commander < held.generals
        && held.general < held.generals
        && 1 <= held.round
        && held.round <= 5
}

/// Returns the label with this rank among those that the lieutenant relays in his round, or `None` if there is none.
fn relayed(held: Held, rank: u64) -> Option<Label>
    requires shape { IsShape (shape_of held) }
    requires lieutenant { (held.general == held.commander) ≡ false }
    ensures { result ≡ slice_get (relay (shape_of held)) rank }
{
    let space = Space {
        generals: held.generals as u8,
        commander: held.commander as u8,
        general: held.general as u8,
    };
    let size = (held.round - 1) as u8;
    if rank >= u64::from(count(space, size)) {
        return None;
    }
    unrank(space, size, rank as u32).ok()
}

/// Returns the numbers of generals as JSON numbers.
fn numbers(alloc: Global, generals: &[u8]) -> Result<Vec<Value>, AllocError>
    ensures { IfOk result (λ all. items_view all.items ≡ numbers generals.now) }
{
    let mut all = Vec::new(alloc);
    for index in 0..generals.len() {
        all.push(Value::from(generals[index]))?;
    }
    Ok(all)
}

/// Adds a label to the object as its member `label`, or nothing for `None`.
fn put_relayed(
    alloc: Global,
    object: &mut Map<String, Value>,
    label: Option<Label>,
) -> Result<(), AllocError>
    ensures { OnOk result (members_view object.new.entries ≡ with_label label (members_view object.old.entries)) }
{
    match label {
        Some(label) => {
            let generals = numbers(alloc, label.generals())?;
            put(object, alloc, "label", Value::Array(generals))
        }
        None => Ok(()),
    }
}

/// Adds the label that a commander relays to the object. He relays only the empty label, which has rank 0, in round
/// 1. Nothing is added for another round or rank.
fn put_own(
    alloc: Global,
    object: &mut Map<String, Value>,
    round: u64,
    rank: u64,
) -> Result<(), AllocError>
    ensures { OnOk result (members_view object.new.entries
        ≡ with_label (own_label round rank) (members_view object.old.entries)) }
{
    if round == 1 && rank == 0 {
        return put(object, alloc, "label", Value::Array(Vec::new(alloc)));
    }
    Ok(())
}

/// Adds the label with this rank to the object, if the general relays such a label. `held` has the general and the
/// round.
#[tactic(auto, unfolding(crate::specs::Labels::label_of), using(crate::proofs::LabelLemmas::own_relayed))]
fn put_label(
    alloc: Global,
    object: &mut Map<String, Value>,
    held: Held,
    rank: u64,
) -> Result<(), AllocError>
    ensures { OnOk result (members_view object.new.entries
        ≡ with_label (label_of held rank) (members_view object.old.entries)) }
{
    if !is_possible(held) {
        return Ok(());
    }
    if held.general == held.commander {
        return put_own(alloc, object, held.round, rank);
    }
    put_relayed(alloc, object, relayed(held, rank))
}

/// Adds the label with this rank to the object. Nothing is added if `rank` is `None`, or if the general relays no
/// such label.
fn put_label_of(
    alloc: Global,
    object: &mut Map<String, Value>,
    held: Held,
    rank: Option<u64>,
) -> Result<(), AllocError>
    ensures { OnOk result (members_view object.new.entries
        ≡ with_label (option_and_then (label_of held) rank) (members_view object.old.entries)) }
{
    match rank {
        Some(rank) => put_label(alloc, object, held, rank),
        None => Ok(()),
    }
}

/// Adds to a line's object where the line belongs. `within` says what lines of this kind need, and `held` has the
/// campaign, round and general that earlier lines name.
pub(crate) fn put_place(
    alloc: Global,
    object: &mut Map<String, Value>,
    held: Held,
    within: Within,
) -> Result<(), AllocError>
    ensures { OnOk result (members_view object.new.entries ≡ placed within held (members_view object.old.entries)) }
{
    match within {
        Within::Nothing => Ok(()),
        Within::Round => put(object, alloc, "round", Value::from(held.round)),
        Within::Letter => {
            let rank = number_at(object, "rank");
            put(object, alloc, "round", Value::from(held.round))?;
            put(object, alloc, "general", Value::from(held.general))?;
            put_label_of(alloc, object, held, rank)
        }
        Within::Outbox => {
            let rank = number_at(object, "rank");
            put_label_of(alloc, object, held, rank)
        }
        Within::General => put(object, alloc, "general", Value::from(held.general)),
    }
}
