//! Collects the messages that a lieutenant received for the labels of his tree.
ghost use Rattle.std.specs.Prelude.{◌≡◌, ◌≢◌, ◌<◌, ◌+◌, ◌++◌, ◌∷◌, [], length, true, IfOk, OnOk};
ghost use Rattle.book.specs.Conditions.{is_told};
ghost use Rattle.book.specs.Grammar.{is_place};
ghost use Rattle.show_diagram.specs.Facts.{first_telling, telling_at, tellings_below, tellings_of};

use crate::told_order::Telling;
use book::Heard;
use label::Label;
use std::alloc::{AllocError, Global};

/// Returns the message that the lieutenant `general` received for each label of his tree. `order` is the order that
/// the commander was given. A label comes before the labels that extend it.
///
/// # Errors
///
/// Fails if there is no memory for the messages.
#[tactic(auto, unfolding(crate::specs::Facts::tellings_of))]
pub(crate) fn tellings<H: Heard>(
    alloc: Global,
    table: &H,
    order: u32,
    general: u8,
) -> Result<Vec<Telling>, AllocError>
    requires general { general < (H.seen table.now).generals }
    requires lieutenant { general ≢ (H.seen table.now).commander }
    ensures { IfOk result (λ tellings. tellings.items ≡ tellings_of (H.seen table.now) order general) }
{
    let label = Label::of(table.commander());
    let mut tellings = Vec::new(alloc);
    tellings.push(first(table, order, general, &label))?;
    push_below(&mut tellings, table, general, &label, table.bound())?;
    Ok(tellings)
}

/// Returns the commander's message to the lieutenant `general`. The message's `differs` is true if `order`, the order
/// that the commander was given, was not sent.
fn first<H: Heard>(table: &H, order: u32, general: u8, label: &Label) -> Telling
    requires label { label.now ≡ (H.seen table.now).commander ∷ [] }
    requires place { is_place (H.seen table.now) label.now general ≡ true }
    ensures { result ≡ first_telling (H.seen table.now) order general }
{
    let told = table.told(label, general);
    Telling {
        round: 1,
        teller: table.commander(),
        told,
        differs: !is_told(order, told),
    }
}

/// Returns the message that `general` received for the label `next`, which is `label` followed by the sender
/// `teller`.
fn telling<H: Heard>(table: &H, general: u8, label: &Label, teller: u8, next: &Label) -> Telling
    requires next { next.now ≡ label.now ++ teller ∷ [] }
    requires place { is_place (H.seen table.now) next.now general ≡ true }
    ensures { result ≡ telling_at (H.seen table.now) label.now teller general }
{
    let _size = label.len();
    let took = table.told(label, teller).unwrap_or(0);
    let told = table.told(next, general);
    Telling {
        round: next.len(),
        teller,
        told,
        differs: !is_told(took, told),
    }
}

/// Checks whether the received order `told` is `order`. Returns false if nothing was received.
fn is_told(order: u32, told: Option<u32>) -> bool
    ensures { result ≡ is_told order told }
{
    match told {
        Some(other) => other == order,
        None => false,
    }
}

/// Appends the messages that the lieutenant `general` received for the labels that extend `label` by 1 to `relays`
/// generals.
fn push_below<H: Heard>(
    tellings: &mut Vec<Telling>,
    table: &H,
    general: u8,
    label: &Label,
    relays: u8,
) -> Result<(), AllocError>
    requires place { is_place (H.seen table.now) label.now general ≡ true }
    requires relays { length label.now + relays ≡ (H.seen table.now).bound + 1 }
    ensures { OnOk result (tellings.new.items ≡ tellings.old.items
        ++ tellings_below (H.seen table.now) relays label.now general) }
{
    if relays == 0 {
        return Ok(());
    }
    for other in 0..table.generals() {
        if other != general && !label.has(other) {
            let next = label.with(other);
            tellings.push(telling(table, general, label, other, &next))?;
            push_below(tellings, table, general, &next, relays - 1)?;
        }
    }
    Ok(())
}
