//! Writes the program of a traitor in assembly.
ghost use Rattle.std.specs.Prelude.{◌≡◌, ◌≢◌, ◌<◌, ◌≤◌, ◌+◌, ◌++◌, length, OnOk, string_bytes};
ghost use Rattle.label.specs.Labels.{labels};
ghost use Rattle.label.specs.Oral.{IsLabel};
ghost use Rattle.label.specs.Relay.{relay};
ghost use Rattle.table_scenario.specs.Programs.{label_text, message_text, relayed_text, round_text, rounds_text, shape_of, traitor_text};

use crate::dotted_label::dotted;
use book::Heard;
use label::{Label, Space, count, unrank};
use std::alloc::{AllocError, Global};

/// Appends the instructions that send one order, or nothing if there is none. `label` is the text of the label, with
/// the traitor as its last general, and `rank` the rank of the label that he relays.
fn push_message(
    alloc: Global,
    text: &mut String,
    rank: u32,
    label: &str,
    receiver: u8,
    order: Option<u32>,
) -> Result<(), AllocError>
    ensures { OnOk result (string_bytes text.new ≡ string_bytes text.old
        ++ message_text rank label.now receiver order) }
{
    let Some(order) = order else {
        return Ok(());
    };
    let said = format!(in alloc; "; tell {label} {receiver} {order}\n")?;
    let sent = format!(in alloc;
        "mov r1, {rank}\nmov r2, {receiver}\nlddw r3, {order}\ncall send\n"
    )?;
    text.push_str(said.as_str())?;
    text.push_str(sent.as_str())?;
    Ok(())
}

/// Appends the instructions that send the orders about a label, whose last general is the traitor, by ascending
/// receiver. `rank` is the rank of the label that he relays.
fn push_label<H: Heard>(
    alloc: Global,
    text: &mut String,
    table: &H,
    rank: u32,
    label: &Label,
) -> Result<(), AllocError>
    requires label { IsLabel (H.seen table.now).generals (H.seen table.now).commander label.now }
    requires short { length label.now ≤ (H.seen table.now).bound + 1 }
    ensures { OnOk result (string_bytes text.new ≡ string_bytes text.old
        ++ label_text (H.seen table.now) rank label.now) }
{
    let name = dotted(alloc, label)?;
    for receiver in 0..table.generals() {
        if !label.has(receiver) {
            let order = table.told(label, receiver);
            push_message(alloc, text, rank, name.as_str(), receiver, order)?;
        }
    }
    Ok(())
}

/// Appends the instructions that send the orders about the labels of `size` generals that lieutenant `general` relays,
/// by rank.
fn push_labels<H: Heard>(
    alloc: Global,
    text: &mut String,
    table: &H,
    general: u8,
    size: u8,
) -> Result<(), AllocError>
    requires general { general < (H.seen table.now).generals }
    requires lieutenant { general ≢ (H.seen table.now).commander }
    requires short { size ≤ (H.seen table.now).bound }
    ensures { OnOk result (string_bytes text.new ≡ string_bytes text.old ++ relayed_text (H.seen table.now) general
        (labels (H.seen table.now).generals (H.seen table.now).commander general size)) }
{
    let space = Space {
        generals: table.generals(),
        commander: table.commander(),
        general,
    };
    for rank in 0..count(space, size) {
        let Ok(label) = unrank(space, size, rank) else {
            unreachable!()
        };
        push_label(alloc, text, table, rank, &label.with(general))?;
    }
    Ok(())
}

/// Appends the instructions that send the orders about all labels that the general relays in the round, by rank. The
/// commander relays only the empty label, in round 1.
fn push_relayed<H: Heard>(
    alloc: Global,
    text: &mut String,
    table: &H,
    general: u8,
    round: u8,
) -> Result<(), AllocError>
    requires general { general < (H.seen table.now).generals }
    requires some { 1 ≤ round }
    requires short { round ≤ (H.seen table.now).bound + 1 }
    requires first { general ≡ (H.seen table.now).commander → round ≡ 1 }
    ensures { OnOk result (string_bytes text.new ≡ string_bytes text.old
        ++ relayed_text (H.seen table.now) general (relay (shape_of (H.seen table.now) general round))) }
{
    if general == table.commander() {
        return push_label(alloc, text, table, 0, &Label::of(general));
    }
    push_labels(alloc, text, table, general, round - 1)
}

/// Appends the instructions that send the orders of a round, and that are passed over in other rounds.
fn push_round<H: Heard>(
    alloc: Global,
    text: &mut String,
    table: &H,
    general: u8,
    round: u8,
) -> Result<(), AllocError>
    requires general { general < (H.seen table.now).generals }
    requires some { 1 ≤ round }
    requires short { round ≤ (H.seen table.now).bound + 1 }
    requires first { general ≡ (H.seen table.now).commander → round ≡ 1 }
    ensures { OnOk result (string_bytes text.new ≡ string_bytes text.old
        ++ round_text (H.seen table.now) general round) }
{
    let head = format!(in alloc; "jne r6, {round}, after{round}\n")?;
    text.push_str(head.as_str())?;
    push_relayed(alloc, text, table, general, round)?;
    let tail = format!(in alloc; "after{round}:\n")?;
    text.push_str(tail.as_str())?;
    Ok(())
}

/// Appends the instructions of all rounds in which the general relays orders.
fn push_rounds<H: Heard>(
    alloc: Global,
    text: &mut String,
    table: &H,
    general: u8,
) -> Result<(), AllocError>
    requires { general < (H.seen table.now).generals }
    ensures { OnOk result (string_bytes text.new ≡ string_bytes text.old
        ++ rounds_text (H.seen table.now) general) }
{
    if general == table.commander() {
        return push_round(alloc, text, table, general, 1);
    }
    for round in 2..table.bound() + 2 {
        push_round(alloc, text, table, general, round)?;
    }
    Ok(())
}

/// Appends the TOML table of a traitor, with his number and his program.
pub(crate) fn push_traitor<H: Heard>(
    alloc: Global,
    text: &mut String,
    table: &H,
    general: u8,
) -> Result<(), AllocError>
    requires { general < (H.seen table.now).generals }
    ensures { OnOk result (string_bytes text.new ≡ string_bytes text.old
        ++ traitor_text (H.seen table.now) general) }
{
    let head = format!(in alloc;
        "\n[[traitor]]\ngeneral = {general}\nasm = \"\"\"\nldw r6, [r1+16]\n"
    )?;
    text.push_str(head.as_str())?;
    push_rounds(alloc, text, table, general)?;
    text.push_str("mov r0, 0\nexit\n\"\"\"\n")?;
    Ok(())
}
