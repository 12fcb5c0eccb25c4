//! Collects the strokes of a campaign from the message table of its letters.
ghost use Rattle.std.specs.Prelude.{◌≡◌, ◌<◌, ◌+◌, ◌++◌, IfOk, OnOk};
ghost use Rattle.show_diagram.specs.Facts.{strokes_of, tellings_of};
ghost use Rattle.show_diagram.specs.Lists.{lists_to};

use crate::lists::push_lists;
use crate::stroke::Stroke;
use crate::told_orders::tellings;
use book::Heard;
use std::alloc::{AllocError, Global};

/// Returns the strokes of a campaign whose commander was given `order`, sorted by receiver and then by round. A
/// stroke combines equal messages that one general sent another in a round, for any number of labels. A receiver's
/// strokes of a round are sorted by their first label. If there are more than 24 of them, those that a faithful
/// general would not send come first.
///
/// # Errors
///
/// Fails if there is no memory for the strokes.
#[tactic(auto, unfolding(crate::specs::Facts::strokes_of))]
pub fn strokes<H: Heard>(alloc: Global, table: &H, order: u32) -> Result<Vec<Stroke>, AllocError>
    ensures { IfOk result (λ strokes. strokes.items ≡ strokes_of (H.seen table.now) order) }
{
    let mut strokes = Vec::new(alloc);
    for receiver in 0..table.generals() {
        push_received(alloc, &mut strokes, table, order, receiver)?;
    }
    Ok(strokes)
}

/// Appends the strokes that show what general `receiver` received. Appends nothing for the commander.
fn push_received<H: Heard>(
    alloc: Global,
    strokes: &mut Vec<Stroke>,
    table: &H,
    order: u32,
    receiver: u8,
) -> Result<(), AllocError>
    requires general { receiver < (H.seen table.now).generals }
    ensures { OnOk result (strokes.new.items ≡ strokes.old.items
        ++ lists_to (H.seen table.now).commander ((H.seen table.now).bound + 1) (tellings_of (H.seen table.now) order)
        receiver) }
{
    if receiver == table.commander() {
        return Ok(());
    }
    let tellings = tellings(alloc, table, order, receiver)?;
    push_lists(
        alloc,
        strokes,
        receiver,
        tellings.as_slice(),
        table.bound() + 1,
    )
}
