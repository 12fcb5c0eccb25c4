//! Finds the orders that generals send about a label, and enters them into the lieutenants' trees. These generals are
//! the ones who are off the label.
ghost use Rattle.std.specs.Prelude.{◌≡◌, ◌<◌, ◌≤◌, ◌+◌, ℕ, List, Some, length, slice_get};
ghost use Rattle.outbox.specs.Orders.{order_of_row, orders_seen};
ghost use Rattle.outbox.specs.Rows.{order_in};
ghost use Rattle.outbox.specs.declared.orders.Orders.{Orders};
ghost use Rattle.round.specs.Letters.{Letter as LetterSeen, letter_of};
ghost use Rattle.round.specs.Delivery.{AreLetterIndices, AreTellers, AreTellersOf, FillsFromTo, IsWalk, first_under, order_in_letter, past_under};
ghost use Rattle.round.specs.Told.{lieutenant_at};

use crate::front::LabelPrefix;
use crate::letter::Letter;
use outbox::Orders;
use tree::Tree;

/// Writes the generals who are off the label `front` to `names`, ascending, and to `rows` the orders that each sends
/// about `front` in his letter. A general without a letter sends nothing. Returns the number of these generals. Array
/// elements from that number on have no meaning.
///
/// The lists are written into the caller's arrays, because moving them would take as long as making them. Every general
/// is written after the ones counted so far, but counted only if he is off the label. This avoids a branch, which would
/// be mispredicted because the generals change from label to label.
pub(crate) fn list_tellers<'a>(
    letters: &'a [Letter],
    indices: &[usize; 13],
    generals: u8,
    front: &LabelPrefix,
    names: &mut [u8],
    rows: &mut [Orders<'a>],
) -> usize
    requires few { generals ≤ 13 }
    requires on { length front.now.on ≡ 13 }
    requires ranks { length front.now.ranks ≡ 13 }
    requires long { length names.old ≡ 13 }
    requires wide { length rows.old ≡ 13 }
    ensures few { result ≤ 13 }
    ensures long { length names.new ≡ 13 }
    ensures wide { length rows.new ≡ 13 }
    ensures tellers { AreLetterIndices letters.now indices.now →
        AreTellers letters.now generals front.now generals (record {
          count = result;
          generals = names.new;
          rows = rows.new;
        }) }
{
    let mut count = 0;
    for general in 0..generals {
        let number = usize::from(general);
        names[count] = general;
        rows[count] = row_in(letters, indices, general, front.ranks[number]).unwrap_or(
            Orders::Nobody,
        );
        count += usize::from(!front.on[number]);
    }
    count
}

/// Enters into a lieutenant's tree the orders that the generals off the label `front` send him about it. An order of
/// general g is entered for the label `front` extended by g. `rows` has the orders by general, and element `own`, which
/// is from the lieutenant himself, is skipped.
pub(crate) fn fill_children(
    own: usize,
    rows: &[Orders<'_>],
    size: u8,
    tree: &mut Tree,
    front: &LabelPrefix,
)
    requires told { (letters : List LetterSeen) × (indices : List ℕ) × IsWalk tree.old letters indices size front.now
        × AreTellersOf letters tree.old front.now own rows.now }
    requires last { front.now.size + 1 ≡ size }
    ensures { (letters : List LetterSeen) (indices : List ℕ) → IsWalk tree.old letters indices size front.now →
        AreTellersOf letters tree.old front.now own rows.now
        → FillsFromTo tree.old letters size (first_under tree.old front.now size)
        (past_under tree.old front.now size) tree.new }
{
    let space = tree.space();
    let width = usize::from(space.generals).saturating_sub(usize::from(size));
    let first = front.ranks[usize::from(space.general)] * width as u32;
    tree.set_run(size, first, width, |index| {
        order_past(rows, own, index, space.general)
    });
}

/// Returns the order that a row sends to `receiver`, or `None` if it sends him nothing. It is the row at `index` of
/// `rows` without element `own`.
fn order_past(rows: &[Orders<'_>], own: usize, index: usize, receiver: u8) -> Option<u32>
    requires { index + 1 < length rows.now }
    ensures { (row : Orders) → slice_get rows.now (lieutenant_at own index) ≡ Some row →
        result ≡ order_in receiver (orders_seen row) }
{
    let number = if index < own { index } else { index + 1 };
    rows[number].order(u32::from(receiver))
}

/// Returns the orders that this general's letter sends about the label of this rank, or `None` if he has no letter or
/// it has no such label. `indices` has for each general the index of his letter.
pub(crate) fn row_in<'a>(
    letters: &'a [Letter],
    indices: &[usize; 13],
    general: u8,
    rank: u32,
) -> Option<Orders<'a>>
    requires { general < 13 }
    ensures { (receiver : ℕ) → AreLetterIndices letters.now indices.now →
        order_of_row result receiver ≡ order_in_letter (letter_of letters.now general) rank receiver }
{
    match letters.get(indices[usize::from(general)]) {
        Some(letter) => letter.outbox.orders(rank),
        None => None,
    }
}

/// Returns the order that a row sends to `receiver`, or `None` if there is no row or it sends him nothing.
pub(crate) fn order_in_row(row: Option<Orders<'_>>, receiver: u8) -> Option<u32>
    ensures { result ≡ order_of_row row.entry receiver }
{
    match row {
        Some(row) => row.order(u32::from(receiver)),
        None => None,
    }
}
