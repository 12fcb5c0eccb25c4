//! Reads from a lieutenant's tree the orders that he received for the labels that extend a given label by one
//! general. These orders are next to each other in the tree.
ghost use Rattle.std.specs.Prelude.{◌≡◌, ◌≤◌, ◌+◌, ◌*◌, [], ◌∷◌, ◌++◌, length, map, true, slice_range};
ghost use Rattle.label.specs.Labels.{others};
ghost use Rattle.label.specs.Oral.{order_of};
ghost use Rattle.book.specs.Explained.{list_of};
ghost use Rattle.book.specs.Grammar.{is_place};
ghost use Rattle.book.specs.Table.{told};

use arrayvec::ArrayVec;
use book::Heard;
use label::{Label, rank};

/// Returns the list of orders that the lieutenant `general` combines at `label`, where the labels that extend it by
/// one general cannot be extended further. At his own position the list has the order that he received for `label`
/// itself. A missing order counts as 0, RETREAT.
pub(crate) fn last_orders<H: Heard>(table: &H, general: u8, label: &Label) -> ArrayVec<u32, 13>
    requires place { is_place (H.seen table.now) label.now general ≡ true }
    requires room { length label.now ≤ (H.seen table.now).bound }
    ensures { result.items ≡ list_of (H.seen table.now) 0 label.now general }
{
    let told = told_children(table, general, label);
    let mut orders: ArrayVec<u32, 13> = ArrayVec::new();
    let mut next = 0;
    for other in 0..table.generals() {
        if other == general {
            orders.push(table.told(label, general).unwrap_or(0));
        } else if !label.has(other) {
            orders.push(told[next]);
            next += 1;
        }
    }
    orders
}

/// Returns the orders that the lieutenant `general` received for the labels that extend `label` by one general,
/// sorted by that general. A missing order is 0, RETREAT.
fn told_children<'a, H: Heard>(table: &'a H, general: u8, label: &Label) -> &'a [u32]
    requires place { is_place (H.seen table.now) label.now general ≡ true }
    requires room { length label.now ≤ (H.seen table.now).bound }
    ensures { result.now ≡ map (λ j. order_of (told (H.seen table.now).messages (label.now ++ j ∷ []) general))
        (others (H.seen table.now).generals (general ∷ label.now)) }
{
    let tree = table.tree(general);
    let space = tree.space();
    let size = label.generals().len() as u8;
    let width = usize::from((space.generals - 1).saturating_sub(size));
    match rank(space, label) {
        Ok(rank) => part(tree.level(size + 1), width, rank as usize),
        Err(_) => unreachable!(),
    }
}

/// Returns the `width` entries of a level of a tree that belong to the label with rank `rank` on the level above: the
/// labels of these entries extend that label.
fn part(level: &[u32], width: usize, rank: usize) -> &[u32]
    requires { rank * width + width ≤ length level.now }
    ensures { result.now ≡ slice_range level.now (rank * width) (rank * width + width) }
{
    &level[rank * width..rank * width + width]
}
