//! Resolves one tree by recursion: computes the decision of its lieutenant by OM(m), without allocating memory.
ghost use Rattle.std.specs.Prelude.{◌≡◌, ◌<◌, ◌≤◌, ◌+◌, ◌-◌, ◌*◌, length, slice_range};
ghost use Rattle.label.specs.Labels.{labels};
ghost use Rattle.resolve.specs.Decided.{Decides, decided};

use arrayvec::ArrayVec;
use combine::Combine;
use tree::Tree;

/// Returns what the tree's lieutenant decides by this rule: the decision of OM(m) from the messages in the tree,
/// where m is the tree's bound. The function allocates no memory and builds no label.
pub fn resolve<C: Combine>(tree: &Tree, rule: &C) -> u32
    ensures { Decides (C.combined rule.now) tree.now result }
{
    let space = tree.space();
    let lower_off = if space.commander < space.general {
        space.general - 1
    } else {
        space.general
    };
    decide(tree, rule, tree.bound(), 1, 0, lower_off)
}

/// Returns what the tree's lieutenant decides about the label with `size` generals and the rank `rank`, which up to
/// `relays` further generals can extend.
///
/// `lower_off` is the number of generals who are not on the label and have a lower number than the lieutenant. In the
/// list that he combines, the decisions about this many extensions of the label come before his own order.
fn decide<C: Combine>(
    tree: &Tree,
    rule: &C,
    relays: u8,
    size: u8,
    rank: usize,
    lower_off: u8,
) -> u32
    requires some { 0 < size }
    requires short { size + relays ≤ tree.now.bound + 1 }
    requires within { rank < length (labels tree.now.generals tree.now.commander tree.now.general size) }
    requires lower_off { lower_off ≤ tree.now.generals - 1 - size }
    ensures { result ≡ decided (C.combined rule.now) tree.now relays size rank lower_off }
{
    let own = tree.level(size)[rank];
    if relays == 0 {
        return own;
    }
    let width = (tree.space().generals - 1).saturating_sub(size);
    if relays == 1 {
        let children = children(tree.level(size + 1), width as usize, rank);
        return rule.combine_told(children, lower_off as usize, own);
    }
    let first = rank * width as usize;
    let mut orders: ArrayVec<u32, 13> = ArrayVec::new();
    for i in 0..lower_off {
        orders.push(decide(
            tree,
            rule,
            relays - 1,
            size + 1,
            first + i as usize,
            lower_off - 1,
        ));
    }
    orders.push(own);
    for j in lower_off..width {
        orders.push(decide(
            tree,
            rule,
            relays - 1,
            size + 1,
            first + j as usize,
            lower_off,
        ));
    }
    rule.combine(orders.as_slice())
}

/// Returns the part of a level that belongs to the children of one label: the labels that extend it by one general.
/// The label has the rank `rank` on the level above, where each label has `width` children.
pub(crate) fn children(level: &[u32], width: usize, rank: usize) -> &[u32]
    requires { rank * width + width ≤ length level.now }
    ensures { result.now ≡ slice_range level.now (rank * width) (rank * width + width) }
{
    &level[rank * width..rank * width + width]
}
