//! Resolves one tree level by level, from the longest labels to the commander's. The labels of a level are combined
//! in parallel.
ghost use Rattle.std.specs.Prelude.{◌≡◌, ◌<◌, ◌≤◌, ◌+◌, ◌-◌, ℕ, List, map, length, IfOk};
ghost use Rattle.rayon.specs.Numbers.{nat_range};
ghost use Rattle.label.specs.Labels.{labels};
ghost use Rattle.label.specs.Oral.{Messages};
ghost use Rattle.tree.specs.LieutenantTree.{IsFilled};
ghost use Rattle.resolve.specs.Decided.{Decides};
ghost use Rattle.resolve.specs.Upward.{lower_off_at, upward, decisions_at};

use crate::recursion::children;
use arrayvec::ArrayVec;
use combine::Combine;
use rayon::prelude::*;
use std::alloc::{AllocError, Global};
use std::thread::Threads;
use tree::Tree;

/// Returns how many generals with a lower number than the tree's lieutenant are not on a label. The label has `size`
/// generals and the rank `rank`.
fn lower_off(tree: &Tree, size: u8, rank: usize) -> u8
    requires some { 0 < size }
    requires short { size ≤ tree.now.bound + 1 }
    requires within { rank < length (labels tree.now.generals tree.now.commander tree.now.general size) }
    ensures { result ≡ lower_off_at tree.now size rank }
{
    let space = tree.space();
    if size == 1 {
        return if space.commander < space.general {
            space.general - 1
        } else {
            space.general
        };
    }
    let width = usize::from(space.generals.saturating_sub(size));
    let parent = lower_off(tree, size - 1, rank / width);
    if rank % width < usize::from(parent) {
        parent - 1
    } else {
        parent
    }
}

/// Returns what the tree's lieutenant decides about the label with `size` generals and the rank `rank`. `below` holds
/// his decisions about the labels with `size + 1` generals, by rank.
fn upward<C: Combine>(tree: &Tree, rule: &C, size: u8, below: &[u32], rank: usize) -> u32
    requires some { 0 < size }
    requires short { size ≤ tree.now.bound }
    requires within { rank < length (labels tree.now.generals tree.now.commander tree.now.general size) }
    requires long { length below.now
        ≡ length (labels tree.now.generals tree.now.commander tree.now.general (size + 1)) }
    ensures { result ≡ upward (C.combined rule.now) tree.now below.now size rank }
{
    let own = tree.level(size)[rank];
    let lower_off = usize::from(lower_off(tree, size, rank));
    let width = usize::from((tree.space().generals - 1).saturating_sub(size));
    let children = children(below, width, rank);
    let mut orders: ArrayVec<u32, 13> = ArrayVec::new();
    for x in children {
        orders.push(*x);
    }
    orders.insert(lower_off, own);
    rule.combine(orders.as_slice())
}

/// Returns what the tree's lieutenant decides about each label with `size` generals, by rank. `below` holds his
/// decisions about the labels with `size + 1` generals, by rank. The labels are combined in parallel.
fn level_at_once<C: Combine + Sync, R: Threads + Sync>(
    rt: &R,
    alloc: Global,
    tree: &Tree,
    rule: &C,
    size: u8,
    below: &[u32],
) -> Result<Vec<u32>, AllocError>
    requires some { 0 < size }
    requires short { size ≤ tree.now.bound }
    requires long { length below.now
        ≡ length (labels tree.now.generals tree.now.commander tree.now.general (size + 1)) }
    ensures { IfOk result (λ v. v.items
        ≡ map (upward (C.combined rule.now) tree.now below.now size)
        (nat_range 0 (length (labels tree.now.generals tree.now.commander tree.now.general size)))) }
{
    let count = tree.level(size).len();
    (0..count)
        .into_par_iter()
        .map(
            |rank: usize| -> u32
                requires { (0 < size) × (size ≤ tree.now.bound)
                    × (length below.now
                    ≡ length (labels tree.now.generals tree.now.commander tree.now.general (size + 1)))
                    × (rank < length (labels tree.now.generals tree.now.commander tree.now.general size)) }
                ensures { result ≡ upward (C.combined rule.entry.now) tree.entry.now below.entry.now size rank }
            { upward(tree, rule, size, below, rank) },
        )
        .collect(rt, alloc)
}

/// Returns the orders that the tree's lieutenant received for the longest labels, by rank.
fn longest(alloc: Global, tree: &Tree) -> Result<Vec<u32>, AllocError>
    ensures long { IfOk result
        (λ v. length v.items ≡ length
        (labels tree.now.generals tree.now.commander tree.now.general (tree.now.bound + 1))) }
    ensures told { (M : Messages) → (f : List ℕ → ℕ) → IsFilled tree.now M →
        IfOk result (λ v. v.items ≡ decisions_at f tree.now M 0 (tree.now.bound + 1)) }
{
    let _space = tree.space();
    tree.level(tree.bound() + 1).to_vec(alloc)
}

/// Returns what the tree's lieutenant decides. The levels are computed one after another, from the longest labels to
/// the commander's.
///
/// # Errors
///
/// Fails with `AllocError` if there is no memory for a level of decisions.
pub(crate) fn resolve_by_levels<C: Combine + Sync, R: Threads + Sync>(
    rt: &R,
    alloc: Global,
    tree: &Tree,
    rule: &C,
) -> Result<u32, AllocError>
    ensures { IfOk result (Decides (C.combined rule.now) tree.now) }
{
    let _space = tree.space();
    let mut below = longest(alloc, tree)?;
    for k in 0..tree.bound() {
        below = level_at_once(rt, alloc, tree, rule, tree.bound() - k, below.as_slice())?;
    }
    Ok(below[0])
}
