//! Delivers the letters of a round: enters the orders that they contain into the lieutenants' trees.
ghost use Rattle.std.specs.Prelude.{◌≡◌, ◌<◌, ◌≤◌, ◌+◌, [], ℕ, length, slice_get, slice_index};
ghost use Rattle.label.specs.Oral.{Messages};
ghost use Rattle.tree.specs.LieutenantTree.{IsFilled, SameCampaign};
ghost use Rattle.round.specs.Letters.{letter_of};
ghost use Rattle.round.specs.Told.{AreOfCampaign, AreDue, heard_also, round_of};
ghost use Rattle.round.specs.Delivery.{AreApart, AreDueIn, AreEach, AreLetterIndices, AreTreeIndices, IsRoute, IsTold, IsToldUnder};

use crate::front::LabelPrefix;
use crate::letter::Letter;
use crate::tellers::{fill_children, list_tellers, order_in_row, row_in};
use outbox::Orders;
use std::slice;
use tree::Tree;

/// Enters into a lieutenant's tree what the letters of one round send him. For a label such as `0.2` it takes the order
/// from general 2's letter, which says what 2 reports to this lieutenant about the label `0`. If 2 has no letter, the
/// label gets nothing.
pub fn deliver(letters: &[Letter], tree: &mut Tree)
    requires { AreDue tree.old letters.now }
    ensures filled { (M : Messages) → IsFilled tree.old M → IsFilled tree.new (heard_also M letters.now) }
    ensures same { SameCampaign tree.old tree.new }
{
    let space = tree.space();
    deliver_to_all(
        letters,
        space.generals,
        space.commander,
        slice::from_mut(tree),
    );
}

/// Enters the letters of one round into the trees of a campaign of `generals` generals under `commander`. Each tree
/// must be that of a different lieutenant.
pub(crate) fn deliver_to_all(letters: &[Letter], generals: u8, commander: u8, trees: &mut [Tree])
    requires few { generals ≤ 13 }
    requires commander { commander < generals }
    requires letters { AreOfCampaign generals commander letters.now }
    requires trees { AreDueIn generals commander letters.now trees.old }
    requires apart { AreApart trees.old }
    ensures { AreEach (IsTold letters.now) trees.old trees.new }
{
    if letters.is_empty() {
        return;
    }
    let first = &letters[0];
    // The labels of round r have r generals.
    let size = first.outbox.shape().round as u8;
    let indices = letter_indices(letters);
    if size == 1 {
        fill_first(letters, &indices, commander, trees);
        return;
    }
    let tree_indices = find_trees(trees);
    let front = LabelPrefix::of(commander);
    descend(
        letters,
        &indices,
        &tree_indices,
        size,
        generals,
        trees,
        &front,
    );
}

/// Enters the commander's letter of the first round, which has only his own order, for the label that consists of him.
fn fill_first(letters: &[Letter], indices: &[usize; 13], commander: u8, trees: &mut [Tree])
    requires round { round_of letters.now ≡ 1 }
    requires indices { AreLetterIndices letters.now indices.now }
    requires trees { (generals : ℕ) × AreDueIn generals commander letters.now trees.old }
    requires commander { commander < 13 }
    ensures { AreEach (IsTold letters.now) trees.old trees.new }
{
    let row = row_in(letters, indices, commander, 0);
    for index in 0..trees.len() {
        let tree = &mut trees[index];
        let receiver = tree.space().general;
        tree.set(1, 0, order_in_row(row, receiver));
    }
}

/// Enters the letters of one round for all labels of `size` generals that begin with the shorter label `front`.
fn descend(
    letters: &[Letter],
    indices: &[usize; 13],
    tree_indices: &[usize; 13],
    size: u8,
    generals: u8,
    trees: &mut [Tree],
    front: &LabelPrefix,
)
    requires route { IsRoute generals letters.now indices.now size front.now trees.old }
    requires table { AreTreeIndices trees.old tree_indices.now }
    ensures { AreEach (IsToldUnder letters.now size front.now) trees.old trees.new }
{
    if front.size + 1 == size {
        fill_all_children(letters, indices, tree_indices, size, generals, trees, front);
        return;
    }
    let mut below: u32 = 0;
    for general in 0..generals {
        if !front.on[usize::from(general)] {
            let longer = front.with(generals, general, below);
            descend(
                letters,
                indices,
                tree_indices,
                size,
                generals,
                trees,
                &longer,
            );
            below += 1;
        }
    }
}

/// Enters the letters of one round for the labels that extend `front` by one general, and so have `size` generals.
fn fill_all_children(
    letters: &[Letter],
    indices: &[usize; 13],
    tree_indices: &[usize; 13],
    size: u8,
    generals: u8,
    trees: &mut [Tree],
    front: &LabelPrefix,
)
    requires route { IsRoute generals letters.now indices.now size front.now trees.old }
    requires table { AreTreeIndices trees.old tree_indices.now }
    requires last { front.now.size + 1 ≡ size }
    ensures { AreEach (IsToldUnder letters.now size front.now) trees.old trees.new }
{
    let mut names = [0; 13];
    let mut rows = [Orders::Nobody; 13];
    let count = list_tellers(
        letters,
        indices,
        generals,
        front,
        &mut names[..],
        &mut rows[..],
    );
    for number in 0..count {
        let index = tree_indices[usize::from(names[number])];
        if index < trees.len() {
            fill_children(number, &rows[..], size, &mut trees[index], front);
        }
    }
}

/// Returns for each general, ascending, the index of his tree, or `trees.len()` if he has none.
fn find_trees(trees: &[Tree]) -> [usize; 13]
    requires { AreApart trees.now }
    ensures { AreTreeIndices trees.now result }
{
    let mut tree_indices = [trees.len(); 13];
    for index in 0..trees.len() {
        let lieutenant = trees[index].space().general;
        tree_indices[usize::from(lieutenant)] = index;
    }
    tree_indices
}

/// Returns for each general, ascending, the index of his letter, or `letters.len()` if he has none.
fn letter_indices(letters: &[Letter]) -> [usize; 13]
    ensures { AreLetterIndices letters.now result }
{
    let mut indices = [0; 13];
    for general in 0..13 {
        indices[general] = letter_index(letters, general as u32);
    }
    indices
}

/// Returns the index of the first letter of this general, or `letters.len()` if he has none.
fn letter_index(letters: &[Letter], general: u32) -> usize
    ensures { slice_get letters.now result ≡ letter_of letters.now general }
{
    for index in 0..letters.len() {
        let letter = &letters[index];
        if letter.general == general {
            return index;
        }
    }
    letters.len()
}
