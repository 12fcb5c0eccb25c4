//! Counts the labels of a given length, and converts between a label and its rank: its index in the list of these
//! labels.
ghost use Rattle.std.specs.Prelude.{◌≡◌, ◌<◌, ◌≤◌, ◌∷◌, false, length, ℕ, IfOk, IfErr, Some, slice_get, nat_lt};
ghost use Rattle.std.specs.List.{list_all};
ghost use Rattle.label.specs.Labels.{on, others};
ghost use Rattle.label.specs.Oral.{IsLabel};
ghost use Rattle.label.specs.Space.{HasRank, IsSpace, IsWithinLimits, labels_of, is_label_of, begins_with};
ghost use Rattle.label.specs.declared.space.LabelError.TheVariants.{NotALabel, Rank};

use crate::label::{Label, has_general};
use crate::mask::{all_free, free_below, without};
use crate::space::{LabelError, Space};

/// Returns the number of labels with `size` generals that the space's lieutenant is not on. It is 0 if `size` is 0 or
/// at least the number of generals, and if the lieutenant is the commander, who is on every label.
pub fn count(space: Space, size: u8) -> u32
    requires { IsWithinLimits space }
    ensures { result ≡ length (labels_of space size) }
{
    if size == 0 || size >= space.generals || space.general == space.commander {
        return 0;
    }
    product(space, size)
}

/// Returns the number of labels with `size` generals, as a product: one factor for each general after the commander.
fn product(space: Space, size: u8) -> u32
    requires space { IsSpace space }
    requires some { 0 < size }
    requires short { size ≤ 13 }
    ensures { result ≡ length (labels_of space size) }
{
    let mut all: u32 = 1;
    for k in 1..size {
        all *= u32::from((space.generals - 1).saturating_sub(k));
    }
    all
}

/// Returns the rank of a label: its index, from 0, in the list of the space's labels with the same length.
///
/// # Errors
///
/// Fails with `NotALabel` exactly if the label is not in this list.
pub fn rank(space: Space, label: &Label) -> Result<u32, LabelError>
    requires { IsWithinLimits space }
    ensures ok { IfOk result (HasRank space label.now) }
    ensures err { IfErr result (λ e. (e ≡ NotALabel) × ((r : ℕ) → ¬ HasRank space label.now r)) }
{
    let generals = label.generals();
    if !is_label(space, generals) {
        return Err(LabelError::NotALabel);
    }
    Ok(rank_of(space, generals))
}

/// Returns the label with the given rank: its index, from 0, in the list of the space's labels with `size` generals.
///
/// # Errors
///
/// Fails with `Rank` exactly if `rank` is not below the length of this list.
pub fn unrank(space: Space, size: u8, rank: u32) -> Result<Label, LabelError>
    requires { IsWithinLimits space }
    ensures ok { IfOk result (λ w. slice_get (labels_of space size) rank ≡ Some w) }
    ensures err { IfErr result (λ e. (e ≡ Rank) × (length (labels_of space size) ≤ rank)) }
{
    if rank >= count(space, size) {
        return Err(LabelError::Rank);
    }
    Ok(label_at(space, size, rank))
}

/// Checks whether these generals are a label of the space: they begin with the commander, are all in range, and do
/// not include the space's lieutenant.
fn is_label(space: Space, generals: &[u8]) -> bool
    ensures { result ≡ is_label_of space generals.now }
{
    begins_with(generals, space.commander)
        && all_below(generals, space.generals)
        && !has_general(generals, space.general)
}

/// Checks whether the first of the generals is the commander.
fn begins_with(generals: &[u8], commander: u8) -> bool
    ensures { result ≡ begins_with commander generals.now }
{
    match generals {
        [] => false,
        [first, ..] => *first == commander,
    }
}

/// Checks whether every general in the list is below the limit.
fn all_below(generals: &[u8], limit: u8) -> bool
    ensures { result ≡ list_all (λ x. nat_lt x limit) generals.now }
{
    generals.iter().all(|x| *x < limit)
}

/// Returns the rank of a label. For each general after the commander, the rank so far is multiplied by the number of
/// possible choices. Then the number of possible generals below the chosen one is added.
fn rank_of(space: Space, generals: &[u8]) -> u32
    requires space { IsSpace space }
    requires label { IsLabel space.generals space.commander generals.now }
    requires without { on generals.now space.general ≡ false }
    requires short { length generals.now ≤ 13 }
    ensures { HasRank space generals.now result }
{
    let mut rank: u32 = 0;
    let mut free = without(without(all_free(), space.general), space.commander);
    for i in 1..generals.len() {
        let general = generals[i];
        let width = u32::from((space.generals - 1).saturating_sub(i as u8));
        rank = rank * width + free_below(free, general);
        free = without(free, general);
    }
    rank
}

/// Returns the label with `size` generals and this rank. Takes one division for each general after the commander.
fn label_at(space: Space, size: u8, rank: u32) -> Label
    requires space { IsSpace space }
    requires some { 0 < size }
    requires short { size ≤ 13 }
    requires within { rank < length (labels_of space size) }
    ensures stands { slice_get (labels_of space size) rank ≡ Some result }
    ensures long { length result ≡ size }
{
    if size == 1 {
        return Label::of(space.commander);
    }
    let width = u32::from(space.generals.saturating_sub(size));
    let parent = label_at(space, size - 1, rank / width);
    let last = general_at(
        parent.generals(),
        space.general,
        space.generals,
        rank % width,
    );
    parent.with(last)
}

/// Returns the general with index `place`, from 0, among those who are neither `receiver` nor in `prefix`.
#[tactic(auto, using(crate::proofs::Bounds::others_length_more, crate::proofs::Bounds::others_here))]
fn general_at(prefix: &[u8], receiver: u8, generals: u8, place: u32) -> u8
    requires within { place < length (others generals (receiver ∷ prefix.now)) }
    ensures { slice_get (others generals (receiver ∷ prefix.now)) place ≡ Some result }
{
    let mut before: u32 = 0;
    for x in 0..generals {
        if !is_out(prefix, receiver, x) {
            if before == place {
                return x;
            }
            before += 1;
        }
    }
    unreachable!()
}

/// Checks whether the general is `receiver` or in `prefix`.
fn is_out(prefix: &[u8], receiver: u8, general: u8) -> bool
    ensures { result ≡ on (receiver ∷ prefix.now) general }
{
    receiver == general || has_general(prefix, general)
}
