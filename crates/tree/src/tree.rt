//! The tree of the orders that one lieutenant received. It can be made, filled, read and cleared.
ghost use Rattle.std.specs.Prelude.{◌≡◌, ◌<◌, ◌≤◌, ◌≢◌, ◌+◌, ℕ, List, Option, Some, None, IfOk, drop, length, map, slice_get};
ghost use Rattle.label.specs.Labels.{labels};
ghost use Rattle.label.specs.Oral.{Messages, order_of};
ghost use Rattle.tree.specs.LieutenantTree.{IsCampaign, AreAnswers, IsFilled, IsPlace, SameCampaign, level_told, level_of, silence, told_also, told_run, blank};

use crate::level::Level;
use label::{Label, Space, count, rank};
use std::alloc::{AllocError, Global};
use std::marker::Model;

/// A lieutenant's tree: for each label without himself the order that he received, or nothing.
///
/// The labels have 1 to `bound + 1` generals. The orders for all labels of one length are in one array, at the ranks of
/// their labels. Only `new` allocates memory.
#[derive(Drop)]
pub struct Tree {
    space: Space,
    bound: u8,
    levels: Vec<Level>,
}

impl Model for Tree {
    ghost use Rattle.tree.specs.LieutenantTree.{LieutenantTree};

    ghost Value = { LieutenantTree };

    ghost use Rattle.tree.specs.Fields.{kept, IsFilledBySome};

    ghost view = { λ a. kept a.space a.bound a.levels.items };

    ghost invariant = { λ a. IsFilledBySome a.space a.bound a.levels.items };
}

impl Tree {
    /// Makes the tree of the lieutenant `general`, in which nothing was received. The campaign has 2 to 13 generals,
    /// this commander, and this bound on the traitors.
    ///
    /// # Errors
    ///
    /// Fails with `AllocError` if there is not enough memory for one of the arrays.
    pub fn new(
        alloc: Global,
        generals: u8,
        bound: u8,
        commander: u8,
        general: u8,
    ) -> Result<Tree, AllocError>
        requires few { generals ≤ 13 }
        requires commander { commander < generals }
        requires general { general < generals }
        requires lieutenant { general ≢ commander }
        requires bound { bound < 13 }
        ensures numbers { IfOk result (λ t. (t.generals ≡ generals) × (t.bound ≡ bound) × (t.commander ≡ commander)
            × (t.general ≡ general)) }
        ensures silent { IfOk result (λ t. IsFilled t silence) }
    {
        let space = Space {
            generals,
            commander,
            general,
        };
        let mut levels = Vec::with_capacity(alloc, bound as usize + 1)?;
        for size in 0..bound + 1 {
            levels.push(Level::new(alloc, count(space, size + 1))?)?;
        }
        Ok(Tree {
            space,
            bound,
            levels,
        })
    }

    /// Returns the space of the tree's labels: the numbers of the campaign, and the lieutenant, who is on none of the
    /// labels. The contract also states that every tree holds the orders of some message function.
    pub fn space(&self) -> Space
        ensures generals { result.generals ≡ self.now.generals }
        ensures commander { result.commander ≡ self.now.commander }
        ensures general { result.general ≡ self.now.general }
        ensures kind { IsCampaign self.now }
        ensures filled { (M : Messages) × IsFilled self.now M }
    {
        self.space
    }

    /// Returns the bound on the traitors, 0 to 12. The labels of the tree have 1 to `bound + 1` generals.
    pub fn bound(&self) -> u8
        ensures { result ≡ self.now.bound }
    {
        self.bound
    }

    /// Returns the order that was received for the label. Returns `None` if nothing was received, or if the tree has no
    /// such label.
    pub fn value(&self, label: &Label) -> Option<u32>
        ensures told { (M : Messages) → IsFilled self.now M → IsPlace self.now label.now →
            result ≡ M label.now self.now.general }
        ensures strange { ¬ IsPlace self.now label.now → result ≡ None }
    {
        let size = label.len();
        if size > self.levels.len() {
            return None;
        }
        match rank(self.space, label) {
            Ok(place) => self.levels[size - 1].value(place as usize),
            Err(_) => None,
        }
    }

    /// Returns the orders that were received for all labels of `size` generals, by rank. `size` is 1 to `bound + 1`. An
    /// order is RETREAT (0) if nothing was received.
    pub fn level(&self, size: u8) -> &[u32]
        requires some { 0 < size }
        requires short { size ≤ self.now.bound + 1 }
        ensures value { result.now ≡ map order_of (level_of self.now size) }
        ensures told { (M : Messages) → IsFilled self.now M →
            result.now
            ≡ map order_of (level_told self.now.generals self.now.commander self.now.general M size) }
        ensures long { length result.now ≡ length (labels self.now.generals self.now.commander self.now.general size) }
    {
        self.levels[(size - 1) as usize].orders()
    }

    /// Stores the order that was received for the label, or that nothing was. Does nothing if the tree has no such
    /// label.
    pub fn fill(&mut self, label: &Label, value: Option<u32>)
        ensures filled { (M : Messages) → IsFilled self.old M → IsFilled self.new (told_also M label.now value) }
        ensures same { SameCampaign self.old self.new }
    {
        let size = label.len();
        if size > self.levels.len() {
            return;
        }
        if let Ok(place) = rank(self.space, label) {
            self.levels[size - 1].put(place as usize, value);
        }
    }

    /// Stores the order that was received for the label of `size` generals with this rank, or that nothing was. `size`
    /// is 1 to `bound + 1`.
    pub fn set(&mut self, size: u8, rank: u32, value: Option<u32>)
        requires some { 0 < size }
        requires short { size ≤ self.old.bound + 1 }
        requires within { rank < length (labels self.old.generals self.old.commander self.old.general size) }
        ensures filled { (M : Messages) (w : List ℕ) → IsFilled self.old M
            → slice_get (labels self.old.generals self.old.commander self.old.general size) rank ≡ Some w
            → IsFilled self.new (told_also M w value) }
        ensures same { SameCampaign self.old self.new }
    {
        self.levels[(size - 1) as usize].put(rank as usize, value);
    }

    /// Stores the orders that were received for `count` labels of `size` generals, from rank `first` on. `size` is 1 to
    /// `bound + 1`. The order for rank `first + i` is `value(i)`, or nothing if this is `None`.
    pub fn set_run<F: Fn(usize) -> Option<u32>>(
        &mut self,
        size: u8,
        first: u32,
        count: usize,
        value: F,
    )
        requires some { 0 < size }
        requires short { size ≤ self.old.bound + 1 }
        requires within { first + count ≤ length (labels self.old.generals self.old.commander self.old.general size) }
        requires callable { (place : ℕ) → place < count → F.pre value place }
        ensures filled { (values : List (Option ℕ)) × AreAnswers (F.post value) count values
            × ((M : Messages) → IsFilled self.old M
            → IsFilled self.new
            (told_run M (drop first (labels self.old.generals self.old.commander self.old.general size)) values)) }
        ensures same { SameCampaign self.old self.new }
    {
        self.levels[(size - 1) as usize].put_run(first as usize, count, value);
    }

    /// Removes the orders for all labels of `size` generals. Does nothing if the tree has no such labels.
    pub fn clear(&mut self, size: u8)
        ensures filled { (M : Messages) → IsFilled self.old M → IsFilled self.new (blank M size) }
        ensures same { SameCampaign self.old self.new }
    {
        if size == 0 || size as usize > self.levels.len() {
            return;
        }
        self.levels[(size - 1) as usize].clear();
    }
}
