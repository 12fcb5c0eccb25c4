//! Sets of the 512 stack cells, with one bit for each cell.
ghost use Rattle.std.specs.Prelude.{◌≡◌, ◌<◌, ◌≤◌, ◌&&◌, ◌↔◌, ℕ, IsTrue, true, false, length, replicate};
ghost use Rattle.absmem.specs.Known.{byte_at, IsSetTo};

use crate::mask;
use std::marker::Model;

/// A set of the 512 stack cells, with one bit for each cell.
#[derive(Clone, Copy)]
pub(crate) struct CellSet {
    words: [u64; 8],
}

impl Model for CellSet {
    ghost use Rattle.std.specs.Prelude.{List, Bool};
    ghost use Rattle.absmem.specs.Members.{members, words_of, AreWords};
    ghost use Rattle.absmem.specs.Laws.{words_of-members};

    ghost Value = { List Bool };

    ghost view = { λ s. members s.words };

    ghost invariant = { λ s. AreWords s.words };

    ghost inverse = { λ flags. record { words = words_of flags } };

    ghost inverse_ok = { λ s kept i. record { words = words_of-members s.words kept i } };
}

impl CellSet {
    /// Returns the empty set.
    pub(crate) fn none() -> CellSet
        ensures { result ≡ replicate 512 false }
    {
        CellSet { words: [0; 8] }
    }

    /// Adds the cells from index `place` up to but not including `end` to the set, or removes them if `value` is false.
    /// This is fastest if all their bits are in one word.
    pub(crate) fn set(&mut self, place: usize, end: usize, value: bool)
        requires ordered { place ≤ end }
        requires within { end ≤ 512 }
        ensures size { length self.new ≡ 512 }
        ensures window { IsSetTo value self.old self.new place end }
    {
        if mask::is_in_word(place, end) {
            let mask = mask::in_word(place, end);
            let number = place / 64;
            self.words[number] = mask::put(self.words[number], mask, value);
            return;
        }
        self.set_across(place, end, value);
    }

    /// Adds the cells from index `place` up to but not including `end` to the set, or removes them if `value` is false,
    /// word by word.
    #[inline(never)]
    fn set_across(&mut self, place: usize, end: usize, value: bool)
        requires ordered { place ≤ end }
        requires within { end ≤ 512 }
        ensures size { length self.new ≡ 512 }
        ensures window { IsSetTo value self.old self.new place end }
    {
        for number in place / 64..(end + 63) / 64 {
            let mask = mask::window(number, place, end);
            self.words[number] = mask::put(self.words[number], mask, value);
        }
    }

    /// Checks whether all cells from index `place` up to but not including `end` are in the set. This is fastest if all
    /// their bits are in one word.
    pub(crate) fn has(&self, place: usize, end: usize) -> bool
        requires ordered { place ≤ end }
        requires within { end ≤ 512 }
        ensures { IsTrue result ↔ ((k : ℕ) → place ≤ k → k < end → byte_at self.now k ≡ true) }
    {
        if mask::is_in_word(place, end) {
            return mask::has(self.words[place / 64], mask::in_word(place, end));
        }
        self.has_across(place, end)
    }

    /// Checks, word by word, whether all cells from index `place` up to but not including `end` are in the set.
    #[inline(never)]
    fn has_across(&self, place: usize, end: usize) -> bool
        requires ordered { place ≤ end }
        requires within { end ≤ 512 }
        ensures { IsTrue result ↔ ((k : ℕ) → place ≤ k → k < end → byte_at self.now k ≡ true) }
    {
        for number in place / 64..(end + 63) / 64 {
            if !mask::has(self.words[number], mask::window(number, place, end)) {
                return false;
            }
        }
        true
    }

    /// Removes the cells that are not in `other`.
    pub(crate) fn intersect(&mut self, other: &CellSet)
        ensures size { length self.new ≡ 512 }
        ensures both { (k : ℕ) → byte_at self.new k ≡ (byte_at self.old k && byte_at other.now k) }
    {
        for number in 0..8 {
            self.words[number] &= other.words[number];
        }
    }
}
