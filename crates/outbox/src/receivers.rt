//! Defines the set of generals to whom a label is relayed.
ghost use Rattle.std.specs.Prelude.{◌≡◌, ◌<◌, ◌≤◌, ◌∷◌, [], ℕ, true, IsTrue, length};
ghost use Rattle.label.specs.Labels.{on, others, is_distinct};
ghost use Rattle.label.specs.Oral.{AllBelow};
ghost use Rattle.outbox.specs.Masks.{has_bit as is_in};
ghost use Rattle.outbox.specs.Receivers.{struck};

use crate::mask::{has_bit, with_bit, without_bit};
use arrayvec::ArrayVec;
use std::marker::Model;

/// The receivers of a label: different generals with numbers below 13. Contracts see an ascending list.
#[derive(Drop)]
pub(crate) struct Receivers {
    /// The set of receivers: bit g is set for general g.
    mask: u16,
}

impl Model for Receivers {
    ghost use Rattle.std.specs.Prelude.{List, ℕ};
    ghost use Rattle.outbox.specs.Masks.{members};

    ghost Value = { List ℕ };

    ghost view = { λ r. members r.mask };
}

impl Receivers {
    /// Returns the generals below `generals` (at most 13) except `first` and `second`, which may be the same general.
    pub fn others(generals: u8, first: u8, second: u8) -> Receivers
        requires { generals ≤ 13 }
        ensures { result ≡ others generals (first ∷ second ∷ []) }
    {
        let mut mask = 0;
        for general in 0..generals {
            if general != first && general != second {
                mask = with_bit(mask, u32::from(general));
            }
        }
        Receivers { mask }
    }

    /// Returns the set with this general removed.
    pub fn without(&self, general: u8) -> Receivers
        requires { general < 13 }
        ensures { result ≡ struck general self.now }
    {
        Receivers {
            mask: without_bit(self.mask, u32::from(general)),
        }
    }

    /// Returns whether this general is a receiver.
    pub fn has(&self, general: u32) -> bool
        ensures among { result ≡ on self.now general }
        ensures below { IsTrue result → general < 13 }
    {
        general < 13 && has_bit(self.mask, general)
    }

    /// Returns the set as a bit mask: bit g is set if general g is a receiver.
    pub fn mask(&self) -> u16
        ensures { (g : ℕ) → g < 13 → is_in result g ≡ on self.now g }
    {
        self.mask
    }

    /// Returns the number of receivers.
    pub fn count(&self) -> u32
        ensures count { result ≡ length self.now }
        ensures few { result ≤ 13 }
    {
        (u32::from(self.mask) & ((1 << 13) - 1)).count_ones()
    }

    /// Returns the receivers as a list, ascending.
    pub fn list(&self) -> ArrayVec<u8, 13>
        ensures { result.items ≡ self.now }
    {
        let mask = self.mask;
        let mut list = ArrayVec::new();
        for general in 0..13 {
            if has_bit(mask, u32::from(general)) {
                list.push(general);
            }
        }
        list
    }

    /// Does nothing. Its contract says that there are at most 13 receivers, all different and below 13.
    pub fn recall(&self)
        ensures few { length self.now ≤ 13 }
        ensures below { AllBelow 13 self.now }
        ensures distinct { is_distinct self.now ≡ true }
    {
        let _mask = self.mask;
    }

    /// Returns a copy of the set.
    pub fn copy(&self) -> Receivers
        ensures { result ≡ self.now }
    {
        Receivers { mask: self.mask }
    }
}
