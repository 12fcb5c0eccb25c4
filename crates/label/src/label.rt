//! Defines labels: the generals that an order has passed through, in order.
ghost use Rattle.std.specs.Prelude.{◌≡◌, ◌<◌, ◌≤◌, [], ◌∷◌, ◌++◌, false, length, bytes_eq};
ghost use Rattle.label.specs.Labels.{on};
ghost use Rattle.label.specs.Generals.{IsGenerals};

use arrayvec::ArrayVec;
use std::marker::Model;

/// A label: the generals that an order has passed through, in order. It has 1 to 13 generals, all different, each
/// below 13.
#[derive(Drop)]
pub struct Label {
    generals: ArrayVec<u8, 13>,
}

impl Model for Label {
    ghost use Rattle.std.specs.Prelude.{List, ℕ};
    ghost use Rattle.label.specs.Generals.{IsGenerals};

    ghost Value = { List ℕ };

    ghost view = { λ a. a.generals.items };

    ghost invariant = { λ a. IsGenerals a.generals.items };
}

impl Label {
    /// Returns the label that has only `general`, who must be below 13.
    pub fn of(general: u8) -> Label
        requires { general < 13 }
        ensures { result ≡ general ∷ [] }
    {
        let mut only = ArrayVec::new();
        only.push(general);
        Label { generals: only }
    }

    /// Returns the number of generals on the label, from 1 to 13.
    pub fn len(&self) -> usize
        ensures value { result ≡ length self.now }
        ensures some { 0 < result }
    {
        self.generals.len()
    }

    /// Checks whether the general is on the label.
    pub fn has(&self, general: u8) -> bool
        ensures { result ≡ on self.now general }
    {
        has_general(self.generals(), general)
    }

    /// Checks whether two labels have the same generals in the same order.
    pub fn same(&self, other: &Label) -> bool
        ensures { result ≡ bytes_eq self.now other.now }
    {
        self.generals() == other.generals()
    }

    /// Returns the generals on the label, in order.
    pub fn generals(&self) -> &[u8]
        ensures value { result.now ≡ self.now }
        ensures kind { IsGenerals self.now }
        ensures short { length result.now ≤ 13 }
    {
        self.generals.as_slice()
    }

    /// Returns this label with one more general at its end. He must be below 13, and not be on the label.
    pub fn with(&self, general: u8) -> Label
        requires below { general < 13 }
        requires fresh { on self.now general ≡ false }
        requires room { length self.now < 13 }
        ensures { result ≡ self.now ++ general ∷ [] }
    {
        let old = self.generals();
        let mut generals = copied(old);
        generals.push(general);
        Label { generals }
    }
}

/// Checks whether the list contains the general.
pub(crate) fn has_general(generals: &[u8], general: u8) -> bool
    ensures { result ≡ on generals.now general }
{
    generals.iter().any(|x| *x == general)
}

/// Returns a copy of a list of at most 13 generals.
fn copied(generals: &[u8]) -> ArrayVec<u8, 13>
    requires { length generals.now ≤ 13 }
    ensures { result.items ≡ generals.now }
{
    let mut copy = ArrayVec::new();
    for x in generals {
        copy.push(*x);
    }
    copy
}
