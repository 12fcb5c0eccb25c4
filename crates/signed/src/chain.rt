//! Defines chains: an order and the generals who signed it.
ghost use Rattle.std.specs.Prelude.{◌≡◌, ℕ, cond, length};
ghost use Rattle.std.specs.Int.{bit_at};
ghost use Rattle.label.specs.Labels.{on};
ghost use Rattle.label.specs.Generals.{IsGenerals};
ghost use Rattle.signed.specs.Chains.{begin, prolong};
ghost use Rattle.signed.specs.Accepted.{counts};
ghost use Rattle.signed.specs.Contexts.{signer_bits};

use crate::sets;
use crate::signer::Signer;
use label::Label;
use std::marker::Model;

/// A chain: an order and the 1 to 13 different generals who signed it, the first signature first. Only the holder of a
/// general's `Signer` can add his signature.
#[derive(Drop)]
pub struct Chain {
    order: u32,
    signers: Label,
}

impl Model for Chain {
    ghost use Rattle.label.specs.Generals.{IsGenerals};
    ghost use Rattle.signed.specs.Chains.{Chain as Signed};

    ghost Value = { Signed };

    ghost view = { λ c. record { order = c.order; signers = c.signers } };

    ghost invariant = { λ c. IsGenerals c.signers };
}

impl Chain {
    /// Returns a chain of this order with one signature, which is made with `signer`. Returns `None` if the signer's
    /// general is not the commander.
    pub fn begin(signer: &Signer, order: u32) -> Option<Chain>
        ensures { result ≡ begin signer.now.commander signer.now.general order }
    {
        if signer.general() != signer.commander() {
            return None;
        }
        Some(Chain {
            order,
            signers: Label::of(signer.general()),
        })
    }

    /// Returns the chain with one more signature, which is made with `signer`. Returns `None` if the signer's general
    /// has already signed it.
    pub fn prolong(&self, signer: &Signer) -> Option<Chain>
        ensures { result ≡ prolong self.now signer.now.general }
    {
        let general = signer.general();
        if self.signers.has(general) {
            return None;
        }
        Some(Chain {
            order: self.order,
            signers: self.signers.with(general),
        })
    }

    /// Returns the order that was signed.
    pub fn order(&self) -> u32
        ensures { result ≡ self.now.order }
    {
        self.order
    }

    /// Returns the generals who signed the chain as a set: bit g is set for general g.
    pub(crate) fn bits(&self) -> u16
        ensures same { result ≡ signer_bits self.now }
        ensures each { (g : ℕ) → bit_at result g ≡ cond (on self.now.signers g) 1 0 }
    {
        sets::of(self.signers.generals())
    }

    /// Returns the generals who signed the chain, the first signature first.
    pub fn signers(&self) -> &[u8]
        ensures value { result.now ≡ self.now.signers }
        ensures kind { IsGenerals self.now.signers }
    {
        self.signers.generals()
    }

    /// Returns whether the chain counts for a general in round `round`: it has exactly `round` signatures, and none of
    /// them is his.
    pub(crate) fn counts(&self, round: usize, general: u8) -> bool
        ensures { result ≡ counts round general self.now }
    {
        self.signers.len() == round && !self.signers.has(general)
    }
}
