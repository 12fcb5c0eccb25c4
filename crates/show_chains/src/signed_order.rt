//! Defines signed orders: an order with a list of signers, which may differ from every chain that was really signed.
ghost use Rattle.std.specs.Prelude.{◌≡◌, IfOk};
ghost use Rattle.label.specs.Labels.{on};
ghost use Rattle.signed.specs.Chains.{signed_alone, signed_also};
ghost use Rattle.show_chains.specs.Owed.{is_among, is_same};

use signed::Chain;
use std::alloc::{AllocError, Global};
use std::marker::Model;

/// An order with a list of signers, the first signer first. Unlike a `Chain`, anyone can make one with any signers. It
/// is used for what a loyal general would have signed.
#[derive(Drop)]
pub struct SignedOrder {
    order: u32,
    signers: Vec<u8>,
}

impl Model for SignedOrder {
    ghost use Rattle.signed.specs.Chains.{Chain as Signed};

    ghost Value = { Signed };

    ghost view = { λ s. record { order = s.order; signers = s.signers.items } };
}

impl SignedOrder {
    /// Returns the order with one signature.
    ///
    /// # Errors
    ///
    /// Fails with `AllocError` if memory runs out.
    pub(crate) fn alone(alloc: Global, order: u32, general: u8) -> Result<SignedOrder, AllocError>
        ensures { IfOk result (λ signed. signed ≡ signed_alone order general) }
    {
        let mut signers = Vec::new(alloc);
        signers.push(general)?;
        Ok(SignedOrder { order, signers })
    }

    /// Returns a chain's order with its signers. Fails with `AllocError` if memory runs out.
    pub(crate) fn of(alloc: Global, chain: &Chain) -> Result<SignedOrder, AllocError>
        ensures { IfOk result (λ signed. signed ≡ chain.now) }
    {
        Ok(SignedOrder {
            order: chain.order(),
            signers: Vec::from_slice(alloc, chain.signers())?,
        })
    }

    /// Returns a chain's order with its signers and `general` as one more signer. Fails with `AllocError` if memory
    /// runs out.
    pub(crate) fn also(alloc: Global, chain: &Chain, general: u8) -> Result<SignedOrder, AllocError>
        ensures { IfOk result (λ signed. signed ≡ signed_also chain.now general) }
    {
        let mut signers = Vec::from_slice(alloc, chain.signers())?;
        signers.push(general)?;
        Ok(SignedOrder {
            order: chain.order(),
            signers,
        })
    }

    /// Returns a copy of the signed order. Fails with `AllocError` if memory runs out.
    pub(crate) fn copied(&self, alloc: Global) -> Result<SignedOrder, AllocError>
        ensures { IfOk result (λ signed. signed ≡ self.now) }
    {
        Ok(SignedOrder {
            order: self.order,
            signers: Vec::from_slice(alloc, self.signers.as_slice())?,
        })
    }

    /// Returns the order that was signed.
    pub(crate) fn order(&self) -> u32
        ensures { result ≡ self.now.order }
    {
        self.order
    }

    /// Returns the signers, the first signer first.
    pub(crate) fn signers(&self) -> &[u8]
        ensures { result.now ≡ self.now.signers }
    {
        self.signers.as_slice()
    }

    /// Returns whether this general is one of the signers.
    pub(crate) fn has(&self, general: u8) -> bool
        ensures { result ≡ on self.now.signers general }
    {
        self.signers.as_slice().iter().any(|x| *x == general)
    }

    /// Returns whether both have the same order, and the same signers in the same sequence.
    pub(crate) fn is_same(&self, other: &SignedOrder) -> bool
        ensures { result ≡ is_same self.now other.now }
    {
        self.order == other.order && self.signers() == other.signers()
    }

    /// Returns whether `others` contains this signed order.
    pub(crate) fn is_among(&self, others: &[SignedOrder]) -> bool
        ensures { result ≡ is_among others.now self.now }
    {
        others.iter().any(|x| self.is_same(x))
    }
}
