//! Reads from a context which chains of signatures its general can pass on.
ghost use Rattle.std.specs.Prelude.{◌≡◌, ◌+◌, ◌*◌, ◌%◌, ◌^◌, ◌≤◌, [], length, IfOk};
ghost use Rattle.label.specs.Relay.{IsShape};
ghost use Rattle.semantics.specs.Outbox.{empty_outbox};
ghost use Rattle.semantics.specs.Relay.{Oral};
ghost use Rattle.trial.specs.Held.{kind_seen};
ghost use Rattle.mem.specs.ContextLayout.{number_told};
ghost use Rattle.trial.specs.Slips.{kind_told, signers_told};

use label::Shape;
use mem::number_told;
use outbox::Outbox;
use std::alloc::{AllocError, Global};
use std::marker::Model;

/// The chains of signatures that a general holds, each as the set of its signers: bit g is set if general g has signed
/// it. With oral messages there are no chains.
#[derive(Drop)]
pub(crate) struct HeldChains {
    /// The signers of each chain, or `None` if messages are oral.
    signers: Option<Vec<u16>>,
}

impl Model for HeldChains {
    ghost use Rattle.std.specs.Option.{option_map};
    ghost use Rattle.semantics.specs.Relay.{Kind};
    ghost use Rattle.trial.specs.Held.{kind_by};

    ghost Value = { Kind };

    ghost view = { λ h. kind_by (option_map (λ v. v.items) h.signers) };
}

impl HeldChains {
    /// Returns that messages are oral, so that there are no chains.
    pub fn oral() -> HeldChains
        ensures { result ≡ Oral }
    {
        HeldChains { signers: None }
    }

    /// Returns the chains that a context of 4,096 bytes names.
    ///
    /// # Errors
    ///
    /// Fails with `AllocError` if there is no memory for the signers.
    pub fn told_in(alloc: Global, context: &[u8]) -> Result<HeldChains, AllocError>
        requires { length context.now ≡ 4096 }
        ensures { IfOk result (λ held. held ≡ kind_told context.now) }
    {
        if number_told(context, 7) == 0 {
            return Ok(HeldChains { signers: None });
        }
        Ok(HeldChains {
            signers: Some(signers_told(alloc, context)?),
        })
    }

    /// Returns an empty outbox for a general who holds these chains.
    ///
    /// # Errors
    ///
    /// Fails with `AllocError` if there is no memory for the outbox.
    pub fn outbox(&self, alloc: Global, shape: Shape) -> Result<Outbox, AllocError>
        requires { IsShape shape }
        ensures relay { IfOk result (λ outbox. outbox.relay ≡ record { shape = shape; kind = self.now }) }
        ensures empty { IfOk result (λ outbox. outbox.rows ≡ empty_outbox outbox.relay) }
        ensures unentered { IfOk result (λ outbox. outbox.entries ≡ []) }
    {
        match &self.signers {
            None => Outbox::new(alloc, shape),
            Some(signers) => Outbox::signed(alloc, shape, signers.as_slice()),
        }
    }

    /// Returns the set of signers of each chain, or `None` if messages are oral.
    pub fn signers(&self) -> Option<&[u16]>
        ensures { kind_seen result ≡ self.now }
    {
        match &self.signers {
            None => None,
            Some(signers) => Some(signers.as_slice()),
        }
    }
}

/// Returns the set of signers of each chain that a signed context names.
fn signers_told(alloc: Global, context: &[u8]) -> Result<Vec<u16>, AllocError>
    requires { length context.now ≡ 4096 }
    ensures { IfOk result (λ signers. signers.items ≡ signers_told context.now) }
{
    let count = number_told(context, 5).min(508) as usize;
    let mut signers = Vec::with_capacity(alloc, count)?;
    for index in 0..count {
        signers.push(signers_at(context, index))?;
    }
    Ok(signers)
}

/// Returns the set of signers of the chain with this index, the low 16 bits of its number.
fn signers_at(context: &[u8], index: usize) -> u16
    requires long { length context.now ≡ 4096 }
    requires within { index + 1 ≤ 508 }
    ensures { result ≡ number_told context.now (9 + 2 * index) % 2 ^ 16 }
{
    (number_told(context, 9 + 2 * index) & 0xffff) as u16
}
