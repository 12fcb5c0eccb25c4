//! Defines the chains that a general holds: all that he received in earlier rounds.
ghost use Rattle.std.specs.Prelude.{◌≡◌, ◌≤◌, ◌<◌, ◌+◌, ◌*◌, ◌++◌, ◌∷◌, [], map, flat_map, length, slice_get, IfOk, OnOk, vec_len};
ghost use Rattle.signed.specs.Contexts.{signer_bits};
ghost use Rattle.signed.specs.Entries.{received};
ghost use Rattle.signed.specs.Sending.{chain_in, held_of, lent, received_in};

use crate::chain::Chain;
use crate::sent_chains::{Sending, SentRound};
use crate::sets::has;
use std::alloc::{AllocError, Global};
use std::marker::Model;

/// The chains that a general received in earlier rounds, ordered by round and by sender. The same chain may occur more
/// than once. They are references to the chains that were sent, because one chain goes to up to twelve receivers.
#[derive(Drop)]
pub struct Held<'a> {
    chains: Vec<&'a Chain>,
    /// How many of the chains the general received before the last of these rounds.
    earlier: usize,
}

impl<'a> Model for Held<'a> {
    ghost use Rattle.signed.specs.Sending.{HeldChains, lent as lent_chains};

    ghost Value = { HeldChains };

    ghost view = { λ h. record { chains = lent_chains h.chains.items; earlier = h.earlier } };
}

impl<'a> Held<'a> {
    /// Returns the chains that a general received in the rounds of `sent`. Fails with `AllocError` if it runs out of
    /// memory.
    pub(crate) fn behind(
        alloc: Global,
        sent: &'a [SentRound],
        general: u8,
    ) -> Result<Held<'a>, AllocError>
        requires { general < 13 }
        ensures held { IfOk result (λ held. held ≡ held_of general sent.now) }
        ensures few { IfOk result (λ held. length held.chains ≤ 104 * length sent.now) }
    {
        let mut chains = Vec::new(alloc);
        let mut earlier = 0;
        for round in sent {
            earlier = chains.len();
            take_round(&mut chains, round, general)?;
        }
        Ok(Held { chains, earlier })
    }

    /// Returns how many chains the general holds.
    pub fn len(&self) -> usize
        ensures { result ≡ length self.now.chains }
    {
        self.chains.len()
    }

    /// Returns how many of the chains the general received before the last closed round.
    pub(crate) fn earlier(&self) -> usize
        ensures { result ≡ self.now.earlier }
    {
        self.earlier
    }

    /// Returns the chain at index `place`, or `None` if there are fewer chains.
    pub fn get(&self, place: usize) -> Option<&Chain>
        ensures { chain_in result ≡ slice_get self.now.chains place }
    {
        match self.chains.get(place) {
            Some(chain) => Some(*chain),
            None => None,
        }
    }

    /// Returns for each chain the generals who signed it, as a set: bit g is set for general g. Fails with `AllocError`
    /// if it runs out of memory.
    pub(crate) fn signers(&self, alloc: Global) -> Result<Vec<u16>, AllocError>
        ensures { IfOk result (λ signers. signers.items ≡ map signer_bits self.now.chains) }
    {
        let mut signers = Vec::with_capacity(alloc, self.chains.len())?;
        for chain in &self.chains {
            signers.push(chain.bits())?;
        }
        Ok(signers)
    }

    /// Returns two numbers for each chain: its order, and the set of its signers, in which bit g is set for general g.
    /// Fails with `AllocError` if it runs out of memory.
    pub(crate) fn numbers(&self, alloc: Global) -> Result<Vec<u32>, AllocError>
        ensures { IfOk result (λ numbers. numbers.items
            ≡ flat_map (λ ch. ch.order ∷ signer_bits ch ∷ []) self.now.chains) }
    {
        let mut numbers = Vec::new(alloc);
        for chain in &self.chains {
            numbers.push(chain.order())?;
            numbers.push(u32::from(chain.bits()))?;
        }
        Ok(numbers)
    }
}

/// Appends the chains that this general received in a round. Fails with `AllocError` if it runs out of memory.
fn take_round<'a>(
    chains: &mut Vec<&'a Chain>,
    round: &'a SentRound,
    general: u8,
) -> Result<(), AllocError>
    requires { general < 13 }
    ensures came { OnOk result (lent chains.new.items ≡ lent chains.old.items ++ received_in general round.now) }
    ensures few { OnOk result (vec_len chains.new ≤ vec_len chains.old + 104) }
{
    for sending in round.sendings() {
        take(chains, sending, general)?;
    }
    Ok(())
}

/// Appends the chains that this general received from one sender in a round. Fails with `AllocError` if it runs out of
/// memory.
fn take<'a>(
    chains: &mut Vec<&'a Chain>,
    sending: &'a Sending,
    general: u8,
) -> Result<(), AllocError>
    requires { general < 13 }
    ensures came { OnOk result (lent chains.new.items ≡ lent chains.old.items ++ received general sending.now) }
    ensures few { OnOk result (vec_len chains.new ≤ vec_len chains.old + 8) }
{
    for (chain, receivers) in sending.chains() {
        if has(*receivers, general) {
            chains.push(chain)?;
        }
    }
    Ok(())
}
