//! Turns the entries of a general's outbox into chains with his signature. An entry signs a new order, or passes on a
//! chain that he holds.
ghost use Rattle.std.specs.Prelude.{◌≡◌, ◌≤◌, ◌+◌, ◌++◌, map, length, IfOk, OnOk, vec_len};
ghost use Rattle.signed.specs.Entries.{bits_of, chain_of, dispatched, receivers_in, sent_by};
ghost use Rattle.signed.specs.Sending.{dispatch_of, named};

use crate::chain::Chain;
use crate::held_chains::Held;
use crate::sent_chains::Sending;
use crate::sets::{below, without};
use crate::signer::Signer;
use semantics::Entry;
use std::alloc::{AllocError, Global};

/// Returns the chains that a general sends, one for each of his outbox's entries that he may sign, with his signature
/// as the last. A chain goes to those receivers of its entry who have not signed it. `held` are the chains that he
/// received earlier. Fails with `AllocError` if it runs out of memory.
pub(crate) fn dispatched(
    alloc: Global,
    signer: &Signer,
    generals: u8,
    held: &Held,
    entries: &[Entry],
) -> Result<Sending, AllocError>
    requires size { generals ≤ 13 }
    requires few { length entries.now ≤ 8 }
    ensures { IfOk result (λ sending. sending
        ≡ dispatched generals signer.now.commander signer.now.general held.now.chains entries.now) }
{
    let mut chains = Vec::with_capacity(alloc, entries.len())?;
    for entry in entries {
        send(&mut chains, signer, generals, held, *entry)?;
    }
    Ok(Sending { chains })
}

/// Appends the chain that an entry of the outbox sends, with its receivers. Appends nothing if the general may not sign
/// it or holds no such chain. Fails with `AllocError` if it runs out of memory.
fn send(
    chains: &mut Vec<(Chain, u16)>,
    signer: &Signer,
    generals: u8,
    held: &Held,
    entry: Entry,
) -> Result<(), AllocError>
    requires size { generals ≤ 13 }
    ensures sent { OnOk result
        (map dispatch_of chains.new.items ≡ map dispatch_of chains.old.items
        ++ sent_by generals (chain_of signer.now.commander signer.now.general held.now.chains entry) (bits_of entry)) }
    ensures one { OnOk result (vec_len chains.new ≤ vec_len chains.old + 1) }
{
    match chain_of(signer, held, entry) {
        None => Ok(()),
        Some(chain) => {
            let receivers = receivers(generals, bits_of(entry), &chain);
            chains.push((chain, receivers))?;
            Ok(())
        }
    }
}

/// Returns the chain that an entry of the outbox sends, with the general's signature. Returns `None` if he may not sign
/// it, or holds no chain at the index that the entry names.
fn chain_of(signer: &Signer, held: &Held, entry: Entry) -> Option<Chain>
    ensures { result ≡ chain_of signer.now.commander signer.now.general held.now.chains entry }
{
    match entry {
        Entry::Sign { order, .. } => Chain::begin(signer, order),
        Entry::Pass { held: place, .. } => match held.get(usize::from(place)) {
            None => None,
            Some(chain) => chain.prolong(signer),
        },
    }
}

/// Returns the receivers that an entry names, as a set: bit g is set for general g.
fn bits_of(entry: Entry) -> u16
    ensures { result ≡ bits_of entry }
{
    match entry {
        Entry::Sign { receivers, .. } => receivers,
        Entry::Pass { receivers, .. } => receivers,
    }
}

/// Returns the receivers of a chain as a set: the generals below `generals` that are in the set `bits` and have not
/// signed the chain.
fn receivers(generals: u8, bits: u16, chain: &Chain) -> u16
    requires { generals ≤ 13 }
    ensures { named result ≡ receivers_in generals bits chain.now }
{
    without(bits & below(generals), chain.bits())
}
