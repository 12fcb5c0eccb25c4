//! Finds the chains by which a lieutenant accepts his orders. For each order it is the first chain with this order that
//! counts for him.
ghost use Rattle.std.specs.Prelude.{◌≡◌, ◌<◌, suc, map, IfOk, OnOk};
ghost use Rattle.label.specs.Labels.{on};
ghost use Rattle.signed.specs.Accepted.{came};
ghost use Rattle.signed.specs.Chains.{orders};
ghost use Rattle.signed.specs.Entries.{received};
ghost use Rattle.signed.specs.Explained.{bringing, chains_of};
ghost use Rattle.signed.specs.Gathered.{gathered, gathered_also};
ghost use Rattle.signed.specs.Sending.{dispatch_of, lent};
ghost use Rattle.signed.specs.Sent.{delivered, sent_in};

use crate::chain::Chain;
use crate::chronicle::SignedChronicle;
use crate::sets::has;
use std::alloc::{AllocError, Global};

/// Returns whether one of the chains has this order.
#[tactic(auto, using(crate::proofs::Gathering::one_brings, crate::proofs::Gathering::none_brings))]
fn bring(chains: &[&Chain], order: u32) -> bool
    ensures { result ≡ on (orders (lent chains.now)) order }
{
    for chain in chains {
        if chain.order() == order {
            return true;
        }
    }
    false
}

/// Appends `chain`, unless one of the chains already has its order. Fails with `AllocError` if it runs out of memory.
#[tactic(auto, using(crate::proofs::Gathering::also_pushed, crate::proofs::Gathering::also_kept))]
fn add<'a>(chains: &mut Vec<&'a Chain>, chain: &'a Chain) -> Result<(), AllocError>
    ensures { OnOk result (lent chains.new.items ≡ gathered_also (lent chains.old.items) chain.now) }
{
    if !bring(chains.as_slice(), chain.order()) {
        chains.push(chain)?;
    }
    Ok(())
}

/// Appends those chains of one sender that this general received in this round and by which he accepts a new order. A
/// new order is one that no chain in `chains` has. Fails with `AllocError` if it runs out of memory.
fn add_sending<'a>(
    chains: &mut Vec<&'a Chain>,
    sending: &'a [(Chain, u16)],
    round: usize,
    general: u8,
) -> Result<(), AllocError>
    requires { general < 13 }
    ensures { OnOk result (lent chains.new.items
        ≡ gathered round general (lent chains.old.items) (received general (map dispatch_of sending.now))) }
{
    for (chain, receivers) in sending {
        if has(*receivers, general) && chain.counts(round, general) {
            add(chains, chain)?;
        }
    }
    Ok(())
}

/// Appends those chains that this general received in this round and by which he accepts a new order. A new order is
/// one that no chain in `chains` has. Fails with `AllocError` if it runs out of memory.
fn add_round<'a>(
    chains: &mut Vec<&'a Chain>,
    chronicle: &'a SignedChronicle,
    round: usize,
    general: u8,
) -> Result<(), AllocError>
    requires { general < 13 }
    ensures { OnOk result (lent chains.new.items
        ≡ gathered round general (lent chains.old.items)
        (came chronicle.now.scenario.generals
        (delivered (sent_in chronicle.now.scenario chronicle.now.letters)) round general)) }
{
    for sender in 0..chronicle.scenario().generals() {
        add_sending(chains, chronicle.sent(sender, round), round, general)?;
    }
    Ok(())
}

/// Returns the chains by which a general accepts orders in the first `rounds` rounds, one for each order, in the order
/// of acceptance.
///
/// # Errors
///
/// Fails with `AllocError` if it runs out of memory.
pub fn bringing_in(
    alloc: Global,
    chronicle: &SignedChronicle,
    rounds: usize,
    general: u8,
) -> Result<Vec<&Chain>, AllocError>
    requires { general < 13 }
    ensures { IfOk result (λ chains. lent chains.items
        ≡ bringing chronicle.now.scenario.generals
        (delivered (sent_in chronicle.now.scenario chronicle.now.letters)) rounds general) }
{
    let mut chains = Vec::new(alloc);
    for round in 0..rounds {
        add_round(&mut chains, chronicle, round + 1, general)?;
    }
    Ok(chains)
}

/// Returns the chains by which a general accepts orders in the whole campaign, one for each order, in the order of
/// acceptance. Fails with `AllocError` if it runs out of memory.
pub(crate) fn bringing(
    alloc: Global,
    chronicle: &SignedChronicle,
    general: u8,
) -> Result<Vec<&Chain>, AllocError>
    requires { general < 13 }
    ensures { IfOk result (λ chains. lent chains.items ≡ chains_of chronicle.now general) }
{
    let rounds = usize::from(chronicle.scenario().bound()) + 1;
    bringing_in(alloc, chronicle, rounds, general)
}
