//! Computes which chains a general sent another in a round, and which ones a loyal general in his place would have sent
//! by SM(m).
ghost use Rattle.std.specs.Prelude.{◌≡◌, ◌<◌, ◌==◌, ◌++◌, cond, map, nat_le, suc, [], ◌∷◌, IfOk, OnOk};
ghost use Rattle.std.specs.Int.{bit_at};
ghost use Rattle.signed.specs.Accepted.{added};
ghost use Rattle.signed.specs.Chains.{signed_alone, signed_also};
ghost use Rattle.signed.specs.Entries.{received};
ghost use Rattle.signed.specs.Sending.{dispatch_of, lent};
ghost use Rattle.signed.specs.Sent.{delivered, sent_in};
ghost use Rattle.show_chains.specs.Owed.{owed, owed_to, sent_to};

use crate::chain_filter::unsigned;
use crate::signed_order::SignedOrder;
use signed::{Chain, SignedChronicle, bringing_in};
use std::alloc::{AllocError, Global};

/// Returns the chains that `general` sent `receiver` in a round, counted from 1.
///
/// # Errors
///
/// Fails with `AllocError` if memory runs out.
pub(crate) fn sent_to(
    alloc: Global,
    chronicle: &SignedChronicle,
    round: usize,
    general: u8,
    receiver: u8,
) -> Result<Vec<SignedOrder>, AllocError>
    requires { receiver < 13 }
    ensures { IfOk result (λ sent. sent.items ≡ sent_to chronicle.now round general receiver) }
{
    received(alloc, chronicle.sent(general, round), receiver)
}

/// Returns those chains that were sent to this receiver. With each chain goes the set of its receivers, in which bit g
/// means general g. Fails with `AllocError` if memory runs out.
fn received(
    alloc: Global,
    sending: &[(Chain, u16)],
    receiver: u8,
) -> Result<Vec<SignedOrder>, AllocError>
    requires { receiver < 13 }
    ensures { IfOk result (λ came. came.items ≡ received receiver (map dispatch_of sending.now)) }
{
    let mut came = Vec::new(alloc);
    for (chain, receivers) in sending {
        push_if(alloc, &mut came, chain, has(*receivers, receiver))?;
    }
    Ok(came)
}

/// Appends a chain, as a signed order, if `is_wanted`. Fails with `AllocError` if memory runs out.
fn push_if(
    alloc: Global,
    came: &mut Vec<SignedOrder>,
    chain: &Chain,
    is_wanted: bool,
) -> Result<(), AllocError>
    ensures { OnOk result (came.new.items ≡ came.old.items ++ cond is_wanted (chain.now ∷ []) []) }
{
    if is_wanted {
        came.push(SignedOrder::of(alloc, chain)?)?;
    }
    Ok(())
}

/// Returns whether the set `bits` contains this general. Bit g means general g.
fn has(bits: u16, general: u8) -> bool
    requires { general < 16 }
    ensures { result ≡ (bit_at bits general == 1) }
{
    (bits >> general) & 1 == 1
}

/// Returns the chains that a loyal general in the place of `general` would have sent `receiver` in a round, counted
/// from 1. Fails with `AllocError` if memory runs out.
pub(crate) fn owed_to(
    alloc: Global,
    chronicle: &SignedChronicle,
    round: usize,
    general: u8,
    receiver: u8,
) -> Result<Vec<SignedOrder>, AllocError>
    requires { general < 13 }
    ensures { IfOk result (λ found. found.items ≡ owed_to chronicle.now round general receiver) }
{
    let owed = owed(alloc, chronicle, round, general)?;
    unsigned(alloc, owed.as_slice(), receiver)
}

/// Returns the chains that a loyal general in the place of `general` would have signed in a round, counted from 1.
/// Fails with `AllocError` if memory runs out.
#[tactic(auto, using(crate::proofs::OwedLemmas::owed_none))]
fn owed(
    alloc: Global,
    chronicle: &SignedChronicle,
    round: usize,
    general: u8,
) -> Result<Vec<SignedOrder>, AllocError>
    requires { general < 13 }
    ensures { IfOk result (λ found. found.items ≡ owed chronicle.now round general) }
{
    if round == 0 {
        return Ok(Vec::new(alloc));
    }
    if round == 1 {
        return begun(alloc, chronicle, general);
    }
    later(alloc, chronicle, round - 2, general)
}

/// Returns what a loyal general in the place of `general` would have signed in round 1: his order if he is the
/// commander, otherwise nothing. Fails with `AllocError` if memory runs out.
fn begun(
    alloc: Global,
    chronicle: &SignedChronicle,
    general: u8,
) -> Result<Vec<SignedOrder>, AllocError>
    ensures { IfOk result (λ signed. signed.items
        ≡ cond (general == chronicle.now.scenario.commander)
        (signed_alone chronicle.now.scenario.order chronicle.now.scenario.commander ∷ []) []) }
{
    let scenario = chronicle.scenario();
    let commander = scenario.commander();
    alone_if(alloc, scenario.order(), commander, general == commander)
}

/// Returns the order with only the commander's signature if `is_wanted`, otherwise an empty list. Fails with
/// `AllocError` if memory runs out.
fn alone_if(
    alloc: Global,
    order: u32,
    commander: u8,
    is_wanted: bool,
) -> Result<Vec<SignedOrder>, AllocError>
    ensures { IfOk result (λ signed. signed.items ≡ cond is_wanted (signed_alone order commander ∷ []) []) }
{
    let mut signed = Vec::new(alloc);
    if is_wanted {
        signed.push(SignedOrder::alone(alloc, order, commander)?)?;
    }
    Ok(signed)
}

/// Returns the chains that a loyal general in the place of `general` would have signed in round `rounds` + 2. The
/// commander would have signed none, and nobody would have signed any after the last round. Fails with `AllocError` if
/// memory runs out.
#[tactic(auto, using(crate::proofs::OwedLemmas::later_commander, crate::proofs::OwedLemmas::later_none))]
fn later(
    alloc: Global,
    chronicle: &SignedChronicle,
    rounds: usize,
    general: u8,
) -> Result<Vec<SignedOrder>, AllocError>
    requires { general < 13 }
    ensures { IfOk result (λ signed. signed.items
        ≡ cond (general == chronicle.now.scenario.commander) []
        (cond (nat_le (suc rounds) chronicle.now.scenario.bound)
        (map (λ ch. signed_also ch general)
        (added chronicle.now.scenario.generals
        (delivered (sent_in chronicle.now.scenario chronicle.now.letters)) rounds general)) [])) }
{
    let scenario = chronicle.scenario();
    if general == scenario.commander() {
        return Ok(Vec::new(alloc));
    }
    if rounds >= usize::from(scenario.bound()) {
        return Ok(Vec::new(alloc));
    }
    prolonged(alloc, chronicle, rounds, general)
}

/// Returns the chains by which `general` accepted new orders in round `rounds` + 1, each with his signature added.
/// Fails with `AllocError` if memory runs out.
fn prolonged(
    alloc: Global,
    chronicle: &SignedChronicle,
    rounds: usize,
    general: u8,
) -> Result<Vec<SignedOrder>, AllocError>
    requires general { general < 13 }
    requires rounds { rounds < 255 }
    ensures { IfOk result (λ signed. signed.items
        ≡ map (λ ch. signed_also ch general)
        (added chronicle.now.scenario.generals
        (delivered (sent_in chronicle.now.scenario chronicle.now.letters)) rounds general)) }
{
    let earlier = bringing_in(alloc, chronicle, rounds, general)?;
    let chains = bringing_in(alloc, chronicle, rounds + 1, general)?;
    let before = earlier.as_slice().len();
    let (_, added) = chains.as_slice().split_at(before);
    signed_also(alloc, added, general)
}

/// Returns these chains as signed orders, each with the general's signature added. Fails with `AllocError` if memory
/// runs out.
fn signed_also(
    alloc: Global,
    chains: &[&Chain],
    general: u8,
) -> Result<Vec<SignedOrder>, AllocError>
    ensures { IfOk result (λ signed. signed.items ≡ map (λ ch. signed_also ch general) (lent chains.now)) }
{
    let mut signed = Vec::new(alloc);
    for chain in chains {
        signed.push(SignedOrder::also(alloc, chain, general)?)?;
    }
    Ok(signed)
}
