//! Writes by which chains a lieutenant of a signed campaign accepts no order, and why.
ghost use Rattle.std.specs.Prelude.{◌≡◌, ◌<◌, ◌++◌, flat_map, string_bytes, IfOk, OnOk};
ghost use Rattle.signed.specs.Accepted.{counts};
ghost use Rattle.signed.specs.Explained.{chains_of};
ghost use Rattle.signed.specs.Sending.{lent};
ghost use Rattle.show_chains.specs.Unaccepted.{accepts, line_if, lines_from, lines_in, reason, reason_line, unaccepted_lines};

use crate::owed_chains::sent_to;
use crate::signed_order::SignedOrder;
use crate::words::put_chain;
use signed::{Chain, SignedChronicle, bringing_in};
use std::alloc::{AllocError, Global};

/// Appends a line for each chain by which lieutenant `general` accepts no order, by round and sender, and says why.
///
/// # Errors
///
/// Fails with `AllocError` if memory runs out.
#[tactic(auto, unfolding(crate::specs::Unaccepted::unaccepted_lines))]
pub fn put_unaccepted(
    alloc: Global,
    out: &mut String,
    chronicle: &SignedChronicle,
    general: u8,
) -> Result<(), AllocError>
    requires { general < chronicle.now.scenario.generals }
    ensures { OnOk result (string_bytes out.new ≡ string_bytes out.old ++ unaccepted_lines chronicle.now general) }
{
    let brought = brought(alloc, chronicle, general)?;
    for before in 0..chronicle.scenario().bound() + 1 {
        put_round(alloc, out, chronicle, brought.as_slice(), before, general)?;
    }
    Ok(())
}

/// Returns the chains by which lieutenant `general` accepts orders. Fails with `AllocError` if memory runs out.
fn brought(
    alloc: Global,
    chronicle: &SignedChronicle,
    general: u8,
) -> Result<Vec<SignedOrder>, AllocError>
    requires { general < chronicle.now.scenario.generals }
    ensures { IfOk result (λ brought. brought.items ≡ chains_of chronicle.now general) }
{
    let scenario = chronicle.scenario();
    scenario.recall();
    let rounds = usize::from(scenario.bound()) + 1;
    let chains = bringing_in(alloc, chronicle, rounds, general)?;
    copies(alloc, chains.as_slice())
}

/// Returns these chains as signed orders. Fails with `AllocError` if memory runs out.
fn copies(alloc: Global, chains: &[&Chain]) -> Result<Vec<SignedOrder>, AllocError>
    ensures { IfOk result (λ copies. copies.items ≡ lent chains.now) }
{
    let mut copies = Vec::new(alloc);
    for chain in chains {
        copies.push(SignedOrder::of(alloc, chain)?)?;
    }
    Ok(copies)
}

/// Appends the lines for the chains that lieutenant `general` received in round `before` + 1. Fails with `AllocError` if
/// memory runs out.
fn put_round(
    alloc: Global,
    out: &mut String,
    chronicle: &SignedChronicle,
    brought: &[SignedOrder],
    before: u8,
    general: u8,
) -> Result<(), AllocError>
    requires { general < chronicle.now.scenario.generals }
    ensures { OnOk result (string_bytes out.new ≡ string_bytes out.old
        ++ lines_in chronicle.now brought.now general before) }
{
    for sender in 0..chronicle.scenario().generals() {
        let round = usize::from(before) + 1;
        put_sender(alloc, out, chronicle, brought, round, general, sender)?;
    }
    Ok(())
}

/// Appends the lines for the chains that `sender` sent lieutenant `general` in a round. Fails with `AllocError` if memory
/// runs out.
fn put_sender(
    alloc: Global,
    out: &mut String,
    chronicle: &SignedChronicle,
    brought: &[SignedOrder],
    round: usize,
    general: u8,
    sender: u8,
) -> Result<(), AllocError>
    requires { general < chronicle.now.scenario.generals }
    ensures { OnOk result (string_bytes out.new ≡ string_bytes out.old
        ++ lines_from chronicle.now brought.now round general sender) }
{
    chronicle.scenario().recall();
    let sent = sent_to(alloc, chronicle, round, sender, general)?;
    put_lines(out, brought, round, general, sender, sent.as_slice())
}

/// Appends a line for each of these chains by which lieutenant `general` accepts no order. Fails with `AllocError` if
/// memory runs out.
fn put_lines(
    out: &mut String,
    brought: &[SignedOrder],
    round: usize,
    general: u8,
    sender: u8,
    sent: &[SignedOrder],
) -> Result<(), AllocError>
    ensures { OnOk result (string_bytes out.new ≡ string_bytes out.old
        ++ flat_map (line_if brought.now round general sender) sent.now) }
{
    for chain in sent {
        put_line_if(out, brought, round, general, sender, chain)?;
    }
    Ok(())
}

/// Appends a line for a chain if lieutenant `general` accepts no order by it. Fails with `AllocError` if memory runs out.
fn put_line_if(
    out: &mut String,
    brought: &[SignedOrder],
    round: usize,
    general: u8,
    sender: u8,
    chain: &SignedOrder,
) -> Result<(), AllocError>
    ensures { OnOk result (string_bytes out.new ≡ string_bytes out.old
        ++ line_if brought.now round general sender chain.now) }
{
    if accepts(brought, round, general, chain) {
        return Ok(());
    }
    put_line(out, round, general, sender, chain)
}

/// Returns whether lieutenant `general` accepts an order by this chain, which he received in this round. `brought` are
/// all chains by which he accepts orders.
fn accepts(brought: &[SignedOrder], round: usize, general: u8, chain: &SignedOrder) -> bool
    ensures { result ≡ accepts brought.now round general chain.now }
{
    counts(round, general, chain) && chain.is_among(brought)
}

/// Returns whether a chain counts for a general in this round: it has as many signatures as the round's number, and none
/// of them is his.
fn counts(round: usize, general: u8, chain: &SignedOrder) -> bool
    ensures { result ≡ counts round general chain.now }
{
    chain.signers().len() == round && !chain.has(general)
}

/// Appends a line such as `round 2: general 3 sends 1 signed 0.3: known already`. Fails with `AllocError` if memory runs
/// out.
#[tactic(auto, unfolding(crate::specs::Unaccepted::reason_line))]
fn put_line(
    out: &mut String,
    round: usize,
    general: u8,
    sender: u8,
    chain: &SignedOrder,
) -> Result<(), AllocError>
    ensures { OnOk result (string_bytes out.new ≡ string_bytes out.old
        ++ reason_line round sender general chain.now) }
{
    write!(out, "round {round}: general {sender} sends ")?;
    put_chain(out, chain)?;
    let why = reason(round, general, chain);
    write!(out, ": {why}\n")
}

/// Returns why lieutenant `general` accepts no order by this chain, which he received in this round.
fn reason(round: usize, general: u8, chain: &SignedOrder) -> &'static str
    ensures { result.now ≡ reason round general chain.now }
{
    if counts(round, general, chain) {
        "known already"
    } else if chain.has(general) {
        "he signed it himself"
    } else {
        "too late, not enough signatures"
    }
}
