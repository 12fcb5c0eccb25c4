//! Collects the strokes of a signed campaign's diagram. A stroke is for the chains with one order from one sender to
//! one receiver in a round.
ghost use Rattle.std.specs.Prelude.{◌≡◌, ◌<◌, ◌++◌, [], IfOk, OnOk};
ghost use Rattle.label.specs.Labels.{on};
ghost use Rattle.signed.specs.Accepted.{firsts};
ghost use Rattle.signed.specs.Chains.{orders};
ghost use Rattle.signed.specs.Sending.{added_also};
ghost use Rattle.show_chains.specs.Strokes.{bare, between, grouped, in_round, list_to, made, plain, strokes_of, told_between, told_if, told_to};

use crate::chain_filter::{among, apart, of_order};
use crate::order::{arranged, numbered};
use crate::owed_chains::{owed_to, sent_to};
use crate::signed_order::SignedOrder;
use crate::stroke::{ChainStroke, Way};
use show_diagram::Stroke;
use signed::SignedChronicle;
use std::alloc::{AllocError, Global};

/// Returns the strokes of a campaign, by round, and within a round by receiver. The strokes to one receiver are sorted
/// by sender. If there are too many to be drawn, the lies come first: strokes that differ from what a loyal general
/// would have done.
///
/// # Errors
///
/// Fails with `AllocError` if memory runs out.
#[tactic(auto, unfolding(crate::specs::Strokes::strokes_of))]
pub(crate) fn strokes(
    alloc: Global,
    chronicle: &SignedChronicle,
) -> Result<Vec<ChainStroke>, AllocError>
    ensures { IfOk result (λ strokes. strokes.items ≡ strokes_of chronicle.now) }
{
    let mut strokes = Vec::new(alloc);
    for before in 0..chronicle.scenario().bound() + 1 {
        push_round(alloc, &mut strokes, chronicle, usize::from(before) + 1)?;
    }
    Ok(strokes)
}

/// Appends the strokes of a round, by receiver. Fails with `AllocError` if memory runs out.
fn push_round(
    alloc: Global,
    strokes: &mut Vec<ChainStroke>,
    chronicle: &SignedChronicle,
    round: usize,
) -> Result<(), AllocError>
    ensures { OnOk result (strokes.new.items ≡ strokes.old.items ++ in_round chronicle.now round) }
{
    for receiver in 0..chronicle.scenario().generals() {
        let mut list = list_to(alloc, chronicle, round, receiver)?;
        strokes.append(&mut list)?;
    }
    Ok(())
}

/// Returns the strokes to one receiver in a round, in the order of their rows in his list, with their row numbers.
/// Fails with `AllocError` if memory runs out.
fn list_to(
    alloc: Global,
    chronicle: &SignedChronicle,
    round: usize,
    receiver: u8,
) -> Result<Vec<ChainStroke>, AllocError>
    requires { receiver < 13 }
    ensures { IfOk result (λ list. list.items ≡ list_to chronicle.now round receiver) }
{
    let told = told_to(alloc, chronicle, round, receiver)?;
    let rows = arranged(alloc, told)?;
    numbered(alloc, rows)
}

/// Returns the strokes to one receiver in a round, sorted by sender. Fails with `AllocError` if memory runs out.
fn told_to(
    alloc: Global,
    chronicle: &SignedChronicle,
    round: usize,
    receiver: u8,
) -> Result<Vec<ChainStroke>, AllocError>
    requires { receiver < 13 }
    ensures { IfOk result (λ list. list.items ≡ told_to chronicle.now round receiver) }
{
    let mut list = Vec::new(alloc);
    for general in 0..chronicle.scenario().generals() {
        push_between(alloc, &mut list, chronicle, round, receiver, general)?;
    }
    Ok(list)
}

/// Appends the strokes from `general` to `receiver` in a round. Fails with `AllocError` if memory runs out.
fn push_between(
    alloc: Global,
    list: &mut Vec<ChainStroke>,
    chronicle: &SignedChronicle,
    round: usize,
    receiver: u8,
    general: u8,
) -> Result<(), AllocError>
    requires receiver { receiver < 13 }
    requires general { general < 13 }
    ensures { OnOk result (list.new.items ≡ list.old.items ++ between chronicle.now round receiver general) }
{
    let sent = sent_to(alloc, chronicle, round, general, receiver)?;
    let owed = owed_to(alloc, chronicle, round, general, receiver)?;
    push_told(
        alloc,
        list,
        round,
        receiver,
        general,
        sent.as_slice(),
        owed.as_slice(),
    )?;
    Ok(())
}

/// Appends the strokes from `general` to `receiver` in a round: for chains in `sent`, and for chains that are only in
/// `owed`. `sent` are the chains that he sent, and `owed` those that a loyal general in his place would have sent.
/// Fails with `AllocError` if memory runs out.
fn push_told(
    alloc: Global,
    list: &mut Vec<ChainStroke>,
    round: usize,
    receiver: u8,
    general: u8,
    sent: &[SignedOrder],
    owed: &[SignedOrder],
) -> Result<(), AllocError>
    ensures { OnOk result (list.new.items ≡ list.old.items
        ++ told_between round receiver general sent.now owed.now) }
{
    let way = Way {
        round,
        teller: general,
        receiver,
        sent: true,
        differs: false,
    };
    let lies = Way {
        differs: true,
        ..way
    };
    let withheld = Way {
        sent: false,
        ..lies
    };
    let same = among(alloc, sent, owed)?;
    let other = apart(alloc, sent, owed)?;
    let missing = apart(alloc, owed, sent)?;
    push_grouped(alloc, list, way, same.as_slice())?;
    push_grouped(alloc, list, lies, other.as_slice())?;
    push_grouped(alloc, list, withheld, missing.as_slice())?;
    Ok(())
}

/// Appends a stroke for each order of these chains. `way` says what the strokes have in common, such as sender and
/// receiver. Fails with `AllocError` if memory runs out.
fn push_grouped(
    alloc: Global,
    list: &mut Vec<ChainStroke>,
    way: Way,
    chains: &[SignedOrder],
) -> Result<(), AllocError>
    ensures { OnOk result (list.new.items ≡ list.old.items ++ grouped way chains.now) }
{
    let orders = orders_of(alloc, chains)?;
    for order in &orders {
        let stroke = made(alloc, way, chains, *order)?;
        list.push(stroke)?;
    }
    Ok(())
}

/// Returns the orders of these chains, each once, in the order of first occurrence. Fails with `AllocError` if memory
/// runs out.
fn orders_of(alloc: Global, chains: &[SignedOrder]) -> Result<Vec<u32>, AllocError>
    ensures { IfOk result (λ found. found.items ≡ orders (firsts [] chains.now)) }
{
    let mut found = Vec::new(alloc);
    for chain in chains {
        add_order(&mut found, chain.order())?;
    }
    Ok(found)
}

/// Appends an order, unless the list has it already. Fails with `AllocError` if memory runs out.
fn add_order(found: &mut Vec<u32>, order: u32) -> Result<(), AllocError>
    ensures { OnOk result (found.new.items ≡ added_also found.old.items order) }
{
    if !is_there(found.as_slice(), order) {
        found.push(order)?;
    }
    Ok(())
}

/// Returns whether the list contains the order.
fn is_there(orders: &[u32], order: u32) -> bool
    ensures { result ≡ on orders.now order }
{
    orders.iter().any(|x| *x == order)
}

/// Returns the stroke for those chains that have this order. `way` has its round, sender and receiver. Fails with
/// `AllocError` if memory runs out.
fn made(
    alloc: Global,
    way: Way,
    chains: &[SignedOrder],
    order: u32,
) -> Result<ChainStroke, AllocError>
    ensures { IfOk result (λ stroke. stroke ≡ made way chains.now order) }
{
    let chains = of_order(alloc, chains, order)?;
    Ok(ChainStroke {
        stroke: plain(way, order, chains.len()),
        chains,
    })
}

/// Returns the stroke for `labels` chains with this order, without the chains, in row 0. `way` has its round, sender
/// and receiver.
fn plain(way: Way, order: u32, labels: usize) -> Stroke
    ensures { result ≡ plain way order labels }
{
    Stroke {
        round: way.round,
        teller: way.teller,
        receiver: way.receiver,
        told: told_if(way.sent, order),
        differs: way.differs,
        labels,
        row: 0,
    }
}

/// Returns the order if `is_sent`, otherwise `None`.
fn told_if(is_sent: bool, order: u32) -> Option<u32>
    ensures { result ≡ told_if is_sent order }
{
    if is_sent { Some(order) } else { None }
}

/// Returns the same strokes without their chains. Fails with `AllocError` if memory runs out.
pub(crate) fn bare(alloc: Global, strokes: &[ChainStroke]) -> Result<Vec<Stroke>, AllocError>
    ensures { IfOk result (λ plain. plain.items ≡ bare strokes.now) }
{
    let mut plain = Vec::with_capacity(alloc, strokes.len())?;
    for stroke in strokes {
        plain.push(*stroke.stroke())?;
    }
    Ok(plain)
}
