//! Draws the campaign of a seed from a family: its numbers, its traitors and their statements.
ghost use Rattle.std.specs.Prelude.{◌≡◌, ◌+◌, ◌-◌, ◌%◌, ◌<◌, ◌≤◌, ◌++◌, OnOk, IfOk, cond, flat_map, map, nat_lt, option_map, string_bytes};
ghost use Rattle.std.specs.List.{range_with_len};
ghost use Rattle.surveys.specs.Draws.{draw};
ghost use Rattle.surveys.specs.Plotting.{bound_of, chosen, commander_of, count_of, do_count, drawn_for, generals_of, given_in, lies_by, lies_in, oral_lies, plot_of, said_by, signed_lies, traitor_of};

use crate::adversary::Adversary;
use crate::draw::{count_in, draw, within};
use crate::family::Family;
use crate::lie::{Lie, LieValue};
use crate::manner::Manner;
use crate::plot::{Plot, Traitor};
use std::alloc::{AllocError, Global};

/// Returns the random number at index `place` of those that a seed has for a general. It has 32 for each general.
fn drawn_for(seed: u64, general: u8, place: u8) -> u64
    ensures { result ≡ drawn_for seed general place }
{
    draw(seed, 32 + 32 * u16::from(general) + u16::from(place))
}

/// Returns the number that selects from one of the family's ranges: `turn` if the seeds go through all combinations,
/// and otherwise the random number at index `place` of `seed`.
fn selecting(family: &Family, turn: u64, seed: u64, place: u16) -> u64
    ensures { result ≡ cond family.now.grid turn (draw seed place) }
{
    if family.grid() {
        turn
    } else {
        draw(seed, place)
    }
}

/// Returns how many generals the campaign of `seed` has, 2 to 13.
fn generals_of(family: &Family, seed: u64) -> u8
    ensures number { result ≡ generals_of family.now seed }
    ensures least { 2 ≤ result }
    ensures greatest { result ≤ 13 }
{
    within(family.generals(), selecting(family, seed, seed, 0))
}

/// Returns the bound of the campaign of `seed`, at most 4 and at most the number of generals less 2.
fn bound_of(family: &Family, seed: u64) -> u8
    ensures { result ≡ bound_of family.now seed }
{
    let greatest = (generals_of(family, seed) - 2).min(4);
    let turn = seed / count_in(family.generals());
    within(family.bound(), selecting(family, turn, seed, 1)).min(greatest)
}

/// Returns the commander of a campaign with `generals` generals: the family's commander, or the last general if there
/// are not enough generals.
fn commander_of(family: &Family, generals: u8) -> u8
    ensures { result ≡ commander_of family.now generals }
{
    family.commander().min(generals.saturating_sub(1))
}

/// Returns how many traitors the campaign of `seed` has, at most the number of its generals.
fn count_of(family: &Family, seed: u64) -> u8
    ensures { result ≡ count_of family.now seed }
{
    let turn = seed / count_in(family.generals()) / count_in(family.bound());
    within(family.traitors(), selecting(family, turn, seed, 2)).min(generals_of(family, seed))
}

/// Returns what a statement sends: the parity of the board's count if `counts` is true, and otherwise the order or
/// index from 0 to `most` that the random number `drawn` selects.
fn said_by(counts: bool, most: u8, drawn: u64) -> LieValue
    ensures { result ≡ said_by counts most drawn }
{
    if counts {
        LieValue::Parity
    } else {
        LieValue::Number((drawn / 4 % (u64::from(most) + 1)) as u8)
    }
}

/// Appends the statement of traitor `general` to `receiver` in an oral campaign, if there is one. The random number
/// `drawn` selects whether he sends nothing, the order that he took, or another value: the parity of the board's count
/// if `counts` is true, and otherwise some order from 0 to `orders`.
fn push_oral(
    lies: &mut Vec<Lie>,
    counts: bool,
    orders: u8,
    general: u8,
    receiver: u8,
    drawn: u64,
) -> Result<(), AllocError>
    ensures { OnOk result (lies.new.items ≡ lies.old.items ++ oral_lies counts orders general receiver drawn) }
{
    if receiver == general || drawn % 4 == 0 {
        return Ok(());
    }
    if drawn % 4 == 1 {
        lies.push(Lie::Honest(receiver))?;
    } else {
        lies.push(Lie::Sway(receiver, said_by(counts, orders, drawn)))?;
    }
    Ok(())
}

/// Appends a statement of traitor `general` in a signed campaign, if `drawn`, a random number, selects one. The
/// commander signs an order from 0 to `orders`, and a lieutenant passes on the chain with index 0 or 1. If `counts` is
/// true, the parity of the board's count is this order or index.
fn push_signed(
    lies: &mut Vec<Lie>,
    counts: bool,
    orders: u8,
    commander: u8,
    general: u8,
    drawn: u64,
) -> Result<(), AllocError>
    ensures { OnOk result (lies.new.items ≡ lies.old.items ++ signed_lies counts orders commander general drawn) }
{
    if drawn % 4 == 0 {
        return Ok(());
    }
    let receivers = (drawn / 8 % 8192) as u16;
    if general == commander {
        lies.push(Lie::Sign(said_by(counts, orders, drawn), receivers))?;
    } else {
        lies.push(Lie::Pass(said_by(counts, 1, drawn), receivers))?;
    }
    Ok(())
}

/// Returns the statements of traitor `general` in an oral campaign with `generals` generals, at most one for each other
/// general.
fn oral_of(
    alloc: Global,
    counts: bool,
    orders: u8,
    seed: u64,
    generals: u8,
    general: u8,
) -> Result<Vec<Lie>, AllocError>
    ensures { IfOk result (λ lies. lies.items
        ≡ flat_map (λ r. oral_lies counts orders general r (drawn_for seed general r)) (range_with_len 0 generals)) }
{
    let mut lies = Vec::new(alloc);
    for receiver in 0..generals {
        push_oral(
            &mut lies,
            counts,
            orders,
            general,
            receiver,
            drawn_for(seed, general, receiver),
        )?;
    }
    Ok(lies)
}

/// Returns the statements of traitor `general` in a signed campaign, at most four.
fn signed_of(
    alloc: Global,
    counts: bool,
    orders: u8,
    commander: u8,
    seed: u64,
    general: u8,
) -> Result<Vec<Lie>, AllocError>
    ensures { IfOk result (λ lies. lies.items
        ≡ flat_map (λ r. signed_lies counts orders commander general (drawn_for seed general r)) (range_with_len 0 4)) }
{
    let mut lies = Vec::new(alloc);
    for place in 0..4 {
        push_signed(
            &mut lies,
            counts,
            orders,
            commander,
            general,
            drawn_for(seed, general, place),
        )?;
    }
    Ok(lies)
}

/// Returns the statements of traitor `general` in an oral or signed campaign with `generals` generals.
fn lies_in(
    alloc: Global,
    manner: Manner,
    counts: bool,
    orders: u8,
    commander: u8,
    seed: u64,
    generals: u8,
    general: u8,
) -> Result<Vec<Lie>, AllocError>
    ensures { IfOk result (λ lies. lies.items ≡ lies_in manner counts orders commander seed generals general) }
{
    match manner {
        Manner::Oral(_) => oral_of(alloc, counts, orders, seed, generals, general),
        Manner::Signed => signed_of(alloc, counts, orders, commander, seed, general),
    }
}

/// Returns the statements of traitor `general` in the campaign that `seed` draws from `family`. There are none if the
/// traitors are silent or have a given program.
fn lies_by(
    alloc: Global,
    family: &Family,
    seed: u64,
    generals: u8,
    general: u8,
) -> Result<Vec<Lie>, AllocError>
    ensures { IfOk result (λ lies. lies.items ≡ lies_by family.now.adversary family.now.manner family.now.orders
        (commander_of family.now generals) seed generals general) }
{
    let manner = family.manner();
    let orders = family.orders();
    let commander = commander_of(family, generals);
    match family.adversary() {
        Adversary::Lies => lies_in(
            alloc, manner, false, orders, commander, seed, generals, general,
        ),
        Adversary::Collude => lies_in(
            alloc, manner, true, orders, commander, seed, generals, general,
        ),
        Adversary::Silent | Adversary::Given(_) => Ok(Vec::new(alloc)),
    }
}

/// Checks whether the traitors increment a count on the board.
fn do_count(adversary: &Adversary) -> bool
    ensures { result ≡ do_count adversary.now }
{
    match adversary {
        Adversary::Collude => true,
        Adversary::Lies | Adversary::Silent | Adversary::Given(_) => false,
    }
}

/// Returns the bytecode of all traitors in hex, or `None` if each traitor's program is made of his statements.
fn given_in(alloc: Global, adversary: &Adversary) -> Result<Option<String>, AllocError>
    ensures { IfOk result (λ given. option_map string_bytes given ≡ given_in adversary.now) }
{
    match adversary {
        Adversary::Given(hex) => Ok(Some(String::from_str(alloc, hex.as_str())?)),
        Adversary::Lies | Adversary::Silent | Adversary::Collude => Ok(None),
    }
}

/// Returns traitor `general` of the campaign that `seed` draws from `family`, with his statements.
fn traitor_of(
    alloc: Global,
    family: &Family,
    seed: u64,
    generals: u8,
    general: u8,
) -> Result<Traitor, AllocError>
    ensures { IfOk result (λ traitor. traitor ≡ traitor_of family.now seed generals general) }
{
    Ok(Traitor {
        general,
        counts: do_count(family.adversary()),
        lies: lies_by(alloc, family, seed, generals, general)?,
    })
}

/// Checks whether `general` becomes a traitor. `needed` traitors must still be chosen, at random, from the last `left`
/// generals. He is the first of these.
fn is_chosen(seed: u64, general: u8, left: u8, needed: u8) -> bool
    requires { 0 < left }
    ensures { result ≡ nat_lt (draw seed (4 + general) % left) needed }
{
    draw(seed, 4 + u16::from(general)) % u64::from(left) < u64::from(needed)
}

/// Returns the `count` traitors of the campaign that `seed` draws from `family`, ascending by number.
fn traitors_of(
    alloc: Global,
    family: &Family,
    seed: u64,
    generals: u8,
    count: u8,
) -> Result<Vec<Traitor>, AllocError>
    ensures { IfOk result (λ traitors. traitors.items
        ≡ map (traitor_of family.now seed generals) (chosen seed 0 generals count)) }
{
    let mut needed = count;
    let mut traitors = Vec::new(alloc);
    for general in 0..generals {
        if is_chosen(seed, general, generals - general, needed) {
            traitors.push(traitor_of(alloc, family, seed, generals, general)?)?;
            needed = needed.saturating_sub(1);
        }
    }
    Ok(traitors)
}

/// Returns the campaign that a seed draws from a family.
///
/// # Errors
///
/// Fails with `AllocError` if it runs out of memory.
#[tactic(auto, unfolding(crate::specs::Plotting::plot_of))]
pub fn plot_of(alloc: Global, family: &Family, seed: u64) -> Result<Plot, AllocError>
    ensures { IfOk result (λ plot. plot ≡ plot_of family.now seed) }
{
    let generals = generals_of(family, seed);
    let count = count_of(family, seed);
    Ok(Plot {
        generals,
        bound: bound_of(family, seed),
        commander: commander_of(family, generals),
        order: (draw(seed, 3) % (u64::from(family.orders()) + 1)) as u8,
        manner: family.manner(),
        patience: family.patience(),
        given: given_in(alloc, family.adversary())?,
        traitors: traitors_of(alloc, family, seed, generals, count)?,
    })
}
