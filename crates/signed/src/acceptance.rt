//! Computes the orders that a lieutenant accepts by SM(m), and his decision from them.
ghost use Rattle.std.specs.Prelude.{◌≡◌, ◌≤◌, ◌<◌, ℕ, List, suc, length};
ghost use Rattle.label.specs.Labels.{on};
ghost use Rattle.signed.specs.Accepted.{accepted, decided};
ghost use Rattle.signed.specs.Entries.{received};
ghost use Rattle.signed.specs.Sending.{added_also, added_by, received_in, AreFirst, AreRows};
ghost use Rattle.signed.specs.Sent.{delivered};

use crate::sent_chains::{Sending, SentRound};
use crate::sets::has;
use arrayvec::ArrayVec;

/// Returns the first 8 different orders that a general accepts in the first `rounds` rounds. `sent` has the chains sent
/// in each round. It allocates no memory.
pub(crate) fn accepted(sent: &[SentRound], rounds: usize, general: u8) -> ArrayVec<u32, 8>
    requires rounds { rounds ≤ length sent.now }
    requires general { general < 13 }
    ensures { (n : ℕ) → AreRows n sent.now → AreFirst result.items (accepted n (delivered sent.now) rounds general) }
{
    let mut orders = ArrayVec::new();
    for round in 0..rounds {
        add_round(&mut orders, &sent[round], round + 1, general);
    }
    orders
}

/// Appends the orders that a general accepts from the chains sent in one round, until there are 8. `number` is the
/// round's number, counted from 1.
fn add_round(orders: &mut ArrayVec<u32, 8>, round: &SentRound, number: usize, general: u8)
    requires { general < 13 }
    ensures { (seen : List ℕ) → AreFirst orders.old.items seen →
        AreFirst orders.new.items (added_by number general seen (received_in general round.now)) }
{
    for sending in round.sendings() {
        add_sending(orders, sending, number, general);
    }
}

/// Appends the orders that a general accepts from the chains that one sender sent in a round, until there are 8.
/// `number` is the round's number, counted from 1.
fn add_sending(orders: &mut ArrayVec<u32, 8>, sending: &Sending, number: usize, general: u8)
    requires { general < 13 }
    ensures { (seen : List ℕ) → AreFirst orders.old.items seen →
        AreFirst orders.new.items (added_by number general seen (received general sending.now)) }
{
    for (chain, receivers) in sending.chains() {
        if has(*receivers, general) && chain.counts(number, general) {
            add(orders, chain.order());
        }
    }
}

/// Appends an order, unless the list has it already or has 8 orders.
pub(crate) fn add(orders: &mut ArrayVec<u32, 8>, order: u32)
    ensures { (seen : List ℕ) → AreFirst orders.old.items seen → AreFirst orders.new.items (added_also seen order) }
{
    if orders.len() < 8 && !is_among(orders.as_slice(), order) {
        orders.push(order);
    }
}

/// Returns whether the list contains the order.
pub(crate) fn is_among(orders: &[u32], order: u32) -> bool
    ensures { result ≡ on orders.now order }
{
    orders.iter().any(|x| *x == order)
}

/// Returns the decision of a lieutenant who accepted these orders: the order if there is exactly one, otherwise 0
/// (RETREAT).
pub(crate) fn decided(orders: &[u32]) -> u32
    ensures { result ≡ decided orders.now }
{
    match orders {
        [order] => *order,
        _ => 0,
    }
}
