//! Defines the rows of an outbox, one for each label: puts orders into them, and reads, copies and compares them.
ghost use Rattle.std.specs.Prelude.{◌≡◌, ◌<◌, ◌≤◌, ◌↔◌, [], ℕ, IfOk, IsTrue, length, map, min, slice_index_or, slice_set, vec_capacity};
ghost use Rattle.label.specs.Labels.{on};
ghost use Rattle.outbox.specs.Orders.{orders_seen};
ghost use Rattle.outbox.specs.Rows.{orders_in, receivers_in, put_in_row, all_put, filled, put_first, found_first, rows_seen, Tells};

use crate::alike_row::UniformRow;
use crate::orders::Orders;
use crate::row::MixedRow;
use std::alloc::{AllocError, Global};
use std::marker::Model;

/// The rows of an outbox, by rank. At first all are uniform rows of 12 bytes, with one order for all receivers of a
/// label. Once an order is put for a single receiver, all become mixed rows. The memory for these is allocated at the
/// start.
#[derive(Drop)]
pub(crate) struct Rows {
    /// The uniform rows, which are used as long as `apart` is empty.
    alike: Vec<UniformRow>,
    /// The mixed rows. They are empty until an order is put for a single receiver.
    apart: Vec<MixedRow>,
}

impl Model for Rows {
    ghost use Rattle.std.specs.Prelude.{◌≡◌, ◌≤◌, List, length, vec_capacity};
    ghost use Rattle.outbox.specs.Rows.{RowOrders, rows_seen};

    ghost Value = { List RowOrders };

    ghost view = { λ r. rows_seen r.alike.items r.apart.items };

    ghost invariant = { λ r. length r.apart.items ≡ 0 → length r.alike.items ≤ vec_capacity r.apart };
}

impl Rows {
    /// Returns rows that are at first these uniform rows. They can become mixed rows without allocating memory.
    ///
    /// # Errors
    ///
    /// Returns `AllocError` if the memory for separate orders cannot be allocated.
    pub fn new(alloc: Global, alike: Vec<UniformRow>) -> Result<Rows, AllocError>
        ensures { IfOk result (λ rows. rows ≡ alike.items) }
    {
        let apart = Vec::with_capacity(alloc, alike.len())?;
        Ok(Rows { alike, apart })
    }

    /// Returns the rows of an outbox that has no labels.
    pub fn none(alloc: Global) -> Rows
        ensures { result ≡ [] }
    {
        Rows {
            alike: Vec::new(alloc),
            apart: Vec::new(alloc),
        }
    }

    /// Returns the number of rows.
    pub fn len(&self) -> usize
        ensures { result ≡ length self.now }
    {
        if self.apart.is_empty() {
            self.alike.len()
        } else {
            self.apart.len()
        }
    }

    /// Returns the orders in the row of this rank. There must be such a row.
    pub fn at(&self, rank: usize) -> Orders<'_>
        requires { rank < length self.now }
        ensures { orders_seen result ≡ slice_index_or self.now rank [] }
    {
        if self.apart.is_empty() {
            Orders::Alike(&self.alike[rank])
        } else {
            Orders::Apart(&self.apart[rank])
        }
    }

    /// Puts an order for a receiver into the row of this rank. Returns false, and puts nothing, if he is not a receiver
    /// of the row's label.
    pub fn put(&mut self, rank: usize, receiver: u32, order: u32) -> bool
        requires { rank < length self.old }
        ensures rows { self.new ≡ slice_set self.old rank
            (put_in_row receiver order (slice_index_or self.old rank [])) }
        ensures there { result ≡ on (receivers_in (slice_index_or self.old rank [])) receiver }
    {
        set_apart(self.alike.as_slice(), &mut self.apart);
        self.apart[rank].put(receiver, order)
    }

    /// Puts the first order for the lowest receiver in the row of this rank, the second for the next one, and so on,
    /// until there are no more orders or receivers. Returns how many were put.
    pub fn fill(&mut self, rank: usize, orders: &[u32]) -> u32
        requires { rank < length self.old }
        ensures rows { self.new ≡ slice_set self.old rank (filled orders.now (slice_index_or self.old rank [])) }
        ensures count { result ≡ min (length (slice_index_or self.old rank [])) (length orders.now) }
    {
        set_apart(self.alike.as_slice(), &mut self.apart);
        self.apart[rank].fill(orders)
    }

    /// Puts one order for every receiver in the row of this rank.
    pub fn put_all(&mut self, rank: usize, order: u32)
        requires { rank < length self.old }
        ensures { self.new ≡ slice_set self.old rank (all_put order (slice_index_or self.old rank [])) }
    {
        if self.apart.is_empty() {
            self.alike[rank].put_all(order);
        } else {
            self.apart[rank].put_all(order);
        }
    }

    /// Puts an order for this receiver into each row that has him as a receiver. `order` returns the order for a row's
    /// rank. Returns how many orders were put.
    pub fn put_in_each<F: Fn(usize) -> u32>(&mut self, receiver: u32, order: F) -> u32
        requires few { length self.old ≤ 990 }
        requires callable { (rank : ℕ) → rank < length self.old → F.pre order rank }
        ensures rows { (f : ℕ → ℕ) → Tells (F.post order) f →
            self.new ≡ put_first receiver f 0 (length self.old) self.old }
        ensures count { result ≡ found_first receiver (length self.old) self.old }
    {
        set_apart(self.alike.as_slice(), &mut self.apart);
        put_in_each(self.apart.as_mut_slice(), receiver, order)
    }

    /// Returns a copy of the rows.
    ///
    /// # Errors
    ///
    /// Returns `AllocError` if the memory for the copy cannot be allocated.
    pub fn copy(&self, alloc: Global) -> Result<Rows, AllocError>
        ensures { IfOk result (λ copy. copy ≡ self.now) }
    {
        let alike = copied_alike(alloc, self.alike.as_slice())?;
        if self.apart.is_empty() {
            return Rows::new(alloc, alike);
        }
        Ok(Rows {
            alike,
            apart: copied(alloc, self.apart.as_slice())?,
        })
    }

    /// Returns whether two outboxes have rows with the same orders, one by one.
    pub fn has_orders_of(&self, others: &Rows) -> bool
        ensures { IsTrue result ↔ (map orders_in self.now ≡ map orders_in others.now) }
    {
        if self.len() != others.len() {
            return false;
        }
        for rank in 0..self.len() {
            let told = self.at(rank).told();
            let other = others.at(rank).told();
            if !are_same(told.as_slice(), other.as_slice()) {
                return false;
            }
        }
        true
    }
}

/// Fills `apart` with mixed rows that have the same orders as the uniform rows `alike`. If `apart` already has rows, it
/// does nothing. There must be room for the mixed rows.
fn set_apart(alike: &[UniformRow], apart: &mut Vec<MixedRow>)
    requires room { length apart.old.items ≡ 0 → length alike.now ≤ vec_capacity apart.old }
    ensures rows { apart.new.items ≡ rows_seen alike.now apart.old.items }
    ensures room { length apart.new.items ≡ 0 → length alike.now ≤ vec_capacity apart.new }
{
    if !apart.is_empty() {
        return;
    }
    for row in alike {
        apart.push_reserved(row.apart());
    }
}

/// Returns a copy of uniform rows. Fails with `AllocError` if it runs out of memory.
fn copied_alike(alloc: Global, rows: &[UniformRow]) -> Result<Vec<UniformRow>, AllocError>
    ensures { IfOk result (λ copy. copy.items ≡ rows.now) }
{
    let mut copy = Vec::with_capacity(alloc, rows.len())?;
    for row in rows {
        copy.push(row.copy())?;
    }
    Ok(copy)
}

/// Returns a copy of mixed rows. Fails with `AllocError` if it runs out of memory.
fn copied(alloc: Global, rows: &[MixedRow]) -> Result<Vec<MixedRow>, AllocError>
    ensures { IfOk result (λ copy. copy.items ≡ rows.now) }
{
    let mut copy = Vec::with_capacity(alloc, rows.len())?;
    for row in rows {
        copy.push(row.copy())?;
    }
    Ok(copy)
}

/// Returns whether two lists of orders are equal.
fn are_same(told: &[Option<u32>], others: &[Option<u32>]) -> bool
    ensures { IsTrue result ↔ (told.now ≡ others.now) }
{
    if told.len() != others.len() {
        return false;
    }
    for number in 0..told.len() {
        if told[number] != others[number] {
            return false;
        }
    }
    true
}

/// Puts an order for this receiver into each of these rows that has him as a receiver. `order` returns the order for a
/// row's rank. Returns how many orders were put.
fn put_in_each<F: Fn(usize) -> u32>(labels: &mut [MixedRow], receiver: u32, order: F) -> u32
    requires few { length labels.old ≤ 990 }
    requires callable { (rank : ℕ) → rank < length labels.old → F.pre order rank }
    ensures rows { (f : ℕ → ℕ) → Tells (F.post order) f →
        labels.new ≡ put_first receiver f 0 (length labels.old) labels.old }
    ensures count { result ≡ found_first receiver (length labels.old) labels.old }
{
    let mut set = 0;
    for rank in 0..labels.len() {
        if labels[rank].put(receiver, order(rank)) {
            set += 1;
        }
    }
    set
}
