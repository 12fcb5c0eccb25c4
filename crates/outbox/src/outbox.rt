//! Defines the outbox, into which a traitor's program puts orders by its calls, and from which they are read.
ghost use Rattle.std.specs.Prelude.{◌≡◌, ◌<◌, ◌≤◌, ◌↔◌, ℕ, IfOk, IsNone, IsTrue, Some, None, [], map, length, slice_get, slice_index_or};
ghost use Rattle.label.specs.Relay.{IsShape, receivers};
ghost use Rattle.semantics.specs.Relay.{oral, signed, relayed};
ghost use Rattle.semantics.specs.Entries.{is_entered, entered};
ghost use Rattle.semantics.specs.Outbox.{places, taken_value as value_in, empty_outbox, written, places_set, at_place, along_row, at_receiver, as_taken};
ghost use Rattle.outbox.specs.Contents.{HasPlaces, order_at};
ghost use Rattle.outbox.specs.Orders.{order_of_row};
ghost use Rattle.outbox.specs.Told.{orders_told};

use crate::orders::Orders;
use crate::relays::rows_of;
use crate::rows::Rows;
use crate::signed_entries::{Signing, copied_signing, same_held, same_signing};
use crate::told_orders::ReceiverOrders;
use arrayvec::ArrayVec;
use label::Shape;
use mem::taken_value;
use semantics::Entry;
use std::alloc::{AllocError, Global};
use std::marker::Model;

/// The outbox of a general in a round. In an oral campaign it has a place for each label that he relays and each
/// receiver of this label, with an order or nothing. In a signed campaign it has entries instead, each of which signs
/// an order or passes on a chain.
#[derive(Drop)]
pub struct Outbox {
    shape: Shape,
    rows: Rows,
    /// The chains that the general holds, and his entries, in a signed campaign. It is `None` in an oral campaign.
    signing: Option<Signing>,
}

impl Model for Outbox {
    ghost use Rattle.outbox.specs.Contents.{Contents, IsOutbox, contents_of, entries_of, relay_of};

    ghost Value = { Contents };

    ghost view = { λ o. contents_of (relay_of o.shape o.signing) (entries_of o.signing) o.rows };

    ghost invariant = { λ o. IsOutbox (relay_of o.shape o.signing) o.rows };
}

impl Outbox {
    /// Returns an empty outbox for an oral campaign. Putting orders into it later allocates no memory.
    ///
    /// # Errors
    ///
    /// Returns `AllocError` if the memory for the rows cannot be allocated.
    pub fn new(alloc: Global, shape: Shape) -> Result<Outbox, AllocError>
        requires { IsShape shape }
        ensures relay { IfOk result (λ outbox. outbox.relay ≡ oral shape) }
        ensures empty { IfOk result (λ outbox. outbox.rows ≡ empty_outbox (oral shape)) }
        ensures unentered { IfOk result (λ outbox. outbox.entries ≡ []) }
    {
        Ok(Outbox {
            shape,
            rows: Rows::new(alloc, rows_of(alloc, shape)?)?,
            signing: None,
        })
    }

    /// Returns an empty outbox for a signed campaign. For each chain that the general holds, `held` has the set of its
    /// signers, in which bit g means general g. Making entries later allocates no memory.
    ///
    /// # Errors
    ///
    /// Returns `AllocError` if the memory for the signers cannot be allocated.
    pub fn signed(alloc: Global, shape: Shape, held: &[u16]) -> Result<Outbox, AllocError>
        requires { IsShape shape }
        ensures relay { IfOk result (λ outbox. outbox.relay ≡ signed shape held.now) }
        ensures empty { IfOk result (λ outbox. outbox.rows ≡ empty_outbox (signed shape held.now)) }
        ensures unentered { IfOk result (λ outbox. outbox.entries ≡ []) }
    {
        Ok(Outbox {
            shape,
            rows: Rows::none(alloc),
            signing: Some(Signing::new(alloc, held)?),
        })
    }

    /// Adds an entry that signs a new order and sends it to these receivers (bit g for general g). Returns false, and
    /// adds nothing, if the campaign is oral, the general is not the commander, or there are 8 entries already.
    pub fn sign(&mut self, order: u32, receivers: u16) -> bool
        ensures relay { self.new.relay ≡ self.old.relay }
        ensures rows { self.new.rows ≡ self.old.rows }
        ensures entries { self.new.entries ≡ entered self.old.relay self.old.entries (Entry.Sign order receivers) }
        ensures taken { result ≡ is_entered self.old.relay self.old.entries (Entry.Sign order receivers) }
    {
        self.enter(Entry::Sign { order, receivers })
    }

    /// Adds an entry that signs the chain at index `held` of those that the general holds, and passes it on to these
    /// receivers (bit g for general g). Returns false, and adds nothing, if there is no such chain, he has signed it
    /// already, or there are 8 entries already.
    pub fn pass(&mut self, held: u16, receivers: u16) -> bool
        ensures relay { self.new.relay ≡ self.old.relay }
        ensures rows { self.new.rows ≡ self.old.rows }
        ensures entries { self.new.entries ≡ entered self.old.relay self.old.entries (Entry.Pass held receivers) }
        ensures taken { result ≡ is_entered self.old.relay self.old.entries (Entry.Pass held receivers) }
    {
        self.enter(Entry::Pass { held, receivers })
    }

    /// Adds an entry if the campaign is signed, the general may sign the entry's chain, and there are fewer than 8
    /// entries. Returns whether it was added.
    fn enter(&mut self, entry: Entry) -> bool
        ensures relay { self.new.relay ≡ self.old.relay }
        ensures rows { self.new.rows ≡ self.old.rows }
        ensures entries { self.new.entries ≡ entered self.old.relay self.old.entries entry }
        ensures taken { result ≡ is_entered self.old.relay self.old.entries entry }
    {
        let shape = self.shape;
        match &mut self.signing {
            None => false,
            Some(signing) => signing.enter(shape, entry),
        }
    }

    /// Returns the entries, at most 8, in the order in which they were added. An oral campaign has none.
    pub fn entries(&self) -> &[Entry]
        ensures same { result.now ≡ self.now.entries }
        ensures few { length self.now.entries ≤ 8 }
    {
        match &self.signing {
            None => &[],
            Some(signing) => signing.entries(),
        }
    }

    /// Puts an order for a receiver of the label of this rank, in place of an earlier one. Returns false, and puts
    /// nothing, if there is no such label or he is not its receiver.
    pub fn put(&mut self, rank: u32, receiver: u32, order: u32) -> bool
        ensures relay { self.new.relay ≡ self.old.relay }
        ensures entries { self.new.entries ≡ self.old.entries }
        ensures rows { self.new.rows ≡ written self.old.relay (at_place rank receiver order) self.old.rows }
        ensures there { IsTrue result ↔ (0 < places_set self.old.relay (at_place rank receiver order)) }
        ensures found { IsTrue result → order_at self.new.relay self.new.rows rank receiver ≡ Some order }
    {
        let rank = rank as usize;
        if rank >= self.rows.len() {
            return false;
        }
        self.rows.put(rank, receiver, order)
    }

    /// Puts the first order for the lowest receiver of the label of this rank, the second for the next one, and so on,
    /// in place of earlier ones. Orders beyond the last receiver are ignored. Returns how many orders were put, which
    /// is 0 if there is no such label.
    pub fn put_row(&mut self, rank: u32, orders: &[u32]) -> u32
        ensures relay { self.new.relay ≡ self.old.relay }
        ensures entries { self.new.entries ≡ self.old.entries }
        ensures rows { self.new.rows ≡ written self.old.relay (along_row rank orders.now) self.old.rows }
        ensures count { result ≡ places_set self.old.relay (along_row rank orders.now) }
    {
        let rank = rank as usize;
        if rank >= self.rows.len() {
            return 0;
        }
        self.rows.fill(rank, orders)
    }

    /// Puts an order for this receiver at every label that has him as a receiver, in place of earlier ones. Returns how
    /// many orders were put.
    pub fn sway(&mut self, receiver: u32, order: u32) -> u32
        ensures relay { self.new.relay ≡ self.old.relay }
        ensures entries { self.new.entries ≡ self.old.entries }
        ensures rows { self.new.rows ≡ written self.old.relay (at_receiver receiver order) self.old.rows }
        ensures count { result ≡ places_set self.old.relay (at_receiver receiver order) }
    {
        self.rows.put_in_each(receiver, |_| order)
    }

    /// Puts for this receiver, at every label that has him as a receiver, the order that the general took for the
    /// label. The orders taken are in `context`, which has 4,096 bytes. Returns how many orders were put.
    pub fn honest(&mut self, context: &[u8], receiver: u32) -> u32
        requires { length context.now ≡ 4096 }
        ensures relay { self.new.relay ≡ self.old.relay }
        ensures entries { self.new.entries ≡ self.old.entries }
        ensures rows { self.new.rows ≡ written self.old.relay (as_taken context.now receiver) self.old.rows }
        ensures count { result ≡ places_set self.old.relay (as_taken context.now receiver) }
    {
        self.rows
            .put_in_each(receiver, |rank| taken_value(context, rank))
    }

    /// Puts for each receiver of every label the order that the general took for the label. The orders taken are in
    /// `context`, which has 4,096 bytes.
    pub fn honest_to_all(&mut self, context: &[u8])
        requires { length context.now ≡ 4096 }
        ensures relay { self.new.relay ≡ self.old.relay }
        ensures entries { self.new.entries ≡ self.old.entries }
        ensures rows { self.new.rows
            ≡ map (λ row. map (λ place. Some (value_in context.now place.rank)) row) (places self.old.relay) }
    {
        let labels = self.rows.len();
        for rank in 0..labels {
            self.rows.put_all(rank, taken_value(context, rank));
        }
    }

    /// Returns the order for a receiver of the label of this rank. Returns `None` if there is no such label, he is not
    /// its receiver, or he has no order.
    pub fn get(&self, rank: u32, receiver: u32) -> Option<u32>
        ensures { result ≡ order_at self.now.relay self.now.rows rank receiver }
    {
        let rank = rank as usize;
        if rank >= self.rows.len() {
            return None;
        }
        self.rows.at(rank).order(receiver)
    }

    /// Returns the orders for the receivers of the label of this rank, or `None` if there is no such label.
    pub fn orders(&self, rank: u32) -> Option<Orders<'_>>
        ensures none { IsNone result ↔ (length self.now.rows ≤ rank) }
        ensures orders { (receiver : ℕ) →
            order_of_row result receiver ≡ order_at self.now.relay self.now.rows rank receiver }
    {
        let rank = rank as usize;
        if rank >= self.rows.len() {
            return None;
        }
        Some(self.rows.at(rank))
    }

    /// Returns the number of labels that the general relays. It is at most 990, for 13 generals in round 5 (11 * 10 *
    /// 9).
    pub fn labels(&self) -> u32
        ensures rows { result ≡ length self.now.rows }
        ensures relayed { result ≡ length (relayed self.now.relay) }
        ensures few { result ≤ 990 }
        ensures places { HasPlaces self.now.relay self.now.rows }
    {
        self.rows.len() as u32
    }

    /// Returns the receivers of the label of this rank, ascending. There must be such a label.
    pub fn receivers(&self, rank: u32) -> ArrayVec<u8, 13>
        requires { rank < length self.now.rows }
        ensures row { slice_get (map (receivers self.now.relay.shape) (relayed self.now.relay)) rank
            ≡ Some result.items }
        ensures long { length result.items ≡ length (slice_index_or self.now.rows rank []) }
    {
        self.rows.at(rank as usize).receivers()
    }

    /// Returns the order for each receiver of the label of this rank, ascending by receiver. If there is no such label,
    /// there are no receivers.
    pub fn told(&self, rank: u32) -> ReceiverOrders
        ensures orders { orders_told result ≡ slice_index_or self.now.rows rank [] }
        ensures few { length (orders_told result) ≤ 13 }
    {
        let rank = rank as usize;
        if rank >= self.rows.len() {
            return ReceiverOrders::Alike {
                order: None,
                times: 0,
            };
        }
        self.rows.at(rank).told_at_once()
    }

    /// Returns a copy of the outbox.
    ///
    /// # Errors
    ///
    /// Returns `AllocError` if the memory for the copy cannot be allocated.
    pub fn copy(&self, alloc: Global) -> Result<Outbox, AllocError>
        ensures { IfOk result (λ outbox. outbox ≡ self.now) }
    {
        Ok(Outbox {
            shape: self.shape,
            rows: self.rows.copy(alloc)?,
            signing: copied_signing(alloc, &self.signing)?,
        })
    }

    /// Returns whether two outboxes have the same labels and receivers, the same order for each of them, and the same
    /// entries.
    pub fn same(&self, other: &Outbox) -> bool
        ensures { IsTrue result ↔ (self.now ≡ other.now) }
    {
        other.shape == self.shape
            && same_signing(&self.signing, &other.signing)
            && self.rows.has_orders_of(&other.rows)
    }

    /// Returns whether two outboxes are for the same relay: with the same shape, and both for oral orders, or both for
    /// signed orders with the same signers of each held chain.
    pub fn same_relay(&self, other: &Outbox) -> bool
        ensures { IsTrue result ↔ (self.now.relay ≡ other.now.relay) }
    {
        other.shape == self.shape && same_held(&self.signing, &other.signing)
    }

    /// Returns for which relay the outbox is: the relaying general, the commander, the number of generals and the
    /// round.
    pub fn shape(&self) -> Shape
        ensures same { result ≡ self.now.relay.shape }
        ensures within { IsShape result }
    {
        self.shape
    }
}
