//! Stores orders by the numbers of generals (0 to 12), with a bit mask of the numbers that have one.
ghost use Rattle.std.specs.Prelude.{◌≡◌, ◌<◌, if◌then◌else◌, ℕ, None, Some, length, replicate, slice_set, slice_index_or};
ghost use Rattle.outbox.specs.Masks.{has_bit as is_in};

use crate::mask::{has_bit, with_bit};
use std::marker::Model;

/// An order, or nothing, for each number from 0 to 12.
#[derive(Drop)]
pub(crate) struct OrdersByNumber {
    /// The order for each number. It has no meaning for a number whose bit in `put` is not set.
    orders: [u32; 13],
    /// The numbers that have an order: bit n is set for number n.
    put: u16,
}

impl Model for OrdersByNumber {
    ghost use Rattle.std.specs.Prelude.{◌≡◌, ℕ, List, Option, length};
    ghost use Rattle.outbox.specs.Masks.{kept_from};

    ghost Value = { List (Option ℕ) };

    ghost view = { λ k. kept_from k.put 0 k.orders };

    ghost invariant = { λ k. length k.orders ≡ 13 };
}

impl OrdersByNumber {
    /// Returns an array in which no number has an order.
    pub fn nothing() -> OrdersByNumber
        ensures { result ≡ replicate 13 None }
    {
        OrdersByNumber {
            orders: [0; 13],
            put: 0,
        }
    }

    /// Returns an array in which each number of the set `places` has this order, and no other number has one. Bit n of
    /// `places` means number n.
    pub fn alike(order: u32, places: u16) -> OrdersByNumber
        ensures long { length result ≡ 13 }
        ensures each { (n : ℕ) → n < 13 → slice_index_or result n None ≡ (if is_in places n then Some order else None) }
    {
        OrdersByNumber {
            orders: [order; 13],
            put: places,
        }
    }

    /// Returns the order for number `place`, or `None` if it has none.
    pub fn at(&self, place: u32) -> Option<u32>
        ensures { result ≡ slice_index_or self.now place None }
    {
        if place < 13 && has_bit(self.put, place) {
            Some(self.orders[place as usize])
        } else {
            None
        }
    }

    /// Puts an order for number `place` (0 to 12), in place of an earlier one.
    pub fn put(&mut self, place: u32, order: u32)
        requires { place < 13 }
        ensures { self.new ≡ slice_set self.old place (Some order) }
    {
        self.orders[place as usize] = order;
        self.put = with_bit(self.put, place);
    }

    /// Returns a copy of the array.
    pub fn copy(&self) -> OrdersByNumber
        ensures { result ≡ self.now }
    {
        OrdersByNumber {
            orders: self.orders,
            put: self.put,
        }
    }
}
