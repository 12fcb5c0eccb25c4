//! Defines an outcome that an exploration finds, with its count of orders and an example.
ghost use Rattle.std.specs.Prelude.{◌≡◌, ◌+◌, ◌<◌, ◌^◌, IfOk, OnOk};
ghost use Rattle.campaign_orders.specs.Layers.{kept};
ghost use Rattle.campaign_orders.specs.Least.{lesser};
ghost use Rattle.world.specs.Playing.{lists_in};

use crate::order::{compared, copied};
use std::alloc::{AllocError, Global};
use std::marker::Model;

/// An outcome: the lieutenants' decisions, how many orders of accesses lead to them, and the least of these orders as
/// an example.
#[derive(Drop)]
pub struct DecisionGroup {
    decisions: Vec<u32>,
    count: u64,
    example: Vec<Vec<u8>>,
}

impl Model for DecisionGroup {
    ghost use Rattle.campaign_orders.specs.Exploring.{Finding as Found};
    ghost use Rattle.world.specs.Playing.{lists_in};

    ghost Value = { Found };

    ghost view = { λ f. record { decisions = f.decisions.items; count = f.count; example = lists_in f.example.items } };
}

impl DecisionGroup {
    /// Returns the outcome with these decisions. `order` is the only order of accesses counted so far, and the example.
    /// Fails with `AllocError` if it runs out of memory.
    pub(crate) fn first(
        alloc: Global,
        decisions: &[u32],
        order: &[Vec<u8>],
    ) -> Result<DecisionGroup, AllocError>
        ensures { IfOk result (λ finding. finding ≡ record {
          decisions = decisions.now;
          count = 1;
          example = lists_in order.now;
        }) }
    {
        Ok(DecisionGroup {
            decisions: Vec::from_slice(alloc, decisions)?,
            count: 1,
            example: copied(alloc, order)?,
        })
    }

    /// Returns the outcome with these decisions and this count of orders. `order` is the example. Fails with
    /// `AllocError` if it runs out of memory.
    pub(crate) fn of(
        alloc: Global,
        decisions: &[u32],
        count: u64,
        order: &[Vec<u8>],
    ) -> Result<DecisionGroup, AllocError>
        ensures { IfOk result (λ finding. finding ≡ record {
          decisions = decisions.now;
          count = kept count;
          example = lists_in order.now;
        }) }
    {
        Ok(DecisionGroup {
            decisions: Vec::from_slice(alloc, decisions)?,
            count,
            example: copied(alloc, order)?,
        })
    }

    /// Adds `ways` to the count of orders, which stops at 2^64 - 1. `order` is the least of the added orders, and
    /// becomes the example if it is less than the example so far. Fails with `AllocError` if it runs out of memory.
    pub(crate) fn count_more(
        &mut self,
        alloc: Global,
        ways: u64,
        order: &[Vec<u8>],
    ) -> Result<(), AllocError>
        ensures { OnOk result (self.new ≡ record self.old {
          count = kept (self.old.count + ways);
          example = lesser self.old.example (lists_in order.now);
        }) }
    {
        self.count = self.count.saturating_add(ways);
        if compared(order, self.example.as_slice()).is_lt() {
            self.example = copied(alloc, order)?;
        }
        Ok(())
    }

    /// Adds one to the count of orders.
    pub(crate) fn count_again(&mut self)
        requires { self.old.count + 1 < 2 ^ 64 }
        ensures { self.new ≡ record self.old { count = self.old.count + 1 } }
    {
        self.count += 1;
    }

    /// Returns the order on which each lieutenant decides, ascending by lieutenant.
    pub fn decisions(&self) -> &[u32]
        ensures { result.now ≡ self.now.decisions }
    {
        self.decisions.as_slice()
    }

    /// Returns how many orders of accesses lead to these decisions. A count of 2^64 - 1 means at least this number.
    pub fn count(&self) -> u64
        ensures { result ≡ self.now.count }
    {
        self.count
    }

    /// Returns an order of accesses that leads to these decisions: for each round the generals who make the accesses,
    /// in order.
    pub fn example(&self) -> &[Vec<u8>]
        ensures { lists_in result.now ≡ self.now.example }
    {
        self.example.as_slice()
    }
}
