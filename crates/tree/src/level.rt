//! A level of a lieutenant's tree: the orders that he received for the labels of one length.
ghost use Rattle.std.specs.Prelude.{◌≡◌, ◌<◌, ◌≤◌, ◌+◌, ℕ, Bool, List, Option, Some, None, IfOk, is_some, length, map, replicate, slice_get, slice_set};
ghost use Rattle.label.specs.Oral.{order_of};
ghost use Rattle.tree.specs.LieutenantTree.{AreAnswers, run_written};

use std::alloc::{AllocError, Global};
use std::marker::Model;

/// A level of a lieutenant's tree: the orders that he received for the labels of one length. The entry at index r is
/// the order for the label of rank r, or nothing.
///
/// The orders are in one array, with RETREAT (0) where nothing was received. A second array has a flag for each label,
/// which is set if something was received.
#[derive(Drop)]
pub(crate) struct Level {
    orders: Vec<u32>,
    told: Vec<bool>,
}

impl Model for Level {
    ghost use Rattle.std.specs.Prelude.{ℕ, List, Option};

    ghost Value = { List (Option ℕ) };

    ghost use Rattle.tree.specs.Flags.{values_in, AreValues};

    ghost view = { λ a. values_in a.told.items a.orders.items };

    ghost invariant = { λ a. AreValues a.told.items a.orders.items };
}

impl Level {
    /// Makes a level for `places` labels, for which nothing was received.
    ///
    /// # Errors
    ///
    /// Fails with `AllocError` if there is not enough memory for one of the two arrays.
    pub(crate) fn new(alloc: Global, places: u32) -> Result<Level, AllocError>
        ensures { IfOk result (λ l. l ≡ replicate places None) }
    {
        let orders = vec![in alloc; 0; places as usize]?;
        let told = vec![in alloc; false; places as usize]?;
        Ok(Level { orders, told })
    }

    /// Returns the orders of the level, by the rank of their labels. An order is RETREAT (0) if nothing was received.
    pub(crate) fn orders(&self) -> &[u32]
        ensures { result.now ≡ map order_of self.now }
    {
        self.orders.as_slice()
    }

    /// Returns the order for the label of rank `place`, or `None` if nothing was received.
    pub(crate) fn value(&self, place: usize) -> Option<u32>
        requires { place < length self.now }
        ensures { slice_get self.now place ≡ Some result }
    {
        if self.told[place] {
            Some(self.orders[place])
        } else {
            None
        }
    }

    /// Stores the order for the label of rank `place`, or that nothing was received. Replaces what was stored there.
    pub(crate) fn put(&mut self, place: usize, value: Option<u32>)
        requires { place < length self.old }
        ensures { self.new ≡ slice_set self.old place value }
    {
        self.orders[place] = value.unwrap_or(0);
        self.told[place] = value.is_some();
    }

    /// Stores the orders for `count` labels, from the label of rank `first` on. The order for rank `first + i` is
    /// `value(i)`, or nothing if this is `None`.
    pub(crate) fn put_run<F: Fn(usize) -> Option<u32>>(
        &mut self,
        first: usize,
        count: usize,
        value: F,
    )
        requires within { first + count ≤ length self.old }
        requires callable { (place : ℕ) → place < count → F.pre value place }
        ensures { (values : List (Option ℕ)) × AreAnswers (F.post value) count values
            × (self.new ≡ run_written first values self.old) }
    {
        write_run(
            self.orders.as_mut_slice(),
            self.told.as_mut_slice(),
            first,
            count,
            value,
        );
    }

    /// Removes all orders from the level: nothing was received for any label.
    pub(crate) fn clear(&mut self)
        ensures { self.new ≡ replicate (length self.old) None }
    {
        self.orders.fill(0);
        self.told.fill(false);
    }
}

/// Stores `count` orders in the two arrays of a level, from index `first` on. The order at `first + i` is `value(i)`.
/// If this is `None`, it is RETREAT (0) and its flag in `told` is not set.
fn write_run<F: Fn(usize) -> Option<u32>>(
    orders: &mut [u32],
    told: &mut [bool],
    first: usize,
    count: usize,
    value: F,
)
    requires orders { first + count ≤ length orders.old }
    requires told { first + count ≤ length told.old }
    requires callable { (place : ℕ) → place < count → F.pre value place }
    ensures { (values : List (Option ℕ)) × AreAnswers (F.post value) count values
        × (orders.new ≡ run_written first (map order_of values) orders.old)
        × (told.new ≡ run_written first (map is_some values) told.old) }
{
    for place in 0..count {
        let answer = value(place);
        orders[first + place] = answer.unwrap_or(0);
        told[first + place] = answer.is_some();
    }
}
