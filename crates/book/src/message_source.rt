//! The trait of message tables: a campaign's numbers, its rule, and what each lieutenant received.

use combine::Rule;
use label::Label;
use tree::Tree;

/// A message table: a campaign's numbers, the rule by which orders are combined, and what each lieutenant received.
pub trait Heard {
    ghost use Rattle.std.specs.Prelude.{◌≡◌, ◌≢◌, ◌<◌, true};
    ghost use Rattle.book.specs.Grammar.{is_place};
    ghost use Rattle.book.specs.Table.{AreNumbersWithin, MessageTable, told};
    ghost use Rattle.book.specs.Trees.{tree_of};

    // The table that contains the same messages.
    ghost seen: { Self → MessageTable };

    /// Returns the number of generals, 2 to 13.
    fn generals(&self) -> u8
        ensures value { result ≡ (seen self.now).generals }
        ensures within { AreNumbersWithin (seen self.now).generals (seen self.now).bound (seen self.now).commander };

    /// Returns the bound, 0 to 4: the greatest number of traitors that the campaign provides for.
    fn bound(&self) -> u8
        ensures value { result ≡ (seen self.now).bound }
        ensures within { AreNumbersWithin (seen self.now).generals (seen self.now).bound (seen self.now).commander };

    /// Returns the commander's number.
    fn commander(&self) -> u8
        ensures value { result ≡ (seen self.now).commander }
        ensures within { AreNumbersWithin (seen self.now).generals (seen self.now).bound (seen self.now).commander };

    /// Returns the rule by which orders are combined.
    fn rule(&self) -> Rule
        ensures { result ≡ (seen self.now).rule };

    /// Returns the order that `receiver` received for the label, or `None` if he received none. He must not be on the
    /// label.
    fn told(&self, label: &Label, receiver: u8) -> Option<u32>
        requires { is_place (seen self.now) label.now receiver ≡ true }
        ensures { result ≡ told (seen self.now).messages label.now receiver };

    /// Returns a reference to the tree of a lieutenant, which contains the orders that he received.
    fn tree(&self, general: u8) -> &Tree
        requires general { general < (seen self.now).generals }
        requires lieutenant { general ≢ (seen self.now).commander }
        ensures { result.now ≡ tree_of (seen self.now).generals (seen self.now).bound (seen self.now).commander
            (told (seen self.now).messages) general };
}
