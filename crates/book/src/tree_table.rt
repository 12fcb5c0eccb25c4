//! A message table that reads its messages from lieutenants' trees, without a list of them.
ghost use Rattle.std.specs.Prelude.{◌≡◌, ◌≢◌, ◌∷◌, [], Ok, length, map};
ghost use Rattle.label.specs.Labels.{others};
ghost use Rattle.label.specs.Lieutenants.{lieutenants};
ghost use Rattle.label.specs.Oral.{Messages};
ghost use Rattle.book.specs.Grammar.{table_told};
ghost use Rattle.book.specs.Table.{AreNumbersWithin};
ghost use Rattle.book.specs.Trees.{tree_of};
ghost use Rattle.book.specs.Hearing.{heard};
ghost use Rattle.book.specs.Written.{table_text};

use crate::kept_facts::recall_orders;
use crate::message_source::Heard;
use combine::Rule;
use label::Label;
use std::marker::Model;
use tree::Tree;

/// A message table made from lieutenants' trees. Contracts see it as a table with a list of messages, in the order in
/// which the table would be written.
#[derive(Drop)]
pub struct TreeTable<'a> {
    generals: u8,
    bound: u8,
    commander: u8,
    rule: Rule,
    trees: &'a [Tree],
}

impl<'a> Model for TreeTable<'a> {
    ghost use Rattle.book.specs.Table.{MessageTable};
    ghost use Rattle.book.specs.Trees.{AreTableTrees};
    ghost use Rattle.book.specs.Collected.{collected};
    ghost use Rattle.book.specs.Hearing.{heard};

    ghost Value = { MessageTable };

    ghost view = { λ t. collected (heard t.trees.now) t.generals t.bound t.commander t.rule };

    ghost invariant = { λ t. AreTableTrees t.generals t.bound t.commander
        (collected (heard t.trees.now) t.generals t.bound t.commander t.rule).messages t.trees.now };
}

/// Returns the index of a lieutenant in the ascending list of lieutenants, which does not contain the commander.
fn place(commander: u8, general: u8) -> usize
    requires { general ≢ commander }
    ensures { result ≡ length (others general (commander ∷ [])) }
{
    if commander < general {
        usize::from(general - 1)
    } else {
        usize::from(general)
    }
}

impl<'a> TreeTable<'a> {
    /// Returns the message table that `trees` contain. `trees` has one tree for each lieutenant, in ascending order,
    /// and all are filled from the same messages. The result is what `read_table` returns if the table is first written
    /// as text.
    pub fn of(
        trees: &'a [Tree],
        generals: u8,
        bound: u8,
        commander: u8,
        rule: Rule,
    ) -> TreeTable<'a>
        requires within { AreNumbersWithin generals bound commander }
        requires filled { (M : Messages)
            × (trees.now ≡ map (tree_of generals bound commander M) (lieutenants generals commander)) }
        ensures { table_told (table_text (heard trees.now) generals bound commander rule) ≡ Ok result }
    {
        recall_orders(trees);
        TreeTable {
            generals,
            bound,
            commander,
            rule,
            trees,
        }
    }
}

impl<'a> Heard for TreeTable<'a> {
    ghost seen = { λ t. t };

    fn generals(&self) -> u8 {
        self.generals
    }

    fn bound(&self) -> u8 {
        self.bound
    }

    fn commander(&self) -> u8 {
        self.commander
    }

    fn rule(&self) -> Rule {
        self.rule
    }

    fn told(&self, label: &Label, receiver: u8) -> Option<u32> {
        self.tree(receiver).value(label)
    }

    fn tree(&self, general: u8) -> &Tree {
        &self.trees[place(self.commander, general)]
    }
}
