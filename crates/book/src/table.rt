//! The message table: a campaign's numbers, its rule and its messages, with a tree for each lieutenant.
ghost use Rattle.std.specs.Prelude.{◌≡◌, ◌≢◌, ◌<◌, ◌≤◌, [], ◌∷◌, true, false, length, IfOk};
ghost use Rattle.std.specs.List.{list_any};
ghost use Rattle.label.specs.Labels.{others};
ghost use Rattle.book.specs.Table.{AreNumbersWithin, is_about, told};
ghost use Rattle.book.specs.Grammar.{is_place, with_message};
ghost use Rattle.book.specs.Trees.{tree_of};

use crate::message::Message;
use crate::message_source::Heard;
use combine::Rule;
use label::Label;
use std::alloc::{AllocError, Global};
use std::marker::Model;
use tree::Tree;

/// A message table: the numbers of a campaign, the rule by which orders are combined, and the messages.
///
/// It also has a tree for each lieutenant, filled from the messages, in which the order that he received for a label is
/// found by the label's rank.
#[derive(Drop)]
pub struct Table {
    generals: u8,
    bound: u8,
    commander: u8,
    rule: Rule,
    messages: Vec<Message>,
    trees: Vec<Tree>,
}

impl Model for Table {
    ghost use Rattle.book.specs.Table.{MessageTable};

    ghost Value = { MessageTable };

    ghost use Rattle.book.specs.Trees.{AreTableTrees};

    ghost view = { λ t. record {
      generals = t.generals;
      bound = t.bound;
      commander = t.commander;
      rule = t.rule;
      messages = t.messages.items;
    } };

    ghost invariant = { λ t. AreTableTrees t.generals t.bound t.commander t.messages.items t.trees.items };
}

/// Returns the index of a lieutenant in the ascending list of lieutenants, which does not contain the commander.
fn place(commander: u8, general: u8) -> usize
    requires { general ≢ commander }
    ensures { result ≡ length (others general (commander ∷ [])) }
{
    if commander < general {
        usize::from(general - 1)
    } else {
        usize::from(general)
    }
}

impl Table {
    /// Returns the table of a campaign with these numbers and this rule, without messages. Fails with `AllocError` if
    /// out of memory.
    pub(crate) fn open(
        alloc: Global,
        generals: u8,
        bound: u8,
        commander: u8,
        rule: Rule,
    ) -> Result<Table, AllocError>
        requires { AreNumbersWithin generals bound commander }
        ensures { IfOk result (λ t. t ≡ record {
          generals = generals;
          bound = bound;
          commander = commander;
          rule = rule;
          messages = [];
        }) }
    {
        let mut trees = Vec::with_capacity(alloc, generals as usize)?;
        for general in 0..generals {
            if general != commander {
                trees.push(Tree::new(alloc, generals, bound, commander, general)?)?;
            }
        }
        Ok(Table {
            generals,
            bound,
            commander,
            rule,
            messages: Vec::new(alloc),
            trees,
        })
    }

    /// Returns the table with `message` appended. The table must not have a message with the same label and receiver
    /// yet. Fails with `AllocError` if out of memory.
    pub(crate) fn with(mut self, message: Message) -> Result<Table, AllocError>
        requires place { is_place self message.label message.receiver ≡ true }
        requires fresh { list_any (is_about message.label message.receiver) self.messages ≡ false }
        ensures { IfOk result (λ t. t ≡ with_message self message) }
    {
        let place = place(self.commander, message.receiver);
        self.trees[place].fill(&message.label, Some(message.order));
        self.messages.push(message)?;
        Ok(self)
    }

    /// Returns a reference to the tree of a lieutenant, which contains the orders that he received.
    pub(crate) fn tree(&self, general: u8) -> &Tree
        requires general { general < self.now.generals }
        requires lieutenant { general ≢ self.now.commander }
        ensures { result.now ≡ tree_of self.now.generals self.now.bound self.now.commander
            (told self.now.messages) general }
    {
        &self.trees[place(self.commander, general)]
    }

    /// Returns the order that `receiver` received for the label, or `None` if he received none. He must not be on the
    /// label.
    pub fn told(&self, label: &Label, receiver: u8) -> Option<u32>
        requires { is_place self.now label.now receiver ≡ true }
        ensures { result ≡ told self.now.messages label.now receiver }
    {
        self.tree(receiver).value(label)
    }

    /// Returns the number of generals, 2 to 13.
    pub fn generals(&self) -> u8
        ensures value { result ≡ self.now.generals }
        ensures within { AreNumbersWithin self.now.generals self.now.bound self.now.commander }
    {
        self.generals
    }

    /// Returns the bound, 0 to 4: the greatest number of traitors that the campaign provides for.
    pub fn bound(&self) -> u8
        ensures value { result ≡ self.now.bound }
        ensures within { AreNumbersWithin self.now.generals self.now.bound self.now.commander }
    {
        self.bound
    }

    /// Returns the commander's number.
    pub fn commander(&self) -> u8
        ensures value { result ≡ self.now.commander }
        ensures within { AreNumbersWithin self.now.generals self.now.bound self.now.commander }
    {
        self.commander
    }

    /// Returns the rule by which orders are combined.
    pub fn rule(&self) -> Rule
        ensures { result ≡ self.now.rule }
    {
        self.rule
    }

    /// Returns the messages in the order of the text's lines.
    pub fn messages(&self) -> &[Message]
        ensures { result.now ≡ self.now.messages }
    {
        self.messages.as_slice()
    }
}

impl Heard for Table {
    ghost seen = { λ t. t };

    fn generals(&self) -> u8 {
        Table::generals(self)
    }

    fn bound(&self) -> u8 {
        Table::bound(self)
    }

    fn commander(&self) -> u8 {
        Table::commander(self)
    }

    fn rule(&self) -> Rule {
        Table::rule(self)
    }

    fn told(&self, label: &Label, receiver: u8) -> Option<u32> {
        Table::told(self, label, receiver)
    }

    fn tree(&self, general: u8) -> &Tree {
        Table::tree(self, general)
    }
}
