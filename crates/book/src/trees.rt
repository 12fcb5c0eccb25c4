//! Writes what lieutenants received, which their trees contain, as a message table.
ghost use Rattle.std.specs.Prelude.{◌≡◌, IfOk, Ok, Some, string_bytes};
ghost use Rattle.book.specs.Grammar.{table_told};
ghost use Rattle.book.specs.Table.{AreNumbersWithin, MessageTable};
ghost use Rattle.book.specs.Hearing.{heard, value_of};
ghost use Rattle.book.specs.WrittenLaws.{IsTableOf};
ghost use Rattle.book.specs.Written.{table_text};

use crate::kept_facts::recall_orders;
use crate::mark::{Marks, TableMark};
use crate::writer::write;
use combine::Rule;
use label::Label;
use std::alloc::{AllocError, Global};
use tree::Tree;

/// Returns the message table, as text, of a campaign with these numbers, this rule, and the messages that the
/// lieutenants' trees contain. It is read back as a table with the same numbers, messages and decisions. There must be
/// 2 to 13 generals. The bound must be at most 4 and at most `generals - 2`, and the commander one of the generals.
///
/// # Errors
///
/// `AllocError` if out of memory.
pub fn table_of(
    alloc: Global,
    trees: &[Tree],
    generals: u8,
    bound: u8,
    commander: u8,
    rule: Rule,
) -> Result<String, AllocError>
    requires { AreNumbersWithin generals bound commander }
    ensures written { IfOk result
        (λ text. string_bytes text ≡ table_text (heard trees.now) generals bound commander rule) }
    ensures read { IfOk result (λ text. (t : MessageTable) × (table_told (string_bytes text) ≡ Ok t)
        × IsTableOf (heard trees.now) generals bound commander rule t) }
{
    recall_orders(trees);
    write(
        alloc,
        &TreeMarks { trees },
        generals,
        bound,
        commander,
        rule,
    )
}

/// The marks of a message table that is made from lieutenants' trees: for each label, the order that the receiver's
/// tree contains.
#[derive(Clone, Copy)]
struct TreeMarks<'a> {
    trees: &'a [Tree],
}

impl<'a> Marks for TreeMarks<'a> {
    ghost use Rattle.book.specs.Hearing.{heard};
    ghost use Rattle.book.specs.Written.{telling};

    ghost marking = { λ t. telling (heard t.trees.now) };

    fn mark(&self, label: &Label, receiver: u8) -> TableMark {
        match heard(self.trees, label, receiver) {
            Some(order) => TableMark::Order(order),
            None => TableMark::Silence,
        }
    }
}

/// Returns the order that the receiver's tree contains for the label. Returns `None` if it contains none, or the
/// receiver has no tree.
#[tactic(auto, unfolding(crate::specs::Hearing::heard))]
fn heard(trees: &[Tree], label: &Label, receiver: u8) -> Option<u32>
    ensures { result ≡ heard trees.now label.now receiver }
{
    for tree in trees {
        if tree.space().general == receiver {
            return value(tree, label);
        }
    }
    None
}

/// Returns the order that a tree contains for a label, or `None` if it contains none.
fn value(tree: &Tree, label: &Label) -> Option<u32>
    ensures { result ≡ value_of (Some tree.now) label.now }
{
    let _space = tree.space();
    tree.value(label)
}
