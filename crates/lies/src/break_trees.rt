//! Fills lieutenants' trees with the messages of a break.
ghost use Rattle.std.specs.Prelude.{◌≡◌, ◌≢◌, ◌<◌, ◌≤◌, ◌+◌, ℕ, IfOk, length, map};
ghost use Rattle.book.specs.Table.{AreNumbersWithin};
ghost use Rattle.book.specs.Trees.{tree_of};
ghost use Rattle.label.specs.Lieutenants.{lieutenants};
ghost use Rattle.lies.specs.BreakTrees.{HoldsBelow, messages_of};

use crate::attempt::Attempt;
use crate::found::Found;
use crate::generals::others;
use crate::message::message;
use combine::Combine;
use label::{Label, count, unrank};
use std::alloc::{AllocError, Global};
use tree::Tree;

/// Returns the trees of all lieutenants, ascending, filled with the messages of the break.
pub(crate) fn break_trees<C: Combine>(
    alloc: Global,
    rule: &C,
    found: &Found,
    generals: u8,
    bound: u8,
    commander: u8,
) -> Result<Vec<Tree>, AllocError>
    requires { AreNumbersWithin generals bound commander }
    ensures { IfOk result (λ trees. trees.items ≡ map (tree_of generals bound commander
        (messages_of (C.combined rule.now) generals bound commander found.now)) (lieutenants generals commander)) }
{
    let mut trees = Vec::with_capacity(alloc, generals as usize)?;
    for general in 0..generals {
        if general != commander {
            trees.push(break_tree(alloc, rule, found, generals, bound, commander, general)?)?;
        }
    }
    Ok(trees)
}

/// Returns the tree of a lieutenant, filled with the messages of the break.
fn break_tree<C: Combine>(
    alloc: Global,
    rule: &C,
    found: &Found,
    generals: u8,
    bound: u8,
    commander: u8,
    general: u8,
) -> Result<Tree, AllocError>
    requires within { AreNumbersWithin generals bound commander }
    requires general { general < generals }
    requires lieutenant { general ≢ commander }
    ensures { IfOk result (λ tree. tree ≡ tree_of generals bound commander
        (messages_of (C.combined rule.now) generals bound commander found.now) general) }
{
    let mut tree = Tree::new(alloc, generals, bound, commander, general)?;
    for size in 1..bound + 2 {
        fill_level(&mut tree, rule, found, bound, size);
    }
    Ok(tree)
}

/// Fills in the messages of the break about all labels of this length, at most `bound + 1`.
fn fill_level<C: Combine>(tree: &mut Tree, rule: &C, found: &Found, bound: u8, size: u8)
    requires few { bound ≤ 4 }
    requires short { size ≤ bound + 1 }
    ensures { (n m c p : ℕ) →
        HoldsBelow (messages_of (C.combined rule.now) n bound c found.now) size n m c p tree.old →
        HoldsBelow (messages_of (C.combined rule.now) n bound c found.now) (size + 1) n m c p tree.new }
{
    let space = tree.space();
    for rank in 0..count(space, size) {
        let Ok(label) = unrank(space, size, rank) else {
            unreachable!()
        };
        let order = sent(
            rule,
            found,
            space.generals,
            bound,
            space.commander,
            &label,
            space.general,
        );
        tree.fill(&label, order);
    }
}

/// Returns the message of the break about a label that the receiver, who is not on it, receives.
#[tactic(auto, unfolding(crate::specs::PlannedMessages::planned))]
fn sent<C: Combine>(
    rule: &C,
    found: &Found,
    generals: u8,
    bound: u8,
    commander: u8,
    label: &Label,
    receiver: u8,
) -> Option<u32>
    requires few { generals ≤ 13 }
    requires commander { commander < generals }
    requires rounds { bound ≤ 4 }
    requires short { length label.now ≤ bound + 1 }
    ensures { result ≡ messages_of (C.combined rule.now) generals bound commander found.now label.now receiver }
{
    let off = others(generals, &[commander]);
    let [_, rest @ ..] = label.generals() else {
        unreachable!()
    };
    message(
        rule,
        found.traitors.as_slice(),
        bound,
        off.as_slice(),
        found.success.attempt.sender,
        &found.success.attempt.aims,
        rest,
        receiver,
    )
}
