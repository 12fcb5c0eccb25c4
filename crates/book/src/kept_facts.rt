//! Functions that do nothing. The contract of each gives the caller's proof a fact about lieutenants' trees that their
//! types guarantee.
ghost use Rattle.std.specs.Prelude.{◌≡◌, ◌<◌, ◌^◌, ℕ, All, Some, slice_get};
ghost use Rattle.book.specs.Hearing.{heard};
ghost use Rattle.book.specs.WrittenLaws.{AreOrders};
ghost use Rattle.tree.specs.LieutenantTree.{level_of};

use tree::Tree;

/// Does nothing. Its contract states that the orders in these trees have at most 32 bits.
pub fn recall_orders(trees: &[Tree])
    ensures { AreOrders (heard trees.now) }
{
    for tree in trees {
        recall_tree(tree);
    }
}

/// Does nothing. Its contract states that the orders in a tree have at most 32 bits.
fn recall_tree(tree: &Tree)
    ensures { (k i v : ℕ) → slice_get (level_of tree.now k) i ≡ Some (Some v) → v < 2 ^ 32 }
{
    let _space = tree.space();
    for size in 0..tree.bound() + 1 {
        recall_level(tree.level(size + 1));
    }
}

/// Does nothing. Its contract states that the orders in a level of a tree have at most 32 bits.
fn recall_level(level: &[u32])
    ensures { All (λ order. order < 2 ^ 32) level.now }
{
    let _level = level;
}
