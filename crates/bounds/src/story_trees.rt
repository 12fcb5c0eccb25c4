//! Fills the trees of lieutenants with the messages of a story.
ghost use Rattle.std.specs.Prelude.{◌≡◌, ◌≢◌, ◌<◌, ◌+◌, ℕ, IfOk, map};
ghost use Rattle.label.specs.Lieutenants.{lieutenants};
ghost use Rattle.book.specs.Table.{AreNumbersWithin};
ghost use Rattle.book.specs.Trees.{tree_of};
ghost use Rattle.bounds.specs.Stories.{story_messages};
ghost use Rattle.bounds.specs.StoryTrees.{HoldsBelow};

use crate::story::Story;
use label::{count, unrank};
use std::alloc::{AllocError, Global};
use tree::Tree;

/// Returns the trees of all lieutenants in ascending order, filled with the messages of the story.
pub(crate) fn story_trees(
    alloc: Global,
    story: Story,
    generals: u8,
    bound: u8,
    commander: u8,
) -> Result<Vec<Tree>, AllocError>
    requires { AreNumbersWithin generals bound commander }
    ensures { IfOk result (λ trees. trees.items
        ≡ map (tree_of generals bound commander (story_messages story commander)) (lieutenants generals commander)) }
{
    let mut trees = Vec::with_capacity(alloc, generals as usize)?;
    for general in 0..generals {
        if general != commander {
            trees.push(story_tree(alloc, story, generals, bound, commander, general)?)?;
        }
    }
    Ok(trees)
}

/// Returns the tree of the lieutenant `general`, filled with the messages of the story.
pub(crate) fn story_tree(
    alloc: Global,
    story: Story,
    generals: u8,
    bound: u8,
    commander: u8,
    general: u8,
) -> Result<Tree, AllocError>
    requires within { AreNumbersWithin generals bound commander }
    requires general { general < generals }
    requires lieutenant { general ≢ commander }
    ensures { IfOk result (λ tree. tree
        ≡ tree_of generals bound commander (story_messages story commander) general) }
{
    let mut tree = Tree::new(alloc, generals, bound, commander, general)?;
    for size in 1..bound + 2 {
        fill_level(&mut tree, story, size);
    }
    Ok(tree)
}

/// Fills in the messages of the story for all labels of `size` generals.
fn fill_level(tree: &mut Tree, story: Story, size: u8)
    ensures { (n m c p : ℕ) → HoldsBelow story size n m c p tree.old → HoldsBelow story (size + 1) n m c p tree.new }
{
    let space = tree.space();
    for rank in 0..count(space, size) {
        let Ok(label) = unrank(space, size, rank) else {
            unreachable!()
        };
        let order = story.sent(space.commander, &label, space.general);
        tree.fill(&label, Some(order));
    }
}
