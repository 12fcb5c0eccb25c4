//! Writes the message table of a story.
ghost use Rattle.std.specs.Prelude.{◌≡◌, ◌≢◌, IfOk, IfErr, None, Some, string_bytes};
ghost use Rattle.bounds.specs.Refutation.{IsStoryTable, no_memory, refusal_of};

use crate::refusal::RefutationError;
use crate::refutation::check_numbers;
use crate::story::Story;
use crate::story_trees::story_trees;
use book::table_of;
use combine::Rule;
use std::alloc::Global;

/// Returns the message table of a story, with `rule` as its decision rule. `bound` is m. In the story at most m
/// generals are traitors, and all others are faithful.
///
/// # Errors
///
/// Fails with `Table` if the numbers are out of the limits of a message table, or there is no memory for it. Fails with
/// `Enough` if there are more than 3m generals.
pub fn story_table(
    alloc: Global,
    story: Story,
    generals: u8,
    bound: u8,
    commander: u8,
    rule: Rule,
) -> Result<String, RefutationError>
    ensures table { IfOk result (λ text. IsStoryTable rule generals commander bound story (string_bytes text)) }
    ensures given { IfOk result (λ _. refusal_of generals bound commander ≡ None) }
    ensures refused { IfErr result (λ e. e ≢ no_memory → refusal_of generals bound commander ≡ Some e) }
{
    check_numbers(generals, bound, commander)?;
    let trees = story_trees(alloc, story, generals, bound, commander)?;
    Ok(table_of(alloc, trees.as_slice(), generals, bound, commander, rule)?)
}
