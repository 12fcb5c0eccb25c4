//! Finds the first of three stories (campaigns with too few generals) in which a rule breaks IC1 or IC2.
ghost use Rattle.std.specs.Prelude.{◌≡◌, ◌≢◌, ◌<◌, ◌*◌, IfOk, IfErr, None, Some, true, false};
ghost use Rattle.book.specs.Grammar.{is_within};
ghost use Rattle.book.specs.Table.{AreNumbersWithin};
ghost use Rattle.bounds.specs.Refutation.{AgreesIn, IsFirstBroken, no_memory, refusal_of};

use crate::refusal::RefutationError;
use crate::story::Story;
use crate::story_trees::story_tree;
use book::{TableError, TableFault};
use combine::Rule;
use resolve::resolve;
use std::alloc::{AllocError, Global};

/// Returns the first story in which the decisions of OM(m) with this rule break IC1 or IC2. `bound` is m. By the law
/// `stories_break`, there is such a story.
///
/// # Errors
///
/// Fails with `Table` if the numbers are out of the limits of a message table, or there is no memory for a tree. Fails
/// with `Enough` if there are more than 3m generals.
pub fn first_broken(
    alloc: Global,
    generals: u8,
    bound: u8,
    commander: u8,
    rule: Rule,
) -> Result<Story, RefutationError>
    ensures first { IfOk result (IsFirstBroken rule generals commander bound) }
    ensures given { IfOk result (λ _. refusal_of generals bound commander ≡ None) }
    ensures refused { IfErr result (λ e. e ≢ no_memory → refusal_of generals bound commander ≡ Some e) }
{
    check_numbers(generals, bound, commander)?;
    if is_broken(alloc, Story::First, generals, bound, commander, rule)? {
        return Ok(Story::First);
    }
    if is_broken(alloc, Story::Second, generals, bound, commander, rule)? {
        return Ok(Story::Second);
    }
    Ok(Story::Third)
}

/// Checks that the numbers are within the limits of a message table, and that there are at most 3m generals. Fails
/// with `Table` if they are out of the limits, and with `Enough` if there are more generals.
pub(crate) fn check_numbers(generals: u8, bound: u8, commander: u8) -> Result<(), RefutationError>
    ensures given { IfOk result (λ _. refusal_of generals bound commander ≡ None) }
    ensures refused { IfErr result (λ e. (e ≢ no_memory) × (refusal_of generals bound commander ≡ Some e)) }
{
    if !is_within(generals, bound, commander) {
        return Err(RefutationError::Table(TableError::At(TableFault::Range, 1)));
    }
    if 3 * bound < generals {
        return Err(RefutationError::Enough);
    }
    Ok(())
}

/// Checks whether the numbers are within the limits of a message table: at most 13 generals, a bound of at most 4 and
/// at most 2 less than their number, and one of them as the commander.
fn is_within(generals: u8, bound: u8, commander: u8) -> bool
    ensures { result ≡ is_within generals bound commander }
{
    generals <= 13 && bound <= 4 && bound + 2 <= generals && commander < generals
}

/// Checks whether the decisions of OM(m) with this rule break IC1 or IC2 in the story. `bound` is m.
fn is_broken(
    alloc: Global,
    story: Story,
    generals: u8,
    bound: u8,
    commander: u8,
    rule: Rule,
) -> Result<bool, AllocError>
    requires { AreNumbersWithin generals bound commander }
    ensures broken { IfOk result (λ is_broken. is_broken ≡ true → ¬ AgreesIn rule generals commander bound story) }
    ensures kept { IfOk result (λ is_broken. is_broken ≡ false → AgreesIn rule generals commander bound story) }
{
    let mut expected = story.obeyed_order(commander);
    for general in 0..generals {
        if general != commander && !story.is_traitor(commander, general) {
            let tree = story_tree(alloc, story, generals, bound, commander, general)?;
            let decision = resolve(&tree, &rule);
            match expected {
                Some(order) if order != decision => return Ok(true),
                _ => expected = Some(decision),
            }
        }
    }
    Ok(false)
}
