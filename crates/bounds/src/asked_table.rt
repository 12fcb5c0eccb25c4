//! Writes a message table that breaks a decision rule, for numbers of a campaign that are given as text.
ghost use Rattle.std.specs.Prelude.{◌≡◌, ◌≢◌, IfOk, IfErr, Err, Some, string_bytes};
ghost use Rattle.combine.specs.Names.{default_rule};
ghost use Rattle.book.specs.Grammar.{opened};
ghost use Rattle.book.specs.Numbers.{numbers_in};
ghost use Rattle.book.specs.declared.fault.TableError.TheVariants.{Memory};
ghost use Rattle.bounds.specs.Refutation.{Refutes, no_memory, refusal_in};

use crate::refusal::RefutationError;
use crate::refutation::first_broken;
use crate::story::Story;
use crate::table_writer::story_table;
use book::{TableError, TableFault};
use combine::Rule;
use std::alloc::Global;
use text::decimal;

/// Returns the message table of a story. The stories are three campaigns with too few generals, and every decision
/// rule breaks IC1 or IC2 in at least one of them. The result is for the story `asked` or, if that is `None`, for the
/// first in which `rule` breaks IC1 or IC2. The texts `generals`, `bound` and `commander` are decimal numbers, and
/// `bound` is m.
///
/// # Errors
///
/// Fails with `Table` and the fault that the first line of a message table with these numbers has, or if memory runs
/// out. Fails with `Enough` if there are more than 3m generals.
pub fn refuted(
    alloc: Global,
    generals: &str,
    bound: &str,
    commander: &str,
    rule: Rule,
    asked: Option<Story>,
) -> Result<String, RefutationError>
    ensures refutes { IfOk result
        (λ text. Refutes generals.now bound.now commander.now rule asked (string_bytes text)) }
    ensures refused { IfErr result (λ e. e ≢ no_memory →
        refusal_in (numbers_in generals.now bound.now commander.now) ≡ Some e) }
{
    let (generals, bound, commander) = numbers(generals, bound, commander)?;
    let story = match asked {
        Some(story) => story,
        None => first_broken(alloc, generals, bound, commander, rule)?,
    };
    story_table(alloc, story, generals, bound, commander, rule)
}

/// Parses the numbers of a campaign, and checks them as the first line of a message table is checked.
///
/// # Errors
///
/// Fails with `Line` if a text is not a decimal number, and with `Range` if the numbers are out of their limits.
/// There are at most 13 generals, the bound is at most 4 and at most 2 less than their number, and the commander is
/// one of them. Both faults are at line 1.
#[tactic(auto, unfolding(book::specs::Numbers::numbers_in))]
fn numbers(generals: &str, bound: &str, commander: &str) -> Result<(u8, u8, u8), TableError>
    ensures told { IfOk result
        (λ n. numbers_in generals.now bound.now commander.now ≡ Some (n.0, n.1, n.2, default_rule)) }
    ensures refused { IfErr result (λ e. (e ≢ Memory)
        × (opened (numbers_in generals.now bound.now commander.now) ≡ Err e)) }
{
    let (Some(generals), Some(bound), Some(commander)) = (
        decimal(generals.as_bytes()),
        decimal(bound.as_bytes()),
        decimal(commander.as_bytes()),
    ) else {
        return Err(TableError::At(TableFault::Line, 1));
    };
    if generals > 13 || bound > 4 || bound + 2 > generals || commander >= generals {
        return Err(TableError::At(TableFault::Range, 1));
    }
    Ok((generals as u8, bound as u8, commander as u8))
}
