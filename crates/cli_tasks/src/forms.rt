//! Writes the message table of a campaign with given numbers: an empty one, or one that is already filled in
//! (subcommand `table`).
ghost use Rattle.std.specs.Prelude.{◌≢◌, IfOk, IfErr, OnOk, string_bytes};
ghost use Rattle.book.specs.Answers.{IsFilled, IsFormOf};
ghost use Rattle.cli_tasks.specs.TableRefusals.{RefusesFilled, RefusesForm};
ghost use Rattle.cli_tasks.specs.Strangers.{KnowsLiar};
ghost use Rattle.cli_tasks.specs.declared.refusal.InputRefusal.TheVariants.{Memory};

use crate::refusal::InputRefusal;
use crate::strangers::know_all;
use cli_words::Filling;
use std::alloc::Global;

/// Returns a message table to fill in, with a question mark for each order. The words `generals`, `bound` and
/// `commander` give the number of generals, the bound m on the traitors and the commander.
///
/// # Errors
///
/// Fails with `Table` if a table with these numbers would have a fault in its first line, and with `Memory` if memory
/// runs out.
pub fn formed(
    alloc: Global,
    generals: &str,
    bound: &str,
    commander: &str,
) -> Result<String, InputRefusal>
    ensures formed { IfOk result (λ text. IsFormOf generals.now bound.now commander.now (string_bytes text)) }
    ensures refused { IfErr result (RefusesForm generals.now bound.now commander.now) }
{
    Ok(book::formed(alloc, generals, bound, commander)?)
}

/// Returns a message table in which every general sends the order of `filling`. The words `generals`, `bound` and
/// `commander` give the number of generals, the bound m on the traitors and the commander. If `filling` names a liar,
/// the orders that he sends are question marks, to be filled in.
///
/// # Errors
///
/// Fails with `Table` if a table with these numbers would have a fault in its first line, with `Stranger` if the liar
/// is not one of the generals, and with `Memory` if memory runs out.
#[tactic(auto, using(crate::proofs::StrangerLemmas::unfilled))]
pub fn filled(
    alloc: Global,
    generals: &str,
    bound: &str,
    commander: &str,
    filling: Filling,
) -> Result<String, InputRefusal>
    ensures known { OnOk result (KnowsLiar generals.now bound.now commander.now filling.liar) }
    ensures filled { IfOk result
        (λ text. IsFilled generals.now bound.now commander.now filling.order filling.liar (string_bytes text)) }
    ensures refused { IfErr result (RefusesFilled generals.now bound.now commander.now filling.liar) }
{
    let Filling { order, liar } = filling;
    know_liar(generals, bound, commander, liar)?;
    Ok(book::filled(alloc, generals, bound, commander, order, liar)?)
}

/// Checks that the words are the numbers of a campaign, and that `liar` is one of its generals if there is a liar.
/// Fails with `Table` or with `Stranger`, and never with `Memory`.
#[tactic(auto, using(crate::proofs::StrangerLemmas::liar_known))]
fn know_liar(
    generals: &str,
    bound: &str,
    commander: &str,
    liar: Option<u8>,
) -> Result<(), InputRefusal>
    ensures known { OnOk result (KnowsLiar generals.now bound.now commander.now liar) }
    ensures refused { IfErr result (RefusesFilled generals.now bound.now commander.now liar) }
    ensures memory { IfErr result (λ refusal. refusal ≢ Memory) }
{
    let all = book::generals_in(generals, bound, commander)?;
    match liar {
        Some(liar) => know_all(all, &[liar]),
        None => know_all(all, &[]),
    }
}
