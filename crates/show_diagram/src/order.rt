//! Sorts a list of the messages that a lieutenant received. If there are more than 24, the lies come first: messages
//! that a faithful general would not send. Functions that return a `Result` fail only if memory runs out.
ghost use Rattle.std.specs.Prelude.{◌≡◌, ◌++◌, ◌∷◌, [], cond, filter, not, IfOk, OnOk};
ghost use Rattle.std.specs.List.{list_any};
ghost use Rattle.show_diagram.specs.Lists.{is_in, is_lie, teller};
ghost use Rattle.show_diagram.specs.Order.{arranged, firsts, is_by_one, lies_first, most_rows};

use crate::told_order::Telling;
use std::alloc::{AllocError, Global};

/// The largest number of rows that are drawn of a list. The diagram says how many more rows the list has.
pub const MOST: usize = 24;

/// Returns the messages of a list in the order in which their rows are drawn. A list of at most `MOST` messages is
/// returned as it is. A longer one begins with the first lie of each sender, followed by the other lies and the
/// honest messages. A lie is a message that a faithful general would not send.
///
/// # Errors
///
/// Fails if there is no memory for the list.
pub(crate) fn arranged(alloc: Global, list: Vec<Telling>) -> Result<Vec<Telling>, AllocError>
    ensures { IfOk result (λ rows. rows.items ≡ arranged is_lie teller list.items) }
{
    if list.len() <= MOST {
        return Ok(list);
    }
    lies_first(alloc, list.as_slice())
}

/// Returns the messages of a list sorted: the first lie of each sender, then the other lies, then the honest
/// messages.
#[tactic(auto, unfolding(crate::specs::Order::firsts, crate::specs::Order::repeats))]
fn lies_first(alloc: Global, list: &[Telling]) -> Result<Vec<Telling>, AllocError>
    ensures { IfOk result (λ rows. rows.items ≡ lies_first is_lie teller list.now) }
{
    let lies = lies(alloc, list)?;
    let mut rows = Vec::new(alloc);
    let mut others = Vec::new(alloc);
    for lie in &lies {
        let is_other = is_by_one_of(rows.as_slice(), lie);
        push_if(&mut rows, *lie, !is_other)?;
        push_if(&mut others, *lie, is_other)?;
    }
    let mut honest = honest(alloc, list)?;
    rows.append(&mut others)?;
    rows.append(&mut honest)?;
    Ok(rows)
}

/// Checks whether one of the messages `tellings` has the same sender as `telling`.
fn is_by_one_of(tellings: &[Telling], telling: &Telling) -> bool
    ensures { result ≡ list_any (is_by_one teller telling.now) tellings.now }
{
    tellings.iter().any(|x| telling.teller == x.teller)
}

/// Returns the lies of a list: the messages that a faithful general would not send.
fn lies(alloc: Global, list: &[Telling]) -> Result<Vec<Telling>, AllocError>
    ensures { IfOk result (λ kept. kept.items ≡ filter is_lie list.now) }
{
    let mut kept = Vec::new(alloc);
    for telling in list {
        push_if(&mut kept, *telling, telling.differs)?;
    }
    Ok(kept)
}

/// Returns the honest messages of a list: those that a faithful general would send.
fn honest(alloc: Global, list: &[Telling]) -> Result<Vec<Telling>, AllocError>
    ensures { IfOk result (λ kept. kept.items ≡ filter (λ x. not (is_lie x)) list.now) }
{
    let mut kept = Vec::new(alloc);
    for telling in list {
        push_if(&mut kept, *telling, !telling.differs)?;
    }
    Ok(kept)
}

/// Returns the messages that were sent in round `round`.
pub(crate) fn told_in(
    alloc: Global,
    tellings: &[Telling],
    round: usize,
) -> Result<Vec<Telling>, AllocError>
    ensures { IfOk result (λ kept. kept.items ≡ filter (is_in round) tellings.now) }
{
    let mut kept = Vec::new(alloc);
    for telling in tellings {
        push_if(&mut kept, *telling, telling.round == round)?;
    }
    Ok(kept)
}

/// Appends the message if `is_wanted` is true.
fn push_if(kept: &mut Vec<Telling>, telling: Telling, is_wanted: bool) -> Result<(), AllocError>
    ensures { OnOk result (kept.new.items ≡ kept.old.items ++ cond is_wanted (telling ∷ []) []) }
{
    if is_wanted {
        kept.push(telling)?;
    }
    Ok(())
}
