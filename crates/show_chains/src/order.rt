//! Sorts the strokes to one receiver in a round into the rows of a list, and selects those that are drawn.
ghost use Rattle.std.specs.Prelude.{◌≡◌, ◌++◌, ◌∷◌, [], cond, IfOk, OnOk};
ghost use Rattle.std.specs.List.{list_any};
ghost use Rattle.show_diagram.specs.Lists.{has_row};
ghost use Rattle.show_diagram.specs.Order.{arranged, is_by_one, lies_first, most_rows};
ghost use Rattle.show_chains.specs.Strokes.{is_lie, numbered, sender, with_rows};

use crate::stroke::ChainStroke;
use show_diagram::order::MOST;
use show_diagram::overflow::has_row;
use std::alloc::{AllocError, Global};

/// Returns the strokes to one receiver in the order of their rows. If there are at most `MOST`, the order does not
/// change. Otherwise the first lie of each sender comes first, then the other lies, then the honest strokes. A lie is a
/// stroke that differs from what a loyal general would have done.
///
/// # Errors
///
/// Fails with `AllocError` if there is no memory for the list.
pub(crate) fn arranged(
    alloc: Global,
    list: Vec<ChainStroke>,
) -> Result<Vec<ChainStroke>, AllocError>
    ensures { IfOk result (λ rows. rows.items ≡ arranged is_lie sender list.items) }
{
    if list.len() <= MOST {
        return Ok(list);
    }
    lies_first(alloc, list)
}

/// Returns the strokes in a new order: the first lie of each sender, then the other lies, then the honest strokes. A
/// lie is a stroke that differs from what a loyal general would have done. Fails with `AllocError` if memory runs out.
#[tactic(auto, unfolding(show_diagram::specs::Order::firsts, show_diagram::specs::Order::repeats))]
fn lies_first(alloc: Global, list: Vec<ChainStroke>) -> Result<Vec<ChainStroke>, AllocError>
    ensures { IfOk result (λ rows. rows.items ≡ lies_first is_lie sender list.items) }
{
    let mut rows = Vec::new(alloc);
    let mut others = Vec::new(alloc);
    let mut honest = Vec::new(alloc);
    for stroke in list {
        push_part(&mut rows, &mut others, &mut honest, stroke)?;
    }
    rows.append(&mut others)?;
    rows.append(&mut honest)?;
    Ok(rows)
}

/// Appends a stroke to one of three lists: to `rows` if it is its sender's first lie, to `others` if it is a further
/// lie, and to `honest` if it is no lie. A lie is a stroke that differs from what a loyal general would have done.
/// Fails with `AllocError` if memory runs out.
fn push_part(
    rows: &mut Vec<ChainStroke>,
    others: &mut Vec<ChainStroke>,
    honest: &mut Vec<ChainStroke>,
    stroke: ChainStroke,
) -> Result<(), AllocError>
    ensures first { OnOk result (rows.new.items ≡ rows.old.items
        ++ cond (is_lie stroke) (cond (list_any (is_by_one sender stroke) rows.old.items) [] (stroke ∷ [])) []) }
    ensures again { OnOk result (others.new.items ≡ others.old.items
        ++ cond (is_lie stroke) (cond (list_any (is_by_one sender stroke) rows.old.items) (stroke ∷ []) []) []) }
    ensures honest { OnOk result (honest.new.items ≡ honest.old.items ++ cond (is_lie stroke) [] (stroke ∷ [])) }
{
    if !stroke.stroke().differs {
        honest.push(stroke)?;
        return Ok(());
    }
    if is_by_one_of(rows.as_slice(), &stroke) {
        others.push(stroke)?;
        return Ok(());
    }
    rows.push(stroke)?;
    Ok(())
}

/// Returns whether one of `strokes` has the same sender as `stroke`.
fn is_by_one_of(strokes: &[ChainStroke], stroke: &ChainStroke) -> bool
    ensures { result ≡ list_any (is_by_one sender stroke.now) strokes.now }
{
    let teller = stroke.stroke().teller;
    strokes.iter().any(|x| teller == x.stroke().teller)
}

/// Returns the strokes of a list with their row numbers, which are counted from 0. Fails with `AllocError` if memory
/// runs out.
pub(crate) fn numbered(
    alloc: Global,
    list: Vec<ChainStroke>,
) -> Result<Vec<ChainStroke>, AllocError>
    ensures { IfOk result (λ rows. rows.items ≡ numbered list.items 0) }
{
    let mut rows = Vec::with_capacity(alloc, list.len())?;
    for stroke in list {
        let row = rows.as_slice().len();
        rows.push(stroke.in_row(row))?;
    }
    Ok(rows)
}

/// Returns those strokes whose rows are drawn. A long list has rows for which there is no room. Fails with `AllocError`
/// if memory runs out.
pub(crate) fn with_rows(
    alloc: Global,
    list: Vec<ChainStroke>,
) -> Result<Vec<ChainStroke>, AllocError>
    ensures { IfOk result (λ drawn. drawn.items ≡ with_rows list.items) }
{
    let mut drawn = Vec::new(alloc);
    for stroke in list {
        push_drawn(&mut drawn, stroke)?;
    }
    Ok(drawn)
}

/// Appends a stroke if its row is drawn. Fails with `AllocError` if memory runs out.
fn push_drawn(drawn: &mut Vec<ChainStroke>, stroke: ChainStroke) -> Result<(), AllocError>
    ensures { OnOk result (drawn.new.items ≡ drawn.old.items ++ cond (has_row stroke.stroke) (stroke ∷ []) []) }
{
    if has_row(stroke.stroke()) {
        drawn.push(stroke)?;
    }
    Ok(())
}
