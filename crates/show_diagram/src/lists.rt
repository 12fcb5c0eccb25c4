//! Builds the lists of what a lieutenant received. There is one list for each round, and one row for each stroke
//! (equal messages from one general). Functions that return a `Result` fail only if memory runs out.
ghost use Rattle.std.specs.Prelude.{ℕ, ◌≡◌, ◌+◌, ◌<◌, ◌^◌, ◌++◌, [], false, IfOk, OnOk, count_by, filter};
ghost use Rattle.show_diagram.specs.Lists.{count_of, is_in, is_lie, is_same, lists_of, stroke_of, strokes_from, teller};
ghost use Rattle.show_diagram.specs.Order.{arranged, firsts};
ghost use Rattle.show_diagram.specs.declared.told_order.Telling.{Telling};

use crate::order::{arranged, told_in};
use crate::stroke::Stroke;
use crate::told_order::Telling;
use std::alloc::{AllocError, Global};
use std::collections::{HashMap, HashSet};

/// Appends the strokes that show what a lieutenant received in the first `rounds` rounds, sorted by round. Equal
/// messages of a round make one stroke.
///
/// # Errors
///
/// Fails if there is no memory.
pub(crate) fn push_lists(
    alloc: Global,
    strokes: &mut Vec<Stroke>,
    receiver: u8,
    tellings: &[Telling],
    rounds: u8,
) -> Result<(), AllocError>
    ensures { OnOk result (strokes.new.items ≡ strokes.old.items ++ lists_of receiver tellings.now rounds) }
{
    let counts = counted(alloc, tellings)?;
    let things = told_once(alloc, tellings)?;
    for before in 0..rounds {
        let round = usize::from(before) + 1;
        push_list(alloc, strokes, receiver, &counts, things.as_slice(), round)?;
    }
    Ok(())
}

/// Appends the strokes of a lieutenant's list for round `round`. `things` are the messages to him without
/// repetitions, and `counts` says for how many labels each was sent.
fn push_list(
    alloc: Global,
    strokes: &mut Vec<Stroke>,
    receiver: u8,
    counts: &HashMap<Telling, usize>,
    things: &[Telling],
    round: usize,
) -> Result<(), AllocError>
    ensures { OnOk result (strokes.new.items ≡ strokes.old.items
        ++ strokes_from receiver (count_of counts.now) 0 (arranged is_lie teller (filter (is_in round) things.now))) }
{
    let list = arranged(alloc, told_in(alloc, things, round)?)?;
    push_rows(strokes, receiver, counts, list.as_slice())
}

/// Appends a stroke for each message of `list`, with rows numbered from 0. `counts` says for how many labels each was
/// sent.
#[tactic(auto, unfolding(crate::specs::Lists::strokes_from))]
fn push_rows(
    strokes: &mut Vec<Stroke>,
    receiver: u8,
    counts: &HashMap<Telling, usize>,
    list: &[Telling],
) -> Result<(), AllocError>
    ensures { OnOk result (strokes.new.items ≡ strokes.old.items
        ++ strokes_from receiver (count_of counts.now) 0 list.now) }
{
    for (row, telling) in list.iter().enumerate() {
        let labels = counts.get(telling).copied().unwrap_or(0);
        strokes.push(stroke_of(receiver, telling, labels, row))?;
    }
    Ok(())
}

/// Returns the stroke that shows a message sent for `labels` labels, as row `row` of the receiver's list.
fn stroke_of(receiver: u8, telling: &Telling, labels: usize, row: usize) -> Stroke
    ensures { result ≡ stroke_of receiver telling.now labels row }
{
    Stroke {
        round: telling.round,
        teller: telling.teller,
        receiver,
        told: telling.told,
        differs: telling.differs,
        labels,
        row,
    }
}

/// Returns the messages without repetitions, in the order of their first occurrence.
#[tactic(auto, unfolding(crate::specs::Order::firsts))]
fn told_once(alloc: Global, tellings: &[Telling]) -> Result<Vec<Telling>, AllocError>
    ensures { IfOk result (λ things. things.items ≡ firsts is_same [] tellings.now) }
{
    let mut seen = HashSet::new(alloc);
    let mut things = Vec::new(alloc);
    for telling in tellings {
        if seen.insert(*telling)? {
            things.push(*telling)?;
        }
    }
    Ok(things)
}

/// Returns for each message how many labels it was sent for, which is how often it occurs in `tellings`.
fn counted(alloc: Global, tellings: &[Telling]) -> Result<HashMap<Telling, usize>, AllocError>
    ensures { IfOk result (λ counts. (q : Telling) → count_of counts q ≡ count_by (is_same q) tellings.now) }
{
    let mut counts = HashMap::new(alloc);
    for telling in tellings {
        count_one(&mut counts, telling)?;
    }
    Ok(counts)
}

/// Adds one to the number of labels for which `telling` was sent. A message that is not in `counts` yet counts as 0.
fn count_one(counts: &mut HashMap<Telling, usize>, telling: &Telling) -> Result<(), AllocError>
    requires { count_of counts.old telling.now + 1 < 2 ^ 64 }
    ensures counted { OnOk result (count_of counts.new telling.now ≡ count_of counts.old telling.now + 1) }
    ensures others { OnOk result ((q : Telling) → is_same telling.now q ≡ false
        → count_of counts.new q ≡ count_of counts.old q) }
{
    let labels = counts.get(telling).copied().unwrap_or(0);
    counts.insert(*telling, labels + 1)?;
    Ok(())
}
