//! Makes the empty rows of an outbox, one for each label that the general relays.
ghost use Rattle.std.specs.Prelude.{◌≡◌, ◌≢◌, ◌-◌, ◌∷◌, ◌++◌, [], map, IfOk};
ghost use Rattle.label.specs.Labels.{labels, others};
ghost use Rattle.label.specs.Relay.{IsShape, relay};
ghost use Rattle.outbox.specs.Rows.{row_for};
ghost use Rattle.outbox.specs.Receivers.{rows_under};

use crate::alike_row::UniformRow;
use crate::receivers::Receivers;
use label::{Shape, Space, count};
use std::alloc::{AllocError, Global};

/// Returns an empty row for each label that the general relays in the round, by rank. Fails with `AllocError` if it
/// runs out of memory.
pub(crate) fn rows_of(alloc: Global, shape: Shape) -> Result<Vec<UniformRow>, AllocError>
    requires { IsShape shape }
    ensures { IfOk result (λ rows. rows.items ≡ map (row_for shape) (relay shape)) }
{
    if shape.general != shape.commander {
        return lieutenant_rows(alloc, shape);
    }
    let mut rows = Vec::new(alloc);
    if shape.round == 1 {
        rows.push(UniformRow::new(hearing(shape)))?;
    }
    Ok(rows)
}

/// Returns an empty row for each label that a lieutenant relays, by rank. These are the labels as long as the number of
/// the previous round that do not have him. Fails with `AllocError` if it runs out of memory.
fn lieutenant_rows(alloc: Global, shape: Shape) -> Result<Vec<UniformRow>, AllocError>
    requires shape { IsShape shape }
    requires lieutenant { shape.general ≢ shape.commander }
    ensures { IfOk result (λ rows. rows.items
        ≡ map (row_for shape) (labels shape.generals shape.commander shape.general (shape.round - 1))) }
{
    if shape.round == 1 {
        return Ok(Vec::new(alloc));
    }
    let space = Space {
        generals: shape.generals as u8,
        commander: shape.commander as u8,
        general: shape.general as u8,
    };
    let all = count(space, (shape.round - 1) as u8);
    let mut rows = Vec::with_capacity(alloc, all as usize)?;
    push_rows(&mut rows, hearing(shape), shape.round - 2)?;
    Ok(rows)
}

/// Returns the receivers of the label that consists of the commander: all generals except him and the relaying general.
fn hearing(shape: Shape) -> Receivers
    requires { IsShape shape }
    ensures { result ≡ others shape.generals (shape.commander ∷ shape.general ∷ []) }
{
    Receivers::others(
        shape.generals as u8,
        shape.commander as u8,
        shape.general as u8,
    )
}

/// Appends an empty row for each label that extends some label by `more` generals, by rank. `hearing` are the receivers
/// of the shorter label. Fails with `AllocError` if it runs out of memory.
fn push_rows(rows: &mut Vec<UniformRow>, hearing: Receivers, more: u32) -> Result<(), AllocError>
    ensures { IfOk result (λ _. rows.new.items ≡ rows.old.items ++ rows_under more hearing) }
{
    if more == 0 {
        rows.push(UniformRow::new(hearing))?;
        return Ok(());
    }
    hearing.recall();
    let list = hearing.list();
    for general in list.as_slice() {
        push_rows(rows, hearing.without(*general), more - 1)?;
    }
    Ok(())
}
