//! Selects the strokes that a diagram has room for, 24 in each list, and writes how many others there are.
ghost use Rattle.std.specs.Prelude.{◌≡◌, ◌<◌, ◌++◌, ◌∷◌, [], codes, cond, count_by, string_bytes, IfOk, OnOk};
ghost use Rattle.std.specs.List.{list_any};
ghost use Rattle.show_diagram.specs.Shapes.{said_if, text_at, title};
ghost use Rattle.show_diagram.specs.Lists.{has_row, with_rows};
ghost use Rattle.show_diagram.specs.Left.{cut_words, is_cut, is_left, is_left_lie, is_past, left_in_full, left_words, more_at, more_of, more_told, more_top, mores, mores_in, mores_of};

use crate::layout::{column, rows_top, top_of};
use crate::order::MOST;
use crate::shapes::{
    put_group_end, put_group_start, put_text_end, put_text_start, put_title_end, put_title_start,
};
use crate::stroke::Stroke;
use board::Access;
use std::alloc::{AllocError, Global};

/// Returns the strokes that are drawn: those with a row number below `MOST`, 24.
///
/// # Errors
///
/// Fails if there is no memory for the strokes.
pub(crate) fn with_rows(alloc: Global, strokes: &[Stroke]) -> Result<Vec<Stroke>, AllocError>
    ensures { IfOk result (λ drawn. drawn.items ≡ with_rows strokes.now) }
{
    let mut drawn = Vec::new(alloc);
    for stroke in strokes {
        push_if(&mut drawn, *stroke, has_row(stroke))?;
    }
    Ok(drawn)
}

/// Checks whether a stroke is drawn: its row number in its list is below `MOST`, 24.
pub fn has_row(stroke: &Stroke) -> bool
    ensures { result ≡ has_row stroke.now }
{
    stroke.row < MOST
}

/// Checks whether at least one of these strokes is not drawn, because its row number in its list is `MOST`, 24, or
/// more.
pub fn is_cut(strokes: &[Stroke]) -> bool
    ensures { result ≡ is_cut strokes.now }
{
    strokes.iter().any(|stroke| is_past(stroke))
}

/// Checks whether a stroke is not drawn, because its row number in its list is `MOST`, 24, or more.
fn is_past(stroke: &Stroke) -> bool
    ensures { result ≡ is_past stroke.now }
{
    stroke.row >= MOST
}

/// Appends the stroke if `is_drawn` is true.
fn push_if(drawn: &mut Vec<Stroke>, stroke: Stroke, is_drawn: bool) -> Result<(), AllocError>
    ensures { OnOk result (drawn.new.items ≡ drawn.old.items ++ cond is_drawn (stroke ∷ []) []) }
{
    if is_drawn {
        drawn.push(stroke)?;
    }
    Ok(())
}

/// Appends texts that say how many strokes are left out. They are below the lists of each of the first `rounds`
/// rounds. `drawn` are the strokes that are drawn, and `strokes` are all.
///
/// # Errors
///
/// Fails if there is no memory for the text.
pub fn put_mores(
    out: &mut String,
    generals: u8,
    strokes: &[Stroke],
    drawn: &[Stroke],
    accesses: &[Access],
    rounds: u8,
) -> Result<(), AllocError>
    requires { rounds < 255 }
    ensures { OnOk result (string_bytes out.new ≡ string_bytes out.old
        ++ mores generals strokes.now drawn.now accesses.now rounds) }
{
    for before in 0..rounds {
        put_mores_in(out, generals, strokes, drawn, accesses, before)?;
    }
    Ok(())
}

/// Appends, below each receiver's list of round `before + 1`, how many strokes of this list are not drawn. Appends
/// nothing below a list of which all strokes are drawn.
fn put_mores_in(
    out: &mut String,
    generals: u8,
    strokes: &[Stroke],
    drawn: &[Stroke],
    accesses: &[Access],
    before: u8,
) -> Result<(), AllocError>
    requires { before < 255 }
    ensures { OnOk result (string_bytes out.new ≡ string_bytes out.old
        ++ mores_in generals strokes.now drawn.now accesses.now before) }
{
    put_mores_of(
        out,
        generals,
        strokes,
        more_top(generals, drawn, accesses, before),
        u32::from(before) + 1,
    )?;
    Ok(())
}

/// Returns the y coordinate of the texts that say how many strokes of round `before + 1` are left out.
fn more_top(generals: u8, drawn: &[Stroke], accesses: &[Access], before: u8) -> u128
    requires { before < 255 }
    ensures { result ≡ more_top generals drawn.now accesses.now before }
{
    top_of(generals, drawn, accesses, before)
        + rows_top(generals, accesses, u32::from(before) + 1)
        + (12 + 18 * MOST as u128)
}

/// Appends for each general how many strokes of round `round` are left out of his list, at the y coordinate `top`.
fn put_mores_of(
    out: &mut String,
    generals: u8,
    strokes: &[Stroke],
    top: u128,
    round: u32,
) -> Result<(), AllocError>
    ensures { OnOk result (string_bytes out.new ≡ string_bytes out.old ++ mores_of generals strokes.now top round) }
{
    for general in 0..generals {
        put_more_of(out, strokes, top, round, general)?;
    }
    Ok(())
}

/// Appends how many strokes of round `round` are left out of a general's list, at the y coordinate `top`.
fn put_more_of(
    out: &mut String,
    strokes: &[Stroke],
    top: u128,
    round: u32,
    general: u8,
) -> Result<(), AllocError>
    ensures { OnOk result (string_bytes out.new ≡ string_bytes out.old ++ more_of strokes.now top round general) }
{
    let left = count_left(strokes, round as usize, general);
    let lies = count_left_lies(strokes, round as usize, general);
    put_more_at(out, top, round, general, left, lies)
}

/// Returns how many strokes to this receiver in this round are left out.
fn count_left(strokes: &[Stroke], round: usize, receiver: u8) -> usize
    ensures { result ≡ count_by (is_left round receiver) strokes.now }
{
    strokes
        .iter()
        .filter(|x| x.row >= MOST && (x.round == round && x.receiver == receiver))
        .count()
}

/// Returns how many strokes to this receiver in this round are left out although they are lies: messages that a
/// faithful general would not send.
fn count_left_lies(strokes: &[Stroke], round: usize, receiver: u8) -> usize
    ensures { result ≡ count_by (is_left_lie round receiver) strokes.now }
{
    strokes
        .iter()
        .filter(|x| x.row >= MOST && (x.differs && (x.round == round && x.receiver == receiver)))
        .count()
}

/// Appends that `left` strokes of a general's list are left out, and that `lies` of them are lies. Appends nothing if
/// `left` is 0.
fn put_more_at(
    out: &mut String,
    top: u128,
    round: u32,
    general: u8,
    left: usize,
    lies: usize,
) -> Result<(), AllocError>
    ensures { OnOk result (string_bytes out.new ≡ string_bytes out.old ++ more_at top round general left lies) }
{
    if left == 0 {
        return Ok(());
    }
    put_group_start(out, column(u32::from(general)), top)?;
    put_more_told(out, general, round, left, lies)?;
    put_group_end(out)
}

/// Appends, as a title and as a text, how many strokes of a general's list are left out and how many of them are
/// lies.
fn put_more_told(
    out: &mut String,
    general: u8,
    round: u32,
    left: usize,
    lies: usize,
) -> Result<(), AllocError>
    ensures { OnOk result (string_bytes out.new ≡ string_bytes out.old ++ more_told general round left lies) }
{
    put_left_title(out, general, round, left, lies)?;
    put_left_text(out, left, lies)
}

/// Appends the title that says how many strokes are left out, which a browser shows if the reader points at the text.
fn put_left_title(
    out: &mut String,
    general: u8,
    round: u32,
    left: usize,
    lies: usize,
) -> Result<(), AllocError>
    ensures { OnOk result (string_bytes out.new ≡ string_bytes out.old
        ++ title (left_in_full general round left lies)) }
{
    put_title_start(out)?;
    put_left_in_full(out, general, round, left, lies)?;
    put_title_end(out)
}

/// Appends a sentence that says how many strokes of a general's list are left out, and in how many of them a loyal
/// general would send something else.
#[tactic(auto, unfolding(crate::specs::Left::left_in_full))]
fn put_left_in_full(
    out: &mut String,
    general: u8,
    round: u32,
    left: usize,
    lies: usize,
) -> Result<(), AllocError>
    ensures { OnOk result (string_bytes out.new ≡ string_bytes out.old ++ left_in_full general round left lies) }
{
    write!(
        out,
        "general {general} has {left} more in round {round}, not drawn: in {lies} of them a loyal general would do \
         otherwise"
    )
}

/// Appends the text below a list that says how many strokes are left out, such as `and 3 more, 1 dishonest`.
fn put_left_text(out: &mut String, left: usize, lies: usize) -> Result<(), AllocError>
    ensures { OnOk result (string_bytes out.new ≡ string_bytes out.old
        ++ text_at (codes "small") 12 4 (left_words left lies)) }
{
    put_text_start(out, "small", 12, 4)?;
    put_left_words(out, left, lies)?;
    put_text_end(out)
}

/// Appends how many strokes are left out and how many of them are lies, such as `and 3 more, 1 dishonest`.
#[tactic(auto, unfolding(crate::specs::Left::left_words))]
fn put_left_words(out: &mut String, left: usize, lies: usize) -> Result<(), AllocError>
    ensures { OnOk result (string_bytes out.new ≡ string_bytes out.old ++ left_words left lies) }
{
    write!(out, "and {left} more, {lies} dishonest")
}

/// Appends a note about lists with more than 24 rows, for readers who cannot see the diagram. Appends nothing if
/// `is_cut` is false.
///
/// # Errors
///
/// Fails if there is no memory for the text.
#[tactic(auto, unfolding(crate::specs::Shapes::said_if))]
pub fn put_cut(out: &mut String, is_cut: bool) -> Result<(), AllocError>
    ensures { OnOk result (string_bytes out.new ≡ string_bytes out.old ++ said_if is_cut cut_words) }
{
    if is_cut { put_cut_words(out) } else { Ok(()) }
}

/// Appends the note that a list has at most 24 rows, which rows come first, and where the number of rows that are not
/// drawn is written.
#[tactic(auto, unfolding(crate::specs::Left::cut_words))]
fn put_cut_words(out: &mut String) -> Result<(), AllocError>
    ensures { OnOk result (string_bytes out.new ≡ string_bytes out.old ++ cut_words) }
{
    let most = MOST;
    write!(
        out,
        " A list has at most {most} rows. A longer list begins with the first row of each general in which a \
         loyal general would do otherwise. The others of this kind follow, and then the rest. Below the list is \
         the number of rows that are not drawn."
    )
}
