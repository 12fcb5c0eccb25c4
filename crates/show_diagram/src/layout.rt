//! Computes where a diagram's columns, bands, accesses, strokes and lists are, in SVG units.
ghost use Rattle.std.specs.Prelude.{◌≡◌, ◌<◌, ◌+◌, ◌-◌, ◌*◌, ◌^◌, count_by, IfOk};
ghost use Rattle.show_diagram.specs.Layout.{board, column, fan_top, height, is_earlier, is_in, lane, most, path_of, reach, row_top, rows_top, room, top_of, widest, width};

use crate::stroke::{Stroke, StrokePath};
use crate::words::put_shown;
use board::Access;
use std::alloc::{AllocError, Global};

/// The least width of a diagram in SVG units, which leaves room for the headline and the legend.
const LEAST: u128 = 760;

/// Returns the x coordinate of a general's column in SVG units. Columns are 248 units apart, which is room for a
/// list's longest row.
pub fn column(general: u32) -> u128
    ensures { result ≡ column general }
{
    120 + 248 * u128::from(general)
}

/// Returns the x coordinate of the board's column in SVG units, to the right of the columns of `generals` generals.
pub(crate) fn board(generals: u8) -> u128
    ensures { result ≡ board generals }
{
    120 + 248 * u128::from(generals)
}

/// Returns the width of a diagram in SVG units. It leaves room for the words of the accesses, to the right of the
/// board.
///
/// # Errors
///
/// Fails if there is no memory for the words of an access.
pub fn width(alloc: Global, generals: u8, accesses: &[Access]) -> Result<u128, AllocError>
    ensures value { IfOk result (λ wide. wide ≡ width generals accesses.now) }
    ensures small { IfOk result (λ wide. wide < 2 ^ 101) }
{
    Ok(LEAST.max(board(generals) + widest(alloc, accesses)?))
}

/// Returns the room in SVG units that the longest words of an access need, or 0 if there are no accesses.
fn widest(alloc: Global, accesses: &[Access]) -> Result<u128, AllocError>
    ensures value { IfOk result (λ width. width ≡ widest accesses.now) }
    ensures small { IfOk result (λ width. width < 2 ^ 100) }
{
    let mut widest = 0;
    for access in accesses {
        widest = room(alloc, access)?.max(widest);
    }
    Ok(widest)
}

/// Returns the room that the words of an access need: 28 SVG units, and 8 for each byte.
fn room(alloc: Global, access: &Access) -> Result<u128, AllocError>
    ensures value { IfOk result (λ width. width ≡ room access.now) }
    ensures small { IfOk result (λ width. width < 2 ^ 100) }
{
    let mut text = String::new(alloc);
    put_shown(&mut text, access)?;
    Ok(28 + 8 * text.len() as u128)
}

/// Returns the number of accesses in round `round`.
fn accesses_in(accesses: &[Access], round: u32) -> usize
    ensures { result ≡ count_by (is_in round) accesses.now }
{
    accesses.iter().filter(|x| x.round == round).count()
}

/// Returns the number of accesses in the rounds before `round`.
pub(crate) fn accesses_before(accesses: &[Access], round: u32) -> usize
    ensures { result ≡ count_by (is_earlier round) accesses.now }
{
    accesses.iter().filter(|x| x.round < round).count()
}

/// Returns the y coordinate of an access within its round's band. `place` is its index among all accesses, and
/// `before` is the number of accesses in earlier rounds.
pub(crate) fn access_top(before: usize, place: usize) -> u128
    ensures { result ≡ 16 + 20 * (place - before) }
{
    16 + 20 * place.saturating_sub(before) as u128
}

/// Returns the y coordinate, from the top of a round's band, at which the lines for its messages begin. They are below
/// its accesses.
pub fn fan_top(accesses: &[Access], round: u32) -> u128
    ensures value { result ≡ fan_top accesses.now round }
    ensures small { result < 2 ^ 80 }
{
    24 + 20 * accesses_in(accesses, round) as u128
}

/// Returns the y coordinate within a round's band at which the lists of what each lieutenant received begin.
pub fn rows_top(generals: u8, accesses: &[Access], round: u32) -> u128
    ensures value { result ≡ rows_top generals accesses.now round }
    ensures small { result < 2 ^ 81 }
{
    fan_top(accesses, round) + 72 + 16 * u128::from(generals)
}

/// Returns the y coordinate of row `row` in a list that begins at the y coordinate `below`.
pub fn row_top(below: u128, row: usize) -> u128
    requires { below < 2 ^ 100 }
    ensures { result ≡ row_top below row }
{
    below + 12 + 18 * row as u128
}

/// Returns the x coordinate, to the left of a general's column, at which the stroke of row `row` leads down to its row.
/// The first three rows each have a lane of their own.
fn lane(general: u8, row: usize) -> u128
    ensures { result ≡ lane general row }
{
    column(u32::from(general)) - (15 + 3 * row.min(3) as u128)
}

/// Returns the path of a stroke: from the column of its sender, at the y coordinate `top`, to the lane of its row, down
/// to this row of the receiver's list, and to the row's mark. The list begins at the y coordinate `below`.
pub fn path_of(generals: u8, top: u128, below: u128, stroke: &Stroke) -> StrokePath
    requires top { top < 2 ^ 100 }
    requires below { below < 2 ^ 100 }
    ensures { result ≡ path_of generals top below stroke.now }
{
    StrokePath {
        left: column(u32::from(stroke.teller)),
        top,
        lane: lane(stroke.receiver, stroke.row),
        turn: top + 16 + 16 * u128::from(generals) + 6 * stroke.row.min(8) as u128,
        row: row_top(below, stroke.row),
        tip: column(u32::from(stroke.receiver)) - 7,
    }
}

/// Returns the number of rows in the longest list of round `round`. A list shows what one lieutenant received.
fn most(strokes: &[Stroke], round: u32) -> u128
    ensures value { result ≡ most round strokes.now }
    ensures small { result < 2 ^ 65 }
{
    let mut most = 0;
    for stroke in strokes {
        most = reach(stroke, round).max(most);
    }
    most
}

/// Returns how many rows a list needs to show this stroke, or 0 if the stroke is not of round `round`.
fn reach(stroke: &Stroke, round: u32) -> u128
    ensures value { result ≡ reach round stroke.now }
    ensures small { result < 2 ^ 65 }
{
    if stroke.round == round as usize {
        stroke.row as u128 + 1
    } else {
        0
    }
}

/// Returns the height of a round's band in SVG units. It grows with the number of accesses and the longest list.
pub fn height(generals: u8, strokes: &[Stroke], accesses: &[Access], round: u32) -> u128
    ensures value { result ≡ height generals strokes.now accesses.now round }
    ensures small { result < 2 ^ 82 }
{
    rows_top(generals, accesses, round) + 20 + 18 * most(strokes, round)
}

/// Returns the y coordinate at which the band of round `rounds + 1` begins: 80 plus the heights of the earlier bands.
#[tactic(auto, using(crate::proofs::LayoutLemmas::none_above, crate::proofs::LayoutLemmas::one_above))]
pub fn top_of(generals: u8, strokes: &[Stroke], accesses: &[Access], rounds: u8) -> u128
    ensures value { result ≡ top_of generals strokes.now accesses.now rounds }
    ensures small { result < (rounds + 1) * 2 ^ 82 }
{
    if rounds == 0 {
        return 80;
    }
    top_of(generals, strokes, accesses, rounds - 1)
        + height(generals, strokes, accesses, u32::from(rounds))
}
