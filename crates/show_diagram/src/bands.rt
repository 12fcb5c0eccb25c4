//! Draws the bands of a diagram. The band of a round shows the accesses to the board, the strokes (lines that show
//! messages), and below them a list for each lieutenant of what he received. Functions that return a `Result` fail
//! only if memory runs out.
ghost use Rattle.std.specs.Prelude.{◌≡◌, ◌++◌, ◌+◌, ◌<◌, ◌≤◌, ◌^◌, codes, length, flat_map, string_bytes, OnOk};
ghost use Rattle.std.specs.List.{range_with_len};
ghost use Rattle.show_diagram.specs.Shapes.{text_at, title};
ghost use Rattle.show_diagram.specs.Words.{access_words, row_words, shown_words, stroke_words};
ghost use Rattle.show_diagram.specs.Bands.{access_at, accesses_from, band, bands, board_line, drawn, drawn_at, general_life, inside, life, lives, point, round_words, row, stroke_line};

use crate::layout::{
    access_top, accesses_before, board, column, fan_top, height, path_of, row_top, rows_top, top_of,
};
use crate::shapes::{
    put_bent_start, put_group_end, put_group_start, put_line, put_mark, put_stroke_end,
    put_text_end, put_text_start, put_title_end, put_title_start,
};
use crate::stroke::Stroke;
use crate::words::{
    access_outline, kind, outline, put_access_words, put_row_words, put_shown, put_stroke_words,
};
use board::Access;
use std::alloc::AllocError;

/// Appends the bands of the first `rounds` rounds. `wide` is the x coordinate at which the rule above each band ends.
pub(crate) fn put_bands(
    out: &mut String,
    generals: u8,
    strokes: &[Stroke],
    accesses: &[Access],
    wide: u128,
    rounds: u8,
) -> Result<(), AllocError>
    requires { rounds < 255 }
    ensures { OnOk result (string_bytes out.new ≡ string_bytes out.old
        ++ bands generals strokes.now accesses.now wide rounds) }
{
    for before in 0..rounds {
        put_band(out, generals, strokes, accesses, wide, before)?;
    }
    Ok(())
}

/// Appends the band of round `before + 1` of a campaign with oral messages.
fn put_band(
    out: &mut String,
    generals: u8,
    strokes: &[Stroke],
    accesses: &[Access],
    wide: u128,
    before: u8,
) -> Result<(), AllocError>
    requires { before < 255 }
    ensures { OnOk result (string_bytes out.new ≡ string_bytes out.old
        ++ band generals strokes.now accesses.now wide before) }
{
    put_group_start(out, 0, top_of(generals, strokes, accesses, before))?;
    put_inside(
        out,
        generals,
        strokes,
        accesses,
        wide,
        u32::from(before) + 1,
    )?;
    put_group_end(out)?;
    Ok(())
}

/// Appends the contents of a round's band: its heading, the vertical lines, the accesses, the strokes and the lists.
fn put_inside(
    out: &mut String,
    generals: u8,
    strokes: &[Stroke],
    accesses: &[Access],
    wide: u128,
    round: u32,
) -> Result<(), AllocError>
    ensures { OnOk result (string_bytes out.new ≡ string_bytes out.old
        ++ inside generals strokes.now accesses.now wide round) }
{
    put_line(out, "rule", 16, 0, wide, 0)?;
    put_round_text(out, round)?;
    put_lives(
        out,
        generals,
        accesses,
        height(generals, strokes, accesses, round),
    )?;
    put_accesses(out, generals, accesses, round)?;
    put_strokes(out, generals, strokes, accesses, round)
}

/// Appends the heading of a round, such as `round 2`, at the left of its band.
///
/// # Errors
///
/// Fails if there is no memory for the text.
pub fn put_round_text(out: &mut String, round: u32) -> Result<(), AllocError>
    ensures { OnOk result (string_bytes out.new ≡ string_bytes out.old
        ++ text_at (codes "round") 16 24 (round_words round)) }
{
    put_text_start(out, "round", 16, 24)?;
    put_round(out, round)?;
    put_text_end(out)
}

/// Appends a round's heading in words, such as `round 2`.
#[tactic(auto, unfolding(crate::specs::Bands::round_words))]
fn put_round(out: &mut String, round: u32) -> Result<(), AllocError>
    ensures { OnOk result (string_bytes out.new ≡ string_bytes out.old ++ round_words round) }
{
    write!(out, "round {round}")
}

/// Appends the vertical lines of a band, `height` SVG units long. There is one for each general, and one for the
/// board unless `accesses` is empty.
pub fn put_lives(
    out: &mut String,
    generals: u8,
    accesses: &[Access],
    height: u128,
) -> Result<(), AllocError>
    ensures { OnOk result (string_bytes out.new ≡ string_bytes out.old ++ lives generals accesses.now height) }
{
    put_board(out, generals, accesses, height)?;
    put_general_lives(out, generals, height)
}

/// Appends a vertical line for each general, `height` SVG units long.
fn put_general_lives(out: &mut String, generals: u8, height: u128) -> Result<(), AllocError>
    ensures { OnOk result (string_bytes out.new ≡ string_bytes out.old
        ++ flat_map (general_life height) (range_with_len 0 generals)) }
{
    for general in 0..generals {
        put_general_life(out, general, height)?;
    }
    Ok(())
}

/// Appends the vertical line in a general's column, `height` SVG units long.
fn put_general_life(out: &mut String, general: u8, height: u128) -> Result<(), AllocError>
    ensures { OnOk result (string_bytes out.new ≡ string_bytes out.old ++ general_life height general) }
{
    put_life(out, column(u32::from(general)), height)
}

/// Appends a vertical line at the x coordinate `x`, from the top of a band `height` SVG units down.
fn put_life(out: &mut String, x: u128, height: u128) -> Result<(), AllocError>
    ensures { OnOk result (string_bytes out.new ≡ string_bytes out.old ++ life x height) }
{
    put_line(out, "life", x, 0, x, height)
}

/// Appends the vertical line in the board's column, `height` SVG units long. Appends nothing if `accesses` is empty.
fn put_board(
    out: &mut String,
    generals: u8,
    accesses: &[Access],
    height: u128,
) -> Result<(), AllocError>
    ensures { OnOk result (string_bytes out.new ≡ string_bytes out.old ++ board_line generals accesses.now height) }
{
    match accesses {
        [] => Ok(()),
        [_, ..] => put_life(out, board(generals), height),
    }
}

/// Appends the accesses to the board in round `round`, in the order in which the board received them.
pub fn put_accesses(
    out: &mut String,
    generals: u8,
    accesses: &[Access],
    round: u32,
) -> Result<(), AllocError>
    ensures { OnOk result (string_bytes out.new ≡ string_bytes out.old
        ++ accesses_from generals accesses.now round 0 accesses.now) }
{
    let before = accesses_before(accesses, round);
    for (place, access) in accesses.iter().enumerate() {
        put_access(out, generals, access_top(before, place), round, access)?;
    }
    Ok(())
}

/// Appends an access, `top` SVG units below the top of its band. Appends nothing for an access of another round.
fn put_access(
    out: &mut String,
    generals: u8,
    top: u128,
    round: u32,
    access: &Access,
) -> Result<(), AllocError>
    ensures { OnOk result (string_bytes out.new ≡ string_bytes out.old ++ access_at generals top round access.now) }
{
    if access.round != round {
        return Ok(());
    }
    let left = column(access.general);
    put_group_start(out, left, top)?;
    put_point(out, board(generals).saturating_sub(left), access)?;
    put_group_end(out)
}

/// Appends the drawing of an access: a title, a line to the board `far` SVG units to the right, a point in the
/// general's column, and the words next to the board.
fn put_point(out: &mut String, far: u128, access: &Access) -> Result<(), AllocError>
    requires { far < 2 ^ 100 }
    ensures { OnOk result (string_bytes out.new ≡ string_bytes out.old ++ point far access.now) }
{
    put_access_title(out, access)?;
    put_line(out, "access", 0, 0, far, 0)?;
    put_mark(out, "point", access_outline())?;
    put_access_text(out, far + 12, access)
}

/// Appends the title of an access, which a browser shows if the reader points at the access.
fn put_access_title(out: &mut String, access: &Access) -> Result<(), AllocError>
    ensures { OnOk result (string_bytes out.new ≡ string_bytes out.old ++ title (access_words access.now)) }
{
    put_title_start(out)?;
    put_access_words(out, access)?;
    put_title_end(out)
}

/// Appends the words for an access next to the board, at the x coordinate `x`.
fn put_access_text(out: &mut String, x: u128, access: &Access) -> Result<(), AllocError>
    ensures { OnOk result (string_bytes out.new ≡ string_bytes out.old
        ++ text_at (codes "small") x 4 (shown_words access.now)) }
{
    put_text_start(out, "small", x, 4)?;
    put_shown(out, access)?;
    put_text_end(out)
}

/// Appends the strokes of round `round`, and for each a row in the receiver's list.
fn put_strokes(
    out: &mut String,
    generals: u8,
    strokes: &[Stroke],
    accesses: &[Access],
    round: u32,
) -> Result<(), AllocError>
    ensures { OnOk result (string_bytes out.new ≡ string_bytes out.old
        ++ flat_map (drawn generals accesses.now round) strokes.now) }
{
    let top = fan_top(accesses, round);
    let below = rows_top(generals, accesses, round);
    for stroke in strokes {
        put_drawn(out, generals, top, below, round, stroke)?;
    }
    Ok(())
}

/// Appends a stroke and its row in the receiver's list. Appends nothing for a stroke of another round. In the band of
/// the round the strokes begin at the y coordinate `top`, and the lists at `below`.
fn put_drawn(
    out: &mut String,
    generals: u8,
    top: u128,
    below: u128,
    round: u32,
    stroke: &Stroke,
) -> Result<(), AllocError>
    requires top { top < 2 ^ 80 }
    requires below { below < 2 ^ 81 }
    ensures { OnOk result (string_bytes out.new
        ≡ string_bytes out.old ++ drawn_at generals top below round stroke.now) }
{
    if stroke.round != round as usize {
        return Ok(());
    }
    put_stroke(out, generals, top, below, stroke)?;
    put_row(out, below, stroke)
}

/// Appends the line of a stroke from the sender's column, at the y coordinate `top`, to its row in the receiver's list,
/// which begins at `below`. Its width is the number of labels, but at most 5.
fn put_stroke(
    out: &mut String,
    generals: u8,
    top: u128,
    below: u128,
    stroke: &Stroke,
) -> Result<(), AllocError>
    requires top { top < 2 ^ 100 }
    requires below { below < 2 ^ 100 }
    ensures { OnOk result (string_bytes out.new ≡ string_bytes out.old ++ stroke_line generals top below stroke.now) }
{
    put_bent_start(
        out,
        kind(stroke),
        stroke.labels.min(5) as u128,
        path_of(generals, top, below, stroke),
    )?;
    put_stroke_title(out, stroke)?;
    put_stroke_end(out)
}

/// Appends the title of a stroke, which a browser shows if the reader points at the stroke.
fn put_stroke_title(out: &mut String, stroke: &Stroke) -> Result<(), AllocError>
    ensures { OnOk result (string_bytes out.new ≡ string_bytes out.old ++ title (stroke_words stroke.now)) }
{
    put_title_start(out)?;
    put_stroke_words(out, stroke)?;
    put_title_end(out)
}

/// Appends the text of a stroke's row in the receiver's list, such as `from 2: 1, 3 labels`.
fn put_row_text(out: &mut String, stroke: &Stroke) -> Result<(), AllocError>
    ensures { OnOk result (string_bytes out.new ≡ string_bytes out.old
        ++ text_at (codes "small") 12 4 (row_words stroke.now)) }
{
    put_text_start(out, "small", 12, 4)?;
    put_row_words(out, stroke)?;
    put_text_end(out)
}

/// Appends the row of a stroke in the receiver's list: its title, mark and text. The list begins at the y coordinate
/// `top`.
fn put_row(out: &mut String, top: u128, stroke: &Stroke) -> Result<(), AllocError>
    requires { top < 2 ^ 100 }
    ensures { OnOk result (string_bytes out.new ≡ string_bytes out.old ++ row top stroke.now) }
{
    put_group_start(
        out,
        column(u32::from(stroke.receiver)),
        row_top(top, stroke.row),
    )?;
    put_stroke_title(out, stroke)?;
    put_mark(out, kind(stroke), outline(stroke))?;
    put_row_text(out, stroke)?;
    put_group_end(out)
}
