//! Draws the bands of a signed campaign's diagram, one for each round, with the accesses and the strokes. A stroke is a
//! line from a sender to a receiver, for the chains with one order.
ghost use Rattle.std.specs.Prelude.{◌≡◌, ◌++◌, ◌+◌, ◌<◌, ◌^◌, codes, flat_map, string_bytes, OnOk};
ghost use Rattle.show_diagram.specs.Shapes.{text_at, title};
ghost use Rattle.show_chains.specs.Bands.{band, bands, drawn, drawn_at, inside, row, stroke_line};
ghost use Rattle.show_chains.specs.Words.{row_words, stroke_words};

use crate::stroke::ChainStroke;
use crate::words::{put_row_words, put_stroke_words};
use board::Access;
use show_diagram::Stroke;
use show_diagram::bands::{put_accesses, put_lives, put_round_text};
use show_diagram::layout::{column, fan_top, height, path_of, row_top, rows_top, top_of};
use show_diagram::shapes::{
    put_bent_start, put_group_end, put_group_start, put_line, put_mark, put_stroke_end,
    put_text_end, put_text_start, put_title_end, put_title_start,
};
use show_diagram::words::{kind, outline};
use std::alloc::AllocError;

/// Appends the bands of the first `rounds` rounds. `plain` are the same strokes without their chains, from which the
/// heights of the bands are computed. Fails with `AllocError` if memory runs out.
pub(crate) fn put_bands(
    out: &mut String,
    generals: u8,
    strokes: &[ChainStroke],
    plain: &[Stroke],
    accesses: &[Access],
    wide: u128,
    rounds: u8,
) -> Result<(), AllocError>
    requires { rounds < 255 }
    ensures { OnOk result (string_bytes out.new ≡ string_bytes out.old
        ++ bands generals strokes.now plain.now accesses.now wide rounds) }
{
    for before in 0..rounds {
        put_band(out, generals, strokes, plain, accesses, wide, before)?;
    }
    Ok(())
}

/// Appends the band of round `before` + 1. Fails with `AllocError` if memory runs out.
fn put_band(
    out: &mut String,
    generals: u8,
    strokes: &[ChainStroke],
    plain: &[Stroke],
    accesses: &[Access],
    wide: u128,
    before: u8,
) -> Result<(), AllocError>
    requires { before < 255 }
    ensures { OnOk result (string_bytes out.new ≡ string_bytes out.old
        ++ band generals strokes.now plain.now accesses.now wide before) }
{
    let round = u32::from(before) + 1;
    let high = height(generals, plain, accesses, round);
    put_group_start(out, 0, top_of(generals, plain, accesses, before))?;
    put_inside(out, generals, strokes, accesses, wide, high, round)?;
    put_group_end(out)?;
    Ok(())
}

/// Appends the contents of a round's band: its number, the generals' lines, the accesses and the strokes. Fails with
/// `AllocError` if memory runs out.
fn put_inside(
    out: &mut String,
    generals: u8,
    strokes: &[ChainStroke],
    accesses: &[Access],
    wide: u128,
    high: u128,
    round: u32,
) -> Result<(), AllocError>
    ensures { OnOk result (string_bytes out.new ≡ string_bytes out.old
        ++ inside generals strokes.now accesses.now wide high round) }
{
    put_line(out, "rule", 16, 0, wide, 0)?;
    put_round_text(out, round)?;
    put_lives(out, generals, accesses, high)?;
    put_accesses(out, generals, accesses, round)?;
    put_strokes(out, generals, strokes, accesses, round)
}

/// Appends those strokes that belong to this round. Fails with `AllocError` if memory runs out.
fn put_strokes(
    out: &mut String,
    generals: u8,
    strokes: &[ChainStroke],
    accesses: &[Access],
    round: u32,
) -> Result<(), AllocError>
    ensures { OnOk result (string_bytes out.new ≡ string_bytes out.old
        ++ flat_map (drawn generals accesses.now round) strokes.now) }
{
    let top = fan_top(accesses, round);
    let below = rows_top(generals, accesses, round);
    for stroke in strokes {
        put_drawn(out, generals, top, below, round, stroke)?;
    }
    Ok(())
}

/// Appends a stroke if it belongs to this round, with its row in the list of what the receiver received. Strokes begin
/// at height `top`, and the lists at height `below`. Fails with `AllocError` if memory runs out.
fn put_drawn(
    out: &mut String,
    generals: u8,
    top: u128,
    below: u128,
    round: u32,
    stroke: &ChainStroke,
) -> Result<(), AllocError>
    requires top { top < 2 ^ 80 }
    requires below { below < 2 ^ 81 }
    ensures { OnOk result (string_bytes out.new
        ≡ string_bytes out.old ++ drawn_at generals top below round stroke.now) }
{
    if stroke.stroke().round != round as usize {
        return Ok(());
    }
    put_stroke(out, generals, top, below, stroke)?;
    put_row(out, below, stroke)
}

/// Appends a stroke's line. It begins at height `top`, leads to its row in the receiver's list, which begins at height
/// `below`, and is as wide as the stroke has chains, but at most 5. Fails with `AllocError` if memory runs out.
fn put_stroke(
    out: &mut String,
    generals: u8,
    top: u128,
    below: u128,
    stroke: &ChainStroke,
) -> Result<(), AllocError>
    requires top { top < 2 ^ 100 }
    requires below { below < 2 ^ 100 }
    ensures { OnOk result (string_bytes out.new ≡ string_bytes out.old ++ stroke_line generals top below stroke.now) }
{
    let plain = stroke.stroke();
    put_bent_start(
        out,
        kind(plain),
        plain.labels.min(5) as u128,
        path_of(generals, top, below, plain),
    )?;
    put_stroke_title(out, stroke)?;
    put_stroke_end(out)
}

/// Appends the title of a stroke, which a reader sees when pointing at it. It says who sends which chains to whom.
/// Fails with `AllocError` if memory runs out.
fn put_stroke_title(out: &mut String, stroke: &ChainStroke) -> Result<(), AllocError>
    ensures { OnOk result (string_bytes out.new ≡ string_bytes out.old ++ title (stroke_words stroke.now)) }
{
    put_title_start(out)?;
    put_stroke_words(out, stroke)?;
    put_title_end(out)
}

/// Appends the text of a stroke's row in the list of what the receiver received. Fails with `AllocError` if memory runs
/// out.
fn put_row_text(out: &mut String, stroke: &ChainStroke) -> Result<(), AllocError>
    ensures { OnOk result (string_bytes out.new ≡ string_bytes out.old
        ++ text_at (codes "small") 12 4 (row_words stroke.now)) }
{
    put_text_start(out, "small", 12, 4)?;
    put_row_words(out, stroke)?;
    put_text_end(out)
}

/// Appends the row of a stroke to the list of what its receiver received. A stroke shows all chains with one order that
/// one general sent or withheld from another in a round. The list begins at height `top`. Fails with `AllocError` if
/// memory runs out.
fn put_row(out: &mut String, top: u128, stroke: &ChainStroke) -> Result<(), AllocError>
    requires { top < 2 ^ 100 }
    ensures { OnOk result (string_bytes out.new ≡ string_bytes out.old ++ row top stroke.now) }
{
    let plain = stroke.stroke();
    put_group_start(
        out,
        column(u32::from(plain.receiver)),
        row_top(top, plain.row),
    )?;
    put_stroke_title(out, stroke)?;
    put_mark(out, kind(plain), outline(plain))?;
    put_row_text(out, stroke)?;
    put_group_end(out)
}
