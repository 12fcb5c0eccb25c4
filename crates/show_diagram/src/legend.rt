//! Draws the legend in a diagram's foot: a row for each mark that occurs in the diagram. Functions that return a
//! `Result` fail only if memory runs out.
ghost use Rattle.std.specs.Prelude.{◌≡◌, ◌≤◌, ◌<◌, ◌^◌, ◌++◌, string_bytes, OnOk};
ghost use Rattle.std.specs.List.{list_any};
ghost use Rattle.show_diagram.specs.Legend.{differs_meaning, foot_height, has_circle, has_cross, has_diamond, legend, legend_of, marks_of, meaning_at, meaning_if, missing_meaning, one_if, rows, shape_at, shape_if, shape_key, shape_meanings, stroke_meanings, stroke_rows, told_meaning, wide_meaning};
ghost use Rattle.show_diagram.specs.Shapes.{stroke_at};

use crate::mark::DiagramMarks;
use crate::shapes::{
    put_group_end, put_group_start, put_if, put_mark, put_stroke_end, put_stroke_start,
    put_title_end, put_title_start, put_words, shape_of,
};
use crate::stroke::Stroke;
use crate::words::{access_outline, outline_of};
use board::Access;
use round::Scenario;
use std::alloc::AllocError;
use world::judgement::traitors;

/// Returns which marks occur in a diagram with the given accesses and strokes.
pub fn marks(scenario: &Scenario, accesses: &[Access], strokes: &[Stroke]) -> DiagramMarks
    ensures { result ≡ marks_of scenario.now accesses.now strokes.now }
{
    let traitors = traitors(scenario);
    DiagramMarks {
        circle: any_circle(strokes),
        diamond: any_diamond(strokes),
        cross: any_cross(strokes),
        square: 0 < traitors,
        loyal: traitors < scenario.generals(),
        point: 0 < accesses.len(),
    }
}

/// Checks whether the mark of any of these strokes is a circle: a faithful general would send the same.
fn any_circle(strokes: &[Stroke]) -> bool
    ensures { result ≡ list_any has_circle strokes.now }
{
    strokes.iter().any(|stroke| has_circle(stroke))
}

/// Checks whether the mark of any of these strokes is a diamond: an order that a faithful general would not send.
fn any_diamond(strokes: &[Stroke]) -> bool
    ensures { result ≡ list_any has_diamond strokes.now }
{
    strokes.iter().any(|stroke| has_diamond(stroke))
}

/// Checks whether the mark of any of these strokes is a cross: nothing was sent, but a faithful general sends an
/// order.
fn any_cross(strokes: &[Stroke]) -> bool
    ensures { result ≡ list_any has_cross strokes.now }
{
    strokes.iter().any(|stroke| has_cross(stroke))
}

/// Checks whether a stroke is marked with a circle: a faithful general would send the same.
fn has_circle(stroke: &Stroke) -> bool
    ensures { result ≡ has_circle stroke.now }
{
    !stroke.differs
}

/// Checks whether a stroke is marked with a diamond: an order was sent that a faithful general would not send.
fn has_diamond(stroke: &Stroke) -> bool
    ensures { result ≡ has_diamond stroke.now }
{
    stroke.differs && stroke.told.is_some()
}

/// Checks whether a stroke is marked with a cross: nothing was sent, but a faithful general sends an order.
fn has_cross(stroke: &Stroke) -> bool
    ensures { result ≡ has_cross stroke.now }
{
    stroke.differs && !stroke.told.is_some()
}

/// Returns 1 if `stands` is true, else 0.
fn one_if(stands: bool) -> u128
    ensures value { result ≡ one_if stands }
    ensures few { result ≤ 1 }
{
    if stands { 1 } else { 0 }
}

/// Returns the number of rows that the legend needs for circle, diamond and cross, the marks of strokes: from 0 to 3.
fn stroke_rows(marks: DiagramMarks) -> u128
    ensures value { result ≡ stroke_rows marks }
    ensures few { result ≤ 3 }
{
    one_if(marks.circle) + one_if(marks.diamond) + one_if(marks.cross)
}

/// Returns the number of rows that the legend needs for all marks: from 0 to 6, one for each mark that occurs.
fn rows(marks: DiagramMarks) -> u128
    ensures value { result ≡ rows marks }
    ensures few { result ≤ 6 }
{
    stroke_rows(marks) + one_if(marks.square) + one_if(marks.loyal) + one_if(marks.point)
}

/// Returns the height of a diagram's foot: 152 SVG units, and 20 for each mark that occurs. There are at most 6
/// marks, so the result is at most 272.
pub fn foot_height(marks: DiagramMarks) -> u128
    ensures value { result ≡ foot_height marks }
    ensures few { result ≤ 272 }
{
    152 + 20 * rows(marks)
}

/// Appends a legend with a row for each mark that occurs in the diagram. The words `told`, `differs` and `missing`
/// explain a circle, a diamond and a cross, and `wide` explains the width of a line.
///
/// # Errors
///
/// Fails if there is no memory for the text.
pub fn put_legend_of(
    out: &mut String,
    marks: DiagramMarks,
    told: &str,
    differs: &str,
    missing: &str,
    wide: &str,
) -> Result<(), AllocError>
    ensures { OnOk result (string_bytes out.new ≡ string_bytes out.old
        ++ legend_of marks told.now differs.now missing.now wide.now) }
{
    let place = stroke_rows(marks);
    let below = 136 + 20 * rows(marks);
    put_stroke_meanings(out, marks, told, differs, missing)?;
    put_shape_meanings(out, marks, place)?;
    put_words(out, "small", 120, below, wide)?;
    Ok(())
}

/// Appends the legend's rows for circle, diamond and cross. Each row explains its mark with the given words.
fn put_stroke_meanings(
    out: &mut String,
    marks: DiagramMarks,
    told: &str,
    differs: &str,
    missing: &str,
) -> Result<(), AllocError>
    ensures { OnOk result (string_bytes out.new ≡ string_bytes out.old
        ++ stroke_meanings marks told.now differs.now missing.now) }
{
    let second = one_if(marks.circle);
    let third = second + one_if(marks.diamond);
    let circle = outline_of(false, None);
    let diamond = outline_of(true, Some(0));
    let cross = outline_of(true, None);
    put_meaning_if(out, marks.circle, 0, "told key", circle, told)?;
    put_meaning_if(out, marks.diamond, second, "lie key", diamond, differs)?;
    put_meaning_if(out, marks.cross, third, "none key", cross, missing)?;
    Ok(())
}

/// Appends the legend's rows for traitors, loyal generals and accesses. The first of them is row `place`, counted
/// from 0.
fn put_shape_meanings(out: &mut String, marks: DiagramMarks, place: u128) -> Result<(), AllocError>
    requires { place < 2 ^ 99 }
    ensures { OnOk result (string_bytes out.new ≡ string_bytes out.old ++ shape_meanings marks place) }
{
    let second = place + one_if(marks.square);
    let third = second + one_if(marks.loyal);
    let square = shape_of(true);
    let circle = shape_of(false);
    let point = access_outline();
    put_shape_if(out, marks.square, place, "traitor key", square, "a traitor")?;
    put_shape_if(
        out,
        marks.loyal,
        second,
        "loyal key",
        circle,
        "a loyal general",
    )?;
    put_shape_if(
        out,
        marks.point,
        third,
        "point key",
        point,
        "an access to the board",
    )?;
    Ok(())
}

/// Appends row `place` of the legend: a sample stroke with a mark, and its meaning. Appends nothing if `stands` is
/// false.
fn put_meaning_if(
    out: &mut String,
    stands: bool,
    place: u128,
    kind: &str,
    outline: &str,
    words: &str,
) -> Result<(), AllocError>
    requires { place < 2 ^ 100 }
    ensures { OnOk result (string_bytes out.new ≡ string_bytes out.old
        ++ meaning_if stands place kind.now outline.now words.now) }
{
    if stands {
        put_meaning(out, 132 + 20 * place, kind, outline, words)
    } else {
        Ok(())
    }
}

/// Appends row `place` of the legend: a mark without a stroke, and its meaning. Appends nothing if `stands` is false.
fn put_shape_if(
    out: &mut String,
    stands: bool,
    place: u128,
    kind: &str,
    outline: &str,
    words: &str,
) -> Result<(), AllocError>
    requires { place < 2 ^ 100 }
    ensures { OnOk result (string_bytes out.new ≡ string_bytes out.old
        ++ shape_if stands place kind.now outline.now words.now) }
{
    if stands {
        put_shape(out, 132 + 20 * place, kind, outline, words)
    } else {
        Ok(())
    }
}

/// Appends a row of the legend at the y coordinate `y`: a sample stroke with a mark, and its meaning.
fn put_meaning(
    out: &mut String,
    y: u128,
    kind: &str,
    outline: &str,
    words: &str,
) -> Result<(), AllocError>
    ensures { OnOk result (string_bytes out.new ≡ string_bytes out.old ++ meaning_at y kind.now outline.now words.now) }
{
    put_group_start(out, 120, y)?;
    put_sample(out, kind, words)?;
    put_group_start(out, 52, 0)?;
    put_mark(out, kind, outline)?;
    put_words(out, "small", 12, 4, words)?;
    put_group_end(out)?;
    put_group_end(out)
}

/// Appends a row of the legend at the y coordinate `y`: a mark without a stroke, and its meaning.
fn put_shape(
    out: &mut String,
    y: u128,
    kind: &str,
    outline: &str,
    words: &str,
) -> Result<(), AllocError>
    ensures { OnOk result (string_bytes out.new ≡ string_bytes out.old ++ shape_at y kind.now outline.now words.now) }
{
    put_group_start(out, 172, y)?;
    put_mark(out, kind, outline)?;
    put_words(out, "small", 12, 4, words)?;
    put_group_end(out)
}

/// Appends a short horizontal sample stroke, with `words` as its title.
fn put_sample(out: &mut String, kind: &str, words: &str) -> Result<(), AllocError>
    ensures { OnOk result (string_bytes out.new ≡ string_bytes out.old ++ stroke_at kind.now 2 0 0 45 0 words.now) }
{
    put_stroke_start(out, kind, 2, 0, 0, 45, 0)?;
    put_title_start(out)?;
    out.push_str(words)?;
    put_title_end(out)?;
    put_stroke_end(out)
}

/// Appends sentences that explain the marks of generals and accesses, for readers who cannot see the diagram.
pub fn put_shape_key(out: &mut String, marks: DiagramMarks) -> Result<(), AllocError>
    ensures { OnOk result (string_bytes out.new ≡ string_bytes out.old ++ shape_key marks) }
{
    put_if(
        out,
        marks.point,
        " Above the lines are the accesses to the board, in its order.",
    )?;
    put_if(out, marks.square, " Square: a traitor.")?;
    put_if(out, marks.loyal, " Circle at a name: a loyal general.")?;
    Ok(())
}

/// Appends the legend of a diagram for oral messages.
pub(crate) fn put_legend(out: &mut String, marks: DiagramMarks) -> Result<(), AllocError>
    ensures { OnOk result (string_bytes out.new ≡ string_bytes out.old ++ legend marks) }
{
    put_legend_of(
        out,
        marks,
        told_meaning(),
        differs_meaning(),
        missing_meaning(),
        wide_meaning(),
    )
}

/// Returns the legend's words for a circle: a stroke that a faithful general would send.
#[tactic(auto, unfolding(crate::specs::Legend::told_meaning))]
fn told_meaning() -> &'static str
    ensures { result.now ≡ told_meaning }
{
    "sent as an honest relay sends it"
}

/// Returns the legend's words for a diamond: a stroke for which a faithful general would send something else.
#[tactic(auto, unfolding(crate::specs::Legend::differs_meaning))]
fn differs_meaning() -> &'static str
    ensures { result.now ≡ differs_meaning }
{
    "sent, but an honest relay would send something else"
}

/// Returns the legend's words for a cross: nothing was sent, although a faithful general sends an order.
#[tactic(auto, unfolding(crate::specs::Legend::missing_meaning))]
fn missing_meaning() -> &'static str
    ensures { result.now ≡ missing_meaning }
{
    "nothing sent, but an order should be sent"
}

/// Returns the legend's words about the width of a stroke's line: it is the number of labels, but at most 5.
#[tactic(auto, unfolding(crate::specs::Legend::wide_meaning))]
fn wide_meaning() -> &'static str
    ensures { result.now ≡ wide_meaning }
{
    "A line leads down to its row. Its width is its number of labels, up to 5."
}
