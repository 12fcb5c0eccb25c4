//! Draws a campaign with signed messages as an SVG picture.
ghost use Rattle.std.specs.Prelude.{◌≡◌, ◌++◌, string_bytes, IfOk, OnOk};
ghost use Rattle.show_diagram.specs.Shapes.{title};
ghost use Rattle.show_diagram.specs.Svg.{campaign_words};
ghost use Rattle.show_chains.specs.Svg.{description, head, headline, key_start, signed_svg, signed_words, stroke_key};

use crate::bands::put_bands;
use crate::foot::put_foot;
use crate::order::with_rows;
use crate::stroke::ChainStroke;
use crate::strokes::{bare, strokes};
use crate::words::put_several;
use board::Access;
use round::Scenario;
use show_diagram::DiagramMarks;
use show_diagram::layout::{top_of, width};
use show_diagram::legend::{foot_height, marks, put_shape_key};
use show_diagram::overflow::{is_cut, put_cut, put_mores};
use show_diagram::shapes::{
    put_if, put_text_end, put_text_start, put_title_end, put_title_start, put_words,
};
use show_diagram::svg::{look, put_box, put_campaign, put_heads, put_key_end, start};
use show_diagram::words::put_copied;
use signed::SignedChronicle;
use std::alloc::{AllocError, Global};

/// Returns the diagram of a signed campaign as an SVG text. It shows the chains that the generals sent each other in
/// each round, and where a loyal general would have sent others. It also shows the accesses to the board, the decisions
/// and the verdict.
///
/// # Errors
///
/// Fails with `AllocError` if there is no memory for the text.
#[tactic(auto, unfolding(crate::specs::Svg::signed_svg))]
pub fn signed_campaign_svg(alloc: Global, chronicle: &SignedChronicle) -> Result<String, AllocError>
    ensures { IfOk result (λ text. string_bytes text ≡ signed_svg chronicle.now) }
{
    let scenario = chronicle.scenario();
    let accesses = chronicle.accesses();
    let strokes = strokes(alloc, chronicle)?;
    let plain = bare(alloc, strokes.as_slice())?;
    let drawn = with_rows(alloc, strokes)?;
    let shown = bare(alloc, drawn.as_slice())?;
    let generals = scenario.generals();
    let rounds = scenario.bound() + 1;
    let wide = width(alloc, generals, accesses)?;
    let bottom = top_of(generals, shown.as_slice(), accesses, rounds);
    let marks = marks(scenario, accesses, shown.as_slice());
    let cut = is_cut(plain.as_slice());
    let mut text = String::from_str(alloc, start())?;
    put_box(&mut text, wide + 16, bottom + foot_height(marks))?;
    put_head(&mut text, scenario, drawn.as_slice(), accesses, marks, cut)?;
    put_heads(&mut text, scenario, accesses)?;
    put_bands(
        &mut text,
        generals,
        drawn.as_slice(),
        shown.as_slice(),
        accesses,
        wide,
        rounds,
    )?;
    put_mores(
        &mut text,
        generals,
        plain.as_slice(),
        shown.as_slice(),
        accesses,
        rounds,
    )?;
    put_foot(&mut text, chronicle, marks, wide, bottom)?;
    text.push_str("</svg>\n")?;
    Ok(text)
}

/// Appends the beginning of a signed campaign's diagram, up to its columns: the title, the description, the style sheet
/// and the headline. Fails with `AllocError` if memory runs out.
fn put_head(
    out: &mut String,
    scenario: &Scenario,
    strokes: &[ChainStroke],
    accesses: &[Access],
    marks: DiagramMarks,
    is_cut: bool,
) -> Result<(), AllocError>
    ensures { OnOk result (string_bytes out.new ≡ string_bytes out.old
        ++ head scenario.now strokes.now accesses.now marks is_cut) }
{
    put_title_of(out, scenario)?;
    put_description(out, strokes, accesses, marks, is_cut)?;
    out.push_str(look())?;
    put_headline(out, scenario)?;
    Ok(())
}

/// Appends the title element of a signed campaign's diagram, which describes the campaign. Fails with `AllocError` if
/// memory runs out.
fn put_title_of(out: &mut String, scenario: &Scenario) -> Result<(), AllocError>
    ensures { OnOk result (string_bytes out.new ≡ string_bytes out.old ++ title (signed_words scenario.now)) }
{
    put_title_start(out)?;
    put_signed_words(out, scenario)?;
    put_title_end(out)
}

/// Appends the headline, which describes the campaign, and the words `signed messages` to the left of the columns.
/// Fails with `AllocError` if memory runs out.
fn put_headline(out: &mut String, scenario: &Scenario) -> Result<(), AllocError>
    ensures { OnOk result (string_bytes out.new ≡ string_bytes out.old ++ headline scenario.now) }
{
    put_text_start(out, "head", 16, 28)?;
    put_campaign_of(out, scenario)?;
    put_text_end(out)?;
    put_words(out, "small", 16, 58, "signed")?;
    put_words(out, "small", 16, 72, "messages")
}

/// Appends a description of the campaign: its number of generals, its bound, its commander and his order. Fails with
/// `AllocError` if memory runs out.
fn put_campaign_of(out: &mut String, scenario: &Scenario) -> Result<(), AllocError>
    ensures { OnOk result (string_bytes out.new ≡ string_bytes out.old
        ++ campaign_words scenario.now.generals scenario.now.bound scenario.now.commander scenario.now.order) }
{
    put_campaign(
        out,
        scenario.generals(),
        scenario.bound(),
        scenario.commander(),
        scenario.order(),
    )
}

/// Appends a description of the campaign: its number of generals, its bound, its commander, his order, and that
/// messages are signed.
///
/// # Errors
///
/// Fails with `AllocError` if there is no memory for the text.
pub fn put_signed_words(out: &mut String, scenario: &Scenario) -> Result<(), AllocError>
    ensures { OnOk result (string_bytes out.new ≡ string_bytes out.old ++ signed_words scenario.now) }
{
    put_campaign_of(out, scenario)?;
    out.push_str("; signed messages")
}

/// Appends a description for readers who do not see the diagram. It explains the marks, and has the words of those
/// strokes and accesses for which the diagram has no room. Fails with `AllocError` if memory runs out.
fn put_description(
    out: &mut String,
    strokes: &[ChainStroke],
    accesses: &[Access],
    marks: DiagramMarks,
    is_cut: bool,
) -> Result<(), AllocError>
    ensures { OnOk result (string_bytes out.new ≡ string_bytes out.old
        ++ description strokes.now accesses.now marks is_cut) }
{
    out.push_str(key_start())?;
    put_stroke_key(out, marks)?;
    put_shape_key(out, marks)?;
    put_cut(out, is_cut)?;
    put_several(out, strokes)?;
    put_copied(out, accesses)?;
    put_key_end(out)
}

/// Returns the beginning of the description for readers who do not see the diagram. It says what columns, bands and
/// lines mean.
#[tactic(auto, unfolding(crate::specs::Svg::key_start))]
fn key_start() -> &'static str
    ensures { result.now ≡ key_start }
{
    "<desc>There is a column for each general, and a band for each round, from above. In a band a line leads from \
     the sender of chains to their receiver, one line for each order. The width of the line is its number of chains. \
     Below, in the column of the receiver, is what he received: the order and its signers, the commander first and the \
     sender last."
}

/// Appends the meanings of those marks on strokes that occur in the diagram, for readers who do not see it. Fails with
/// `AllocError` if memory runs out.
fn put_stroke_key(out: &mut String, marks: DiagramMarks) -> Result<(), AllocError>
    ensures { OnOk result (string_bytes out.new ≡ string_bytes out.old ++ stroke_key marks) }
{
    put_if(
        out,
        marks.circle,
        " Circle and plain line: a loyal general in place of the sender would send the same.",
    )?;
    put_if(
        out,
        marks.diamond,
        " Diamond and dashes: a loyal general would not send this.",
    )?;
    put_if(
        out,
        marks.cross,
        " Cross and dots: not sent, but a loyal general would send it.",
    )?;
    Ok(())
}
