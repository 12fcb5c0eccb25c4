//! Draws a campaign with oral messages in SVG. Functions that return a `Result` fail only if memory runs out.
ghost use Rattle.std.specs.Prelude.{◌≡◌, ◌<◌, ◌++◌, codes, flat_map, string_bytes, IfOk, OnOk};
ghost use Rattle.std.specs.List.{range_with_len};
ghost use Rattle.show_diagram.specs.Shapes.{text_at, title};
ghost use Rattle.show_diagram.specs.Words.{general_words};
ghost use Rattle.show_diagram.specs.Svg.{board_head, box_words, campaign_words, description, general_head, head, head_of, heads, key_end, key_start, look, start, stroke_key, svg_text};

use crate::bands::put_bands;
use crate::facts::strokes;
use crate::foot::put_foot;
use crate::layout::{board, column, top_of, width};
use crate::legend::{foot_height, marks, put_shape_key};
use crate::mark::DiagramMarks;
use crate::overflow::{is_cut, put_cut, put_mores, with_rows};
use crate::shapes::{
    put_group_end, put_group_start, put_if, put_mark, put_text_end, put_text_start, put_title_end,
    put_title_start, put_words, shape_of, sort_of,
};
use crate::stroke::Stroke;
use crate::words::{put_copied, put_general, role_words};
use board::Access;
use book::Heard;
use round::Scenario;
use std::alloc::{AllocError, Global};
use world::Chronicle;

/// Returns the diagram of a finished campaign in SVG. `table` is the message table of the chronicle's letters.
///
/// # Errors
///
/// Fails if there is no memory for the text.
#[tactic(auto, unfolding(crate::specs::Svg::svg_text))]
pub fn campaign_svg<H: Heard>(
    alloc: Global,
    table: &H,
    chronicle: &Chronicle,
) -> Result<String, AllocError>
    ensures { IfOk result (λ text. string_bytes text ≡ svg_text (H.seen table.now) chronicle.now) }
{
    let scenario = chronicle.scenario();
    let accesses = chronicle.accesses();
    let strokes = strokes(alloc, table, scenario.order())?;
    let drawn = with_rows(alloc, strokes.as_slice())?;
    let generals = scenario.generals();
    let rounds = scenario.bound() + 1;
    let wide = width(alloc, generals, accesses)?;
    let bottom = top_of(generals, drawn.as_slice(), accesses, rounds);
    let marks = marks(scenario, accesses, drawn.as_slice());
    let is_cut = is_cut(strokes.as_slice());
    let mut text = String::from_str(alloc, start())?;
    put_box(&mut text, wide + 16, bottom + foot_height(marks))?;
    put_head(&mut text, scenario, accesses, marks, is_cut)?;
    put_heads(&mut text, scenario, accesses)?;
    put_bands(
        &mut text,
        generals,
        drawn.as_slice(),
        accesses,
        wide,
        rounds,
    )?;
    put_mores(
        &mut text,
        generals,
        strokes.as_slice(),
        drawn.as_slice(),
        accesses,
        rounds,
    )?;
    put_foot(&mut text, chronicle, marks, wide, bottom)?;
    text.push_str("</svg>\n")?;
    Ok(text)
}

/// Returns the first attributes of every diagram's `svg` element, from `<svg` on.
#[tactic(auto, unfolding(crate::specs::Svg::start))]
pub fn start() -> &'static str
    ensures { result.now ≡ start }
{
    "<svg xmlns=\"http://www.w3.org/2000/svg\" role=\"graphics-document document\""
}

/// Appends the width and the height of a diagram in SVG units and the view box of that size, and ends the opening
/// tag.
///
/// # Errors
///
/// Fails if there is no memory for the text.
#[tactic(auto, unfolding(crate::specs::Svg::box_words))]
pub fn put_box(out: &mut String, width: u128, height: u128) -> Result<(), AllocError>
    ensures { OnOk result (string_bytes out.new ≡ string_bytes out.old ++ box_words width height) }
{
    write!(
        out,
        " width=\"{width}\" height=\"{height}\" viewBox=\"0 0 {width} {height}\">\n"
    )
}

/// Appends the head of a diagram for oral messages: the title, the description, the style sheet and the headline.
fn put_head(
    out: &mut String,
    scenario: &Scenario,
    accesses: &[Access],
    marks: DiagramMarks,
    is_cut: bool,
) -> Result<(), AllocError>
    ensures { OnOk result (string_bytes out.new ≡ string_bytes out.old
        ++ head scenario.now accesses.now marks is_cut) }
{
    put_title_of(out, scenario)?;
    put_description(out, accesses, marks, is_cut)?;
    out.push_str(look())?;
    put_headline(out, scenario)?;
    Ok(())
}

/// Appends the title of a diagram, which describes the campaign in a sentence.
fn put_title_of(out: &mut String, scenario: &Scenario) -> Result<(), AllocError>
    ensures { OnOk result (string_bytes out.new ≡ string_bytes out.old
        ++ title (campaign_words scenario.now.generals scenario.now.bound scenario.now.commander scenario.now.order)) }
{
    put_title_start(out)?;
    put_campaign(
        out,
        scenario.generals(),
        scenario.bound(),
        scenario.commander(),
        scenario.order(),
    )?;
    put_title_end(out)
}

/// Appends the headline above the columns, which describes the campaign in a sentence.
fn put_headline(out: &mut String, scenario: &Scenario) -> Result<(), AllocError>
    ensures { OnOk result (string_bytes out.new ≡ string_bytes out.old ++ text_at (codes "head") 16 28
        (campaign_words scenario.now.generals scenario.now.bound scenario.now.commander scenario.now.order)) }
{
    put_text_start(out, "head", 16, 28)?;
    put_campaign(
        out,
        scenario.generals(),
        scenario.bound(),
        scenario.commander(),
        scenario.order(),
    )?;
    put_text_end(out)
}

/// Appends a description of a campaign: the number of generals, the bound, the commander and his order.
#[tactic(auto, unfolding(crate::specs::Svg::campaign_words))]
pub fn put_campaign(
    out: &mut String,
    generals: u8,
    bound: u8,
    commander: u8,
    order: u32,
) -> Result<(), AllocError>
    ensures { OnOk result (string_bytes out.new ≡ string_bytes out.old
        ++ campaign_words generals bound commander order) }
{
    write!(
        out,
        "{generals} generals, traitors provided for: {bound}; commander {commander} was given order {order}"
    )
}

/// Appends a description of a diagram for readers who cannot see it. It includes the full words of each access that
/// copies words, for which the diagram has no room.
fn put_description(
    out: &mut String,
    accesses: &[Access],
    marks: DiagramMarks,
    is_cut: bool,
) -> Result<(), AllocError>
    ensures { OnOk result (string_bytes out.new ≡ string_bytes out.old ++ description accesses.now marks is_cut) }
{
    out.push_str(key_start())?;
    put_stroke_key(out, marks)?;
    put_shape_key(out, marks)?;
    put_cut(out, is_cut)?;
    put_copied(out, accesses)?;
    put_key_end(out)
}

/// Appends the end tag of a description.
pub fn put_key_end(out: &mut String) -> Result<(), AllocError>
    ensures { OnOk result (string_bytes out.new ≡ string_bytes out.old ++ key_end) }
{
    out.push_str("</desc>\n")
}

/// Returns the start of the description of a diagram for oral messages. It explains columns, bands and lines.
#[tactic(auto, unfolding(crate::specs::Svg::key_start))]
fn key_start() -> &'static str
    ensures { result.now ≡ key_start }
{
    "<desc>There is a column for each general, and a band for each round, from above. In a band a line leads down \
     from the sender of an order to its receiver. The width of the line is its number of labels, up to 5. Below, in the \
     column of the receiver, is what he received."
}

/// Appends sentences that explain circles, diamonds and crosses, if they occur in a diagram for oral messages.
fn put_stroke_key(out: &mut String, marks: DiagramMarks) -> Result<(), AllocError>
    ensures { OnOk result (string_bytes out.new ≡ string_bytes out.old ++ stroke_key marks) }
{
    put_if(
        out,
        marks.circle,
        " Circle and plain line: as an honest relay sends it.",
    )?;
    put_if(
        out,
        marks.diamond,
        " Diamond and dashes: an honest relay would send something else.",
    )?;
    put_if(
        out,
        marks.cross,
        " Cross and dots: nothing was sent, but an order should be sent.",
    )?;
    Ok(())
}

/// Returns the style sheet of a diagram. The background is white, or dark if the reader prefers a dark one.
#[tactic(auto, unfolding(crate::specs::Svg::look))]
pub fn look() -> &'static str
    ensures { result.now ≡ look }
{
    "<style>svg{background:#fff}text{fill:#111;font:13px sans-serif}.head{font:bold 16px sans-serif}\
     .round{font-weight:bold}.small{font-size:12px}.life{stroke:#8a8a8a}\
     .rule{stroke:#8a8a8a;stroke-dasharray:2 4}.access{stroke:#0b5fa5}\
     .stroke{fill:none;stroke:#111;stroke-opacity:.45}\
     .stroke.lie{stroke:#b00020;stroke-opacity:1;stroke-dasharray:9 4}\
     .stroke.none{stroke:#b00020;stroke-opacity:1;stroke-dasharray:2 5}\
     .mark{fill:#fff;stroke:#111;stroke-width:1.5}.mark.lie{fill:#b00020;stroke:#b00020}\
     .mark.none{fill:none;stroke:#b00020;stroke-width:2.5}.mark.point{fill:#0b5fa5;stroke:#0b5fa5}\
     .mark.traitor{fill:#b00020}@media(prefers-color-scheme:dark){svg{background:#111}text{fill:#eee}\
     .stroke,.mark{stroke:#eee}.mark{fill:#111}.access{stroke:#6cb8f5}.mark.point{fill:#6cb8f5;stroke:#6cb8f5}\
     .stroke.lie,.stroke.none,.mark.none{stroke:#ff8095}.mark.lie{fill:#ff8095;stroke:#ff8095}\
     .mark.traitor{fill:#ff8095}}</style>\n"
}

/// Appends the heads of the columns: each general's name and role, and `board` unless `accesses` is empty.
pub fn put_heads(
    out: &mut String,
    scenario: &Scenario,
    accesses: &[Access],
) -> Result<(), AllocError>
    ensures { OnOk result (string_bytes out.new ≡ string_bytes out.old ++ heads scenario.now accesses.now) }
{
    put_board_head(out, scenario.generals(), accesses)?;
    put_general_heads(out, scenario)
}

/// Appends the head of each general's column.
fn put_general_heads(out: &mut String, scenario: &Scenario) -> Result<(), AllocError>
    ensures { OnOk result (string_bytes out.new ≡ string_bytes out.old
        ++ flat_map (head_of scenario.now) (range_with_len 0 scenario.now.generals)) }
{
    for general in 0..scenario.generals() {
        put_head_of(out, scenario, general)?;
    }
    Ok(())
}

/// Appends the head of a general's column: his shape, name and role in the scenario.
fn put_head_of(out: &mut String, scenario: &Scenario, general: u8) -> Result<(), AllocError>
    requires { general < scenario.now.generals }
    ensures { OnOk result (string_bytes out.new ≡ string_bytes out.old ++ head_of scenario.now general) }
{
    let is_commander = general == scenario.commander();
    put_general_head(out, general, is_commander, scenario.is_traitor(general))
}

/// Appends the head of the board's column. Appends nothing if `accesses` is empty.
fn put_board_head(out: &mut String, generals: u8, accesses: &[Access]) -> Result<(), AllocError>
    ensures { OnOk result (string_bytes out.new ≡ string_bytes out.old ++ board_head generals accesses.now) }
{
    match accesses {
        [] => Ok(()),
        [_, ..] => { put_words(out, "name", board(generals), 54, "board") }
    }
}

/// Appends the head of a general's column: his shape, his name and his role.
fn put_general_head(
    out: &mut String,
    general: u8,
    is_commander: bool,
    is_traitor: bool,
) -> Result<(), AllocError>
    ensures { OnOk result (string_bytes out.new ≡ string_bytes out.old
        ++ general_head general is_commander is_traitor) }
{
    put_group_start(out, column(u32::from(general)), 50)?;
    put_mark(out, sort_of(is_traitor), shape_of(is_traitor))?;
    put_name(out, general)?;
    put_words(out, "small", 12, 20, role_words(is_commander, is_traitor))?;
    put_group_end(out)
}

/// Appends a general's name, to the right of his shape.
fn put_name(out: &mut String, general: u8) -> Result<(), AllocError>
    ensures { OnOk result (string_bytes out.new ≡ string_bytes out.old
        ++ text_at (codes "name") 12 4 (general_words general)) }
{
    put_text_start(out, "name", 12, 4)?;
    put_general(out, u32::from(general))?;
    put_text_end(out)
}
