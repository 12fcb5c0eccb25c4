//! Draws a lieutenant's tree in SVG: a row for each label, below the row of the label that it extends.
ghost use Rattle.std.specs.Prelude.{◌≡◌, ◌≢◌, ◌<◌, ◌^◌, ◌++◌, string_bytes, IfOk, OnOk};
ghost use Rattle.show_tree.specs.Svg.{head, heading, inside, key, key_start, look, said_if, shape_words, size, start, svg_text, title, view_box};

use crate::legend::{count, marks, put_legend};
use crate::node::{DrawnMarks, Node, View};
use crate::rows::{put_rows, widest};
use crate::shown_labels::nodes;
use book::{Heard, decision};
use std::alloc::{AllocError, Global};

/// The least width of a picture in SVG units, which leaves room for the heading and the legend.
const LEAST: u128 = 300;

/// Returns the tree of what the lieutenant `general` received, in SVG. Each label that is shown is a circle if no lie
/// is known, and a diamond if its message is a lie. It is a square if its message is from a commander who is named as a
/// traitor, and it is not known which order he was given. The outline is dashed if no order has a majority in the
/// label's list.
///
/// # Errors
///
/// Fails if there is no memory for the text.
#[tactic(auto, unfolding(crate::specs::Svg::svg_text))]
pub fn tree_svg<H: Heard>(
    alloc: Global,
    table: &H,
    traitors: &[u8],
    view: View,
    general: u8,
) -> Result<String, AllocError>
    requires general { general < (H.seen table.now).generals }
    requires lieutenant { general ≢ (H.seen table.now).commander }
    ensures { IfOk result (λ text. string_bytes text ≡ svg_text (H.seen table.now) traitors.now view general) }
{
    let nodes = nodes(alloc, table, traitors, view, general)?;
    let width = LEAST.max(48 + widest(alloc, nodes.as_slice())?);
    let marks = marks(nodes.as_slice());
    let height = 64 + 24 * (nodes.len() as u128 + count(marks));
    let mut text = String::from_str(alloc, start())?;
    put_size(&mut text, width, height)?;
    put_view_box(&mut text, width, height)?;
    put_head(&mut text, marks, general, decision(table, general))?;
    put_inside(&mut text, table.generals(), general, nodes.as_slice())?;
    text.push_str("</svg>\n")?;
    Ok(text)
}

/// Returns the first attributes of every picture's `svg` element, from `<svg` on.
#[tactic(auto, unfolding(crate::specs::Svg::start))]
fn start() -> &'static str
    ensures { result.now ≡ start }
{
    "<svg xmlns=\"http://www.w3.org/2000/svg\" role=\"graphics-document document\""
}

/// Appends the width and height of a picture in SVG units, as attributes.
#[tactic(auto, unfolding(crate::specs::Svg::size))]
fn put_size(out: &mut String, width: u128, height: u128) -> Result<(), AllocError>
    ensures { OnOk result (string_bytes out.new ≡ string_bytes out.old ++ size width height) }
{
    write!(out, " width=\"{width}\" height=\"{height}\"")
}

/// Appends the view box of a picture, `width` by `height` SVG units, and ends the opening tag.
#[tactic(auto, unfolding(crate::specs::Svg::view_box))]
fn put_view_box(out: &mut String, width: u128, height: u128) -> Result<(), AllocError>
    ensures { OnOk result (string_bytes out.new ≡ string_bytes out.old ++ view_box width height) }
{
    write!(out, " viewBox=\"0 0 {width} {height}\">")
}

/// Appends the head of a picture: the title, the description, the style sheet and the heading.
fn put_head(out: &mut String, marks: DrawnMarks, general: u8, order: u32) -> Result<(), AllocError>
    ensures { OnOk result (string_bytes out.new ≡ string_bytes out.old ++ head marks general order) }
{
    put_title(out, general, order)?;
    put_key(out, marks)?;
    out.push_str(look())?;
    put_heading(out, general, order)
}

/// Appends the title of a picture, such as `lieutenant 2 decides 1`.
#[tactic(auto, unfolding(crate::specs::Svg::title))]
fn put_title(out: &mut String, general: u8, order: u32) -> Result<(), AllocError>
    ensures { OnOk result (string_bytes out.new ≡ string_bytes out.old ++ title general order) }
{
    write!(out, "<title>lieutenant {general} decides {order}</title>")
}

/// Appends the heading above the rows, such as `lieutenant 2 decides 1`.
#[tactic(auto, unfolding(crate::specs::Svg::heading))]
fn put_heading(out: &mut String, general: u8, order: u32) -> Result<(), AllocError>
    ensures { OnOk result (string_bytes out.new ≡ string_bytes out.old ++ heading general order) }
{
    write!(
        out,
        "<text x=\"10\" y=\"24\">lieutenant {general} decides {order}</text>\n"
    )
}

/// Appends a description of the picture for readers who cannot see it. It explains each mark that occurs.
fn put_key(out: &mut String, marks: DrawnMarks) -> Result<(), AllocError>
    ensures { OnOk result (string_bytes out.new ≡ string_bytes out.old ++ key marks) }
{
    out.push_str(key_start())?;
    put_shape_words(out, marks)?;
    out.push_str("</desc>\n")
}

/// Appends sentences that explain the marks that occur in the picture.
fn put_shape_words(out: &mut String, marks: DrawnMarks) -> Result<(), AllocError>
    ensures { OnOk result (string_bytes out.new ≡ string_bytes out.old ++ shape_words marks) }
{
    put_if(
        out,
        marks.circle,
        " Circle: the message of a general who is not named as a traitor, or who sends what he took.",
    )?;
    put_if(
        out,
        marks.square,
        " Square: the message of a commander who is named as a traitor.",
    )?;
    put_if(out, marks.diamond, " Diamond: a lie.")?;
    put_if(out, marks.dashes, " Dashes: no order has a majority.")?;
    Ok(())
}

/// Returns the start of a picture's description, which explains the rows.
#[tactic(auto, unfolding(crate::specs::Svg::key_start))]
fn key_start() -> &'static str
    ensures { result.now ≡ key_start }
{
    "<desc>Each row is a label, below the label that it extends, with the order that he received for it."
}

/// Appends `words` if `stands` is true.
#[tactic(auto, unfolding(crate::specs::Svg::said_if))]
fn put_if(out: &mut String, stands: bool, words: &str) -> Result<(), AllocError>
    ensures { OnOk result (string_bytes out.new ≡ string_bytes out.old ++ said_if stands words.now) }
{
    if stands { out.push_str(words) } else { Ok(()) }
}

/// Returns the style sheet of a picture. The background is white, or dark if the reader prefers a dark one.
#[tactic(auto, unfolding(crate::specs::Svg::look))]
fn look() -> &'static str
    ensures { result.now ≡ look }
{
    "<style>svg{background:#fff}text{fill:#111;font:14px sans-serif}.line{fill:none;stroke:#767676}\
     .told{fill:#fff;stroke:#111}.word{fill:#ffd24d;stroke:#111}.lie{fill:#b00020;stroke:#111}\
     .split{stroke-dasharray:3 2}@media(prefers-color-scheme:dark){svg{background:#111}text{fill:#eee}\
     .told,.word,.lie{stroke:#eee}.told{fill:#111}}</style>\n"
}

/// Appends the rows of the labels, and the legend.
fn put_inside(out: &mut String, generals: u8, general: u8, nodes: &[Node]) -> Result<(), AllocError>
    ensures { OnOk result (string_bytes out.new ≡ string_bytes out.old ++ inside generals general nodes.now) }
{
    put_rows(out, generals, general, nodes)?;
    put_legend(out, nodes)
}
