//! Writes the SVG elements of a diagram: texts, lines, strokes, groups, marks and titles. Coordinates are in SVG
//! units. Functions that return a `Result` fail only if memory runs out.
ghost use Rattle.std.specs.Prelude.{◌≡◌, ◌++◌, string_bytes, OnOk};
ghost use Rattle.show_diagram.specs.Shapes.{bent_start, bent_way, group_end, group_start, line, mark, said_if, shape_of, sort_of, stroke_end, stroke_open, stroke_start, stroke_way, text_at, text_end, text_start, title_end, title_start};

use crate::stroke::StrokePath;
use std::alloc::AllocError;

/// Appends the start of a text at the point (`x`, `y`).
///
/// # Errors
///
/// Fails if there is no memory for the text.
#[tactic(auto, unfolding(crate::specs::Shapes::text_start))]
pub fn put_text_start(out: &mut String, class: &str, x: u128, y: u128) -> Result<(), AllocError>
    ensures { OnOk result (string_bytes out.new ≡ string_bytes out.old ++ text_start class.now x y) }
{
    write!(out, "<text class=\"{class}\" x=\"{x}\" y=\"{y}\">")
}

/// Appends the end tag of a text.
pub fn put_text_end(out: &mut String) -> Result<(), AllocError>
    ensures { OnOk result (string_bytes out.new ≡ string_bytes out.old ++ text_end) }
{
    out.push_str("</text>\n")
}

/// Appends the given words as a text at the point (`x`, `y`).
pub fn put_words(
    out: &mut String,
    class: &str,
    x: u128,
    y: u128,
    words: &str,
) -> Result<(), AllocError>
    ensures { OnOk result (string_bytes out.new ≡ string_bytes out.old ++ text_at class.now x y words.now) }
{
    put_text_start(out, class, x, y)?;
    out.push_str(words)?;
    put_text_end(out)
}

/// Appends a line from (`x`, `y`) to (`u`, `v`).
#[tactic(auto, unfolding(crate::specs::Shapes::line))]
pub fn put_line(
    out: &mut String,
    class: &str,
    x: u128,
    y: u128,
    u: u128,
    v: u128,
) -> Result<(), AllocError>
    ensures { OnOk result (string_bytes out.new ≡ string_bytes out.old ++ line class.now x y u v) }
{
    write!(out, "<path class=\"{class}\" d=\"M{x} {y}L{u} {v}\"/>\n")
}

/// Appends the start of a stroke, a line from (`x`, `y`) to (`u`, `v`) that is `width` units wide. Its title and
/// `put_stroke_end` follow.
pub fn put_stroke_start(
    out: &mut String,
    kind: &str,
    width: u128,
    x: u128,
    y: u128,
    u: u128,
    v: u128,
) -> Result<(), AllocError>
    ensures { OnOk result (string_bytes out.new ≡ string_bytes out.old ++ stroke_start kind.now width x y u v) }
{
    put_stroke_open(out, kind, width)?;
    put_way(out, x, y, u, v)
}

/// Appends the start of a stroke's opening tag, with the class and the width.
#[tactic(auto, unfolding(crate::specs::Shapes::stroke_open))]
fn put_stroke_open(out: &mut String, kind: &str, width: u128) -> Result<(), AllocError>
    ensures { OnOk result (string_bytes out.new ≡ string_bytes out.old ++ stroke_open kind.now width) }
{
    write!(
        out,
        "<path class=\"stroke {kind}\" stroke-width=\"{width}\" d=\""
    )
}

/// Appends the path from (`x`, `y`) to (`u`, `v`) to a stroke's opening tag, and ends the tag.
#[tactic(auto, unfolding(crate::specs::Shapes::stroke_way))]
fn put_way(out: &mut String, x: u128, y: u128, u: u128, v: u128) -> Result<(), AllocError>
    ensures { OnOk result (string_bytes out.new ≡ string_bytes out.old ++ stroke_way x y u v) }
{
    write!(out, "M{x} {y}L{u} {v}\">")
}

/// Appends the start of a stroke that is `width` units wide and has this path. Its title and `put_stroke_end` follow.
pub fn put_bent_start(
    out: &mut String,
    kind: &str,
    width: u128,
    path: StrokePath,
) -> Result<(), AllocError>
    ensures { OnOk result (string_bytes out.new ≡ string_bytes out.old ++ bent_start kind.now width path) }
{
    put_stroke_open(out, kind, width)?;
    put_bent_way(out, path)
}

/// Appends the path of a stroke to its opening tag, and ends the tag.
#[tactic(auto, unfolding(crate::specs::Shapes::bent_way))]
fn put_bent_way(out: &mut String, path: StrokePath) -> Result<(), AllocError>
    ensures { OnOk result (string_bytes out.new ≡ string_bytes out.old ++ bent_way path) }
{
    let StrokePath {
        left,
        top,
        lane,
        turn,
        row,
        tip,
    } = path;
    write!(out, "M{left} {top}L{lane} {turn}V{row}H{tip}\">")
}

/// Appends the end tag of a stroke.
pub fn put_stroke_end(out: &mut String) -> Result<(), AllocError>
    ensures { OnOk result (string_bytes out.new ≡ string_bytes out.old ++ stroke_end) }
{
    out.push_str("</path>\n")
}

/// Appends the start of a group. The point (`x`, `y`) is the origin of the coordinates within it.
#[tactic(auto, unfolding(crate::specs::Shapes::group_start))]
pub fn put_group_start(out: &mut String, x: u128, y: u128) -> Result<(), AllocError>
    ensures { OnOk result (string_bytes out.new ≡ string_bytes out.old ++ group_start x y) }
{
    write!(out, "<g transform=\"translate({x} {y})\">\n")
}

/// Appends the end tag of a group.
pub fn put_group_end(out: &mut String) -> Result<(), AllocError>
    ensures { OnOk result (string_bytes out.new ≡ string_bytes out.old ++ group_end) }
{
    out.push_str("</g>\n")
}

/// Appends a mark with the CSS class `kind` and the path data `outline`.
#[tactic(auto, unfolding(crate::specs::Shapes::mark))]
pub fn put_mark(out: &mut String, kind: &str, outline: &str) -> Result<(), AllocError>
    ensures { OnOk result (string_bytes out.new ≡ string_bytes out.old ++ mark kind.now outline.now) }
{
    write!(out, "<path class=\"mark {kind}\" d=\"{outline}\"/>\n")
}

/// Appends the start tag of a title.
pub fn put_title_start(out: &mut String) -> Result<(), AllocError>
    ensures { OnOk result (string_bytes out.new ≡ string_bytes out.old ++ title_start) }
{
    out.push_str("<title>")
}

/// Appends the end tag of a title.
pub fn put_title_end(out: &mut String) -> Result<(), AllocError>
    ensures { OnOk result (string_bytes out.new ≡ string_bytes out.old ++ title_end) }
{
    out.push_str("</title>\n")
}

/// Returns the CSS class of a general's shape: `traitor` or `loyal`.
pub(crate) fn sort_of(is_traitor: bool) -> &'static str
    ensures { result.now ≡ sort_of is_traitor }
{
    if is_traitor { "traitor" } else { "loyal" }
}

/// Returns the outline of a general's shape as path data: a square for a traitor, and a circle for a loyal general.
pub(crate) fn shape_of(is_traitor: bool) -> &'static str
    ensures { result.now ≡ shape_of is_traitor }
{
    if is_traitor {
        "M-6-6h12v12h-12z"
    } else {
        "M0-6a6 6 0 0 1 0 12a6 6 0 0 1 0-12z"
    }
}

/// Appends `words` if `stands` is true.
#[tactic(auto, unfolding(crate::specs::Shapes::said_if))]
pub fn put_if(out: &mut String, stands: bool, words: &str) -> Result<(), AllocError>
    ensures { OnOk result (string_bytes out.new ≡ string_bytes out.old ++ said_if stands words.now) }
{
    if stands { out.push_str(words) } else { Ok(()) }
}
