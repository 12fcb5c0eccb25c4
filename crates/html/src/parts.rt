//! Writes the parts of an HTML page: headings, paragraphs, preformatted lines, folds, pictures, lists and tables. A
//! function that returns a `Result` fails only if memory runs out.
ghost use Rattle.std.specs.Prelude.{◌≡◌, ◌++◌, string_bytes, OnOk};
ghost use Rattle.html.specs.Page.{begun_lines, cell, fold_end, fold_start, head, head_start, heading, item_end, item_start, lines, list_end, list_start, paragraph, picture, picture_end, picture_start, picture_tag, row_end, row_start, table_end, table_start, text_item};

use crate::sheet::Sheet;
use crate::visible_text::put_shown;
use std::alloc::AllocError;

/// Appends a heading of the second level with this text.
///
/// # Errors
///
/// Fails if there is no memory for the text.
pub fn put_heading(out: &mut String, text: &str) -> Result<(), AllocError>
    ensures { OnOk result (string_bytes out.new ≡ string_bytes out.old ++ heading text.now) }
{
    out.push_str("<h2>")?;
    put_shown(out, text)?;
    out.push_str("</h2>\n")
}

/// Appends a paragraph with this text. A browser may break its lines elsewhere.
pub fn put_paragraph(out: &mut String, text: &str) -> Result<(), AllocError>
    ensures { OnOk result (string_bytes out.new ≡ string_bytes out.old ++ paragraph text.now) }
{
    out.push_str("<p>")?;
    put_shown(out, text)?;
    out.push_str("</p>\n")
}

/// Appends a preformatted text, in which a browser keeps the lines.
pub fn put_lines(out: &mut String, text: &str) -> Result<(), AllocError>
    ensures { OnOk result (string_bytes out.new ≡ string_bytes out.old ++ lines text.now) }
{
    out.push_str("<pre>\n")?;
    put_shown(out, text)?;
    out.push_str("</pre>\n")
}

/// Appends a preformatted text in which each line begins with a line feed. A browser drops the first line feed.
pub fn put_begun_lines(out: &mut String, text: &str) -> Result<(), AllocError>
    ensures { OnOk result (string_bytes out.new ≡ string_bytes out.old ++ begun_lines text.now) }
{
    out.push_str("<pre>")?;
    put_shown(out, text)?;
    out.push_str("</pre>\n")
}

/// Appends the start of a fold: content that the reader can open and close. The summary is always shown. Everything up
/// to the end of the fold is shown only if it is open.
pub fn put_fold_start(out: &mut String, summary: &str) -> Result<(), AllocError>
    ensures { OnOk result (string_bytes out.new ≡ string_bytes out.old ++ fold_start summary.now) }
{
    out.push_str("<details>\n<summary>")?;
    put_shown(out, summary)?;
    out.push_str("</summary>\n")
}

/// Appends the end of a fold, which the reader can open and close.
pub fn put_fold_end(out: &mut String) -> Result<(), AllocError>
    ensures { OnOk result (string_bytes out.new ≡ string_bytes out.old ++ fold_end) }
{
    out.push_str("</details>\n")
}

/// Appends a picture, which is SVG and is not changed, with a name for screen readers. If the picture is wider than the
/// window, it can be scrolled by keyboard. It is printed on this sheet.
pub fn put_picture(out: &mut String, sheet: Sheet, name: &str, svg: &str) -> Result<(), AllocError>
    ensures { OnOk result (string_bytes out.new ≡ string_bytes out.old ++ picture sheet name.now svg.now) }
{
    put_picture_start(out, sheet, name)?;
    out.push_str(svg)?;
    put_picture_end(out)
}

/// Appends the start of a picture, with its name for screen readers.
fn put_picture_start(out: &mut String, sheet: Sheet, name: &str) -> Result<(), AllocError>
    ensures { OnOk result (string_bytes out.new ≡ string_bytes out.old ++ picture_start sheet name.now) }
{
    out.push_str(picture_tag(sheet))?;
    put_shown(out, name)?;
    out.push_str("\">\n")
}

/// Returns the start tag of a picture up to its name. The style sheet chooses the paper by the classes.
#[tactic(auto, unfolding(crate::specs::Page::picture_tag))]
fn picture_tag(sheet: Sheet) -> &'static str
    ensures { result.now ≡ picture_tag sheet }
{
    match sheet {
        Sheet::Small => "<figure tabindex=\"0\" aria-label=\"",
        Sheet::Large => "<figure class=\"large\" tabindex=\"0\" aria-label=\"",
        Sheet::Several => "<figure class=\"large several\" tabindex=\"0\" aria-label=\"",
    }
}

/// Appends the end of a picture.
fn put_picture_end(out: &mut String) -> Result<(), AllocError>
    ensures { OnOk result (string_bytes out.new ≡ string_bytes out.old ++ picture_end) }
{
    out.push_str("</figure>\n")
}

/// Appends the start of an HTML list.
pub fn put_list_start(out: &mut String) -> Result<(), AllocError>
    ensures { OnOk result (string_bytes out.new ≡ string_bytes out.old ++ list_start) }
{
    out.push_str("<ul>\n")
}

/// Appends the end of an HTML list.
pub fn put_list_end(out: &mut String) -> Result<(), AllocError>
    ensures { OnOk result (string_bytes out.new ≡ string_bytes out.old ++ list_end) }
{
    out.push_str("</ul>\n")
}

/// Appends a list item with this text.
pub fn put_text_item(out: &mut String, text: &str) -> Result<(), AllocError>
    ensures { OnOk result (string_bytes out.new ≡ string_bytes out.old ++ text_item text.now) }
{
    out.push_str("<li>")?;
    put_shown(out, text)?;
    out.push_str("</li>\n")
}

/// Appends the start of a list item that contains other parts, such as a fold.
pub fn put_item_start(out: &mut String) -> Result<(), AllocError>
    ensures { OnOk result (string_bytes out.new ≡ string_bytes out.old ++ item_start) }
{
    out.push_str("<li>\n")
}

/// Appends the end of a list item that contains other parts, such as a fold.
pub fn put_item_end(out: &mut String) -> Result<(), AllocError>
    ensures { OnOk result (string_bytes out.new ≡ string_bytes out.old ++ item_end) }
{
    out.push_str("</li>\n")
}

/// Appends the start of a table.
pub fn put_table_start(out: &mut String) -> Result<(), AllocError>
    ensures { OnOk result (string_bytes out.new ≡ string_bytes out.old ++ table_start) }
{
    out.push_str("<table>\n")
}

/// Appends the end of a table.
pub fn put_table_end(out: &mut String) -> Result<(), AllocError>
    ensures { OnOk result (string_bytes out.new ≡ string_bytes out.old ++ table_end) }
{
    out.push_str("</table>\n")
}

/// Appends the start of a table row.
pub fn put_row_start(out: &mut String) -> Result<(), AllocError>
    ensures { OnOk result (string_bytes out.new ≡ string_bytes out.old ++ row_start) }
{
    out.push_str("<tr>")
}

/// Appends the end of a table row.
pub fn put_row_end(out: &mut String) -> Result<(), AllocError>
    ensures { OnOk result (string_bytes out.new ≡ string_bytes out.old ++ row_end) }
{
    out.push_str("</tr>\n")
}

/// Appends a header cell of a table, for a column with this name.
pub fn put_head(out: &mut String, text: &str) -> Result<(), AllocError>
    ensures { OnOk result (string_bytes out.new ≡ string_bytes out.old ++ head text.now) }
{
    out.push_str(head_start())?;
    put_shown(out, text)?;
    out.push_str("</th>")
}

/// Returns the start tag of a header cell, which names a column of a table.
#[tactic(auto, unfolding(crate::specs::Page::head_start))]
fn head_start() -> &'static str
    ensures { result.now ≡ head_start }
{
    "<th scope=\"col\">"
}

/// Appends a table cell with this text.
pub fn put_cell(out: &mut String, text: &str) -> Result<(), AllocError>
    ensures { OnOk result (string_bytes out.new ≡ string_bytes out.old ++ cell text.now) }
{
    out.push_str("<td>")?;
    put_shown(out, text)?;
    out.push_str("</td>")
}
