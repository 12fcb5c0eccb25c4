//! Draws, as a picture in SVG, how often agreement or obedience fails in a survey's campaigns, by the number of
//! traitors.
ghost use Rattle.std.specs.Prelude.{◌≡◌, ◌++◌, ◌<◌, IfOk, None, OnOk, string_bytes};
ghost use Rattle.surveys.specs.Pictures.{bar, base, begins, cell, cells, column, column_heads, columns_of, count, counts, grounds, head, kept, label, left, limit, limit_left, name, percent, picture_text, place, rise, rows_of, share_of, side, size, stand, start, start_of, width};

use crate::columns::Columns;
use crate::group::Group;
use std::alloc::{AllocError, Global};

/// Returns the start of every picture: its SVG tag up to its size.
#[tactic(auto, unfolding(crate::specs::Pictures::start))]
fn start() -> &'static str
    ensures { result.now ≡ start }
{
    "<svg xmlns=\"http://www.w3.org/2000/svg\" role=\"img\""
}

/// Returns the part of a picture that comes before its columns and rows: the title, the description, the style sheet
/// and the legend.
#[tactic(auto, unfolding(crate::specs::Pictures::head))]
fn head() -> &'static str
    ensures { result.now ≡ head }
{
    "<title>where agreement or obedience is broken</title>\n\
     <desc>Each row is for a number of generals, n, and a bound, m. Each column is for a number of traitors. \
     A bar is the share of these campaigns in which loyal lieutenants do not decide alike, or disobey a loyal \
     commander. Dashes: n = 3m + 1, where m is the number of traitors. Green: the campaign's bound is kept.</desc>\n\
     <style>svg{background:#fff}text{fill:#111;font:14px \
     sans-serif}.bar{fill:#b00020}.base,.limit{fill:none;stroke:#767676}\
     .limit{stroke:#0b57d0;stroke-width:2;stroke-dasharray:6 \
     3}.kept{fill:#d7f0da}.share{font-size:12px;text-anchor:middle}\
     @media(prefers-color-scheme:dark){svg{background:#111}text{fill:#eee}.bar{fill:#ff6b7a}.limit{stroke:#8ab4f8}\
     .kept{fill:#143d1b}}</style>\n\
     <text x=\"10\" y=\"24\">campaigns in which agreement is broken or the order disobeyed, \
     by the number of traitors</text>\n\
     <text x=\"10\" y=\"46\">dashes: n = 3m + 1, where m is the number of traitors; \
     green: within the campaign's bound</text>\n\
     <text x=\"10\" y=\"84\">traitors</text>\n"
}

/// Returns the columns of a picture of these groups: one for each number of traitors from the least to the greatest.
fn columns_of(groups: &[Group]) -> Columns
    ensures { result ≡ columns_of groups.now }
{
    let mut first = 14;
    let mut end = 0;
    for group in groups {
        let traitors = u32::from(group.traitors);
        first = traitors.min(first);
        end = (traitors + 1).max(end);
    }
    Columns { first, end }
}

/// Returns how many columns a picture has.
fn count(columns: Columns) -> u64
    ensures { result ≡ count columns }
{
    u64::from(columns.end.saturating_sub(columns.first))
}

/// Returns the x coordinate, in pixels, at which the column of this number of traitors begins.
fn left(columns: Columns, traitors: u32) -> u64
    ensures { result ≡ left columns traitors }
{
    120 + 50 * u64::from(traitors.saturating_sub(columns.first))
}

/// Returns the width of a picture in pixels, with room for its columns and its legend.
fn width(columns: Columns) -> u64
    ensures { result ≡ width columns }
{
    (140 + 50 * count(columns)).max(680)
}

/// Appends the number of traitors above its column.
#[tactic(auto, unfolding(crate::specs::Pictures::column))]
fn put_column(out: &mut String, columns: Columns, traitors: u32) -> Result<(), AllocError>
    ensures { OnOk result (string_bytes out.new ≡ string_bytes out.old ++ column columns traitors) }
{
    let x = left(columns, traitors) + 25;
    write!(
        out,
        "<text class=\"share\" x=\"{x}\" y=\"84\">{traitors}</text>\n"
    )
}

/// Appends the numbers of traitors above the columns.
fn put_columns(out: &mut String, columns: Columns) -> Result<(), AllocError>
    ensures { OnOk result (string_bytes out.new ≡ string_bytes out.old ++ column_heads columns) }
{
    for traitors in columns.first..columns.end {
        put_column(out, columns, traitors)?;
    }
    Ok(())
}

/// Checks whether a group begins a row of the picture. It does if it is the first group, or if the group before it has
/// another number of generals or another bound.
fn begins(before: Option<Group>, group: &Group) -> bool
    ensures { result ≡ begins before group.now }
{
    match before {
        None => true,
        Some(before) => before.generals != group.generals || before.bound != group.bound,
    }
}

/// Returns how many rows the picture of these groups has. Groups in sequence with the same number of generals and the
/// same bound share a row.
fn rows_of(groups: &[Group]) -> u64
    ensures { result ≡ rows_of groups.now }
{
    let mut rows = 0;
    let mut before = None;
    for group in groups {
        if begins(before, group) {
            rows += 1;
        }
        before = Some(*group);
    }
    rows
}

/// Appends the size of a picture, in pixels, to its SVG tag, and ends the tag.
#[tactic(auto, unfolding(crate::specs::Pictures::size))]
fn put_size(out: &mut String, width: u64, height: u128) -> Result<(), AllocError>
    ensures { OnOk result (string_bytes out.new ≡ string_bytes out.old ++ size width height) }
{
    write!(
        out,
        " width=\"{width}\" height=\"{height}\" viewBox=\"0 0 {width} {height}\">\n"
    )
}

/// Appends the start of the label of row `row`: an SVG tag with its position. Rows are counted from 1.
#[tactic(auto, unfolding(crate::specs::Pictures::stand))]
fn put_stand(out: &mut String, row: u64) -> Result<(), AllocError>
    ensures { OnOk result (string_bytes out.new ≡ string_bytes out.old ++ stand row) }
{
    let y = 72 + 44 * u128::from(row);
    write!(out, "<text x=\"10\" y=\"{y}\">")
}

/// Appends the text of a row's label, such as `n = 4, m = 1`: the number of generals and the bound.
#[tactic(auto, unfolding(crate::specs::Pictures::name))]
fn put_name(out: &mut String, group: &Group) -> Result<(), AllocError>
    ensures { OnOk result (string_bytes out.new ≡ string_bytes out.old ++ name group.now) }
{
    let (generals, bound) = (group.generals, group.bound);
    write!(out, "n = {generals}, m = {bound}</text>")
}

/// Appends the horizontal line below the bars of row `row`, which is as long as all columns are wide.
#[tactic(auto, unfolding(crate::specs::Pictures::base))]
fn put_base(out: &mut String, columns: Columns, row: u64) -> Result<(), AllocError>
    ensures { OnOk result (string_bytes out.new ≡ string_bytes out.old ++ base columns row) }
{
    let y = 74 + 44 * u128::from(row);
    let length = 50 * count(columns);
    write!(out, "<path class=\"base\" d=\"M120 {y}h{length}\"/>")
}

/// Returns the x coordinate of a row's dashed line. In the columns left of it, fewer than a third of these generals are
/// traitors, and in those right of it a third or more.
fn limit_left(columns: Columns, generals: u8) -> u64
    ensures { result ≡ limit_left columns generals }
{
    let third = u32::from(generals.saturating_sub(1)) / 3 + 1;
    left(columns, third).min(120 + 50 * count(columns))
}

/// Appends the dashed vertical line of row `row`.
#[tactic(auto, unfolding(crate::specs::Pictures::limit))]
fn put_limit(out: &mut String, columns: Columns, row: u64, group: &Group) -> Result<(), AllocError>
    ensures { OnOk result (string_bytes out.new ≡ string_bytes out.old ++ limit columns row group.now) }
{
    let x = limit_left(columns, group.generals);
    let y = 44 + 44 * u128::from(row);
    write!(out, "<path class=\"limit\" d=\"M{x} {y}v44\"/>\n")
}

/// Appends the label, the base line and the dashed line of row `row`.
fn put_label(out: &mut String, columns: Columns, row: u64, group: &Group) -> Result<(), AllocError>
    ensures { OnOk result (string_bytes out.new ≡ string_bytes out.old ++ label columns row group.now) }
{
    put_stand(out, row)?;
    put_name(out, group)?;
    put_base(out, columns, row)?;
    put_limit(out, columns, row, group)
}

/// Returns the part of `whole` that is as large as the share of the failed campaigns in a group, rounded down. It is 0
/// if the group has no campaigns.
fn share_of(whole: u64, group: &Group) -> u128
    ensures { result ≡ share_of whole group.now }
{
    let campaigns = u128::from(group.sums.campaigns);
    if campaigns == 0 {
        return 0;
    }
    u128::from(group.failed) * u128::from(whole) / campaigns
}

/// Appends the green background of a group's cell, if the bound holds in some of the group's campaigns.
#[tactic(auto, unfolding(crate::specs::Pictures::kept))]
fn put_kept(out: &mut String, columns: Columns, row: u64, group: &Group) -> Result<(), AllocError>
    ensures { OnOk result (string_bytes out.new ≡ string_bytes out.old ++ kept columns row group.now) }
{
    if group.sums.kept.count == 0 {
        return Ok(());
    }
    let x = left(columns, u32::from(group.traitors));
    let y = 44 + 44 * u128::from(row);
    write!(
        out,
        "<rect class=\"kept\" x=\"{x}\" y=\"{y}\" width=\"50\" height=\"44\"/>\n"
    )
}

/// Appends the title of a group's cell, such as `3 of 20`: how many of the group's campaigns failed.
#[tactic(auto, unfolding(crate::specs::Pictures::counts))]
fn put_counts(out: &mut String, group: &Group) -> Result<(), AllocError>
    ensures { OnOk result (string_bytes out.new ≡ string_bytes out.old ++ counts group.now) }
{
    let (failed, campaigns) = (group.failed, group.sums.campaigns);
    write!(out, "<g><title>{failed} of {campaigns}</title>")
}

/// Appends the start of the SVG tag of a group's bar, up to its horizontal position.
#[tactic(auto, unfolding(crate::specs::Pictures::side))]
fn put_side(out: &mut String, columns: Columns, group: &Group) -> Result<(), AllocError>
    ensures { OnOk result (string_bytes out.new ≡ string_bytes out.old ++ side columns group.now) }
{
    let x = left(columns, u32::from(group.traitors)) + 5;
    write!(out, "<rect class=\"bar\" x=\"{x}\"")
}

/// Appends the end of a bar's SVG tag: its vertical position in row `row`, its width, and its height in pixels.
#[tactic(auto, unfolding(crate::specs::Pictures::rise))]
fn put_rise(out: &mut String, row: u64, height: u128) -> Result<(), AllocError>
    ensures { OnOk result (string_bytes out.new ≡ string_bytes out.old ++ rise row height) }
{
    let y = (74 + 44 * u128::from(row)).saturating_sub(height);
    write!(out, " y=\"{y}\" width=\"40\" height=\"{height}\"/></g>")
}

/// Appends the bar of a group's cell in row `row`.
fn put_bar(out: &mut String, columns: Columns, row: u64, group: &Group) -> Result<(), AllocError>
    ensures { OnOk result (string_bytes out.new ≡ string_bytes out.old ++ bar columns row group.now) }
{
    put_side(out, columns, group)?;
    put_rise(out, row, share_of(28, group))
}

/// Appends the share of a group's failed campaigns in per cent, rounded down. If only some failed, but less than 1 per
/// cent, it is `<1%`, escaped for XML.
#[tactic(auto, unfolding(crate::specs::Pictures::percent))]
fn put_percent(out: &mut String, group: &Group) -> Result<(), AllocError>
    ensures { OnOk result (string_bytes out.new ≡ string_bytes out.old ++ percent group.now) }
{
    let percent = share_of(100, group);
    if percent == 0 && group.failed > 0 {
        return out.push_str("&lt;1%");
    }
    write!(out, "{percent}%")
}

/// Appends the start of the label below a group's bar: an SVG tag with its position.
#[tactic(auto, unfolding(crate::specs::Pictures::place))]
fn put_place(out: &mut String, columns: Columns, row: u64, group: &Group) -> Result<(), AllocError>
    ensures { OnOk result (string_bytes out.new ≡ string_bytes out.old ++ place columns row group.now) }
{
    let x = left(columns, u32::from(group.traitors)) + 25;
    let y = 85 + 44 * u128::from(row);
    write!(out, "<text class=\"share\" x=\"{x}\" y=\"{y}\">")
}

/// Appends the cell of a group in row `row`: its title, its bar and its label.
fn put_cell(out: &mut String, columns: Columns, row: u64, group: &Group) -> Result<(), AllocError>
    ensures { OnOk result (string_bytes out.new ≡ string_bytes out.old ++ cell columns row group.now) }
{
    put_counts(out, group)?;
    put_bar(out, columns, row, group)?;
    put_place(out, columns, row, group)?;
    put_percent(out, group)?;
    out.push_str("</text>\n")
}

/// Appends the backgrounds of the groups' cells, row by row.
fn put_grounds(out: &mut String, columns: Columns, groups: &[Group]) -> Result<(), AllocError>
    ensures { OnOk result (string_bytes out.new ≡ string_bytes out.old ++ grounds columns 0 None groups.now) }
{
    let mut row: u64 = 0;
    let mut before = None;
    for group in groups {
        if begins(before, group) {
            row += 1;
        }
        put_kept(out, columns, row, group)?;
        before = Some(*group);
    }
    Ok(())
}

/// Appends the label and the lines of row `row` if `is_first` is true, so that each row has them once.
fn put_start(
    out: &mut String,
    columns: Columns,
    row: u64,
    group: &Group,
    is_first: bool,
) -> Result<(), AllocError>
    ensures { OnOk result (string_bytes out.new ≡ string_bytes out.old ++ start_of columns row group.now is_first) }
{
    if is_first {
        put_label(out, columns, row, group)
    } else {
        Ok(())
    }
}

/// Appends the groups' cells, row by row, with the label and the lines of each row.
fn put_groups(out: &mut String, columns: Columns, groups: &[Group]) -> Result<(), AllocError>
    ensures { OnOk result (string_bytes out.new ≡ string_bytes out.old ++ cells columns 0 None groups.now) }
{
    let mut row: u64 = 0;
    let mut before = None;
    for group in groups {
        let is_first = begins(before, group);
        if is_first {
            row += 1;
        }
        put_start(out, columns, row, group, is_first)?;
        put_cell(out, columns, row, group)?;
        before = Some(*group);
    }
    Ok(())
}

/// Returns a picture of these groups of campaigns in SVG. It has a row for each combination of number of generals and
/// bound that occurs, and a column for each number of traitors from the least to the greatest that occurs. A bar shows the
/// share of campaigns in which the loyal lieutenants do not decide alike or do not obey a loyal commander.
///
/// # Errors
///
/// Fails with `AllocError` if it runs out of memory.
#[tactic(auto, unfolding(crate::specs::Pictures::picture_text))]
pub fn picture(alloc: Global, groups: &[Group]) -> Result<String, AllocError>
    ensures { IfOk result (λ text. string_bytes text ≡ picture_text groups.now) }
{
    let columns = columns_of(groups);
    let mut out = String::from_str(alloc, start())?;
    let height = 94 + 44 * u128::from(rows_of(groups));
    put_size(&mut out, width(columns), height)?;
    out.push_str(head())?;
    put_columns(&mut out, columns)?;
    put_grounds(&mut out, columns, groups)?;
    put_groups(&mut out, columns, groups)?;
    out.push_str("</svg>\n")?;
    Ok(out)
}
