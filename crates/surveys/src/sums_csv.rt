//! Writes the counts of a survey's outcomes as CSV.
ghost use Rattle.std.specs.Prelude.{◌≡◌, ◌++◌, IfOk, OnOk, flat_map, string_bytes};
ghost use Rattle.surveys.specs.Csv.{csv_cell, csv_header, csv_number, csv_row, csv_text, interval_text, share_text};
ghost use Rattle.surveys.specs.Tables.{cells_of};

use crate::cell::NumberCell;
use crate::group::Group;
use crate::number_text::put_number;
use crate::sums_table::cells_of;
use crate::wilson::interval;
use std::alloc::{AllocError, Global};

/// Appends a number in decimal, or nothing for `None`.
fn put_if_any(out: &mut String, number: Option<u64>) -> Result<(), AllocError>
    ensures { OnOk result (string_bytes out.new ≡ string_bytes out.old ++ csv_number number) }
{
    match number {
        None => Ok(()),
        Some(number) => put_number(out, number),
    }
}

/// Appends the number of a cell, or nothing if the cell is empty, and a comma. The cell's width is not used.
fn put_cell(out: &mut String, cell: NumberCell) -> Result<(), AllocError>
    ensures { OnOk result (string_bytes out.new ≡ string_bytes out.old ++ csv_cell cell) }
{
    put_if_any(out, cell.number)?;
    out.push_str(",")
}

/// Appends the numbers of the cells, each followed by a comma.
fn put_cells(out: &mut String, cells: &[NumberCell]) -> Result<(), AllocError>
    ensures { OnOk result (string_bytes out.new ≡ string_bytes out.old ++ flat_map csv_cell cells.now) }
{
    for cell in cells {
        put_cell(out, *cell)?;
    }
    Ok(())
}

/// Appends a share in ten-thousandths as a decimal fraction with four places: 625 gives `0.0625`.
fn put_share(out: &mut String, share: u64) -> Result<(), AllocError>
    ensures { OnOk result (string_bytes out.new ≡ string_bytes out.old ++ share_text share) }
{
    let whole = share / 10_000;
    let first = share / 1000 % 10;
    let second = share / 100 % 10;
    let third = share / 10 % 10;
    let fourth = share % 10;
    write!(out, "{whole}.{first}{second}{third}{fourth}")
}

/// Appends the ends of an interval as decimal fractions with a comma between them, or only the comma if there is no
/// interval.
fn put_interval(out: &mut String, ends: Option<(u64, u64)>) -> Result<(), AllocError>
    ensures { OnOk result (string_bytes out.new ≡ string_bytes out.old ++ interval_text ends) }
{
    let Some((low, high)) = ends else {
        return out.push_str(",");
    };
    put_share(out, low)?;
    out.push_str(",")?;
    put_share(out, high)
}

/// Appends the numbers of a group's row, each followed by a comma.
fn put_group(out: &mut String, group: &Group) -> Result<(), AllocError>
    ensures { OnOk result (string_bytes out.new ≡ string_bytes out.old ++ flat_map csv_cell (cells_of group.now)) }
{
    let cells = cells_of(group);
    put_cells(out, &cells)
}

/// Appends the CSV row of a group: its numbers as in the table, and Wilson's interval for the share of its failed
/// campaigns.
fn put_row(out: &mut String, group: &Group) -> Result<(), AllocError>
    ensures { OnOk result (string_bytes out.new ≡ string_bytes out.old ++ csv_row group.now) }
{
    put_group(out, group)?;
    put_interval(out, interval(group.sums.campaigns, group.failed))?;
    out.push_str("\n")?;
    Ok(())
}

/// Appends a CSV row for each group.
fn put_rows(out: &mut String, groups: &[Group]) -> Result<(), AllocError>
    ensures { OnOk result (string_bytes out.new ≡ string_bytes out.old ++ flat_map csv_row groups.now) }
{
    for group in groups {
        put_row(out, group)?;
    }
    Ok(())
}

/// Returns the first line of the CSV text, which names the columns.
#[tactic(auto, unfolding(crate::specs::Csv::csv_header))]
fn csv_header() -> &'static str
    ensures { result.now ≡ csv_header }
{
    "generals,bound,traitors,campaigns,kept,kept_first,broken,broken_first,disobeyed,\
     disobeyed_first,failed,failed_low,failed_high\n"
}

/// Returns the counts of these groups of campaigns as CSV, with a row for each. A row has the numbers of `table` and
/// Wilson's interval for the share of the failed campaigns.
///
/// # Errors
///
/// Fails with `AllocError` if it runs out of memory.
pub fn csv_table(alloc: Global, groups: &[Group]) -> Result<String, AllocError>
    ensures { IfOk result (λ text. string_bytes text ≡ csv_text groups.now) }
{
    let mut out = String::new(alloc);
    out.push_str(csv_header())?;
    put_rows(&mut out, groups)?;
    Ok(out)
}
