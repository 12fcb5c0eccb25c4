//! Writes the counts of a survey's outcomes as a table.
ghost use Rattle.std.specs.Prelude.{◌≡◌, ◌++◌, IfOk, OnOk, flat_map, string_bytes};
ghost use Rattle.surveys.specs.Tables.{cells_of, group_text, header, table_text};

use crate::cell::NumberCell;
use crate::cells::put_row;
use crate::group::Group;
use std::alloc::{AllocError, Global};

/// Returns the table cell that shows `number`, `width` characters wide.
fn of(width: usize, number: u64) -> NumberCell
    ensures { result ≡ record { width = width; number = Some number } }
{
    NumberCell {
        width,
        number: Some(number),
    }
}

/// Returns the table cell that shows `number`, or is empty for `None`, `width` characters wide.
fn if_any(width: usize, number: Option<u64>) -> NumberCell
    ensures { result ≡ record { width = width; number = number } }
{
    NumberCell { width, number }
}

/// Returns the cells of a group's row: generals, bound, traitors and campaigns, the count and the least seed of each
/// outcome, and the number of failed campaigns.
pub(crate) fn cells_of(group: &Group) -> [NumberCell; 11]
    ensures { result ≡ cells_of group.now }
{
    let sums = group.sums;
    [
        of(8, u64::from(group.generals)),
        of(5, u64::from(group.bound)),
        of(8, u64::from(group.traitors)),
        of(9, sums.campaigns),
        of(8, sums.kept.count),
        if_any(7, sums.kept.first),
        of(8, sums.broken.count),
        if_any(7, sums.broken.first),
        of(9, sums.disobeyed.count),
        if_any(7, sums.disobeyed.first),
        of(8, group.failed),
    ]
}

/// Appends the table row of a group.
fn put_group(out: &mut String, group: &Group) -> Result<(), AllocError>
    ensures { OnOk result (string_bytes out.new ≡ string_bytes out.old ++ group_text group.now) }
{
    let cells = cells_of(group);
    put_row(out, &cells)
}

/// Appends a table row for each group.
fn put_groups(out: &mut String, groups: &[Group]) -> Result<(), AllocError>
    ensures { OnOk result (string_bytes out.new ≡ string_bytes out.old ++ flat_map group_text groups.now) }
{
    for group in groups {
        put_group(out, group)?;
    }
    Ok(())
}

/// Returns the first line of the table, which names the columns.
#[tactic(auto, unfolding(crate::specs::Tables::header))]
fn header() -> &'static str
    ensures { result.now ≡ header }
{
    " generals bound traitors campaigns     kept   first   broken   first disobeyed   first   failed\n"
}

/// Returns the counts of these groups of campaigns as a table, with a row for each.
///
/// # Errors
///
/// Fails with `AllocError` if it runs out of memory.
pub fn table(alloc: Global, groups: &[Group]) -> Result<String, AllocError>
    ensures { IfOk result (λ text. string_bytes text ≡ table_text groups.now) }
{
    let mut out = String::new(alloc);
    out.push_str(header())?;
    put_groups(&mut out, groups)?;
    Ok(out)
}
