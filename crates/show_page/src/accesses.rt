//! The section of a page that lists the accesses to the shared board in a table.
ghost use Rattle.std.specs.Prelude.{◌≡◌, ◌++◌, decimal, flat_map, string_bytes, IfOk, OnOk};
ghost use Rattle.semantics.specs.Replies.{words_in};
ghost use Rattle.show_diagram.specs.Words.{answered_words, asked_words};
ghost use Rattle.html.specs.Page.{cell, head, row};
ghost use Rattle.show_page.specs.Account.{access_heads, access_row, access_table, accesses_heading, accesses_section, accesses_told};

use crate::printers::accesses_printer;
use crate::room::{ROOM_FOR_ACCESSES, roomed};
use board::Access;
use html::{
    Section, put_cell, put_head, put_row_end, put_row_start, put_table_end, put_table_start,
};
use semantics::{Reply, Request};
use show_diagram::words::{put_answered, put_asked};
use std::alloc::{AllocError, Global};

/// Returns the section with the table of these accesses to the board. Its text is empty if there are none.
///
/// # Errors
///
/// Fails if there is no memory for the text.
pub fn accesses_section(alloc: Global, accesses: &[Access]) -> Result<Section, AllocError>
    ensures { IfOk result (λ section. section ≡ accesses_section accesses.now) }
{
    let told = accesses_told(alloc, accesses)?;
    roomed(
        alloc,
        accesses_heading(),
        ROOM_FOR_ACCESSES,
        accesses_printer(),
        told,
    )
}

/// Returns the HTML table of these accesses, or an empty text if there are none.
fn accesses_told(alloc: Global, accesses: &[Access]) -> Result<String, AllocError>
    ensures { IfOk result (λ told. string_bytes told ≡ accesses_told accesses.now) }
{
    let mut told = String::new(alloc);
    if accesses.is_empty() {
        return Ok(told);
    }
    put_table(alloc, &mut told, accesses)?;
    Ok(told)
}

/// Appends an HTML table of these accesses.
fn put_table(alloc: Global, out: &mut String, accesses: &[Access]) -> Result<(), AllocError>
    ensures { OnOk result (string_bytes out.new ≡ string_bytes out.old ++ access_table accesses.now) }
{
    put_table_start(out)?;
    put_heads(out)?;
    put_rows(alloc, out, accesses)?;
    put_table_end(out)
}

/// Appends the table row with the headings of the columns.
fn put_heads(out: &mut String) -> Result<(), AllocError>
    ensures { OnOk result (string_bytes out.new ≡ string_bytes out.old ++ access_heads) }
{
    put_row_start(out)?;
    put_head(out, "Round")?;
    put_head(out, "General")?;
    put_head(out, "What he does")?;
    put_head(out, "What the board answers")?;
    put_row_end(out)
}

/// Appends a table row for each access.
fn put_rows(alloc: Global, out: &mut String, accesses: &[Access]) -> Result<(), AllocError>
    ensures { OnOk result (string_bytes out.new ≡ string_bytes out.old ++ flat_map access_row accesses.now) }
{
    for access in accesses {
        put_access(alloc, out, access)?;
    }
    Ok(())
}

/// Appends the table row of an access.
fn put_access(alloc: Global, out: &mut String, access: &Access) -> Result<(), AllocError>
    ensures { OnOk result (string_bytes out.new ≡ string_bytes out.old ++ access_row access.now) }
{
    put_row_start(out)?;
    put_number(alloc, out, access.round)?;
    put_number(alloc, out, access.general)?;
    put_request(alloc, out, &access.request)?;
    put_reply(alloc, out, access.reply())?;
    put_row_end(out)
}

/// Appends a table cell with this number.
fn put_number(alloc: Global, out: &mut String, number: u32) -> Result<(), AllocError>
    ensures { OnOk result (string_bytes out.new ≡ string_bytes out.old ++ cell (decimal number)) }
{
    let text = format!(in alloc; "{number}")?;
    put_cell(out, text.as_str())
}

/// Appends a table cell that says what a traitor asks the board to do.
fn put_request(alloc: Global, out: &mut String, request: &Request) -> Result<(), AllocError>
    ensures { OnOk result (string_bytes out.new ≡ string_bytes out.old ++ cell (asked_words request.now)) }
{
    let mut text = String::new(alloc);
    put_asked(&mut text, request)?;
    put_cell(out, text.as_str())
}

/// Appends a table cell that says what the board replies.
fn put_reply(alloc: Global, out: &mut String, reply: &Reply) -> Result<(), AllocError>
    ensures { OnOk result (string_bytes out.new ≡ string_bytes out.old ++ cell (answered_words (words_in reply.now))) }
{
    let mut text = String::new(alloc);
    put_answered(&mut text, reply)?;
    put_cell(out, text.as_str())
}

/// Returns the heading of the section with the accesses.
#[tactic(auto, unfolding(crate::specs::Account::accesses_heading))]
fn accesses_heading() -> &'static str
    ensures { result.now ≡ accesses_heading }
{
    "Accesses to the board"
}
