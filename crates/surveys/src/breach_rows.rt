//! Writes reduced broken campaigns as rows of a table, or as scenarios after a comment line.
ghost use Rattle.std.specs.Prelude.{◌≡◌, ◌++◌, IfOk, OnOk, codes, option_map, string_bytes};
ghost use Rattle.surveys.specs.Breakings.{breaking_head, breaking_row, breaking_text, left_text, numbers_text, seed_left, statements_left, traitors_left};
ghost use Rattle.surveys.specs.Tables.{number_text, padded};

use crate::breach::Breaking;
use crate::campaign_order::statements;
use crate::cells::put_padded;
use crate::scenario_text::plot_text;
use std::alloc::{AllocError, Global};

/// Returns a number in decimal, or `-` for `None`.
fn number_text(alloc: Global, number: Option<u128>) -> Result<String, AllocError>
    ensures { IfOk result (λ text. string_bytes text ≡ number_text number) }
{
    match number {
        None => String::from_str(alloc, "-"),
        Some(number) => format!(in alloc; "{number}"),
    }
}

/// Returns how many traitors the campaign that a search found has after its reduction, or `None` if it found none.
fn traitors_left(found: Option<&Breaking>) -> Option<u128>
    ensures { result ≡ traitors_left (option_map (λ b. b.now) found.entry) }
{
    match found {
        None => None,
        Some(found) => Some(found.breach.plot.traitors.len() as u128),
    }
}

/// Returns how many statements the campaign that a search found has after its reduction, or `None` if it found none.
fn statements_left(found: Option<&Breaking>) -> Option<u128>
    ensures { result ≡ statements_left (option_map (λ b. b.now) found.entry) }
{
    match found {
        None => None,
        Some(found) => Some(statements(&found.breach.plot)),
    }
}

/// Returns the seed of the campaign that a search found, or `None` if it found none.
fn seed_left(found: Option<&Breaking>) -> Option<u128>
    ensures { result ≡ seed_left (option_map (λ b. b.now) found.entry) }
{
    match found {
        None => None,
        Some(found) => Some(u128::from(found.breach.seed)),
    }
}

/// Appends a space, and then `text` with spaces before it up to a width of `width` bytes.
fn put_next(out: &mut String, width: usize, text: &str) -> Result<(), AllocError>
    ensures { OnOk result (string_bytes out.new ≡ string_bytes out.old ++ (codes " " ++ padded width text.now)) }
{
    out.push_str(" ")?;
    put_padded(out, width, text)
}

/// Returns a table row with these five texts, right-aligned in columns of 8, 5, 8, 10 and 4 bytes, and a line feed.
fn breaking_row(
    alloc: Global,
    generals: &str,
    bound: &str,
    traitors: &str,
    statements: &str,
    seed: &str,
) -> Result<String, AllocError>
    ensures { IfOk result (λ row. string_bytes row
        ≡ breaking_row generals.now bound.now traitors.now statements.now seed.now) }
{
    let mut out = String::new(alloc);
    put_padded(&mut out, 8, generals)?;
    put_next(&mut out, 5, bound)?;
    put_next(&mut out, 8, traitors)?;
    put_next(&mut out, 10, statements)?;
    put_next(&mut out, 4, seed)?;
    out.push_str("\n")?;
    Ok(out)
}

/// Returns a comment line with these five texts, such as
/// `# generals 4 bound 1 least found: traitors 2 statements 3 seed 7`, and a line feed.
fn breaking_head(
    alloc: Global,
    generals: &str,
    bound: &str,
    traitors: &str,
    statements: &str,
    seed: &str,
) -> Result<String, AllocError>
    ensures { IfOk result (λ head. string_bytes head
        ≡ breaking_head generals.now bound.now traitors.now statements.now seed.now) }
{
    format!(in alloc;
        "# generals {generals} bound {bound} least found: traitors {traitors} statements {statements} seed {seed}\n"
    )
}

/// Returns the five texts as a table row if `is_table` is true, and otherwise as a comment line, which begins with `#`.
fn words_text(
    alloc: Global,
    is_table: bool,
    generals: &str,
    bound: &str,
    traitors: &str,
    statements: &str,
    seed: &str,
) -> Result<String, AllocError>
    ensures { IfOk result (λ text. string_bytes text
        ≡ numbers_text is_table generals.now bound.now traitors.now statements.now seed.now) }
{
    if is_table {
        breaking_row(alloc, generals, bound, traitors, statements, seed)
    } else {
        breaking_head(alloc, generals, bound, traitors, statements, seed)
    }
}

/// Returns the result of a search as a table row if `is_table` is true, and otherwise as a comment line. It has five
/// numbers: the generals, the bound, and the traitors, the statements and the seed of the campaign found. If none was
/// found, the last three are `-`.
fn numbers_text(
    alloc: Global,
    is_table: bool,
    generals: u8,
    bound: u8,
    found: Option<&Breaking>,
) -> Result<String, AllocError>
    ensures { IfOk result (λ text. string_bytes text ≡ numbers_text is_table (number_text (Some generals))
        (number_text (Some bound)) (number_text (traitors_left (option_map (λ b. b.now) found.entry)))
        (number_text (statements_left (option_map (λ b. b.now) found.entry)))
        (number_text (seed_left (option_map (λ b. b.now) found.entry)))) }
{
    let generals = number_text(alloc, Some(u128::from(generals)))?;
    let bound = number_text(alloc, Some(u128::from(bound)))?;
    let traitors = number_text(alloc, traitors_left(found))?;
    let statements = number_text(alloc, statements_left(found))?;
    let seed = number_text(alloc, seed_left(found))?;
    words_text(
        alloc,
        is_table,
        generals.as_str(),
        bound.as_str(),
        traitors.as_str(),
        statements.as_str(),
        seed.as_str(),
    )
}

/// Returns the campaign that a search found as a scenario in TOML. The text is empty if `is_table` is true, or if the
/// search found none.
fn left_text(alloc: Global, is_table: bool, found: Option<&Breaking>) -> Result<String, AllocError>
    ensures { IfOk result (λ text. string_bytes text
        ≡ left_text is_table (option_map (λ b. b.now) found.entry)) }
{
    if is_table {
        return Ok(String::new(alloc));
    }
    match found {
        None => Ok(String::new(alloc)),
        Some(found) => plot_text(alloc, &found.breach.plot),
    }
}

/// Returns the result of a search with `generals` generals and the bound `bound`. If `is_table` is true, it is a table
/// row with the numbers of the reduced campaign. Otherwise it is a comment line with these numbers, and then the
/// reduced campaign as a scenario, if one was found.
///
/// # Errors
///
/// Fails with `AllocError` if it runs out of memory.
pub fn breaking_text(
    alloc: Global,
    is_table: bool,
    generals: u8,
    bound: u8,
    found: Option<&Breaking>,
) -> Result<String, AllocError>
    ensures { IfOk result (λ text. string_bytes text
        ≡ breaking_text is_table generals bound (option_map (λ b. b.now) found.entry)) }
{
    let mut out = numbers_text(alloc, is_table, generals, bound, found)?;
    out.push_str(left_text(alloc, is_table, found)?.as_str())?;
    Ok(out)
}
