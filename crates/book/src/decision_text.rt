//! Reads a message table from a text, and prints or explains the decisions of its lieutenants.
ghost use Rattle.std.specs.Prelude.{◌≡◌, ◌≢◌, ◌<◌, ◌++◌, IfOk, IfErr, OnOk, Err, string_bytes};
ghost use Rattle.book.specs.Decisions.{decisions_of, TableAgrees};
ghost use Rattle.book.specs.Grammar.{table_told};
ghost use Rattle.book.specs.declared.fault.TableError.TheVariants.{Memory};
ghost use Rattle.book.specs.Answers.{DecidesTable, ExplainsTable};
ghost use Rattle.book.specs.Lines.{decision_line, decision_lines};

use crate::explanation::explain;
use crate::fault::TableError;
use crate::reader::read_table;
use crate::recursion::decisions;
use crate::table::Table;
use std::alloc::{AllocError, Global};

/// Returns a line with the decision of each lieutenant in the message table `text`, such as `decision 2 1`, in
/// ascending order.
///
/// # Errors
///
/// The table's first fault with its line, or `Memory` if out of memory.
pub fn decided(alloc: Global, text: &str) -> Result<String, TableError>
    ensures decided { IfOk result (λ lines. DecidesTable text.now (string_bytes lines)) }
    ensures refused { IfErr result (λ e. e ≢ Memory → table_told text.now ≡ Err e) }
{
    let table = read_table(alloc, text)?;
    Ok(decisions_text(alloc, &table)?)
}

/// Returns an explanation of how the lieutenants in the message table `text` decide, and whether the bound, IC1 and IC2
/// hold if `traitors` are named as traitors.
///
/// # Errors
///
/// The table's first fault with its line, or `Memory` if out of memory.
pub fn explained(alloc: Global, text: &str, traitors: &[u8]) -> Result<String, TableError>
    ensures explained { IfOk result (λ lines. ExplainsTable text.now traitors.now (string_bytes lines)) }
    ensures refused { IfErr result (λ e. e ≢ Memory → table_told text.now ≡ Err e) }
{
    let table = read_table(alloc, text)?;
    Ok(explain(alloc, &table, traitors)?)
}

/// Returns a line for each lieutenant, ascending: his number and the order on which he decides, such as `decision 2 1`.
fn decisions_text(alloc: Global, table: &Table) -> Result<String, AllocError>
    ensures lines { IfOk result (λ lines. string_bytes lines ≡ decision_lines table.now) }
    ensures agree { IfOk result (λ _. TableAgrees table.now (decisions_of table.now)) }
{
    let decisions = decisions(table);
    let orders = decisions.as_slice();
    let mut lines = String::new(alloc);
    let mut place = 0;
    for general in 0..table.generals() {
        if general != table.commander() {
            push_decision(alloc, &mut lines, general, orders[place])?;
            place += 1;
        }
    }
    Ok(lines)
}

/// Appends the line of a lieutenant's decision, such as `decision 2 1`.
fn push_decision(
    alloc: Global,
    lines: &mut String,
    general: u8,
    order: u32,
) -> Result<(), AllocError>
    ensures { OnOk result (string_bytes lines.new ≡ string_bytes lines.old ++ decision_line general order) }
{
    let line = format!(in alloc; "decision {general} {order}\n")?;
    lines.push_str(line.as_str())
}
