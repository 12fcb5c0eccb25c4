//! The program `rows`, which runs tables of tests: `rows NAME..` runs the tables with these names. A row of a table has
//! calls of `byzlab` and their expected answers. The program answers the calls with the functions that `byzlab` uses,
//! and prints which rows have another answer. docs/TESTING.md describes how a table is written.
#![tactic(auto)]

mod call_answers;
mod comparison;
mod item;
mod likeness;
mod lines;
mod questions;
mod reader;
mod rebuilt_lines;
mod report;
mod row;
mod row_files;
mod shelf;

use anyhow::Result;
use std::env;

fn main(rt: HostRuntime) -> Result<()> {
    let names: Vec<String> = env::args(&rt)?.skip(1).collect(rt.alloc())?;
    for name in &names {
        report::report(&rt, name.as_str())?;
    }
    Ok(())
}
