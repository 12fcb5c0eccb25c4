//! The program `bench`, which times the layers of the laboratory and gives them hostile input.
//!
//! `bench times`, or `bench` without a word, times the codec, the verifier, the machine, trees, rounds, oral and signed
//! campaigns, and audits. It prints what it measures on standard output, which is the same at every run, and the times
//! on standard error. hostile_calls.rt describes `bench hostile ..`, and objects.rt describes `bench objects ..`.
//! `bench all PROGRAMS OBJECT NAME..` does all three, with the programs of a file and with the functions of an object.
#![tactic(auto)]

mod bytecode;
mod campaigns;
mod chronicles;
mod figure;
mod hostile_calls;
mod median;
mod musters;
mod objects;
mod plain_measure;
mod report;
mod rounds;
mod shape;
mod task;
mod texts;
mod timing;
mod trees;
mod work;

use anyhow::{Result, bail};
use std::env;
use std::rt::{Clock, Files};
use std::sync::Wait;
use std::thread::Threads;

fn main(rt: HostRuntime) -> Result<()> {
    let words: Vec<String> = env::args(&rt)?.skip(1).collect(rt.alloc())?;
    match words.as_slice() {
        [] => times(&rt),
        [task, words @ ..] => answer(&rt, task.as_str(), words),
    }
}

/// Runs the task `task` with these arguments.
///
/// # Errors
///
/// Fails if there is no such task, or if the task fails.
fn answer<R: Print + Eprint + Clock + Files + Threads + Wait + Sync + AllocGlobal>(
    rt: &R,
    task: &str,
    words: &[String],
) -> Result<()> {
    match task {
        "times" => times(rt),
        "hostile" => hostile_calls::answer(rt, words),
        "objects" => objects::answer(rt, words),
        "all" => match words {
            [_, objects @ ..] => {
                times(rt)?;
                hostile_calls::answer(rt, &words[..1])?;
                objects::answer(rt, objects)
            }
            [] => bail!("all takes a file of programs, an object and names"),
        },
        _ => bail!("the tasks are times, hostile, objects and all"),
    }
}

/// Times all layers of the laboratory, and prints descriptions and times.
fn times<R: Print + Eprint + Clock + Threads + Wait + Sync + AllocGlobal>(rt: &R) -> Result<()> {
    report::report(rt)?;
    trees::report_trees(rt)?;
    rounds::report_rounds(rt)?;
    campaigns::report_campaigns(rt)?;
    musters::report_musters(rt)
}
