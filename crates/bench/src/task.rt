//! Times work on labels, trees, campaigns and threads.

use crate::chronicles::MessageKind;
use crate::median::median;
use crate::timing::{TIMES, report_time};
use crate::{campaigns, musters, trees};
use anyhow::Result;
use combine::Rule;
use label::Label;
use round::Scenario;
use std::rt::Clock;
use std::sync::Wait;
use std::thread::Threads;
use tree::Tree;

/// Work that is timed as a whole.
#[derive(Clone, Copy)]
pub enum Workload<'a> {
    /// Computes the ranks of these labels.
    Ranks(&'a [Label]),
    /// Resolves one of these trees by a rule. The number of the attempt chooses the tree, so that successive attempts
    /// resolve different trees.
    Tree(&'a [Tree], Rule),
    /// Resolves all these trees, one after another.
    Turns(&'a [Tree]),
    /// Resolves all these trees in parallel.
    Halves(&'a [Tree]),
    /// Plays a campaign, from its scenario to its chronicle.
    Play(MessageKind, &'a Scenario),
    /// Plays a campaign, from the text of its scenario to the text of its chronicle.
    Tell(MessageKind, &'a str),
    /// Audits a text as the chronicle of a scenario.
    Audit(MessageKind, &'a Scenario, &'a str),
    /// Plays a campaign with signed messages. Only the slowest close of a round is timed.
    Close(&'a Scenario),
    /// Plays a campaign from its scenario to its chronicle, with a thread for each general.
    Muster(MessageKind, &'a Scenario),
    /// Starts threads that do nothing, one for each general in each round. The fields are the numbers of generals and
    /// rounds.
    Threads(u8, u8),
}

/// Returns how long the work takes once, in nanoseconds. `nth` is the number of the attempt, which chooses a tree.
/// The work's results are added to `sum`, so that the compiler cannot leave the work out.
fn time_once<R: Clock + Threads + Wait + Sync + AllocGlobal>(
    rt: &R,
    task: &Workload<'_>,
    nth: usize,
    sum: &mut u64,
) -> Result<u64> {
    let alloc = rt.alloc();
    match *task {
        Workload::Ranks(labels) => trees::rank_all(rt, labels, sum),
        Workload::Tree(all, rule) => trees::resolve_one(rt, all, &rule, nth, sum),
        Workload::Turns(all) => trees::resolve_in_turn(rt, all, sum),
        Workload::Halves(all) => trees::resolve_at_once(rt, all),
        Workload::Play(messages, scenario) => campaigns::play_once(alloc, rt, messages, scenario),
        Workload::Tell(messages, text) => campaigns::tell_once(alloc, rt, messages, text),
        Workload::Audit(messages, scenario, text) => {
            campaigns::audit_once(alloc, rt, messages, scenario, text)
        }
        Workload::Close(scenario) => campaigns::close_once(alloc, rt, scenario),
        Workload::Muster(messages, scenario) => musters::muster_once(rt, messages, scenario),
        Workload::Threads(generals, rounds) => musters::start_once(rt, generals, rounds, sum),
    }
}

/// Returns the median time of the work, in nanoseconds. The work's results are added to `sum`.
fn median_time<R: Clock + Threads + Wait + Sync + AllocGlobal>(
    rt: &R,
    task: &Workload<'_>,
    sum: &mut u64,
) -> Result<u64> {
    let mut times = Vec::with_capacity(rt.alloc(), TIMES)?;
    for nth in 0..TIMES {
        times.push(time_once(rt, task, nth, sum)?)?;
    }
    Ok(median(&mut times).unwrap_or(0))
}

/// Times the work. Prints the description `what` on standard output, and the median time on standard error.
pub fn report_task<R: Print + Eprint + Clock + Threads + Wait + Sync + AllocGlobal>(
    rt: &R,
    what: &str,
    task: &Workload<'_>,
) -> Result<()> {
    let mut sum = 0;
    let time = median_time(rt, task, &mut sum)?;
    report_time(rt, what, time)?;
    eprintln!(rt; "sum {sum}")?;
    Ok(())
}
