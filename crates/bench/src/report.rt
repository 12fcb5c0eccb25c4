//! Times work on the programs of all shapes, and prints the results.
use crate::bytecode::UNITS;
use crate::figure::Figure;
use crate::median::median;
use crate::shape::{MeasuredProgram, SHAPES};
use crate::timing::TIMES;
use crate::work::{ACTIVATIONS, Material, TimedWork, time_once};
use anyhow::Result;
use std::alloc::Global;
use std::rt::Clock;

/// Times work on the programs of all shapes. Prints descriptions on standard output, and times on standard error.
pub fn report<R: Print + Eprint + Clock + AllocGlobal>(rt: &R) -> Result<()> {
    let mut sum = 0;
    for shape in SHAPES {
        report_shape(rt, shape, &mut sum)?;
    }
    eprintln!(rt; "sum {sum}")?;
    Ok(())
}

/// Returns the kinds of work that are timed on the program of this shape.
fn works(shape: &MeasuredProgram) -> &'static [TimedWork] {
    if shape.is_started {
        &[
            TimedWork::Plain,
            TimedWork::Decode,
            TimedWork::Verify,
            TimedWork::Start,
            TimedWork::Run,
        ]
    } else {
        &[
            TimedWork::Plain,
            TimedWork::Decode,
            TimedWork::Verify,
            TimedWork::Run,
        ]
    }
}

/// Returns the median time of the work, in nanoseconds. The work's results are mixed into `sum`, so that the compiler
/// cannot leave the work out.
fn time_of<C: Clock>(
    alloc: Global,
    clock: &C,
    work: TimedWork,
    material: &Material,
    sum: &mut u64,
) -> Result<u64> {
    let mut times = Vec::with_capacity(alloc, TIMES)?;
    for _ in 0..TIMES {
        times.push(time_once(alloc, clock, work, material, sum)?)?;
    }
    Ok(median(&mut times).unwrap_or(0))
}

fn report_shape<R: Print + Eprint + Clock + AllocGlobal>(
    rt: &R,
    shape: &MeasuredProgram,
    sum: &mut u64,
) -> Result<()> {
    let material = Material::of(rt.alloc(), shape)?;
    let plain = time_of(rt.alloc(), rt, TimedWork::Plain, &material, sum)?;
    for work in works(shape) {
        let time = time_of(rt.alloc(), rt, *work, &material, sum)?;
        report_figure(rt, shape.name, *work, figure(*work, time, plain))?;
    }
    Ok(())
}

/// Returns the figure that is printed for work. `time` is its median time, and `plain` the median time of the plain
/// loop, both in nanoseconds.
fn figure(work: TimedWork, time: u64, plain: u64) -> Figure {
    Figure {
        count: count(work),
        time,
        plain,
    }
}

/// Prints a description of the work on standard output, and its figure on standard error.
fn report_figure<R: Print + Eprint>(
    rt: &R,
    shape: &str,
    work: TimedWork,
    figure: Figure,
) -> Result<()> {
    let (count, things) = (figure.count, things(work));
    println!(rt; "{work}, {shape}: {count} {things}")?;
    eprintln!(rt; "{work}, {shape}: {figure}")?;
    Ok(())
}

/// Returns how many units, activations or steps are timed together in work of this kind.
fn count(work: TimedWork) -> u64 {
    let units = UNITS as u64;
    let activations = ACTIVATIONS as u64;
    match work {
        TimedWork::Plain | TimedWork::Decode | TimedWork::Verify => units,
        TimedWork::Start => activations,
        TimedWork::Run => activations * units,
    }
}

/// Returns what `count` counts for work of this kind: units, activations or steps.
fn things(work: TimedWork) -> &'static str {
    match work {
        TimedWork::Plain | TimedWork::Decode | TimedWork::Verify => "units",
        TimedWork::Start => "activations",
        TimedWork::Run => "steps",
    }
}
