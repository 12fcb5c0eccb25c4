//! Times work on one program: the plain loop, decoding, verification, and starting and running activations.
ghost use Rattle.std.specs.Prelude.{List, ℕ, OnOk};
ghost use Rattle.insn.specs.declared.insn.Insn.{Insn};
ghost use Rattle.machine.specs.Advance.{IsOfRun, IsAskOfRun};

use crate::bytecode::{UNITS, bytecode};
use crate::plain_measure::{mixed, units_of};
use crate::shape::MeasuredProgram;
use crate::timing::nanoseconds;
use anyhow::{Result, bail};
use board::Board;
use codec::decode;
use machine::{Machine, StopReason};
use mem::Context;
use outbox::{Outbox, Shape};
use semantics::Request;
use std::alloc::Global;
use std::fmt;
use std::rt::Clock;
use std::time::Instant;
use verify::{Verified, verify};

/// How many activations are timed together.
pub const ACTIVATIONS: usize = 16;

/// The general and the round of the timed activations: general 3 of 4 in round 2, who relays one label to two
/// receivers.
const SHAPE: Shape = Shape {
    generals: 4,
    commander: 0,
    general: 3,
    round: 2,
};

/// The kinds of work on a program that are timed.
#[derive(Clone, Copy)]
pub enum TimedWork {
    /// Runs the plain loop over the program's units.
    Plain,
    Decode,
    Verify,
    /// Starts activations, which end before their first step.
    Start,
    /// Runs activations until they exit.
    Run,
}

impl fmt::Display for TimedWork {
    fn fmt<W: fmt::Write>(&self, f: &mut fmt::Formatter<W>) -> fmt::Result {
        f.write_str(match self {
            TimedWork::Plain => "plain loop",
            TimedWork::Decode => "decode",
            TimedWork::Verify => "verify",
            TimedWork::Start => "start",
            TimedWork::Run => "run",
        })
    }
}

/// What the timed work needs: a program as bytecode, as units and as a verified program, and a context.
#[derive(Drop)]
pub struct Material {
    bytecode: Vec<u8>,
    units: Vec<u64>,
    verified: Verified,
    context: Vec<u8>,
}

impl Material {
    /// Builds the program of this shape in all forms that the timed work needs, and a context of zero bytes.
    pub fn of(alloc: Global, shape: &MeasuredProgram) -> Result<Material> {
        let bytecode = bytecode(alloc, shape)?;
        let units = units_of(alloc, bytecode.as_slice())?;
        let verified = accepted(alloc, bytecode.as_slice())?;
        let context = vec![in alloc; 0; Context::BYTES]?;
        Ok(Material {
            bytecode,
            units,
            verified,
            context,
        })
    }
}

/// Decodes and verifies bytecode. Fails if it is not a program, or if the verifier rejects it.
fn accepted(alloc: Global, bytecode: &[u8]) -> Result<Verified> {
    match verify(alloc, decode(alloc, bytecode)?) {
        Ok(verified) => Ok(verified),
        Err(refusal) => Err(refusal.fault.into()),
    }
}

/// Returns how long the work takes once, in nanoseconds. Its results are mixed into `sum`, so that the compiler
/// cannot leave the work out.
pub fn time_once<C: Clock>(
    alloc: Global,
    clock: &C,
    work: TimedWork,
    material: &Material,
    sum: &mut u64,
) -> Result<u64> {
    let bytecode = material.bytecode.as_slice();
    match work {
        TimedWork::Plain => time_plain(clock, material.units.as_slice(), sum),
        TimedWork::Decode => time_decode(alloc, clock, bytecode, sum),
        TimedWork::Verify => time_verify(alloc, clock, bytecode, sum),
        TimedWork::Start => time_activations(alloc, clock, material, 0, sum),
        TimedWork::Run => time_activations(alloc, clock, material, u32::MAX, sum),
    }
}

fn time_plain<C: Clock>(clock: &C, units: &[u64], sum: &mut u64) -> Result<u64> {
    let start = Instant::now(clock)?;
    *sum = mixed(units, *sum);
    nanoseconds(clock, start)
}

fn time_decode<C: Clock>(alloc: Global, clock: &C, bytecode: &[u8], sum: &mut u64) -> Result<u64> {
    let start = Instant::now(clock)?;
    let answer = decode(alloc, bytecode);
    let time = nanoseconds(clock, start);
    match answer {
        Ok(program) => *sum = sum.wrapping_add(program.len() as u64),
        Err(_) => bail!("bytecode is refused"),
    }
    time
}

fn time_verify<C: Clock>(alloc: Global, clock: &C, bytecode: &[u8], sum: &mut u64) -> Result<u64> {
    let program = decode(alloc, bytecode)?;
    let start = Instant::now(clock)?;
    let answer = verify(alloc, program);
    let time = nanoseconds(clock, start);
    match answer {
        Ok(verified) => *sum = sum.wrapping_add(verified.program().len() as u64),
        Err(_) => bail!("a program is refused"),
    }
    time
}

/// Returns how long `ACTIVATIONS` activations take, in nanoseconds. An activation runs until it exits, or has taken
/// `limit` steps.
fn time_activations<C: Clock>(
    alloc: Global,
    clock: &C,
    material: &Material,
    limit: u32,
    sum: &mut u64,
) -> Result<u64> {
    let Some(context) = Context::try_new(material.context.as_slice()) else {
        bail!("a context has 4,096 bytes");
    };
    let mut time = 0u64;
    for _ in 0..ACTIVATIONS {
        let more = time_activation(alloc, clock, &material.verified, &context, limit, sum)?;
        time = time.saturating_add(more);
    }
    Ok(time)
}

/// Returns how long one activation takes, in nanoseconds. It runs until it exits, or has taken `limit` steps.
fn time_activation<C: Clock>(
    alloc: Global,
    clock: &C,
    verified: &Verified,
    context: &Context,
    limit: u32,
    sum: &mut u64,
) -> Result<u64> {
    let mut board = Board::new(alloc, [0; 64]);
    let outbox = Outbox::new(alloc, SHAPE)?;
    let start = Instant::now(clock)?;
    let activation = Machine::start(verified, context, outbox);
    let steps = served(verified, context, activation, &mut board, limit);
    let time = nanoseconds(clock, start);
    *sum = sum.wrapping_add(steps?);
    time
}

/// Runs an activation until it exits, or has taken `limit` steps, and returns the number of steps. The board answers
/// its requests.
fn served(
    verified: &Verified,
    context: &Context,
    mut activation: Machine,
    board: &mut Board,
    limit: u32,
) -> Result<u64>
    requires { IsOfRun verified.now context.now activation }
{
    for _ in 0..UNITS {
        match activation.run(verified, context, limit) {
            StopReason::Asked(request) => answer(&mut activation, board, &request)?,
            StopReason::Exited(_) | StopReason::Limit => return Ok(u64::from(activation.steps())),
        }
    }
    bail!("more requests than units")
}

/// Lets the board answer an activation's request, and resumes the activation with the answer.
fn answer(activation: &mut Machine, board: &mut Board, request: &Request) -> Result<()>
    ensures of_run { OnOk result ((program : List Insn) (context : List ℕ) →
        IsAskOfRun program context request.now activation.old →
        IsOfRun program context activation.new) }
{
    let reply = board.apply(SHAPE.general, SHAPE.round, *request)?;
    activation.resume(request, &reply);
    Ok(())
}
