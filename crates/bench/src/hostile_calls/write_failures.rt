//! Writes chronicles to writers that fail, and checks which bytes the writers received.
use crate::chronicles::{MessageKind, freely, signed_text, text};
use crate::hostile_calls::campaign::SampleCampaign;
use crate::hostile_calls::writer::Writer;
use anyhow::{Result, bail};
use signed::{SignedChronicle, play_signed};
use std::alloc::Global;
use trace::{Latch, TraceError, write_chronicle, write_signed};
use world::{Chronicle, play};

/// The numbers of bytes that the writers accept at most in one call.
const SIZES: &[usize] = &[1, 7, 4096];

/// A number of writes that is greater than any of the chronicles needs.
const MOST_WRITES: u32 = 100_000;

/// A chronicle with oral or signed messages.
#[derive(Clone, Copy)]
enum Told<'a> {
    Oral(&'a Chronicle),
    Signed(&'a SignedChronicle),
}

impl<'a> Told<'a> {
    /// Writes the chronicle as text to `sink`.
    fn write(&self, sink: &mut Latch<Writer>) -> Result<(), TraceError> {
        match self {
            Told::Oral(chronicle) => write_chronicle(chronicle, sink),
            Told::Signed(chronicle) => write_signed(chronicle, sink),
        }
    }
}

/// Writes the chronicles of seven generals to writers that fail at one write, for each write. Fails unless every
/// failure is reported.
pub fn report<R: Print + AllocGlobal>(rt: &R) -> Result<()> {
    for size in SIZES {
        report_size(rt, *size)?;
    }
    Ok(())
}

/// Writes the chronicles of seven generals to writers that accept at most `size` bytes in one call and fail at one
/// write, for each write. Fails unless every failure is reported.
fn report_size<R: Print + AllocGlobal>(rt: &R, size: usize) -> Result<()> {
    if !are_told(rt.alloc(), size)? || !are_signed_told(rt.alloc(), size)? {
        bail!("a failure is not told");
    }
    println!(rt; "{size} bytes a write: each failure told, behind a beginning")?;
    Ok(())
}

/// Checks whether every failure to write the chronicle with oral messages is reported.
fn are_told(alloc: Global, size: usize) -> Result<bool> {
    let schedule = SampleCampaign::Seven.schedule(alloc)?;
    let scenario = SampleCampaign::Seven.scenario(alloc, MessageKind::Oral)?;
    let chronicle = play(alloc, scenario, &schedule)?;
    let whole = text(alloc, &chronicle)?;
    Ok(fails_at_each_write(alloc, Told::Oral(&chronicle), whole.as_slice(), size))
}

/// Checks whether every failure to write the chronicle with signed messages is reported.
fn are_signed_told(alloc: Global, size: usize) -> Result<bool> {
    let scenario = SampleCampaign::Seven.scenario(alloc, MessageKind::Signed)?;
    let chronicle = play_signed(alloc, scenario, &freely(alloc))?;
    let whole = signed_text(alloc, &chronicle)?;
    Ok(fails_at_each_write(alloc, Told::Signed(&chronicle), whole.as_slice(), size))
}

/// What happens if a text is written to a writer that fails at one of its writes.
#[derive(Clone, Copy)]
enum End {
    /// The writer received the whole text.
    Whole,
    /// The failure was reported, and the writer had received a prefix of the text.
    Told,
    /// Anything else happened.
    Other,
}

/// Writes a chronicle to a writer that fails at its first write, then to one that fails at its second write, and so
/// on, until a writer receives the whole text. Returns whether this happens, and all failures before that are
/// reported.
fn fails_at_each_write(alloc: Global, chronicle: Told<'_>, whole: &[u8], size: usize) -> bool {
    for nth in 1..MOST_WRITES {
        let writer = Writer::new(alloc, size, nth);
        match written(chronicle, whole, writer) {
            End::Whole => return true,
            End::Told => {}
            End::Other => return false,
        }
    }
    false
}

/// Writes a chronicle to a writer, and returns what happens. `whole` is the text of the chronicle.
fn written(chronicle: Told<'_>, whole: &[u8], writer: Writer) -> End {
    let mut sink = Latch::new(writer);
    let answer = chronicle.write(&mut sink);
    let writer = sink.into_writer();
    match answer {
        Ok(()) if writer.taken() == whole => End::Whole,
        Err(TraceError::Write) if whole.starts_with(writer.taken()) => End::Told,
        _ => End::Other,
    }
}
