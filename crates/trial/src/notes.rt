//! Writes the notes on slips: calls that should send orders, but have no effect.
ghost use Rattle.std.specs.Prelude.{◌≡◌, ◌++◌, List, flat_map, slice_get, string_bytes, IfOk, OnOk};
ghost use Rattle.label.specs.Relay.{IsShape};
ghost use Rattle.semantics.specs.Relay.{Oral};
ghost use Rattle.trial.specs.Slips.{kind_told};
ghost use Rattle.trial.specs.Notes.{call_place, campaign_notes, in_brackets, letter_note, letter_notes, note_of, place_of, slip_told, trial_notes, unit_told};

use crate::held_chains::HeldChains;
use crate::helper_call::HelperCall;
use crate::letter_replay::letter_slips;
use crate::reasons::put_reason;
use explain::helper_name;
use label::Shape;
use round::{Letter, Round};
use std::alloc::{AllocError, Global};

/// Returns a note for each slip of a trial: a line with the call's unit, the helper, and the reason why the call has no
/// effect. The line also has the unit's place in the source text, if `places` has it. `shape` gives the number of
/// generals, the commander, the program's general and the round.
///
/// # Errors
///
/// Fails with `AllocError` if there is no memory for the text.
pub fn trial_notes(
    alloc: Global,
    calls: &[HelperCall],
    shape: Shape,
    places: &[String],
) -> Result<String, AllocError>
    requires { IsShape shape }
    ensures { IfOk result (λ text. string_bytes text ≡ trial_notes places.now shape calls.now) }
{
    let held = HeldChains::oral();
    let mut text = String::new(alloc);
    for call in calls {
        put_note(alloc, &mut text, &held, shape, places, *call)?;
    }
    Ok(text)
}

/// Appends the note on a slip of a trial.
fn put_note(
    alloc: Global,
    out: &mut String,
    held: &HeldChains,
    shape: Shape,
    places: &[String],
    call: HelperCall,
) -> Result<(), AllocError>
    requires shape { IsShape shape }
    requires oral { held.now ≡ Oral }
    ensures { OnOk result (string_bytes out.new ≡ string_bytes out.old ++ note_of places.now shape call) }
{
    out.push_str("note: at ")?;
    put_unit(out, places, call.unit)?;
    out.push_str(", ")?;
    put_slip(alloc, out, held, shape, call)
}

/// Appends the number of a unit and, if `places` has it, its place in the source text in brackets.
#[tactic(auto, unfolding(crate::specs::Notes::unit_told))]
fn put_unit(out: &mut String, places: &[String], unit: usize) -> Result<(), AllocError>
    ensures { OnOk result (string_bytes out.new ≡ string_bytes out.old ++ unit_told places.now unit) }
{
    write!(out, "{unit}")?;
    put_in_brackets(out, place_of(places, unit))
}

/// Returns the place of a unit in the source text, or an empty text if `places` does not have it.
fn place_of(places: &[String], unit: usize) -> &str
    ensures { result.now ≡ place_of (slice_get places.now unit) }
{
    match places.get(unit) {
        Some(place) => place.as_str(),
        None => "",
    }
}

/// Appends a place in brackets after a space, or nothing if the place is empty.
fn put_in_brackets(out: &mut String, place: &str) -> Result<(), AllocError>
    ensures { OnOk result (string_bytes out.new ≡ string_bytes out.old ++ in_brackets place.now) }
{
    if place.is_empty() {
        return Ok(());
    }
    out.push_str(" (")?;
    out.push_str(place)?;
    out.push_str(")")
}

/// Appends that a call has no effect, and why, such as `sway has no effect: nothing is relayed in this round`.
#[tactic(auto, unfolding(crate::specs::Notes::slip_told))]
fn put_slip(
    alloc: Global,
    out: &mut String,
    held: &HeldChains,
    shape: Shape,
    call: HelperCall,
) -> Result<(), AllocError>
    requires { IsShape shape }
    ensures { OnOk result (string_bytes out.new ≡ string_bytes out.old ++ slip_told held.now shape call) }
{
    let name = helper_name(call.helper);
    write!(out, "{name} has no effect: ")?;
    put_reason(alloc, out, shape, held, call)?;
    out.push_str("\n")
}

/// Returns a note for each slip in these rounds of a campaign: a line with the round, the general,
/// the call's unit, the helper, and the reason why the call has no effect. They are sorted by round and general, and
/// then in the order of the calls.
///
/// # Errors
///
/// Fails with `AllocError` if there is no memory for an outbox, the calls or the text.
#[tactic(auto, unfolding(crate::specs::Notes::campaign_notes))]
pub fn campaign_notes(alloc: Global, rounds: &[Round]) -> Result<String, AllocError>
    ensures { IfOk result (λ text. string_bytes text ≡ campaign_notes rounds.now) }
{
    let mut text = String::new(alloc);
    for round in rounds {
        put_round_notes(alloc, &mut text, round.letters())?;
    }
    Ok(text)
}

/// Appends a note for each slip in a round.
fn put_round_notes(alloc: Global, out: &mut String, letters: &[Letter]) -> Result<(), AllocError>
    ensures { OnOk result (string_bytes out.new ≡ string_bytes out.old ++ flat_map letter_notes letters.now) }
{
    for letter in letters {
        put_letter_notes(alloc, out, letter)?;
    }
    Ok(())
}

/// Appends a note for each slip in the round of a letter.
#[tactic(auto, unfolding(crate::specs::Notes::letter_notes))]
fn put_letter_notes(alloc: Global, out: &mut String, letter: &Letter) -> Result<(), AllocError>
    ensures { OnOk result (string_bytes out.new ≡ string_bytes out.old ++ letter_notes letter.now) }
{
    letter.recall();
    let calls = letter_slips(alloc, letter)?;
    let held = HeldChains::told_in(alloc, letter.context.as_slice())?;
    put_call_notes(alloc, out, &held, letter, calls.as_slice())
}

/// Appends a note for each of these calls, which are slips in the round of a letter.
fn put_call_notes(
    alloc: Global,
    out: &mut String,
    held: &HeldChains,
    letter: &Letter,
    calls: &[HelperCall],
) -> Result<(), AllocError>
    requires { held.now ≡ kind_told letter.now.context }
    ensures { OnOk result (string_bytes out.new ≡ string_bytes out.old
        ++ flat_map (letter_note letter.now) calls.now) }
{
    for call in calls {
        put_letter_note(alloc, out, held, letter, *call)?;
    }
    Ok(())
}

/// Appends the note on a slip in the round of a letter.
fn put_letter_note(
    alloc: Global,
    out: &mut String,
    held: &HeldChains,
    letter: &Letter,
    call: HelperCall,
) -> Result<(), AllocError>
    requires { held.now ≡ kind_told letter.now.context }
    ensures { OnOk result (string_bytes out.new ≡ string_bytes out.old ++ letter_note letter.now call) }
{
    put_call_place(out, letter.round, letter.general, call.unit)?;
    put_slip(alloc, out, held, letter.outbox.shape(), call)
}

/// Appends where a general made a call, such as `note: round 2 general 3 unit 5 `.
#[tactic(auto, unfolding(crate::specs::Notes::call_place))]
fn put_call_place(out: &mut String, round: u32, general: u32, unit: usize) -> Result<(), AllocError>
    ensures { OnOk result (string_bytes out.new ≡ string_bytes out.old ++ call_place round general unit) }
{
    write!(out, "note: round {round} general {general} unit {unit} ")
}
