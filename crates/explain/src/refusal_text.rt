//! Writes the sentence that says why a program is rejected.
ghost use Rattle.std.specs.Prelude.{◌≡◌, ◌++◌, codes, decimal, string_bytes, OnOk};
ghost use Rattle.std.specs.Fmt.{signed_decimal};
ghost use Rattle.explain.specs.Sentences.{leads_text, structure_text, place_text, reached_text, would_text, named_text, limit_text, misuse_text, extent_text, access_text, above_text, pointer_text, past_text, no_helper_text, numbers_text, together_text, misfit_text, sentence_text};

use crate::names::{HELPERS, helper_name};
use crate::sentence::{AccessMisuse, Misfit, RegisterMisuse, Sentence, Structure};
use crate::values::{NumberSpan, put_known, put_span, region_name};
use absval::AbsVal;
use asm::{put, put_number, put_unsigned};
use helper::Helper;
use helper::reads::numbered;
use insn::Reg;
use semantics::Region;
use std::alloc::AllocError;

/// Appends the name of a register, such as `r1`.
pub(crate) fn put_register(out: &mut String, r: Reg) -> Result<(), AllocError>
    ensures { OnOk result (string_bytes out.new ≡ string_bytes out.old ++ (codes "r" ++ decimal r)) }
{
    put(out, "r")?;
    put_unsigned(out, u64::from(r.number()))
}

/// Appends the name of a register and what is known of it, such as `r1 0 to 255`.
pub(crate) fn put_named(out: &mut String, r: Reg, value: AbsVal) -> Result<(), AllocError>
    ensures { OnOk result (string_bytes out.new ≡ string_bytes out.old ++ named_text r value) }
{
    put_register(out, r)?;
    put(out, " ")?;
    put_known(out, value)
}

/// Appends the name of a register, what is known of it, and then `text`.
fn put_so(out: &mut String, r: Reg, value: AbsVal, text: &str) -> Result<(), AllocError>
    ensures { OnOk result (string_bytes out.new ≡ string_bytes out.old ++ (named_text r value ++ text.now)) }
{
    put_named(out, r, value)?;
    put(out, text)
}

/// Appends `text`, and then a number in decimal.
pub(crate) fn put_counted(out: &mut String, text: &str, number: u64) -> Result<(), AllocError>
    ensures { OnOk result (string_bytes out.new ≡ string_bytes out.old ++ (text.now ++ decimal number)) }
{
    put(out, text)?;
    put_unsigned(out, number)
}

/// Appends `text`, and then a signed number in decimal.
fn put_signed(out: &mut String, text: &str, number: i64) -> Result<(), AllocError>
    ensures { OnOk result (string_bytes out.new ≡ string_bytes out.old ++ (text.now ++ signed_decimal number)) }
{
    put(out, text)?;
    put_number(out, number)
}

/// Appends `front`, a number in decimal, and `behind`.
pub(crate) fn put_between(
    out: &mut String,
    front: &str,
    number: u64,
    behind: &str,
) -> Result<(), AllocError>
    ensures { OnOk result (string_bytes out.new ≡ string_bytes out.old ++ (front.now ++ decimal number ++ behind.now)) }
{
    put(out, front)?;
    put_unsigned(out, number)?;
    put(out, behind)
}

/// Appends `front`, a signed number in decimal, and `behind`.
pub(crate) fn put_signed_between(
    out: &mut String,
    front: &str,
    number: i64,
    behind: &str,
) -> Result<(), AllocError>
    ensures { OnOk result (string_bytes out.new ≡ string_bytes out.old
        ++ (front.now ++ signed_decimal number ++ behind.now)) }
{
    put(out, front)?;
    put_number(out, number)?;
    put(out, behind)
}

/// Appends the unit to which a jump leads, such as `the jump leads to unit 7`.
#[tactic(auto, unfolding(crate::specs::Sentences::leads_text))]
fn put_target(out: &mut String, to: i64) -> Result<(), AllocError>
    ensures { OnOk result (string_bytes out.new ≡ string_bytes out.old ++ leads_text to) }
{
    put_signed(out, "the jump leads to unit ", to)
}

/// Appends the unit to which a jump leads, such as `the jump leads to unit 7`, and then `text`.
fn put_leads(out: &mut String, to: i64, text: &str) -> Result<(), AllocError>
    ensures { OnOk result (string_bytes out.new ≡ string_bytes out.old ++ (leads_text to ++ text.now)) }
{
    put_target(out, to)?;
    put(out, text)
}

/// Appends the sentence about the structure of a program: a jump at fault, or a missing exit.
fn put_structure(out: &mut String, structure: Structure) -> Result<(), AllocError>
    ensures { OnOk result (string_bytes out.new ≡ string_bytes out.old ++ structure_text structure) }
{
    match structure {
        Structure::Back(to) => put_leads(
            out,
            to,
            ": a jump must lead forward, so unroll loops (in C: `#pragma unroll`)",
        ),
        Structure::Out(to, units) => {
            put_leads(out, to, ", but the number of units is ")?;
            put_unsigned(out, units as u64)
        }
        Structure::Inside(to) => put_leads(out, to, ", inside a wide instruction"),
        Structure::NoExit => put(out, "the last instruction is not the exit"),
    }
}

/// Appends a range of offsets in a region, such as `the stack at -8 to -1`.
#[tactic(auto, unfolding(crate::specs::Sentences::place_text))]
fn put_part(out: &mut String, region: Region, span: NumberSpan) -> Result<(), AllocError>
    ensures { OnOk result (string_bytes out.new ≡ string_bytes out.old ++ place_text region span) }
{
    put(out, "the ")?;
    put(out, region_name(region))?;
    put(out, " at ")?;
    put_span(out, span)
}

/// Appends the offsets that may be reached through a register, such as `r1 may reach the stack at -520 to -1`, and then
/// `text`.
#[tactic(auto, unfolding(crate::specs::Sentences::reached_text))]
fn put_reached(
    out: &mut String,
    r: Reg,
    region: Region,
    span: NumberSpan,
    text: &str,
) -> Result<(), AllocError>
    ensures { OnOk result (string_bytes out.new ≡ string_bytes out.old ++ (reached_text r region span ++ text.now)) }
{
    put_register(out, r)?;
    put(out, " may reach ")?;
    put_part(out, region, span)?;
    put(out, text)
}

/// Returns the limit of a pointer's offset that is passed: 65536 if `high`, the greatest offset, is above it, and
/// otherwise -65536.
fn limit(high: i64) -> &'static str
    ensures { result.now ≡ limit_text high }
{
    if high > 65_536 { "65536" } else { "-65536" }
}

/// Appends the beginning `r1 would point` of a sentence, with the given register.
#[tactic(auto, unfolding(crate::specs::Sentences::would_text))]
fn put_would(out: &mut String, r: Reg) -> Result<(), AllocError>
    ensures { OnOk result (string_bytes out.new ≡ string_bytes out.old ++ would_text r) }
{
    put_register(out, r)?;
    put(out, " would point")
}

/// Appends a range of offsets in a region, and the limit that they pass, such as `the stack at 70000, past 65536`.
#[tactic(auto, unfolding(crate::specs::Sentences::past_text))]
fn put_past(out: &mut String, region: Region, span: NumberSpan) -> Result<(), AllocError>
    ensures { OnOk result (string_bytes out.new ≡ string_bytes out.old ++ past_text region span) }
{
    put_part(out, region, span)?;
    put(out, ", past ")?;
    put(out, limit(span.high))
}

/// Appends that a register would point too far, such as `r1 would point into the stack at 70000, past 65536`.
fn put_far(out: &mut String, r: Reg, region: Region, span: NumberSpan) -> Result<(), AllocError>
    ensures { OnOk result (string_bytes out.new ≡ string_bytes out.old ++ misuse_text (RegisterMisuse.Far r region span)) }
{
    put_would(out, r)?;
    put(out, " into ")?;
    put_past(out, region, span)
}

/// Appends the sentence that the pointer in register `r` is not stored as a whole. `base` is the base register of the
/// store, and `at` is what is known of it.
fn put_stored(
    out: &mut String,
    r: Reg,
    value: AbsVal,
    base: Reg,
    at: AbsVal,
) -> Result<(), AllocError>
    ensures { OnOk result (string_bytes out.new ≡ string_bytes out.old ++ misuse_text (RegisterMisuse.Stored r value base at)) }
{
    put_so(out, r, value, ", stored at ")?;
    put_so(
        out,
        base,
        at,
        ": a pointer can be stored only as 8 bytes, with one offset, at one address",
    )
}

/// Appends the sentence about a misuse of a register.
fn put_misuse(out: &mut String, misuse: RegisterMisuse) -> Result<(), AllocError>
    ensures { OnOk result (string_bytes out.new ≡ string_bytes out.old ++ misuse_text misuse) }
{
    match misuse {
        RegisterMisuse::Unset(r) => {
            put_register(out, r)?;
            put(
                out,
                " is read, but may be unset, or of different kinds on different paths",
            )
        }
        RegisterMisuse::Frame => put(out, "r10 is written, but it must mark the end of the stack"),
        RegisterMisuse::Far(r, region, span) => put_far(out, r, region, span),
        RegisterMisuse::EitherSign(r, value) => put_so(
            out,
            r,
            value,
            ": a number that moves a pointer is read as signed, and this one may be above or below 0",
        ),
        RegisterMisuse::Computed(r, value) => put_so(
            out,
            r,
            value,
            ": a pointer can only be copied as 64 bits, or, in its own register, \
             have a number added or subtracted in 64 bits",
        ),
        RegisterMisuse::Compared(r, value) => put_so(
            out,
            r,
            value,
            ": only numbers can be compared",
        ),
        RegisterMisuse::Stored(r, value, base, at) => put_stored(out, r, value, base, at),
        RegisterMisuse::NoBase(r, value) => {
            put_so(out, r, value, ": memory can be reached only by a pointer")
        }
        RegisterMisuse::Exit(value) => {
            put_so(
                out,
                numbered(0),
                value,
                ": a program must end with a number in r0",
            )
        }
    }
}

/// Returns the first and the last offset of a region as text, such as `-512 to -1`.
fn extent(region: Region) -> &'static str
    ensures { result.now ≡ extent_text region }
{
    match region {
        Region::Stack => "-512 to -1",
        Region::Context => "0 to 4095",
    }
}

/// Appends the sentence about a misuse of memory.
fn put_access(out: &mut String, access: AccessMisuse) -> Result<(), AllocError>
    ensures { OnOk result (string_bytes out.new ≡ string_bytes out.old ++ access_text access) }
{
    match access {
        AccessMisuse::Outside(r, region, span) => {
            put_reached(out, r, region, span, ": its bytes are ")?;
            put(out, extent(region))
        }
        AccessMisuse::Empty(r, span, cell) => {
            put_reached(out, r, Region::Stack, span, ": no byte is known at ")?;
            put_number(out, i64::from(cell) - 512)
        }
        AccessMisuse::Context(r, value) => put_so(out, r, value, ": the context is read-only"),
    }
}

/// Appends the greatest number that a helper accepts in an argument, such as `board_get accepts numbers up to 63 here`.
#[tactic(auto, unfolding(crate::specs::Sentences::above_text))]
fn put_above(out: &mut String, helper: Helper, most: u64) -> Result<(), AllocError>
    ensures { OnOk result (string_bytes out.new ≡ string_bytes out.old ++ above_text helper most) }
{
    put(out, helper_name(helper))?;
    put_between(out, " accepts numbers up to ", most, " here")
}

/// Appends that a helper accepts only a pointer in an argument.
#[tactic(auto, unfolding(crate::specs::Sentences::pointer_text))]
fn put_pointer(out: &mut String, helper: Helper) -> Result<(), AllocError>
    ensures { OnOk result (string_bytes out.new ≡ string_bytes out.old ++ pointer_text helper) }
{
    put(out, helper_name(helper))?;
    put(out, " accepts only a pointer here")
}

/// Returns the beginning of the sentence about a number that no helper has.
#[tactic(auto, unfolding(crate::specs::Sentences::no_helper_text))]
fn no_helper() -> &'static str
    ensures { result.now ≡ no_helper_text }
{
    "no helper has the number "
}

/// Appends which numbers the helpers have, such as `: helpers are numbered 1 to 11`.
#[tactic(auto, unfolding(crate::specs::Sentences::numbers_text))]
fn put_numbers(out: &mut String) -> Result<(), AllocError>
    ensures { OnOk result (string_bytes out.new ≡ string_bytes out.old ++ numbers_text) }
{
    put_counted(out, ": helpers are numbered 1 to ", HELPERS.len() as u64)
}

/// Appends that no helper has a number, and which numbers helpers have.
fn put_no_helper(out: &mut String, number: i32) -> Result<(), AllocError>
    ensures { OnOk result (string_bytes out.new ≡ string_bytes out.old ++ misfit_text (Misfit.Helper number)) }
{
    put_signed(out, no_helper(), i64::from(number))?;
    put_numbers(out)
}

/// Returns the beginning of the sentence that slot and count together go past the end of the board.
#[tactic(auto, unfolding(crate::specs::Sentences::together_text))]
fn together() -> &'static str
    ensures { result.now ≡ together_text }
{
    "the sum of r1 and r3 may be "
}

/// Appends the sentence about a call that does not fit its helper.
fn put_misfit(out: &mut String, misfit: Misfit) -> Result<(), AllocError>
    ensures { OnOk result (string_bytes out.new ≡ string_bytes out.old ++ misfit_text misfit) }
{
    match misfit {
        Misfit::Helper(number) => put_no_helper(out, number),
        Misfit::Above(helper, r, value, most) => {
            put_so(out, r, value, ": ")?;
            put_above(out, helper, most)
        }
        Misfit::NoPointer(helper, r, value) => {
            put_so(out, r, value, ": ")?;
            put_pointer(out, helper)
        }
        Misfit::Board(sum) => { put_between(out, together(), sum, ", but the board has 64 words") }
    }
}

/// Appends a sentence that says why a program is rejected.
pub(crate) fn put_sentence_text(out: &mut String, sentence: Sentence) -> Result<(), AllocError>
    ensures { OnOk result (string_bytes out.new ≡ string_bytes out.old ++ sentence_text sentence) }
{
    match sentence {
        Sentence::Structure(structure) => put_structure(out, structure),
        Sentence::Register(misuse) => put_misuse(out, misuse),
        Sentence::Memory(access) => put_access(out, access),
        Sentence::Call(misfit) => put_misfit(out, misfit),
    }
}
