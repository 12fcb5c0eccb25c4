//! Reads the operands of instructions: registers, numbers, memory operands and jump targets.

ghost use Rattle.std.specs.Prelude.{◌≡◌, Some, None};
ghost use Rattle.asm.specs.Operand.{register_of, raw_of, fitted, signed_of, offset_of, inside, place_of, is_letter, are_name, is_name as named_well, goal_of};
ghost use Rattle.asm.specs.Views.{aim_view, GivesOption};

use crate::number::{Number, fit32, read_number};
use insn::{Operand, Reg};
use text::{Stop, cut, magnitude};

/// An operand as it is written: a register, or a number of any size.
#[derive(Clone, Copy)]
pub enum Raw {
    Register(Reg),
    Number(Number),
}

/// How the target of a jump is written: as a distance in units of 8 bytes, or as a name. The name itself is not in this
/// value, but stored with it.
#[derive(Clone, Copy)]
pub enum Aim {
    Away(Number),
    Named,
}

/// Reads a register, `r0` to `r10`. Returns `None` if the text is not one.
#[tactic(auto, unfolding(crate::specs::Operand::register_of))]
pub fn register(text: &[u8]) -> Option<Reg>
    ensures { result ≡ register_of text.now }
{
    match text {
        [r, a] if *r == b'r' && b'0' <= *a && *a <= b'9' => Reg::new(*a - b'0'),
        [r, a, b] if *r == b'r' && *a == b'1' && *b == b'0' => Reg::new(10),
        _ => None,
    }
}

/// Reads a register or a number. Returns `None` if the text is neither.
#[tactic(auto, unfolding(crate::specs::Operand::raw_of))]
pub fn read_raw(text: &[u8]) -> Option<Raw>
    ensures { result ≡ raw_of text.now }
{
    if text.len() >= 1 && text[0] == b'r' {
        let reg = register(text)?;
        return Some(Raw::Register(reg));
    }
    let n = read_number(text)?;
    Some(Raw::Number(n))
}

/// Returns an operand for an instruction, or `None` if it is a number that does not fit in 32 bits.
#[tactic(auto, unfolding(crate::specs::Operand::fitted))]
pub fn fit(raw: Raw) -> Option<Operand>
    ensures { result ≡ fitted raw }
{
    match raw {
        Raw::Register(reg) => Some(Operand::Register(reg)),
        Raw::Number(n) => {
            let imm = fit32(n)?;
            Some(Operand::Immediate(imm))
        }
    }
}

/// Reads a number that must have a sign, such as `+8` or `-8`. Returns `None` if the text is not such a number.
#[tactic(auto, unfolding(crate::specs::Operand::signed_of))]
fn signed(text: &[u8]) -> Option<Number>
    ensures { result ≡ signed_of text.now }
{
    if text.is_empty() {
        return None;
    }
    if text[0] == b'+' {
        let magnitude = magnitude(&text[1..])?;
        return Some(Number {
            negative: false,
            magnitude,
        });
    }
    if text[0] == b'-' {
        let magnitude = magnitude(&text[1..])?;
        return Some(Number {
            negative: true,
            magnitude,
        });
    }
    None
}

/// Reads an offset such as `+8` or `-8`. An empty text means 0. Returns `None` if the text is not an offset.
fn offset(text: &[u8]) -> Option<Number>
    ensures { result ≡ offset_of text.now }
{
    if text.is_empty() {
        return Some(Number {
            negative: false,
            magnitude: 0,
        });
    }
    signed(text)
}

/// Returns the text between square brackets, or `None` if it is not in brackets.
fn inner(text: &[u8]) -> Option<&[u8]>
    ensures { GivesOption (λ r. r.now) result (inside text.now) }
{
    if text.len() < 2 {
        return None;
    }
    if text[0] == b'[' && text[text.len() - 1] == b']' {
        let rest = &text[1..];
        return Some(&rest[..rest.len() - 1]);
    }
    None
}

/// Reads a memory operand such as `[r1+8]`, `[r10-8]` or `[r1]`. Returns its register and its offset, or `None` if the
/// text is not such an operand.
#[tactic(auto, unfolding(crate::specs::Operand::place_of))]
pub fn place(text: &[u8]) -> Option<(Reg, Number)>
    ensures { result ≡ place_of text.now }
{
    let inner = inner(text)?;
    let (front, back) = cut(Stop::Sign, inner);
    let base = register(front)?;
    let offset = offset(back)?;
    Some((base, offset))
}

/// Returns whether the byte is a letter or `_`.
pub fn letter(byte: u8) -> bool
    ensures { result ≡ is_letter byte }
{
    (b'a' <= byte && byte <= b'z') || (b'A' <= byte && byte <= b'Z') || byte == b'_'
}

/// Returns whether the text has only letters, digits and `_`.
fn name_bytes(text: &[u8]) -> bool
    ensures { result ≡ are_name text.now }
{
    for byte in text {
        if !(letter(*byte) || (b'0' <= *byte && *byte <= b'9')) {
            return false;
        }
    }
    true
}

/// Returns whether the text is a name: a letter or `_`, then letters, digits or `_`.
pub fn is_name(text: &[u8]) -> bool
    ensures { result ≡ named_well text.now }
{
    text.len() >= 1 && letter(text[0]) && name_bytes(text)
}

/// Reads a jump target: a name, or a distance such as `+2`. Also returns the bytes of the name, which are empty for a
/// distance. Returns `None` if the text is not a target.
#[tactic(auto, unfolding(crate::specs::Operand::goal_of))]
pub fn target(text: &[u8]) -> Option<(Aim, &[u8])>
    ensures { GivesOption (λ t. aim_view t.0 t.1.now) result (goal_of text.now) }
{
    if text.len() >= 1 && letter(text[0]) {
        return if name_bytes(text) {
            Some((Aim::Named, text))
        } else {
            None
        };
    }
    let n = signed(text)?;
    Some((Aim::Away(n), &[]))
}
