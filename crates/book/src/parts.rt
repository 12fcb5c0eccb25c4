//! Splits the lines of a message table into words and numbers.
ghost use Rattle.std.specs.Prelude.{◌≡◌, ◌≤◌, ◌<◌, ◌^◌, IfSome, option_map, is_some};
ghost use Rattle.text.specs.Stop.{space, dot};
ghost use Rattle.text.specs.Parts.{pieces, left};
ghost use Rattle.book.specs.Grammar.{head_parts, head_of, rule_parts, tell_parts, numbers_of, order_in};
ghost use Rattle.book.specs.Reading.{shape_of};

use combine::Rule;
use text::{Stop, decimal, piece};

const SPACE: Stop = Stop::Byte(b' ');

/// The character between the generals of a label.
pub const DOT: Stop = Stop::Byte(b'.');

/// Reads a first line such as `generals 4 bound 1 commander 0`, which may end in ` rule NAME`. Returns its three
/// numbers and the rule, or `None` if the line does not have this form.
#[tactic(auto, unfolding(crate::specs::Grammar::head_of))]
pub fn head(line: &[u8]) -> Option<(u128, u128, u128, Rule)>
    ensures value { result ≡ head_of line.now }
    ensures small { IfSome result (λ h. (h.0 ≤ 2 ^ 64) × (h.1 ≤ 2 ^ 64) × (h.2 ≤ 2 ^ 64)) }
{
    let (generals, bound, commander, rule) = cut_head(line)?;
    let generals = decimal(generals)?;
    let bound = decimal(bound)?;
    let commander = decimal(commander)?;
    Some((generals, bound, commander, rule))
}

/// Splits a first line such as `generals 4 bound 1 commander 0`, which may end in ` rule NAME`. Returns the texts of
/// the three numbers and the rule, or `None` if the line does not have this form.
fn cut_head(line: &[u8]) -> Option<(&[u8], &[u8], &[u8], Rule)>
    ensures { option_map (λ p. (p.0.now, p.1.now, p.2.now, p.3)) result ≡ head_parts (pieces space line.now) }
{
    let (first, Some(rest)) = piece(SPACE, line) else {
        return None;
    };
    let (generals, Some(rest)) = piece(SPACE, rest) else {
        return None;
    };
    let (second, Some(rest)) = piece(SPACE, rest) else {
        return None;
    };
    let (bound, Some(rest)) = piece(SPACE, rest) else {
        return None;
    };
    let (third, Some(rest)) = piece(SPACE, rest) else {
        return None;
    };
    let (commander, rest) = piece(SPACE, rest);
    if first == b"generals".as_slice()
        && second == b"bound".as_slice()
        && third == b"commander".as_slice()
    {
        Some((generals, bound, commander, rule(rest)?))
    } else {
        None
    }
}

/// Reads `rule NAME`, the end of a first line, and returns the rule. Returns the default rule if `rest` is `None`, and
/// `None` if the text does not have this form or no rule has this name.
#[tactic(auto, using(crate::proofs::PartLemmas::rule_too_long))]
fn rule(rest: Option<&[u8]>) -> Option<Rule>
    ensures { result ≡ rule_parts (left space rest.entry) }
{
    let Some(rest) = rest else {
        return Some(Rule::DEFAULT);
    };
    let (word, Some(rest)) = piece(SPACE, rest) else {
        return None;
    };
    let (name, None) = piece(SPACE, rest) else {
        return None;
    };
    if word == b"rule".as_slice() {
        Rule::named(name)
    } else {
        None
    }
}

/// Splits a line such as `tell 0.2 3 1`. Returns the texts of its label, receiver and order, or `None` if the line does
/// not have this form.
#[tactic(auto, using(crate::proofs::PartLemmas::tell_too_long))]
fn cut_tell(line: &[u8]) -> Option<(&[u8], &[u8], &[u8])>
    ensures { option_map (λ p. (p.0.now, p.1.now, p.2.now)) result ≡ tell_parts (pieces space line.now) }
{
    let (word, Some(rest)) = piece(SPACE, line) else {
        return None;
    };
    let (label, Some(rest)) = piece(SPACE, rest) else {
        return None;
    };
    let (receiver, Some(rest)) = piece(SPACE, rest) else {
        return None;
    };
    let (order, None) = piece(SPACE, rest) else {
        return None;
    };
    if word == b"tell".as_slice() {
        Some((label, receiver, order))
    } else {
        None
    }
}

/// Checks whether the text consists of decimal numbers joined by dots. Returns true if `rest` is `None`.
pub fn are_numbers(rest: Option<&[u8]>) -> bool
    ensures { result ≡ is_some (numbers_of (left dot rest.entry)) }
{
    let mut part = rest;
    while let Some(numbers) = part {
        let (number, behind) = piece(DOT, numbers);
        if decimal(number).is_none() {
            return false;
        }
        part = behind;
    }
    true
}

/// Returns the order in a text, or `None` if the text is not a decimal number below 2^32.
#[tactic(auto, unfolding(crate::specs::Grammar::order_in))]
fn order(part: &[u8]) -> Option<u32>
    ensures { result ≡ order_in part.now }
{
    let number = decimal(part)?;
    if number < 0x1_0000_0000 {
        Some(number as u32)
    } else {
        None
    }
}

/// Reads a line such as `tell 0.2 3 1`. Returns the text of its label, its receiver and its order, or `None` if the
/// line does not have this form.
#[tactic(auto, unfolding(crate::specs::Reading::shape_of))]
pub fn shape(line: &[u8]) -> Option<(&[u8], u128, u32)>
    ensures { option_map (λ s. (s.0.now, s.1, s.2)) result ≡ shape_of line.now }
{
    let (label, receiver, number) = cut_tell(line)?;
    let receiver = decimal(receiver)?;
    let number = order(number)?;
    Some((label, receiver, number))
}
