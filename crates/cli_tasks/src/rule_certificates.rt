//! Finds out whether a program is a rule that keeps majorities (subcommand `rule`).
ghost use Rattle.std.specs.Prelude.{◌≡◌, IfOk, IfErr, string_bytes};
ghost use Rattle.rule_program.specs.Evaluation.{evaluated};
ghost use Rattle.cli_tasks.specs.RuleCertificates.{Certifies, IsCertificate, RefusesRule, uncertified_line};

use crate::program_check::accepted_in;
use crate::refusal::InputRefusal;
use cli_words::Notation;
use rule_program::{LostMajority, RuleProgram, first_lost_majority};
use std::alloc::{AllocError, Global};

/// Reads a program in this notation, verifies it, and tries it on all lists that this many generals may combine, at
/// most 13. Returns the line that says that it keeps majorities, or the first list whose majority it loses.
///
/// # Errors
///
/// Fails as `accepted_in` does, with `RuleCall` for the first call if the program calls a helper, and with `Memory` if
/// memory runs out.
pub fn certificate(
    alloc: Global,
    notation: &Notation,
    bytes: &[u8],
    generals: u8,
) -> Result<String, InputRefusal>
    ensures certifies { IfOk result (λ text. Certifies notation.now generals bytes.now (string_bytes text)) }
    ensures refused { IfErr result (RefusesRule notation.now bytes.now) }
{
    let verified = accepted_in(alloc, notation, bytes)?;
    let rule = RuleProgram::try_new(verified)?;
    Ok(certificate_of(alloc, &rule, generals)?)
}

/// Tries the rule on all lists that this many generals may combine, at most 13, and returns the line of its
/// certificate.
fn certificate_of(alloc: Global, rule: &RuleProgram, generals: u8) -> Result<String, AllocError>
    ensures { IfOk result (λ text. IsCertificate (evaluated rule.now) generals (string_bytes text)) }
{
    let longest = usize::from(generals).saturating_sub(1).min(12);
    match first_lost_majority(alloc, rule, longest)? {
        Some(lost) => uncertified(alloc, &lost),
        None => Ok(format!(in alloc; "certified generals {generals}\n")?),
    }
}

/// Returns the line that shows the majority that a rule loses.
fn uncertified(alloc: Global, lost: &LostMajority) -> Result<String, AllocError>
    ensures { IfOk result (λ text. string_bytes text
        ≡ uncertified_line lost.now.majority lost.now.returned lost.now.orders.items) }
{
    let majority = lost.majority;
    let returned = lost.returned;
    let mut line = format!(in alloc; "uncertified majority {majority} result {returned} list")?;
    for order in lost.orders.as_slice() {
        write!(line, " {order}")?;
    }
    line.push_str("\n")?;
    Ok(line)
}
