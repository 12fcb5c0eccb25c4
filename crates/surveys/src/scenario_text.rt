//! Writes a drawn campaign as a scenario in TOML.
ghost use Rattle.std.specs.Prelude.{◌≡◌, ◌++◌, OnOk, IfOk, codes, decimal, flat_map, option_map, string_bytes};
ghost use Rattle.surveys.specs.Wording.{call_text, campaign_text, counting_text, lie_text, manner_text, numbers_text, patience_text, plot_text, program_text, said_text, rule_text, source_text, traitor_text};

use crate::family::Family;
use crate::lie::{Lie, LieValue};
use crate::manner::Manner;
use crate::number_text::{put_number, put_numbered};
use crate::plot::{Plot, Traitor};
use crate::seeded_plots::plot_of;
use combine::Rule;
use std::alloc::{AllocError, Global};

/// Appends what a statement sends: a number in decimal, or `r6`, the register that contains the parity of the board's
/// count.
fn put_said(out: &mut String, said: LieValue) -> Result<(), AllocError>
    ensures { OnOk result (string_bytes out.new ≡ string_bytes out.old ++ said_text said) }
{
    match said {
        LieValue::Number(number) => put_number(out, u64::from(number)),
        LieValue::Parity => out.push_str("r6"),
    }
}

/// Appends a call of the helper `sway` in assembly, with a receiver and an order as its arguments.
fn put_sway(out: &mut String, receiver: u8, said: LieValue) -> Result<(), AllocError>
    ensures { OnOk result (string_bytes out.new ≡ string_bytes out.old
        ++ call_text (decimal receiver) (said_text said) (codes "sway")) }
{
    out.push_str("mov r1, ")?;
    put_number(out, u64::from(receiver))?;
    out.push_str("\nmov r2, ")?;
    put_said(out, said)?;
    out.push_str("\ncall ")?;
    out.push_str("sway")?;
    out.push_str("\n")
}

/// Appends a call of a helper that sends a chain in assembly. Its arguments are `said`, an order or the index of a
/// chain, and `receivers`, with bit `g` for general `g`.
fn put_chain(
    out: &mut String,
    said: LieValue,
    receivers: u16,
    helper: &str,
) -> Result<(), AllocError>
    ensures { OnOk result (string_bytes out.new ≡ string_bytes out.old
        ++ call_text (said_text said) (decimal receivers) helper.now) }
{
    out.push_str("mov r1, ")?;
    put_said(out, said)?;
    out.push_str("\nmov r2, ")?;
    put_number(out, u64::from(receivers))?;
    out.push_str("\ncall ")?;
    out.push_str(helper)?;
    out.push_str("\n")
}

/// Appends a call of the helper `honest` in assembly, with a receiver as its argument.
fn put_honest(out: &mut String, receiver: u8) -> Result<(), AllocError>
    ensures { OnOk result (string_bytes out.new ≡ string_bytes out.old ++ codes "mov r1, " ++ decimal receiver
        ++ codes "\ncall honest\n") }
{
    out.push_str("mov r1, ")?;
    put_number(out, u64::from(receiver))?;
    out.push_str("\ncall honest\n")
}

/// Appends a statement of a traitor's program in assembly.
fn put_lie(out: &mut String, lie: Lie) -> Result<(), AllocError>
    ensures { OnOk result (string_bytes out.new ≡ string_bytes out.old ++ lie_text lie) }
{
    match lie {
        Lie::Honest(receiver) => put_honest(out, receiver),
        Lie::Sway(receiver, said) => put_sway(out, receiver, said),
        Lie::Sign(said, receivers) => put_chain(out, said, receivers, "sign_order"),
        Lie::Pass(said, receivers) => put_chain(out, said, receivers, "pass_on"),
    }
}

/// Appends statements of a traitor's program in assembly.
fn put_lies(out: &mut String, lies: &[Lie]) -> Result<(), AllocError>
    ensures { OnOk result (string_bytes out.new ≡ string_bytes out.old ++ flat_map lie_text lies.now) }
{
    for lie in lies {
        put_lie(out, *lie)?;
    }
    Ok(())
}

/// Appends instructions that increment the count on the board and store the parity of the old count in r6, if `counts`
/// is true.
fn put_counting(out: &mut String, counts: bool) -> Result<(), AllocError>
    ensures { OnOk result (string_bytes out.new ≡ string_bytes out.old ++ counting_text counts) }
{
    if !counts {
        return Ok(());
    }
    out.push_str("mov r1, 0\nmov r2, 1\ncall board_add\nmov r6, r0\nand r6, 1\n")
}

/// Appends the program of a traitor in assembly, made of his statements.
#[tactic(auto, unfolding(crate::specs::Wording::program_text))]
fn put_program(out: &mut String, traitor: &Traitor) -> Result<(), AllocError>
    ensures { OnOk result (string_bytes out.new ≡ string_bytes out.old ++ program_text traitor.now) }
{
    put_counting(out, traitor.counts)?;
    put_lies(out, traitor.lies.as_slice())?;
    out.push_str("mov r0, 0\nexit\n")?;
    Ok(())
}

/// Appends the TOML key with the program of a traitor: `code` with the bytecode `given`, or `asm` with his statements
/// in assembly.
#[tactic(auto, unfolding(crate::specs::Wording::source_text))]
fn put_source(out: &mut String, given: Option<&str>, traitor: &Traitor) -> Result<(), AllocError>
    ensures { OnOk result (string_bytes out.new ≡ string_bytes out.old
        ++ source_text (option_map (λ hex. hex.now) given.entry) traitor.now) }
{
    let Some(hex) = given else {
        out.push_str("\nasm = \"\"\"\n")?;
        put_program(out, traitor)?;
        return out.push_str("\"\"\"\n");
    };
    out.push_str("\ncode = \"")?;
    out.push_str(hex)?;
    out.push_str("\"\n")
}

/// Appends the TOML table of a traitor, with his number and his program.
#[tactic(auto, unfolding(crate::specs::Wording::traitor_text))]
fn put_traitor(out: &mut String, given: Option<&str>, traitor: &Traitor) -> Result<(), AllocError>
    ensures { OnOk result (string_bytes out.new ≡ string_bytes out.old
        ++ traitor_text (option_map (λ hex. hex.now) given.entry) traitor.now) }
{
    put_numbered(out, "\n[[traitor]]\ngeneral = ", u64::from(traitor.general))?;
    put_source(out, given, traitor)?;
    Ok(())
}

/// Appends the TOML tables of the traitors.
fn put_traitors(
    out: &mut String,
    given: Option<&str>,
    traitors: &[Traitor],
) -> Result<(), AllocError>
    ensures { OnOk result (string_bytes out.new ≡ string_bytes out.old
        ++ flat_map (traitor_text (option_map (λ hex. hex.now) given.entry)) traitors.now) }
{
    for traitor in traitors {
        put_traitor(out, given, traitor)?;
    }
    Ok(())
}

/// Appends the TOML key `rule`, which names the rule by which orders are combined, unless it is the default.
fn put_rule(out: &mut String, rule: Rule) -> Result<(), AllocError>
    ensures { OnOk result (string_bytes out.new ≡ string_bytes out.old ++ rule_text rule) }
{
    if rule.is_default() {
        return Ok(());
    }
    out.push_str("rule = \"")?;
    out.push_str(rule.name())?;
    out.push_str("\"\n")
}

/// Appends the TOML key for how orders are sent: `messages` if they are signed, and otherwise `rule`, unless it is the
/// default.
fn put_manner(out: &mut String, manner: Manner) -> Result<(), AllocError>
    ensures { OnOk result (string_bytes out.new ≡ string_bytes out.old ++ manner_text manner) }
{
    match manner {
        Manner::Oral(rule) => put_rule(out, rule),
        Manner::Signed => out.push_str("messages = \"signed\"\n"),
    }
}

/// Appends the TOML key `patience`, the number of steps that a traitor may take in a round, if they are limited.
fn put_patience(out: &mut String, patience: Option<u32>) -> Result<(), AllocError>
    ensures { OnOk result (string_bytes out.new ≡ string_bytes out.old ++ patience_text patience) }
{
    let Some(steps) = patience else {
        return Ok(());
    };
    out.push_str("patience = ")?;
    put_number(out, u64::from(steps))?;
    out.push_str("\n")
}

/// Appends the TOML keys `generals`, `bound`, `commander` and `order`.
fn put_numbers(out: &mut String, plot: &Plot) -> Result<(), AllocError>
    ensures { OnOk result (string_bytes out.new ≡ string_bytes out.old ++ numbers_text plot.now) }
{
    put_numbered(out, "generals = ", u64::from(plot.generals))?;
    put_numbered(out, "\nbound = ", u64::from(plot.bound))?;
    put_numbered(out, "\ncommander = ", u64::from(plot.commander))?;
    put_numbered(out, "\norder = ", u64::from(plot.order))?;
    out.push_str("\n")?;
    Ok(())
}

/// Returns a drawn campaign as a scenario in TOML.
///
/// # Errors
///
/// Fails with `AllocError` if it runs out of memory.
#[tactic(auto, unfolding(crate::specs::Wording::plot_text))]
pub fn plot_text(alloc: Global, plot: &Plot) -> Result<String, AllocError>
    ensures { IfOk result (λ text. string_bytes text ≡ plot_text plot.now) }
{
    let mut out = String::new(alloc);
    put_numbers(&mut out, plot)?;
    put_manner(&mut out, plot.manner)?;
    put_patience(&mut out, plot.patience)?;
    put_traitors(&mut out, plot.given.as_deref(), plot.traitors.as_slice())?;
    Ok(out)
}

/// Returns the campaign that `seed` draws from `family` as a scenario in TOML.
///
/// # Errors
///
/// Fails with `AllocError` if it runs out of memory.
pub fn campaign_text(alloc: Global, family: &Family, seed: u64) -> Result<String, AllocError>
    ensures { IfOk result (λ text. string_bytes text ≡ campaign_text family.now seed) }
{
    let plot = plot_of(alloc, family, seed)?;
    plot_text(alloc, &plot)
}
