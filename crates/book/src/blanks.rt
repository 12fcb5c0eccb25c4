//! Writes a message table to fill in: a question mark is in place of each order.
ghost use Rattle.std.specs.Prelude.{◌≡◌, ◌≢◌, ◌≤◌, ◌+◌, ◌++◌, true, false, length, IfOk, IfErr, OnOk, string_bytes};
ghost use Rattle.book.specs.declared.fault.TableFault.TheVariants.{Range};
ghost use Rattle.book.specs.declared.fault.TableError.TheVariants.{At, Memory};
ghost use Rattle.book.specs.Forms.{blank, form_text, place_line, place_lines};
ghost use Rattle.book.specs.Grammar.{is_within};

use crate::fault::{TableError, TableFault};
use crate::lists::dotted;
use crate::reader::is_within;
use label::Label;
use std::alloc::{AllocError, Global};

/// Returns the message table of a campaign with a question mark in place of each order, to fill in. After the first
/// line comes a line for each label and receiver, such as `tell 0.2 3 ?`, the shorter labels first. `read_table`
/// rejects such a line until an order replaces the mark.
///
/// # Errors
///
/// `Range` at line 1 if the numbers are out of their limits, which are those of the first line of a table. `Memory` if
/// out of memory.
pub fn form(alloc: Global, generals: u64, bound: u64, commander: u64) -> Result<String, TableError>
    ensures form { IfOk result (λ text. string_bytes text ≡ form_text generals bound commander) }
    ensures within { IfOk result (λ _. is_within generals bound commander ≡ true) }
    ensures fault { IfErr result (λ e. e ≢ Memory → (e ≡ At Range 1) × (is_within generals bound commander ≡ false)) }
{
    if !is_within(
        u128::from(generals),
        u128::from(bound),
        u128::from(commander),
    ) {
        return Err(TableError::At(TableFault::Range, 1));
    }
    let mut text = format!(in alloc; "generals {generals} bound {bound} commander {commander}\n")?;
    let label = Label::of(commander as u8);
    for more in 0..bound as u8 + 1 {
        push_blanks(alloc, &mut text, generals as u8, &label, more)?;
    }
    Ok(text)
}

/// Appends a line with a question mark for each receiver of each label that begins with `label` and has `more` further
/// generals.
fn push_blanks(
    alloc: Global,
    text: &mut String,
    generals: u8,
    label: &Label,
    more: u8,
) -> Result<(), AllocError>
    requires few { generals ≤ 13 }
    requires room { length label.now + more ≤ 13 }
    ensures { OnOk result (string_bytes text.new ≡ string_bytes text.old ++ place_lines blank generals more label.now) }
{
    if more == 0 {
        return push_receivers(alloc, text, generals, label);
    }
    for general in 0..generals {
        if !label.has(general) {
            push_blanks(alloc, text, generals, &label.with(general), more - 1)?;
        }
    }
    Ok(())
}

/// Appends one line for each receiver of a label, which is each general who is not on the label. The line has a
/// question mark in place of the order.
fn push_receivers(
    alloc: Global,
    text: &mut String,
    generals: u8,
    label: &Label,
) -> Result<(), AllocError>
    ensures { OnOk result (string_bytes text.new ≡ string_bytes text.old ++ place_lines blank generals 0 label.now) }
{
    for receiver in 0..generals {
        if !label.has(receiver) {
            push_blank(alloc, text, label, receiver)?;
        }
    }
    Ok(())
}

/// Appends the line of a label and a receiver, with a question mark in place of the order, such as `tell 0.2 3 ?`.
fn push_blank(
    alloc: Global,
    text: &mut String,
    label: &Label,
    receiver: u8,
) -> Result<(), AllocError>
    ensures { OnOk result (string_bytes text.new ≡ string_bytes text.old
        ++ place_line label.now receiver (blank label.now receiver)) }
{
    let label = dotted(alloc, label)?;
    let line = format!(in alloc; "tell {label} {receiver} ?\n")?;
    text.push_str(line.as_str())
}
