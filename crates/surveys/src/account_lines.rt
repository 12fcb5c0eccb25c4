//! Writes accounts of campaigns as lines, each a JSON object.
ghost use Rattle.std.specs.Prelude.{◌≡◌, ◌++◌, IfOk, OnOk, flat_map, string_bytes};
ghost use Rattle.surveys.specs.Accounting.{account_back, account_front, account_middle, account_text, list_text, next_text, numbers_text};

use crate::account::Account;
use crate::lines::{put_answer, put_flag};
use crate::number_text::{put_number, put_numbered};
use std::alloc::{AllocError, Global};

/// Appends the numbers in decimal, each after a comma: `[3, 5]` gives `,3,5`.
fn put_rest(out: &mut String, numbers: &[u32]) -> Result<(), AllocError>
    ensures { OnOk result (string_bytes out.new ≡ string_bytes out.old ++ flat_map next_text numbers.now) }
{
    for number in numbers {
        put_next(out, *number)?;
    }
    Ok(())
}

/// Appends a comma and then the number in decimal.
fn put_next(out: &mut String, number: u32) -> Result<(), AllocError>
    ensures { OnOk result (string_bytes out.new ≡ string_bytes out.old ++ next_text number) }
{
    out.push_str(",")?;
    put_number(out, u64::from(number))
}

/// Appends the numbers in decimal, with commas between them: `[3, 5]` gives `3,5`.
fn put_numbers(out: &mut String, numbers: &[u32]) -> Result<(), AllocError>
    ensures { OnOk result (string_bytes out.new ≡ string_bytes out.old ++ numbers_text numbers.now) }
{
    let Some((first, rest)) = numbers.split_first() else {
        return Ok(());
    };
    put_number(out, u64::from(*first))?;
    put_rest(out, rest)
}

/// Appends `name`, which is a JSON name with its colon, and then the numbers as a JSON array, such as `[3,5]`.
fn put_list(out: &mut String, name: &str, numbers: &[u32]) -> Result<(), AllocError>
    ensures { OnOk result (string_bytes out.new ≡ string_bytes out.old ++ name.now ++ list_text numbers.now) }
{
    out.push_str(name)?;
    out.push_str("[")?;
    put_numbers(out, numbers)?;
    out.push_str("]")
}

/// Appends the first members of an account's JSON object, with the opening brace: `alike`, `bound` and `decisions`.
fn put_front(out: &mut String, account: &Account) -> Result<(), AllocError>
    ensures { OnOk result (string_bytes out.new ≡ string_bytes out.old ++ account_front account.now) }
{
    put_flag(out, "{\"alike\":", account.finding.verdict.alike)?;
    put_numbered(out, ",\"bound\":", u64::from(account.finding.bound))?;
    put_list(out, ",\"decisions\":", account.decisions.as_slice())?;
    Ok(())
}

/// Appends the middle members of an account's JSON object: `generals`, `kept`, `line` and `obeyed`.
fn put_middle(out: &mut String, account: &Account) -> Result<(), AllocError>
    ensures { OnOk result (string_bytes out.new ≡ string_bytes out.old ++ account_middle account.now) }
{
    put_numbered(out, ",\"generals\":", u64::from(account.finding.generals))?;
    put_flag(out, ",\"kept\":", account.finding.verdict.bound)?;
    put_answer(
        out,
        ",\"line\":\"account\",\"obeyed\":",
        account.finding.verdict.obeyed,
    )?;
    Ok(())
}

/// Appends the last members of an account's JSON object, `order`, `seed` and `traitors`, the closing brace, and a line
/// feed.
fn put_back(out: &mut String, account: &Account) -> Result<(), AllocError>
    ensures { OnOk result (string_bytes out.new ≡ string_bytes out.old ++ account_back account.now) }
{
    put_numbered(out, ",\"order\":", u64::from(account.order))?;
    put_numbered(out, ",\"seed\":", account.finding.seed)?;
    put_list(out, ",\"traitors\":", account.traitors.as_slice())?;
    out.push_str("}\n")?;
    Ok(())
}

/// Appends an account as a line: a JSON object and a line feed.
fn put_account(out: &mut String, account: &Account) -> Result<(), AllocError>
    ensures { OnOk result (string_bytes out.new ≡ string_bytes out.old ++ account_text account.now) }
{
    put_front(out, account)?;
    put_middle(out, account)?;
    put_back(out, account)?;
    Ok(())
}

/// Returns a line for each account, in the given order: a JSON object and a line feed.
///
/// # Errors
///
/// Fails with `AllocError` if it runs out of memory.
pub fn accounts_text(alloc: Global, accounts: &[Account]) -> Result<String, AllocError>
    ensures { IfOk result (λ text. string_bytes text ≡ flat_map account_text accounts.now) }
{
    let mut out = String::new(alloc);
    for account in accounts {
        put_account(&mut out, account)?;
    }
    Ok(out)
}
