//! Writes the words of a signed campaign's diagram for chains and strokes.
ghost use Rattle.std.specs.Prelude.{◌≡◌, ◌++◌, codes, flat_map, string_bytes, OnOk};
ghost use Rattle.std.specs.Fmt.{decimal};
ghost use Rattle.book.specs.Explained.{dotted};
ghost use Rattle.show_chains.specs.Words.{chain_words, chains_words, count_words, differs_words, first_words, further_words, lead_words, row_words, sends_words, several_words, short_words, stroke_words, withholds_words};

use crate::signed_order::SignedOrder;
use crate::stroke::ChainStroke;
use std::alloc::AllocError;

/// Appends the generals' numbers joined by dots, such as `0.2.5`. Fails with `AllocError` if memory runs out.
fn put_signers(out: &mut String, generals: &[u8]) -> Result<(), AllocError>
    ensures { OnOk result (string_bytes out.new ≡ string_bytes out.old ++ dotted generals.now) }
{
    match generals {
        [] => Ok(()),
        [first, rest @ ..] => {
            write!(out, "{first}")?;
            put_further_signers(out, rest)
        }
    }
}

/// Appends each general's number with a dot before it, such as `.2.5`. Fails with `AllocError` if memory runs out.
fn put_further_signers(out: &mut String, generals: &[u8]) -> Result<(), AllocError>
    ensures { OnOk result (string_bytes out.new ≡ string_bytes out.old
        ++ flat_map (λ g. codes "." ++ decimal g) generals.now) }
{
    for general in generals {
        write!(out, ".{general}")?;
    }
    Ok(())
}

/// Appends a chain's order and signers, such as `1 signed 0.2`. Fails with `AllocError` if memory runs out.
pub(crate) fn put_chain(out: &mut String, chain: &SignedOrder) -> Result<(), AllocError>
    ensures { OnOk result (string_bytes out.new ≡ string_bytes out.old ++ chain_words chain.now) }
{
    let order = chain.order();
    write!(out, "{order} signed ")?;
    put_signers(out, chain.signers())
}

/// Appends chains joined by commas, such as `1 signed 0.2, 1 signed 0.3`. Fails with `AllocError` if memory runs out.
fn put_chains(out: &mut String, chains: &[SignedOrder]) -> Result<(), AllocError>
    ensures { OnOk result (string_bytes out.new ≡ string_bytes out.old ++ chains_words chains.now) }
{
    match chains {
        [] => Ok(()),
        [first, rest @ ..] => {
            put_chain(out, first)?;
            put_further(out, rest)
        }
    }
}

/// Appends each chain with a comma before it, such as `, 1 signed 0.2`. Fails with `AllocError` if memory runs out.
fn put_further(out: &mut String, chains: &[SignedOrder]) -> Result<(), AllocError>
    ensures { OnOk result (string_bytes out.new ≡ string_bytes out.old ++ flat_map further_words chains.now) }
{
    for chain in chains {
        put_one_further(out, chain)?;
    }
    Ok(())
}

/// Appends a comma and a chain, such as `, 1 signed 0.2`. Fails with `AllocError` if memory runs out.
fn put_one_further(out: &mut String, chain: &SignedOrder) -> Result<(), AllocError>
    ensures { OnOk result (string_bytes out.new ≡ string_bytes out.old ++ further_words chain.now) }
{
    out.push_str(", ")?;
    put_chain(out, chain)
}

/// Appends `general G sends general P: `, after which the chains that were sent follow. Fails with `AllocError` if
/// memory runs out.
#[tactic(auto, unfolding(crate::specs::Words::sends_words))]
fn put_sends(out: &mut String, general: u8, receiver: u8) -> Result<(), AllocError>
    ensures { OnOk result (string_bytes out.new ≡ string_bytes out.old ++ sends_words general receiver) }
{
    write!(out, "general {general} sends general {receiver}: ")
}

/// Appends `general G does not send general P: `, after which the chains that were withheld follow. Fails with
/// `AllocError` if memory runs out.
#[tactic(auto, unfolding(crate::specs::Words::withholds_words))]
fn put_withholds(out: &mut String, general: u8, receiver: u8) -> Result<(), AllocError>
    ensures { OnOk result (string_bytes out.new ≡ string_bytes out.old ++ withholds_words general receiver) }
{
    write!(out, "general {general} does not send general {receiver}: ")
}

/// Appends the beginning of a stroke's sentence, such as `general 1 sends general 2: `. If `told` is `None`, it says
/// that the general does not send the chains. Fails with `AllocError` if memory runs out.
fn put_lead(
    out: &mut String,
    general: u8,
    receiver: u8,
    told: Option<u32>,
) -> Result<(), AllocError>
    ensures { OnOk result (string_bytes out.new ≡ string_bytes out.old ++ lead_words general receiver told) }
{
    match told {
        None => put_withholds(out, general, receiver),
        Some(_) => put_sends(out, general, receiver),
    }
}

/// Returns the end of a stroke's sentence, which says that a loyal general would do otherwise. It is empty if `differs`
/// is false. `told` is `None` if the chains were not sent.
fn differs_words(differs: bool, told: Option<u32>) -> &'static str
    ensures { result.now ≡ differs_words differs told }
{
    match (differs, told) {
        (false, _) => "",
        (true, None) => "; a loyal general would",
        (true, Some(_)) => "; a loyal general would not",
    }
}

/// Appends a stroke's sentence: who sends or withholds which chains, to whom, and whether a loyal general would do
/// otherwise. Fails with `AllocError` if memory runs out.
pub(crate) fn put_stroke_words(out: &mut String, stroke: &ChainStroke) -> Result<(), AllocError>
    ensures { OnOk result (string_bytes out.new ≡ string_bytes out.old ++ stroke_words stroke.now) }
{
    let plain = *stroke.stroke();
    put_lead(out, plain.teller, plain.receiver, plain.told)?;
    put_chains(out, stroke.chains())?;
    out.push_str(differs_words(plain.differs, plain.told))
}

/// Appends a sentence with all chains for each stroke that has more than one chain. The diagram itself has room only
/// for the first.
///
/// # Errors
///
/// Fails with `AllocError` if there is no memory for the text.
pub(crate) fn put_several(out: &mut String, strokes: &[ChainStroke]) -> Result<(), AllocError>
    ensures { OnOk result (string_bytes out.new ≡ string_bytes out.old ++ flat_map several_words strokes.now) }
{
    for stroke in strokes {
        put_several_of(out, stroke)?;
    }
    Ok(())
}

/// Appends a sentence with all chains of a stroke if it has more than one chain. Fails with `AllocError` if memory runs
/// out.
fn put_several_of(out: &mut String, stroke: &ChainStroke) -> Result<(), AllocError>
    ensures { OnOk result (string_bytes out.new ≡ string_bytes out.old ++ several_words stroke.now) }
{
    let plain = *stroke.stroke();
    if plain.labels <= 1 {
        return Ok(());
    }
    out.push_str(" In full: ")?;
    put_stroke_words(out, stroke)?;
    out.push_str(".")
}

/// Appends a chain in the short form for a column, such as `1 by 0.2`. Fails with `AllocError` if memory runs out.
fn put_short(out: &mut String, chain: &SignedOrder) -> Result<(), AllocError>
    ensures { OnOk result (string_bytes out.new ≡ string_bytes out.old ++ short_words chain.now) }
{
    let order = chain.order();
    write!(out, "{order} by ")?;
    put_signers(out, chain.signers())
}

/// Appends the first chain in the short form for a column, such as `1 by 0.2`. Appends nothing if there are no chains.
/// Fails with `AllocError` if memory runs out.
fn put_first(out: &mut String, chains: &[SignedOrder]) -> Result<(), AllocError>
    ensures { OnOk result (string_bytes out.new ≡ string_bytes out.old ++ first_words chains.now) }
{
    match chains {
        [] => Ok(()),
        [first, ..] => put_short(out, first),
    }
}

/// Appends the number of chains in parentheses, such as ` (3)`. Appends nothing if it is 1. Fails with `AllocError` if
/// memory runs out.
fn put_count(out: &mut String, chains: usize) -> Result<(), AllocError>
    ensures { OnOk result (string_bytes out.new ≡ string_bytes out.old ++ count_words chains) }
{
    if chains == 1 {
        return Ok(());
    }
    write!(out, " ({chains})")
}

/// Appends the text of a stroke's row in the receiver's list: its first chain, and the number of its chains if there
/// are more, such as `1 by 0.2 (3)`. Fails with `AllocError` if memory runs out.
pub(crate) fn put_row_words(out: &mut String, stroke: &ChainStroke) -> Result<(), AllocError>
    ensures { OnOk result (string_bytes out.new ≡ string_bytes out.old ++ row_words stroke.now) }
{
    let plain = *stroke.stroke();
    put_first(out, stroke.chains())?;
    put_count(out, plain.labels)
}
