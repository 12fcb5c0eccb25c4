//! Lists the mnemonics of assembly, and the operands that each takes.
ghost use Rattle.std.specs.Prelude.{◌≡◌, map, IfOk};
ghost use Rattle.cli_report.specs.Mnemonics.{first_taken, mnemonic_names, taken, takes_text};

use std::alloc::{AllocError, Global};

/// The operands that a mnemonic takes.
#[derive(Clone, Copy)]
pub(crate) enum Takes {
    /// As for `add`: a register, and then a register or a number.
    Arithmetic,
    /// As for `neg`: one register.
    Register,
    /// As for `movsx8`: two registers.
    Registers,
    /// As for `ja`: the target of a jump.
    Target,
    /// As for `jeq`: a register, then a register or a number, and then the target of a jump.
    Branch,
    /// As for `ldw`: a register, and then a place in memory, such as `[r1+8]`.
    Load,
    /// As for `stxw`: a place in memory, such as `[r10-8]`, and then a register.
    StoreRegister,
    /// As for `stw`: a place in memory, such as `[r10-8]`, and then a number.
    StoreNumber,
    /// As for `lddw`: a register, and then a number of 64 bits.
    Wide,
    /// As for `call`: the name or the number of a helper.
    Call,
    /// As for `exit`: no operand.
    Nothing,
}

impl Takes {
    /// Returns the error sentence that says which operands the mnemonic takes.
    pub(crate) fn text(self) -> &'static str
        ensures { result.now ≡ takes_text self }
    {
        match self {
            Takes::Arithmetic =>
                "this mnemonic takes `rD, rS` or `rD, number`, with registers r0 to r10",
            Takes::Register => "this mnemonic takes one register, r0 to r10",
            Takes::Registers => "this mnemonic takes two registers, r0 to r10",
            Takes::Target => "this mnemonic takes a target: a name, `+k` or `-k`",
            Takes::Branch =>
                "this mnemonic takes `rD, rS, target` or `rD, number, target`, where a target is a name, `+k` or `-k`",
            Takes::Load => "this mnemonic takes `rD, [rS+k]`, with registers r0 to r10",
            Takes::StoreRegister => "this mnemonic takes `[rD+k], rS`, with registers r0 to r10",
            Takes::StoreNumber => "this mnemonic takes `[rD+k], number`, with registers r0 to r10",
            Takes::Wide => "this mnemonic takes `rD, number`, with registers r0 to r10",
            Takes::Call => "this mnemonic takes a helper's name, or its number",
            Takes::Nothing => "this mnemonic takes no operand",
        }
    }
}

/// All mnemonics, each with the operands that it takes.
static MNEMONICS: [(&'static str, Takes); 86] = [
    ("add", Takes::Arithmetic),
    ("add.w", Takes::Arithmetic),
    ("and", Takes::Arithmetic),
    ("and.w", Takes::Arithmetic),
    ("arsh", Takes::Arithmetic),
    ("arsh.w", Takes::Arithmetic),
    ("be16", Takes::Register),
    ("be32", Takes::Register),
    ("be64", Takes::Register),
    ("call", Takes::Call),
    ("div", Takes::Arithmetic),
    ("div.w", Takes::Arithmetic),
    ("exit", Takes::Nothing),
    ("ja", Takes::Target),
    ("ja.w", Takes::Target),
    ("jeq", Takes::Branch),
    ("jeq.w", Takes::Branch),
    ("jgt", Takes::Branch),
    ("jgt.w", Takes::Branch),
    ("jge", Takes::Branch),
    ("jge.w", Takes::Branch),
    ("jset", Takes::Branch),
    ("jset.w", Takes::Branch),
    ("jne", Takes::Branch),
    ("jne.w", Takes::Branch),
    ("jsgt", Takes::Branch),
    ("jsgt.w", Takes::Branch),
    ("jsge", Takes::Branch),
    ("jsge.w", Takes::Branch),
    ("jlt", Takes::Branch),
    ("jlt.w", Takes::Branch),
    ("jle", Takes::Branch),
    ("jle.w", Takes::Branch),
    ("jslt", Takes::Branch),
    ("jslt.w", Takes::Branch),
    ("jsle", Takes::Branch),
    ("jsle.w", Takes::Branch),
    ("le16", Takes::Register),
    ("le32", Takes::Register),
    ("le64", Takes::Register),
    ("lsh", Takes::Arithmetic),
    ("lsh.w", Takes::Arithmetic),
    ("ldb", Takes::Load),
    ("ldh", Takes::Load),
    ("ldw", Takes::Load),
    ("ldd", Takes::Load),
    ("ldsb", Takes::Load),
    ("ldsh", Takes::Load),
    ("ldsw", Takes::Load),
    ("lddw", Takes::Wide),
    ("mov", Takes::Arithmetic),
    ("mov.w", Takes::Arithmetic),
    ("mul", Takes::Arithmetic),
    ("mul.w", Takes::Arithmetic),
    ("mod", Takes::Arithmetic),
    ("mod.w", Takes::Arithmetic),
    ("movsx8", Takes::Registers),
    ("movsx8.w", Takes::Registers),
    ("movsx16", Takes::Registers),
    ("movsx16.w", Takes::Registers),
    ("movsx32", Takes::Registers),
    ("neg", Takes::Register),
    ("neg.w", Takes::Register),
    ("or", Takes::Arithmetic),
    ("or.w", Takes::Arithmetic),
    ("rsh", Takes::Arithmetic),
    ("rsh.w", Takes::Arithmetic),
    ("sub", Takes::Arithmetic),
    ("sub.w", Takes::Arithmetic),
    ("stxb", Takes::StoreRegister),
    ("stxh", Takes::StoreRegister),
    ("stxw", Takes::StoreRegister),
    ("stxd", Takes::StoreRegister),
    ("stb", Takes::StoreNumber),
    ("sth", Takes::StoreNumber),
    ("stw", Takes::StoreNumber),
    ("std", Takes::StoreNumber),
    ("sdiv", Takes::Arithmetic),
    ("sdiv.w", Takes::Arithmetic),
    ("smod", Takes::Arithmetic),
    ("smod.w", Takes::Arithmetic),
    ("swap16", Takes::Register),
    ("swap32", Takes::Register),
    ("swap64", Takes::Register),
    ("xor", Takes::Arithmetic),
    ("xor.w", Takes::Arithmetic),
];

/// Returns the operands in the first row for the mnemonic `word`, or `None` if there is no such row.
fn search(rows: &[(&'static str, Takes)], word: &[u8]) -> Option<Takes>
    ensures { result ≡ first_taken word.now (map (λ row. (row.0.now, row.1)) rows.now) }
{
    for (name, takes) in rows {
        if name.as_bytes() == word {
            return Some(*takes);
        }
    }
    None
}

/// Returns the operands that a mnemonic takes, or `None` if the word is not a mnemonic.
#[tactic(auto, unfolding(crate::specs::Mnemonics::taken))]
pub(crate) fn taken(word: &[u8]) -> Option<Takes>
    ensures { result ≡ taken word.now }
{
    search(&MNEMONICS, word)
}

/// Returns the mnemonics of the rows, in their order.
fn words(alloc: Global, rows: &[(&'static str, Takes)]) -> Result<Vec<&'static str>, AllocError>
    ensures { IfOk result (λ words. map (λ word. word.now) words.items ≡ map (λ row. row.0.now) rows.now) }
{
    let mut words = Vec::new(alloc);
    for (word, _) in rows {
        words.push(*word)?;
    }
    Ok(words)
}

/// Returns all mnemonics.
#[tactic(auto, unfolding(crate::specs::Mnemonics::mnemonic_names))]
pub(crate) fn names(alloc: Global) -> Result<Vec<&'static str>, AllocError>
    ensures { IfOk result (λ names. map (λ name. name.now) names.items ≡ mnemonic_names) }
{
    words(alloc, &MNEMONICS)
}
