//! Assembles and disassembles bytecode line by line, also if it is not the bytecode of a program (`asm --partial`, `dis
//! --partial`).
ghost use Rattle.std.specs.Prelude.{◌≡◌, ℕ, List, IfOk, IfErr, Ok, string_bytes};
ghost use Rattle.cli_words.specs.declared.tasks.Notation.TheVariants.{Assembly as Texts};
ghost use Rattle.object.specs.Entry.{entry_of};
ghost use Rattle.object.specs.Symbol.{asked};
ghost use Rattle.asm.specs.PieceText.{IsTextOf};
ghost use Rattle.asm.specs.Reading.{bytes_said};
ghost use Rattle.cli_tasks.specs.Parts.{AssemblesPartly, AssemblesPartlyRaw, DisassemblesPartly};
ghost use Rattle.cli_tasks.specs.ProgramRefusals.{RefusesLines, RefusesObject, RefusesParts, RefusesSaid, RefusesUnits};

use crate::programs::code_in;
use crate::refusal::InputRefusal;
use crate::texts::as_text;
use asm::partial::{assemble, disassemble};
use cli_words::Notation;
use std::alloc::Global;

/// Assembles a text line by line, and returns the bytecode as one line of lower-case hexadecimal digits. A line is an
/// instruction, or `.unit 0x..` with the 8 bytes of a unit.
///
/// # Errors
///
/// Fails with `Assembly` for the first line that has a fault, and with `Memory` if memory runs out.
pub fn assembled_partly(alloc: Global, text: &str) -> Result<String, InputRefusal>
    ensures assembled { IfOk result (λ line. AssemblesPartly text.now (string_bytes line)) }
    ensures refused { IfErr result (RefusesLines text.now) }
{
    let bytes = assemble(alloc, text)?;
    let mut line = hex::encode(alloc, bytes.as_slice())?;
    line.push('\n')?;
    Ok(line)
}

/// Assembles a text line by line, and returns the bytecode. A line is an instruction, or `.unit 0x..` with the 8 bytes
/// of a unit.
///
/// # Errors
///
/// Fails with `Assembly` for the first line that has a fault, and with `Memory` if memory runs out.
pub fn assembled_partly_raw(alloc: Global, text: &str) -> Result<Vec<u8>, InputRefusal>
    ensures assembled { IfOk result (λ bytes. AssemblesPartlyRaw text.now bytes.items) }
    ensures refused { IfErr result (RefusesLines text.now) }
{
    Ok(assemble(alloc, text)?)
}

/// Disassembles the code in a file, even if it is not the bytecode of a program. `notation` says whether the file is
/// bytecode, assembly or an ELF object. A unit at which no instruction begins becomes a line `.unit 0x..` with its 8
/// bytes.
///
/// # Errors
///
/// Fails if the code is not whole units of 8 bytes, if an ELF object has no code for the entry function, if a text does
/// not assemble or is not UTF-8, or if memory runs out.
pub fn disassembled_partly(
    alloc: Global,
    notation: &Notation,
    bytes: &[u8],
) -> Result<String, InputRefusal>
    ensures disassembled { IfOk result (λ text. DisassemblesPartly notation.now bytes.now (string_bytes text)) }
    ensures refused { IfErr result (RefusesParts notation.now bytes.now) }
{
    match notation {
        Notation::Bytecode => of_code(alloc, bytes),
        Notation::Assembly => of_text(alloc, as_text(bytes)?),
        Notation::Object { entry } => of_object(alloc, bytes, entry.as_deref()),
    }
}

/// Disassembles code, even if it is not the bytecode of a program. The resulting text assembles to the same bytes.
/// Fails with `Codec` if the number of bytes is not a multiple of 8, and with `Memory` if memory runs out.
fn of_code(alloc: Global, bytes: &[u8]) -> Result<String, InputRefusal>
    ensures text { IfOk result (λ text. IsTextOf bytes.now (string_bytes text)) }
    ensures again { IfOk result (λ text. bytes_said (string_bytes text) ≡ Ok bytes.now) }
    ensures refused { IfErr result (RefusesUnits bytes.now) }
{
    Ok(disassemble(alloc, bytes)?)
}

/// Assembles a text line by line, and disassembles the resulting bytes.
#[tactic(auto, using(crate::proofs::PartLemmas::cut_said))]
fn of_text(alloc: Global, text: &str) -> Result<String, InputRefusal>
    ensures text { IfOk result (λ own. DisassemblesPartly Texts text.now (string_bytes own)) }
    ensures refused { IfErr result (RefusesSaid text.now) }
{
    let bytes = assemble(alloc, text)?;
    Ok(of_code(alloc, bytes.as_slice())?)
}

/// Disassembles the code of the function named `entry` in an ELF object or, without a name, of its only global
/// function.
fn of_object(alloc: Global, object: &[u8], entry: Option<&str>) -> Result<String, InputRefusal>
    ensures text { IfOk result (λ text. (code : List ℕ) × (entry_of object.now (asked entry.entry) ≡ Ok code)
        × IsTextOf code (string_bytes text) × (bytes_said (string_bytes text) ≡ Ok code)) }
    ensures refused { IfErr result (RefusesObject RefusesUnits (asked entry.entry) object.now) }
{
    match code_in(object, entry) {
        Ok(code) => of_code(alloc, code),
        Err(fault) => Err(InputRefusal::Object(fault)),
    }
}
