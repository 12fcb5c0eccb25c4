//! Guesses what a file is if it should be bytecode but is not: bytecode in hex, an ELF object, or text.
ghost use Rattle.std.specs.Prelude.{◌≡◌};
ghost use Rattle.std.specs.List.{list_all};
ghost use Rattle.cli_tasks.specs.Seeming.{is_of_hex, is_of_text, seems_at_first, seems_of};

use insn::Program;
use std::fmt;

/// What a file seems to be that should be bytecode but is not.
#[derive(Clone, Copy, PartialEq, Eq)]
pub enum Likeness {
    /// A program in hexadecimal digits, as `asm` prints it.
    Hex,
    /// An ELF object, as a compiler or an assembler makes it.
    Object,
    /// A text, for example assembly.
    Text,
}

impl fmt::Display for Likeness {
    ghost use Rattle.std.specs.Prelude.{Some};
    ghost use Rattle.cli_tasks.specs.Seeming.{seems_text};

    ghost output = { λ likeness. Some (seems_text likeness) };

    fn fmt<W: fmt::Write>(&self, f: &mut fmt::Formatter<W>) -> fmt::Result {
        f.write_str(match self {
            Likeness::Hex => "it seems to be bytecode in hex, which `xxd -r -p` turns into bytes",
            Likeness::Object => "it seems to be an ELF object, which `--elf` reads",
            Likeness::Text => "it seems to be text, not bytecode: `check --asm` checks assembly",
        })
    }
}

/// Returns what the bytes seem to be: hex, an ELF object or text. Returns `None` if they seem to be none of these. Of a
/// long file only the first 32,768 bytes are examined, the size of the longest program.
#[tactic(auto, unfolding(crate::specs::Seeming::seems_at_first))]
pub fn seems(bytes: &[u8]) -> Option<Likeness>
    ensures { result ≡ seems_at_first bytes.now }
{
    whole(&bytes[..bytes.len().min(8 * Program::MOST_UNITS)])
}

/// Returns what these bytes seem to be. An ELF object is recognized by its first four bytes. The bytes are hex or text
/// if all of them are. Returns `None` for anything else, and if there are no bytes.
fn whole(bytes: &[u8]) -> Option<Likeness>
    ensures { result ≡ seems_of bytes.now }
{
    if bytes.is_empty() {
        None
    } else if bytes.starts_with(b"\x7fELF") {
        Some(Likeness::Object)
    } else if is_hex(bytes) {
        Some(Likeness::Hex)
    } else if is_text(bytes) {
        Some(Likeness::Text)
    } else {
        None
    }
}

/// Checks whether all bytes are hexadecimal digits or white space.
fn is_hex(bytes: &[u8]) -> bool
    ensures { result ≡ list_all is_of_hex bytes.now }
{
    bytes.iter().all(|byte| byte.is_ascii_hexdigit() || byte.is_ascii_whitespace())
}

/// Checks whether all bytes are printable ASCII characters or white space.
fn is_text(bytes: &[u8]) -> bool
    ensures { result ≡ list_all is_of_text bytes.now }
{
    bytes.iter().all(|byte| byte.is_ascii_graphic() || byte.is_ascii_whitespace())
}
