//! Faults of ELF objects, and the sentences that explain them.
ghost use Rattle.std.specs.Prelude.{◌≡◌};
ghost use Rattle.object.specs.Sentences.{sentence_of};

use std::error::Error;
use std::fmt;

/// Where an object is damaged: something is not within the file, or not within its section or table.
#[derive(Clone, Copy, Debug, PartialEq, Eq, Drop)]
pub enum Damage {
    /// The header of the object, or the section header table.
    Sections,
    /// The section with this index.
    Section(usize),
    /// The function with this index in the symbol table: its name or its code.
    Symbol(usize),
    /// The relocations in the section with this index: they use another symbol table, or a symbol that does not exist.
    Relocations(usize),
}

/// Why an object has no bytecode that can be run.
#[derive(Clone, Copy, Debug, PartialEq, Eq, Drop)]
pub enum ObjectFault {
    /// O1: the file is not a relocatable ELF object of 64 bits, little-endian, for BPF.
    NoObject,
    /// O2: the object is damaged.
    Damaged(Damage),
    /// O3: there is no function with the given name or, if no name is given, no global function.
    NoFunction,
    /// O4: there are several functions with the given name or, if no name is given, several global functions.
    Several,
    /// O5: the 8-byte unit with this index in the entry's code uses data, or a function that is not in the object.
    Names(usize),
    /// O6: the 8-byte unit with this index in the entry's code calls or uses a function of the object.
    Leaves(usize),
}

impl fmt::Display for Damage {
    ghost use Rattle.std.specs.Prelude.{Some};
    ghost use Rattle.object.specs.ErrorText.{place_of};

    ghost output = { λ damage. Some (place_of damage) };

    fn fmt<W: fmt::Write>(&self, f: &mut fmt::Formatter<W>) -> fmt::Result {
        match self {
            Damage::Sections => f.write_str("sections"),
            Damage::Section(index) => write!(f, "section {index}"),
            Damage::Symbol(index) => write!(f, "symbol {index}"),
            Damage::Relocations(index) => write!(f, "relocations {index}"),
        }
    }
}

impl fmt::Display for ObjectFault {
    ghost use Rattle.std.specs.Prelude.{Some};
    ghost use Rattle.object.specs.ErrorText.{told};

    ghost output = { λ fault. Some (told fault) };

    fn fmt<W: fmt::Write>(&self, f: &mut fmt::Formatter<W>) -> fmt::Result {
        match self {
            ObjectFault::NoObject => f.write_str("O1"),
            ObjectFault::Damaged(damage) => write!(f, "O2 {damage}"),
            ObjectFault::NoFunction => f.write_str("O3"),
            ObjectFault::Several => f.write_str("O4"),
            ObjectFault::Names(unit) => write!(f, "O5 unit {unit}"),
            ObjectFault::Leaves(unit) => write!(f, "O6 unit {unit}"),
        }
    }
}

impl Error for ObjectFault {}

/// Returns a sentence that says what a fault means, and what to do about it.
pub fn sentence(fault: ObjectFault) -> &'static str
    ensures { result.now ≡ sentence_of fault }
{
    match fault {
        ObjectFault::NoObject => {
            "this is not a relocatable 64-bit little-endian ELF object for BPF (machine 247)"
        }
        ObjectFault::Damaged(Damage::Sections) => {
            "the header is cut off, or the section headers are not within the file"
        }
        ObjectFault::Damaged(Damage::Section(_)) => {
            "the bytes of this section are not within the file"
        }
        ObjectFault::Damaged(Damage::Symbol(_)) => {
            "the name of this function is not among the strings, or its code is not within its section"
        }
        ObjectFault::Damaged(Damage::Relocations(_)) => {
            "the relocations of this section name a symbol that does not exist"
        }
        ObjectFault::NoFunction => { "there is no function with this name, or no global function" }
        ObjectFault::Several => {
            "there are several functions: name the program's with `--entry` (in a scenario, `entry`)"
        }
        ObjectFault::Names(_) => {
            "the entry uses data, or a function that is not in the object: put arrays on the stack, \
             and call helpers by number"
        }
        ObjectFault::Leaves(_) => {
            "the entry calls or names another function: make that one `static inline`, so that only one is left"
        }
    }
}
