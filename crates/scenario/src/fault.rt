//! The errors of scenarios: why a text is not a scenario.
ghost use Rattle.std.specs.Prelude.{◌≡◌};
ghost use Rattle.scenario.specs.ErrorText.{scenario_code};
ghost use Rattle.scenario.specs.declared.fault.ScenarioError.TheVariants.{Memory};

use crate::place::ScenarioPlace;
use std::alloc::{AllocError, AllocFailed};
use std::fmt;
use verify::Reason;

/// What is wrong at a place of a scenario.
#[derive(Clone, Copy, Debug, PartialEq, Eq)]
pub enum ScenarioFault {
    /// A required key is missing, or `rule` is given in a campaign with signed messages. At the key `asm`, the table
    /// does not have exactly one of `asm`, `code` and `strategy`.
    Key,
    /// The value is of the wrong type.
    Kind,
    /// The value is out of its range, or no rule or strategy has the name that it is.
    Range,
    /// No general has this number.
    General,
    /// An earlier table is for the same general.
    Twice,
}

impl fmt::Display for ScenarioFault {
    ghost use Rattle.std.specs.Prelude.{Some};
    ghost use Rattle.scenario.specs.ErrorText.{code_of};

    ghost output = { λ fault. Some (code_of fault) };

    fn fmt<W: fmt::Write>(&self, f: &mut fmt::Formatter<W>) -> fmt::Result {
        f.write_str(match self {
            ScenarioFault::Key => "S2",
            ScenarioFault::Kind => "S3",
            ScenarioFault::Range => "S4",
            ScenarioFault::General => "S5",
            ScenarioFault::Twice => "S6",
        })
    }
}

/// What is wrong with a traitor's program, and where in the program.
#[derive(Clone, Copy, Debug, PartialEq, Eq)]
pub enum ProgramFault {
    /// The assembler reports this fault in this line, counted from 1.
    Asm(asm::AsmFault, u64),
    /// The text is not an even number of hex digits.
    Hex,
    /// The decoder reports this fault at this unit, counted from 0.
    Code(codec::CodecFault, usize),
    /// The verifier rejects the program for this reason at this unit, counted from 0.
    Verifier(Reason, usize),
}

impl ProgramFault {
    /// Returns the error code of a scenario with this fault: S7 if the text gives no program, S8 if the verifier
    /// rejects it.
    fn scenario_code(self) -> &'static str
        ensures { result.now ≡ scenario_code self }
    {
        match self {
            ProgramFault::Asm(..) | ProgramFault::Hex | ProgramFault::Code(..) => "S7",
            ProgramFault::Verifier(..) => "S8",
        }
    }
}

impl fmt::Display for ProgramFault {
    ghost use Rattle.std.specs.Prelude.{Some};
    ghost use Rattle.scenario.specs.ErrorText.{program_text};

    ghost output = { λ fault. Some (program_text fault) };

    fn fmt<W: fmt::Write>(&self, f: &mut fmt::Formatter<W>) -> fmt::Result {
        match *self {
            ProgramFault::Asm(fault, line) => write!(f, "{fault} line {line}"),
            ProgramFault::Hex => write!(f, "hex"),
            ProgramFault::Code(fault, unit) => write!(f, "{fault} unit {unit}"),
            ProgramFault::Verifier(reason, unit) => write!(f, "{reason} unit {unit}"),
        }
    }
}

/// The first fault of a text that is not a scenario, or out of memory.
#[derive(Debug, Drop)]
pub enum ScenarioError {
    /// S1: the text is not TOML.
    Toml,
    /// S2: this key is unknown. It is in the traitor's table with this number, counted from 0, or at the top if there
    /// is no number.
    Unknown(Option<usize>, String),
    /// S2 to S6: there is a fault at this place.
    At(ScenarioFault, ScenarioPlace),
    /// S7 or S8: the program of the general with this number has a fault.
    Program(u8, ProgramFault),
    /// An allocation failed.
    Memory,
}

impl fmt::Display for ScenarioError {
    ghost use Rattle.std.specs.Prelude.{Some};
    ghost use Rattle.scenario.specs.ErrorText.{told};

    ghost output = { λ error. Some (told error) };

    fn fmt<W: fmt::Write>(&self, f: &mut fmt::Formatter<W>) -> fmt::Result {
        match self {
            ScenarioError::Toml => write!(f, "S1"),
            ScenarioError::Unknown(None, key) => write!(f, "S2 {key}"),
            ScenarioError::Unknown(Some(index), key) => write!(f, "S2 traitor[{index}].{key}"),
            ScenarioError::At(fault, place) => write!(f, "{fault} {place}"),
            ScenarioError::Program(general, fault) => {
                write!(f, "{} traitor {general} {fault}", fault.scenario_code())
            }
            ScenarioError::Memory => write!(f, "out of memory"),
        }
    }
}

impl From<AllocError> for ScenarioError {
    ghost from_gives = { λ _ e. e ≡ Memory };

    fn from(_e: AllocError) -> ScenarioError {
        ScenarioError::Memory
    }
}

impl<T: Drop> From<AllocFailed<T>> for ScenarioError {
    ghost from_gives = { λ _ e. e ≡ Memory };

    fn from(_e: AllocFailed<T>) -> ScenarioError {
        ScenarioError::Memory
    }
}
