//! Why the input of a task is rejected: one type for the errors of all readers.
use asm::AsmError;
use book::TableError;
use bounds::RefutationError;
use campaign_schedules::{AccessFault, AccessesError};
use cli_report::{ShownScenarioError, ShownSettingError};
use codec::CodecError;
use lies::BreakError;
use rule_program::CallFound;
use scenario::ScenarioError;
use std::alloc::AllocError;
use std::error::Error;
use std::fmt;
use threads::{FailedMuster, MusterError};
use trace::TraceError;
use trial::SettingError;
use verify::VerifyError;

/// Why a task rejects its input. Its text contains the code of the fault and where the fault is, such as the line, as
/// far as there are any.
#[derive(Debug, Drop)]
pub enum InputRefusal {
    /// The bytes are not the bytecode of a program.
    Codec(CodecError),
    /// The ELF object has no code for the entry function.
    Object(object::ObjectFault),
    /// The verifier rejects the program.
    Verifier(VerifyError),
    /// The text does not assemble.
    Assembly(AsmError),
    /// The text is not a message table, or the given numbers are not those of a message table.
    Table(TableError),
    /// The text is not a scenario of the kind that the task needs.
    Scenario(ScenarioError),
    /// The text is not a setting, in which a program is tried.
    Setting(SettingError),
    /// The text is not a schedule, or not a chronicle of the campaign.
    Trace(TraceError),
    /// The threads of a muster, which runs a campaign with a thread for each general, made no chronicle.
    Threads(MusterError),
    /// The text is not a list of accesses, or a listed access cannot happen.
    Accesses(AccessFault),
    /// The named general is not one of the generals 0 to `generals - 1`, or is the commander where a lieutenant is
    /// needed.
    Stranger { general: u8, generals: u8 },
    /// There are too many generals for a refutation: with more than 3m generals, no message table with at most m
    /// traitors breaks the rule.
    Tolerated,
    /// The program calls a helper, first at this unit, so it is no rule.
    RuleCall { unit: usize },
    /// The search for a break is out of reach: it takes this many steps by its estimate.
    LongSearch { steps: u64 },
    /// The message table is not written as a scenario, since the program of a traitor could be too long.
    LongScenario,
    /// The bytes are not UTF-8 text.
    NotText,
    /// Memory ran out.
    Memory,
}

impl fmt::Display for InputRefusal {
    ghost use Rattle.std.specs.Prelude.{Some};
    ghost use Rattle.cli_tasks.specs.ErrorText.{refusal_text};

    ghost output = { λ refusal. Some (refusal_text refusal) };

    fn fmt<W: fmt::Write>(&self, f: &mut fmt::Formatter<W>) -> fmt::Result {
        match self {
            InputRefusal::Codec(error) => write!(f, "{error}"),
            InputRefusal::Object(fault) => write!(f, "{fault}"),
            InputRefusal::Verifier(fault) => write!(f, "{fault}"),
            InputRefusal::Assembly(error) => write!(f, "{error}"),
            InputRefusal::Table(error) => write!(f, "{error}"),
            InputRefusal::Scenario(error) => write!(f, "{}", ShownScenarioError(error)),
            InputRefusal::Setting(error) => write!(f, "{}", ShownSettingError(error)),
            InputRefusal::Trace(error) => write!(f, "{error}"),
            InputRefusal::Threads(error) => write!(f, "{error}"),
            InputRefusal::Accesses(fault) => write!(f, "{fault}"),
            InputRefusal::Stranger { general, .. } => write!(f, "G1 general {general}"),
            InputRefusal::Tolerated => f.write_str(
                "B5 more than 3m generals tolerate m traitors: no message table with at most m traitors breaks the rule",
            ),
            InputRefusal::RuleCall { unit } => write!(f, "R1 unit {unit}"),
            InputRefusal::LongSearch { steps } => write!(
                f,
                "B6 the search takes some {steps} steps, and at most 100000000 are allowed"
            ),
            InputRefusal::LongScenario => {
                f.write_str("B7 the program of a traitor could have more than 4096 units")
            }
            InputRefusal::NotText => f.write_str("not UTF-8"),
            InputRefusal::Memory => f.write_str("out of memory"),
        }
    }
}

impl Error for InputRefusal {}

impl From<AllocError> for InputRefusal {
    ghost use Rattle.std.specs.Prelude.{◌≡◌};
    ghost use Rattle.cli_tasks.specs.declared.refusal.InputRefusal.TheVariants.{Memory};

    ghost from_gives = { λ _ refusal. refusal ≡ Memory };

    fn from(_error: AllocError) -> InputRefusal {
        InputRefusal::Memory
    }
}

impl From<CodecError> for InputRefusal {
    ghost use Rattle.std.specs.Prelude.{◌≡◌};
    ghost use Rattle.cli_tasks.specs.Refusals.{codec_refusal};

    ghost from_gives = { λ error refusal. refusal ≡ codec_refusal error };

    fn from(error: CodecError) -> InputRefusal {
        match error {
            CodecError::Memory => InputRefusal::Memory,
            error => InputRefusal::Codec(error),
        }
    }
}

impl From<object::ObjectFault> for InputRefusal {
    ghost use Rattle.std.specs.Prelude.{◌≡◌};
    ghost use Rattle.cli_tasks.specs.declared.refusal.InputRefusal.TheVariants.{Object};

    ghost from_gives = { λ fault refusal. refusal ≡ Object fault };

    fn from(fault: object::ObjectFault) -> InputRefusal {
        InputRefusal::Object(fault)
    }
}

impl From<VerifyError> for InputRefusal {
    ghost use Rattle.std.specs.Prelude.{◌≡◌};
    ghost use Rattle.cli_tasks.specs.Refusals.{verifier_refusal};

    ghost from_gives = { λ fault refusal. refusal ≡ verifier_refusal fault };

    fn from(fault: VerifyError) -> InputRefusal {
        match fault {
            VerifyError::Memory => InputRefusal::Memory,
            fault => InputRefusal::Verifier(fault),
        }
    }
}

impl From<AsmError> for InputRefusal {
    ghost use Rattle.std.specs.Prelude.{◌≡◌};
    ghost use Rattle.cli_tasks.specs.Refusals.{assembly_refusal};

    ghost from_gives = { λ error refusal. refusal ≡ assembly_refusal error };

    fn from(error: AsmError) -> InputRefusal {
        match error {
            AsmError::Memory => InputRefusal::Memory,
            error => InputRefusal::Assembly(error),
        }
    }
}

impl From<TableError> for InputRefusal {
    ghost use Rattle.std.specs.Prelude.{◌≡◌};
    ghost use Rattle.cli_tasks.specs.Refusals.{table_refusal};

    ghost from_gives = { λ error refusal. refusal ≡ table_refusal error };

    fn from(error: TableError) -> InputRefusal {
        match error {
            TableError::Memory => InputRefusal::Memory,
            error => InputRefusal::Table(error),
        }
    }
}

impl From<RefutationError> for InputRefusal {
    ghost use Rattle.std.specs.Prelude.{◌≡◌};
    ghost use Rattle.cli_tasks.specs.Refusals.{refutation_refusal};

    ghost from_gives = { λ error refusal. refusal ≡ refutation_refusal error };

    fn from(error: RefutationError) -> InputRefusal {
        match error {
            RefutationError::Table(TableError::Memory) => InputRefusal::Memory,
            RefutationError::Table(error) => InputRefusal::Table(error),
            RefutationError::Enough => InputRefusal::Tolerated,
        }
    }
}

impl From<BreakError> for InputRefusal {
    ghost use Rattle.std.specs.Prelude.{◌≡◌};
    ghost use Rattle.cli_tasks.specs.Refusals.{break_refusal};

    ghost from_gives = { λ error refusal. refusal ≡ break_refusal error };

    fn from(error: BreakError) -> InputRefusal {
        match error {
            BreakError::Table(TableError::Memory) => InputRefusal::Memory,
            BreakError::Table(error) => InputRefusal::Table(error),
        }
    }
}

impl From<CallFound> for InputRefusal {
    ghost use Rattle.std.specs.Prelude.{◌≡◌};
    ghost use Rattle.cli_tasks.specs.Refusals.{call_refusal};

    ghost from_gives = { λ found refusal. refusal ≡ call_refusal found };

    fn from(found: CallFound) -> InputRefusal {
        InputRefusal::RuleCall { unit: found.unit }
    }
}

impl From<ScenarioError> for InputRefusal {
    ghost use Rattle.std.specs.Prelude.{◌≡◌};
    ghost use Rattle.cli_tasks.specs.Refusals.{scenario_refusal};

    ghost from_gives = { λ error refusal. refusal ≡ scenario_refusal error };

    fn from(error: ScenarioError) -> InputRefusal {
        match error {
            ScenarioError::Memory => InputRefusal::Memory,
            error => InputRefusal::Scenario(error),
        }
    }
}

impl From<SettingError> for InputRefusal {
    ghost use Rattle.std.specs.Prelude.{◌≡◌};
    ghost use Rattle.cli_tasks.specs.Refusals.{setting_refusal};

    ghost from_gives = { λ error refusal. refusal ≡ setting_refusal error };

    fn from(error: SettingError) -> InputRefusal {
        match error {
            SettingError::Memory => InputRefusal::Memory,
            error => InputRefusal::Setting(error),
        }
    }
}

impl From<TraceError> for InputRefusal {
    ghost use Rattle.std.specs.Prelude.{◌≡◌};
    ghost use Rattle.cli_tasks.specs.Refusals.{trace_refusal};

    ghost from_gives = { λ error refusal. refusal ≡ trace_refusal error };

    fn from(error: TraceError) -> InputRefusal {
        match error {
            TraceError::Memory => InputRefusal::Memory,
            error => InputRefusal::Trace(error),
        }
    }
}

impl From<FailedMuster> for InputRefusal {
    ghost use Rattle.std.specs.Prelude.{◌≡◌};
    ghost use Rattle.cli_tasks.specs.Refusals.{muster_refusal};

    ghost from_gives = { λ failed refusal. refusal ≡ muster_refusal failed.error };

    fn from(failed: FailedMuster) -> InputRefusal {
        match failed.error {
            MusterError::Memory => InputRefusal::Memory,
            error => InputRefusal::Threads(error),
        }
    }
}

impl From<AccessesError> for InputRefusal {
    ghost use Rattle.std.specs.Prelude.{◌≡◌};
    ghost use Rattle.cli_tasks.specs.Refusals.{accesses_refusal};

    ghost from_gives = { λ error refusal. refusal ≡ accesses_refusal error };

    fn from(error: AccessesError) -> InputRefusal {
        match error {
            AccessesError::At(fault) => InputRefusal::Accesses(fault),
            AccessesError::Memory => InputRefusal::Memory,
        }
    }
}
