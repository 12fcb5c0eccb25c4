//! The errors of the command line, and their texts.
use clap::Error;
use std::alloc::AllocError;
use std::{error, fmt};

/// Why words of the command line name no task.
#[derive(Debug, Drop)]
pub enum TaskError {
    /// `clap`, the parser of the command line, rejected the words, or they ask for help. The error has the text and the
    /// exit status of `clap`.
    Words(Error),
    /// `clap` accepted the words, but they name no task.
    Misuse(Misuse),
    /// There was not enough memory.
    Memory,
}

/// Why words name no task, although `clap`, the parser of the command line, accepts them.
#[derive(Debug, Drop)]
pub enum Misuse {
    /// The value of `--traitors` does not list generals.
    Traitors(String),
    /// The value of `--of` is not the number of a general.
    Of(String),
    /// The value of `--lie` is not the number of a general.
    Lie(String),
    /// The value of `--loyal` is not an order.
    Loyal(String),
    /// The value of `--most` is not a number of orders.
    Most(String),
    /// The value of `--depth` is not a number of levels.
    Depth(String),
    /// The value of `--seed` is not a seed.
    Seed(String),
    /// The value of `--rule` is not the name of a rule.
    Rule(String),
    /// The value of `--story` is not the number of a story.
    Story(String),
    /// The value of `--generals` is not a number of generals.
    Generals(String),
    /// The value of `--bound` is not a bound on the traitors.
    Bound(String),
    /// The value of `--traitors` of `exhaust` is not a number of traitors.
    TraitorCount(String),
    /// The value of `--commander` is not the number of a general.
    Commander(String),
    /// `--generals`, how many generals there are, is missing.
    NoGenerals,
    /// `--bound`, the bound on the traitors, is missing.
    NoBound,
    /// `--traitors`, the greatest number of traitors, is missing.
    NoTraitors,
    /// `--asm` and `--elf` are used together, so that a file has two notations.
    TwoNotations,
    /// `--units` and `--partial` are used together. With `--partial`, some units are no instructions, and a unit is
    /// printed only before an instruction.
    UnitsOfParts,
    /// `--json` and `--scenario` are used together, so that a break would be printed in two forms.
    TwoForms,
    /// `--schedule` and `--chronicle` are used together, so that a campaign would follow two files.
    TwoCourses,
    /// `--entry`, the name of a function, is used without `--elf`.
    EntryAlone,
    /// `--of`, the lieutenant whose tree is drawn, is missing.
    NobodyNamed,
    /// A tree would be drawn in two ways: at least two of `--dot`, `--svg`, and `--text` or `--ascii` are used.
    TwoDrawings,
    /// `--of` is used without `--explain`.
    OfAlone,
    /// `--lie` is used without `--loyal`.
    LieAlone,
    /// `--seed` and `--schedule` are used together, so that a campaign would be played by two schedules.
    TwoSchedules,
    /// `--schedule-out` is used without `--seed`.
    OutAlone,
}

impl fmt::Display for TaskError {
    ghost use Rattle.cli_words.specs.ErrorText.{error_text};

    ghost output = { error_text };

    fn fmt<W: fmt::Write>(&self, f: &mut fmt::Formatter<W>) -> fmt::Result {
        match self {
            TaskError::Words(refusal) => write!(f, "{refusal}"),
            TaskError::Misuse(misuse) => write!(f, "error: {misuse}"),
            TaskError::Memory => f.write_str("out of memory"),
        }
    }
}

impl error::Error for TaskError {}

impl fmt::Display for Misuse {
    ghost use Rattle.cli_words.specs.ErrorText.{misuse_text};

    ghost output = { misuse_text };

    fn fmt<W: fmt::Write>(&self, f: &mut fmt::Formatter<W>) -> fmt::Result {
        match self {
            Misuse::Traitors(word) => write!(
                f,
                "invalid value {word:?} for '--traitors <G,H>': the numbers of generals, 0 to 12, joined by commas"
            ),
            Misuse::Of(word) => write!(
                f,
                "invalid value {word:?} for '--of <G>': the number of a general, 0 to 12"
            ),
            Misuse::Lie(word) => write!(
                f,
                "invalid value {word:?} for '--lie <G>': the number of a general, 0 to 12"
            ),
            Misuse::Loyal(word) => write!(
                f,
                "invalid value {word:?} for '--loyal <V>': an order, 0 to 4294967295"
            ),
            Misuse::Most(word) => write!(
                f,
                "invalid value {word:?} for '--most <N>': a whole number, 1 to 18446744073709551615"
            ),
            Misuse::Depth(word) => write!(
                f,
                "invalid value {word:?} for '--depth <D>': a number of levels, 0 to 4"
            ),
            Misuse::Seed(word) => write!(
                f,
                "invalid value {word:?} for '--seed <S>': a whole number, 0 to 18446744073709551615"
            ),
            Misuse::Rule(word) => write!(
                f,
                "invalid value {word:?} for '--rule <RULE>': majority or median"
            ),
            Misuse::Story(word) => write!(
                f,
                "invalid value {word:?} for '--story <K>': the number of a story, 1 to 3"
            ),
            Misuse::Generals(word) => write!(
                f,
                "invalid value {word:?} for '--generals <N>': how many generals there are, 2 to 13"
            ),
            Misuse::Bound(word) => write!(
                f,
                "invalid value {word:?} for '--bound <M>': a bound on the traitors, 0 to 4"
            ),
            Misuse::TraitorCount(word) => write!(
                f,
                "invalid value {word:?} for '--traitors <K>': a number of traitors, 0 to 12"
            ),
            Misuse::Commander(word) => write!(
                f,
                "invalid value {word:?} for '--commander <C>': the number of a general, 0 to 12"
            ),
            Misuse::NoGenerals => f.write_str("the argument '--generals <N>' is required"),
            Misuse::NoBound => f.write_str("the argument '--bound <M>' is required"),
            Misuse::NoTraitors => f.write_str("the argument '--traitors <K>' is required"),
            Misuse::NobodyNamed => f.write_str("the argument '--of <G>' is required"),
            Misuse::TwoDrawings => f.write_str(
                "the arguments '--dot' and '--svg' cannot be used with each other, or with '--text' or '--ascii'",
            ),
            Misuse::TwoNotations => {
                f.write_str("the argument '--elf' cannot be used with '--asm'")
            }
            Misuse::UnitsOfParts => {
                f.write_str("the argument '--units' cannot be used with '--partial'")
            }
            Misuse::TwoForms => {
                f.write_str("the argument '--json' cannot be used with '--scenario'")
            }
            Misuse::TwoCourses => f.write_str(
                "the argument '--schedule <FILE>' cannot be used with '--chronicle <FILE>'",
            ),
            Misuse::EntryAlone => {
                f.write_str("the argument '--entry <NAME>' cannot be used without '--elf'")
            }
            Misuse::OfAlone => {
                f.write_str("the argument '--of <G>' cannot be used without '--explain'")
            }
            Misuse::LieAlone => {
                f.write_str("the argument '--lie <G>' cannot be used without '--loyal <V>'")
            }
            Misuse::TwoSchedules => {
                f.write_str("the argument '--seed <S>' cannot be used with '--schedule <FILE>'")
            }
            Misuse::OutAlone => f.write_str(
                "the argument '--schedule-out <FILE>' cannot be used without '--seed <S>'",
            ),
        }
    }
}

impl From<AllocError> for TaskError {
    ghost use Rattle.std.specs.Prelude.{◌≡◌};
    ghost use Rattle.cli_words.specs.declared.errors.TaskError.TheVariants.{Memory};

    ghost from_gives = { λ _ e. e ≡ Memory };

    fn from(_error: AllocError) -> TaskError {
        TaskError::Memory
    }
}
