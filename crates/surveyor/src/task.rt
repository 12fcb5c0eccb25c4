//! The task that the command line of a survey describes: to play campaigns, to print one, to search, or to sum. Also
//! the reason why it describes none.
ghost use Rattle.std.specs.Prelude.{◌≡◌, IfErr, IfOk, []};
ghost use Rattle.clap.specs.Words.{fault_of, matches_of};
ghost use Rattle.surveyor.specs.Asked.{IsAsked};
ghost use Rattle.surveyor.specs.Flags.{survey_app, words_of};
ghost use Rattle.surveyor.specs.Meant.{Asks};
ghost use Rattle.surveyor.specs.Wrong.{IsByClap, IsUnmet};

use crate::flags::{command, rules};
use crate::task_words::meant;
use clap::error::ErrorKind;
use combine::Rule;
use std::alloc::{AllocError, Global};
use std::fmt;
use surveys::{CountRange, Manner};

/// The task that the command line describes.
#[derive(Drop)]
pub enum Asked {
    /// Plays a campaign for each seed of a survey.
    Survey(Survey),
    /// Prints the campaign of one seed.
    Campaign(OneCampaign),
    /// Searches for the least campaign that breaks agreement, for each number of generals and each bound. The flag says
    /// whether only a table of numbers is printed, and no campaigns.
    Break(Survey, bool),
    /// Sums the lines of several files.
    Merge(Merge),
}

/// The form in which the outcomes of campaigns are printed.
#[derive(Clone, Copy, PartialEq, Eq)]
pub enum ReportKind {
    /// The number of campaigns, and of those with each outcome.
    Sums,
    /// A JSON line for each campaign.
    Lines,
    /// A JSON line for each campaign, which also has the traitors, the order and the decisions.
    Accounts,
    /// A table with a row of sums for each number of generals, bound and number of traitors.
    Table,
    /// The table of sums as CSV, with a 95% interval for the share of broken campaigns.
    Csv,
    /// An SVG picture of the share of broken campaigns, for each number of generals, bound and number of traitors.
    Picture,
    /// The least broken campaign after reduction: no traitor and no statement can be removed from it.
    Least,
}

/// The task to print one campaign: the one that the seed gives in the family of the survey.
#[derive(Drop)]
pub struct OneCampaign {
    pub survey: Survey,
    pub seed: u64,
}

/// The task to sum the lines of the files with these names.
#[derive(Drop)]
pub struct Merge {
    pub names: Vec<String>,
    /// The first and the last seed that the files should have, if `--seeds` is given.
    pub seeds: Option<(u64, u64)>,
    pub shape: ReportKind,
}

/// The task to play campaigns: which campaigns, and what is printed about them.
#[derive(Drop)]
pub struct Survey {
    pub generals: CountRange,
    pub bound: CountRange,
    pub traitors: CountRange,
    /// The number of the commander, who is the same in all campaigns.
    pub commander: u8,
    /// The greatest order of a commander. The least is 0.
    pub orders: u8,
    /// Whether the seeds go through the numbers of generals, bounds and traitors in turn, instead of drawing them at
    /// random.
    pub grid: bool,
    pub manner: Manner,
    pub patience: Option<u32>,
    /// What the traitors do: `lies`, `silent`, `collude`, or the name of a file of assembly.
    pub adversary: String,
    pub first: u64,
    pub last: u64,
    pub shape: ReportKind,
    /// The folder of `--keep` or `--keep-all`, to which campaigns are written.
    pub keep: Option<String>,
    /// Whether all campaigns are written to the folder, and not only the broken ones.
    pub keeps_all: bool,
}

/// Why the command line describes no task.
#[derive(Drop)]
pub enum AskedError {
    /// `clap` rejects the command line with this error, or the user asks for help.
    Words(clap::Error),
    /// The value of an option is wrong, or two options cannot be used together. The text is the message.
    Value(&'static str),
    /// The value of `--rule` is not the name of a rule.
    Rule,
    /// Memory ran out.
    Memory,
}

impl fmt::Display for AskedError {
    ghost use Rattle.surveyor.specs.Statuses.{complaint};

    ghost output = { complaint };

    fn fmt<W: fmt::Write>(&self, f: &mut fmt::Formatter<W>) -> fmt::Result {
        match self {
            AskedError::Words(refusal) => write!(f, "{refusal}"),
            AskedError::Value(why) => write!(f, "error: {why}"),
            AskedError::Rule => write!(f, "error: --rule takes {}", Rule::names()),
            AskedError::Memory => f.write_str("out of memory"),
        }
    }
}

impl From<AllocError> for AskedError {
    ghost use Rattle.std.specs.Prelude.{◌≡◌};
    ghost use Rattle.surveyor.specs.declared.task.AskedError.TheVariants.{Memory};

    ghost from_gives = { λ _ e. e ≡ Memory };

    fn from(_error: AllocError) -> AskedError {
        AskedError::Memory
    }
}

/// Returns the reason for a command line that `clap` rejects: `Memory` if `clap` ran out of memory, and otherwise
/// `Words`.
fn untaken(error: clap::Error) -> AskedError
    ensures { IsByClap error result }
{
    if error.kind() == ErrorKind::OutOfMemory {
        AskedError::Memory
    } else {
        AskedError::Words(error)
    }
}

/// Parses the words of the command line after the program's name, and returns the task that they describe.
///
/// # Errors
///
/// Fails if the words describe no task, or if memory runs out.
pub fn request(alloc: Global, words: &[&str]) -> Result<Asked, AskedError>
    ensures asked { IfOk result IsAsked }
    ensures found { IfOk result (Asks (matches_of survey_app (words_of words.now))) }
    ensures taken { IfOk result (λ _. fault_of survey_app (words_of words.now) ≡ []) }
    ensures refused { IfErr result (IsUnmet (words_of words.now)) }
{
    let rules = rules(alloc)?;
    let command = command(alloc, rules.as_str())?;
    match command.try_get_matches_from(words) {
        Ok(found) => meant(alloc, &found),
        Err(error) => Err(untaken(error)),
    }
}
