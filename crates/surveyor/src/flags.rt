//! Declares the options of `./byzlab survey` to `clap`, with their help texts.
ghost use Rattle.std.specs.Prelude.{◌≡◌, IfOk, codes, false, map};
ghost use Rattle.clap.specs.Words.{app_of, rule_of};
ghost use Rattle.surveyor.specs.Flags.{bare_app, files, rule_for, survey_app, with_rules};

use clap::{Arg, ArgAction, Command};
use combine::Rule;
use std::alloc::{AllocError, Global};

/// An option of the command line, with its help text. An option without a value is a switch.
#[derive(Clone, Copy)]
struct Flag<'a> {
    name: &'a str,
    /// What the help text calls the value of the option, such as `N..M`. It is `None` for a switch.
    value: Option<&'a str>,
    help: &'a str,
}

/// The options that say which campaigns are played.
const FAMILY: &[Flag<'static>] = &[
    Flag {
        name: "generals",
        value: Some("N..M"),
        help: "How many generals, 2 to 13 [default: 4]",
    },
    Flag {
        name: "bound",
        value: Some("N..M"),
        help: "How many traitors they provide for, 0 to 4 [default: 1]",
    },
    Flag {
        name: "traitors",
        value: Some("N..M"),
        help: "How many traitors there are [default: 1; with --break: 1..13]",
    },
    Flag {
        name: "commander",
        value: Some("C"),
        help: "Who commands, a number below the least number of generals [default: 0]",
    },
    Flag {
        name: "orders",
        value: Some("0..V"),
        help: "The orders, at most 0..255 [default: 0..1]",
    },
    Flag {
        name: "grid",
        value: None,
        help: "Seeds go through the numbers of generals, bounds and traitors in turn, and do not draw them",
    },
    Flag {
        name: "seeds",
        value: Some("N..M"),
        help: "The seeds, one for each campaign, at most 10000000 [default: 1..1000]",
    },
];

/// The options that say how campaigns are played, except `--rule`.
const MANNER: &[Flag<'static>] = &[
    Flag {
        name: "patience",
        value: Some("STEPS"),
        help: "How many steps a traitor may take in each round, 1 to 4096",
    },
    Flag {
        name: "signed",
        value: None,
        help: "Messages are signed",
    },
    Flag {
        name: "adversary",
        value: Some("WHAT"),
        help: "What traitors do: lies, silent, collude, or a file of assembly [default: lies]",
    },
];

/// The options that say what is printed, and which campaigns are written to files.
const SHAPES: &[Flag<'static>] = &[
    Flag {
        name: "lines",
        value: None,
        help: "Prints a JSON object for each campaign, in place of the sums",
    },
    Flag {
        name: "details",
        value: None,
        help: "With --lines: the objects also have the traitors, the order and the decisions",
    },
    Flag {
        name: "table",
        value: None,
        help: "Prints the sums for each number of generals, each bound and each number of traitors",
    },
    Flag {
        name: "csv",
        value: None,
        help: "Prints the table as CSV, with a 95% interval for the share of broken campaigns",
    },
    Flag {
        name: "svg",
        value: None,
        help: "Prints a picture in SVG: the share of broken campaigns by number of traitors",
    },
    Flag {
        name: "shrink",
        value: None,
        help: "Prints the smallest broken campaign, from which nothing more can be removed",
    },
    Flag {
        name: "break",
        value: None,
        help: "Prints, for each number of generals and each bound, the least broken campaign found: by \
               traitors, statements and seed",
    },
    Flag {
        name: "campaign",
        value: Some("SEED"),
        help: "Prints the campaign of this seed, broken or not, and plays nothing",
    },
    Flag {
        name: "keep",
        value: Some("DIR"),
        help: "Writes each broken campaign to DIR/SEED.toml",
    },
    Flag {
        name: "keep-all",
        value: Some("DIR"),
        help: "Writes each campaign to DIR/SEED.toml, broken or not",
    },
];

/// The option `--sum`, which takes the names of one or more files.
const SUM: Flag<'static> = Flag {
    name: "sum",
    value: Some("FILE"),
    help: "Sums the lines of these files, and lists missing and duplicate seeds; plays nothing",
};

impl<'a> Flag<'a> {
    /// Returns the option in the form that `clap` takes.
    #[tactic(auto, unfolding(crate::specs::Flags::rule_for))]
    fn argument(&self, alloc: Global) -> Arg<'a>
        ensures rule { rule_of result ≡ rule_for self.now }
        ensures local { result.global ≡ false }
    {
        let argument = Arg::new(alloc, self.name).long(self.name).help(self.help);
        match self.value {
            Some(value) => argument.value_name(value),
            None => argument.action(ArgAction::SetTrue),
        }
    }
}

/// Adds these options to a command of `clap`.
fn with_flags<'a>(
    alloc: Global,
    mut command: Command<'a>,
    flags: &[Flag<'a>],
) -> Result<Command<'a>, AllocError>
    ensures app { IfOk result (λ c. app_of c ≡ with_rules (app_of command.entry) (map rule_for flags.now)) }
{
    for flag in flags {
        command = command.arg(flag.argument(alloc))?;
    }
    Ok(command)
}

/// Returns the help text of `--rule`, which lists all rules for combining orders.
pub(crate) fn rules(alloc: Global) -> Result<String, AllocError> {
    let names = Rule::names();
    let default = Rule::DEFAULT.name();
    format!(in alloc; "How orders are combined: {names} [default: {default}]")
}

/// Returns the command `survey` without its options.
fn bare<'a>(alloc: Global) -> Result<Command<'a>, AllocError>
    ensures { IfOk result (λ c. app_of c ≡ bare_app) }
{
    Command::new(alloc, "survey")
        .no_binary_name(true)
        .about("Plays many campaigns of a family, and counts their outcomes")
        .bin_name("byzlab survey")
}

/// Returns the option `--sum` in the form that `clap` takes. It can be given several times, with several values.
#[tactic(auto, unfolding(crate::specs::Flags::rule_for))]
fn sum_argument<'a>(alloc: Global) -> Arg<'a>
    ensures rule { rule_of result ≡ files (codes "sum") }
    ensures local { result.global ≡ false }
{
    SUM.argument(alloc).num_args(1..).action(ArgAction::Append)
}

/// Returns the command `survey` with all its options. `rules` is the help text of `--rule`.
pub(crate) fn command<'a>(alloc: Global, rules: &'a str) -> Result<Command<'a>, AllocError>
    ensures { IfOk result (λ c. app_of c ≡ survey_app) }
{
    let rule = Flag {
        name: "rule",
        value: Some("RULE"),
        help: rules,
    };
    let command = with_flags(alloc, bare(alloc)?, FAMILY)?.arg(rule.argument(alloc))?;
    let command = with_flags(alloc, command, MANNER)?;
    let command = with_flags(alloc, command, SHAPES)?;
    command.arg(sum_argument(alloc))
}
