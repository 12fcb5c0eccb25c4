//! Describes how a subcommand is used, and turns this description into a command for `clap`, the parser of the command
//! line.
ghost use Rattle.std.specs.Prelude.{◌≡◌, IfOk, Some, false};
ghost use Rattle.clap.specs.Words.{rule_of, shape_of};
ghost use Rattle.clap.specs.declared.builder.command.Command.TheViews.{out-Command};
ghost use Rattle.cli_words.specs.Lab.{place_rule};
ghost use Rattle.cli_words.specs.Subcommand.{help_of, rule_for, shape_for};

use clap::{Arg, ArgAction, Command};
use std::alloc::{AllocError, Global};

/// A subcommand: its name, its description in the help, its positional arguments (places), and its flags.
#[derive(Clone, Copy)]
pub(crate) struct Subcommand<'a> {
    pub(crate) name: &'a str,
    pub(crate) about: &'a str,
    pub(crate) places: &'a [Place<'a>],
    pub(crate) flags: &'a [Flag<'a>],
}

/// A place: a positional argument of a subcommand, which is required.
#[derive(Clone, Copy)]
pub(crate) struct Place<'a> {
    pub(crate) name: &'a str,
    pub(crate) help: &'a str,
}

/// A flag of a subcommand, which may be used once.
#[derive(Clone, Copy)]
pub(crate) enum Flag<'a> {
    /// A switch, which has no value: `--NAME`.
    Switch {
        name: &'a str,
        help: &'a str,
    },
    /// An option with a value: `--NAME VALUE`.
    Option {
        name: &'a str,
        value: &'a str,
        help: &'a str,
    },
    /// An option that is written by its letter: `-L VALUE`.
    Letter {
        name: &'a str,
        letter: char,
        value: &'a str,
        help: &'a str,
    },
}

impl<'a> Subcommand<'a> {
    /// Returns this subcommand as a command for `clap`, the parser of the command line.
    pub(crate) fn command(&self, alloc: Global) -> Result<Command<'a>, AllocError>
        ensures shape { IfOk result (λ c. shape_of c ≡ shape_for self.now) }
        ensures about { IfOk result (λ c. (out-Command c).about ≡ Some self.now.about) }
        ensures local { IfOk result (λ c. (out-Command c).has_globals ≡ false) }
    {
        let mut command = Command::new(alloc, self.name);
        for place in self.places {
            command = command.arg(place.argument(alloc))?;
        }
        for flag in self.flags {
            command = command.arg(flag.argument(alloc))?;
        }
        Ok(command.about(self.about))
    }
}

impl<'a> Place<'a> {
    /// Returns this place as an argument for `clap`, the parser of the command line.
    fn argument(&self, alloc: Global) -> Arg<'a>
        ensures rule { rule_of result ≡ place_rule self.now.name.now }
        ensures help { result.help ≡ Some self.now.help }
        ensures local { result.global ≡ false }
    {
        Arg::new(alloc, self.name)
            .value_name(self.name)
            .required(true)
            .help(self.help)
    }
}

impl<'a> Flag<'a> {
    /// Returns this flag as an argument for `clap`, the parser of the command line.
    #[tactic(auto, unfolding(crate::specs::Subcommand::rule_for))]
    fn argument(&self, alloc: Global) -> Arg<'a>
        ensures rule { rule_of result ≡ rule_for self.now }
        ensures help { result.help ≡ Some (help_of self.now) }
        ensures local { result.global ≡ false }
    {
        match self {
            Flag::Switch { name, help } => Arg::new(alloc, name)
                .long(name)
                .action(ArgAction::SetTrue)
                .help(help),
            Flag::Option { name, value, help } => Arg::new(alloc, name)
                .long(name)
                .value_name(value)
                .help(help),
            Flag::Letter {
                name,
                letter,
                value,
                help,
            } => Arg::new(alloc, name)
                .short(*letter)
                .value_name(value)
                .help(help),
        }
    }
}
