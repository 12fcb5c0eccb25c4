//! Builds the command line of the program for `clap`, the parser of its words.
ghost use Rattle.std.specs.Prelude.{◌≡◌, IfOk, IsSomeAnd, Some, codes, option_map, string_bytes};
ghost use Rattle.clap.specs.Words.{app_of};
ghost use Rattle.clap.specs.declared.builder.command.Command.TheViews.{out-Command};
ghost use Rattle.cli_words.specs.Asked.{words_of};
ghost use Rattle.cli_words.specs.Lab.{app_for, described, lab_about, lab_version};
ghost use Rattle.cli_words.specs.Subcommand.{with_subcommands};

use crate::subcommand::Subcommand;
use crate::subcommands::{subcommands, subcommands_for};
use clap::Command;
use std::alloc::{AllocError, Global};

/// The description of the program in its help.
const ABOUT: &str =
    "A laboratory for the Byzantine generals problem; the file name `-` means standard input";

/// The text that `--version` prints: the version, and the line of `rt version` for the toolchain that proves this
/// program.
const VERSION: &str = "1.0.0, proved with Rattle, logic dac8208d650f15bf";

/// Returns the command line by which `clap` parses these words. It has the subcommand that the first word names, or all
/// subcommands if the first word names none.
pub(crate) fn lab_command<'a>(alloc: Global, words: &[&str]) -> Result<Command<'a>, AllocError>
    ensures shape { IfOk result (λ c. app_of c ≡ app_for (words_of words.now)) }
    ensures about { IfOk result (λ c. option_map (λ text. text.now) (out-Command c).about ≡ Some lab_about) }
    ensures version { IfOk result (λ c. option_map (λ text. text.now) (out-Command c).version ≡ Some lab_version) }
    ensures name { IfOk result (λ c. IsSomeAnd (out-Command c).bin_name (λ name. string_bytes name ≡ codes "byzlab")) }
{
    let subcommands = subcommands();
    let named = subcommands_for(words, &subcommands);
    let lab = with_subcommands(alloc, Command::new(alloc, "byzlab"), named)?;
    described(lab)
}

/// Returns the command line `lab` with these subcommands added.
fn with_subcommands<'a>(
    alloc: Global,
    mut lab: Command<'a>,
    subcommands: &[Subcommand<'a>],
) -> Result<Command<'a>, AllocError>
    ensures { IfOk result (λ c. app_of c ≡ with_subcommands (app_of lab.entry) subcommands.now) }
{
    for subcommand in subcommands {
        let command = subcommand.command(alloc)?;
        lab = lab.subcommand(command)?;
    }
    Ok(lab)
}

/// Returns the command line with its description, version and name. It is called after all subcommands were added,
/// because `clap` promises nothing about these texts if one is added later.
fn described<'a>(lab: Command<'a>) -> Result<Command<'a>, AllocError>
    ensures shape { IfOk result (λ c. app_of c ≡ described (app_of lab.entry)) }
    ensures about { IfOk result (λ c. option_map (λ text. text.now) (out-Command c).about ≡ Some lab_about) }
    ensures version { IfOk result (λ c. option_map (λ text. text.now) (out-Command c).version ≡ Some lab_version) }
    ensures name { IfOk result (λ c. IsSomeAnd (out-Command c).bin_name (λ name. string_bytes name ≡ codes "byzlab")) }
{
    lab.about(ABOUT)
        .version(VERSION)
        .no_binary_name(true)
        .subcommand_required(true)
        .bin_name("byzlab")
}
