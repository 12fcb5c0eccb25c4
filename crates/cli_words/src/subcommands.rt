//! Lists the subcommands, with their positional arguments (places), their flags and the texts of their help.
ghost use Rattle.std.specs.Prelude.{◌≡◌, map};
ghost use Rattle.cli_words.specs.Asked.{words_of};
ghost use Rattle.cli_words.specs.Lab.{named_in, usages_for};
ghost use Rattle.cli_words.specs.Subcommand.{usage_of};
ghost use Rattle.cli_words.specs.Usages.{asm, book, dis, draw, exhaust, explore, muster, page, refute, rule, schedule, table, tree, usages};

use crate::subcommand::{Flag, Place, Subcommand};
use std::slice;

/// The help text of `--explain` for subcommands that read a program.
const EXPLAIN: &str =
    "Prints what is known about each register that is read, and why an instruction is rejected";

/// The help text of `--explain` for subcommands that play a campaign.
const EXPLAIN_DECISIONS: &str = "Explains how each decision is made, or why a file is refused";

/// The help text of `--entry`.
const ENTRY: &str = "The function of the object; by default its only global function";

/// The help text of `--json`.
const JSON: &str = "Prints JSON Lines: an object for each line, also for a refusal";

/// The help text of `--verdicts`.
const VERDICTS: &str = "Prints one line for each file, and accepts several files";

/// The help text of `--of` for subcommands that play a campaign.
const OF: &str = "Explains only this lieutenant's decision";

/// The positional argument for the file with a program.
const BYTECODE: Place<'static> = Place {
    name: "FILE",
    help: "The program, as raw bytecode",
};

/// The positional argument for the file with a message table.
const TOLD: Place<'static> = Place {
    name: "FILE",
    help: "The message table: who sent which order to whom",
};

/// The positional argument for the file with a scenario.
const SCENARIO: Place<'static> = Place {
    name: "SCENARIO",
    help: "The campaign, as TOML: the generals, the order, the traitors' programs",
};

/// The positional argument for the file with a chronicle.
const CHRONICLE: Place<'static> = Place {
    name: "CHRONICLE",
    help: "The campaign's chronicle, as `play` or `muster` printed it",
};

/// The positional argument for the file with a chronicle, or for a list of accesses.
const ACCESSES: Place<'static> = Place {
    name: "CHRONICLE",
    help: "The campaign's chronicle, as `play` or `muster` printed it; with --accesses the accesses, \
           such as '5 4 / 4 5'",
};

/// The option `--schedule`.
const SCHEDULED: Flag<'static> = Flag::Option {
    name: "schedule",
    value: "FILE",
    help: "The order of the turns; by default each round is punctual",
};

/// The option `--chronicle` of `page`.
const RECORDED: Flag<'static> = Flag::Option {
    name: "chronicle",
    value: "FILE",
    help: "Shows what this chronicle records",
};

/// The switch `--no-files` of the subcommands that read a scenario.
const NO_FILES: Flag<'static> = Flag::Switch {
    name: "no-files",
    help: "Refuses a scenario that names a file, without opening it",
};

/// The option `-o` of `page`.
const PAGE_TARGET: Flag<'static> = Flag::Letter {
    name: "target",
    letter: 'o',
    value: "FILE",
    help: "Writes to this file, when the page is complete",
};

pub(crate) const CHECK: Subcommand<'static> = Subcommand {
    name: "check",
    about: "Verifies a program and runs it",
    places: &[BYTECODE],
    flags: &[
        Flag::Switch {
            name: "asm",
            help: "FILE is assembly text",
        },
        Flag::Switch {
            name: "elf",
            help: "FILE is an ELF object",
        },
        Flag::Switch {
            name: "explain",
            help: EXPLAIN,
        },
        Flag::Switch {
            name: "trace",
            help: "Prints each step of the run",
        },
        Flag::Switch {
            name: "json",
            help: JSON,
        },
        Flag::Switch {
            name: "verdicts",
            help: VERDICTS,
        },
        Flag::Option {
            name: "context",
            value: "CONTEXT",
            help: "Runs it in the context that this TOML file describes, and prints what it set and changed",
        },
        Flag::Option {
            name: "entry",
            value: "NAME",
            help: ENTRY,
        },
    ],
};

/// Returns the row of `asm`.
fn asm() -> Subcommand<'static>
    ensures { usage_of result ≡ asm }
{
    Subcommand {
        name: "asm",
        about: "Translates assembly into bytecode in hex",
        places: &[Place {
            name: "FILE",
            help: "The program, as assembly text",
        }],
        flags: &[
            Flag::Switch {
                name: "raw",
                help: "Writes the bytes themselves",
            },
            Flag::Switch {
                name: "explain",
                help: "Shows a refused line, and says what was expected there",
            },
            Flag::Switch {
                name: "partial",
                help: "Also accepts units as bytes, as `dis --partial` writes them",
            },
            Flag::Letter {
                name: "target",
                letter: 'o',
                value: "FILE",
                help: "Writes to this file, when everything is translated",
            },
        ],
    }
}

/// Returns the row of `dis`.
fn dis() -> Subcommand<'static>
    ensures { usage_of result ≡ dis }
{
    Subcommand {
        name: "dis",
        about: "Translates raw bytecode into assembly",
        places: &[BYTECODE],
        flags: &[
            Flag::Switch {
                name: "elf",
                help: "FILE is an ELF object",
            },
            Flag::Switch {
                name: "units",
                help: "Prints the unit before each instruction",
            },
            Flag::Switch {
                name: "explain",
                help: "Says what is wrong with refused bytes",
            },
            Flag::Switch {
                name: "partial",
                help: "Writes a unit that cannot be decoded as bytes, with the reason, and continues",
            },
            Flag::Option {
                name: "entry",
                value: "NAME",
                help: ENTRY,
            },
        ],
    }
}

/// Returns the row of `book`.
fn book() -> Subcommand<'static>
    ensures { usage_of result ≡ book }
{
    Subcommand {
        name: "book",
        about: "Computes the decisions of a message table",
        places: &[TOLD],
        flags: &[
            Flag::Switch {
                name: "explain",
                help: "Explains how each decision is made",
            },
            Flag::Switch {
                name: "json",
                help: JSON,
            },
            Flag::Option {
                name: "traitors",
                value: "G,H",
                help: "Explains the decisions with these generals named as traitors",
            },
        ],
    }
}

/// Returns the row of `table`.
fn table() -> Subcommand<'static>
    ensures { usage_of result ≡ table }
{
    Subcommand {
        name: "table",
        about: "Prints a message table to fill in",
        places: &[
            Place {
                name: "GENERALS",
                help: "How many generals there are, 2 to 13",
            },
            Place {
                name: "BOUND",
                help: "The greatest number of traitors, 0 to 4",
            },
            Place {
                name: "COMMANDER",
                help: "The commander's number, from 0",
            },
        ],
        flags: &[
            Flag::Option {
                name: "loyal",
                value: "V",
                help: "Fills it in as loyal generals would, if this is the commander's order",
            },
            Flag::Option {
                name: "lie",
                value: "G",
                help: "Leaves the orders that this general sends to be filled in",
            },
        ],
    }
}

/// Returns the row of `refute`.
fn refute() -> Subcommand<'static>
    ensures { usage_of result ≡ refute }
{
    Subcommand {
        name: "refute",
        about: "Prints a message table that breaks a rule, if there are too few generals",
        places: &[
            Place {
                name: "GENERALS",
                help: "How many generals there are, 3 to 12",
            },
            Place {
                name: "BOUND",
                help: "The greatest number of traitors, 1 to 4, and at least a third of the generals",
            },
            Place {
                name: "COMMANDER",
                help: "The commander's number, from 0",
            },
        ],
        flags: &[
            Flag::Option {
                name: "rule",
                value: "RULE",
                help: "The rule of combination, majority or median; by default the majority",
            },
            Flag::Option {
                name: "story",
                value: "K",
                help: "Prints this story, 1 to 3; by default the first that breaks the rule",
            },
            Flag::Switch {
                name: "scenario",
                help: "Prints the campaign as a scenario",
            },
        ],
    }
}

/// Returns the row of `exhaust`.
fn exhaust() -> Subcommand<'static>
    ensures { usage_of result ≡ exhaust }
{
    Subcommand {
        name: "exhaust",
        about: "Says whether any traitors, whatever they say, break IC1 or IC2",
        places: &[],
        flags: &[
            Flag::Switch {
                name: "json",
                help: JSON,
            },
            Flag::Option {
                name: "generals",
                value: "N",
                help: "How many generals there are, 2 to 13",
            },
            Flag::Option {
                name: "bound",
                value: "M",
                help: "The bound of OM(m), 0 to 4, and at most two less than the generals",
            },
            Flag::Option {
                name: "traitors",
                value: "K",
                help: "The greatest number of traitors, 0 to 12",
            },
            Flag::Option {
                name: "commander",
                value: "C",
                help: "The commander's number, from 0; by default each general commands in turn",
            },
            Flag::Option {
                name: "rule",
                value: "RULE",
                help: "The rule of combination, majority or median; by default the majority",
            },
            Flag::Switch {
                name: "scenario",
                help: "Prints the campaign as a scenario",
            },
        ],
    }
}

/// Returns the row of `rule`.
fn rule() -> Subcommand<'static>
    ensures { usage_of result ≡ rule }
{
    Subcommand {
        name: "rule",
        about: "Says whether a program is a rule that keeps majorities",
        places: &[BYTECODE],
        flags: &[
            Flag::Switch {
                name: "asm",
                help: "FILE is assembly text",
            },
            Flag::Switch {
                name: "elf",
                help: "FILE is an ELF object",
            },
            Flag::Switch {
                name: "json",
                help: JSON,
            },
            Flag::Option {
                name: "entry",
                value: "NAME",
                help: ENTRY,
            },
            Flag::Option {
                name: "generals",
                value: "N",
                help: "Tries the lists of this many generals, 2 to 13; by default 13",
            },
        ],
    }
}

/// Returns the row of `muster`.
fn muster() -> Subcommand<'static>
    ensures { usage_of result ≡ muster }
{
    Subcommand {
        name: "muster",
        about: "Runs a campaign with a thread for each general and prints its chronicle",
        places: &[SCENARIO],
        flags: &[
            Flag::Switch {
                name: "explain",
                help: EXPLAIN_DECISIONS,
            },
            Flag::Switch {
                name: "json",
                help: JSON,
            },
            Flag::Option {
                name: "of",
                value: "G",
                help: OF,
            },
            NO_FILES,
        ],
    }
}

pub(crate) const PLAY: Subcommand<'static> = Subcommand {
    name: "play",
    about: "Plays a campaign and prints its chronicle",
    places: &[SCENARIO],
    flags: &[
        Flag::Switch {
            name: "table",
            help: "Prints the message table of the campaign in place of its chronicle",
        },
        Flag::Switch {
            name: "explain",
            help: EXPLAIN_DECISIONS,
        },
        Flag::Switch {
            name: "json",
            help: JSON,
        },
        Flag::Switch {
            name: "verdicts",
            help: VERDICTS,
        },
        SCHEDULED,
        Flag::Option {
            name: "seed",
            value: "S",
            help: "Plays the random schedule of this seed",
        },
        Flag::Option {
            name: "schedule-out",
            value: "FILE",
            help: "Writes the schedule of the seed to this file",
        },
        Flag::Option {
            name: "of",
            value: "G",
            help: OF,
        },
        NO_FILES,
    ],
};

pub(crate) const AUDIT: Subcommand<'static> = Subcommand {
    name: "audit",
    about: "Replays a chronicle and says whether it is sound",
    places: &[SCENARIO, CHRONICLE],
    flags: &[
        Flag::Switch {
            name: "explain",
            help: EXPLAIN_DECISIONS,
        },
        Flag::Switch {
            name: "json",
            help: JSON,
        },
        Flag::Switch {
            name: "verdicts",
            help: VERDICTS,
        },
        Flag::Option {
            name: "of",
            value: "G",
            help: OF,
        },
        NO_FILES,
    ],
};

/// Returns the row of `explore`.
fn explore() -> Subcommand<'static>
    ensures { usage_of result ≡ explore }
{
    Subcommand {
        name: "explore",
        about: "Plays a campaign in each order of its accesses and prints the outcomes",
        places: &[SCENARIO],
        flags: &[
            Flag::Option {
                name: "most",
                value: "N",
                help: "Stops after this many orders of accesses; by default it counts them all",
            },
            Flag::Option {
                name: "keep",
                value: "DIR",
                help: "Writes the scenario and a schedule for each outcome to this folder",
            },
            NO_FILES,
        ],
    }
}

/// Returns the row of `tree`.
fn tree() -> Subcommand<'static>
    ensures { usage_of result ≡ tree }
{
    Subcommand {
        name: "tree",
        about: "Draws what a lieutenant received, in a message table or a campaign",
        places: &[Place {
            name: "FILE",
            help: "A message table, or a campaign as TOML, which is played without a schedule",
        }],
        flags: &[
            Flag::Switch {
                name: "text",
                help: "Draws lines of text, which is the default",
            },
            Flag::Switch {
                name: "ascii",
                help: "Draws lines with ASCII characters instead of box-drawing ones",
            },
            Flag::Switch {
                name: "dot",
                help: "Draws a graph, for the program dot of Graphviz",
            },
            Flag::Switch {
                name: "svg",
                help: "Draws a picture in SVG",
            },
            Flag::Switch {
                name: "fold",
                help: "Leaves out the labels below one whose messages are all the same",
            },
            Flag::Option {
                name: "of",
                value: "G",
                help: "The lieutenant",
            },
            Flag::Option {
                name: "traitors",
                value: "G,H",
                help: "Marks the lies of these generals, in addition to the campaign's traitors",
            },
            Flag::Option {
                name: "depth",
                value: "D",
                help: "How many levels below the commander's are drawn; by default all",
            },
            NO_FILES,
        ],
    }
}

/// Returns the row of `draw`.
fn draw() -> Subcommand<'static>
    ensures { usage_of result ≡ draw }
{
    Subcommand {
        name: "draw",
        about: "Draws a campaign as a space-time diagram in SVG",
        places: &[SCENARIO],
        flags: &[
            SCHEDULED,
            Flag::Option {
                name: "chronicle",
                value: "FILE",
                help: "Draws what this chronicle records",
            },
            NO_FILES,
        ],
    }
}

/// Returns the row of `page`.
fn page() -> Subcommand<'static>
    ensures { usage_of result ≡ page }
{
    Subcommand {
        name: "page",
        about: "Describes a campaign on one page of HTML",
        places: &[SCENARIO],
        flags: &[SCHEDULED, RECORDED, PAGE_TARGET, NO_FILES],
    }
}

/// Returns the row of `schedule`.
fn schedule() -> Subcommand<'static>
    ensures { usage_of result ≡ schedule }
{
    Subcommand {
        name: "schedule",
        about: "Prints the schedule by which a campaign has this chronicle, or these accesses",
        places: &[SCENARIO, ACCESSES],
        flags: &[
            Flag::Switch {
                name: "accesses",
                help: "CHRONICLE is not a file, but the generals in the order of their accesses, with a slash between rounds",
            },
            NO_FILES,
        ],
    }
}

/// Returns the rows of all subcommands, in the order in which help lists them. All but three rows are results of
/// functions, since the proof about a literal of all rows would take too many steps.
pub(crate) fn subcommands() -> [Subcommand<'static>; 16]
    ensures { map usage_of result ≡ usages }
{
    [
        CHECK,
        asm(),
        dis(),
        book(),
        table(),
        refute(),
        exhaust(),
        rule(),
        muster(),
        PLAY,
        AUDIT,
        explore(),
        tree(),
        draw(),
        page(),
        schedule(),
    ]
}

/// Returns the subcommand that the first word names, or all subcommands if it names none or there are no words.
pub(crate) fn subcommands_for<'r>(
    words: &[&str],
    subcommands: &'r [Subcommand<'static>],
) -> &'r [Subcommand<'static>]
    requires { map usage_of subcommands.now ≡ usages }
    ensures { map usage_of result.now ≡ usages_for (words_of words.now) }
{
    let Some((name, _rest)) = words.split_first() else {
        return subcommands;
    };
    named_among(name, subcommands)
}

/// Returns only the subcommand with this name, or all of the subcommands if none has it.
fn named_among<'r>(name: &str, subcommands: &'r [Subcommand<'static>]) -> &'r [Subcommand<'static>]
    ensures { map usage_of result.now ≡ named_in (map usage_of subcommands.now) name.now }
{
    for subcommand in subcommands {
        if subcommand.name == name {
            return slice::from_ref(subcommand);
        }
    }
    subcommands
}
