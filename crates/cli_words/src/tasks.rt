//! The tasks that the command line can ask for: the subcommands with their files and flags.

use bounds::Story;
use combine::Rule;

/// A request of the command line: a task, and how its answer is printed.
#[derive(Drop)]
pub struct TaskRequest {
    pub task: Task,
    /// Whether the answer is printed as JSON Lines, with an object for each line.
    pub json: bool,
    /// Whether the answer is printed as only one line, which begins with the file's name. With `json`, the line is an
    /// object with the file's name as a member.
    pub verdicts: bool,
    /// Whether a scenario that names a file is refused, without opening the file.
    pub no_files: bool,
}

/// A task: a subcommand with the names of its files, and the values of its flags.
#[derive(Drop)]
pub enum Task {
    /// Verify a program and run it, in the context that the file `context` describes, if there is one. If `explained`
    /// is true, the program is explained, and if `traced` is true, each step of the run is printed.
    Check {
        program: String,
        notation: Notation,
        context: Option<String>,
        explained: bool,
        traced: bool,
    },
    /// Translate assembly into bytecode with this spelling, and write it to the file `target`, if there is one.
    Assemble {
        text: String,
        spelling: Spelling,
        target: Option<String>,
        explained: bool,
    },
    /// Translate assembly in which some units are written as bytes, line by line. A jump to a name that another line
    /// defines is a fault.
    AssemblePartly {
        text: String,
        spelling: Spelling,
        target: Option<String>,
        explained: bool,
    },
    /// Translate a program into assembly. If `units` is true, the unit is printed before each instruction.
    Disassemble {
        program: String,
        notation: Notation,
        units: bool,
        explained: bool,
    },
    /// Translate a program into assembly as far as it can be decoded. Its other units are written as bytes.
    DisassemblePartly {
        program: String,
        notation: Notation,
        explained: bool,
    },
    /// Compute the decisions of a message table.
    Book(String),
    /// Compute and explain the decisions of a message table, with these generals named as traitors.
    ExplainDecisions {
        table: String,
        traitors: Vec<u8>,
    },
    /// Print the message table of a campaign with these numbers, either filled in or to be filled in.
    Form {
        generals: String,
        bound: String,
        commander: String,
        filling: Option<Filling>,
    },
    /// Print the message table of this story (one of three campaigns with too few generals) for a campaign with these
    /// numbers. Without a story, it is the first one that breaks the rule. If `staged` is true, it is printed as a
    /// scenario.
    Refute {
        generals: String,
        bound: String,
        commander: String,
        rule: Rule,
        story: Option<Story>,
        staged: bool,
    },
    /// Find out whether any traitors, at most this many, break IC1 or IC2 among this many generals, whatever they send.
    /// `bound` is the m of OM(m), 0 to 4. Without a commander, each general commands in turn. If `staged` is true, a
    /// break is printed as a scenario.
    Exhaust {
        generals: u8,
        bound: u8,
        traitors: u8,
        commander: Option<u8>,
        rule: Rule,
        staged: bool,
    },
    /// Find out whether a program is a rule that keeps majorities among this many generals, 2 to 13.
    Certify {
        program: String,
        notation: Notation,
        generals: u8,
    },
    /// Play a campaign by this schedule, and print its chronicle or its message table.
    Play {
        scenario: String,
        turns: Turns,
        account: Account,
        explained: Option<Lieutenants>,
    },
    /// Run a campaign with a thread for each general, and print its chronicle.
    Muster {
        scenario: String,
        explained: Option<Lieutenants>,
    },
    /// Replay the chronicle of a campaign, and print whether it is sound.
    Audit {
        scenario: String,
        chronicle: String,
        explained: Option<Lieutenants>,
    },
    /// Play a campaign in each order of its accesses or, if there are more than `most` orders, in `most` of them.
    /// `most` is 1 or more. The scenario and a schedule for each outcome are written to the folder `folder`, if there
    /// is one.
    Explore {
        scenario: String,
        most: Option<u64>,
        folder: Option<String>,
    },
    /// Draw the tree of what this general received, in a message table or in a campaign. The drawing has `depth` levels
    /// below the commander's, 0 to 4, and marks the lies of `traitors`. If `folded` is true, it omits the labels below
    /// a label if the same was received for it and for all of them, and none is known to be a lie.
    Tree {
        file: String,
        general: u8,
        traitors: Vec<u8>,
        drawing: Drawing,
        depth: u8,
        folded: bool,
    },
    /// Draw the campaign of a scenario that follows this schedule or chronicle.
    Draw {
        scenario: String,
        course: Course,
    },
    /// Print the campaign of a scenario that follows this schedule or chronicle as a page of HTML, or write the page to
    /// the file `target`, if there is one.
    Page {
        scenario: String,
        course: Course,
        target: Option<String>,
    },
    /// Print the schedule by which the campaign of a scenario has these accesses.
    Retrace {
        scenario: String,
        accesses: Accesses,
    },
}

/// How the program in a file is written.
#[derive(Drop)]
pub enum Notation {
    /// The file is raw bytecode.
    Bytecode,
    /// The file is assembly text.
    Assembly,
    /// The file is an ELF object. The program is its function with this name or, without a name, its only global
    /// function.
    Object { entry: Option<String> },
}

/// How bytecode is written.
#[derive(Clone, Copy, PartialEq, Eq)]
pub enum Spelling {
    /// The bytecode is written in hex digits, on one line.
    Hex,
    /// The bytecode is written as its bytes.
    Raw,
}

/// How a message table is filled in: as loyal generals would after this order of the commander, but without the orders
/// of the liar, if there is one.
#[derive(Clone, Copy)]
pub struct Filling {
    pub order: u32,
    /// The liar, a general whose lines are left to be edited, if there is one.
    pub liar: Option<u8>,
}

/// How a tree is drawn.
#[derive(Clone, Copy, PartialEq, Eq)]
pub enum Drawing {
    /// Lines of text with box-drawing characters.
    Boxes,
    /// Lines of text with ASCII characters.
    Ascii,
    /// A graph for Graphviz.
    Graph,
    /// A picture in SVG.
    Svg,
}

/// What a campaign follows: a schedule or a chronicle.
#[derive(Drop)]
pub enum Course {
    /// The campaign follows the schedule in this file or, without a file, the empty schedule.
    Scheduled(Option<String>),
    /// The campaign does what the chronicle in this file records.
    Recorded(String),
}

/// The schedule by which a campaign is played.
#[derive(Drop)]
pub enum Turns {
    /// The schedule in this file or, without a file, the empty schedule.
    OfFile(Option<String>),
    /// The random schedule of this seed, which is also written to the file `target`, if there is one.
    OfSeed { seed: u64, target: Option<String> },
}

/// The accesses of a campaign: the generals who use the board, in the order of their accesses.
#[derive(Drop)]
pub enum Accesses {
    /// The accesses that the chronicle in this file lists.
    OfChronicle(String),
    /// The accesses that this text lists, such as `5 4 / 4 5`: the generals of round 1, and then of round 2.
    Listed(String),
}

/// How a campaign that was played is printed.
#[derive(Clone, Copy, PartialEq, Eq)]
pub enum Account {
    /// The chronicle of the campaign is printed.
    Chronicle,
    /// The message table of the campaign is printed.
    Table,
}

/// The lieutenants whose decisions in a campaign are explained.
#[derive(Clone, Copy)]
pub enum Lieutenants {
    /// All lieutenants.
    All,
    /// Only the lieutenant with this number.
    One(u8),
}

impl Course {
    ghost use Rattle.std.specs.Prelude.{◌≡◌, option_map};
    ghost use Rattle.cli_words.specs.Tasks.{course_file};

    /// Returns the name of the file with the schedule or the chronicle, or `None` if the schedule is empty.
    fn file(&self) -> Option<&str>
        ensures { option_map (λ file. file.now) result ≡ course_file self.now }
    {
        match self {
            Course::Scheduled(schedule) => schedule.as_deref(),
            Course::Recorded(chronicle) => Some(chronicle.as_str()),
        }
    }
}

impl Turns {
    ghost use Rattle.std.specs.Prelude.{◌≡◌, option_map};
    ghost use Rattle.cli_words.specs.Tasks.{seed_target, turns_file, turns_seed};

    /// Returns the name of the file with the schedule, or `None` if the schedule is random or empty.
    fn file(&self) -> Option<&str>
        ensures { option_map (λ file. file.now) result ≡ turns_file self.now }
    {
        match self {
            Turns::OfFile(file) => file.as_deref(),
            Turns::OfSeed { .. } => None,
        }
    }

    /// Returns the seed of the schedule, or `None` if it is not random.
    fn seed(&self) -> Option<u64>
        ensures { result ≡ turns_seed self.now }
    {
        match self {
            Turns::OfFile(_) => None,
            Turns::OfSeed { seed, .. } => Some(*seed),
        }
    }

    /// Returns the name of the file to which the random schedule is written, or `None` if there is none.
    fn target(&self) -> Option<&str>
        ensures { option_map (λ file. file.now) result ≡ seed_target self.now }
    {
        match self {
            Turns::OfFile(_) => None,
            Turns::OfSeed { target, .. } => target.as_deref(),
        }
    }
}

impl Accesses {
    ghost use Rattle.std.specs.Prelude.{◌≡◌, option_map};
    ghost use Rattle.cli_words.specs.Tasks.{accesses_file};

    /// Returns the name of the file with the chronicle, or `None` if the accesses are listed.
    fn file(&self) -> Option<&str>
        ensures { option_map (λ file. file.now) result ≡ accesses_file self.now }
    {
        match self {
            Accesses::OfChronicle(chronicle) => Some(chronicle.as_str()),
            Accesses::Listed(_) => None,
        }
    }
}

impl Task {
    ghost use Rattle.std.specs.Prelude.{◌≡◌, option_map};
    ghost use Rattle.cli_words.specs.Tasks.{file_of, schedule_target_of, second_of, seed_of, target_of};

    /// Returns the name of the only file that the task reads, or of the first one. Returns `None` if it reads no file.
    pub fn file(&self) -> Option<&str>
        ensures { option_map (λ file. file.now) result ≡ file_of self.now }
    {
        match self {
            Task::Check { program: file, .. }
            | Task::Assemble { text: file, .. }
            | Task::AssemblePartly { text: file, .. }
            | Task::Disassemble { program: file, .. }
            | Task::DisassemblePartly { program: file, .. }
            | Task::Book(file)
            | Task::ExplainDecisions { table: file, .. }
            | Task::Certify { program: file, .. }
            | Task::Play { scenario: file, .. }
            | Task::Muster { scenario: file, .. }
            | Task::Audit { scenario: file, .. }
            | Task::Explore { scenario: file, .. }
            | Task::Tree { file, .. }
            | Task::Draw { scenario: file, .. }
            | Task::Page { scenario: file, .. }
            | Task::Retrace { scenario: file, .. } => Some(file.as_str()),
            Task::Form { .. } | Task::Refute { .. } | Task::Exhaust { .. } => None,
        }
    }

    /// Returns the name of the second file that the task reads, or `None` if there is none.
    pub fn second(&self) -> Option<&str>
        ensures { option_map (λ file. file.now) result ≡ second_of self.now }
    {
        match self {
            Task::Check { context, .. } => context.as_deref(),
            Task::Play { turns, .. } => turns.file(),
            Task::Audit { chronicle, .. } => Some(chronicle.as_str()),
            Task::Retrace { accesses, .. } => accesses.file(),
            Task::Draw { course, .. } | Task::Page { course, .. } => course.file(),
            _ => None,
        }
    }

    /// Returns the name of the file to which the answer is written, or `None` if the answer is printed.
    pub fn target(&self) -> Option<&str>
        ensures { option_map (λ file. file.now) result ≡ target_of self.now }
    {
        match self {
            Task::Assemble { target, .. } => target.as_deref(),
            Task::AssemblePartly { target, .. } => target.as_deref(),
            Task::Page { target, .. } => target.as_deref(),
            _ => None,
        }
    }

    /// Returns the seed of the random schedule by which a campaign is played, or `None` if the schedule is not random.
    pub fn seed(&self) -> Option<u64>
        ensures { result ≡ seed_of self.now }
    {
        match self {
            Task::Play { turns, .. } => turns.seed(),
            _ => None,
        }
    }

    /// Returns the name of the file to which the random schedule is written, or `None` if there is none.
    pub fn schedule_target(&self) -> Option<&str>
        ensures { option_map (λ file. file.now) result ≡ schedule_target_of self.now }
    {
        match self {
            Task::Play { turns, .. } => turns.target(),
            _ => None,
        }
    }
}
