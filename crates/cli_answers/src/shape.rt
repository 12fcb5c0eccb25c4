//! Lists the shapes of the lines that are printed: patterns of words, and the names of these words in JSON.
ghost use Rattle.std.specs.Prelude.{◌≡◌, map};
ghost use Rattle.board.specs.Wording as asking;
ghost use Rattle.cli_answers.specs.Shapes.{access_row, error_places, reasons, row_of, shapes};

use board::Wording;

/// What a line's JSON object gets in addition to the line's words, to say where in a chronicle the line belongs.
#[derive(Clone, Copy, PartialEq, Eq)]
pub(crate) enum Within {
    /// The object gets nothing more.
    Nothing,
    /// The object gets the round.
    Round,
    /// The object gets the round, the general whose letter the line is in, and the label with the line's rank.
    Letter,
    /// The object gets the label with the line's rank.
    Outbox,
    /// The object gets the general about whom the line is.
    General,
}

/// A shape of lines: what each of their words is, and its name in JSON.
#[derive(Clone, Copy)]
pub(crate) struct Shape {
    /// The kind of these lines, which is the value of the member `line`.
    pub line: &'static str,
    /// For each word what it may be, and its name, or a dash if the object leaves the word out. `N` is a number, `P`
    /// a number or a dash, `A` yes, no or a dash, `S` numbers joined by dots or a dash, `C` the word of a rule, and `E`
    /// a power of two, such as `2^18`. `N,` is a number before a comma, `O` a number or `nothing`, and `W` any word. `*`
    /// is any number of further words, each a number or a dash. Anything else is the word itself.
    pub parts: &'static [(&'static str, &'static str)],
    /// The mark: the name of a member that is true, or false, in the objects of all these lines. It is empty if there
    /// is no mark.
    pub mark: &'static str,
    /// The value of the mark, or false if there is no mark.
    pub holds: bool,
    /// What the object gets in addition, to say where the line belongs.
    pub within: Within,
}

/// The shapes of all lines except accesses. The first shape that fits a line describes it.
const SHAPES: &[Shape] = &[
    Shape {
        line: "version",
        parts: &[("chronicle", "-"), ("N", "version")],
        mark: "",
        holds: false,
        within: Within::Nothing,
    },
    Shape {
        line: "campaign",
        parts: &[
            ("generals", "-"),
            ("N", "generals"),
            ("bound", "-"),
            ("N", "bound"),
            ("commander", "-"),
            ("N", "commander"),
            ("order", "-"),
            ("N", "order"),
        ],
        mark: "",
        holds: false,
        within: Within::Nothing,
    },
    Shape {
        line: "campaign",
        parts: &[
            ("generals", "-"),
            ("N", "generals"),
            ("bound", "-"),
            ("N", "bound"),
            ("commander", "-"),
            ("N", "commander"),
            ("order", "-"),
            ("N", "order"),
            ("patience", "-"),
            ("P", "patience"),
            ("rule", "-"),
            ("C", "rule"),
        ],
        mark: "",
        holds: false,
        within: Within::Nothing,
    },
    Shape {
        line: "campaign",
        parts: &[
            ("signed", "messages"),
            ("generals", "-"),
            ("N", "generals"),
            ("bound", "-"),
            ("N", "bound"),
            ("commander", "-"),
            ("N", "commander"),
            ("order", "-"),
            ("N", "order"),
            ("patience", "-"),
            ("P", "patience"),
        ],
        mark: "",
        holds: false,
        within: Within::Nothing,
    },
    Shape {
        line: "round",
        parts: &[("round", "-"), ("N", "round")],
        mark: "",
        holds: false,
        within: Within::Nothing,
    },
    Shape {
        line: "letter",
        parts: &[("letter", "-"), ("N", "general"), ("loyal", "-")],
        mark: "loyal",
        holds: true,
        within: Within::Round,
    },
    Shape {
        line: "letter",
        parts: &[
            ("letter", "-"),
            ("N", "general"),
            ("steps", "-"),
            ("N", "steps"),
        ],
        mark: "loyal",
        holds: false,
        within: Within::Round,
    },
    Shape {
        line: "row",
        parts: &[("row", "-"), ("N", "rank"), ("*", "orders")],
        mark: "",
        holds: false,
        within: Within::Letter,
    },
    Shape {
        line: "chain",
        parts: &[
            ("chain", "-"),
            ("N", "order"),
            ("S", "signers"),
            ("to", "-"),
            ("S", "receivers"),
        ],
        mark: "",
        holds: false,
        within: Within::Letter,
    },
    Shape {
        line: "decision",
        parts: &[("decision", "-"), ("N", "general"), ("N", "decision")],
        mark: "traitor",
        holds: false,
        within: Within::Nothing,
    },
    Shape {
        line: "decision",
        parts: &[
            ("decision", "-"),
            ("N", "general"),
            ("traitor", "-"),
            ("N", "decision"),
        ],
        mark: "traitor",
        holds: true,
        within: Within::Nothing,
    },
    Shape {
        line: "verdict",
        parts: &[
            ("verdict", "-"),
            ("alike", "-"),
            ("A", "alike"),
            ("obeyed", "-"),
            ("A", "obeyed"),
            ("bound", "-"),
            ("A", "bound"),
        ],
        mark: "",
        holds: false,
        within: Within::Nothing,
    },
    Shape {
        line: "sound",
        parts: &[("sound", "-")],
        mark: "",
        holds: false,
        within: Within::Nothing,
    },
    Shape {
        line: "accepted",
        parts: &[
            ("accepted", "-"),
            ("N", "instructions"),
            ("instructions", "-"),
            ("N", "units"),
            ("units", "-"),
        ],
        mark: "",
        holds: false,
        within: Within::Nothing,
    },
    Shape {
        line: "run",
        parts: &[("r0", "-"), ("N", "r0"), ("steps", "-"), ("N", "steps")],
        mark: "",
        holds: false,
        within: Within::Nothing,
    },
    Shape {
        line: "put",
        parts: &[
            ("put", "-"),
            ("N", "rank"),
            ("N", "receiver"),
            ("N", "order"),
        ],
        mark: "",
        holds: false,
        within: Within::Outbox,
    },
    Shape {
        line: "word",
        parts: &[("word", "-"), ("N", "slot"), ("N", "value")],
        mark: "",
        holds: false,
        within: Within::Nothing,
    },
    Shape {
        line: "table",
        parts: &[
            ("generals", "-"),
            ("N", "generals"),
            ("bound", "-"),
            ("N", "bound"),
            ("commander", "-"),
            ("N", "commander"),
        ],
        mark: "",
        holds: false,
        within: Within::Nothing,
    },
    Shape {
        line: "table",
        parts: &[
            ("generals", "-"),
            ("N", "generals"),
            ("bound", "-"),
            ("N", "bound"),
            ("commander", "-"),
            ("N", "commander"),
            ("rule", "-"),
            ("C", "rule"),
        ],
        mark: "",
        holds: false,
        within: Within::Nothing,
    },
    Shape {
        line: "message",
        parts: &[
            ("tell", "-"),
            ("S", "label"),
            ("N", "receiver"),
            ("N", "order"),
        ],
        mark: "",
        holds: false,
        within: Within::Nothing,
    },
    Shape {
        line: "certified",
        parts: &[("certified", "-"), ("generals", "-"), ("N", "generals")],
        mark: "",
        holds: false,
        within: Within::Nothing,
    },
    Shape {
        line: "uncertified",
        parts: &[
            ("uncertified", "-"),
            ("majority", "-"),
            ("N", "majority"),
            ("result", "-"),
            ("N", "result"),
            ("list", "-"),
            ("*", "list"),
        ],
        mark: "",
        holds: false,
        within: Within::Nothing,
    },
    Shape {
        line: "none",
        parts: &[("none", "-"), ("of", "-"), ("E", "exponent")],
        mark: "",
        holds: false,
        within: Within::Nothing,
    },
    Shape {
        line: "broken",
        parts: &[("broken", "-"), ("traitors", "-"), ("*", "traitors")],
        mark: "",
        holds: false,
        within: Within::Nothing,
    },
    Shape {
        line: "lieutenant",
        parts: &[("lieutenant", "-"), ("N", "general")],
        mark: "",
        holds: false,
        within: Within::Nothing,
    },
    Shape {
        line: "acceptance",
        parts: &[
            ("accepts", "-"),
            ("N,", "order"),
            ("signed", "-"),
            ("S", "signers"),
        ],
        mark: "",
        holds: false,
        within: Within::General,
    },
];

/// The shapes of what a line has before a colon and a reason.
const REASONS: &[Shape] = &[
    Shape {
        line: "decision",
        parts: &[("decision", "-"), ("N", "general"), ("N", "decision")],
        mark: "traitor",
        holds: false,
        within: Within::Nothing,
    },
    Shape {
        line: "decision",
        parts: &[
            ("decision", "-"),
            ("N", "general"),
            ("traitor", "-"),
            ("N", "decision"),
        ],
        mark: "traitor",
        holds: true,
        within: Within::Nothing,
    },
    Shape {
        line: "condition",
        parts: &[("bound", "condition"), ("A", "holds")],
        mark: "",
        holds: false,
        within: Within::Nothing,
    },
    Shape {
        line: "condition",
        parts: &[("IC1", "condition"), ("A", "holds")],
        mark: "",
        holds: false,
        within: Within::Nothing,
    },
    Shape {
        line: "condition",
        parts: &[("IC2", "condition"), ("A", "holds")],
        mark: "",
        holds: false,
        within: Within::Nothing,
    },
];

/// The shapes of where an error is: at a line or unit, in a traitor's program, or at a general.
const ERROR_PLACES: &[Shape] = &[
    Shape {
        line: "refused",
        parts: &[("line", "-"), ("N", "line_number")],
        mark: "",
        holds: false,
        within: Within::Nothing,
    },
    Shape {
        line: "refused",
        parts: &[("unit", "-"), ("N", "unit")],
        mark: "",
        holds: false,
        within: Within::Nothing,
    },
    Shape {
        line: "refused",
        parts: &[("general", "-"), ("N", "general")],
        mark: "",
        holds: false,
        within: Within::Nothing,
    },
    Shape {
        line: "refused",
        parts: &[
            ("traitor", "-"),
            ("N", "traitor"),
            ("W", "inner_code"),
            ("line", "-"),
            ("N", "line_number"),
        ],
        mark: "",
        holds: false,
        within: Within::Nothing,
    },
    Shape {
        line: "refused",
        parts: &[
            ("traitor", "-"),
            ("N", "traitor"),
            ("W", "inner_code"),
            ("unit", "-"),
            ("N", "unit"),
        ],
        mark: "",
        holds: false,
        within: Within::Nothing,
    },
    Shape {
        line: "refused",
        parts: &[("traitor", "-"), ("N", "traitor"), ("W", "inner_code")],
        mark: "",
        holds: false,
        within: Within::Nothing,
    },
];

/// Returns the shape of lines that describe an access, where `wording` gives the words of the request.
pub(crate) fn access_shape(wording: &Wording) -> Shape
    ensures { row_of result ≡ access_row (asking.row_of wording.now) }
{
    Shape {
        line: "access",
        parts: wording.parts,
        mark: "",
        holds: false,
        within: Within::Round,
    }
}

/// Returns the shapes of all lines except accesses.
#[tactic(auto, unfolding(crate::specs::Shapes::shapes))]
pub(crate) fn shapes() -> &'static [Shape]
    ensures { map row_of result.now ≡ shapes }
{
    SHAPES
}

/// Returns the shapes of what a line has before a colon and a reason.
#[tactic(auto, unfolding(crate::specs::Shapes::reasons))]
pub(crate) fn reasons() -> &'static [Shape]
    ensures { map row_of result.now ≡ reasons }
{
    REASONS
}

/// Returns the shapes of where an error is.
#[tactic(auto, unfolding(crate::specs::Shapes::error_places))]
pub(crate) fn error_places() -> &'static [Shape]
    ensures { map row_of result.now ≡ error_places }
{
    ERROR_PLACES
}
