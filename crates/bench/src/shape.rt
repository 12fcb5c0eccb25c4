//! Defines the shapes of the timed programs: which instructions the programs have.

/// The shape of a timed program of 4,096 units: its first lines, and lines that are repeated in turn after them. The
/// line of a unit after the first lines is the one at index `unit % in_turn.len()`.
#[derive(Clone, Copy)]
pub struct MeasuredProgram {
    /// The name of the shape, as it is printed.
    pub name: &'static str,
    /// Whether starting activations is timed with this shape, too.
    pub is_started: bool,
    first: &'static [&'static str],
    in_turn: &'static [&'static str],
    /// The line from the end of the first lines to unit 2,094. `None` means that the lines of `in_turn` begin at
    /// once.
    far: Option<&'static str>,
}

impl MeasuredProgram {
    /// Returns the line of assembly for unit `unit` of the program.
    pub fn line(&self, unit: usize) -> &'static str {
        match self.first.get(unit) {
            Some(line) => *line,
            None => self.later(unit),
        }
    }

    /// Returns the line of assembly for unit `unit` of the program, which comes after the first lines.
    fn later(&self, unit: usize) -> &'static str {
        match self.far {
            Some(line) if unit <= 2094 => line,
            _ => of_turn(self.in_turn, unit),
        }
    }
}

/// Returns the line for unit `unit` if these lines are repeated in turn from unit 0 on.
fn of_turn(lines: &[&'static str], unit: usize) -> &'static str {
    match lines.get(unit % lines.len().max(1)) {
        Some(line) => *line,
        None => "",
    }
}

/// The shapes of all timed programs, in the order in which they are timed.
pub const SHAPES: &[MeasuredProgram] = &[
    MeasuredProgram {
        name: "moves",
        is_started: true,
        first: &[],
        in_turn: &["mov r0, 7"],
        far: None,
    },
    MeasuredProgram {
        name: "additions",
        is_started: false,
        first: &["mov r0, 0"],
        in_turn: &["add r0, 1"],
        far: None,
    },
    MeasuredProgram {
        name: "mixed arithmetic",
        is_started: false,
        first: &["mov r0, 1", "mov r2, 3"],
        in_turn: &[
            "add r0, r2",
            "mul r0, 5",
            "xor r0, 77",
            "lsh r0, 3",
            "sub.w r0, 1",
            "div r0, 3",
            "or r0, r2",
            "arsh r0, 1",
        ],
        far: None,
    },
    MeasuredProgram {
        name: "stores to the stack",
        is_started: false,
        first: &["mov r0, 7"],
        in_turn: STORES,
        far: None,
    },
    MeasuredProgram {
        name: "loads from the stack",
        is_started: false,
        first: &[
            "mov r0, 7",
            "stxd [r10-8], r0",
            "stxd [r10-16], r0",
            "stxd [r10-264], r0",
            "stxd [r10-512], r0",
        ],
        in_turn: &[
            "ldd r0, [r10-512]",
            "ldd r2, [r10-8]",
            "ldd r3, [r10-16]",
            "ldd r4, [r10-264]",
        ],
        far: None,
    },
    MeasuredProgram {
        name: "loads from the context",
        is_started: false,
        first: &[],
        in_turn: &[
            "ldw r0, [r1+0]",
            "ldw r2, [r1+8]",
            "ldw r3, [r1+16]",
            "ldw r4, [r1+24]",
        ],
        far: None,
    },
    MeasuredProgram {
        name: "loads of a pointer",
        is_started: false,
        first: &["mov r0, 0", "stxd [r10-8], r1"],
        in_turn: &["ldd r2, [r10-8]"],
        far: None,
    },
    MeasuredProgram {
        name: "calls of board_get",
        is_started: false,
        first: &["mov r0, 0"],
        in_turn: &["call board_get", "mov r1, 5"],
        far: None,
    },
    MeasuredProgram {
        name: "calls of send",
        is_started: false,
        first: &["mov r0, 0"],
        in_turn: &["call send", "mov r1, 0", "mov r2, 1", "mov r3, 7"],
        far: None,
    },
    MeasuredProgram {
        name: "conditional jumps",
        is_started: false,
        first: JUMPS,
        in_turn: &["jeq r2, 5, +0"],
        far: None,
    },
    MeasuredProgram {
        name: "far conditional jumps",
        is_started: false,
        first: JUMPS,
        in_turn: &["jeq r2, 5, +0"],
        far: Some("jeq r2, 5, +2000"),
    },
];

/// Stores of 8 bytes at four places in the stack.
const STORES: &[&str] = &[
    "stxd [r10-512], r0",
    "stxd [r10-8], r0",
    "stxd [r10-16], r0",
    "stxd [r10-264], r0",
];

/// The first lines of programs with conditional jumps that are not taken: a load from the context, and a move.
const JUMPS: &[&str] = &["ldd r2, [r1+32]", "mov r0, 0"];
