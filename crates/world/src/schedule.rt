//! Defines schedules: the order in which the generals act in each round.
use std::marker::Model;

/// An entry of a schedule's line: a general, and how many times in a row he acts.
#[derive(Clone, Copy)]
pub struct Repeat {
    /// The number of the general.
    pub general: u8,
    /// How many times he acts: a traitor takes that many ticks, and a loyal general posts his letter that many times.
    pub times: u16,
}

/// The entries of a schedule for one round, in their order.
#[derive(Drop)]
pub struct ScheduleLine {
    pub repeats: Vec<Repeat>,
}

impl Model for ScheduleLine {
    ghost use Rattle.std.specs.Prelude.{List};
    ghost use Rattle.world.specs.declared.schedule.Repeat.{Repeat};

    ghost Value = { List Repeat };

    ghost view = { λ e. e.repeats.items };
}

/// A schedule: a line of entries for each round, from the first round on. A round without a line has no entries.
#[derive(Drop)]
pub struct Schedule {
    pub lines: Vec<ScheduleLine>,
}

impl Model for Schedule {
    ghost use Rattle.std.specs.Prelude.{List};
    ghost use Rattle.world.specs.declared.schedule.Repeat.{Repeat};

    ghost Value = { List (List Repeat) };

    ghost view = { λ s. s.lines.items };
}
