//! Defines the sample campaigns on which the calls are made.
use crate::chronicles::{MessageKind, scenario_of};
use crate::texts::COLLUDING;
use anyhow::{Result, bail};
use asm::assemble;
use codec::encode;
use insn::Program;
use round::Scenario;
use std::alloc::{AllocError, Global};
use trace::read_schedule;
use world::{Event, Schedule};
use world_tests::{campaign, counting, swaying};

/// A sample campaign on which calls that allocate memory are made.
#[derive(Clone, Copy)]
pub enum SampleCampaign {
    /// Four generals. The last is a traitor who sends generals 1 and 2 the order to retreat.
    Four,
    /// Seven generals. The commander and general 4 are traitors, who both add 1 to word 0 of the board.
    Seven,
    /// Four generals, who decide by the median and have a patience. The last is a traitor who copies words of the
    /// board, and acts differently in round 1 and later.
    Copying,
}

/// All sample campaigns.
pub const CAMPAIGNS: &[SampleCampaign] = &[
    SampleCampaign::Four,
    SampleCampaign::Seven,
    SampleCampaign::Copying,
];

/// A program that sends generals 1 and 2 the order 0, RETREAT.
const SWAYING: &str = swaying!(concat "exit\n");

/// A program that adds 1 to word 0 of the board, and sends generals 1, 2 and 3 the lowest bit of its old value.
const COUNTING: &str = counting!(concat "exit\n");

/// Passes most of a program to the macro `$form`, followed by `$words`, which add the end. The program copies four
/// words of the board to the stack. In round 1 it then stores 9 in word 0, and in later rounds it sends general 1 the
/// value that it found in word 0.
macro_rules! copying {
    ($form:ident $($words:tt)*) => {
        $form!("ldw r6, [r1+16]
mov r1, 0
mov r2, r10
add r2, -64
mov r3, 4
call board_copy
ldd r7, [r10-64]
jeq r6, 1, first
mov r1, 1
mov r2, r7
call sway
ja done
first: mov r1, 0
mov r2, 9
call board_swap
done: mov r0, 0
", $($words)*)
    };
}

/// A program that copies words of the board, and acts differently in round 1 and later.
const COPYING: &str = copying!(concat "exit\n");

/// Passes most of a program to the macro `$form`, followed by `$words`, which add the end. The program signs order 1
/// for general 1 and order 0 for general 2, which only the commander can do. It then passes on its first two chains
/// to all generals.
macro_rules! signing {
    ($form:ident $($words:tt)*) => {
        $form!("mov r1, 1
mov r2, 2
call sign_order
mov r1, 0
mov r2, 4
call sign_order
mov r1, 0
mov r2, 8191
call pass_on
mov r1, 1
mov r2, 8191
call pass_on
", $($words)*)
    };
}

/// The scenario of the sample campaign `Four`, with oral messages.
const FOUR: &str = swaying!(
    campaign "exit\n", "generals = 4\nbound = 1\ncommander = 0\norder = 1\n", [3]
);

/// The scenario of the sample campaign `Copying`, with oral messages.
const FOUR_WHO_COPY: &str = copying!(
    campaign "exit\n",
    "generals = 4\nbound = 1\ncommander = 0\norder = 1\npatience = 20\nrule = \"median\"\n",
    [3]
);

/// The scenario of the sample campaign `Four`, with signed messages.
const FOUR_SIGNED: &str = signing!(
    campaign "exit\n",
    "generals = 4\nbound = 1\ncommander = 0\norder = 1\nmessages = \"signed\"\n",
    [3]
);

/// The scenario of the sample campaign `Seven`, with signed messages.
const SEVEN_SIGNED: &str = signing!(
    campaign "exit\n",
    "generals = 7\nbound = 2\ncommander = 0\norder = 0\nmessages = \"signed\"\n",
    [0, 4]
);

/// The scenario of the sample campaign `Copying`, with signed messages. It names no rule, since campaigns with signed
/// messages have none.
const FOUR_SIGNED_WITH_PATIENCE: &str = signing!(
    campaign "exit\n",
    "generals = 4\nbound = 1\ncommander = 0\norder = 1\npatience = 20\nmessages = \"signed\"\n",
    [3]
);

/// Events of a round, each with how often it happens.
type Turns = &'static [(Event, u32)];

/// The events of a round of four generals that act one after another. The loyal generals send their letters, and then
/// the traitor gets more ticks than his program has steps.
const TURNS_OF_FOUR: Turns = &[
    (Event::Post(0), 1),
    (Event::Post(1), 1),
    (Event::Post(2), 1),
    (Event::Tick(3), 20),
    (Event::Close, 1),
];

/// The events of a round of seven generals that act one after another.
const TURNS_OF_SEVEN: Turns = &[
    (Event::Post(1), 1),
    (Event::Post(2), 1),
    (Event::Post(3), 1),
    (Event::Post(5), 1),
    (Event::Post(6), 1),
    (Event::Tick(0), 20),
    (Event::Tick(4), 20),
    (Event::Close, 1),
];

impl SampleCampaign {
    /// Returns the name of the campaign on the command line.
    pub fn name(self) -> &'static str {
        match self {
            SampleCampaign::Four => "four",
            SampleCampaign::Seven => "seven",
            SampleCampaign::Copying => "copying",
        }
    }

    /// Returns the campaign with this name, or `None` if there is no such campaign.
    pub fn named(name: &str) -> Option<SampleCampaign> {
        for campaign in CAMPAIGNS {
            if campaign.name() == name {
                return Some(*campaign);
            }
        }
        None
    }

    /// Returns the assembly of the program that the campaign's traitors run with oral messages.
    pub fn assembly(self) -> &'static str {
        match self {
            SampleCampaign::Four => SWAYING,
            SampleCampaign::Seven => COUNTING,
            SampleCampaign::Copying => COPYING,
        }
    }

    /// Returns the text of the schedule for the campaign.
    pub fn schedule_text(self) -> &'static str {
        match self {
            SampleCampaign::Four => "3*4096 3 12\n",
            SampleCampaign::Seven => "4*15 0*2\n\n4*15",
            SampleCampaign::Copying => "0 1 3*2\n3 2 3*17\n",
        }
    }

    /// Returns the text of the campaign's scenario with oral messages.
    pub fn text(self) -> &'static str {
        match self {
            SampleCampaign::Four => FOUR,
            SampleCampaign::Seven => COLLUDING,
            SampleCampaign::Copying => FOUR_WHO_COPY,
        }
    }

    /// Returns the text of the campaign's scenario with signed messages. The traitors are the same as with oral
    /// messages.
    fn signed_text(self) -> &'static str {
        match self {
            SampleCampaign::Four => FOUR_SIGNED,
            SampleCampaign::Seven => SEVEN_SIGNED,
            SampleCampaign::Copying => FOUR_SIGNED_WITH_PATIENCE,
        }
    }

    /// Returns the campaign's scenario with this kind of messages, read from its text.
    pub fn scenario(self, alloc: Global, messages: MessageKind) -> Result<Scenario> {
        match messages {
            MessageKind::Oral => scenario_of(alloc, messages, self.text()),
            MessageKind::Signed => scenario_of(alloc, messages, self.signed_text()),
        }
    }

    /// Returns the schedule for the campaign, read from its text.
    pub fn schedule(self, alloc: Global) -> Result<Schedule> {
        match read_schedule(alloc, self.schedule_text()) {
            Ok(schedule) => Ok(schedule),
            Err(_) => bail!("a schedule is refused"),
        }
    }

    /// Assembles the program that the campaign's traitors run with oral messages.
    pub fn program(self, alloc: Global) -> Result<Program> {
        match assemble(alloc, self.assembly()) {
            Ok(program) => Ok(program),
            Err(_) => bail!("a program is refused"),
        }
    }

    /// Returns the bytecode of the program that the campaign's traitors run with oral messages.
    pub fn bytecode(self, alloc: Global) -> Result<Vec<u8>> {
        Ok(encode(alloc, &self.program(alloc)?)?)
    }

    /// Returns the events of a round in which the generals act one after another, and the number of rounds.
    fn turns(self) -> (Turns, u32) {
        match self {
            SampleCampaign::Four | SampleCampaign::Copying => (TURNS_OF_FOUR, 2),
            SampleCampaign::Seven => (TURNS_OF_SEVEN, 3),
        }
    }

    /// Returns the events of the whole campaign if the generals act one after another.
    pub fn events(self, alloc: Global) -> Result<Vec<Event>, AllocError> {
        let mut events = Vec::new(alloc);
        let (turns, rounds) = self.turns();
        for _ in 0..rounds {
            push_turns(&mut events, turns)?;
        }
        Ok(events)
    }
}

/// Appends the events of a round, each as often as it happens.
fn push_turns(events: &mut Vec<Event>, turns: Turns) -> Result<(), AllocError> {
    for (event, times) in turns {
        for _ in 0..*times {
            events.push(*event)?;
        }
    }
    Ok(())
}
