//! Tests gates, which may hold a general before an access, and tests that the generals' threads run at the same time.

use crate::scenarios::told;
use crate::texts::{
    COLLUDING_AND_LOOKING, LOOKING, SETTING, SEVEN, SEVEN_ADDERS, SEVEN_AND_SIXTEEN_STEPS,
};
use crate::threaded_campaigns::{AGREED, count, mustered, replays, word};
use board::Access;
use round::Letter;
use semantics::Request;
use std::alloc::Global;
use std::sync::Wait;
use std::sync::atomic::{AtomicU32, Ordering};
use std::thread;
use std::thread::Threads;
use threads::{Gate, muster, muster_with};
use world::{Chronicle, Verdict};

/// How many times a held general checks whether he may go on before he gives up.
const TURNS: u32 = 100_000_000;

/// Holds a general until `count` is at least `wanted`. If he has checked this `TURNS` times, he gives up, `missed`
/// becomes positive, and nobody is held any more.
fn hold(count: &AtomicU32, wanted: u32, missed: &AtomicU32) {
    for turn in 0..TURNS {
        if count.load(Ordering::SeqCst) >= wanted || missed.load(Ordering::SeqCst) > 0 {
            return;
        }
        if turn % 1024 == 0 {
            thread::yield_now();
        }
    }
    missed.fetch_add(1, Ordering::SeqCst);
}

/// A counter for each of the rounds 1 to 3.
#[derive(Drop)]
struct Counts {
    first: AtomicU32,
    second: AtomicU32,
    third: AtomicU32,
}

impl Counts {
    fn none() -> Counts {
        Counts {
            first: AtomicU32::new(0),
            second: AtomicU32::new(0),
            third: AtomicU32::new(0),
        }
    }

    /// Returns the counter for round `round`. Rounds after the third use the counter of round 3.
    fn of(&self, round: u32) -> &AtomicU32 {
        match round {
            1 => &self.first,
            2 => &self.second,
            _ => &self.third,
        }
    }

    /// Returns whether the counts of the three rounds are `counts`.
    fn are(&self, counts: (u32, u32, u32)) -> bool {
        self.first.load(Ordering::SeqCst) == counts.0
            && self.second.load(Ordering::SeqCst) == counts.1
            && self.third.load(Ordering::SeqCst) == counts.2
    }
}

/// A gate that holds each general before his access number `nth` (counted from 0) until `wanted` generals wait for
/// theirs. It does so in rounds 1 to `last_round`.
#[derive(Drop)]
struct Meeting {
    nth: u64,
    last_round: u32,
    wanted: u32,
    come: Counts,
    /// How many generals gave up waiting.
    missed: AtomicU32,
}

impl Meeting {
    fn of(nth: u64, last_round: u32, wanted: u32) -> Meeting {
        Meeting {
            nth,
            last_round,
            wanted,
            come: Counts::none(),
            missed: AtomicU32::new(0),
        }
    }

    /// Checks that the gate has held the given number of generals in each of the three rounds, and that none gave up
    /// waiting.
    fn is_met(&self, come: (u32, u32, u32)) -> bool {
        self.come.are(come) && self.missed.load(Ordering::SeqCst) == 0
    }
}

impl Gate for Meeting {
    fn before_access(&self, _general: u32, round: u32, nth: u64) {
        if nth != self.nth || round > self.last_round {
            return;
        }
        let come = self.come.of(round);
        come.fetch_add(1, Ordering::SeqCst);
        hold(come, self.wanted, &self.missed);
    }
}

/// Returns whether an access read a word of the board that was 1.
fn got_one(access: &Access) -> bool {
    matches!(access.request, Request::Get { .. }) && word(&access.reply) == Some(1)
}

/// Returns whether all of these accesses were made in round 1.
fn are_of_first_round(accesses: &[Access]) -> bool {
    for access in accesses {
        if access.round != 1 {
            return false;
        }
    }
    true
}

/// Returns whether `third` is general 5's access and `fourth` general 6's, and both read a 1.
fn both_got_one(third: &Access, fourth: &Access) -> bool {
    let is_order = third.general == 5 && fourth.general == 6;
    let is_other = third.general == 6 && fourth.general == 5;
    (is_order || is_other) && got_one(third) && got_one(fourth)
}

/// Checks that there are twelve accesses, of which the first four are of round 1, and that generals 5 and 6 read a 1 in
/// the third and the fourth.
fn have_met(accesses: &[Access]) -> bool {
    let Some(four) = accesses.get(..4) else {
        return false;
    };
    let [_, _, third, fourth] = four else {
        return false;
    };
    accesses.len() == 12 && are_of_first_round(four) && both_got_one(third, fourth)
}

/// Plays a campaign in which two generals each set a word of the board. The gate holds both until they have done so,
/// and then each reads the other's word. Checks that both read what the other has set.
fn get_what_the_other_set<R: Threads + Wait + Sync>(rt: &R, alloc: Global) -> bool {
    let gate = Meeting::of(1, 1, 2);
    match mustered(rt, alloc, SEVEN, SETTING, &gate) {
        Some(chronicle) => {
            gate.is_met((2, 0, 0)) && have_met(chronicle.accesses()) && replays(alloc, &chronicle)
        }
        None => false,
    }
}

#[test]
fn two_generals_get_what_the_other_set(rt: HostRuntime) {
    assert!(rt; get_what_the_other_set(&rt, rt.alloc()));
}

/// The verdict of a campaign in which all generals are traitors.
const BEYOND_BOUND: Verdict = Verdict {
    alike: true,
    obeyed: None,
    bound: false,
};

/// Plays a campaign in which the gate holds seven generals before their first access of each round, until all have
/// come. Checks that their 21 additions to a word of the board give the replies 0 to 20.
fn add_together<R: Threads + Wait + Sync>(rt: &R, alloc: Global) -> bool {
    let gate = Meeting::of(0, 3, 7);
    match mustered(rt, alloc, SEVEN, SEVEN_ADDERS, &gate) {
        Some(chronicle) => {
            gate.is_met((7, 7, 7))
                && count(chronicle.accesses(), 21, 0)
                && chronicle.verdict() == BEYOND_BOUND
                && replays(alloc, &chronicle)
        }
        None => false,
    }
}

#[test]
fn seven_traitors_come_to_the_board_together(rt: HostRuntime) {
    assert!(rt; add_together(&rt, rt.alloc()));
}

/// A gate that holds general 0 before his first access of a round until general 4 has come to his second.
#[derive(Drop)]
struct Reversing {
    come: Counts,
    missed: AtomicU32,
}

impl Gate for Reversing {
    fn before_access(&self, general: u32, round: u32, nth: u64) {
        let come = self.come.of(round);
        if general == 4 && nth == 1 {
            come.store(1, Ordering::SeqCst);
        } else if general == 0 && nth == 0 {
            hold(come, 1, &self.missed);
        }
    }
}

/// Returns whether an addition to a word is made by the right general with the right reply. Generals 4 and 0 take
/// turns, and after `added` additions the reply is `added`.
fn is_in_turn(access: &Access, added: u64) -> bool {
    let general = if added % 2 == 0 { 4 } else { 0 };
    access.general == general && word(&access.reply) == Some(added)
}

/// Checks that six of the twelve accesses are additions, which generals 4 and 0 make in turns.
fn are_reversed(accesses: &[Access]) -> bool {
    let mut added = 0u64;
    for access in accesses {
        if matches!(access.request, Request::Add { .. }) {
            if !is_in_turn(access, added) {
                return false;
            }
            added = added.wrapping_add(1);
        }
    }
    added == 6 && accesses.len() == 12
}

/// Returns whether a letter is from a loyal general, or its program took `steps` steps.
fn has_taken(letter: &Letter, steps: u32) -> bool {
    letter.program.program().is_none() || letter.steps == steps
}

/// Returns whether the program of each traitor's letter took `steps` steps.
fn have_taken(chronicle: &Chronicle, steps: u32) -> bool {
    for round in chronicle.letters() {
        for letter in round.letters() {
            if !has_taken(letter, steps) {
                return false;
            }
        }
    }
    true
}

/// Checks that the loyal lieutenants of seven generals, 1, 2, 3, 5 and 6, decide on 0, and that the verdict says they
/// agree.
fn five_retreat(chronicle: &Chronicle) -> bool {
    let [0, 0, 0, _, 0, 0] = chronicle.decisions() else {
        return false;
    };
    chronicle.verdict() == AGREED
}

/// Checks that general 4 added before general 0 in each round, that their programs took `steps` steps, and that
/// replaying the accesses gives the same chronicle.
fn is_reversed(alloc: Global, chronicle: &Chronicle, steps: u32) -> bool {
    are_reversed(chronicle.accesses())
        && have_taken(chronicle, steps)
        && five_retreat(chronicle)
        && replays(alloc, chronicle)
}

/// Plays a campaign in which generals 4 and 0 add to a word and then read another. The gate holds general 0 until
/// general 4 has added. Checks that they added in this order, and that each program took `steps` steps.
fn adds_first<R: Threads + Wait + Sync>(rt: &R, alloc: Global, keys: &str, steps: u32) -> bool {
    let gate = Reversing {
        come: Counts::none(),
        missed: AtomicU32::new(0),
    };
    match mustered(rt, alloc, keys, COLLUDING_AND_LOOKING, &gate) {
        Some(chronicle) => {
            gate.missed.load(Ordering::SeqCst) == 0 && is_reversed(alloc, &chronicle, steps)
        }
        None => false,
    }
}

/// Checks that general 4 adds first in each round while the gate holds general 0. Each program takes seventeen steps.
/// With a patience of sixteen steps it is cut off after its last access.
#[test]
fn the_second_colluder_adds_first(rt: HostRuntime) {
    let alloc = rt.alloc();
    assert!(rt; adds_first(&rt, alloc, SEVEN, 17));
    assert!(rt; adds_first(&rt, alloc, SEVEN_AND_SIXTEEN_STEPS, 16));
}

/// A gate that counts how often it is called for a first, second, third and later access.
#[derive(Drop)]
struct Counting {
    asked: Counts,
    beyond: AtomicU32,
}

impl Gate for Counting {
    fn before_access(&self, _general: u32, _round: u32, nth: u64) {
        let asked = match nth {
            0 => &self.asked.first,
            1 => &self.asked.second,
            2 => &self.asked.third,
            _ => &self.beyond,
        };
        asked.fetch_add(1, Ordering::SeqCst);
    }
}

/// Checks that the gate is called exactly once for each access, in a campaign of two generals who read three words in
/// each of three rounds. The threads have stacks of `stack` bytes, or of the usual size if it is `None`.
fn is_asked_once<R: Threads + Wait + Sync>(rt: &R, alloc: Global, stack: Option<usize>) -> bool {
    let Some(scenario) = told(alloc, SEVEN, LOOKING) else {
        return false;
    };
    let gate = Counting {
        asked: Counts::none(),
        beyond: AtomicU32::new(0),
    };
    let outcome = match stack {
        Some(stack) => muster_with(rt, alloc, scenario, &gate, stack),
        None => muster(rt, alloc, scenario, &gate),
    };
    match outcome {
        Ok(chronicle) => {
            chronicle.accesses().len() == 18
                && gate.asked.are((6, 6, 6))
                && gate.beyond.load(Ordering::SeqCst) == 0
        }
        Err(_) => false,
    }
}

#[test]
fn each_access_is_asked_for_once(rt: HostRuntime) {
    assert!(rt; is_asked_once(&rt, rt.alloc(), None));
    assert!(rt; is_asked_once(&rt, rt.alloc(), Some(1 << 20)));
}
