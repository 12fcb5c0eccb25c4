//! Keeps what the lieutenants have received in the closed rounds, and makes the generals' contexts from it.
ghost use Rattle.std.specs.Prelude.{◌≡◌, ◌≢◌, ◌<◌, ◌≤◌, ◌++◌, ◌∷◌, [], suc, List, IfOk, OnOk, length, take, vec_capacity};
ghost use Rattle.round.specs.Letters.{Letter as LetterSeen};
ghost use Rattle.round.specs.Contexts.{context_of, AreWords};
ghost use Rattle.round.specs.Origin.{AreLettersOf, AreRoundsOf};
ghost use Rattle.round.specs.Told.{WasTold, lieutenant_at};

use crate::delivery::deliver_to_all;
use crate::letter::Letter;
use crate::round::Round;
use crate::scenario::Scenario;
use mem::{Context, write_context};
use std::alloc::{AllocError, Global};
use std::marker::Model;
use tree::Tree;

/// What the lieutenants have received from the letters of the closed rounds: a tree for each lieutenant, ascending.
#[derive(Drop)]
pub struct Received {
    /// The number of rounds whose letters were delivered.
    rounds: u8,
    trees: Vec<Tree>,
}

impl Model for Received {
    ghost use Rattle.round.specs.Told.{ToldSeen};

    ghost Value = { ToldSeen };

    ghost view = { λ t. record { rounds = t.rounds; trees = t.trees.items } };
}

impl Received {
    /// Returns what the lieutenants have received before the first round: empty trees. Delivering letters to them later
    /// allocates no memory.
    ///
    /// # Errors
    ///
    /// Fails with `AllocError` if there is no memory for a tree.
    pub fn new(alloc: Global, scenario: &Scenario) -> Result<Received, AllocError>
        ensures { IfOk result (WasTold scenario.now []) }
    {
        let generals = scenario.generals();
        let bound = scenario.bound();
        let commander = scenario.commander();
        let mut trees = Vec::with_capacity(alloc, 12)?;
        for index in 0..generals - 1 {
            let general = lieutenant_at(commander, index);
            trees.push(Tree::new(alloc, generals, bound, commander, general)?)?;
        }
        Ok(Received { rounds: 0, trees })
    }

    /// Returns the number of rounds whose letters were delivered.
    pub fn rounds(&self) -> u8
        ensures { result ≡ self.now.rounds }
    {
        self.rounds
    }

    /// Returns the lieutenants' trees, ascending by lieutenant.
    pub fn trees(&self) -> &[Tree]
        ensures { result.now ≡ self.now.trees }
    {
        self.trees.as_slice()
    }

    /// Delivers the letters of the next round to the lieutenants' trees.
    pub fn deliver(&mut self, scenario: &Scenario, letters: &[Letter])
        requires told { (before : List (List LetterSeen)) × WasTold scenario.now before self.old }
        requires left { self.old.rounds ≤ scenario.now.bound }
        requires letters { AreLettersOf scenario.now (suc self.old.rounds) letters.now }
        ensures { (before : List (List LetterSeen)) → WasTold scenario.now before self.old →
            WasTold scenario.now (before ++ letters.now ∷ []) self.new }
    {
        scenario.recall();
        deliver_to_all(
            letters,
            scenario.generals(),
            scenario.commander(),
            self.trees.as_mut_slice(),
        );
        self.rounds += 1;
    }

    /// Removes the letters of the last delivered round from the trees. It allocates no memory.
    pub fn forget(&mut self, scenario: &Scenario)
        requires told { (before : List (List LetterSeen)) × (letters : List LetterSeen)
            × WasTold scenario.now (before ++ letters ∷ []) self.old }
        ensures { (before : List (List LetterSeen)) → (letters : List LetterSeen) →
            WasTold scenario.now (before ++ letters ∷ []) self.old → WasTold scenario.now before self.new }
    {
        scenario.recall();
        for index in 0..self.trees.len() {
            self.trees[index].clear(self.rounds);
        }
        self.rounds -= 1;
    }

    /// Returns this general's context at the start of the round after those delivered.
    ///
    /// # Errors
    ///
    /// Fails with `AllocError` if there is no memory for the 4,096 bytes.
    pub fn context(
        &self,
        alloc: Global,
        scenario: &Scenario,
        general: u8,
    ) -> Result<Vec<u8>, AllocError>
        requires told { (before : List (List LetterSeen)) × WasTold scenario.now before self.now }
        requires left { self.now.rounds ≤ scenario.now.bound }
        requires general { general < scenario.now.generals }
        ensures context { IfOk result (λ bytes. (before : List (List LetterSeen)) →
            WasTold scenario.now before self.now → bytes.items ≡ context_of scenario.now before general) }
        ensures words { OnOk result ((before : List (List LetterSeen)) → WasTold scenario.now before self.now →
            AreWords scenario.now before general) }
    {
        self.context_after(alloc, scenario, general, self.rounds)
    }

    /// Returns this general's context at the start of the round after the first `rounds` rounds. It does not matter
    /// whether later rounds were also delivered, because their orders are for longer labels.
    ///
    /// # Errors
    ///
    /// Fails with `AllocError` if there is no memory for the 4,096 bytes.
    pub fn context_after(
        &self,
        alloc: Global,
        scenario: &Scenario,
        general: u8,
        rounds: u8,
    ) -> Result<Vec<u8>, AllocError>
        requires told { (before : List (List LetterSeen)) × WasTold scenario.now before self.now }
        requires passed { rounds ≤ self.now.rounds }
        requires left { rounds ≤ scenario.now.bound }
        requires general { general < scenario.now.generals }
        ensures context { IfOk result (λ bytes. (before : List (List LetterSeen)) →
            WasTold scenario.now before self.now → bytes.items ≡ context_of scenario.now (take rounds before) general) }
        ensures words { OnOk result ((before : List (List LetterSeen)) → WasTold scenario.now before self.now →
            AreWords scenario.now (take rounds before) general) }
    {
        let mut bytes = Vec::with_capacity(alloc, Context::BYTES)?;
        self.write_context_after(scenario, general, rounds, &mut bytes);
        Ok(bytes)
    }

    /// Writes into `bytes` this general's context at the start of the round after the first `rounds` rounds, in place
    /// of what `bytes` contains. `bytes` must have capacity for 4,096 bytes, and no memory is allocated.
    pub fn write_context_after(
        &self,
        scenario: &Scenario,
        general: u8,
        rounds: u8,
        bytes: &mut Vec<u8>,
    )
        requires room { 4096 ≤ vec_capacity bytes.old }
        requires told { (before : List (List LetterSeen)) × WasTold scenario.now before self.now }
        requires passed { rounds ≤ self.now.rounds }
        requires left { rounds ≤ scenario.now.bound }
        requires general { general < scenario.now.generals }
        ensures context { (before : List (List LetterSeen)) → WasTold scenario.now before self.now →
            bytes.new.items ≡ context_of scenario.now (take rounds before) general }
        ensures words { (before : List (List LetterSeen)) → WasTold scenario.now before self.now →
            AreWords scenario.now (take rounds before) general }
    {
        let bound = scenario.bound();
        if rounds == 0 {
            return write_first_context(scenario, general, bytes);
        }
        let commander = scenario.commander();
        let shape = scenario.shape(general, rounds + 1);
        if general == commander {
            return write_context(bytes, shape, bound, &[]);
        }
        let tree = &self.trees[usize::from(lieutenant_index(commander, general))];
        write_context(bytes, shape, bound, tree.level(rounds));
    }
}

/// Returns this general's context at the start of the round after the closed rounds `before`.
///
/// # Errors
///
/// Fails with `AllocError` if there is no memory for a tree or for the 4,096 bytes.
pub fn context_for(
    alloc: Global,
    scenario: &Scenario,
    general: u8,
    before: &[Round],
) -> Result<Vec<u8>, AllocError>
    requires left { length before.now ≤ scenario.now.bound }
    requires general { general < scenario.now.generals }
    requires letters { AreRoundsOf scenario.now before.now }
    ensures context { IfOk result (λ bytes. bytes.items ≡ context_of scenario.now before.now general) }
    ensures words { OnOk result (AreWords scenario.now before.now general) }
{
    let mut told = Received::new(alloc, scenario)?;
    for round in before {
        told.deliver(scenario, round.letters());
    }
    told.context(alloc, scenario, general)
}

/// Writes into `bytes` this general's context at the start of the first round, in place of what `bytes` contains.
/// `bytes` must have capacity for 4,096 bytes. The commander's context has his order, and a lieutenant's has no order.
fn write_first_context(scenario: &Scenario, general: u8, bytes: &mut Vec<u8>)
    requires room { 4096 ≤ vec_capacity bytes.old }
    requires general { general < scenario.now.generals }
    ensures { bytes.new.items ≡ context_of scenario.now [] general }
{
    let bound = scenario.bound();
    let shape = scenario.shape(general, 1);
    if general == scenario.commander() {
        return write_context(bytes, shape, bound, &[scenario.order()]);
    }
    write_context(bytes, shape, bound, &[]);
}

/// Returns the lieutenant at index `index`, counted from 0, of the lieutenants under this commander, ascending.
fn lieutenant_at(commander: u8, index: u8) -> u8
    requires { index < 255 }
    ensures { result ≡ lieutenant_at commander index }
{
    if index < commander { index } else { index + 1 }
}

/// Returns the index of lieutenant `general`, counted from 0, in the ascending list of lieutenants under this
/// commander.
fn lieutenant_index(commander: u8, general: u8) -> u8
    requires { general ≢ commander }
    ensures there { lieutenant_at commander result ≡ general }
    ensures low { result ≤ general }
    ensures past { commander < general → result < general }
{
    if general < commander {
        general
    } else {
        general - 1
    }
}
