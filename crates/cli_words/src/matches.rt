//! Turns the words that `clap`, the parser of the command line, accepted into a task, or finds why they name none.
ghost use Rattle.std.specs.Prelude.{◌≡◌, ◌≢◌, if◌then◌else◌, IfOk, IfErr, IsSome, None, Some, [], ◌∷◌, codes, is_some, option_map, string_bytes, true, false};
ghost use Rattle.clap.specs.Words.{subcommand_rows_of};
ghost use Rattle.cli_words.specs.Generals.{bound_in, size_in, traitors_in};
ghost use Rattle.cli_words.specs.Lab.{is_given, task_met};
ghost use Rattle.cli_words.specs.Tasks.{IsDrawing, levels_in, named};
ghost use Rattle.cli_words.specs.Met.{has_places, told_by};
ghost use Rattle.cli_words.specs.Tasks.{AreExplained, AreTurns, Asks, HasValue, IsCourse, IsErrorOf, IsFilling, IsNotation, IsStaged, NamesCount, NamesGeneral, NamesSeed, NamesStory, Says, campaigns, coursed, has, is_of, is_raw, is_table, programs, rule_in, ruled, size_given, word_of};

use crate::errors::{Misuse, TaskError};
use crate::generals::{
    GeneralsError, bound, count, depth, general, generals, order, seed, size, traitors,
};
use crate::tasks::{
    Accesses, Account, Course, Drawing, Filling, Lieutenants, Notation, Spelling, Task,
    TaskRequest, Turns,
};
use bounds::Story;
use clap::ArgMatches;
use clap::parser::ValueSource;
use combine::Rule;
use std::alloc::{AllocError, Global};

/// A subcommand that `clap` parsed: its name, and the values of its positional arguments (places) and flags.
#[derive(Clone, Copy)]
pub(crate) struct ParsedWords<'m, 'a> {
    name: &'a str,
    found: &'m ArgMatches<'a>,
}

impl<'m, 'a> ParsedWords<'m, 'a> {
    /// Returns the name of the subcommand that `clap` parsed, with the values of its words. There must be a subcommand.
    pub(crate) fn of(matches: &'m ArgMatches<'a>) -> ParsedWords<'m, 'a>
        requires { IsSome (subcommand_rows_of matches.now) }
        ensures { Some (told_by result) ≡ task_met (subcommand_rows_of matches.now) }
    {
        let Some((name, found)) = matches.subcommand() else {
            unreachable!();
        };
        ParsedWords { name, found }
    }

    /// Returns the word at the place `name`, the value of the option `name`, or `true` for the switch `name`. Returns
    /// `None` if the words do not have it.
    fn value(self, name: &str) -> Option<&'a str>
        ensures { word_of name.now (told_by self.entry) ≡ option_map (λ t. t.now) result }
    {
        given(self.found.value_source(name), self.found.get_str(name))
    }

    /// Checks whether the words have the place, option or switch `name`.
    fn has(self, name: &str) -> bool
        ensures { result ≡ has name.now (told_by self.entry) }
    {
        self.value(name).is_some()
    }

    /// Returns a copy of the word at the place `name`, which the words must have.
    fn required(self, alloc: Global, name: &str) -> Result<String, AllocError>
        requires { has name.now (told_by self) ≡ true }
        ensures { IfOk result (λ own. word_of name.now (told_by self.entry) ≡ Some (string_bytes own)) }
    {
        let Some(word) = self.value(name) else {
            unreachable!();
        };
        String::from_str(alloc, word)
    }

    /// Returns a copy of the value of the option `name`, or `None` if the words do not have this option.
    fn optional(self, alloc: Global, name: &str) -> Result<Option<String>, AllocError>
        ensures { IfOk result (λ own. word_of name.now (told_by self.entry) ≡ option_map string_bytes own) }
    {
        Ok(match self.value(name) {
            Some(word) => Some(String::from_str(alloc, word)?),
            None => None,
        })
    }

    /// Returns the request that the words make: a task, and how its answer is printed.
    pub(crate) fn request(self, alloc: Global) -> Result<TaskRequest, TaskError>
        requires { has_places (told_by self) ≡ true }
        ensures request { IfOk result (Asks (told_by self.entry)) }
        ensures refused { IfErr result (IsErrorOf (told_by self.entry)) }
    {
        Ok(TaskRequest {
            json: self.has("json"),
            verdicts: self.has("verdicts"),
            no_files: self.has("no-files"),
            task: self.task(alloc)?,
        })
    }

    /// Returns the task that the subcommand and its words name.
    fn task(self, alloc: Global) -> Result<Task, TaskError>
        requires { has_places (told_by self) ≡ true }
        ensures task { IfOk result (Says (told_by self.entry)) }
        ensures refused { IfErr result (IsErrorOf (told_by self.entry)) }
    {
        match self.name {
            "check" => self.check(alloc),
            "asm" => self.assemble(alloc),
            "dis" => self.disassemble(alloc),
            "book" => self.book(alloc),
            "table" => self.form(alloc),
            "refute" => self.refute(alloc),
            "exhaust" => self.exhaust(alloc),
            "rule" => self.certify(alloc),
            "muster" => self.muster(alloc),
            "play" => self.play(alloc),
            "audit" => self.audit(alloc),
            "explore" => self.explore(alloc),
            "tree" => self.tree(alloc),
            "draw" => self.draw(alloc),
            "page" => self.page(alloc),
            "schedule" => self.retrace(alloc),
            _ => unreachable!(),
        }
    }

    /// Builds the task of the subcommand `check` from its words.
    fn check(self, alloc: Global) -> Result<Task, TaskError>
        requires name { self.name.now ≡ codes "check" }
        requires file { has (codes "FILE") (told_by self) ≡ true }
        ensures task { IfOk result (Says (told_by self.entry)) }
        ensures refused { IfErr result (IsErrorOf (told_by self.entry)) }
    {
        Ok(Task::Check {
            program: self.required(alloc, "FILE")?,
            notation: self.notation(alloc)?,
            context: self.optional(alloc, "context")?,
            explained: self.has("explain"),
            traced: self.has("trace"),
        })
    }

    /// Builds the task of the subcommand `asm` from its words.
    fn assemble(self, alloc: Global) -> Result<Task, TaskError>
        requires name { self.name.now ≡ codes "asm" }
        requires file { has (codes "FILE") (told_by self) ≡ true }
        ensures task { IfOk result (Says (told_by self.entry)) }
        ensures refused { IfErr result (IsErrorOf (told_by self.entry)) }
    {
        if self.has("partial") {
            return self.assemble_partly(alloc);
        }
        Ok(Task::Assemble {
            text: self.required(alloc, "FILE")?,
            spelling: self.spelling(),
            target: self.optional(alloc, "target")?,
            explained: self.has("explain"),
        })
    }

    /// Builds the task of the subcommand `asm` with the switch `--partial` from its words.
    fn assemble_partly(self, alloc: Global) -> Result<Task, TaskError>
        requires name { self.name.now ≡ codes "asm" }
        requires file { has (codes "FILE") (told_by self) ≡ true }
        requires partial { has (codes "partial") (told_by self) ≡ true }
        ensures task { IfOk result (Says (told_by self.entry)) }
        ensures refused { IfErr result (IsErrorOf (told_by self.entry)) }
    {
        Ok(Task::AssemblePartly {
            text: self.required(alloc, "FILE")?,
            spelling: self.spelling(),
            target: self.optional(alloc, "target")?,
            explained: self.has("explain"),
        })
    }

    /// Builds the task of the subcommand `dis` from its words.
    fn disassemble(self, alloc: Global) -> Result<Task, TaskError>
        requires name { self.name.now ≡ codes "dis" }
        requires file { has (codes "FILE") (told_by self) ≡ true }
        ensures task { IfOk result (Says (told_by self.entry)) }
        ensures refused { IfErr result (IsErrorOf (told_by self.entry)) }
    {
        if self.has("partial") {
            return self.disassemble_partly(alloc);
        }
        Ok(Task::Disassemble {
            program: self.required(alloc, "FILE")?,
            notation: self.notation(alloc)?,
            units: self.has("units"),
            explained: self.has("explain"),
        })
    }

    /// Builds the task of the subcommand `dis` with the switch `--partial` from its words. Fails if they also have
    /// `--units`.
    fn disassemble_partly(self, alloc: Global) -> Result<Task, TaskError>
        requires name { self.name.now ≡ codes "dis" }
        requires file { has (codes "FILE") (told_by self) ≡ true }
        requires partial { has (codes "partial") (told_by self) ≡ true }
        ensures task { IfOk result (Says (told_by self.entry)) }
        ensures refused { IfErr result (IsErrorOf (told_by self.entry)) }
        ensures memory { has (codes "units") (told_by self.entry) ≡ true → IfErr result (λ error. error ≢ TaskError.Memory) }
    {
        if self.has("units") {
            return Err(TaskError::Misuse(Misuse::UnitsOfParts));
        }
        Ok(Task::DisassemblePartly {
            program: self.required(alloc, "FILE")?,
            notation: self.notation(alloc)?,
            explained: self.has("explain"),
        })
    }

    /// Builds the task of the subcommand `book` from its words. The task explains the decisions if they have
    /// `--explain` or `--traitors`.
    fn book(self, alloc: Global) -> Result<Task, TaskError>
        requires name { self.name.now ≡ codes "book" }
        requires file { has (codes "FILE") (told_by self) ≡ true }
        ensures task { IfOk result (Says (told_by self.entry)) }
        ensures refused { IfErr result (IsErrorOf (told_by self.entry)) }
    {
        let table = self.required(alloc, "FILE")?;
        let Some(word) = self.value("traitors") else {
            if !self.has("explain") {
                return Ok(Task::Book(table));
            }
            return Ok(Task::ExplainDecisions {
                table,
                traitors: Vec::new(alloc),
            });
        };
        match generals(alloc, word) {
            Ok(traitors) => Ok(Task::ExplainDecisions { table, traitors }),
            Err(GeneralsError::NoGeneral) => {
                let word = String::from_str(alloc, word)?;
                Err(TaskError::Misuse(Misuse::Traitors(word)))
            }
            Err(GeneralsError::Memory) => Err(TaskError::Memory),
        }
    }

    /// Builds the task of the subcommand `table` from its words.
    fn form(self, alloc: Global) -> Result<Task, TaskError>
        requires name { self.name.now ≡ codes "table" }
        requires generals { has (codes "GENERALS") (told_by self) ≡ true }
        requires bound { has (codes "BOUND") (told_by self) ≡ true }
        requires commander { has (codes "COMMANDER") (told_by self) ≡ true }
        ensures task { IfOk result (Says (told_by self.entry)) }
        ensures refused { IfErr result (IsErrorOf (told_by self.entry)) }
    {
        Ok(Task::Form {
            generals: self.required(alloc, "GENERALS")?,
            bound: self.required(alloc, "BOUND")?,
            commander: self.required(alloc, "COMMANDER")?,
            filling: self.filling(alloc)?,
        })
    }

    /// Builds the task of the subcommand `refute` from its words.
    fn refute(self, alloc: Global) -> Result<Task, TaskError>
        requires name { self.name.now ≡ codes "refute" }
        requires generals { has (codes "GENERALS") (told_by self) ≡ true }
        requires bound { has (codes "BOUND") (told_by self) ≡ true }
        requires commander { has (codes "COMMANDER") (told_by self) ≡ true }
        ensures task { IfOk result (Says (told_by self.entry)) }
        ensures refused { IfErr result (IsErrorOf (told_by self.entry)) }
    {
        Ok(Task::Refute {
            generals: self.required(alloc, "GENERALS")?,
            bound: self.required(alloc, "BOUND")?,
            commander: self.required(alloc, "COMMANDER")?,
            rule: self.rule(alloc)?,
            story: self.story(alloc)?,
            staged: self.has("scenario"),
        })
    }

    /// Builds the task of the subcommand `exhaust` from its words.
    fn exhaust(self, alloc: Global) -> Result<Task, TaskError>
        requires name { self.name.now ≡ codes "exhaust" }
        ensures task { IfOk result (Says (told_by self.entry)) }
        ensures refused { IfErr result (IsErrorOf (told_by self.entry)) }
    {
        Ok(Task::Exhaust {
            generals: self.generals(alloc)?,
            bound: self.bound(alloc)?,
            traitors: self.traitor_count(alloc)?,
            commander: self.commander(alloc)?,
            rule: self.rule(alloc)?,
            staged: self.staged()?,
        })
    }

    /// Returns whether a break is printed as a scenario: whether the words have `--scenario`. Fails if they also have
    /// `--json`.
    fn staged(self) -> Result<bool, TaskError>
        requires { is_of (codes "exhaust" ∷ []) (told_by self) ≡ true }
        ensures staged { IfOk result (IsStaged (told_by self.entry)) }
        ensures refused { IfErr result (IsErrorOf (told_by self.entry)) }
        ensures memory { IfErr result (λ error. error ≢ TaskError.Memory) }
    {
        let staged = self.has("scenario");
        if staged && self.has("json") {
            return Err(TaskError::Misuse(Misuse::TwoForms));
        }
        Ok(staged)
    }

    /// Returns the value of `--generals`, how many generals there are. Fails if it is missing, or is not a number of
    /// generals.
    fn generals(self, alloc: Global) -> Result<u8, TaskError>
        requires { is_of (codes "exhaust" ∷ []) (told_by self) ≡ true }
        ensures named { IfOk result (HasValue size_in (codes "generals") (told_by self.entry)) }
        ensures refused { IfErr result (IsErrorOf (told_by self.entry)) }
        ensures memory { has (codes "generals") (told_by self.entry) ≡ false → IfErr result (λ error. error ≢ TaskError.Memory) }
    {
        let Some(word) = self.value("generals") else {
            return Err(TaskError::Misuse(Misuse::NoGenerals));
        };
        match size(word.as_bytes()) {
            Some(size) => Ok(size),
            None => Err(TaskError::Misuse(Misuse::Generals(String::from_str(alloc, word)?))),
        }
    }

    /// Returns the value of `--bound`, the bound on the traitors. Fails if it is missing, or is not a bound.
    fn bound(self, alloc: Global) -> Result<u8, TaskError>
        requires { is_of (codes "exhaust" ∷ []) (told_by self) ≡ true }
        ensures named { IfOk result (HasValue bound_in (codes "bound") (told_by self.entry)) }
        ensures refused { IfErr result (IsErrorOf (told_by self.entry)) }
        ensures memory { has (codes "bound") (told_by self.entry) ≡ false → IfErr result (λ error. error ≢ TaskError.Memory) }
    {
        let Some(word) = self.value("bound") else {
            return Err(TaskError::Misuse(Misuse::NoBound));
        };
        match bound(word.as_bytes()) {
            Some(bound) => Ok(bound),
            None => Err(TaskError::Misuse(Misuse::Bound(String::from_str(alloc, word)?))),
        }
    }

    /// Returns the value of `--traitors`, the greatest number of traitors. Fails if it is missing, or is not a number
    /// of traitors.
    fn traitor_count(self, alloc: Global) -> Result<u8, TaskError>
        requires { is_of (codes "exhaust" ∷ []) (told_by self) ≡ true }
        ensures named { IfOk result (HasValue traitors_in (codes "traitors") (told_by self.entry)) }
        ensures refused { IfErr result (IsErrorOf (told_by self.entry)) }
        ensures memory { has (codes "traitors") (told_by self.entry) ≡ false → IfErr result (λ error. error ≢ TaskError.Memory) }
    {
        let Some(word) = self.value("traitors") else {
            return Err(TaskError::Misuse(Misuse::NoTraitors));
        };
        match traitors(word.as_bytes()) {
            Some(most) => Ok(most),
            None => Err(TaskError::Misuse(Misuse::TraitorCount(String::from_str(alloc, word)?))),
        }
    }

    /// Returns the value of `--commander`, or `None` if the words do not have it. Fails if it is not the number of a
    /// general.
    fn commander(self, alloc: Global) -> Result<Option<u8>, TaskError>
        requires { is_of (codes "exhaust" ∷ []) (told_by self) ≡ true }
        ensures named { IfOk result (NamesGeneral (codes "commander") (told_by self.entry)) }
        ensures refused { IfErr result (IsErrorOf (told_by self.entry)) }
    {
        let Some(word) = self.value("commander") else {
            return Ok(None);
        };
        match general(word.as_bytes()) {
            Some(general) => Ok(Some(general)),
            None => Err(TaskError::Misuse(Misuse::Commander(String::from_str(alloc, word)?))),
        }
    }

    /// Returns the task of `rule`.
    fn certify(self, alloc: Global) -> Result<Task, TaskError>
        requires name { self.name.now ≡ codes "rule" }
        requires file { has (codes "FILE") (told_by self) ≡ true }
        ensures task { IfOk result (Says (told_by self.entry)) }
        ensures refused { IfErr result (IsErrorOf (told_by self.entry)) }
    {
        Ok(Task::Certify {
            program: self.required(alloc, "FILE")?,
            notation: self.notation(alloc)?,
            generals: self.size(alloc)?,
        })
    }

    /// Returns how many generals `--generals` names, or 13 without it.
    fn size(self, alloc: Global) -> Result<u8, TaskError>
        requires { is_of (codes "rule" ∷ []) (told_by self) ≡ true }
        ensures given { IfOk result (λ size. size_given (word_of (codes "generals") (told_by self.entry)) ≡ Some size) }
        ensures refused { IfErr result (IsErrorOf (told_by self.entry)) }
    {
        let Some(word) = self.value("generals") else {
            return Ok(13);
        };
        match size(word.as_bytes()) {
            Some(size) => Ok(size),
            None => Err(TaskError::Misuse(Misuse::Generals(String::from_str(alloc, word)?))),
        }
    }

    /// Builds the task of the subcommand `play` from its words.
    fn play(self, alloc: Global) -> Result<Task, TaskError>
        requires name { self.name.now ≡ codes "play" }
        requires scenario { has (codes "SCENARIO") (told_by self) ≡ true }
        ensures task { IfOk result (Says (told_by self.entry)) }
        ensures refused { IfErr result (IsErrorOf (told_by self.entry)) }
    {
        Ok(Task::Play {
            scenario: self.required(alloc, "SCENARIO")?,
            turns: self.turns(alloc)?,
            account: self.account(),
            explained: self.lieutenants(alloc)?,
        })
    }

    /// Returns the schedule by which a campaign is played: the schedule in the file of `--schedule`, or the random one
    /// of `--seed`. Fails if the words have both, or `--schedule-out` without `--seed`.
    fn turns(self, alloc: Global) -> Result<Turns, TaskError>
        requires { is_of (codes "play" ∷ []) (told_by self) ≡ true }
        ensures turns { IfOk result (AreTurns (told_by self.entry)) }
        ensures refused { IfErr result (IsErrorOf (told_by self.entry)) }
    {
        let file = self.optional(alloc, "schedule")?;
        let target = self.optional(alloc, "schedule-out")?;
        let Some(seed) = self.seed(alloc)? else {
            if target.is_some() {
                return Err(TaskError::Misuse(Misuse::OutAlone));
            }
            return Ok(Turns::OfFile(file));
        };
        if file.is_some() {
            return Err(TaskError::Misuse(Misuse::TwoSchedules));
        }
        Ok(Turns::OfSeed { seed, target })
    }

    /// Returns the value of `--seed`, or `None` if the words do not have it. Fails if it is not a seed.
    fn seed(self, alloc: Global) -> Result<Option<u64>, TaskError>
        requires { is_of (codes "play" ∷ []) (told_by self) ≡ true }
        ensures named { IfOk result (NamesSeed (told_by self.entry)) }
        ensures there { IfOk result (λ seed. has (codes "seed") (told_by self.entry) ≡ is_some seed) }
        ensures refused { IfErr result (IsErrorOf (told_by self.entry)) }
    {
        let Some(word) = self.value("seed") else {
            return Ok(None);
        };
        match seed(word.as_bytes()) {
            Some(seed) => Ok(Some(seed)),
            None => Err(TaskError::Misuse(Misuse::Seed(String::from_str(alloc, word)?))),
        }
    }

    /// Builds the task of the subcommand `muster` from its words.
    fn muster(self, alloc: Global) -> Result<Task, TaskError>
        requires name { self.name.now ≡ codes "muster" }
        requires scenario { has (codes "SCENARIO") (told_by self) ≡ true }
        ensures task { IfOk result (Says (told_by self.entry)) }
        ensures refused { IfErr result (IsErrorOf (told_by self.entry)) }
    {
        Ok(Task::Muster {
            scenario: self.required(alloc, "SCENARIO")?,
            explained: self.lieutenants(alloc)?,
        })
    }

    /// Builds the task of the subcommand `audit` from its words.
    fn audit(self, alloc: Global) -> Result<Task, TaskError>
        requires name { self.name.now ≡ codes "audit" }
        requires scenario { has (codes "SCENARIO") (told_by self) ≡ true }
        requires chronicle { has (codes "CHRONICLE") (told_by self) ≡ true }
        ensures task { IfOk result (Says (told_by self.entry)) }
        ensures refused { IfErr result (IsErrorOf (told_by self.entry)) }
    {
        Ok(Task::Audit {
            scenario: self.required(alloc, "SCENARIO")?,
            chronicle: self.required(alloc, "CHRONICLE")?,
            explained: self.lieutenants(alloc)?,
        })
    }

    /// Builds the task of the subcommand `explore` from its words.
    fn explore(self, alloc: Global) -> Result<Task, TaskError>
        requires name { self.name.now ≡ codes "explore" }
        requires scenario { has (codes "SCENARIO") (told_by self) ≡ true }
        ensures task { IfOk result (Says (told_by self.entry)) }
        ensures refused { IfErr result (IsErrorOf (told_by self.entry)) }
    {
        Ok(Task::Explore {
            scenario: self.required(alloc, "SCENARIO")?,
            most: self.most(alloc)?,
            folder: self.optional(alloc, "keep")?,
        })
    }

    /// Returns the value of `--most`, the greatest number of orders of accesses that are played, or `None` if the words
    /// do not have it. Fails if it is not a number from 1 on.
    fn most(self, alloc: Global) -> Result<Option<u64>, TaskError>
        requires { is_of (codes "explore" ∷ []) (told_by self) ≡ true }
        ensures named { IfOk result (NamesCount (codes "most") (told_by self.entry)) }
        ensures refused { IfErr result (IsErrorOf (told_by self.entry)) }
    {
        let Some(word) = self.value("most") else {
            return Ok(None);
        };
        match count(word.as_bytes()) {
            Some(most) => Ok(Some(most)),
            None => Err(TaskError::Misuse(Misuse::Most(String::from_str(alloc, word)?))),
        }
    }

    /// Builds the task of the subcommand `tree` from its words.
    fn tree(self, alloc: Global) -> Result<Task, TaskError>
        requires name { self.name.now ≡ codes "tree" }
        requires file { has (codes "FILE") (told_by self) ≡ true }
        ensures task { IfOk result (Says (told_by self.entry)) }
        ensures refused { IfErr result (IsErrorOf (told_by self.entry)) }
    {
        Ok(Task::Tree {
            file: self.required(alloc, "FILE")?,
            general: self.whose(alloc)?,
            traitors: self.traitors(alloc)?,
            drawing: self.drawing()?,
            depth: self.depth(alloc)?,
            folded: self.has("fold"),
        })
    }

    /// Returns the value of `--of`, the lieutenant whose tree is drawn. Fails if it is missing, or is not the number of
    /// a general.
    fn whose(self, alloc: Global) -> Result<u8, TaskError>
        requires { is_of (codes "tree" ∷ []) (told_by self) ≡ true }
        ensures named { IfOk result (λ g. NamesGeneral (codes "of") (told_by self.entry) (Some g)) }
        ensures refused { IfErr result (IsErrorOf (told_by self.entry)) }
        ensures memory { has (codes "of") (told_by self.entry) ≡ false → IfErr result (λ error. error ≢ TaskError.Memory) }
    {
        let Some(word) = self.value("of") else {
            return Err(TaskError::Misuse(Misuse::NobodyNamed));
        };
        match general(word.as_bytes()) {
            Some(general) => Ok(general),
            None => Err(TaskError::Misuse(Misuse::Of(String::from_str(alloc, word)?))),
        }
    }

    /// Returns the generals that `--traitors` lists, whose lies are marked, or none if the words do not have it. Fails
    /// if a part of the list is not the number of a general.
    fn traitors(self, alloc: Global) -> Result<Vec<u8>, TaskError>
        requires { is_of (codes "tree" ∷ []) (told_by self) ≡ true }
        ensures named { IfOk result
            (λ traitors. named true (word_of (codes "traitors") (told_by self.entry)) ≡ Some traitors.items) }
        ensures refused { IfErr result (IsErrorOf (told_by self.entry)) }
    {
        let Some(word) = self.value("traitors") else {
            return Ok(Vec::new(alloc));
        };
        match generals(alloc, word) {
            Ok(traitors) => Ok(traitors),
            Err(GeneralsError::NoGeneral) => {
                let word = String::from_str(alloc, word)?;
                Err(TaskError::Misuse(Misuse::Traitors(word)))
            }
            Err(GeneralsError::Memory) => Err(TaskError::Memory),
        }
    }

    /// Returns how a tree is drawn, as `--text`, `--ascii`, `--dot` and `--svg` say. Fails if they name two ways.
    fn drawing(self) -> Result<Drawing, TaskError>
        requires { is_of (codes "tree" ∷ []) (told_by self) ≡ true }
        ensures drawing { IfOk result (IsDrawing (told_by self.entry)) }
        ensures refused { IfErr result (IsErrorOf (told_by self.entry)) }
        ensures memory { IfErr result (λ error. error ≢ TaskError.Memory) }
    {
        let is_ascii = self.has("ascii");
        let is_text = self.has("text") || is_ascii;
        match (is_text, self.has("dot"), self.has("svg")) {
            (_, false, false) if is_ascii => Ok(Drawing::Ascii),
            (_, false, false) => Ok(Drawing::Boxes),
            (false, true, false) => Ok(Drawing::Graph),
            (false, false, true) => Ok(Drawing::Svg),
            (true, true, _) | (true, _, true) | (_, true, true) => {
                Err(TaskError::Misuse(Misuse::TwoDrawings))
            }
        }
    }

    /// Returns the value of `--depth`, how many levels of a tree are drawn below the commander's: 0 to 4, or 4 if the
    /// words do not have it. Fails if it is another word.
    fn depth(self, alloc: Global) -> Result<u8, TaskError>
        requires { is_of (codes "tree" ∷ []) (told_by self) ≡ true }
        ensures levels { IfOk result (λ depth. levels_in (word_of (codes "depth") (told_by self.entry)) ≡ Some depth) }
        ensures refused { IfErr result (IsErrorOf (told_by self.entry)) }
    {
        let Some(word) = self.value("depth") else {
            return Ok(4);
        };
        match depth(word.as_bytes()) {
            Some(depth) => Ok(depth),
            None => Err(TaskError::Misuse(Misuse::Depth(String::from_str(alloc, word)?))),
        }
    }

    /// Builds the task of the subcommand `draw` from its words.
    fn draw(self, alloc: Global) -> Result<Task, TaskError>
        requires name { self.name.now ≡ codes "draw" }
        requires scenario { has (codes "SCENARIO") (told_by self) ≡ true }
        ensures task { IfOk result (Says (told_by self.entry)) }
        ensures refused { IfErr result (IsErrorOf (told_by self.entry)) }
    {
        Ok(Task::Draw {
            scenario: self.required(alloc, "SCENARIO")?,
            course: self.course(alloc)?,
        })
    }

    /// Builds the task of the subcommand `page` from its words.
    fn page(self, alloc: Global) -> Result<Task, TaskError>
        requires name { self.name.now ≡ codes "page" }
        requires scenario { has (codes "SCENARIO") (told_by self) ≡ true }
        ensures task { IfOk result (Says (told_by self.entry)) }
        ensures refused { IfErr result (IsErrorOf (told_by self.entry)) }
    {
        Ok(Task::Page {
            scenario: self.required(alloc, "SCENARIO")?,
            course: self.course(alloc)?,
            target: self.optional(alloc, "target")?,
        })
    }

    /// Returns what a campaign follows: the schedule of `--schedule`, or the chronicle of `--chronicle`. Fails if the
    /// words have both.
    fn course(self, alloc: Global) -> Result<Course, TaskError>
        requires { is_of coursed (told_by self) ≡ true }
        ensures course { IfOk result (IsCourse (told_by self.entry)) }
        ensures refused { IfErr result (IsErrorOf (told_by self.entry)) }
    {
        let schedule = self.optional(alloc, "schedule")?;
        let Some(chronicle) = self.optional(alloc, "chronicle")? else {
            return Ok(Course::Scheduled(schedule));
        };
        if schedule.is_some() {
            return Err(TaskError::Misuse(Misuse::TwoCourses));
        }
        Ok(Course::Recorded(chronicle))
    }

    /// Builds the task of the subcommand `schedule` from its words.
    fn retrace(self, alloc: Global) -> Result<Task, TaskError>
        requires name { self.name.now ≡ codes "schedule" }
        requires scenario { has (codes "SCENARIO") (told_by self) ≡ true }
        requires chronicle { has (codes "CHRONICLE") (told_by self) ≡ true }
        ensures task { IfOk result (Says (told_by self.entry)) }
        ensures refused { IfErr result (IsErrorOf (told_by self.entry)) }
    {
        let scenario = self.required(alloc, "SCENARIO")?;
        let accesses = self.required(alloc, "CHRONICLE")?;
        Ok(Task::Retrace {
            scenario,
            accesses: if self.has("accesses") {
                Accesses::Listed(accesses)
            } else {
                Accesses::OfChronicle(accesses)
            },
        })
    }

    /// Returns how the program in a file is written, as `--asm`, `--elf` and `--entry` say. Fails if the first two are
    /// used together, or `--entry` without `--elf`.
    fn notation(self, alloc: Global) -> Result<Notation, TaskError>
        requires { is_of programs (told_by self) ≡ true }
        ensures notation { IfOk result (IsNotation (told_by self.entry)) }
        ensures refused { IfErr result (IsErrorOf (told_by self.entry)) }
    {
        let entry = self.optional(alloc, "entry")?;
        if self.has("elf") {
            if self.has("asm") {
                return Err(TaskError::Misuse(Misuse::TwoNotations));
            }
            return Ok(Notation::Object { entry });
        }
        if entry.is_some() {
            return Err(TaskError::Misuse(Misuse::EntryAlone));
        }
        if self.has("asm") {
            return Ok(Notation::Assembly);
        }
        Ok(Notation::Bytecode)
    }

    /// Returns how bytecode is written: as bytes if the words have `--raw`, and otherwise in hex digits.
    fn spelling(self) -> Spelling
        ensures { has (codes "raw") (told_by self.entry) ≡ is_raw result }
    {
        if self.has("raw") {
            Spelling::Raw
        } else {
            Spelling::Hex
        }
    }

    /// Returns how a campaign is printed: as its message table if the words have `--table`, and otherwise as its
    /// chronicle.
    fn account(self) -> Account
        ensures { has (codes "table") (told_by self.entry) ≡ is_table result }
    {
        if self.has("table") {
            Account::Table
        } else {
            Account::Chronicle
        }
    }

    /// Returns the lieutenants whose decisions are explained, or `None` if the words do not have `--explain`. Fails if
    /// the value of `--of` is not the number of a general, or if it is used without `--explain`.
    fn lieutenants(self, alloc: Global) -> Result<Option<Lieutenants>, TaskError>
        requires { is_of campaigns (told_by self) ≡ true }
        ensures explained { IfOk result (AreExplained (told_by self.entry)) }
        ensures refused { IfErr result (IsErrorOf (told_by self.entry)) }
        ensures memory { has (codes "explain") (told_by self.entry) ≡ false → IfErr result (λ error. error ≢ TaskError.Memory) }
    {
        let explained = self.has("explain");
        let Some(word) = self.value("of") else {
            if explained {
                return Ok(Some(Lieutenants::All));
            }
            return Ok(None);
        };
        if !explained {
            return Err(TaskError::Misuse(Misuse::OfAlone));
        }
        match general(word.as_bytes()) {
            Some(general) => Ok(Some(Lieutenants::One(general))),
            None => Err(TaskError::Misuse(Misuse::Of(String::from_str(alloc, word)?))),
        }
    }

    /// Returns the rule that `--rule` names, or the default rule if the words do not have it. Fails if no rule has this
    /// name.
    fn rule(self, alloc: Global) -> Result<Rule, TaskError>
        requires { is_of ruled (told_by self) ≡ true }
        ensures named { IfOk result (λ rule. rule_in (word_of (codes "rule") (told_by self.entry)) ≡ Some rule) }
        ensures refused { IfErr result (IsErrorOf (told_by self.entry)) }
    {
        let Some(word) = self.value("rule") else {
            return Ok(Rule::DEFAULT);
        };
        match Rule::named(word.as_bytes()) {
            Some(rule) => Ok(rule),
            None => Err(TaskError::Misuse(Misuse::Rule(String::from_str(alloc, word)?))),
        }
    }

    /// Returns the story (one of three campaigns with too few generals) that `--story` numbers, or `None` if the words
    /// do not have it. Fails if there is no story with this number.
    fn story(self, alloc: Global) -> Result<Option<Story>, TaskError>
        requires { is_of (codes "refute" ∷ []) (told_by self) ≡ true }
        ensures named { IfOk result (NamesStory (told_by self.entry)) }
        ensures refused { IfErr result (IsErrorOf (told_by self.entry)) }
    {
        let Some(word) = self.value("story") else {
            return Ok(None);
        };
        match Story::numbered(word.as_bytes()) {
            Some(story) => Ok(Some(story)),
            None => Err(TaskError::Misuse(Misuse::Story(String::from_str(alloc, word)?))),
        }
    }

    /// Returns how a message table is filled in, as `--loyal` and `--lie` say, or `None` if it is printed without
    /// orders. Fails if `--lie` is used without `--loyal`, or if a value is wrong.
    fn filling(self, alloc: Global) -> Result<Option<Filling>, TaskError>
        requires { is_of (codes "table" ∷ []) (told_by self) ≡ true }
        ensures filling { IfOk result (IsFilling (told_by self.entry)) }
        ensures refused { IfErr result (IsErrorOf (told_by self.entry)) }
        ensures memory { has (codes "loyal") (told_by self.entry) ≡ false → IfErr result (λ error. error ≢ TaskError.Memory) }
    {
        let Some(word) = self.value("loyal") else {
            if self.has("lie") {
                return Err(TaskError::Misuse(Misuse::LieAlone));
            }
            return Ok(None);
        };
        let Some(order) = order(word.as_bytes()) else {
            return Err(TaskError::Misuse(Misuse::Loyal(String::from_str(alloc, word)?)));
        };
        Ok(Some(Filling {
            order,
            liar: self.liar(alloc)?,
        }))
    }

    /// Returns the value of `--lie`, the general whose lines of a table are left to be edited, or `None` if the words
    /// do not have it. Fails if it is not the number of a general.
    fn liar(self, alloc: Global) -> Result<Option<u8>, TaskError>
        requires { is_of (codes "table" ∷ []) (told_by self) ≡ true }
        ensures named { IfOk result (NamesGeneral (codes "lie") (told_by self.entry)) }
        ensures refused { IfErr result (IsErrorOf (told_by self.entry)) }
    {
        let Some(word) = self.value("lie") else {
            return Ok(None);
        };
        match general(word.as_bytes()) {
            Some(general) => Ok(Some(general)),
            None => Err(TaskError::Misuse(Misuse::Lie(String::from_str(alloc, word)?))),
        }
    }
}

/// Returns the text if it comes from the command line, and `None` if it is a default or if there is none.
fn given<'a>(source: Option<ValueSource>, text: Option<&'a str>) -> Option<&'a str>
    ensures { option_map (λ t. t.now) result ≡ (if is_given source then option_map (λ t. t.now) text.entry else None) }
{
    match source? {
        ValueSource::CommandLine => text,
        ValueSource::DefaultValue => None,
    }
}
