//! Continues a program with the board's reply to its request, or cancels the request.
ghost use Rattle.std.specs.Prelude.{◌≡◌, ◌++◌, ◌∷◌, [], true, List, ℕ, length, slice_index};
ghost use Rattle.insn.specs.declared.insn.Insn.{Insn};
ghost use Rattle.semantics.specs.State.{Ask};
ghost use Rattle.semantics.specs.Execution.{step};
ghost use Rattle.semantics.specs.Reached.{Reached};
ghost use Rattle.semantics.specs.declared.request.Request.{Request as Asked};
ghost use Rattle.machine.specs.Standing.{HasAsked, before};
ghost use Rattle.machine.specs.Advance.{IsOfRun, IsAskOfRun};
ghost use Rattle.semantics.specs.Call.{fits, returned, resumed};
ghost use Rattle.semantics.specs.Replies.{words_in};

use crate::machine::Machine;
use mem::store_words;
use semantics::{Reply, Request, Span};

impl Machine {
    /// Continues the program with the board's reply to its request. The reply must have as many words as the request
    /// asks for.
    pub fn resume(&mut self, request: &Request, reply: &Reply)
        requires fits { fits request.now (words_in reply.now) ≡ true }
        ensures relay { self.new.relay ≡ self.old.relay }
        ensures resumed { self.new.state ≡ resumed request.now (words_in reply.now) self.old.state }
        ensures reached { (program : List Insn) (context : List ℕ) (answers : List (List ℕ)) →
            Reached program context self.old.relay answers (before self.old.state) →
            step program context self.old.relay (before self.old.state) ≡ Ask request.now self.old.state →
            Reached program context self.new.relay (answers ++ words_in reply.now ∷ []) self.new.state }
        ensures of_run { (program : List Insn) (context : List ℕ) →
            IsAskOfRun program context request.now self.old → IsOfRun program context self.new }
    {
        self.replied(*request, reply);
    }

    /// Cancels the last request. The unit and the number of steps become what they were before it.
    pub fn withdraw(&mut self)
        requires { HasAsked self.old.state }
        ensures relay { self.new.relay ≡ self.old.relay }
        ensures state { self.new.state ≡ before self.old.state }
        ensures of_run { (program : List Insn) (context : List ℕ) (request : Asked) →
            IsAskOfRun program context request self.old → IsOfRun program context self.new }
    {
        self.unit -= 1;
        self.steps -= 1;
    }

    /// Gives the board's reply to the program: the words of a copy are stored on the stack, and the word of another
    /// reply goes to r0.
    pub(crate) fn replied(&mut self, request: Request, reply: &Reply)
        requires { fits request (words_in reply.now) ≡ true }
        ensures state { self.new.state ≡ resumed request (words_in reply.now) self.old.state }
        ensures relay { self.new.relay ≡ self.old.relay }
    {
        match request {
            Request::Copy { span } => self.copied(span, reply),
            Request::Get { .. }
            | Request::Swap { .. }
            | Request::Add { .. }
            | Request::Cas { .. } => self.told(reply),
        }
    }

    /// Sets r0 to the reply's only word.
    pub(crate) fn told(&mut self, reply: &Reply)
        requires { length (words_in reply.now) ≡ 1 }
        ensures state { self.new.state ≡ returned self.old.state (slice_index (words_in reply.now) 0) }
        ensures relay { self.new.relay ≡ self.old.relay }
    {
        let word = match reply {
            Reply::Word(word) => *word,
            Reply::Words(words) => words.as_slice()[0],
        };
        self.registers.set_result(word);
    }

    /// Stores the words of the reply on the stack, from the address in r2 on, and sets r0 to their number.
    pub(crate) fn copied(&mut self, span: Span, reply: &Reply)
        requires { length (words_in reply.now) ≡ span.1 }
        ensures state { self.new.state ≡ resumed (Request.Copy span) (words_in reply.now) self.old.state }
        ensures relay { self.new.relay ≡ self.old.relay }
    {
        let count = span.count();
        let to = self.registers.at(2);
        match reply {
            Reply::Word(word) => store_words(&mut self.stack, to, &[*word]),
            Reply::Words(words) => store_words(&mut self.stack, to, words.as_slice()),
        }
        self.registers.set_result(count as u64);
    }
}
