//! A program that waits for the board's answer to its request.
ghost use Rattle.std.specs.Prelude.{◌≡◌, List, ℕ, true};
ghost use Rattle.insn.specs.declared.insn.Insn.{Insn};
ghost use Rattle.semantics.specs.Call.{fits, resumed};
ghost use Rattle.semantics.specs.Replies.{words_in};
ghost use Rattle.machine.specs.Standing.{before, HasAsked};
ghost use Rattle.machine.specs.Advance.{IsOfRun, IsAskOfRun};

use crate::activation::Activation;
use crate::machine::Machine;
use semantics::{Reply, Request};
use std::marker::Model;

/// A program that waits for the board's answer. Contracts see it as its request and its state after the request.
/// [`Waiting::answer`] and [`Waiting::cancel`] consume it, so that a request is answered only once.
#[derive(Drop)]
pub struct Waiting {
    pub(crate) request: Request,
    pub(crate) machine: Machine,
}

impl Model for Waiting {
    ghost use Rattle.machine.specs.Asking.{Asking};
    ghost use Rattle.machine.specs.Standing.{HasAsked};

    ghost Value = { Asking };

    ghost view = { λ w. record { request = w.request; standing = w.machine } };

    ghost invariant = { λ w. HasAsked w.machine.state };
}

impl Waiting {
    /// Returns the program of `machine`, which has just made this request, as one that waits for the answer.
    pub(crate) fn of(request: Request, machine: Machine) -> Waiting
        requires { HasAsked machine.state }
        ensures request { result.request ≡ request }
        ensures standing { result.standing ≡ machine }
    {
        Waiting { request, machine }
    }

    /// Returns the program's request.
    pub fn request(&self) -> Request
        ensures { result ≡ self.now.request }
    {
        self.request
    }

    /// Returns the number of steps taken so far, including the request.
    pub fn steps(&self) -> u32
        ensures { result ≡ self.now.standing.state.steps }
    {
        self.machine.steps()
    }

    /// Gives the program the board's reply to its request, and returns it as an activation that can be run further. The
    /// reply must have as many words as the request asks for.
    pub fn answer(self, reply: Reply) -> Activation
        requires fits { fits self.request (words_in reply) ≡ true }
        ensures relay { result.relay ≡ self.standing.relay }
        ensures resumed { result.state ≡ resumed self.request (words_in reply) self.standing.state }
        ensures of_run { (program : List Insn) (context : List ℕ) →
            IsAskOfRun program context self.request self.standing → IsOfRun program context result }
    {
        let Waiting {
            request,
            mut machine,
        } = self;
        machine.resume(&request, &reply);
        Activation { machine }
    }

    /// Cancels the request. The unit and the number of steps become what they were before it.
    pub fn cancel(self) -> Activation
        ensures relay { result.relay ≡ self.standing.relay }
        ensures state { result.state ≡ before self.standing.state }
        ensures of_run { (program : List Insn) (context : List ℕ) →
            IsAskOfRun program context self.request self.standing → IsOfRun program context result }
    {
        let Waiting { mut machine, .. } = self;
        machine.withdraw();
        Activation { machine }
    }
}
