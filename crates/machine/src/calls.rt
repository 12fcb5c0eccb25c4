//! Executes calls of helpers. The callers must know that the call does not trap.
ghost use Rattle.std.specs.Prelude.{◌≡◌, ◌<◌, ◌+◌, ◌-◌, ◌^◌, IsOk, Ok};
ghost use Rattle.semantics.specs.State.{Next};
ghost use Rattle.semantics.specs.Call.{helper_of, called, slot_in, get_in, swap_in, add_in, cas_in, copy_in, send_in, send_row_in, sway_in, honest_in, sign_in, pass_in, returned, sent, attempted};
ghost use Rattle.machine.specs.Turn.{Turns, Asks, IsFree};

use crate::arguments::{argument, order, pointer, word};
use crate::flow::Flow;
use crate::machine::Machine;
use helper::{BOARD_WORDS, MOST_GENERALS, MOST_HELD, MOST_LABELS, RECEIVER_SETS, helper_of};
use mem::{Context, load_row};
use semantics::{Helper, Request, Slot, Span};

impl Machine {
    /// Calls the helper with this number. Returns `Flow::Onward` if the program continues, or the request whose answer
    /// it waits for.
    #[inline(never)]
    pub(crate) fn call(&mut self, context: &Context, number: i32) -> Flow
        requires free { IsFree (called context.now self.old.relay self.old.state (helper_of number)) }
        requires inside { self.old.state.unit < 4096 }
        requires room { self.old.state.steps + 1 < 2 ^ 32 }
        ensures turns { Turns (called context.now self.old.relay self.old.state
            (helper_of number)) result self.new.state }
        ensures relay { self.new.relay ≡ self.old.relay }
        ensures counts { self.new.state.steps ≡ self.old.state.steps + 1 }
        ensures asks { Asks self.old.state result self.new.state }
    {
        let Some(helper) = helper_of(number) else {
            unreachable!()
        };
        match helper {
            Helper::BoardGet => {
                let request = self.get();
                self.ask(request)
            }
            Helper::BoardSwap => {
                let request = self.swap();
                self.ask(request)
            }
            Helper::BoardAdd => {
                let request = self.add();
                self.ask(request)
            }
            Helper::BoardCas => {
                let request = self.cas();
                self.ask(request)
            }
            Helper::BoardCopy => {
                let request = self.copy();
                self.ask(request)
            }
            Helper::Send => self.send(),
            Helper::SendRow => self.send_row(context),
            Helper::Sway => self.sway(),
            Helper::Honest => self.honest(context),
            Helper::SignOrder => self.sign_order(),
            Helper::PassOn => self.pass_on(),
        }
    }

    /// Makes a request to the board. The call counts as a step, and the program then waits at the next unit.
    fn ask(&mut self, request: Request) -> Flow
        requires inside { self.old.state.unit < 4096 }
        requires room { self.old.state.steps + 1 < 2 ^ 32 }
        ensures flow { result ≡ Flow.Asked request }
        ensures asked { self.new.state ≡ record self.old.state {
          unit = self.old.state.unit + 1;
          steps = self.old.state.steps + 1;
        } }
        ensures relay { self.new.relay ≡ self.old.relay }
    {
        self.unit += 1;
        self.steps += 1;
        Flow::Asked(request)
    }

    /// Returns the request that a call of `board_get` makes: to read the slot in r1.
    fn get(&self) -> Request
        requires { IsOk (get_in self.now.state) }
        ensures { get_in self.now.state ≡ Ok result }
    {
        let slot = self.slot();
        Request::Get { slot }
    }

    /// Returns the request that a call of `board_swap` makes: to replace the slot in r1 by the word in r2.
    fn swap(&self) -> Request
        requires { IsOk (swap_in self.now.state) }
        ensures { swap_in self.now.state ≡ Ok result }
    {
        let slot = self.slot();
        let value = word(self.registers.at(2));
        Request::Swap { slot, value }
    }

    /// Returns the request that a call of `board_add` makes: to add the word in r2 to the slot in r1.
    fn add(&self) -> Request
        requires { IsOk (add_in self.now.state) }
        ensures { add_in self.now.state ≡ Ok result }
    {
        let slot = self.slot();
        let value = word(self.registers.at(2));
        Request::Add { slot, value }
    }

    /// Returns the request that a call of `board_cas` makes: to replace the slot in r1 by the word in r3 if it has the
    /// word in r2.
    fn cas(&self) -> Request
        requires { IsOk (cas_in self.now.state) }
        ensures { cas_in self.now.state ≡ Ok result }
    {
        let slot = self.slot();
        let expected = word(self.registers.at(2));
        let new = word(self.registers.at(3));
        Request::Cas {
            slot,
            expected,
            new,
        }
    }

    /// Returns the request that a call of `board_copy` makes: to read as many slots as r3 says, from the slot in r1 on.
    fn copy(&self) -> Request
        requires { IsOk (copy_in self.now.state) }
        ensures { copy_in self.now.state ≡ Ok result }
    {
        let slot = argument(self.registers.at(1), BOARD_WORDS);
        let _to = pointer(self.registers.at(2));
        let count = argument(self.registers.at(3), BOARD_WORDS + 1);
        let Some(span) = Span::new(slot, count) else {
            unreachable!()
        };
        Request::Copy { span }
    }

    /// Returns the slot of the board that r1 names.
    fn slot(&self) -> Slot
        requires { IsOk (slot_in self.now.state) }
        ensures { slot_in self.now.state ≡ Ok result }
    {
        let Some(slot) = Slot::new(argument(self.registers.at(1), BOARD_WORDS)) else {
            unreachable!()
        };
        slot
    }

    /// Executes `send`: sets the order for one label and one receiver. r0 becomes 0, or 1 if the outbox has no such
    /// place.
    fn send(&mut self) -> Flow
        requires free { IsOk (send_in self.old.state) }
        requires inside { self.old.state.unit < 4096 }
        requires room { self.old.state.steps + 1 < 2 ^ 32 }
        ensures flow { result ≡ Flow.Onward }
        ensures next { sent self.old.relay self.old.state (λ set. 1 - set) (send_in self.old.state)
            ≡ Next self.new.state }
        ensures relay { self.new.relay ≡ self.old.relay }
    {
        let rank = argument(self.registers.at(1), MOST_LABELS) as u32;
        let receiver = argument(self.registers.at(2), MOST_GENERALS) as u32;
        let order = order(self.registers.at(3));
        semantics::few_places_are_set();
        let there = self.outbox.put(rank, receiver, order);
        self.go_on(if there { 0 } else { 1 })
    }

    /// Executes `send_row`: reads orders from memory, and sets them for one label and its first receivers. r0 becomes
    /// the number of orders set.
    fn send_row(&mut self, context: &Context) -> Flow
        requires free { IsOk (send_row_in context.now self.old.state) }
        requires inside { self.old.state.unit < 4096 }
        requires room { self.old.state.steps + 1 < 2 ^ 32 }
        ensures flow { result ≡ Flow.Onward }
        ensures next { sent self.old.relay self.old.state (λ set. set) (send_row_in context.now self.old.state)
            ≡ Next self.new.state }
        ensures relay { self.new.relay ≡ self.old.relay }
    {
        let rank = argument(self.registers.at(1), MOST_LABELS) as u32;
        let from = pointer(self.registers.at(2));
        let count = argument(self.registers.at(3), MOST_GENERALS + 1) as usize;
        let Ok(orders) = load_row(&self.stack, context, from, count) else {
            unreachable!()
        };
        let set = self.outbox.put_row(rank, &orders[..count]);
        self.go_on(u64::from(set))
    }

    /// Executes `sway`: sets the order for each label and one receiver to the same value. r0 becomes the number of
    /// orders set.
    fn sway(&mut self) -> Flow
        requires free { IsOk (sway_in self.old.state) }
        requires inside { self.old.state.unit < 4096 }
        requires room { self.old.state.steps + 1 < 2 ^ 32 }
        ensures flow { result ≡ Flow.Onward }
        ensures next { sent self.old.relay self.old.state (λ set. set) (sway_in self.old.state) ≡ Next self.new.state }
        ensures relay { self.new.relay ≡ self.old.relay }
    {
        let receiver = argument(self.registers.at(1), MOST_GENERALS) as u32;
        let order = order(self.registers.at(2));
        let set = self.outbox.sway(receiver, order);
        self.go_on(u64::from(set))
    }

    /// Executes `honest`: sets the order for each label and one receiver to the value that the general took for the
    /// label, as a loyal general does. r0 becomes the number of orders set.
    fn honest(&mut self, context: &Context) -> Flow
        requires free { IsOk (honest_in context.now self.old.state) }
        requires inside { self.old.state.unit < 4096 }
        requires room { self.old.state.steps + 1 < 2 ^ 32 }
        ensures flow { result ≡ Flow.Onward }
        ensures next { sent self.old.relay self.old.state (λ set. set) (honest_in context.now self.old.state)
            ≡ Next self.new.state }
        ensures relay { self.new.relay ≡ self.old.relay }
    {
        let receiver = argument(self.registers.at(1), MOST_GENERALS) as u32;
        let set = self.outbox.honest(context.bytes(), receiver);
        self.go_on(u64::from(set))
    }

    /// Executes `sign_order`: enters in the outbox an order, signed by the general. r0 becomes 0, or 1 if it is not
    /// entered.
    fn sign_order(&mut self) -> Flow
        requires free { IsOk (sign_in self.old.state) }
        requires inside { self.old.state.unit < 4096 }
        requires room { self.old.state.steps + 1 < 2 ^ 32 }
        ensures flow { result ≡ Flow.Onward }
        ensures next { attempted self.old.relay self.old.state (sign_in self.old.state) ≡ Next self.new.state }
        ensures relay { self.new.relay ≡ self.old.relay }
    {
        let order = order(self.registers.at(1));
        let receivers = argument(self.registers.at(2), RECEIVER_SETS) as u16;
        let taken = self.outbox.sign(order, receivers);
        self.go_on(if taken { 0 } else { 1 })
    }

    /// Executes `pass_on`: enters in the outbox a chain that the general holds, with his signature added. r0 becomes 0,
    /// or 1 if it is not entered.
    fn pass_on(&mut self) -> Flow
        requires free { IsOk (pass_in self.old.state) }
        requires inside { self.old.state.unit < 4096 }
        requires room { self.old.state.steps + 1 < 2 ^ 32 }
        ensures flow { result ≡ Flow.Onward }
        ensures next { attempted self.old.relay self.old.state (pass_in self.old.state) ≡ Next self.new.state }
        ensures relay { self.new.relay ≡ self.old.relay }
    {
        let held = argument(self.registers.at(1), MOST_HELD) as u16;
        let receivers = argument(self.registers.at(2), RECEIVER_SETS) as u16;
        let taken = self.outbox.pass(held, receivers);
        self.go_on(if taken { 0 } else { 1 })
    }

    /// Completes a call: sets r0 to its result, unsets r1 to r5, and moves to the next unit.
    fn go_on(&mut self, r0: u64) -> Flow
        requires inside { self.old.state.unit < 4096 }
        requires room { self.old.state.steps + 1 < 2 ^ 32 }
        ensures flow { result ≡ Flow.Onward }
        ensures state { self.new.state ≡ record (returned self.old.state r0) {
          unit = self.old.state.unit + 1;
          steps = self.old.state.steps + 1;
        } }
        ensures relay { self.new.relay ≡ self.old.relay }
    {
        self.registers.set_result(r0);
        self.unit += 1;
        self.steps += 1;
        Flow::Onward
    }
}
