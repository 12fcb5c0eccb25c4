//! A rule program: a verified program without calls, which combines a list of orders into one.
ghost use Rattle.std.specs.Prelude.{◌≡◌, ◌<◌, ◌≤◌, length, IfOk, IfErr};
ghost use Rattle.rule_program.specs.Calls.{IsRuleProgram, IsFirstCall};
ghost use Rattle.rule_program.specs.Evaluation.{evaluated};

use crate::program_calls::first_call;
use crate::program_run::exit_value;
use mem::{Context, context_telling};
use std::alloc::{AllocError, Global};
use std::marker::Model;
use verify::Verified;

/// The reason why a verified program is not a rule: it calls a helper.
#[derive(Clone, Copy, Debug, PartialEq, Eq, Drop)]
pub struct CallFound {
    /// The unit at which the first call starts.
    pub unit: usize,
}

/// A verified program that calls no helper. Contracts see it as the list of its instructions.
#[derive(Drop)]
pub struct RuleProgram {
    verified: Verified,
}

impl Model for RuleProgram {
    ghost use Rattle.std.specs.Prelude.{List};
    ghost use Rattle.insn.specs.declared.insn.Insn.{Insn};
    ghost use Rattle.rule_program.specs.Calls.{IsRuleProgram};

    ghost Value = { List Insn };

    ghost view = { λ rule. rule.verified };

    ghost invariant = { λ rule. IsRuleProgram rule.verified };
}

impl RuleProgram {
    /// Returns the verified program as a rule.
    ///
    /// # Errors
    ///
    /// Fails with the unit of the first call if the program calls a helper.
    pub fn try_new(verified: Verified) -> Result<RuleProgram, CallFound>
        ensures same { IfOk result (λ rule. rule ≡ verified) }
        ensures callless { IfOk result IsRuleProgram }
        ensures call { IfErr result (λ found. IsFirstCall verified found.unit) }
    {
        match first_call(verified.program()) {
            Some(unit) => Err(CallFound { unit }),
            None => Ok(RuleProgram { verified }),
        }
    }

    /// Returns the order, 0 or 1, to which the program combines at most 1,000 orders. The program finds the number of
    /// orders at offset 20 of its context, and the orders from offset 32 on. The result is 1 if it leaves 1 in r0, and
    /// otherwise RETREAT, which is 0.
    ///
    /// # Errors
    ///
    /// Fails with `AllocError` if there is no memory for the context.
    pub fn evaluate(&self, alloc: Global, orders: &[u32]) -> Result<u32, AllocError>
        requires { length orders.now ≤ 1000 }
        ensures value { IfOk result (λ order. order ≡ evaluated self.now orders.now) }
        ensures two { IfOk result (λ order. order < 2) }
    {
        let header = [0, 0, 0, 0, 0, orders.len() as u32, 0, 0];
        let bytes = context_telling(alloc, &header, orders)?;
        let context = Context::new(bytes.as_slice());
        let r0 = exit_value(alloc, &self.verified, &context)?;
        Ok(u32::from(r0 == 1))
    }
}
