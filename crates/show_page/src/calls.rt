//! Writes the helper calls of a program with the helpers' names, as assembly does.
ghost use Rattle.std.specs.Prelude.{◌≡◌, [], IfOk, string_bytes};
ghost use Rattle.explain.specs.Explained.{explained_at};
ghost use Rattle.explain.specs.Units.{in_lists};
ghost use Rattle.show_page.specs.Calls.{call_if, call_of, call_text, named_calls};

use explain::{UnitTexts, explanation_at, helper_name};
use helper::{Helper, helper_of};
use insn::{Insn, Program};
use std::alloc::{AllocError, Global};

/// Returns the explanation of a program: what the verifier knows at each unit. Calls are written with the names of
/// their helpers.
pub(crate) fn explanation(alloc: Global, program: &Program) -> Result<String, AllocError>
    ensures { IfOk result (λ text. string_bytes text ≡ explained_at (named_calls program.now) program.now) }
{
    let statements = statements(alloc, program)?;
    let written = UnitTexts {
        places: &[],
        statements: statements.as_slice(),
    };
    explanation_at(alloc, program, &written)
}

/// Returns for each unit of a program the text of its call, such as `call sway`. The text is empty for a unit without a
/// call.
#[tactic(auto, using(crate::proofs::CallLemmas::naming))]
fn statements(alloc: Global, program: &Program) -> Result<Vec<String>, AllocError>
    ensures { IfOk result (λ texts. in_lists [] texts.items ≡ named_calls program.now) }
{
    let mut statements = Vec::with_capacity(alloc, program.units())?;
    for unit in 0..program.units() {
        let text = call_if(alloc, program.at(unit))?;
        statements.push(text)?;
    }
    Ok(statements)
}

/// Returns the text of an instruction that is a call of a helper, such as `call sway`. Returns an empty text for
/// another instruction, or if no instruction starts at the unit, so that `insn` is `None`.
fn call_if(alloc: Global, insn: Option<Insn>) -> Result<String, AllocError>
    ensures { IfOk result (λ text. string_bytes text ≡ call_if insn) }
{
    match insn {
        Some(insn) => call_text(alloc, insn),
        None => Ok(String::new(alloc)),
    }
}

/// Returns the text of an instruction that is a call of a helper, such as `call sway`, and an empty text for another
/// instruction.
fn call_text(alloc: Global, insn: Insn) -> Result<String, AllocError>
    ensures { IfOk result (λ text. string_bytes text ≡ call_text insn) }
{
    match insn {
        Insn::Call { helper } => call_of(alloc, helper_of(helper)),
        _ => Ok(String::new(alloc)),
    }
}

/// Returns the text of a call of the helper, such as `call sway`, or an empty text if there is no such helper.
fn call_of(alloc: Global, helper: Option<Helper>) -> Result<String, AllocError>
    ensures { IfOk result (λ text. string_bytes text ≡ call_of helper) }
{
    match helper {
        Some(helper) => {
            let name = helper_name(helper);
            format!(in alloc; "call {name}")
        }
        None => Ok(String::new(alloc)),
    }
}
