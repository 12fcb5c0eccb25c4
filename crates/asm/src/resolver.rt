//! Finishes instructions after all lines are read: names become the distances of jumps.

ghost use Rattle.std.specs.Prelude.{◌≡◌, ◌+◌, ◌^◌, ◌<◌, ◌≤◌, [], List, ℕ, length, IfOk};
ghost use Rattle.std.specs.List.{AllByRecursion};
ghost use Rattle.insn.specs.Insn.{units_of, IsWell};
ghost use Rattle.insn.specs.Program.{slots_of};
ghost use Rattle.asm.specs.Statement.{IsWellSource};
ghost use Rattle.asm.specs.Distance.{distance_of};
ghost use Rattle.asm.specs.Program.{Read, source_units, insn_of, insns_on};
ghost use Rattle.asm.specs.Views.{GivesResult, aim_view, source_view};
ghost use Rattle.asm.specs.Keeping.{Keeps, Finds, AnswersBy, AreWellKept, units_kept};

use crate::draft::{DraftInstruction, Statement, units};
use crate::fault::{AsmError, AsmFault};
use crate::number::{Number, fit16, fit32};
use crate::operand::Aim;
use crate::reader::Reading;
use insn::Insn;
use std::alloc::Global;
use std::collections::BTreeMap;

/// Returns the distance of a jump at `unit` to its target, in units, counted from the unit after the jump. Returns
/// `None` if the target is a name that is not defined.
#[tactic(auto)]
fn distance(names: &BTreeMap<&[u8], u64>, unit: u64, aim: &Aim, name: &[u8]) -> Option<Number>
    requires { unit < 4096 }
    ensures { (ds : List (List ℕ × ℕ)) → Finds names.now ds → result ≡ distance_of ds unit (aim_view aim.now name.now) }
{
    match aim {
        Aim::Away(n) => Some(*n),
        Aim::Named => {
            let target = *names.get(name)?;
            let start = unit + 1;
            if start <= target {
                Some(Number {
                    negative: false,
                    magnitude: (target - start) as u128,
                })
            } else {
                Some(Number {
                    negative: true,
                    magnitude: (start - target) as u128,
                })
            }
        }
    }
}

/// Returns an instruction with the distance of its jump. Fails with `Label` if it jumps to a name that is not defined,
/// and with `Range` if the distance is too great.
fn resolve(
    names: &BTreeMap<&[u8], u64>,
    unit: u64,
    statement: &Statement<'_>,
) -> Result<Insn, AsmFault>
    requires { unit < 4096 }
    ensures said { (ds : List (List ℕ × ℕ)) → Finds names.now ds →
        GivesResult (λ i. i) result (insn_of ds unit (source_view statement.now)) }
    ensures units { IfOk result (λ i. units_of i ≡ source_units (source_view statement.now)) }
    ensures well { IsWellSource (source_view statement.now) → IfOk result (λ i. IsWell i) }
{
    match &statement.draft {
        DraftInstruction::Plain(insn) => Ok(*insn),
        DraftInstruction::Jump(aim) => {
            let Some(n) = distance(names, unit, aim, statement.name) else {
                return Err(AsmFault::Label);
            };
            let Some(distance) = fit16(n) else {
                return Err(AsmFault::Range);
            };
            Ok(Insn::Jump { distance })
        }
        DraftInstruction::LongJump(aim) => {
            let Some(n) = distance(names, unit, aim, statement.name) else {
                return Err(AsmFault::Label);
            };
            let Some(distance) = fit32(n) else {
                return Err(AsmFault::Range);
            };
            Ok(Insn::LongJump { distance })
        }
        DraftInstruction::Branch(width, condition, dst, operand, aim) => {
            let Some(n) = distance(names, unit, aim, statement.name) else {
                return Err(AsmFault::Label);
            };
            let Some(distance) = fit16(n) else {
                return Err(AsmFault::Range);
            };
            Ok(Insn::Branch {
                width: *width,
                condition: *condition,
                dst: *dst,
                operand: *operand,
                distance,
            })
        }
    }
}

/// Returns the stored instructions with the distances of their jumps. Fails with the fault of the first jump whose name
/// is not defined or whose distance is too great, or with `Memory`.
pub fn resolve_all(alloc: Global, reading: &Reading<'_>) -> Result<Vec<Insn>, AsmError>
    requires bound { reading.now.units ≤ 4096 }
    requires units { reading.now.units ≡ units_kept reading.now.sources.items }
    requires well { AreWellKept reading.now.sources.items }
    ensures said { (r : Read) → Keeps reading.now r →
        AnswersBy (λ v. v.items) result (insns_on r.names 0 [] r.sources) }
    ensures units { IfOk result (λ v. length (slots_of v.items) ≡ units_kept reading.now.sources.items) }
    ensures well { IfOk result (λ v. AllByRecursion IsWell v.items) }
{
    let mut insns = Vec::with_capacity(alloc, reading.sources.len())?;
    let mut unit = 0;
    for kept in &reading.sources {
        match resolve(&reading.names, unit, &kept.statement) {
            Ok(insn) => insns.push(insn)?,
            Err(fault) => return Err(AsmError::At(fault, kept.line)),
        }
        unit += units(&kept.statement);
    }
    Ok(insns)
}
