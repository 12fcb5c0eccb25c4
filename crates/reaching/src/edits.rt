//! Tries small changes of a rejected program: makes the change at one instruction, and asks the verifier how far it now
//! comes.
ghost use Rattle.std.specs.Prelude.{◌≡◌, ◌≤◌, ◌<◌, ◌+◌, ◌++◌, ◌∷◌, [], ◌&&◌, ◌+ℤ◌, ◌<ℤ◌, pos, int_lt, length, IfOk, OnOk, IsTrue};
ghost use Rattle.insn.specs.Program.{slots_of, most_units};
ghost use Rattle.verify.specs.Judgement.{judged};
ghost use Rattle.reaching.specs.Mends.{grown, longer, stretched, wide, masked, put_at, passed, edited, mended, comes, tried, ComesBy};

use insn::{Insn, Operand, Program, Reg};
use std::alloc::{AllocError, Global};
use verify::{VerifyError, verify};
use word::{Operation, Width};

/// A change of a program at one instruction, which may make the verifier accept it.
#[derive(Clone, Copy)]
pub enum Edit {
    /// A 64-bit operation is inserted before the instruction.
    Before(Operation, Reg, Operand),
    /// A 64-bit operation replaces the instruction.
    Instead(Operation, Reg, Operand),
    /// A number is added to a pointer in the pointer's register, and then the number's register gets a copy of the
    /// pointer. These instructions replace the original one. If there is a mask, the number is masked first. The fields
    /// are the mask, the number's register and the pointer's.
    Moved(Option<i32>, Reg, Reg),
}

/// How far the verifier comes in a changed program, compared with the unit at which it rejected the original.
#[derive(Clone, Copy, PartialEq, Eq)]
pub enum Trial {
    /// The verifier rejects the changed program at this unit or an earlier one.
    Refused,
    /// The verifier rejects the changed program, but at a later unit.
    Passes,
    /// The verifier accepts the changed program.
    Accepted,
}

/// Checks whether a jump at `unit` leads to a unit after `place`, with a distance of less than 4,096 units.
fn is_over(place: usize, unit: usize, distance: i32) -> bool
    requires unit { unit < 4096 }
    requires place { place < 4096 }
    ensures over { result ≡ (int_lt (pos place) (pos (unit + 1) +ℤ distance) && int_lt distance (pos most_units)) }
    ensures few { IsTrue result → distance <ℤ pos 4096 }
{
    let to = unit as i64 + 1 + i64::from(distance);
    to > place as i64 && distance < 4096
}

/// Returns the new distance of a jump at `unit` after `more` units are inserted at `place`: greater by `more` if the
/// jump leads over `place`, and otherwise `distance`.
fn longer(more: u8, place: usize, unit: usize, distance: i16) -> i16
    requires more { more ≤ 2 }
    requires unit { unit < 4096 }
    requires place { place < 4096 }
    ensures { result ≡ longer more place unit distance }
{
    if is_over(place, unit, i32::from(distance)) {
        distance + i16::from(more)
    } else {
        distance
    }
}

/// Returns the new distance of a long jump at `unit` after `more` units are inserted at `place`: greater by `more` if
/// the jump leads over `place`, and otherwise `distance`.
fn longer_wide(more: u8, place: usize, unit: usize, distance: i32) -> i32
    requires more { more ≤ 2 }
    requires unit { unit < 4096 }
    requires place { place < 4096 }
    ensures { result ≡ longer more place unit distance }
{
    if is_over(place, unit, distance) {
        distance + i32::from(more)
    } else {
        distance
    }
}

/// Returns the instruction at `unit` after `more` units are inserted at `place`. If it is a jump over `place`, its
/// distance is greater by `more`.
fn stretched(more: u8, place: usize, unit: usize, insn: Insn) -> Insn
    requires more { more ≤ 2 }
    requires unit { unit < 4096 }
    requires place { place < 4096 }
    ensures { result ≡ stretched more place unit insn }
{
    match insn {
        Insn::Jump { distance } => Insn::Jump {
            distance: longer(more, place, unit, distance),
        },
        Insn::LongJump { distance } => Insn::LongJump {
            distance: longer_wide(more, place, unit, distance),
        },
        Insn::Branch {
            width,
            condition,
            dst,
            operand,
            distance,
        } => Insn::Branch {
            width,
            condition,
            dst,
            operand,
            distance: longer(more, place, unit, distance),
        },
        _ => insn,
    }
}

/// Returns the instruction for a 64-bit operation on a register and an operand.
pub fn operation_of(operation: Operation, dst: Reg, operand: Operand) -> Insn
    ensures { result ≡ wide operation dst operand }
{
    Insn::Arithmetic {
        width: Width::W64,
        operation,
        dst,
        operand,
    }
}

impl Edit {
    /// Returns the number of units by which the edit makes a program longer, 0 to 2.
    pub fn grown(self) -> u8
        ensures grown { result ≡ grown self }
        ensures few { result ≤ 2 }
    {
        match self {
            Edit::Before(..) | Edit::Moved(None, _, _) => 1,
            Edit::Instead(..) => 0,
            Edit::Moved(Some(_), _, _) => 2,
        }
    }
}

/// Appends an instruction to a list of instructions. Fails only if memory runs out.
fn push_one(insns: &mut Vec<Insn>, insn: Insn) -> Result<(), AllocError>
    ensures { OnOk result (insns.new.items ≡ insns.old.items ++ insn ∷ []) }
{
    insns.extend_from_slice(&[insn])?;
    Ok(())
}

/// Appends the instruction that applies a mask to the number in a register. Appends nothing if there is no mask.
fn push_mask(insns: &mut Vec<Insn>, mask: Option<i32>, number: Reg) -> Result<(), AllocError>
    ensures { OnOk result (insns.new.items ≡ insns.old.items ++ masked mask number) }
{
    let Some(mask) = mask else {
        return Ok(());
    };
    push_one(
        insns,
        operation_of(Operation::And, number, Operand::Immediate(mask)),
    )
}

/// Appends the instructions that add a number to a pointer and copy the sum to the number's register. If there is a
/// mask, it is applied to the number first.
fn push_moved(
    insns: &mut Vec<Insn>,
    mask: Option<i32>,
    number: Reg,
    pointer: Reg,
    insn: &Insn,
) -> Result<(), AllocError>
    ensures { OnOk result (insns.new.items ≡ insns.old.items ++ put_at (Edit.Moved mask number pointer) insn.now) }
{
    push_mask(insns, mask, number)?;
    push_one(
        insns,
        operation_of(Operation::Add, pointer, Operand::Register(number)),
    )?;
    push_one(
        insns,
        operation_of(Operation::Move, number, Operand::Register(pointer)),
    )
}

/// Appends the instructions that replace `insn` when a program is changed at this instruction.
fn push_at(insns: &mut Vec<Insn>, edit: &Edit, insn: &Insn) -> Result<(), AllocError>
    ensures { OnOk result (insns.new.items ≡ insns.old.items ++ put_at edit.now insn.now) }
{
    match edit {
        Edit::Before(operation, dst, operand) => {
            push_one(insns, operation_of(*operation, *dst, *operand))?;
            push_one(insns, *insn)
        }
        Edit::Instead(operation, dst, operand) => {
            push_one(insns, operation_of(*operation, *dst, *operand))
        }
        Edit::Moved(mask, number, pointer) => push_moved(insns, *mask, *number, *pointer, insn),
    }
}

/// Returns the instruction at `unit` in a program that is changed at another unit, `place`. A jump over `place` becomes
/// longer by the units that the change inserts.
fn passed(edit: &Edit, place: usize, unit: usize, insn: Insn) -> Insn
    requires unit { unit < 4096 }
    requires place { place < 4096 }
    ensures { result ≡ passed edit.now place unit insn }
{
    if unit < place {
        stretched(edit.grown(), place, unit, insn)
    } else {
        insn
    }
}

/// Appends the instructions that replace `insn`, the instruction at `unit`, when a program is changed at `place`.
fn push_edited(
    insns: &mut Vec<Insn>,
    edit: &Edit,
    place: usize,
    unit: usize,
    insn: &Insn,
) -> Result<(), AllocError>
    requires unit { unit < 4096 }
    requires place { place < 4096 }
    ensures { OnOk result (insns.new.items ≡ insns.old.items ++ edited edit.now place unit insn.now) }
{
    if unit == place {
        push_at(insns, edit, insn)
    } else {
        push_one(insns, passed(edit, place, unit, *insn))
    }
}

/// Returns the instructions of a program after a change at unit `place`. Fails if memory runs out.
fn mended(alloc: Global, insns: &[Insn], edit: &Edit, place: usize) -> Result<Vec<Insn>, AllocError>
    requires place { place < 4096 }
    requires units { length (slots_of insns.now) ≤ 4096 }
    ensures mended { IfOk result (λ vec. vec.items ≡ mended edit.now place 0 insns.now) }
    ensures few { IfOk result (λ vec. length vec.items ≤ 12288) }
{
    let mut out = Vec::with_capacity(alloc, insns.len() + 2)?;
    let mut unit = 0;
    for insn in insns {
        push_edited(&mut out, edit, place, unit, insn)?;
        unit += insn.units() as usize;
    }
    Ok(out)
}

/// Returns how many units the instructions take. A unit has 8 bytes.
fn units_of(insns: &[Insn]) -> usize
    requires { length insns.now ≤ 12288 }
    ensures { result ≡ length (slots_of insns.now) }
{
    let mut units = 0;
    for insn in insns {
        units += insn.units() as usize;
    }
    units
}

/// Returns how far the verifier comes, compared with `unit`, in a program that it rejects with this error. Fails if the
/// verifier ran out of memory.
fn come_by(fault: VerifyError, unit: usize) -> Result<Trial, AllocError>
    ensures { ComesBy unit fault result }
{
    match fault {
        VerifyError::Memory => Err(AllocError),
        VerifyError::At(_, place) if unit < place => Ok(Trial::Passes),
        VerifyError::At(_, _) => Ok(Trial::Refused),
    }
}

/// Verifies a program, and returns how far the verifier comes, compared with `unit`. Fails if memory runs out.
#[tactic(auto, using(crate::proofs::ComingLemmas::came))]
fn come(alloc: Global, program: Program, unit: usize) -> Result<Trial, AllocError>
    ensures { IfOk result (λ trial. trial ≡ comes unit (judged program)) }
{
    match verify(alloc, program) {
        Ok(_verified) => Ok(Trial::Accepted),
        Err(refused) => come_by(refused.fault, unit),
    }
}

/// Changes a program at unit `place`, verifies it, and returns whether the verifier rejects it at `unit` or earlier,
/// rejects it later, or accepts it. A changed program without units, or with more than 4,096, counts as rejected at
/// `unit`. Fails if memory runs out.
pub fn tried(
    alloc: Global,
    program: &Program,
    edit: &Edit,
    place: usize,
    unit: usize,
) -> Result<Trial, AllocError>
    requires { place < 4096 }
    ensures { IfOk result (λ trial. trial ≡ tried edit.now place program.now unit) }
{
    let _units = program.units();
    let insns = mended(alloc, program.instructions(), edit, place)?;
    let units = units_of(insns.as_slice());
    if units == 0 || units > Program::MOST_UNITS {
        return Ok(Trial::Refused);
    }
    come(alloc, Program::new(alloc, insns)?, unit)
}
