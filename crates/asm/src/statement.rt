//! Reads an instruction from the words of a line, with one function for each kind of instruction.

ghost use Rattle.std.specs.Prelude.{◌≡◌, map, [], Some, None, IfSome, IfNone};
ghost use Rattle.asm.specs.declared.mnemonic.Mnemonic.TheVariants as words;
ghost use Rattle.asm.specs.Statement.{Plain, source_of, none_of, one_of, two_of, three_of, statement_of};
ghost use Rattle.asm.specs.Views.{GivesOption, GivesResult, source_view, statement_view};

use crate::draft::{DraftInstruction, Statement};
use crate::fault::AsmFault;
use crate::helper::helper_named;
use crate::mnemonic::{Mnemonic, read_mnemonic};
use crate::number::{fit16, fit32, fit64, read_number};
use crate::operand::{fit, letter, place, read_raw, register, target};
use insn::{Insn, Operand, Size};
use word::{ByteOrder, Condition, Narrow, Operation, SwapSize, Width};

/// Returns `Some` if there are no operands, and otherwise `None`.
#[tactic(auto, unfolding(crate::specs::Statement::none_of))]
fn no_operand<'a>(operands: &[&'a [u8]]) -> Option<()>
    ensures some { IfSome result (λ _. none_of (map (λ r. r.now) operands.now) ≡ Some []) }
    ensures none { IfNone result (none_of (map (λ r. r.now) operands.now) ≡ None) }
{
    match operands {
        [] => Some(()),
        [_, ..] => None,
    }
}

/// Returns the operand if there is exactly one, and otherwise `None`.
#[tactic(auto, unfolding(crate::specs::Statement::one_of))]
fn one_operand<'a>(operands: &[&'a [u8]]) -> Option<&'a [u8]>
    ensures { GivesOption (λ r. r.now) result (one_of (map (λ r. r.now) operands.now)) }
{
    match operands {
        [] => None,
        [a] => Some(*a),
        [_, _, ..] => None,
    }
}

/// Returns the operands if there are exactly two, and otherwise `None`.
#[tactic(auto, unfolding(crate::specs::Statement::two_of))]
fn two_operands<'a>(operands: &[&'a [u8]]) -> Option<(&'a [u8], &'a [u8])>
    ensures { GivesOption (λ r. (r.0.now, r.1.now)) result (two_of (map (λ r. r.now) operands.now)) }
{
    match operands {
        [] => None,
        [_] => None,
        [a, b] => Some((*a, *b)),
        [_, _, _, ..] => None,
    }
}

/// Returns the operands if there are exactly three, and otherwise `None`.
#[tactic(auto, unfolding(crate::specs::Statement::three_of))]
fn three_operands<'a>(operands: &[&'a [u8]]) -> Option<(&'a [u8], &'a [u8], &'a [u8])>
    ensures { GivesOption (λ r. (r.0.now, r.1.now, r.2.now)) result (three_of (map (λ r. r.now) operands.now)) }
{
    match operands {
        [] => None,
        [_] => None,
        [_, _] => None,
        [a, b, c] => Some((*a, *b, *c)),
        [_, _, _, _, ..] => None,
    }
}

/// Returns an instruction that does not jump to a name, as the assembler stores it.
fn plain<'a>(insn: Insn) -> Statement<'a>
    ensures { source_view result ≡ Plain insn }
{
    Statement {
        draft: DraftInstruction::Plain(insn),
        name: &[],
    }
}

/// Reads the operands of an arithmetic instruction, such as `r1, r2` or `r1, 8`. Fails with `Operand` or `Range`.
fn arithmetic<'a>(
    width: Width,
    operation: Operation,
    operands: &[&'a [u8]],
) -> Result<Statement<'a>, AsmFault>
    ensures { GivesResult source_view result
        (source_of (words.Arithmetic width operation) (map (λ r. r.now) operands.now)) }
{
    let Some((a, b)) = two_operands(operands) else {
        return Err(AsmFault::Operand);
    };
    let Some(dst) = register(a) else {
        return Err(AsmFault::Operand);
    };
    let Some(raw) = read_raw(b) else {
        return Err(AsmFault::Operand);
    };
    let Some(operand) = fit(raw) else {
        return Err(AsmFault::Range);
    };
    Ok(plain(Insn::Arithmetic {
        width,
        operation,
        dst,
        operand,
    }))
}

/// Reads the operand of a negation, such as `r1`. Fails with `Operand`.
fn negate<'a>(width: Width, operands: &[&'a [u8]]) -> Result<Statement<'a>, AsmFault>
    ensures { GivesResult source_view result (source_of (words.Negate width) (map (λ r. r.now) operands.now)) }
{
    let Some(a) = one_operand(operands) else {
        return Err(AsmFault::Operand);
    };
    let Some(dst) = register(a) else {
        return Err(AsmFault::Operand);
    };
    Ok(plain(Insn::Negate { width, dst }))
}

/// Reads the operands of a move with sign extension, such as `r1, r2`. Fails with `Operand`.
fn sign_extend<'a>(
    width: Width,
    part: Narrow,
    operands: &[&'a [u8]],
) -> Result<Statement<'a>, AsmFault>
    ensures { GivesResult source_view result (source_of (words.SignExtend width part) (map (λ r. r.now) operands.now)) }
{
    let Some((first, second)) = two_operands(operands) else {
        return Err(AsmFault::Operand);
    };
    let Some(dst) = register(first) else {
        return Err(AsmFault::Operand);
    };
    let Some(src) = register(second) else {
        return Err(AsmFault::Operand);
    };
    Ok(plain(Insn::SignExtend {
        width,
        part,
        dst,
        src,
    }))
}

/// Reads the operand of a byte swap, such as `r1`. Fails with `Operand`.
fn swap<'a>(
    order: ByteOrder,
    size: SwapSize,
    operands: &[&'a [u8]],
) -> Result<Statement<'a>, AsmFault>
    ensures { GivesResult source_view result (source_of (words.Swap order size) (map (λ r. r.now) operands.now)) }
{
    let Some(a) = one_operand(operands) else {
        return Err(AsmFault::Operand);
    };
    let Some(dst) = register(a) else {
        return Err(AsmFault::Operand);
    };
    Ok(plain(Insn::Swap { order, size, dst }))
}

/// Reads the operands of the wide instruction, a register and a 64-bit number, such as `r1, 8`. Fails with `Operand` or
/// `Range`.
fn load_immediate<'a>(operands: &[&'a [u8]]) -> Result<Statement<'a>, AsmFault>
    ensures { GivesResult source_view result (source_of words.LoadImmediate (map (λ r. r.now) operands.now)) }
{
    let Some((a, b)) = two_operands(operands) else {
        return Err(AsmFault::Operand);
    };
    let Some(dst) = register(a) else {
        return Err(AsmFault::Operand);
    };
    let Some(n) = read_number(b) else {
        return Err(AsmFault::Operand);
    };
    let Some(number) = fit64(n) else {
        return Err(AsmFault::Range);
    };
    Ok(plain(Insn::LoadImmediate { dst, number }))
}

/// Reads the operand of a jump, its target: a name, or a distance such as `+2`. Fails with `Operand`.
fn jump<'a>(operands: &[&'a [u8]]) -> Result<Statement<'a>, AsmFault>
    ensures { GivesResult source_view result (source_of words.Jump (map (λ r. r.now) operands.now)) }
{
    let Some(a) = one_operand(operands) else {
        return Err(AsmFault::Operand);
    };
    let Some((aim, name)) = target(a) else {
        return Err(AsmFault::Operand);
    };
    Ok(Statement {
        draft: DraftInstruction::Jump(aim),
        name,
    })
}

/// Reads the operand of a long jump, its target: a name, or a distance such as `+2`. Fails with `Operand`.
fn long_jump<'a>(operands: &[&'a [u8]]) -> Result<Statement<'a>, AsmFault>
    ensures { GivesResult source_view result (source_of words.LongJump (map (λ r. r.now) operands.now)) }
{
    let Some(a) = one_operand(operands) else {
        return Err(AsmFault::Operand);
    };
    let Some((aim, name)) = target(a) else {
        return Err(AsmFault::Operand);
    };
    Ok(Statement {
        draft: DraftInstruction::LongJump(aim),
        name,
    })
}

/// Reads the operands of a conditional jump, such as `r1, r2, +2` or `r1, 8, loop`. Fails with `Operand` or `Range`.
fn branch<'a>(
    width: Width,
    condition: Condition,
    operands: &[&'a [u8]],
) -> Result<Statement<'a>, AsmFault>
    ensures { GivesResult source_view result
        (source_of (words.Branch width condition) (map (λ r. r.now) operands.now)) }
{
    let Some((a, b, c)) = three_operands(operands) else {
        return Err(AsmFault::Operand);
    };
    let Some(dst) = register(a) else {
        return Err(AsmFault::Operand);
    };
    let Some(raw) = read_raw(b) else {
        return Err(AsmFault::Operand);
    };
    let Some((aim, name)) = target(c) else {
        return Err(AsmFault::Operand);
    };
    let Some(operand) = fit(raw) else {
        return Err(AsmFault::Range);
    };
    Ok(Statement {
        draft: DraftInstruction::Branch(width, condition, dst, operand, aim),
        name,
    })
}

/// Reads the operands of a load, such as `r1, [r2+8]`. Fails with `Operand` or `Range`.
fn load<'a>(size: Size, operands: &[&'a [u8]]) -> Result<Statement<'a>, AsmFault>
    ensures { GivesResult source_view result (source_of (words.Load size) (map (λ r. r.now) operands.now)) }
{
    let Some((a, b)) = two_operands(operands) else {
        return Err(AsmFault::Operand);
    };
    let Some(dst) = register(a) else {
        return Err(AsmFault::Operand);
    };
    let Some((base, n)) = place(b) else {
        return Err(AsmFault::Operand);
    };
    let Some(offset) = fit16(n) else {
        return Err(AsmFault::Range);
    };
    Ok(plain(Insn::Load {
        size,
        dst,
        base,
        offset,
    }))
}

/// Reads the operands of a sign-extended load, such as `r1, [r2+8]`. Fails with `Operand` or `Range`.
fn load_signed<'a>(part: Narrow, operands: &[&'a [u8]]) -> Result<Statement<'a>, AsmFault>
    ensures { GivesResult source_view result (source_of (words.LoadSigned part) (map (λ r. r.now) operands.now)) }
{
    let Some((a, b)) = two_operands(operands) else {
        return Err(AsmFault::Operand);
    };
    let Some(dst) = register(a) else {
        return Err(AsmFault::Operand);
    };
    let Some((base, n)) = place(b) else {
        return Err(AsmFault::Operand);
    };
    let Some(offset) = fit16(n) else {
        return Err(AsmFault::Range);
    };
    Ok(plain(Insn::LoadSigned {
        part,
        dst,
        base,
        offset,
    }))
}

/// Reads the operands of a store of a register, such as `[r1+8], r2`. Fails with `Operand` or `Range`.
fn store_register<'a>(size: Size, operands: &[&'a [u8]]) -> Result<Statement<'a>, AsmFault>
    ensures { GivesResult source_view result (source_of (words.StoreRegister size) (map (λ r. r.now) operands.now)) }
{
    let Some((a, b)) = two_operands(operands) else {
        return Err(AsmFault::Operand);
    };
    let Some((base, n)) = place(a) else {
        return Err(AsmFault::Operand);
    };
    let Some(src) = register(b) else {
        return Err(AsmFault::Operand);
    };
    let Some(offset) = fit16(n) else {
        return Err(AsmFault::Range);
    };
    Ok(plain(Insn::Store {
        size,
        base,
        offset,
        source: Operand::Register(src),
    }))
}

/// Reads the operands of a store of a number, such as `[r1+8], 5`. Fails with `Operand` or `Range`.
fn store_number<'a>(size: Size, operands: &[&'a [u8]]) -> Result<Statement<'a>, AsmFault>
    ensures { GivesResult source_view result (source_of (words.StoreNumber size) (map (λ r. r.now) operands.now)) }
{
    let Some((a, b)) = two_operands(operands) else {
        return Err(AsmFault::Operand);
    };
    let Some((base, n)) = place(a) else {
        return Err(AsmFault::Operand);
    };
    let Some(imm) = read_number(b) else {
        return Err(AsmFault::Operand);
    };
    let Some(offset) = fit16(n) else {
        return Err(AsmFault::Range);
    };
    let Some(number) = fit32(imm) else {
        return Err(AsmFault::Range);
    };
    Ok(plain(Insn::Store {
        size,
        base,
        offset,
        source: Operand::Immediate(number),
    }))
}

/// Reads the operand of a call: a number, or the name of a helper. Fails with `Operand` or `Range`.
fn call<'a>(operands: &[&'a [u8]]) -> Result<Statement<'a>, AsmFault>
    ensures { GivesResult source_view result (source_of words.Call (map (λ r. r.now) operands.now)) }
{
    let Some(a) = one_operand(operands) else {
        return Err(AsmFault::Operand);
    };
    if a.len() >= 1 && letter(a[0]) {
        let Some(helper) = helper_named(a) else {
            return Err(AsmFault::Operand);
        };
        return Ok(plain(Insn::Call { helper }));
    }
    let Some(n) = read_number(a) else {
        return Err(AsmFault::Operand);
    };
    let Some(helper) = fit32(n) else {
        return Err(AsmFault::Range);
    };
    Ok(plain(Insn::Call { helper }))
}

/// Checks that an exit has no operands, and returns it. Fails with `Operand`.
fn exit<'a>(operands: &[&'a [u8]]) -> Result<Statement<'a>, AsmFault>
    ensures { GivesResult source_view result (source_of words.Exit (map (λ r. r.now) operands.now)) }
{
    match no_operand(operands) {
        Some(()) => Ok(plain(Insn::Exit)),
        None => Err(AsmFault::Operand),
    }
}

/// Reads the operands of a mnemonic, and returns the instruction. Fails with `Operand` if their number or kind is
/// wrong, and with `Range` if a number is out of its range.
fn read_source<'a>(mnemonic: Mnemonic, operands: &[&'a [u8]]) -> Result<Statement<'a>, AsmFault>
    ensures { GivesResult source_view result (source_of mnemonic (map (λ r. r.now) operands.now)) }
{
    match mnemonic {
        Mnemonic::Arithmetic(width, operation) => arithmetic(width, operation, operands),
        Mnemonic::Negate(width) => negate(width, operands),
        Mnemonic::SignExtend(width, part) => sign_extend(width, part, operands),
        Mnemonic::Swap(order, size) => swap(order, size, operands),
        Mnemonic::LoadImmediate => load_immediate(operands),
        Mnemonic::Jump => jump(operands),
        Mnemonic::LongJump => long_jump(operands),
        Mnemonic::Branch(width, condition) => branch(width, condition, operands),
        Mnemonic::Load(size) => load(size, operands),
        Mnemonic::LoadSigned(part) => load_signed(part, operands),
        Mnemonic::StoreRegister(size) => store_register(size, operands),
        Mnemonic::StoreNumber(size) => store_number(size, operands),
        Mnemonic::Call => call(operands),
        Mnemonic::Exit => exit(operands),
    }
}

/// Reads an instruction from a mnemonic and its operands. Returns `None` if there are no words. Fails with `Mnemonic`
/// if the first word is not a mnemonic, and otherwise with `Operand` or `Range`.
pub fn read_statement<'a>(words: &[&'a [u8]]) -> Result<Option<Statement<'a>>, AsmFault>
    ensures { GivesResult statement_view result (statement_of (map (λ r. r.now) words.now)) }
{
    match words {
        [] => Ok(None),
        [word, operands @ ..] => {
            let Some(mnemonic) = read_mnemonic(word) else {
                return Err(AsmFault::Mnemonic);
            };
            match read_source(mnemonic, operands) {
                Ok(statement) => Ok(Some(statement)),
                Err(fault) => Err(fault),
            }
        }
    }
}
