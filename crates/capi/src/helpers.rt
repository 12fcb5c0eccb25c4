//! Finds calls of helpers that the C program does not allow.
ghost use Rattle.std.specs.Prelude.{◌≡◌, ℕ, false, Some, IfSome, IfNone};
ghost use Rattle.insn.specs.Program.{instruction_at};
ghost use Rattle.capi.specs.Helpers.{called_by, is_allowed, IsAllowedAt, IsFirstForbidden};

use insn::{Insn, Program};
use verify::Verified;

/// Checks whether `mask` allows the helper with this number: whether bit `number` of the mask is set. A number above 63
/// is never allowed.
fn is_allowed(mask: u64, number: u32) -> bool
    ensures { result ≡ is_allowed mask number }
{
    number < 64 && (mask >> number) & 1 == 1
}

/// Returns the number of the helper that the program calls at this unit if `mask` does not allow it. Returns `None` if
/// the helper is allowed or the program calls none there.
fn forbidden_at(program: &Program, mask: u64, unit: usize) -> Option<u32>
    ensures some { IfSome result
        (λ n. (called_by (instruction_at program.now unit) ≡ Some n) × (is_allowed mask n ≡ false)) }
    ensures none { IfNone result (IsAllowedAt mask program.now unit) }
{
    let Some(insn) = program.at(unit) else {
        return None;
    };
    let Insn::Call { helper } = insn else {
        return None;
    };
    let number = helper.cast_unsigned();
    if is_allowed(mask, number) {
        return None;
    }
    Some(number)
}

/// Returns the first call of a helper that `mask` does not allow: the helper's number and the unit of the call. Returns
/// `None` if every call is allowed. Bit n of `mask` allows helper n.
fn first_in(program: &Program, mask: u64) -> Option<(u32, usize)>
    ensures some { IfSome result (λ found. IsFirstForbidden mask program.now found.0 found.1) }
    ensures none { IfNone result ((unit : ℕ) → IsAllowedAt mask program.now unit) }
{
    for unit in 0..program.units() {
        if let Some(number) = forbidden_at(program, mask, unit) {
            return Some((number, unit));
        }
    }
    None
}

/// Returns the first call in a verified program of a helper that `mask` does not allow: the helper's number and the
/// unit of the call. Returns `None` if every call is allowed. Bit n of `mask` allows helper n.
pub fn first_forbidden(verified: &Verified, mask: u64) -> Option<(u32, usize)>
    ensures some { IfSome result (λ found. IsFirstForbidden mask verified.now found.0 found.1) }
    ensures none { IfNone result ((unit : ℕ) → IsAllowedAt mask verified.now unit) }
{
    first_in(verified.program(), mask)
}
