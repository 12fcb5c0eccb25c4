//! Checks that the bytes of a file are UTF-8 text.
ghost use Rattle.std.specs.Prelude.{◌≡◌, IfOk, IfErr};
ghost use Rattle.std.specs.Str.{IsUtf8};
ghost use Rattle.cli_tasks.specs.declared.refusal.InputRefusal.TheVariants.{NotText};

use crate::refusal::InputRefusal;

/// Returns the bytes as UTF-8 text.
///
/// # Errors
///
/// Fails with `NotText` if the bytes are not UTF-8.
pub fn as_text(bytes: &[u8]) -> Result<&str, InputRefusal>
    ensures text { IfOk result (λ text. text.now ≡ bytes.now) }
    ensures utf8 { IfOk result (λ _. IsUtf8 bytes.now) }
    ensures none { IfErr result (λ refusal. (refusal ≡ NotText) × (IsUtf8 bytes.now → ⊥)) }
{
    match str::from_utf8(bytes) {
        Ok(text) => Ok(text),
        Err(_) => Err(InputRefusal::NotText),
    }
}
