//! Checks whether bytes can be the beginning of a UTF-8 text.
ghost use Rattle.std.specs.Prelude.{◌↔◌, ◌++◌, ℕ, List, IsTrue, IsFalse};
ghost use Rattle.std.specs.Str.{IsUtf8};
ghost use Rattle.streams.specs.Reading.{MayBeginText};

/// Checks whether a UTF-8 text can begin with these bytes: whether they are valid UTF-8, except that the last character
/// may be cut.
pub fn may_begin_text(front: &[u8]) -> bool
    ensures begins { IsTrue result ↔ MayBeginText front.now }
    ensures no_text { IsFalse result → (rest : List ℕ) → IsUtf8 (front.now ++ rest) → ⊥ }
{
    match str::from_utf8(front) {
        Ok(_) => true,
        Err(error) => error.error_len().is_none(),
    }
}
