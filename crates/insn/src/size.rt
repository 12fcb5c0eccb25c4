//! The number of bytes that an instruction loads or stores.
ghost use Rattle.std.specs.Prelude.{◌≡◌, ◌≤◌};
ghost use Rattle.insn.specs.Insn.{bytes_of, part_bytes};

use crate::insn::Size;
use word::Narrow;

impl Size {
    /// Returns the number of bytes: 1, 2, 4 or 8 (RFC 9669, section 5).
    pub fn bytes(self) -> usize
        ensures bytes { result ≡ bytes_of self }
        ensures few { result ≤ 8 }
    {
        match self {
            Size::Byte => 1,
            Size::Half => 2,
            Size::Word => 4,
            Size::Double => 8,
        }
    }
}

/// Returns the number of bytes that a sign-extended load of `part` reads: 1, 2 or 4.
pub fn bytes_of_part(part: Narrow) -> usize
    ensures bytes { result ≡ part_bytes part }
    ensures few { result ≤ 4 }
{
    match part {
        Narrow::Byte => 1,
        Narrow::Half => 2,
        Narrow::Word => 4,
    }
}
