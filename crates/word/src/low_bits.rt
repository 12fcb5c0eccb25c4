//! Returns the low 8, 16 or 32 bits of a word.

ghost use Rattle.std.specs.Prelude.{◌≡◌, ◌^◌, ◌%◌};

/// Returns the low 8 bits of a word.
pub fn low_byte(a: u64) -> u8
    ensures { result ≡ a % 2 ^ 8 }
{
    (a % 0x100) as u8
}

/// Returns the low 16 bits of a word.
pub fn low_half(a: u64) -> u16
    ensures { result ≡ a % 2 ^ 16 }
{
    (a % 0x1_0000) as u16
}

/// Returns the low 32 bits of a word.
pub fn low_word(a: u64) -> u32
    ensures { result ≡ a % 2 ^ 32 }
{
    (a % 0x1_0000_0000) as u32
}
