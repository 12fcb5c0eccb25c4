//! Appends texts and numbers to a text. The functions are not inlined, because an inlined call takes ten times as much
//! code.
ghost use Rattle.std.specs.Prelude.{◌≡◌, ◌++◌, decimal, string_bytes, OnOk};
ghost use Rattle.std.specs.Fmt.{signed_decimal};

use itoa::Buffer;
use std::alloc::AllocError;

/// Appends `text` to `out`. Fails with `AllocError` if out of memory.
#[inline(never)]
pub fn put(out: &mut String, text: &str) -> Result<(), AllocError>
    ensures { OnOk result (string_bytes out.new ≡ string_bytes out.old ++ text.now) }
{
    out.push_str(text)
}

/// Appends a number in decimal, with a minus if it is negative. Fails with `AllocError` if out of memory.
#[inline(never)]
pub fn put_number(out: &mut String, number: i64) -> Result<(), AllocError>
    ensures { OnOk result (string_bytes out.new ≡ string_bytes out.old ++ signed_decimal number) }
{
    let mut buffer = Buffer::new();
    put(out, buffer.format(number))
}

/// Appends an unsigned number in decimal. Fails with `AllocError` if out of memory.
#[inline(never)]
pub fn put_unsigned(out: &mut String, number: u64) -> Result<(), AllocError>
    ensures { OnOk result (string_bytes out.new ≡ string_bytes out.old ++ decimal number) }
{
    let mut buffer = Buffer::new();
    put(out, buffer.format(number))
}
