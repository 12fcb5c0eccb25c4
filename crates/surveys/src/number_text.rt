//! Writes numbers into a text.
ghost use Rattle.std.specs.Prelude.{◌≡◌, ◌++◌, OnOk, decimal, string_bytes};

use itoa::Buffer;
use std::alloc::AllocError;

/// Appends a number in decimal.
pub(crate) fn put_number(out: &mut String, number: u64) -> Result<(), AllocError>
    ensures { OnOk result (string_bytes out.new ≡ string_bytes out.old ++ decimal number) }
{
    let mut buffer = Buffer::new();
    out.push_str(buffer.format(number))
}

/// Appends `name` and then the number in decimal.
pub(crate) fn put_numbered(out: &mut String, name: &str, number: u64) -> Result<(), AllocError>
    ensures { OnOk result (string_bytes out.new ≡ string_bytes out.old ++ name.now ++ decimal number) }
{
    out.push_str(name)?;
    put_number(out, number)
}
