//! The C function that returns the library's version: `byzlab_version`.
ghost use Rattle.std.specs.Prelude.{◌≡◌, ◌+◌, ◌*◌};

/// Returns the version of this library as one number, 10,000 * major + 100 * minor + patch, such as 10000 for 1.0.0.
#[unsafe(no_mangle)]
pub extern "C" fn byzlab_version() -> u32
    ensures { result ≡ 10000 * 1 + 100 * 0 + 0 }
{
    10_000
}
