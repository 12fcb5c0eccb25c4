//! The bases in which numbers are written: ten and sixteen.
ghost use Rattle.std.specs.Prelude.{◌≡◌, ◌≤◌};
ghost use Rattle.text.specs.Base.{radix_of};

/// The base in which a number is written.
#[derive(Clone, Copy, PartialEq, Eq)]
pub enum Base {
    Ten,
    Sixteen,
}

impl Base {
    /// Returns the radix of the base: 10 for `Ten`, and 16 for `Sixteen`.
    pub fn radix(self) -> u8
        ensures radix { result ≡ radix_of self }
        ensures bound { result ≤ 16 }
    {
        match self {
            Base::Ten => 10,
            Base::Sixteen => 16,
        }
    }
}
