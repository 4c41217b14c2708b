//! The four radices.

ghost use Rattle.std.specs.Prelude.{◌≡◌};
ghost use Rattle.fixed_numeral.specs.Numeral.{base};

/// The radix of a numeral.
#[derive(Clone, Copy, Debug, PartialEq, Eq)]
pub enum Radix {
    /// Radix 2.
    Bin,
    /// Radix 8.
    Oct,
    /// Radix 10.
    Dec,
    /// Radix 16.
    Hex,
}

impl Radix {
    /// Returns the radix as a number.
    pub fn base(self) -> u32
        ensures { result ≡ base self }
    {
        match self {
            Radix::Bin => 2,
            Radix::Oct => 8,
            Radix::Dec => 10,
            Radix::Hex => 16,
        }
    }
}
