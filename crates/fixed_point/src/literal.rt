//! Reading a number from a literal, such as `0b1.01`, `-0x1.C` or `1_000.5e-2`.

ghost use Rattle.std.specs.Prelude.{◌≤◌};
ghost use Rattle.fixed_point.specs.Readings.{IsLiteralReading};

use crate::number::Fixed;
use fixed_bits::Inner;
use fixed_numeral::ParseFixedError;
use fixed_read::lit;

impl<I: Inner, const FRAC: u32> Fixed<I, FRAC> {
    /// Reads a literal to the nearest ulp, ties to even; Overflow if the number is out of range.
    #[inline]
    pub fn lit(src: &str) -> Result<Self, ParseFixedError>
        requires { FRAC ≤ I.BITS }
        ensures { IsLiteralReading I.number src.now FRAC I.SIGNED I.BITS result }
    {
        match lit(src.as_bytes(), FRAC) {
            Ok(bits) => Ok(Fixed::from_bits(bits)),
            Err(error) => Err(error),
        }
    }
}
