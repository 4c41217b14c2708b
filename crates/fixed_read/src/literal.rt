//! Reading literals: numerals with a sign, a prefix for their radix, and underscores.

ghost use Rattle.std.specs.Prelude.{◌≡◌, ◌≤◌, ◌↔◌, ◌⊎◌, Err, IsOk, IfOk, IfErr};
ghost use Rattle.fixed_bits.specs.declared.mode.ReadMode.TheVariants.{NearestEven};
ghost use Rattle.fixed_numeral.specs.Literal.{HasLiteral, HasLiteralCause, literal_radix};
ghost use Rattle.fixed_numeral.specs.Numeral.{Parts};
ghost use Rattle.fixed_numeral.specs.declared.error.ParseErrorKind.TheVariants.{Overflow};
ghost use Rattle.fixed_read.specs.Reading.{IsReadInRange, IsReadNumber, IsReadOutOfRange};

use crate::read::{format_of, in_range};
use crate::uncounted::read_literal;
use fixed_bits::Inner;
use fixed_numeral::ParseFixedError;

/// Returns the bits that a literal reads as, rounded to the nearest ulp, ties to even.
///
/// One minus may come first for a signed type. A prefix `0b`, `0o` or `0x` names the radix, which is 10 without
/// one. Underscores may follow a prefix and a digit of their part.
///
/// # Errors
///
/// Refuses a literal whose read number is out of range as `Overflow`, and other bytes with the kind of their cause.
pub fn lit<I: Inner>(s: &[u8], frac_nbits: u32) -> Result<I, ParseFixedError>
    requires { frac_nbits ≤ I.BITS }
    ensures fits { IsOk result ↔ IsReadInRange NearestEven (literal_radix I.SIGNED s.now)
        (HasLiteral I.SIGNED s.now) frac_nbits I.SIGNED I.BITS }
    ensures number { IfOk result (λ r. (p : Parts) → HasLiteral I.SIGNED s.now p
        → IsReadNumber NearestEven (literal_radix I.SIGNED s.now) p frac_nbits (I.number r)) }
    ensures overflow { IsReadOutOfRange NearestEven (literal_radix I.SIGNED s.now)
        (HasLiteral I.SIGNED s.now) frac_nbits I.SIGNED I.BITS → result ≡ Err Overflow }
    ensures cause { IfErr result (λ kind. HasLiteralCause I.SIGNED s.now kind
        ⊎ ((kind ≡ Overflow) × IsReadOutOfRange NearestEven (literal_radix I.SIGNED s.now)
        (HasLiteral I.SIGNED s.now) frac_nbits I.SIGNED I.BITS)) }
{
    match read_literal(s, format_of::<I>(frac_nbits)) {
        Ok(found) => in_range(&found),
        Err(error) => Err(error),
    }
}
