//! Reading numerals into bits, in each radix and mode.

ghost use Rattle.std.specs.Prelude.{◌≡◌, ◌+◌, ◌*◌, ◌<◌, ◌≤◌, ◌↔◌, ◌⊎◌, ℤ, Err, IsOk, IfOk, IfErr, length};
ghost use Rattle.fixed_bits.specs.Images.{IsSaturated, IsWrapped};
ghost use Rattle.fixed_bits.specs.Numbers.{IsNumber};
ghost use Rattle.fixed_bits.specs.Ranges.{IsInRange};
ghost use Rattle.fixed_bits.specs.declared.format.Policy.TheVariants.{Saturating, Wrapping};
ghost use Rattle.fixed_bits.specs.declared.mode.ReadMode.TheVariants.{NearestEven};
ghost use Rattle.fixed_numeral.specs.Answer.{IsReadOrRefused};
ghost use Rattle.fixed_numeral.specs.Cause.{HasCause};
ghost use Rattle.fixed_numeral.specs.Numeral.{Parts, HasNumeral};
ghost use Rattle.fixed_numeral.specs.declared.error.ParseErrorKind.TheVariants.{Overflow};
ghost use Rattle.fixed_read.specs.Reading.{IsImageRead, IsOverflowingRead, IsReadInRange, IsReadNumber, number_in};
ghost use Rattle.fixed_read.specs.Reading.{IsReadOutOfRange};

use crate::read_number::{ReadNumber, read_format};
use crate::uncounted::read_uncounted;
use fixed_bits::{Format, Inner, Policy, ReadMode, signed_number};
use fixed_numeral::{ParseErrorKind, ParseFixedError, Radix};
use fixed_steps::Steps;
use std::sync::ledger::Ledger;

/// Returns the format of an integer type with a fraction length.
pub fn format_of<I: Inner>(frac: u32) -> Format
    requires { frac ≤ I.BITS }
    ensures signed { result.signed ≡ I.SIGNED }
    ensures width { result.width ≡ I.BITS }
    ensures frac { result.frac ≡ frac }
{
    Format::of(I::SIGNED, I::BITS, frac)
}

/// Returns the Wrapping image of a read number.
fn wrapped<I: Inner>(found: &ReadNumber) -> I
    ensures { (v : ℤ) → IsNumber (number_in found.now) v → IsWrapped I.SIGNED I.BITS v (I.number result) }
{
    let number = found.number();
    I::wrap(signed_number(number.negative, number.low))
}

/// Returns the Saturating image of a read number.
fn saturated<I: Inner>(found: &ReadNumber) -> I
    requires signed { found.now.format.signed ≡ I.SIGNED }
    requires width { found.now.format.width ≡ I.BITS }
    ensures { (v : ℤ) → IsNumber (number_in found.now) v → IsSaturated I.SIGNED I.BITS v (I.number result) }
{
    I::wrap(
        found
            .number()
            .image(found.format(), Policy::Saturating)
            .number(),
    )
}

/// Returns a read number if it is in range.
///
/// # Errors
///
/// Refuses a number that is out of range as `Overflow`.
pub fn in_range<I: Inner>(found: &ReadNumber) -> Result<I, ParseFixedError>
    requires signed { found.now.format.signed ≡ I.SIGNED }
    requires width { found.now.format.width ≡ I.BITS }
    ensures fits { (v : ℤ) → IsNumber (number_in found.now) v → IsOk result ↔ IsInRange I.SIGNED I.BITS v }
    ensures number { IfOk result (λ r. (v : ℤ) → IsNumber (number_in found.now) v → I.number r ≡ v) }
    ensures overflow { IfErr result (λ kind. kind ≡ Overflow) }
{
    if found.is_out_of_range() {
        Err(ParseFixedError::new(ParseErrorKind::Overflow))
    } else {
        Ok(wrapped(found))
    }
}

/// Returns the bits that a numeral reads as in a mode, brought into the type's range by a multiple of two to the power
/// of its width, and whether that was needed.
///
/// The number read is the numeral's magnitude in ulps of two to the power of `-frac_nbits`, rounded in the mode, with
/// the numeral's sign. It takes at most eight steps for each byte and each bit, and 64.
///
/// # Errors
///
/// Refuses bytes that are not a numeral of the radix with the kind of their cause.
pub fn overflowing_from_str_radix_mode_counted<I: Inner, L: Ledger>(
    s: &[u8],
    radix: Radix,
    frac_nbits: u32,
    mode: ReadMode,
    steps: &mut Steps<L>,
) -> Result<(I, bool), ParseFixedError>
    requires { frac_nbits ≤ I.BITS }
    ensures reading { IsReadOrRefused radix s.now
        (λ p r. IsOverflowingRead mode radix p frac_nbits I.SIGNED I.BITS (I.number r.0) r.1) result }
    ensures cost { steps.new ≤ steps.old + 8 * (length s.now + I.BITS) + 64 }
{
    match read_format(s, radix, format_of::<I>(frac_nbits), mode, steps) {
        Ok(found) => Ok((wrapped(&found), found.is_out_of_range())),
        Err(error) => Err(error),
    }
}

/// Returns the bits that a numeral reads as, rounded to the nearest ulp, ties to even, brought into the type's range by
/// a multiple of two to the power of its width, and whether that was needed. It takes at most eight steps for each byte
/// and each bit, and 64.
///
/// # Errors
///
/// Refuses bytes that are not a numeral of the radix with the kind of their cause.
pub fn overflowing_from_str_radix_counted<I: Inner, L: Ledger>(
    s: &[u8],
    radix: Radix,
    frac_nbits: u32,
    steps: &mut Steps<L>,
) -> Result<(I, bool), ParseFixedError>
    requires { frac_nbits ≤ I.BITS }
    ensures reading { IsReadOrRefused radix s.now
        (λ p r. IsOverflowingRead NearestEven radix p frac_nbits I.SIGNED I.BITS (I.number r.0) r.1) result }
    ensures cost { steps.new ≤ steps.old + 8 * (length s.now + I.BITS) + 64 }
{
    overflowing_from_str_radix_mode_counted(s, radix, frac_nbits, ReadMode::NearestEven, steps)
}

/// Returns the bits that a numeral reads as in a mode, brought into the type's range by a multiple of two to the power
/// of its width, and whether that was needed.
///
/// # Errors
///
/// Refuses bytes that are not a numeral of the radix with the kind of their cause.
pub fn overflowing_from_str_radix_mode<I: Inner>(
    s: &[u8],
    radix: Radix,
    frac_nbits: u32,
    mode: ReadMode,
) -> Result<(I, bool), ParseFixedError>
    requires { frac_nbits ≤ I.BITS }
    ensures reading { IsReadOrRefused radix s.now
        (λ p r. IsOverflowingRead mode radix p frac_nbits I.SIGNED I.BITS (I.number r.0) r.1) result }
{
    match read_uncounted(s, radix, format_of::<I>(frac_nbits), mode) {
        Ok(found) => Ok((wrapped(&found), found.is_out_of_range())),
        Err(error) => Err(error),
    }
}

/// Returns the bits that a numeral reads as, rounded to the nearest ulp, ties to even, brought into the type's range by
/// a multiple of two to the power of its width, and whether that was needed.
///
/// # Errors
///
/// Refuses bytes that are not a numeral of the radix with the kind of their cause.
pub fn overflowing_from_str_radix<I: Inner>(
    s: &[u8],
    radix: Radix,
    frac_nbits: u32,
) -> Result<(I, bool), ParseFixedError>
    requires { frac_nbits ≤ I.BITS }
    ensures reading { IsReadOrRefused radix s.now
        (λ p r. IsOverflowingRead NearestEven radix p frac_nbits I.SIGNED I.BITS (I.number r.0) r.1) result }
{
    overflowing_from_str_radix_mode(s, radix, frac_nbits, ReadMode::NearestEven)
}

/// Returns the bits that a numeral reads as in a mode, brought into the type's range by a multiple of two to the power
/// of its width.
///
/// # Errors
///
/// Refuses bytes that are not a numeral of the radix with the kind of their cause.
pub fn wrapping_from_str_radix_mode<I: Inner>(
    s: &[u8],
    radix: Radix,
    frac_nbits: u32,
    mode: ReadMode,
) -> Result<I, ParseFixedError>
    requires { frac_nbits ≤ I.BITS }
    ensures reading { IsReadOrRefused radix s.now
        (λ p r. IsImageRead Wrapping mode radix p frac_nbits I.SIGNED I.BITS (I.number r)) result }
{
    match read_uncounted(s, radix, format_of::<I>(frac_nbits), mode) {
        Ok(found) => Ok(wrapped(&found)),
        Err(error) => Err(error),
    }
}

/// Returns the bits that a numeral reads as, rounded to the nearest ulp, ties to even, brought into the type's range by
/// a multiple of two to the power of its width.
///
/// # Errors
///
/// Refuses bytes that are not a numeral of the radix with the kind of their cause.
pub fn wrapping_from_str_radix<I: Inner>(
    s: &[u8],
    radix: Radix,
    frac_nbits: u32,
) -> Result<I, ParseFixedError>
    requires { frac_nbits ≤ I.BITS }
    ensures reading { IsReadOrRefused radix s.now
        (λ p r. IsImageRead Wrapping NearestEven radix p frac_nbits I.SIGNED I.BITS (I.number r)) result }
{
    wrapping_from_str_radix_mode(s, radix, frac_nbits, ReadMode::NearestEven)
}

/// Returns the bits that a numeral reads as in a mode, or the nearer end of the type's range.
///
/// # Errors
///
/// Refuses bytes that are not a numeral of the radix with the kind of their cause.
pub fn saturating_from_str_radix_mode<I: Inner>(
    s: &[u8],
    radix: Radix,
    frac_nbits: u32,
    mode: ReadMode,
) -> Result<I, ParseFixedError>
    requires { frac_nbits ≤ I.BITS }
    ensures reading { IsReadOrRefused radix s.now
        (λ p r. IsImageRead Saturating mode radix p frac_nbits I.SIGNED I.BITS (I.number r)) result }
{
    match read_uncounted(s, radix, format_of::<I>(frac_nbits), mode) {
        Ok(found) => Ok(saturated(&found)),
        Err(error) => Err(error),
    }
}

/// Returns the bits that a numeral reads as, rounded to the nearest ulp, ties to even, or the nearer end of the type's
/// range.
///
/// # Errors
///
/// Refuses bytes that are not a numeral of the radix with the kind of their cause.
pub fn saturating_from_str_radix<I: Inner>(
    s: &[u8],
    radix: Radix,
    frac_nbits: u32,
) -> Result<I, ParseFixedError>
    requires { frac_nbits ≤ I.BITS }
    ensures reading { IsReadOrRefused radix s.now
        (λ p r. IsImageRead Saturating NearestEven radix p frac_nbits I.SIGNED I.BITS (I.number r)) result }
{
    saturating_from_str_radix_mode(s, radix, frac_nbits, ReadMode::NearestEven)
}

/// Returns the bits that a numeral reads as in a mode.
///
/// # Errors
///
/// Refuses a numeral whose read number is out of range as `Overflow`, and other bytes with the kind of their cause.
pub fn from_str_radix_mode<I: Inner>(
    s: &[u8],
    radix: Radix,
    frac_nbits: u32,
    mode: ReadMode,
) -> Result<I, ParseFixedError>
    requires { frac_nbits ≤ I.BITS }
    ensures fits { IsOk result ↔ IsReadInRange mode radix (HasNumeral radix s.now) frac_nbits I.SIGNED I.BITS }
    ensures number { IfOk result (λ r. (p : Parts) → HasNumeral radix s.now p
        → IsReadNumber mode radix p frac_nbits (I.number r)) }
    ensures overflow { IsReadOutOfRange mode radix (HasNumeral radix s.now) frac_nbits I.SIGNED I.BITS
        → result ≡ Err Overflow }
    ensures cause { IfErr result (λ kind. HasCause radix s.now kind
        ⊎ ((kind ≡ Overflow) × IsReadOutOfRange mode radix (HasNumeral radix s.now) frac_nbits I.SIGNED I.BITS)) }
{
    match read_uncounted(s, radix, format_of::<I>(frac_nbits), mode) {
        Ok(found) => in_range(&found),
        Err(error) => Err(error),
    }
}

/// Returns the bits that a numeral reads as, rounded to the nearest ulp, ties to even.
///
/// # Errors
///
/// Refuses a numeral whose read number is out of range as `Overflow`, and other bytes with the kind of their cause.
pub fn from_str_radix<I: Inner>(
    s: &[u8],
    radix: Radix,
    frac_nbits: u32,
) -> Result<I, ParseFixedError>
    requires { frac_nbits ≤ I.BITS }
    ensures fits { IsOk result ↔ IsReadInRange NearestEven radix (HasNumeral radix s.now) frac_nbits I.SIGNED I.BITS }
    ensures number { IfOk result (λ r. (p : Parts) → HasNumeral radix s.now p
        → IsReadNumber NearestEven radix p frac_nbits (I.number r)) }
    ensures overflow { IsReadOutOfRange NearestEven radix (HasNumeral radix s.now) frac_nbits I.SIGNED I.BITS
        → result ≡ Err Overflow }
    ensures cause { IfErr result (λ kind. HasCause radix s.now kind
        ⊎ ((kind ≡ Overflow) × IsReadOutOfRange NearestEven radix
        (HasNumeral radix s.now) frac_nbits I.SIGNED I.BITS)) }
{
    from_str_radix_mode(s, radix, frac_nbits, ReadMode::NearestEven)
}
