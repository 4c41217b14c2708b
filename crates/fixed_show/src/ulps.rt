//! The error by value or in ulps, as a text and as a fact.
//!
//! The error in ulps is the error times 2^f: the bits less the numeral times 2^f. It has its own line, because a number
//! alone on a line is easiest to read, also for a program.

ghost use Rattle.std.specs.Prelude.{◌+◌, ◌^◌, ◌<◌, ◌≤◌, length, IfSome, MatchOption};
ghost use Rattle.fixed_bits.specs.Ranges.{IsWide};
ghost use Rattle.fixed_numeral.specs.Numeral.{Parts};
ghost use Rattle.fixed_numeral.specs.Value.{magnitude};
ghost use Rattle.fixed_numeral.specs.declared.radix.Radix.{Radix as RadixOf};
ghost use Rattle.fixed_show.specs.Blocks.{Appends};
ghost use Rattle.fixed_show.specs.ErrorText.{IsBriefNumeral, error_num};
ghost use Rattle.fixed_show.specs.Inner.Errors.{IsDecimalOf, IsErrorFact};
ghost use Rattle.fixed_show.specs.Inner.Measures.{IsDecimalNumeral};
ghost use Rattle.fixed_show.specs.ShortError.{IsErrorText, measured_den};

use crate::errors::{
    Decimal, exact_error, is_less_than_zero, magnitude_of, natural_of, push_decimal, scale,
    signed_difference,
};
use crate::form::{Form, end_byte, push_label};
use crate::measure::Measure;
use text_buffer::TextBuffer;

/// Computes `bits` less a numeral times 2^`frac`, exactly.
fn exact_ulps(bits: i128, frac: u32, numeral: &Decimal) -> Decimal
    requires wide { IsWide bits }
    requires frac { frac ≤ 64 }
    requires small { numeral.now.number < 10 ^ 1208 }
    requires places { numeral.now.places ≤ 1104 }
    ensures ulps { (r : RadixOf) (p : Parts)
        → IsDecimalNumeral r p numeral.now.number numeral.now.places numeral.now.is_negative
        → IsDecimalOf (error_num r p frac bits) (magnitude r p).den result.is_negative result.number result.places }
    ensures places { result.places ≤ 1104 }
{
    let mut value = natural_of(magnitude_of(bits));
    scale(&mut value, 10, numeral.places);
    let mut other = numeral.number.same();
    scale(&mut other, 2, frac);
    let is_below = is_less_than_zero(bits);
    let (number, is_negative) = signed_difference(&value, is_below, &other, numeral.is_negative);
    Decimal {
        number,
        places: numeral.places,
        is_negative,
    }
}

/// Computes the error of `bits` ulps of 2^-`frac` against a numeral.
fn measured_error(measure: Measure, bits: i128, frac: u32, numeral: &Decimal) -> Decimal
    requires wide { IsWide bits }
    requires frac { frac ≤ 64 }
    requires small { numeral.now.number < 10 ^ 1208 }
    requires places { numeral.now.places ≤ 1104 }
    ensures error { (r : RadixOf) (p : Parts)
        → IsDecimalNumeral r p numeral.now.number numeral.now.places numeral.now.is_negative
        → IsDecimalOf (error_num r p frac bits) (measured_den measure r p frac) result.is_negative result.number
        result.places }
    ensures places { result.places ≤ 1104 }
{
    match measure {
        Measure::Value => exact_error(bits, frac, numeral),
        Measure::Ulps => exact_ulps(bits, frac, numeral),
    }
}

/// Appends the text of the error of `bits` ulps of 2^-`frac` against a numeral. `None`: the numeral is not brief.
pub(crate) fn push_error<const N: usize>(
    out: &mut TextBuffer<N>,
    form: Form,
    measure: Measure,
    bits: i128,
    frac: u32,
    numeral: &Option<Decimal>,
)
    requires wide { IsWide bits }
    requires frac { frac ≤ 64 }
    requires small { IfSome numeral.now (λ d. d.number < 10 ^ 1208) }
    requires places { IfSome numeral.now (λ d. d.places ≤ 1104) }
    requires room { length out.old + 1380 ≤ N }
    ensures error { (r : RadixOf) (p : Parts) → MatchOption numeral.now (¬ IsBriefNumeral r p)
        (λ d. IsBriefNumeral r p × IsDecimalNumeral r p d.number d.places d.is_negative)
        → Appends (IsErrorText form measure r p frac bits) 1380 out.old out.new }
    ensures short { length out.new ≤ length out.old + 1380 }
{
    match numeral {
        Some(numeral) => push_decimal(out, form, &measured_error(measure, bits, frac, numeral)),
        None => out.push_bytes(b"not written: the numeral is too long"),
    }
}

/// Appends a fact: the same error.
pub(crate) fn push_error_fact<const N: usize>(
    out: &mut TextBuffer<N>,
    form: Form,
    key: &[u8],
    measure: Measure,
    bits: i128,
    frac: u32,
    numeral: &Option<Decimal>,
)
    requires wide { IsWide bits }
    requires frac { frac ≤ 64 }
    requires key { length key.now ≤ 10 }
    requires small { IfSome numeral.now (λ d. d.number < 10 ^ 1208) }
    requires places { IfSome numeral.now (λ d. d.places ≤ 1104) }
    requires room { length out.old + 1396 ≤ N }
    ensures fact { (r : RadixOf) (p : Parts) → MatchOption numeral.now (¬ IsBriefNumeral r p)
        (λ d. IsBriefNumeral r p × IsDecimalNumeral r p d.number d.places d.is_negative)
        → IsErrorFact form key.now measure r p frac bits out.old out.new }
    ensures short { length out.new ≤ length out.old + 1396 }
{
    push_label(out, form, key);
    push_error(out, form, measure, bits, frac, numeral);
    out.push(end_byte(form));
}
