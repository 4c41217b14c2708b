//! The exponent at the end of a short numeral.

ghost use Rattle.std.specs.Prelude.{◌≡◌, ◌+◌, ◌<◌, ◌≤◌, IfSome, length, pos, neg_ℤ, if◌then◌else◌};
ghost use Rattle.fixed_numeral.specs.Inner.Scan.{max_magnitude};
ghost use Rattle.fixed_numeral.specs.Inner.Segments.{IsExponentAt};

use crate::radix::Radix;
use crate::scanner::{is_separator, is_two_separator, max_magnitude};
use crate::segment::{decimals_to, sign_at};
use crate::short::LANES;

/// An exponent, and whether it counts powers of two.
#[derive(Clone, Copy)]
pub(crate) struct Power {
    /// The exponent.
    pub exponent: i32,
    /// Whether it counts powers of two, and not of the radix.
    pub by_two: bool,
}

/// Returns the exponent with this sign and magnitude.
fn signed_exponent(minus: bool, magnitude: u64) -> i32
    requires { magnitude ≤ max_magnitude minus }
    ensures { result ≡ (if minus then neg_ℤ (pos magnitude) else pos magnitude) }
{
    if minus {
        (-(magnitude as i64)) as i32
    } else {
        magnitude as i32
    }
}

/// Reads the exponent from its separator to the end of the text. `None`: it has no digit, its number is not an i32, or
/// other bytes are there.
fn exponent_at(text: &[u8], radix: Radix, from: usize) -> Option<Power>
    requires late { length text.now ≤ from + LANES }
    requires place { from < length text.now }
    ensures { IfSome result (λ e. IsExponentAt radix text.now from e.exponent e.by_two) }
{
    let separator = text[from];
    if !is_separator(radix, separator) {
        return None;
    }
    let (negative, first) = sign_at(text, from + 1);
    if first == text.len() {
        return None;
    }
    let number = decimals_to(text, first, text.len())?;
    if number > max_magnitude(negative) {
        return None;
    }
    Some(Power {
        exponent: signed_exponent(negative, number),
        by_two: is_two_separator(radix, separator),
    })
}

/// Reads the exponent from index `from` to the end of the text, or 0 if the text ends there. `None` as in
/// `exponent_at`.
#[inline(always)]
pub(crate) fn power_at(text: &[u8], radix: Radix, from: usize) -> Option<Power>
    requires late { length text.now ≤ from + LANES }
    requires place { from ≤ length text.now }
    ensures { IfSome result (λ e. IsExponentAt radix text.now from e.exponent e.by_two) }
{
    if from == text.len() {
        return Some(Power {
            exponent: 0,
            by_two: false,
        });
    }
    match &exponent_at(text, radix, from) {
        Some(power) => Some(*power),
        None => None,
    }
}
