//! A number that was read into a decimal format.

ghost use Rattle.std.specs.Prelude.{◌≡◌, ◌↔◌, ◌≤◌, ℤ, true, IsTrue, IsNone, IfSome};
ghost use Rattle.fixed_bits.specs.Images.{IsImage, IsOutOfRangeBy};
ghost use Rattle.fixed_bits.specs.Numbers.{IsNumber};
ghost use Rattle.fixed_bits.specs.Ranges.{IsOutOfRange};

use crate::format::DecimalFormat;
use fixed_bits::{Format, Number, Policy};

/// The number that a numeral reads as in a decimal format: a whole number of units with a sign, which may be out of the
/// range of 64 bits.
#[derive(Clone, Copy, Debug, PartialEq, Eq)]
pub struct DecimalNumber {
    number: Number,
    format: DecimalFormat,
    exact: bool,
}

/// The binary format of the numbers of each decimal format: 64 bits with a sign.
#[inline(always)]
fn words() -> Format
    ensures signed { result.signed ≡ true }
    ensures width { result.width ≡ 64 }
{
    Format::of(true, 64, 0)
}

impl DecimalNumber {
    /// Returns a number that was read into a format, and whether the numeral was a whole number of units.
    #[inline(always)]
    pub fn new(number: Number, format: DecimalFormat, exact: bool) -> DecimalNumber
        ensures number { result.number ≡ number }
        ensures format { result.format ≡ format }
        ensures exact { result.exact ≡ exact }
    {
        DecimalNumber {
            number,
            format,
            exact,
        }
    }

    /// The format that the numeral was read into.
    pub fn format(&self) -> DecimalFormat
        ensures { result ≡ self.now.format }
    {
        self.format
    }

    /// The number of units: negative if the numeral has a minus, also if it is 0.
    pub fn number(&self) -> Number
        ensures { result ≡ self.now.number }
    {
        self.number
    }

    /// Whether the numeral was a whole number of units, so that nothing was rounded.
    pub fn is_exact(&self) -> bool
        ensures { result ≡ self.now.exact }
    {
        self.exact
    }

    /// Whether the number is out of the range of 64 bits.
    pub fn is_out_of_range(&self) -> bool
        ensures { (v : ℤ) → IsNumber self.now.number v → IsTrue result ↔ IsOutOfRange true 64 v }
    {
        self.number.is_out_of_range(words())
    }

    /// Whether the number is out of the policy's part of the range of 64 bits.
    pub fn is_out_of_range_by(&self, policy: Policy) -> bool
        ensures { (v : ℤ) → IsNumber self.now.number v → IsTrue result ↔ IsOutOfRangeBy policy true 64 v }
    {
        self.number.is_out_of_range_by(words(), policy)
    }

    /// Returns the image of the number in 64 bits: the number itself if it is in the policy's range. `None` exactly if
    /// it is out of range and the policy is `Checked`.
    pub fn image(&self, policy: Policy) -> Option<i64>
        ensures image { (v : ℤ) → IsNumber self.now.number v → IfSome result (λ c. IsImage policy true 64 v c) }
        ensures none { (v : ℤ) → IsNumber self.now.number v → IsNone result
            ↔ ((policy ≡ Policy.Checked) × IsOutOfRange true 64 v) }
    {
        match self.number.image(words(), policy).admitted(policy) {
            Some(units) => Some(units as i64),
            None => None,
        }
    }
}
