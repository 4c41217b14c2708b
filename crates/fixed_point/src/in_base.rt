//! A number shown exactly in base 2, 8 or 16.

ghost use Rattle.std.specs.Prelude.{◌≡◌, ◌≤◌, Some};
ghost use Rattle.std.specs.Fmt.{DisplaysOnOk, DisplaysStyledOnOk, formatter_spec, padded_integral};
ghost use Rattle.std.specs.Int.{is_negative};
ghost use Rattle.fixed_bits.specs.Ranges.{IsWide};
ghost use Rattle.fixed_point.specs.Texts.{prefix_of, exact_shown_text, exact_styled_text};

use crate::number::Fixed;
use crate::text::{PlacesText, shift_text};
use fixed_bits::Inner;
use fixed_write::{Base, push_exact};
use std::fmt;
use text_buffer::TextBuffer;

/// A number whose Display writes its exact value in a base, in the fewest places.
///
/// Under `#` the prefix `0b`, `0o` or `0x` comes first; width, fill, alignment, `+` and zero padding are obeyed as for
/// an integer, and a precision is ignored. A fraction length above the width is shown as `(bits >> FRAC)`.
#[derive(Clone, Copy)]
pub struct InBase<I, const FRAC: u32> {
    /// The number.
    pub number: Fixed<I, FRAC>,
    /// The base, and the case of its letters.
    pub base: Base,
}

impl<I: Inner, const FRAC: u32> Fixed<I, FRAC> {
    /// The number, to be shown in base 16 with lower-case letters.
    #[inline]
    pub fn hex(self) -> InBase<I, FRAC>
        requires { FRAC ≤ I.BITS }
        ensures number { result.number ≡ self }
        ensures base { result.base ≡ Base.LowerHex }
    {
        InBase {
            number: self,
            base: Base::LowerHex,
        }
    }

    /// The number, to be shown in base 16 with capital letters.
    #[inline]
    pub fn upper_hex(self) -> InBase<I, FRAC>
        requires { FRAC ≤ I.BITS }
        ensures number { result.number ≡ self }
        ensures base { result.base ≡ Base.UpperHex }
    {
        InBase {
            number: self,
            base: Base::UpperHex,
        }
    }

    /// The number, to be shown in base 8.
    #[inline]
    pub fn oct(self) -> InBase<I, FRAC>
        requires { FRAC ≤ I.BITS }
        ensures number { result.number ≡ self }
        ensures base { result.base ≡ Base.Oct }
    {
        InBase {
            number: self,
            base: Base::Oct,
        }
    }

    /// The number, to be shown in base 2.
    #[inline]
    pub fn bin(self) -> InBase<I, FRAC>
        requires { FRAC ≤ I.BITS }
        ensures number { result.number ≡ self }
        ensures base { result.base ≡ Base.Bin }
    {
        InBase {
            number: self,
            base: Base::Bin,
        }
    }
}

impl<I: Inner, const FRAC: u32> fmt::Display for InBase<I, FRAC> {
    ghost output = { λ x. Some (exact_shown_text x.base I.BITS FRAC (I.number x.number)) };

    ghost styled_output = { λ x s. Some (exact_styled_text x.base
        (padded_integral s (is_negative (I.number x.number)) (prefix_of x.base)) I.BITS FRAC (I.number x.number)) };

    fn fmt<W: fmt::Write>(&self, f: &mut fmt::Formatter<W>) -> fmt::Result {
        write_in_base(self.number.to_bits().value(), FRAC, I::BITS, self.base, f)
    }
}

/// Writes `value` ulps of 2^-`frac`, the bits of a format of `width` bits, exactly in a base.
fn write_in_base<W: fmt::Write>(
    value: i128,
    frac: u32,
    width: u32,
    base: Base,
    f: &mut fmt::Formatter<W>,
) -> fmt::Result
    requires wide { IsWide value }
    requires width { width ≤ 64 }
    ensures writes { DisplaysOnOk W.write_str_gives f.old result (Some (exact_shown_text base width frac value)) f.new }
    ensures styled { DisplaysStyledOnOk W.write_str_gives f.old result
        (Some (exact_styled_text base (padded_integral (formatter_spec f.old) (is_negative value) (prefix_of base))
        width frac value)) f.new }
{
    if frac > width {
        return f.write_str(shift_text(value, frac).as_ascii_str());
    }
    let magnitude = value.unsigned_abs() as i128;
    let mut text: PlacesText = TextBuffer::new();
    push_exact(&mut text, magnitude, frac, base);
    f.pad_integral(value >= 0, prefix(base), text.as_ascii_str())
}

/// Returns the prefix that `#` puts before the digits.
fn prefix(base: Base) -> &'static str
    ensures { result.now ≡ prefix_of base }
{
    match base {
        Base::Bin => "0b",
        Base::Oct => "0o",
        Base::Dec => "",
        Base::LowerHex | Base::UpperHex => "0x",
    }
}
