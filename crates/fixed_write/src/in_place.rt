//! Numbers appended to a text in place, without allocation: to a count of places, and exactly.

ghost use Rattle.std.specs.Prelude.{◌≡◌, ◌+◌, ◌*◌, ◌^◌, ◌≤◌, ◌++◌, false, length};
ghost use Rattle.std.specs.Str.{IsAscii};
ghost use Rattle.fixed_bits.specs.Numbers.{with_sign};
ghost use Rattle.fixed_bits.specs.Ranges.{IsWide};
ghost use Rattle.fixed_write.specs.Places.{IsRoundedText, IsExactText, rounded_text, exact_text};
ghost use Rattle.fixed_write.specs.Inner.Digits.{AppendsExact};
ghost use Rattle.fixed_write.specs.Bases.{number_of, has_capitals};

use crate::places::{Split, push_exact_decimal, push_exact_in, push_rounded_in, split_of};
use crate::printer::{is_below_zero, magnitude_of, push_sign};
use fixed_bits::{ReadMode, magnitude_mode_of};
use text_buffer::TextBuffer;

/// The base of the digits of an exact text, and the case of its letters.
#[derive(Clone, Copy, Debug, PartialEq, Eq)]
pub enum Base {
    Bin,
    Oct,
    Dec,
    LowerHex,
    UpperHex,
}

/// Appends `value` ulps of 2^-`frac` in decimal with `places` digits after the point, rounded in a mode. There must be
/// room for 130 bytes.
#[inline]
pub fn push_decimal<const N: usize>(
    out: &mut TextBuffer<N>,
    value: i128,
    frac: u32,
    places: u32,
    mode: ReadMode,
)
    requires wide { IsWide value }
    requires frac { frac ≤ 64 }
    requires places { places ≤ 64 }
    requires room { length out.old + 130 ≤ N }
    ensures appended { out.new ≡ out.old ++ rounded_text mode 10 false places value frac }
    ensures rounded { IsRoundedText mode 10 false places value frac (rounded_text mode 10 false places value frac) }
    ensures short { length (rounded_text mode 10 false places value frac) ≤ 86 }
    ensures ascii { IsAscii (rounded_text mode 10 false places value frac) }
{
    let negative = value < 0;
    push_sign(out, negative);
    let split = split_of(magnitude_of(value), frac);
    let own_mode = magnitude_mode_of(mode, negative);
    push_rounded_in::<10, 19, N>(out, split, places, false, own_mode);
}

/// Appends `value` ulps of 2^-`frac` exactly, in the fewest places. There must be room for 130 bytes.
pub fn push_exact<const N: usize>(out: &mut TextBuffer<N>, value: i128, frac: u32, base: Base)
    requires wide { IsWide value }
    requires frac { frac ≤ 64 }
    requires room { length out.old + 130 ≤ N }
    ensures appended { out.new ≡ out.old ++ exact_text (number_of base) (has_capitals base) value frac }
    ensures exact { IsExactText (number_of base) (has_capitals base) value frac
        (exact_text (number_of base) (has_capitals base) value frac) }
    ensures short { length (exact_text (number_of base) (has_capitals base) value frac) ≤ 130 }
    ensures ascii { IsAscii (exact_text (number_of base) (has_capitals base) value frac) }
{
    push_sign(out, value < 0);
    let split = split_of(magnitude_of(value), frac);
    push_exact_digits(out, split, base);
}

/// Appends the number of ulps of 2^-`frac` with this sign and magnitude exactly in decimal, as `push_exact` does.
#[inline]
pub fn push_signed_exact<const N: usize>(
    out: &mut TextBuffer<N>,
    negative: bool,
    magnitude: u64,
    frac: u32,
)
    requires frac { frac ≤ 64 }
    requires room { length out.old + 130 ≤ N }
    ensures appended { out.new ≡ out.old ++ exact_text 10 false (with_sign negative magnitude) frac }
    ensures exact { IsExactText 10 false (with_sign negative magnitude) frac
        (exact_text 10 false (with_sign negative magnitude) frac) }
    ensures short { length (exact_text 10 false (with_sign negative magnitude) frac) ≤ 130 }
    ensures ascii { IsAscii (exact_text 10 false (with_sign negative magnitude) frac) }
{
    push_sign(out, is_below_zero(negative, magnitude));
    push_exact_decimal(out, split_of(magnitude, frac));
}

/// Appends a value exactly in a base.
fn push_exact_digits<const N: usize>(out: &mut TextBuffer<N>, value: Split, base: Base)
    requires { length out.old + 129 ≤ N }
    ensures { AppendsExact (number_of base) (has_capitals base) (value.whole * 2 ^ 64 + value.rest) 64 out.old out.new }
{
    match base {
        Base::Bin => push_exact_in::<2, N>(out, value, false),
        Base::Oct => push_exact_in::<8, N>(out, value, false),
        Base::Dec => push_exact_decimal(out, value),
        Base::LowerHex => push_exact_in::<16, N>(out, value, false),
        Base::UpperHex => push_exact_in::<16, N>(out, value, true),
    }
}
