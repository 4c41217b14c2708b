//! The bits of numbers that no policy changes.

ghost use Rattle.std.specs.Prelude.{◌≡◌, ◌<◌, ◌^◌, true, IfSome};
ghost use Rattle.fixed_bits.specs.Numbers.{with_sign};
ghost use Rattle.fixed_c.specs.Inner.KeptRange.{IsKeptOf};
ghost use Rattle.fixed_c.specs.Numbers.{has_bits};
ghost use Rattle.fixed_float.specs.Kept.{IsGreatestKept};

use crate::number::FixedNumber;
use fixed_bits::Format;
use fixed_float::{ShortNumber, is_kept};

/// Returns the bits, in the form for C, of the number with that sign and magnitude.
#[inline(always)]
fn bits_of(number: ShortNumber, signed: bool) -> i64
    requires sign { number.negative ≡ true → signed ≡ true }
    requires magnitude { signed ≡ true → number.magnitude < 2 ^ 63 }
    ensures { has_bits signed result (with_sign number.negative number.magnitude) }
{
    let bits = number.magnitude.cast_signed();
    if number.negative { -bits } else { bits }
}

/// Returns the bits of a number if no policy changes it. No branch depends on the sign.
#[inline(always)]
pub fn kept_bits(found: Option<ShortNumber>, format: Format, greatest: u64) -> Option<i64>
    requires { IsGreatestKept format greatest }
    ensures { IfSome result (IsKeptOf format found) }
{
    let number = found?;
    if is_kept(number, format, greatest) {
        Some(bits_of(number, format.signed()))
    } else {
        None
    }
}

/// Returns bits with the flag of a number in range.
#[inline(always)]
pub fn in_range(bits: i64) -> FixedNumber
    ensures { result ≡ record { bits = bits; overflowed = 0 } }
{
    FixedNumber {
        bits,
        overflowed: 0,
    }
}
