//! Whole numbers in decimal.

ghost use Rattle.std.specs.Prelude.{◌≡◌, ◌+◌, ◌≤◌, ◌++◌, length};
ghost use Rattle.std.specs.Fmt.{signed_decimal};
ghost use Rattle.std.specs.Str.{IsAscii};
ghost use Rattle.fixed_bits.specs.Numbers.{with_sign};
ghost use Rattle.fixed_bits.specs.Ranges.{IsWide};

use crate::digits::push_whole;
use crate::printer::{is_below_zero, push_sign};
use fixed_bits::sign_and_magnitude;
use text_buffer::TextBuffer;

/// Appends a number in decimal: `-` if it is negative, then its digits, at least one, without a leading zero. There
/// must be room for 21 bytes.
#[inline]
pub fn push_integer<const N: usize>(out: &mut TextBuffer<N>, value: i128)
    requires wide { IsWide value }
    requires room { length out.old + 21 ≤ N }
    ensures appended { out.new ≡ out.old ++ signed_decimal value }
    ensures short { length (signed_decimal value) ≤ 21 }
    ensures ascii { IsAscii (signed_decimal value) }
{
    let (negative, magnitude) = sign_and_magnitude(value);
    push_signed_integer(out, negative, magnitude);
}

/// Appends the number with this sign and magnitude in decimal, as `push_integer` does.
#[inline]
pub fn push_signed_integer<const N: usize>(out: &mut TextBuffer<N>, negative: bool, magnitude: u64)
    requires room { length out.old + 21 ≤ N }
    ensures appended { out.new ≡ out.old ++ signed_decimal (with_sign negative magnitude) }
    ensures short { length (signed_decimal (with_sign negative magnitude)) ≤ 21 }
    ensures ascii { IsAscii (signed_decimal (with_sign negative magnitude)) }
{
    push_sign(out, is_below_zero(negative, magnitude));
    push_whole(out, magnitude);
}
