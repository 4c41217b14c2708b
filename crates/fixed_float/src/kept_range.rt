//! Numbers that no policy changes. Their greatest magnitude depends only on the format and is computed once for many.

ghost use Rattle.std.specs.Prelude.{◌≡◌, ◌-◌, ◌<◌, ◌≤◌, ◌^◌, true, IsTrue};
ghost use Rattle.fixed_bits.specs.Formats.{IsFormat};
ghost use Rattle.fixed_float.specs.Kept.{IsGreatestKept, IsKept};

use crate::short::ShortNumber;
use fixed_bits::Format;

/// Returns two to the power of a format's width less one.
fn half_turn(format: Format) -> u64
    ensures power { result ≡ 2 ^ (format.width - 1) }
    ensures some { 0 < result }
    ensures most { result ≤ 2 ^ 63 }
    ensures valid { IsFormat format.width format.frac }
{
    1 << (format.width() - 1)
}

/// Returns the greatest magnitude of a format's numbers, except the lowest number of a signed format: no policy changes
/// these.
pub fn greatest_kept(format: Format) -> u64
    ensures { IsGreatestKept format result }
{
    let half = half_turn(format);
    if format.signed() {
        half - 1
    } else {
        half - 1 + half
    }
}

/// Whether a number's magnitude is at most `greatest` and it is not negative in an unsigned format. No branch depends
/// on the sign.
#[inline(always)]
pub fn is_kept(number: ShortNumber, format: Format, greatest: u64) -> bool
    requires { IsGreatestKept format greatest }
    ensures kept { IsTrue result → IsKept format number }
    ensures sign { IsTrue result → number.negative ≡ true → format.signed ≡ true }
    ensures signed { IsTrue result → format.signed ≡ true → number.magnitude < 2 ^ 63 }
{
    (number.magnitude <= greatest) & (format.signed() | !number.negative)
}
