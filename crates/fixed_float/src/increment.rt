//! Rounds a share of an ulp in a mode.

ghost use Rattle.std.specs.Prelude.{◌≡◌, ◌⊎◌, ◌+◌, ◌*◌, ◌%◌, ◌^◌, ◌<◌, ◌≤◌, ℕ, if◌then◌else◌};
ghost use Rattle.fixed_bits.specs.Rounded.{IsRounded};

use fixed_bits::{ReadMode, magnitude_mode_of, share_increment};

/// Returns the mode for the sign of a number, without a branch: the sign changes from float to float.
#[inline(always)]
fn by_sign(negative: bool, below: ReadMode, above: ReadMode) -> ReadMode
    ensures { result ≡ (if negative then below else above) }
{
    if negative { below } else { above }
}

/// Returns how many ulps, 0 or 1, rounding in a mode adds to a magnitude's whole ulps if rest / unit of an ulp is left.
/// `negative` is the sign of the number, and `odd` is 1 if the whole number of ulps is odd. Less than half of a unit is
/// rounded alike in any greater unit.
#[inline(always)]
pub fn mode_increment(mode: ReadMode, negative: bool, rest: u64, unit: u64, odd: u64) -> u64
    requires small { rest < unit }
    requires unit { unit < 2 ^ 63 }
    requires odd { odd < 2 }
    ensures rounded { (q den : ℕ) → q % 2 ≡ odd → (unit ≡ den) ⊎ ((2 * rest < unit) × (unit ≤ den))
        → IsRounded mode negative (q * den + rest) den (q + result) }
    ensures most { result ≤ 1 }
{
    let own = by_sign(negative, magnitude_mode_of(mode, true), mode);
    share_increment(rest, unit, odd, own)
}
