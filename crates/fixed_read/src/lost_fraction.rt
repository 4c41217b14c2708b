//! What rounding to whole ulps loses, as far as it matters: nothing, less than half, half or more than half of an ulp.

ghost use Rattle.std.specs.Prelude.{◌≡◌, ◌+◌, ◌*◌, ◌%◌, ◌<◌, ◌≤◌, ◌↔◌, ℕ, IsTrue, false};
ghost use Rattle.fixed_bits.specs.LostFractions.{IsLostFraction};
ghost use Rattle.fixed_bits.specs.Rounded.{IsRounded};

use fixed_bits::{LostFraction, ReadMode, rounding_increment};

/// Whether nothing is lost.
pub fn is_zero(lost: LostFraction) -> bool
    ensures { (s den : ℕ) → 0 < den → IsLostFraction lost s den → IsTrue result ↔ (s ≡ 0) }
{
    match lost {
        LostFraction::Zero => true,
        LostFraction::LessThanHalf => false,
        LostFraction::Half => false,
        LostFraction::MoreThanHalf => false,
    }
}

/// Whether anything is lost.
pub fn is_above_zero(lost: LostFraction) -> bool
    ensures { (s den : ℕ) → 0 < den → IsLostFraction lost s den → IsTrue result ↔ (0 < s) }
{
    match lost {
        LostFraction::Zero => false,
        LostFraction::LessThanHalf => true,
        LostFraction::Half => true,
        LostFraction::MoreThanHalf => true,
    }
}

/// Returns what is lost if `rest` of the `2 * half` parts of an ulp are left and, if `more`, a positive share of one
/// part as well.
#[tactic(auto, using(crate::proofs::LostLemmas::tail_above))]
pub fn lost_fraction_of(rest: u64, half: u64, more: bool) -> LostFraction
    requires { rest < 2 * half }
    ensures { (d y : ℕ) → y < d → (IsTrue more ↔ (0 < y)) → IsLostFraction result (rest * d + y) (2 * half * d) }
{
    if more {
        return if rest < half {
            LostFraction::LessThanHalf
        } else {
            LostFraction::MoreThanHalf
        };
    }
    if rest == 0 {
        LostFraction::Zero
    } else if rest < half {
        LostFraction::LessThanHalf
    } else if rest == half {
        LostFraction::Half
    } else {
        LostFraction::MoreThanHalf
    }
}

/// How many ulps rounding adds for a lost fraction: none or one. `odd` is 1 if the count of whole ulps is odd.
// The nearest ulp is found by cases: as quarters, with all modes, a decimal of 14 places takes ten instructions more.
#[tactic(auto, using(crate::proofs::LostLemmas::nearest_by_lost))]
#[inline]
pub fn lost_increment(lost: LostFraction, odd: u64, mode: ReadMode) -> u64
    requires { odd < 2 }
    ensures to { (q s den : ℕ) → 0 < den → q % 2 ≡ odd
        → IsLostFraction lost s den → IsRounded mode false (q * den + s) den (q + result) }
    ensures most { result ≤ 1 }
{
    match mode {
        ReadMode::NearestEven => match lost {
            LostFraction::Zero => 0,
            LostFraction::LessThanHalf => 0,
            LostFraction::Half => odd,
            LostFraction::MoreThanHalf => 1,
        },
        _ => rounding_increment(lost, odd, mode),
    }
}

/// Whether nothing is left.
#[inline]
pub fn is_nothing(rest: u64) -> bool
    ensures { IsTrue result ↔ (rest ≡ 0) }
{
    rest == 0
}
