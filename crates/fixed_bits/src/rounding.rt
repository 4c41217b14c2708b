//! Rounding a magnitude to whole units: the one table of modes, by what remains of a unit after the whole ones.

ghost use Rattle.std.specs.Prelude.{◌≡◌, ◌+◌, ◌*◌, ◌%◌, ◌^◌, ◌<◌, ◌≤◌, ℕ, false};
ghost use Rattle.fixed_bits.specs.LostFractions.{IsLostFraction, quarters};
ghost use Rattle.fixed_bits.specs.Rounded.{IsRounded};

use crate::mode::ReadMode;

/// What remains of a unit after the whole ones.
#[derive(Clone, Copy, Debug, PartialEq, Eq)]
pub enum LostFraction {
    /// Nothing.
    Zero,
    /// More than nothing, and less than half of a unit.
    LessThanHalf,
    /// Half of a unit.
    Half,
    /// More than half of a unit, and less than one.
    MoreThanHalf,
}

/// Compares a rest to its unit.
pub fn lost_fraction(rest: u128, unit: u128) -> LostFraction
    requires rest { rest < unit }
    requires unit { unit ≤ 2 ^ 64 }
    ensures { IsLostFraction result rest unit }
{
    if rest == 0 {
        LostFraction::Zero
    } else if 2 * rest < unit {
        LostFraction::LessThanHalf
    } else if 2 * rest == unit {
        LostFraction::Half
    } else {
        LostFraction::MoreThanHalf
    }
}

/// How many units rounding adds to a magnitude of whole units and `rest / unit` of one: none or one. `odd` is 1 if the
/// count of whole units is odd. The mode is that of a magnitude, see `magnitude_mode_of`.
// One comparison decides in each mode, because a branch on the rest cannot be predicted.
#[inline(always)]
pub fn share_increment(rest: u64, unit: u64, odd: u64, mode: ReadMode) -> u64
    requires small { rest < unit }
    requires unit { unit ≤ 2 ^ 63 }
    requires odd { odd < 2 }
    ensures to { (q : ℕ) → q % 2 ≡ odd → IsRounded mode false (q * unit + rest) unit (q + result) }
    ensures most { result ≤ 1 }
{
    match mode {
        ReadMode::NearestEven => u64::from(rest + rest + odd > unit),
        ReadMode::NearestAway | ReadMode::NearestUp => u64::from(rest + rest >= unit),
        ReadMode::NearestZero | ReadMode::NearestDown => u64::from(rest + rest > unit),
        ReadMode::Floor | ReadMode::TowardsZero => 0,
        ReadMode::Ceil | ReadMode::AwayFromZero => u64::from(rest > 0),
    }
}

/// Returns how many quarters of a unit stand for a lost fraction.
fn quarters_of(lost: LostFraction) -> u64
    ensures { result ≡ quarters lost }
{
    match lost {
        LostFraction::Zero => 0,
        LostFraction::LessThanHalf => 1,
        LostFraction::Half => 2,
        LostFraction::MoreThanHalf => 3,
    }
}

/// How many units rounding adds for a lost fraction: none or one. It is rounded as its quarters are.
#[inline]
pub fn rounding_increment(lost: LostFraction, odd: u64, mode: ReadMode) -> u64
    requires { odd < 2 }
    ensures to { (q s den : ℕ) → 0 < den → q % 2 ≡ odd
        → IsLostFraction lost s den → IsRounded mode false (q * den + s) den (q + result) }
    ensures most { result ≤ 1 }
{
    share_increment(quarters_of(lost), 4, odd, mode)
}
