//! Bits moved to another fraction length in a mode.

ghost use Rattle.std.specs.Prelude.{◌≡◌, ◌<◌, ◌≤◌, ◌*◌, ◌+◌, ◌^◌, IfSome, MatchOption};
ghost use Rattle.fixed_bits.specs.Ranges.{IsInRange, IsWide};
ghost use Rattle.fixed_bits.specs.Rounded.{IsRounded};
ghost use Rattle.fixed_convert.specs.Rounded.{IsMovedIn, IsNotReformatted, IsReformatted};

use crate::floored::reformat;
use fixed_bits::{
    Format, Number, Policy, ReadMode, lost_fraction, magnitude_mode_of, rounding_increment,
    sign_and_magnitude, signed_number,
};

/// Returns the image of the bits `b`, moved in a mode from fraction length `from` to that of the format, and whether
/// the moved number was out of the policy's range. `None` exactly if it was, under `Checked`.
pub fn reformat_mode(
    format: Format,
    policy: Policy,
    mode: ReadMode,
    b: i128,
    from: u32,
) -> Option<(i128, bool)>
    requires wide { IsWide b }
    requires from { from ≤ 64 }
    ensures moved { MatchOption result (IsNotReformatted mode policy format b from)
        (λ r. IsReformatted mode policy format b from r.0 r.1) }
    ensures range { IfSome result (λ r. IsInRange format.signed format.width r.0) }
    ensures wide { IfSome result (λ r. IsWide r.0) }
{
    if from <= format.frac() {
        return match reformat(format, policy, b, from) {
            Some((image, overflowed)) => Some((image, overflowed)),
            None => None,
        };
    }
    let image = Number::of(moved_back(b, from, format.frac(), mode)).image(format, policy);
    match image.admitted(policy) {
        Some(c) => Some((c, image.is_out_of_range)),
        None => None,
    }
}

/// Moves the bits `b` in a mode from fraction length `from` to a shorter one.
fn moved_back(b: i128, from: u32, to: u32, mode: ReadMode) -> i128
    requires wide { IsWide b }
    requires from { from ≤ 64 }
    requires shorter { to < from }
    ensures { IsMovedIn mode b from to result }
{
    let (negative, magnitude) = sign_and_magnitude(b);
    let ulps = rounded_quotient(magnitude, from - to, mode, negative);
    signed_number(negative, ulps)
}

/// Divides a magnitude by two to the power of `bits`, rounded in a mode.
fn rounded_quotient(magnitude: u64, bits: u32, mode: ReadMode, negative: bool) -> u64
    requires low { 0 < bits }
    requires high { bits ≤ 64 }
    ensures { IsRounded mode negative magnitude (2 ^ bits) result }
{
    let (whole, rest) = parts(magnitude, bits);
    let lost = lost_fraction(rest, power_of_two(bits));
    whole + rounding_increment(lost, whole % 2, magnitude_mode_of(mode, negative))
}

/// Returns a magnitude in units of two to the power of `bits`, and the rest.
#[tactic(auto, using(crate::proofs::RoundedLemmas::half_at_most))]
fn parts(magnitude: u64, bits: u32) -> (u64, u128)
    requires low { 0 < bits }
    requires high { bits ≤ 64 }
    ensures sum { magnitude ≡ result.0 * 2 ^ bits + result.1 }
    ensures rest { result.1 < 2 ^ bits }
    ensures whole { result.0 < 2 ^ 63 }
{
    let unit = power_of_two(bits);
    let magnitude = u128::from(magnitude);
    ((magnitude / unit) as u64, magnitude % unit)
}

/// Returns two to the power of `bits`.
fn power_of_two(bits: u32) -> u128
    requires { bits ≤ 64 }
    ensures { result ≡ 2 ^ bits }
{
    1 << bits
}
