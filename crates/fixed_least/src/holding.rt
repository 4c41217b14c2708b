//! Which formats have a value.

ghost use Rattle.std.specs.Prelude.{◌≡◌, ◌↔◌, ◌≤◌, ◌<◌, ◌*◌, ◌/◌, ◌^◌, IsTrue, ℕ, MatchOption, Option};
ghost use Rattle.fixed_bits.specs.Ranges.{IsInRange};
ghost use Rattle.fixed_bits.specs.Numbers.{with_sign};
ghost use Rattle.fixed_least.specs.Inner.Exact.{HasUlps};
ghost use Rattle.fixed_least.specs.Inner.Valued.{HasValue};

use crate::exact::Exact;
use fixed_bits::Format;

/// Whether a number with its sign is in a format's range.
fn fits(format: Format, negative: bool, bits: u128) -> bool
    ensures { IsTrue result ↔ IsInRange format.signed format.width (with_sign negative bits) }
{
    if bits > u64::MAX as u128 {
        return false;
    }
    let number = bits as i128;
    let number = if negative { -number } else { number };
    format.lowest() <= number && number <= format.greatest()
}

/// Converts a number of ulps to longer ulps, rounded down.
fn longer_ulps(ulps: u128, shift: u32) -> u128
    requires { shift ≤ 64 }
    ensures { result ≡ ulps / 2 ^ shift }
{
    ulps >> shift
}

/// Converts a number of longer ulps to ulps.
fn shorter_ulps(bits: u128, shift: u32) -> u128
    requires shift { shift ≤ 64 }
    requires room { bits * 2 ^ shift < 2 ^ 128 }
    ensures { result ≡ bits * 2 ^ shift }
{
    bits << shift
}

/// Converts a number of ulps to longer ulps; `None` if it is not a whole number of them.
fn whole_ulps(ulps: u128, shift: u32) -> Option<u128>
    requires { shift ≤ 64 }
    ensures { MatchOption result ((k : ℕ) → ¬ (ulps ≡ k * 2 ^ shift)) (λ k. ulps ≡ k * 2 ^ shift) }
{
    let bits = longer_ulps(ulps, shift);
    if shorter_ulps(bits, shift) == ulps {
        Some(bits)
    } else {
        None
    }
}

/// Whether a format has a value.
fn has_ulps(format: Format, value: Exact) -> bool
    ensures { IsTrue result ↔ HasUlps format value.negative value.ulps }
{
    match whole_ulps(value.ulps, 64 - format.frac()) {
        Some(bits) => fits(format, value.negative, bits),
        None => false,
    }
}

/// Whether a format has the value of a numeral, which is `None` if no format has it.
pub fn has_value(format: Format, value: Option<Exact>) -> bool
    ensures { IsTrue result ↔ HasValue format value }
{
    match value {
        Some(value) => has_ulps(format, value),
        None => false,
    }
}
