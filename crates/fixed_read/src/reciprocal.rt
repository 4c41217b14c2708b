//! Division by 5^27 as a multiplication.
//!
//! `RECIPROCAL` is 2^126 / 5^27 rounded down. So `number * RECIPROCAL / 2^126` is at most `number / 5^27`, and for the
//! numbers that a block of 27 digits makes it is less than one below that. Its whole part is therefore the quotient or
//! one less, and the rest says which. A division of 128 bits would take six times as long.

ghost use Rattle.std.specs.Prelude.{◌≡◌, ◌+◌, ◌*◌, ◌^◌, ◌<◌, ◌≤◌};

use crate::decimal_block::FIVE_TO_27;
use crate::shifts::{split_bits, to_u64};

/// 2^126 / 5^27, rounded down.
const RECIPROCAL: u64 = 11417981541647679048;

/// Returns the whole part of `number * RECIPROCAL / 2^126`.
#[inline]
fn estimated_quotient(number: u128) -> u64
    requires { number < 10 ^ 27 * 2 ^ 37 }
    ensures least { result * 2 ^ 126 ≤ number * 11417981541647679048 }
    ensures most { number * 11417981541647679048 < (result + 1) * 2 ^ 126 }
{
    let (high, low) = split_bits(number, 64);
    let upper = high * u128::from(RECIPROCAL);
    let lower = (u128::from(low) * u128::from(RECIPROCAL)) >> 64;
    to_u64((upper + lower) >> 62)
}

/// Divides a number by 5^27. Returns the quotient and the rest.
#[inline]
pub fn divided_by_five_to_27(number: u128) -> (u64, u64)
    requires { number < 10 ^ 27 * 2 ^ 37 }
    ensures split { result.0 * 5 ^ 27 + result.1 ≡ number }
    ensures small { result.1 < 5 ^ 27 }
{
    let quotient = estimated_quotient(number);
    let rest = to_u64(number - u128::from(quotient) * u128::from(FIVE_TO_27));
    if rest < FIVE_TO_27 {
        (quotient, rest)
    } else {
        (quotient + 1, rest - FIVE_TO_27)
    }
}
