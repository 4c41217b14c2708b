//! A numeral's value, if some format has it.

ghost use Rattle.std.specs.Prelude.{◌≡◌, ◌≤◌, ◌+◌, ◌*◌, ◌^◌, false};
ghost use Rattle.fixed_numeral.specs.Answer.{IsReadOrRefused};
ghost use Rattle.fixed_least.specs.Inner.Valued.{IsValueOf};

use fixed_bits::{Format, ReadMode};
use fixed_numeral::{ParseFixedError, Radix};
use fixed_read::read_format;
use fixed_steps::Steps;
use std::sync::ledger::Ledger;

/// A value in ulps of 2^-64. Each value of a format is a whole number of these.
#[derive(Clone, Copy, Debug, PartialEq, Eq)]
pub struct Exact {
    /// Whether the numeral has a minus.
    pub negative: bool,
    /// The ulps without their sign.
    pub ulps: u128,
}

/// Returns a format of 64 bits without a sign.
fn long_format(frac: u32) -> Format
    requires { frac ≤ 64 }
    ensures { result ≡ record { signed = false; width = 64; frac = frac } }
{
    Format::new(false, 64, frac).unwrap()
}

/// Returns the ulps of a value by its whole part and the ulps of its fraction.
fn ulps_of(whole: u64, fraction: u64) -> u128
    ensures { result ≡ whole * 2 ^ 64 + fraction }
{
    whole as u128 * 18446744073709551616 + fraction as u128
}

/// Returns the value of a numeral; `None` if no format has it. It reads the numeral once for the ulps of 2^-64, and
/// once more for the whole part if these have more than 64 bits.
///
/// # Errors
///
/// Refuses bytes that are not a numeral of the radix with the kind of their cause.
pub fn exact_of<L: Ledger>(
    bytes: &[u8],
    radix: Radix,
    steps: &mut Steps<L>,
) -> Result<Option<Exact>, ParseFixedError>
    ensures exact { IsReadOrRefused radix bytes.now (IsValueOf radix) result }
{
    let fine = match read_format(bytes, radix, long_format(64), ReadMode::TowardsZero, steps) {
        Ok(fine) => fine,
        Err(error) => return Err(error),
    };
    if !fine.is_exact() {
        return Ok(None);
    }
    let negative = fine.is_negative();
    let fraction = fine.magnitude();
    if !fine.has_high_bits() {
        let ulps = fraction as u128;
        return Ok(Some(Exact { negative, ulps }));
    }
    let coarse = match read_format(bytes, radix, long_format(0), ReadMode::TowardsZero, steps) {
        Ok(coarse) => coarse,
        Err(error) => return Err(error),
    };
    if coarse.has_high_bits() {
        return Ok(None);
    }
    let ulps = ulps_of(coarse.magnitude(), fraction);
    Ok(Some(Exact { negative, ulps }))
}
