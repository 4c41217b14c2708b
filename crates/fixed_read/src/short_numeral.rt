//! Readings of short numerals, from the numbers of their parts.
//!
//! Nearly all numerals are read here: in radix 10 a whole number and a fraction of at most 27 places, in radix 2, 8 or
//! 16 a number and a power of two, whatever the exponent. The others are scanned (`read_number`).

ghost use Rattle.std.specs.Prelude.{◌≡◌, ◌≢◌, ◌+◌, ◌*◌, ◌^◌, ◌<◌, ◌≤◌, ◌↔◌, ◌⊎◌, ◌-ℤ◌, ◌*ℤ◌, ◌≤ℤ◌, ℕ, ℤ, pos, IsTrue};
ghost use Rattle.std.specs.Prelude.{IfSome};
ghost use Rattle.fixed_numeral.specs.Numeral.{Parts, base};
ghost use Rattle.fixed_numeral.specs.declared.radix.Radix.TheVariants.{Dec};
ghost use Rattle.fixed_numeral.specs.PartNumbers.{IsShortNumeral, HasFewDigits};
ghost use Rattle.fixed_numeral.specs.Spelled.{IsSameNumber};
ghost use Rattle.fixed_numeral.specs.Value.{scaled, magnitude};
ghost use Rattle.fixed_read.specs.Inner.BinaryPower.{up_of, down_of, ups, downs};
ghost use Rattle.fixed_bits.specs.LostFractions.{IsLostFraction};
ghost use Rattle.fixed_read.specs.Inner.Rounding.{IsMagnitude};

use crate::decimal_block::{ulps_of_few_places, ulps_of_many_places};
use crate::magnitude::{Ulps, rounded_share, rounded_ulps};
use crate::shifts::{power_of_two, shl, shl_u64, to_u64};
use fixed_bits::{LostFraction, ReadMode};
use fixed_numeral::{Radix, ShortNumeral, power_of_ten};

/// A whole number and a decimal fraction of at most 27 places.
#[derive(Clone, Copy)]
pub struct Decimal {
    whole: u64,
    fraction: u128,
    places: u32,
    ghost room: { whole + 1 < 2 ^ 64 },
    ghost below: { fraction < 10 ^ places },
    ghost few: { places ≤ 27 },
}

/// Returns the magnitude of a decimal in ulps of 2^-frac. Up to 13 places all but the sum fits a word.
#[tactic(auto, using(crate::proofs::ShareLemmas::with_whole))]
#[inline(always)]
fn ulps_of_decimal(decimal: Decimal, frac: u32, mode: ReadMode) -> Ulps
    requires { frac ≤ 64 }
    ensures { IsMagnitude mode
        (record { num = decimal.whole * 10 ^ decimal.places + decimal.fraction; den = 10 ^ decimal.places }) frac
        result }
{
    if decimal.places > 13 {
        let (ulps, lost) = ulps_of_many_places(decimal.fraction, decimal.places, frac);
        let count = shl(u128::from(decimal.whole), frac) + u128::from(ulps);
        return rounded_ulps(count, lost, mode);
    }
    let shared = ulps_of_few_places(to_u64(decimal.fraction), decimal.places, frac);
    let count = shl(u128::from(decimal.whole), frac) + u128::from(shared.ulps);
    rounded_share(count, shared.rest, shared.unit, mode)
}

/// Returns digits * 10^up as a decimal. `None`: it is too large.
fn whole_decimal(digits: u64, up: u64) -> Option<Decimal>
    ensures { IfSome result (λ d. (d.whole ≡ digits * 10 ^ up) × (d.fraction ≡ 0) × (d.places ≡ 0)) }
{
    if up > 19 {
        return None;
    }
    let number = u128::from(digits) * u128::from(power_of_ten(up as u32));
    if number >= u128::from(u64::MAX) {
        return None;
    }
    Some(Decimal {
        whole: number as u64,
        fraction: 0,
        places: 0,
    })
}

/// Returns digits / 10^down as a decimal. `None`: it has more than 27 places.
fn fraction_decimal(digits: u64, down: u64) -> Option<Decimal>
    requires { digits < 10 ^ 16 }
    ensures { IfSome result (λ d. (d.whole * 10 ^ down + d.fraction ≡ digits) × (d.places ≡ down)) }
{
    if down > 27 {
        return None;
    }
    let places = down as u32;
    if down >= 16 {
        return Some(Decimal {
            whole: 0,
            fraction: u128::from(digits),
            places,
        });
    }
    let power = power_of_ten(places);
    let whole = digits / power;
    Some(Decimal {
        whole,
        fraction: u128::from(digits - whole * power),
        places,
    })
}

/// Returns a number if it is not negative, else 0.
fn up_of(net: i64) -> u64
    ensures { result ≡ up_of net }
{
    if net < 0 { 0 } else { net as u64 }
}

/// Returns the magnitude of a negative number, else 0.
fn down_of(net: i64) -> u64
    requires { (pos 0 -ℤ pos (2 ^ 40)) ≤ℤ net }
    ensures { result ≡ down_of net }
{
    if net < 0 { (-net) as u64 } else { 0 }
}

/// Returns a number times a power of ten as a decimal. `None`: it has more than 27 places, or is too large.
fn scaled_decimal(digits: u64, power: i64) -> Option<Decimal>
    requires digits { digits < 10 ^ 16 }
    requires least { (pos 0 -ℤ pos (2 ^ 40)) ≤ℤ power }
    ensures { IfSome result (λ d. IsSameNumber
        (record { num = d.whole * 10 ^ d.places + d.fraction; den = 10 ^ d.places }) (scaled digits 1 10 power)) }
{
    if power > 0 {
        whole_decimal(digits, up_of(power))
    } else {
        fraction_decimal(digits, down_of(power))
    }
}

/// Returns all digits of a short numeral as one number.
#[inline(always)]
fn decimal_digits(found: ShortNumeral) -> u64
    requires { HasFewDigits 10 found.whole found.fraction found.places }
    ensures digits { result ≡ found.whole * 10 ^ found.places + found.fraction }
    ensures most { result < 10 ^ 16 }
{
    found.whole * power_of_ten(found.places) + to_u64(found.fraction)
}

/// Returns a short numeral in radix 10 as a decimal. `None`: its digits must be read.
#[inline(always)]
fn decimal_of(found: ShortNumeral) -> Option<Decimal>
    requires { HasFewDigits 10 found.whole found.fraction found.places }
    ensures { IfSome result (λ d. IsSameNumber
        (record { num = d.whole * 10 ^ d.places + d.fraction; den = 10 ^ d.places })
        (scaled (found.whole * 10 ^ found.places + found.fraction) 1 10 (found.exponent -ℤ pos found.places))) }
{
    scaled_decimal(
        decimal_digits(found),
        i64::from(found.exponent) - i64::from(found.places),
    )
}

/// Returns the magnitude of a short numeral in radix 10 with an exponent in ulps of 2^-frac. `None`: its digits must be
/// read. It is not part of `decimal_ulps`, so that the result of a call has room in memory only if there is an
/// exponent.
#[inline(always)]
fn scaled_ulps(found: ShortNumeral, frac: u32, mode: ReadMode) -> Option<Ulps>
    requires few { HasFewDigits 10 found.whole found.fraction found.places }
    requires frac { frac ≤ 64 }
    ensures { IfSome result (λ ulps. IsMagnitude mode
        (scaled (found.whole * 10 ^ found.places + found.fraction) 1 10
        (found.exponent -ℤ pos found.places)) frac ulps) }
{
    match decimal_of(found) {
        Some(decimal) => Some(ulps_of_decimal(decimal, frac, mode)),
        None => None,
    }
}

/// Returns the magnitude of a short numeral in radix 10 in ulps of 2^-frac. `None`: its digits must be read.
#[inline(always)]
fn decimal_ulps(found: ShortNumeral, frac: u32, mode: ReadMode) -> Option<Ulps>
    requires fraction { found.fraction < 10 ^ found.places }
    requires whole { found.whole < 10 ^ 16 }
    requires places { found.places ≤ 27 }
    requires few { found.exponent ≢ pos 0 → HasFewDigits 10 found.whole found.fraction found.places }
    requires frac { frac ≤ 64 }
    ensures { IfSome result (λ ulps. IsMagnitude mode
        (scaled (found.whole * 10 ^ found.places + found.fraction) 1 10
        (found.exponent -ℤ pos found.places)) frac ulps) }
{
    if found.exponent != 0 {
        return scaled_ulps(found, frac, mode);
    }
    let decimal = Decimal {
        whole: found.whole,
        fraction: found.fraction,
        places: found.places,
    };
    Some(ulps_of_decimal(decimal, frac, mode))
}

/// Returns what is lost if `rest` of the `2 * half` parts of an ulp are left.
#[inline(always)]
fn lost_fraction_of_bits(rest: u64, half: u64) -> LostFraction
    requires { rest < 2 * half }
    ensures { IsLostFraction result rest (2 * half) }
{
    if rest == 0 {
        LostFraction::Zero
    } else if rest < half {
        LostFraction::LessThanHalf
    } else if rest == half {
        LostFraction::Half
    } else {
        LostFraction::MoreThanHalf
    }
}

/// Returns what is lost of digits / 2^by, which is less than one.
fn lost_far_down(digits: u64, by: u64) -> LostFraction
    requires { 64 ≤ by }
    ensures { IsLostFraction result digits (2 ^ by) }
{
    if by == 64 {
        return lost_fraction_of_bits(digits, power_of_two(63));
    }
    if digits == 0 {
        LostFraction::Zero
    } else {
        LostFraction::LessThanHalf
    }
}

/// Returns the whole part of digits / 2^by, and what is lost.
#[inline(always)]
fn shifted_down(digits: u64, by: u64) -> (u64, LostFraction)
    requires some { 0 < by }
    ensures { (rest : ℕ) × (digits ≡ result.0 * 2 ^ by + rest) × IsLostFraction result.1 rest (2 ^ by) }
{
    if by >= 64 {
        return (0, lost_far_down(digits, by));
    }
    let bits = by as u32;
    let count = digits >> bits;
    let rest = digits - shl_u64(count, bits);
    (count, lost_fraction_of_bits(rest, power_of_two(bits - 1)))
}

/// Rounds the magnitude of digits / 2^by ulps.
#[tactic(auto, using(crate::proofs::ShortNumeralLemmas::lowered_split))]
#[inline(always)]
fn lowered_ulps(digits: u64, by: u64, mode: ReadMode) -> Ulps
    requires { 0 < by }
    ensures { (num den frac : ℕ) → 0 < den → digits * den ≡ num * 2 ^ frac * 2 ^ by
        → IsMagnitude mode (record { num = num; den = den }) frac result }
{
    let (count, lost) = shifted_down(digits, by);
    rounded_ulps(u128::from(count), lost, mode)
}

/// Whether a number is above a limit.
fn exceeds(number: u64, limit: u64) -> bool
    ensures { IsTrue result ↔ (limit < number) }
{
    number > limit
}

/// Returns the magnitude of digits * 2^by ulps.
#[inline(always)]
fn raised_ulps(digits: u64, by: u64) -> Ulps
    ensures { (mode : ReadMode) (num den frac : ℕ) → 0 < den → digits * 2 ^ by * den ≡ num * 2 ^ frac
        → IsMagnitude mode (record { num = num; den = den }) frac result }
{
    if by >= 64 {
        return Ulps {
            low: 0,
            has_high_bits: exceeds(digits, 0),
            is_exact: true,
        };
    }
    let bits = by as u32;
    Ulps {
        low: digits << bits,
        has_high_bits: exceeds(digits, u64::MAX >> bits),
        is_exact: true,
    }
}

/// Returns a number times `count`, which is at most 4.
#[inline(always)]
fn times(count: u64, number: i64) -> i64
    requires few { count ≤ 4 }
    requires least { (pos 0 -ℤ pos (2 ^ 32)) ≤ℤ number }
    requires most { number ≤ℤ pos (2 ^ 32) }
    ensures product { result ≡ pos count *ℤ number }
    ensures least { (pos 0 -ℤ pos (2 ^ 34)) ≤ℤ result }
    ensures most { result ≤ℤ pos (2 ^ 34) }
{
    count as i64 * number
}

/// Returns the power of two that multiplies the digits of a numeral, or divides them if it is negative.
#[inline(always)]
fn net_power(bits: u64, places: u32, exponent: i32, scales_by_two: bool) -> i64
    requires { bits ≤ 4 }
    ensures power { result ≡ pos (ups bits places exponent scales_by_two)
        -ℤ pos (downs bits places exponent scales_by_two) }
    ensures least { (pos 0 -ℤ pos (2 ^ 40)) ≤ℤ result }
    ensures most { result ≤ℤ pos (2 ^ 40) }
{
    let unit = if scales_by_two { 1 } else { bits };
    times(unit, i64::from(exponent)) - times(bits, i64::from(places))
}

/// Counts the bits of a digit of radix 2, 8 or 16. It is a sum, since a `match` becomes a jump that is hard to predict.
#[inline(always)]
fn bits_of(radix: Radix) -> u64
    requires { radix ≢ Dec }
    ensures power { 2 ^ result ≡ base radix }
    ensures most { result ≤ 4 }
{
    1 + 2 * u64::from(radix == Radix::Oct) + 3 * u64::from(radix == Radix::Hex)
}

/// Returns all digits of a short numeral as one number. Each digit has `bits` bits.
#[inline(always)]
fn binary_digits(found: ShortNumeral, bits: u64) -> u64
    requires bits { bits ≤ 4 }
    requires few { HasFewDigits (2 ^ bits) found.whole found.fraction found.places }
    ensures { result ≡ found.whole * (2 ^ bits) ^ found.places + found.fraction }
{
    shl_u64(found.whole, bits as u32 * found.places) + to_u64(found.fraction)
}

/// Returns the magnitude of digits / 2^(bits * places), times the exponent's power, in ulps of 2^-frac.
#[inline(always)]
fn binary_ulps(
    digits: u64,
    bits: u64,
    places: u32,
    exponent: i32,
    scales_by_two: bool,
    frac: u32,
    mode: ReadMode,
) -> Ulps
    requires bits { bits ≤ 4 }
    requires frac { frac ≤ 64 }
    ensures { (num den : ℕ) → 0 < den → digits * 2 ^ ups bits places exponent scales_by_two * den
        ≡ num * 2 ^ downs bits places exponent scales_by_two
        → IsMagnitude mode (record { num = num; den = den }) frac result }
{
    let net = net_power(bits, places, exponent, scales_by_two) + i64::from(frac);
    if net >= 0 {
        raised_ulps(digits, net as u64)
    } else {
        lowered_ulps(digits, (-net) as u64, mode)
    }
}

/// Returns the magnitude of a short numeral in ulps of 2^-frac. `None`: its digits must be read.
#[inline(always)]
pub fn short_ulps(found: ShortNumeral, radix: Radix, frac: u32, mode: ReadMode) -> Option<Ulps>
    requires fraction { found.fraction < base radix ^ found.places }
    requires whole { found.whole < base radix ^ 16 }
    requires places { found.places ≤ 27 }
    requires few { ((radix ≢ Dec) ⊎ (found.exponent ≢ pos 0))
        → HasFewDigits (base radix) found.whole found.fraction found.places }
    requires frac { frac ≤ 64 }
    ensures { IfSome result (λ ulps. (p : Parts)
        → IsShortNumeral radix p found.negative found.whole found.fraction found.places found.exponent
        found.scales_by_two → IsMagnitude mode (magnitude radix p) frac ulps) }
{
    match radix {
        Radix::Dec => decimal_ulps(found, frac, mode),
        _ => {
            let bits = bits_of(radix);
            let digits = binary_digits(found, bits);
            Some(binary_ulps(
                digits,
                bits,
                found.places,
                found.exponent,
                found.scales_by_two,
                frac,
                mode,
            ))
        }
    }
}
