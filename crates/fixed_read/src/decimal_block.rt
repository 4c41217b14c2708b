//! Counts the ulps in a block of decimal digits.
//!
//! A block of n digits spells a number F below 10^n, and the fraction is F / 10^n. In ulps of 2^-frac that is F *
//! 2^frac / 10^n, which is F * 2^(frac - n) / 5^n: one division by a constant finds the whole ulps, and its rest over
//! 5^n is what is lost. With 13 digits all of this fits 64 bits, with 27 it fits 128. Ulps coarser than 2^-32 are made
//! from ulps of 2^-32.

ghost use Rattle.std.specs.Prelude.{◌≡◌, ◌+◌, ◌-◌, ◌*◌, ◌/◌, ◌^◌, ◌<◌, ◌≤◌, ℕ};
ghost use Rattle.fixed_read.specs.Inner.Blocks.{IsCandidate};
ghost use Rattle.fixed_bits.specs.LostFractions.{IsLostFraction};
ghost use Rattle.fixed_read.specs.Inner.Rounding.{IsShare, IsSplitUlps};

use crate::lost_fraction::{is_above_zero, lost_fraction_of};
use crate::reciprocal::divided_by_five_to_27;
use crate::shifts::{power_of_two, shl, shl_u64, split_bits, to_u64};
use fixed_bits::LostFraction;
use fixed_numeral::power_of_ten;

/// 5^13.
const FIVE_TO_13: u64 = 1220703125;

/// 5^27.
pub const FIVE_TO_27: u64 = 7450580596923828125;

/// The whole ulps of a block of 27 digits, and the rest over 5^27 of an ulp.
#[derive(Clone, Copy)]
pub struct Candidate {
    /// The whole ulps.
    pub ulps: u64,
    /// The rest of an ulp, over 5^27.
    pub rest: u64,
    /// All digits after the block together count at most 2^bits / 5^27 of an ulp.
    pub bits: u32,
    ghost small: { rest < 7450580596923828125 },
    ghost few: { bits ≤ 37 },
}

/// Returns the lost fraction for rest / unit of an ulp.
#[inline]
pub fn lost_fraction_of_share(rest: u64, unit: u64) -> LostFraction
    requires small { rest < unit }
    requires most { unit < 2 ^ 63 }
    ensures { IsLostFraction result rest unit }
{
    let twice = rest + rest;
    if rest == 0 {
        LostFraction::Zero
    } else if twice < unit {
        LostFraction::LessThanHalf
    } else if twice == unit {
        LostFraction::Half
    } else {
        LostFraction::MoreThanHalf
    }
}

/// Converts ulps and what is lost to ulps that are 2^bits times as coarse.
#[inline]
pub fn coarser_ulps(ulps: u64, lost: LostFraction, bits: u32) -> (u64, LostFraction)
    requires some { 0 < bits }
    requires bits { bits ≤ 32 }
    ensures split { (num den frac : ℕ) → IsSplitUlps num den (frac + bits) ulps lost
        → IsSplitUlps num den frac result.0 result.1 }
    ensures whole { result.0 ≡ ulps / 2 ^ bits }
{
    let (whole, low) = split_bits(u128::from(ulps), bits);
    (
        to_u64(whole),
        lost_fraction_of(low, power_of_two(bits - 1), is_above_zero(lost)),
    )
}

/// Divides a number by 5^13. Returns the quotient and the rest.
#[inline]
fn divided_by_five_to_13(number: u64) -> (u64, u64)
    ensures split { result.0 * 1220703125 + result.1 ≡ number }
    ensures small { result.1 < 1220703125 }
{
    let quotient = number / FIVE_TO_13;
    (quotient, number - quotient * FIVE_TO_13)
}

/// Whole ulps, and the rest of an ulp over a unit.
#[derive(Clone, Copy)]
pub struct SharedUlps {
    /// The whole ulps.
    pub ulps: u64,
    /// The rest of an ulp, over the unit.
    pub rest: u64,
    /// The unit, which makes an ulp.
    pub unit: u64,
}

/// Returns the ulps of 2^-(32 + finer) in a block of 13 digits, and the rest over 5^13 of one.
#[inline(always)]
fn fine_block_of_13(block: u64, finer: u32) -> (u64, u64)
    requires block { block < 10 ^ 13 }
    requires finer { finer ≤ 32 }
    ensures split { result.0 * 1220703125 + result.1 ≡ block * 2 ^ 19 * 2 ^ finer }
    ensures below { result.0 < 2 ^ 32 * 2 ^ finer }
    ensures small { result.1 < 1220703125 }
{
    let (ulps, rest) = divided_by_five_to_13(shl_u64(block, 19));
    let (more, left) = divided_by_five_to_13(shl_u64(rest, finer));
    (shl_u64(ulps, finer) + more, left)
}

/// Returns the ulps of 2^-frac in a block of 13 digits. They are made from ulps of 2^-32: first finer, then coarser
/// ones. At least one of the two steps does nothing. Which one is not tested, since it changes from numeral to numeral.
#[inline(always)]
fn block_of_13(block: u64, frac: u32) -> SharedUlps
    requires block { block < 10 ^ 13 }
    requires frac { frac ≤ 64 }
    ensures share { IsShare block (10 ^ 13) frac result.ulps result.rest result.unit }
    ensures below { result.ulps < 2 ^ frac }
    ensures most { result.unit < 2 ^ 63 }
{
    let coarser = 32_u32.saturating_sub(frac);
    let (fine, left) = fine_block_of_13(block, frac.saturating_sub(32));
    let ulps = fine >> coarser;
    let low = fine - shl_u64(ulps, coarser);
    SharedUlps {
        ulps,
        rest: low * FIVE_TO_13 + left,
        unit: shl_u64(FIVE_TO_13, coarser),
    }
}

/// Returns the candidate of a block of 27 digits, for ulps of at most 2^-32.
#[inline]
pub fn candidate_of(block: u128, frac: u32) -> Candidate
    requires block { block < 10 ^ 27 }
    requires least { 32 ≤ frac }
    requires frac { frac ≤ 64 }
    ensures candidate { IsCandidate block 27 frac result.ulps result.rest 7450580596923828125 result.bits }
    ensures bits { result.bits ≡ frac - 27 }
{
    let bits = frac - 27;
    let (ulps, rest) = divided_by_five_to_27(shl(block, bits));
    Candidate { ulps, rest, bits }
}

/// Returns the ulps of 2^-frac in a block of 27 digits, and what is lost, for ulps of at most 2^-32.
#[inline]
fn fine_block_of_27(block: u128, frac: u32) -> (u64, LostFraction)
    requires block { block < 10 ^ 27 }
    requires least { 32 ≤ frac }
    requires frac { frac ≤ 64 }
    ensures split { IsSplitUlps block (10 ^ 27) frac result.0 result.1 }
    ensures below { result.0 < 2 ^ frac }
{
    let found = candidate_of(block, frac);
    (found.ulps, lost_fraction_of_share(found.rest, FIVE_TO_27))
}

/// Returns the ulps of 2^-frac in a block of 27 digits, and what is lost.
#[tactic(auto, using(crate::proofs::ShortNumeralLemmas::coarser_small))]
#[inline]
fn block_of_27(block: u128, frac: u32) -> (u64, LostFraction)
    requires block { block < 10 ^ 27 }
    requires frac { frac ≤ 64 }
    ensures split { IsSplitUlps block (10 ^ 27) frac result.0 result.1 }
    ensures below { result.0 < 2 ^ frac }
{
    if frac >= 32 {
        return fine_block_of_27(block, frac);
    }
    let (ulps, lost) = fine_block_of_27(block, 32);
    coarser_ulps(ulps, lost, 32 - frac)
}

/// Returns the ulps of 2^-frac in fraction / 10^places, and what is left, for at most 13 places.
#[tactic(auto, using(crate::proofs::ShortNumeralLemmas::padded_room, crate::proofs::ShareLemmas::padded_share))]
#[inline(always)]
pub fn ulps_of_few_places(fraction: u64, places: u32, frac: u32) -> SharedUlps
    requires fraction { fraction < 10 ^ places }
    requires places { places ≤ 13 }
    requires frac { frac ≤ 64 }
    ensures share { IsShare fraction (10 ^ places) frac result.ulps result.rest result.unit }
    ensures below { result.ulps < 2 ^ frac }
    ensures most { result.unit < 2 ^ 63 }
{
    block_of_13(fraction * power_of_ten(13 - places), frac)
}

/// Returns the ulps of 2^-frac in fraction / 10^places, and what is lost.
#[tactic(auto, using(crate::proofs::ShortNumeralLemmas::padded_room, crate::proofs::ShortNumeralLemmas::padded_split))]
#[inline]
pub fn ulps_of_many_places(fraction: u128, places: u32, frac: u32) -> (u64, LostFraction)
    requires fraction { fraction < 10 ^ places }
    requires least { 8 ≤ places }
    requires places { places ≤ 27 }
    requires frac { frac ≤ 64 }
    ensures split { IsSplitUlps fraction (10 ^ places) frac result.0 result.1 }
    ensures below { result.0 < 2 ^ frac }
{
    block_of_27(fraction * u128::from(power_of_ten(27 - places)), frac)
}
