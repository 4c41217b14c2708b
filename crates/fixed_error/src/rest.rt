//! How far a numeral is above a whole number of ulps, to some 36 digits.

ghost use Rattle.std.specs.Prelude.{◌≡◌, ◌⊎◌, ◌<◌, ◌≤◌, ◌+◌, ◌-◌, ◌*◌, ◌^◌, ◌%◌, drop, min, List, ℕ, if◌then◌else◌};
ghost use Rattle.std.specs.Prelude.{IfSome, pos};
ghost use Rattle.std.specs.Int.Digits.{AllBelowBase};
ghost use Rattle.fixed_numeral.specs.Numeral.{HasNumeral, IsNumeral, Parts, base};
ghost use Rattle.fixed_numeral.specs.Scanned.{IsScanned, exponent_unit};
ghost use Rattle.fixed_numeral.specs.declared.radix.Radix.TheVariants.{Dec};
ghost use Rattle.fixed_error.specs.Errors.{block, parts};
ghost use Rattle.fixed_error.specs.Inner.Rest.{IsBehindBy, IsRest, first_number, rest_of_word};
ghost use Rattle.fixed_error.specs.Short.{IsShortRead};

use crate::gap::power_of_two;
use fixed_numeral::{DigitView, Radix, Scanned, ShortNumeral, power_of_ten, scan};
use fixed_steps::Steps;
use std::sync::ledger::Ledger;

/// How far a numeral is above a whole number of ulps.
#[derive(Clone, Copy, Debug, PartialEq, Eq)]
pub struct Rest {
    /// The number of parts in an ulp.
    pub one: u128,
    /// The least number of parts that the numeral is above a whole number.
    pub rest: u128,
    /// The most parts that it is above that.
    pub slack: u128,
}

/// How far a numeral is above a whole number.
#[derive(Clone, Copy, Debug, PartialEq, Eq)]
pub enum Behind {
    /// By exactly this many parts, each 10^-18 of an ulp.
    ByWord(u64),
    /// By the parts of a `Rest`, and at most its slack more.
    ByParts(Rest),
}

/// The number of parts in a whole number if a numeral is above one by a word.
pub const WORD_PARTS: u64 = 1_000_000_000_000_000_000;

/// Returns the number of digits that are taken at a time.
pub fn block_of(radix: Radix) -> u32
    ensures { result ≡ block radix }
{
    match radix {
        Radix::Bin => 60,
        Radix::Oct => 20,
        Radix::Dec => 18,
        Radix::Hex => 15,
    }
}

/// Returns the radix to a power.
pub fn power_of(radix: Radix, count: u32) -> u128
    requires { count ≤ block radix }
    ensures value { result ≡ base radix ^ count }
    ensures small { result ≤ 2 ^ 60 }
{
    match radix {
        Radix::Bin => power_of_two(count),
        Radix::Oct => power_of_two(3 * count),
        Radix::Dec => u128::from(power_of_ten(count)),
        Radix::Hex => power_of_two(4 * count),
    }
}

/// Returns the number that the first digits spell, padded with zeros if there are fewer, and the other digits.
pub fn take_block<'a, L: Ledger>(
    digits: &DigitView<'a>,
    radix: Radix,
    steps: &mut Steps<L>,
) -> (u128, DigitView<'a>)
    requires { AllBelowBase (base radix) digits.now }
    ensures number { result.0 ≡ first_number (base radix) (block radix) digits.now }
    ensures small { result.0 ≤ 2 ^ 60 }
    ensures rest { result.1 ≡ drop (block radix) digits.now }
    ensures cost { steps.new ≤ steps.old + 60 }
{
    let block = block_of(radix);
    let taken = u64::from(block).min(digits.len()) as u32;
    let power = power_of(radix, block - taken);
    let (number, rest) = digits.take_number(radix.base(), block, steps);
    (u128::from(number) * power, rest)
}

/// Returns a remainder. A division of 128 bits is slow, and most numbers are below the divisor.
#[tactic(auto, using(crate::proofs::RestLemmas::rest_of_small))]
fn remainder(number: u128, divisor: u128) -> u128
    requires { 0 < divisor }
    ensures { result ≡ number % divisor }
{
    if number < divisor {
        return number;
    }
    number % divisor
}

/// Returns how far a number of parts is above a whole number of ulps. `is_cut` says whether there is more than that.
fn rest_by(number: u128, unit: u128, one: u128, is_cut: bool) -> Rest
    requires number { number < 2 ^ 121 }
    requires unit { unit ≤ 8 }
    requires some { 0 < one }
    ensures one { result.one ≡ one }
    ensures rest { result.rest ≡ number * unit % one }
    ensures slack { result.slack ≡ if is_cut then unit else 0 }
{
    Rest {
        one,
        rest: remainder(number * unit, one),
        slack: if is_cut { unit } else { 0 },
    }
}

/// Returns how far a scanned numeral is above a whole number.
fn rest_of_scanned<'a, L: Ledger>(found: &Scanned<'a>, radix: Radix, steps: &mut Steps<L>) -> Rest
    requires fraction { AllBelowBase (base radix) found.now.fraction }
    requires bits { found.now.bit_shift < exponent_unit radix }
    ensures { (text : List ℕ) → ((p : Parts) → HasNumeral radix text p → IsScanned radix p found.now.neg
        found.now.whole found.now.fraction found.now.bit_shift) → IsRest radix 0 text result }
{
    let (high, later) = take_block(found.fraction_view(), radix, steps);
    let (low, last) = take_block(&later, radix, steps);
    let unit = power_of(radix, block_of(radix));
    let shift = power_of_two(found.bit_shift());
    rest_by(high * unit + low, shift, unit * unit, !last.is_empty())
}

/// Returns the parts of an ulp in a unit of the last of `places` decimal places.
fn parts_of_place(places: u32) -> u128
    requires { places ≤ 27 }
    ensures { result * 10 ^ places ≡ parts Dec }
{
    let high = places.min(18);
    let first = u128::from(power_of_ten(18 - high));
    let second = u128::from(power_of_ten(18 - (places - high)));
    first * second
}

/// Returns how far a short decimal of at most 18 places is above a whole number, in parts of 10^-18.
pub fn word_of_decimal(found: ShortNumeral) -> u64
    requires below { found.fraction < 10 ^ found.places }
    requires few { found.places ≤ 18 }
    ensures parts { result * 10 ^ found.places ≡ found.fraction * 10 ^ 18 }
    ensures below { result < 10 ^ 18 }
{
    found.fraction as u64 * power_of_ten(18 - found.places)
}

/// Returns how far a short decimal is above a whole number, to 36 places.
fn parts_of_decimal(found: ShortNumeral) -> Rest
    requires below { found.fraction < 10 ^ found.places }
    requires few { found.places ≤ 27 }
    ensures one { result.one ≡ parts Dec }
    ensures parts { result.rest * 10 ^ found.places ≡ found.fraction * parts Dec }
    ensures slack { result.slack ≡ 0 }
{
    let unit = power_of(Radix::Dec, 18);
    Rest {
        one: unit * unit,
        rest: found.fraction * parts_of_place(found.places),
        slack: 0,
    }
}

/// Returns how far a short decimal without an exponent is above a whole number.
fn behind_by_decimal(found: ShortNumeral) -> Behind
    requires below { found.fraction < 10 ^ found.places }
    requires few { found.places ≤ 27 }
    requires flat { found.exponent ≡ pos 0 }
    ensures { (r : Radix) (text : List ℕ) → IsShortRead r text found → IsBehindBy r text result }
{
    if found.places <= 18 {
        return Behind::ByWord(word_of_decimal(found));
    }
    Behind::ByParts(parts_of_decimal(found))
}

/// Returns how far a numeral is above a whole number, by its digits.
fn behind_by_digits<L: Ledger>(text: &[u8], radix: Radix, steps: &mut Steps<L>) -> Behind
    requires { IsNumeral radix text.now }
    ensures { IsBehindBy radix text.now result }
{
    let scanned = scan(text, radix, steps);
    match &scanned {
        Ok(found) => Behind::ByParts(rest_of_scanned(found, radix, steps)),
        Err(_) => unreachable!(),
    }
}

/// Returns how far a numeral is above a whole number, by the numbers of its parts if it was read as a short decimal.
pub fn behind_by<L: Ledger>(
    text: &[u8],
    radix: Radix,
    short: Option<ShortNumeral>,
    steps: &mut Steps<L>,
) -> Behind
    requires numeral { IsNumeral radix text.now }
    requires short { IfSome short (IsShortRead radix text.now) }
    ensures { IsBehindBy radix text.now result }
{
    if let Some(found) = short {
        if found.exponent == 0 {
            return behind_by_decimal(found);
        }
    }
    behind_by_digits(text, radix, steps)
}

/// Returns a word, by which a numeral is above a whole number, in parts of 10^-36.
pub fn rest_of_word(word: u64) -> Rest
    ensures { result ≡ rest_of_word word }
{
    let unit = u128::from(WORD_PARTS);
    Rest {
        one: unit * unit,
        rest: u128::from(word) * unit,
        slack: 0,
    }
}

/// Returns the word by which a numeral that is `word` above a whole number of ulps is above one of ulps half as great.
pub fn halved_word(word: u64) -> u64
    requires { word < 10 ^ 18 }
    ensures { result ≡ 2 * word % 10 ^ 18 }
{
    let twice = 2 * word;
    if twice < WORD_PARTS {
        twice
    } else {
        twice - WORD_PARTS
    }
}

/// Returns how far a numeral that is `word` above a whole number of ulps is from the nearest, in parts of 10^-18.
pub fn near_word(word: u64) -> u64
    requires { word < 10 ^ 18 }
    ensures { result ≡ min word (10 ^ 18 - word) }
{
    word.min(WORD_PARTS - word)
}

/// Returns one more than the greatest whole number of parts of 10^-18 within `least` parts of 10^-36, or than 2^63 if
/// that is less.
pub fn bound_of(least: u128) -> u64
    ensures some { 0 < result }
    ensures within { (result - 1) * 10 ^ 18 ≤ least }
{
    let most = least / u128::from(WORD_PARTS);
    most.min(1 << 63) as u64 + 1
}

/// Returns how far a numeral is above a whole number of ulps half as great.
pub fn halved(rest: Rest) -> Rest
    requires below { rest.rest < rest.one }
    requires one { rest.one ≤ 2 ^ 120 }
    requires slack { rest.slack ≤ 2 ^ 67 }
    ensures one { result.one ≡ rest.one }
    ensures rest { result.rest ≡ 2 * rest.rest ⊎ (result.rest + rest.one ≡ 2 * rest.rest) }
    ensures below { result.rest < rest.one }
    ensures slack { result.slack ≡ 2 * rest.slack }
{
    let twice = 2 * rest.rest;
    Rest {
        one: rest.one,
        rest: if twice < rest.one {
            twice
        } else {
            twice - rest.one
        },
        slack: 2 * rest.slack,
    }
}

/// Returns how far a numeral is from the nearest whole number of ulps, in parts.
fn near(rest: Rest) -> u128
    requires { rest.rest ≤ rest.one }
    ensures { result ≡ min rest.rest (rest.one - rest.rest) }
{
    rest.rest.min(rest.one - rest.rest)
}

/// Returns how far a numeral is at most from the nearest whole number of ulps, in parts.
pub fn most_of(rest: Rest) -> u128
    requires below { rest.rest < rest.one }
    requires one { rest.one ≤ 2 ^ 120 }
    requires slack { rest.slack ≤ 2 ^ 67 }
    ensures { result ≡ min rest.rest (rest.one - rest.rest) + rest.slack }
{
    near(rest) + rest.slack
}

/// Returns how far a numeral is at least from the nearest whole number of ulps, in parts.
pub fn least_of(rest: Rest) -> u128
    requires { rest.rest < rest.one }
    ensures { result ≡ min rest.rest (rest.one - rest.rest) - rest.slack }
{
    near(rest).saturating_sub(rest.slack)
}
