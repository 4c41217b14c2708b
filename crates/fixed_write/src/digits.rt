//! Decimal digits, sixteen at a time.
//!
//! A number below 10^16 is split in the lanes of a vector: into four digits a lane, then two, then one. First it is
//! moved up by a power of ten so that its first digit comes first, and one store writes all sixteen characters,
//! whatever the count of digits. So digits need no loop and no branch on their count.

ghost use Rattle.std.specs.Prelude.{◌≡◌, false, ◌+◌, ◌-◌, ◌*◌, ◌/◌, ◌%◌, ◌^◌, ◌<◌, ◌≤◌, [], ◌∷◌, ◌++◌, length, map};
ghost use Rattle.std.specs.Simd.Lanes.{mask_l};
ghost use Rattle.fixed_write.specs.Inner.Fraction.{AppendsReduced};
ghost use Rattle.fixed_write.specs.Inner.Lanes.{pairs_of, digits_of_pairs, is_other_digit};
ghost use Rattle.fixed_write.specs.Texts.{whole_digits, last_digits};

use std::simd::prelude::*;
use text_buffer::TextBuffer;

/// Every power of ten below 2^64.
const POWERS_OF_TEN: [u64; 20] = [
    1,
    10,
    100,
    1_000,
    10_000,
    100_000,
    1_000_000,
    10_000_000,
    100_000_000,
    1_000_000_000,
    10_000_000_000,
    100_000_000_000,
    1_000_000_000_000,
    10_000_000_000_000,
    100_000_000_000_000,
    1_000_000_000_000_000,
    10_000_000_000_000_000,
    100_000_000_000_000_000,
    1_000_000_000_000_000_000,
    10_000_000_000_000_000_000,
];

/// Ten to the power of `exponent`.
#[inline]
pub(crate) fn power_of_ten(exponent: u32) -> u64
    requires { exponent ≤ 19 }
    ensures { result ≡ 10 ^ exponent }
{
    POWERS_OF_TEN[exponent as usize]
}

/// Returns the upper four of eight digits in the lower 16 bits, and the lower four above them. 109_951_163 is 2^40 /
/// 10_000, rounded up.
#[inline(always)]
fn halves(number: u64) -> u64
    requires { number < 10 ^ 8 }
    ensures { result ≡ number / 10000 + number % 10000 * 2 ^ 16 }
{
    (number << 16) - ((number * 109_951_163) >> 40) * ((10_000 << 16) - 1)
}

/// Four digits a lane.
#[inline(always)]
fn fours(number: u64) -> u16x8
    requires { number < 10 ^ 16 }
    ensures { result ≡ number / 10 ^ 12 ∷ number / 10 ^ 8 % 10000 ∷ number / 10000 % 10000 ∷ number % 10000 ∷ 0 ∷ 0 ∷ 0
        ∷ 0 ∷ [] }
{
    let word = halves(number / 100_000_000) + (halves(number % 100_000_000) << 32);
    u16x8::from_le_bytes(u64x2::from_array([word, 0]).to_le_bytes())
}

/// Two digits a lane.
#[inline(always)]
fn pairs(number: u64) -> u16x8
    requires { number < 10 ^ 16 }
    ensures { result ≡ pairs_of number }
{
    let fours = fours(number);
    let hundreds = fours / u16x8::splat(100);
    let rests = fours - hundreds * u16x8::splat(100);
    hundreds.shuffle(rests, [0, 8, 1, 9, 2, 10, 3, 11])
}

/// One digit a lane: the tens in the lower byte of each pair, and the units in the upper byte.
#[inline(always)]
fn digits(number: u64) -> u8x16
    requires { number < 10 ^ 16 }
    ensures { result ≡ digits_of_pairs (pairs_of number) }
{
    let pairs = pairs(number);
    let tens = pairs / u16x8::splat(10);
    ((pairs << 8) - tens * u16x8::splat(2559)).to_le_bytes()
}

/// Returns the sixteen digits of a number, with leading zeros if it has fewer.
#[inline(always)]
fn sixteen_digits(number: u64) -> [u8; 16]
    requires { number < 10 ^ 16 }
    ensures { result ≡ last_digits 10 false 16 number }
{
    (u8x16::splat(b'0') + digits(number)).to_array()
}

/// Returns a number of at most `places` digits, followed by zeros up to sixteen digits.
#[inline(always)]
pub(crate) fn moved_up(number: u64, places: u32) -> u64
    requires places { places ≤ 16 }
    requires number { number < 10 ^ places }
    ensures value { result ≡ number * 10 ^ (16 - places) }
    ensures most { result < 10 ^ 16 }
{
    number * power_of_ten(16 - places)
}

/// Appends a number of at most `places` digits, up to sixteen, with leading zeros if it has fewer.
#[inline(always)]
pub(crate) fn push_sixteen<const N: usize>(out: &mut TextBuffer<N>, number: u64, places: u32)
    requires places { places ≤ 16 }
    requires number { number < 10 ^ places }
    requires room { length out.old + places ≤ N }
    ensures { out.new ≡ out.old ++ last_digits 10 false places number }
{
    out.push_prefix(sixteen_digits(moved_up(number, places)), places as usize);
}

/// Returns a bit for each character, set unless it is the digit zero.
#[inline(always)]
fn other_digits(characters: [u8; 16]) -> u64
    ensures value { result ≡ mask_l (map is_other_digit characters) }
    ensures bits { result < 2 ^ 16 }
{
    u8x16::from_array(characters)
        .simd_ne(u8x16::splat(b'0'))
        .to_bitmask()
}

/// Appends the point and sixteen digits without trailing zeros, or nothing if all are zeros.
#[inline(always)]
pub(crate) fn push_reduced<const N: usize>(out: &mut TextBuffer<N>, number: u64)
    requires sixteen { number < 10 ^ 16 }
    requires room { length out.old + 17 ≤ N }
    ensures { AppendsReduced number 16 out.old out.new }
{
    let characters = sixteen_digits(number);
    let count = 64 - other_digits(characters).leading_zeros() as usize;
    out.push_if(b'.', count > 0);
    out.push_prefix(characters, count);
}

/// Appends the point and twenty digits, whose last four `low` spells, without trailing zeros, or nothing if all are
/// zeros.
#[inline(never)]
pub(crate) fn push_long_reduced<const N: usize>(out: &mut TextBuffer<N>, high: u64, low: u64)
    requires high { high < 10 ^ 16 }
    requires low { low < 10 ^ 4 }
    requires room { length out.old + 21 ≤ N }
    ensures { AppendsReduced (high * 10 ^ 4 + low) 20 out.old out.new }
{
    let first = sixteen_digits(high);
    let others = sixteen_digits(moved_up(low, 4));
    let mask = other_digits(first) + (other_digits(others) << 16);
    let count = 64 - mask.leading_zeros() as usize;
    let many = count.min(16);
    out.push_if(b'.', count > 0);
    out.push_prefix(first, many);
    out.push_prefix(others, count - many);
}

/// Appends a number of at most `places` digits, up to nineteen, with leading zeros if it has fewer.
#[inline(always)]
pub(crate) fn push_places<const N: usize>(out: &mut TextBuffer<N>, number: u64, places: u32)
    requires places { places ≤ 19 }
    requires number { number < 10 ^ places }
    requires room { length out.old + places ≤ N }
    ensures { out.new ≡ out.old ++ last_digits 10 false places number }
{
    if places == 2 {
        push_pair(out, number);
    } else if places <= 16 {
        push_sixteen(out, number, places);
    } else {
        push_long_places(out, number, places);
    }
}

/// Appends the two digits of a number below a hundred.
#[inline(always)]
fn push_pair<const N: usize>(out: &mut TextBuffer<N>, number: u64)
    requires number { number < 100 }
    requires room { length out.old + 2 ≤ N }
    ensures { out.new ≡ out.old ++ last_digits 10 false 2 number }
{
    out.push(b'0' + (number / 10) as u8);
    out.push(b'0' + (number % 10) as u8);
}

/// Appends a number of at most `places` digits, from sixteen to nineteen.
#[inline(never)]
fn push_long_places<const N: usize>(out: &mut TextBuffer<N>, number: u64, places: u32)
    requires long { 16 ≤ places }
    requires places { places ≤ 19 }
    requires number { number < 10 ^ places }
    requires room { length out.old + places ≤ N }
    ensures { out.new ≡ out.old ++ last_digits 10 false places number }
{
    push_sixteen(out, number / 10_000_000_000_000_000, places - 16);
    push_sixteen(out, number % 10_000_000_000_000_000, 16);
}

/// Counts the digits of a number, up to sixteen. A number of `bits` bits has `bits` · log10(2) digits, rounded down, or
/// one more, with 1233 / 4096 for log10(2); a power of ten tells which.
#[inline(always)]
fn digit_count(number: u64) -> u32
    requires some { 0 < number }
    requires sixteen { number < 10 ^ 16 }
    ensures some { 0 < result }
    ensures sixteen { result ≤ 16 }
    ensures low { 10 ^ (result - 1) ≤ number }
    ensures high { number < 10 ^ result }
{
    let fewest = (64 - number.leading_zeros()) * 1233 / 4096;
    fewest + (number >= power_of_ten(fewest)) as u32
}

/// Appends a number of at most sixteen digits, without a leading zero.
#[inline(always)]
fn push_short_whole<const N: usize>(out: &mut TextBuffer<N>, number: u64)
    requires some { 0 < number }
    requires sixteen { number < 10 ^ 16 }
    requires room { length out.old + length (whole_digits 10 false number) ≤ N }
    ensures { out.new ≡ out.old ++ whole_digits 10 false number }
{
    push_sixteen(out, number, digit_count(number));
}

/// Appends the digits of a whole number, at least one, without a leading zero.
#[inline(always)]
pub(crate) fn push_whole<const N: usize>(out: &mut TextBuffer<N>, number: u64)
    requires { length out.old + length (whole_digits 10 false number) ≤ N }
    ensures { out.new ≡ out.old ++ whole_digits 10 false number }
{
    if number < 10 {
        out.push(b'0' + number as u8);
    } else if number < 10_000_000_000_000_000 {
        push_short_whole(out, number);
    } else {
        push_long_whole(out, number);
    }
}

/// Appends a number of more than sixteen digits.
#[inline(never)]
fn push_long_whole<const N: usize>(out: &mut TextBuffer<N>, number: u64)
    requires long { 10 ^ 16 ≤ number }
    requires room { length out.old + length (whole_digits 10 false number) ≤ N }
    ensures { out.new ≡ out.old ++ whole_digits 10 false number }
{
    push_short_whole(out, number / 10_000_000_000_000_000);
    push_sixteen(out, number % 10_000_000_000_000_000, 16);
}
