//! Finds, by its binary digits, the fraction lengths at which a numeral is near the middle between two whole numbers of
//! ulps.
//!
//! At a fraction length a numeral is near the middle if the digits after that place are one digit and then many times
//! the other. So one test of a word of digits decides for many lengths, and at most of them it is not near.

ghost use Rattle.std.specs.Prelude.{◌≡◌, ◌⊎◌, ◌+◌, ◌-◌, ◌*◌, ◌%◌, ◌^◌, ◌<◌, ◌≤◌, ℕ, max, min};
ghost use Rattle.std.specs.Int.{bit_at};
ghost use Rattle.fixed_error.specs.Errors.{near_half};
ghost use Rattle.fixed_error.specs.Inner.Words.{IsFarFromHalf};

use crate::rest::{WORD_PARTS, halved_word};

/// 2^123 / 10^18, rounded down.
const RECIPROCAL: u64 = 10_633_823_966_279_326_983;

/// Returns the first 64 binary digits after the point of this many parts of 10^-18, or a slightly lesser number.
pub fn binary_digits(word: u64) -> u64
    requires { word < 10 ^ 18 }
    ensures least { result * 10 ^ 18 ≤ word * 2 ^ 64 }
    ensures most { word * 2 ^ 64 < (result + 3) * 10 ^ 18 }
{
    let product = u128::from(word) * u128::from(RECIPROCAL);
    (product >> 59) as u64
}

/// Returns the digits moved up, with zeros after them.
fn moved_up(digits: u64, places: u32) -> u64
    requires { places < 64 }
    ensures { (i : ℕ) → places ≤ i → i < 64 → bit_at result i ≡ bit_at digits (i - places) }
{
    digits << places
}

/// Marks where a digit differs from the one after it.
fn changes_of(digits: u64) -> u64
    ensures { (i : ℕ) → 1 ≤ i → i < 64 → bit_at result i ≡ (bit_at digits i + bit_at digits (i - 1)) % 2 }
{
    digits ^ moved_up(digits, 1)
}

/// Returns the digits of a word, or'd with the word moved up.
fn joined(digits: u64, places: u32) -> u64
    requires { places < 64 }
    ensures { (i : ℕ) → places ≤ i → i < 64
        → bit_at result i ≡ max (bit_at digits i) (bit_at digits (i - places)) }
{
    digits | moved_up(digits, places)
}

/// Marks where one of the seven digits after a place is a one.
fn any_of_seven(digits: u64) -> u64
    ensures { (i : ℕ) → 7 ≤ i → i < 64 → ((k : ℕ) → k < 7 → bit_at digits (i - 1 - k) ≡ 0) → bit_at result i ≡ 0 }
{
    let two = joined(digits, 1);
    let four = joined(two, 2);
    moved_up(joined(four, 3), 1)
}

/// Marks where nine digits follow of which only the first differs from the others: a one for the place f at bit 63 - f.
#[tactic(auto, using(crate::proofs::HalfLemmas::far_place))]
fn near_places(digits: u64) -> u64
    ensures { (f : ℕ) → f < 53 → bit_at result (63 - f) ≡ 0 → IsFarFromHalf digits f }
{
    let changes = changes_of(digits);
    changes & !any_of_seven(changes)
}

/// The most fraction lengths at which the middle is searched for. After them there are too few digits.
pub const MOST_LENGTHS: usize = 53;

/// Marks at which of those lengths a numeral that is `word` above a whole number may be near the middle: a one for the
/// length f at bit 63 - f.
pub fn near_lengths(word: u64) -> u64
    requires { word < 10 ^ 18 }
    ensures { (f : ℕ) → f < 53 → bit_at result (63 - f) ≡ 0
        → min (word * 2 ^ f % 10 ^ 18) (10 ^ 18 - word * 2 ^ f % 10 ^ 18) < near_half }
{
    near_places(binary_digits(word))
}

/// Returns the least length from `from` on with a one at its bit, or 64 or more if there is none.
pub fn next_length(lengths: u64, from: u32) -> u32
    requires { from < 64 }
    ensures from { from ≤ result }
    ensures none { (f : ℕ) → from ≤ f → f < 64 → f < result → bit_at lengths (63 - f) ≡ 0 }
{
    from + moved_up(lengths, from).leading_zeros()
}

/// Returns the word by which a numeral that is `word` above a whole number is above a whole number of ulps of
/// 2^-`frac`.
///
/// The quotient is taken from the binary digits, since a division of 128 bits is slow.
pub fn word_at(word: u64, frac: u32) -> u64
    requires word { word < 10 ^ 18 }
    requires frac { frac < 64 }
    ensures { result ≡ word * 2 ^ frac % 10 ^ 18 }
{
    let quotient = (binary_digits(word) >> 1) >> (63 - frac);
    let moved = u128::from(word) << frac;
    let rest = (moved - u128::from(quotient) * u128::from(WORD_PARTS)) as u64;
    if rest < WORD_PARTS {
        rest
    } else {
        rest - WORD_PARTS
    }
}

/// `word_at` of a fraction length up to 64.
pub fn word_in_ulps(word: u64, frac: u32) -> u64
    requires word { word < 10 ^ 18 }
    requires frac { frac ≤ 64 }
    ensures { result ≡ word * 2 ^ frac % 10 ^ 18 }
{
    if frac < 64 {
        word_at(word, frac)
    } else {
        halved_word(word_at(word, 63))
    }
}
