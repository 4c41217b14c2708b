//! Counts the ulps in a decimal fraction of any length, and finds what is lost.
//!
//! The first 27 digits, padded with zeros if there are fewer, are a block F. In ulps of 2^-f that is F * 2^f / 10^27 =
//! F * 2^b / 5^27 with b = f - 27, so one division gives the whole ulps and `rest / 5^27` of one. Let d be the number
//! below 1 that the digits after the block spell as 0.DIGITS. What is lost is then exactly (rest + d * 2^b) / 5^27.
//!
//! This is below one and a half, since 2^b <= 2^37 is less than half of 5^27. Nearly always `rest` and `rest + 2^b` lie
//! both below half of 5^27, or both between half and all of it, and d does not matter. Else comparisons decide: what is
//! lost is less than 1/2^h of an ulp, with h = 1 for the half and h = 0 for the next ulp, exactly if d < (5^27 - rest *
//! 2^h) / 2^(b + h). The right side, start / 2^n, has exactly n = b + h decimal digits, which spell start * 5^n. There
//! are at most 38, so they fit 128 bits. They are compared with as many digits of d; if these are equal, any further
//! digit makes d greater, as the last is never 0.
//!
//! The same with a block of 2 digits and f = 4, so 5^2 = 25 and b = 2: 0.99 makes 99 * 4 = 15 * 25 + 21, that is 15
//! ulps and 21/25 of one, more than half; digits after the block add less than 4/25 and change nothing. 0.96875 has the
//! block 96, and 96 * 4 = 15 * 25 + 9: between 9/25 and 13/25 is lost. Its other digits, d = 0.875, are compared with
//! (25 - 9 * 2) / 2^3 = 7/8, which is 0.875 as well: half is lost.
//!
//! Ulps coarser than 2^-32 are made from ulps of 2^-32.

ghost use Rattle.std.specs.Prelude.{◌≡◌, ◌+◌, ◌-◌, ◌*◌, ◌^◌, ◌<◌, ◌≤◌, ◌⊎◌, [], IsTrue, List, ℕ, drop, false, length};
ghost use Rattle.std.specs.Prelude.{MatchOption};
ghost use Rattle.std.specs.Int.Digits.{number_from_digits, AllBelowBase};
ghost use Rattle.std.specs.Ordering.{MatchOrdering};
ghost use Rattle.fixed_numeral.specs.Place.{NoTrailingZero};
ghost use Rattle.fixed_read.specs.Inner.Blocks.{IsBlockOf, scaled_rest, scaled_unit};
ghost use Rattle.fixed_bits.specs.LostFractions.{IsLostFraction};
ghost use Rattle.fixed_read.specs.Inner.Rounding.{IsFractionUlps, IsSettled};

use crate::decimal_block::{
    Candidate, FIVE_TO_27, candidate_of, coarser_ulps, lost_fraction_of_share,
};
use crate::digits::{is_longer, leading_number, leading_number_u128};
use crate::shifts::{power_of_two, shl_u64};
use fixed_bits::LostFraction;
use fixed_numeral::{DigitView, power_of_ten};
use fixed_steps::Steps;
use std::cmp::Ordering;
use std::sync::ledger::Ledger;

/// Returns 5^n.
#[tactic(auto, using(crate::proofs::DecimalLemmas::five_is))]
fn power_of_five(n: u32) -> u64
    requires { n < 20 }
    ensures { result ≡ 5 ^ n }
{
    power_of_ten(n) >> n
}

/// Returns the number that the digits of start / 2^bits spell, one digit for each bit.
fn mark_of(start: u64, bits: u32) -> u128
    requires bits { bits ≤ 38 }
    requires start { start < 2 ^ bits }
    ensures { result ≡ start * 5 ^ bits }
{
    let first = bits.min(19);
    u128::from(start) * u128::from(power_of_five(first)) * u128::from(power_of_five(bits - first))
}

/// Returns the number that the first `count` digits spell, padded with zeros if there are fewer.
fn prefix_number<'a, L: Ledger>(view: &DigitView<'a>, count: u32, steps: &mut Steps<L>) -> u128
    requires digits { AllBelowBase 10 view.now }
    requires trailing { NoTrailingZero view.now }
    requires count { count ≤ 38 }
    ensures led { IsBlockOf 10 view.now (drop count view.now) result count }
    ensures cost { steps.new ≤ steps.old + count }
{
    if count <= 19 {
        u128::from(leading_number(view, 10, count, steps))
    } else {
        let back = count - 19;
        leading_number_u128(view, 10, 19, back, power_of_ten(back), steps)
    }
}

/// Compares a block with a mark. More digits after the block make it greater.
fn block_order(block: u128, mark: u128, longer: bool) -> Ordering
    ensures { MatchOrdering result (block < mark) ((block ≡ mark) × (longer ≡ false))
        ((mark < block) ⊎ ((block ≡ mark) × IsTrue longer)) }
{
    if block < mark {
        Ordering::Less
    } else if block == mark && !longer {
        Ordering::Equal
    } else {
        Ordering::Greater
    }
}

/// Compares 0.DIGITS with start / 2^bits, which has `bits` digits.
fn order_to_mark<'a, L: Ledger>(
    view: &DigitView<'a>,
    start: u64,
    bits: u32,
    steps: &mut Steps<L>,
) -> Ordering
    requires digits { AllBelowBase 10 view.now }
    requires trailing { NoTrailingZero view.now }
    requires bits { bits ≤ 38 }
    ensures order { MatchOrdering result
        (number_from_digits 10 view.now * 2 ^ bits < start * 10 ^ length view.now)
        (number_from_digits 10 view.now * 2 ^ bits ≡ start * 10 ^ length view.now)
        (start * 10 ^ length view.now < number_from_digits 10 view.now * 2 ^ bits) }
    ensures cost { steps.new ≤ steps.old + bits }
{
    if start >= power_of_two(bits) {
        return Ordering::Less;
    }
    let block = prefix_number(view, bits, steps);
    block_order(block, mark_of(start, bits), is_longer(view, bits))
}

/// Compares what is lost after a candidate's whole ulps with 1 / 2^halves of an ulp.
fn order_to_share<'a, L: Ledger>(
    view: &DigitView<'a>,
    found: Candidate,
    halves: u32,
    steps: &mut Steps<L>,
) -> Ordering
    requires digits { AllBelowBase 10 view.now }
    requires trailing { NoTrailingZero view.now }
    requires halves { halves ≤ 1 }
    ensures order { MatchOrdering result
        (2 ^ halves * scaled_rest found.rest found.bits view.now < scaled_unit 7450580596923828125 view.now)
        (2 ^ halves * scaled_rest found.rest found.bits view.now ≡ scaled_unit 7450580596923828125 view.now)
        (scaled_unit 7450580596923828125 view.now < 2 ^ halves * scaled_rest found.rest found.bits view.now) }
    ensures cost { steps.new ≤ steps.old + found.bits + halves }
{
    let share = shl_u64(found.rest, halves);
    if share < FIVE_TO_27 {
        order_to_mark(view, FIVE_TO_27 - share, found.bits + halves, steps)
    } else if share == FIVE_TO_27 && view.is_empty() {
        Ordering::Equal
    } else {
        Ordering::Greater
    }
}

/// Returns a lost fraction below half an ulp: zero if the block leaves nothing and no digit comes after it.
#[tactic(auto, using(crate::proofs::DecimalLemmas::part_some, crate::proofs::DecimalLemmas::part_beyond))]
fn less_than_half(view: &DigitView, rest: u64) -> LostFraction
    ensures { (bits unit : ℕ) → 0 < unit → AllBelowBase 10 view.now → NoTrailingZero view.now
        → 2 ^ 1 * scaled_rest rest bits view.now < scaled_unit unit view.now
        → IsLostFraction result (scaled_rest rest bits view.now) (scaled_unit unit view.now) }
{
    if rest == 0 && view.is_empty() {
        LostFraction::Zero
    } else {
        LostFraction::LessThanHalf
    }
}

/// Returns the ulps of digits that pass the candidate's next ulp: that ulp, and less than half of one more.
#[tactic(auto, using(crate::proofs::DecimalLemmas::settled_over))]
fn past_next_ulp(ulps: u64) -> (u64, LostFraction)
    requires { ulps + 1 < 2 ^ 64 }
    ensures { (s den : ℕ) → den < s → 2 * s < 3 * den → IsSettled (ulps * den + s) den result.0 result.1 }
{
    (ulps + 1, LostFraction::LessThanHalf)
}

/// Returns the whole ulps of a candidate and the digits after its block, and what is lost, by comparing these digits.
#[tactic(auto, using(crate::proofs::DecimalLemmas::past_ulp))]
fn settle_exactly<'a, L: Ledger>(
    view: &DigitView<'a>,
    found: Candidate,
    steps: &mut Steps<L>,
) -> (u64, LostFraction)
    requires digits { AllBelowBase 10 view.now }
    requires trailing { NoTrailingZero view.now }
    requires ulps { found.ulps * scaled_unit 7450580596923828125 view.now + scaled_rest found.rest found.bits view.now
        < 2 ^ 64 * scaled_unit 7450580596923828125 view.now }
    ensures settled { IsSettled
        (found.ulps * scaled_unit 7450580596923828125 view.now + scaled_rest found.rest found.bits view.now)
        (scaled_unit 7450580596923828125 view.now) result.0 result.1 }
    ensures cost { steps.new ≤ steps.old + 2 * found.bits + 1 }
{
    match order_to_share(view, found, 1, steps) {
        Ordering::Less => (found.ulps, less_than_half(view, found.rest)),
        Ordering::Equal => (found.ulps, LostFraction::Half),
        Ordering::Greater => match order_to_share(view, found, 0, steps) {
            Ordering::Less => (found.ulps, LostFraction::MoreThanHalf),
            Ordering::Equal => (found.ulps + 1, LostFraction::Zero),
            Ordering::Greater => past_next_ulp(found.ulps),
        },
    }
}

/// Returns what is lost if no digits after the block can change it, as is nearly always so.
fn lost_fraction_if_certain(found: Candidate) -> Option<LostFraction>
    ensures { MatchOption result (Unit {0}) (λ lost. (ds : List ℕ) → AllBelowBase 10 ds → NoTrailingZero ds
        → (ds ≡ [] → ⊥) → IsLostFraction lost (scaled_rest found.rest found.bits ds)
        (scaled_unit 7450580596923828125 ds)) }
{
    let most = found.rest + power_of_two(found.bits);
    let half = FIVE_TO_27 / 2;
    if most <= half {
        Some(LostFraction::LessThanHalf)
    } else if half < found.rest && most <= FIVE_TO_27 {
        Some(LostFraction::MoreThanHalf)
    } else {
        None
    }
}

/// Returns the whole ulps of the candidate of the first 27 digits and the digits after these, and what is lost.
fn ulps_and_lost_fraction<'a, L: Ledger>(
    view: &DigitView<'a>,
    found: Candidate,
    steps: &mut Steps<L>,
) -> (u64, LostFraction)
    requires digits { AllBelowBase 10 view.now }
    requires trailing { NoTrailingZero view.now }
    requires ulps { found.ulps * scaled_unit 7450580596923828125 (drop 27 view.now) + scaled_rest found.rest found.bits
        (drop 27 view.now) < 2 ^ 64 * scaled_unit 7450580596923828125 (drop 27 view.now) }
    ensures settled { IsSettled
        (found.ulps * scaled_unit 7450580596923828125 (drop 27 view.now) + scaled_rest found.rest found.bits
        (drop 27 view.now)) (scaled_unit 7450580596923828125 (drop 27 view.now)) result.0 result.1 }
    ensures cost { steps.new ≤ steps.old + 2 * found.bits + 1 }
{
    if view.len() <= 27 {
        return (found.ulps, lost_fraction_of_share(found.rest, FIVE_TO_27));
    }
    match lost_fraction_if_certain(found) {
        Some(lost) => (found.ulps, lost),
        None => {
            let (_prefix, rest) = view.split_at(27);
            settle_exactly(&rest, found, steps)
        }
    }
}

/// Returns the ulps of 2^-frac in 0.DIGITS, and what is lost, for ulps of at most 2^-32.
fn fine_decimal_ulps<'a, L: Ledger>(
    view: &DigitView<'a>,
    frac: u32,
    steps: &mut Steps<L>,
) -> (u64, LostFraction)
    requires digits { AllBelowBase 10 view.now }
    requires trailing { NoTrailingZero view.now }
    requires least { 32 ≤ frac }
    requires frac { frac ≤ 64 }
    ensures ulps { IsFractionUlps 10 view.now frac result.0 result.1 }
    ensures cost { steps.new ≤ steps.old + 38 + 2 * (frac - 32) }
{
    let block = leading_number_u128(view, 10, 19, 8, 100000000, steps);
    ulps_and_lost_fraction(view, candidate_of(block, frac), steps)
}

/// Returns the ulps of 2^-frac in 0.DIGITS, and what is lost.
#[tactic(auto, using(crate::proofs::ShortNumeralLemmas::coarser_small))]
pub fn decimal_ulps<'a, L: Ledger>(
    view: &DigitView<'a>,
    frac: u32,
    steps: &mut Steps<L>,
) -> (u64, LostFraction)
    requires digits { AllBelowBase 10 view.now }
    requires trailing { NoTrailingZero view.now }
    requires frac { frac ≤ 64 }
    ensures ulps { IsFractionUlps 10 view.now frac result.0 result.1 }
    ensures cost { steps.new ≤ steps.old + 38 + 2 * (frac - 32) }
{
    if frac >= 32 {
        return fine_decimal_ulps(view, frac, steps);
    }
    let (ulps, lost) = fine_decimal_ulps(view, 32, steps);
    coarser_ulps(ulps, lost, 32 - frac)
}
