//! The formats of the tried widths that every numeral so far fits within an error.
//!
//! A numeral that is within an error at a fraction length is within it at each longer one. So the lengths within the
//! error are those from a least one on, and a format serves if more lengths of its width are left than that. For a
//! range the error is half an ulp, so the least length is known before the first line. No numeral's error is greater
//! than half an ulp: from the length on at which that is within the error, a numeral only takes lengths away. So does a
//! whole number of ulps at any length.
//!
//! If a format of a width serves, so does one of each greater width. So for the next lesser width it is enough to keep
//! the line that last raised the least width: before it a format of that width served, too.

ghost use Rattle.std.specs.Prelude.{◌≡◌, ◌⊎◌, ◌≤◌, ◌<◌, ◌+◌, ◌^◌, ◌++◌, ◌∷◌, ◌↔◌, []};
ghost use Rattle.std.specs.Prelude.{IsTrue, IfOk, IfSome, true, false, List, ℕ, Bool, length};
ghost use Rattle.fixed_bits.specs.Ranges.{IsWidth};
ghost use Rattle.fixed_bits.specs.declared.mode.ReadMode.TheVariants.{NearestEven};
ghost use Rattle.fixed_error.specs.ErrorSize.{HasErrorAbove, HasErrorWithin, IsReadWithin};
ghost use Rattle.fixed_fit.specs.Fitting.{Choice, choice};
ghost use Rattle.fixed_fit.specs.Inner.Lengths.{IsFlatRead, IsWholeFraction};
ghost use Rattle.fixed_numeral.specs.Numeral.{IsNumeral};
ghost use Rattle.fixed_fit.specs.Inner.Serving.{AreAllLowered, AreFew, HasServing, HasSomeServing, IsBestOf, most_left};
ghost use Rattle.fixed_fit.specs.Inner.Serving.{AreServed, Asked, bounded};
ghost use Rattle.fixed_fit.specs.Within.{IsErrorWithin, IsHalfWithin, IsTried, most_width};

use crate::half::first_length;
use crate::lengths::{Lengths, all_lengths, frac_lengths, lowered};
use crate::question::{Question, Widths};
use crate::short::{FlatDecimal, is_surely_whole, is_within_room, least_room};
use fixed_bits::{Format, ReadMode};
use fixed_error::is_error_above;
use fixed_numeral::Radix;
use fixed_steps::Steps;
use std::alloc::{AllocError, Global};
use std::sync::ledger::Ledger;

/// The fraction lengths of each width that every numeral so far fits, and from which on it is within the error.
#[derive(Drop)]
pub struct Serving {
    /// The greatest error that a numeral may have: the magnitude of a numeral.
    pub bound: Vec<u8>,
    /// The lengths left for each width that is tried.
    pub lengths: Vec<Lengths>,
    /// Whether the lengths are those of signed formats.
    pub signed: bool,
    /// The most parts of 10^-18 of a number that surely fits the longest length left for each width.
    pub room: u128,
    /// The least length within the error.
    pub low: u32,
    /// A length at which half an ulp is within the error, and so every numeral is; 65 if there is none up to 64.
    pub half: u32,
    /// The number of the line with which no format serves any more; 0 before it.
    pub place: u64,
    /// Whether the lines are the two ends of a range.
    pub is_range: bool,
    /// Whether a format serves.
    pub is_served: bool,
    /// The least width at which a format serves.
    pub width: u32,
    /// The number of the line with which no format of the next lesser width serves any more; 0 if none did before a
    /// line.
    pub raised: u64,
}

/// Returns the greatest width that is tried.
pub fn most_width(widths: Widths, one: u32) -> u32
    requires { IsWidth one }
    ensures width { IsWidth result }
    ensures most { result ≡ most_width widths one }
{
    match widths {
        Widths::One => one,
        _ => 64,
    }
}

/// Whether a width is tried.
fn is_tried(widths: Widths, one: u32, width: u32) -> bool
    requires { IsWidth width }
    ensures { IsTrue result ↔ IsTried widths one width }
{
    match widths {
        Widths::One => width == one,
        Widths::Types => width == 8 || width == 16 || width == 32 || width == 64,
        Widths::Any => true,
    }
}

/// Returns the number of the line that ruled out the width next below the least, which was `width` before line `place`.
fn raised_by(width: u32, raised: u64, least: u32, place: u64) -> u64
    ensures same { least ≡ width → result ≡ raised }
    ensures moved { (least ≡ width → ⊥) → result ≡ place }
{
    if least == width { raised } else { place }
}

/// Keeps of all lengths those that line `place` leaves. Returns the greatest count of lengths left.
fn lower_all<L: Ledger>(
    lengths: &mut Vec<Lengths>,
    line: &[u8],
    radix: Radix,
    place: u64,
    steps: &mut Steps<L>,
) -> u32
    requires numeral { IsNumeral radix line.now }
    requires few { AreFew lengths.old.items }
    ensures lowered { AreAllLowered radix line.now place lengths.old.items lengths.new.items }
    ensures most { result ≡ most_left lengths.new.items }
{
    let mut most = 0;
    for left in lengths.iter_mut() {
        *left = lowered(left, line, radix, place, steps);
        most = most.max(left.count);
    }
    most
}

/// Returns the least fraction length from `low` on at which a numeral is within the bound, if it is below `most`.
fn raised<L: Ledger>(
    low: u32,
    most: u32,
    line: &[u8],
    bound: &[u8],
    radix: Radix,
    steps: &mut Steps<L>,
) -> u32
    requires few { most ≤ 65 }
    requires within { (f : ℕ) → f < most → IsReadWithin NearestEven radix f line.now }
    requires bound { IsNumeral radix bound.now }
    ensures more { low ≤ result }
    ensures above { (f : ℕ) → low ≤ f → f < result → HasErrorAbove NearestEven radix f line.now bound.now }
    ensures within { result < most → HasErrorWithin NearestEven radix result line.now bound.now }
{
    let mut least = low;
    while least < most {
        if !is_error_above(line, bound, radix, least, ReadMode::NearestEven, steps) {
            return least;
        }
        least += 1;
    }
    least
}

/// Returns the least fraction length from `low` on that is within the bound with one more line, if it is below `most`.
fn next_low<L: Ledger>(
    is_range: bool,
    low: u32,
    most: u32,
    line: &[u8],
    bound: &[u8],
    radix: Radix,
    steps: &mut Steps<L>,
) -> u32
    requires few { most ≤ 65 }
    requires within { (f : ℕ) → f < most → IsReadWithin NearestEven radix f line.now }
    requires bound { IsNumeral radix bound.now }
    ensures more { low ≤ result }
    ensures within { (lines : List (List ℕ)) → IsErrorWithin is_range radix low bound.now lines → result < most
        → IsErrorWithin is_range radix result bound.now (lines ++ line.now ∷ []) }
    ensures least { (lines : List (List ℕ)) → ((f : ℕ) → f < low → ¬ IsErrorWithin is_range radix f bound.now lines)
        → (f : ℕ) → f < result → ¬ IsErrorWithin is_range radix f bound.now (lines ++ line.now ∷ []) }
{
    if is_range {
        low
    } else {
        raised(low, most, line, bound, radix, steps)
    }
}

/// Returns the lengths of more than `low`, or of the lesser width if both have more.
fn better(low: u32, best: Lengths, left: Lengths) -> Lengths
    ensures one { (result ≡ best) ⊎ (result ≡ left) }
    ensures left { low < left.count → (low < result.count) × (result.kind.width ≤ left.kind.width) }
    ensures best { low < best.count → (low < result.count) × (result.kind.width ≤ best.kind.width) }
{
    if left.count <= low {
        return best;
    }
    if best.count <= low || left.kind.width() < best.kind.width() {
        left
    } else {
        best
    }
}

/// Returns the lengths left for the least width at which a format serves.
pub fn best_of(low: u32, lengths: &[Lengths]) -> Lengths
    requires { low < most_left lengths.now }
    ensures { IsBestOf low lengths.now result }
{
    let mut best = lengths[0];
    for left in lengths {
        best = better(low, best, *left);
    }
    best
}

/// Returns the least width at which a format serves, if one does.
fn served_width(is_served: bool, low: u32, lengths: &[Lengths]) -> u32
    requires { is_served ≡ true → low < most_left lengths.now }
    ensures { is_served ≡ true → (best : Lengths) × IsBestOf low lengths.now best × (result ≡ best.kind.width) }
{
    if is_served {
        best_of(low, lengths).kind.width()
    } else {
        0
    }
}

impl Serving {
    /// Returns the formats before the first line, of a sign rule and with the least fraction length within the bound.
    ///
    /// # Errors
    ///
    /// There is no memory for the lengths.
    pub fn new(
        alloc: Global,
        question: &Question,
        bound: &[u8],
        low: u32,
        half: u32,
        signed: bool,
        widths: Widths,
    ) -> Result<Serving, AllocError>
        requires numeral { IsNumeral question.now.radix bound.now }
        requires within { low < 65 → IsErrorWithin question.now.is_range question.now.radix low bound.now [] }
        requires least { (f : ℕ) → f < low → ¬ IsErrorWithin question.now.is_range question.now.radix f bound.now [] }
        requires half { half < 65 → IsHalfWithin question.now.radix half bound.now }
        ensures bound { IfOk result (λ v. v.bound.items ≡ bound.now) }
        ensures kept { IfOk result (HasServing question.now.is_range question.now.radix
            (choice signed question.now.fractions) widths question.now.kind.width []) }
    {
        let one = question.kind.width();
        let mut text = Vec::new(alloc);
        text.extend_from_slice(bound)?;
        let mut lengths = Vec::new(alloc);
        for width in 1..65 {
            if is_tried(widths, one, width) {
                let kind = Format::of(signed, width, 0);
                lengths.push(all_lengths(kind, question.fractions))?;
            }
        }
        let room = least_room(&lengths);
        let is_served = low < frac_lengths(question.fractions, most_width(widths, one));
        let width = served_width(is_served, low, &lengths);
        Ok(Serving {
            bound: text,
            lengths,
            signed,
            room,
            low,
            half,
            place: 0,
            is_range: question.is_range,
            is_served,
            width,
            raised: 0,
        })
    }

    /// Returns no formats, for a list without a bound.
    pub fn none(alloc: Global) -> Serving {
        Serving {
            bound: Vec::new(alloc),
            lengths: Vec::new(alloc),
            signed: false,
            room: 0,
            low: 0,
            half: 0,
            place: 0,
            is_range: false,
            is_served: false,
            width: 0,
            raised: 0,
        }
    }

    /// Whether a short decimal is surely within the bound at the least length: half an ulp is, or it is a whole number
    /// of ulps.
    #[inline(always)]
    fn is_surely_within(&self, found: FlatDecimal) -> bool
        requires { found.decimal.fraction < 10 ^ found.decimal.places }
        ensures { result ≡ true → (self.now.half ≤ self.now.low) ⊎ IsWholeFraction found.decimal self.now.low }
    {
        self.half <= self.low || is_surely_whole(found.decimal, self.low)
    }

    /// Takes the numeral of line `place` by rounding it. A format serves.
    #[cold]
    fn rule_out<L: Ledger>(&mut self, line: &[u8], radix: Radix, place: u64, steps: &mut Steps<L>)
        requires numeral { IsNumeral radix line.now }
        requires known { HasSomeServing radix self.old }
        requires on { self.old.is_served ≡ true }
        ensures bound { self.new.bound ≡ self.old.bound }
        ensures one_more { (range : Bool) (c : Choice) (widths : Widths) (one : ℕ) (lines : List (List ℕ))
            → HasServing range radix c widths one lines self.old → place ≡ length lines + 1
            → HasServing range radix c widths one (lines ++ line.now ∷ []) self.new }
    {
        let most = lower_all(&mut self.lengths, line, radix, place, steps);
        self.room = least_room(&self.lengths);
        let is_range = self.is_range;
        self.low = next_low(is_range, self.low, most, line, &self.bound, radix, steps);
        if most <= self.low {
            self.place = place;
            self.is_served = false;
            return;
        }
        let width = best_of(self.low, &self.lengths).kind.width();
        self.raised = raised_by(self.width, self.raised, width, place);
        self.width = width;
    }

    /// Takes the numeral of line `place`, by its size if it was read as a short decimal without an exponent.
    #[inline(always)]
    pub fn add<L: Ledger>(
        &mut self,
        line: &[u8],
        radix: Radix,
        place: u64,
        flat: Option<FlatDecimal>,
        steps: &mut Steps<L>,
    )
        requires numeral { IsNumeral radix line.now }
        requires known { HasSomeServing radix self.old }
        requires flat { IfSome flat (IsFlatRead radix line.now) }
        ensures bound { self.new.bound ≡ self.old.bound }
        ensures one_more { (range : Bool) (c : Choice) (widths : Widths) (one : ℕ) (lines : List (List ℕ))
            → HasServing range radix c widths one lines self.old → place ≡ length lines + 1
            → HasServing range radix c widths one (lines ++ line.now ∷ []) self.new }
    {
        if !self.is_served {
            return;
        }
        if let Some(found) = flat {
            if self.is_surely_within(found) && is_within_room(self.room, self.signed, found) {
                return;
            }
        }
        self.rule_out(line, radix, place, steps);
    }
}

/// The formats of both sign rules that serve, if a bound is requested.
#[derive(Drop)]
pub struct Within {
    /// Whether a bound is requested.
    pub is_bounded: bool,
    /// The unsigned formats.
    pub plain: Serving,
    /// The signed formats.
    pub signed: Serving,
}

impl Within {
    /// Returns no formats, for a list without a bound.
    pub fn none(alloc: Global) -> Within
        ensures { result.is_bounded ≡ false }
    {
        Within {
            is_bounded: false,
            plain: Serving::none(alloc),
            signed: Serving::none(alloc),
        }
    }

    /// Returns the formats before the first line.
    ///
    /// # Errors
    ///
    /// There is no memory for the lengths.
    pub fn new<L: Ledger>(
        alloc: Global,
        question: &Question,
        bound: &[u8],
        widths: Widths,
        steps: &mut Steps<L>,
    ) -> Result<Within, AllocError>
        requires { IsNumeral question.now.radix bound.now }
        ensures is_bounded { IfOk result (λ w. w.is_bounded ≡ true) }
        ensures served { IfOk result (λ w. (n : ℕ) → AreServed question.now.radix
            (bounded question.now.is_range n question.now.fractions bound.now widths question.now.kind.width) [] w) }
    {
        let low = first_length(bound, question.radix, question.is_range, steps);
        let half = first_length(bound, question.radix, true, steps);
        let plain = Serving::new(alloc, question, bound, low, half, false, widths)?;
        let signed = Serving::new(alloc, question, bound, low, half, true, widths)?;
        Ok(Within {
            is_bounded: true,
            plain,
            signed,
        })
    }

    /// Takes the numeral of line `place`, by its size if it was read as a short decimal without an exponent.
    pub fn add<L: Ledger>(
        &mut self,
        line: &[u8],
        radix: Radix,
        place: u64,
        flat: Option<FlatDecimal>,
        steps: &mut Steps<L>,
    )
        requires numeral { IsNumeral radix line.now }
        requires plain { self.old.is_bounded ≡ true → HasSomeServing radix self.old.plain }
        requires signed { self.old.is_bounded ≡ true → HasSomeServing radix self.old.signed }
        requires flat { IfSome flat (IsFlatRead radix line.now) }
        ensures is_bounded { self.new.is_bounded ≡ self.old.is_bounded }
        ensures one_more { (a : Asked) (lines : List (List ℕ)) → self.old.is_bounded ≡ true
            → AreServed radix a lines self.old → place ≡ length lines + 1
            → AreServed radix a (lines ++ line.now ∷ []) self.new }
    {
        if self.is_bounded {
            self.plain.add(line, radix, place, flat, steps);
            self.signed.add(line, radix, place, flat, steps);
        }
    }
}
