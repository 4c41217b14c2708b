//! The greatest error of numerals, rounded to nearest, at each of many fraction lengths.
//!
//! A numeral rarely has a greater error than those before it. So its error is first bounded by its first digits, at
//! each length from the bound at the length before, and compared exactly only if the bound is above the known error.
//! For a decimal of at most 18 places a word holds all digits. Once each error is nearly half an ulp, a numeral's
//! binary digits tell at which lengths its own may be as near to that (module `half`), and it is compared only at
//! those. The words that were passed over are kept, since many lists have few words.

ghost use Rattle.std.specs.Prelude.{◌≡◌, ◌<◌, ◌≤◌, ◌+◌, ◌-◌, ◌^◌, ◌++◌, ◌∷◌, [], List, ℕ, OnOk, IfOk, IfSome};
ghost use Rattle.std.specs.Prelude.{length, replicate, true, false, min};
ghost use Rattle.fixed_bits.specs.declared.mode.ReadMode.TheVariants.{NearestEven};
ghost use Rattle.fixed_error.specs.ErrorSize.{IsReadWithin};
ghost use Rattle.fixed_numeral.specs.Numeral.{IsNumeral};
ghost use Rattle.fixed_error.specs.Errors.{AreBoundsNearHalf, HasGreatestErrors, HasSomeGreatestErrors};
ghost use Rattle.fixed_error.specs.Errors.{HasSomeLengthError, IsGreatestAt, IsLengthError};
ghost use Rattle.fixed_error.specs.Greatest.{Entry};
ghost use Rattle.fixed_error.specs.Inner.Rest.{IsRest};
ghost use Rattle.fixed_error.specs.Errors.{ArePassed, AreWordsWithin};
ghost use Rattle.fixed_error.specs.Short.{IsShortRead};

use crate::greatest::GreatestError;
use crate::half::{MOST_LENGTHS, binary_digits, near_lengths, next_length, word_at};
use crate::rest::{
    Behind, Rest, behind_by, bound_of, halved, halved_word, least_of, most_of, near_word,
    rest_of_word,
};
use crate::short::read_short;
use fixed_bits::ReadMode;
use fixed_numeral::{Radix, ShortNumeral};
use fixed_steps::Steps;
use std::alloc::{AllocError, Global};
use std::sync::ledger::Ledger;

/// The greatest error at one fraction length.
#[derive(Drop)]
pub struct LengthError {
    /// The numeral with the greatest error.
    pub greatest: GreatestError,
    /// A lower bound of that error, in parts of an ulp.
    pub least: u128,
    /// An error below this many parts of 10^-18 is surely not greater. 0 if there is no numeral.
    pub bound: u64,
}

impl LengthError {
    /// Whether a numeral surely has no greater error than one before it.
    fn is_surely_within(&self, rest: Rest) -> bool
        requires below { rest.rest < rest.one }
        requires one { rest.one ≤ 2 ^ 120 }
        requires slack { rest.slack ≤ 2 ^ 67 }
        ensures some { result ≡ true → self.now.greatest.is_some ≡ true }
        ensures within { result ≡ true → min rest.rest (rest.one - rest.rest) + rest.slack ≤ self.now.least }
    {
        self.greatest.is_some() && most_of(rest) <= self.least
    }

    /// Takes one more numeral, which is `rest` above a whole number of ulps. Returns whether that changed anything.
    fn add<L: Ledger>(
        &mut self,
        numeral: &[u8],
        place: u64,
        rest: Rest,
        steps: &mut Steps<L>,
    ) -> Result<bool, AllocError>
        requires known { HasSomeLengthError self.old }
        requires within { IsReadWithin NearestEven self.old.greatest.radix self.old.greatest.frac numeral.now }
        requires rest { IsRest self.old.greatest.radix self.old.greatest.frac numeral.now rest }
        ensures added { OnOk result ((r : Radix) (f : ℕ) (entries : List Entry) → IsLengthError r f entries self.old
            → IsLengthError r f (entries ++ record { place = place; numeral = numeral.now } ∷ []) self.new) }
        ensures same { IfOk result (λ is_changed. is_changed ≡ false → self.new ≡ self.old) }
    {
        if self.is_surely_within(rest) {
            return Ok(false);
        }
        self.greatest.add(numeral, place, steps)?;
        self.least = self.least.max(least_of(rest));
        self.bound = bound_of(self.least);
        Ok(true)
    }
}

/// For each fraction length below a count, the first numeral so far with the greatest error, rounded to nearest.
#[derive(Drop)]
pub struct GreatestErrors {
    radix: Radix,
    errors: Vec<LengthError>,
    /// Whether each of the errors is nearly half an ulp.
    are_near_half: bool,
    /// Words that were passed over, each plus 1 and in its slot. 0 if there is none.
    passed: [u64; SLOTS],
}

/// The number of slots for words that were passed over.
const SLOTS: usize = 1024;

/// Returns empty slots.
fn no_words() -> [u64; SLOTS]
    ensures { result ≡ replicate 1024 0 }
{
    [0; SLOTS]
}

/// Returns the slot of a word: its first ten binary digits. No two decimals of at most three places share a slot.
fn slot_of(word: u64) -> usize
    requires { word < 10 ^ 18 }
    ensures { result < 1024 }
{
    (binary_digits(word) >> 54) as usize
}

/// Returns the error at a fraction length before the first numeral.
fn no_error(alloc: Global, radix: Radix, frac: u32) -> LengthError
    requires { frac ≤ 64 }
    ensures { IsLengthError radix frac [] result }
{
    LengthError {
        greatest: GreatestError::new(alloc, radix, frac, ReadMode::NearestEven),
        least: 0,
        bound: 0,
    }
}

/// The least bound of an error that is nearly half an ulp, in parts of 10^-18.
const NEAR_HALF: u64 = 499_023_437_500_000_000;

/// Whether each of the errors is nearly half an ulp.
fn are_near_half(errors: &[LengthError]) -> bool
    ensures { result ≡ true → AreBoundsNearHalf errors.now }
{
    for error in errors {
        if error.bound < NEAR_HALF {
            return false;
        }
    }
    true
}

/// Whether a numeral that is `word` above a whole number surely has no greater error than those before it, at any
/// fraction length.
fn are_surely_within(errors: &[LengthError], word: u64) -> bool
    requires { word < 10 ^ 18 }
    ensures { result ≡ true → AreWordsWithin word errors.now }
{
    let mut rest = word;
    for error in errors {
        if near_word(rest) >= error.bound {
            return false;
        }
        rest = halved_word(rest);
    }
    true
}

/// Whether a numeral that is `word` above a whole number surely has no greater error than those before it, each of
/// which is nearly half an ulp, at any of some fraction lengths. It is compared only at those that its binary digits
/// leave.
fn are_within_by_digits(errors: &[LengthError], word: u64) -> bool
    requires word { word < 10 ^ 18 }
    requires few { length errors.now ≤ 53 }
    requires near { AreBoundsNearHalf errors.now }
    ensures { result ≡ true → AreWordsWithin word errors.now }
{
    let near = near_lengths(word);
    let mut frac = next_length(near, 0);
    while (frac as usize) < errors.len() {
        if near_word(word_at(word, frac)) >= errors[frac as usize].bound {
            return false;
        }
        frac = next_length(near, frac + 1);
    }
    true
}

impl GreatestErrors {
    /// Returns the errors before the first numeral, for the fraction lengths below `count`, which is at most 65.
    ///
    /// # Errors
    ///
    /// There is no memory for them.
    pub fn new(alloc: Global, radix: Radix, count: u32) -> Result<GreatestErrors, AllocError>
        requires { count ≤ 65 }
        ensures { IfOk result (HasGreatestErrors radix count []) }
    {
        let mut errors = Vec::new(alloc);
        for frac in 0..count {
            errors.push(no_error(alloc, radix, frac))?;
        }
        Ok(GreatestErrors {
            radix,
            errors,
            are_near_half: false,
            passed: no_words(),
        })
    }

    /// Counts the fraction lengths.
    pub fn count(&self) -> usize
        ensures { result ≡ length self.now.errors.items }
    {
        self.errors.len()
    }

    /// Keeps only the fraction lengths below `count`.
    pub fn shorten(&mut self, count: u32)
        ensures { (r : Radix) (old : ℕ) (entries : List Entry) → HasGreatestErrors r old entries self.old
            → HasGreatestErrors r (min count old) entries self.new }
    {
        self.errors.truncate(count as usize);
    }

    /// Whether the binary digits of a numeral that is `word` above a whole number say that it surely has no greater
    /// error than those before it, at any fraction length. After many numerals, nearly all are passed over by this.
    fn is_passed_by_digits(&self, word: u64) -> bool
        requires word { word < 10 ^ 18 }
        requires few { length self.now.errors.items ≤ 65 }
        requires near { self.now.are_near_half ≡ true → AreBoundsNearHalf self.now.errors.items }
        ensures { result ≡ true → AreWordsWithin word self.now.errors.items }
    {
        if !self.are_near_half {
            return false;
        }
        if self.errors.len() <= MOST_LENGTHS {
            return are_within_by_digits(&self.errors, word);
        }
        are_within_by_digits(&self.errors[..MOST_LENGTHS], word)
            && are_within_by_digits(
                &self.errors[MOST_LENGTHS..],
                word_at(word, MOST_LENGTHS as u32),
            )
    }

    /// Whether a numeral that is `word` above a whole number surely has no greater error than those before it, at any
    /// fraction length. If a comparison finds this, the word is kept.
    fn pass_word(&mut self, word: u64) -> bool
        requires word { word < 10 ^ 18 }
        requires few { length self.old.errors.items ≤ 65 }
        requires near { self.old.are_near_half ≡ true → AreBoundsNearHalf self.old.errors.items }
        requires passed { ArePassed self.old.passed self.old.errors.items }
        ensures within { result ≡ true → AreWordsWithin word self.old.errors.items }
        ensures radix { self.new.radix ≡ self.old.radix }
        ensures errors { self.new.errors ≡ self.old.errors }
        ensures near { self.new.are_near_half ≡ self.old.are_near_half }
        ensures passed { ArePassed self.new.passed self.old.errors.items }
    {
        if self.is_passed_by_digits(word) {
            return true;
        }
        let slot = slot_of(word);
        if self.passed[slot] == word + 1 {
            return true;
        }
        if !are_surely_within(&self.errors, word) {
            return false;
        }
        self.passed[slot] = word + 1;
        true
    }

    /// Takes one more numeral, which is `rest` above a whole number, and compares it at each length.
    fn add_rest<L: Ledger>(
        &mut self,
        numeral: &[u8],
        place: u64,
        rest: Rest,
        steps: &mut Steps<L>,
    ) -> Result<(), AllocError>
        requires known { HasSomeGreatestErrors self.old }
        requires within { (f : ℕ) → f < length self.old.errors.items
            → IsReadWithin NearestEven self.old.radix f numeral.now }
        requires rest { IsRest self.old.radix 0 numeral.now rest }
        ensures { OnOk result ((r : Radix) (count : ℕ) (entries : List Entry)
            → HasGreatestErrors r count entries self.old
            → HasGreatestErrors r count (entries ++ record { place = place; numeral = numeral.now } ∷ []) self.new) }
    {
        let mut rest = rest;
        let mut is_changed = false;
        for error in self.errors.iter_mut() {
            let changes = error.add(numeral, place, rest, steps)?;
            is_changed |= changes;
            rest = halved(rest);
        }
        if !is_changed {
            return Ok(());
        }
        self.are_near_half = are_near_half(&self.errors);
        self.passed = no_words();
        Ok(())
    }

    /// Takes one more numeral and its place. Memory is taken only for the numerals with the greatest errors.
    ///
    /// # Errors
    ///
    /// There is no memory for it.
    pub fn add<L: Ledger>(
        &mut self,
        numeral: &[u8],
        place: u64,
        steps: &mut Steps<L>,
    ) -> Result<(), AllocError>
        requires known { HasSomeGreatestErrors self.old }
        requires within { (f : ℕ) → f < length self.old.errors.items
            → IsReadWithin NearestEven self.old.radix f numeral.now }
        requires numeral { IsNumeral self.old.radix numeral.now }
        ensures { OnOk result ((r : Radix) (count : ℕ) (entries : List Entry)
            → HasGreatestErrors r count entries self.old
            → HasGreatestErrors r count (entries ++ record { place = place; numeral = numeral.now } ∷ []) self.new) }
    {
        let short = read_short(numeral, self.radix, steps);
        self.add_read(numeral, place, short, steps)
    }

    /// `add` of a numeral that was read. `short` has the numbers of its parts if it was read as a short decimal.
    ///
    /// # Errors
    ///
    /// There is no memory for it.
    pub fn add_read<L: Ledger>(
        &mut self,
        numeral: &[u8],
        place: u64,
        short: Option<ShortNumeral>,
        steps: &mut Steps<L>,
    ) -> Result<(), AllocError>
        requires known { HasSomeGreatestErrors self.old }
        requires within { (f : ℕ) → f < length self.old.errors.items
            → IsReadWithin NearestEven self.old.radix f numeral.now }
        requires numeral { IsNumeral self.old.radix numeral.now }
        requires short { IfSome short (IsShortRead self.old.radix numeral.now) }
        ensures { OnOk result ((r : Radix) (count : ℕ) (entries : List Entry)
            → HasGreatestErrors r count entries self.old
            → HasGreatestErrors r count (entries ++ record { place = place; numeral = numeral.now } ∷ []) self.new) }
    {
        match behind_by(numeral, self.radix, short, steps) {
            Behind::ByWord(word) => {
                if self.pass_word(word) {
                    return Ok(());
                }
                self.add_rest(numeral, place, rest_of_word(word), steps)?;
                Ok(())
            }
            Behind::ByParts(rest) => self.add_rest(numeral, place, rest, steps),
        }
    }

    /// Returns the greatest error at a fraction length.
    pub fn at(&self, frac: u32) -> &GreatestError
        requires { frac < length self.now.errors.items }
        ensures { (r : Radix) (count : ℕ) (entries : List Entry) → HasGreatestErrors r count entries self.now
            → IsGreatestAt r frac entries result.now }
    {
        &self.errors[frac as usize].greatest
    }
}
