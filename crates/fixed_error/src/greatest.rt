//! The greatest error of a sequence of numerals.

ghost use Rattle.std.specs.Prelude.{◌≡◌, ◌⊎◌, ◌<◌, ◌≤◌, ◌+◌, ◌*◌, ◌++◌, ◌∷◌, [], List, OnErr, OnOk, length, true};
ghost use Rattle.std.specs.Prelude.{vec_capacity};
ghost use Rattle.fixed_error.specs.ErrorSize.{HasGreaterError, HasNoGreaterError, IsReadWithin};
ghost use Rattle.fixed_error.specs.Greatest.{Entry, HasGreatest, HasSomeGreatest};
ghost use Rattle.fixed_error.specs.Inner.Greatest.{IsGreatestSoFar};

use crate::greater::is_error_greater;
use fixed_bits::ReadMode;
use fixed_numeral::Radix;
use fixed_steps::Steps;
use std::alloc::{AllocError, Global};
use std::sync::ledger::Ledger;

/// The first numeral so far with the greatest error, rounded in a mode to a whole number of ulps of 2^-`frac`.
#[derive(Drop)]
pub struct GreatestError {
    radix: Radix,
    frac: u32,
    mode: ReadMode,
    numeral: Vec<u8>,
    place: u64,
    is_some: bool,
}

impl GreatestError {
    /// Returns the greatest error before the first numeral.
    pub fn new(alloc: Global, radix: Radix, frac: u32, mode: ReadMode) -> GreatestError
        requires { frac ≤ 64 }
        ensures radix { result.radix ≡ radix }
        ensures frac { result.frac ≡ frac }
        ensures mode { result.mode ≡ mode }
        ensures none { HasGreatest [] result }
        ensures empty { result.numeral.items ≡ [] }
    {
        GreatestError {
            radix,
            frac,
            mode,
            numeral: Vec::new(alloc),
            place: 0,
            is_some: false,
        }
    }

    /// Whether there was a numeral.
    pub fn is_some(&self) -> bool
        ensures { result ≡ self.now.is_some }
    {
        self.is_some
    }

    /// Returns the numeral with the greatest error.
    pub fn numeral(&self) -> &[u8]
        ensures { result.now ≡ self.now.numeral.items }
    {
        &self.numeral
    }

    /// Returns the place of that numeral.
    pub fn place(&self) -> u64
        ensures { result ≡ self.now.place }
    {
        self.place
    }

    /// Whether a numeral has a greater error than those so far.
    fn is_greater<L: Ledger>(&self, numeral: &[u8], steps: &mut Steps<L>) -> bool
        requires known { HasSomeGreatest self.now }
        requires within { IsReadWithin self.now.mode self.now.radix self.now.frac numeral.now }
        ensures greatest { IsGreatestSoFar self.now numeral.now result }
        ensures cost { steps.new ≤ steps.old + 20 * (length numeral.now + length self.now.numeral.items) + 792 }
    {
        !self.is_some
            || is_error_greater(
                numeral,
                &self.numeral,
                self.radix,
                self.frac,
                self.mode,
                steps,
            )
    }

    /// Takes one more numeral and its place. Memory is taken only for the numeral with the greatest error. It takes at
    /// most twenty steps for each byte of the numeral and of the kept one, and 792.
    ///
    /// # Errors
    ///
    /// There is no memory for it: it has a greater error than those so far, and more bytes than there is room for. The
    /// kept numeral is then lost.
    pub fn add<L: Ledger>(
        &mut self,
        numeral: &[u8],
        place: u64,
        steps: &mut Steps<L>,
    ) -> Result<(), AllocError>
        requires known { HasSomeGreatest self.old }
        requires within { IsReadWithin self.old.mode self.old.radix self.old.frac numeral.now }
        ensures radix { self.new.radix ≡ self.old.radix }
        ensures frac { self.new.frac ≡ self.old.frac }
        ensures mode { self.new.mode ≡ self.old.mode }
        ensures one_more { OnOk result ((entries : List Entry) → HasGreatest entries self.old
            → HasGreatest (entries ++ record { place = place; numeral = numeral.now } ∷ []) self.new) }
        ensures some { OnOk result (self.new.is_some ≡ true) }
        ensures not_below { OnOk result
            (HasNoGreaterError self.old.mode self.old.radix self.old.frac numeral.now self.new.numeral.items) }
        ensures not_less { OnOk result (self.old.is_some ≡ true → HasNoGreaterError self.old.mode self.old.radix
            self.old.frac self.old.numeral.items self.new.numeral.items) }
        ensures same_place { OnErr result (self.new.place ≡ self.old.place) }
        ensures same_some { OnErr result (self.new.is_some ≡ self.old.is_some) }
        ensures kept { OnOk result
            ((self.new.numeral.items ≡ self.old.numeral.items) ⊎ (self.new.numeral.items ≡ numeral.now)) }
        ensures lost { OnErr result (self.new.numeral.items ≡ []) }
        ensures greater { OnErr result (self.old.is_some ≡ true → HasGreaterError self.old.mode self.old.radix
            self.old.frac numeral.now self.old.numeral.items) }
        ensures no_room { OnErr result (vec_capacity self.old.numeral < length numeral.now) }
        ensures cost { steps.new ≤ steps.old + 20 * (length numeral.now + length self.old.numeral.items) + 792 }
    {
        if self.is_greater(numeral, steps) {
            self.numeral.clear();
            self.numeral.extend_from_slice(numeral)?;
            self.place = place;
            self.is_some = true;
        }
        Ok(())
    }
}
