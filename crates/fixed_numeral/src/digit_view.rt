//! Digits between two counts of zeros.

ghost use Rattle.std.specs.Prelude.{◌≡◌, ◌+◌, ◌<◌, ◌≤◌, ◌^◌, ◌-◌, ◌↔◌, [], ◌∷◌, ◌++◌, IsTrue, length, take, drop};
ghost use Rattle.std.specs.Prelude.{MatchOption};
ghost use Rattle.std.specs.Prelude.{ℕ, ◌*◌, min};
ghost use Rattle.std.specs.Int.Digits.{AllBelowBase, number_from_digits};
ghost use Rattle.fixed_numeral.specs.Digits.{between_zeros, zeros};
ghost use Rattle.fixed_numeral.specs.Inner.Prefix.{HasPrefixNumber};
ghost use Rattle.fixed_numeral.specs.Inner.MovedPoint.{IsWithoutLeading, IsWithoutTrailing, IsPlaced};

use crate::digit_slice::DigitSlice;
use fixed_steps::Steps;
use std::marker::Model;
use std::sync::ledger::Ledger;

/// A count of zeros, two slices of digits borrowed from a text, and a count of zeros.
#[derive(Drop)]
pub struct DigitView<'a> {
    before: u64,
    left: DigitSlice<'a>,
    right: DigitSlice<'a>,
    after: u64,
}

impl<'a> Model for DigitView<'a> {
    ghost use Rattle.std.specs.Prelude.{◌+◌, ◌<◌, ◌^◌, List, ℕ, length};
    ghost use Rattle.fixed_numeral.specs.Digits.{between_zeros};

    ghost Value = { List ℕ };

    ghost view = { λ v. between_zeros v.before v.left v.right v.after };

    ghost invariant = { λ v. v.before + length v.left + length v.right + v.after < 2 ^ 64 };
}

impl<'a> DigitView<'a> {
    /// Returns digits between two counts of zeros.
    #[inline(always)]
    pub(crate) fn between(
        before: u64,
        left: DigitSlice<'a>,
        right: DigitSlice<'a>,
        after: u64,
    ) -> DigitView<'a>
        requires { before + length left + length right + after < 2 ^ 64 }
        ensures { result ≡ between_zeros before left.entry right.entry after }
    {
        DigitView {
            before,
            left,
            right,
            after,
        }
    }

    /// Returns the digits of a slice.
    #[tactic(auto, using(crate::proofs::ViewLemmas::between_left))]
    fn of(piece: DigitSlice<'a>) -> DigitView<'a>
        requires { length piece < 2 ^ 64 }
        ensures { result ≡ piece.entry }
    {
        DigitView {
            before: 0,
            left: piece,
            right: DigitSlice::none(),
            after: 0,
        }
    }

    /// Returns no digits.
    #[tactic(auto, using(crate::proofs::ViewLemmas::between_none))]
    pub(crate) fn none() -> DigitView<'a>
        ensures { result ≡ [] }
    {
        DigitView {
            before: 0,
            left: DigitSlice::none(),
            right: DigitSlice::none(),
            after: 0,
        }
    }

    /// Returns the same digits.
    #[inline]
    pub fn same(&self) -> DigitView<'a>
        ensures { result ≡ self.now }
    {
        DigitView {
            before: self.before,
            left: self.left.same(),
            right: self.right.same(),
            after: self.after,
        }
    }

    /// Counts the digits.
    #[tactic(auto, using(crate::proofs::ViewLemmas::length_between))]
    #[inline]
    pub fn len(&self) -> u64
        ensures { result ≡ length self.now }
    {
        self.before + self.left.len() + self.right.len() + self.after
    }

    /// Whether there are no digits.
    #[inline]
    pub fn is_empty(&self) -> bool
        ensures { IsTrue result ↔ (self.now ≡ []) }
    {
        self.len() == 0
    }

    /// Returns the first digit, 0 to 15, and the others, for one step. `None`, for no step: there are no digits.
    #[tactic(auto, using(crate::proofs::ViewLemmas::take_before, crate::proofs::ViewLemmas::take_left, crate::proofs::ViewLemmas::take_right, crate::proofs::ViewLemmas::take_after, crate::proofs::ViewLemmas::between_none))]
    pub fn take<L: Ledger>(&self, steps: &mut Steps<L>) -> Option<(u8, DigitView<'a>)>
        ensures { MatchOption result ((self.now ≡ []) × (steps.new ≡ steps.old))
            (λ r. (self.now ≡ r.0 ∷ r.1) × (r.0 < 16) × (steps.new ≡ steps.old + 1)) }
    {
        let after = self.after;
        if self.before > 0 {
            steps.tick();
            let (left, right) = (self.left.same(), self.right.same());
            return Some((0, DigitView::between(self.before - 1, left, right, after)));
        }
        if let Some((digit, left)) = self.left.first() {
            steps.tick();
            let right = self.right.same();
            return Some((digit, DigitView::between(0, left, right, after)));
        }
        if let Some((digit, right)) = self.right.first() {
            steps.tick();
            return Some((
                digit,
                DigitView::between(0, DigitSlice::none(), right, after),
            ));
        }
        if after > 0 {
            steps.tick();
            return Some((
                0,
                DigitView::between(0, DigitSlice::none(), DigitSlice::none(), after - 1),
            ));
        }
        None
    }

    /// Returns the number that the first `count` digits spell in the base, or all if there are fewer, and the digits
    /// after them, for a step a digit.
    #[tactic(auto, using(crate::proofs::ViewLemmas::left_back, crate::proofs::NumberLemmas::first_rest))]
    #[inline(always)]
    pub fn take_number<L: Ledger>(
        &self,
        base: u32,
        count: u32,
        steps: &mut Steps<L>,
    ) -> (u64, DigitView<'a>)
        requires digits { AllBelowBase base self.now }
        requires least { 2 ≤ base }
        requires most { base ≤ 16 }
        requires room { base ^ count ≤ 2 ^ 64 }
        ensures number { result.0 ≡ number_from_digits base (take count self.now) }
        ensures rest { result.1 ≡ drop count self.now }
        ensures below { result.0 < base ^ count }
        ensures cost { steps.new ≡ steps.old + min count (length self.now) }
    {
        let number = self.first_number(base, count, steps);
        let taken = u64::from(count).min(self.len());
        if self.before == 0 && taken <= self.left.len() {
            // All of them lie in one slice, as they nearly always do.
            return (
                number,
                DigitView {
                    before: 0,
                    left: self.left.suffix(taken),
                    right: self.right.same(),
                    after: self.after,
                },
            );
        }
        // A copy lets `self` stay in registers, here and in `prefix_number`.
        (number, self.same().suffix_by_split(taken))
    }

    /// Returns the number that the first `count` digits spell in the base, or all if there are fewer, for a step a
    /// digit.
    #[inline(always)]
    pub fn first_number<L: Ledger>(&self, base: u32, count: u32, steps: &mut Steps<L>) -> u64
        requires digits { AllBelowBase base self.now }
        requires least { 2 ≤ base }
        requires most { base ≤ 16 }
        requires room { base ^ count ≤ 2 ^ 64 }
        ensures number { result ≡ number_from_digits base (take count self.now) }
        ensures below { result < base ^ count }
        ensures cost { steps.new ≡ steps.old + min count (length self.now) }
    {
        let wanted = u64::from(count).min(self.len());
        steps.advance(wanted);
        self.prefix_number(u64::from(base), wanted)
    }

    /// Returns the number that the first `i` digits spell in a base. There are at least `i`.
    #[inline(always)]
    fn prefix_number(&self, base: u64, i: u64) -> u64
        requires { HasPrefixNumber base i self.now }
        ensures { result ≡ number_from_digits base (take i self.now) }
    {
        if self.before == 0 && i <= self.left.len() {
            return self.left.prefix_number(base, i);
        }
        self.same().prefix_number_by_parts(base, i)
    }

    /// Returns the number that the first `i` digits spell, with a short way if all of them lie in the second slice.
    #[inline(never)]
    fn prefix_number_by_parts(&self, base: u64, i: u64) -> u64
        requires { HasPrefixNumber base i self.now }
        ensures { result ≡ number_from_digits base (take i self.now) }
    {
        if self.before == 0 && self.left.len() == 0 && i <= self.right.len() {
            return self.right.prefix_number(base, i);
        }
        if i == self.len() {
            return self.number(base);
        }
        self.prefix_number_by_split(base, i)
    }

    /// Returns the number that the first `i` digits spell, by splitting the view after them.
    #[tactic(auto, using(crate::proofs::PlaceLemmas::below_split, crate::proofs::NumberLemmas::first_room))]
    #[inline(never)]
    fn prefix_number_by_split(&self, base: u64, i: u64) -> u64
        requires { HasPrefixNumber base i self.now }
        ensures { result ≡ number_from_digits base (take i self.now) }
    {
        let (prefix, _back) = self.split_at(i);
        prefix.number(base)
    }

    /// Returns the digits after the first `i`, wherever they lie. There are at least `i`.
    #[inline(never)]
    fn suffix_by_split(&self, i: u64) -> DigitView<'a>
        requires { i ≤ length self.now }
        ensures { result ≡ drop i self.now }
    {
        let (_prefix, back) = self.split_at(i);
        back
    }

    /// Returns the number that the digits spell in a base.
    fn number(&self, base: u64) -> u64
        requires digits { AllBelowBase base self.now }
        requires least { 2 ≤ base }
        requires most { base ≤ 16 }
        requires room { base ^ length self.now ≤ 2 ^ 64 }
        ensures { result ≡ number_from_digits base self.now }
    {
        let left = self.left.number_onto(base, 0);
        let right = self.right.number_onto(base, left);
        times_power(right, base, self.after)
    }

    /// Returns the first `i` digits and the others. There are at least `i`.
    pub fn split_at(&self, i: u64) -> (DigitView<'a>, DigitView<'a>)
        requires { i ≤ length self.now }
        ensures prefix { result.0 ≡ take i self.now }
        ensures back { result.1 ≡ drop i self.now }
    {
        let before = i.min(self.before);
        let later = i - before;
        let left = later.min(self.left.len());
        let right = (later - left).min(self.right.len());
        let after = later - left - right;
        let (left_prefix, left_back) = self.left.split_at(left);
        let (right_prefix, right_back) = self.right.split_at(right);
        (
            DigitView {
                before,
                left: left_prefix,
                right: right_prefix,
                after,
            },
            DigitView {
                before: self.before - before,
                left: left_back,
                right: right_back,
                after: self.after - after,
            },
        )
    }

    /// Returns the last `n` digits, or all if there are fewer.
    pub fn last_n(&self, n: u64) -> DigitView<'a>
        ensures { result ≡ drop (length self.now - n) self.now }
    {
        let (_prefix, back) = self.split_at(self.len().saturating_sub(n));
        back
    }

    /// Returns `n` zeros and then these digits.
    #[tactic(auto, using(crate::proofs::ViewLemmas::length_between, crate::proofs::PlaceLemmas::view_before))]
    fn with_zeros_before(&self, n: u64) -> DigitView<'a>
        requires { n + length self.now < 2 ^ 64 }
        ensures { result ≡ zeros n ++ self.now }
    {
        DigitView {
            before: n + self.before,
            left: self.left.same(),
            right: self.right.same(),
            after: self.after,
        }
    }

    /// Returns these digits and then `n` zeros.
    #[tactic(auto, using(crate::proofs::ViewLemmas::length_between, crate::proofs::PlaceLemmas::view_after))]
    fn with_zeros_after(&self, n: u64) -> DigitView<'a>
        requires { n + length self.now < 2 ^ 64 }
        ensures { result ≡ self.now ++ zeros n }
    {
        DigitView {
            before: self.before,
            left: self.left.same(),
            right: self.right.same(),
            after: self.after + n,
        }
    }
}

/// Returns a number times a power of a base.
#[tactic(auto, using(crate::proofs::NumberLemmas::powers))]
fn times_power(number: u64, base: u64, count: u64) -> u64
    requires least { 2 ≤ base }
    requires room { (number + 1) * base ^ count ≤ 2 ^ 64 }
    ensures { result ≡ number * base ^ count }
{
    let mut product = number;
    for _i in 0..count {
        product = product * base;
    }
    product
}

/// Returns the digits of two slices without leading zeros.
#[tactic(auto, using(crate::proofs::PlaceLemmas::led))]
fn without_leading<'a>(
    whole: &DigitSlice<'a>,
    fraction: &DigitSlice<'a>,
) -> (DigitSlice<'a>, DigitSlice<'a>)
    ensures digits { IsWithoutLeading (whole.now ++ fraction.now) (result.0 ++ result.1) }
    ensures shorter { length result.0 + length result.1 ≤ length whole.now + length fraction.now }
{
    let prefix = whole.without_leading();
    if prefix.len() > 0 {
        (prefix, fraction.same())
    } else {
        (prefix, fraction.without_leading())
    }
}

/// Returns the digits of two slices without trailing zeros.
#[tactic(auto, using(crate::proofs::PlaceLemmas::trailed))]
fn without_trailing<'a>(
    whole: &DigitSlice<'a>,
    fraction: &DigitSlice<'a>,
) -> (DigitSlice<'a>, DigitSlice<'a>)
    ensures digits { IsWithoutTrailing (whole.now ++ fraction.now) (result.0 ++ result.1) }
    ensures shorter { length result.0 + length result.1 ≤ length whole.now + length fraction.now }
{
    let back = fraction.without_trailing();
    if back.len() > 0 {
        (whole.same(), back)
    } else {
        (whole.without_trailing(), back)
    }
}

/// Returns the digits before and after the point, which does not move. The steps are the bytes that are read: the zeros
/// at the two ends, and one more at each.
#[inline(always)]
pub(crate) fn views_at_point<'a, L: Ledger>(
    whole: &DigitSlice<'a>,
    fraction: &DigitSlice<'a>,
    steps: &mut Steps<L>,
) -> (DigitView<'a>, DigitView<'a>)
    requires digits { length whole.now + length fraction.now < 2 ^ 63 }
    ensures placed { IsPlaced whole.now fraction.now result.0 result.1 0 0 }
    ensures counted { steps.old ≤ steps.new }
    ensures cost { steps.new ≤ steps.old + (length whole.now + length fraction.now) + 2 }
{
    let left = whole.without_leading();
    let right = fraction.without_trailing();
    steps.advance(whole.len() - left.len() + (fraction.len() - right.len()) + 2);
    (DigitView::of(left), DigitView::of(right))
}

/// Returns the digits before and after the point, which moves `up` digits to the right and `down` digits to the left.
/// The steps are those of `views_at_point`.
#[inline(always)]
pub(crate) fn views_at_moved_point<'a, L: Ledger>(
    whole: &DigitSlice<'a>,
    fraction: &DigitSlice<'a>,
    up: u64,
    down: u64,
    steps: &mut Steps<L>,
) -> (DigitView<'a>, DigitView<'a>)
    requires digits { length whole.now + length fraction.now < 2 ^ 63 }
    requires up { up ≤ 2 ^ 31 }
    requires down { down ≤ 2 ^ 31 }
    ensures placed { IsPlaced whole.now fraction.now result.0 result.1 up down }
    ensures counted { steps.old ≤ steps.new }
    ensures cost { steps.new ≤ steps.old + (length whole.now + length fraction.now) + 2 }
{
    let (left, right) = without_leading(whole, fraction);
    let zeros = whole.len() + fraction.len() - (left.len() + right.len());
    let (left, right) = without_trailing(&left, &right);
    let count = left.len() + right.len();
    steps.advance(whole.len() + fraction.len() - count + 2);
    let core = DigitView::between(0, left, right, 0);
    let place = whole.len() + up;
    let dropped = zeros + down;
    if count == 0 {
        (DigitView::none(), DigitView::none())
    } else if place <= dropped {
        (DigitView::none(), core.with_zeros_before(dropped - place))
    } else if place - dropped >= count {
        (
            core.with_zeros_after(place - dropped - count),
            DigitView::none(),
        )
    } else {
        core.split_at(place - dropped)
    }
}
