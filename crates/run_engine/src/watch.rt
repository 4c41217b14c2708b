//! Observers of lines.

ghost use Rattle.std.specs.Prelude.{◌≤◌, ◌+◌, ◌*◌, ℕ, List, Result, length};

use crate::rule::Rule;
use fixed_steps::Steps;
use std::sync::ledger::Ledger;

/// An observer, which is told of each line and of what its rule returned.
pub trait Watch<R: Rule<L>, L: Ledger> {
    /// The most steps that it takes for each byte of a line.
    ghost PER_BYTE: { ℕ };

    /// The most steps that it takes for a line in addition to those for the bytes.
    ghost EXTRA: { ℕ };

    /// How an observer changes when it is told of a line that a rule has answered: its number, its bytes, and what the
    /// rule returned.
    ghost Saw: { R → Self → ℕ → List ℕ → Result R.Note R.Cause → Self → Type 0 };

    /// Records that a line was answered, or refused for a cause. Lines are numbered from 1.
    fn see(
        &mut self,
        rule: &R,
        number: u64,
        line: &[u8],
        returned: &Result<R::Note, R::Cause>,
        steps: &mut Steps<L>,
    )
        ensures saw { Saw rule.now self.old number line.now returned.now self.new }
        ensures cost { steps.new ≤ steps.old + PER_BYTE * length line.now + EXTRA };
}

/// No observer.
impl<R: Rule<L>, L: Ledger> Watch<R, L> for () {
    ghost PER_BYTE = { 0 };

    ghost EXTRA = { 0 };

    ghost Saw = { λ rule watch number line result then. Unit {0} };

    #[inline(always)]
    fn see(
        &mut self,
        _rule: &R,
        _number: u64,
        _line: &[u8],
        _returned: &Result<R::Note, R::Cause>,
        _steps: &mut Steps<L>,
    ) {}
}
