//! An observer that counts the refused lines, and keeps the first.

ghost use Rattle.std.specs.Prelude.{◌≡◌, None, Some, take};
ghost use Rattle.run_engine.specs.Refused.{Counts};

use crate::rule::Rule;
use crate::watch::Watch;
use fixed_steps::Steps;
use std::sync::ledger::Ledger;
use text_buffer::TextBuffer;

/// How many bytes of a line are kept.
const KEPT: usize = 160;

/// A refused line: its number, from 1, its first 160 bytes, and the cause.
#[derive(Drop)]
pub struct RefusedLine<C> {
    pub number: u64,
    pub line: TextBuffer<KEPT>,
    pub cause: C,
}

/// The refused lines: their count, which stays at `u64::MAX`, and the first of them.
#[derive(Drop)]
pub struct Refusals<C> {
    pub count: u64,
    pub first: Option<RefusedLine<C>>,
}

/// Returns the first bytes of a line.
fn first_bytes(line: &[u8]) -> TextBuffer<KEPT>
    ensures { result ≡ take 160 line.now }
{
    let mut text = TextBuffer::new();
    let count = KEPT.min(line.len());
    text.push_bytes(&line[..count]);
    text
}

impl<C> Refusals<C> {
    /// The state before any line is refused.
    pub fn new() -> Refusals<C>
        ensures count { result.count ≡ 0 }
        ensures first { result.first ≡ None }
    {
        Refusals {
            count: 0,
            first: None,
        }
    }
}

impl<C: Copy> Refusals<C> {
    /// Counts a line that is refused for a cause, and keeps it if it is the first.
    #[cold]
    pub fn refuse(&mut self, number: u64, line: &[u8], cause: C)
        ensures { Counts self.old number line.now (Some cause) self.new }
    {
        self.count = self.count.saturating_add(1);
        if self.first.is_none() {
            self.first = Some(RefusedLine {
                number,
                line: first_bytes(line),
                cause,
            });
        }
    }
}

impl<C: Copy, R: Rule<L, Cause = C>, L: Ledger> Watch<R, L> for Refusals<C> {
    ghost use Rattle.run_engine.specs.Refused.{Counts, cause_of};

    ghost PER_BYTE = { 0 };

    ghost EXTRA = { 0 };

    ghost Saw = { λ rule watch number line result then. Counts watch number line (cause_of result) then };

    #[inline]
    fn see(
        &mut self,
        _rule: &R,
        number: u64,
        line: &[u8],
        returned: &Result<R::Note, C>,
        _steps: &mut Steps<L>,
    ) {
        if let Err(cause) = returned {
            self.refuse(number, line, *cause);
        }
    }
}
