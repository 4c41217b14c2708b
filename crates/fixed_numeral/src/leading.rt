//! The numeral at the start of a text: a walk that keeps the last index at which nothing was missing. Digits are passed
//! together, and then the byte after them.

ghost use Rattle.std.specs.Prelude.{◌≡◌, ◌+◌, ◌<◌, ◌≤◌, ◌⊎◌, length, MatchResult};
ghost use Rattle.fixed_numeral.specs.Cause.{HasCause};
ghost use Rattle.fixed_numeral.specs.Leading.{IsLeadingNumeral, HasNoLeading};
ghost use Rattle.fixed_numeral.specs.Inner.LastNumeral.{IsLastAfter};

use crate::error::{ParseErrorKind, ParseFixedError};
use crate::radix::Radix;
use crate::scanner::{State, after_digits, check_complete, mantissa_digits, transition};
use fixed_steps::Steps;
use std::sync::ledger::Ledger;

/// Returns the end of the last numeral: this index if nothing is missing here, else the one before.
fn last_after(state: State, at: usize, last: usize) -> usize
    ensures { IsLastAfter state at last result }
{
    match check_complete(state) {
        Ok(_) => at,
        Err(_) => last,
    }
}

/// Returns the end of the last numeral after digits: this index if there were any, else the one before.
#[inline(always)]
fn last_after_digits(count: usize, at: usize, last: usize) -> usize
    ensures { ((0 < count) × (result ≡ at)) ⊎ ((count ≡ 0) × (result ≡ last)) }
{
    if count > 0 { at } else { last }
}

/// Returns the end of the numeral that was passed, or the error if there was none.
fn passed(last: usize, kind: ParseErrorKind) -> Result<usize, ParseFixedError>
    ensures { MatchResult result (λ n. (0 < last) × (n ≡ last)) (λ k. (last ≡ 0) × (k ≡ kind)) }
{
    if last > 0 {
        Ok(last)
    } else {
        Err(ParseFixedError::new(kind))
    }
}

/// Counts the bytes of the numeral at the start of a text: the longest prefix that is a numeral of the radix. If no
/// prefix is one, the error says why the text is not a numeral.
///
/// It takes at most one step a byte.
pub fn leading_numeral<L: Ledger>(
    bytes: &[u8],
    radix: Radix,
    steps: &mut Steps<L>,
) -> Result<usize, ParseFixedError>
    ensures leading { MatchResult result
        (λ n. IsLeadingNumeral radix bytes.now n)
        (λ kind. HasNoLeading radix bytes.now × HasCause radix bytes.now kind) }
    ensures counted { steps.old ≤ steps.new }
    ensures cost { steps.new ≤ steps.old + length bytes.now }
{
    let mut state = State::start();
    let mut last: usize = 0;
    let mut at: usize = 0;
    while at < bytes.len() {
        let count = mantissa_digits(state, bytes, radix, at);
        steps.advance(count as u64);
        state = after_digits(state, count as u64);
        at += count;
        last = last_after_digits(count, at, last);
        if at < bytes.len() {
            steps.tick();
            match transition(state, radix, bytes[at]) {
                Ok(next) => state = next,
                Err(kind) => return passed(last, kind),
            }
            at += 1;
            last = last_after(state, at, last);
        }
    }
    match check_complete(state) {
        Ok(_) => Ok(at),
        Err(kind) => passed(last, kind),
    }
}
