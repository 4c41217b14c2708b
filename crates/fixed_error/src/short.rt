//! Numerals that are read once for all uses of their parts.

ghost use Rattle.std.specs.Prelude.{◌≤◌, ◌+◌, IfSome, length};
ghost use Rattle.fixed_error.specs.Short.{IsShortRead};

use fixed_numeral::{Radix, ShortNumeral, short_decimal};
use fixed_steps::Steps;
use std::sync::ledger::Ledger;

/// Returns the numbers of a numeral's parts, if it is a short decimal. It takes at most a step for each byte.
#[inline(always)]
pub fn read_short<L: Ledger>(
    numeral: &[u8],
    radix: Radix,
    steps: &mut Steps<L>,
) -> Option<ShortNumeral>
    ensures read { IfSome result (IsShortRead radix numeral.now) }
    ensures cost { steps.new ≤ steps.old + length numeral.now }
{
    if radix != Radix::Dec {
        return None;
    }
    let found = short_decimal(numeral, steps)?;
    Some(found)
}
