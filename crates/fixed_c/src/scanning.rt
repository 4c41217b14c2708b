//! The numeral at the start of a text.

ghost use Rattle.std.specs.Prelude.{MatchResult};
ghost use Rattle.fixed_c.specs.Scan.{IsLeadingIn, ScanIsRefused};

use crate::arguments::radix_of;
use crate::refusal::Refusal;
use crate::uncounted::leading_uncounted;

/// Counts the bytes of the numeral at the start of a text.
pub fn leading(text: &[u8], radix: u32) -> Result<usize, Refusal>
    ensures { MatchResult result (IsLeadingIn text.now radix) (ScanIsRefused text.now radix) }
{
    let radix = radix_of(radix)?;
    match leading_uncounted(text, radix) {
        Ok(count) => Ok(count),
        Err(error) => Err(Refusal::Numeral(error.kind())),
    }
}
