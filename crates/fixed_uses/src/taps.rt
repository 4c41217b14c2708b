//! The taps of a filter, read from decimal numbers.

ghost use Rattle.std.specs.Prelude.{IfSome, IfNone, true};
ghost use Rattle.fixed_bits.specs.declared.mode.ReadMode.TheVariants.{NearestEven};
ghost use Rattle.fixed_numeral.specs.Numeral.{HasNumeral};
ghost use Rattle.fixed_numeral.specs.declared.radix.Radix.TheVariants.{Dec};
ghost use Rattle.fixed_read.specs.Reading.{IsReadInRange};
ghost use Rattle.fixed_uses.specs.Taps.{IsTap};

use fixed_point::types::{I1F7, I1F15};

/// Reads the tap nearest to a decimal number; `None` exactly if the text is not a numeral or its tap does not fit.
pub fn tap(text: &str) -> Option<I1F15>
    ensures some { IfSome result (IsTap 15 text.now) }
    ensures none { IfNone result (¬ IsReadInRange NearestEven Dec (HasNumeral Dec text.now) 15 true 16) }
{
    I1F15::from_str(text).ok()
}

/// The same for a filter of 8 bits.
pub fn small_tap(text: &str) -> Option<I1F7>
    ensures some { IfSome result (IsTap 7 text.now) }
    ensures none { IfNone result (¬ IsReadInRange NearestEven Dec (HasNumeral Dec text.now) 7 true 8) }
{
    I1F7::from_str(text).ok()
}
