//! Decimals that fill their text, with no bytes before them to reach back over.
//!
//! The digits before the point are read one by one, the digits after it by words if the text has a word.

ghost use Rattle.std.specs.Prelude.{◌≡◌, ◌≢◌, ◌+◌, ◌-◌, ◌^◌, ◌<◌, ◌≤◌, ◌⊎◌, IfSome, length, pos};
ghost use Rattle.fixed_numeral.specs.declared.radix.Radix.TheVariants.{Dec};
ghost use Rattle.fixed_numeral.specs.PartNumbers.{HasFewDigits};
ghost use Rattle.fixed_numeral.specs.Inner.Segments.{IsDigitRun, IsMantissaAt, IsShortAt};

use crate::ending::{Mantissa, numeral_of};
use crate::exponent::power_at;
use crate::radix::Radix;
use crate::segment::{decimals_at, decimals_between, decimals_to, sign_at};
use crate::short::{LANES, ShortNumeral};

/// The most digits after a decimal's point.
const MAX_PLACES: usize = 27;

/// The digits after a point.
#[derive(Clone, Copy)]
struct Fraction {
    /// The number that the digits spell.
    number: u128,
    /// The index after the digits.
    end: usize,
}

/// Reads 17 to 27 digits after a point if they end the text.
#[tactic(auto, using(crate::proofs::SegmentLemmas::run_of_sixteen))]
fn wide_fraction_at(bytes: &[u8], from: usize) -> Option<Fraction>
    requires { from + 16 < length bytes.now }
    ensures run { IfSome result (λ f. IsDigitRun 10 bytes.now from f.end f.number) }
    ensures end { IfSome result (λ f. f.end ≡ length bytes.now) }
    ensures few { IfSome result (λ f. f.end ≤ from + MAX_PLACES) }
{
    if bytes.len() - from > MAX_PLACES {
        return None;
    }
    let middle = bytes.len() - 16;
    let high = decimals_to(bytes, from, middle)?;
    let low = decimals_between(bytes, middle, bytes.len())?;
    Some(Fraction {
        number: u128::from(high) * 10_000_000_000_000_000 + u128::from(low),
        end: bytes.len(),
    })
}

/// Reads the digits after a point. `None`: there are more than 27, or a text of more than 16 bytes goes on after them.
#[inline(always)]
fn fraction_at(bytes: &[u8], from: usize) -> Option<Fraction>
    requires { from ≤ length bytes.now }
    ensures run { IfSome result (λ f. IsDigitRun 10 bytes.now from f.end f.number) }
    ensures end { IfSome result (λ f. (length bytes.now ≤ LANES) ⊎ (f.end ≡ length bytes.now)) }
    ensures few { IfSome result (λ f. f.end ≤ from + MAX_PLACES) }
{
    let end = bytes.len();
    if end - from > 16 {
        return wide_fraction_at(bytes, from);
    }
    if end >= 8 {
        if let Some(number) = decimals_between(bytes, from, end) {
            return Some(Fraction {
                number: u128::from(number),
                end,
            });
        }
    }
    if end > LANES {
        return None;
    }
    let run = decimals_at(bytes, from, end);
    Some(Fraction {
        number: u128::from(run.number),
        end: run.end,
    })
}

/// Reads the mantissa at `from`. `None`: it has no digit, or in a text of more than 16 bytes no point, or as in
/// `fraction_at`.
#[inline(always)]
fn mantissa_at(bytes: &[u8], from: usize) -> Option<Mantissa>
    requires place { from ≤ length bytes.now }
    requires early { from ≤ 1 }
    ensures mantissa { IfSome result (λ m. IsMantissaAt 10 bytes.now from m.end m.whole m.fraction m.places) }
    ensures end { IfSome result (λ m. (length bytes.now ≤ LANES) ⊎ (m.end ≡ length bytes.now)) }
    ensures whole { IfSome result (λ m. m.whole < 10 ^ 16) }
    ensures few { IfSome result (λ m. m.places ≤ MAX_PLACES) }
{
    let whole = decimals_at(bytes, from, bytes.len().min(LANES));
    let point = whole.end;
    if point == bytes.len() || bytes[point] != b'.' {
        if point == from || bytes.len() > LANES {
            return None;
        }
        return Some(Mantissa {
            whole: whole.number,
            fraction: 0,
            places: 0,
            end: point,
        });
    }
    let fraction = fraction_at(bytes, point + 1)?;
    if fraction.end == from + 1 {
        return None;
    }
    Some(Mantissa {
        whole: whole.number,
        fraction: fraction.number,
        places: (fraction.end - point - 1) as u32,
        end: fraction.end,
    })
}

/// Reads a decimal of at most 16 bytes, or one without an exponent whose point is among its first 17 bytes and has at
/// most 27 digits after it. `None` otherwise.
#[inline(always)]
pub(crate) fn decimal_of(s: &[u8]) -> Option<ShortNumeral>
    ensures short { IfSome result
        (λ n. IsShortAt Dec s.now n.negative n.whole n.fraction n.places n.exponent n.scales_by_two) }
    ensures few { IfSome result (λ n. (n.exponent ≢ pos 0) → HasFewDigits 10 n.whole n.fraction n.places) }
{
    let (negative, first) = sign_at(s, 0);
    let mantissa = mantissa_at(s, first)?;
    let power = power_at(s, Radix::Dec, mantissa.end)?;
    Some(numeral_of(negative, mantissa, power))
}
