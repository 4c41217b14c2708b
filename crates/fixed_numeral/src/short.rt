//! Short numerals: from bytes straight to numbers.
//!
//! Only this module knows which numerals are short: numerals of at most 16 bytes, in any radix, and decimals of at most
//! 44 bytes with a point. Any other is scanned (`scan`).

ghost use Rattle.std.specs.Prelude.{◌≡◌, ◌≢◌, ◌+◌, ◌*◌, ◌^◌, ◌<◌, ◌≤◌, ◌⊎◌, ◌++◌, IfSome, drop, length, pos, replicate};
ghost use Rattle.std.specs.Prelude.{take};
ghost use Rattle.fixed_numeral.specs.declared.radix.Radix.TheVariants.{Dec};
ghost use Rattle.fixed_numeral.specs.Numeral.{Parts, HasNumeral, IsNumeral, base};
ghost use Rattle.fixed_numeral.specs.PartNumbers.{IsShortNumeral, HasFewDigits};
ghost use Rattle.fixed_numeral.specs.Inner.Segments.{IsShortAt};

use crate::decimal::decimal_of;
use crate::ending::ending_numeral;
use crate::radix::Radix;
use fixed_steps::Steps;
use std::sync::ledger::Ledger;

/// The numbers of a short numeral's parts. Its magnitude is the sum of `whole` and of `fraction` divided by the radix
/// to the power `places`, times the radix, or two, to the power `exponent`.
#[derive(Clone, Copy, PartialEq, Eq)]
pub struct ShortNumeral {
    /// Whether the sign is a minus.
    pub negative: bool,
    /// The number that the digits before the point spell.
    pub whole: u64,
    /// The number that the digits after the point spell.
    pub fraction: u128,
    /// The number of digits after the point.
    pub places: u32,
    /// The exponent, 0 without a separator.
    pub exponent: i32,
    /// Whether the exponent counts powers of two, and not of the radix.
    pub scales_by_two: bool,
}

/// The number of bytes tested together, and the longest short numeral of any radix, in bytes.
pub(crate) const LANES: usize = 16;

/// The longest short decimal with a point, in bytes.
const WIDE: usize = 44;

/// Returns the length in bytes of the longest short numeral of a radix.
#[inline(always)]
fn most_bytes(radix: Radix) -> usize
    ensures { (radix ≢ Dec) → result ≡ LANES }
{
    match radix {
        Radix::Dec => WIDE,
        _ => LANES,
    }
}

/// Returns the bytes of a text from index `from` on.
#[inline(always)]
fn bytes_from(text: &[u8], from: usize) -> &[u8]
    requires { from ≤ length text.now }
    ensures { result.now ≡ drop from text.now }
{
    &text[from..]
}

/// Copies bytes behind the first 16 of a text by two copies of `N` bytes, which may overlap: neither is a call.
#[inline(always)]
fn copy_ends<const N: usize>(bytes: &mut [u8; 32], s: &[u8])
    requires least { N ≤ length s.now }
    requires most { length s.now ≤ 2 * N }
    requires room { length s.now ≤ LANES }
    ensures { take (LANES + length s.now) bytes.new ≡ take LANES bytes.old ++ s.now }
{
    let end = LANES + s.len();
    let all = &mut bytes[..];
    all[LANES..LANES + N].copy_from_slice(&s[..N]);
    all[end - N..end].copy_from_slice(&s[s.len() - N..]);
}

/// Returns a copy of a few bytes with 16 zeros before it.
#[inline(always)]
fn padded(s: &[u8]) -> [u8; 32]
    requires { length s.now ≤ LANES }
    ensures { take (LANES + length s.now) result ≡ replicate LANES 48 ++ s.now }
{
    let mut bytes = [b'0'; 32];
    match s.len() {
        0 => {}
        1 => copy_ends::<1>(&mut bytes, s),
        2..=3 => copy_ends::<2>(&mut bytes, s),
        4..=7 => copy_ends::<4>(&mut bytes, s),
        _ => copy_ends::<8>(&mut bytes, s),
    }
    bytes
}

/// Reads a numeral of at most 16 bytes from a copy with 16 bytes before it.
#[inline]
fn padded_numeral(s: &[u8], radix: Radix) -> Option<ShortNumeral>
    requires { length s.now ≤ LANES }
    ensures short { IfSome result
        (λ n. IsShortAt radix s.now n.negative n.whole n.fraction n.places n.exponent n.scales_by_two) }
    ensures few { IfSome result (λ n. HasFewDigits (base radix) n.whole n.fraction n.places) }
{
    let bytes = padded(s);
    ending_numeral(&bytes[..LANES + s.len()], LANES, radix)
}

/// Reads a short numeral of more than 16 bytes, or without 16 bytes before it. It is not inlined, since it is the
/// colder of two ways.
#[inline(never)]
fn numeral_alone(s: &[u8], radix: Radix) -> Option<ShortNumeral>
    requires { (radix ≢ Dec) → length s.now ≤ LANES }
    ensures short { IfSome result
        (λ n. IsShortAt radix s.now n.negative n.whole n.fraction n.places n.exponent n.scales_by_two) }
    ensures few { IfSome result (λ n. ((radix ≢ Dec) ⊎ (n.exponent ≢ pos 0))
        → HasFewDigits (base radix) n.whole n.fraction n.places) }
{
    match radix {
        Radix::Dec => decimal_of(s),
        _ => padded_numeral(s, radix),
    }
}

/// Returns what `numeral_alone` returns, matched by reference and copied here and not in its caller: the result of a
/// call has room in memory, which is cleared when a function begins.
#[inline(always)]
fn copy_alone(s: &[u8], radix: Radix) -> Option<ShortNumeral>
    requires { (radix ≢ Dec) → length s.now ≤ LANES }
    ensures short { IfSome result
        (λ n. IsShortAt radix s.now n.negative n.whole n.fraction n.places n.exponent n.scales_by_two) }
    ensures few { IfSome result (λ n. ((radix ≢ Dec) ⊎ (n.exponent ≢ pos 0))
        → HasFewDigits (base radix) n.whole n.fraction n.places) }
{
    match &numeral_alone(s, radix) {
        Some(found) => Some(*found),
        None => None,
    }
}

/// Reads the numeral from index `from` to the end of a text: one of at most 16 bytes, or a decimal of at most 44,
/// without an exponent, whose point is among its first 17 bytes and has at most 27 digits after it. `None` otherwise,
/// or if the bytes are not a numeral; `scan` then says more. It is quickest if the text has 16 bytes before the numeral
/// and the radix is a constant. It takes a step a byte of the numeral, or none.
#[inline(always)]
pub fn short_numeral<L: Ledger>(
    text: &[u8],
    from: usize,
    radix: Radix,
    steps: &mut Steps<L>,
) -> Option<ShortNumeral>
    requires { from ≤ length text.now }
    ensures numeral { IfSome result (λ n. IsNumeral radix (drop from text.now)) }
    ensures parts { IfSome result (λ n. (p : Parts) → HasNumeral radix (drop from text.now) p
        → IsShortNumeral radix p n.negative n.whole n.fraction n.places n.exponent n.scales_by_two) }
    ensures fraction { IfSome result (λ n. n.fraction < base radix ^ n.places) }
    ensures whole { IfSome result (λ n. n.whole < base radix ^ 16) }
    ensures places { IfSome result (λ n. n.places ≤ 27) }
    ensures few { IfSome result (λ n. ((radix ≢ Dec) ⊎ (n.exponent ≢ pos 0))
        → HasFewDigits (base radix) n.whole n.fraction n.places) }
    ensures counted { IfSome result (λ n. steps.new ≡ steps.old + length (drop from text.now)) }
    ensures cost { steps.new ≤ steps.old + length (drop from text.now) }
{
    let count = text.len() - from;
    if count > most_bytes(radix) {
        return None;
    }
    steps.advance(count as u64);
    if count <= LANES && from >= LANES {
        return ending_numeral(text, from, radix);
    }
    copy_alone(bytes_from(text, from), radix)
}

/// `short_numeral` of a text that is a decimal, inlined in its caller.
#[inline(always)]
pub fn short_decimal<L: Ledger>(s: &[u8], steps: &mut Steps<L>) -> Option<ShortNumeral>
    ensures numeral { IfSome result (λ n. IsNumeral Dec s.now) }
    ensures parts { IfSome result (λ n. (p : Parts) → HasNumeral Dec s.now p
        → IsShortNumeral Dec p n.negative n.whole n.fraction n.places n.exponent n.scales_by_two) }
    ensures fraction { IfSome result (λ n. n.fraction < 10 ^ n.places) }
    ensures whole { IfSome result (λ n. n.whole < 10 ^ 16) }
    ensures places { IfSome result (λ n. n.places ≤ 27) }
    ensures few { IfSome result (λ n. (n.exponent ≢ pos 0) → HasFewDigits 10 n.whole n.fraction n.places) }
    ensures counted { IfSome result (λ n. steps.new ≡ steps.old + length s.now) }
    ensures cost { steps.new ≤ steps.old + length s.now }
{
    if s.len() > most_bytes(Radix::Dec) {
        return None;
    }
    steps.advance(s.len() as u64);
    decimal_of(s)
}
