//! Reading a numeral from the left.

ghost use Rattle.std.specs.Prelude.{◌≡◌, ◌+◌, ◌*◌, ◌^◌, ◌<◌, ◌≤◌, ◌==◌, ℕ, nat_lt, true, false, IsTrue, List, [], ◌++◌};
ghost use Rattle.std.specs.Prelude.{length, take, drop, MatchResult, IfSome, IfOk};
ghost use Rattle.std.specs.Int.Digits.{AllBelowBase};
ghost use Rattle.std.specs.Int.{bit_at};
ghost use Rattle.std.specs.Simd.Lanes.{number_l};
ghost use Rattle.std.specs.Char.{digit_value};
ghost use Rattle.std.specs.Str.Parse.{AllDigits};
ghost use Rattle.fixed_numeral.specs.declared.radix.Radix.{Radix as TheRadix};
ghost use Rattle.fixed_numeral.specs.Answer.{IsReadOrRefused};
ghost use Rattle.fixed_numeral.specs.Cause.{HasCause};
ghost use Rattle.fixed_numeral.specs.Numeral.{Parts, HasParts, base, is_sign, is_separator, is_two_separator};
ghost use Rattle.fixed_numeral.specs.Inner.Scan.{Agrees, Extends, CannotExtend, IsAfter, IsComplete, IsIncomplete};
ghost use Rattle.fixed_numeral.specs.Inner.Scan.{max_magnitude};
ghost use Rattle.fixed_numeral.specs.Inner.Run.{IsRun};
ghost use Rattle.fixed_numeral.specs.Scanned.{IsScanned};

use crate::digit_slice::{DigitSlice, is_digit};
use crate::error::{ParseErrorKind, ParseFixedError};
use crate::radix::Radix;
use crate::scanned::Scanned;
use crate::swar::{are_decimal, number_of_decimals, word_at};
use fixed_steps::Steps;
use std::simd::prelude::*;
use std::sync::ledger::Ledger;

/// What the scanner knows of the bytes so far.
#[derive(Clone, Copy)]
pub struct State {
    /// The number of bytes of the sign.
    pub sign_len: u64,
    /// The number of digits before the point.
    pub whole_len: u64,
    /// The number of digits after the point.
    pub fraction_len: u64,
    /// The magnitude of the exponent so far.
    pub magnitude: u64,
    /// Whether the sign is a minus.
    pub negative: bool,
    /// Whether there is a point.
    pub has_point: bool,
    /// Whether there is a separator.
    pub has_separator: bool,
    /// Whether the separator scales by two.
    pub scales_by_two: bool,
    /// Whether a sign may come next.
    pub sign_allowed: bool,
    /// Whether the exponent's sign is a minus.
    pub exponent_negative: bool,
    /// Whether there is an exponent digit.
    pub has_exponent_digit: bool,
}

impl State {
    /// Returns the state before the first byte.
    #[tactic(auto, using(crate::proofs::ScanLemmas::after_nothing))]
    pub fn start() -> State
        ensures { (radix : TheRadix) → IsAfter radix [] result }
    {
        State {
            negative: false,
            sign_len: 0,
            whole_len: 0,
            has_point: false,
            fraction_len: 0,
            has_separator: false,
            scales_by_two: false,
            sign_allowed: true,
            exponent_negative: false,
            magnitude: 0,
            has_exponent_digit: false,
        }
    }
}

fn is_digit_of(radix: Radix, b: u8) -> bool
    ensures { result ≡ nat_lt (digit_value b) (base radix) }
{
    char::from(b).is_digit(radix.base())
}

pub(crate) fn is_sign(b: u8) -> bool
    ensures { result ≡ is_sign b }
{
    b == b'+' || b == b'-'
}

/// Returns the separators of a radix as bits. The bit of the byte '@' is the lowest.
fn separator_bits(radix: Radix) -> u64
    ensures { (k : ℕ) → k < 64 → (bit_at result k == 1) ≡ is_separator radix (64 + k) }
{
    match radix {
        Radix::Bin => 0x0001_0020_0001_0021,
        Radix::Oct => 0x0001_0020_0001_0021,
        Radix::Dec => 0x0000_0020_0000_0021,
        Radix::Hex => 0x0001_0000_0001_0001,
    }
}

/// Whether a byte is a separator of a radix. It is found by a bit of a word, since branches on the separators of four
/// radices are hard to predict.
pub(crate) fn is_separator(radix: Radix, b: u8) -> bool
    ensures { result ≡ is_separator radix b }
{
    b >= 64 && b < 128 && (separator_bits(radix) >> (b % 64)) % 2 == 1
}

pub(crate) fn is_two_separator(radix: Radix, b: u8) -> bool
    ensures { result ≡ is_two_separator radix b }
{
    match radix {
        Radix::Dec => false,
        _ => b == b'p' || b == b'P',
    }
}

pub(crate) fn max_magnitude(minus: bool) -> u64
    ensures { result ≡ max_magnitude minus }
{
    if minus { 0x8000_0000 } else { 0x7fff_ffff }
}

/// Reads the next byte before a separator.
fn mantissa_byte(state: State, radix: Radix, b: u8) -> Result<State, ParseErrorKind>
    requires separator { state.has_separator ≡ false }
    requires room { state.magnitude ≤ max_magnitude true }
    requires counts { state.whole_len + state.fraction_len + 1 < 2 ^ 64 }
    ensures { (bs : List ℕ) (p : Parts) → HasParts radix bs p → Agrees radix state p
        → MatchResult result (λ next. Extends radix bs b next) (λ kind. CannotExtend radix bs p b kind) }
{
    if is_digit_of(radix, b) {
        Ok(after_digits(state, 1))
    } else if is_separator(radix, b) {
        Ok(State {
            has_separator: true,
            scales_by_two: is_two_separator(radix, b),
            sign_allowed: true,
            exponent_negative: false,
            magnitude: 0,
            has_exponent_digit: false,
            ..state
        })
    } else if b == b'.' {
        if state.has_point {
            Err(ParseErrorKind::TooManyPoints)
        } else {
            Ok(State {
                has_point: true,
                sign_allowed: false,
                ..state
            })
        }
    } else if is_sign(b) {
        if state.sign_allowed {
            Ok(State {
                negative: b == b'-',
                sign_len: 1,
                sign_allowed: false,
                ..state
            })
        } else {
            Err(ParseErrorKind::MisplacedSign)
        }
    } else {
        Err(ParseErrorKind::InvalidDigit)
    }
}

/// Reads the next byte after a separator.
fn exponent_byte(state: State, radix: Radix, b: u8) -> Result<State, ParseErrorKind>
    requires separator { state.has_separator ≡ true }
    requires room { state.magnitude ≤ max_magnitude true }
    ensures { (bs : List ℕ) (p : Parts) → HasParts radix bs p → Agrees radix state p
        → MatchResult result (λ next. Extends radix bs b next) (λ kind. CannotExtend radix bs p b kind) }
{
    if is_digit_of(Radix::Dec, b) {
        let magnitude = state.magnitude * 10 + u64::from(b - b'0');
        if magnitude <= max_magnitude(state.exponent_negative) {
            Ok(State {
                sign_allowed: false,
                magnitude,
                has_exponent_digit: true,
                ..state
            })
        } else {
            Err(ParseErrorKind::ExpOverflow)
        }
    } else if is_sign(b) {
        if !state.sign_allowed {
            Err(ParseErrorKind::MisplacedSign)
        } else {
            Ok(State {
                sign_allowed: false,
                exponent_negative: b == b'-',
                ..state
            })
        }
    } else if is_separator(radix, b) {
        Err(ParseErrorKind::TooManyExp)
    } else {
        Err(ParseErrorKind::ExpInvalidDigit)
    }
}

/// Reads the next byte.
pub(crate) fn transition(state: State, radix: Radix, b: u8) -> Result<State, ParseErrorKind>
    requires room { state.magnitude ≤ max_magnitude true }
    requires counts { state.whole_len + state.fraction_len + 1 < 2 ^ 64 }
    ensures { (bs : List ℕ) (p : Parts) → HasParts radix bs p → Agrees radix state p
        → MatchResult result (λ next. Extends radix bs b next) (λ kind. CannotExtend radix bs p b kind) }
{
    if state.has_separator {
        exponent_byte(state, radix, b)
    } else {
        mantissa_byte(state, radix, b)
    }
}

/// Counts the digits of a base of at most 10 from index `from` on, before some other byte.
fn low_digits(bytes: &[u8], base: u8, from: usize) -> usize
    requires base { base ≤ 10 }
    requires place { from ≤ length bytes.now }
    ensures within { from + result ≤ length bytes.now }
    ensures digits { AllDigits base (take result (drop from bytes.now)) }
{
    let mut at = from;
    while at < bytes.len() && bytes[at].wrapping_sub(b'0') < base {
        at += 1;
    }
    at - from
}

/// The shortest text for which testing eight bytes at a time pays: a text of this length mostly has eight digits on one
/// side of the point.
const LONG: usize = 16;

/// Whether the sixteen bytes from index `at` on are decimal digits.
#[inline(always)]
fn are_sixteen_decimal(bytes: &[u8], at: usize) -> bool
    requires { at + 16 ≤ length bytes.now }
    ensures { IsTrue result → AllDigits 10 (take 16 (drop at bytes.now)) }
{
    let lanes = u8x16::from_slice(&bytes[at..]);
    let below = lanes.simd_lt(u8x16::splat(b'0')).to_bitmask();
    let above = lanes.simd_gt(u8x16::splat(b'9')).to_bitmask();
    if below != 0 || above != 0 {
        return false;
    }
    true
}

/// Returns the index after the decimal digits from index `from` on that come in sixteens.
#[inline(always)]
fn after_decimal_sixteens(bytes: &[u8], from: usize) -> usize
    requires { from ≤ length bytes.now }
    ensures { IsRun 10 bytes.now from result }
{
    let mut at = from;
    while bytes.len() - at >= 16 && are_sixteen_decimal(bytes, at) {
        at += 16;
    }
    at
}

/// Counts the decimal digits from index `from` on, before some other byte.
fn decimal_digits(bytes: &[u8], from: usize) -> usize
    requires place { from ≤ length bytes.now }
    ensures within { from + result ≤ length bytes.now }
    ensures digits { AllDigits 10 (take result (drop from bytes.now)) }
{
    if bytes.len() < LONG {
        return low_digits(bytes, 10, from);
    }
    let mut at = after_decimal_sixteens(bytes, from);
    while bytes.len() - at >= 8 && are_decimal(word_at(bytes, at)) {
        at += 8;
    }
    at += low_digits(bytes, 10, at);
    at - from
}

/// Counts the digits of radix 16 from index `from` on, before some other byte.
fn hex_digits(bytes: &[u8], from: usize) -> usize
    requires place { from ≤ length bytes.now }
    ensures within { from + result ≤ length bytes.now }
    ensures digits { AllDigits 16 (take result (drop from bytes.now)) }
{
    let mut at = from;
    while at < bytes.len() && is_digit(bytes[at]) {
        at += 1;
    }
    at - from
}

/// Counts the digits of the radix from index `from` on, before some other byte.
fn digits_at(bytes: &[u8], radix: Radix, from: usize) -> usize
    requires place { from ≤ length bytes.now }
    ensures within { from + result ≤ length bytes.now }
    ensures digits { AllDigits (base radix) (take result (drop from bytes.now)) }
{
    match radix {
        Radix::Bin => low_digits(bytes, 2, from),
        Radix::Oct => low_digits(bytes, 8, from),
        Radix::Dec => decimal_digits(bytes, from),
        Radix::Hex => hex_digits(bytes, from),
    }
}

/// Counts the mantissa digits from index `from` on.
pub(crate) fn mantissa_digits(state: State, bytes: &[u8], radix: Radix, from: usize) -> usize
    requires place { from ≤ length bytes.now }
    ensures within { from + result ≤ length bytes.now }
    ensures digits { AllDigits (base radix) (take result (drop from bytes.now)) }
    ensures separator { 0 < result → state.has_separator ≡ false }
{
    if state.has_separator {
        0
    } else {
        digits_at(bytes, radix, from)
    }
}

/// Returns the state after `count` more mantissa digits.
#[tactic(auto, using(crate::proofs::ScanLemmas::passed))]
pub(crate) fn after_digits(state: State, count: u64) -> State
    requires separator { 0 < count → state.has_separator ≡ false }
    requires counts { state.whole_len + state.fraction_len + count < 2 ^ 64 }
    ensures after { (radix : TheRadix) (bs ds : List ℕ) → IsAfter radix bs state → AllDigits (base radix) ds
        → length ds ≡ count → IsAfter radix (bs ++ ds) result }
    ensures counts { result.whole_len + result.fraction_len ≡ state.whole_len + state.fraction_len + count }
    ensures separator { result.has_separator ≡ state.has_separator }
{
    if count == 0 {
        state
    } else if state.has_point {
        State {
            fraction_len: state.fraction_len + count,
            sign_allowed: false,
            ..state
        }
    } else {
        State {
            whole_len: state.whole_len + count,
            sign_allowed: false,
            ..state
        }
    }
}

/// Returns the state after eight more exponent digits. `None`: they are not all digits, or the exponent leaves its
/// range.
#[tactic(auto, using(crate::proofs::ExponentLemmas::eight_more, crate::proofs::ExponentLemmas::max_most))]
#[inline(always)]
fn after_eight_exponent_digits(state: State, word: u64) -> Option<State>
    requires room { state.magnitude ≤ max_magnitude true }
    requires separator { state.has_separator ≡ true }
    ensures after { IfSome result (λ next. (radix : TheRadix) (bs ds : List ℕ) → IsAfter radix bs state → length ds ≡ 8
        → AllBelowBase 256 ds → word ≡ number_l 256 ds → IsAfter radix (bs ++ ds) next) }
    ensures room { IfSome result (λ next. next.magnitude ≤ max_magnitude true) }
{
    if !are_decimal(word) {
        return None;
    }
    let magnitude = state.magnitude * 100_000_000 + number_of_decimals(word);
    if magnitude > max_magnitude(state.exponent_negative) {
        return None;
    }
    Some(State {
        sign_allowed: false,
        magnitude,
        has_exponent_digit: true,
        ..state
    })
}

/// Returns the state after the exponent digits from index `from` on, eight at a time, and the index after them.
#[inline(always)]
fn after_exponent_digits(state: State, bytes: &[u8], from: usize) -> (State, usize)
    requires place { from ≤ length bytes.now }
    requires room { state.magnitude ≤ max_magnitude true }
    ensures after { (radix : TheRadix) → IsAfter radix (take from bytes.now) state
        → IsAfter radix (take result.1 bytes.now) result.0 }
    ensures place { from ≤ result.1 }
    ensures within { result.1 ≤ length bytes.now }
{
    let mut next = state;
    let mut at = from;
    while next.has_separator && bytes.len() - at >= 8 {
        match after_eight_exponent_digits(next, word_at(bytes, at)) {
            Some(after) => next = after,
            None => return (next, at),
        }
        at += 8;
    }
    (next, at)
}

/// Returns the state after all bytes. Digits are taken together, and then the byte after them.
pub(crate) fn read<L: Ledger>(
    bytes: &[u8],
    radix: Radix,
    steps: &mut Steps<L>,
) -> Result<State, ParseErrorKind>
    ensures end { MatchResult result (λ state. IsAfter radix bytes.now state) (λ kind. HasCause radix bytes.now kind) }
    ensures counted { IfOk result (λ s. steps.new ≡ steps.old + length bytes.now) }
    ensures cost { steps.new ≤ steps.old + length bytes.now }
{
    let mut state = State::start();
    let mut at: usize = 0;
    while at < bytes.len() {
        let count = mantissa_digits(state, bytes, radix, at);
        steps.advance(count as u64);
        state = after_digits(state, count as u64);
        at += count;
        let (next, place) = after_exponent_digits(state, bytes, at);
        steps.advance((place - at) as u64);
        state = next;
        at = place;
        if at < bytes.len() {
            steps.tick();
            match transition(state, radix, bytes[at]) {
                Ok(next) => state = next,
                Err(kind) => return Err(kind),
            }
            at += 1;
        }
    }
    Ok(state)
}

/// Returns the state at the end of the text, if nothing is missing.
pub(crate) fn check_complete(state: State) -> Result<State, ParseErrorKind>
    ensures { MatchResult result (λ s. (s ≡ state) × IsComplete state) (λ kind. IsIncomplete state kind) }
{
    if state.whole_len == 0 && state.fraction_len == 0 {
        Err(ParseErrorKind::NoDigits)
    } else if state.has_separator && !state.has_exponent_digit {
        Err(ParseErrorKind::ExpNoDigits)
    } else {
        Ok(state)
    }
}

/// Returns `count` bytes from index `from` on. If `count` is 0, `from` may lie past the end.
pub(crate) fn slice_at(bytes: &[u8], from: usize, count: usize) -> &[u8]
    requires { 0 < count → from + count ≤ length bytes.now }
    ensures { result.now ≡ take count (drop from bytes.now) }
{
    if count == 0 {
        &[]
    } else {
        &bytes[from..from + count]
    }
}

/// Returns the same bytes. The call gives the proof the bound on the slice's length.
pub(crate) fn same_bytes(bytes: &[u8]) -> &[u8]
    ensures { result.now ≡ bytes.now }
{
    bytes
}

/// Returns the views of the numeral that was read.
#[inline(always)]
fn digit_views<'a, L: Ledger>(
    bytes: &'a [u8],
    radix: Radix,
    state: State,
    steps: &mut Steps<L>,
) -> Scanned<'a>
    requires { IsAfter radix bytes.now state }
    ensures value { (p : Parts) → HasParts radix bytes.now p
        → IsScanned radix p result.neg result.whole result.fraction result.bit_shift }
    ensures counted { steps.old ≤ steps.new }
    ensures cost { steps.new ≤ steps.old + length bytes.now + 2 }
{
    let text = same_bytes(bytes);
    let point = state.sign_len + state.whole_len;
    let whole = slice_at(text, state.sign_len as usize, state.whole_len as usize);
    let fraction = slice_at(text, point as usize + 1, state.fraction_len as usize);
    Scanned::of(
        radix,
        state.negative,
        DigitSlice::of(whole, state.whole_len),
        DigitSlice::of(fraction, state.fraction_len),
        state.scales_by_two,
        state.exponent_negative,
        state.magnitude,
        steps,
    )
}

/// Returns what `digit_views` returns, away from the path of most numerals, which have no exponent.
#[inline(never)]
fn moved_digit_views<'a, L: Ledger>(
    bytes: &'a [u8],
    radix: Radix,
    state: State,
    steps: &mut Steps<L>,
) -> Scanned<'a>
    requires { IsAfter radix bytes.now state }
    ensures value { (p : Parts) → HasParts radix bytes.now p
        → IsScanned radix p result.neg result.whole result.fraction result.bit_shift }
    ensures counted { steps.old ≤ steps.new }
    ensures cost { steps.new ≤ steps.old + length bytes.now + 2 }
{
    digit_views(bytes, radix, state, steps)
}

/// Returns the views of a numeral, or the reason why the bytes are not one.
///
/// All of `bytes` is a numeral of the radix: an optional sign, digits with an optional point, and an optional exponent.
/// The error is never `MisplacedUnderscore` or `Overflow`. It takes at most 2 steps a byte and 2 more.
pub fn scan<'a, L: Ledger>(
    bytes: &'a [u8],
    radix: Radix,
    steps: &mut Steps<L>,
) -> Result<Scanned<'a>, ParseFixedError>
    ensures reading { IsReadOrRefused radix bytes.now
        (λ p s. IsScanned radix p s.neg s.whole s.fraction s.bit_shift) result }
    ensures counted { IfOk result (λ s. steps.old + length bytes.now ≤ steps.new) }
    ensures cost { steps.new ≤ steps.old + 2 * length bytes.now + 2 }
{
    let state = match read(bytes, radix, steps) {
        Ok(state) => state,
        Err(kind) => return Err(ParseFixedError::new(kind)),
    };
    match check_complete(state) {
        Ok(all) if all.magnitude == 0 => Ok(digit_views(bytes, radix, all, steps)),
        Ok(all) => Ok(moved_digit_views(bytes, radix, all, steps)),
        Err(kind) => Err(ParseFixedError::new(kind)),
    }
}
