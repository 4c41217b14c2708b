//! Reading a literal: its sign, its prefix, and a numeral that may have underscores.

ghost use Rattle.std.specs.Prelude.{◌≡◌, ◌≢◌, ◌+◌, ◌*◌, ◌^◌, ◌<◌, ◌≤◌, ◌⊎◌, ℕ, ◌&&◌, not, true, IsTrue, IfSome, None};
ghost use Rattle.std.specs.Prelude.{List, length, pos, MatchResult, IsOk, IfOk, IfErr, ◌↔◌};
ghost use Rattle.fixed_numeral.specs.declared.radix.Radix.{Radix as TheRadix};
ghost use Rattle.fixed_numeral.specs.declared.radix.Radix.TheVariants.{Dec};
ghost use Rattle.fixed_numeral.specs.Numeral.{Parts, base, is_minus, is_sign};
ghost use Rattle.fixed_numeral.specs.PartNumbers.{IsShortNumeral, HasFewDigits};
ghost use Rattle.fixed_numeral.specs.Cause.{is_nil};
ghost use Rattle.fixed_numeral.specs.Inner.Scan.{Agrees, max_magnitude};
ghost use Rattle.fixed_numeral.specs.Scanned.{IsScanned};
ghost use Rattle.fixed_numeral.specs.Literal.{HasLiteralParts, HasRest, HasRestCause, HasLiteral, IsLiteral};
ghost use Rattle.fixed_numeral.specs.Literal.{HasLiteralCause, begins_signed, last_part, sign_of, after_sign};
ghost use Rattle.fixed_numeral.specs.Literal.{after_underscores, prefix_of, radix_by, rest_by, literal_radix};
ghost use Rattle.fixed_numeral.specs.Literal.{literal_rest};
ghost use Rattle.fixed_numeral.specs.Inner.LiteralScan.{LiteralExtends, LiteralCannotExtend, IsLiteralAfter};

use crate::digit_slice::DigitSlice;
use crate::error::{ParseErrorKind, ParseFixedError};
use crate::radix::Radix;
use crate::scanned::Scanned;
use crate::scanner::{State, check_complete, is_sign, same_bytes, transition};
use crate::short::{ShortNumeral, short_numeral};
use fixed_steps::Steps;
use std::sync::ledger::Ledger;

fn is_positive(count: u64) -> bool
    ensures { IsTrue result ↔ (0 < count) }
{
    count > 0
}

/// Whether the last part has a digit.
fn last_part_has_digit(state: State) -> bool
    ensures { (r : TheRadix) (p : Parts) → Agrees r state p → result ≡ not (is_nil (last_part p)) }
{
    if state.has_separator {
        state.has_exponent_digit
    } else if state.has_point {
        is_positive(state.fraction_len)
    } else {
        is_positive(state.whole_len)
    }
}

/// Whether the byte is a sign before all others.
fn is_leading_sign(state: State, b: u8) -> bool
    ensures { result ≡ (is_sign b && (state.sign_allowed && not state.has_separator)) }
{
    is_sign(b) && state.sign_allowed && !state.has_separator
}

/// Reads the next byte of a literal's rest.
fn literal_byte(state: State, radix: Radix, b: u8) -> Result<State, ParseErrorKind>
    requires room { state.magnitude ≤ max_magnitude true }
    requires counts { state.whole_len + state.fraction_len + 1 < 2 ^ 64 }
    ensures { (bs : List ℕ) (p : Parts) → HasLiteralParts radix bs p → Agrees radix state p
        → MatchResult result (λ next. LiteralExtends radix bs b next) (λ kind. LiteralCannotExtend radix bs p b kind) }
{
    if b == b'_' {
        if last_part_has_digit(state) {
            Ok(state)
        } else {
            Err(ParseErrorKind::MisplacedUnderscore)
        }
    } else if is_leading_sign(state, b) {
        Err(ParseErrorKind::MisplacedSign)
    } else {
        transition(state, radix, b)
    }
}

/// Returns the state after all bytes of a literal's rest.
fn read_rest<L: Ledger>(
    bytes: &[u8],
    radix: Radix,
    steps: &mut Steps<L>,
) -> Result<State, ParseErrorKind>
    ensures end { MatchResult result (λ state. IsLiteralAfter radix bytes.now state)
        (λ kind. HasRestCause radix bytes.now kind) }
    ensures counted { IfOk result (λ s. steps.new ≡ steps.old + length bytes.now) }
    ensures cost { steps.new ≤ steps.old + length bytes.now }
{
    let mut state = State::start();
    for b in bytes {
        steps.tick();
        match literal_byte(state, radix, *b) {
            Ok(next) => state = next,
            Err(kind) => return Err(kind),
        }
    }
    Ok(state)
}

/// Returns the views of a literal's rest that was read, with the sign that was taken first.
fn rest_views<'a, L: Ledger>(
    bytes: &'a [u8],
    radix: Radix,
    neg: bool,
    state: State,
    steps: &mut Steps<L>,
) -> Scanned<'a>
    requires { IsLiteralAfter radix bytes.now state }
    ensures value { (p : Parts) → HasRest radix bytes.now (record p { sign = None })
        → IfSome p.sign (λ b. IsTrue (is_sign b)) → neg ≡ is_minus p.sign
        → IsScanned radix p result.neg result.whole result.fraction result.bit_shift }
    ensures counted { steps.old ≤ steps.new }
    ensures cost { steps.new ≤ steps.old + length bytes.now + 2 }
{
    let text = same_bytes(bytes);
    let (whole, later) = DigitSlice::split_at_digit(text, state.whole_len);
    let (fraction, _rest) = DigitSlice::split_at_digit(later, state.fraction_len);
    Scanned::of(
        radix,
        neg,
        whole,
        fraction,
        state.scales_by_two,
        state.exponent_negative,
        state.magnitude,
        steps,
    )
}

/// Returns whether a sign is taken first, and the bytes after it.
fn after_sign(bytes: &[u8], signed: bool) -> (bool, &[u8])
    ensures sign { result.0 ≡ is_minus (sign_of signed bytes.now) }
    ensures rest { result.1.now ≡ after_sign signed bytes.now }
    ensures shorter { length result.1.now ≤ length bytes.now }
{
    if signed && bytes.len() > 0 && bytes[0] == b'-' {
        (true, &bytes[1..])
    } else {
        (false, bytes)
    }
}

/// Returns the radix of the prefix.
fn prefix(bytes: &[u8]) -> Option<Radix>
    ensures { result ≡ prefix_of bytes.now }
{
    if bytes.len() < 2 || bytes[0] != b'0' {
        return None;
    }
    match bytes[1] {
        b'b' => Some(Radix::Bin),
        b'o' => Some(Radix::Oct),
        b'x' => Some(Radix::Hex),
        _ => None,
    }
}

/// Returns the bytes without leading underscores.
fn after_underscores(bytes: &[u8]) -> &[u8]
    ensures rest { result.now ≡ after_underscores bytes.now }
    ensures shorter { length result.now ≤ length bytes.now }
{
    for (k, b) in bytes.iter().enumerate() {
        if *b != b'_' {
            return &bytes[k..];
        }
    }
    &[]
}

/// Returns the radix by the prefix, and the bytes after the prefix and its underscores.
fn after_prefix(bytes: &[u8]) -> (Radix, &[u8])
    ensures radix { result.0 ≡ radix_by (prefix_of bytes.now) }
    ensures rest { result.1.now ≡ rest_by (prefix_of bytes.now) bytes.now }
    ensures shorter { length result.1.now ≤ length bytes.now }
{
    match prefix(bytes) {
        Some(radix) => (radix, after_underscores(&bytes[2..])),
        None => (Radix::Dec, bytes),
    }
}

/// Whether bytes begin with a sign.
fn begins_signed(bytes: &[u8]) -> bool
    ensures { result ≡ begins_signed bytes.now }
{
    !bytes.is_empty() && is_sign(bytes[0])
}

/// Returns a numeral's numbers with another sign.
#[inline(always)]
fn with_sign(found: ShortNumeral, negative: bool) -> ShortNumeral
    ensures negative { result.negative ≡ negative }
    ensures whole { result.whole ≡ found.whole }
    ensures fraction { result.fraction ≡ found.fraction }
    ensures places { result.places ≡ found.places }
    ensures exponent { result.exponent ≡ found.exponent }
    ensures by_two { result.scales_by_two ≡ found.scales_by_two }
{
    ShortNumeral { negative, ..found }
}

/// Returns the radix of a literal whose rest is a short numeral without underscores, and the numbers of its parts.
/// `None` otherwise, or if the bytes are not a literal; `scan_lit` then says more. It takes a step a byte, or none.
#[inline(always)]
pub fn short_literal<L: Ledger>(
    bytes: &[u8],
    signed: bool,
    steps: &mut Steps<L>,
) -> Option<(Radix, ShortNumeral)>
    ensures literal { IfSome result (λ r. IsLiteral signed bytes.now) }
    ensures radix { IfSome result (λ r. r.0 ≡ literal_radix signed bytes.now) }
    ensures parts { IfSome result (λ r. (p : Parts) → HasLiteral signed bytes.now p
        → IsShortNumeral r.0 p r.1.negative r.1.whole r.1.fraction r.1.places r.1.exponent r.1.scales_by_two) }
    ensures fraction { IfSome result (λ r. r.1.fraction < base r.0 ^ r.1.places) }
    ensures whole { IfSome result (λ r. r.1.whole < base r.0 ^ 16) }
    ensures places { IfSome result (λ r. r.1.places ≤ 27) }
    ensures few { IfSome result (λ r. ((r.0 ≢ Dec) ⊎ (r.1.exponent ≢ pos 0))
        → HasFewDigits (base r.0) r.1.whole r.1.fraction r.1.places) }
    ensures cost { steps.new ≤ steps.old + length bytes.now }
{
    let (negative, unsigned) = after_sign(bytes, signed);
    let (radix, rest) = after_prefix(unsigned);
    if begins_signed(rest) {
        return None;
    }
    match short_numeral(rest, 0, radix, steps) {
        Some(found) => Some((radix, with_sign(found, negative))),
        None => None,
    }
}

/// Returns the radix and the views of a literal, or the reason why the bytes are not one.
///
/// If `signed`, one leading `-` is the literal's sign. A prefix `0b`, `0o` or `0x` names the radix, which is 10 without
/// one. Underscores are allowed after a prefix and after a digit of their part. The views skip them. The error is never
/// `Overflow`. It takes at most 2 steps a byte and 2 more, and none for the bytes before the rest.
pub fn scan_lit<'a, L: Ledger>(
    bytes: &'a [u8],
    signed: bool,
    steps: &mut Steps<L>,
) -> Result<(Radix, Scanned<'a>), ParseFixedError>
    ensures literal { IsOk result ↔ IsLiteral signed bytes.now }
    ensures cause { IfErr result (λ kind. HasLiteralCause signed bytes.now kind) }
    ensures radix { IfOk result (λ r. r.0 ≡ literal_radix signed bytes.now) }
    ensures value { IfOk result (λ r. (p : Parts) → HasLiteral signed bytes.now p
        → IsScanned r.0 p r.1.neg r.1.whole r.1.fraction r.1.bit_shift) }
    ensures counted { IfOk result (λ r. steps.old + length (literal_rest signed bytes.now) ≤ steps.new) }
    ensures cost { steps.new ≤ steps.old + 2 * length bytes.now + 2 }
{
    let (neg, unsigned) = after_sign(bytes, signed);
    let (radix, rest) = after_prefix(unsigned);
    let state = match read_rest(rest, radix, steps) {
        Ok(state) => state,
        Err(kind) => return Err(ParseFixedError::new(kind)),
    };
    match check_complete(state) {
        Ok(all) => Ok((radix, rest_views(rest, radix, neg, all, steps))),
        Err(kind) => Err(ParseFixedError::new(kind)),
    }
}
