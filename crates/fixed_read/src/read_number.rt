//! The core of reading: one reading of a numeral into a format chosen at run time.
//!
//! A short numeral is read from the numbers of its parts (`short_numeral`). Any other is scanned, and its digits are
//! read (`magnitude`). All other readers are shells over this.

ghost use Rattle.std.specs.Prelude.{◌≡◌, ◌≢◌, ◌+◌, ◌*◌, ◌^◌, ◌<◌, ◌≤◌, ◌↔◌, ◌⊎◌, ℤ, pos, IsTrue, IsOk, IfOk, IfErr};
ghost use Rattle.std.specs.Prelude.{IsNone, IfSome, drop, length};
ghost use Rattle.fixed_bits.specs.Formats.{IsFormat};
ghost use Rattle.fixed_bits.specs.Images.{IsImage, IsOutOfRangeBy};
ghost use Rattle.fixed_bits.specs.Numbers.{IsNumber};
ghost use Rattle.fixed_bits.specs.Ranges.{IsInRange, IsOutOfRange, IsWide};
ghost use Rattle.fixed_bits.specs.declared.mode.ReadMode.TheVariants.{NearestEven};
ghost use Rattle.fixed_numeral.specs.Answer.{IsReadOrRefused};
ghost use Rattle.fixed_numeral.specs.Literal.{HasLiteral, HasLiteralCause, IsLiteral, literal_radix};
ghost use Rattle.fixed_numeral.specs.Numeral.{Parts, HasNumeral, IsNumeral, base, is_minus};
ghost use Rattle.fixed_numeral.specs.Spelled.{IsSameNumber};
ghost use Rattle.fixed_numeral.specs.Value.{Fraction, magnitude};
ghost use Rattle.fixed_numeral.specs.declared.radix.Radix.{Radix};
ghost use Rattle.fixed_bits.specs.declared.mode.ReadMode.{ReadMode};
ghost use Rattle.fixed_bits.specs.Rounded.{magnitude_mode};
ghost use Rattle.fixed_numeral.specs.PartNumbers.{IsShortNumeral, HasFewDigits};
ghost use Rattle.fixed_numeral.specs.Scanned.{IsScanned};
ghost use Rattle.fixed_numeral.specs.declared.radix.Radix.TheVariants.{Dec};
ghost use Rattle.fixed_read.specs.Reading.{IsReading, number_in};
ghost use Rattle.fixed_read.specs.Inner.Rounding.{IsMagnitude, IsSplitNumeral};

use crate::magnitude::{Ulps, magnitude};
use crate::short_numeral::short_ulps;
use fixed_bits::{Format, Number, Policy, ReadMode, magnitude_mode_of};
use fixed_numeral::{
    ParseFixedError, Radix, Scanned, ShortNumeral, scan, scan_lit, short_decimal, short_literal,
    short_numeral,
};
use fixed_steps::Steps;
use std::sync::ledger::Ledger;

/// The number that a numeral reads as in a format: a whole number of the format's ulps with a sign, which may be out of
/// the format's range.
///
/// It holds the parts of a `Number` and not a `Number`: the padding of an inner record would be moved with it.
#[derive(Clone, Copy, Debug, PartialEq, Eq)]
pub struct ReadNumber {
    low: u64,
    negative: bool,
    has_high_bits: bool,
    format: Format,
    exact: bool,
}

impl ReadNumber {
    /// Returns a number that was read into a format, and whether the numeral was a whole number of ulps.
    #[inline(always)]
    pub fn new(number: Number, format: Format, exact: bool) -> ReadNumber
        ensures number { number_in result ≡ number }
        ensures format { result.format ≡ format }
        ensures exact { result.exact ≡ exact }
    {
        ReadNumber {
            low: number.low,
            negative: number.negative,
            has_high_bits: number.has_high_bits,
            format,
            exact,
        }
    }

    /// Returns the format that the numeral was read into.
    pub fn format(&self) -> Format
        ensures { result ≡ self.now.format }
    {
        self.format
    }

    /// Returns the number, in ulps. It is negative if the numeral has a minus, even if it is 0.
    #[inline(always)]
    pub fn number(&self) -> Number
        ensures { result ≡ number_in self.now }
    {
        Number {
            low: self.low,
            negative: self.negative,
            has_high_bits: self.has_high_bits,
        }
    }

    /// Whether the numeral has a minus, even if the number is 0.
    pub fn is_negative(&self) -> bool
        ensures { result ≡ self.now.negative }
    {
        self.negative
    }

    /// Returns the lowest 64 bits of the magnitude in ulps.
    pub fn magnitude(&self) -> u64
        ensures { result ≡ self.now.low }
    {
        self.low
    }

    /// Whether the magnitude has more than 64 bits.
    pub fn has_high_bits(&self) -> bool
        ensures { result ≡ self.now.has_high_bits }
    {
        self.has_high_bits
    }

    /// Whether the numeral was a whole number of ulps, so that nothing was rounded.
    pub fn is_exact(&self) -> bool
        ensures { result ≡ self.now.exact }
    {
        self.exact
    }

    /// Whether the number is out of the format's range.
    pub fn is_out_of_range(&self) -> bool
        ensures range { (v : ℤ) → IsNumber (number_in self.now) v → IsTrue result
            ↔ IsOutOfRange self.now.format.signed self.now.format.width v }
        ensures valid { IsFormat self.now.format.width self.now.format.frac }
    {
        self.number().is_out_of_range(self.format)
    }

    /// Whether the number is out of the policy's part of the format's range.
    pub fn is_out_of_range_by(&self, policy: Policy) -> bool
        ensures range { (v : ℤ) → IsNumber (number_in self.now) v → IsTrue result
            ↔ IsOutOfRangeBy policy self.now.format.signed self.now.format.width v }
        ensures valid { IsFormat self.now.format.width self.now.format.frac }
    {
        self.number().is_out_of_range_by(self.format, policy)
    }

    /// Returns the image of the number in the format: the number itself if it is in the policy's range. `None` exactly
    /// if it is out of range and the policy is `Checked`.
    pub fn image(&self, policy: Policy) -> Option<i128>
        ensures image { (v : ℤ) → IsNumber (number_in self.now) v
            → IfSome result (λ c. IsImage policy self.now.format.signed self.now.format.width v c) }
        ensures none { (v : ℤ) → IsNumber (number_in self.now) v → IsNone result
            ↔ ((policy ≡ Policy.Checked) × IsOutOfRange self.now.format.signed self.now.format.width v) }
        ensures range { IfSome result (λ c. IsInRange self.now.format.signed self.now.format.width c) }
        ensures wide { IfSome result IsWide }
    {
        self.number().image(self.format, policy).admitted(policy)
    }
}

/// Returns the number that a scanned numeral reads as.
fn number_of<'a, L: Ledger>(
    found: &Scanned<'a>,
    radix: Radix,
    format: Format,
    mode: ReadMode,
    steps: &mut Steps<L>,
) -> ReadNumber
    requires split { IsSplitNumeral radix found.now.whole found.now.fraction found.now.bit_shift }
    ensures reading { (p : Parts) → IsScanned radix p found.now.neg found.now.whole found.now.fraction
        found.now.bit_shift → IsReading mode radix p result }
    ensures format { result.format ≡ format }
    ensures valid { IsFormat format.width format.frac }
    ensures cost { steps.new ≤ steps.old + 117 }
{
    let negative = found.neg();
    let ulps = magnitude(
        found,
        radix,
        format.frac(),
        magnitude_mode_of(mode, negative),
        steps,
    );
    number_from(format, negative, ulps)
}

/// Returns a magnitude as the number of a format.
#[inline]
fn number_from(format: Format, negative: bool, ulps: Ulps) -> ReadNumber
    ensures reading { (mode : ReadMode) (r : Radix) (p : Parts) (number : Fraction) → negative ≡ is_minus p.sign
        → 0 < number.den → IsSameNumber number (magnitude r p)
        → IsMagnitude (magnitude_mode mode negative) number format.frac ulps → IsReading mode r p result }
    ensures format { result.format ≡ format }
{
    ReadNumber {
        low: ulps.low,
        negative,
        has_high_bits: ulps.has_high_bits,
        format,
        exact: ulps.is_exact,
    }
}

/// Returns the number that a short numeral reads as. `None`: its digits must be read.
#[inline(always)]
fn number_of_short(
    found: ShortNumeral,
    radix: Radix,
    format: Format,
    mode: ReadMode,
) -> Option<ReadNumber>
    requires fraction { found.fraction < base radix ^ found.places }
    requires whole { found.whole < base radix ^ 16 }
    requires places { found.places ≤ 27 }
    requires few { ((radix ≢ Dec) ⊎ (found.exponent ≢ pos 0))
        → HasFewDigits (base radix) found.whole found.fraction found.places }
    ensures reading { IfSome result (λ n. (p : Parts)
        → IsShortNumeral radix p found.negative found.whole found.fraction found.places found.exponent
        found.scales_by_two → IsReading mode radix p n) }
    ensures format { IfSome result (λ n. n.format ≡ format) }
{
    let own_mode = magnitude_mode_of(mode, found.negative);
    match short_ulps(found, radix, format.frac(), own_mode) {
        Some(ulps) => Some(number_from(format, found.negative, ulps)),
        None => None,
    }
}

/// Reads a short numeral at the end of a text. `None` only means that another way must be tried.
#[tactic(auto, using(crate::proofs::ShortNumeralLemmas::if_some))]
#[inline(always)]
fn read_short<L: Ledger>(
    text: &[u8],
    from: usize,
    radix: Radix,
    format: Format,
    mode: ReadMode,
    steps: &mut Steps<L>,
) -> Option<ReadNumber>
    requires place { from ≤ length text.now }
    ensures numeral { IfSome result (λ found. IsNumeral radix (drop from text.now)) }
    ensures reading { IfSome result (λ found. (p : Parts) → HasNumeral radix (drop from text.now) p
        → IsReading mode radix p found) }
    ensures format { IfSome result (λ found. found.format ≡ format) }
    ensures cost { steps.new ≤ steps.old + length (drop from text.now) }
{
    match short_numeral(text, from, radix, steps) {
        Some(found) => number_of_short(found, radix, format, mode),
        None => None,
    }
}

/// Reads a text that is a short decimal. `None` only means that another way must be tried.
#[inline(always)]
fn read_decimal<L: Ledger>(
    s: &[u8],
    radix: Radix,
    format: Format,
    mode: ReadMode,
    steps: &mut Steps<L>,
) -> Option<ReadNumber>
    ensures numeral { IfSome result (λ found. IsNumeral radix s.now) }
    ensures reading { IfSome result (λ found. (p : Parts) → HasNumeral radix s.now p → IsReading mode radix p found) }
    ensures format { IfSome result (λ found. found.format ≡ format) }
    ensures cost { steps.new ≤ steps.old + length s.now }
{
    match radix {
        Radix::Dec => {
            let found = short_decimal(s, steps)?;
            number_of_short(found, Radix::Dec, format, mode)
        }
        _ => None,
    }
}

/// Reads any numeral by its digits.
#[tactic(auto, using(crate::proofs::ReadLemmas::split_numeral))]
fn read_scanned<L: Ledger>(
    s: &[u8],
    radix: Radix,
    format: Format,
    mode: ReadMode,
    steps: &mut Steps<L>,
) -> Result<ReadNumber, ParseFixedError>
    ensures reading { IsReadOrRefused radix s.now (IsReading mode radix) result }
    ensures format { IfOk result (λ found. found.format ≡ format) }
    ensures cost { steps.new ≤ steps.old + 2 * length s.now + 119 }
{
    // Matched by reference: moving the views out would copy them.
    let scanned = scan(s, radix, steps);
    match &scanned {
        Ok(found) => Ok(number_of(found, radix, format, mode, steps)),
        Err(error) => Err(*error),
    }
}

/// Reads a numeral at the end of a text: a short one in radix 2, 8 or 16, else by its digits. It is not inlined, so
/// that a short decimal does not pay for its memory.
#[inline(never)]
fn read_apart<L: Ledger>(
    text: &[u8],
    from: usize,
    radix: Radix,
    format: Format,
    mode: ReadMode,
    steps: &mut Steps<L>,
) -> Result<ReadNumber, ParseFixedError>
    requires place { from ≤ length text.now }
    ensures reading { IsReadOrRefused radix (drop from text.now) (IsReading mode radix) result }
    ensures format { IfOk result (λ found. found.format ≡ format) }
    ensures cost { steps.new ≤ steps.old + 3 * length (drop from text.now) + 119 }
{
    if radix != Radix::Dec {
        if let Some(found) = read_short(text, from, radix, format, mode, steps) {
            return Ok(found);
        }
    }
    read_scanned(&text[from..], radix, format, mode, steps)
}

/// Returns what `read_apart` returns, matched by reference and copied here and not in its caller: the result of a call
/// has room in memory, which is cleared when a function begins.
#[inline(always)]
fn copy_apart<L: Ledger>(
    text: &[u8],
    from: usize,
    radix: Radix,
    format: Format,
    mode: ReadMode,
    steps: &mut Steps<L>,
) -> Result<ReadNumber, ParseFixedError>
    requires place { from ≤ length text.now }
    ensures reading { IsReadOrRefused radix (drop from text.now) (IsReading mode radix) result }
    ensures format { IfOk result (λ found. found.format ≡ format) }
    ensures cost { steps.new ≤ steps.old + 3 * length (drop from text.now) + 119 }
{
    match &read_apart(text, from, radix, format, mode, steps) {
        Ok(found) => Ok(*found),
        Err(error) => Err(*error),
    }
}

/// Reads the numeral from index `from` to the end of a text, as `read_format` reads it alone. It is quickest if there
/// are 16 bytes before it: then a short numeral is read by whole words, whatever the counts of its digits.
///
/// # Errors
///
/// Refuses bytes that are not a numeral of the radix with the kind of their cause.
#[inline(always)]
pub fn read_ending<L: Ledger>(
    text: &[u8],
    from: usize,
    radix: Radix,
    format: Format,
    mode: ReadMode,
    steps: &mut Steps<L>,
) -> Result<ReadNumber, ParseFixedError>
    requires place { from ≤ length text.now }
    ensures reading { IsReadOrRefused radix (drop from text.now) (IsReading mode radix) result }
    ensures format { IfOk result (λ found. found.format ≡ format) }
    ensures cost { steps.new ≤ steps.old + 8 * length (drop from text.now) + 128 }
{
    if radix == Radix::Dec {
        if let Some(found) = read_short(text, from, radix, format, mode, steps) {
            return Ok(found);
        }
    }
    copy_apart(text, from, radix, format, mode, steps)
}

/// Reads a numeral into a format in a mode: the numeral's magnitude in ulps of the format, rounded in the mode, with
/// the numeral's sign. It takes at most four steps for each byte, and 119.
///
/// # Errors
///
/// Refuses bytes that are not a numeral of the radix with the kind of their cause.
#[inline]
pub fn read_format<L: Ledger>(
    s: &[u8],
    radix: Radix,
    format: Format,
    mode: ReadMode,
    steps: &mut Steps<L>,
) -> Result<ReadNumber, ParseFixedError>
    ensures reading { IsReadOrRefused radix s.now (IsReading mode radix) result }
    ensures format { IfOk result (λ found. found.format ≡ format) }
    ensures cost { steps.new ≤ steps.old + 4 * length s.now + 119 }
{
    if let Some(found) = read_decimal(s, radix, format, mode, steps) {
        return Ok(found);
    }
    copy_apart(s, 0, radix, format, mode, steps)
}

/// Reads a literal whose rest is a short numeral. `None` only means that another way must be tried.
#[inline(always)]
fn read_short_literal<L: Ledger>(
    s: &[u8],
    format: Format,
    steps: &mut Steps<L>,
) -> Option<ReadNumber>
    ensures literal { IfSome result (λ found. IsLiteral format.signed s.now) }
    ensures reading { IfSome result (λ found. (p : Parts) → HasLiteral format.signed s.now p
        → IsReading NearestEven (literal_radix format.signed s.now) p found) }
    ensures format { IfSome result (λ found. found.format ≡ format) }
{
    match short_literal(s, format.signed(), steps) {
        Some((radix, found)) => number_of_short(found, radix, format, ReadMode::NearestEven),
        None => None,
    }
}

/// `read_literal` with its steps on this counter.
#[tactic(auto, using(crate::proofs::ReadLemmas::split_numeral))]
pub fn read_literal_counted<L: Ledger>(
    s: &[u8],
    format: Format,
    steps: &mut Steps<L>,
) -> Result<ReadNumber, ParseFixedError>
    ensures literal { IsOk result ↔ IsLiteral format.signed s.now }
    ensures cause { IfErr result (λ kind. HasLiteralCause format.signed s.now kind) }
    ensures reading { IfOk result (λ found. (p : Parts) → HasLiteral format.signed s.now p
        → IsReading NearestEven (literal_radix format.signed s.now) p found) }
    ensures format { IfOk result (λ found. found.format ≡ format) }
{
    if let Some(found) = read_short_literal(s, format, steps) {
        return Ok(found);
    }
    match scan_lit(s, format.signed(), steps) {
        Ok((radix, found)) => Ok(number_of(&found, radix, format, ReadMode::NearestEven, steps)),
        Err(error) => Err(error),
    }
}
