//! Reading floats into a format, and finding the doubles of bits. The results are handed over elsewhere.

ghost use Rattle.std.specs.Prelude.{◌≡◌, ◌↔◌, ℕ, IsOk, IfOk, MatchResult};
ghost use Rattle.fixed_c.specs.Convert.{PrintIsRefused};
ghost use Rattle.fixed_c.specs.Floats.{FloatIsRefused, FloatNotRead, IsDoubleOf, IsFloatRead, NamesBoth};
ghost use Rattle.fixed_bits.specs.declared.mode.ReadMode.{ReadMode};
ghost use Rattle.fixed_c.specs.Inner.Floats.{AreFloatNamed, IsFloatNotReadAsAsked, IsFloatReadAsAsked, IsFloatUnnamed};
ghost use Rattle.fixed_c.specs.Numbers.{format_of};
ghost use Rattle.fixed_float.specs.Floats.{IsFinite, IsFloatReading};
ghost use Rattle.fixed_float.specs.declared.layout.FloatLayout.{FloatLayout};
ghost use Rattle.fixed_float.specs.declared.layout.FloatLayout.TheVariants.{Binary32, Binary64};

use crate::arguments::{FixedFormat, format_of, mode_of, policy_of};
use crate::number::{FixedNumber, number_for_c, number_in};
use crate::refusal::Refusal;
use fixed_bits::{Format, Policy, ReadMode};
use fixed_float::{NotFinite, binary64_of, read_binary32, read_binary64};
use fixed_numeral::ParseErrorKind;
use fixed_read::ReadNumber;

/// How a float is read.
#[derive(Clone, Copy)]
pub struct FloatAsked {
    pub format: Format,
    pub policy: Policy,
    pub mode: ReadMode,
}

/// Returns the settings that the codes of C name.
pub fn float_asked_of(format: FixedFormat, policy: u32, mode: u32) -> Result<FloatAsked, Refusal>
    ensures { MatchResult result
        (λ a. AreFloatNamed (format_of format.is_signed format.width format.frac) policy mode a)
        (IsFloatUnnamed (format_of format.is_signed format.width format.frac) policy mode) }
{
    let format = format_of(format, Refusal::BadFormat)?;
    let policy = policy_of(policy)?;
    let mode = mode_of(mode)?;
    Ok(FloatAsked {
        format,
        policy,
        mode,
    })
}

/// Brings the number read from a float into its format.
#[inline(always)]
fn brought(
    found: Result<ReadNumber, NotFinite>,
    format: Format,
    policy: Policy,
) -> Result<FixedNumber, Refusal>
    requires format { IfOk found (λ n. n.format ≡ format) }
    ensures { (layout : FloatLayout) (float : ℕ) (mode : ReadMode) → (IsOk found ↔ IsFinite layout float)
        → IfOk found (IsFloatReading mode layout float) → MatchResult result
        (λ n. IsFloatRead layout float format n policy mode) (FloatNotRead layout float format policy mode) }
{
    let found = match found {
        Ok(found) => found,
        Err(_) => return Err(Refusal::NotFinite),
    };
    match found.image(policy) {
        Some(number) => Ok(number_for_c(format, number, found.is_out_of_range_by(policy))),
        None => Err(Refusal::Numeral(ParseErrorKind::Overflow)),
    }
}

/// Reads the bits of a double with tested settings.
#[inline(always)]
pub fn read_double(bits: u64, asked: &FloatAsked) -> Result<FixedNumber, Refusal>
    ensures { MatchResult result (IsFloatReadAsAsked Binary64 bits asked.now)
        (IsFloatNotReadAsAsked Binary64 bits asked.now) }
{
    brought(
        read_binary64(bits, asked.format, asked.mode),
        asked.format,
        asked.policy,
    )
}

/// Reads the bits of a single-precision float with tested settings.
#[inline(always)]
pub fn read_float(bits: u32, asked: &FloatAsked) -> Result<FixedNumber, Refusal>
    ensures { MatchResult result (IsFloatReadAsAsked Binary32 bits asked.now)
        (IsFloatNotReadAsAsked Binary32 bits asked.now) }
{
    brought(
        read_binary32(bits, asked.format, asked.mode),
        asked.format,
        asked.policy,
    )
}

/// Reads the bits of a double into a format.
pub fn double_read(
    bits: u64,
    format: FixedFormat,
    policy: u32,
    mode: u32,
) -> Result<FixedNumber, Refusal>
    ensures { MatchResult result
        (λ n. NamesBoth policy mode (IsFloatRead Binary64 bits (format_of format.is_signed format.width format.frac) n))
        (FloatIsRefused Binary64 bits (format_of format.is_signed format.width format.frac) policy mode) }
{
    match float_asked_of(format, policy, mode) {
        Ok(asked) => read_double(bits, &asked),
        Err(refusal) => Err(refusal),
    }
}

/// Returns the bits of the double nearest to the value of bits of a format.
pub fn double_of(bits: i64, format: FixedFormat) -> Result<u64, Refusal>
    ensures { MatchResult result
        (IsDoubleOf (format_of format.is_signed format.width format.frac) bits)
        (PrintIsRefused (format_of format.is_signed format.width format.frac) bits) }
{
    let format = format_of(format, Refusal::BadFormat)?;
    let number = number_in(bits, format, Refusal::BadBits)?;
    Ok(binary64_of(number, format))
}
