//! The formats, radices, policies and modes that C passes as numbers.

ghost use Rattle.std.specs.Prelude.{◌≡◌, MatchResult};
ghost use Rattle.fixed_bits.specs.declared.format.Policy.{Policy};
ghost use Rattle.fixed_bits.specs.declared.mode.ReadMode.{ReadMode};
ghost use Rattle.fixed_numeral.specs.Numeral.{base};
ghost use Rattle.fixed_numeral.specs.declared.radix.Radix.{Radix};
ghost use Rattle.fixed_c.specs.Arguments.{NamesFormat, NamesMode, NamesPolicy, NamesRadix};
ghost use Rattle.fixed_c.specs.Codes.{mode_code, policy_code};
ghost use Rattle.fixed_c.specs.Numbers.{format_of};
ghost use Rattle.fixed_c.specs.declared.refusal.Refusal.TheVariants.{BadMode, BadPolicy, BadRadix};

use crate::refusal::Refusal;
use fixed_bits::{Format, Policy, ReadMode};
use fixed_numeral::Radix;

/// A format as C gives it, `fixed_format` of the header.
#[repr(C)]
#[derive(Clone, Copy)]
pub struct FixedFormat {
    /// Whether the bits may be negative: 0 if not.
    pub is_signed: u32,
    /// The width in bits.
    pub width: u32,
    /// The number of bits after the point.
    pub frac: u32,
}

/// Returns the bytes that C passes. If there are none, returns an empty slice of our own, since C may then pass a null
/// pointer.
pub fn given_text(text: &[u8]) -> &[u8]
    ensures { result.now ≡ text.now }
{
    if text.is_empty() { &[] } else { text }
}

/// Returns the radix of a base.
pub fn radix_of(code: u32) -> Result<Radix, Refusal>
    ensures { MatchResult result (λ r. code ≡ base r) (λ refusal. (¬ NamesRadix code) × (refusal ≡ BadRadix)) }
{
    match code {
        2 => Ok(Radix::Bin),
        8 => Ok(Radix::Oct),
        10 => Ok(Radix::Dec),
        16 => Ok(Radix::Hex),
        _ => Err(Refusal::BadRadix),
    }
}

/// Returns the policy of a code.
pub fn policy_of(code: u32) -> Result<Policy, Refusal>
    ensures { MatchResult result (λ p. code ≡ policy_code p) (λ refusal. (¬ NamesPolicy code) × (refusal ≡ BadPolicy)) }
{
    match code {
        0 => Ok(Policy::Checked),
        1 => Ok(Policy::Saturating),
        2 => Ok(Policy::Wrapping),
        3 => Ok(Policy::Symmetric),
        _ => Err(Refusal::BadPolicy),
    }
}

/// The code of the mode NearestEven.
pub const NEAREST_EVEN: u32 = 0;

/// Returns the mode of a code.
pub fn mode_of(code: u32) -> Result<ReadMode, Refusal>
    ensures { MatchResult result (λ m. code ≡ mode_code m) (λ refusal. (¬ NamesMode code) × (refusal ≡ BadMode)) }
{
    match code {
        0 => Ok(ReadMode::NearestEven),
        1 => Ok(ReadMode::Floor),
        2 => Ok(ReadMode::Ceil),
        3 => Ok(ReadMode::TowardsZero),
        4 => Ok(ReadMode::NearestAway),
        5 => Ok(ReadMode::NearestZero),
        6 => Ok(ReadMode::NearestUp),
        7 => Ok(ReadMode::NearestDown),
        8 => Ok(ReadMode::AwayFromZero),
        _ => Err(Refusal::BadMode),
    }
}

/// Returns the format that C passes, or the refusal `bad` if it is invalid.
pub fn format_of(given: FixedFormat, bad: Refusal) -> Result<Format, Refusal>
    ensures { MatchResult result
        (λ f. (f ≡ format_of given.is_signed given.width given.frac)
        × NamesFormat (format_of given.is_signed given.width given.frac))
        (λ refusal. (¬ NamesFormat (format_of given.is_signed given.width given.frac)) × (refusal ≡ bad)) }
{
    match Format::of_any_width(given.is_signed != 0, given.width, given.frac) {
        Some(format) => Ok(format),
        None => Err(bad),
    }
}
