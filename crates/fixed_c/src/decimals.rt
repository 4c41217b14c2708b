//! Reading and printing numbers of decimal formats. The results are handed over elsewhere.

ghost use Rattle.std.specs.Prelude.{◌≡◌, MatchResult};
ghost use Rattle.fixed_c.specs.Decimals.{DecimalIsRefused, DecimalTextIsRefused, IsDecimalPrinted, IsDecimalRead};
ghost use Rattle.fixed_c.specs.Decimals.{NamesDecimal};
ghost use Rattle.fixed_c.specs.Floats.{NamesBoth};
ghost use Rattle.fixed_c.specs.Inner.Decimals.{AreDecimalNamed, IsDecimalNotReadAsAsked, IsDecimalReadAsAsked};
ghost use Rattle.fixed_c.specs.Inner.Decimals.{IsDecimalUnnamed};
ghost use Rattle.fixed_c.specs.Texts.{TextEnds};
ghost use Rattle.fixed_c.specs.declared.refusal.Refusal.TheVariants.{BadPlaces};

use crate::arguments::{mode_of, policy_of};
use crate::number::{FixedNumber, flag};
use crate::refusal::Refusal;
use crate::texts::put_text;
use fixed_bits::{Policy, ReadMode};
use fixed_decimal::{DecimalFormat, push_decimal_format, read_decimal_format_uncounted};
use fixed_numeral::ParseErrorKind;
use text_buffer::TextBuffer;

/// How a decimal is read.
#[derive(Clone, Copy)]
pub struct DecimalAsked {
    pub format: DecimalFormat,
    pub policy: Policy,
    pub mode: ReadMode,
}

/// Returns the decimal format with `places` places.
fn decimal_format_of(places: u32) -> Result<DecimalFormat, Refusal>
    ensures { MatchResult result (λ f. (f ≡ places) × NamesDecimal places)
        (λ refusal. (¬ NamesDecimal places) × (refusal ≡ BadPlaces)) }
{
    match DecimalFormat::new(places) {
        Some(format) => Ok(format),
        None => Err(Refusal::BadPlaces),
    }
}

/// Returns the settings that the codes of C name.
pub fn decimal_asked_of(places: u32, policy: u32, mode: u32) -> Result<DecimalAsked, Refusal>
    ensures { MatchResult result (AreDecimalNamed places policy mode) (IsDecimalUnnamed places policy mode) }
{
    let format = decimal_format_of(places)?;
    let policy = policy_of(policy)?;
    let mode = mode_of(mode)?;
    Ok(DecimalAsked {
        format,
        policy,
        mode,
    })
}

/// Reads a text with tested settings.
pub fn read_decimal(text: &[u8], asked: &DecimalAsked) -> Result<FixedNumber, Refusal>
    requires { NamesDecimal asked.now.format }
    ensures { MatchResult result (IsDecimalReadAsAsked text.now asked.now)
        (IsDecimalNotReadAsAsked text.now asked.now) }
{
    let found = match read_decimal_format_uncounted(text, asked.format, asked.mode) {
        Ok(found) => found,
        Err(error) => return Err(Refusal::Numeral(error.kind())),
    };
    match found.image(asked.policy) {
        Some(bits) => Ok(FixedNumber {
            bits,
            overflowed: flag(found.is_out_of_range_by(asked.policy)),
        }),
        None => Err(Refusal::Numeral(ParseErrorKind::Overflow)),
    }
}

/// Reads a text into the decimal format with `places` places.
pub fn decimal_read(
    text: &[u8],
    places: u32,
    policy: u32,
    mode: u32,
) -> Result<FixedNumber, Refusal>
    ensures { MatchResult result (λ n. NamesBoth policy mode (IsDecimalRead text.now places n))
        (DecimalIsRefused text.now places policy mode) }
{
    match decimal_asked_of(places, policy, mode) {
        Ok(asked) => read_decimal(text, &asked),
        Err(refusal) => Err(refusal),
    }
}

/// Returns the text of bits in the decimal format with `places` places.
pub fn decimal_text_of(bits: i64, places: u32) -> Result<TextBuffer<41>, Refusal>
    ensures { MatchResult result (IsDecimalPrinted bits places) (DecimalTextIsRefused places) }
{
    let format = decimal_format_of(places)?;
    let mut text = TextBuffer::new();
    push_decimal_format(&mut text, bits, format);
    Ok(text)
}

/// Hands over the text of bits in the decimal format with `places` places.
pub fn print_decimal(bits: i64, places: u32, out: &mut [u8], len: &mut usize) -> u32
    ensures { TextEnds (IsDecimalPrinted bits places) (DecimalTextIsRefused places) out.old out.new len.old len.new
        result }
{
    match decimal_text_of(bits, places) {
        Ok(text) => put_text(text.as_bytes(), out, len),
        Err(refusal) => refusal.code(),
    }
}
