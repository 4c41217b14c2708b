//! The calls that return numbers. The results are handed over elsewhere.

ghost use Rattle.std.specs.Prelude.{◌≡◌, MatchResult};
ghost use Rattle.fixed_c.specs.Arguments.{Names};
ghost use Rattle.fixed_c.specs.Convert.{CompareIsRefused, ConvertInIsRefused, ConvertIsRefused, IsCompared};
ghost use Rattle.fixed_c.specs.Convert.{IsConverted, IsConvertedIn, order_code};
ghost use Rattle.fixed_c.specs.Enclose.{EncloseIsRefused, IsEnclosedBy};
ghost use Rattle.fixed_c.specs.Literal.{IsLiteralReadAs, LiteralIsRefused};
ghost use Rattle.fixed_c.specs.Numbers.{format_of, has_bits};
ghost use Rattle.fixed_c.specs.Read.{IsReadAs, ReadIsRefused};
ghost use Rattle.fixed_c.specs.Respell.{IsReachedAs, RespellIsRefused};
ghost use Rattle.fixed_respell.specs.Reached.{is_signed, number_of};

use crate::arguments::{FixedFormat, format_of, mode_of, policy_of, radix_of};
use crate::asked::{asked_of, read_from};
use crate::number::{FixedEnclosure, FixedNumber, bits_for_c, flag, number_for_c, number_in};
use crate::refusal::Refusal;
use crate::uncounted::{enclose_uncounted, respell_uncounted};
use fixed_convert::{compare, reformat, reformat_mode};
use fixed_numeral::ParseErrorKind;
use fixed_read::read_literal;
use fixed_respell::Bits;
use std::cmp::Ordering;

/// Reads a text into a format.
pub fn read(
    text: &[u8],
    radix: u32,
    format: FixedFormat,
    policy: u32,
    mode: u32,
) -> Result<FixedNumber, Refusal>
    ensures { MatchResult result
        (λ n. Names radix policy mode (IsReadAs text.now (format_of format.is_signed format.width format.frac) n.bits
        n.overflowed))
        (ReadIsRefused text.now radix (format_of format.is_signed format.width format.frac) policy mode) }
{
    match asked_of(radix, format, policy, mode) {
        Ok(asked) => read_from(text, 0, &asked),
        Err(refusal) => Err(refusal),
    }
}

/// Converts bits to another format, rounding down.
pub fn convert(
    bits: i64,
    source: FixedFormat,
    target: FixedFormat,
    policy: u32,
) -> Result<FixedNumber, Refusal>
    ensures { MatchResult result
        (λ n. IsConverted (format_of source.is_signed source.width source.frac)
        (format_of target.is_signed target.width target.frac) policy bits n.bits n.overflowed)
        (ConvertIsRefused (format_of source.is_signed source.width source.frac)
        (format_of target.is_signed target.width target.frac) policy bits) }
{
    let source = format_of(source, Refusal::BadFormat)?;
    let target = format_of(target, Refusal::BadTarget)?;
    let policy = policy_of(policy)?;
    let number = number_in(bits, source, Refusal::BadBits)?;
    match reformat(target, policy, number, source.frac()) {
        Some((image, overflowed)) => Ok(number_for_c(target, image, overflowed)),
        None => Err(Refusal::Numeral(ParseErrorKind::Overflow)),
    }
}

/// Converts bits to another format in a mode.
pub fn convert_in(
    bits: i64,
    source: FixedFormat,
    target: FixedFormat,
    policy: u32,
    mode: u32,
) -> Result<FixedNumber, Refusal>
    ensures { MatchResult result
        (λ n. IsConvertedIn (format_of source.is_signed source.width source.frac)
        (format_of target.is_signed target.width target.frac) policy mode bits n.bits n.overflowed)
        (ConvertInIsRefused (format_of source.is_signed source.width source.frac)
        (format_of target.is_signed target.width target.frac) policy mode bits) }
{
    let source = format_of(source, Refusal::BadFormat)?;
    let target = format_of(target, Refusal::BadTarget)?;
    let policy = policy_of(policy)?;
    let mode = mode_of(mode)?;
    let number = number_in(bits, source, Refusal::BadBits)?;
    match reformat_mode(target, policy, mode, number, source.frac()) {
        Some((image, overflowed)) => Ok(number_for_c(target, image, overflowed)),
        None => Err(Refusal::Numeral(ParseErrorKind::Overflow)),
    }
}

/// Returns -1, 0 or 1.
fn order_of(order: Ordering) -> i32
    ensures { result ≡ order_code order }
{
    match order {
        Ordering::Less => -1,
        Ordering::Equal => 0,
        Ordering::Greater => 1,
    }
}

/// Compares the values of bits of two formats.
pub fn order_by_value(
    a: i64,
    a_format: FixedFormat,
    b: i64,
    b_format: FixedFormat,
) -> Result<i32, Refusal>
    ensures { MatchResult result
        (IsCompared (format_of a_format.is_signed a_format.width a_format.frac)
        (format_of b_format.is_signed b_format.width b_format.frac) a b)
        (CompareIsRefused (format_of a_format.is_signed a_format.width a_format.frac)
        (format_of b_format.is_signed b_format.width b_format.frac) a b) }
{
    let f = format_of(a_format, Refusal::BadFormat)?;
    let g = format_of(b_format, Refusal::BadTarget)?;
    let left = number_in(a, f, Refusal::BadBits)?;
    let right = number_in(b, g, Refusal::BadOtherBits)?;
    Ok(order_of(compare(left, f.frac(), right, g.frac())))
}

/// Returns the two numbers of a format that enclose the value of a text.
pub fn ends_around(text: &[u8], radix: u32, format: FixedFormat) -> Result<FixedEnclosure, Refusal>
    ensures { MatchResult result
        (λ ends. IsEnclosedBy text.now radix (format_of format.is_signed format.width format.frac) ends.lo ends.hi)
        (EncloseIsRefused text.now radix (format_of format.is_signed format.width format.frac)) }
{
    let radix = radix_of(radix)?;
    let format = format_of(format, Refusal::BadFormat)?;
    match enclose_uncounted(text, radix, format) {
        Ok(ends) => Ok(FixedEnclosure {
            lo: bits_for_c(format, ends.lo),
            hi: bits_for_c(format, ends.hi),
        }),
        Err(error) => Err(Refusal::Numeral(error.kind())),
    }
}

/// Returns signed or unsigned bits in the form for C.
fn given_bits(bits: Bits) -> i64
    ensures { has_bits (is_signed bits) result (number_of bits) }
{
    match bits {
        Bits::Signed(bits) => bits,
        Bits::Unsigned(bits) => bits.cast_signed(),
    }
}

/// Reads a text into one format and rounds it down to another.
pub fn respelled(
    text: &[u8],
    radix: u32,
    source: FixedFormat,
    target: FixedFormat,
    policy: u32,
    mode: u32,
) -> Result<FixedNumber, Refusal>
    ensures { MatchResult result
        (λ n. Names radix policy mode (IsReachedAs text.now (format_of source.is_signed source.width source.frac)
        (format_of target.is_signed target.width target.frac) n.bits n.overflowed))
        (RespellIsRefused text.now radix (format_of source.is_signed source.width source.frac)
        (format_of target.is_signed target.width target.frac) policy mode) }
{
    let radix = radix_of(radix)?;
    let source = format_of(source, Refusal::BadFormat)?;
    let target = format_of(target, Refusal::BadTarget)?;
    let policy = policy_of(policy)?;
    let mode = mode_of(mode)?;
    match respell_uncounted(text, radix, source, target, policy, mode) {
        Ok(reached) => Ok(FixedNumber {
            bits: given_bits(reached.bits),
            overflowed: flag(reached.overflowed),
        }),
        Err(error) => Err(Refusal::Numeral(error.kind())),
    }
}

/// Reads a literal into a format.
pub fn literal(text: &[u8], format: FixedFormat, policy: u32) -> Result<FixedNumber, Refusal>
    ensures { MatchResult result
        (λ n. IsLiteralReadAs text.now (format_of format.is_signed format.width format.frac) policy n.bits n.overflowed)
        (LiteralIsRefused text.now (format_of format.is_signed format.width format.frac) policy) }
{
    let format = format_of(format, Refusal::BadFormat)?;
    let policy = policy_of(policy)?;
    let found = match read_literal(text, format) {
        Ok(found) => found,
        Err(error) => return Err(Refusal::Numeral(error.kind())),
    };
    match found.image(policy) {
        Some(number) => Ok(number_for_c(format, number, found.is_out_of_range_by(policy))),
        None => Err(Refusal::Numeral(ParseErrorKind::Overflow)),
    }
}
