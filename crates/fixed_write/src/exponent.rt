//! The figures of a number with an exponent, and its exponent.
//!
//! A value is first moved by a power of ten so that its first digit is before the point: above one it stays as it is,
//! and below one the zeros after the point are counted away. Then it is rounded to the places that the precision leaves
//! after the digits before the point, by the rounding of texts with a point. If the precision is less than these
//! digits, one division rounds it. If the rounded number has reached the next power of ten, its figures are a one and
//! zeros, and the exponent is one more.

ghost use Rattle.std.specs.Prelude.{◌≡◌, ◌+◌, ◌*◌, ◌/◌, ◌%◌, ◌-◌, ◌^◌, ◌<◌, ◌≤◌, ◌++◌, [], ◌⊎◌, ◌↔◌, false, length};
ghost use Rattle.std.specs.Prelude.{replicate, IsTrue, pos, ◌≤ℤ◌, ◌-ℤ◌, neg_ℤ, take, drop, Some};
ghost use Rattle.fixed_bits.specs.Nearest.{IsNearest, IsEven};
ghost use Rattle.fixed_write.specs.Texts.{whole_digits};
ghost use Rattle.fixed_write.specs.Styled.{mark_of, exponent_text, pointed};
ghost use Rattle.fixed_write.specs.Inner.Fraction.{IsShortestFraction};
ghost use Rattle.fixed_write.specs.Inner.Figures.{IsLeading, HasRoundedFigures, HasShortFigures, HasFigureText};
ghost use Rattle.fixed_write.specs.Inner.Figures.{HasExponentBody};

use crate::digits::{power_of_ten, push_places, push_whole};
use crate::integer::push_integer;
use crate::places::{Split, push_rounded_in, split_of};
use crate::printer::{Fraction, padded_fraction, rest_of, scaled, whole_of};
use crate::style::Notation;
use fixed_bits::ReadMode;
use text_buffer::TextBuffer;

/// Figures, without the counted zeros: at most twenty digits before the point, and 64 after it.
type Figures = TextBuffer<136>;

/// The digits of a body with their point, without the counted zeros.
pub(crate) type Body = TextBuffer<144>;

/// A mark and an exponent.
pub(crate) type Tail = TextBuffer<32>;

/// Every value is exact with this many places.
const EXACT_PLACES: u32 = 64;

/// A value times 10^`shift`, with its first digit at 10^`decade`.
#[derive(Clone, Copy)]
struct Leading {
    value: Split,
    decade: u32,
    shift: u32,
}

/// Returns the place of a number's first digit: how many digits come after it.
fn decade_of(number: u64) -> u32
    requires { 0 < number }
    ensures low { 10 ^ result ≤ number }
    ensures high { number < 10 ^ (result + 1) }
    ensures few { result ≤ 19 }
{
    let mut first = number;
    let mut others = 0;
    'digits: while first >= 10 {
        first /= 10;
        others += 1;
    }
    others
}

/// Moves a value that is not zero so that its first digit is before the point.
fn leading_of(value: Split) -> Leading
    requires { 0 < value.whole * 2 ^ 64 + value.rest }
    ensures { IsLeading (value.whole * 2 ^ 64 + value.rest) result.value.whole result.value.rest result.decade
        result.shift }
{
    if value.whole > 0 {
        Leading {
            value,
            decade: decade_of(value.whole),
            shift: 0,
        }
    } else {
        leading_below_one(value.rest)
    }
}

/// Moves a value below one that is not zero so that its first digit is before the point.
fn leading_below_one(rest: u64) -> Leading
    requires { 0 < rest }
    ensures { IsLeading rest result.value.whole result.value.rest result.decade result.shift }
{
    let mut shift = 1;
    let (mut digit, mut left) = scaled(rest, 10);
    'zeros: while digit == 0 {
        let (next, after) = scaled(left, 10);
        digit = next;
        left = after;
        shift += 1;
    }
    Leading {
        value: Split {
            whole: digit,
            rest: left,
        },
        decade: 0,
        shift,
    }
}

/// The zeros after the figures, and whether the figures reached the next power of ten.
#[derive(Clone, Copy)]
struct Rounded {
    zeros: u32,
    carried: bool,
}

/// Whether a quotient is raised: `left` and a rest, which remain, are more than half of the divisor, or half of it and
/// the quotient is odd.
#[inline]
fn is_raised_by(left: u64, half: u64, rest: u64, number: u64) -> bool
    ensures { IsTrue result ↔ ((half < left) ⊎ ((left ≡ half) × ((0 < rest) ⊎ (number % 2 ≡ 1)))) }
{
    left > half || (left == half && (rest > 0 || number % 2 == 1))
}

/// Divides a value by an even scale, rounded to the nearest with ties to even.
fn rounded_quotient(value: Split, scale: u64) -> u64
    requires even { IsEven scale }
    requires some { 2 ≤ scale }
    ensures near { IsNearest (value.whole * 2 ^ 64 + value.rest) (2 ^ 64 * scale) result }
{
    let number = value.whole / scale;
    if is_raised_by(value.whole % scale, scale / 2, value.rest, number) {
        number + 1
    } else {
        number
    }
}

/// Appends the figures of a value to fewer places after the first than the whole part has.
fn push_rounded_whole(out: &mut Figures, value: Split, decade: u32, precision: u32) -> Rounded
    requires empty { out.old ≡ [] }
    requires decade { decade ≤ 19 }
    requires fewer { precision < decade }
    ensures figures { HasRoundedFigures precision (value.whole * 2 ^ 64 + value.rest) decade out.new result.zeros
        result.carried }
    ensures some { 0 < length out.new }
    ensures zeros { result.zeros ≤ precision }
{
    let number = rounded_quotient(value, power_of_ten(decade - precision));
    if number == power_of_ten(precision + 1) {
        push_whole(out, power_of_ten(precision));
        Rounded {
            zeros: 0,
            carried: true,
        }
    } else {
        push_whole(out, number);
        Rounded {
            zeros: 0,
            carried: false,
        }
    }
}

/// Counts the digits before the point of a text with `places` digits after it.
#[inline]
fn whole_len(text: &Figures, places: u32) -> usize
    requires { places ≤ 64 }
    ensures none { places ≡ 0 → result ≡ length text.now }
    ensures some { 0 < places → result ≡ length text.now - (places + 1) }
    ensures within { length text.now ≤ 136 }
{
    if places == 0 {
        text.len()
    } else {
        text.len().saturating_sub(places as usize + 1)
    }
}

/// Appends the figures of a value to at least as many places after the first as the whole part has.
fn push_rounded_places(out: &mut Figures, value: Split, decade: u32, precision: u32) -> Rounded
    requires empty { out.old ≡ [] }
    requires low { 10 ^ decade ≤ value.whole }
    requires high { value.whole < 10 ^ (decade + 1) }
    requires decade { decade ≤ precision }
    ensures figures { HasRoundedFigures precision (value.whole * 2 ^ 64 + value.rest) decade out.new result.zeros
        result.carried }
    ensures some { 0 < length out.new }
    ensures zeros { result.zeros ≤ precision }
{
    let places = (precision - decade).min(EXACT_PLACES);
    let mut text: Figures = TextBuffer::new();
    push_rounded_in::<10, 19, 136>(&mut text, value, places, false, ReadMode::NearestEven);
    let whole = whole_len(&text, places);
    if whole == decade as usize + 1 {
        push_without_point(out, &text, whole);
        Rounded {
            zeros: precision - decade - places,
            carried: false,
        }
    } else {
        out.push(b'1');
        Rounded {
            zeros: precision,
            carried: true,
        }
    }
}

/// Appends the digits of a text without its point, which is after the first `whole` digits.
fn push_without_point(out: &mut Figures, text: &Figures, whole: usize)
    requires whole { whole ≤ length text.now }
    requires room { length out.old + length text.now ≤ 136 }
    ensures { out.new ≡ out.old ++ (take whole text.now ++ drop (whole + 1) text.now) }
{
    let bytes = text.as_bytes();
    out.push_bytes(&bytes[..whole]);
    if whole < bytes.len() {
        out.push_bytes(&bytes[whole + 1..]);
    }
}

/// Returns a number without its trailing zeros, and their count.
fn without_zeros(number: u64) -> (u64, u32)
    requires { 0 < number }
    ensures number { number ≡ result.0 * 10 ^ result.1 }
    ensures last { (result.0 % 10 ≡ 0) → ⊥ }
    ensures few { result.1 ≤ 19 }
{
    let mut left = number;
    let mut zeros = 0;
    'zeros: while left % 10 == 0 {
        left /= 10;
        zeros += 1;
    }
    (left, zeros)
}

/// Appends the digits of a number in three parts: before the point, after it, and the last digit.
fn push_parts(out: &mut Figures, whole: u64, fraction: Fraction)
    requires empty { out.old ≡ [] }
    requires places { fraction.places ≤ 19 }
    requires fits { fraction.number < 10 ^ fraction.places }
    requires digit { fraction.digit < 10 }
    ensures { out.new ≡ whole_digits 10 false (whole * 10 ^ (fraction.places + 1)
        + (fraction.number * 10 + fraction.digit)) }
{
    let digit = b'0' + fraction.digit as u8;
    if whole > 0 {
        push_whole(out, whole);
        push_places(out, fraction.number, fraction.places);
        out.push(digit);
    } else if fraction.number > 0 {
        push_whole(out, fraction.number);
        out.push(digit);
    } else {
        out.push(digit);
    }
}

/// Returns the exponent of a number's first figure: the count of its figures and of zeros after them, less `places`.
fn exponent_of(figures: usize, zeros: u32, places: u32) -> i32
    requires figures { figures ≤ 136 }
    requires zeros { zeros ≤ 100 }
    requires places { places ≤ 100 }
    ensures value { result ≡ pos (figures + zeros) -ℤ pos places }
    ensures low { neg_ℤ (pos 1000) ≤ℤ result }
    ensures high { result ≤ℤ pos 1000 }
{
    (figures as i32 + zeros as i32) - places as i32
}

/// Returns the digits after the point that are needed to read a magnitude back, if there are any.
fn fraction_of(magnitude: u64, frac: u32) -> Fraction
    requires frac { frac ≤ 64 }
    requires some { (magnitude % 2 ^ frac ≡ 0) → ⊥ }
    ensures { IsShortestFraction magnitude frac result.number result.places result.digit }
{
    let mut fraction = padded_fraction(magnitude, frac);
    'zeros: while fraction.digit == 0 {
        fraction = Fraction {
            number: fraction.number / 10,
            places: fraction.places - 1,
            digit: fraction.number % 10,
        };
    }
    fraction
}

/// Appends the figures of the shortest decimal of a magnitude, and returns its exponent.
fn push_short_figures(out: &mut Figures, magnitude: u64, frac: u32) -> i32
    requires empty { out.old ≡ [] }
    requires frac { frac ≤ 64 }
    requires some { 0 < magnitude }
    ensures figures { HasShortFigures magnitude frac out.new result }
    ensures some { 0 < length out.new }
    ensures low { neg_ℤ (pos 1000) ≤ℤ result }
    ensures high { result ≤ℤ pos 1000 }
{
    let whole = whole_of(magnitude, frac);
    if rest_of(magnitude, frac) == 0 {
        let (figures, zeros) = without_zeros(whole);
        push_whole(out, figures);
        exponent_of(out.len(), zeros, 1)
    } else {
        let fraction = fraction_of(magnitude, frac);
        push_parts(out, whole, fraction);
        exponent_of(out.len(), 0, fraction.places + 2)
    }
}

/// Appends the figures of a value to a count of places after the first.
fn push_rounded(out: &mut Figures, value: Split, decade: u32, precision: u32) -> Rounded
    requires empty { out.old ≡ [] }
    requires low { 10 ^ decade ≤ value.whole }
    requires high { value.whole < 10 ^ (decade + 1) }
    requires few { decade ≤ 19 }
    ensures figures { HasRoundedFigures precision (value.whole * 2 ^ 64 + value.rest) decade out.new result.zeros
        result.carried }
    ensures some { 0 < length out.new }
    ensures zeros { result.zeros ≤ precision }
{
    if precision < decade {
        push_rounded_whole(out, value, decade, precision)
    } else {
        push_rounded_places(out, value, decade, precision)
    }
}

/// Appends the figures of a magnitude rounded to a precision, and returns the zeros after them and the exponent.
fn push_rounded_figures(
    out: &mut Figures,
    magnitude: u64,
    frac: u32,
    precision: u16,
) -> (usize, i32)
    requires empty { out.old ≡ [] }
    requires frac { frac ≤ 64 }
    requires some { 0 < magnitude }
    ensures figures { HasFigureText (Some precision) magnitude frac out.new result.0 result.1 }
    ensures zeros { result.0 < 2 ^ 16 }
    ensures some { 0 < length out.new }
    ensures low { neg_ℤ (pos 1000) ≤ℤ result.1 }
    ensures high { result.1 ≤ℤ pos 1000 }
{
    let leading = leading_of(split_of(magnitude, frac));
    let rounded = push_rounded(out, leading.value, leading.decade, precision as u32);
    let exponent = leading.decade as i32 - leading.shift as i32;
    if rounded.carried {
        (rounded.zeros as usize, exponent + 1)
    } else {
        (rounded.zeros as usize, exponent)
    }
}

/// Appends the figures of a magnitude, and returns the zeros after them and the exponent.
fn push_figures(
    out: &mut Figures,
    magnitude: u64,
    frac: u32,
    precision: Option<u16>,
) -> (usize, i32)
    requires empty { out.old ≡ [] }
    requires frac { frac ≤ 64 }
    ensures figures { HasFigureText precision magnitude frac out.new result.0 result.1 }
    ensures zeros { result.0 < 2 ^ 16 }
    ensures some { 0 < length out.new }
    ensures low { neg_ℤ (pos 1000) ≤ℤ result.1 }
    ensures high { result.1 ≤ℤ pos 1000 }
{
    if magnitude == 0 {
        out.push(b'0');
        (precision.unwrap_or(0) as usize, 0)
    } else {
        match precision {
            Some(places) => push_rounded_figures(out, magnitude, frac, places),
            None => (0, push_short_figures(out, magnitude, frac)),
        }
    }
}

/// Appends figures with a point after the first, if other figures or zeros come after it.
fn push_pointed(out: &mut Body, figures: &[u8], zeros: usize)
    requires some { 0 < length figures.now }
    requires room { length out.old + length figures.now + 1 ≤ 144 }
    ensures { out.new ++ replicate zeros 48 ≡ out.old ++ pointed (figures.now ++ replicate zeros 48) }
{
    out.push(figures[0]);
    if figures.len() > 1 || zeros > 0 {
        out.push(b'.');
        out.push_bytes(&figures[1..]);
    }
}

/// Returns the mark of an exponent.
fn mark_of(notation: Notation) -> u8
    ensures { result ≡ mark_of notation }
{
    match notation {
        Notation::UpperExp => b'E',
        _ => b'e',
    }
}

/// Appends the mark and an exponent.
fn push_tail(tail: &mut Tail, notation: Notation, exponent: i32)
    requires empty { tail.old ≡ [] }
    requires low { neg_ℤ (pos 1000) ≤ℤ exponent }
    requires high { exponent ≤ℤ pos 1000 }
    ensures { tail.new ≡ exponent_text notation exponent }
{
    tail.push(mark_of(notation));
    push_integer(tail, i128::from(exponent));
}

/// Appends the body of a number with an exponent, and the exponent to its own tail. Returns the count of zeros that end
/// the body, which are not appended.
pub(crate) fn push_exponent_body(
    out: &mut Body,
    tail: &mut Tail,
    magnitude: u64,
    frac: u32,
    notation: Notation,
    precision: Option<u16>,
) -> usize
    requires empty { out.old ≡ [] }
    requires no_tail { tail.old ≡ [] }
    requires frac { frac ≤ 64 }
    ensures body { HasExponentBody notation precision magnitude frac out.new result tail.new }
    ensures zeros { result < 2 ^ 16 }
{
    let mut figures: Figures = TextBuffer::new();
    let (zeros, exponent) = push_figures(&mut figures, magnitude, frac, precision);
    push_pointed(out, figures.as_bytes(), zeros);
    push_tail(tail, notation, exponent);
    zeros
}
