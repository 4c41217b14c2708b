//! Typed calls at worked rows: the strict readers, a fraction longer than the width, comparisons with bytes, and the
//! roundings of every number of three formats.

ghost use Rattle.std.specs.Prelude.{◌≤◌};

use fixed_bits::Inner;
use fixed_numeral::{ParseErrorKind, ParseFixedError};
use fixed_point::{Ends, Fixed, FixedI8, FixedU8, FixedU64};
use std::cmp::Ordering;

#[test]
#[tactic(auto, using(fixed_point::proofs::ReadingLemmas::reads_in_range))]
fn each_strict_reader_reads_seven_quarters(rt: HostRuntime) {
    let texts = [
        FixedI8::<4>::strict_from_str("1.75"),
        FixedI8::<4>::strict_from_str_binary("1.11"),
        FixedI8::<4>::strict_from_str_octal("1.6"),
        FixedI8::<4>::strict_from_str_hex("1.C"),
        FixedI8::<4>::strict_from_ascii(b"1.75"),
        FixedI8::<4>::strict_from_ascii_binary(b"1.11"),
        FixedI8::<4>::strict_from_ascii_octal(b"1.6"),
        FixedI8::<4>::strict_from_ascii_hex(b"1.C"),
    ];
    for read in &texts {
        assert_eq!(rt; read.to_bits(), 28);
    }
}

#[test]
fn a_fraction_longer_than_the_width_reads_no_number(rt: HostRuntime) {
    let rows = [
        ("1", ParseErrorKind::Overflow),
        (".", ParseErrorKind::NoDigits),
    ];
    for (text, kind) in &rows {
        let refused = Err(ParseFixedError::new(*kind));
        assert!(rt; text.parse::<FixedI8<100>>() == refused, "at {text}");
    }
}

#[test]
fn numbers_are_compared_with_bytes(rt: HostRuntime) {
    let greatest: FixedU64<64> = Ends::MAX;
    assert!(rt; FixedI8::<4>::from_bits(-1).cmp_num(0u8) == Ordering::Less);
    assert!(rt; greatest.cmp_num(1u8) == Ordering::Less);
    assert!(rt; FixedU8::<0>::from_bits(7).eq_num(7u8));
}

/// Whether floor, ceil, round and round_ties_even take bits to this multiple of one, by their definitions.
fn are_results(bits: i128, one: i128, multiple: i128) -> (bool, bool, bool, bool) {
    let whole = one.wrapping_mul(multiple);
    let past = bits.wrapping_sub(whole);
    let twice = past.wrapping_abs().wrapping_mul(2);
    let is_farther = bits.wrapping_abs() < whole.wrapping_abs();
    (
        0 <= past && past < one,
        past <= 0 && one.wrapping_neg() < past,
        twice < one || twice == one && is_farther,
        twice < one || twice == one && multiple.wrapping_rem(2) == 0,
    )
}

/// Whether an overflowing rounding returned the image of a whole result, and said whether that is out of range.
fn is_image<I: Inner, const FRAC: u32>(answer: (Fixed<I, FRAC>, bool), whole: i128) -> bool {
    let (number, overflowed) = answer;
    number.to_bits() == I::wrap(whole) && overflowed != I::fits(whole)
}

/// Whether the four overflowing roundings take a number to the multiples of one from -2 to 2 that their definitions
/// name.
fn rounds_as_defined<I: Inner, const FRAC: u32>(x: Fixed<I, FRAC>, one: i128) -> bool
    requires { FRAC ≤ I.BITS }
{
    let bits = x.to_bits().value();
    let (mut floor, mut ceil, mut round, mut even) = (false, false, false, false);
    for multiple in &[-2, -1, 0, 1, 2] {
        let whole = one.wrapping_mul(*multiple);
        let (is_floor, is_ceil, is_round, is_even) = are_results(bits, one, *multiple);
        floor = floor || is_floor && is_image(x.overflowing_floor(), whole);
        ceil = ceil || is_ceil && is_image(x.overflowing_ceil(), whole);
        round = round || is_round && is_image(x.overflowing_round(), whole);
        even = even || is_even && is_image(x.overflowing_round_ties_even(), whole);
    }
    floor && ceil && round && even
}

#[test]
fn every_number_of_three_formats_rounds_as_defined(rt: HostRuntime) {
    for bits in 0..256u64 {
        let (signed, unsigned) = (i8::wrap(i128::from(bits)), u8::wrap(i128::from(bits)));
        assert!(rt;
            rounds_as_defined(FixedI8::<8>::from_bits(signed), 256),
            "{signed} with 8"
        );
        assert!(rt;
            rounds_as_defined(FixedI8::<7>::from_bits(signed), 128),
            "{signed} with 7"
        );
        assert!(rt;
            rounds_as_defined(FixedU8::<8>::from_bits(unsigned), 256),
            "{unsigned}"
        );
    }
}
