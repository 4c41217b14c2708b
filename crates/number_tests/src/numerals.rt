//! The numbers that texts read as. The kinds and digits come from worked examples, or follow from the rule that a row
//! names.

use fixed_numeral::{ParseErrorKind, ParseFixedError, Radix, ShortNumeral};
use std::test::Fail;

mod support;

use support::{
    Views, first, kind_of_bad, leading, lengths, literal, no_literal, reads, refused, short,
    short_after, short_with, spelled_by,
};

#[test]
fn point_is_moved_and_zeros_are_stripped(rt: HostRuntime) {
    for (radix, text, whole, fraction, bits) in &[
        (Radix::Dec, "12.5", "12", "5", 0),
        (Radix::Dec, ".5", "", "5", 0),
        (Radix::Dec, "5.", "5", "", 0),
        (Radix::Dec, "+0012.500", "12", "5", 0),
        (Radix::Dec, "1.5e2", "150", "", 0),
        (Radix::Dec, "1.5E-2", "", "015", 0),
        (Radix::Dec, "00.050@1", "", "5", 0),
        (Radix::Dec, "0.00e9", "", "", 0),
        (Radix::Bin, "101.1p1", "1011", "", 0),
        (Radix::Oct, "0.1p1", "", "1", 1),
        (Radix::Oct, "7p-1", "", "7", 2),
        (Radix::Hex, "a.8p5", "a8", "", 1),
        (Radix::Hex, "A.8P-5", "", "0a8", 3),
        (Radix::Hex, "1e5", "1e5", "", 0),
    ] {
        let want = spelled_by(whole, fraction, *bits);
        assert!(rt; reads(*radix, text, want), "at {text}");
    }
    let negative = Views {
        neg: true,
        ..spelled_by("1", "", 0)
    };
    assert!(rt; reads(Radix::Dec, "-1", negative));
}

/// Texts that are not numerals of any radix, and why.
const REFUSED: [(&str, ParseErrorKind); 14] = [
    ("g", ParseErrorKind::InvalidDigit),
    ("1_0", ParseErrorKind::InvalidDigit),
    ("1+", ParseErrorKind::MisplacedSign),
    ("1@+-1", ParseErrorKind::MisplacedSign),
    ("1.0.", ParseErrorKind::TooManyPoints),
    ("1@1@", ParseErrorKind::TooManyExp),
    ("1@g", ParseErrorKind::ExpInvalidDigit),
    ("1@1.", ParseErrorKind::ExpInvalidDigit),
    ("1@2147483648", ParseErrorKind::ExpOverflow),
    ("0@-2147483649", ParseErrorKind::ExpOverflow),
    (".", ParseErrorKind::NoDigits),
    ("@5", ParseErrorKind::NoDigits),
    ("", ParseErrorKind::NoDigits),
    ("1@", ParseErrorKind::ExpNoDigits),
];

#[test]
fn each_radix_reports_each_kind(rt: HostRuntime) {
    for radix in &[Radix::Bin, Radix::Oct, Radix::Dec, Radix::Hex] {
        for (text, kind) in &REFUSED {
            assert_eq!(rt; refused(*radix, text), Some(*kind));
        }
    }
}

#[test]
fn another_byte_among_digits_is_reported(rt: HostRuntime) {
    for digits in &[7, 8, 9, 15, 16, 17, 23, 24] {
        assert_eq!(rt; kind_of_bad(*digits, *digits, b'/'), None);
        for place in 0..*digits {
            for bad in b"/:?_ p\0\x7f\x80\xb0\xb9\xff" {
                let found = kind_of_bad(*digits, place, *bad);
                assert_eq!(rt; found, Some(ParseErrorKind::InvalidDigit));
            }
        }
    }
}

/// Decimals, and how many digits are before and after the point.
const LONG_RUNS: [(&str, u64, u64); 8] = [
    ("1234567", 7, 0),
    ("12345678", 8, 0),
    ("123456789", 9, 0),
    ("9876543210987654", 16, 0),
    ("98765432109876543", 17, 0),
    ("12345678.12345678", 8, 8),
    ("-1234567.1234567e1", 8, 6),
    ("123456789012345678901.5", 21, 1),
];

#[test]
fn long_runs_of_digits_are_read(rt: HostRuntime) {
    for (text, whole, fraction) in &LONG_RUNS {
        assert_eq!(rt;
            lengths(text.as_bytes()),
            Some((*whole, *fraction)),
            "at {text}"
        );
    }
}

/// Texts that are not numerals of a radix, and why.
const USELESS: [(Radix, &str, ParseErrorKind); 11] = [
    (Radix::Bin, "2", ParseErrorKind::InvalidDigit),
    (Radix::Oct, "8", ParseErrorKind::InvalidDigit),
    (Radix::Dec, "1p1", ParseErrorKind::InvalidDigit),
    (Radix::Dec, "1e1p", ParseErrorKind::ExpInvalidDigit),
    (Radix::Oct, "1e1p", ParseErrorKind::TooManyExp),
    (Radix::Dec, "1@e", ParseErrorKind::TooManyExp),
    (Radix::Hex, "1@e", ParseErrorKind::ExpInvalidDigit),
    (Radix::Dec, "e5", ParseErrorKind::NoDigits),
    (Radix::Dec, "e99999999999", ParseErrorKind::ExpOverflow),
    (Radix::Dec, "5e", ParseErrorKind::ExpNoDigits),
    (Radix::Dec, "1-2", ParseErrorKind::MisplacedSign),
];

#[test]
fn each_radix_refuses_what_it_has_no_use_for(rt: HostRuntime) {
    for (radix, text, kind) in &USELESS {
        assert_eq!(rt; refused(*radix, text), Some(*kind), "at {text}");
    }
}

#[test]
fn exponents_at_the_ends_of_their_range_move_the_point(rt: HostRuntime) {
    assert_eq!(rt; lengths(b"1e2147483647"), Some((2147483648, 0)));
    assert_eq!(rt; lengths(b"1e-2147483648"), Some((0, 2147483648)));
    assert_eq!(rt; lengths(b"0.5e-2147483648"), Some((0, 2147483649)));
    assert_eq!(rt; lengths(b"0e2147483647"), Some((0, 0)));
    assert_eq!(rt; lengths(b"1e2147483648"), None);
}

#[test]
fn a_million_zeros_count_for_nothing(rt: HostRuntime) -> Result<(), Fail> {
    let mut text = Vec::new(rt.alloc());
    for _i in 0..1_000_000 {
        text.push(b'0')?;
    }
    assert_eq!(rt; lengths(text.as_slice()), Some((0, 0)));
    text.push(b'1')?;
    assert_eq!(rt; lengths(text.as_slice()), Some((1, 0)));
    Ok(())
}

#[test]
fn digits_are_taken_in_bulk(rt: HostRuntime) {
    assert_eq!(rt; first("12aBcd"), Some((0x12ab, 2)));
    assert_eq!(rt; first("f@5"), Some((0xf000, 2)));
    assert_eq!(rt; first("7"), Some((7, 0)));
}

#[test]
fn literals_are_read(rt: HostRuntime) {
    for (text, radix, whole, fraction, bits) in &[
        ("0b_111e-2", Radix::Bin, "1", "11", 0),
        ("0_.017_5_e+0_2", Radix::Dec, "1", "75", 0),
        ("0o7p-2", Radix::Oct, "", "7", 1),
        ("0x0.1C@1", Radix::Hex, "1", "c", 0),
        ("0.127_5e2", Radix::Dec, "12", "75", 0),
        ("0x_18@-1", Radix::Hex, "1", "8", 0),
        ("1__0", Radix::Dec, "10", "", 0),
        ("256", Radix::Dec, "256", "", 0),
    ] {
        let want = spelled_by(whole, fraction, *bits);
        assert!(rt; literal(false, text, *radix, want), "at {text}");
    }
    let negative = Views {
        neg: true,
        ..spelled_by("1", "c", 0)
    };
    assert!(rt; literal(true, "-0x1.C", Radix::Hex, negative));
}

/// Texts that are not literals of a signed or an unsigned type, and why.
const NO_LITERALS: [(bool, &str, ParseErrorKind); 11] = [
    (false, "-0x1.C", ParseErrorKind::MisplacedSign),
    (false, "+1", ParseErrorKind::MisplacedSign),
    (true, "0b-1", ParseErrorKind::MisplacedSign),
    (true, "--1", ParseErrorKind::MisplacedSign),
    (false, "0b", ParseErrorKind::NoDigits),
    (true, "-0x__", ParseErrorKind::NoDigits),
    (false, "", ParseErrorKind::NoDigits),
    (false, "_1", ParseErrorKind::MisplacedUnderscore),
    (false, "1e_2", ParseErrorKind::MisplacedUnderscore),
    (false, "1._5", ParseErrorKind::MisplacedUnderscore),
    (false, "0X1", ParseErrorKind::InvalidDigit),
];

#[test]
fn what_is_no_literal_is_refused(rt: HostRuntime) {
    for (signed, text, kind) in &NO_LITERALS {
        assert_eq!(rt; no_literal(*signed, text), Some(*kind), "at {text}");
    }
}

/// The message of each kind.
const MESSAGES: [(ParseErrorKind, &str); 10] = [
    (
        ParseErrorKind::InvalidDigit,
        "invalid digit found in string",
    ),
    (
        ParseErrorKind::MisplacedSign,
        "misplaced sign found in string",
    ),
    (
        ParseErrorKind::MisplacedUnderscore,
        "misplaced underscore found in string",
    ),
    (
        ParseErrorKind::TooManyPoints,
        "more than one point found in string",
    ),
    (ParseErrorKind::TooManyExp, "more than one exponent found"),
    (
        ParseErrorKind::ExpInvalidDigit,
        "invalid digit found in exponent",
    ),
    (ParseErrorKind::ExpOverflow, "exponent overflow"),
    (ParseErrorKind::NoDigits, "string has no digits"),
    (ParseErrorKind::ExpNoDigits, "exponent has no digits"),
    (ParseErrorKind::Overflow, "overflow"),
];

#[test]
fn each_kind_has_its_message(rt: HostRuntime) -> Result<(), Fail> {
    for (kind, words) in &MESSAGES {
        let error = ParseFixedError::new(*kind);
        assert_eq!(rt; error.kind(), *kind);
        let text = format!(in rt.alloc(); "{error}")?;
        assert!(rt; text.as_str() == *words, "at {words}");
    }
    Ok(())
}

/// Exponents of many digits, and how many digits are before and after the point.
const LONG_EXPONENTS: [(&str, u64, u64); 4] = [
    ("1e00000000000000000000000000000005", 6, 0),
    ("1e+0000000000000005", 6, 0),
    ("1e-000000000000000000000003", 0, 3),
    ("1e02147483647", 2147483648, 0),
];

/// Invalid exponents of many digits, and why.
const BAD_EXPONENTS: [(&str, ParseErrorKind); 4] = [
    ("1e2147483648", ParseErrorKind::ExpOverflow),
    ("1e0000000021474836480", ParseErrorKind::ExpOverflow),
    ("1e-00000000:", ParseErrorKind::ExpInvalidDigit),
    ("1e0000000:", ParseErrorKind::ExpInvalidDigit),
];

#[test]
fn exponents_of_many_digits_are_read(rt: HostRuntime) {
    for (text, whole, fraction) in &LONG_EXPONENTS {
        assert_eq!(rt;
            lengths(text.as_bytes()),
            Some((*whole, *fraction)),
            "at {text}"
        );
    }
    for (text, kind) in &BAD_EXPONENTS {
        assert_eq!(rt; refused(Radix::Dec, text), Some(*kind), "at {text}");
    }
}

/// Decimals without an exponent: whether there is a minus, the numbers before and after the point, and the places.
const PLAIN: [(&str, bool, u64, u128, u32); 16] = [
    ("7", false, 7, 0, 0),
    ("+7", false, 7, 0, 0),
    ("-0.001", true, 0, 1, 3),
    ("5.", false, 5, 0, 0),
    ("00.50", false, 0, 50, 2),
    ("12345678.1234567", false, 12345678, 1234567, 7),
    ("-1234567890.1234", true, 1234567890, 1234, 4),
    ("9999999999999999", false, 9999999999999999, 0, 0),
    (".123456789012345", false, 0, 123456789012345, 15),
    ("0.123456789012345", false, 0, 123456789012345, 15),
    ("-0.000000000000000000000000001", true, 0, 1, 27),
    ("0.12345678901234567", false, 0, 12345678901234567, 17),
    (
        "9.1234567890123456789012",
        false,
        9,
        1234567890123456789012,
        22,
    ),
    (
        "+123456789.1234567890123456",
        false,
        123456789,
        1234567890123456,
        16,
    ),
    (
        "123456789012345.1234567890",
        false,
        123456789012345,
        1234567890,
        10,
    ),
    (
        "-12345678901234.999999999999999999999999999",
        true,
        12345678901234,
        999999999999999999999999999,
        27,
    ),
];

/// Numerals of any radix, with the same parts, their exponents, and whether these count powers of two.
const SCALED: [(Radix, &str, bool, u64, u128, u32, i32, bool); 13] = [
    (Radix::Dec, "00.00012@-7", false, 0, 12, 5, -7, false),
    (
        Radix::Dec,
        "1e2147483647",
        false,
        1,
        0,
        0,
        2147483647,
        false,
    ),
    (
        Radix::Dec,
        "1.5e-2147483648",
        false,
        1,
        5,
        1,
        -2147483648,
        false,
    ),
    (Radix::Dec, "1.E000000000005", false, 1, 0, 0, 5, false),
    (
        Radix::Hex,
        "ffffffffffffffff",
        false,
        u64::MAX,
        0,
        0,
        0,
        false,
    ),
    (Radix::Hex, "fF.8p-3", false, 0xff, 8, 1, -3, true),
    (
        Radix::Hex,
        "aAfF019.0aAfF0@7",
        false,
        0xaaff019,
        0xaaff0,
        6,
        7,
        false,
    ),
    (Radix::Hex, ".1e5", false, 0, 0x1e5, 3, 0, false),
    (Radix::Hex, "-1.@+1", true, 1, 0, 0, 1, false),
    (Radix::Oct, "7.7e5", false, 7, 7, 1, 5, false),
    (
        Radix::Oct,
        "01234567.01234P0",
        false,
        0o1234567,
        0o1234,
        5,
        0,
        true,
    ),
    (Radix::Bin, "101.1P+1", false, 5, 1, 1, 1, true),
    (Radix::Bin, "-1111111111111.1", true, 0x1fff, 1, 1, 0, false),
];

/// Whether a numeral reads as wanted, alone and after other bytes.
fn is_short(radix: Radix, text: &str, want: ShortNumeral) -> bool {
    short(radix, text) == Some(want) && short_after(radix, text) == Some(want)
}

#[test]
fn short_decimals_are_read(rt: HostRuntime) {
    for (text, negative, whole, fraction, places) in &PLAIN {
        let want = ShortNumeral {
            negative: *negative,
            whole: *whole,
            fraction: *fraction,
            places: *places,
            exponent: 0,
            scales_by_two: false,
        };
        assert!(rt; is_short(Radix::Dec, text, want), "at {text}");
    }
}

#[test]
fn short_numerals_are_read(rt: HostRuntime) {
    for (radix, text, negative, whole, fraction, places, exponent, scales_by_two) in &SCALED {
        let want = ShortNumeral {
            negative: *negative,
            whole: *whole,
            fraction: *fraction,
            places: *places,
            exponent: *exponent,
            scales_by_two: *scales_by_two,
        };
        assert!(rt; is_short(*radix, text, want), "at {text}");
    }
}

/// Texts that are not numerals, or not short ones.
const NOT_SHORT: [(Radix, &str); 32] = [
    (Radix::Dec, ""),
    (Radix::Dec, "-"),
    (Radix::Dec, "."),
    (Radix::Dec, "+."),
    (Radix::Dec, ".e5"),
    (Radix::Dec, "1e"),
    (Radix::Dec, "1e-"),
    (Radix::Dec, "1e5x"),
    (Radix::Dec, "1e2147483648"),
    (Radix::Dec, "1e-2147483649"),
    (Radix::Dec, "1p5"),
    (Radix::Dec, "1:5"),
    (Radix::Dec, "1 "),
    (Radix::Dec, "1.5.5"),
    (Radix::Dec, "--1"),
    (Radix::Dec, "a"),
    (Radix::Hex, "g"),
    (Radix::Hex, "G"),
    (Radix::Hex, "1`"),
    (Radix::Hex, "1e+5"),
    (Radix::Oct, "8"),
    (Radix::Oct, "1.8"),
    (Radix::Bin, "2"),
    (Radix::Bin, "1.2"),
    (Radix::Bin, "1/"),
    (Radix::Hex, "0.123456789abcdef"),
    (Radix::Dec, "0.1234567890123456789012345678"),
    (Radix::Dec, "12345678901234567.1234567890"),
    (Radix::Dec, "12345678901234567"),
    (Radix::Dec, "0.123456789012345678901234e1"),
    (Radix::Dec, "0.12345678901234567890.12345"),
    (Radix::Dec, "--0.12345678901234567890123"),
];

#[test]
fn what_is_no_short_numeral_is_left_alone(rt: HostRuntime) {
    for (radix, text) in &NOT_SHORT {
        assert!(rt;
            short(*radix, text) == None && short_after(*radix, text) == None,
            "at {text}"
        );
    }
}

#[test]
fn another_byte_in_a_short_decimal_is_noticed(rt: HostRuntime) {
    for length in &[1, 4, 7, 8, 9, 12, 15, 16, 17, 24, 28] {
        for place in 0..*length {
            for other in b"/:x \0\x80\xb0\xba\xff" {
                assert!(rt;
                    short_with(*length, place, *other) == None,
                    "at {place}, byte {other}"
                );
            }
        }
    }
}

/// Texts with a prefix that is a numeral, and the length of the longest one.
const LEADING: [(Radix, &str, usize); 17] = [
    (Radix::Dec, "1.5", 3),
    (Radix::Dec, "1.5 m", 3),
    (Radix::Dec, "1.5e", 3),
    (Radix::Dec, "1.5.2", 3),
    (Radix::Dec, "1.5e-", 3),
    (Radix::Dec, "-.5e-3x", 6),
    (Radix::Dec, "+7,5", 2),
    (Radix::Dec, "5.", 2),
    (Radix::Dec, "1_000", 1),
    (Radix::Dec, "0x10", 1),
    (Radix::Dec, "1e2147483648", 11),
    (Radix::Dec, "12345678901234567890.12345678901234567890V", 41),
    (Radix::Bin, "102", 2),
    (Radix::Oct, "7p-18", 5),
    (Radix::Hex, "1e5g", 3),
    (Radix::Hex, "ffp-2p", 5),
    (Radix::Hex, "a@1e", 3),
];

#[test]
fn the_numeral_at_a_beginning_is_the_longest(rt: HostRuntime) {
    for (radix, text, count) in &LEADING {
        assert_eq!(rt; leading(*radix, text), Ok(*count), "at {text}");
    }
}

/// Texts without a prefix that is a numeral, and why.
const NOT_LEADING: [(&str, ParseErrorKind); 8] = [
    ("", ParseErrorKind::NoDigits),
    (".", ParseErrorKind::NoDigits),
    ("-", ParseErrorKind::NoDigits),
    ("e5", ParseErrorKind::NoDigits),
    (".e5", ParseErrorKind::NoDigits),
    (" 1", ParseErrorKind::InvalidDigit),
    ("inf", ParseErrorKind::InvalidDigit),
    ("--1", ParseErrorKind::MisplacedSign),
];

#[test]
fn a_beginning_that_is_no_numeral_has_a_kind(rt: HostRuntime) {
    for (text, kind) in &NOT_LEADING {
        assert_eq!(rt; leading(Radix::Dec, text), Err(*kind), "at {text}");
    }
}
