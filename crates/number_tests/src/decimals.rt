//! Decimal formats, at numerals whose numbers are those of Python's `decimal`. It has seven of the nine modes; the
//! other two are its FLOOR and CEILING of a number moved by half a unit.

use fixed_bits::{Policy, ReadMode};
use fixed_decimal::{
    DecimalFormat, DecimalNumber, push_decimal_format, read_decimal_format_uncounted,
};
use text_buffer::TextBuffer;

/// Reads a numeral into a decimal format. `None` if either is invalid.
fn read(text: &str, places: u32, mode: ReadMode) -> Option<DecimalNumber> {
    let format = DecimalFormat::new(places)?;
    match read_decimal_format_uncounted(text.as_bytes(), format, mode) {
        Ok(found) => Some(found),
        Err(_) => None,
    }
}

/// Whether a numeral reads as a number.
fn reads(text: &str, places: u32, mode: ReadMode, number: i64) -> bool {
    match read(text, places, mode) {
        Some(found) => found.image(Policy::Checked) == Some(number),
        None => false,
    }
}

/// Whether a numeral reads as these numbers in the nine modes.
fn reads_in_each_mode(text: &str, places: u32, numbers: &[i64; 9]) -> bool {
    reads(text, places, ReadMode::NearestEven, numbers[0])
        && reads(text, places, ReadMode::Floor, numbers[1])
        && reads(text, places, ReadMode::Ceil, numbers[2])
        && reads(text, places, ReadMode::TowardsZero, numbers[3])
        && reads(text, places, ReadMode::NearestAway, numbers[4])
        && reads(text, places, ReadMode::NearestZero, numbers[5])
        && reads(text, places, ReadMode::NearestUp, numbers[6])
        && reads(text, places, ReadMode::NearestDown, numbers[7])
        && reads(text, places, ReadMode::AwayFromZero, numbers[8])
}

#[test]
fn each_mode_rounds_the_written_decimal(rt: HostRuntime) {
    let rows: [(&'static str, u32, [i64; 9]); 9] = [
        ("1.005", 2, [100, 100, 101, 100, 101, 100, 101, 100, 101]),
        (
            "-1.005",
            2,
            [-100, -101, -100, -100, -101, -100, -100, -101, -101],
        ),
        ("1.015", 2, [102, 101, 102, 101, 102, 101, 102, 101, 102]),
        (
            "-1.015",
            2,
            [-102, -102, -101, -101, -102, -101, -101, -102, -102],
        ),
        (
            "7.49999999999999999999999999999999999999999999999999999999999999",
            0,
            [7, 7, 8, 7, 7, 7, 7, 7, 8],
        ),
        ("-7.5e0", 0, [-8, -8, -7, -7, -8, -7, -7, -8, -8]),
        (
            "12345e-4",
            3,
            [1234, 1234, 1235, 1234, 1235, 1234, 1235, 1234, 1235],
        ),
        ("-0.004", 2, [0, -1, 0, 0, 0, 0, 0, 0, -1]),
        ("1e-30", 18, [0, 0, 1, 0, 0, 0, 0, 0, 1]),
    ];
    for (text, places, numbers) in &rows {
        assert!(rt; reads_in_each_mode(text, *places, numbers), "{text}");
    }
}

#[test]
fn a_hundred_zeros_after_a_tie_change_nothing(rt: HostRuntime) {
    let rows: [(&'static str, [i64; 9]); 3] = [
        (
            "0.0050000000000000000000000000000000000000000000000000000000000000000000000000000000000000\
             000000000000000",
            [0, 0, 1, 0, 1, 0, 1, 0, 1],
        ),
        (
            "-0.005000000000000000000000000000000000000000000000000000000000000000000000000000000000000\
             0000000000000000",
            [0, -1, 0, 0, -1, 0, 0, -1, -1],
        ),
        (
            "-2.675000000000000000000000000000000000000000000000000000000000000000000000000000000000000\
             00000000000000001",
            [-268, -268, -267, -267, -268, -268, -268, -268, -268],
        ),
    ];
    for (text, numbers) in &rows {
        assert!(rt; reads_in_each_mode(text, 2, numbers), "{text}");
    }
}

/// The greatest number of 64 bits with a sign.
const MOST: i64 = 9_223_372_036_854_775_807;

/// The least number of 64 bits with a sign.
const LEAST: i64 = -9_223_372_036_854_775_808;

/// Whether a numeral is in range, is exact as given, and has this number under each policy.
fn is_within(text: &str, places: u32, is_exact: bool, number: i64) -> bool {
    match read(text, places, ReadMode::NearestEven) {
        Some(found) => {
            !found.is_out_of_range()
                && found.is_exact() == is_exact
                && found.image(Policy::Checked) == Some(number)
                && found.image(Policy::Saturating) == Some(number)
                && found.image(Policy::Wrapping) == Some(number)
        }
        None => false,
    }
}

#[test]
fn the_ends_of_64_bits_are_in_range(rt: HostRuntime) {
    let rows: [(&'static str, u32, bool, i64); 6] = [
        ("92233720368547758.07", 2, true, MOST),
        (
            "92233720368547758.074000000000000000000000000000000000000000000000000000000000000000000000\
             0000000000000000000000000000000",
            2,
            false,
            MOST,
        ),
        ("-92233720368547758.08", 2, true, LEAST),
        (
            "-92233720368547758.08500000000000000000000000000000000000000000000000000000000000000000000\
             00000000000000000000000000000000",
            2,
            false,
            LEAST,
        ),
        ("9.223372036854775807", 18, true, MOST),
        ("-9.2233720368547758085", 18, false, LEAST),
    ];
    for (text, places, is_exact, number) in &rows {
        assert!(rt; is_within(text, *places, *is_exact, *number), "{text}");
    }
}

/// Whether a numeral is out of range, is exact as given, and is clipped and wrapped to these numbers.
fn is_beyond(text: &str, places: u32, is_exact: bool, end: i64, wrapped: i64) -> bool {
    match read(text, places, ReadMode::NearestEven) {
        Some(found) => {
            found.is_out_of_range()
                && found.is_exact() == is_exact
                && found.image(Policy::Checked).is_none()
                && found.image(Policy::Saturating) == Some(end)
                && found.image(Policy::Wrapping) == Some(wrapped)
        }
        None => false,
    }
}

#[test]
fn numbers_past_64_bits_are_refused_clipped_or_wrapped(rt: HostRuntime) {
    let many = "123456789123456789123456789123456789123456789123456789123456789123456789123456789";
    let fewer =
        "-123456789123456789123456789123456789123456789123456789123456789123456789123456789.5";
    let tie =
        "92233720368547758.07500000000000000000000000000000000000000000000000000000000000000000000";
    let rows: [(&str, u32, bool, i64, i64); 8] = [
        ("92233720368547758.08", 2, true, MOST, LEAST),
        (tie, 2, false, MOST, LEAST),
        ("-92233720368547758.09", 2, true, LEAST, MOST),
        ("184467440737095516.16", 2, true, MOST, 0),
        ("-1e40", 2, true, LEAST, 6_640_025_486_929_952_768),
        (many, 0, true, MOST, -4_095_899_931_892_228_331),
        (fewer, 1, true, LEAST, 4_065_511_171_503_180_073),
        ("1e2000000000", 18, true, MOST, 0),
    ];
    for (text, places, is_exact, end, wrapped) in &rows {
        assert!(rt;
            is_beyond(text, *places, *is_exact, *end, *wrapped),
            "{text}"
        );
    }
}

/// Whether a number has this text.
fn prints(units: i64, places: u32, text: &str) -> bool {
    let mut out = TextBuffer::<41>::new();
    match DecimalFormat::new(places) {
        Some(format) => push_decimal_format(&mut out, units, format),
        None => return false,
    }
    out.as_bytes() == text.as_bytes()
}

#[test]
fn a_number_is_written_with_all_of_its_places(rt: HostRuntime) {
    for (units, places, text) in &[
        (0, 0, "0"),
        (0, 2, "0.00"),
        (-5, 2, "-0.05"),
        (100, 2, "1.00"),
        (-12_345, 3, "-12.345"),
        (1, 18, "0.000000000000000001"),
        (-9_223_372_036_854_775_808, 0, "-9223372036854775808"),
        (-9_223_372_036_854_775_808, 2, "-92233720368547758.08"),
        (9_223_372_036_854_775_807, 18, "9.223372036854775807"),
    ] {
        assert!(rt; prints(*units, *places, text), "{text}");
    }
}

#[test]
fn there_are_formats_up_to_18_places(rt: HostRuntime) {
    assert!(rt; DecimalFormat::new(18).is_some());
    assert!(rt; DecimalFormat::new(19).is_none());
    assert!(rt; read("1,5", 2, ReadMode::NearestEven).is_none());
}
