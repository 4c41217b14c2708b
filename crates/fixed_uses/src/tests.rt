//! Each caller at worked rows. The expected answers were computed with Python's `fractions`.

use crate::dial::degrees;
use crate::gain::gain;
use crate::limit::is_above;
use crate::meter::{scaled, shown};
use crate::money::amount_cell;
use crate::saved::saved;
use crate::taps::{small_tap, tap};
use crate::tariff::{cost, discounted, total};
use fixed_point::types::{I16F16, I24F8, U4F4, U16F16};
use fixed_point::{ParseErrorKind, ParseFixedError};
use std::test::Fail;

#[test]
fn a_reading_is_scaled_and_shown_to_hundredths(rt: HostRuntime) {
    let rows = [
        (809_107, 40, "493.84"),
        (8192, 1, "0.12"),
        (-1, 1, "-0.00"),
        (-2_147_483_648, 255, "-8355840.00"),
    ];
    for (word, ratio, text) in &rows {
        let reading = shown(scaled(I16F16::from_bits(*word), *ratio));
        assert!(rt; reading.as_bytes() == text.as_bytes(), "at {word}");
    }
}

#[test]
fn a_bill_is_exact_and_a_sum_may_not_fit(rt: HostRuntime) {
    let (price, standing) = (U16F16::from_bits(18_448), U16F16::from_bits(4_039_639));
    let bill = cost(price, 321, standing);
    assert_eq!(rt; bill.to_bits(), 9_961_447);
    let sum = total(price, standing).map(|sum| sum.to_bits());
    assert_eq!(rt; sum, Some(4_058_087));
    let most = U16F16::from_bits(4_294_967_295);
    assert!(rt; total(most, U16F16::from_bits(1)).is_none());
    assert_eq!(rt; discounted(standing, 15).to_bits(), 3_433_693);
}

#[test]
fn taps_are_the_nearest_and_one_is_refused(rt: HostRuntime) {
    let rows = [
        ("0.25", Some(8192)),
        ("-0.000030517578125", Some(-1)),
        ("0.99998", Some(32_767)),
        ("-1", Some(-32_768)),
        ("1e-3", Some(33)),
        ("1", None),
        ("x", None),
    ];
    for (text, bits) in &rows {
        assert!(rt; tap(text).map(|tap| tap.to_bits()) == *bits, "at {text}");
    }
    assert!(rt; small_tap("0.3").map(|tap| tap.to_bits()) == Some(38));
}

#[test]
fn a_line_sets_the_gain_or_says_why_not(rt: HostRuntime) {
    assert!(rt; gain(b"gain = 0.75") == Some(Ok(I16F16::from_bits(49_152))));
    let refused = Some(Err(ParseFixedError::new(ParseErrorKind::TooManyPoints)));
    assert!(rt; gain(b"gain = 0.7.5") == refused);
    let too_great = Some(Err(ParseFixedError::new(ParseErrorKind::Overflow)));
    assert!(rt; gain(b"gain = 32768") == too_great);
    assert!(rt; gain(b"offset = 0.75").is_none());
}

#[test]
fn amounts_are_aligned_in_cents(rt: HostRuntime) -> Result<(), Fail> {
    let rows = [
        (5119, "       20.00"),
        (-5120, "      -20.00"),
        (32, "        0.12"),
        (-2_147_483_648, " -8388608.00"),
    ];
    for (bits, text) in &rows {
        let cell = amount_cell(rt.alloc(), I24F8::from_bits(*bits)).map_err(|_| "no memory")?;
        assert!(rt; cell.as_bytes() == text.as_bytes(), "at {bits}");
    }
    Ok(())
}

#[test]
fn a_reading_is_compared_with_a_limit_of_another_format(rt: HostRuntime) {
    let limit = U4F4::from_bits(200);
    assert!(rt; is_above(I16F16::from_bits(819_201), limit));
    assert!(rt; !is_above(I16F16::from_bits(819_200), limit));
    assert!(rt; !is_above(I16F16::from_bits(-1), U4F4::from_bits(0)));
}

#[test]
fn degrees_are_rounded_down_and_end_with_the_dial(rt: HostRuntime) {
    let rows = [
        (1_425_408, 21),
        (-32_768, -1),
        (8_387_952, 127),
        (8_388_608, 127),
        (-8_389_263, -128),
    ];
    for (bits, shown) in &rows {
        assert_eq!(rt; degrees(I16F16::from_bits(*bits)), *shown);
    }
}

#[test]
fn a_number_is_saved_and_loaded(rt: HostRuntime) -> Result<(), Fail> {
    let number = I16F16::from_bits(6554);
    let text = saved(rt.alloc(), number).map_err(|_| "no memory")?;
    assert_eq!(rt; text.as_bytes(), b"0.1".as_slice());
    assert!(rt; I16F16::from_ascii(text.as_bytes()) == Ok(number));
    Ok(())
}
