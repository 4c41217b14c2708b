//! Which of two errors is the greater, at rows that were worked out with fractions of whole numbers.

ghost use Rattle.std.specs.Prelude.{◌≡◌, ◌<◌, ◌≤◌};

use fixed_bits::ReadMode;
use fixed_error::{is_error_above, is_error_greater, is_read_within};
use fixed_numeral::Radix;
use fixed_steps::Steps;
use std::marker::Brand;
use std::sync::ledger::{Blank, Ledger};

/// Two numerals, and whether the first has the greater error.
#[derive(Drop)]
struct Case {
    radix: Radix,
    frac: u32,
    mode: ReadMode,
    one: &'static str,
    other: &'static str,
    want: bool,
}

/// Returns the case of two numerals that are rounded to nearest.
fn row(radix: Radix, frac: u32, one: &'static str, other: &'static str, want: bool) -> Case {
    Case {
        radix,
        frac,
        mode: ReadMode::NearestEven,
        one,
        other,
        want,
    }
}

/// Returns the case of two decimals that are rounded in a mode to sixteenths.
fn moded(mode: ReadMode, one: &'static str, other: &'static str, want: bool) -> Case {
    Case {
        radix: Radix::Dec,
        frac: 4,
        mode,
        one,
        other,
        want,
    }
}

/// Whether the first of two numerals has the greater error. `None` if one is not a numeral of fewer than 2^64 ulps.
fn is_greater<L: Ledger>(case: &Case, steps: &mut Steps<L>) -> Option<bool>
    requires { case.now.frac ≤ 64 }
{
    let (one, other) = (case.one.as_bytes(), case.other.as_bytes());
    if !is_read_within(one, case.radix, case.frac, case.mode, steps)
        || !is_read_within(other, case.radix, case.frac, case.mode, steps)
    {
        return None;
    }
    Some(is_error_greater(one, other, case.radix, case.frac, case.mode, steps))
}

/// Whether each case has the wanted answer, with its own counter of steps.
fn are_as_wanted<L: Ledger>(cases: &[Case], blank: Blank) -> bool
    requires name { blank.name ≡ L.name }
    requires parts { blank.parts ≡ L.parts }
    requires backed { 0 < L.parts }
{
    let mut steps: Steps<L> = Steps::new(blank);
    let mut all = true;
    for case in cases {
        all = all && case.frac <= 64 && is_greater(case, &mut steps) == Some(case.want);
    }
    all
}

fn are_ordered(cases: &[Case]) -> bool {
    are_as_wanted::<Brand>(cases, Blank::new(1))
}

#[test]
fn the_greater_error_is_found_whatever_the_digits(rt: HostRuntime) {
    let (hex, dec) = (Radix::Hex, Radix::Dec);
    let cases = [
        row(dec, 11, "0.1", "0.2", false),
        row(dec, 0, "0.5", "1.5", false),
        row(dec, 0, "0.5", "0.499999999999999999999999", true),
        row(dec, 0, "0.6", "0.4", false),
        row(dec, 0, "0.6", "0.3999999999999999999999999999", true),
        row(
            dec,
            0,
            "-0.6",
            "0.40000000000000000000000000000000001",
            false,
        ),
        row(dec, 64, "0.1", "0.2", true),
        row(dec, 64, "1e-40", "2e-40", false),
        row(dec, 63, "1e-300", "9e-301", true),
        row(
            dec,
            0,
            "18446744073709551614.3",
            "0.29999999999999999999",
            true,
        ),
        row(dec, 16, "3.14159", "3.14159", false),
        row(hex, 4, "0.07ffffffffffffffffffffff", "0.08", false),
        row(hex, 4, "1.8p-9", "3p-10", false),
        row(hex, 62, "1.8p-66", "1.1p-66", true),
        row(Radix::Oct, 10, "7p-12", "1p-12", false),
        row(Radix::Bin, 3, "0.00011", "0.0001", false),
    ];
    assert!(rt; are_ordered(&cases));
}

#[test]
fn short_decimals_are_compared_by_words(rt: HostRuntime) {
    let dec = Radix::Dec;
    let cases = [
        row(dec, 15, "0.3", "0.7", false),
        row(dec, 15, "-12.3456", "654.4321", true),
        row(dec, 64, "0.3", "0.70", false),
        row(
            dec,
            63,
            "0.123456789012345678",
            "0.876543210987654321",
            true,
        ),
        row(
            dec,
            64,
            "0.123456789012345678",
            "0.123456789012345677",
            true,
        ),
        row(dec, 53, "0.1", "0.3", false),
        row(dec, 10, "9999999999999999.25", "0.1", false),
    ];
    assert!(rt; are_ordered(&cases));
}

#[test]
fn short_decimals_near_half_an_ulp_are_compared_by_words(rt: HostRuntime) {
    let dec = Radix::Dec;
    let cases = [
        row(
            dec,
            17,
            "0.000003814697265625",
            "0.000003814697265624",
            true,
        ),
        row(
            dec,
            17,
            "0.000003814697265624",
            "0.000003814697265625",
            false,
        ),
        row(
            dec,
            17,
            "0.000003814697265625",
            "0.0000038146972656251",
            true,
        ),
        row(dec, 3, "0.0625", "0.1875", false),
        row(dec, 3, "0.0625", "0.187", true),
        row(
            dec,
            0,
            "0.999999999999999999",
            "0.000000000000000001",
            false,
        ),
        row(dec, 0, "0.999999999999999998", "0.000000000000000001", true),
        row(dec, 1, "0.75", "0.250000000000000001", true),
    ];
    assert!(rt; are_ordered(&cases));
}

#[test]
fn zeros_of_exponents_are_passed_over(rt: HostRuntime) {
    let (hex, dec) = (Radix::Hex, Radix::Dec);
    let cases = [
        row(dec, 8, "2e-2147483648", "1e-2147483648", true),
        row(dec, 8, "1e-2147483648", "2e-2147483648", false),
        row(dec, 8, "1e-2147483648", "1e-2147483648", false),
        row(dec, 8, "1e-2147483648", "0.5", true),
        row(dec, 8, "0.5", "1e-2147483648", false),
        row(dec, 64, "-1e-2147483647", "9e-2147483648", true),
        row(dec, 0, "0.5", "1e-2147483648", true),
        row(hex, 62, "1p-2147483648", "1.8p-2147483648", false),
        row(hex, 62, "1.8@-2147483648", "1p-2147483648", false),
        row(Radix::Oct, 0, "3p-2147483648", "1p-2147483647", true),
    ];
    assert!(rt; are_ordered(&cases));
}

#[test]
fn the_mode_decides_which_error_is_the_greater(rt: HostRuntime) {
    let cases = [
        moded(ReadMode::Floor, "-0.1", "0.1", false),
        moded(ReadMode::Ceil, "-0.1", "0.1", true),
        moded(ReadMode::TowardsZero, "-0.1", "0.1", false),
        moded(ReadMode::Floor, "0.99", "-0.99", true),
    ];
    assert!(rt; are_ordered(&cases));
}

/// Whether each row says correctly whether the error of a numeral is above a bound.
fn are_bounded<L: Ledger>(rows: &[(u32, &str, &str, bool)], blank: Blank) -> bool
    requires name { blank.name ≡ L.name }
    requires parts { blank.parts ≡ L.parts }
    requires backed { 0 < L.parts }
{
    let (dec, mode) = (Radix::Dec, ReadMode::NearestEven);
    let mut steps: Steps<L> = Steps::new(blank);
    let mut all = true;
    for (frac, text, bound, want) in rows {
        let (text, bound) = (text.as_bytes(), bound.as_bytes());
        all = all
            && *frac <= 64
            && is_read_within(text, dec, *frac, mode, &mut steps)
            && is_read_within(bound, dec, *frac, mode, &mut steps)
            && is_error_above(text, bound, dec, *frac, mode, &mut steps) == *want;
    }
    all
}

fn are_within_or_not(rows: &[(u32, &str, &str, bool)]) -> bool {
    are_bounded::<Brand>(rows, Blank::new(1))
}

#[test]
fn an_error_is_above_a_bound_or_not(rt: HostRuntime) {
    let rows = [
        (11, "0.1", "0.0001", false),
        (11, "0.1", "0.00002", true),
        (0, "0.5", "0.5", false),
        (0, "0.5", "0.49999999999999999999999999999999", true),
        (0, "0.5", "1", false),
        (64, "1e-300", "1e-301", true),
        (64, "1e-300", "0", true),
        (64, "0", "0", false),
        (8, "2e-2147483648", "1e-2147483648", true),
        (8, "1e-2147483648", "2e-2147483648", false),
        (8, "0.5", "1e-2147483648", false),
    ];
    assert!(rt; are_within_or_not(&rows));
}
