//! The mean of errors and the root of the mean of their squares, at rows that were worked out with Python's fractions.

ghost use Rattle.std.specs.Prelude.{◌≡◌, ◌<◌};

use fixed_bits::{Format, ReadMode};
use fixed_numeral::Radix;
use fixed_report::ErrorReport;
use fixed_steps::Steps;
use std::alloc::Global;
use std::marker::Brand;
use std::sync::ledger::{Blank, Ledger};

/// The mean's sign, number and places, and the number and places of the root.
type Means = (bool, u64, u32, u64, u32);

/// Numerals, each after a blank, and the means of their errors in a format.
#[derive(Drop)]
struct Case {
    radix: Radix,
    format: Format,
    mode: ReadMode,
    numerals: &'static str,
    want: Option<Means>,
}

/// Returns the case of numerals in a radix.
fn case_of(
    radix: Radix,
    format: Format,
    mode: ReadMode,
    numerals: &'static str,
    want: Option<Means>,
) -> Case {
    Case {
        radix,
        format,
        mode,
        numerals,
        want,
    }
}

/// Returns the means that a report finds.
fn means_of<L: Ledger>(alloc: Global, case: &Case, steps: &mut Steps<L>) -> Option<Means> {
    let mut report = ErrorReport::new(alloc, case.radix, case.format, case.mode);
    for numeral in case.numerals.split(' ') {
        report.add(numeral.as_bytes(), 1, steps);
    }
    match report.means() {
        Some((mean, root)) => Some((
            mean.is_negative,
            mean.size.number,
            mean.size.places,
            root.number,
            root.places,
        )),
        None => None,
    }
}

/// Whether each case has the wanted means, with its own counter of steps.
fn are_as_wanted<L: Ledger>(alloc: Global, cases: &[Case], blank: Blank) -> bool
    requires name { blank.name ≡ L.name }
    requires parts { blank.parts ≡ L.parts }
    requires backed { 0 < L.parts }
{
    let mut steps: Steps<L> = Steps::new(blank);
    let mut all = true;
    for case in cases {
        all = all && means_of(alloc, case, &mut steps) == case.want;
    }
    all
}

#[test]
fn means_are_rounded_to_six_digits(rt: HostRuntime) {
    let i16f8 = Format::of(true, 16, 8);
    let u8f0 = Format::of(false, 8, 0);
    let i8f4 = Format::of(true, 8, 4);
    let u64f64 = Format::of(false, 64, 64);
    let u64f0 = Format::of(false, 64, 0);
    let i32f16 = Format::of(true, 32, 16);
    let u8f3 = Format::of(false, 8, 3);
    let u16f8 = Format::of(false, 16, 8);
    let i64f63 = Format::of(true, 64, 63);
    let cases = [
        case_of(
            Radix::Dec,
            i16f8,
            ReadMode::NearestEven,
            "0.1 0.2 0.3",
            Some((false, 133333, 6, 282843, 6)),
        ),
        case_of(
            Radix::Dec,
            u8f0,
            ReadMode::NearestEven,
            "0.5 1.5 2.5 -0.5",
            Some((false, 0, 0, 500000, 6)),
        ),
        case_of(Radix::Dec, u8f0, ReadMode::NearestEven, "x 256", None),
        case_of(
            Radix::Dec,
            i8f4,
            ReadMode::NearestEven,
            "1 -2.5 0",
            Some((false, 0, 0, 0, 0)),
        ),
        case_of(
            Radix::Dec,
            i8f4,
            ReadMode::Floor,
            "0.1 -0.1 7.99",
            Some((true, 613333, 6, 639166, 6)),
        ),
        case_of(
            Radix::Dec,
            i8f4,
            ReadMode::Ceil,
            "0.1 -0.1 1e-30",
            Some((false, 666667, 6, 711805, 6)),
        ),
        case_of(
            Radix::Dec,
            i8f4,
            ReadMode::TowardsZero,
            "0.1 -0.1 99",
            Some((false, 0, 0, 600000, 6)),
        ),
        case_of(
            Radix::Dec,
            u64f64,
            ReadMode::NearestEven,
            "0.12345678901234567890123 1e-40 0.1",
            Some((false, 505645, 7, 271819, 6)),
        ),
        case_of(
            Radix::Dec,
            u64f0,
            ReadMode::NearestEven,
            "18446744073709551615.4999999999999999999999999999999999999999999999999999999999",
            Some((true, 500000, 6, 500000, 6)),
        ),
        case_of(
            Radix::Dec,
            u64f0,
            ReadMode::NearestEven,
            "0.5000000000000000000000000000000000001 1",
            Some((false, 250000, 6, 353553, 6)),
        ),
        case_of(
            Radix::Dec,
            u8f0,
            ReadMode::NearestEven,
            "1e-18 2e-18 0",
            Some((true, 100000, 23, 129099, 23)),
        ),
        case_of(
            Radix::Dec,
            u8f0,
            ReadMode::NearestEven,
            "1e-19",
            Some((false, 0, 0, 0, 0)),
        ),
        case_of(
            Radix::Dec,
            u8f0,
            ReadMode::NearestEven,
            "0.000000000000000001 1 1 1 1 1 1",
            Some((true, 142857, 24, 377964, 24)),
        ),
        case_of(
            Radix::Hex,
            i32f16,
            ReadMode::NearestEven,
            "0.12345 -7f.fffff8 1p-40 0.0000000000000000000000000000000000001",
            Some((true, 859375, 7, 157029, 6)),
        ),
        case_of(
            Radix::Bin,
            u8f3,
            ReadMode::NearestEven,
            "1.0101 10.00011",
            Some((true, 125000, 6, 395285, 6)),
        ),
        case_of(
            Radix::Oct,
            u16f8,
            ReadMode::NearestEven,
            "0.1234567 7.0004",
            Some((true, 228882, 7, 228262, 6)),
        ),
        case_of(
            Radix::Dec,
            i64f63,
            ReadMode::NearestEven,
            "0.999999999999999999999999 -0.33333333333333333333333333333333333333333333333333333333333",
            Some((true, 333333, 6, 333333, 6)),
        ),
    ];
    assert!(rt; are_as_wanted::<Brand>(rt.alloc(), &cases, Blank::new(1)));
}
