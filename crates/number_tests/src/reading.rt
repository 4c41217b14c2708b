//! The results of one reading into a format, at numerals whose read numbers were worked out by hand. Ties, halfway
//! points and the ends of ranges in each mode are lines of the stored run of `fixed_tool`.

ghost use Rattle.std.specs.Prelude.{◌≡◌, ◌<◌};

use fixed_bits::{Format, Policy};
use fixed_numeral::Radix;
use fixed_read::{
    ReadMode, ReadNumber, lit, overflowing_from_str_radix, read_format, saturating_from_str_radix,
    wrapping_from_str_radix,
};
use fixed_steps::Steps;
use std::marker::Brand;
use std::sync::ledger::{Blank, Ledger};

/// A numeral read into a format: its image under a policy, whether it is out of range, and whether it is a whole number
/// of ulps.
#[derive(Drop)]
struct FormatCase {
    text: &'static str,
    radix: Radix,
    signed: bool,
    width: u32,
    frac: u32,
    policy: Policy,
    image: Option<i128>,
    is_out: bool,
    is_exact: bool,
}

/// A case of I4F4.
fn small(
    text: &'static str,
    radix: Radix,
    policy: Policy,
    image: Option<i128>,
    is_out: bool,
    is_exact: bool,
) -> FormatCase {
    FormatCase {
        text,
        radix,
        signed: true,
        width: 8,
        frac: 4,
        policy,
        image,
        is_out,
        is_exact,
    }
}

/// A decimal case of U0F64.
fn fine(
    text: &'static str,
    policy: Policy,
    image: Option<i128>,
    is_out: bool,
    is_exact: bool,
) -> FormatCase {
    FormatCase {
        text,
        radix: Radix::Dec,
        signed: false,
        width: 64,
        frac: 64,
        policy,
        image,
        is_out,
        is_exact,
    }
}

/// A decimal case of I-9F25, of 16 bits.
fn tiny(
    text: &'static str,
    policy: Policy,
    image: Option<i128>,
    is_out: bool,
    is_exact: bool,
) -> FormatCase {
    FormatCase {
        text,
        radix: Radix::Dec,
        signed: true,
        width: 16,
        frac: 25,
        policy,
        image,
        is_out,
        is_exact,
    }
}

fn is_found(found: &ReadNumber, case: &FormatCase) -> bool {
    found.image(case.policy) == case.image
        && found.is_out_of_range_by(case.policy) == case.is_out
        && (case.policy == Policy::Symmetric || found.is_out_of_range() == case.is_out)
        && found.is_exact() == case.is_exact
}

fn is_read_over<L: Ledger>(case: &FormatCase, format: Format, blank: Blank) -> bool
    requires name { blank.name ≡ L.name }
    requires parts { blank.parts ≡ L.parts }
    requires backed { 0 < L.parts }
{
    let mut steps: Steps<L> = Steps::new(blank);
    match read_format(
        case.text.as_bytes(),
        case.radix,
        format,
        ReadMode::NearestEven,
        &mut steps,
    ) {
        Ok(found) => is_found(&found, case),
        Err(_) => false,
    }
}

fn is_read_into_its_format(case: &FormatCase) -> bool {
    match Format::of_any_width(case.signed, case.width, case.frac) {
        Some(format) => is_read_over::<Brand>(case, format, Blank::new(1)),
        None => false,
    }
}

#[test]
fn one_reading_into_a_format(rt: HostRuntime) {
    let cases = [
        small(
            "7.9375",
            Radix::Dec,
            Policy::Checked,
            Some(127),
            false,
            true,
        ),
        small(
            "7.96875",
            Radix::Dec,
            Policy::Saturating,
            Some(127),
            true,
            false,
        ),
        small(
            "-8.03125",
            Radix::Dec,
            Policy::Checked,
            Some(-128),
            false,
            false,
        ),
        small("8", Radix::Dec, Policy::Checked, None, true, true),
        small("8", Radix::Dec, Policy::Wrapping, Some(-128), true, true),
        small("-8", Radix::Dec, Policy::Symmetric, Some(-127), true, true),
        small("1e400", Radix::Dec, Policy::Wrapping, Some(0), true, true),
        small("-0.1", Radix::Oct, Policy::Checked, Some(-2), false, true),
        small("F.F8", Radix::Hex, Policy::Wrapping, Some(0), true, false),
        small("1p-6", Radix::Bin, Policy::Checked, Some(0), false, false),
        small(
            "-1.1e1",
            Radix::Bin,
            Policy::Checked,
            Some(-48),
            false,
            true,
        ),
    ];
    for case in &cases {
        let text = case.text;
        assert!(rt; is_read_into_its_format(case), "{text}");
    }
}

#[test]
fn one_reading_into_the_finest_format(rt: HostRuntime) {
    let cases = [
        fine(
            "0.9999999999999999999999999999",
            Policy::Saturating,
            Some(18446744073709551615),
            true,
            false,
        ),
        fine(
            "0.5000000000000000000",
            Policy::Checked,
            Some(9223372036854775808),
            false,
            true,
        ),
        fine(
            "0.123456789012345678901234567",
            Policy::Checked,
            Some(2277375791072698140),
            false,
            false,
        ),
        fine(
            "123456789e-9",
            Policy::Checked,
            Some(2277375790844960561),
            false,
            false,
        ),
        fine("-0", Policy::Checked, Some(0), false, true),
        fine("-1e-9", Policy::Saturating, Some(0), true, false),
    ];
    for case in &cases {
        let text = case.text;
        assert!(rt; is_read_into_its_format(case), "{text}");
    }
}

#[test]
fn one_reading_into_a_fraction_longer_than_the_width(rt: HostRuntime) {
    let cases = [
        tiny("0.0005", Policy::Checked, Some(16777), false, false),
        tiny("-0.0009765625", Policy::Checked, Some(-32768), false, true),
        tiny("0.0009765625", Policy::Checked, None, true, true),
        tiny("0.0009765625", Policy::Wrapping, Some(-32768), true, true),
        tiny("3", Policy::Wrapping, Some(0), true, true),
        tiny("3", Policy::Saturating, Some(32767), true, true),
    ];
    for case in &cases {
        let text = case.text;
        assert!(rt; is_read_into_its_format(case), "{text}");
    }
}

/// The readers that `fixed_point` does not call.
#[test]
fn each_reader_to_nearest_answers_in_its_way(rt: HostRuntime) {
    assert!(rt; saturating_from_str_radix::<i16>(b"-9999", Radix::Dec, 8) == Ok(-32768));
    assert!(rt; wrapping_from_str_radix::<i16>(b"9999.5", Radix::Dec, 8) == Ok(3968));
    assert!(rt; overflowing_from_str_radix::<u16>(b"C0F.FE", Radix::Hex, 8) == Ok((4094, true)));
    assert!(rt; lit::<i8>(b"0x0.1C@1", 4) == Ok(28));
    assert!(rt; lit::<u8>(b"_1", 0).is_err());
}
