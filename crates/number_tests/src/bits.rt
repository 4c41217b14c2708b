//! Formats, their order, and the integer types of bits.

use fixed_bits::{Format, Inner, Number, Policy, format_at, mul10};

#[test]
fn a_format_has_a_width_of_four_and_no_more_fraction_bits(rt: HostRuntime) {
    for (width, frac, is_format) in &[
        (8, 8, true),
        (8, 9, false),
        (64, 64, true),
        (64, 65, false),
        (0, 0, false),
        (24, 0, false),
        (128, 0, false),
    ] {
        assert!(rt;
            Format::new(true, *width, *frac).is_some() == *is_format,
            "{width} {frac}"
        );
    }
}

#[test]
fn any_width_from_1_to_64_and_fraction_up_to_64_makes_a_format(rt: HostRuntime) {
    for (signed, width, frac, ends) in &[
        (true, 1, 0, (-1, 0)),
        (true, 1, 1, (-1, 0)),
        (false, 1, 1, (0, 1)),
        (true, 18, 17, (-131_072, 131_071)),
        (false, 24, 24, (0, 16_777_215)),
        (true, 48, 31, (-140_737_488_355_328, 140_737_488_355_327)),
        (false, 63, 0, (0, 9_223_372_036_854_775_807)),
        (false, 64, 64, (0, 18_446_744_073_709_551_615)),
        (true, 16, 25, (-32_768, 32_767)),
        (false, 1, 64, (0, 1)),
    ] {
        match Format::of_any_width(*signed, *width, *frac) {
            Some(format) => {
                assert!(rt; (format.lowest(), format.greatest()) == *ends, "{width}");
                assert!(rt; format.rank().is_some() == (*width == 64), "{width}");
                assert!(rt;
                    format.whole_length() == *width as i32 - *frac as i32,
                    "{width}"
                );
            }
            None => assert!(rt; false, "{width}"),
        }
    }
    assert!(rt; Format::of_any_width(true, 0, 0).is_none());
    assert!(rt; Format::of_any_width(false, 65, 0).is_none());
    assert!(rt; Format::of_any_width(true, 12, 65).is_none());
}

/// The sign rule, width and fraction length of the format with a rank, and its ends.
type Row = (usize, (bool, u32, u32), (i128, i128));

#[test]
fn formats_are_ordered_by_width_then_sign_then_fraction(rt: HostRuntime) {
    let rows: [Row; 10] = [
        (0, (false, 8, 0), (0, 255)),
        (8, (false, 8, 8), (0, 255)),
        (9, (true, 8, 0), (-128, 127)),
        (17, (true, 8, 8), (-128, 127)),
        (18, (false, 16, 0), (0, 65_535)),
        (51, (true, 16, 16), (-32_768, 32_767)),
        (52, (false, 32, 0), (0, 4_294_967_295)),
        (117, (true, 32, 32), (-2_147_483_648, 2_147_483_647)),
        (118, (false, 64, 0), (0, 18_446_744_073_709_551_615)),
        (
            247,
            (true, 64, 64),
            (-9_223_372_036_854_775_808, 9_223_372_036_854_775_807),
        ),
    ];
    for (rank, parts, ends) in &rows {
        match format_at(*rank) {
            Some(format) => {
                assert!(rt; format.rank() == Some(*rank));
                assert!(rt;
                    (format.signed(), format.width(), format.frac()) == *parts,
                    "{rank}"
                );
                assert!(rt; (format.lowest(), format.greatest()) == *ends, "{rank}");
            }
            None => assert!(rt; false, "{rank}"),
        }
    }
    assert!(rt; format_at(248).is_none());
}

#[test]
fn a_number_goes_through_three_policies(rt: HostRuntime) {
    let byte = Format::new(false, 8, 0).unwrap();
    for (number, checked, saturating, wrapping) in &[
        (17, Some(17), 17, 17),
        (300, None, 255, 44),
        (-1, None, 0, 255),
    ] {
        assert!(rt;
            Policy::Checked.image(byte, *number) == *checked,
            "{number}"
        );
        assert!(rt;
            Policy::Saturating.image(byte, *number) == Some(*saturating),
            "{number}"
        );
        assert!(rt;
            Policy::Wrapping.image(byte, *number) == Some(*wrapping),
            "{number}"
        );
    }
}

#[test]
fn symmetric_leaves_out_the_lowest_number(rt: HostRuntime) {
    for (signed, width, number, image) in &[
        (true, 8, 127, 127),
        (true, 8, 128, 127),
        (true, 8, -127, -127),
        (true, 8, -128, -127),
        (true, 8, -1000, -127),
        (true, 1, 1, 0),
        (true, 1, -1, 0),
        (false, 8, -1, 0),
        (false, 8, 256, 255),
    ] {
        let format = Format::of_any_width(*signed, *width, 0).unwrap();
        assert!(rt;
            Policy::Symmetric.image(format, *number) == Some(*image),
            "{number}"
        );
        assert!(rt;
            Number::of(*number).is_out_of_range_by(format, Policy::Symmetric) == (number != image),
            "{number}"
        );
    }
}

#[test]
fn ten_times_a_fraction(rt: HostRuntime) {
    assert!(rt;
        mul10(13, 4) == (8, 2),
        "13/16 begins with 8, and 2/16 are left"
    );
    assert!(rt; mul10(0, 0) == (0, 0));
    assert!(rt; mul10(18_446_744_073_709_551_615, 64) == (9, 18_446_744_073_709_551_606));
}

/// Whether a type's ends are these, and a number past either end saturates to it and wraps to the other.
fn has_ends<I: Inner>(low: i128, high: i128) -> bool {
    let (least, greatest) = (I::MIN.value(), I::MAX.value());
    let saturates = I::saturate(least - 1) == I::MIN && I::saturate(greatest + 1) == I::MAX;
    let wraps = I::wrap(least - 1) == I::MAX && I::wrap(greatest + 1) == I::MIN;
    let fits = I::fits(least) && I::fits(greatest);
    let has_more = I::fits(least - 1) || I::fits(greatest + 1);
    (least, greatest) == (low, high) && saturates && wraps && fits && !has_more
}

#[test]
fn each_type_ends_where_its_range_does(rt: HostRuntime) {
    assert!(rt; has_ends::<u8>(0, 255) && has_ends::<i8>(-128, 127));
    assert!(rt; has_ends::<u16>(0, 65_535) && has_ends::<i16>(-32_768, 32_767));
    assert!(rt; has_ends::<u32>(0, 4_294_967_295));
    assert!(rt; has_ends::<i32>(-2_147_483_648, 2_147_483_647));
    assert!(rt; has_ends::<u64>(0, 18_446_744_073_709_551_615));
    assert!(rt; has_ends::<i64>(-9_223_372_036_854_775_808, 9_223_372_036_854_775_807));
}

#[test]
fn a_shift_rounds_down(rt: HostRuntime) {
    assert!(rt;
        (-5i8).floor_shift(1) == -3 && (-5i8).floor_shift(8) == -1 && 127i8.floor_shift(8) == 0
    );
    assert!(rt; i16::MIN.floor_shift(15) == -1 && i32::MIN.floor_shift(32) == -1);
    assert!(rt; i64::MIN.floor_shift(63) == -1 && i64::MAX.floor_shift(64) == 0);
    assert!(rt; 255u8.floor_shift(1) == 127 && u16::MAX.floor_shift(16) == 0);
    assert!(rt; u32::MAX.floor_shift(31) == 1 && u64::MAX.floor_shift(64) == 0);
}
