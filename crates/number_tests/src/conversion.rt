//! Conversion and order, between numbers and integers.

use fixed_bits::{Format, Policy};
use fixed_convert::{
    Cast, CheckedCast, Floored, FromFixed, LosslessTryFrom, LossyFrom, Num, NumTarget,
    OverflowingCast, SaturatingCast, StrictCast, ToFixed, UnwrappedCast, WrappingCast, compare,
    floor_into, lossless_from, reformat,
};
use fixed_point::{
    Ends, Fixed, FixedI8, FixedI16, FixedI32, FixedI64, FixedU8, FixedU16, FixedU64,
};
use std::cmp::Ordering;

#[test]
fn a_move_rounds_down(rt: HostRuntime) {
    let low = floor_into(-40, 4, 0);
    assert!(rt;
        low == Floored { bits: -3, shift: 0 },
        "-2.5 in sixteenths, in whole numbers"
    );
    let high = floor_into(9_223_372_036_854_775_808, 0, 64);
    assert!(rt; !high.fits::<u64>() && high.wrap::<u64>() == 0);
    assert!(rt; high.clamp::<u64>() == u64::MAX && high.clamp::<i8>() == 127);
    assert!(rt; !FixedI16::<4>::fits_wide(high) && FixedI16::<4>::fits_wide(low));
    assert!(rt; FixedU8::<8>::wrap_wide(high).to_bits() == 0 && i8::clamp_wide(high) == 127);
    assert!(rt; FixedI8::<4>::wrap_wide(low).to_bits() == -3 && u8::clamp_wide(low) == 0);
}

#[test]
fn a_number_has_a_sign_rule_and_a_width(rt: HostRuntime) {
    assert!(rt; <FixedI16<4> as Num>::SIGNED && <FixedI16<4> as Num>::WIDTH == 16);
    assert!(rt; !<u64 as Num>::SIGNED && <u64 as Num>::WIDTH == 64);
    assert!(rt; !<bool as Num>::SIGNED && <bool as Num>::WIDTH == 1);
}

#[test]
fn a_move_past_all_bits(rt: HostRuntime) {
    let (whole, fraction) = (
        Format::new(false, 64, 0).unwrap(),
        Format::new(false, 64, 64).unwrap(),
    );
    let one_up = 9_223_372_036_854_775_808;
    assert!(rt; reformat(fraction, Policy::Checked, one_up, 0) == None);
    assert!(rt; reformat(fraction, Policy::Wrapping, one_up, 0) == Some((0, true)));
    let end = 18_446_744_073_709_551_615;
    assert!(rt; reformat(fraction, Policy::Saturating, one_up, 0) == Some((end, true)));
    assert!(rt; reformat(whole, Policy::Checked, end, 64) == Some((0, false)));
}

#[test]
#[tactic(auto, unfolding(fixed_bits::specs::Down::down))]
fn what_fits_is_rounded_down(rt: HostRuntime) {
    let below = FixedI8::<4>::from_bits(-40);
    let plain: i16 = below.cast();
    let strict: FixedI32<1> = below.strict_cast();
    let unwrapped: isize = below.unwrapped_cast();
    assert!(rt; plain == -3 && strict.to_bits() == -5 && unwrapped == -3);
    assert!(rt; below.to_num::<i64>() == -3 && FixedI8::<4>::from_bits(40).to_num::<i32>() == 2);
    let strict: i8 = FromFixed::strict_from_fixed(FixedU8::<4>::from_bits(47));
    assert!(rt; strict == 2, "47 sixteenths are below three");
}

#[test]
#[tactic(auto, unfolding(fixed_bits::specs::Down::down))]
fn what_fits_is_as_large_in_the_target(rt: HostRuntime) {
    assert!(rt; FixedI8::<4>::const_from_fixed(FixedI8::<2>::from_bits(14)).to_bits() == 56);
    assert!(rt; FixedI8::<4>::const_from_int(-3).to_bits() == -48);
    assert!(rt; FixedU8::<7>::from_num(true).to_bits() == 128);
    let plain: FixedU8<4> = 3u16.to_fixed();
    let strict: FixedI64<56> = 3i8.strict_to_fixed();
    assert!(rt;
        plain.to_bits() == 48 && strict.to_bits() == 216_172_782_113_783_808,
        "three times 2^56"
    );
}

#[test]
fn each_form_answers_what_does_not_fit_in_its_way(rt: HostRuntime) {
    let minus_one = FixedI8::<0>::from_bits(-1);
    let none: Option<u8> = minus_one.checked_cast();
    let clamped: u8 = minus_one.saturating_cast();
    let wrapped: u8 = minus_one.wrapping_cast();
    let both: (u8, bool) = minus_one.overflowing_cast();
    assert!(rt; none == None && clamped == 0 && wrapped == 255 && both == (255, true));
    assert!(rt;
        minus_one.checked_to_num::<u8>() == None && minus_one.saturating_to_num::<u8>() == 0
    );
    assert!(rt; minus_one.wrapping_to_num::<u8>() == 255);
    assert!(rt; minus_one.overflowing_to_num::<u8>() == (255, true));
    let greatest: FixedU8<0> = Ends::MAX;
    assert!(rt; greatest.wrapping_to_num::<i8>() == -1);
}

#[test]
fn three_hundred_into_a_byte(rt: HostRuntime) {
    let none: Option<FixedU8<0>> = 300u16.checked_to_fixed();
    let clamped: FixedU8<0> = 300u16.saturating_to_fixed();
    let wrapped: FixedU8<0> = 300u16.wrapping_to_fixed();
    let (same, over): (FixedU8<0>, bool) = 300u16.overflowing_to_fixed();
    assert!(rt; none.is_none() && clamped.to_bits() == 255 && wrapped.to_bits() == 44);
    assert!(rt; same.to_bits() == 44 && over);
    let wide = FixedU16::<0>::from_bits(300);
    let none: Option<u8> = FromFixed::checked_from_fixed(wide);
    let clamped: u8 = FromFixed::saturating_from_fixed(wide);
    let wrapped: u8 = FromFixed::wrapping_from_fixed(wide);
    let both: (u8, bool) = FromFixed::overflowing_from_fixed(wide);
    assert!(rt; none == None && clamped == 255 && wrapped == 44 && both == (44, true));
}

#[test]
fn integers_of_a_machine_word(rt: HostRuntime) {
    let end: FixedU64<0> = Ends::MAX;
    let whole: Option<usize> = end.checked_cast();
    let none: Option<isize> = end.checked_cast();
    let clamped: isize = end.saturating_cast();
    let wrapped: isize = end.wrapping_cast();
    assert!(rt; whole == Some(usize::MAX) && none == None);
    assert!(rt; clamped == isize::MAX && wrapped == -1);
    let (low, over): (FixedU8<0>, bool) = (-1isize).overflowing_to_fixed();
    assert!(rt; low.to_bits() == 255 && over);
    let (none, over) = FixedU64::<64>::overflowing_from_num(1u64);
    assert!(rt;
        none.to_bits() == 0 && over,
        "one has no whole bit to stand in"
    );
}

#[test]
fn what_loses_nothing_is_the_same_value(rt: HostRuntime) {
    assert!(rt; FixedU8::<0>::lossless_try_from(-1i8).is_none());
    assert!(rt; FixedU8::<0>::lossless_try_from(5i8) == Some(Fixed::from_bits(5)));
    assert!(rt; FixedI16::<8>::lossy_from(FixedI64::<56>::from_bits(-1)).to_bits() == -1);
    let wide: FixedI16<8> = lossless_from(FixedI8::<4>::from_bits(51));
    assert!(rt; wide.to_bits() == 816);
    let same: FixedI16<4> = FixedU8::<4>::from_bits(200).into();
    assert!(rt; same.to_bits() == 200);
    assert!(rt; i8::from(FixedI8::<0>::from(-7)) == -7);
}

/// Two numbers by their bits and fraction lengths, and their order.
type Pair = ((i128, u32), (i128, u32), Ordering);

#[test]
fn numbers_are_ordered_across_fraction_lengths(rt: HostRuntime) {
    let pairs: [Pair; 5] = [
        ((128, 8), (1, 1), Ordering::Equal),
        ((-1, 4), (0, 0), Ordering::Less),
        ((18_446_744_073_709_551_615, 64), (1, 0), Ordering::Less),
        ((1, 100), (0, 0), Ordering::Greater),
        ((1, 4_294_967_295), (1, 4_294_967_294), Ordering::Less),
    ];
    for ((b, f), (c, g), order) in &pairs {
        assert!(rt;
            compare(*b, *f, *c, *g) == *order,
            "{b} with {f} against {c} with {g}"
        );
    }
    assert!(rt; Fixed::<i8, 100>::from_bits(1).cmp_num(0i64) == Ordering::Greater);
    assert!(rt; FixedU8::<8>::from_bits(128).eq_num(FixedI64::<1>::from_bits(1)));
}
