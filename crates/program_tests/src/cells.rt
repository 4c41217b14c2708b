//! Cells made from numbers, and their order.

use fixed_bits::Format;
use fixed_columns::Cell;
use fixed_point::{FixedI8, FixedI64, FixedU8};
use std::cmp::Ordering;

#[test]
fn cells_of_numbers_are_ordered_as_the_numbers(rt: HostRuntime) {
    let half = FixedU8::<8>::from_bits(128);
    let same = FixedI64::<1>::from_bits(1);
    assert_eq!(rt; half.cmp_num(same), Ordering::Equal);
    assert_eq!(rt; Cell::of(half).cmp(&Cell::of(same)), Ordering::Less);
    let below = FixedI8::<4>::from_bits(-1);
    let zero = FixedU8::<0>::from_bits(0);
    assert_eq!(rt; below.cmp_num(zero), Ordering::Less);
    assert_eq!(rt; Cell::of(below).cmp(&Cell::of(zero)), Ordering::Less);
}

#[test]
fn a_cell_holds_bits_of_its_format(rt: HostRuntime) {
    let format = Format::new(true, 8, 4).unwrap();
    assert!(rt; Cell::new(format, 128).is_none());
    assert!(rt; Cell::new(format, -129).is_none());
    let cell = Cell::new(format, -128).unwrap();
    assert_eq!(rt; cell.bits(), -128);
    assert_eq!(rt; cell.format(), format);
    assert!(rt; cell == Cell::of(FixedI8::<4>::from_bits(-128)));
}
