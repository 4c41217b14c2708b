//! Enclosures of numerals at the ends of ranges and of exponents, and compared with a search over all bits.

ghost use Rattle.std.specs.Prelude.{◌≡◌, ◌<◌};

use fixed_bits::Format;
use fixed_enclose::{Enclosure, enclose};
use fixed_numeral::Radix;
use fixed_steps::Steps;
use std::marker::Brand;
use std::sync::ledger::{Blank, Ledger};

fn enclose_over<L: Ledger>(
    numeral: &[u8],
    radix: Radix,
    format: Format,
    blank: Blank,
) -> Option<Enclosure>
    requires name { blank.name ≡ L.name }
    requires parts { blank.parts ≡ L.parts }
    requires some { 0 < blank.parts }
{
    let mut steps = Steps::<L>::new(blank);
    match enclose(numeral, radix, format, &mut steps) {
        Ok(ends) => Some(ends),
        Err(_) => None,
    }
}

/// The two ends of a numeral's enclosure; `None` if it is refused, or the format is invalid.
fn ends_of(
    numeral: &[u8],
    radix: Radix,
    signed: bool,
    width: u32,
    frac: u32,
) -> Option<(i128, i128)> {
    let format = match Format::new(signed, width, frac) {
        Some(format) => format,
        None => return None,
    };
    match enclose_over::<Brand>(numeral, radix, format, Blank::new(1)) {
        Some(ends) => Some((ends.lo, ends.hi)),
        None => None,
    }
}

#[test]
fn the_ends_of_the_64_bit_formats_enclose_themselves(rt: HostRuntime) {
    let low = -9223372036854775808;
    assert!(rt; ends_of(b"-9223372036854775808", Radix::Dec, true, 64, 0) == Some((low, low)));
    assert!(rt; ends_of(b"-9223372036854775808.5", Radix::Dec, true, 64, 0) == None);
    let high = 18446744073709551615;
    assert!(rt; ends_of(b"18446744073709551615", Radix::Dec, false, 64, 0) == Some((high, high)));
    assert!(rt; ends_of(b"18446744073709551615.5", Radix::Dec, false, 64, 0) == None);
    assert!(rt;
        ends_of(b"18446744073709551614.5", Radix::Dec, false, 64, 0) == Some((high - 1, high))
    );
}

#[test]
fn exponents_at_the_ends_of_i32_are_enclosed(rt: HostRuntime) {
    assert!(rt; ends_of(b"1e-2147483648", Radix::Dec, true, 8, 4) == Some((0, 1)));
    assert!(rt; ends_of(b"-1e-2147483648", Radix::Dec, true, 8, 4) == Some((-1, 0)));
    assert!(rt; ends_of(b"-1e-2147483648", Radix::Dec, false, 8, 4) == None);
    assert!(rt; ends_of(b"1e2147483647", Radix::Dec, true, 64, 0) == None);
    assert!(rt; ends_of(b"0e2147483647", Radix::Dec, true, 64, 0) == Some((0, 0)));
}

/// Writes a number of quarters, from -64 to 63 and three quarters, as a numeral of radix 16.
fn quarters_text(quarters: i32) -> [u8; 6] {
    let size = quarters.unsigned_abs().min(255);
    let sign = if quarters < 0 { b'-' } else { b'+' };
    let digits = b"0123456789abcdef";
    let whole = size / 4;
    [
        sign,
        digits[(whole / 16) as usize % 16],
        digits[(whole % 16) as usize],
        b'.',
        digits[(size % 4 * 4) as usize % 16],
        b'0',
    ]
}

/// Finds the enclosure of a number of quarters in halves of a range by trying each of them.
fn searched(quarters: i32, low: i32, high: i32) -> Option<(i128, i128)> {
    let mut lo = None;
    let mut hi = None;
    for bits in -256i32..256 {
        let twice = bits.saturating_mul(2);
        if low <= bits && bits <= high {
            if twice <= quarters {
                lo = Some(bits as i128);
            }
            if quarters <= twice && hi.is_none() {
                hi = Some(bits as i128);
            }
        }
    }
    match (lo, hi) {
        (Some(lo), Some(hi)) => Some((lo, hi)),
        _ => None,
    }
}

#[test]
fn eight_bit_formats_enclose_as_a_search_does(rt: HostRuntime) {
    for quarters in -255i32..256 {
        let text = quarters_text(quarters);
        let signed = ends_of(&text, Radix::Hex, true, 8, 1);
        assert!(rt; signed == searched(quarters, -128, 127), "{quarters}");
        let unsigned = ends_of(&text, Radix::Hex, false, 8, 1);
        assert!(rt; unsigned == searched(quarters, 0, 255), "{quarters}");
    }
}
