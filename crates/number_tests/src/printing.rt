//! What Display and Debug write for a formatter, and the effect of a base and a style. Default texts are in the stored
//! run of `fixed_vectors`, and the styles in `writing`.

use fixed_point::{Fixed, FixedI8, FixedI32};
use fixed_write::{Notation, Style};
use std::test::Fail;

#[test]
fn a_fraction_longer_than_the_width_is_shown_as_a_shift(rt: HostRuntime) -> Result<(), Fail> {
    let text = format!(in rt.alloc(); "{:?}", Fixed::<i8, 100>::from_bits(1))?;
    assert_eq!(rt; text.as_str(), "(1 >> 100)");
    Ok(())
}

#[test]
fn width_fill_and_precision_are_obeyed(rt: HostRuntime) -> Result<(), Fail> {
    let x = FixedI32::<16>::from_bits(205887);
    assert_eq!(rt;
        format!(in rt.alloc(); "{x:.2}|{x:>10}|{x:*^10.3}")?.as_str(),
        "3.14|   3.14159|**3.142***"
    );
    assert_eq!(rt;
        format!(in rt.alloc(); "{x:+08.1}|{x:é<6.0}|")?.as_str(),
        "+00003.1|3ééééé|"
    );
    Ok(())
}

#[test]
fn a_negative_fraction_keeps_its_sign_and_places(rt: HostRuntime) -> Result<(), Fail> {
    let y = FixedI8::<4>::from_bits(-4);
    assert_eq!(rt;
        format!(in rt.alloc(); "{y:.0}{y:>72.66}")?.as_str(),
        "-0   -0.250000000000000000000000000000000000000000000000000000000000000000"
    );
    Ok(())
}

#[test]
fn a_base_shows_the_exact_value(rt: HostRuntime) -> Result<(), Fail> {
    let x = FixedI8::<4>::from_bits(51);
    let (hex, oct, bin) = (x.hex(), x.oct(), x.bin());
    assert_eq!(rt;
        format!(in rt.alloc(); "{hex} {oct} {bin}")?.as_str(),
        "3.3 3.14 11.0011"
    );
    let negative = FixedI8::<4>::from_bits(-51).hex();
    assert_eq!(rt;
        format!(in rt.alloc(); "{negative:#010}")?.as_str(),
        "-0x00003.3"
    );
    Ok(())
}

#[test]
fn a_style_is_obeyed(rt: HostRuntime) -> Result<(), Fail> {
    let shown = FixedI8::<4>::from_bits(51).to_text(rt.alloc(), &Style::plain(Notation::Oct))?;
    assert!(rt; shown.as_bytes() == b"3.14".as_slice());
    Ok(())
}
