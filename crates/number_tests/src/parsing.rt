//! Reading through std's `FromStr`, and the messages of refusals.

use fixed_numeral::{ParseErrorKind, ParseFixedError};
use fixed_point::{Fixed, FixedI8, FixedU16};
use std::test::Fail;

fn refused<T>(kind: ParseErrorKind) -> Result<T, ParseFixedError> {
    Err(ParseFixedError::new(kind))
}

#[test]
fn a_text_is_parsed_as_it_is_read(rt: HostRuntime) -> Result<(), Fail> {
    assert!(rt; "1.5".parse::<FixedI8<4>>() == Ok(Fixed::from_bits(24)));
    assert!(rt; "1.75.".parse::<FixedI8<4>>() == refused(ParseErrorKind::TooManyPoints));
    assert!(rt; "1.5".parse::<FixedI8<9>>() == refused(ParseErrorKind::Overflow));
    assert!(rt; "1.5.".parse::<FixedI8<9>>() == refused(ParseErrorKind::TooManyPoints));
    let words = ParseFixedError::new(ParseErrorKind::TooManyPoints).to_string(rt.alloc())?;
    assert_eq!(rt; words.as_str(), "more than one point found in string");
    Ok(())
}

#[test]
#[tactic(auto, using(fixed_point::proofs::ReadingLemmas::reads_in_range))]
fn a_text_that_is_known_is_read_without_a_refusal(rt: HostRuntime) {
    assert!(rt; FixedU16::<8>::strict_from_str("12.5").to_bits() == 3200);
}
