//! Laws of errors. Each is the contract of a function that does nothing.

ghost use Rattle.fixed_error.specs.Laws.{AboveNotWithin, ErrorNeverGrows, FirstGreatestIsTheOne, WithinEachLonger};

/// At most one numeral is the first with the greatest error.
pub fn first_greatest_is_the_one()
    ensures { FirstGreatestIsTheOne }
{}

/// Rounded to nearest, the error of a numeral does not grow with the fraction length.
pub fn error_never_grows()
    ensures { ErrorNeverGrows }
{}

/// An error that is above a bound is not within it.
pub fn above_not_within()
    ensures { AboveNotWithin }
{}

/// Rounded to nearest, an error that is within a bound is within it with each longer fraction.
pub fn within_each_longer()
    ensures { WithinEachLonger }
{}
