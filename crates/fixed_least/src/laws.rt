//! Laws of the least format of a list, each the contract of a function that does nothing.

ghost use Rattle.fixed_least.specs.Laws.{
  AnswerIsTheOne,
  LeastFaultIsTheOne,
  LeastIsTheOne,
  LeastLineIsTheOne,
  LongerHasNoLesser,
  NamedRadixIsTheOne,
  PlacesAreTheOnes,
};

/// The format whose rank is the count of line numbers is the only least one that holds each numeral.
pub fn least_is_the_one()
    ensures { LeastIsTheOne }
{}

/// A list has one outcome.
pub fn places_are_the_ones()
    ensures { PlacesAreTheOnes }
{}

/// An input has one answer.
pub fn answer_is_the_one()
    ensures { AnswerIsTheOne }
{}

/// Arguments name at most one radix.
pub fn named_radix_is_the_one()
    ensures { NamedRadixIsTheOne }
{}

/// The least format of a longer list does not come before that of the shorter one.
pub fn longer_has_no_lesser()
    ensures { LongerHasNoLesser }
{}

/// A list has at most one first line that is not a numeral, with one cause; and there is one of each line about an
/// outcome.
pub fn least_line_is_the_one()
    ensures fault { LeastFaultIsTheOne }
    ensures line { LeastLineIsTheOne }
{}
