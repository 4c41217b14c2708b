//! Laws of the definitions. Each is the contract of a function that does nothing.

ghost use Rattle.fixed_float.specs.Laws.{ExactIsReadBack, NearestFloatIsTheOne, ReadFloatIsTheOne};

/// A float has exactly one read number for each fraction length and mode.
#[tactic(auto, using(crate::proofs::LawLemmas::read_float_is_the_one))]
pub fn read_float_is_the_one()
    ensures { ReadFloatIsTheOne }
{}

/// A float that is a number of a format is read as that number, in each mode.
#[tactic(auto, using(crate::proofs::LawLemmas::exact_is_read_back))]
pub fn exact_is_read_back()
    ensures { ExactIsReadBack }
{}

/// At most one float is the nearest to a number of a format.
pub fn nearest_float_is_the_one()
    ensures { NearestFloatIsTheOne }
{}
