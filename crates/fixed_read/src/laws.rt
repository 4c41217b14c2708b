//! Laws of the definitions. Each is the contract of a function that does nothing.

ghost use Rattle.fixed_read.specs.Laws.{ReadNumberIsTheOne};

/// A numeral has exactly one read number for each fraction length and mode.
#[tactic(auto, using(crate::proofs::ReadLemmas::read_number_is_the_one))]
pub fn read_number_is_the_one()
    ensures { ReadNumberIsTheOne }
{}
