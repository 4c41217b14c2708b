//! Laws of rounding, each the contract of a function that does nothing.

ghost use Rattle.fixed_round.specs.Laws.{WholeIsTheOne, WholeIsItsOwn};

/// Each value is rounded to exactly one whole number in each rounding: the one that `whole` computes.
pub fn whole_is_the_one()
    ensures { WholeIsTheOne }
{}

/// A whole number is its own ceil, floor, nearest and ties-to-even result. Its bits are those of the number, so nothing
/// overflows.
pub fn whole_is_its_own()
    ensures { WholeIsItsOwn }
{}
