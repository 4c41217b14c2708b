//! Laws of parts of words, each the contract of a function that does nothing.

ghost use Rattle.fixed_show.specs.PartLaws.{PartBlockIsTheOne, PartFaultIsTheOne, PartHasNoFault, PartIsTheOne};
ghost use Rattle.fixed_show.specs.PartLaws.{PartObjectIsTheOne, ReversedTwice, WholeFieldIsTheWord, WholeIsTheWord};

/// A word has at most one number for a part.
pub fn part_is_the_one()
    ensures { PartIsTheOne }
{}

/// A word has at most one fault for a part, and none if it has the part.
pub fn part_fault_is_the_one()
    ensures one { PartFaultIsTheOne }
    ensures none { PartHasNoFault }
{}

/// A word has one block for a part of it: that of the part's number, or that of its fault.
pub fn part_block_is_the_one()
    ensures { PartBlockIsTheOne }
{}

/// A word has one object for a part of it: that of the part's number, or that of its fault.
pub fn part_object_is_the_one()
    ensures { PartObjectIsTheOne }
{}

/// The whole word as a part is the same number as the word, and so is the field of all bits of a format.
pub fn whole_is_the_word()
    ensures whole { WholeIsTheWord }
    ensures field { WholeFieldIsTheWord }
{}

/// Bytes reversed twice are as they were.
pub fn reversed_twice()
    ensures { ReversedTwice }
{}
