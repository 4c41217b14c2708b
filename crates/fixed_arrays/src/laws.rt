//! Laws of arrays, each the contract of a function that does nothing.

ghost use Rattle.fixed_arrays.specs.Laws.{ArrayAnswerIsTheOne, LiteralArrayAnswerIsTheOne, LiteralsFaultIsTheOne};

/// An input has one answer.
pub fn array_answer_is_the_one()
    ensures { ArrayAnswerIsTheOne }
{}

/// A file of named literals has one answer.
pub fn literal_array_answer_is_the_one()
    ensures { LiteralArrayAnswerIsTheOne }
{}

/// A file of named literals has at most one first fault, which may be a literal of another format.
pub fn literals_fault_is_the_one()
    ensures { LiteralsFaultIsTheOne }
{}
