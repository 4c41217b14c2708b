//! Laws of rejects, as contracts of functions that do nothing.

ghost use Rattle.line_rejects.specs.Laws.{RejectLineIsTheOne};

/// A refused line has one line of rejects.
pub fn reject_line_is_the_one()
    ensures { RejectLineIsTheOne }
{}
