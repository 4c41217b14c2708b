//! Laws of words, each the contract of a function that does nothing.

ghost use Rattle.fixed_words.specs.Laws.{WordedIsTheOne};

/// A text determines its converted text and whether a word is refused.
pub fn worded_is_the_one()
    ensures { WordedIsTheOne }
{}
