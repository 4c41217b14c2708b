//! Laws of amounts, each the contract of a function that does nothing.

ghost use Rattle.fixed_amounts.specs.Laws.{AmountBlockIsTheOne, AmountObjectIsTheOne, AmountReplyIsTheOne};
ghost use Rattle.fixed_amounts.specs.Laws.{DecimalNameIsTheOne};

/// A line has at most one reply.
pub fn amount_reply_is_the_one()
    ensures { AmountReplyIsTheOne }
{}

/// A word names at most one decimal format.
pub fn decimal_name_is_the_one()
    ensures { DecimalNameIsTheOne }
{}

/// A question about a word has at most one block.
pub fn amount_block_is_the_one()
    ensures { AmountBlockIsTheOne }
{}

/// It has at most one JSON object.
pub fn amount_object_is_the_one()
    ensures { AmountObjectIsTheOne }
{}
