//! Laws of enclosures and of the answer to a line, each the contract of a function that does nothing.

ghost use Rattle.fixed_enclose.specs.Laws.{
  AnswerIsTheOne,
  ExactWhereEqual,
  NoneIsTighter,
  PairIsTheOne,
  RefusalIsTheOne,
};

/// No two whole numbers around a value are nearer to it than its enclosure.
pub fn none_is_tighter()
    ensures { NoneIsTighter }
{}

/// The two ends are equal exactly if the value is a whole number of ulps.
pub fn exact_where_equal()
    ensures { ExactWhereEqual }
{}

/// Bytes have at most one enclosure in a format, and if they have one, they are not refused.
pub fn pair_is_the_one()
    ensures { PairIsTheOne }
{}

/// Bytes are refused for at most one reason.
pub fn refusal_is_the_one()
    ensures { RefusalIsTheOne }
{}

/// A line has at most one answer.
pub fn answer_is_the_one()
    ensures { AnswerIsTheOne }
{}
