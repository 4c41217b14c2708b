//! Laws of the finest format. Each is the contract of a function that does nothing.

ghost use Rattle.fixed_fit.specs.Range.{EndsDecide, RangeServesEach};
ghost use Rattle.fixed_fit.specs.Laws.{BoundedAnswerIsTheOne, FirstUnservedIsTheOne, LeastWithinIsTheOne};
ghost use Rattle.fixed_fit.specs.Laws.{AllFitEachShorter, AnswerIsTheOne, WidthReasonIsTheOne};
ghost use Rattle.fixed_fit.specs.Laws.{FinestIsTheOne, FitsEachShorter, RangeErrorIsHalfAnUlp, SignRuleIsTheOne};

/// A numeral that is in range with a fraction length is in range with each shorter one.
pub fn fits_each_shorter()
    ensures { FitsEachShorter }
{}

/// The same holds for a list of numerals.
pub fn all_fit_each_shorter()
    ensures { AllFitEachShorter }
{}

/// A list has at most one finest fraction length.
pub fn finest_is_the_one()
    ensures { FinestIsTheOne }
{}

/// A list has at most one sign rule.
pub fn sign_rule_is_the_one()
    ensures { SignRuleIsTheOne }
{}

/// An input has at most one answer.
pub fn answer_is_the_one()
    ensures { AnswerIsTheOne }
{}

/// If the two ends of a range fit, every number between them fits. So the answer for a range is the answer for the list
/// of its two ends.
pub fn ends_decide()
    ensures { EndsDecide }
{}

/// A format that serves a range serves every number between its ends: it is in range and rounded by at most the bound.
pub fn range_serves_each()
    ensures { RangeServesEach }
{}

/// The error written for a range is half an ulp of the format, 1 / 2^(f + 1), exactly in decimal.
pub fn range_error_is_half_an_ulp()
    ensures { RangeErrorIsHalfAnUlp }
{}

/// A list has at most one least format within a bound.
pub fn least_within_is_the_one()
    ensures { LeastWithinIsTheOne }
{}

/// At most one line is the first with which no format serves a list, if a format serves before the first line.
pub fn first_unserved_is_the_one()
    ensures { FirstUnservedIsTheOne }
{}

/// The reason against the next lesser width that is tried has at most one text.
pub fn width_reason_is_the_one()
    ensures { WidthReasonIsTheOne }
{}

/// An input has at most one answer within a bound.
pub fn bounded_answer_is_the_one()
    ensures { BoundedAnswerIsTheOne }
{}
