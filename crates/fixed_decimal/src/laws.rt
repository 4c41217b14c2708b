//! Laws of the definitions, each the contract of a function that does nothing.

ghost use Rattle.fixed_decimal.specs.Laws.{DecimalTextIsTheOne, DecimalTextReadsBack, ReadDecimalIsTheOne};
ghost use Rattle.fixed_decimal.specs.Laws.{ReadDecimalKeepsOrder};

/// A numeral has exactly one read number for each decimal format and mode.
#[tactic(auto, using(crate::proofs::LawLemmas::read_decimal_is_the_one))]
pub fn read_decimal_is_the_one()
    ensures { ReadDecimalIsTheOne }
{}

/// Reading keeps the order of values, in each mode: of two numerals, the greater never reads as the lesser number.
pub fn read_decimal_keeps_order()
    ensures { ReadDecimalKeepsOrder }
{}

/// The text of a number is a decimal numeral that reads as this number in each mode, and exactly.
#[tactic(auto, using(crate::proofs::TextLemmas::reads_back))]
pub fn decimal_text_reads_back()
    ensures { DecimalTextReadsBack }
{}

/// Different numbers have different texts.
#[tactic(auto, using(crate::proofs::TextLemmas::text_is_the_one))]
pub fn decimal_text_is_the_one()
    ensures { DecimalTextIsTheOne }
{}
