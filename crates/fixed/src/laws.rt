//! Laws of the arguments of a command line, each the contract of a function that does nothing: an operand or an option
//! has one meaning.

ghost use Rattle.fixed.specs.Laws.{ColumnsAreTheOnes, ConstantsAreTheOnes, LinesAreTheOnes, SettingsAreTheOnes};

/// The arguments of `fixed column` name one delimiter, one form of fields, one list of columns and one destination.
#[tactic(auto, using(crate::proofs::LawLemmas::columns_one))]
pub fn columns_are_the_ones()
    ensures { ColumnsAreTheOnes }
{}

/// The arguments of `fixed constants` name one form, one guard, one array and one way to read numerals.
#[tactic(auto, using(crate::proofs::LawLemmas::constants_one))]
pub fn constants_are_the_ones()
    ensures { ConstantsAreTheOnes }
{}

/// Arguments name one format, target, part of a word, list of fields, layout of lines, rule of words and kind of list.
#[tactic(auto, using(crate::proofs::LawLemmas::lines_one))]
pub fn lines_are_the_ones()
    ensures { LinesAreTheOnes }
{}

/// Options name one part to print, one byte order, one excerpt of words, one limit and one greatest error.
#[tactic(auto, using(crate::proofs::LawLemmas::settings_one))]
pub fn settings_are_the_ones()
    ensures { SettingsAreTheOnes }
{}
