//! Laws of constants files, each the contract of a function that does nothing but call the laws that it follows from.

ghost use Rattle.fixed_constants.specs.Laws.{
  AnswerIsItsOwn,
  AnswerIsTheOne,
  CanonicalTextReadsBack,
  ConstantsAreEntries,
  ConstantsAreTheOnes,
  EntriesHaveOneAnswer,
  ErrorIsTheOne,
  FaultIsTheOne,
  FirstNamedIsTheOne,
  FormAnswerIsTheOne,
  FormErrorIsTheOne,
  FormFaultIsTheOne,
  LinesKeepTheirNumbers,
  LiteralIsStyled,
  LiteralIsTheOne,
  LiteralReadsBack,
  NamedFormIsTheOne,
  NeverBoth,
  WrittenReadsBack,
};

use fixed_laws::laws::exact_text_reads_back;
use line_engine::laws::line_comes_first;

/// A text has at most one list of constants.
pub fn constants_are_the_ones()
    ensures { ConstantsAreTheOnes }
{}

/// A text has at most one first fault, on one line.
pub fn fault_is_the_one()
    ensures { FaultIsTheOne }
{}

/// A text that has constants has no fault. So a text is refused exactly if it has a fault.
pub fn never_both()
    ensures { NeverBoth }
{}

/// An input has one answer.
pub fn answer_is_the_one()
    ensures { AnswerIsTheOne }
{}

/// An input has one answer in a form.
pub fn form_answer_is_the_one()
    ensures { FormAnswerIsTheOne }
{}

/// A text has at most one first fault in a form, on one line.
pub fn form_fault_is_the_one()
    ensures { FormFaultIsTheOne }
{}

/// A text has at most one error, in a form or without one, if memory was found.
pub fn error_is_the_one()
    ensures plain { ErrorIsTheOne }
    ensures form { FormErrorIsTheOne }
{}

/// A list has at most one first constant with a name.
pub fn first_named_is_the_one()
    ensures { FirstNamedIsTheOne }
{}

/// Arguments name at most one form and one guard.
pub fn named_form_is_the_one()
    ensures { NamedFormIsTheOne }
{}

/// A literal has at most one number of bits in a format.
pub fn literal_is_the_one()
    ensures { LiteralIsTheOne }
{}

/// The literal of a value is its styled text in lower-case hexadecimal with the prefix.
pub fn literal_is_styled()
    ensures { LiteralIsStyled }
{}

/// The literal of a value is read as the same bits in every format that has them.
pub fn literal_reads_back()
    ensures { LiteralReadsBack }
{
    exact_text_reads_back();
}

/// The constants of a text are names, formats and bits in their range, and no name occurs twice.
pub fn constants_are_entries()
    ensures { ConstantsAreEntries }
{}

/// The canonical text of such constants is read as the same constants.
pub fn canonical_text_reads_back()
    ensures { CanonicalTextReadsBack }
{
    line_comes_first();
    literal_reads_back();
}

/// Constants that were read from any text and written are read again, in the same order.
pub fn written_reads_back()
    ensures { WrittenReadsBack }
{
    constants_are_entries();
    canonical_text_reads_back();
}

/// Two inputs with the same constants in the same order have one answer.
pub fn entries_have_one_answer()
    ensures { EntriesHaveOneAnswer }
{}

/// An answer that is not a fault is answered with itself.
pub fn answer_is_its_own()
    ensures { AnswerIsItsOwn }
{
    written_reads_back();
}

/// A line of a text has the same number in its plain text.
pub fn lines_keep_their_numbers()
    ensures { LinesKeepTheirNumbers }
{
    line_comes_first();
}
