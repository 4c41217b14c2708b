//! Laws: the arguments from C determine every result of a call. Each law is the contract of a function that does
//! nothing.

ghost use Rattle.fixed_c.specs.Laws.{
  AnswerEndsOnce,
  CompareEndsOnce,
  ConvertEndsOnce,
  ConvertInEndsOnce,
  EncloseEndsOnce,
  LiteralEndsOnce,
  MessageEndsOnce,
  PlacesEndsOnce,
  PrintEndsOnce,
  ReadEndsOnce,
  RespellEndsOnce,
  RoundEndsOnce,
  ScanEndsOnce,
  StyledEndsOnce,
};
ghost use Rattle.fixed_c.specs.RowLaws.{
  ConvertRowsEndOnce,
  FormatEndsOnce,
  PrintRowsEndOnce,
  PutsOnce,
  ReadRowsEndOnce,
  WordEndsOnce,
};

use fixed_convert::laws::moved_in_is_the_one;
use fixed_enclose::laws::pair_is_the_one;
use fixed_laws::laws::styled_text_is_the_one;
use fixed_numeral::laws::leading_is_the_one;
use fixed_respell::laws::{
    answer_is_the_one, refusal_has_none, refusal_is_the_one, respelled_is_the_one,
};
use fixed_write::laws::rounded_text_is_computed;

/// A reading has one result.
pub fn read_ends_once()
    ensures { ReadEndsOnce }
{}

/// A reading through two formats has one result.
pub fn respell_ends_once()
    ensures { RespellEndsOnce }
{
    respelled_is_the_one();
    refusal_has_none();
    refusal_is_the_one();
}

/// An enclosure has one result.
pub fn enclose_ends_once()
    ensures { EncloseEndsOnce }
{
    pair_is_the_one();
}

/// A conversion has one result.
pub fn convert_ends_once()
    ensures { ConvertEndsOnce }
{}

/// A comparison has one result.
pub fn compare_ends_once()
    ensures { CompareEndsOnce }
{}

/// Printing bits has one result.
pub fn print_ends_once()
    ensures { PrintEndsOnce }
{}

/// A call for a message has one result.
pub fn message_ends_once()
    ensures { MessageEndsOnce }
{}

/// Answering a line has one result.
pub fn answer_ends_once()
    ensures { AnswerEndsOnce }
{
    answer_is_the_one();
}

/// Printing to decimal places has one result.
pub fn places_ends_once()
    ensures { PlacesEndsOnce }
{
    rounded_text_is_computed();
}

/// Rounding to a whole number has one result.
pub fn round_ends_once()
    ensures { RoundEndsOnce }
{}

/// A conversion in a mode has one result.
pub fn convert_in_ends_once()
    ensures { ConvertInEndsOnce }
{
    moved_in_is_the_one();
}

/// Reading a literal has one result.
pub fn literal_ends_once()
    ensures { LiteralEndsOnce }
{}

/// Printing in a style has one result.
pub fn styled_ends_once()
    ensures { StyledEndsOnce }
{
    styled_text_is_the_one();
}

/// Finding the numeral at the start of a text has one result.
pub fn scan_ends_once()
    ensures { ScanEndsOnce }
{
    leading_is_the_one();
}

/// Reading rows has one result.
pub fn read_rows_end_once()
    ensures { ReadRowsEndOnce }
{}

/// Converting rows has one result.
pub fn convert_rows_end_once()
    ensures { ConvertRowsEndOnce }
{}

/// Printing rows has one result.
pub fn print_rows_end_once()
    ensures { PrintRowsEndOnce }
{}

/// Writing a text to a buffer has one result.
pub fn puts_once()
    ensures { PutsOnce }
{}

/// Finding the format of a name has one result.
pub fn word_ends_once()
    ensures { WordEndsOnce }
{}

/// Writing the name of a format has one result.
pub fn format_ends_once()
    ensures { FormatEndsOnce }
{}
