//! Laws of the blocks, each the contract of a function that does nothing.

ghost use Rattle.fixed_show.specs.BlockLaws.{BitsBlockIsTheOne, BitsObjectIsTheOne, ShowBlockIsTheOne};
ghost use Rattle.fixed_show.specs.BlockLaws.{ShowObjectIsTheOne, ShowRefusalIsTheOne};
ghost use Rattle.fixed_show.specs.DecimalError.{DecimalErrorIsTheOne};
ghost use Rattle.fixed_show.specs.JsonText.{JsonTextIsOneToOne};
ghost use Rattle.fixed_show.specs.FormatBlock.{FormatBlockIsTheOne, FormatObjectIsTheOne, PlacesSurvive};
ghost use Rattle.fixed_show.specs.Measured.{MeasuredErrorIsTheOne};
ghost use Rattle.fixed_show.specs.ShortError.{ErrorTextIsTheOne};
ghost use Rattle.fixed_show.specs.ToolNames.{ArmNameIsAName};
ghost use Rattle.fixed_show.specs.WordLaws.{WordFaultIsTheOne, WordHasNoFault, WordIsTheOne};

/// A decimal with no more digits after the point than the block of a format says survives reading and printing.
pub fn places_survive()
    ensures { PlacesSurvive }
{}

/// A text is at most one number as a word of a format.
pub fn word_is_the_one()
    ensures { WordIsTheOne }
{}

/// A text has at most one fault as a word, and none if it is a word.
pub fn word_fault_is_the_one()
    ensures one { WordFaultIsTheOne }
    ensures none { WordHasNoFault }
{}

/// The error of a count of units has one text.
pub fn decimal_error_is_the_one()
    ensures { DecimalErrorIsTheOne }
{}

/// The error of bits, by value or in ulps, has one text in a block, and one in an object.
pub fn error_text_is_the_one()
    ensures { ErrorTextIsTheOne }
{}

/// A format has one block, and one object.
pub fn format_block_is_the_one()
    ensures block { FormatBlockIsTheOne }
    ensures object { FormatObjectIsTheOne }
{}

/// If a format has a name in ARM's Q, that is one of the names that the format is known by.
pub fn arm_name_is_a_name()
    ensures { ArmNameIsAName }
{}

/// A word has one block: that of its number, or that of its fault.
pub fn bits_block_is_the_one()
    ensures { BitsBlockIsTheOne }
{}

/// A numeral has one block: that of its bits, or that of its refusal.
pub fn show_block_is_the_one()
    ensures one { ShowBlockIsTheOne }
    ensures refused { ShowRefusalIsTheOne }
{}

/// A word has one object: that of its number, or that of its fault.
pub fn bits_object_is_the_one()
    ensures { BitsObjectIsTheOne }
{}

/// A numeral has one object: that of its bits, or that of its refusal.
pub fn show_object_is_the_one()
    ensures { ShowObjectIsTheOne }
{}

/// Bytes with the same JSON text are the same.
pub fn json_text_is_one_to_one()
    ensures { JsonTextIsOneToOne }
{}

/// A numeral has one error by a measure, or one cause of its refusal.
pub fn measured_error_is_the_one()
    ensures { MeasuredErrorIsTheOne }
{}
