//! Laws of texts, each the contract of a function that does nothing.

ghost use Rattle.fixed_laws.specs.Laws.{DefaultTextReadsBack, ExactTextReadsBack, RoundedTextIsNumeral};
ghost use Rattle.fixed_laws.specs.Padding.{PaddingIsTheToolchains};
ghost use Rattle.fixed_laws.specs.Plain.{PlainTextReadsBack};
ghost use Rattle.fixed_laws.specs.Readings.{
  ImageReadIsTheOne,
  OverflowingReadIsTheOne,
  ReadAnswerIsTheOne,
  ReadRangeIsDecided,
  ReadingIsTheOne,
};
ghost use Rattle.fixed_laws.specs.Styling.{StyledTextExists, StyledTextIsTheOne};

/// The default text of a value is a decimal numeral, and reads as the bits that it came from.
pub fn default_text_reads_back()
    ensures { DefaultTextReadsBack }
{}

/// The exact text of a value in a base is a numeral of that base, and reads as the bits that it came from.
pub fn exact_text_reads_back()
    ensures { ExactTextReadsBack }
{}

/// The text of a value to any count of places is a numeral too.
pub fn rounded_text_is_numeral()
    ensures { RoundedTextIsNumeral }
{}

/// The plain text of a value in any of the seven notations is a numeral of its radix, and reads as the bits that it
/// came from.
pub fn plain_text_reads_back()
    ensures { PlainTextReadsBack }
{}

/// A styled text is padded as the toolchain pads a whole number under the same options.
pub fn padding_is_the_toolchains()
    ensures { PaddingIsTheToolchains }
{}

/// Each value has a text in each style.
pub fn styled_text_exists()
    ensures { StyledTextExists }
{}

/// Each value has at most one text in a style.
pub fn styled_text_is_the_one()
    ensures { StyledTextIsTheOne }
{}

/// A numeral is read into a format in one way: sign, magnitude and whether it was exact.
pub fn reading_is_the_one()
    ensures { ReadingIsTheOne }
{}

/// Bytes have one result of a reader: the number, or the kind of their cause.
pub fn read_answer_is_the_one()
    ensures { ReadAnswerIsTheOne }
{}

/// A numeral has at most one image under a policy.
pub fn image_read_is_the_one()
    ensures { ImageReadIsTheOne }
{}

/// A numeral has one Wrapping image, and one verdict on whether its number is out of range.
pub fn overflowing_read_is_the_one()
    ensures { OverflowingReadIsTheOne }
{}

/// The number of a numeral is never both in a range and out of it.
pub fn read_range_is_decided()
    ensures { ReadRangeIsDecided }
{}
