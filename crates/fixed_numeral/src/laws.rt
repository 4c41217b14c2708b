//! Laws of numerals, literals and error messages. Each is the contract of a function that does nothing.

ghost use Rattle.fixed_numeral.specs.Leading.{LeadingIsTheOne};
ghost use Rattle.fixed_numeral.specs.Laws.{
  PartsAreDetermined,
  PrefixIsBeginning,
  NumeralOrCause,
  OneCause,
  DenominatorIsPositive,
  LiteralIsDetermined,
  OneLiteralCause,
  MessageIsShort,
};

/// The bytes of a beginning, and so of a numeral, determine its parts.
pub fn parts_are_determined()
    ensures { PartsAreDetermined }
{}

/// Each prefix of a beginning is a beginning.
pub fn prefix_is_beginning()
    ensures { PrefixIsBeginning }
{}

/// Bytes are a numeral, or have a cause why they are not.
pub fn numeral_or_cause()
    ensures { NumeralOrCause }
{}

/// Bytes have at most one cause.
pub fn one_cause()
    ensures { OneCause }
{}

/// The denominator of a magnitude is at least 1.
#[tactic(auto, using(crate::proofs::ValueLemmas::magnitude_pos))]
pub fn denominator_is_positive()
    ensures { DenominatorIsPositive }
{}

/// The bytes of a literal determine its parts.
#[tactic(auto, using(crate::proofs::LawLemmas::one_literal))]
pub fn literal_is_determined()
    ensures { LiteralIsDetermined }
{}

/// Bytes have at most one cause why they are not a literal, and a literal has none.
pub fn one_literal_cause()
    ensures { OneLiteralCause }
{}

/// The message of an error has at most 64 bytes.
#[tactic(auto, using(crate::proofs::MessageLemmas::message_short))]
pub fn message_is_short()
    ensures { MessageIsShort }
{}

/// A text has at most one leading numeral, and none if no prefix is a numeral.
pub fn leading_is_the_one()
    ensures { LeadingIsTheOne }
{}
