//! Laws of the definitions. Each is the contract of a function that does nothing.

ghost use Rattle.std.specs.Prelude.{pos, negsuc, true, false, codes};
ghost use Rattle.fixed_respell.specs.Answer.{IsAnswer};
ghost use Rattle.fixed_respell.specs.AnswerLaws.{
  AnswerIsTheOne,
  FormatNameIsTheOne,
  FormatWordIsAName,
  FormatWordIsTheOne,
  LongIsAnsweredByPrefix,
  NamedAnswerIsTheAnswer,
  NamedAnswerIsTheOne,
  PlainLineAsksNearest,
  PlainLineHasThePlainAnswer,
  PlainWordNamesNearest,
};
ghost use Rattle.fixed_bits.specs.declared.format.Policy.TheVariants.{Checked, Saturating, Wrapping};
ghost use Rattle.fixed_bits.specs.declared.mode.ReadMode.TheVariants.{NearestEven, Floor, Ceil, TowardsZero};
ghost use Rattle.fixed_bits.specs.declared.mode.ReadMode.TheVariants.{AwayFromZero, NearestAway, NearestDown};
ghost use Rattle.fixed_bits.specs.declared.mode.ReadMode.TheVariants.{NearestUp, NearestZero};
ghost use Rattle.fixed_numeral.specs.declared.radix.Radix.TheVariants.{Bin, Oct, Dec, Hex};
ghost use Rattle.fixed_respell.specs.Reached.{IsRespelled, OverflowsOn};
ghost use Rattle.fixed_respell.specs.Examples.{unsigned_format, signed_format};
ghost use Rattle.fixed_respell.specs.Laws.{
  ReachedIsTheOne,
  OverflowedHasNone,
  RespelledIsTheOne,
  RefusalHasNone,
  RefusalIsTheOne,
};
ghost use Rattle.fixed_respell.specs.SelfLaws.{
  CommandIsTheOne,
  PolicyWordIsTheOne,
  SelfRunIsTheOne,
  SelfTestBegins,
  SplitIsTheOne,
  SummaryIsTheOne,
};

/// A numeral reaches at most one pair of bits and a flag.
pub fn reached_is_the_one()
    ensures { ReachedIsTheOne }
{}

/// A numeral that is refused as an overflow reaches no bits.
pub fn overflowed_has_none()
    ensures { OverflowedHasNone }
{}

/// Bytes reach at most one pair of bits and a flag.
pub fn respelled_is_the_one()
    ensures { RespelledIsTheOne }
{}

/// Bytes that are refused reach no bits.
pub fn refusal_has_none()
    ensures { RefusalHasNone }
{}

/// Bytes are refused with at most one kind.
pub fn refusal_is_the_one()
    ensures { RefusalIsTheOne }
{}

/// What some numerals reach. 2.99 is 48 ulps of 1/16, which are 3: the value is rounded to the source first. 300 is
/// brought into the source by the policy, and 17 into the target. 2.5 and -2.5 are ties between two whole numbers. In
/// radix 8 and 2 an exponent after `p` scales by two: 0.1p1 is 1/4, and 1.1p3 is 12. C0F.FE is 790,526 ulps of 1/256.
pub fn worked_examples()
    ensures to_the_source_step_first { IsRespelled NearestEven Dec (codes "2.99") Checked (unsigned_format 4 4)
        (unsigned_format 8 0) (pos 3) false }
    ensures down_below_zero { IsRespelled NearestEven Dec (codes "-2.5") Checked (signed_format 4 4) (signed_format 8 0)
        (negsuc 2) false }
    ensures source_wraps { IsRespelled NearestEven Dec (codes "300") Wrapping (unsigned_format 8 0)
        (unsigned_format 16 0) (pos 44) true }
    ensures source_saturates { IsRespelled NearestEven Dec (codes "300") Saturating (unsigned_format 8 0)
        (unsigned_format 16 0) (pos 255) true }
    ensures source_refuses { OverflowsOn NearestEven Dec (codes "300") Checked (unsigned_format 8 0)
        (unsigned_format 16 0) }
    ensures target_wraps { IsRespelled NearestEven Dec (codes "17") Wrapping (unsigned_format 8 0) (unsigned_format 4 4)
        (pos 16) true }
    ensures target_saturates { IsRespelled NearestEven Dec (codes "17") Saturating (unsigned_format 8 0)
        (unsigned_format 4 4) (pos 255) true }
    ensures target_refuses { OverflowsOn NearestEven Dec (codes "17") Checked (unsigned_format 8 0)
        (unsigned_format 4 4) }
    ensures in_the_mode { IsRespelled Ceil Dec (codes "2.1") Checked (unsigned_format 8 0) (unsigned_format 8 0)
        (pos 3) false }
    ensures tie_above_zero { IsRespelled NearestEven Dec (codes "2.5") Checked (signed_format 8 0) (signed_format 8 0)
        (pos 2) false }
    ensures tie_below_zero { IsRespelled NearestEven Dec (codes "-2.5") Checked (signed_format 8 0) (signed_format 8 0)
        (negsuc 1) false }
    ensures floor_below_zero { IsRespelled Floor Dec (codes "-2.5") Checked (signed_format 8 0) (signed_format 8 0)
        (negsuc 2) false }
    ensures ceil_below_zero { IsRespelled Ceil Dec (codes "-2.5") Checked (signed_format 8 0) (signed_format 8 0)
        (negsuc 1) false }
    ensures towards_zero_below_zero { IsRespelled TowardsZero Dec (codes "-2.5") Checked (signed_format 8 0)
        (signed_format 8 0) (negsuc 1) false }
    ensures tie_away_from_zero { IsRespelled NearestAway Dec (codes "-2.5") Checked (signed_format 8 0)
        (signed_format 8 0) (negsuc 2) false }
    ensures tie_towards_zero { IsRespelled NearestZero Dec (codes "-2.5") Checked (signed_format 8 0)
        (signed_format 8 0) (negsuc 1) false }
    ensures tie_up_below_zero { IsRespelled NearestUp Dec (codes "-2.5") Checked (signed_format 8 0)
        (signed_format 8 0) (negsuc 1) false }
    ensures tie_down_below_zero { IsRespelled NearestDown Dec (codes "-2.5") Checked (signed_format 8 0)
        (signed_format 8 0) (negsuc 2) false }
    ensures away_from_zero { IsRespelled AwayFromZero Dec (codes "-2.1") Checked (signed_format 8 0)
        (signed_format 8 0) (negsuc 2) false }
    ensures saturates_below { IsRespelled NearestEven Dec (codes "-300") Saturating (signed_format 8 0)
        (signed_format 8 0) (negsuc 127) true }
    ensures negative_wraps { IsRespelled NearestEven Dec (codes "-1") Wrapping (unsigned_format 8 0)
        (unsigned_format 8 0) (pos 255) true }
    ensures octal_exponent { IsRespelled NearestEven Oct (codes "0.1p1") Checked (unsigned_format 0 8)
        (unsigned_format 0 8) (pos 64) false }
    ensures binary_exponent { IsRespelled NearestEven Bin (codes "1.1p3") Checked (unsigned_format 8 0)
        (unsigned_format 8 0) (pos 12) false }
    ensures hexadecimal_wraps { IsRespelled NearestEven Hex (codes "C0F.FE") Wrapping (unsigned_format 8 8)
        (unsigned_format 8 8) (pos 4094) true }
{}

/// The answers to some whole lines. 2.99 is rounded to the source first, so its text is 3. 51 ulps of 1/16 are 3.1875,
/// and 3.2 reads back as them; 1/4 is as near to 0.2 as to 0.3, and both read back. 300 is out of its source's range,
/// and Checked refuses it. `1_0` is not a numeral. The last line has two faults and is answered with the first.
pub fn worked_answers()
    ensures respelled { IsAnswer (codes "10 U4F4 U8F0 checked 2.99")
        (record { text = codes "3 3 fits"; fault = false }) }
    ensures shortest_text { IsAnswer (codes "10 I4F4 I4F4 checked 3.1875")
        (record { text = codes "3.2 51 fits"; fault = false }) }
    ensures tie_of_texts { IsAnswer (codes "10 U6F2 U6F2 checked 0.25")
        (record { text = codes "0.2 1 fits"; fault = false }) }
    ensures octal { IsAnswer (codes "8 U0F8 U0F8 checked 0.1p1")
        (record { text = codes "0.25 64 fits"; fault = false }) }
    ensures hexadecimal { IsAnswer (codes "16 U8F8 U8F8 wrapping C0F.FE")
        (record { text = codes "15.992 4094 overflowed"; fault = false }) }
    ensures mode_word { IsAnswer (codes "10 I8F0 I8F0 checked/floor -2.5")
        (record { text = codes "-3 -3 fits"; fault = false }) }
    ensures overflow { IsAnswer (codes "10 U8F0 U16F0 checked 300")
        (record { text = codes "error: overflow"; fault = true }) }
    ensures refused { IsAnswer (codes "10 U8F0 U8F0 checked 1_0")
        (record { text = codes "error: invalid digit found in string"; fault = true }) }
    ensures line_fault { IsAnswer (codes "9 U8F0 U9F0 checked 1")
        (record { text = codes "error: bad radix"; fault = true }) }
{}

/// A word is the word of at most one format. So `format_word` of the result of `format_name` is the same format.
#[tactic(auto, using(crate::specs::Lemmas::AnswerLemmas::format_word_one))]
pub fn format_word_is_the_one()
    ensures { FormatWordIsTheOne }
{}

/// A word names at most one format. So `format_named` of the result of `format_name` is the same format, of any width.
pub fn format_name_is_the_one()
    ensures { FormatNameIsTheOne }
{}

/// The word of a format, which the programs of lines use, is one of its names.
#[tactic(auto, using(crate::proofs::FormatNameLemmas::word_names))]
pub fn format_word_is_a_name()
    ensures { FormatWordIsAName }
{}

/// A line has at most one answer.
pub fn answer_is_the_one()
    ensures { AnswerIsTheOne }
{}

/// A line has at most one answer if formats are of any width and have any of their names.
pub fn named_answer_is_the_one()
    ensures { NamedAnswerIsTheOne }
{}

/// A line with a task in the words of formats has the same answer if formats have any of their names.
pub fn named_answer_is_the_answer()
    ensures { NamedAnswerIsTheAnswer }
{}

/// A line longer than the kept prefix of a line is answered like that prefix.
pub fn long_is_answered_by_prefix()
    ensures { LongIsAnsweredByPrefix }
{}

/// A word without a slash names a policy and a mode exactly if it is the policy's own word and the mode is NearestEven.
#[tactic(auto, using(crate::specs::Lemmas::AnswerLemmas::plain_word))]
pub fn plain_word_names_nearest()
    ensures { PlainWordNamesNearest }
{}

/// A line with a task and no slash in its fourth field requests the policy of that name, with the mode NearestEven.
#[tactic(auto, using(crate::specs::Lemmas::AnswerLemmas::plain_line))]
pub fn plain_line_asks_nearest()
    ensures { PlainLineAsksNearest }
{}

/// A line without a slash in its fourth field is answered as if mode words did not exist: it has exactly the answers
/// that it has if a fourth field names a policy only by the policy's own word, with the mode NearestEven. The same
/// holds for a line without a fourth field.
pub fn plain_line_has_the_plain_answer()
    ensures { PlainLineHasThePlainAnswer }
{}

/// Bytes are split at the first byte of a kind in one way.
pub fn split_is_the_one()
    ensures { SplitIsTheOne }
{}

/// The generated lines have one summary.
pub fn summary_is_the_one()
    ensures { SummaryIsTheOne }
{}

/// The first seven lines of the self test, as texts.
pub fn self_test_begins_with_these_lines()
    ensures { SelfTestBegins }
{}

/// The count of failed writes says how a self test ended, and if none failed, it wrote one text.
#[tactic(auto, using(crate::proofs::SelfLawLemmas::self_run_one))]
pub fn self_run_is_the_one()
    ensures { SelfRunIsTheOne }
{}

/// A word names at most one policy and one mode.
#[tactic(auto, using(crate::specs::Lemmas::AnswerLemmas::policy_word_one))]
pub fn policy_word_is_the_one()
    ensures { PolicyWordIsTheOne }
{}

/// Arguments request at most one command.
#[tactic(auto, using(crate::proofs::CommandLemmas::command_one))]
pub fn command_is_the_one()
    ensures { CommandIsTheOne }
{}
