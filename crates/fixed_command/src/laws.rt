//! Laws of the definitions. Each is the contract of a function that does nothing.

ghost use Rattle.fixed_command.specs.Explained.{BytesAreTheOnes, OverflowIsTheOne};
ghost use Rattle.fixed_command.specs.Laws.{OutcomeIsTheOne, PrintedBitsAreWords};
ghost use Rattle.fixed_command.specs.LineBlocks.{LineBlockIsTheOne};
ghost use Rattle.fixed_command.specs.NameLaws.{NamesAreTheOnes};
ghost use Rattle.fixed_command.specs.Rejects.{RejectsAreTheLines};
ghost use Rattle.fixed_command.specs.RunLaws.{
  BlocksEndIsTheOne,
  FirstRefusedIsTheOne,
  LineReplyIsTheOne,
  LineRunIsTheOne,
  ReplyIsTheOne,
  WholeRunIsTheOne,
};
ghost use Rattle.fixed_command.specs.ShownNames.{ShownNamesAreNames};

use line_engine::{Sink, WholeRule};
use line_rejects::Rejects;
use run_engine::Rule;
use std::sync::ledger::Ledger;

/// Bits printed in decimal or hexadecimal are read back as the same bits.
pub fn printed_bits_are_words()
    ensures { PrintedBitsAreWords }
{}

/// A numeral, and a line, has at most one reply.
pub fn reply_is_the_one()
    ensures numeral { ReplyIsTheOne }
    ensures line { LineReplyIsTheOne }
{}

/// At most one operand is the first refused one, and it has one cause.
pub fn first_refused_is_the_one()
    ensures { FirstRefusedIsTheOne }
{}

/// A line of an input has one block, and one object.
pub fn line_block_is_the_one()
    ensures { LineBlockIsTheOne }
{}

/// The operands and the count of failures determine how a run over operands ended.
pub fn blocks_end_is_the_one()
    ensures { BlocksEndIsTheOne }
{}

/// Two runs of a rule over lines on one input within the limit, with memory and without failures, write the same and
/// end alike.
pub fn line_run_is_the_one<R: Rule<L>, L: Ledger>(_rule: &R)
    ensures { LineRunIsTheOne (R.Answers _rule.now) }
{}

/// So do two runs of a rule over whole inputs.
pub fn whole_run_is_the_one<R: WholeRule<L>, L: Ledger>(_rule: &R)
    ensures { WholeRunIsTheOne (R.Answers _rule.now) }
{}

/// The value of an option names at most one radix, policy, mode, spelling or part of an answer.
pub fn names_are_the_ones()
    ensures { NamesAreTheOnes }
{}

/// The names that are shown of a format in HLS, VHDL and MATLAB are read as that format.
pub fn shown_names_are_names()
    ensures { ShownNamesAreNames }
{}

/// A conversion has one outcome for each numeral.
pub fn outcome_is_the_one()
    ensures { OutcomeIsTheOne }
{}

/// The explanation of an invalid byte of a numeral or a field is one text.
#[tactic(auto, using(crate::proofs::ExplainLawLemmas::bytes_one))]
pub fn bytes_are_the_ones()
    ensures { BytesAreTheOnes }
{}

/// The explanation of an overflow is one text.
pub fn overflow_is_the_one()
    ensures { OverflowIsTheOne }
{}

/// Rejects that saw the lines of a run got one line for each refused line, in order, and nothing else; if a write
/// failed, a prefix of these was written.
pub fn rejects_are_the_lines<N, C, J: Sink>(_rejects: &Rejects<'_, J>, _note: &N, _cause: &C)
    ensures { RejectsAreTheLines N C J.written J.failures _rejects.now }
{}
