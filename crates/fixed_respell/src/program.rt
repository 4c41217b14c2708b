//! The program: it does what its arguments request.

ghost use Rattle.std.specs.Prelude.{◌≡◌, ◌≤◌, ◌<◌, ◌⊎◌, List, ℕ, Some, length};
ghost use Rattle.fixed_respell.specs.Answer.{IsAnswer};
ghost use Rattle.line_engine.specs.Asked.{AskedWithin};
ghost use Rattle.line_engine.specs.Failures.{HasFailed};
ghost use Rattle.fixed_respell.specs.Command.{IsCommand, IsUsageFault, usage_line};
ghost use Rattle.line_engine.specs.Lines.{lines};
ghost use Rattle.line_engine.specs.Output.{AppendsPrefix, AreAnswers, written_of};
ghost use Rattle.line_engine.specs.AnswerText.{AnswerText};
ghost use Rattle.line_engine.specs.Run.{HasFailures, HasRun, Spends, WritesOutput, WritesText};
ghost use Rattle.fixed_respell.specs.SelfMode.{HasSelfRun};
ghost use Rattle.fixed_respell.specs.declared.command.Command.TheVariants.{Read, SelfTest};

use crate::command::{Command, read_command};
use crate::self_mode::run_self;
use crate::{RespellRule, Sink, Source, Status};
use fixed_steps::Steps;
use line_engine::write_text;
use run_engine::run_lines;
use std::alloc::Global;
use std::sync::ledger::Ledger;

/// The usage line.
const USAGE: &[u8] = b"usage: fixed_tool [limit N | self N]\n";

/// Does what the arguments request.
///
/// Without arguments it answers the lines of an input of at most 4,294,967,296 bytes, and with `limit N` those of an
/// input of at most N bytes, from 1 to 4,294,967,296. With `self N`, from 1 to 1,000,000, it sums up the answers to N
/// generated lines and reads nothing. For other arguments it writes the usage line. N is in decimal, without a sign or
/// a leading zero. Only a run that reads takes memory, for one line buffer before the first read.
pub fn run<S: Source, K: Sink, L: Ledger>(
    alloc: Global,
    args: &[String],
    source: &mut S,
    sink: &mut K,
    steps: &mut Steps<L>,
) -> Status
    // For every input within the limit, with no failed read or write, the run writes for each line, in order, its
    // answer and a newline, and nothing else. The status says whether an answer is a fault. Or there was no memory.
    ensures output { (limit : ℕ) → IsCommand args.now (Read limit) → (input : List ℕ) → S.left source.old ≡ Some input
        → length input ≤ limit
        → ¬ HasFailed (S.failures source.old) (S.failures source.new)
        → ¬ HasFailed (K.failures sink.old) (K.failures sink.new)
        → (result ≡ Status.NoMemory) ⊎ WritesOutput IsAnswer input (K.written sink.old) (K.written sink.new) result }

    // A longer input is reported.
    ensures too_long { (limit : ℕ) → IsCommand args.now (Read limit) → (input : List ℕ) → S.left source.old ≡ Some input
        → limit < length input
        → ¬ HasFailed (S.failures source.old) (S.failures source.new)
        → ¬ HasFailed (K.failures sink.old) (K.failures sink.new)
        → (result ≡ Status.NoMemory) ⊎ (result ≡ Status.TooLong) }

    // What was read and written, by status, even after a failed read or write.
    ensures run { (limit : ℕ) → IsCommand args.now (Read limit)
        → HasRun IsAnswer limit (S.left source.old) (S.left source.new) (K.written sink.old)
        (K.written sink.new) result }
    ensures prefix_on_write_fault { (limit : ℕ) → IsCommand args.now (Read limit) → result ≡ Status.WriteFault
        → (input : List ℕ) (replies : List AnswerText) → S.left source.old ≡ Some input
        → AreAnswers IsAnswer (lines input) replies → AppendsPrefix (K.written sink.old) (K.written sink.new)
        (written_of replies) }
    ensures cost { (limit : ℕ) → IsCommand args.now (Read limit)
        → Spends limit 8 624 (S.left source.old) (S.left source.new) steps.old steps.new }

    // No read requested more than limit + 1 bytes less those taken, or more than 4,096.
    ensures asked { (limit : ℕ) → IsCommand args.now (Read limit)
        → AskedWithin limit (S.asked source.old) (S.asked source.new) }

    // The generated lines.
    ensures self_test { (count : ℕ) → IsCommand args.now (SelfTest count)
        → HasSelfRun count (K.written sink.old) (K.written sink.new) (K.failures sink.old)
        (K.failures sink.new) result }

    // Other arguments.
    ensures usage { IsUsageFault args.now
        → WritesText usage_line Status.Usage (K.written sink.old) (K.written sink.new) (K.failures sink.old)
        (K.failures sink.new) result }
    ensures usage_only { result ≡ Status.Usage → IsUsageFault args.now }

    // Which count of failures rose, by status; and what was left unchanged.
    ensures failures { HasFailures (S.failures source.old) (S.failures source.new) (K.failures sink.old)
        (K.failures sink.new) result }
    ensures untouched { ((limit : ℕ) → ¬ IsCommand args.now (Read limit)) → source.new ≡ source.old }
    ensures memory { result ≡ Status.NoMemory → (source.new ≡ source.old) × (sink.new ≡ sink.old)
        × (steps.new ≡ steps.old) }
{
    match read_command(args) {
        Some(Command::Read(limit)) => run_lines(alloc, limit, &RespellRule, source, sink, steps),
        Some(Command::SelfTest(count)) => run_self(count, sink, steps),
        None => write_text(USAGE, Status::Usage, sink),
    }
}
