//! The program and its arguments.

ghost use Rattle.std.specs.Prelude.{◌≡◌, ◌≤◌, ◌<◌, ◌⊎◌, List, ℕ, Some, length};
ghost use Rattle.line_engine.specs.AnswerText.{AnswerText};
ghost use Rattle.line_engine.specs.Asked.{AskedWithin};
ghost use Rattle.line_engine.specs.Failures.{HasFailed};
ghost use Rattle.line_engine.specs.Appended.{AppendsPrefix};
ghost use Rattle.line_engine.specs.Run.{HasFailures, WritesText};
ghost use Rattle.line_engine.specs.WholeRun.{EndsBeforeWriting, HasWholeRun, WritesAnswer};
ghost use Rattle.fixed_columns.specs.Answer.{IsWholeAnswer};
ghost use Rattle.fixed_columns.specs.Program.{AsksWithin, IsUsageFault, usage_line};

use crate::command::asked_limit;
use crate::rule::ColumnsRule;
use fixed_steps::Steps;
use line_engine::{Sink, Source, Status, run_whole, write_text};
use std::alloc::Global;
use std::sync::ledger::Ledger;

/// The usage line.
const USAGE: &[u8] = b"usage: columns_tool\n";

/// Answers an input with the column of its cells in order, or with its first fault.
///
/// Without arguments the input has at most 1,048,576 bytes, and with `limit N` at most N, from 1 to 4,294,967,296. N is
/// in decimal, without a sign or a leading zero. For other arguments it writes the usage line and reads nothing. It
/// allocates 1,048,577 bytes before the first read, more as a longer input grows, and memory for the cells and the
/// answer.
pub fn run_columns<S: Source, K: Sink, L: Ledger>(
    alloc: Global,
    words: &[String],
    source: &mut S,
    sink: &mut K,
    steps: &mut Steps<L>,
) -> Status
    // For every input within the limit, without a failed read or write, the run writes the column of its cells in order
    // or its first fault, and nothing else; or there was no memory.
    ensures output { (limit : ℕ) → AsksWithin words.now limit → (input : List ℕ) → S.left source.old ≡ Some input
        → length input ≤ limit
        → ¬ HasFailed (S.failures source.old) (S.failures source.new)
        → ¬ HasFailed (K.failures sink.old) (K.failures sink.new)
        → (result ≡ Status.NoMemory)
        ⊎ WritesAnswer IsWholeAnswer input (K.written sink.old) (K.written sink.new) result }

    // A longer input is reported.
    ensures too_long { (limit : ℕ) → AsksWithin words.now limit → (input : List ℕ) → S.left source.old ≡ Some input
        → limit < length input
        → ¬ HasFailed (S.failures source.old) (S.failures source.new)
        → ¬ HasFailed (K.failures sink.old) (K.failures sink.new)
        → (result ≡ Status.NoMemory) ⊎ (result ≡ Status.TooLong) }

    // The bytes read and written, by status, also after a failed read or write.
    ensures run { (limit : ℕ) → AsksWithin words.now limit
        → HasWholeRun IsWholeAnswer limit (S.left source.old) (S.left source.new) (K.written sink.old)
        (K.written sink.new) result }
    ensures prefix_on_write_fault { (limit : ℕ) → AsksWithin words.now limit → result ≡ Status.WriteFault
        → (input : List ℕ) (answer : AnswerText) → S.left source.old ≡ Some input
        → IsWholeAnswer input answer → AppendsPrefix (K.written sink.old) (K.written sink.new) answer.text }

    // A run with a failed read, an input that is too long or no memory left the sink as it was.
    ensures unwritten { EndsBeforeWriting result → sink.new ≡ sink.old }

    // No read requested more than the limit and one byte less those taken, or more than 4,096.
    ensures asked { (limit : ℕ) → AsksWithin words.now limit
        → AskedWithin limit (S.asked source.old) (S.asked source.new) }

    // Invalid arguments.
    ensures usage { IsUsageFault words.now
        → WritesText usage_line Status.Usage (K.written sink.old) (K.written sink.new) (K.failures sink.old)
        (K.failures sink.new) result }
    ensures usage_only { result ≡ Status.Usage → IsUsageFault words.now }
    ensures untouched { IsUsageFault words.now → source.new ≡ source.old }

    // Which count of failures rose, by status.
    ensures failures { HasFailures (S.failures source.old) (S.failures source.new) (K.failures sink.old)
        (K.failures sink.new) result }
{
    match asked_limit(words) {
        Some(limit) => run_whole(alloc, limit, &ColumnsRule, source, sink, steps),
        None => write_text(USAGE, Status::Usage, sink),
    }
}
