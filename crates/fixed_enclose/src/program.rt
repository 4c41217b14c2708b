//! The program: its arguments and its run.

ghost use Rattle.std.specs.Prelude.{◌≡◌, ◌≤◌, ◌<◌, ◌⊎◌, List, ℕ, [], Some, length};
ghost use Rattle.line_engine.specs.AnswerText.{AnswerText};
ghost use Rattle.line_engine.specs.Asked.{AskedWithin};
ghost use Rattle.line_engine.specs.Failures.{HasFailed};
ghost use Rattle.line_engine.specs.Lines.{lines};
ghost use Rattle.line_engine.specs.Output.{AreAnswers, written_of, WritesOutput};
ghost use Rattle.line_engine.specs.Appended.{AppendsPrefix};
ghost use Rattle.line_engine.specs.Run.{HasFailures, HasRun, Spends, WritesText};
ghost use Rattle.fixed_enclose.specs.Answer.{IsAnswer, usage_line};

use crate::rule::EncloseRule;
use fixed_steps::Steps;
use line_engine::{MAX_LIMIT, Sink, Source, Status, write_text};
use run_engine::run_lines;
use std::alloc::Global;
use std::sync::ledger::Ledger;

/// The usage line.
const USAGE: &[u8] = b"usage: enclose_tool\n";

/// Answers each line of an input of at most 4,294,967,296 bytes with the two values of its format that enclose its
/// numeral. It takes no arguments: if there is one, it writes the usage line and reads nothing. It allocates one line
/// buffer before the first read.
pub fn run_enclose<S: Source, K: Sink, L: Ledger>(
    alloc: Global,
    words: &[String],
    source: &mut S,
    sink: &mut K,
    steps: &mut Steps<L>,
) -> Status
    // For every input within the limit, with no failed read or write, the run writes for each line, in order and
    // nothing else, its answer and a newline, and the status says whether an answer is a fault; or there was no memory.
    ensures output { words.now ≡ [] → (input : List ℕ) → S.left source.old ≡ Some input → length input ≤ MAX_LIMIT
        → ¬ HasFailed (S.failures source.old) (S.failures source.new)
        → ¬ HasFailed (K.failures sink.old) (K.failures sink.new)
        → (result ≡ Status.NoMemory) ⊎ WritesOutput IsAnswer input (K.written sink.old) (K.written sink.new) result }

    // A longer input is reported.
    ensures too_long { words.now ≡ [] → (input : List ℕ) → S.left source.old ≡ Some input → MAX_LIMIT < length input
        → ¬ HasFailed (S.failures source.old) (S.failures source.new)
        → ¬ HasFailed (K.failures sink.old) (K.failures sink.new)
        → (result ≡ Status.NoMemory) ⊎ (result ≡ Status.TooLong) }

    // What was read and written, by status, also after a failed read or write.
    ensures run { words.now ≡ []
        → HasRun IsAnswer MAX_LIMIT (S.left source.old) (S.left source.new) (K.written sink.old)
        (K.written sink.new) result }
    ensures prefix_on_write_fault { words.now ≡ [] → result ≡ Status.WriteFault
        → (input : List ℕ) (answers : List AnswerText) → S.left source.old ≡ Some input
        → AreAnswers IsAnswer (lines input) answers
        → AppendsPrefix (K.written sink.old) (K.written sink.new) (written_of answers) }
    ensures cost { words.now ≡ []
        → Spends MAX_LIMIT 16 1248 (S.left source.old) (S.left source.new) steps.old steps.new }

    // What reads requested: none requested more than the limit and one byte, less the bytes read, or more than 4,096.
    ensures asked { words.now ≡ [] → AskedWithin MAX_LIMIT (S.asked source.old) (S.asked source.new) }

    // With an argument.
    ensures usage { ¬ (words.now ≡ [])
        → WritesText usage_line Status.Usage (K.written sink.old) (K.written sink.new) (K.failures sink.old)
        (K.failures sink.new) result }
    ensures usage_only { result ≡ Status.Usage → ¬ (words.now ≡ []) }
    ensures untouched { ¬ (words.now ≡ []) → source.new ≡ source.old }

    // Which count of failures rose, by status; and what was left unchanged.
    ensures failures { HasFailures (S.failures source.old) (S.failures source.new) (K.failures sink.old)
        (K.failures sink.new) result }
    ensures memory { result ≡ Status.NoMemory
        → (source.new ≡ source.old) × (sink.new ≡ sink.old) × (steps.new ≡ steps.old) }
{
    if words.is_empty() {
        run_lines(alloc, MAX_LIMIT, &EncloseRule, source, sink, steps)
    } else {
        write_text(USAGE, Status::Usage, sink)
    }
}
