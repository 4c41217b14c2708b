//! The program: its arguments and its run.

ghost use Rattle.std.specs.Prelude.{◌≡◌, ◌≤◌, ◌<◌, ◌⊎◌, List, ℕ, Some, length, MatchOption};
ghost use Rattle.fixed_numeral.specs.declared.radix.Radix.{Radix};
ghost use Rattle.line_engine.specs.AnswerText.{AnswerText};
ghost use Rattle.line_engine.specs.Asked.{AskedWithin};
ghost use Rattle.line_engine.specs.Failures.{HasFailed};
ghost use Rattle.line_engine.specs.Appended.{AppendsPrefix};
ghost use Rattle.line_engine.specs.Run.{HasFailures, WritesText};
ghost use Rattle.line_engine.specs.WholeRun.{EndsBeforeWriting, HasWholeRun, WritesAnswer};
ghost use Rattle.fixed_least.specs.Least.{IsWholeAnswer};
ghost use Rattle.fixed_least.specs.Program.{IsUsageFault, NamesRadix, usage_line};

use crate::rule::LeastRule;
use fixed_numeral::Radix;
use fixed_respell::radix_word;
use fixed_steps::Steps;
use line_engine::{MAX_WHOLE, Sink, Source, Status, run_whole, write_text};
use std::alloc::Global;
use std::sync::ledger::Ledger;

/// The usage line.
const USAGE: &[u8] = b"usage: least_tool [RADIX]\n";

/// Returns the radix that the arguments name, 10 if there are none. `None` if they do not name one.
fn radix_of(words: &[String]) -> Option<Radix>
    ensures { MatchOption result (IsUsageFault words.now) (λ r. NamesRadix words.now r) }
{
    match words {
        [] => Some(Radix::Dec),
        [word] => radix_word(word.as_bytes()),
        _ => None,
    }
}

/// Answers an input of at most 1,048,576 bytes with the least format that holds each of its lines exactly.
///
/// No argument or one radix word names the radix of the numerals, 10 if there is none. For other arguments it writes
/// the usage line and reads nothing. It allocates 1,048,577 bytes before the first read, and the answer.
pub fn run_least<S: Source, K: Sink, L: Ledger>(
    alloc: Global,
    words: &[String],
    source: &mut S,
    sink: &mut K,
    steps: &mut Steps<L>,
) -> Status
    // For every input within the limit, with no failed read or write, the run writes the outcome of its lines, and
    // nothing else; or there was no memory.
    ensures output { (r : Radix) → NamesRadix words.now r → (input : List ℕ) → S.left source.old ≡ Some input
        → length input ≤ 1048576
        → ¬ HasFailed (S.failures source.old) (S.failures source.new)
        → ¬ HasFailed (K.failures sink.old) (K.failures sink.new)
        → (result ≡ Status.NoMemory)
        ⊎ WritesAnswer (IsWholeAnswer r) input (K.written sink.old) (K.written sink.new) result }

    // A longer input is reported.
    ensures too_long { (r : Radix) → NamesRadix words.now r → (input : List ℕ) → S.left source.old ≡ Some input
        → 1048576 < length input
        → ¬ HasFailed (S.failures source.old) (S.failures source.new)
        → ¬ HasFailed (K.failures sink.old) (K.failures sink.new)
        → (result ≡ Status.NoMemory) ⊎ (result ≡ Status.TooLong) }

    // What was read and written, by status, also after a failed read or write.
    ensures run { (r : Radix) → NamesRadix words.now r
        → HasWholeRun (IsWholeAnswer r) 1048576 (S.left source.old) (S.left source.new) (K.written sink.old)
        (K.written sink.new) result }
    ensures prefix_on_write_fault { (r : Radix) → NamesRadix words.now r → result ≡ Status.WriteFault
        → (input : List ℕ) (answer : AnswerText)
        → S.left source.old ≡ Some input
        → IsWholeAnswer r input answer → AppendsPrefix (K.written sink.old) (K.written sink.new) answer.text }

    // A run that ended before its input did, or for lack of memory, left the sink unchanged.
    ensures unwritten { EndsBeforeWriting result → sink.new ≡ sink.old }

    // What reads requested: none requested more than the limit and one byte, less the bytes read, or more than 4,096.
    ensures asked { (r : Radix) → NamesRadix words.now r
        → AskedWithin 1048576 (S.asked source.old) (S.asked source.new) }

    // Other arguments.
    ensures usage { IsUsageFault words.now
        → WritesText usage_line Status.Usage (K.written sink.old) (K.written sink.new) (K.failures sink.old)
        (K.failures sink.new) result }
    ensures usage_only { result ≡ Status.Usage → (r : Radix) → ¬ NamesRadix words.now r }
    ensures untouched { IsUsageFault words.now → source.new ≡ source.old }

    // Which count of failures rose, by status.
    ensures failures { HasFailures (S.failures source.old) (S.failures source.new) (K.failures sink.old)
        (K.failures sink.new) result }
{
    match radix_of(words) {
        Some(radix) => run_whole(alloc, MAX_WHOLE, &LeastRule { radix }, source, sink, steps),
        None => write_text(USAGE, Status::Usage, sink),
    }
}
