//! The program with all its forms, and its arguments.

ghost use Rattle.std.specs.Prelude.{◌≡◌, ◌≤◌, ◌<◌, ◌⊎◌, ◌↔◌, IsTrue, List, ℕ, Some, length, MatchOption};
ghost use Rattle.line_engine.specs.AnswerText.{AnswerText};
ghost use Rattle.line_engine.specs.Asked.{AskedWithin};
ghost use Rattle.line_engine.specs.Failures.{HasFailed};
ghost use Rattle.line_engine.specs.Appended.{AppendsPrefix};
ghost use Rattle.line_engine.specs.Run.{HasFailures, WritesText};
ghost use Rattle.line_engine.specs.WholeRun.{EndsBeforeWriting, HasWholeRun, WritesAnswer};
ghost use Rattle.fixed_constants.specs.Forms.{IsFormAnswer};
ghost use Rattle.fixed_constants.specs.Program.{IsUsageFault, IsGuard, NamesForm, NamesLanguage, usage_line};
ghost use Rattle.fixed_constants.specs.declared.form.Form.{Form};

use crate::declaration::is_name;
use crate::form::{Form, is_reserved};
use crate::form_rule::FormRule;
use fixed_steps::Steps;
use line_engine::{MAX_WHOLE, Sink, Source, Status, run_whole, write_text};
use std::alloc::Global;
use std::sync::ledger::Ledger;

/// The usage line.
const USAGE: &[u8] = b"usage: constants_tool [c [GUARD] | rust]\n";

/// Whether a word can guard a header: it is a name, and C does not reserve it.
pub fn is_guard(word: &[u8]) -> bool
    ensures { IsTrue result ↔ IsGuard word.now }
{
    is_name(word) && !is_reserved(Form::C, b"", word)
}

/// Returns the form of the language that a word names, if any.
fn language_form(word: &[u8]) -> Option<Form>
    ensures { MatchOption result ((f : Form) → ¬ NamesLanguage word.now f) (λ f. NamesLanguage word.now f) }
{
    match word {
        b"c" => Some(Form::C),
        b"rust" => Some(Form::Rust),
        _ => None,
    }
}

/// Returns the form that the arguments name, and the guard of its header. `None`: the arguments are invalid.
fn form_of(words: &[String]) -> Option<FormRule<'_>>
    ensures { MatchOption result (IsUsageFault words.now) (λ r. NamesForm words.now r.form r.guard.now) }
{
    match words {
        [] => Some(FormRule {
            form: Form::Canonical,
            guard: b"",
        }),
        [word] => match language_form(word.as_bytes()) {
            Some(form) => Some(FormRule { form, guard: b"" }),
            None => None,
        },
        [word, guard] if word.as_bytes() == b"c".as_slice() && is_guard(guard.as_bytes()) => {
            Some(FormRule {
                form: Form::C,
                guard: guard.as_bytes(),
            })
        }
        _ => None,
    }
}

/// Answers a constants file of at most 1,048,576 bytes in the form that the arguments name, or with its first fault.
///
/// No argument means the canonical form, `c` a C header without a guard, `c` and a name a header with this guard, and
/// `rust` Rust. For other arguments it writes the usage line and reads nothing. It allocates 1,048,577 bytes before the
/// first read, and memory for the constants and the answer.
pub fn run_constants<S: Source, K: Sink, L: Ledger>(
    alloc: Global,
    words: &[String],
    source: &mut S,
    sink: &mut K,
    steps: &mut Steps<L>,
) -> Status
    // For every input within the limit, without a failed read or write, the run writes its constants in the form or its
    // first fault, and nothing else; or there was no memory.
    ensures output { (f : Form) (g : List ℕ) → NamesForm words.now f g → (input : List ℕ)
        → S.left source.old ≡ Some input → length input ≤ 1048576
        → ¬ HasFailed (S.failures source.old) (S.failures source.new)
        → ¬ HasFailed (K.failures sink.old) (K.failures sink.new)
        → (result ≡ Status.NoMemory)
        ⊎ WritesAnswer (IsFormAnswer f g) input (K.written sink.old) (K.written sink.new) result }

    // A longer input is reported.
    ensures too_long { (f : Form) (g : List ℕ) → NamesForm words.now f g → (input : List ℕ)
        → S.left source.old ≡ Some input → 1048576 < length input
        → ¬ HasFailed (S.failures source.old) (S.failures source.new)
        → ¬ HasFailed (K.failures sink.old) (K.failures sink.new)
        → (result ≡ Status.NoMemory) ⊎ (result ≡ Status.TooLong) }

    // The bytes read and written, by status, also after a failed read or write.
    ensures run { (f : Form) (g : List ℕ) → NamesForm words.now f g
        → HasWholeRun (IsFormAnswer f g) 1048576 (S.left source.old) (S.left source.new) (K.written sink.old)
        (K.written sink.new) result }
    ensures prefix_on_write_fault { (f : Form) (g : List ℕ) → NamesForm words.now f g → result ≡ Status.WriteFault
        → (input : List ℕ) (answer : AnswerText)
        → S.left source.old ≡ Some input → IsFormAnswer f g input answer
        → AppendsPrefix (K.written sink.old) (K.written sink.new) answer.text }

    // A run with a failed read, an input that is too long or no memory left the sink as it was.
    ensures unwritten { EndsBeforeWriting result → sink.new ≡ sink.old }

    // No read requested more than the limit and one byte less those taken, or more than 4,096.
    ensures asked { (f : Form) (g : List ℕ) → NamesForm words.now f g
        → AskedWithin 1048576 (S.asked source.old) (S.asked source.new) }

    // Invalid arguments.
    ensures usage { IsUsageFault words.now
        → WritesText usage_line Status.Usage (K.written sink.old) (K.written sink.new) (K.failures sink.old)
        (K.failures sink.new) result }
    ensures usage_only { result ≡ Status.Usage → IsUsageFault words.now }
    ensures untouched { IsUsageFault words.now → source.new ≡ source.old }

    // Which count of failures rose, by status.
    ensures failures { HasFailures (S.failures source.old) (S.failures source.new) (K.failures sink.old)
        (K.failures sink.new) result }
{
    match form_of(words) {
        Some(rule) => run_whole(alloc, MAX_WHOLE, &rule, source, sink, steps),
        None => write_text(USAGE, Status::Usage, sink),
    }
}
