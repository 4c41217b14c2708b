//! The whole-input engine: an input in, its answer out, by any rule. Nothing is written before the input was read to
//! its end and answered.

ghost use Rattle.std.specs.Prelude.{◌≡◌, ◌≤◌, ◌<◌, ◌⊎◌, [], List, ℕ, IfErr, IfOk, OnOk, Some, length};
ghost use Rattle.line_engine.specs.AnswerText.{AnswerText};
ghost use Rattle.line_engine.specs.Asked.{AskedWithin};
ghost use Rattle.line_engine.specs.Failures.{HasFailed};
ghost use Rattle.line_engine.specs.Appended.{AppendsPrefix};
ghost use Rattle.line_engine.specs.Run.{HasFailures};
ghost use Rattle.line_engine.specs.Filled.{HasFilled};
ghost use Rattle.line_engine.specs.Inner.Whole.{StopsReading, WritesWhole};
ghost use Rattle.line_engine.specs.Program.{outside};
ghost use Rattle.line_engine.specs.Refusals.{IsWritten, TellsRefusal, reply_of};
ghost use Rattle.line_engine.specs.WholeRun.{EndsBeforeWriting, HasWholeRun, IsWholeRun, WritesAnswer};

use crate::refusal::{WholeRefusal, written_refusal};
use crate::whole::{Filled, Whole};
use crate::whole_rule::{WholeAnswer, WholeRule};
use crate::writing::write_text;
use crate::{Sink, Source, Status};
use fixed_steps::Steps;
use std::alloc::Global;
use std::sync::ledger::Ledger;

/// How a run over a whole input ended.
#[derive(Drop)]
pub struct WholeEnd {
    /// Its status: `Faults` if the input was refused.
    pub status: Status,
    /// The line for which the input was refused, if it was.
    pub refusal: Option<WholeRefusal>,
}

/// Reads an input to its end and answers it, or returns how the run ended.
fn answer_input<R: WholeRule<L>, S: Source, L: Ledger>(
    alloc: Global,
    limit: u64,
    rule: &R,
    whole: &mut Whole,
    source: &mut S,
    steps: &mut Steps<L>,
) -> Result<WholeAnswer, Status>
    requires most { limit ≤ 4294967296 }
    requires empty { whole.old ≡ [] }
    ensures answer { IfOk result (λ answer. R.Answers rule.now whole.new (reply_of answer)) }
    ensures taken { OnOk result (HasFilled limit (S.left source.old) (S.left source.new) (S.failures source.old)
        (S.failures source.new) whole.new Filled.End) }
    ensures stop { IfErr result (StopsReading limit (S.left source.old) (S.left source.new) (S.failures source.old)
        (S.failures source.new)) }
    ensures asked { AskedWithin limit (S.asked source.old) (S.asked source.new) }
{
    match whole.fill_within(limit, source) {
        Err(_) => return Err(Status::NoMemory),
        Ok(Filled::ReadFault) => return Err(Status::ReadFault),
        Ok(Filled::TooLong) => return Err(Status::TooLong),
        Ok(Filled::End) => {}
    }
    match rule.answer(alloc, whole.as_bytes(), steps) {
        Ok(answer) => Ok(answer),
        Err(_) => Err(Status::NoMemory),
    }
}

/// Writes the answer to an input. A refusal is written only if `writes_refusal`.
fn write_answer<K: Sink>(
    alloc: Global,
    answer: WholeAnswer,
    writes_refusal: bool,
    input: &[u8],
    sink: &mut K,
) -> WholeEnd
    ensures writes { WritesWhole writes_refusal answer input.now (K.written sink.old) (K.written sink.new)
        (K.failures sink.old) (K.failures sink.new) result.status result.refusal }
    ensures untouched { result.status ≡ Status.NoMemory → sink.new ≡ sink.old }
{
    match answer {
        WholeAnswer::Text(text) => WholeEnd {
            status: write_text(&text, Status::Done, sink),
            refusal: None,
        },
        WholeAnswer::Refused { number, cause } => {
            match written_refusal(alloc, writes_refusal, number, &cause) {
                Err(_) => WholeEnd {
                    status: Status::NoMemory,
                    refusal: None,
                },
                Ok(text) => WholeEnd {
                    status: write_text(&text, Status::Faults, sink),
                    refusal: Some(WholeRefusal::new(input, number, cause)),
                },
            }
        }
    }
}

/// Does what `run_whole` does, and tells for which line the input is refused. Unless `writes_refusal`, nothing is
/// written for a refused input.
pub fn answer_whole<R: WholeRule<L>, S: Source, K: Sink, L: Ledger>(
    alloc: Global,
    limit: u64,
    rule: &R,
    writes_refusal: bool,
    source: &mut S,
    sink: &mut K,
    steps: &mut Steps<L>,
) -> WholeEnd
    requires most { limit ≤ 4294967296 }

    // What was read and written, and how the run ended.
    ensures run { IsWholeRun (IsWritten writes_refusal (R.Answers rule.now)) limit
        (outside (S.left source.old) (S.asked source.old) (S.failures source.old)
        (K.written sink.old) (K.failures sink.old) steps.old)
        (outside (S.left source.new) (S.asked source.new) (S.failures source.new)
        (K.written sink.new) (K.failures sink.new) steps.new) result.status }

    // The line for which the input is refused, if it is.
    ensures refusal { TellsRefusal (R.Answers rule.now) (S.left source.old) (S.left source.new) result.status
        result.refusal }

    // A run with a failed read, an input that is too long or no memory left the sink as it was.
    ensures untouched { EndsBeforeWriting result.status → sink.new ≡ sink.old }
{
    let mut whole = match Whole::new(alloc) {
        Err(_) => {
            return WholeEnd {
                status: Status::NoMemory,
                refusal: None,
            };
        }
        Ok(whole) => whole,
    };
    match answer_input(alloc, limit, rule, &mut whole, source, steps) {
        Err(status) => WholeEnd {
            status,
            refusal: None,
        },
        Ok(answer) => write_answer(alloc, answer, writes_refusal, whole.as_bytes(), sink),
    }
}

/// Reads an input to its end, answers it by a rule, and writes the answer.
///
/// The limit is in bytes, at most 4,294,967,296. Memory for 1,048,577 bytes of input is allocated first; if that fails,
/// the status is `NoMemory` and nothing is read. With a limit of at most 1,048,576 no further memory is allocated for
/// the input; with a greater one it is allocated as the input grows. Nothing is written before the input was read to
/// its end and answered: a longer input, a failed read and missing memory leave the sink as it is.
pub fn run_whole<R: WholeRule<L>, S: Source, K: Sink, L: Ledger>(
    alloc: Global,
    limit: u64,
    rule: &R,
    source: &mut S,
    sink: &mut K,
    steps: &mut Steps<L>,
) -> Status
    requires most { limit ≤ 4294967296 }

    // The bytes read and written, by status.
    ensures run { HasWholeRun (R.Answers rule.now) limit (S.left source.old) (S.left source.new) (K.written sink.old)
        (K.written sink.new) result }

    // Which count of failures rose, by status.
    ensures failures { HasFailures (S.failures source.old) (S.failures source.new) (K.failures sink.old)
        (K.failures sink.new) result }

    // If no count rose, the answer to an input within the limit is written, and the status says whether it is a fault;
    // or there was no memory.
    ensures output { (input : List ℕ) → S.left source.old ≡ Some input → length input ≤ limit
        → ¬ HasFailed (S.failures source.old) (S.failures source.new)
        → ¬ HasFailed (K.failures sink.old) (K.failures sink.new)
        → (result ≡ Status.NoMemory)
        ⊎ WritesAnswer (R.Answers rule.now) input (K.written sink.old) (K.written sink.new) result }

    // A longer input is reported as too long.
    ensures too_long { (input : List ℕ) → S.left source.old ≡ Some input → limit < length input
        → ¬ HasFailed (S.failures source.old) (S.failures source.new)
        → ¬ HasFailed (K.failures sink.old) (K.failures sink.new)
        → (result ≡ Status.NoMemory) ⊎ (result ≡ Status.TooLong) }

    // If a write failed, a prefix of the answer was written.
    ensures prefix_on_write_fault { result ≡ Status.WriteFault → (input : List ℕ) (answer : AnswerText)
        → S.left source.old ≡ Some input
        → R.Answers rule.now input answer → AppendsPrefix (K.written sink.old) (K.written sink.new) answer.text }

    // A run with a failed read, an input that is too long or no memory left the sink as it was.
    ensures untouched { EndsBeforeWriting result → sink.new ≡ sink.old }

    // No read requested more than limit + 1 bytes less those taken, or more than 4,096.
    ensures asked { AskedWithin limit (S.asked source.old) (S.asked source.new) }
{
    answer_whole(alloc, limit, rule, true, source, sink, steps).status
}
