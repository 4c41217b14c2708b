//! A run over the lines of a source, into a sink.

ghost use Rattle.std.specs.Prelude.{◌≡◌, ◌≤◌, ◌<◌, ◌+◌, ◌⊎◌, ◌^◌, List, ℕ, Some, length};
ghost use Rattle.line_engine.specs.Asked.{AskedWithin};
ghost use Rattle.line_engine.specs.Failures.{HasFailed};
ghost use Rattle.line_engine.specs.Lines.{lines};
ghost use Rattle.line_engine.specs.Output.{AreAnswers, AppendsPrefix, WritesOutput, written_of};
ghost use Rattle.line_engine.specs.AnswerText.{AnswerText};
ghost use Rattle.line_engine.specs.Run.{HasFailures, HasRun, Spends};
ghost use Rattle.line_engine.specs.Program.{outside};
ghost use Rattle.run_engine.specs.LineRun.{HasLinesRun};
ghost use Rattle.run_engine.specs.LineStatus.{IsStatus};
ghost use Rattle.run_engine.specs.Reply.{Returns};

use crate::engine::{End, run};
use crate::gathered::Gathered;
use crate::lines::Lines;
use crate::pieces::Cut;
use crate::rule::LineRule;
use crate::streams::Devices;
use crate::watch::Watch;
use fixed_steps::Steps;
use line_engine::{LineBuffer, Sink, Source, Status};
use std::alloc::Global;
use std::convert::Infallible;
use std::sync::ledger::Ledger;

/// Returns the status of a run over lines with this end.
pub fn status_of(end: End<Infallible>) -> Status
    ensures { IsStatus end result }
{
    match end {
        End::Done => Status::Done,
        End::Faults => Status::Faults,
        End::ReadFault => Status::ReadFault,
        End::WriteFault => Status::WriteFault,
        End::TooLong => Status::TooLong,
        End::NoMemory => Status::NoMemory,
        End::Stopped(never) => match never {},
    }
}

/// How a run over lines ended, and its observer.
#[derive(Drop)]
pub struct LinesEnd<W> {
    /// Its status: `Faults` if a line was refused.
    pub status: Status,
    /// The observer, which was told of each line that was answered.
    pub watch: W,
}

/// Answers each line of a source by a rule, tells an observer, and writes each answer and a newline to a sink, as
/// `run_lines` does.
pub fn run_watched<R: LineRule<L>, W: Watch<R, L> + Drop, S: Source, K: Sink, L: Ledger>(
    alloc: Global,
    limit: u64,
    rule: &R,
    watch: W,
    source: &mut S,
    sink: &mut K,
    steps: &mut Steps<L>,
) -> LinesEnd<W>
    requires most { limit ≤ 2 ^ 62 }

    // What was read, made and written, by status; which count of failures rose; and what the observer was told.
    ensures run { ¬ (result.status ≡ Status.NoMemory) → HasLinesRun rule.now (R.Answers rule.now)
        (Returns (R.Notes rule.now) (R.refusal rule.now)) (W.Saw rule.now) (R.PER_BYTE + W.PER_BYTE)
        (R.EXTRA + W.EXTRA) limit
        (outside (S.left source.old) (S.asked source.old) (S.failures source.old) (K.written sink.old)
        (K.failures sink.old) steps.old)
        (outside (S.left source.new) (S.asked source.new) (S.failures source.new) (K.written sink.new)
        (K.failures sink.new) steps.new) result.status watch result.watch }

    // Without memory, nothing was read or written.
    ensures memory { result.status ≡ Status.NoMemory
        → (source.new ≡ source.old) × (sink.new ≡ sink.old) × (steps.new ≡ steps.old) × (result.watch ≡ watch) }
{
    match LineBuffer::new(alloc) {
        Err(_) => LinesEnd {
            status: Status::NoMemory,
            watch,
        },
        Ok(line) => {
            let mut machine = Cut(Lines {
                rule,
                watch,
                line,
                count: 0,
                has_fault: false,
            });
            let mut out = Gathered::new(Devices { source, sink });
            let end = run(&mut machine, limit, &mut out, steps);
            let Cut(lines) = machine;
            let Lines { watch, .. } = lines;
            LinesEnd {
                status: status_of(end),
                watch,
            }
        }
    }
}

/// Answers each line of a source by a rule, and writes each answer and a newline to a sink.
///
/// It allocates one line buffer of 1,048,577 bytes, and returns `NoMemory` if that fails; afterwards it allocates
/// nothing. Each read requests at most 4,096 bytes, and at most limit + 1 bytes less those already taken. The answers
/// to the lines that ended in a chunk are written before the next chunk is read. `Lines` defines lines.
///
/// The limit is in bytes, at most 2^62.
pub fn run_lines<R: LineRule<L>, S: Source, K: Sink, L: Ledger>(
    alloc: Global,
    limit: u64,
    rule: &R,
    source: &mut S,
    sink: &mut K,
    steps: &mut Steps<L>,
) -> Status
    requires most { limit ≤ 2 ^ 62 }

    // The bytes read and written, by status.
    ensures run { HasRun (R.Answers rule.now) limit (S.left source.old) (S.left source.new) (K.written sink.old)
        (K.written sink.new) result }

    // Which count of failures rose, by status.
    ensures failures { HasFailures (S.failures source.old) (S.failures source.new) (K.failures sink.old)
        (K.failures sink.new) result }

    // If no count rose, an input within the limit is answered whole, and the status says whether a line was refused; or
    // there was no memory.
    ensures output { (input : List ℕ) → S.left source.old ≡ Some input → length input ≤ limit
        → ¬ HasFailed (S.failures source.old) (S.failures source.new)
        → ¬ HasFailed (K.failures sink.old) (K.failures sink.new)
        → (result ≡ Status.NoMemory)
        ⊎ WritesOutput (R.Answers rule.now) input (K.written sink.old) (K.written sink.new) result }

    // A longer input is reported as too long.
    ensures too_long { (input : List ℕ) → S.left source.old ≡ Some input → limit < length input
        → ¬ HasFailed (S.failures source.old) (S.failures source.new)
        → ¬ HasFailed (K.failures sink.old) (K.failures sink.new)
        → (result ≡ Status.NoMemory) ⊎ (result ≡ Status.TooLong) }

    // If a write failed, a prefix of the whole output was written.
    ensures prefix_on_write_fault { result ≡ Status.WriteFault → (input : List ℕ) (replies : List AnswerText)
        → S.left source.old ≡ Some input
        → AreAnswers (R.Answers rule.now) (lines input) replies
        → AppendsPrefix (K.written sink.old) (K.written sink.new) (written_of replies) }

    // How many bytes were read, and how many steps that took.
    ensures cost { Spends limit R.PER_BYTE R.EXTRA (S.left source.old) (S.left source.new) steps.old steps.new }

    // No read requested more than limit + 1 bytes less those taken, or more than 4,096.
    ensures asked { AskedWithin limit (S.asked source.old) (S.asked source.new) }

    // Without memory, nothing was read or written.
    ensures memory { result ≡ Status.NoMemory
        → (source.new ≡ source.old) × (sink.new ≡ sink.old) × (steps.new ≡ steps.old) }
{
    run_watched(alloc, limit, rule, (), source, sink, steps).status
}
