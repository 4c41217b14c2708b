//! Cuts the chunks of a text into records and answers them. A record may span chunks.

ghost use Rattle.std.specs.Prelude.{◌≡◌, ◌≤◌, ◌<◌, ◌+◌, ◌++◌, [], IfErr, OnOk, length};
ghost use Rattle.column_engine.specs.Feeding.{FailsFeed, FeedsRows, IsStanding};
ghost use Rattle.column_engine.specs.Steps.{PassesRow, RisesOnly, SameCounts, StopsRow, state_of};
ghost use Rattle.column_engine.specs.Limits.{longest_record};

use crate::answer::{ColumnTask, Work};
use crate::end::Stop;
use crate::place::{Place, record_end};
use crate::record_buffer::{MAX_RECORD, RecordBuffer};
use crate::row::{Progress, answer_row};
use crate::rule::FieldRule;
use crate::watch::FieldWatch;
use fixed_steps::Steps;
use line_engine::Sink;
use std::sync::ledger::Ledger;

/// The state between two chunks of a text.
#[derive(Drop)]
pub(crate) struct Cutter<'a> {
    /// How far the text was answered.
    pub progress: Progress<'a>,
    /// The bytes of the current record from earlier chunks.
    pub kept: RecordBuffer,
    /// The lexer state after them.
    pub place: Place,
}

/// Answers the current record, which ends with `part` and the byte `end`. A plain part has no newline.
fn end_row<A: FieldRule<L>, W: FieldWatch<A, L>, K: Sink, L: Ledger>(
    task: &ColumnTask<'_, A>,
    cutter: &mut Cutter<'_>,
    is_plain: bool,
    part: &[u8],
    end: &[u8],
    work: &mut Work<W>,
    sink: &mut K,
    steps: &mut Steps<L>,
) -> Result<(), Stop>
    requires short { length cutter.old.kept + length part.now ≤ longest_record }
    requires as_many { length cutter.old.progress.asked.items ≡ length task.now.columns.now }
    ensures kept { OnOk result (cutter.new.kept ≡ []) }
    ensures place { OnOk result (cutter.new.place ≡ Place.Start) }
    ensures ok { OnOk result (PassesRow (A.Answers task.now.rule.now) task.now.keeps task.now.delimiter
        task.now.columns.now
        (record { body = cutter.old.kept ++ part.now; end = end.now })
        (state_of cutter.old.progress) (state_of cutter.new.progress) work.old.out work.new.out (K.written sink.old)
        (K.written sink.new)) }
    ensures err { IfErr result (λ stop. StopsRow stop (A.Answers task.now.rule.now) task.now.keeps
        task.now.delimiter task.now.columns.now
        (record { body = cutter.old.kept ++ part.now; end = end.now })
        (state_of cutter.old.progress) work.old.out work.new.out (K.written sink.old) (K.written sink.new)) }
    ensures counts { IfErr result (λ stop. SameCounts (state_of cutter.old.progress) (state_of cutter.new.progress)) }
    ensures as_many { length cutter.new.progress.asked.items ≡ length task.now.columns.now }
    ensures failures { RisesOnly (K.failures sink.old) (K.failures sink.new) result }
{
    cutter.place = Place::Start;
    if cutter.kept.is_empty() {
        work.records.begin_row(part, end, is_plain);
        return answer_row(task, &mut cutter.progress, part, end, work, sink, steps);
    }
    cutter.kept.append(part);
    work.records.begin_row(cutter.kept.as_slice(), end, false);
    answer_row(
        task,
        &mut cutter.progress,
        cutter.kept.as_slice(),
        end,
        work,
        sink,
        steps,
    )?;
    cutter.kept.clear();
    Ok(())
}

/// Answers the records that end in a chunk, and keeps the bytes after the last of them.
pub(crate) fn feed<A: FieldRule<L>, W: FieldWatch<A, L>, K: Sink, L: Ledger>(
    task: &ColumnTask<'_, A>,
    cutter: &mut Cutter<'_>,
    chunk: &[u8],
    work: &mut Work<W>,
    sink: &mut K,
    steps: &mut Steps<L>,
) -> Result<(), Stop>
    requires standing { IsStanding task.now.delimiter cutter.old.kept cutter.old.place }
    requires as_many { length cutter.old.progress.asked.items ≡ length task.now.columns.now }
    ensures standing { OnOk result (IsStanding task.now.delimiter cutter.new.kept cutter.new.place) }
    ensures ok { OnOk result (FeedsRows (A.Answers task.now.rule.now) task.now.keeps task.now.delimiter
        task.now.columns.now
        (cutter.old.kept ++ chunk.now) cutter.new.kept (state_of cutter.old.progress) (state_of cutter.new.progress)
        work.old.out work.new.out (K.written sink.old) (K.written sink.new)) }
    ensures err { IfErr result (λ stop. FailsFeed stop (A.Answers task.now.rule.now) task.now.keeps
        task.now.delimiter task.now.columns.now
        (cutter.old.kept ++ chunk.now) (state_of cutter.old.progress) (state_of cutter.new.progress)
        work.old.out work.new.out (K.written sink.old) (K.written sink.new)) }
    ensures as_many { length cutter.new.progress.asked.items ≡ length task.now.columns.now }
    ensures failures { RisesOnly (K.failures sink.old) (K.failures sink.new) result }
{
    let mut rest = chunk;
    'rows: loop {
        let (end, place, is_plain) = record_end(task.delimiter, cutter.place, rest);
        let room = MAX_RECORD - cutter.kept.len();
        match end {
            None => {
                if rest.len() > room {
                    return Err(Stop::TooLong);
                }
                cutter.kept.append(rest);
                cutter.place = place;
                return Ok(());
            }
            Some(end) => {
                if end > room {
                    return Err(Stop::TooLong);
                }
                match end_row(
                    task,
                    cutter,
                    is_plain,
                    &rest[..end],
                    &rest[end..end + 1],
                    work,
                    sink,
                    steps,
                ) {
                    Err(stop) => return Err(stop),
                    Ok(()) => rest = &rest[end + 1..],
                }
            }
        }
    }
}
