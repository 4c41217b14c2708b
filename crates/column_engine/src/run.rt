//! Answers columns of a text from a source to a sink.

ghost use Rattle.std.specs.Prelude.{◌≡◌, ◌≢◌, ◌⊎◌, ◌≤◌, ◌<◌, ◌+◌, ◌++◌, [], List, ℕ, Option, IfOk, IfErr, OnOk};
ghost use Rattle.std.specs.Prelude.{length, map};
ghost use Rattle.std.specs.Io.KnownBytes.{IsAtEnd};
ghost use Rattle.line_engine.specs.Inner.Progress.{Flushes};
ghost use Rattle.column_engine.specs.Feeding.{FeedsRows, IsLeft, IsStanding};
ghost use Rattle.column_engine.specs.Run.{HasFailures, HasRun, RunsOn, RunsText, StopsText, Writes, counts_of};
ghost use Rattle.column_engine.specs.Run.{first_range, first_state};
ghost use Rattle.column_engine.specs.Skip.{HasRunAfter};
ghost use Rattle.column_engine.specs.Steps.{HasRisen, RisesOnly, SameCounts, state_of};
ghost use Rattle.column_engine.specs.declared.end.Stop.{Stop};

use crate::answer::{ColumnTask, Work};
use crate::begin::{MARK, Start, read_start};
use crate::columns::{Column, Range};
use crate::cutter::{Cutter, feed};
use crate::end::{ColumnEnd, Stop};
use crate::gather::flush;
use crate::place::Place;
use crate::record_buffer::RecordBuffer;
use crate::records::Records;
use crate::row::{Progress, answer_row};
use crate::rule::FieldRule;
use crate::skip::pass_lines;
use crate::watch::FieldWatch;
use fixed_steps::Steps;
use line_engine::{Output, Sink, Source, write_whole};
use std::alloc::{AllocError, Global};
use std::sync::ledger::Ledger;

/// The most bytes that one read requests.
const CHUNK: usize = 16_384;

/// The longest text, in bytes.
const MAX_TEXT: u64 = 9_223_372_036_854_775_808;

/// Writes the gathered bytes of a run that stops. Returns how the run ended, since this write may fail too.
fn stop_after<K: Sink>(stop: Stop, out: &mut Output, sink: &mut K) -> Stop
    ensures which { (result ≡ stop) ⊎ (result ≡ Stop.WriteFault) }
    ensures wrote { (start : Option (List ℕ)) (text left : List ℕ) → IsLeft stop left out.old
        → Flushes [] text left start (K.written sink.old)
        → Writes result start (K.written sink.new) text }
    ensures failures { (start : ℕ) → HasRisen start (K.failures sink.old) stop → HasRisen start (K.failures sink.new)
        result }
{
    match stop {
        Stop::WriteFault => Stop::WriteFault,
        _ => match flush(out, sink) {
            Err(_) => Stop::WriteFault,
            Ok(()) => stop,
        },
    }
}

/// Answers the records that end in a chunk, keeps the bytes after the last of them, and writes the answers.
fn take_chunk<A: FieldRule<L>, W: FieldWatch<A, L>, K: Sink, L: Ledger>(
    task: &ColumnTask<'_, A>,
    cutter: &mut Cutter<'_>,
    chunk: &[u8],
    work: &mut Work<W>,
    sink: &mut K,
    steps: &mut Steps<L>,
) -> Result<(), Stop>
    requires standing { IsStanding task.now.delimiter cutter.old.kept cutter.old.place }
    requires as_many { length cutter.old.progress.asked.items ≡ length task.now.columns.now }
    requires empty { work.old.out ≡ [] }
    ensures standing { OnOk result (IsStanding task.now.delimiter cutter.new.kept cutter.new.place) }
    ensures empty { OnOk result (work.new.out ≡ []) }
    ensures ok { OnOk result (FeedsRows (A.Answers task.now.rule.now) task.now.keeps task.now.delimiter
        task.now.columns.now
        (cutter.old.kept ++ chunk.now) cutter.new.kept (state_of cutter.old.progress) (state_of cutter.new.progress)
        [] [] (K.written sink.old) (K.written sink.new)) }
    ensures err { IfErr result (λ stop. (left : Option (List ℕ)) → StopsText stop (A.Answers task.now.rule.now)
        task.now.keeps task.now.delimiter task.now.columns.now
        [] (cutter.old.kept ++ chunk.now) (state_of cutter.old.progress) (state_of cutter.new.progress) left
        (K.written sink.old) (K.written sink.new)) }
    ensures reads { IfErr result (λ stop. stop ≢ Stop.ReadFault) }
    ensures as_many { length cutter.new.progress.asked.items ≡ length task.now.columns.now }
    ensures failures { RisesOnly (K.failures sink.old) (K.failures sink.new) result }
{
    match feed(task, cutter, chunk, work, sink, steps) {
        Err(stop) => Err(stop_after(stop, &mut work.out, sink)),
        Ok(()) => match flush(&mut work.out, sink) {
            Err(_) => Err(Stop::WriteFault),
            Ok(()) => Ok(()),
        },
    }
}

/// Answers the last record of a text, which has no line end, if it is not empty. Returns how the text ended.
fn end_text<A: FieldRule<L>, W: FieldWatch<A, L>, K: Sink, L: Ledger>(
    task: &ColumnTask<'_, A>,
    cutter: &mut Cutter<'_>,
    work: &mut Work<W>,
    sink: &mut K,
    steps: &mut Steps<L>,
) -> Stop
    requires standing { IsStanding task.now.delimiter cutter.old.kept cutter.old.place }
    requires as_many { length cutter.old.progress.asked.items ≡ length task.now.columns.now }
    requires empty { work.old.out ≡ [] }
    ensures ends { (left : Option (List ℕ)) → IsAtEnd left → StopsText result (A.Answers task.now.rule.now)
        task.now.keeps task.now.delimiter task.now.columns.now
        [] cutter.old.kept (state_of cutter.old.progress) (state_of cutter.new.progress) left (K.written sink.old)
        (K.written sink.new) }
    ensures reads { result ≢ Stop.ReadFault }
    ensures failures { HasRisen (K.failures sink.old) (K.failures sink.new) result }
{
    if cutter.kept.is_empty() {
        return Stop::Done;
    }
    if let Place::Quoted = cutter.place {
        return Stop::Unclosed;
    }
    work.records.begin_row(cutter.kept.as_slice(), &[], false);
    match answer_row(
        task,
        &mut cutter.progress,
        cutter.kept.as_slice(),
        &[],
        work,
        sink,
        steps,
    ) {
        Err(stop) => stop,
        Ok(()) => match flush(&mut work.out, sink) {
            Err(_) => Stop::WriteFault,
            Ok(()) => Stop::Done,
        },
    }
}

/// Reads the first bytes of a text, and writes its byte order mark, if any. `Err`: the run ended here, since the text
/// ended, a record could not be answered, or a read or write failed.
fn begin_text<A: FieldRule<L>, W: FieldWatch<A, L>, S: Source, K: Sink, L: Ledger>(
    task: &ColumnTask<'_, A>,
    cutter: &mut Cutter<'_>,
    work: &mut Work<W>,
    source: &mut S,
    sink: &mut K,
    steps: &mut Steps<L>,
) -> Result<(), Stop>
    requires kept { cutter.old.kept ≡ [] }
    requires place { cutter.old.place ≡ Place.Start }
    requires as_many { length cutter.old.progress.asked.items ≡ length task.now.columns.now }
    requires empty { work.old.out ≡ [] }
    ensures standing { OnOk result (IsStanding task.now.delimiter cutter.new.kept cutter.new.place) }
    ensures as_many { OnOk result (length cutter.new.progress.asked.items ≡ length task.now.columns.now) }
    ensures empty { OnOk result (work.new.out ≡ []) }
    ensures ok { OnOk result (RunsOn (A.Answers task.now.rule.now) task.now.keeps task.now.delimiter
        task.now.columns.now
        cutter.new.kept (state_of cutter.old.progress) (state_of cutter.new.progress) (S.left source.old) (S.left
        source.new) (K.written sink.old) (K.written sink.new)) }
    ensures err { IfErr result (λ stop. RunsText stop (A.Answers task.now.rule.now) task.now.keeps
        task.now.delimiter task.now.columns.now
        (state_of cutter.old.progress) (state_of cutter.new.progress) (S.left source.old) (S.left source.new)
        (K.written sink.old) (K.written sink.new)) }
    ensures same { OnOk result ((S.failures source.new ≡ S.failures source.old) × (K.failures sink.new ≡ K.failures
        sink.old)) }
    ensures failures { IfErr result (HasFailures (S.failures source.old) (S.failures source.new) (K.failures sink.old)
        (K.failures sink.new)) }
{
    let mut start = Output::new();
    match read_start(source, &mut start) {
        Err(_) => Err(Stop::ReadFault),
        Ok(Start::Marked) => match write_whole(sink, &MARK) {
            Err(_) => Err(Stop::WriteFault),
            Ok(()) => Ok(()),
        },
        Ok(Start::Other) => match take_chunk(task, cutter, start.as_bytes(), work, sink, steps) {
            Err(stop) => Err(stop),
            Ok(()) => Ok(()),
        },
        Ok(Start::Ended) => match take_chunk(task, cutter, start.as_bytes(), work, sink, steps) {
            Err(stop) => Err(stop),
            Ok(()) => Err(end_text(task, cutter, work, sink, steps)),
        },
    }
}

/// Reads a text to its end and answers its records.
fn answer_text<A: FieldRule<L>, W: FieldWatch<A, L>, S: Source, K: Sink, L: Ledger>(
    task: &ColumnTask<'_, A>,
    cutter: &mut Cutter<'_>,
    work: &mut Work<W>,
    source: &mut S,
    sink: &mut K,
    steps: &mut Steps<L>,
) -> Stop
    requires kept { cutter.old.kept ≡ [] }
    requires place { cutter.old.place ≡ Place.Start }
    requires as_many { length cutter.old.progress.asked.items ≡ length task.now.columns.now }
    requires empty { work.old.out ≡ [] }
    ensures run { HasRun result (A.Answers task.now.rule.now) task.now.keeps task.now.delimiter task.now.columns.now
        (state_of cutter.old.progress) (state_of cutter.new.progress) (S.left source.old) (S.left source.new)
        (K.written sink.old) (K.written sink.new) }
    ensures failures { HasFailures (S.failures source.old) (S.failures source.new) (K.failures sink.old) (K.failures
        sink.new) result }
{
    if let Err(stop) = begin_text(task, cutter, work, source, sink, steps) {
        return stop;
    }
    let mut chunk = [0u8; CHUNK];
    let mut taken = 0u64;
    'chunks: while taken < MAX_TEXT {
        match source.read(&mut chunk) {
            Err(_) => return Stop::ReadFault,
            Ok(0) => return end_text(task, cutter, work, sink, steps),
            Ok(count) => match take_chunk(task, cutter, &chunk[..count], work, sink, steps) {
                Err(stop) => return stop,
                Ok(()) => taken += count as u64,
            },
        }
    }
    Stop::TooLong
}

/// Passes the lines before the records through, reads the text to its end and answers its records.
fn answer_after_lines<A: FieldRule<L>, W: FieldWatch<A, L>, S: Source, K: Sink, L: Ledger>(
    task: &ColumnTask<'_, A>,
    cutter: &mut Cutter<'_>,
    work: &mut Work<W>,
    source: &mut S,
    sink: &mut K,
    steps: &mut Steps<L>,
) -> Stop
    requires kept { cutter.old.kept ≡ [] }
    requires place { cutter.old.place ≡ Place.Start }
    requires as_many { length cutter.old.progress.asked.items ≡ length task.now.columns.now }
    requires empty { work.old.out ≡ [] }
    ensures run { HasRunAfter task.now.skipped result (A.Answers task.now.rule.now) task.now.keeps task.now.delimiter
        task.now.columns.now (state_of cutter.old.progress) (state_of cutter.new.progress) (S.left source.old) (S.left
        source.new) (K.written sink.old) (K.written sink.new) }
    ensures failures { HasFailures (S.failures source.old) (S.failures source.new) (K.failures sink.old) (K.failures
        sink.new) result }
{
    if let Err(stop) = pass_lines(task.skipped, &mut work.out, source, sink) {
        return stop;
    }
    answer_text(task, cutter, work, source, sink, steps)
}

/// Returns the columns that an operand means without a header. A name that is not a number means the first column until
/// a header is read.
fn first_range(column: &Column) -> Range
    ensures { result ≡ first_range column.now }
{
    match column {
        Column::At(range) => *range,
        Column::Named(_, Some(range)) => *range,
        Column::Named(_, None) => Range { from: 0, to: 0 },
    }
}

/// Returns the columns that each operand means without a header.
fn first_ranges(alloc: Global, columns: &[Column]) -> Result<Vec<Range>, AllocError>
    ensures { IfOk result (λ asked. asked.items ≡ map first_range columns.now) }
{
    let mut asked = Vec::new(alloc);
    'columns: for at in 0..columns.len() {
        asked.push(first_range(&columns[at]))?;
    }
    Ok(asked)
}

/// Returns the progress before the first record.
fn first_progress<'a, A>(
    alloc: Global,
    task: &ColumnTask<'a, A>,
) -> Result<Progress<'a>, AllocError>
    ensures { IfOk result (λ progress. state_of progress ≡ first_state task.now.has_header task.now.destination.now
        task.now.columns.now) }
{
    let asked = first_ranges(alloc, task.columns)?;
    Ok(Progress {
        destination: task.destination,
        is_headed: task.has_header,
        asked,
        answered: 0,
        refused: 0,
        first: 0,
    })
}

/// Allocates the state between chunks.
fn begin_cutter<'a, A>(alloc: Global, task: &ColumnTask<'a, A>) -> Result<Cutter<'a>, AllocError>
    ensures progress { IfOk result (λ cutter. state_of cutter.progress ≡ first_state task.now.has_header
        task.now.destination.now task.now.columns.now) }
    ensures kept { IfOk result (λ cutter. cutter.kept ≡ []) }
    ensures place { IfOk result (λ cutter. cutter.place ≡ Place.Start) }
{
    let progress = first_progress(alloc, task)?;
    let kept = RecordBuffer::new(alloc)?;
    Ok(Cutter {
        progress,
        kept,
        place: Place::Start,
    })
}

/// Returns how the records of a text ended.
fn end_of(stop: Stop, progress: &Progress<'_>) -> ColumnEnd
    ensures stop { result.stop ≡ stop }
    ensures counts { SameCounts (state_of progress.now) (counts_of result) }
{
    ColumnEnd {
        stop,
        answered: progress.answered,
        refused: progress.refused,
        first: progress.first,
    }
}

/// What a run over columns leaves: how it ended, and the records with their observer.
#[derive(Drop)]
pub struct ColumnRun<W> {
    /// How it ended.
    pub end: ColumnEnd,
    /// The records of the text up to the last one that was read.
    pub records: Records<W>,
}

/// Answers columns of a text by a rule, and writes the text with these fields replaced to a sink. Lines before its
/// records are passed through. Every other byte stays as it was: a byte order mark, quotes, blank lines, line ends. The
/// observer is told of each requested field and given back.
///
/// It allocates three records of 1,048,576 bytes and a range of columns for each operand, and ends with `NoMemory` if
/// that fails; afterwards it allocates nothing. Each read requests at most 16,384 bytes, and the answers to the records
/// that ended in them are written before the next read.
///
/// The delimiter is an ASCII character other than a quote, a line feed or a carriage return.
pub fn run_column<A: FieldRule<L>, W: FieldWatch<A, L>, S: Source, K: Sink, L: Ledger>(
    alloc: Global,
    task: &ColumnTask<'_, A>,
    observer: W,
    source: &mut S,
    sink: &mut K,
    steps: &mut Steps<L>,
) -> ColumnRun<W>
    // The bytes read and written, by how the run ended.
    ensures run { (result.end.stop ≡ Stop.NoMemory)
        ⊎ HasRunAfter task.now.skipped result.end.stop (A.Answers task.now.rule.now) task.now.keeps task.now.delimiter
        task.now.columns.now
        (first_state task.now.has_header task.now.destination.now task.now.columns.now) (counts_of result.end)
        (S.left source.old) (S.left source.new) (K.written sink.old) (K.written sink.new) }

    // Which count of failures rose.
    ensures failures { HasFailures (S.failures source.old) (S.failures source.new) (K.failures sink.old) (K.failures
        sink.new) result.end.stop }

    // Without memory, nothing was read or written.
    ensures memory { result.end.stop ≡ Stop.NoMemory → (source.new ≡ source.old) × (sink.new ≡ sink.old) }
{
    let records = Records::new(task.skipped.saturating_add(1), observer);
    match (
        begin_cutter(alloc, task),
        RecordBuffer::new(alloc),
        RecordBuffer::new(alloc),
    ) {
        (Ok(mut cutter), Ok(text), Ok(scratch)) => {
            let mut work = Work {
                text,
                scratch,
                reply: Output::new(),
                out: Output::new(),
                records,
            };
            let stop = answer_after_lines(task, &mut cutter, &mut work, source, sink, steps);
            ColumnRun {
                end: end_of(stop, &cutter.progress),
                records: work.records,
            }
        }
        _ => ColumnRun {
            end: ColumnEnd {
                stop: Stop::NoMemory,
                answered: 0,
                refused: 0,
                first: 0,
            },
            records,
        },
    }
}
