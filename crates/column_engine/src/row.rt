//! The answer to a record, an empty line or a header.

ghost use Rattle.std.specs.Prelude.{◌≡◌, ◌≢◌, ◌≤◌, ◌<◌, ◌+◌, ◌++◌, [], true, false, List, ℕ, MatchOption, IfErr};
ghost use Rattle.std.specs.Prelude.{OnOk, OnErr, length};
ghost use Rattle.line_engine.specs.Failures.{FailsOnlyCounted};
ghost use Rattle.line_engine.specs.Inner.Progress.{Flushes};
ghost use Rattle.column_engine.specs.Answers.{AnyMissing, AreFound, name_of, new_name, one_more};
ghost use Rattle.column_engine.specs.Rows.{field_texts, raw_fields};
ghost use Rattle.column_engine.specs.Seen.{SeesRow, place_in};
ghost use Rattle.column_engine.specs.Steps.{IsHeader, IsNoHeader, PassesRow, RisesOnly, SameButAsked, SameCounts};
ghost use Rattle.column_engine.specs.Steps.{StopsRow, state_of};
ghost use Rattle.column_engine.specs.Limits.{longest_record};

use crate::answer::{ColumnTask, Work};
use crate::columns::{Column, Destination, Range, needed};
use crate::end::Stop;
use crate::field::write_as_field;
use crate::gather::put;
use crate::header::found_column;
use crate::place::{Place, field_end};
use crate::record::{answer_record, put_longer, put_row};
use crate::record_buffer::RecordBuffer;
use crate::records::Records;
use crate::rule::FieldRule;
use crate::watch::FieldWatch;
use fixed_steps::Steps;
use line_engine::{Failed, Sink};
use std::sync::ledger::Ledger;

/// How far a text was answered.
#[derive(Drop)]
pub struct Progress<'a> {
    /// Where the answers go.
    pub destination: &'a Destination,
    /// Whether the next record is the header.
    pub is_headed: bool,
    /// The requested columns, once they are known.
    pub asked: Vec<Range>,
    /// How many records were answered, including a header; it stays at `u64::MAX`.
    pub answered: u64,
    /// How many fields were refused; it stays at `u64::MAX`.
    pub refused: u64,
    /// The number of the first record with a refused field, from 1; 0 if none was refused.
    pub first: u64,
}

/// Counts a record with `refused` refused fields.
pub(crate) fn count_record(progress: &mut Progress<'_>, refused: u64)
    ensures { state_of progress.new ≡ one_more (state_of progress.old) refused }
{
    progress.answered = progress.answered.saturating_add(1);
    progress.refused = progress.refused.saturating_add(refused);
    if progress.first == 0 && refused != 0 {
        progress.first = progress.answered;
    }
}

/// Returns how many fields a record has if it has fewer than `needed`.
pub(crate) fn lacking(delimiter: u8, body: &[u8], needed: usize) -> Option<usize>
    requires { length body.now ≤ longest_record }
    ensures { MatchOption result (needed ≤ length (raw_fields delimiter Place.Start body.now))
        (λ count. (count ≡ length (raw_fields delimiter Place.Start body.now)) × (count < needed)) }
{
    let mut rest = body;
    let mut count = 1;
    'fields: loop {
        if needed <= count {
            return None;
        }
        let end = field_end(delimiter, rest);
        if end == rest.len() {
            return Some(count);
        }
        rest = &rest[end + 1..];
        count += 1;
    }
}

/// Finds the requested columns under a header. Returns false if a name is missing.
fn find_columns(
    delimiter: u8,
    header: &[u8],
    columns: &[Column],
    asked: &mut [Range],
    text: &mut RecordBuffer,
    word: &mut usize,
) -> bool
    requires short { length header.now ≤ longest_record }
    requires as_many { length asked.old ≡ length columns.now }
    ensures found { result ≡ true → AreFound (field_texts delimiter header.now) columns.now asked.new }
    ensures missing { result ≡ false → AnyMissing (field_texts delimiter header.now) columns.now }
{
    'columns: for at in 0..columns.len() {
        *word = at;
        match found_column(delimiter, header, &columns[at], text) {
            Some(range) => asked[at] = range,
            None => return false,
        }
    }
    true
}

/// Finds the requested columns in a header.
fn read_header<A, W>(
    task: &ColumnTask<'_, A>,
    progress: &mut Progress<'_>,
    body: &[u8],
    text: &mut RecordBuffer,
    records: &mut Records<W>,
) -> Result<(), Stop>
    requires short { length body.now ≤ longest_record }
    requires as_many { length progress.old.asked.items ≡ length task.now.columns.now }
    ensures ok { OnOk result (IsHeader task.now.delimiter task.now.columns.now body.now progress.new.asked.items) }
    ensures stops { IfErr result (λ stop. IsNoHeader stop task.now.delimiter task.now.columns.now body.now) }
    ensures same { SameButAsked progress.old progress.new }
    ensures unseen { records.new.observer ≡ records.old.observer }
{
    records.keep_header(body);
    if !find_columns(
        task.delimiter,
        body,
        task.columns,
        &mut progress.asked,
        text,
        &mut records.word,
    ) {
        return Err(Stop::NoName);
    }
    match lacking(task.delimiter, body, needed(&progress.asked)) {
        Some(count) => Err(Stop::NoColumn(count)),
        None => Ok(()),
    }
}

/// Gathers the bytes of a header, the name of the new column, if any, and the byte that ends the header.
fn put_header<W, K: Sink>(
    delimiter: u8,
    destination: &Destination,
    body: &[u8],
    end: &[u8],
    work: &mut Work<W>,
    sink: &mut K,
) -> Result<(), Failed>
    ensures ok { OnOk result (Flushes work.old.out (body.now ++ new_name delimiter (name_of destination.now) ++ end.now)
        work.new.out (K.written sink.old) (K.written sink.new)) }
    ensures err { OnErr result ((left : List ℕ) × Flushes work.old.out
        (body.now ++ new_name delimiter (name_of destination.now) ++ end.now) left (K.written sink.old)
        (K.written sink.new)) }
    ensures unseen { work.new.records.observer ≡ work.old.records.observer }
    ensures failures { FailsOnlyCounted (K.failures sink.old) (K.failures sink.new) result }
{
    match destination {
        Destination::InPlace => put_row(body, end, &mut work.out, sink),
        Destination::NewColumn(name) => {
            write_as_field(delimiter, name.as_bytes(), &mut work.text);
            put_longer(
                delimiter,
                body,
                work.text.as_slice(),
                end,
                &mut work.out,
                sink,
            )
        }
    }
}

/// Answers a record, or passes an empty line or the header through.
pub(crate) fn answer_row<A: FieldRule<L>, W: FieldWatch<A, L>, K: Sink, L: Ledger>(
    task: &ColumnTask<'_, A>,
    progress: &mut Progress<'_>,
    body: &[u8],
    end: &[u8],
    work: &mut Work<W>,
    sink: &mut K,
    steps: &mut Steps<L>,
) -> Result<(), Stop>
    requires short { length body.now ≤ longest_record }
    requires as_many { length progress.old.asked.items ≡ length task.now.columns.now }
    ensures ok { OnOk result (PassesRow (A.Answers task.now.rule.now) task.now.keeps task.now.delimiter
        task.now.columns.now (record { body = body.now; end = end.now })
        (state_of progress.old) (state_of progress.new) work.old.out work.new.out (K.written sink.old) (K.written
        sink.new)) }
    ensures err { IfErr result (λ stop. StopsRow stop (A.Answers task.now.rule.now) task.now.keeps
        task.now.delimiter task.now.columns.now (record { body = body.now; end = end.now })
        (state_of progress.old) work.old.out work.new.out (K.written sink.old) (K.written sink.new)) }
    // What the observer was told, and that it was told nothing of a record that has no answer.
    ensures saw { OnOk result (SeesRow (A.Answers task.now.rule.now) (W.Saw task.now.rule.now) task.now.delimiter
        (state_of progress.old) (place_in work.old.records) body.now work.old.records.observer
        work.new.records.observer) }
    ensures unseen { IfErr result (λ stop. stop ≢ Stop.WriteFault
        → work.new.records.observer ≡ work.old.records.observer) }
    ensures counts { IfErr result (λ stop. SameCounts (state_of progress.old) (state_of progress.new)) }
    ensures as_many { length progress.new.asked.items ≡ length task.now.columns.now }
    ensures failures { RisesOnly (K.failures sink.old) (K.failures sink.new) result }
{
    if body.is_empty() {
        return match put(end, &mut work.out, sink) {
            Err(_) => Err(Stop::WriteFault),
            Ok(()) => Ok(()),
        };
    }
    if !progress.is_headed {
        return answer_record(task, progress, body, end, work, sink, steps);
    }
    read_header(task, progress, body, &mut work.text, &mut work.records)?;
    match put_header(task.delimiter, progress.destination, body, end, work, sink) {
        Err(_) => Err(Stop::WriteFault),
        Ok(()) => {
            progress.is_headed = false;
            count_record(progress, 0);
            Ok(())
        }
    }
}
