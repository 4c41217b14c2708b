//! The answer to a record other than a header.

ghost use Rattle.std.specs.Prelude.{◌≡◌, ◌≢◌, ◌≤◌, ◌<◌, ◌+◌, ◌++◌, [], ◌∷◌, false, List, ℕ, Bool, IfErr, IfOk};
ghost use Rattle.std.specs.Prelude.{IfSome, OnOk, OnErr, get_or, if◌then◌else◌, length};
ghost use Rattle.line_engine.specs.Failures.{FailsOnlyCounted};
ghost use Rattle.line_engine.specs.Inner.Progress.{Flushes};
ghost use Rattle.column_engine.specs.Answers.{first_asked, name_of, needed, one_more};
ghost use Rattle.column_engine.specs.Gathered.{GathersFields, GathersLonger, GathersPart, IsFieldAt, only};
ghost use Rattle.column_engine.specs.Rows.{raw_fields};
ghost use Rattle.column_engine.specs.Seen.{OnlySaw, SeesField, SeesFields, SeesInto, place_in};
ghost use Rattle.column_engine.specs.Steps.{FailsRow, PassesRow, RisesOnly, SameCounts, StopsRow, state_of};
ghost use Rattle.column_engine.specs.Limits.{longest_record};

use crate::answer::{ColumnTask, Work, answer_asked};
use crate::columns::{Destination, Range, first_asked, needed, only_asked};
use crate::end::Stop;
use crate::fields::{Field, answer_field, answer_fields, as_count, find_field};
use crate::gather::{put, put_end};
use crate::place::Place;
use crate::row::{Progress, count_record, lacking};
use crate::rule::FieldRule;
use crate::watch::FieldWatch;
use fixed_steps::Steps;
use line_engine::{Failed, Output, Sink};
use std::sync::ledger::Ledger;

/// Gathers the bytes of a record and the byte that ends it.
pub(crate) fn put_row<K: Sink>(
    body: &[u8],
    end: &[u8],
    out: &mut Output,
    sink: &mut K,
) -> Result<(), Failed>
    ensures ok { OnOk result (Flushes out.old (body.now ++ end.now) out.new (K.written sink.old) (K.written sink.new)) }
    ensures err { OnErr result ((left : List ℕ) × Flushes out.old (body.now ++ end.now) left (K.written sink.old)
        (K.written sink.new)) }
    ensures failures { FailsOnlyCounted (K.failures sink.old) (K.failures sink.new) result }
{
    match put(body, out, sink) {
        Err(_) => Err(Failed),
        Ok(()) => put(end, out, sink),
    }
}

/// Gathers the bytes of a record, one more field, and the byte that ends the record.
pub(crate) fn put_longer<K: Sink>(
    delimiter: u8,
    body: &[u8],
    field: &[u8],
    end: &[u8],
    out: &mut Output,
    sink: &mut K,
) -> Result<(), Failed>
    ensures ok { OnOk result (Flushes out.old (body.now ++ delimiter ∷ field.now ++ end.now) out.new
        (K.written sink.old) (K.written sink.new)) }
    ensures err { OnErr result ((left : List ℕ) × Flushes out.old (body.now ++ delimiter ∷ field.now ++ end.now) left
        (K.written sink.old) (K.written sink.new)) }
    ensures failures { FailsOnlyCounted (K.failures sink.old) (K.failures sink.new) result }
{
    match put_row(body, &[delimiter], out, sink) {
        Err(_) => Err(Failed),
        Ok(()) => put_row(field, end, out, sink),
    }
}

/// Returns the field in a column, empty if the record lacks it.
fn field_in(delimiter: u8, body: &[u8], column: usize) -> &[u8]
    requires { length body.now ≤ longest_record }
    ensures value { result.now ≡ get_or (raw_fields delimiter Place.Start body.now) column [] }
    ensures short { length result.now ≤ longest_record }
{
    match find_field(delimiter, body, column) {
        Ok(field) => &body[field.start..field.end],
        Err(_) => &[],
    }
}

/// Writes the record with one more field: the answer for the first requested column. Returns how many fields were
/// refused.
fn lengthen_record<A: FieldRule<L>, W: FieldWatch<A, L>, K: Sink, L: Ledger>(
    task: &ColumnTask<'_, A>,
    asked: &[Range],
    body: &[u8],
    end: &[u8],
    work: &mut Work<W>,
    sink: &mut K,
    steps: &mut Steps<L>,
) -> Result<u64, Failed>
    requires { length body.now ≤ longest_record }
    ensures ok { IfOk result (λ count. (refused : Bool) × (count ≡ (if refused then 1 else 0)) × GathersLonger
        (A.Answers task.now.rule.now) task.now.keeps task.now.delimiter asked.now
        (record { body = body.now; end = end.now }) refused work.old.out work.new.out (K.written sink.old)
        (K.written sink.new)) }
    ensures err { OnErr result ((refused : Bool) × (left : List ℕ) × GathersLonger
        (A.Answers task.now.rule.now) task.now.keeps task.now.delimiter asked.now
        (record { body = body.now; end = end.now }) refused work.old.out left (K.written sink.old)
        (K.written sink.new)) }
    ensures saw { OnlySaw (SeesField (A.Answers task.now.rule.now) (W.Saw task.now.rule.now)
        (place_in work.old.records (first_asked asked.now))
        (get_or (raw_fields task.now.delimiter Place.Start body.now) (first_asked asked.now) [])) work.old.records
        work.new.records }
    ensures failures { FailsOnlyCounted (K.failures sink.old) (K.failures sink.new) result }
{
    let column = first_asked(asked);
    let raw = field_in(task.delimiter, body, column);
    let answered = answer_asked(task, column, raw, work, steps);
    let shown = answered.bytes(raw, &work.reply, &work.text);
    match put_longer(task.delimiter, body, shown, end, &mut work.out, sink) {
        Err(_) => Err(Failed),
        Ok(()) => Ok(as_count(answered.is_refused)),
    }
}

/// Returns the requested field if just one column was requested. `Err(n)`: the record lacks a requested column and has
/// only `n` fields.
fn only_field(delimiter: u8, asked: &[Range], body: &[u8]) -> Result<Option<Field>, usize>
    requires { length body.now ≤ longest_record }
    ensures enough { OnOk result (needed asked.now ≤ length (raw_fields delimiter Place.Start body.now)) }
    ensures one { IfOk result (λ found. IfSome found (λ field. (asked.now ≡ only field.column)
        × IsFieldAt delimiter body.now field.column field.start field.end)) }
    ensures lacks { IfErr result (λ count. (count ≡ length (raw_fields delimiter Place.Start body.now))
        × (count < needed asked.now)) }
{
    match only_asked(asked) {
        Some(column) => match find_field(delimiter, body, column) {
            Ok(field) => Ok(Some(field)),
            Err(count) => Err(count),
        },
        None => match lacking(delimiter, body, needed(asked)) {
            Some(count) => Err(count),
            None => Ok(None),
        },
    }
}

/// Gathers the answers to the fields of a record. Returns how many were refused.
fn fill_record<A: FieldRule<L>, W: FieldWatch<A, L>, K: Sink, L: Ledger>(
    task: &ColumnTask<'_, A>,
    asked: &[Range],
    found: Option<Field>,
    body: &[u8],
    work: &mut Work<W>,
    sink: &mut K,
    steps: &mut Steps<L>,
) -> Result<u64, Failed>
    requires short { length body.now ≤ longest_record }
    requires one { IfSome found (λ field. (asked.now ≡ only field.column)
        × IsFieldAt task.now.delimiter body.now field.column field.start field.end) }
    ensures ok { IfOk result (λ refused. GathersFields (A.Answers task.now.rule.now) task.now.keeps
        task.now.delimiter asked.now 0 (raw_fields task.now.delimiter Place.Start body.now)
        refused work.old.out work.new.out (K.written sink.old) (K.written sink.new)) }
    ensures err { OnErr result (GathersPart (A.Answers task.now.rule.now) task.now.keeps task.now.delimiter
        asked.now (raw_fields task.now.delimiter Place.Start body.now)
        work.old.out (K.written sink.old) (K.written sink.new)) }
    ensures saw { OnOk result (OnlySaw (SeesFields (A.Answers task.now.rule.now) (W.Saw task.now.rule.now) asked.now
        (place_in work.old.records) 0 (raw_fields task.now.delimiter Place.Start body.now)) work.old.records
        work.new.records) }
    ensures failures { FailsOnlyCounted (K.failures sink.old) (K.failures sink.new) result }
{
    match found {
        Some(field) => answer_field(task, field, body, work, sink, steps),
        None => answer_fields(task, asked, body, work, sink, steps),
    }
}

/// Gathers the answer to a record that has the requested columns. Returns how many fields were refused.
fn gather_record<A: FieldRule<L>, W: FieldWatch<A, L>, K: Sink, L: Ledger>(
    task: &ColumnTask<'_, A>,
    progress: &Progress<'_>,
    found: Option<Field>,
    body: &[u8],
    end: &[u8],
    work: &mut Work<W>,
    sink: &mut K,
    steps: &mut Steps<L>,
) -> Result<u64, Failed>
    requires short { length body.now ≤ longest_record }
    requires some { body.now ≢ [] }
    requires known { progress.now.is_headed ≡ false }
    requires enough { needed progress.now.asked.items ≤ length (raw_fields task.now.delimiter Place.Start body.now) }
    requires one { IfSome found (λ field. (progress.now.asked.items ≡ only field.column)
        × IsFieldAt task.now.delimiter body.now field.column field.start field.end) }
    ensures ok { IfOk result (λ refused. PassesRow (A.Answers task.now.rule.now) task.now.keeps task.now.delimiter
        task.now.columns.now (record { body = body.now; end = end.now }) (state_of progress.now)
        (one_more (state_of progress.now) refused) work.old.out work.new.out (K.written sink.old)
        (K.written sink.new)) }
    ensures err { OnErr result (FailsRow (A.Answers task.now.rule.now) task.now.keeps task.now.delimiter
        task.now.columns.now (record { body = body.now; end = end.now }) (state_of progress.now) work.old.out
        (K.written sink.old) (K.written sink.new)) }
    ensures saw { OnOk result (OnlySaw (SeesInto (name_of progress.now.destination.now) (A.Answers task.now.rule.now)
        (W.Saw task.now.rule.now) progress.now.asked.items (place_in work.old.records)
        (raw_fields task.now.delimiter Place.Start body.now)) work.old.records work.new.records) }
    ensures failures { FailsOnlyCounted (K.failures sink.old) (K.failures sink.new) result }
{
    match progress.destination {
        Destination::NewColumn(_) => lengthen_record(
            task,
            &progress.asked,
            body,
            end,
            work,
            sink,
            steps,
        ),
        Destination::InPlace => {
            match fill_record(task, &progress.asked, found, body, work, sink, steps) {
                Err(_) => Err(Failed),
                Ok(refused) => match put_end(end, &mut work.out, sink) {
                    Err(_) => Err(Failed),
                    Ok(()) => Ok(refused),
                },
            }
        }
    }
}

/// Answers a record other than a header.
pub(crate) fn answer_record<A: FieldRule<L>, W: FieldWatch<A, L>, K: Sink, L: Ledger>(
    task: &ColumnTask<'_, A>,
    progress: &mut Progress<'_>,
    body: &[u8],
    end: &[u8],
    work: &mut Work<W>,
    sink: &mut K,
    steps: &mut Steps<L>,
) -> Result<(), Stop>
    requires short { length body.now ≤ longest_record }
    requires some { body.now ≢ [] }
    requires known { progress.old.is_headed ≡ false }
    requires as_many { length progress.old.asked.items ≡ length task.now.columns.now }
    ensures ok { OnOk result (PassesRow (A.Answers task.now.rule.now) task.now.keeps task.now.delimiter
        task.now.columns.now (record { body = body.now; end = end.now })
        (state_of progress.old) (state_of progress.new) work.old.out work.new.out (K.written sink.old) (K.written
        sink.new)) }
    ensures err { IfErr result (λ stop. StopsRow stop (A.Answers task.now.rule.now) task.now.keeps
        task.now.delimiter task.now.columns.now (record { body = body.now; end = end.now })
        (state_of progress.old) work.old.out work.new.out (K.written sink.old) (K.written sink.new)) }
    ensures saw { OnOk result (OnlySaw (SeesInto (name_of progress.old.destination.now) (A.Answers task.now.rule.now)
        (W.Saw task.now.rule.now) progress.old.asked.items (place_in work.old.records)
        (raw_fields task.now.delimiter Place.Start body.now)) work.old.records work.new.records) }
    ensures unseen { IfErr result (λ stop. stop ≢ Stop.WriteFault → work.new.records ≡ work.old.records) }
    ensures counts { IfErr result (λ stop. SameCounts (state_of progress.old) (state_of progress.new)) }
    ensures as_many { length progress.new.asked.items ≡ length task.now.columns.now }
    ensures failures { RisesOnly (K.failures sink.old) (K.failures sink.new) result }
{
    let found = match only_field(task.delimiter, &progress.asked, body) {
        Err(count) => return Err(Stop::NoColumn(count)),
        Ok(found) => found,
    };
    match gather_record(task, progress, found, body, end, work, sink, steps) {
        Err(_) => Err(Stop::WriteFault),
        Ok(refused) => {
            count_record(progress, refused);
            Ok(())
        }
    }
}
