//! The answers to the fields of a record, and the bytes between them.

ghost use Rattle.std.specs.Prelude.{◌≡◌, ◌≤◌, ◌<◌, ◌-◌, ◌^◌, List, ℕ, Bool, false, if◌then◌else◌, IfOk, drop};
ghost use Rattle.std.specs.Prelude.{IfErr, OnErr, OnOk, length, take};
ghost use Rattle.line_engine.specs.Failures.{FailsOnlyCounted};
ghost use Rattle.column_engine.specs.Answers.{is_asked};
ghost use Rattle.column_engine.specs.Gathered.{GathersAnswer, GathersField, GathersFields, GathersPart, IsFieldAt};
ghost use Rattle.column_engine.specs.Gathered.{ahead, only};
ghost use Rattle.column_engine.specs.Rows.{raw_fields};
ghost use Rattle.column_engine.specs.Seen.{OnlySaw, SeesField, SeesFields, SeesIf, place_in};
ghost use Rattle.column_engine.specs.Limits.{longest_record};

use crate::answer::{ColumnTask, Work, answer_asked};
use crate::columns::{Range, is_asked};
use crate::gather::put;
use crate::place::{Place, field_end};
use crate::rule::FieldRule;
use crate::watch::FieldWatch;
use fixed_steps::Steps;
use line_engine::{Failed, Sink};
use std::sync::ledger::Ledger;

/// A field by its position in a record.
#[derive(Clone, Copy, Debug, Drop)]
pub(crate) struct Field {
    /// Its column, from 0.
    pub column: usize,
    /// The index of its first byte.
    pub start: usize,
    /// The index after its last byte.
    pub end: usize,
}

/// Gathers the bytes before a requested field and the answer to it. Returns whether the field was refused.
#[inline(always)]
fn gather_answer<A: FieldRule<L>, W: FieldWatch<A, L>, K: Sink, L: Ledger>(
    task: &ColumnTask<'_, A>,
    column: usize,
    before: &[u8],
    raw: &[u8],
    work: &mut Work<W>,
    sink: &mut K,
    steps: &mut Steps<L>,
) -> Result<bool, Failed>
    requires { length raw.now ≤ longest_record }
    ensures ok { IfOk result (λ refused. GathersAnswer (A.Answers task.now.rule.now) task.now.keeps
        task.now.delimiter before.now raw.now refused work.old.out work.new.out (K.written sink.old)
        (K.written sink.new)) }
    ensures err { OnErr result ((refused : Bool) × (left : List ℕ) × GathersAnswer (A.Answers task.now.rule.now)
        task.now.keeps task.now.delimiter before.now raw.now refused work.old.out left (K.written sink.old)
        (K.written sink.new)) }
    ensures saw { OnlySaw (SeesField (A.Answers task.now.rule.now) (W.Saw task.now.rule.now)
        (place_in work.old.records column) raw.now) work.old.records work.new.records }
    ensures failures { FailsOnlyCounted (K.failures sink.old) (K.failures sink.new) result }
{
    let answered = answer_asked(task, column, raw, work, steps);
    put(before, &mut work.out, sink)?;
    let shown = answered.bytes(raw, &work.reply, &work.text);
    put(shown, &mut work.out, sink)?;
    Ok(answered.is_refused)
}

/// Gathers the bytes since `from` and the answer to a field, or nothing if the field is not requested. Returns the
/// index of the first byte not yet gathered, and how many fields were refused.
fn pass_field<A: FieldRule<L>, W: FieldWatch<A, L>, K: Sink, L: Ledger>(
    task: &ColumnTask<'_, A>,
    asked: &[Range],
    body: &[u8],
    from: usize,
    field: Field,
    work: &mut Work<W>,
    sink: &mut K,
    steps: &mut Steps<L>,
) -> Result<(usize, u64), Failed>
    requires short { length body.now ≤ longest_record }
    requires before { from ≤ field.start }
    requires ordered { field.start ≤ field.end }
    requires within { field.end ≤ length body.now }
    ensures from { IfOk result (λ r. r.0 ≤ field.end) }
    ensures most { IfOk result (λ r. r.1 ≤ 1) }
    ensures ok { IfOk result (λ r. (refused : Bool) × (r.1 ≡ (if refused then 1 else 0)) × GathersField
        (A.Answers task.now.rule.now) task.now.keeps task.now.delimiter (is_asked asked.now field.column)
        (take (field.end - field.start) (drop field.start body.now)) refused
        (ahead work.old.out body.now from field.start)
        (ahead work.new.out body.now r.0 field.end) (K.written sink.old) (K.written sink.new)) }
    ensures err { OnErr result ((refused : Bool) × (left : List ℕ) × GathersField (A.Answers task.now.rule.now)
        task.now.keeps task.now.delimiter (is_asked asked.now field.column)
        (take (field.end - field.start) (drop field.start body.now)) refused
        (ahead work.old.out body.now from field.start)
        left (K.written sink.old) (K.written sink.new)) }
    ensures saw { OnlySaw (SeesIf (is_asked asked.now field.column) (A.Answers task.now.rule.now)
        (W.Saw task.now.rule.now) (place_in work.old.records field.column)
        (take (field.end - field.start) (drop field.start body.now))) work.old.records work.new.records }
    ensures failures { FailsOnlyCounted (K.failures sink.old) (K.failures sink.new) result }
{
    if !is_asked(asked, field.column) {
        return Ok((from, 0));
    }
    let raw = &body[field.start..field.end];
    let before = &body[from..field.start];
    match gather_answer(task, field.column, before, raw, work, sink, steps) {
        Err(_) => Err(Failed),
        Ok(is_refused) => Ok((field.end, as_count(is_refused))),
    }
}

/// Returns 1 if a field was refused, else 0.
pub(crate) fn as_count(is_refused: bool) -> u64
    ensures value { result ≡ (if is_refused then 1 else 0) }
    ensures most { result ≤ 1 }
{
    if is_refused { 1 } else { 0 }
}

/// Returns the greater of `past` and the column after a range, or the greatest number for a range without end.
fn past_range(past: usize, range: Range) -> usize
    ensures { (k : ℕ) → result ≤ k → k < 2 ^ 64 - 1 → (past ≤ k) × (range.to < k) }
{
    if range.to < past {
        past
    } else {
        range.to.saturating_add(1)
    }
}

/// Returns a column after every requested one, or the greatest number.
fn past_asked(asked: &[Range]) -> usize
    ensures { (k : ℕ) → result ≤ k → k < 2 ^ 64 - 1 → is_asked asked.now k ≡ false }
{
    let mut past = 0;
    'spans: for at in 0..asked.len() {
        past = past_range(past, asked[at]);
    }
    past
}

/// Finds the field in a column. `Err(n)`: the record has only `n` fields.
#[inline(always)]
pub(crate) fn find_field(delimiter: u8, body: &[u8], column: usize) -> Result<Field, usize>
    requires { length body.now ≤ longest_record }
    ensures ok { IfOk result (λ field. (field.column ≡ column)
        × IsFieldAt delimiter body.now field.column field.start field.end) }
    ensures err { IfErr result (λ count. (count ≡ length (raw_fields delimiter Place.Start body.now))
        × (count ≤ column)) }
{
    let mut start = 0;
    let mut count = 0;
    'fields: loop {
        let end = start + field_end(delimiter, &body[start..]);
        if count == column {
            return Ok(Field { column, start, end });
        }
        count += 1;
        if end == body.len() {
            return Err(count);
        }
        start = end + 1;
    }
}

/// Gathers the answer to the only requested field, with the bytes around it. Returns how many fields were refused.
#[inline(always)]
pub(crate) fn answer_field<A: FieldRule<L>, W: FieldWatch<A, L>, K: Sink, L: Ledger>(
    task: &ColumnTask<'_, A>,
    field: Field,
    body: &[u8],
    work: &mut Work<W>,
    sink: &mut K,
    steps: &mut Steps<L>,
) -> Result<u64, Failed>
    requires short { length body.now ≤ longest_record }
    requires field { IsFieldAt task.now.delimiter body.now field.column field.start field.end }
    ensures ok { IfOk result (λ refused. GathersFields (A.Answers task.now.rule.now) task.now.keeps
        task.now.delimiter (only field.column) 0 (raw_fields task.now.delimiter Place.Start body.now)
        refused work.old.out work.new.out (K.written sink.old) (K.written sink.new)) }
    ensures err { OnErr result (GathersPart (A.Answers task.now.rule.now) task.now.keeps task.now.delimiter
        (only field.column) (raw_fields task.now.delimiter Place.Start body.now)
        work.old.out (K.written sink.old) (K.written sink.new)) }
    ensures saw { OnlySaw (SeesFields (A.Answers task.now.rule.now) (W.Saw task.now.rule.now) (only field.column)
        (place_in work.old.records) 0 (raw_fields task.now.delimiter Place.Start body.now)) work.old.records
        work.new.records }
    ensures failures { FailsOnlyCounted (K.failures sink.old) (K.failures sink.new) result }
{
    let raw = &body[field.start..field.end];
    let before = &body[..field.start];
    match gather_answer(task, field.column, before, raw, work, sink, steps) {
        Err(_) => Err(Failed),
        Ok(is_refused) => match put(&body[field.end..], &mut work.out, sink) {
            Err(_) => Err(Failed),
            Ok(()) => Ok(as_count(is_refused)),
        },
    }
}

/// Gathers the answers to the fields of a record. Returns how many were refused.
pub(crate) fn answer_fields<A: FieldRule<L>, W: FieldWatch<A, L>, K: Sink, L: Ledger>(
    task: &ColumnTask<'_, A>,
    asked: &[Range],
    body: &[u8],
    work: &mut Work<W>,
    sink: &mut K,
    steps: &mut Steps<L>,
) -> Result<u64, Failed>
    requires { length body.now ≤ longest_record }
    ensures ok { IfOk result (λ refused. GathersFields (A.Answers task.now.rule.now) task.now.keeps
        task.now.delimiter asked.now 0 (raw_fields task.now.delimiter Place.Start body.now)
        refused work.old.out work.new.out (K.written sink.old) (K.written sink.new)) }
    ensures err { OnErr result (GathersPart (A.Answers task.now.rule.now) task.now.keeps task.now.delimiter
        asked.now (raw_fields task.now.delimiter Place.Start body.now)
        work.old.out (K.written sink.old) (K.written sink.new)) }
    ensures saw { OnOk result (OnlySaw (SeesFields (A.Answers task.now.rule.now) (W.Saw task.now.rule.now) asked.now
        (place_in work.old.records) 0 (raw_fields task.now.delimiter Place.Start body.now)) work.old.records
        work.new.records) }
    ensures failures { FailsOnlyCounted (K.failures sink.old) (K.failures sink.new) result }
{
    let past = past_asked(asked);
    let mut from = 0;
    let mut start = 0;
    let mut column = 0;
    let mut refused = 0;
    'fields: while column < past {
        let end = start + field_end(task.delimiter, &body[start..]);
        let field = Field { column, start, end };
        let (next, count) = pass_field(task, asked, body, from, field, work, sink, steps)?;
        from = next;
        refused += count;
        if end == body.len() {
            put(&body[from..], &mut work.out, sink)?;
            return Ok(refused);
        }
        start = end + 1;
        column += 1;
    }
    put(&body[from..], &mut work.out, sink)?;
    Ok(refused)
}
