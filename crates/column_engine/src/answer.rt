//! The answer to a field.

ghost use Rattle.std.specs.Prelude.{◌≡◌, ◌==◌, ◌≤◌, [], List, ℕ, if◌then◌else◌, true, get_or, length};
ghost use Rattle.column_engine.specs.Answers.{IsAnswer, as_field, in_quotes, keeps_quotes, stays};
ghost use Rattle.column_engine.specs.Gathered.{shown_bytes};
ghost use Rattle.column_engine.specs.Rows.{content};
ghost use Rattle.column_engine.specs.Seen.{OnlySaw, SeesField, place_in};
ghost use Rattle.column_engine.specs.Limits.{longest_record};

use crate::columns::{Column, Destination, Keeping};
use crate::field::{calls_for_quotes, plain_content, write_content, write_in_quotes};
use crate::place::Place;
use crate::record_buffer::RecordBuffer;
use crate::records::Records;
use crate::rule::FieldRule;
use crate::watch::{FieldPlace, FieldWatch};
use fixed_steps::Steps;
use line_engine::Output;
use std::sync::ledger::Ledger;

/// Which fields of a text to answer, and how.
#[derive(Drop)]
pub struct ColumnTask<'a, A> {
    /// The rule that answers a field.
    pub rule: &'a A,
    /// The number of lines before the records; they are passed through.
    pub skipped: u64,
    /// The requested columns.
    pub columns: &'a [Column],
    /// Where the answers go.
    pub destination: &'a Destination,
    /// Whether the first record is a header, which is passed through.
    pub has_header: bool,
    /// What is kept of a field.
    pub keeps: Keeping,
    /// The byte between fields: an ASCII character other than a quote, a line feed or a carriage return.
    pub delimiter: u8,
}

/// Buffers for the answer to a field, the gathered output, and the records up to the current one.
#[derive(Drop)]
pub(crate) struct Work<W> {
    /// The text of a field, and then the bytes to write for it.
    pub text: RecordBuffer,
    /// Scratch bytes for the rule.
    pub scratch: RecordBuffer,
    /// The reply to a field.
    pub reply: Output,
    /// Bytes that are not yet written.
    pub out: Output,
    /// The records up to the current one, and the observer of their fields.
    pub records: Records<W>,
}

/// Answers a text by the rule, and tells the observer. Returns whether the field was refused.
#[inline(always)]
fn answer_text<A: FieldRule<L>, W: FieldWatch<A, L>, L: Ledger>(
    rule: &A,
    place: FieldPlace,
    text: &[u8],
    scratch: &mut RecordBuffer,
    reply: &mut Output,
    observer: &mut W,
    steps: &mut Steps<L>,
) -> bool
    requires short { length text.now ≤ longest_record }
    requires empty { reply.old ≡ [] }
    ensures reply { A.Answers rule.now text.now (record { text = reply.new; fault = result }) }
    ensures saw { W.Saw rule.now observer.old place text.now (record { text = reply.new; fault = result })
        observer.new }
{
    let is_refused = rule.answer(text, scratch, reply, steps);
    let bytes = reply.as_bytes();
    observer.see(rule, place, text, bytes, is_refused, scratch, steps);
    is_refused
}

/// Answers the text of a field by the rule. Returns whether the field was refused.
fn reply_to<A: FieldRule<L>, W: FieldWatch<A, L>, L: Ledger>(
    rule: &A,
    column: usize,
    raw: &[u8],
    work: &mut Work<W>,
    steps: &mut Steps<L>,
) -> bool
    requires { length raw.now ≤ longest_record }
    ensures reply { A.Answers rule.now (content Place.Start raw.now) (record {
      text = work.new.reply;
      fault = result;
    }) }
    ensures saw { OnlySaw (SeesField (A.Answers rule.now) (W.Saw rule.now) (place_in work.old.records column) raw.now)
        work.old.records work.new.records }
    ensures out { work.new.out ≡ work.old.out }
{
    work.reply.clear();
    let place = work.records.place(column);
    match plain_content(raw) {
        Some(text) => answer_text(
            rule,
            place,
            text,
            &mut work.scratch,
            &mut work.reply,
            &mut work.records.observer,
            steps,
        ),
        None => {
            write_content(raw, &mut work.text);
            answer_text(
                rule,
                place,
                work.text.as_slice(),
                &mut work.scratch,
                &mut work.reply,
                &mut work.records.observer,
                steps,
            )
        }
    }
}

/// Whether a field stays as it was.
fn stays(keeps: Keeping, is_refused: bool, reply: &[u8]) -> bool
    ensures { result ≡ stays keeps (record { text = reply.now; fault = is_refused }) }
{
    keeps.refused && is_refused || reply.is_empty()
}

/// Whether the bytes of a field begin with a quote.
fn is_quoted(raw: &[u8]) -> bool
    ensures { result ≡ (get_or raw.now 0 0 == 34) }
{
    !raw.is_empty() && raw[0] == b'"'
}

/// Whether the reply to a field is written in quotes because the field has quotes.
fn keeps_quotes(keeps: Keeping, raw: &[u8], is_refused: bool) -> bool
    ensures { (text : List ℕ) → result ≡ keeps_quotes keeps raw.now (record { text = text; fault = is_refused }) }
{
    keeps.quotes && !is_refused && is_quoted(raw)
}

/// Which bytes are written for a field.
#[derive(Clone, Copy, Debug, PartialEq, Eq)]
pub(crate) enum Shown {
    /// The field's own bytes.
    Raw,
    /// The bytes of the reply.
    Reply,
    /// The bytes in `Work::text`.
    Text,
}

/// The bytes to write for a field, and whether it was refused.
#[derive(Clone, Copy, Debug)]
pub(crate) struct Answered {
    /// Which bytes are written.
    pub shown: Shown,
    /// Whether the field was refused.
    pub is_refused: bool,
}

impl Answered {
    /// Returns the bytes to write.
    pub fn bytes<'b>(self, raw: &'b [u8], reply: &'b Output, text: &'b RecordBuffer) -> &'b [u8]
        ensures { result.now ≡ shown_bytes self.shown raw.now reply.now text.now }
    {
        match self.shown {
            Shown::Raw => raw,
            Shown::Reply => reply.as_bytes(),
            Shown::Text => text.as_slice(),
        }
    }
}

/// Returns which bytes to write for a field with this reply, from whether the field stays as it was and whether its
/// quotes are kept. A reply that takes quotes is first written to `text`.
fn show(
    delimiter: u8,
    is_same: bool,
    has_quotes: bool,
    reply: &Output,
    text: &mut RecordBuffer,
) -> Shown
    ensures { (raw : List ℕ) → shown_bytes result raw reply.now text.new ≡ (if is_same then raw else (if has_quotes
        then in_quotes delimiter reply.now else as_field delimiter reply.now)) }
{
    if is_same {
        return Shown::Raw;
    }
    let bytes = reply.as_bytes();
    if has_quotes || calls_for_quotes(delimiter, bytes) {
        write_in_quotes(delimiter, bytes, text);
        return Shown::Text;
    }
    Shown::Reply
}

/// Answers a requested field.
#[inline(always)]
pub(crate) fn answer_asked<A: FieldRule<L>, W: FieldWatch<A, L>, L: Ledger>(
    task: &ColumnTask<'_, A>,
    column: usize,
    raw: &[u8],
    work: &mut Work<W>,
    steps: &mut Steps<L>,
) -> Answered
    requires { length raw.now ≤ longest_record }
    ensures answer { IsAnswer (A.Answers task.now.rule.now) task.now.keeps task.now.delimiter true raw.now (record {
      text = shown_bytes result.shown raw.now work.new.reply work.new.text;
      refused = result.is_refused;
    }) }
    ensures saw { OnlySaw (SeesField (A.Answers task.now.rule.now) (W.Saw task.now.rule.now)
        (place_in work.old.records column) raw.now) work.old.records work.new.records }
    ensures out { work.new.out ≡ work.old.out }
{
    let is_refused = reply_to(task.rule, column, raw, work, steps);
    let is_same = stays(task.keeps, is_refused, work.reply.as_bytes());
    let has_quotes = keeps_quotes(task.keeps, raw, is_refused);
    let shown = show(
        task.delimiter,
        is_same,
        has_quotes,
        &work.reply,
        &mut work.text,
    );
    Answered { shown, is_refused }
}
