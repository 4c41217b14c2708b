//! Fields as people spell them: with blanks around a numeral, a decimal comma or thousands separators, or empty.
//!
//! The decimal mark and the point are swapped, so that a point in a text with decimal commas is refused and not read as
//! one. Thousands separators must stand between groups of three digits: with points for thousands, `12.34` is more
//! likely a fraction than 1,234. A separator may have several bytes, such as a narrow no-break space. A reply keeps the
//! field's mark, unless another is requested, and its quotes: the readers of the file expect both. It has no
//! separators, because few readers take them.

ghost use Rattle.std.specs.Prelude.{◌≡◌, ◌≤◌, ◌<◌, ◌+◌, ◌++◌, [], List, ℕ, IsTrue, drop, length, flat_map, map};
ghost use Rattle.column_engine.specs.Limits.{longest_record};
ghost use Rattle.fixed_command.specs.Fields.{IsEmptyReply, IsPointReply, IsReadReply, after_sign, bare};
ghost use Rattle.fixed_command.specs.Fields.{digits_of, has_part, is_after_group, is_digit, is_grouped, is_misplaced};
ghost use Rattle.fixed_command.specs.Fields.{marked, read_for, swapped};
ghost use Rattle.line_engine.specs.AnswerText.{AnswerText};

use crate::convert::{ConvertRule, without_return};
use column_engine::{FieldRule, MAX_RECORD, RecordBuffer};
use fixed_numeral::Radix;
use fixed_respell::push_fault;
use fixed_steps::Steps;
use line_engine::Output;
use std::sync::ledger::Ledger;

/// What to do with an empty field.
#[derive(Clone, Copy, Debug, PartialEq, Eq)]
pub enum Empty {
    /// It stays.
    Kept,
    /// It is refused.
    Refused,
    /// It is read as a zero.
    Zero,
}

/// How a field spells a numeral or a word.
#[derive(Drop)]
pub struct FieldForm<'a> {
    /// Whether blanks around it (ASCII white space) are ignored.
    pub is_trimmed: bool,
    /// The byte before a fraction, which is swapped with the point.
    pub decimal: u8,
    /// The bytes that separate thousands, which are removed.
    pub thousands: &'a [u8],
    /// Whether those stand only between groups of three whole digits, as one character. Elsewhere they are refused.
    pub has_groups: bool,
    /// The byte before the fraction of an answer.
    pub mark: u8,
    /// What to do with an empty field.
    pub empty: Empty,
}

/// Returns a field without the blanks around it, if they are ignored.
pub(crate) fn bare<'f>(form: &FieldForm<'_>, field: &'f [u8]) -> &'f [u8]
    ensures value { result.now ≡ bare form.now field.now }
    ensures short { length result.now ≤ length field.now }
{
    if form.is_trimmed {
        field.trim_ascii()
    } else {
        field
    }
}

/// Returns a byte as it is read if `decimal` comes before a fraction.
pub(crate) fn swapped(decimal: u8, byte: u8) -> u8
    ensures { result ≡ swapped decimal byte }
{
    if byte == decimal {
        b'.'
    } else if byte == b'.' {
        decimal
    } else {
        byte
    }
}

/// Appends the byte, if any, that is read for a byte.
fn push_read(form: &FieldForm<'_>, byte: u8, numeral: &mut RecordBuffer)
    requires { length numeral.old < longest_record }
    ensures text { numeral.new ≡ numeral.old ++ read_for form.now.thousands.now form.now.decimal byte }
    ensures short { length numeral.new ≤ length numeral.old + 1 }
{
    if !form.thousands.contains(&byte) {
        numeral.push(swapped(form.decimal, byte));
    }
}

/// Writes the bytes that are read for a field's bytes.
pub(crate) fn write_read(form: &FieldForm<'_>, bytes: &[u8], numeral: &mut RecordBuffer)
    requires { length bytes.now ≤ longest_record }
    ensures { numeral.new ≡ flat_map (read_for form.now.thousands.now form.now.decimal) bytes.now }
{
    numeral.clear();
    'bytes: for at in 0..bytes.len() {
        push_read(form, bytes[at], numeral);
    }
}

/// Whether a byte is a digit of a whole number.
pub(crate) fn is_digit(is_hex: bool, byte: u8) -> bool
    ensures { result ≡ is_digit is_hex byte }
{
    if is_hex {
        byte.is_ascii_hexdigit()
    } else {
        byte.is_ascii_digit()
    }
}

/// Counts the digits at the start of bytes.
pub(crate) fn digits_of(is_hex: bool, bytes: &[u8]) -> usize
    ensures count { result ≡ digits_of is_hex bytes.now }
    ensures most { result ≤ length bytes.now }
{
    'bytes: for at in 0..bytes.len() {
        if !is_digit(is_hex, bytes[at]) {
            return at;
        }
    }
    bytes.len()
}

/// Returns the bytes without a leading sign.
pub(crate) fn after_sign(bytes: &[u8]) -> &[u8]
    ensures value { result.now ≡ after_sign bytes.now }
    ensures short { length result.now ≤ length bytes.now }
{
    match bytes {
        [b'+' | b'-', rest @ ..] => rest,
        _ => bytes,
    }
}

/// Whether one of the bytes is in a separator.
pub(crate) fn has_part(separator: &[u8], bytes: &[u8]) -> bool
    ensures { result ≡ has_part separator.now bytes.now }
{
    bytes.iter().any(|byte| separator.contains(byte))
}

/// Returns the bytes after the first `count`.
fn after(bytes: &[u8], count: usize) -> &[u8]
    requires { count ≤ length bytes.now }
    ensures rest { result.now ≡ drop count bytes.now }
    ensures count { length result.now + count ≡ length bytes.now }
{
    &bytes[count..]
}

/// Whether these bytes may follow a group of digits: separators with three digits after each, and then no byte of a
/// separator.
fn is_after_group(is_hex: bool, separator: &[u8], bytes: &[u8]) -> bool
    ensures { result ≡ is_after_group is_hex separator.now bytes.now }
{
    let mut rest = bytes;
    'groups: while rest.starts_with(separator) {
        let group = after(rest, separator.len());
        if digits_of(is_hex, group) != 3 {
            return false;
        }
        rest = after(group, 3);
    }
    !has_part(separator, rest)
}

/// Whether the whole digits of a number are in groups: one to three digits, and then three after each separator.
fn is_grouped(is_hex: bool, separator: &[u8], number: &[u8]) -> bool
    ensures { result ≡ is_grouped is_hex separator.now number.now }
{
    let first = digits_of(is_hex, number);
    1 <= first && first <= 3 && is_after_group(is_hex, separator, &number[first..])
}

/// Whether thousands separators must stand between groups, and a field has one elsewhere.
pub(crate) fn is_misplaced(form: &FieldForm<'_>, radix: Radix, bytes: &[u8]) -> bool
    ensures { result ≡ is_misplaced form.now radix bytes.now }
{
    form.has_groups
        && has_part(form.thousands, bytes)
        && !is_grouped(radix.base() == 16, form.thousands, after_sign(bytes))
}

/// Returns a byte of a number as it is written.
fn marked(mark: u8, byte: u8) -> u8
    ensures { result ≡ marked mark byte }
{
    if byte == b'.' { mark } else { byte }
}

/// Rewrites a reply with the mark for each point. The scratch holds a copy.
fn write_marked(mark: u8, scratch: &mut RecordBuffer, out: &mut Output)
    ensures { out.new ≡ map (marked mark) out.old }
{
    scratch.clear();
    scratch.append(out.as_bytes());
    out.clear();
    'bytes: for at in 0..scratch.len() {
        let bytes = scratch.as_slice();
        out.push(marked(mark, bytes[at]));
    }
}

/// Whether each byte is read unchanged.
fn is_plain(form: &FieldForm<'_>) -> bool
    ensures decimal { IsTrue result → form.now.decimal ≡ 46 }
    ensures thousands { IsTrue result → form.now.thousands.now ≡ [] }
{
    form.decimal == b'.' && form.thousands.is_empty()
}

/// Replies to the numeral of a field as to a line.
pub trait FieldReply<L: Ledger> {
    /// Whether a text with its flag is the reply to a line.
    ghost Replies: { Self → List ℕ → AnswerText → Type 0 };

    /// Writes the reply to a line, and returns whether it is a refusal.
    fn reply_to(&self, line: &[u8], out: &mut Output, steps: &mut Steps<L>) -> bool
        requires { out.old ≡ [] }
        ensures { Replies self.now line.now (record { text = out.new; fault = result }) };

    /// A line has at most one reply.
    ghost one_law: { (rule : Self) (line : List ℕ) (a b : AnswerText) → Replies rule line a → Replies rule line b
        → a ≡ b };
}

impl<L: Ledger> FieldReply<L> for ConvertRule {
    ghost use Rattle.fixed_command.specs.Convert.{IsLineReply};
    ghost use Rattle.fixed_command.specs.Lemmas.ReplyLemmas.{line_reply_one};

    ghost Replies = { λ rule. IsLineReply rule };

    fn reply_to(&self, line: &[u8], out: &mut Output, steps: &mut Steps<L>) -> bool {
        self.push_reply(without_return(line), out, steps)
    }

    ghost one_law = { λ rule. line_reply_one rule };
}

/// Writes the reply to an empty field.
fn reply_to_empty<R: FieldReply<L>, L: Ledger>(
    empty: Empty,
    rule: &R,
    out: &mut Output,
    steps: &mut Steps<L>,
) -> bool
    requires { out.old ≡ [] }
    ensures { IsEmptyReply empty (R.Replies rule.now) (record { text = out.new; fault = result }) }
{
    match empty {
        Empty::Kept => false,
        Empty::Refused => rule.reply_to(b"", out, steps),
        Empty::Zero => rule.reply_to(b"0", out, steps),
    }
}

/// The rule that converts fields which are spelled in a form.
#[derive(Drop)]
pub struct FieldNumerals<'a, R> {
    /// How the numeral of a field is converted.
    pub rule: &'a R,
    /// The radix of its digits.
    pub radix: Radix,
    /// How a field spells the numeral.
    pub form: &'a FieldForm<'a>,
}

impl<'a, R> FieldNumerals<'a, R> {
    /// Writes the reply to a field that is not empty.
    fn reply_to_read<L: Ledger>(
        &self,
        bytes: &[u8],
        scratch: &mut RecordBuffer,
        out: &mut Output,
        steps: &mut Steps<L>,
    ) -> bool
    where
        R: FieldReply<L>,
        requires short { length bytes.now ≤ longest_record }
        requires empty { out.old ≡ [] }
        ensures { (field : List ℕ) → bytes.now ≡ bare self.now.form.now field
            → IsReadReply (is_misplaced self.now.form.now self.now.radix bytes.now) self.now.form.now
            (R.Replies self.now.rule.now) field (record { text = out.new; fault = result }) }
    {
        if is_plain(self.form) {
            return self.rule.reply_to(bytes, out, steps);
        }
        if is_misplaced(self.form, self.radix, bytes) {
            push_fault(out, "misplaced thousands separator");
            return true;
        }
        write_read(self.form, bytes, scratch);
        self.rule.reply_to(scratch.as_slice(), out, steps)
    }

    /// Writes the reply to a field, with a point in its number.
    fn reply_with_point<L: Ledger>(
        &self,
        field: &[u8],
        scratch: &mut RecordBuffer,
        out: &mut Output,
        steps: &mut Steps<L>,
    ) -> bool
    where
        R: FieldReply<L>,
        requires short { length field.now ≤ longest_record }
        requires empty { out.old ≡ [] }
        ensures { IsPointReply self.now.form.now self.now.radix (R.Replies self.now.rule.now) field.now (record {
          text = out.new;
          fault = result;
        }) }
    {
        let bytes = bare(self.form, field);
        if bytes.is_empty() {
            return reply_to_empty(self.form.empty, self.rule, out, steps);
        }
        self.reply_to_read(bytes, scratch, out, steps)
    }
}

impl<'a, R: FieldReply<L>, L: Ledger> FieldRule<L> for FieldNumerals<'a, R> {
    ghost use Rattle.fixed_command.specs.Fields.{IsFieldReply};
    ghost use Rattle.fixed_command.specs.Lemmas.FieldLemmas.{field_reply_one};

    ghost Answers = { λ fields. IsFieldReply fields.form.now fields.radix (R.Replies fields.rule.now) };

    fn answer(
        &self,
        field: &[u8],
        scratch: &mut RecordBuffer,
        out: &mut Output,
        steps: &mut Steps<L>,
    ) -> bool {
        if self.reply_with_point(field, scratch, out, steps) {
            return true;
        }
        if self.form.mark == b'.' {
            return false;
        }
        write_marked(self.form.mark, scratch, out);
        false
    }

    ghost one_law = { λ fields. field_reply_one fields.form.now fields.radix (R.Replies fields.rule.now)
        (R.one_law fields.rule.now) };
}
