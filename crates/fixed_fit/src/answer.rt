//! The answer to a list.

ghost use Rattle.std.specs.Prelude.{◌≡◌, ◌<◌, ◌≤◌, ◌+◌, ◌++◌, ◌∷◌, [], List};
ghost use Rattle.std.specs.Prelude.{ℕ, OnErr, OnOk, length, decimal};
ghost use Rattle.fixed_least.specs.Least.{fault_line};
ghost use Rattle.line_engine.specs.Lines.{lines};
ghost use Rattle.run_engine.specs.Seen.{Breaks, Puts};
ghost use Rattle.fixed_error.specs.Errors.{HasGreatestErrors};
ghost use Rattle.fixed_show.specs.Blocks.{Appends};
ghost use Rattle.fixed_fit.specs.Answer.{IsAnswer, format_of, from_line, name_of};
ghost use Rattle.fixed_fit.specs.ErrorWord.{IsErrorWord, entries_from};
ghost use Rattle.fixed_fit.specs.Fitting.{AllFit};
ghost use Rattle.fixed_fit.specs.Unfit.{named, said, unfit_text, why_of};
ghost use Rattle.fixed_fit.specs.Inner.Lengths.{AreLengths, IsLengthsAnswer, IsSomeAnswer, reason_of};
ghost use Rattle.fixed_fit.specs.Inner.Reading.{HasLines};
ghost use Rattle.fixed_fit.specs.Inner.Serving.{lesser_of, unbounded};

use crate::error_word::{push_half, push_size};
use crate::lengths::{Lengths, frac_lengths, with_frac};
use crate::question::Question;
use crate::reader::Reader;
use fixed_bits::Format;
use fixed_error::GreatestErrors;
use fixed_least::LeastFault;
use fixed_numeral::ParseFixedError;
use fixed_respell::format_name;
use fixed_steps::Steps;
use itoa::Buffer;
use line_engine::Failed;
use run_engine::{Gathered, Streams};
use std::sync::ledger::Ledger;
use text_buffer::TextBuffer;

/// The greatest length of an answer in bytes.
pub const MOST: usize = 1536;

/// Why no format is named.
#[derive(Clone, Copy, Debug, PartialEq, Eq)]
pub enum Unfit {
    /// This line, counted from 1, is not a numeral, for this reason.
    NotNumeral {
        /// The line number.
        place: u64,
        /// The reason.
        error: ParseFixedError,
    },
    /// No format of the width fits the lines up to this line number; 0 if no format may be chosen.
    NoneFits(u64),
    /// No format fits within the error from this line number on; 0 if no format does, whatever the lines.
    NoneServes(u64),
}

/// The text that names a format, or the reason why no format is named.
pub type Answer = Result<TextBuffer<MOST>, Unfit>;

/// Appends the name of a format by its kind and its fraction length.
fn push_name(out: &mut TextBuffer<MOST>, kind: Format, frac: u32)
    requires within { frac ≤ 64 }
    requires room { length out.old + 16 ≤ 1536 }
    ensures appended { out.new ≡ out.old ++ name_of kind.signed kind.width frac }
    ensures short { length out.new ≤ length out.old + 16 }
{
    let format = Format::of(kind.signed(), kind.width(), frac);
    out.push_bytes(format_name(format).as_bytes());
}

/// Appends a number in decimal.
fn push_number(out: &mut TextBuffer<MOST>, number: u64)
    requires room { length out.old + 20 ≤ 1536 }
    ensures appended { out.new ≡ out.old ++ decimal number }
    ensures short { length out.new ≤ length out.old + 20 }
{
    let mut digits = Buffer::new();
    out.push_bytes(digits.format(number).as_bytes());
}

/// Appends ` line ` and a line number, unless the number is 0.
fn push_from(out: &mut TextBuffer<MOST>, place: u64)
    requires room { length out.old + 26 ≤ 1536 }
    ensures appended { out.new ≡ out.old ++ from_line place }
    ensures short { length out.new ≤ length out.old + 26 }
{
    if 0 < place {
        out.push_bytes(b" line ");
        push_number(out, place);
    }
}

/// Appends a line number in decimal and a newline.
fn push_place(out: &mut TextBuffer<MOST>, place: u64)
    requires room { length out.old + 21 ≤ 1536 }
    ensures appended { out.new ≡ out.old ++ (decimal place ++ 10 ∷ []) }
    ensures short { length out.new ≤ length out.old + 21 }
{
    let mut digits = Buffer::new();
    out.push_bytes(digits.format(place).as_bytes());
    out.push(b'\n');
}

/// Appends the line that rules out the next longer fraction length, if that length exists and the reason is requested.
fn push_reason(out: &mut TextBuffer<MOST>, kind: Format, frac: u32, place: u64, question: &Question)
    requires within { frac ≤ 64 }
    requires room { length out.old + 43 ≤ 1536 }
    ensures appended { out.new ≡ out.old ++ reason_of question.now.fractions question.now.is_reason_asked kind.signed
        kind.width frac place }
    ensures short { length out.new ≤ length out.old + 43 }
{
    let count = frac_lengths(question.fractions, kind.width());
    if question.is_reason_asked && frac + 1 < count {
        push_name(out, kind, frac + 1);
        out.push_bytes(b" line ");
        push_place(out, place);
    }
}

/// Returns the text of an answer that names no format.
pub fn unfit_text(unfit: Unfit) -> TextBuffer<MOST>
    ensures { result ≡ unfit_text unfit }
{
    let mut text: TextBuffer<MOST> = TextBuffer::new();
    match unfit {
        Unfit::NotNumeral { place, error } => {
            text.push_bytes(b"error: line ");
            push_number(&mut text, place);
            text.push_bytes(b": ");
            text.push_bytes(error.message().as_bytes());
            text.push(b'\n');
        }
        Unfit::NoneFits(place) | Unfit::NoneServes(place) => {
            text.push_bytes(b"none");
            push_from(&mut text, place);
            text.push(b'\n');
        }
    }
    text
}

/// Returns the reason why an answer names no format, if it names none.
pub fn why(answer: &Answer) -> Option<Unfit>
    ensures { result ≡ why_of answer.now }
{
    match answer {
        Ok(_) => None,
        Err(unfit) => Some(*unfit),
    }
}

/// Writes an answer.
pub fn put_answer<I: Streams>(answer: &Answer, out: &mut Gathered<I>) -> Result<(), Failed>
    ensures ok { OnOk result (Puts (I.seen out.old.io) (I.seen out.new.io) out.old.text out.new.text
        (said answer.now).text) }
    ensures err { OnErr result (Breaks (I.seen out.old.io) (I.seen out.new.io) out.old.text (said answer.now).text) }
{
    match answer {
        Ok(text) => out.put(text.as_bytes()),
        Err(unfit) => out.put(unfit_text(*unfit).as_bytes()),
    }
}

/// Returns the reason for a line that is not a numeral.
pub fn no_numeral(fault: LeastFault) -> Unfit
    ensures { unfit_text result ≡ fault_line fault }
{
    let LeastFault::NotNumeral { place, error } = fault;
    Unfit::NotNumeral { place, error }
}

/// Appends the line from which on no format of the next lesser width serves, if one is tried and the reason is
/// requested.
pub fn push_lesser(out: &mut TextBuffer<MOST>, below: u32, place: u64, is_asked: bool)
    requires room { length out.old + 53 ≤ 1536 }
    ensures { out.new ≡ out.old ++ lesser_of is_asked below place }
{
    if is_asked && 0 < below {
        out.push_bytes(b"width ");
        push_number(out, u64::from(below));
        push_from(out, place);
        out.push(b'\n');
    }
}

/// Appends the greatest error of a list in the format of a kind and a fraction length.
fn push_error<L: Ledger>(
    out: &mut TextBuffer<MOST>,
    errors: &GreatestErrors,
    kind: Format,
    frac: u32,
    question: &Question,
    steps: &mut Steps<L>,
)
    requires within { frac ≤ 64 }
    requires kept { frac < length errors.now.errors.items }
    requires known { (count : ℕ) × (list : List (List ℕ))
        × HasGreatestErrors question.now.radix count (entries_from 1 list) errors.now
        × AllFit question.now.radix kind.signed kind.width frac list }
    requires room { length out.old + 1380 ≤ 1536 }
    ensures short { length out.new ≤ length out.old + 1380 }
    ensures word { (count : ℕ) (list : List (List ℕ))
        → HasGreatestErrors question.now.radix count (entries_from 1 list) errors.now
        → Appends (IsErrorWord question.now.is_range question.now.radix (format_of kind.signed kind.width frac) list)
        1380 out.old out.new }
{
    let format = with_frac(kind, frac);
    let greatest = errors.at(frac);
    if question.is_range {
        push_half(out, format, steps);
    } else if greatest.is_some() {
        push_size(out, greatest.numeral(), question.radix, format, steps);
    } else {
        out.push(b'0');
    }
}

/// Returns the answer that names a format by its kind and its fraction length.
pub fn found_answer<L: Ledger>(
    errors: &GreatestErrors,
    kind: Format,
    frac: u32,
    place: u64,
    question: &Question,
    steps: &mut Steps<L>,
) -> TextBuffer<MOST>
    requires within { frac ≤ 64 }
    requires kept { frac < length errors.now.errors.items }
    requires known { (count : ℕ) × (list : List (List ℕ))
        × HasGreatestErrors question.now.radix count (entries_from 1 list) errors.now
        × AllFit question.now.radix kind.signed kind.width frac list }
    ensures some { (count : ℕ) (list : List (List ℕ))
        → HasGreatestErrors question.now.radix count (entries_from 1 list) errors.now
        → IsSomeAnswer question.now list kind frac place (named result) }
    ensures short { length result ≤ 1447 }
{
    let mut text: TextBuffer<MOST> = TextBuffer::new();
    push_name(&mut text, kind, frac);
    text.push_bytes(b" error ");
    push_error(&mut text, errors, kind, frac, question, steps);
    text.push(b'\n');
    push_reason(&mut text, kind, frac, place, question);
    text
}

/// Returns the answer for the fraction lengths that are left.
fn lengths_answer<L: Ledger>(
    lengths: &Lengths,
    errors: &GreatestErrors,
    question: &Question,
    steps: &mut Steps<L>,
) -> Answer
    requires known { (count : ℕ) × (list : List (List ℕ))
        × HasGreatestErrors question.now.radix count (entries_from 1 list) errors.now
        × AreLengths question.now.fractions question.now.radix list lengths.now × lengths.now.count ≤ count }
    ensures { (count : ℕ) (list : List (List ℕ))
        → HasGreatestErrors question.now.radix count (entries_from 1 list) errors.now
        → IsLengthsAnswer question.now list lengths.now (said result) }
{
    let all = *lengths;
    let count = all.count;
    if count == 0 {
        return Err(Unfit::NoneFits(all.place));
    }
    Ok(found_answer(errors, all.kind, count - 1, all.place, question, steps))
}

/// Returns the answer to an input from what is known of its lines.
pub fn answer_of<L: Ledger>(reader: &Reader, question: &Question, steps: &mut Steps<L>) -> Answer
    requires { (list : List (List ℕ))
        × HasLines question.now.radix (unbounded question.now.kind.width question.now.fractions) list reader.now }
    ensures { (input : List ℕ)
        → HasLines question.now.radix (unbounded question.now.kind.width question.now.fractions) (lines input)
        reader.now → IsAnswer question.now input (said result) }
{
    let known = reader.progress;
    match known.fault {
        Some(fault) => Err(no_numeral(fault)),
        None => {
            let has_sign = question.kind.signed() | known.is_below;
            if has_sign {
                lengths_answer(&known.signed, &reader.errors, question, steps)
            } else {
                lengths_answer(&known.plain, &reader.errors, question, steps)
            }
        }
    }
}
