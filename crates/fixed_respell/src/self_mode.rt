//! The self test: it answers generated lines and sums up their answers.

ghost use Rattle.std.specs.Prelude.{◌≡◌, ◌≤◌, ◌<◌, ◌+◌, ◌*◌, ◌^◌, ◌++◌, ◌∷◌, ◌↔◌, [], IsTrue, ℕ, List, length};
ghost use Rattle.std.specs.Int.{from_bool};
ghost use Rattle.fixed_respell.specs.LineWords.{space};
ghost use Rattle.line_engine.specs.Output.{reply_line};
ghost use Rattle.line_engine.specs.AnswerText.{AnswerText};
ghost use Rattle.fixed_respell.specs.SelfMode.{HasSelfRun, IsTally, IsWithin, digit_letter, ends_in, format_at};
ghost use Rattle.fixed_respell.specs.SelfMode.{number_text, policy_at, radix_at, self_exponent, self_line};
ghost use Rattle.fixed_respell.specs.SelfMode.{self_numeral, self_sign, self_words, summary_text, tally_of};

use crate::answering::answer;
use crate::{Answer, Sink, Status};
use arrayvec::ArrayVec;
use fixed_steps::Steps;
use line_engine::write_whole;
use std::marker::Model;
use std::sync::ledger::Ledger;

/// The greatest length of a generated line or the summary, in bytes.
const MAX_TEXT: usize = 192;

/// A generated line, or the summary.
type Text = ArrayVec<u8, MAX_TEXT>;

/// Appends a digit below 16.
fn push_digit(text: &mut Text, digit: u8)
    requires digit { digit < 16 }
    requires room { length text.old.items < MAX_TEXT }
    ensures text { text.new.items ≡ text.old.items ++ digit_letter digit ∷ [] }
    ensures len { length text.new.items ≡ length text.old.items + 1 }
{
    text.push(b"0123456789abcdef"[digit as usize]);
}

/// Appends a number in a base of at most 16, without a leading zero, zero as `0`.
#[tactic(auto, using(crate::proofs::SelfLemmas::number_digit, crate::proofs::SelfLemmas::number_more, crate::proofs::SelfLemmas::digit_length, crate::proofs::SelfLemmas::more_length))]
fn push_number(text: &mut Text, base: u64, number: u64)
    requires least { 2 ≤ base }
    requires most { base ≤ 16 }
    requires room { length text.old.items + length (number_text base number) ≤ MAX_TEXT }
    ensures text { text.new.items ≡ text.old.items ++ number_text base number }
    ensures len { length text.new.items ≡ length text.old.items + length (number_text base number) }
{
    if number < base {
        push_digit(text, number as u8);
    } else {
        push_number(text, base, number / base);
        push_digit(text, (number % base) as u8);
    }
}

/// Appends a part of a text. There is room for it.
fn push_part(text: &mut Text, part: &str)
    requires { length text.old.items + length part.now ≤ MAX_TEXT }
    ensures text { text.new.items ≡ text.old.items ++ part.now }
    ensures len { length text.new.items ≡ length text.old.items + length part.now }
{
    text.try_extend_from_slice(part.as_bytes()).unwrap();
}

/// Appends a word and a space.
fn push_word(text: &mut Text, word: &str)
    requires { length text.old.items + length word.now < MAX_TEXT }
    ensures text { text.new.items ≡ text.old.items ++ word.now ++ space ∷ [] }
    ensures len { length text.new.items ≡ length text.old.items + length word.now + 1 }
{
    push_part(text, word);
    text.push(b' ');
}

/// Returns the radix of a line.
fn radix_at(line: u64) -> u64
    ensures radix { result ≡ radix_at line }
    ensures least { 2 ≤ result }
    ensures most { result ≤ 16 }
{
    match line % 4 {
        0 => 2,
        1 => 8,
        2 => 10,
        _ => 16,
    }
}

/// Returns the format at an index of the list, which starts over after its end.
fn format_at(place: u64) -> &'static str
    ensures word { result.now ≡ format_at place }
    ensures short { length result.now ≤ 6 }
{
    match place % 8 {
        0 => "U8F0",
        1 => "I4F4",
        2 => "U0F8",
        3 => "I8F8",
        4 => "U16F16",
        5 => "I1F31",
        6 => "U0F64",
        _ => "I32F32",
    }
}

/// Returns the policy of a line.
fn policy_at(line: u64) -> &'static str
    ensures word { result.now ≡ policy_at line }
    ensures short { length result.now ≤ 10 }
{
    match line % 3 {
        0 => "checked",
        1 => "saturating",
        _ => "wrapping",
    }
}

/// Returns the sign of a line's numeral.
fn sign_of(line: u64) -> &'static str
    ensures sign { result.now ≡ self_sign line }
    ensures short { length result.now ≤ 1 }
{
    if line % 5 == 4 { "-" } else { "" }
}

/// Returns the exponent of a line's numeral, with its separator.
fn exponent_of(line: u64) -> &'static str
    ensures exponent { result.now ≡ self_exponent line }
    ensures short { length result.now ≤ 3 }
{
    if line % 7 == 6 { "@-3" } else { "" }
}

/// Returns the fields of a generated line before its numeral, each followed by a space.
#[tactic(auto, using(crate::proofs::SelfLemmas::radix_short))]
fn self_words(line: u64) -> Text
    ensures words { result.items ≡ self_words line }
    ensures short { length result.items ≤ 28 }
{
    let mut text = ArrayVec::new();
    push_number(&mut text, 10, radix_at(line));
    push_part(&mut text, " ");
    push_word(&mut text, format_at(line / 4));
    push_word(&mut text, format_at(line / 32));
    push_word(&mut text, policy_at(line));
    text
}

/// Appends the numeral of a line.
#[tactic(auto, using(crate::proofs::SelfLemmas::line_short, crate::proofs::SelfLemmas::fraction_short))]
fn push_numeral(text: &mut Text, line: u64)
    requires few { line < 2 ^ 20 }
    requires room { length text.old.items ≤ 28 }
    ensures numeral { text.new.items ≡ text.old.items ++ self_numeral line }
    ensures short { length text.new.items < 100 }
{
    let radix = radix_at(line);
    push_part(text, sign_of(line));
    push_number(text, radix, line);
    push_part(text, ".");
    push_number(text, radix, 7919 * line % 65536);
    push_part(text, exponent_of(line));
}

/// Returns a generated line. It is shorter than 100 bytes.
#[tactic(auto, unfolding(crate::specs::SelfMode::self_line))]
fn self_line(line: u64) -> Text
    requires few { line < 2 ^ 20 }
    ensures line { result.items ≡ self_line line }
    ensures short { length result.items < 100 }
{
    let mut text = self_words(line);
    push_numeral(&mut text, line);
    text
}

/// Returns 1 if an answer ends in a word, else 0.
fn times_at_the_end(word: &[u8], reply: &Answer) -> u64
    ensures ends { result ≡ from_bool (ends_in word.now reply.now) }
    ensures once { result ≤ 1 }
{
    u64::from(reply.as_bytes().ends_with(word))
}

/// Counts the bytes that are written for an answer, with its newline.
fn bytes_with_newline(reply: &Answer) -> u64
    ensures bytes { result ≡ length (reply_line reply.now) }
    ensures short { result ≤ 193 }
{
    reply.as_bytes().len() as u64 + 1
}

/// The number of answers that end in `fits`, that end in `overflowed` and that are faults, and the bytes of all
/// answers, with a newline each.
#[derive(Drop)]
struct Counts {
    fit: u64,
    overflowed: u64,
    faults: u64,
    bytes: u64,
}

impl Model for Counts {
    ghost use Rattle.fixed_respell.specs.SelfMode.{Tally};

    ghost Value = { Tally };

    ghost view = { λ c. record { fit = c.fit; overflowed = c.overflowed; faults = c.faults; bytes = c.bytes } };
}

impl Counts {
    /// Returns the counts of no answers.
    fn new() -> Counts
        ensures { result ≡ tally_of [] }
    {
        Counts {
            fit: 0,
            overflowed: 0,
            faults: 0,
            bytes: 0,
        }
    }

    /// Counts an answer.
    fn add(&mut self, reply: &Answer)
        requires { IsWithin 1000000 self.old }
        ensures within { (n : ℕ) → IsWithin n self.old → IsWithin (n + 1) self.new }
        ensures tally { (replies : List AnswerText) → self.old ≡ tally_of replies
            → self.new ≡ tally_of (replies ++ reply.now ∷ []) }
    {
        self.fit += times_at_the_end(b"fits", reply);
        self.overflowed += times_at_the_end(b"overflowed", reply);
        self.faults += u64::from(reply.is_fault());
        self.bytes += bytes_with_newline(reply);
    }

    /// Whether an answer was a fault.
    fn has_fault(&self) -> bool
        ensures { IsTrue result ↔ 0 < self.now.faults }
    {
        self.faults > 0
    }
}

/// Answers the first `count` generated lines and counts their answers.
fn count_answers<L: Ledger>(count: u64, steps: &mut Steps<L>) -> Counts
    requires { count ≤ 1000000 }
    ensures tally { IsTally count result }
    ensures within { IsWithin count result }
    ensures cost { steps.new ≤ steps.old + 1424 * count }
{
    let mut counts = Counts::new();
    for line in 0..count {
        counts.add(&answer(self_line(line).as_slice(), steps));
    }
    counts
}

/// Appends a number in decimal and the words after it.
#[tactic(auto, using(crate::proofs::SelfLemmas::count_short))]
fn push_count(text: &mut Text, number: u64, words: &str)
    requires number { number < 10 ^ 9 }
    requires room { length text.old.items + 9 + length words.now ≤ MAX_TEXT }
    ensures text { text.new.items ≡ text.old.items ++ number_text 10 number ++ words.now }
    ensures short { length text.new.items ≤ length text.old.items + 9 + length words.now }
{
    push_number(text, 10, number);
    push_part(text, words);
}

/// Returns the summary line, with its newline.
#[tactic(auto, unfolding(crate::specs::SelfMode::summary_text))]
fn summary(count: u64, counts: &Counts) -> Text
    requires count { count ≤ 1000000 }
    requires within { IsWithin count counts.now }
    ensures { result.items ≡ summary_text count counts.now }
{
    let mut text = ArrayVec::new();
    push_count(&mut text, count, " lines, ");
    push_count(&mut text, counts.fit, " fit, ");
    push_count(&mut text, counts.overflowed, " overflowed, ");
    push_count(&mut text, counts.faults, " faults, ");
    push_count(&mut text, counts.bytes, " bytes\n");
    text
}

/// Answers `count` generated lines, at most 1,000,000, and writes the summary line.
///
/// It reads nothing, writes nothing else and takes no memory. It returns `Done` if no answer is a fault, `Faults` if
/// one is, and `WriteFault` if a write failed.
pub(crate) fn run_self<K: Sink, L: Ledger>(count: u64, sink: &mut K, steps: &mut Steps<L>) -> Status
    requires most { count ≤ 1000000 }
    ensures run { HasSelfRun count (K.written sink.old) (K.written sink.new) (K.failures sink.old)
        (K.failures sink.new) result }
    ensures cost { steps.new ≤ steps.old + 1424 * count }
{
    let counts = count_answers(count, steps);
    match write_whole(sink, summary(count, &counts).as_slice()) {
        Err(_) => Status::WriteFault,
        Ok(()) if counts.has_fault() => Status::Faults,
        Ok(()) => Status::Done,
    }
}
