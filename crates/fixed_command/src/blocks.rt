//! Questions about words, each answered with a block of lines or a JSON object, or an object for each field.
//!
//! A block begins with the first 1,024 bytes of its word, even if the word is refused, so that it is found by its word.

ghost use Rattle.std.specs.Prelude.{◌≡◌, ◌≤◌, ◌<◌, ◌+◌, ◌*◌, ◌++◌, List, ℕ, is_some, length, map, take};
ghost use Rattle.std.specs.Prelude.{IfOk, IfSome, OnErr};
ghost use Rattle.std.specs.Io.KnownBytes.{Appends};
ghost use Rattle.fixed_command.specs.Blocks.{BlocksRun, IsAnswered, IsBlock, IsDecimalAnswer, IsFormatAnswer, IsHeaded};
ghost use Rattle.fixed_command.specs.Blocks.{IsObject};
ghost use Rattle.fixed_command.specs.Blocks.{ending, head_line, lead, refused_answer, refused_text};
ghost use Rattle.fixed_show.specs.Blocks as show_blocks;
ghost use Rattle.fixed_show.specs.declared.form.Form.TheVariants.{Lines, Members};
ghost use Rattle.line_engine.specs.AnswerText.{AnswerText};
ghost use Rattle.line_engine.specs.Failures.{FailsOnlyCounted};
ghost use Rattle.line_engine.specs.Output.{AppendsPrefix};

use fixed_amounts::{
    AmountQuestion, amount_block, amount_object, decimal_format_block, decimal_format_named,
    decimal_format_object,
};
use fixed_bits::{Policy, ReadMode};
use fixed_fields::{FieldsQuestion, fields_block, fields_object};
use fixed_names::format_of_name;
use fixed_numeral::Radix;
use fixed_show::{
    Form, MAX_BLOCK, MAX_OBJECT, Part, bits_block, bits_object, format_block, format_object,
    part_block, part_object, push_refusal, push_refused_object, show_block, show_object,
};
use fixed_steps::Steps;
use line_engine::{Failed, Sink, Status, write_whole};
use std::sync::ledger::Ledger;
use text_buffer::TextBuffer;

/// A question about a word.
#[derive(Clone, Copy)]
pub enum Question {
    /// All facts of a numeral in a format.
    Show {
        /// The radix of the numeral.
        radix: Radix,
        /// The format that it is read into.
        format: fixed_bits::Format,
        /// What to do with a number that is out of range.
        policy: Policy,
        /// How it is rounded.
        mode: ReadMode,
    },
    /// The number of a register word in a format.
    Bits {
        /// The radix of a word without a prefix.
        radix: Radix,
        /// The format.
        format: fixed_bits::Format,
    },
    /// The number of a part of a register word in a format.
    Part {
        /// The radix of a word without a prefix.
        radix: Radix,
        /// Which part of the word.
        part: Part,
        /// The format.
        format: fixed_bits::Format,
    },
    /// The numbers of several fields of a register word.
    Fields(FieldsQuestion),
    /// The amount of a numeral or a count of units.
    Amount(AmountQuestion),
    /// The range of the format that the word names.
    Format,
}

/// Appends the block of the decimal format that a word names, or a fault if it names none. Returns the message of the
/// fault.
fn push_decimal_block<const N: usize>(word: &[u8], out: &mut TextBuffer<N>) -> Option<&'static str>
    requires { length out.old + MAX_BLOCK ≤ N }
    ensures block { show_blocks.Appends (λ text. IsDecimalAnswer Lines word.now
        (record { text = text; fault = is_some result })) MAX_BLOCK out.old out.new }
    ensures refused { IfSome result (λ m. out.new ≡ out.old ++ refused_text Lines word.now m.now) }
{
    match decimal_format_named(word) {
        Some(format) => {
            decimal_format_block(format, out);
            None
        }
        None => {
            push_refusal(out, Form::Lines, "bad format");
            Some("bad format")
        }
    }
}

/// Appends the block of the format that a word names, or a fault if it names none. Returns the message of the fault.
fn push_format<const N: usize, L: Ledger>(
    word: &[u8],
    out: &mut TextBuffer<N>,
    steps: &mut Steps<L>,
) -> Option<&'static str>
    requires { length out.old + MAX_BLOCK ≤ N }
    ensures block { show_blocks.Appends (λ text. IsFormatAnswer Lines word.now
        (record { text = text; fault = is_some result })) MAX_BLOCK out.old out.new }
    ensures refused { IfSome result (λ m. out.new ≡ out.old ++ refused_text Lines word.now m.now) }
    ensures cost { steps.new ≤ steps.old + 96 }
{
    match format_of_name(word) {
        Some(format) => {
            format_block(format, out, steps);
            None
        }
        None => push_decimal_block(word, out),
    }
}

/// Appends the block that answers a question about a word. Returns the message of the fault if it reports one.
pub(crate) fn push_block<const N: usize, L: Ledger>(
    question: &Question,
    word: &[u8],
    out: &mut TextBuffer<N>,
    steps: &mut Steps<L>,
) -> Option<&'static str>
    requires { length out.old + MAX_BLOCK ≤ N }
    ensures block { show_blocks.Appends (λ text. IsBlock question.now word.now
        (record { text = text; fault = is_some result })) MAX_BLOCK out.old out.new }
    ensures refused { IfSome result (λ m. out.new ≡ out.old ++ refused_text Lines word.now m.now) }
    ensures cost { steps.new ≤ steps.old + 26 * length word.now + 3307 }
{
    match question {
        Question::Show {
            radix,
            format,
            policy,
            mode,
        } => show_block(word, *radix, *format, *policy, *mode, out, steps),
        Question::Bits { radix, format } => bits_block(word, *radix, *format, out, steps),
        Question::Part {
            radix,
            part,
            format,
        } => part_block(word, *radix, *part, *format, out, steps),
        Question::Fields(question) => fields_block(question, word, out, steps),
        Question::Amount(question) => amount_block(question, word, out, steps),
        Question::Format => push_format(word, out, steps),
    }
}

/// Appends the object of the decimal format that a word names, or a fault if it names none. Returns the message of the
/// fault.
fn push_decimal_object<const N: usize>(word: &[u8], out: &mut TextBuffer<N>) -> Option<&'static str>
    requires { length out.old + MAX_OBJECT ≤ N }
    ensures object { show_blocks.Appends (λ text. IsDecimalAnswer Members word.now
        (record { text = text; fault = is_some result })) MAX_OBJECT out.old out.new }
    ensures refused { IfSome result (λ m. out.new ≡ out.old ++ refused_text Members word.now m.now) }
{
    match decimal_format_named(word) {
        Some(format) => {
            decimal_format_object(word, format, out);
            None
        }
        None => {
            push_refused_object(out, word, "bad format");
            Some("bad format")
        }
    }
}

/// Appends the object of the format that a word names, or a fault if it names none. Returns the message of the fault.
fn push_format_object<const N: usize, L: Ledger>(
    word: &[u8],
    out: &mut TextBuffer<N>,
    steps: &mut Steps<L>,
) -> Option<&'static str>
    requires { length out.old + MAX_OBJECT ≤ N }
    ensures object { show_blocks.Appends (λ text. IsFormatAnswer Members word.now
        (record { text = text; fault = is_some result })) MAX_OBJECT out.old out.new }
    ensures refused { IfSome result (λ m. out.new ≡ out.old ++ refused_text Members word.now m.now) }
    ensures cost { steps.new ≤ steps.old + 96 }
{
    match format_of_name(word) {
        Some(format) => {
            format_object(word, format, out, steps);
            None
        }
        None => push_decimal_object(word, out),
    }
}

/// Appends the object that answers a question about a word. Returns the message of the fault if it reports one.
fn push_object<const N: usize, L: Ledger>(
    question: &Question,
    word: &[u8],
    out: &mut TextBuffer<N>,
    steps: &mut Steps<L>,
) -> Option<&'static str>
    requires { length out.old + MAX_OBJECT ≤ N }
    ensures object { show_blocks.Appends (λ text. IsObject question.now word.now
        (record { text = text; fault = is_some result })) MAX_OBJECT out.old out.new }
    ensures refused { IfSome result (λ m. out.new ≡ out.old ++ refused_text Members word.now m.now) }
    ensures cost { steps.new ≤ steps.old + 26 * length word.now + 3307 }
{
    match question {
        Question::Show {
            radix,
            format,
            policy,
            mode,
        } => show_object(word, *radix, *format, *policy, *mode, out, steps),
        Question::Bits { radix, format } => bits_object(word, *radix, *format, out, steps),
        Question::Part {
            radix,
            part,
            format,
        } => part_object(word, *radix, *part, *format, out, steps),
        Question::Fields(question) => fields_object(question, word, out, steps),
        Question::Amount(question) => amount_object(question, word, out, steps),
        Question::Format => push_format_object(word, out, steps),
    }
}

/// How many bytes of a word are shown above its block.
const MAX_SHOWN: usize = 1024;

/// The length of the longest block with the line of its word, in bytes.
const MAX_HEADED: usize = 4363;

/// Returns the first bytes, at most `most`.
#[tactic(auto, using(std::proofs::lemmas::List::take_min))]
pub(crate) fn first_bytes(bytes: &[u8], most: usize) -> &[u8]
    ensures value { result.now ≡ take most bytes.now }
    ensures short { length result.now ≤ most }
{
    &bytes[..most.min(bytes.len())]
}

/// Appends a line with the first bytes of the given word.
pub(crate) fn push_head<const N: usize>(out: &mut TextBuffer<N>, word: &[u8])
    requires { length out.old + 1035 ≤ N }
    ensures appended { out.new ≡ out.old ++ head_line word.now }
    ensures short { length out.new ≤ length out.old + 1035 }
{
    out.push_bytes(b"given     ");
    out.push_bytes(first_bytes(word, MAX_SHOWN));
    out.push(b'\n');
}

/// Appends a line of a word and the block that answers a question about it. Returns the message of the fault if the
/// block reports one.
fn push_headed<const N: usize, L: Ledger>(
    question: &Question,
    word: &[u8],
    out: &mut TextBuffer<N>,
    steps: &mut Steps<L>,
) -> Option<&'static str>
    requires { length out.old + MAX_HEADED ≤ N }
    ensures block { show_blocks.Appends (λ text. IsHeaded question.now word.now
        (record { text = text; fault = is_some result })) MAX_HEADED out.old out.new }
    ensures refused { IfSome result (λ m. out.new ≡ out.old ++ refused_answer Lines word.now m.now) }
    ensures cost { steps.new ≤ steps.old + 26 * length word.now + 3307 }
{
    push_head(out, word);
    push_block(question, word, out, steps)
}

/// Appends the answer to a question about a word in a form, at most `MAX_OBJECT` bytes. Returns the message of the
/// fault if it reports one.
pub(crate) fn push_answer<const N: usize, L: Ledger>(
    form: Form,
    question: &Question,
    word: &[u8],
    out: &mut TextBuffer<N>,
    steps: &mut Steps<L>,
) -> Option<&'static str>
    requires { length out.old + MAX_OBJECT ≤ N }
    ensures answer { show_blocks.Appends (λ text. IsAnswered form question.now word.now
        (record { text = text; fault = is_some result })) MAX_OBJECT out.old out.new }
    ensures refused { IfSome result (λ m. out.new ≡ out.old ++ refused_answer form word.now m.now) }
    ensures cost { steps.new ≤ steps.old + 26 * length word.now + 3307 }
{
    match form {
        Form::Lines => push_headed(question, word, out, steps),
        Form::Members => push_object(question, word, out, steps),
    }
}

/// Appends the separator before an answer: an empty line between two blocks, if one was already written.
fn push_lead<const N: usize>(out: &mut TextBuffer<N>, form: Form, has_begun: bool)
    requires { length out.old < N }
    ensures appended { out.new ≡ out.old ++ lead form has_begun }
    ensures short { length out.new ≤ length out.old + 1 }
{
    if has_begun && form == Form::Lines {
        out.push(b'\n');
    }
}

/// Appends the end of an answer: the newline after an object.
fn push_ending<const N: usize>(out: &mut TextBuffer<N>, form: Form)
    requires { length out.old < N }
    ensures appended { out.new ≡ out.old ++ ending form }
{
    if form == Form::Members {
        out.push(b'\n');
    }
}

/// Writes the answer to a question about a word in a form, after its separator. Returns true if it reports a fault.
#[inline(never)]
fn write_answer<K: Sink, L: Ledger>(
    form: Form,
    question: &Question,
    word: &[u8],
    has_begun: bool,
    sink: &mut K,
    steps: &mut Steps<L>,
) -> Result<bool, Failed>
    ensures ok { IfOk result (λ fault. (text : List ℕ) × IsAnswered form question.now word.now
        (record { text = text; fault = fault })
        × Appends (K.written sink.old) (K.written sink.new) (lead form has_begun ++ (text ++ ending form))) }
    ensures err { OnErr result ((answer : AnswerText) × IsAnswered form question.now word.now answer
        × AppendsPrefix (K.written sink.old) (K.written sink.new)
        (lead form has_begun ++ (answer.text ++ ending form))) }
    ensures failures { FailsOnlyCounted (K.failures sink.old) (K.failures sink.new) result }
{
    let mut out: TextBuffer<8002> = TextBuffer::new();
    push_lead(&mut out, form, has_begun);
    let refused = push_answer(form, question, word, &mut out, steps);
    push_ending(&mut out, form);
    write_whole(sink, out.as_bytes())?;
    Ok(refused.is_some())
}

/// Writes an answer about each word in a form, in order: blocks with an empty line between two, or objects, each on a
/// line. It does not allocate or read.
pub fn run_blocks<K: Sink, L: Ledger>(
    form: Form,
    question: &Question,
    words: &[&str],
    sink: &mut K,
    steps: &mut Steps<L>,
) -> Status
    ensures { BlocksRun form question.now (map (λ w. w.now) words.now) (K.written sink.old) (K.written sink.new)
        (K.failures sink.old) (K.failures sink.new) result }
{
    let mut has_fault = false;
    let mut has_begun = false;
    let mut rest = words;
    while !rest.is_empty() {
        match write_answer(form, question, rest[0].as_bytes(), has_begun, sink, steps) {
            Err(_) => return Status::WriteFault,
            Ok(is_fault) => has_fault |= is_fault,
        }
        has_begun = true;
        rest = &rest[1..];
    }
    if has_fault {
        Status::Faults
    } else {
        Status::Done
    }
}
