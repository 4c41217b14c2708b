//! The facts of an amount, of a count of units, and of a decimal format, in lines for people or as members of a JSON
//! object.

ghost use Rattle.std.specs.Prelude.{◌≡◌, ◌+◌, ◌*◌, ◌≤◌, ◌++◌, IfSome, codes, is_some, length};
ghost use Rattle.fixed_amounts.specs.Facts.{AreFacts, IsAmountBlock, IsAmountObject, format_facts, values};
ghost use Rattle.fixed_amounts.specs.Names.{name_text};
ghost use Rattle.fixed_amounts.specs.Reply.{unit_word};
ghost use Rattle.fixed_decimal.specs.Texts.{decimal_format_text};
ghost use Rattle.fixed_show.specs.Blocks.{Appends, hex_text};
ghost use Rattle.fixed_show.specs.Forms.{fact, refusal};
ghost use Rattle.fixed_show.specs.JsonText.{object_text};
ghost use Rattle.fixed_show.specs.ShowBlock.{range_text};
ghost use Rattle.fixed_show.specs.declared.form.Form.TheVariants.{Lines, Members};

use crate::explain::push_name;
use crate::reading::{read_decimal, read_units};
use crate::reply::push_hex;
use fixed_bits::{Policy, ReadMode};
use fixed_decimal::{DecimalFormat, push_decimal_format};
use fixed_show::{
    Form, MAX_BLOCK, MAX_OBJECT, decimal_error, push_fact, push_given, push_integer_fact,
    push_refusal,
};
use fixed_steps::Steps;
use std::sync::ledger::Ledger;
use text_buffer::TextBuffer;

/// A question about a word.
#[derive(Clone, Copy, Debug, PartialEq, Eq)]
pub enum AmountQuestion {
    /// Which amount a numeral is read as.
    Numeral {
        /// The format that it is read into.
        format: DecimalFormat,
        /// What happens to a number that is out of range.
        policy: Policy,
        /// How it is rounded.
        mode: ReadMode,
    },
    /// Which amount a count of units, or a word of 64 bits, is.
    Units {
        /// The format.
        format: DecimalFormat,
    },
}

/// Appends a fact: the text of an amount.
fn push_amount_fact<const N: usize>(
    out: &mut TextBuffer<N>,
    form: Form,
    key: &[u8],
    units: i64,
    format: DecimalFormat,
)
    requires key { length key.now ≤ 10 }
    requires room { length out.old + 57 ≤ N }
    ensures appended { out.new ≡ out.old ++ fact form key.now (decimal_format_text units format) }
    ensures short { length out.new ≤ length out.old + 57 }
{
    let mut text: TextBuffer<41> = TextBuffer::new();
    push_decimal_format(&mut text, units, format);
    push_fact(out, form, key, text.as_bytes());
}

/// Appends a fact: the word of a count of units in hexadecimal.
fn push_hex_fact<const N: usize>(out: &mut TextBuffer<N>, form: Form, units: i64)
    requires room { length out.old + 34 ≤ N }
    ensures appended { out.new ≡ out.old ++ fact form (codes "hex") (hex_text 64 (unit_word units)) }
    ensures short { length out.new ≤ length out.old + 34 }
{
    let mut text: TextBuffer<18> = TextBuffer::new();
    push_hex(&mut text, units);
    push_fact(out, form, b"hex", text.as_bytes());
}

/// Appends the facts of a count of units.
fn push_values<const N: usize>(
    out: &mut TextBuffer<N>,
    form: Form,
    units: i64,
    format: DecimalFormat,
)
    requires room { length out.old + 185 ≤ N }
    ensures appended { out.new ≡ out.old ++ values form format units }
    ensures short { length out.new ≤ length out.old + 185 }
{
    push_amount_fact(out, form, b"text", units, format);
    push_integer_fact(out, form, b"bits", i128::from(units));
    push_hex_fact(out, form, units);
    push_amount_fact(out, form, b"value", units, format);
}

/// Whether a number was in range, as a word.
fn range_word(overflowed: bool) -> &'static [u8]
    ensures word { result.now ≡ range_text overflowed }
    ensures short { length result.now ≤ 10 }
{
    if overflowed { b"overflowed" } else { b"fits" }
}

/// Appends the amount that a numeral is read as, or why it is refused. Returns that message if it is refused.
fn push_numeral<const N: usize, L: Ledger>(
    out: &mut TextBuffer<N>,
    form: Form,
    bytes: &[u8],
    format: DecimalFormat,
    policy: Policy,
    mode: ReadMode,
    steps: &mut Steps<L>,
) -> Option<&'static str>
    requires room { length out.old + 1607 ≤ N }
    ensures facts { Appends (AreFacts form (AmountQuestion.Numeral format policy mode) bytes.now (is_some result)) 1607
        out.old out.new }
    ensures refused { IfSome result (λ m. out.new ≡ out.old ++ refusal form m.now) }
    ensures cost { steps.new ≤ steps.old + 10 * length bytes.now + 1563 }
{
    match read_decimal(bytes, format, policy, mode, steps) {
        Ok(amount) => {
            let units = i128::from(amount.units);
            let error = decimal_error(bytes, form, units, format.places(), steps);
            push_values(out, form, amount.units, format);
            push_fact(out, form, b"error", error.as_bytes());
            push_fact(out, form, b"range", range_word(amount.overflowed));
            None
        }
        Err(error) => {
            let message = error.message();
            push_refusal(out, form, message);
            Some(message)
        }
    }
}

/// Appends the amount of a count of units, or why the bytes are not a count. Returns that message if they are not.
fn push_units<const N: usize>(
    out: &mut TextBuffer<N>,
    form: Form,
    bytes: &[u8],
    format: DecimalFormat,
) -> Option<&'static str>
    requires room { length out.old + 1607 ≤ N }
    ensures facts { Appends (AreFacts form (AmountQuestion.Units format) bytes.now (is_some result)) 1607 out.old
        out.new }
    ensures refused { IfSome result (λ m. out.new ≡ out.old ++ refusal form m.now) }
{
    match read_units(bytes) {
        Ok(units) => {
            push_values(out, form, units, format);
            None
        }
        Err(fault) => {
            let message = fault.message();
            push_refusal(out, form, message);
            Some(message)
        }
    }
}

/// Appends the facts that answer a question about a word. Returns the message of the fault if they report one.
fn push_facts<const N: usize, L: Ledger>(
    out: &mut TextBuffer<N>,
    form: Form,
    question: &AmountQuestion,
    word: &[u8],
    steps: &mut Steps<L>,
) -> Option<&'static str>
    requires room { length out.old + 1607 ≤ N }
    ensures facts { Appends (AreFacts form question.now word.now (is_some result)) 1607 out.old out.new }
    ensures refused { IfSome result (λ m. out.new ≡ out.old ++ refusal form m.now) }
    ensures cost { steps.new ≤ steps.old + 10 * length word.now + 1563 }
{
    match question {
        AmountQuestion::Numeral {
            format,
            policy,
            mode,
        } => push_numeral(out, form, word, *format, *policy, *mode, steps),
        AmountQuestion::Units { format } => push_units(out, form, word, *format),
    }
}

/// Appends the block that answers a question about a word. For a numeral or a count of units it has the text of the
/// amount, the count in decimal and in hexadecimal, and the exact value. For a numeral it also has the exact error,
/// which is that value less the numeral's, and whether the read number was in range. A refused word gets only one line,
/// `error: ` and why, and that message is returned. There must be room for `MAX_BLOCK` bytes.
pub fn amount_block<const N: usize, L: Ledger>(
    question: &AmountQuestion,
    word: &[u8],
    out: &mut TextBuffer<N>,
    steps: &mut Steps<L>,
) -> Option<&'static str>
    requires room { length out.old + MAX_BLOCK ≤ N }
    ensures block { Appends (IsAmountBlock question.now word.now (is_some result)) MAX_BLOCK out.old out.new }
    ensures refused { IfSome result (λ m. out.new ≡ out.old ++ refusal Lines m.now) }
    ensures cost { steps.new ≤ steps.old + 10 * length word.now + 1563 }
{
    push_facts(out, Form::Lines, question, word, steps)
}

/// Appends the same as a JSON object of at most `MAX_OBJECT` bytes. Its first member, `given`, has the first 768 bytes
/// of the word.
pub fn amount_object<const N: usize, L: Ledger>(
    question: &AmountQuestion,
    word: &[u8],
    out: &mut TextBuffer<N>,
    steps: &mut Steps<L>,
) -> Option<&'static str>
    requires room { length out.old + MAX_OBJECT ≤ N }
    ensures object { Appends (IsAmountObject question.now word.now (is_some result)) MAX_OBJECT out.old out.new }
    ensures refused { IfSome result (λ m. out.new ≡ out.old ++ object_text word.now (refusal Members m.now)) }
    ensures cost { steps.new ≤ steps.old + 10 * length word.now + 1563 }
{
    push_given(out, word);
    let refused = push_facts(out, Form::Members, question, word, steps);
    out.push(b'}');
    refused
}

/// Appends a fact: the name of a decimal format.
fn push_name_fact<const N: usize>(out: &mut TextBuffer<N>, form: Form, format: DecimalFormat)
    requires room { length out.old + 38 ≤ N }
    ensures appended { out.new ≡ out.old ++ fact form (codes "format") (name_text format) }
    ensures short { length out.new ≤ length out.old + 38 }
{
    let mut text: TextBuffer<22> = TextBuffer::new();
    push_name(&mut text, format);
    push_fact(out, form, b"format", text.as_bytes());
}

/// Appends the facts of a decimal format.
fn push_format_facts<const N: usize>(out: &mut TextBuffer<N>, form: Form, format: DecimalFormat)
    requires room { length out.old + 209 ≤ N }
    ensures appended { out.new ≡ out.old ++ format_facts form format }
    ensures short { length out.new ≤ length out.old + 209 }
{
    push_name_fact(out, form, format);
    push_amount_fact(out, form, b"least", i64::MIN, format);
    push_amount_fact(out, form, b"greatest", i64::MAX, format);
    push_amount_fact(out, form, b"ulp", 1, format);
}

/// Appends the block of a decimal format: its name, its least and its greatest amount, and its ulp. There must be room
/// for `MAX_BLOCK` bytes.
pub fn decimal_format_block<const N: usize>(format: DecimalFormat, out: &mut TextBuffer<N>)
    requires room { length out.old + MAX_BLOCK ≤ N }
    ensures appended { out.new ≡ out.old ++ format_facts Lines format }
    ensures short { length out.new ≤ length out.old + MAX_BLOCK }
{
    push_format_facts(out, Form::Lines, format);
}

/// Appends the same as a JSON object of at most `MAX_OBJECT` bytes. Its first member, `given`, has the first 768 bytes
/// of a word that names the format.
#[tactic(auto, unfolding(fixed_show::specs::JsonText::object_text))]
pub fn decimal_format_object<const N: usize>(
    word: &[u8],
    format: DecimalFormat,
    out: &mut TextBuffer<N>,
)
    requires room { length out.old + MAX_OBJECT ≤ N }
    ensures appended { out.new ≡ out.old ++ object_text word.now (format_facts Members format) }
    ensures short { length out.new ≤ length out.old + MAX_OBJECT }
{
    push_given(out, word);
    push_format_facts(out, Form::Members, format);
    out.push(b'}');
}
