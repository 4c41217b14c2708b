//! Parts of words: some bits of a longer word, perhaps after its bytes are reversed.
//!
//! A field has as many bits as the format, so the two cannot disagree. The reversed bytes are those that the digits
//! write, in hexadecimal or binary, and not those of the format: a field is taken from a longer word, and nothing else
//! says how long that is.

ghost use Rattle.std.specs.Prelude.{◌≡◌, ◌+◌, ◌*◌, ◌^◌, ◌≤◌, ◌<◌, ◌++◌, ℕ, false, IfOk, IfSome, is_some, length};
ghost use Rattle.std.specs.Prelude.{MatchOption, MatchResult};
ghost use Rattle.fixed_bits.specs.Ranges.{IsWide};
ghost use Rattle.fixed_numeral.specs.Literal.{without_underscores};
ghost use Rattle.fixed_show.specs.Blocks.{Appends};
ghost use Rattle.fixed_show.specs.Forms.{refusal};
ghost use Rattle.fixed_show.specs.JsonText.{object_text};
ghost use Rattle.fixed_show.specs.PartText.{AreBits, ArePartFacts, HasPartFault, IsLongWord, IsOrdered, IsPart};
ghost use Rattle.fixed_show.specs.PartText.{IsPartBlock, IsPartObject, WritesBytes, long_message, longest};
ghost use Rattle.fixed_show.specs.PartText.{part_message, reach_of, reversed_bytes};
ghost use Rattle.fixed_show.specs.WordText.{HasWordFault, has_sign};
ghost use Rattle.fixed_show.specs.declared.form.Form.TheVariants.{Lines, Members};

use crate::bits::push_values;
use crate::form::Form;
use crate::json::{MAX_OBJECT, push_given};
use crate::lines::{MAX_BLOCK, push_refusal};
use crate::words::{LIMIT, WordFault, bits_of, has_sign, spelled_number, split_prefix, words_of};
use fixed_bits::Format;
use fixed_numeral::Radix;
use fixed_steps::Steps;
use std::sync::ledger::Ledger;
use text_buffer::TextBuffer;

/// Which bits to take from a word, as many as the format has.
#[derive(Clone, Copy, Debug, PartialEq, Eq)]
pub struct Part {
    /// The lowest bit of the field. Without one, the whole word is taken, which must not have more bits than the
    /// format.
    pub low: Option<u32>,
    /// Whether the word's bytes are reversed first.
    pub is_reversed: bool,
}

/// Why a text has no such part.
#[derive(Clone, Copy, Debug, PartialEq, Eq)]
pub enum PartFault {
    /// It begins with a sign.
    Signed,
    /// It is not a word of up to 64 bits.
    NoWord(WordFault),
    /// Its bytes must be reversed, and its digits do not write 1 to 8 whole bytes with all bits up to the highest that
    /// is taken.
    NotBytes,
    /// The word has more bits than the format, and no field is taken.
    TooWide,
}

/// Returns the message for a text that is not a word of up to 64 bits.
fn long_message(fault: WordFault) -> &'static str
    ensures message { result.now ≡ long_message fault }
    ensures short { length result.now ≤ 64 }
{
    match fault {
        WordFault::TooWide => "word is wider than 64 bits",
        other => other.message(),
    }
}

impl PartFault {
    /// The message of the fault.
    pub fn message(self) -> &'static str
        ensures message { result.now ≡ part_message self }
        ensures short { length result.now ≤ 64 }
    {
        match self {
            PartFault::Signed => "word has a sign",
            PartFault::NoWord(fault) => long_message(fault),
            PartFault::NotBytes =>
                "digits are not those of whole bytes, 1 to 8, that hold the field",
            PartFault::TooWide => "word is wider than the format",
        }
    }
}

/// Reads a text without a sign as a number of up to 64 bits.
fn read_long(text: &[u8], bare: Radix) -> Result<u64, WordFault>
    requires { has_sign text.now ≡ false }
    ensures { MatchResult result (IsLongWord bare text.now) (HasWordFault bare longest text.now) }
{
    let number = spelled_number(text, bare)?;
    if number >= LIMIT {
        return Err(WordFault::TooWide);
    }
    Ok(number as u64)
}

/// Counts the bytes that are not underscores.
fn digit_count(bytes: &[u8]) -> usize
    ensures { result ≡ length (without_underscores bytes.now) }
{
    let mut count = 0;
    for byte in bytes {
        if *byte != b'_' {
            count += 1;
        }
    }
    count
}

/// How many whole bytes `digits` digits write, if they do.
fn byte_count(digits: usize, radix: Radix) -> Option<usize>
    ensures { MatchOption result ((n : ℕ) → ¬ WritesBytes radix digits n) (WritesBytes radix digits) }
{
    match radix {
        Radix::Bin if digits % 8 == 0 => Some(digits / 8),
        Radix::Hex if digits % 2 == 0 => Some(digits / 2),
        _ => None,
    }
}

/// Appends the `count` lowest bytes of `rest` to a number, in reverse.
fn with_reversed(number: u64, rest: u64, count: usize) -> u64
    requires room { (number + 1) * 256 ^ count ≤ 2 ^ 64 }
    ensures { result ≡ number * 256 ^ count + reversed_bytes count rest }
{
    if count == 0 {
        number
    } else {
        with_reversed(number * 256 + rest % 256, rest / 256, count - 1)
    }
}

/// Returns a word, with its bytes reversed if requested. `None`: its digits do not write up to 8 whole bytes with at
/// least `reach` bits.
fn ordered_word(text: &[u8], bare: Radix, is_reversed: bool, reach: u64, word: u64) -> Option<u64>
    ensures { MatchOption result ((m : ℕ) → ¬ IsOrdered is_reversed bare text.now reach word m)
        (IsOrdered is_reversed bare text.now reach word) }
{
    if !is_reversed {
        return Some(word);
    }
    let (radix, rest) = split_prefix(text, bare);
    match byte_count(digit_count(rest), radix) {
        Some(count) if count <= 8 && reach <= 8 * (count as u64) => {
            Some(with_reversed(0, word, count))
        }
        _ => None,
    }
}

/// Returns the bits of a field or, without a field, the whole word. `None`: the whole word has more bits than the
/// format.
fn taken_bits(word: u64, low: Option<u32>, format: Format) -> Option<u64>
    ensures { MatchOption result ((p : ℕ) → ¬ AreBits low format.width word p) (AreBits low format.width word) }
{
    let words = words_of(format);
    match low {
        None if u128::from(word) < words => Some(word),
        None => None,
        Some(low) if low < 64 => Some((u128::from(word >> low) % words) as u64),
        Some(_) => Some(0),
    }
}

/// How many low bits of a word a part needs.
fn reach_of(part: Part, format: Format) -> u64
    ensures { result ≡ reach_of part format }
{
    u64::from(part.low.unwrap_or(0)) + u64::from(format.width())
}

/// Reads a part of a word as bits of a format in two's complement. The word has no sign and up to 64 bits, and is
/// written as for `read_word`.
///
/// # Errors
///
/// Refuses a text with a sign; one that is not a word, or has more than 64 bits; if the bytes are reversed, one that
/// does not write 1 to 8 whole bytes (two digits a byte in radix 16, eight in radix 2) with all bits up to the highest
/// that is taken; and, if no field is taken, a word of more bits than the format.
pub fn read_part(text: &[u8], bare: Radix, part: Part, format: Format) -> Result<i128, PartFault>
    ensures part { MatchResult result (IsPart bare part format text.now) (HasPartFault bare part format text.now) }
    ensures wide { IfOk result IsWide }
{
    if has_sign(text) {
        return Err(PartFault::Signed);
    }
    let word = match read_long(text, bare) {
        Ok(word) => word,
        Err(fault) => return Err(PartFault::NoWord(fault)),
    };
    let reach = reach_of(part, format);
    let Some(ordered) = ordered_word(text, bare, part.is_reversed, reach, word) else {
        return Err(PartFault::NotBytes);
    };
    match taken_bits(ordered, part.low, format) {
        Some(bits) => Ok(bits_of(bits, format)),
        None => Err(PartFault::TooWide),
    }
}

/// Appends the facts of a part of a word, or why there is none. Returns that message if there is none.
fn push_part_facts<const N: usize, L: Ledger>(
    out: &mut TextBuffer<N>,
    form: Form,
    text: &[u8],
    bare: Radix,
    part: Part,
    format: Format,
    steps: &mut Steps<L>,
) -> Option<&'static str>
    requires room { length out.old + 281 ≤ N }
    ensures facts { Appends (ArePartFacts form bare part format text.now (is_some result)) 281 out.old out.new }
    ensures refused { IfSome result (λ m. out.new ≡ out.old ++ refusal form m.now) }
    ensures cost { steps.new ≤ steps.old + 48 }
{
    match read_part(text, bare, part, format) {
        Ok(bits) => {
            push_values(out, form, bits, format, steps);
            None
        }
        Err(fault) => {
            let message = fault.message();
            push_refusal(out, form, message);
            Some(message)
        }
    }
}

/// Appends the block of a part of a word, like that of a word, or one line `error: ` and why there is none. Returns
/// that message if there is none. There must be room for `MAX_BLOCK` bytes. It takes at most 48 steps.
pub fn part_block<const N: usize, L: Ledger>(
    text: &[u8],
    bare: Radix,
    part: Part,
    format: Format,
    out: &mut TextBuffer<N>,
    steps: &mut Steps<L>,
) -> Option<&'static str>
    requires room { length out.old + MAX_BLOCK ≤ N }
    ensures block { Appends (IsPartBlock bare part format text.now (is_some result)) MAX_BLOCK out.old out.new }
    ensures refused { IfSome result (λ m. out.new ≡ out.old ++ refusal Lines m.now) }
    ensures cost { steps.new ≤ steps.old + 48 }
{
    push_part_facts(out, Form::Lines, text, bare, part, format, steps)
}

/// Appends the same as a JSON object, like that of a word. There must be room for `MAX_OBJECT` bytes. It takes at most
/// 48 steps.
pub fn part_object<const N: usize, L: Ledger>(
    text: &[u8],
    bare: Radix,
    part: Part,
    format: Format,
    out: &mut TextBuffer<N>,
    steps: &mut Steps<L>,
) -> Option<&'static str>
    requires room { length out.old + MAX_OBJECT ≤ N }
    ensures object { Appends (IsPartObject bare part format text.now (is_some result)) MAX_OBJECT out.old out.new }
    ensures refused { IfSome result (λ m. out.new ≡ out.old ++ object_text text.now (refusal Members m.now)) }
    ensures cost { steps.new ≤ steps.old + 48 }
{
    push_given(out, text);
    let refused = push_part_facts(out, Form::Members, text, bare, part, format, steps);
    out.push(b'}');
    refused
}
