//! How the words of a text are converted: what separates them, and what happens to refused ones.
//!
//! A refused word becomes one token, so the columns after it stay in place. A word that stays has at most 524,288
//! bytes; it is kept in memory that is allocated before the first read. A byte of numerals cannot be a separator, since
//! `0.5` would be two words.

ghost use Rattle.std.specs.Prelude.{◌≡◌, ◌≤◌, ◌+◌, ◌++◌, List, ℕ, OnErr, OnOk, length};
ghost use Rattle.fixed_command.specs.Message.{message_text};
ghost use Rattle.fixed_words.specs.Words.{IsEnding, is_left, is_overflow, is_separator, shown};
ghost use Rattle.fixed_words.specs.Inner.Progress.{LeftFits};
ghost use Rattle.run_engine.specs.Reply.{answer_of, error_text};
ghost use Rattle.run_engine.specs.Seen.{Breaks, Puts};

use column_engine::RecordBuffer;
use fixed_command::{ConvertRule, Message};
use line_engine::Failed;
use run_engine::{Gathered, Streams};
use text_buffer::TextBuffer;

/// The longest token for refused words, in bytes.
pub const MAX_TOKEN: usize = 64;

/// The longest word that can stay as it was, in bytes.
pub const MAX_LEFT: usize = 524_288;

/// Which refused words stay as they were.
#[derive(Clone, Copy, Debug, PartialEq, Eq)]
pub enum Leaving {
    /// None.
    Nothing,
    /// Words that are not numerals.
    NoNumerals,
    /// All, including numerals out of range.
    Everything,
}

/// How the words of a text are converted.
#[derive(Drop)]
pub struct WordRule<'a> {
    /// How a word is converted.
    pub rule: ConvertRule,
    /// The bytes that separate words, in addition to ASCII white space.
    pub separators: &'a [u8],
    /// The text that replaces a refused word.
    pub token: TextBuffer<MAX_TOKEN>,
    /// Which refused words stay.
    pub leaves: Leaving,
}

/// How a word ended.
#[derive(Clone, Copy)]
pub enum Ending {
    /// The reply to it is written.
    Converted,
    /// It has no number, for this cause, and stays as it was.
    Left(Message),
    /// It is refused for this cause: the token is written.
    Refused(Message),
}

/// Whether a byte separates words.
pub(crate) fn is_separator(others: &[u8], byte: u8) -> bool
    ensures { result ≡ is_separator others.now byte }
{
    byte.is_ascii_whitespace() || others.contains(&byte)
}

/// Whether the cause is that a number is out of range.
pub(crate) fn is_overflow(cause: Message) -> bool
    ensures { result ≡ is_overflow (error_text cause.text.now) }
{
    cause.text.as_bytes() == b"overflow".as_slice()
}

/// Whether a word that has no number, for this cause, stays as it was.
fn is_left(leaves: Leaving, word: &[u8], cause: Message) -> bool
    ensures { result ≡ is_left leaves word.now (error_text cause.text.now) }
{
    match leaves {
        Leaving::Nothing => false,
        Leaving::NoNumerals => word.len() <= MAX_LEFT && !is_overflow(cause),
        Leaving::Everything => word.len() <= MAX_LEFT,
    }
}

/// Returns how a word ends that is converted or has no number for this cause.
pub(crate) fn ending_of(rule: &WordRule<'_>, word: &[u8], replied: &Result<(), Message>) -> Ending
    ensures ending { (text : List ℕ) → IsEnding rule.now word.now (answer_of (message_text word.now) text replied.now)
        result }
    ensures short { LeftFits result word.now }
{
    match replied {
        Ok(()) => Ending::Converted,
        Err(cause) if is_left(rule.leaves, word, *cause) => Ending::Left(*cause),
        Err(cause) => Ending::Refused(*cause),
    }
}

/// Puts a text and the byte that ends its word, if any.
fn put_ended<I: Streams>(text: &[u8], end: &[u8], out: &mut Gathered<I>) -> Result<(), Failed>
    requires { length text.now + length end.now ≤ 193 }
    ensures ok { OnOk result (Puts (I.seen out.old.io) (I.seen out.new.io) out.old.text out.new.text
        (text.now ++ end.now)) }
    ensures err { OnErr result (Breaks (I.seen out.old.io) (I.seen out.new.io) out.old.text (text.now ++ end.now)) }
{
    let mut ended: TextBuffer<193> = TextBuffer::new();
    ended.push_bytes(text);
    ended.push_bytes(end);
    out.put(ended.as_bytes())
}

/// Puts the text for a word with this ending and reply, and the separator that ends it, if any.
pub(crate) fn put_shown<I: Streams>(
    rule: &WordRule<'_>,
    ending: Ending,
    word: &mut RecordBuffer,
    reply: &[u8],
    end: &[u8],
    out: &mut Gathered<I>,
) -> Result<(), Failed>
    requires short { LeftFits ending word.old }
    requires reply { length reply.now ≤ 192 }
    requires end { length end.now ≤ 1 }
    ensures ok { OnOk result (Puts (I.seen out.old.io) (I.seen out.new.io) out.old.text out.new.text
        ((shown ending rule.now word.old reply.now).text ++ end.now)) }
    ensures err { OnErr result (Breaks (I.seen out.old.io) (I.seen out.new.io) out.old.text
        ((shown ending rule.now word.old reply.now).text ++ end.now)) }
{
    match ending {
        Ending::Converted => put_ended(reply, end, out),
        Ending::Left(_) => {
            word.append(end);
            out.put(word.as_slice())
        }
        Ending::Refused(_) => put_ended(rule.token.as_bytes(), end, out),
    }
}
