//! Lines as people write them: blanks around a numeral, blank lines, and comments.
//!
//! A skipped line is answered with an empty line. So line k of the output still answers line k of the input, and
//! `paste` puts the two side by side. A comment is a whole line: text after a numeral is part of the numeral. A line of
//! more than 1,048,576 bytes is too long, even a blank one: the bytes that are kept of a line must be answered as the
//! line is.

ghost use Rattle.std.specs.Prelude.{◌≡◌, ◌≤◌, MatchOption, ◌<◌, length};
ghost use Rattle.fixed_command.specs.Layout.{after_blanks, answered_line, blanks_before, is_skipped, numeral_of};
ghost use Rattle.fixed_command.specs.Layout.{trimmed, without_blanks};
ghost use Rattle.fixed_respell.specs.Answer.{fault_message};

use crate::convert::{ConvertRule, without_return};
use crate::message::Message;
use fixed_respell::LineFault;
use fixed_steps::Steps;
use line_engine::{MAX_ANSWER, MAX_LINE, Output};
use run_engine::{LineRule, Rule, push_error};
use std::marker::Model;
use std::sync::ledger::Ledger;
use text_buffer::TextBuffer;

/// The length of the longest comment prefix, in bytes.
pub const MAX_PREFIX: usize = 64;

/// What a line may have besides its numeral.
#[derive(Drop)]
pub struct Layout {
    is_trimmed: bool,
    skips_blank: bool,
    comments: TextBuffer<MAX_PREFIX>,
}

impl Model for Layout {
    ghost use Rattle.fixed_command.specs.Layout.{LineLayout};

    ghost Value = { LineLayout };

    ghost view = { λ l. record {
      is_trimmed = l.is_trimmed;
      skips_blank = l.skips_blank;
      comments = l.comments;
    } };
}

/// Returns bytes without leading blanks.
pub(crate) fn after_blanks(bytes: &[u8]) -> &[u8]
    ensures value { result.now ≡ after_blanks bytes.now }
    ensures short { length result.now ≤ length bytes.now }
{
    bytes.trim_ascii_start()
}

/// Returns bytes without leading and trailing blanks.
fn trimmed(bytes: &[u8]) -> &[u8]
    ensures value { result.now ≡ trimmed bytes.now }
    ensures short { length result.now ≤ length bytes.now }
{
    bytes.trim_ascii()
}

impl Layout {
    /// Returns a layout: with `is_trimmed` a line may have blanks around its numeral; with `skips_blank` it may have
    /// only blanks; and, unless `comments` is empty, this is the prefix of a comment, after blanks. `None` if the
    /// prefix has more than `MAX_PREFIX` bytes.
    pub fn new(is_trimmed: bool, skips_blank: bool, comments: &[u8]) -> Option<Layout>
        ensures { MatchOption result (64 < length comments.now) (λ l. l ≡ record {
          is_trimmed = is_trimmed;
          skips_blank = skips_blank;
          comments = comments.now;
        }) }
    {
        if comments.len() > MAX_PREFIX {
            return None;
        }
        let mut prefix = TextBuffer::new();
        prefix.push_bytes(comments);
        Some(Layout {
            is_trimmed,
            skips_blank,
            comments: prefix,
        })
    }

    /// Returns the same layout.
    pub fn same(&self) -> Layout
        ensures { result ≡ self.now }
    {
        let mut comments = TextBuffer::new();
        comments.push_bytes(self.comments.as_bytes());
        Layout {
            is_trimmed: self.is_trimmed,
            skips_blank: self.skips_blank,
            comments,
        }
    }

    /// Returns the numeral of a line.
    pub fn numeral_of<'l>(&self, line: &'l [u8]) -> &'l [u8]
        ensures value { result.now ≡ numeral_of self.now line.now }
        ensures short { length result.now ≤ length line.now }
    {
        let bytes = without_return(line);
        if self.is_trimmed {
            trimmed(bytes)
        } else {
            bytes
        }
    }

    /// Returns a line without blanks around it, if it may have them; else the same line.
    pub fn without_blanks<'l>(&self, line: &'l [u8]) -> &'l [u8]
        ensures value { result.now ≡ without_blanks self.now line.now }
        ensures short { length result.now ≤ length line.now }
    {
        if self.is_trimmed { trimmed(line) } else { line }
    }

    /// Returns the line that is answered for a line: the same if it is too long, else without blanks.
    pub fn answered<'l>(&self, line: &'l [u8]) -> &'l [u8]
        ensures value { result.now ≡ answered_line self.now line.now }
        ensures short { length result.now ≤ length line.now }
    {
        if line.len() > MAX_LINE {
            line
        } else {
            self.without_blanks(line)
        }
    }

    /// How many bytes of a line are blanks before its numeral.
    pub fn blanks_before(&self, line: &[u8]) -> usize
        ensures { result ≡ blanks_before self.now line.now }
    {
        if self.is_trimmed {
            line.len() - after_blanks(line).len()
        } else {
            0
        }
    }

    /// Whether a line is skipped: it is blank, or a comment.
    pub fn is_skipped(&self, line: &[u8]) -> bool
        ensures { result ≡ is_skipped self.now line.now }
    {
        let prefix = self.comments.as_bytes();
        self.skips_blank && trimmed(line).is_empty()
            || !prefix.is_empty() && after_blanks(line).starts_with(prefix)
    }
}

/// The rule that answers a line with the conversion of its numeral, and a skipped line with an empty one.
#[derive(Drop)]
pub struct LaidOutRule {
    /// How a numeral is converted.
    pub rule: ConvertRule,
    /// What a line has besides its numeral.
    pub layout: Layout,
}

/// The fault of a line that is too long.
pub(crate) fn too_long() -> Message
    ensures text { result.text.now ≡ fault_message LineFault.LineTooLong }
    ensures short { length result.text.now ≤ 64 }
{
    Message {
        text: LineFault::LineTooLong.words(),
    }
}

impl<L: Ledger> Rule<L> for LaidOutRule {
    ghost use Rattle.std.proofs.Common.{lit<};
    ghost use Rattle.fixed_command.specs.Convert.{IsReply};
    ghost use Rattle.fixed_command.specs.Layout.{IsLaidOut};
    ghost use Rattle.fixed_command.specs.Lemmas.LayoutLemmas.{laid_out_one};
    ghost use Rattle.fixed_command.specs.Lemmas.ReplyLemmas.{reply_one};
    ghost use Rattle.fixed_command.specs.Message.{message_text};

    type Note = ();

    type Cause = Message;

    const PER_BYTE: u64 = 8;

    const EXTRA: u64 = 624;

    const MAX_ANSWER: usize = MAX_ANSWER;

    ghost PER_BYTE = { 8 };

    ghost EXTRA = { 624 };

    ghost MAX_ANSWER = { 192 };

    ghost Answers = { λ laid. IsLaidOut laid.layout (IsReply laid.rule) };

    ghost Notes = { λ laid line note. Unit {0} };

    ghost refusal = { λ laid. message_text };

    fn answer(&self, line: &[u8], out: &mut Output, steps: &mut Steps<L>) -> Result<(), Message> {
        if line.len() > MAX_LINE {
            return Err(too_long());
        }
        if self.layout.is_skipped(line) {
            return Ok(());
        }
        self.rule
            .reply_or_refuse(self.layout.numeral_of(line), out, steps)
    }

    fn push_refusal(&self, _line: &[u8], cause: &Message, out: &mut Output) {
        push_error(cause, out);
    }

    ghost room_law = { lit< tt };

    ghost one_law = { λ laid. laid_out_one laid.layout (IsReply laid.rule)
        (reply_one laid.rule) };
}

impl<L: Ledger> LineRule<L> for LaidOutRule {
    ghost use Rattle.fixed_command.specs.Convert.{IsReply};
    ghost use Rattle.fixed_command.specs.Lemmas.LayoutLemmas.{long_by_its_prefix};
    ghost use Rattle.fixed_command.specs.Lemmas.ReplyLemmas.{reply_one};

    ghost kept_law = { λ laid. long_by_its_prefix laid.layout (IsReply laid.rule)
        (reply_one laid.rule) };
}
