//! Questions about the lines of an input, each answered with a block and an empty line after it, or with an object.
//!
//! An empty line follows each block, also the last, so that a reader of the answers from a pipe knows that a block is
//! complete. Between the blocks of a command line's words it only separates two.

ghost use Rattle.std.specs.Prelude.{◌≡◌, ◌+◌, ◌++◌, ◌≤◌, length};
ghost use Rattle.fixed_command.specs.Blocks.{refused_answer};
ghost use Rattle.fixed_command.specs.LineBlocks.{HasFormat, given_line};

use crate::blocks::{Question, push_answer, push_head};
use crate::convert::without_return;
use crate::layout::too_long;
use crate::message::Message;
use fixed_show::{Form, MAX_OBJECT, push_fact, push_given};
use fixed_steps::Steps;
use line_engine::{MAX_LINE, Output};
use run_engine::{LineRule, Rule};
use std::sync::ledger::Ledger;
use text_buffer::TextBuffer;

/// The rule that answers a line with a block or a JSON object.
#[derive(Drop)]
pub struct BlockRule {
    /// Block or object.
    pub form: Form,
    /// The question about a line.
    pub question: Question,
}

/// Shows that the binary format of a question is valid.
fn check_format(question: Question)
    ensures { HasFormat question }
{
    match question {
        Question::Show { format, .. } => {
            let _frac = format.frac();
        }
        Question::Bits { format, .. } => {
            let _frac = format.frac();
        }
        Question::Part { format, .. } => {
            let _frac = format.frac();
        }
        Question::Fields(_) => (),
        Question::Amount(_) => (),
        Question::Format => (),
    }
}

/// Returns the line that an answer shows: without one carriage return at its end, unless it is too long.
fn given_line(line: &[u8]) -> &[u8]
    ensures { result.now ≡ given_line line.now }
{
    if line.len() > MAX_LINE {
        line
    } else {
        without_return(line)
    }
}

/// Appends the answer that refuses a word with a message.
#[tactic(auto, unfolding(fixed_show::specs::Blocks::line, fixed_show::specs::JsonText::object_text))]
fn push_refused<const N: usize>(form: Form, word: &[u8], message: &str, out: &mut TextBuffer<N>)
    requires { length out.old + (length message.now + 4700) ≤ N }
    ensures { out.new ≡ out.old ++ refused_answer form word.now message.now }
{
    match form {
        Form::Lines => {
            push_head(out, word);
            out.push_bytes(b"error: ");
            out.push_bytes(message.as_bytes());
            out.push(b'\n');
        }
        Form::Members => {
            push_given(out, word);
            push_fact(out, Form::Members, b"refused", message.as_bytes());
            out.push(b'}');
        }
    }
}

impl<L: Ledger> Rule<L> for BlockRule {
    ghost use Rattle.std.proofs.Common.{lit<};
    ghost use Rattle.fixed_command.specs.LineBlocks.{IsLineBlock, line_refusal};
    ghost use Rattle.fixed_command.specs.Lemmas.BlockLemmas.{line_block_one};

    type Note = ();

    type Cause = Message;

    const PER_BYTE: u64 = 26;

    const EXTRA: u64 = 3307;

    const MAX_ANSWER: usize = MAX_OBJECT;

    ghost PER_BYTE = { 26 };

    ghost EXTRA = { 3307 };

    ghost MAX_ANSWER = { 8000 };

    ghost Answers = { λ asked. IsLineBlock asked.form asked.question };

    ghost Notes = { λ asked line note. Unit {0} };

    ghost refusal = { λ asked. line_refusal asked.form };

    fn answer(&self, line: &[u8], out: &mut Output, steps: &mut Steps<L>) -> Result<(), Message> {
        if line.len() > MAX_LINE {
            return Err(too_long());
        }
        check_format(self.question);
        let start = out.len();
        match push_answer(self.form, &self.question, without_return(line), out, steps) {
            None => Ok(()),
            Some(text) => {
                out.truncate(start);
                Err(Message { text })
            }
        }
    }

    fn push_refusal(&self, line: &[u8], cause: &Message, out: &mut Output) {
        let mut text: TextBuffer<12_892> = TextBuffer::new();
        push_refused(self.form, given_line(line), cause.text, &mut text);
        out.push_bytes(text.as_bytes());
    }

    ghost room_law = { lit< tt };

    ghost one_law = { λ asked. line_block_one asked.form asked.question };
}

impl<L: Ledger> LineRule<L> for BlockRule {
    ghost use Rattle.fixed_command.specs.Lemmas.BlockLemmas.{long_by_its_prefix};

    ghost kept_law = { λ asked. long_by_its_prefix asked.form asked.question };
}
