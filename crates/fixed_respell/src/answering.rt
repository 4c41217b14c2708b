//! The answer to a line.

ghost use Rattle.std.specs.Prelude.{◌≡◌, ◌≤◌, ◌<◌, ◌+◌, ◌*◌, ◌++◌, [], ◌-◌, ◌∷◌, drop, length, take};
ghost use Rattle.std.specs.Prelude.{MatchResult, IfOk};
ghost use Rattle.fixed_bits.specs.Numbers.{number_of_image};
ghost use Rattle.fixed_write.specs.Texts.{IsShortestText, shortest_text};
ghost use Rattle.line_engine.specs.Output.{AppendsAnswer};
ghost use Rattle.run_engine.specs.Reply.{Replies};
ghost use Rattle.fixed_respell.specs.Answer.{
  Asks,
  IsAnswer,
  IsFirstFault,
  fault_message,
  respelled_answer,
  task_of,
  verdict,
};
ghost use Rattle.fixed_respell.specs.Language.{fault_answer};
ghost use Rattle.fixed_respell.specs.LineWords.{space};
ghost use Rattle.fixed_respell.specs.Refusal.{refusal_text};

use crate::Answer;
use crate::fault::LineFault;
use crate::fields::split_line;
use crate::refusal::Refusal;
use crate::respelling::{Task, reach};
use crate::words::{format_word, policy_word, radix_word};
use fixed_bits::Image;
use fixed_steps::Steps;
use fixed_write::{push_signed_integer, push_signed_shortest};
use line_engine::{MAX_ANSWER, MAX_LINE};
use std::simd::prelude::*;
use std::sync::ledger::Ledger;
use text_buffer::TextBuffer;

/// Reads the task of a line, or finds its first fault.
// Always inlined, so that the task stays in registers: the result of a call would go through memory.
#[inline(always)]
fn read_task(line: &[u8]) -> Result<Task<'_>, LineFault>
    ensures task { MatchResult result (λ t. Asks line.now (task_of t.radix t.source t.target t.policy t.mode
        t.numeral.now)) (λ fault. IsFirstFault fault line.now) }
    ensures short { IfOk result (λ t. length t.numeral.now ≤ length line.now) }
    ensures ending { IfOk result (λ t. drop (length line.now - length t.numeral.now) line.now ≡ t.numeral.now) }
{
    if line.len() > MAX_LINE {
        return Err(LineFault::LineTooLong);
    }
    let Some(fields) = split_line(line) else {
        return Err(LineFault::MissingField);
    };
    let Some(radix) = radix_word(fields.radix) else {
        return Err(LineFault::BadRadix);
    };
    let Some(source) = format_word(fields.source) else {
        return Err(LineFault::BadSource);
    };
    let Some(target) = format_word(fields.target) else {
        return Err(LineFault::BadTarget);
    };
    let Some((policy, mode)) = policy_word(fields.policy) else {
        return Err(LineFault::BadPolicy);
    };
    Ok(Task {
        radix,
        source,
        target,
        policy,
        mode,
        numeral: fields.numeral,
    })
}

/// Appends `error: ` and the message of a fault. There must be room for 71 bytes.
pub fn push_fault<const N: usize>(out: &mut TextBuffer<N>, message: &str)
    requires short { length message.now ≤ 64 }
    requires room { length out.old + 71 ≤ N }
    ensures { out.new ≡ out.old ++ (fault_answer message.now).text }
{
    out.push_bytes(b"error: ");
    out.push_bytes(message.as_bytes());
}

/// The last words of an answer, each after a space: every number was in its format, or one was not. Each is two numbers
/// of eight bytes, with the first byte lowest. Each byte is its character less a space.
const VERDICTS: [u64; 4] = [
    0x0000_0053_5449_4600,
    0x0000_0000_0000_0000,
    0x4f4c_4652_4556_4f00,
    0x0000_0000_0044_4557,
];

/// Returns a space and the last word of an answer, and the count of their bytes. The word is found by its index, since
/// a branch on it is mispredicted, and among numbers, since a constant of byte arrays is written out anew for each
/// line.
#[inline(always)]
fn verdict_bytes(overflowed: bool) -> ([u8; 16], usize)
    ensures word { take result.1 result.0 ≡ space ∷ verdict overflowed }
    ensures short { result.1 ≤ 11 }
{
    let place = usize::from(overflowed);
    let above_space = u64x2::from_array([VERDICTS[2 * place], VERDICTS[2 * place + 1]]);
    let bytes = u8x16::splat(b' ') + above_space.to_le_bytes();
    (bytes.to_array(), 5 + 6 * place)
}

/// Appends a space and the last word of an answer. There must be room for 11 bytes.
#[inline]
pub fn push_verdict<const N: usize>(out: &mut TextBuffer<N>, overflowed: bool)
    requires room { length out.old + 11 ≤ N }
    ensures { out.new ≡ out.old ++ space ∷ verdict overflowed }
{
    let (bytes, count) = verdict_bytes(overflowed);
    out.push_prefix(bytes, count);
}

/// Appends the shortest decimal text of a reached image in ulps of 2^-`frac`, its number in decimal, and whether a
/// number on the way was out of its format.
#[inline]
pub fn push_respelled<const N: usize, L: Ledger>(
    out: &mut TextBuffer<N>,
    reached: Image,
    frac: u32,
    steps: &mut Steps<L>,
)
    requires frac { frac ≤ 64 }
    requires room { length out.old + 81 ≤ N }
    ensures appended { out.new ≡ out.old ++ (respelled_answer (shortest_text (number_of_image reached) frac)
        (number_of_image reached) reached.is_out_of_range).text }
    ensures shortest { IsShortestText (number_of_image reached) frac (shortest_text (number_of_image reached) frac) }
    ensures short { length out.new ≤ length out.old + 81 }
    ensures cost { steps.new ≤ steps.old + 48 }
{
    push_signed_shortest(out, reached.negative, reached.magnitude, frac, steps);
    out.push(b' ');
    push_signed_integer(out, reached.negative, reached.magnitude);
    push_verdict(out, reached.is_out_of_range);
}

/// Appends the answer to a line, without a newline; or appends nothing and returns why the line is refused.
#[inline]
pub fn answer_or_refuse<const N: usize, L: Ledger>(
    line: &[u8],
    out: &mut TextBuffer<N>,
    steps: &mut Steps<L>,
) -> Result<(), Refusal<LineFault>>
    requires room { length out.old + MAX_ANSWER ≤ N }
    ensures answer { Replies IsAnswer (refusal_text fault_message) MAX_ANSWER line.now out.old out.new result }
    ensures cost { steps.new ≤ steps.old + 8 * length line.now + 624 }
{
    let task = match read_task(line) {
        Ok(task) => task,
        Err(fault) => return Err(Refusal::Line(fault)),
    };
    match reach(line, &task, steps) {
        Ok(reached) => {
            push_respelled(out, reached, task.target.frac(), steps);
            Ok(())
        }
        Err(error) => Err(Refusal::Numeral(error)),
    }
}

/// Appends the answer to a line, without a newline. Returns whether the line is refused.
#[inline]
pub fn append_answer<const N: usize, L: Ledger>(
    line: &[u8],
    out: &mut TextBuffer<N>,
    steps: &mut Steps<L>,
) -> bool
    requires room { length out.old + MAX_ANSWER ≤ N }
    ensures answer { AppendsAnswer IsAnswer MAX_ANSWER line.now out.old out.new result }
    ensures cost { steps.new ≤ steps.old + 8 * length line.now + 624 }
{
    match answer_or_refuse(line, out, steps) {
        Ok(()) => false,
        Err(refusal) => {
            push_fault(out, refusal.words());
            true
        }
    }
}

/// Answers a line of at most 1,048,576 bytes, `RADIX SOURCE TARGET POLICY NUMERAL`: with the line's first fault, else
/// the fault of its numeral, else the shortest decimal of the bits that it reaches, those bits in decimal, and whether
/// a number on the way was out of its format.
pub fn answer<L: Ledger>(line: &[u8], steps: &mut Steps<L>) -> Answer
    ensures answer { IsAnswer line.now result }
    ensures cost { steps.new ≤ steps.old + 8 * length line.now + 624 }
{
    let mut out: TextBuffer<MAX_ANSWER> = TextBuffer::new();
    let is_fault = append_answer(line, &mut out, steps);
    Answer::of(out.as_bytes(), is_fault)
}
