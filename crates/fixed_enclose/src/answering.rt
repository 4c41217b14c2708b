//! The answer to a line.

ghost use Rattle.std.specs.Prelude.{
  ◌≡◌,
  ◌↔◌,
  ◌≤◌,
  ◌<◌,
  ◌+◌,
  ◌*◌,
  ◌++◌,
  [],
  ◌∷◌,
  length,
  IsTrue,
  MatchOption,
  MatchResult,
  IfOk,
};
ghost use Rattle.std.specs.Fmt.{signed_decimal};
ghost use Rattle.fixed_bits.specs.Ranges.{IsWide};
ghost use Rattle.fixed_respell.specs.LineWords.{HasWords, space};
ghost use Rattle.fixed_respell.specs.Split.{count_of};
ghost use Rattle.fixed_write.specs.Texts.{IsShortestText, shortest_text};
ghost use Rattle.line_engine.specs.Appended.{AppendsAnswer};
ghost use Rattle.fixed_respell.specs.Refusal.{refusal_text};
ghost use Rattle.run_engine.specs.Reply.{Replies};
ghost use Rattle.fixed_enclose.specs.Answer.{
  Asks,
  IsAnswer,
  IsFirstFault,
  ends_answer,
  fault_message,
  task_of,
  verdict,
};

use crate::enclosing::enclose;
use crate::fault::EncloseFault;
use fixed_bits::Format;
use fixed_numeral::Radix;
use fixed_respell::{Refusal, format_word, push_fault, radix_word, split_once};
use fixed_steps::Steps;
use fixed_write::{push_integer, push_shortest};
use line_engine::{MAX_ANSWER, MAX_LINE};
use std::sync::ledger::Ledger;
use text_buffer::TextBuffer;

/// The words before a line's first two spaces, and everything after the second.
#[derive(Drop)]
struct Fields<'a> {
    radix: &'a [u8],
    format: &'a [u8],
    numeral: &'a [u8],
}

/// Splits a line at its first two spaces. `None` if it has fewer.
fn split_line(line: &[u8]) -> Option<Fields<'_>>
    ensures { MatchOption result (count_of space line.now < 2)
        (λ f. HasWords line.now (f.radix.now ∷ f.format.now ∷ []) f.numeral.now) }
{
    let Some((radix, rest)) = split_once(line, b' ') else {
        return None;
    };
    let Some((format, numeral)) = split_once(rest, b' ') else {
        return None;
    };
    Some(Fields {
        radix,
        format,
        numeral,
    })
}

/// The request of a line.
#[derive(Drop)]
struct Task<'a> {
    radix: Radix,
    format: Format,
    numeral: &'a [u8],
}

/// Reads the request of a line, or its first fault.
fn read_task(line: &[u8]) -> Result<Task<'_>, EncloseFault>
    ensures task { MatchResult result (λ t. Asks line.now (task_of t.radix t.format t.numeral.now))
        (λ fault. IsFirstFault fault line.now) }
    ensures short { IfOk result (λ t. length t.numeral.now ≤ length line.now) }
{
    if line.len() > MAX_LINE {
        return Err(EncloseFault::LineTooLong);
    }
    let Some(fields) = split_line(line) else {
        return Err(EncloseFault::MissingField);
    };
    let Some(radix) = radix_word(fields.radix) else {
        return Err(EncloseFault::BadRadix);
    };
    let Some(format) = format_word(fields.format) else {
        return Err(EncloseFault::BadFormat);
    };
    Ok(Task {
        radix,
        format,
        numeral: fields.numeral,
    })
}

/// Appends the shortest decimal text of `number` ulps of 2^-`frac`, a space, that number in decimal, and a space.
fn push_end<const N: usize, L: Ledger>(
    out: &mut TextBuffer<N>,
    number: i128,
    frac: u32,
    steps: &mut Steps<L>,
)
    requires wide { IsWide number }
    requires frac { frac ≤ 64 }
    requires room { length out.old + 71 ≤ N }
    ensures appended { out.new ≡ out.old
        ++ (shortest_text number frac ++ space ∷ (signed_decimal number ++ space ∷ [])) }
    ensures shortest { IsShortestText number frac (shortest_text number frac) }
    ensures short { length out.new ≤ length out.old + 71 }
    ensures cost { steps.new ≤ steps.old + 48 }
{
    push_shortest(out, number, frac, steps);
    out.push(b' ');
    push_integer(out, number);
    out.push(b' ');
}

/// Appends the last word of an answer.
fn push_verdict<const N: usize>(out: &mut TextBuffer<N>, exact: bool)
    requires room { length out.old + 5 ≤ N }
    ensures appended { out.new ≡ out.old ++ verdict exact }
    ensures short { length out.new ≤ length out.old + 5 }
{
    if exact {
        out.push_bytes(b"exact");
    } else {
        out.push_bytes(b"wide");
    }
}

/// Whether the two ends of an enclosure are equal.
fn is_exact(lo: i128, hi: i128) -> bool
    ensures { IsTrue result ↔ (lo ≡ hi) }
{
    lo == hi
}

/// Appends both ends of an enclosure in ulps of 2^-`frac`, each as its shortest decimal and as bits, and whether they
/// are equal.
fn push_ends<const N: usize, L: Ledger>(
    out: &mut TextBuffer<N>,
    lo: i128,
    hi: i128,
    exact: bool,
    frac: u32,
    steps: &mut Steps<L>,
)
    requires low { IsWide lo }
    requires high { IsWide hi }
    requires frac { frac ≤ 64 }
    requires room { length out.old + 147 ≤ N }
    ensures appended { out.new ≡ out.old
        ++ (ends_answer (shortest_text lo frac) lo (shortest_text hi frac) hi exact).text }
    ensures low_shortest { IsShortestText lo frac (shortest_text lo frac) }
    ensures high_shortest { IsShortestText hi frac (shortest_text hi frac) }
    ensures short { length out.new ≤ length out.old + 147 }
    ensures cost { steps.new ≤ steps.old + 96 }
{
    push_end(out, lo, frac, steps);
    push_end(out, hi, frac, steps);
    push_verdict(out, exact);
}

/// Appends the answer to a line, without a newline, or appends nothing and returns why the line is refused.
pub fn answer_or_refuse<const N: usize, L: Ledger>(
    line: &[u8],
    out: &mut TextBuffer<N>,
    steps: &mut Steps<L>,
) -> Result<(), Refusal<EncloseFault>>
    requires room { length out.old + 192 ≤ N }
    ensures answer { Replies IsAnswer (refusal_text fault_message) 192 line.now out.old out.new result }
    ensures cost { steps.new ≤ steps.old + 16 * length line.now + 1248 }
{
    let task = match read_task(line) {
        Ok(task) => task,
        Err(fault) => return Err(Refusal::Line(fault)),
    };
    match enclose(task.numeral, task.radix, task.format, steps) {
        Ok(ends) => {
            let exact = is_exact(ends.lo, ends.hi);
            push_ends(out, ends.lo, ends.hi, exact, task.format.frac(), steps);
            Ok(())
        }
        Err(error) => Err(Refusal::Numeral(error)),
    }
}

/// Appends the answer to a line, without a newline. Returns whether the line is refused.
pub fn append_answer<const N: usize, L: Ledger>(
    line: &[u8],
    out: &mut TextBuffer<N>,
    steps: &mut Steps<L>,
) -> bool
    requires room { length out.old + 192 ≤ N }
    ensures answer { AppendsAnswer IsAnswer 192 line.now out.old out.new result }
    ensures cost { steps.new ≤ steps.old + 16 * length line.now + 1248 }
{
    match answer_or_refuse(line, out, steps) {
        Ok(()) => false,
        Err(refusal) => {
            push_fault(out, refusal.words());
            true
        }
    }
}
