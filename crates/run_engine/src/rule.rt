//! Rules that answer lines.

ghost use Rattle.std.specs.Prelude.{◌≡◌, ◌+◌, ◌*◌, ◌≤◌, ◌<◌, ◌++◌, ◌↔◌, ℕ, IfOk, List, length, take};
ghost use Rattle.line_engine.specs.AnswerText.{AnswerText};
ghost use Rattle.line_engine.specs.Lines.{kept_length};
ghost use Rattle.run_engine.specs.Reply.{Replies};

use fixed_steps::Steps;
use line_engine::Output;
use std::sync::ledger::Ledger;

/// Why a line is refused.
pub trait Cause {
    /// The message.
    ghost message: { Self → List ℕ };

    /// Appends the message.
    fn push_message(&self, out: &mut Output)
        requires room { length out.old + length (message self.now) ≤ 8192 }
        ensures { out.new ≡ out.old ++ message self.now };
}

/// A rule that answers lines. Its meaning is a relation between a line and its one answer.
pub trait Rule<L: Ledger> {
    /// What is known of an answered line, for an observer.
    type Note: Drop;

    /// Why a line may be refused.
    type Cause: Drop;

    /// The most steps of an answer for each byte of its line.
    const PER_BYTE: u64;

    /// The most steps of an answer in addition to those for the bytes.
    const EXTRA: u64;

    /// The longest answer or refusal, in bytes without the newline: at most 8,191.
    const MAX_ANSWER: usize;

    ghost PER_BYTE: { ℕ };

    ghost EXTRA: { ℕ };

    ghost MAX_ANSWER: { ℕ };

    /// The rule's meaning: whether a text with its flag is the answer to a line.
    ghost Answers: { Self → List ℕ → AnswerText → Type 0 };

    /// What a note says of its line.
    ghost Notes: { Self → List ℕ → Self.Note → Type 0 };

    /// The text that is written for a line which is refused for a cause.
    ghost refusal: { Self → List ℕ → Self.Cause → List ℕ };

    /// Appends the answer to a line, without a newline; or appends nothing and returns why the line is refused.
    fn answer(
        &self,
        line: &[u8],
        out: &mut Output,
        steps: &mut Steps<L>,
    ) -> Result<Self::Note, Self::Cause>
        requires room { length out.old + MAX_ANSWER ≤ 8192 }
        ensures answer { Replies (Answers self.now) (refusal self.now) MAX_ANSWER line.now out.old out.new result }
        ensures note { IfOk result (Notes self.now line.now) }
        ensures cost { steps.new ≤ steps.old + PER_BYTE * length line.now + EXTRA };

    /// Appends the text for a line that is refused for a cause.
    fn push_refusal(&self, line: &[u8], cause: &Self::Cause, out: &mut Output)
        requires room { length out.old + length (refusal self.now line.now cause.now) ≤ 8192 }
        ensures { out.new ≡ out.old ++ refusal self.now line.now cause.now };

    /// An answer and its newline fit into the buffer.
    ghost room_law: { MAX_ANSWER < 8192 };

    /// A line has at most one answer.
    ghost one_law: { (rule : Self) (line : List ℕ) (a b : AnswerText) → Answers rule line a → Answers rule line b
        → a ≡ b };
}

/// A rule that needs only the kept prefix of a line.
pub trait LineRule<L: Ledger>: Rule<L> {
    /// A line that is longer than the kept prefix has the same answer as that prefix.
    ghost kept_law: { (rule : Self) (line : List ℕ) (reply : AnswerText) → kept_length < length line
        → (Self.Answers rule (take kept_length line) reply ↔ Self.Answers rule line reply) };
}
