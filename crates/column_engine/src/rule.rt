//! Rules that answer fields.

ghost use Rattle.std.specs.Prelude.{◌≡◌, ◌≤◌, [], List, ℕ, length};
ghost use Rattle.column_engine.specs.Limits.{longest_record};
ghost use Rattle.line_engine.specs.AnswerText.{AnswerText};

use crate::record_buffer::RecordBuffer;
use fixed_steps::Steps;
use line_engine::Output;
use std::sync::ledger::Ledger;

/// A rule that answers fields. Its meaning is a relation between the text of a field and its one reply.
pub trait FieldRule<L: Ledger> {
    /// The rule's meaning: whether a text with its flag is the reply to a field. An empty reply leaves the field as it
    /// was.
    ghost Answers: { Self → List ℕ → AnswerText → Type 0 };

    /// Writes the reply to a field, and returns whether it refuses the field. `scratch` is working space.
    fn answer(
        &self,
        field: &[u8],
        scratch: &mut RecordBuffer,
        out: &mut Output,
        steps: &mut Steps<L>,
    ) -> bool
        requires short { length field.now ≤ longest_record }
        requires empty { out.old ≡ [] }
        ensures { Answers self.now field.now (record { text = out.new; fault = result }) };

    /// A field has at most one reply.
    ghost one_law: { (rule : Self) (field : List ℕ) (a b : AnswerText) → Answers rule field a → Answers rule field b
        → a ≡ b };
}
