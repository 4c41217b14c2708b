//! Rules that answer whole inputs.

ghost use Rattle.std.specs.Prelude.{◌≡◌, ◌≤◌, ℕ, List, length, IfOk};
ghost use Rattle.line_engine.specs.AnswerText.{AnswerText};
ghost use Rattle.line_engine.specs.Refusals.{refusal_reply, reply_of};

use crate::NoMemory;
use fixed_steps::Steps;
use std::alloc::Global;
use std::sync::ledger::Ledger;

/// The answer to a whole input.
#[derive(Drop)]
pub enum WholeAnswer {
    /// All the bytes to write.
    Text(Vec<u8>),
    /// The input is refused: `error: line N: ` and the cause.
    Refused {
        /// The number of the line for which it is refused, from 1.
        number: u64,
        /// The cause.
        cause: Vec<u8>,
    },
}

impl WholeAnswer {
    /// Returns the refusal of an input for the line of this number.
    pub fn refused(alloc: Global, number: u64, cause: &[u8]) -> Result<WholeAnswer, NoMemory>
        ensures { IfOk result (λ answer. reply_of answer ≡ refusal_reply number cause.now) }
    {
        match cause.to_vec(alloc) {
            Ok(cause) => Ok(WholeAnswer::Refused { number, cause }),
            Err(_) => Err(NoMemory),
        }
    }
}

/// A rule that answers whole inputs. Its meaning is a relation between an input and its one answer.
pub trait WholeRule<L: Ledger> {
    /// The rule's meaning: whether a text with its flag is the answer to an input.
    ghost Answers: { Self → List ℕ → AnswerText → Type 0 };

    /// Returns the answer to an input of at most 4,294,967,296 bytes, or `NoMemory`.
    fn answer(
        &self,
        alloc: Global,
        input: &[u8],
        steps: &mut Steps<L>,
    ) -> Result<WholeAnswer, NoMemory>
        requires { length input.now ≤ 4294967296 }
        ensures { IfOk result (λ answer. Answers self.now input.now (reply_of answer)) };

    /// An input has at most one answer.
    ghost one_law: { (rule : Self) (input : List ℕ) (a b : AnswerText) → Answers rule input a → Answers rule input b
        → a ≡ b };
}
