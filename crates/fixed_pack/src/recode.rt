//! Rules that turn each raw word of an input into a word of another kind, or into a line, in its place.

ghost use Rattle.std.specs.Prelude.{◌≡◌, ◌+◌, ◌<◌, ◌≤◌, ℕ, IsTrue, List, Option, is_some, length};
ghost use Rattle.fixed_pack.specs.Recoded.{AreFront, IsRecoded};

use fixed_steps::Steps;
use line_engine::Output;
use run_engine::Refusals;
use std::sync::ledger::Ledger;

/// The most bytes that a word turns into.
pub const MAX_RECODED: usize = 193;

/// A rule that turns a word into other bytes, or refuses it.
pub trait Recode {
    /// Why a word is refused.
    type Cause: Copy + Drop;

    /// The length of an input word in bytes.
    ghost size: { Self → ℕ };

    /// Whether a word becomes these bytes; with a cause, they report that it is refused.
    ghost Recodes: { Self → List ℕ → List ℕ → Option Self.Cause → Type 0 };

    /// Whether a word is refused for a cause, and ends the input.
    ghost Refuses: { Self → List ℕ → Self.Cause → Type 0 };

    /// Returns the length of an input word in bytes: at most 8.
    fn count(&self) -> usize
        ensures value { result ≡ size self.now }
        ensures some { 0 < result }
        ensures most { result ≤ 8 };

    /// Appends the bytes that a word becomes, at most 193. `Some` is the cause that they report. `Err` is the cause of
    /// a word that ends the input; then nothing is appended.
    fn recode<L: Ledger>(
        &self,
        word: &[u8],
        out: &mut Output,
        steps: &mut Steps<L>,
    ) -> Result<Option<Self::Cause>, Self::Cause>
        requires few { length word.now ≤ 8 }
        requires room { length out.old + 193 ≤ 8192 }
        ensures { length word.now ≡ size self.now
            → IsRecoded (Recodes self.now word.now) (Refuses self.now word.now) out.old out.new result };

    /// Appends the results of as many words from the front of `bytes` as is quick. Returns the number of these words.
    /// None of them is refused.
    #[inline(always)]
    fn recode_front(&self, _bytes: &[u8], _out: &mut Output) -> usize
        ensures { AreFront (size self.now) (Recodes self.now) _bytes.now _out.old _out.new result }
    {
        0
    }

    /// A word becomes one list of bytes, which report a refusal or do not.
    ghost one_law: { (rule : Self) (word a b : List ℕ) (c d : Option Self.Cause) → Recodes rule word a c
        → Recodes rule word b d → (a ≡ b) × (is_some c ≡ is_some d) };

    /// A word ends the input for one cause.
    ghost cause_law: { (rule : Self) (word : List ℕ) (a b : Self.Cause) → Refuses rule word a → Refuses rule word b
        → a ≡ b };

    /// A word that becomes bytes never ends the input.
    ghost never_law: { (rule : Self) (word made : List ℕ) (cause : Option Self.Cause) (why : Self.Cause)
        → Recodes rule word made cause → Refuses rule word why → ⊥ };
}

/// An observer, which sees each word and the cause for which it is refused.
pub trait WordWatch<C, L: Ledger> {
    /// What an observer becomes when it sees a word: its number, its bytes, and why it is refused, if it is.
    ghost Saw: { Self → ℕ → List ℕ → Option C → Self → Type 0 };

    /// Whether the observer ignores all words.
    #[inline(always)]
    fn is_blind(&self) -> bool
        ensures { IsTrue result → (number : ℕ) (word : List ℕ) (cause : Option C)
            → Saw self.now number word cause self.now }
    {
        false
    }

    /// Notes that the word of this number, from 1, was recoded, or refused for a cause.
    fn see(&mut self, number: u64, word: &[u8], cause: &Option<C>, steps: &mut Steps<L>)
        requires { length word.now ≤ 8 }
        ensures { Saw self.old number word.now cause.now self.new };
}

/// No observer.
impl<C, L: Ledger> WordWatch<C, L> for () {
    ghost Saw = { λ watch number word cause then. Unit {0} };

    #[inline(always)]
    fn is_blind(&self) -> bool {
        true
    }

    #[inline(always)]
    fn see(&mut self, _number: u64, _word: &[u8], _cause: &Option<C>, _steps: &mut Steps<L>) {}
}

/// The count of the refused words, and the first of them.
impl<C: Copy, L: Ledger> WordWatch<C, L> for Refusals<C> {
    ghost use Rattle.run_engine.specs.Refused.{Counts};

    ghost Saw = { λ watch number word cause then. Counts watch number word cause then };

    #[inline(always)]
    fn see(&mut self, number: u64, word: &[u8], cause: &Option<C>, _steps: &mut Steps<L>) {
        if let Some(cause) = cause {
            self.refuse(number, word, *cause);
        }
    }
}
