//! Rules that pack each line of an input into a word.

ghost use Rattle.std.specs.Prelude.{◌≡◌, ◌+◌, ◌≤◌, ℕ, List, length};
ghost use Rattle.fixed_pack.specs.Packed.{IsPackedInto};

use fixed_steps::Steps;
use line_engine::Output;
use std::sync::ledger::Ledger;

/// A rule that turns a line into the bytes of a word, or refuses it.
pub trait Pack {
    /// Why a line is refused.
    type Cause: Copy + Drop;

    /// Whether a line becomes these bytes.
    ghost Packs: { Self → List ℕ → List ℕ → Type 0 };

    /// Whether a line is refused for a cause.
    ghost Refuses: { Self → List ℕ → Self.Cause → Type 0 };

    /// Appends the bytes of a line without its newline, at most 8, or nothing if it is refused.
    fn pack<L: Ledger>(
        &self,
        line: &[u8],
        out: &mut Output,
        steps: &mut Steps<L>,
    ) -> Result<(), Self::Cause>
        requires { length out.old + 8 ≤ 8192 }
        ensures { IsPackedInto (Packs self.now line.now) (Refuses self.now line.now) out.old out.new result };

    /// A line becomes one list of bytes.
    ghost one_law: { (rule : Self) (line a b : List ℕ) → Packs rule line a → Packs rule line b → a ≡ b };

    /// A line is refused for one cause.
    ghost cause_law: { (rule : Self) (line : List ℕ) (a b : Self.Cause) → Refuses rule line a → Refuses rule line b
        → a ≡ b };

    /// A line that becomes bytes is never refused.
    ghost never_law: { (rule : Self) (line made : List ℕ) (why : Self.Cause) → Packs rule line made
        → Refuses rule line why → ⊥ };
}
