//! Machines, which are fed with an input piece by piece.

ghost use Rattle.std.specs.Prelude.{◌≡◌, ℕ, List};
ghost use Rattle.run_engine.specs.Machines.{Agree, Feeds, Finishes, How, IsGoing, going};
ghost use Rattle.run_engine.specs.Seen.{moment};

use crate::gathered::Gathered;
use crate::streams::Streams;
use fixed_steps::Steps;
use std::sync::ledger::Ledger;

/// Why a machine stops in mid-input.
#[derive(Drop)]
pub enum Halt<T> {
    /// A write failed.
    WriteFault,
    /// There was no memory.
    NoMemory,
    /// A reason of the machine's own. The text that it made before is put, but maybe not yet written.
    Stopped(T),
}

/// A machine that answers an input piece by piece.
pub trait Machine<L: Ledger> {
    /// The machine's own reason to end before its input does.
    type Stop: Drop;

    /// The meaning: a relation between the machine at its start, the bytes fed to it, the text that it made of them, a
    /// bound on its steps, how it stands with its input, and the machine now.
    ghost Makes: { Self → List ℕ → List ℕ → ℕ → How Self.Stop → Self → Type 0 };

    /// Takes the next bytes of the input, and puts the text that it makes of them.
    fn feed<I: Streams>(
        &mut self,
        chunk: &[u8],
        out: &mut Gathered<I>,
        steps: &mut Steps<L>,
    ) -> Result<(), Halt<Self::Stop>>
        requires known { IsGoing Makes self.old }
        ensures { (first : Self) (bytes made : List ℕ) (spent : ℕ) → Makes first bytes made spent going self.old
            → Feeds (Makes first) bytes made spent chunk.now self.new
            (moment (I.seen out.old.io) out.old.text steps.old) (moment (I.seen out.new.io) out.new.text steps.new)
            result };

    /// Ends the input, and puts the rest of the text. Returns whether something in the input was refused.
    fn finish<I: Streams>(
        &mut self,
        out: &mut Gathered<I>,
        steps: &mut Steps<L>,
    ) -> Result<bool, Halt<Self::Stop>>
        requires known { IsGoing Makes self.old }
        ensures { (first : Self) (bytes made : List ℕ) (spent : ℕ) → Makes first bytes made spent going self.old
            → Finishes (Makes first) bytes made spent self.new
            (moment (I.seen out.old.io) out.old.text steps.old) (moment (I.seen out.new.io) out.new.text steps.new)
            result };

    /// The same bytes make one text, and end or stop the machine in one way.
    ghost one_law: { (first a b : Self) (bytes made other : List ℕ) (spent cost : ℕ) (how then : How Self.Stop)
        → Makes first bytes made spent how a → Makes first bytes other cost then b → Agree how made then other };
}
