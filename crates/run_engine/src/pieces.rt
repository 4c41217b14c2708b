//! Machines that cut their input into pieces at certain bytes, such as newlines: one loop for all of them.

ghost use Rattle.std.specs.Prelude.{◌≡◌, ◌<◌, ◌++◌, ◌∷◌, [], Bool, List, MatchOption, ℕ, get_or, length, take, false};
ghost use Rattle.std.specs.Prelude.{true};
ghost use Rattle.run_engine.specs.Machines.{Agree, Feeds, Finishes, How, IsGoing, going, stopped};
ghost use Rattle.run_engine.specs.Pieces.{HasNone, is_newline};
ghost use Rattle.run_engine.specs.Seen.{moment};

use crate::gathered::Gathered;
use crate::machine::{Halt, Machine};
use crate::streams::Streams;
use fixed_steps::Steps;
use memchr::memchr;
use std::sync::ledger::Ledger;

/// A machine for the pieces of an input.
pub trait Pieces<L: Ledger> {
    /// Its own reason to end before its input does.
    type Stop: Drop;

    /// Its meaning, like that of a machine.
    ghost Makes: { Self → List ℕ → List ℕ → ℕ → How Self.Stop → Self → Type 0 };

    /// Whether a byte ends a piece.
    ghost ends: { ℕ → Bool };

    /// Returns the index of the first byte that ends a piece.
    fn find(bytes: &[u8]) -> Option<usize>
        ensures { MatchOption result (HasNone ends bytes.now)
            (λ end. (end < length bytes.now) × HasNone ends (take end bytes.now)
            × (ends (get_or bytes.now end 0) ≡ true)) };

    /// Takes the last part of a piece, and the byte that ends it.
    fn end_piece<I: Streams>(
        &mut self,
        part: &[u8],
        byte: u8,
        out: &mut Gathered<I>,
        steps: &mut Steps<L>,
    ) -> Result<(), Halt<Self::Stop>>
        requires part { HasNone ends part.now }
        requires byte { ends byte ≡ true }
        requires known { IsGoing Makes self.old }
        ensures { (first : Self) (bytes made : List ℕ) (spent : ℕ) → Makes first bytes made spent going self.old
            → Feeds (Makes first) bytes made spent (part.now ++ byte ∷ []) self.new
            (moment (I.seen out.old.io) out.old.text steps.old) (moment (I.seen out.new.io) out.new.text steps.new)
            result };

    /// Takes bytes of a piece that has not ended.
    fn keep<I: Streams>(
        &mut self,
        part: &[u8],
        out: &mut Gathered<I>,
        steps: &mut Steps<L>,
    ) -> Result<(), Halt<Self::Stop>>
        requires part { HasNone ends part.now }
        requires known { IsGoing Makes self.old }
        ensures { (first : Self) (bytes made : List ℕ) (spent : ℕ) → Makes first bytes made spent going self.old
            → Feeds (Makes first) bytes made spent part.now self.new
            (moment (I.seen out.old.io) out.old.text steps.old) (moment (I.seen out.new.io) out.new.text steps.new)
            result };

    /// Ends the input, and puts the rest of the text. Returns whether something in the input was refused.
    fn finish<I: Streams>(
        &mut self,
        out: &mut Gathered<I>,
        steps: &mut Steps<L>,
    ) -> Result<bool, Halt<Self::Stop>>
        requires known { IsGoing Makes self.old }
        ensures { (first : Self) (bytes made : List ℕ) (spent : ℕ) → Makes first bytes made spent going self.old
            → Finishes (Makes first) bytes made spent self.new
            (moment (I.seen out.old.io) out.old.text steps.old) (moment (I.seen out.new.io) out.new.text steps.new)
            result };

    /// The same bytes make one text, and end or stop it in one way.
    ghost one_law: { (first a b : Self) (bytes made other : List ℕ) (spent cost : ℕ) (how then : How Self.Stop)
        → Makes first bytes made spent how a → Makes first bytes other cost then b → Agree how made then other };

    /// Once stopped, it stays so, whatever bytes follow.
    ghost stop_law: { (first last : Self) (bytes more text : List ℕ) (spent : ℕ) (why : Self.Stop)
        → Makes first bytes text spent (stopped false why) last
        → Makes first (bytes ++ more) text spent (stopped false why) last };
}

/// The machine that cuts its input into pieces.
#[derive(Drop)]
pub struct Cut<P>(pub P);

impl<P: Pieces<L>, L: Ledger> Machine<L> for Cut<P> {
    type Stop = P::Stop;

    ghost Makes = { λ first bytes text spent how last. P.Makes first.0 bytes text spent how last.0 };

    #[inline]
    fn feed<I: Streams>(
        &mut self,
        chunk: &[u8],
        out: &mut Gathered<I>,
        steps: &mut Steps<L>,
    ) -> Result<(), Halt<P::Stop>> {
        let mut rest = chunk;
        while let Some(end) = P::find(rest) {
            match self.0.end_piece(&rest[..end], rest[end], out, steps) {
                Err(halt) => return Err(halt),
                Ok(()) => rest = &rest[end + 1..],
            }
        }
        self.0.keep(rest, out, steps)
    }

    fn finish<I: Streams>(
        &mut self,
        out: &mut Gathered<I>,
        steps: &mut Steps<L>,
    ) -> Result<bool, Halt<P::Stop>> {
        self.0.finish(out, steps)
    }

    ghost one_law = { λ first a b. P.one_law first.0 a.0 b.0 };
}

/// Returns the index of the first newline.
#[inline(always)]
pub fn find_newline(bytes: &[u8]) -> Option<usize>
    ensures { MatchOption result (HasNone is_newline bytes.now)
        (λ end. (end < length bytes.now) × HasNone is_newline (take end bytes.now)
        × (is_newline (get_or bytes.now end 0) ≡ true)) }
{
    memchr(b'\n', bytes)
}
