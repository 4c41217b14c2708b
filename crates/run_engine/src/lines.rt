//! Lines, each answered by a rule and seen by an observer.

ghost use Rattle.std.specs.Prelude.{◌≡◌, ◌≤◌, ◌<◌, ◌+◌, ◌*◌, ◌++◌, ◌∷◌, ◌||◌, [], Bool, List, ℕ, OnErr, OnOk};
ghost use Rattle.std.specs.Prelude.{length, take};
ghost use Rattle.line_engine.specs.Inner.Progress.{IsKept};
ghost use Rattle.line_engine.specs.Lines.{kept_length};
ghost use Rattle.run_engine.specs.LineRun.{AnswersLine, EndsLine, one_more};
ghost use Rattle.run_engine.specs.Reply.{Returns};
ghost use Rattle.run_engine.specs.Seen.{Breaks, moment};

use crate::answering::answer_one;
use crate::gathered::Gathered;
use crate::machine::Halt;
use crate::pieces::{Pieces, find_newline};
use crate::rule::{LineRule, Rule};
use crate::streams::Streams;
use crate::watch::Watch;
use fixed_steps::Steps;
use line_engine::{Failed, LineBuffer, Output};
use std::convert::Infallible;
use std::sync::ledger::Ledger;

/// Lines, each answered by a rule. A line ends at a newline byte, which is not part of it; the rule gets its first
/// 1,048,577 bytes. The bytes after the last newline, if any, are a line too.
#[derive(Drop)]
pub struct Lines<'r, R, W> {
    /// The rule.
    pub rule: &'r R,
    /// The observer of the lines.
    pub watch: W,
    /// The first bytes of the line that has not ended.
    pub line: LineBuffer,
    /// How many lines ended; the count stays at `u64::MAX`.
    pub count: u64,
    /// Whether a line was refused.
    pub has_fault: bool,
}

impl<'r, R, W> Lines<'r, R, W> {
    /// Counts one more line. Returns its number.
    #[inline]
    fn next(&mut self) -> u64
        ensures number { result ≡ one_more self.old.count }
        ensures count { self.new.count ≡ one_more self.old.count }
        ensures line { self.new.line ≡ self.old.line }
        ensures watch { self.new.watch ≡ self.old.watch }
        ensures fault { self.new.has_fault ≡ self.old.has_fault }
        ensures rule { self.new.rule ≡ self.old.rule }
    {
        self.count = self.count.saturating_add(1);
        self.count
    }

    /// Answers a line that began before its last part `part`, and begins a new one.
    fn end_long_line<L: Ledger>(&mut self, part: &[u8], out: &mut Output, steps: &mut Steps<L>)
    where
        R: Rule<L>,
        W: Watch<R, L>,
        requires room { length out.old + R.MAX_ANSWER < 8192 }
        ensures rule { self.new.rule ≡ self.old.rule }
        ensures line { self.new.line ≡ [] }
        ensures count { self.new.count ≡ one_more self.old.count }
        ensures ended { (fault : Bool) × (held : List ℕ) × (self.new.has_fault ≡ (self.old.has_fault || fault))
            × AnswersLine (R.Answers self.old.rule.now)
            (Returns (R.Notes self.old.rule.now) (R.refusal self.old.rule.now)) (W.Saw self.old.rule.now)
            (take kept_length (self.old.line ++ part.now)) (one_more self.old.count)
            self.old.watch self.new.watch out.old held fault × (out.new ≡ held ++ 10 ∷ []) }
        ensures cost { steps.new ≤ steps.old
            + (R.PER_BYTE + W.PER_BYTE) * length (take kept_length (self.old.line ++ part.now))
            + (R.EXTRA + W.EXTRA) }
    {
        let number = self.next();
        self.line.append(part);
        let line = self.line.as_slice();
        let is_fault = answer_one(self.rule, line, number, &mut self.watch, out, steps);
        out.push(b'\n');
        self.has_fault |= is_fault;
        self.line.clear();
    }

    /// Answers the line whose last part is `part`, and begins a new one. A line that lies whole in the part is not
    /// copied.
    #[inline(always)]
    fn end_line<I: Streams, L: Ledger>(
        &mut self,
        part: &[u8],
        out: &mut Gathered<I>,
        steps: &mut Steps<L>,
    ) -> Result<(), Failed>
    where
        R: LineRule<L>,
        W: Watch<R, L>,
        ensures line { OnOk result (self.new.line ≡ []) }
        ensures ok { OnOk result ((whole : List ℕ) → IsKept kept_length whole self.old.line
            → EndsLine (R.Answers self.old.rule.now) (Returns (R.Notes self.old.rule.now) (R.refusal self.old.rule.now))
            (W.Saw self.old.rule.now) (R.PER_BYTE + W.PER_BYTE) (R.EXTRA + W.EXTRA) (whole ++ part.now)
            self.old self.new (moment (I.seen out.old.io) out.old.text steps.old)
            (moment (I.seen out.new.io) out.new.text steps.new)) }
        ensures err { OnErr result (Breaks (I.seen out.old.io) (I.seen out.new.io) out.old.text []) }
        ensures same { OnErr result ((self.new ≡ self.old) × (steps.new ≡ steps.old)) }
    {
        out.make_room(R::MAX_ANSWER)?;
        if self.line.is_empty() {
            let number = self.next();
            let is_fault = answer_one(
                self.rule,
                part,
                number,
                &mut self.watch,
                &mut out.text,
                steps,
            );
            out.text.push(b'\n');
            self.has_fault |= is_fault;
            return Ok(());
        }
        self.end_long_line(part, &mut out.text, steps);
        Ok(())
    }
}

impl<'r, R: LineRule<L>, W: Watch<R, L>, L: Ledger> Pieces<L> for Lines<'r, R, W> {
    ghost use Rattle.run_engine.specs.LineRun.{MakesLines};
    ghost use Rattle.run_engine.specs.Pieces.{is_newline};
    ghost use Rattle.run_engine.specs.Reply.{Returns};
    ghost use Rattle.run_engine.specs.Lemmas.LineLaws.{lines_one};

    type Stop = Infallible;

    ghost Makes = { λ first bytes text spent how last. MakesLines (R.Answers first.rule.now)
        (Returns (R.Notes first.rule.now) (R.refusal first.rule.now)) (W.Saw first.rule.now) (R.PER_BYTE + W.PER_BYTE)
        (R.EXTRA + W.EXTRA) first bytes text spent how last };

    ghost ends = { is_newline };

    #[inline(always)]
    fn find(bytes: &[u8]) -> Option<usize> {
        find_newline(bytes)
    }

    #[inline(always)]
    fn end_piece<I: Streams>(
        &mut self,
        part: &[u8],
        _byte: u8,
        out: &mut Gathered<I>,
        steps: &mut Steps<L>,
    ) -> Result<(), Halt<Infallible>> {
        match self.end_line(part, out, steps) {
            Err(_) => Err(Halt::WriteFault),
            Ok(()) => Ok(()),
        }
    }

    fn keep<I: Streams>(
        &mut self,
        part: &[u8],
        _out: &mut Gathered<I>,
        _steps: &mut Steps<L>,
    ) -> Result<(), Halt<Infallible>> {
        self.line.append(part);
        Ok(())
    }

    fn finish<I: Streams>(
        &mut self,
        out: &mut Gathered<I>,
        steps: &mut Steps<L>,
    ) -> Result<bool, Halt<Infallible>> {
        if self.line.is_empty() {
            return Ok(self.has_fault);
        }
        match self.end_line(&[], out, steps) {
            Err(_) => Err(Halt::WriteFault),
            Ok(()) => Ok(self.has_fault),
        }
    }

    ghost one_law = { λ first a b bytes made other spent cost how then p q. lines_one (R.Answers first.rule.now)
        (R.one_law first.rule.now) (Returns (R.Notes first.rule.now) (R.refusal first.rule.now)) (W.Saw first.rule.now)
        (R.PER_BYTE + W.PER_BYTE) (R.EXTRA + W.EXTRA) first a b bytes made other spent cost how then p q };

    ghost stop_law = { λ first last bytes more text spent why stopped. stopped };
}
