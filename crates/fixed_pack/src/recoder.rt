//! The machine that recodes words.

ghost use Rattle.std.specs.Prelude.{◌≡◌, ◌<◌, ◌≤◌, ◌+◌, ◌++◌, [], List, false, ℕ, length, take};
ghost use Rattle.fixed_pack.specs.Part.{part_of};
ghost use Rattle.fixed_pack.specs.Recoded.{EndsWord, MakesWords};
ghost use Rattle.run_engine.specs.Machines.{Feeds, Goes, going};
ghost use Rattle.run_engine.specs.Seen.{moment};

use crate::part::Part;
use crate::recode::{MAX_RECODED, Recode, WordWatch};
use fixed_steps::Steps;
use line_engine::Output;
use run_engine::{Gathered, Halt, Machine, Streams};
use std::sync::ledger::Ledger;
use text_buffer::TextBuffer;

/// The word that ended the input: its number, from 1, its bytes, and the cause.
#[derive(Drop)]
pub struct RefusedWord<C> {
    pub number: u64,
    pub word: TextBuffer<8>,
    pub cause: C,
}

/// Recodes words by a rule, one after another, up to the first that ends the input.
#[derive(Drop)]
pub struct Recoder<R, W> {
    /// The rule.
    pub rule: R,
    /// The first bytes of the unfinished word.
    pub part: Part,
    /// The number of words so far. The count stays at the greatest `u64`.
    pub words: u64,
    /// Whether a word was refused without ending the input.
    pub has_fault: bool,
    /// The observer of the words.
    pub watch: W,
}

/// Returns the lesser of two counts.
#[inline(always)]
fn lesser(a: usize, b: usize) -> usize
    ensures first { result ≤ a }
    ensures second { result ≤ b }
    ensures some { 0 < a → 0 < b → 0 < result }
{
    if a < b { a } else { b }
}

/// Returns the refused word.
#[cold]
fn refused_word<C: Copy>(number: u64, word: &[u8], cause: C) -> RefusedWord<C>
    requires { length word.now ≤ 8 }
    ensures number { result.number ≡ number }
    ensures word { result.word ≡ word.now }
    ensures cause { result.cause ≡ cause }
{
    let mut bytes = TextBuffer::new();
    bytes.push_bytes(word);
    RefusedWord {
        number,
        word: bytes,
        cause,
    }
}

impl<R: Recode, W> Recoder<R, W> {
    /// Returns a recoder before the first word.
    pub fn new(rule: R, watch: W) -> Recoder<R, W>
        ensures rule { result.rule ≡ rule }
        ensures part { result.part ≡ part_of [] (R.size rule) }
        ensures words { result.words ≡ 0 }
        ensures none { result.has_fault ≡ false }
        ensures watch { result.watch ≡ watch }
        ensures some { 0 < R.size rule }
    {
        let part = Part::new(rule.count());
        Recoder {
            rule,
            part,
            words: 0,
            has_fault: false,
            watch,
        }
    }

    /// Recodes a whole word and counts it.
    #[inline(always)]
    fn recode_word<L: Ledger>(
        &mut self,
        word: &[u8],
        out: &mut Output,
        steps: &mut Steps<L>,
    ) -> Result<(), Halt<RefusedWord<R::Cause>>>
    where
        W: WordWatch<R::Cause, L>,
        requires few { length word.now ≤ 8 }
        requires room { length out.old + 193 ≤ 8192 }
        ensures rule { self.new.rule ≡ self.old.rule }
        ensures part { self.new.part ≡ self.old.part }
        ensures ended { length word.now ≡ R.size self.old.rule → EndsWord (R.Recodes self.old.rule)
            (R.Refuses self.old.rule) W.Saw word.now self.old.words self.old.has_fault self.old.watch self.new out.old
            out.new result }
    {
        self.words = self.words.saturating_add(1);
        match self.rule.recode(word, out, steps) {
            Ok(cause) => {
                let is_refused = cause.is_some();
                self.has_fault = self.has_fault || is_refused;
                self.watch.see(self.words, word, &cause, steps);
                Ok(())
            }
            Err(cause) => {
                self.watch.see(self.words, word, &Some(cause), steps);
                Err(Halt::Stopped(refused_word(self.words, word, cause)))
            }
        }
    }

    /// Recodes the word that ends with this piece and begins a new one. A word that is whole in the piece is not
    /// copied.
    #[inline(always)]
    fn end_word<L: Ledger>(
        &mut self,
        piece: &[u8],
        out: &mut Output,
        steps: &mut Steps<L>,
    ) -> Result<(), Halt<RefusedWord<R::Cause>>>
    where
        W: WordWatch<R::Cause, L>,
        requires piece { length self.old.part.bytes + length piece.now ≡ self.old.part.size }
        requires most { self.old.part.size ≤ 8 }
        requires room { length out.old + 193 ≤ 8192 }
        ensures rule { self.new.rule ≡ self.old.rule }
        ensures part { self.new.part ≡ part_of [] self.old.part.size }
        ensures ended { self.old.part.size ≡ R.size self.old.rule → EndsWord (R.Recodes self.old.rule)
            (R.Refuses self.old.rule) W.Saw (self.old.part.bytes ++ piece.now) self.old.words self.old.has_fault
            self.old.watch self.new out.old out.new result }
    {
        if self.part.is_empty() {
            return self.recode_word(piece, out, steps);
        }
        let word = self.part.take(piece);
        self.recode_word(word.as_bytes(), out, steps)
    }

    /// Recodes words from the front of some bytes at once, if no word was begun and the observer ignores words. Returns
    /// the number of bytes of these words.
    #[inline(always)]
    fn recode_front<I: Streams, L: Ledger>(
        &mut self,
        bytes: &[u8],
        out: &mut Gathered<I>,
        _steps: &mut Steps<L>,
    ) -> usize
    where
        W: WordWatch<R::Cause, L>,
        ensures within { result ≤ length bytes.now }
        ensures goes { (rule : R) (watch : W) (before made : List ℕ) (spent : ℕ)
            → MakesWords (R.size rule) (R.Recodes rule) (R.Refuses rule) W.Saw rule watch before made spent going
            self.old
            → Goes (MakesWords (R.size rule) (R.Recodes rule) (R.Refuses rule) W.Saw rule watch) before made spent
            (take result bytes.now) going self.new (moment (I.seen out.old.io) out.old.text _steps.old)
            (moment (I.seen out.new.io) out.new.text _steps.new) }
    {
        if !self.part.is_empty() || !self.watch.is_blind() {
            return 0;
        }
        let count = self.rule.recode_front(bytes, &mut out.text);
        self.words = self.words.saturating_add(count as u64);
        self.rule.count() * count
    }

    /// Takes the next bytes, no more than the word lacks, and recodes the word if it ends with them.
    #[inline(always)]
    fn push<I: Streams, L: Ledger>(
        &mut self,
        piece: &[u8],
        out: &mut Gathered<I>,
        steps: &mut Steps<L>,
    ) -> Result<(), Halt<RefusedWord<R::Cause>>>
    where
        W: WordWatch<R::Cause, L>,
        requires { length self.old.part.bytes + length piece.now ≤ self.old.part.size }
        ensures { (rule : R) (watch : W) (bytes made : List ℕ) (spent : ℕ)
            → MakesWords (R.size rule) (R.Recodes rule) (R.Refuses rule) W.Saw rule watch bytes made spent going
            self.old
            → Feeds (MakesWords (R.size rule) (R.Recodes rule) (R.Refuses rule) W.Saw rule watch) bytes made spent
            piece.now self.new (moment (I.seen out.old.io) out.old.text steps.old)
            (moment (I.seen out.new.io) out.new.text steps.new) result }
    {
        if piece.len() < self.part.lacks() {
            self.part.keep(piece);
            return Ok(());
        }
        match out.make_room(MAX_RECODED) {
            Err(_) => Err(Halt::WriteFault),
            Ok(()) => self.end_word(piece, &mut out.text, steps),
        }
    }
}

impl<R: Recode, W: WordWatch<R::Cause, L>, L: Ledger> Machine<L> for Recoder<R, W> {
    ghost use Rattle.fixed_pack.specs.Recoded.{MakesWords};
    ghost use Rattle.fixed_pack.specs.Lemmas.RecodedLaws.{recoded_one};

    type Stop = RefusedWord<R::Cause>;

    ghost Makes = { λ first bytes text spent how last. MakesWords (R.size first.rule) (R.Recodes first.rule)
        (R.Refuses first.rule) W.Saw first.rule first.watch bytes text spent how last };

    #[inline]
    fn feed<I: Streams>(
        &mut self,
        chunk: &[u8],
        out: &mut Gathered<I>,
        steps: &mut Steps<L>,
    ) -> Result<(), Halt<RefusedWord<R::Cause>>> {
        let mut rest = chunk;
        while rest.len() > 0 {
            let front = self.recode_front(rest, out, steps);
            rest = &rest[front..];
            let size = lesser(self.part.lacks(), rest.len());
            match self.push(&rest[..size], out, steps) {
                Err(halt) => return Err(halt),
                Ok(()) => rest = &rest[size..],
            }
        }
        Ok(())
    }

    fn finish<I: Streams>(
        &mut self,
        _out: &mut Gathered<I>,
        _steps: &mut Steps<L>,
    ) -> Result<bool, Halt<RefusedWord<R::Cause>>> {
        if self.has_fault {
            return Ok(true);
        }
        Ok(!self.part.is_empty())
    }

    ghost one_law = { λ first a b bytes made other spent cost how then p q. recoded_one (R.size first.rule)
        (R.Recodes first.rule) (R.Refuses first.rule) (R.one_law first.rule) (R.cause_law first.rule)
        (R.never_law first.rule) W.Saw first.rule first.watch a b bytes made other spent cost how then p q };
}
