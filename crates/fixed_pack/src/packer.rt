//! The machine that packs lines.

ghost use Rattle.std.specs.Prelude.{◌≡◌, ◌+◌, ◌≤◌, ◌++◌, [], OnOk, length, take};
ghost use Rattle.run_engine.specs.LineRun.{one_more};
ghost use Rattle.run_engine.specs.declared.machine.Halt.TheVariants.{Stopped};
ghost use Rattle.fixed_pack.specs.Inner.Packing.{EndsLine};

use crate::pack_rule::Pack;
use fixed_steps::Steps;
use line_engine::Output;
use run_engine::{Gathered, Halt, Pieces, Streams, find_newline};
use std::alloc::Global;
use std::sync::ledger::Ledger;
use text_buffer::{NoMemory, TextBuffer};

/// The most bytes of a refused line that are kept.
pub const KEPT: usize = 160;

/// Packs lines into words by a rule, one after another, up to the first refused line. The machine keeps the number and
/// the first bytes of that line, since the result of each step has room for all that it may return.
#[derive(Drop)]
pub struct Packer<R> {
    /// The rule.
    pub rule: R,
    /// The unfinished line.
    pub line: Vec<u8>,
    /// The number of lines that ended. The count stays at the greatest `u64`.
    pub lines: u64,
    /// The first bytes of the refused line.
    pub kept: TextBuffer<KEPT>,
}

/// Appends bytes.
fn append(bytes: &mut Vec<u8>, part: &[u8]) -> Result<(), NoMemory>
    ensures ok { OnOk result (bytes.new.items ≡ bytes.old.items ++ part.now) }
{
    match bytes.extend_from_slice(part) {
        Ok(()) => Ok(()),
        Err(_) => Err(NoMemory),
    }
}

/// Keeps the first bytes of a refused line. Returns why the machine stops.
#[cold]
fn refuse<C: Copy>(kept: &mut TextBuffer<KEPT>, line: &[u8], cause: C) -> Halt<C>
    ensures kept { kept.new ≡ take 160 line.now }
    ensures halt { result ≡ Stopped cause }
{
    kept.clear();
    kept.push_bytes(&line[..KEPT.min(line.len())]);
    Halt::Stopped(cause)
}

impl<R: Pack> Packer<R> {
    /// Returns a packer before the first line.
    pub fn new(alloc: Global, rule: R) -> Packer<R>
        ensures rule { result.rule ≡ rule }
        ensures line { result.line.items ≡ [] }
        ensures lines { result.lines ≡ 0 }
    {
        Packer {
            rule,
            line: Vec::new(alloc),
            lines: 0,
            kept: TextBuffer::new(),
        }
    }

    /// Packs the line that ends with this part and begins a new one. A line that is whole in the part is not copied.
    #[inline(always)]
    fn end_line<L: Ledger>(
        &mut self,
        part: &[u8],
        out: &mut Output,
        steps: &mut Steps<L>,
    ) -> Result<(), Halt<R::Cause>>
        requires { length out.old + 8 ≤ 8192 }
        ensures rule { self.new.rule ≡ self.old.rule }
        ensures line { OnOk result (self.new.line.items ≡ []) }
        ensures lines { OnOk result (self.new.lines ≡ one_more self.old.lines) }
        ensures ended { EndsLine (R.Packs self.old.rule) (R.Refuses self.old.rule) (self.old.line.items ++ part.now)
            (one_more self.old.lines) out.old out.new self.new.lines self.new.kept result }
    {
        self.lines = self.lines.saturating_add(1);
        if self.line.is_empty() {
            return match self.rule.pack(part, out, steps) {
                Ok(()) => Ok(()),
                Err(cause) => Err(refuse(&mut self.kept, part, cause)),
            };
        }
        match append(&mut self.line, part) {
            Err(_) => Err(Halt::NoMemory),
            Ok(()) => match self.rule.pack(&self.line, out, steps) {
                Ok(()) => {
                    self.line.clear();
                    Ok(())
                }
                Err(cause) => Err(refuse(&mut self.kept, &self.line, cause)),
            },
        }
    }
}

impl<R: Pack, L: Ledger> Pieces<L> for Packer<R> {
    ghost use Rattle.run_engine.specs.Pieces.{is_newline};
    ghost use Rattle.fixed_pack.specs.Packed.{MakesPacked};
    ghost use Rattle.fixed_pack.specs.Lemmas.PackedLaws.{packed_one, packed_stays};

    type Stop = R::Cause;

    ghost Makes = { λ first bytes text spent how last. MakesPacked (R.Packs first.rule) (R.Refuses first.rule)
        first.rule bytes text spent how last };

    ghost ends = { is_newline };

    #[inline(always)]
    fn find(bytes: &[u8]) -> Option<usize> {
        find_newline(bytes)
    }

    #[inline(always)]
    fn end_piece<I: Streams>(
        &mut self,
        part: &[u8],
        _byte: u8,
        out: &mut Gathered<I>,
        steps: &mut Steps<L>,
    ) -> Result<(), Halt<R::Cause>> {
        match out.make_room(8) {
            Err(_) => Err(Halt::WriteFault),
            Ok(()) => self.end_line(part, &mut out.text, steps),
        }
    }

    fn keep<I: Streams>(
        &mut self,
        part: &[u8],
        _out: &mut Gathered<I>,
        _steps: &mut Steps<L>,
    ) -> Result<(), Halt<R::Cause>> {
        match append(&mut self.line, part) {
            Err(_) => Err(Halt::NoMemory),
            Ok(()) => Ok(()),
        }
    }

    fn finish<I: Streams>(
        &mut self,
        out: &mut Gathered<I>,
        steps: &mut Steps<L>,
    ) -> Result<bool, Halt<R::Cause>> {
        if self.line.is_empty() {
            return Ok(false);
        }
        match out.make_room(8) {
            Err(_) => Err(Halt::WriteFault),
            Ok(()) => match self.end_line(&[], &mut out.text, steps) {
                Err(halt) => Err(halt),
                Ok(()) => Ok(false),
            },
        }
    }

    ghost one_law = { λ first a b bytes made other spent cost how then p q. packed_one (R.Packs first.rule)
        (R.Refuses first.rule) (R.one_law first.rule) (R.cause_law first.rule) (R.never_law first.rule) first.rule a b
        bytes made other spent cost how then p q };

    ghost stop_law = { λ first last bytes more text spent why p. packed_stays (R.Packs first.rule)
        (R.Refuses first.rule) bytes more text (record { number = last.lines; cause = why }) last.kept p };
}
