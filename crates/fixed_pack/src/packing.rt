//! A run that packs the lines of an input.

ghost use Rattle.std.specs.Prelude.{◌≡◌, []};
ghost use Rattle.fixed_command.specs.Limits.{limit_of};
ghost use Rattle.run_engine.specs.Seen.{seen_of};
ghost use Rattle.fixed_pack.specs.Packed.{HasPacked, with_line};

use crate::pack_rule::Pack;
use crate::packer::{KEPT, Packer};
use fixed_command::{Limit, bytes_within};
use fixed_steps::Steps;
use line_engine::{Sink, Source};
use run_engine::{Cut, Devices, End, Gathered, RefusedLine, run};
use std::alloc::Global;
use std::sync::ledger::Ledger;
use text_buffer::TextBuffer;

/// Adds the number and the first bytes of the refused line to the end of a run.
fn with_line<C: Drop>(number: u64, kept: TextBuffer<KEPT>, end: End<C>) -> End<RefusedLine<C>>
    ensures { result ≡ with_line number kept end }
{
    match end {
        End::Done => End::Done,
        End::Faults => End::Faults,
        End::ReadFault => End::ReadFault,
        End::WriteFault => End::WriteFault,
        End::TooLong => End::TooLong,
        End::NoMemory => End::NoMemory,
        End::Stopped(cause) => End::Stopped(RefusedLine {
            number,
            line: kept,
            cause,
        }),
    }
}

/// Packs the lines of an input within the limit by a rule, one after another, and writes their words. Returns how the
/// run ended.
///
/// The first refused line ends the run: `Stopped` has its number, its first 160 bytes and the cause. Each read requests
/// at most 4,096 bytes, and the words of the lines that ended in them are written before the next read. Memory is taken
/// for a line that does not lie within them. Without memory, the words of the lines before it were written.
pub fn run_pack<R: Pack + Drop, S: Source, K: Sink, L: Ledger>(
    alloc: Global,
    limit: &Option<Limit>,
    rule: R,
    source: &mut S,
    sink: &mut K,
    steps: &mut Steps<L>,
) -> End<RefusedLine<R::Cause>>
    ensures { HasPacked (limit_of limit.now) (R.Packs rule) (R.Refuses rule) rule
        (seen_of (S.left source.old) (S.asked source.old) (S.failures source.old) (K.written sink.old)
        (K.failures sink.old))
        (seen_of (S.left source.new) (S.asked source.new) (S.failures source.new) (K.written sink.new)
        (K.failures sink.new)) steps.old steps.new result }
{
    let mut packer = Cut(Packer::new(alloc, rule));
    let mut out = Gathered::new(Devices { source, sink });
    let end = run(&mut packer, bytes_within(limit), &mut out, steps);
    let Cut(packer) = packer;
    let Packer { lines, kept, .. } = packer;
    with_line(lines, kept, end)
}
