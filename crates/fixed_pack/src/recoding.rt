//! A run that recodes the words of an input.

ghost use Rattle.std.specs.Prelude.{◌≡◌, []};
ghost use Rattle.fixed_command.specs.Limits.{limit_of};
ghost use Rattle.run_engine.specs.Seen.{seen_of};
ghost use Rattle.fixed_pack.specs.Recoded.{HasRecoded};

use crate::recode::{Recode, WordWatch};
use crate::recoder::{Recoder, RefusedWord};
use fixed_command::{Limit, bytes_within};
use fixed_steps::Steps;
use line_engine::{Sink, Source};
use run_engine::{Devices, End, Gathered, run};
use std::sync::ledger::Ledger;

/// How the recoding of an input ended.
#[derive(Drop)]
pub struct RecodeEnd<C, W> {
    /// `Done`: each word was recoded and its result written. `Stopped`: a word ended the input; the results of the
    /// words before it were written. `Faults`: words were refused, or bytes are left over at the end of the input.
    pub end: End<RefusedWord<C>>,
    /// The number of bytes left over.
    pub left_over: usize,
    /// The observer.
    pub watch: W,
}

/// Recodes the words of an input within the limit by a rule, one after another, and writes the results. Returns how the
/// run ended.
///
/// The rule decides whether the run goes on after a refused word. Fewer bytes than a word at the end of the input are
/// left over. Each read requests at most 4,096 bytes, and the results of the words that ended in them are written
/// before the next read. It takes no memory. The observer sees each word, in order.
pub fn run_recode<
    R: Recode + Drop,
    W: WordWatch<R::Cause, L> + Drop,
    S: Source,
    K: Sink,
    L: Ledger,
>(
    limit: &Option<Limit>,
    rule: R,
    watch: W,
    source: &mut S,
    sink: &mut K,
    steps: &mut Steps<L>,
) -> RecodeEnd<R::Cause, W>
    ensures { HasRecoded (limit_of limit.now) (R.size rule) (R.Recodes rule) (R.Refuses rule) W.Saw rule watch
        result.watch
        (seen_of (S.left source.old) (S.asked source.old) (S.failures source.old) (K.written sink.old)
        (K.failures sink.old))
        (seen_of (S.left source.new) (S.asked source.new) (S.failures source.new) (K.written sink.new)
        (K.failures sink.new)) steps.old steps.new result.left_over result.end }
{
    let mut recoder = Recoder::new(rule, watch);
    let mut out = Gathered::new(Devices { source, sink });
    let end = run(&mut recoder, bytes_within(limit), &mut out, steps);
    let Recoder { part, watch, .. } = recoder;
    RecodeEnd {
        end,
        left_over: part.len(),
        watch,
    }
}
