//! Answers the lines of JSON of an input, over any source and any sink.

ghost use Rattle.std.specs.Prelude.{◌≡◌, ◌⊎◌, None};
ghost use Rattle.line_engine.specs.Program.{outside};
ghost use Rattle.line_engine.specs.declared.status.Status.{Status};
ghost use Rattle.fixed_command.specs.Limits.{limit_of};
ghost use Rattle.json_lines.specs.Run.{HasJsonRun};

use crate::refusals::JsonRefusal;
use crate::splitter::{JsonLines, Room};
use crate::task::JsonTask;
use column_engine::{FieldRule, FieldWatch};
use fixed_command::{Limit, bytes_within};
use fixed_steps::Steps;
use line_engine::{Sink, Source, Status};
use run_engine::{Cut, Devices, Gathered, run, status_of};
use std::alloc::Global;
use std::sync::ledger::Ledger;

/// How a run over lines of JSON ended.
#[derive(Drop)]
pub struct JsonEnd<W> {
    /// Its status: `Faults` if a line was refused.
    pub status: Status,
    /// How many lines were refused.
    pub refused: u64,
    /// The first refused line.
    pub first: Option<JsonRefusal>,
    /// The observer.
    pub observer: W,
}

/// Answers each line of an input: the values at the path are exchanged for the replies of the rule, and every other
/// byte stays. Returns how that ended.
///
/// A refused line is answered by `error: ` and the cause, or stays if refused lines are kept. A line is refused if it
/// is not JSON, if it has no value at the path, if one of its values is refused, or if it or its answer has more than
/// 1,048,576 bytes. The observer is told of each value up to the first refused one of its line, and of each line that
/// is refused as a whole, with its first bytes and the bare cause, where it stops being JSON. The answers to the lines
/// that ended in a chunk of 4,096 bytes are written before the next is read. Before the first read it allocates a line,
/// an answer and a record; afterwards only the reader of JSON allocates, at most the length of the longest line. It
/// ends with `NoMemory` if that fails. An input is too long if it has more bytes than the limit or, without one, than
/// 2^62.
pub fn run_json<'a, A: FieldRule<L>, W: FieldWatch<A, L> + Drop, S: Source, K: Sink, L: Ledger>(
    alloc: Global,
    limit: &Option<Limit>,
    task: &'a JsonTask<'a, A>,
    observer: W,
    source: &mut S,
    sink: &mut K,
    steps: &mut Steps<L>,
) -> JsonEnd<W>
    // The bytes read, made and written, by status; which count of failures rose; what reads requested; what the
    // observer was told; and how many lines were refused, with the first of them; or there was no memory before the
    // first read.
    ensures { ((source.new ≡ source.old) × (sink.new ≡ sink.old) × (result.status ≡ Status.NoMemory)
        × (result.refused ≡ 0) × (result.first ≡ None) × (result.observer ≡ observer))
        ⊎ HasJsonRun (λ rule. A.Answers rule) (λ rule. W.Saw rule) (limit_of limit.now) task.now
        (outside (S.left source.old) (S.asked source.old) (S.failures source.old) (K.written sink.old)
        (K.failures sink.old) steps.old)
        (outside (S.left source.new) (S.asked source.new) (S.failures source.new) (K.written sink.new)
        (K.failures sink.new) steps.new) result.status observer (record {
          observer = result.observer;
          refused = result.refused;
          first = result.first;
        }) }
{
    match Room::new(alloc) {
        Err(_) => JsonEnd {
            status: Status::NoMemory,
            refused: 0,
            first: None,
            observer,
        },
        Ok(room) => {
            let mut machine = Cut(JsonLines::new(task, room, observer));
            let mut out = Gathered::new(Devices { source, sink });
            let end = run(&mut machine, bytes_within(limit), &mut out, steps);
            let JsonLines {
                refusals,
                observer,
                ..
            } = machine.0;
            JsonEnd {
                status: status_of(end),
                refused: refusals.count,
                first: refusals.first,
                observer,
            }
        }
    }
}
