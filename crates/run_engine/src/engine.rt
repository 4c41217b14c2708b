//! The run: reads an input up to a limit, feeds it to a machine, and writes the text that the machine puts.

ghost use Rattle.std.specs.Prelude.{◌≡◌, ◌≤◌, ◌<◌, ◌+◌, ◌^◌, [], true, ℕ, List, IfOk, length};
ghost use Rattle.line_engine.specs.Asked.{longest_chunk};
ghost use Rattle.run_engine.specs.Machines.{IsGoing, going};
ghost use Rattle.run_engine.specs.Run.{HasRun};
ghost use Rattle.run_engine.specs.Inner.Progress.{EndsBy, EndsFed, ReadsSome, Settles};
ghost use Rattle.run_engine.specs.Seen.{moment};

use crate::gathered::Gathered;
use crate::machine::{Halt, Machine};
use crate::streams::Streams;
use fixed_steps::Steps;
use line_engine::Failed;
use std::sync::ledger::Ledger;

/// The most bytes that one read requests.
pub const CHUNK: usize = 4096;

/// How a run ended.
#[derive(Drop)]
pub enum End<T> {
    /// The input was answered, and nothing in it was refused.
    Done,
    /// The input was answered, and something in it was refused.
    Faults,
    /// A read failed.
    ReadFault,
    /// A write failed.
    WriteFault,
    /// The input is longer than the limit.
    TooLong,
    /// There was no memory.
    NoMemory,
    /// The machine stopped for a reason of its own.
    Stopped(T),
}

/// Returns how many bytes the next read requests, after `taken` bytes.
fn next_room(limit: u64, taken: u64) -> usize
    requires limit { limit ≤ 2 ^ 62 }
    requires taken { taken ≤ limit }
    ensures some { 0 < result }
    ensures chunk { result ≤ longest_chunk }
    ensures within { taken + result ≤ limit + 1 }
{
    (limit + 1 - taken).min(CHUNK as u64) as usize
}

/// Reads at most `most` bytes into the start of a chunk. Returns their count.
fn read_prefix<I: Streams>(io: &mut I, chunk: &mut [u8], most: usize) -> Result<usize, Failed>
    requires room { most ≤ length chunk.old }
    requires some { 0 < most }
    ensures bound { IfOk result (λ count. count ≤ most) }
    ensures reads { ReadsSome (I.seen io.old) (I.seen io.new) most chunk.new result }
{
    io.read(&mut chunk[..most])
}

/// Writes the text that a machine put before it halted. Returns how the run ends.
fn settle<T: Drop, I: Streams>(halt: Halt<T>, out: &mut Gathered<I>) -> End<T>
    ensures { Settles halt (I.seen out.old.io) (I.seen out.new.io) out.old.text out.new.text result }
{
    if let Halt::WriteFault = halt {
        return End::WriteFault;
    }
    match out.flush() {
        Err(_) => End::WriteFault,
        Ok(()) => match halt {
            Halt::WriteFault => End::WriteFault,
            Halt::NoMemory => End::NoMemory,
            Halt::Stopped(why) => End::Stopped(why),
        },
    }
}

/// Feeds a machine with the next bytes, and writes the text that it puts.
fn feed_chunk<M: Machine<L>, I: Streams, L: Ledger>(
    machine: &mut M,
    chunk: &[u8],
    out: &mut Gathered<I>,
    steps: &mut Steps<L>,
) -> Result<(), End<M::Stop>>
    requires text { out.old.text ≡ [] }
    requires known { IsGoing M.Makes machine.old }
    ensures { (first : M) (bytes made : List ℕ) (spent : ℕ) → M.Makes first bytes made spent going machine.old
        → EndsFed (M.Makes first) bytes made spent chunk.now machine.new
        (moment (I.seen out.old.io) out.old.text steps.old) (moment (I.seen out.new.io) out.new.text steps.new)
        result }
{
    match machine.feed(chunk, out, steps) {
        Err(halt) => Err(settle(halt, out)),
        Ok(()) => match out.flush() {
            Err(_) => Err(End::WriteFault),
            Ok(()) => Ok(()),
        },
    }
}

/// Ends the input of a machine, and writes the text that it puts.
fn end_input<M: Machine<L>, I: Streams, L: Ledger>(
    machine: &mut M,
    out: &mut Gathered<I>,
    steps: &mut Steps<L>,
) -> End<M::Stop>
    requires text { out.old.text ≡ [] }
    requires known { IsGoing M.Makes machine.old }
    ensures { (first : M) (bytes made : List ℕ) (spent : ℕ) → M.Makes first bytes made spent going machine.old
        → EndsBy (M.Makes first) true bytes made spent [] machine.new
        (moment (I.seen out.old.io) out.old.text steps.old) (moment (I.seen out.new.io) out.new.text steps.new)
        result }
{
    match machine.finish(out, steps) {
        Err(halt) => settle(halt, out),
        Ok(is_fault) => match out.flush() {
            Err(_) => End::WriteFault,
            Ok(()) => { if is_fault { End::Faults } else { End::Done } }
        },
    }
}

/// Feeds a machine with an input up to a limit, and writes the text that it puts.
///
/// The limit is in bytes, at most 2^62. Each read requests at most 4,096 bytes, and at most limit + 1 bytes less those
/// already taken. The text made of a chunk is written before the next chunk is read.
pub fn run<M: Machine<L>, I: Streams, L: Ledger>(
    machine: &mut M,
    limit: u64,
    out: &mut Gathered<I>,
    steps: &mut Steps<L>,
) -> End<M::Stop>
    requires most { limit ≤ 2 ^ 62 }
    requires fresh { M.Makes machine.old [] [] 0 going machine.old }
    requires text { out.old.text ≡ [] }
    ensures { HasRun (M.Makes machine.old) machine.new limit
        (moment (I.seen out.old.io) out.old.text steps.old) (moment (I.seen out.new.io) out.new.text steps.new)
        result }
{
    let mut chunk = [0u8; CHUNK];
    let mut taken = 0u64;
    while taken <= limit {
        let room = next_room(limit, taken);
        match read_prefix(&mut out.io, &mut chunk, room) {
            Err(_) => return End::ReadFault,
            Ok(0) => return end_input(machine, out, steps),
            Ok(count) => {
                let within = count.min((limit - taken) as usize);
                match feed_chunk(machine, &chunk[..within], out, steps) {
                    Err(end) => return end,
                    Ok(()) => taken += count as u64,
                }
            }
        }
    }
    End::TooLong
}
