//! Whole runs over a source and a sink in memory, with failing reads and writes, for the tests of the crates above.

ghost use Rattle.std.specs.Prelude.{◌≡◌};

use crate::{MemorySink, MemorySource, Status};
use fixed_steps::Steps;
use std::alloc::Global;
use std::sync::ledger::Ledger;

/// A call number that no source or sink of a test reaches.
pub const NEVER: u64 = 1_000_000;

/// A run: its arguments, its input, how many bytes move at a time, which read and which write fails, what it writes and
/// how it ends.
#[derive(Drop)]
pub struct MemoryRun {
    pub args: &'static [&'static str],
    pub input: &'static str,
    pub most: usize,
    pub failing_read: u64,
    pub failing_write: u64,
    pub written: &'static str,
    pub status: Status,
}

/// A program that is run by its arguments over a source and a sink in memory.
pub trait MemoryProgram {
    /// Runs the program by its arguments.
    fn run<L: Ledger>(
        &self,
        alloc: Global,
        args: &[String],
        source: &mut MemorySource,
        sink: &mut MemorySink,
        steps: &mut Steps<L>,
    ) -> Status;
}

impl MemoryRun {
    /// A run without a failing read or write, which moves at most 4,096 bytes at a time.
    pub fn unfailing(
        args: &'static [&'static str],
        input: &'static str,
        written: &'static str,
        status: Status,
    ) -> MemoryRun
        ensures args { result.args ≡ args.entry }
        ensures input { result.input ≡ input.entry }
        ensures most { result.most ≡ 4096 }
        ensures failing { (result.failing_read ≡ 1000000) × (result.failing_write ≡ 1000000) }
        ensures written { result.written ≡ written.entry }
        ensures status { result.status ≡ status }
    {
        MemoryRun {
            args,
            input,
            most: 4096,
            failing_read: NEVER,
            failing_write: NEVER,
            written,
            status,
        }
    }
}
