//! A whole run over bytes in memory, with its own counter.

ghost use Rattle.std.specs.Prelude.{◌≡◌, ◌≤◌, ◌<◌};

use crate::memory_run::{MemoryProgram, MemoryRun};
use crate::{MemorySink, MemorySource, Status};
use fixed_steps::Steps;
use std::alloc::{AllocError, Global};
use std::marker::Brand;
use std::sync::ledger::{Blank, Ledger};

/// The room of a sink.
const ROOM: usize = 8000;

impl MemoryRun {
    /// Returns how a run of these bytes ends, and what it writes. The run's own input is not used.
    pub fn of<P: MemoryProgram>(
        &self,
        alloc: Global,
        program: &P,
        input: Vec<u8>,
    ) -> Result<(Status, Vec<u8>), AllocError> {
        let mut args = Vec::new(alloc);
        for arg in self.args {
            args.push(String::from_str(alloc, arg)?)?;
        }
        let most = self.most.max(1);
        let mut source = MemorySource::new(input, most, [self.failing_read].to_vec(alloc)?);
        let failing_writes = [self.failing_write].to_vec(alloc)?;
        let mut sink = MemorySink::new(vec![in alloc; 0; ROOM]?, most, failing_writes);
        let status = run_over::<P, Brand>(
            program,
            alloc,
            &args,
            &mut source,
            &mut sink,
            Blank::new(1),
        );
        Ok((status, sink.written().to_vec(alloc)?))
    }
}

/// Runs a program with its steps counted on this blank.
fn run_over<P: MemoryProgram, L: Ledger>(
    program: &P,
    alloc: Global,
    args: &[String],
    source: &mut MemorySource,
    sink: &mut MemorySink,
    blank: Blank,
) -> Status
    requires name { blank.name ≡ L.name }
    requires parts { blank.parts ≡ L.parts }
    requires some { 0 < blank.parts }
{
    let mut steps = Steps::<L>::new(blank);
    program.run(alloc, args, source, sink, &mut steps)
}
