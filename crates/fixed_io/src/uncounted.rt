//! A program over the streams of its process, with its own counter of steps.

ghost use Rattle.std.specs.Prelude.{◌≡◌, ◌<◌, ◌≤◌, IfOk, Err, None, length};
ghost use Rattle.fixed_io.specs.Process.{RunsBetween};
ghost use Rattle.fixed_io.specs.Report.{TellsEnd};
ghost use Rattle.line_engine.specs.Program.{EndsAs, outside};
ghost use Rattle.line_engine.specs.Run.{WritesText};
ghost use Rattle.line_engine.specs.declared.status.Status.{Status};
ghost use Rattle.line_engine.specs.declared.program.NoArgs.{NoArgs};

use crate::process::program_args;
use crate::report::{MAX_PLACE, report_end};
use crate::{StdSink, StdSource};
use fixed_steps::Steps;
use line_engine::{NoArgs, Program, Sink, Status, run_program};
use std::alloc::Global;
use std::io::{Read, Stderr, Stdin, Stdout, Write};
use std::sync::ledger::{Blank, Ledger};

/// Where a program reports that it failed: its name, of at most 256 bytes, and a sink.
#[derive(Drop)]
pub struct Reports<'a, K: Sink> {
    /// The name.
    pub name: &'a [u8],
    /// The sink for the line.
    pub sink: K,
}

/// Runs a program by its arguments over a reader and a writer, with its own counter of steps, and returns the exit code
/// of its process. If that is 3 or more, one line says why, and how many lines were answered.
pub fn run_streams<P: Program<L>, R: Read + Drop, W: Write + Drop, K: Sink, L: Ledger>(
    program: &P,
    alloc: Global,
    args: Result<Vec<String>, NoArgs>,
    source: &mut StdSource<R>,
    sink: &mut StdSink<W>,
    reports: &mut Reports<'_, K>,
    blank: Blank,
) -> u8
    requires name { blank.name ≡ L.name }
    requires parts { blank.parts ≡ L.parts }
    requires some { 0 < blank.parts }
    requires short { length reports.old.name.now ≤ 256 }
    ensures args { IfOk args (λ all. EndsAs (RunsBetween
        (λ steps. outside (R.remaining source.old.reader) None source.old.failures
        (W.contents sink.old.writer) sink.old.failures steps)
        (λ steps. outside (R.remaining source.new.reader) None source.new.failures
        (W.contents sink.new.writer) sink.new.failures steps)
        (P.Runs program.now all.items)) result) }
    ensures no_memory { args ≡ Err NoArgs.NoMemory → (result ≡ 5) × (source.new ≡ source.old) × (sink.new ≡ sink.old) }
    ensures not_text { args ≡ Err NoArgs.NotText
        → EndsAs (WritesText (P.usage_line program.now) Status.Usage (W.contents sink.old.writer)
        (W.contents sink.new.writer) sink.old.failures sink.new.failures) result × (source.new ≡ source.old) }
    ensures reports { TellsEnd reports.old.name.now result sink.new.lines (K.written reports.old.sink)
        (K.written reports.new.sink)
        (K.failures reports.old.sink) (K.failures reports.new.sink) }
{
    let mut steps = Steps::<L>::new(blank);
    let code = run_program(program, alloc, args, source, sink, &mut steps);
    report_end(reports.name, code, sink.lines(), &mut reports.sink);
    code
}

/// Runs a program with this name by the arguments of its process, from standard input to standard output. Reports on
/// standard error why it failed.
pub fn run_process<P: Program<L>, L: Ledger>(
    rt: &HostRuntime,
    name: &[u8],
    program: &P,
    blank: Blank,
) -> u8
    requires name { blank.name ≡ L.name }
    requires parts { blank.parts ≡ L.parts }
    requires some { 0 < blank.parts }
    requires short { length name.now ≤ 256 }
{
    let args = program_args(rt);
    let mut reports = Reports {
        name,
        sink: StdSink::new(rt.stderr()),
    };
    run_streams::<P, Stdin, Stdout, StdSink<Stderr>, L>(
        program,
        rt.alloc(),
        args,
        &mut StdSource::new(rt.stdin()),
        &mut StdSink::new(rt.stdout()),
        &mut reports,
        blank,
    )
}
