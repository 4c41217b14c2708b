//! One product of several files, which are read whole, one after another, before anything is written.
//!
//! So a name in two of them is a duplicate, and standard output never has a part of a header.

ghost use Rattle.std.specs.Prelude.{◌≡◌, ◌+◌, ◌-◌, ◌^◌, ◌++◌, ◌∷◌, [], IfOk, IfSome, OnOk, drop, length, min};
ghost use Rattle.fixed.specs.Products.{IsAnswerOf, IsProductOf, count_lines, ended, ends_line, with_file};
ghost use Rattle.fixed_command.specs.Limits.{whole_limit_of};
ghost use Rattle.fixed_command.specs.Reports.{ReportsWhole};
ghost use Rattle.fixed_command.specs.Runs.{IsWholeRun};
ghost use Rattle.fixed_io.specs.Report.{newlines_of};
ghost use Rattle.line_engine.specs.Program.{outside};

use crate::explained::push_explanation;
use crate::inputs::refuse_file;
use crate::output::{LateOutput, inputs_of, refuse_input};
use crate::rejects::RejectSink;
use crate::settings::limit_asked;
use command_line::device::{Failure, Unmarked, Writer};
use command_line::given::{Asked, Given};
use command_line::report::{Report, report_end, report_no_memory};
use fixed_arrays::{ArrayRule, LiteralArrayRule};
use fixed_command::{
    ConvertRule, Limit, Offers, RefusedLine, RenamedRule, Spelling, SwappedRule, Task, TaskEnd,
    run_task, run_whole_rule, whole_within, without_return,
};
use fixed_constants::{FormRule, PlainRule};
use fixed_io::StdSink;
use fixed_steps::Steps;
use line_engine::{MemorySource, Sink, Source, Status};
use line_rejects::Rejects;
use std::fs::File;
use std::io;
use std::io::{ErrorKind, Read};
use std::sync::ledger::Ledger;

/// What to write for all files.
#[derive(Clone, Copy)]
pub enum Product<'a> {
    /// Named literals in a form.
    Constants(FormRule<'a>),
    /// A list of numerals in a form.
    List(SwappedRule<ArrayRule<'a>>),
    /// A list of named literals in a form.
    Literals(LiteralArrayRule<'a>),
}

/// The bytes of all files, with a newline between two if the first has none at its end, and the count of lines at the
/// end of each. There are no more bytes than the limit and one.
#[derive(Drop)]
struct Gathered<'a> {
    bytes: Vec<u8>,
    ends: Vec<(&'a str, u64)>,
    lines: u64,
    limit: u64,
}

/// Whether `bytes` is empty or ends with a newline.
fn ends_line(bytes: &[u8]) -> bool
    ensures { result ≡ ends_line bytes.now }
{
    match bytes {
        [] => true,
        [.., last] => *last == b'\n',
    }
}

/// Counts the newlines in `bytes`.
fn newlines_in(bytes: &[u8]) -> u64
    ensures { result ≡ min (newlines_of bytes.now) (2 ^ 64 - 1) }
{
    let mut count = 0u64;
    for byte in bytes {
        if *byte == b'\n' {
            count = count.saturating_add(1);
        }
    }
    count
}

/// Counts the lines of `bytes`: a last one may have no newline.
fn lines_in(bytes: &[u8]) -> u64
    ensures { result ≡ count_lines bytes.now }
{
    let ended = newlines_in(bytes);
    if ends_line(bytes) {
        ended
    } else {
        ended.saturating_add(1)
    }
}

/// Appends a newline unless `bytes` is empty or ends with one.
fn end_line(bytes: &mut Vec<u8>) -> io::Result<()>
    ensures { OnOk result (bytes.new.items ≡ ended bytes.old.items) }
{
    if !ends_line(bytes) {
        bytes.push(b'\n')?;
    }
    Ok(())
}

/// Appends the bytes of a file until there are one more than the limit, after a newline if those before it have none at
/// their end. Returns how many lines of the file they are.
fn append_file<R: Read + Drop>(bytes: &mut Vec<u8>, limit: u64, reader: R) -> io::Result<u64>
    ensures text { OnOk result (IfSome (R.remaining reader) (λ file.
        bytes.new.items ≡ with_file limit bytes.old.items file)) }
    ensures lines { IfOk result (λ count.
        count ≡ count_lines (drop (length (ended bytes.old.items)) bytes.new.items)) }
{
    end_line(bytes)?;
    let start = bytes.len();
    let room = limit.saturating_add(1).saturating_sub(start as u64);
    Unmarked::new(reader).take(room).read_to_end(bytes)?;
    Ok(lines_in(&bytes[start.min(bytes.len())..]))
}

impl<'a> Gathered<'a> {
    /// Appends a file, within the limit.
    fn push_file<R: Read + Drop>(&mut self, name: &'a str, reader: R) -> io::Result<()>
        ensures text { OnOk result (IfSome (R.remaining reader) (λ file.
            self.new.bytes.items ≡ with_file self.old.limit self.old.bytes.items file)) }
        ensures lines { OnOk result (self.new.lines ≡ min (self.old.lines
            + count_lines (drop (length (ended self.old.bytes.items)) self.new.bytes.items)) (2 ^ 64 - 1)) }
        ensures ends { OnOk result (self.new.ends.items ≡ self.old.ends.items ++ (name.entry, self.new.lines) ∷ []) }
        ensures limit { self.new.limit ≡ self.old.limit }
    {
        let lines = append_file(&mut self.bytes, self.limit, reader)?;
        let last = self.lines.saturating_add(lines);
        self.ends.push((name, last))?;
        self.lines = last;
        Ok(())
    }

    /// Appends a file, or standard input if its name is `-`.
    fn push(&mut self, rt: &HostRuntime, name: &'a str) -> io::Result<()> {
        if name == "-" {
            self.push_file(name, rt.stdin())
        } else {
            let file = File::open(rt, name)?;
            self.push_file(name, file)
        }
    }
}

/// Appends a line of the product: its number in its file, from 1, and the file's name if `is_named`. A line of standard
/// input or past all files has only a number.
fn push_line(report: &mut Report, ends: &[(&str, u64)], line: u64, is_named: bool) {
    let mut before = 0;
    for end in ends {
        if line > before && line <= end.1 {
            report.number(line.saturating_sub(before));
            if is_named && end.0 != "-" {
                report.text(" of ");
                report.text(end.0);
            }
            return;
        }
        before = end.1;
    }
    report.number(line.saturating_sub(before));
}

/// Appends the file that contains a line of the product, and `: `; nothing for standard input.
fn push_file_of(report: &mut Report, ends: &[(&str, u64)], line: u64) {
    let mut before = 0;
    for end in ends {
        if line > before && line <= end.1 && end.0 != "-" {
            report.text(end.0);
            report.text(": ");
        }
        before = end.1;
    }
}

/// Reports on standard error which line of the files is refused, and why; for a duplicate, also the other line.
fn report_line<L: Ledger>(
    rt: &HostRuntime,
    product: &Product<'_>,
    ends: &[(&str, u64)],
    line: &RefusedLine,
    steps: &mut Steps<L>,
) {
    let mut report = Report::of(None);
    push_file_of(&mut report, ends, line.number);
    report.text("line ");
    push_line(&mut report, ends, line.number, false);
    report.text(", '");
    report.bytes(line.text.as_bytes(), 40);
    report.text("': ");
    match line.cause.as_bytes().strip_prefix(b"duplicate of line ") {
        None => report.bytes(line.cause.as_bytes(), 160),
        Some(digits) => {
            report.text("duplicate of line ");
            push_line(&mut report, ends, number_of(digits), true);
        }
    }
    if !line.is_cut() {
        push_list_explanation(&mut report, product, line, steps);
    }
    report.send(rt);
}

/// The options for other spellings of the numerals of a list.
const OFFERS: Offers = Offers {
    decimal: true,
    trim: true,
    radix: true,
};

/// Appends why a numeral of a list is refused, unless its point is another byte.
fn push_list_explanation<L: Ledger>(
    report: &mut Report,
    product: &Product<'_>,
    line: &RefusedLine,
    steps: &mut Steps<L>,
) {
    let list = match product {
        Product::List(list) if list.decimal == b'.' => &list.rule,
        _ => return,
    };
    let n = &list.numerals;
    let rule = ConvertRule::reading(Spelling::Numeral, n.radix, n.format, n.policy, n.mode);
    let text = line.text.as_bytes();
    let numeral = match list.layout {
        Some(layout) => (layout.numeral_of(text), layout.blanks_before(text)),
        None => (without_return(text), 0),
    };
    push_explanation(report, &rule, OFFERS, numeral, line.cause.as_bytes(), steps);
}

/// Returns the number that digits write.
fn number_of(digits: &[u8]) -> u64 {
    let mut number = 0u64;
    for digit in digits {
        number = number
            .saturating_mul(10)
            .saturating_add(u64::from(digit.saturating_sub(b'0')));
    }
    number
}

/// Reports on standard error why a file could not be read.
fn refuse(rt: &HostRuntime, name: &str, error: &io::Error) -> Status {
    if error.kind() == ErrorKind::OutOfMemory {
        report_no_memory(rt)
    } else {
        refuse_file(rt, name, error)
    }
}

/// Reads all files. If one cannot be read, reports why on standard error.
fn gather<'a>(rt: &HostRuntime, files: &[&'a str], all: &mut Gathered<'a>) -> Status {
    for name in files {
        let status = gather_file(rt, name, all);
        if status != Status::Done {
            return status;
        }
    }
    Status::Done
}

/// Reads a file. If it cannot be read, reports why on standard error.
fn gather_file<'a>(rt: &HostRuntime, name: &'a str, all: &mut Gathered<'a>) -> Status {
    match all.push(rt, name) {
        Ok(()) => Status::Done,
        Err(error) => refuse(rt, name, &error),
    }
}

/// Writes the product of an input within the limit, or nothing if the input is refused. Returns how that ended, and the
/// refused line.
fn run_on<S: Source, K: Sink, L: Ledger>(
    rt: &HostRuntime,
    product: &Product<'_>,
    limit: &Option<Limit>,
    source: &mut S,
    sink: &mut K,
    steps: &mut Steps<L>,
) -> TaskEnd
    ensures run { IsWholeRun (IsProductOf product.now) (whole_limit_of limit.now)
        (outside (S.left source.old) (S.asked source.old) (S.failures source.old)
        (K.written sink.old) (K.failures sink.old) steps.old)
        (outside (S.left source.new) (S.asked source.new) (S.failures source.new)
        (K.written sink.new) (K.failures sink.new) steps.new) result.status }
    ensures reports { ¬ (result.status ≡ Status.NoMemory) → ReportsWhole (IsAnswerOf product.now)
        (outside (S.left source.old) (S.asked source.old) (S.failures source.old)
        (K.written sink.old) (K.failures sink.old) steps.old)
        (outside (S.left source.new) (S.asked source.new) (S.failures source.new)
        (K.written sink.new) (K.failures sink.new) steps.new) result }
{
    let alloc = rt.alloc();
    match product {
        Product::Constants(rule) => {
            let task = Task::Constants(*rule);
            let mut rejects = Rejects::<RejectSink<'_>>::none();
            run_task(alloc, limit, &task, &mut rejects, source, sink, steps)
        }
        Product::List(rule) => run_whole_rule(alloc, limit, rule, false, source, sink, steps),
        Product::Literals(rule) => {
            let renamed = RenamedRule { rule };
            let plain = PlainRule { rule: &renamed };
            run_whole_rule(alloc, limit, &plain, false, source, sink, steps)
        }
    }
}

/// Writes the product of the files from an index on as one input, or of standard input if there are none. If one of
/// them cannot be read or is refused, or all have more bytes than the limit that the option names, nothing is written,
/// and an output file stays as it was.
pub fn run_product<'a, L: Ledger>(
    rt: &HostRuntime,
    product: &Product<'_>,
    given: &Given<'_, 'a>,
    place: usize,
    steps: &mut Steps<L>,
) -> Asked<'a, Status> {
    let files = inputs_of(given.from(place));
    let limit = match limit_asked(given) {
        Ok(limit) => limit,
        Err(refusal) => return Err(refusal),
    };
    refuse_input(rt, given, files)?;
    let mut all = Gathered {
        bytes: Vec::new(rt.alloc()),
        ends: Vec::new(rt.alloc()),
        lines: 0,
        limit: whole_within(&limit),
    };
    let status = gather(rt, files, &mut all);
    if status != Status::Done {
        return Ok(status);
    }
    let output = LateOutput::new(rt, given);
    Ok(write_product(rt, product, &limit, all, output, steps))
}

/// Writes the product of what was read. An output file is created also for a product without a byte.
fn write_product<L: Ledger>(
    rt: &HostRuntime,
    product: &Product<'_>,
    limit: &Option<Limit>,
    all: Gathered<'_>,
    mut output: LateOutput<'_, '_>,
    steps: &mut Steps<L>,
) -> Status {
    let failure = Failure::new(None);
    let mut source = MemorySource::new(all.bytes, 65_536, Vec::new(rt.alloc()));
    let mut sink = StdSink::new(Writer {
        writer: &mut output,
        failure: &failure,
    });
    let end = run_on(rt, product, limit, &mut source, &mut sink, steps);
    let lines = sink.lines();
    if let Some(line) = &end.refusals.first {
        report_line(rt, product, &all.ends, line, steps);
    }
    let mut status = end.status;
    if status == Status::Done {
        if let Err(error) = output.open() {
            failure.set(Some(error));
            status = Status::WriteFault;
        }
    }
    let file = if status == Status::WriteFault {
        output.file()
    } else {
        None
    };
    report_end(rt, file, status, lines, &failure);
    status
}
