//! Raw floats: `fixed pack --from` reads them into words, and `fixed unpack --to` writes them for words.

ghost use Rattle.std.specs.Prelude.{◌≡◌, ◌≤◌, length};
ghost use Rattle.command_line.specs.Device.{written_to};
ghost use Rattle.fixed.specs.Ends.{end_text, status_of};
ghost use Rattle.fixed.specs.RecodeRuns.{PacksFloatsBetween, RecodesBetween, UnpacksFloatsBetween};

use crate::commands::pack::Counted;
use crate::inputs::report_greatest;
use crate::reports::{ReportForm, send_object};
use command_line::device::{Failure, Output, Writer};
use command_line::report::{Report, hex_digit, is_broken_pipe, push_words};
use fixed_command::{Limit, Tally};
use fixed_io::{StdSink, StdSource};
use fixed_pack::{
    FloatWords, Recode, RecodeEnd, RefusedWord, Rounds, WordFloats, WordRefusal, WordReport,
    WordWatch, run_recode,
};
use fixed_steps::Steps;
use line_engine::Status;
use run_engine::End;
use std::cell::Cell;
use std::io::{Error, Read, Write};
use std::mem;
use std::sync::ledger::Ledger;

/// Returns the status of a run with this end.
pub fn status_of<T>(end: &End<T>) -> Status
    ensures { result ≡ status_of end.now }
{
    match end {
        End::Done => Status::Done,
        End::Faults | End::Stopped(_) => Status::Faults,
        End::ReadFault => Status::ReadFault,
        End::WriteFault => Status::WriteFault,
        End::TooLong => Status::TooLong,
        End::NoMemory => Status::NoMemory,
    }
}

/// Appends the bytes of a refused word, before the cause.
pub fn push_bytes(report: &mut Report, word: &[u8]) {
    report.text(", bytes");
    for byte in word {
        report.bytes(&[b' ', hex_digit(byte / 16), hex_digit(byte % 16)], 3);
    }
    report.text(": ");
}

/// Appends the number of a refused word, its bytes and the cause.
fn push_refused(report: &mut Report, name: &str, refused: &RefusedWord<WordRefusal>) {
    report.text(name);
    report.text(" ");
    report.number(refused.number);
    push_bytes(report, refused.word.as_bytes());
    report.text(refused.cause.message());
}

/// Returns the message of an end without a refusal.
pub fn end_text<T>(end: &End<T>) -> &'static str
    ensures { result.now ≡ end_text end.now }
{
    match end {
        End::ReadFault => "a read failed",
        End::WriteFault => "a write failed",
        End::NoMemory => "there is no memory",
        _ => "the input is longer than the limit",
    }
}

/// Sends a report to standard error, with the message of a failed call and how many bytes were written.
pub fn send_written(rt: &HostRuntime, mut report: Report, error: &Option<Error>, written: u64) {
    if let Some(error) = error {
        report.text(": ");
        push_words(&mut report, rt.alloc(), error);
    }
    report.text(", bytes written: ");
    report.number(written);
    report.send(rt);
}

/// What an input is made of.
#[derive(Clone, Copy, Debug, PartialEq, Eq)]
pub enum Item {
    /// Words.
    Word,
    /// Floats.
    Float,
}

impl Item {
    /// What reports call one of them.
    fn name(self) -> &'static str
        ensures short { length result.now ≤ 8 }
    {
        match self {
            Item::Word => "word",
            Item::Float => "float",
        }
    }
}

/// An input of words or of floats.
#[derive(Clone, Copy)]
pub struct WordInput<'i> {
    /// Which of them.
    pub item: Item,
    /// The file's name; `None` for standard input.
    pub file: Option<&'i str>,
    /// The most bytes of the input.
    pub limit: &'i Option<Limit>,
}

/// Reports on standard error why an input did not end well, and how many bytes were written.
fn report_end(
    rt: &HostRuntime,
    input: &WordInput<'_>,
    end: &End<RefusedWord<WordRefusal>>,
    left_over: usize,
    written: u64,
    failure: &Failure,
) {
    let error = failure.take();
    if matches!(end, End::Done) || is_broken_pipe(&error) {
        return;
    }
    let mut report = Report::of(input.file);
    match end {
        End::Done => (),
        End::Faults => {
            report.text("the input ends within a ");
            report.text(input.item.name());
            report.text(", bytes left over: ");
            report.number(left_over as u64);
        }
        End::Stopped(refused) => push_refused(&mut report, input.item.name(), refused),
        _ => report.text(end_text(end)),
    }
    send_written(rt, report, &error, written);
}

/// An observer of words that may report what it counted.
pub trait Reports {
    /// Reports what was counted of an input that ended with this status on standard error.
    fn report<L: Ledger>(
        &self,
        rt: &HostRuntime,
        form: ReportForm,
        input: &WordInput<'_>,
        status: Status,
        steps: &mut Steps<L>,
    );
}

/// No report.
impl Reports for () {
    fn report<L: Ledger>(
        &self,
        _rt: &HostRuntime,
        _form: ReportForm,
        _input: &WordInput<'_>,
        _status: Status,
        _steps: &mut Steps<L>,
    ) {}
}

/// The outcomes of words and the greatest error. After a failed write nothing is reported, since not all counted words
/// were written.
impl<R: Rounds> Reports for WordReport<R> {
    fn report<L: Ledger>(
        &self,
        rt: &HostRuntime,
        form: ReportForm,
        input: &WordInput<'_>,
        status: Status,
        steps: &mut Steps<L>,
    ) {
        if status == Status::WriteFault {
            return;
        }
        let (name, file) = (input.item.name(), input.file);
        match form {
            ReportForm::Text => {
                report_tally(rt, name, file, &self.tally);
                report_greatest(rt, file, &self.errors, name.as_bytes(), steps);
            }
            ReportForm::Json => send_object(rt, file, &self.tally, &self.errors, name, steps),
        }
    }
}

/// Recodes one input by a rule, and reports on standard error why it did not end well.
pub fn recode_on<
    Q: Recode<Cause = WordRefusal> + Drop,
    W: WordWatch<WordRefusal, L> + Reports + Drop,
    R: Read + Drop,
    S: Write + Drop,
    F: Write + Drop,
    L: Ledger,
>(
    rt: &HostRuntime,
    rule: Q,
    watch: W,
    form: ReportForm,
    input: &WordInput<'_>,
    reader: R,
    output: &mut Output<S, F>,
    steps: &mut Steps<L>,
) -> Status
    ensures { RecodesBetween input.now.limit.now (Q.size rule) (Q.Recodes rule) (Q.Refuses rule) W.Saw rule result
        (R.remaining reader) (written_to S.contents F.contents output.old)
        (written_to S.contents F.contents output.new) }
{
    let failure = Failure::new(None);
    let taken = Cell::new(0);
    let mut source = StdSource::new(reader);
    // The sink owns the writer meanwhile, so that contracts know what it contains.
    let writer = mem::replace(output, Output::Nowhere);
    let mut sink = StdSink::new(Counted {
        writer: Writer {
            writer,
            failure: &failure,
        },
        taken: &taken,
    });
    let RecodeEnd {
        end,
        left_over,
        watch,
    } = run_recode(input.limit, rule, watch, &mut source, &mut sink, steps);
    let status = status_of(&end);
    // What was counted comes after the word that ends an input, and before a failure.
    let has_failed = !matches!(status, Status::Done | Status::Faults);
    if has_failed {
        watch.report(rt, form, input, status, steps);
    }
    report_end(rt, input, &end, left_over, taken.get(), &failure);
    if !has_failed {
        watch.report(rt, form, input, status, steps);
    }
    *output = sink.into_writer().writer.writer;
    status
}

/// Appends the number of the first such word, or nothing if there is none.
fn push_first(report: &mut Report, name: &str, first: u64) {
    if first > 0 {
        report.text(" (the first in ");
        report.text(name);
        report.text(" ");
        report.number(first);
        report.text(")");
    }
}

/// Reports the outcomes of words on standard error.
fn report_tally(rt: &HostRuntime, name: &str, file: Option<&str>, tally: &Tally) {
    let through = tally.exact.saturating_add(tally.rounded);
    let mut report = Report::of(file);
    report.text(name);
    report.text("s: ");
    report.number(
        through
            .saturating_add(tally.overflowed)
            .saturating_add(tally.refused),
    );
    report.text(", exact: ");
    report.number(tally.exact);
    report.text(", rounded: ");
    report.number(tally.rounded);
    report.text(", overflowed: ");
    report.number(tally.overflowed);
    push_first(&mut report, name, tally.first_overflowed);
    report.text(", refused: ");
    report.number(tally.refused);
    push_first(&mut report, name, tally.first_refused);
    report.send(rt);
}

/// Reads the floats of one input into words, and reports on standard error why it did not end well.
#[inline(never)]
pub fn pack_on<R: Read + Drop, S: Write + Drop, F: Write + Drop, L: Ledger>(
    rt: &HostRuntime,
    floats: &FloatWords,
    limit: &Option<Limit>,
    form: Option<ReportForm>,
    file: Option<&str>,
    reader: R,
    output: &mut Output<S, F>,
    steps: &mut Steps<L>,
) -> Status
    ensures { PacksFloatsBetween form limit.now floats.now result (R.remaining reader)
        (written_to S.contents F.contents output.old) (written_to S.contents F.contents output.new) }
{
    let input = WordInput {
        item: Item::Float,
        file,
        limit,
    };
    match form {
        None => {
            let form = ReportForm::Text;
            recode_on(rt, *floats, (), form, &input, reader, output, steps)
        }
        Some(form) => {
            let report = WordReport::new(rt.alloc(), *floats);
            recode_on(rt, *floats, report, form, &input, reader, output, steps)
        }
    }
}

/// Writes the words of one input as floats, and reports on standard error why it did not end well.
#[inline(never)]
pub fn unpack_on<R: Read + Drop, S: Write + Drop, F: Write + Drop, L: Ledger>(
    rt: &HostRuntime,
    words: &WordFloats,
    limit: &Option<Limit>,
    file: Option<&str>,
    reader: R,
    output: &mut Output<S, F>,
    steps: &mut Steps<L>,
) -> Status
    ensures { UnpacksFloatsBetween limit.now words.now result (R.remaining reader)
        (written_to S.contents F.contents output.old) (written_to S.contents F.contents output.new) }
{
    let input = WordInput {
        item: Item::Word,
        file,
        limit,
    };
    let form = ReportForm::Text;
    recode_on(rt, *words, (), form, &input, reader, output, steps)
}
