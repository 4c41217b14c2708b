//! `fixed unpack`: writes raw words as lines or as raw floats.

ghost use Rattle.std.specs.Prelude.{◌≡◌, IfErr, IfOk, ℕ};
ghost use Rattle.command_line.specs.Device.{written_to};
ghost use Rattle.fixed.specs.RecodeRuns.{IsExcerptEnd, RecodesBetween, UnpackEndsBetween, UnpacksBy, size_of};
ghost use Rattle.fixed.specs.Unpack.{AreWordsUnpacked, HasFloatsAlone, IsBinaryWritten, IsUnpackAsked, IsWrittenAsked};
ghost use Rattle.fixed.specs.declared.commands.unpack.Written.{Written};
ghost use Rattle.fixed.specs.declared.inputs.Job.{Job};
ghost use Rattle.fixed_command.specs.declared.convert.Settings.{Settings};
ghost use Rattle.line_engine.specs.declared.status.Status.{Status};
ghost use Rattle.run_engine.specs.Refused.{Counts};

use crate::commands::amounts;
use crate::commands::floats::{push_bytes, status_of, unpack_on};
use crate::commands::unpack_words::{COUNT, Excerpt, SKIP, excerpt_of};
use crate::inputs::{Job, run_inputs};
use crate::options::{
    ENDIAN, LIMIT, OUTPUT, PLACES, PLACES_MODE, POLICY, PRINT, TARGET, TARGET_MODE, UNPACK_TO,
};
use crate::settings::{conversion, endian_of, refuse_value, written_floats_of};
use command_line::device::{Failure, Headed, Output, Skipped, Writer};
use command_line::given::{Asked, Given, Refusal};
use command_line::page::{Operand, Page};
use command_line::report::{Report, report_end};
use fixed_command::{Limit, Settings};
use fixed_io::{StdSink, StdSource};
use fixed_pack::{Recode, UnpackAmounts, UnpackRule, WordFloats, WordRefusal, run_recode};
use fixed_steps::Steps;
use line_engine::Status;
use run_engine::{Refusals, RefusedLine};
use std::io::{Read, Write};
use std::mem;
use std::sync::ledger::Ledger;

/// Why an option has no meaning for floats.
const FOR_LINES: &str = "goes with lines alone, not with floats";

const FORMAT: Operand = Operand {
    name: "FORMAT",
    help: "The format of a word",
};

pub fn page() -> Page {
    Page {
        name: "unpack",
        hidden_name: "",
        about: "Write a line or a raw float for each raw word",
        usage: "fixed unpack [OPTIONS] FORMAT [TARGET] [FILE]...",
        operands: &[FORMAT, TARGET],
        has_numerals: false,
        options: &[
            UNPACK_TO,
            ENDIAN,
            POLICY,
            TARGET_MODE,
            PRINT,
            PLACES,
            PLACES_MODE,
            SKIP,
            COUNT,
            LIMIT,
            OUTPUT,
        ],
        end: "A word is the fewest bytes that hold the width of FORMAT. Its line is what\n\
              'fixed convert --from bits' answers to its bits: a word that has a bit above\n\
              the width is refused. Standard error says how many bytes are left over at the\n\
              end of an input, with status 1.\n\
              \n\
              A text reads back in its own format only. Words of Q23 become the nearest words\n\
              of Q15 by 'fixed unpack Q23 Q15 --target-mode nearest | fixed pack Q15', with\n\
              '-p saturating' where a number may round out of range.\n\
              \n\
              With --to f64 or f32 each word becomes the nearest float of IEEE 754, ties to\n\
              even: exact if FORMAT has at most 53 or 24 bits. The first word that is refused\n\
              ends its input. There is no TARGET then, and of the other options only --endian,\n\
              --skip, --count, --limit and --output.\n\
              \n\
              Each input is read from the byte after the first BYTES on, and up to N words of\n\
              it. Standard error counts words from the first that is read, and says if there\n\
              are fewer than BYTES bytes, with status 1. The header of a WAV file usually has\n\
              44 bytes.\n\
              \n\
              A format is I (signed) or U (unsigned), its whole bits, F and its fraction bits,\n\
              as in I16F16 or I-9F25, 1 to 64 in all; or as in Q15 and UQ8.8. D0 to D18\n\
              are decimal formats, for money: a word of D2 counts cents, in 8 bytes.\n\
              \n\
              Example: printf '\\x40\\x00' | fixed unpack Q15 --endian big",
    }
}

/// Reports on standard error how many words were refused, and the number, bytes and cause of the first.
fn report_refused(
    rt: &HostRuntime,
    file: Option<&str>,
    refused: u64,
    word: &RefusedLine<WordRefusal>,
) {
    let mut report = Report::of(file);
    report.text("words refused: ");
    report.number(refused);
    report.text(", the first is word ");
    report.number(word.number);
    push_bytes(&mut report, word.line.as_bytes());
    report.text(word.cause.message());
    report.send(rt);
}

/// Reports on standard error how many bytes are left over at the end of an input, if any.
fn report_left_over(rt: &HostRuntime, file: Option<&str>, status: Status, left_over: usize) {
    if status == Status::Faults && left_over > 0 {
        let mut report = Report::of(file);
        report.text("the input ends within a word, bytes left over: ");
        report.number(left_over as u64);
        report.send(rt);
    }
}

/// What is written for each word.
#[derive(Clone, Copy)]
pub enum Written {
    /// A line: the number of the word.
    Lines(UnpackRule),
    /// A line: the amount of a word that counts units.
    Amounts(UnpackAmounts),
    /// A raw float.
    Floats(WordFloats),
}

impl Written {
    /// Returns the length of a word in bytes.
    fn size(&self) -> usize
        ensures { result ≡ size_of self.now }
    {
        match self {
            Written::Lines(rule) => rule.count(),
            Written::Amounts(amounts) => amounts.count(),
            Written::Floats(words) => words.count(),
        }
    }
}

/// Which words are unpacked, and into what.
#[derive(Clone, Copy)]
pub struct Unpacking {
    pub excerpt: Excerpt,
    pub written: Written,
}

/// Unpacks one input, and reports on standard error why it did not end well.
pub fn run_on<R: Read + Drop, S: Write + Drop, F: Write + Drop, L: Ledger>(
    rt: &HostRuntime,
    unpacking: &Unpacking,
    limit: &Option<Limit>,
    file: Option<&str>,
    reader: R,
    output: &mut Output<S, F>,
    steps: &mut Steps<L>,
) -> Status
    ensures { UnpackEndsBetween limit.now unpacking.now result (R.remaining reader)
        (written_to S.contents F.contents output.old) (written_to S.contents F.contents output.new) }
{
    let excerpt = unpacking.excerpt;
    let mut headed = Headed::new(reader);
    let mut skipped = Skipped::new(&mut headed, excerpt.skip);
    let words = (&mut skipped).take(excerpt.most_bytes(unpacking.written.size()));
    let status = words_on(rt, &unpacking.written, limit, file, words, output, steps);
    let missing = skipped.missing();
    if excerpt.skip == 0 && headed.head() == b"RIFF".as_slice() {
        note_header(rt, file);
    }
    end_excerpt(rt, file, &excerpt, status, missing)
}

/// Unpacks words, and reports on standard error why their run did not end well.
fn words_on<R: Read + Drop, S: Write + Drop, F: Write + Drop, L: Ledger>(
    rt: &HostRuntime,
    written: &Written,
    limit: &Option<Limit>,
    file: Option<&str>,
    reader: R,
    output: &mut Output<S, F>,
    steps: &mut Steps<L>,
) -> Status
    ensures { UnpacksBy written.now limit.now result (R.remaining reader)
        (written_to S.contents F.contents output.old) (written_to S.contents F.contents output.new) }
{
    match written {
        Written::Lines(rule) => lines_on(rt, rule, limit, file, reader, output, steps),
        Written::Amounts(amounts) => lines_on(rt, amounts, limit, file, reader, output, steps),
        Written::Floats(floats) => unpack_on(rt, floats, limit, file, reader, output, steps),
    }
}

/// Returns the status of an input from that of its run. Reports on standard error if bytes to skip are missing.
fn end_excerpt(
    rt: &HostRuntime,
    file: Option<&str>,
    excerpt: &Excerpt,
    status: Status,
    missing: u64,
) -> Status
    ensures { IsExcerptEnd status result }
{
    if status == Status::Done && missing > 0 && excerpt.count > 0 {
        return report_short(rt, file, excerpt, missing);
    }
    status
}

/// Notes on standard error that an input looks like a WAV file.
fn note_header(rt: &HostRuntime, file: Option<&str>) {
    let mut report = Report::of(file);
    report.text(
        "the input begins with 'RIFF', as a WAV file does: its header is not words, and --skip 44 skips the usual one",
    );
    report.send(rt);
}

/// Reports on standard error that this many of the bytes to skip are missing.
fn report_short(rt: &HostRuntime, file: Option<&str>, excerpt: &Excerpt, missing: u64) -> Status
    ensures { result ≡ Status.Faults }
{
    let mut report = Report::of(file);
    report.text("the input ends within the ");
    report.number(excerpt.skip);
    report.text(" bytes to skip, after ");
    report.number(excerpt.skip.saturating_sub(missing));
    report.send(rt);
    Status::Faults
}

/// Writes the words of one input as lines, and reports on standard error why it did not end well.
#[inline(never)]
fn lines_on<
    U: Recode<Cause = WordRefusal> + Copy + Drop,
    R: Read + Drop,
    S: Write + Drop,
    F: Write + Drop,
    L: Ledger,
>(
    rt: &HostRuntime,
    rule: &U,
    limit: &Option<Limit>,
    file: Option<&str>,
    reader: R,
    output: &mut Output<S, F>,
    steps: &mut Steps<L>,
) -> Status
    ensures { RecodesBetween limit.now (U.size rule.now) (U.Recodes rule.now) (U.Refuses rule.now) Counts rule.now
        result (R.remaining reader) (written_to S.contents F.contents output.old)
        (written_to S.contents F.contents output.new) }
{
    let failure = Failure::new(None);
    let mut source = StdSource::new(reader);
    // The sink owns the writer meanwhile, so that contracts know what it contains.
    let writer = mem::replace(output, Output::Nowhere);
    let mut sink = StdSink::new(Writer {
        writer,
        failure: &failure,
    });
    let end = run_recode(limit, *rule, Refusals::new(), &mut source, &mut sink, steps);
    let status = status_of(&end.end);
    if let Some(word) = &end.watch.first {
        report_refused(rt, file, end.watch.count, word);
    }
    report_left_over(rt, file, status, end.left_over);
    report_end(rt, file, status, sink.lines(), &failure);
    *output = sink.into_writer().writer;
    status
}

/// Unpacks the words of each file.
pub fn run<'a, L: Ledger>(
    rt: &HostRuntime,
    given: &Given<'_, 'a>,
    steps: &mut Steps<L>,
) -> Asked<'a, Status> {
    match job_of(given) {
        Ok((job, files)) => run_inputs(rt, &job, "", given, files, steps),
        Err(refusal) => Err(refusal),
    }
}

/// Returns the job for each input, and the index of the first file.
fn job_of<'a>(given: &Given<'_, 'a>) -> Asked<'a, (Job<'a>, usize)>
    ensures value { IfOk result (λ asked. IsUnpackAsked given.now asked.0 asked.1) }
    ensures refused { IfErr result (λ _. (job : Job) (files : ℕ) → ¬ IsUnpackAsked given.now job files) }
{
    let (written, files) = match written_of(given) {
        Ok(found) => found,
        Err(refusal) => return Err(refusal),
    };
    match excerpt_of(given) {
        Ok(excerpt) => Ok((Job::Unpack(Unpacking { excerpt, written }), files)),
        Err(refusal) => Err(refusal),
    }
}

/// Returns what is written for each word, by the format that the first operand names, and the index of the first file.
fn written_of<'a>(given: &Given<'_, 'a>) -> Asked<'a, (Written, usize)>
    ensures value { IfOk result (λ asked. IsWrittenAsked given.now asked.0 asked.1) }
    ensures refused { IfErr result (λ _. (written : Written) (files : ℕ) → ¬ IsWrittenAsked given.now written files) }
{
    match amounts::decimal_at(given, 0) {
        Some(format) => match amounts::unpack_settings(given, format) {
            Ok(settings) => Ok((Written::Amounts(settings), 1)),
            Err(refusal) => Err(refusal),
        },
        None => binary_written(given),
    }
}

/// Returns what is written for each word of a binary format, and the index of the first file.
fn binary_written<'a>(given: &Given<'_, 'a>) -> Asked<'a, (Written, usize)>
    ensures value { IfOk result (λ asked. IsBinaryWritten given.now asked.0 asked.1) }
    ensures refused { IfErr result (λ _. (written : Written) (files : ℕ) → ¬ IsBinaryWritten given.now written files) }
{
    amounts::refuse_decimal_target(given, 1)?;
    let (rule, files) = match conversion(given, 0) {
        Ok(found) => found,
        Err(refusal) => return Err(refusal),
    };
    match words_of(given, *rule.settings(), files) {
        Ok(written) => Ok((written, files)),
        Err(refusal) => Err(refusal),
    }
}

/// Returns what is written for each word, by a conversion. `files` is the index of the first file.
fn words_of<'a>(given: &Given<'_, 'a>, settings: Settings, files: usize) -> Asked<'a, Written>
    ensures value { IfOk result (λ written. AreWordsUnpacked given.now settings files written) }
    ensures refused { IfErr result (λ _. (s : Settings) (written : Written)
        → ¬ AreWordsUnpacked given.now s files written) }
{
    let endian = endian_of(given)?;
    match written_floats_of(given)? {
        None => Ok(Written::Lines(UnpackRule { settings, endian })),
        Some(layout) => match only_floats(given, files) {
            Ok(()) => Ok(Written::Floats(WordFloats {
                format: settings.source,
                layout,
                endian,
            })),
            Err(refusal) => Err(refusal),
        },
    }
}

/// Refuses arguments that have a meaning only for lines. `files` is the index of the first file.
fn only_floats<'a>(given: &Given<'_, 'a>, files: usize) -> Asked<'a, ()>
    ensures value { IfOk result (λ _. HasFloatsAlone given.now files) }
    ensures refused { IfErr result (λ _. ¬ HasFloatsAlone given.now files) }
{
    if files > 1 {
        return Err(Refusal::Word(
            given.needed(1, "TARGET")?,
            "is a TARGET, which goes with lines alone, not with floats",
        ));
    }
    refuse_value(given, &POLICY, FOR_LINES)?;
    refuse_value(given, &TARGET_MODE, FOR_LINES)?;
    refuse_value(given, &PRINT, FOR_LINES)?;
    refuse_value(given, &PLACES, FOR_LINES)?;
    refuse_value(given, &PLACES_MODE, FOR_LINES)
}
