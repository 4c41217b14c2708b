//! `fixed pack`: converts numerals or words of bits, one a line, or raw floats to raw words.

ghost use Rattle.std.specs.Prelude.{IfErr, IfOk};
ghost use Rattle.command_line.specs.Device.{written_to};
ghost use Rattle.fixed.specs.Pack.{AreBitsAsked};
ghost use Rattle.fixed.specs.Packing.{AreFloatsPacked, AreNumeralsPacked, IsAmountPack, IsBinaryPack, IsLinesJob};
ghost use Rattle.fixed.specs.Packing.{IsPackAsked};
ghost use Rattle.fixed.specs.PackRuns.{PackEndsBetween, PacksBetween, PacksLinesBetween};
ghost use Rattle.fixed.specs.declared.commands.pack.LinesRule.{LinesRule};
ghost use Rattle.fixed.specs.declared.inputs.Job.{Job};
ghost use Rattle.fixed_pack.specs.declared.bits.PackBits.{PackBits};
ghost use Rattle.fixed_pack.specs.declared.float_words.FloatWords.{FloatWords};
ghost use Rattle.fixed_pack.specs.declared.pack.PackSettings.{PackSettings};

use crate::commands::amounts::{self, MAX_KEPT};
use crate::commands::convert::OFFERS;
use crate::commands::floats::{end_text, send_written, status_of};
use crate::explained::push_explanation;
use crate::inputs::{Job, run_inputs};
use crate::line_layout::{layout_asked, refuse_layout};
use crate::options::{
    ENDIAN, LIMIT, MODE, OUTPUT, PACK_FROM, PASS_BLANK, PASS_COMMENTS, POLICY, RADIX, REPORT, TRIM,
};
use crate::reports::report_asked;
use crate::settings::{
    PackInput, endian_of, format_at, mode_of, pack_input_of, policy_of, radix_of, refuse_value,
};
use command_line::device::{Failure, Output, Unmarked, Writer};
use command_line::given::{Asked, Given};
use command_line::page::{FILES, Operand, Page};
use command_line::report::{Report, is_broken_pipe};
use fixed_bits::{Format, Policy, ReadMode};
use fixed_command::{ConvertRule, Layout, Limit, Spelling, without_return};
use fixed_decimal::DecimalFormat;
use fixed_float::FloatLayout;
use fixed_io::{StdSink, StdSource};
use fixed_numeral::ParseFixedError;
use fixed_pack::{FloatWords, LaidOutPack, Pack, PackAmounts, PackBits, PackSettings, run_pack};
use fixed_show::WordFault;
use fixed_steps::Steps;
use line_engine::Status;
use run_engine::{End, RefusedLine};
use std::cell::Cell;
use std::io::{Read, Result, Write};
use std::mem;
use std::sync::ledger::Ledger;

/// Why `--report` is refused for lines.
const FOR_FLOATS: &str = "goes with '--from f64' or '--from f32' alone";

const FORMAT: Operand = Operand {
    name: "FORMAT",
    help: "The format of a word",
};

pub fn page() -> Page {
    Page {
        name: "pack",
        hidden_name: "",
        about: "Pack numerals, words of bits or raw floats into raw words",
        usage: "fixed pack [OPTIONS] FORMAT [FILE]...",
        operands: &[FORMAT, FILES],
        has_numerals: false,
        options: &[
            PACK_FROM,
            ENDIAN,
            RADIX,
            POLICY,
            MODE,
            TRIM,
            PASS_BLANK,
            PASS_COMMENTS,
            LIMIT,
            REPORT,
            OUTPUT,
        ],
        end: "A word is the bits of a numeral in two's complement, in the fewest bytes that\n\
              hold the width of FORMAT; bits above the width are 0. The first line that is\n\
              refused ends its input, and standard error says which it is and why. A line\n\
              that is passed over has no word.\n\
              \n\
              With --from bits a line is a word: decimal, or after 0x, 0o or 0b, or bare in\n\
              the radix, of at most the bits of FORMAT in two's complement; with a sign it is\n\
              the number itself. So 'fixed unpack FORMAT --print bits' is packed again.\n\
              \n\
              With --from f64 or f32 the input is floats of IEEE 754, one after another, each\n\
              read by its exact value; an infinity or a NaN is refused. --report counts them\n\
              and says which has the greatest error.\n\
              \n\
              A format is I (signed) or U (unsigned), its whole bits, F and its fraction bits,\n\
              as in I16F16 or I-9F25, 1 to 64 in all; or as in Q15 and UQ8.8. D0 to D18\n\
              are decimal formats, for money: a word of D2 counts cents, in 8 bytes.\n\
              \n\
              Example: printf '0.5\\n-1\\n' | fixed pack Q15 --endian big >words.bin",
    }
}

/// A writer that counts the bytes that its device takes.
#[derive(Drop)]
pub struct Counted<'c, W> {
    pub writer: W,
    pub taken: &'c Cell<u64>,
}

impl<'c, W: Write> Write for Counted<'c, W> {
    ghost contents = { λ c. W.contents c.writer };

    fn write(&mut self, buf: &[u8]) -> Result<usize> {
        let count = self.writer.write(buf)?;
        self.taken
            .set(self.taken.get().saturating_add(count as u64));
        Ok(count)
    }

    fn flush(&mut self) -> Result<()> {
        self.writer.flush()
    }
}

/// How the lines of an input are packed.
#[derive(Drop)]
pub struct PackTask {
    rule: LinesRule,
    /// What a line may have besides its numeral, if an option says so.
    layout: Option<Layout>,
}

/// The rule for a line.
#[derive(Clone, Copy)]
enum LinesRule {
    /// It is a numeral.
    Numerals(PackSettings),
    /// It is a word of bits.
    Bits(PackBits),
    /// It is an amount.
    Amounts(PackAmounts),
}

/// A rule that can explain why it refuses a line.
pub trait Explains: Pack {
    /// Returns the message of a cause.
    fn message(cause: Self::Cause) -> &'static str;

    /// Appends an explanation of a refused line without its carriage return, before which `before` bytes are left out.
    fn explain<L: Ledger>(
        &self,
        report: &mut Report,
        numeral: &[u8],
        before: usize,
        cause: Self::Cause,
        steps: &mut Steps<L>,
    );
}

impl Explains for PackSettings {
    fn message(cause: ParseFixedError) -> &'static str {
        cause.message()
    }

    fn explain<L: Ledger>(
        &self,
        report: &mut Report,
        numeral: &[u8],
        before: usize,
        cause: ParseFixedError,
        steps: &mut Steps<L>,
    ) {
        let rule = ConvertRule::reading(
            Spelling::Numeral,
            self.radix,
            self.format,
            self.policy,
            self.mode,
        );
        let cause = cause.message().as_bytes();
        push_explanation(report, &rule, OFFERS, (numeral, before), cause, steps);
    }
}

impl Explains for PackBits {
    fn message(cause: WordFault) -> &'static str {
        cause.message()
    }

    fn explain<L: Ledger>(
        &self,
        report: &mut Report,
        word: &[u8],
        before: usize,
        cause: WordFault,
        steps: &mut Steps<L>,
    ) {
        let rule = ConvertRule::reading(
            Spelling::Word,
            self.radix,
            self.format,
            Policy::Checked,
            ReadMode::NearestEven,
        );
        let cause = cause.message().as_bytes();
        push_explanation(report, &rule, OFFERS, (word, before), cause, steps);
    }
}

impl<'r, R: Explains> Explains for LaidOutPack<'r, R> {
    fn message(cause: R::Cause) -> &'static str {
        R::message(cause)
    }

    fn explain<L: Ledger>(
        &self,
        report: &mut Report,
        numeral: &[u8],
        before: usize,
        cause: R::Cause,
        steps: &mut Steps<L>,
    ) {
        let blanks = self.layout.blanks_before(numeral);
        let bare = self.layout.without_blanks(numeral);
        self.rule
            .explain(report, bare, before.saturating_add(blanks), cause, steps);
    }
}

/// Appends the number and the text of a refused line, the cause, and an explanation unless the text may be cut.
fn push_line<P: Explains, L: Ledger>(
    report: &mut Report,
    rule: &P,
    refused: &RefusedLine<P::Cause>,
    steps: &mut Steps<L>,
) {
    let line = refused.line.as_bytes();
    report.text("line ");
    report.number(refused.number);
    report.text(", '");
    report.bytes(line, 40);
    report.text("': ");
    report.text(P::message(refused.cause));
    if line.trim_ascii().is_empty() {
        report.text(" (blank lines? --skip-blank)");
    } else if line.len() < MAX_KEPT {
        rule.explain(report, without_return(line), 0, refused.cause, steps);
    }
}

/// Reports on standard error why an input did not end well, and how many bytes were written.
fn report_end<P: Explains, L: Ledger>(
    rt: &HostRuntime,
    rule: &P,
    file: Option<&str>,
    end: &End<RefusedLine<P::Cause>>,
    written: u64,
    failure: &Failure,
    steps: &mut Steps<L>,
) {
    let error = failure.take();
    if matches!(end, End::Done) || is_broken_pipe(&error) {
        return;
    }
    let mut report = Report::of(file);
    match end {
        End::Stopped(refused) => push_line(&mut report, rule, refused, steps),
        _ => report.text(end_text(end)),
    }
    send_written(rt, report, &error, written);
}

/// Packs one input by a rule, and reports on standard error why it did not end well.
#[inline(never)]
fn pack_on<P: Explains + Copy + Drop, R: Read + Drop, S: Write + Drop, F: Write + Drop, L: Ledger>(
    rt: &HostRuntime,
    rule: P,
    limit: &Option<Limit>,
    file: Option<&str>,
    reader: R,
    output: &mut Output<S, F>,
    steps: &mut Steps<L>,
) -> Status
    ensures { PacksBetween limit.now (P.Packs rule) (P.Refuses rule) rule result (R.remaining reader)
        (written_to S.contents F.contents output.old) (written_to S.contents F.contents output.new) }
{
    let failure = Failure::new(None);
    let taken = Cell::new(0);
    let mut source = StdSource::new(Unmarked::new(reader));
    // The sink owns the writer meanwhile, so that contracts know what it contains.
    let writer = mem::replace(output, Output::Nowhere);
    let mut sink = StdSink::new(Counted {
        writer: Writer {
            writer,
            failure: &failure,
        },
        taken: &taken,
    });
    let end = run_pack(rt.alloc(), limit, rule, &mut source, &mut sink, steps);
    report_end(rt, &rule, file, &end, taken.get(), &failure, steps);
    *output = sink.into_writer().writer.writer;
    status_of(&end)
}

/// Packs one input by a rule, over lines with a layout if there is one.
fn pack_lines<
    P: Explains + Copy + Drop,
    R: Read + Drop,
    S: Write + Drop,
    F: Write + Drop,
    L: Ledger,
>(
    rt: &HostRuntime,
    rule: P,
    layout: &Option<Layout>,
    limit: &Option<Limit>,
    file: Option<&str>,
    reader: R,
    output: &mut Output<S, F>,
    steps: &mut Steps<L>,
) -> Status
    ensures { PacksLinesBetween layout.now limit.now (P.Packs rule) (P.Refuses rule) rule result (R.remaining reader)
        (written_to S.contents F.contents output.old) (written_to S.contents F.contents output.new) }
{
    match layout {
        None => pack_on(rt, rule, limit, file, reader, output, steps),
        Some(layout) => {
            let laid = LaidOutPack {
                rule: &rule,
                layout,
            };
            pack_on(rt, laid, limit, file, reader, output, steps)
        }
    }
}

/// Packs one input.
pub fn run_on<R: Read + Drop, S: Write + Drop, F: Write + Drop, L: Ledger>(
    rt: &HostRuntime,
    task: &PackTask,
    limit: &Option<Limit>,
    file: Option<&str>,
    reader: R,
    output: &mut Output<S, F>,
    steps: &mut Steps<L>,
) -> Status
    ensures { PackEndsBetween limit.now task.now result (R.remaining reader)
        (written_to S.contents F.contents output.old) (written_to S.contents F.contents output.new) }
{
    let layout = &task.layout;
    match task.rule {
        LinesRule::Numerals(rule) => {
            pack_lines(rt, rule, layout, limit, file, reader, output, steps)
        }
        LinesRule::Bits(rule) => pack_lines(rt, rule, layout, limit, file, reader, output, steps),
        LinesRule::Amounts(rule) => {
            pack_lines(rt, rule, layout, limit, file, reader, output, steps)
        }
    }
}

/// Returns the job, by the format that the first operand names.
fn job_of<'a>(given: &Given<'_, 'a>) -> Asked<'a, Job<'a>>
    ensures value { IfOk result (λ job. IsPackAsked given.now job) }
    ensures refused { IfErr result (λ _. (job : Job) → ¬ IsPackAsked given.now job) }
{
    match amounts::decimal_at(given, 0) {
        Some(format) => decimal_job(given, format),
        None => binary_job(given),
    }
}

/// Packs the lines or the floats of each file.
pub fn run<'a, L: Ledger>(
    rt: &HostRuntime,
    given: &Given<'_, 'a>,
    steps: &mut Steps<L>,
) -> Asked<'a, Status> {
    match job_of(given) {
        Ok(job) => {
            let format = given.needed(0, "FORMAT")?;
            run_inputs(rt, &job, format, given, 1, steps)
        }
        Err(refusal) => Err(refusal),
    }
}

/// Returns the job that packs lines.
fn lines_job<'a>(given: &Given<'_, 'a>, rule: LinesRule) -> Asked<'a, Job<'a>>
    ensures value { IfOk result (λ job. IsLinesJob given.now rule job) }
    ensures refused { IfErr result (λ _. (by : LinesRule) (job : Job) → ¬ IsLinesJob given.now by job) }
{
    match layout_asked(given) {
        Ok(layout) => Ok(Job::Pack(PackTask { rule, layout })),
        Err(refusal) => Err(refusal),
    }
}

/// Returns the job for a decimal format.
fn decimal_job<'a>(given: &Given<'_, 'a>, format: DecimalFormat) -> Asked<'a, Job<'a>>
    ensures value { IfOk result (λ job. IsAmountPack given.now format job) }
    ensures refused { IfErr result (λ _. (job : Job) → ¬ IsAmountPack given.now format job) }
{
    match pack_input_of(given)? {
        PackInput::Bits => match amounts::pack_units(given) {
            Ok(bits) => lines_job(given, LinesRule::Bits(bits)),
            Err(refusal) => Err(refusal),
        },
        _ => match amounts::pack_settings(given, format) {
            Ok(settings) => lines_job(given, LinesRule::Amounts(settings)),
            Err(refusal) => Err(refusal),
        },
    }
}

/// Returns the job for a binary format.
fn binary_job<'a>(given: &Given<'_, 'a>) -> Asked<'a, Job<'a>>
    ensures value { IfOk result (λ job. IsBinaryPack given.now job) }
    ensures refused { IfErr result (λ _. (job : Job) → ¬ IsBinaryPack given.now job) }
{
    let format = match format_at(given, 0, "FORMAT") {
        Ok(format) => format,
        Err(refusal) => return Err(refusal),
    };
    match pack_input_of(given)? {
        PackInput::Numerals => match numerals_of(given, format) {
            Ok(settings) => lines_job(given, LinesRule::Numerals(settings)),
            Err(refusal) => Err(refusal),
        },
        PackInput::Bits => match bits_of(given, format) {
            Ok(bits) => lines_job(given, LinesRule::Bits(bits)),
            Err(refusal) => Err(refusal),
        },
        PackInput::Floats(layout) => match floats_of(given, format, layout) {
            Ok(floats) => Ok(Job::PackFloats {
                floats,
                report: report_asked(given),
            }),
            Err(refusal) => Err(refusal),
        },
    }
}

/// Returns how words of bits are packed, from the options.
pub fn bits_of<'a>(given: &Given<'_, 'a>, format: Format) -> Asked<'a, PackBits>
    ensures value { IfOk result (λ p. AreBitsAsked given.now format p) }
    ensures refused { IfErr result (λ _. (p : PackBits) → ¬ AreBitsAsked given.now format p) }
{
    refuse_value(
        given,
        &POLICY,
        "means nothing: the bits of each word are in range",
    )?;
    refuse_value(given, &MODE, "rounds nothing: words of bits are exact")?;
    refuse_value(given, &REPORT, FOR_FLOATS)?;
    Ok(PackBits {
        radix: radix_of(given)?,
        format,
        endian: endian_of(given)?,
    })
}

/// Returns how numerals are packed, from the options.
fn numerals_of<'a>(given: &Given<'_, 'a>, format: Format) -> Asked<'a, PackSettings>
    ensures value { IfOk result (λ p. AreNumeralsPacked given.now format p) }
    ensures refused { IfErr result (λ _. (p : PackSettings) → ¬ AreNumeralsPacked given.now format p) }
{
    refuse_value(given, &REPORT, FOR_FLOATS)?;
    Ok(PackSettings {
        radix: radix_of(given)?,
        format,
        policy: policy_of(given)?,
        mode: mode_of(given)?,
        endian: endian_of(given)?,
    })
}

/// Returns how floats are packed, from the options.
fn floats_of<'a>(
    given: &Given<'_, 'a>,
    format: Format,
    layout: FloatLayout,
) -> Asked<'a, FloatWords>
    ensures value { IfOk result (λ f. AreFloatsPacked given.now format layout f) }
    ensures refused { IfErr result (λ _. (f : FloatWords) → ¬ AreFloatsPacked given.now format layout f) }
{
    let why = "goes with lines alone, not with floats";
    refuse_value(given, &RADIX, why)?;
    refuse_layout(given, why)?;
    Ok(FloatWords {
        layout,
        format,
        policy: policy_of(given)?,
        mode: mode_of(given)?,
        endian: endian_of(given)?,
    })
}
