//! Commands whose source is a decimal format, such as `D2` for money.
//!
//! A decimal format can only be the SOURCE. Options that mean nothing for it are refused, since a user who gives one
//! expects something else: a second rounding loses a cent if the first one meets a tie.

ghost use Rattle.std.specs.Prelude.{◌≡◌, ◌&&◌, IfErr, IfOk, List, MatchOption, codes, ℕ};
ghost use Rattle.column_engine.specs.declared.columns.Column.{Column};
ghost use Rattle.command_line.specs.Device.{written_to};
ghost use Rattle.command_line.specs.Words.{keyword_at, value_of, word_at};
ghost use Rattle.fixed.specs.Amounts.{AmountsEndBetween, AreAmountLinesAsked, AreUnitsAsked, HasNoBinaryOption};
ghost use Rattle.fixed.specs.Amounts.{IsAmountAsked};
ghost use Rattle.fixed.specs.Amounts.{IsNumeralAsked, IsRadixTen};
ghost use Rattle.fixed.specs.Amounts.{amount_print, amount_spelling};
ghost use Rattle.fixed.specs.Amounts.{AreUnitBitsAsked, IsAmountPackAsked, IsDecimalAsked, IsNoTarget, NamesNoDecimal};
ghost use Rattle.fixed.specs.Columns.{AreAmountColumnsAsked};
ghost use Rattle.fixed.specs.declared.inputs.Job.{Job};
ghost use Rattle.fixed.specs.Unpack.{AreAmountsUnpacked};
ghost use Rattle.fixed_amounts.specs.declared.facts.AmountQuestion.{AmountQuestion};
ghost use Rattle.fixed_amounts.specs.declared.settings.AmountSettings.{AmountSettings};
ghost use Rattle.fixed_command.specs.Asked.{IsPrintNamed};
ghost use Rattle.fixed_command.specs.declared.print.Print.{Print};
ghost use Rattle.fixed_pack.specs.declared.amounts.PackAmounts.{PackAmounts};
ghost use Rattle.fixed_pack.specs.declared.amounts.UnpackAmounts.{UnpackAmounts};
ghost use Rattle.fixed_pack.specs.declared.bits.PackBits.{PackBits};

use crate::commands::column_words::table_of;
use crate::commands::convert::refuse_words;
use crate::commands::pack::{Explains, bits_of};
use crate::explained::{TRIM_OFFERS, push_amount_explanation};
use crate::inputs::{Job, is_last, refusal_report, run_inputs};
use crate::line_layout::layout_of;
use crate::options::{
    FIELD, PACK_FROM, PLACES, PLACES_MODE, POLICY, PRINT, RADIX, REPORT, SWAP, TARGET_MODE,
    UNPACK_TO, WORDS,
};
use crate::rejects::{Guarded, RejectFile};
use crate::settings::{
    PackInput, endian_of, is_like_format, known, mode_of, pack_input_of, policy_of, refuse_flag,
    refuse_value, spelling_of, written_floats_of,
};
use column_engine::Column;
use command_line::device::{Failure, Output, Unmarked, Writer};
use command_line::given::{Asked, Given, Refusal};
use command_line::report::{Report, report_end};
use fixed_amounts::{
    AmountPrint, AmountQuestion, AmountRefusal, AmountSettings, AmountSpelling,
    decimal_format_named,
};
use fixed_bits::Format;
use fixed_command::{
    AmountLines, ColumnConversion, Limit, Offers, Print, Spelling, print_named, run_amounts,
};
use fixed_decimal::DecimalFormat;
use fixed_io::{StdSink, StdSource};
use fixed_numeral::ParseFixedError;
use fixed_pack::{PackAmounts, PackBits, UnpackAmounts};
use fixed_steps::Steps;
use line_engine::Status;
use run_engine::Refusals;
use std::io::{Read, Write};
use std::mem;
use std::sync::ledger::Ledger;

/// Why `--places` is refused.
const TWICE: &str =
    "rounds a second time: a decimal format writes its places, so take D0 to D18 for SOURCE";

/// Why `--target-mode` is refused.
const NO_TARGET: &str = "goes with a TARGET, which a decimal format has not: '--mode' rounds";

/// Why a TARGET is refused.
const IS_TARGET: &str =
    "is a TARGET, which a decimal format has not; a file of this name is './' and the name";

/// The options of `fixed column` for other spellings of amounts.
pub const COLUMN_OFFERS: Offers = Offers {
    decimal: true,
    trim: true,
    radix: false,
};

/// How many bytes of a refused line are kept.
pub const MAX_KEPT: usize = 160;

/// Returns the decimal format that the operand at an index names.
pub fn decimal_at(given: &Given<'_, '_>, place: usize) -> Option<DecimalFormat>
    ensures { MatchOption result (NamesNoDecimal (word_at given.now place))
        (λ format. IsDecimalAsked (word_at given.now place) format) }
{
    match given.words.get(place) {
        Some(word) => decimal_format_named(word.as_bytes()),
        None => None,
    }
}

/// Refuses a radix other than 10.
fn refuse_radix<'a>(given: &Given<'_, 'a>) -> Asked<'a, ()>
    ensures value { IfOk result (λ _. IsRadixTen (value_of given.now (codes "radix"))) }
    ensures refused { IfErr result (λ _. ¬ IsRadixTen (value_of given.now (codes "radix"))) }
{
    match given.value(&RADIX) {
        None | Some("10") => Ok(()),
        Some(word) => Err(Refusal::Word(
            word,
            "is not the radix of a decimal format: its numerals are in radix 10",
        )),
    }
}

/// Refuses the options that mean nothing for a decimal format.
fn refuse_binary_options<'a>(given: &Given<'_, 'a>) -> Asked<'a, ()>
    ensures value { IfOk result (λ _. HasNoBinaryOption given.now) }
    ensures refused { IfErr result (λ _. ¬ HasNoBinaryOption given.now) }
{
    refuse_radix(given)?;
    refuse_value(given, &TARGET_MODE, NO_TARGET)?;
    refuse_value(given, &PLACES, TWICE)?;
    refuse_value(given, &PLACES_MODE, TWICE)?;
    refuse_flag(
        given,
        &WORDS,
        "is for binary formats: a decimal format converts lines, and columns of CSV by 'fixed column'",
    )?;
    refuse_value(
        given,
        &REPORT,
        "is for binary formats: of a decimal format no errors are counted",
    )
}

/// Returns the part of an amount to print.
fn amount_print(print: Print) -> AmountPrint
    ensures { result ≡ amount_print print }
{
    match print {
        Print::Text | Print::Places(..) | Print::Value => AmountPrint::Text,
        Print::Bits => AmountPrint::Units,
        Print::Hex => AmountPrint::Hex,
        Print::Readmemh => AmountPrint::HexDigits,
        Print::All => AmountPrint::All,
    }
}

/// Returns how a line spells an amount.
fn amount_spelling(spelling: Spelling) -> AmountSpelling
    ensures { result ≡ amount_spelling spelling }
{
    match spelling {
        Spelling::Numeral => AmountSpelling::Numeral,
        Spelling::Word => AmountSpelling::Units,
    }
}

/// Returns the part of an answer to print, from the option.
fn print_of<'a>(given: &Given<'_, 'a>) -> Asked<'a, Print>
    ensures value { IfOk result (λ a. IsPrintNamed (value_of given.now (codes "print")) a) }
    ensures refused { IfErr result (λ _. (a : Print) → ¬ IsPrintNamed (value_of given.now (codes "print")) a) }
{
    known(print_named(given.value(&PRINT)), given, &PRINT)
}

/// Returns how amounts are read and written, from the options.
pub fn amount_settings<'a>(
    given: &Given<'_, 'a>,
    format: DecimalFormat,
) -> Asked<'a, AmountSettings>
    ensures value { IfOk result (λ s. IsAmountAsked given.now format s) }
    ensures refused { IfErr result (λ _. (s : AmountSettings) → ¬ IsAmountAsked given.now format s) }
{
    match refuse_binary_options(given) {
        Ok(()) => (),
        Err(refusal) => return Err(refusal),
    }
    let spelling = spelling_of(given)?;
    let print = match print_of(given) {
        Ok(print) => print,
        Err(refusal) => return Err(refusal),
    };
    Ok(AmountSettings {
        spelling: amount_spelling(spelling),
        format,
        policy: policy_of(given)?,
        mode: mode_of(given)?,
        print: amount_print(print),
    })
}

/// Returns the question about a numeral.
pub fn numeral_question<'a>(
    given: &Given<'_, 'a>,
    format: DecimalFormat,
) -> Asked<'a, AmountQuestion>
    ensures value { IfOk result (λ q. IsNumeralAsked given.now format q) }
    ensures refused { IfErr result (λ _. (q : AmountQuestion) → ¬ IsNumeralAsked given.now format q) }
{
    match refuse_radix(given) {
        Ok(()) => (),
        Err(refusal) => return Err(refusal),
    }
    Ok(AmountQuestion::Numeral {
        format,
        policy: policy_of(given)?,
        mode: mode_of(given)?,
    })
}

/// Returns the question about a count of units.
pub fn units_question<'a>(given: &Given<'_, 'a>, format: DecimalFormat) -> Asked<'a, AmountQuestion>
    ensures value { IfOk result (λ q. AreUnitsAsked given.now format q) }
    ensures refused { IfErr result (λ _. (q : AmountQuestion) → ¬ AreUnitsAsked given.now format q) }
{
    refuse_radix(given)?;
    refuse_value(
        given,
        &FIELD,
        "is for binary formats: the word of a decimal format is all 64 bits",
    )?;
    refuse_flag(
        given,
        &SWAP,
        "is for binary formats: 'fixed unpack --endian' reads the bytes of amounts in either order",
    )?;
    Ok(AmountQuestion::Units { format })
}

/// Returns how lines are packed: each as its amount's count of units.
pub fn pack_settings<'a>(given: &Given<'_, 'a>, format: DecimalFormat) -> Asked<'a, PackAmounts>
    ensures value { IfOk result (λ p. IsAmountPackAsked given.now format p) }
    ensures refused { IfErr result (λ _. (p : PackAmounts) → ¬ IsAmountPackAsked given.now format p) }
{
    match pack_input_of(given)? {
        PackInput::Numerals => (),
        PackInput::Bits => return Err(Refusal::Option(PACK_FROM.name, "is for words of units")),
        PackInput::Floats(_) => {
            return Err(Refusal::Option(
                PACK_FROM.name,
                "is for binary formats: a float is seldom the decimal that was meant",
            ));
        }
    }
    refuse_radix(given)?;
    refuse_value(
        given,
        &REPORT,
        "is for floats: of a decimal format no errors are counted",
    )?;
    Ok(PackAmounts {
        format,
        policy: policy_of(given)?,
        mode: mode_of(given)?,
        endian: endian_of(given)?,
    })
}

/// Returns how lines are packed, each a count of units.
pub fn pack_units<'a>(given: &Given<'_, 'a>) -> Asked<'a, PackBits>
    ensures value { IfOk result (λ p. AreUnitBitsAsked given.now p) }
    ensures refused { IfErr result (λ _. (p : PackBits) → ¬ AreUnitBitsAsked given.now p) }
{
    refuse_radix(given)?;
    match bits_of(given, Format::of(true, 64, 0)) {
        Ok(bits) => Ok(bits),
        Err(refusal) => Err(refusal),
    }
}

/// Returns how words are unpacked: each as the amount of its count of units.
pub fn unpack_settings<'a>(given: &Given<'_, 'a>, format: DecimalFormat) -> Asked<'a, UnpackAmounts>
    ensures value { IfOk result (λ amounts. AreAmountsUnpacked given.now format amounts) }
    ensures refused { IfErr result (λ _. (amounts : UnpackAmounts) → ¬ AreAmountsUnpacked given.now format amounts) }
{
    refuse_target(given, 1)?;
    match written_floats_of(given)? {
        None => (),
        Some(_) => {
            return Err(Refusal::Option(
                UNPACK_TO.name,
                "is for binary formats: a float is seldom the amount",
            ));
        }
    }
    refuse_value(
        given,
        &POLICY,
        "means nothing: each word of 64 bits is in range",
    )?;
    refuse_value(given, &TARGET_MODE, NO_TARGET)?;
    refuse_value(given, &PLACES, TWICE)?;
    refuse_value(given, &PLACES_MODE, TWICE)?;
    let print = match print_of(given) {
        Ok(print) => print,
        Err(refusal) => return Err(refusal),
    };
    Ok(UnpackAmounts {
        format,
        print: amount_print(print),
        endian: endian_of(given)?,
    })
}

impl Explains for PackAmounts {
    fn message(cause: ParseFixedError) -> &'static str {
        cause.message()
    }

    fn explain<L: Ledger>(
        &self,
        report: &mut Report,
        numeral: &[u8],
        before: usize,
        cause: ParseFixedError,
        steps: &mut Steps<L>,
    ) {
        let settings = AmountSettings {
            spelling: AmountSpelling::Numeral,
            format: self.format,
            policy: self.policy,
            mode: self.mode,
            print: AmountPrint::Text,
        };
        let cause = cause.message().as_bytes();
        push_amount_explanation(
            report,
            &settings,
            TRIM_OFFERS,
            (numeral, before),
            cause,
            steps,
        );
    }
}

/// Refuses a TARGET at an index: an operand with the shape of a format, or the name of a decimal format.
pub fn refuse_target<'a>(given: &Given<'_, 'a>, place: usize) -> Asked<'a, ()>
    ensures value { IfOk result (λ _. IsNoTarget (keyword_at given.now place)) }
    ensures refused { IfErr result (λ _. ¬ IsNoTarget (keyword_at given.now place)) }
{
    match given.keyword(place) {
        Some(word) if is_like_format(word) => return Err(Refusal::Word(word, IS_TARGET)),
        _ => (),
    }
    match decimal_keyword(given, place) {
        Some(_) => Err(Refusal::Word(given.keyword(place).unwrap_or(""), IS_TARGET)),
        None => Ok(()),
    }
}

/// Returns the decimal format that the operand at an index names, if it may be a keyword.
fn decimal_keyword(given: &Given<'_, '_>, place: usize) -> Option<DecimalFormat>
    ensures { MatchOption result (NamesNoDecimal (keyword_at given.now place))
        (λ format. IsDecimalAsked (keyword_at given.now place) format) }
{
    match given.keyword(place) {
        Some(word) => decimal_format_named(word.as_bytes()),
        None => None,
    }
}

/// Refuses a decimal format as the TARGET.
pub fn refuse_decimal_target<'a>(given: &Given<'_, 'a>, place: usize) -> Asked<'a, ()>
    ensures value { IfOk result (λ _. NamesNoDecimal (keyword_at given.now place)) }
    ensures refused { IfErr result (λ _. ¬ NamesNoDecimal (keyword_at given.now place)) }
{
    match decimal_keyword(given, place) {
        Some(_) => Err(Refusal::Word(
            given.keyword(place).unwrap_or(""),
            "is a decimal format, which is no TARGET: take it for SOURCE; a file of this name is './' and the name",
        )),
        None => Ok(()),
    }
}

/// Returns the job that converts lines, each of which spells an amount.
fn lines_of<'a>(given: &Given<'_, 'a>, format: DecimalFormat) -> Asked<'a, Job<'a>>
    ensures value { IfOk result (λ job. AreAmountLinesAsked given.now format job) }
    ensures refused { IfErr result (λ _. (job : Job) → ¬ AreAmountLinesAsked given.now format job) }
{
    refuse_target(given, 1)?;
    refuse_words(given)?;
    let settings = match amount_settings(given, format) {
        Ok(settings) => settings,
        Err(refusal) => return Err(refusal),
    };
    match layout_of(given) {
        Ok(layout) => Ok(Job::Amounts(AmountLines { settings, layout })),
        Err(refusal) => Err(refusal),
    }
}

/// Answers the lines of each file, which spell amounts.
pub fn convert<'a, L: Ledger>(
    rt: &HostRuntime,
    given: &Given<'_, 'a>,
    format: DecimalFormat,
    steps: &mut Steps<L>,
) -> Asked<'a, Status> {
    let job = match lines_of(given, format) {
        Ok(job) => job,
        Err(refusal) => return Err(refusal),
    };
    let format = given.needed(0, "SOURCE")?;
    run_inputs(rt, &job, format, given, 1, steps)
}

/// Returns the job that converts columns into amounts, and the index of the first file. `source` is the index of the
/// format.
pub fn amounts_of<'a>(
    given: &Given<'_, 'a>,
    columns: Vec<Column>,
    source: usize,
    format: DecimalFormat,
) -> Asked<'a, (Job<'a>, usize)>
    ensures value { IfOk result (λ asked.
        AreAmountColumnsAsked given.now format columns.items source asked.0 asked.1) }
    ensures refused { IfErr result (λ _. (list : List Column) (job : Job) (files : ℕ)
        → ¬ AreAmountColumnsAsked given.now format list source job files) }
{
    let files = source.saturating_add(1);
    refuse_target(given, files)?;
    let rule = match amount_settings(given, format) {
        Ok(rule) => rule,
        Err(refusal) => return Err(refusal),
    };
    match table_of(given) {
        Ok(table) => {
            let conversion = ColumnConversion {
                rule,
                form: table.form,
                skipped: table.skipped,
                columns,
                destination: table.destination,
                has_header: table.has_header,
                is_kept: table.is_kept,
                delimiter: table.delimiter,
            };
            Ok((Job::AmountColumns(conversion), files))
        }
        Err(refusal) => Err(refusal),
    }
}

/// Reports on standard error how many lines of an input were refused, with the text and the cause of the first.
fn report_refused<L: Ledger>(
    rt: &HostRuntime,
    lines: &AmountLines,
    file: Option<&str>,
    refusals: &Refusals<AmountRefusal>,
    steps: &mut Steps<L>,
) {
    if let Some(line) = &refusals.first {
        let text = line.line.as_bytes();
        let cause = line.cause.words().as_bytes();
        let mut report = refusal_report(file, refusals.count, line.number, text, cause);
        // A line that may be cut is not explained.
        if text.len() < MAX_KEPT {
            let numeral = lines.layout.numeral_of(text);
            let before = lines.layout.blanks_before(text);
            push_amount_explanation(
                &mut report,
                &lines.settings,
                TRIM_OFFERS,
                (numeral, before),
                cause,
                steps,
            );
        }
        report.send(rt);
    }
}

/// Answers the lines of one input, and reports on standard error why it did not end well.
#[inline(never)]
pub fn run_on<R: Read + Drop, S: Write + Drop, F: Write + Drop, L: Ledger>(
    rt: &HostRuntime,
    lines: &AmountLines,
    limit: &Option<Limit>,
    file: Option<&str>,
    reader: R,
    output: &mut Output<S, F>,
    rejects: &mut RejectFile<'_, '_>,
    steps: &mut Steps<L>,
) -> Status
    ensures { AmountsEndBetween (rejects.old.has_file && rejects.new.rejects.has_failed) limit.now lines.now result
        (R.remaining reader) (written_to S.contents F.contents output.old)
        (written_to S.contents F.contents output.new) }
{
    let failure = Failure::new(None);
    let mut source = StdSource::new(Unmarked::new(reader));
    let writer = mem::replace(output, Output::Nowhere);
    let mut sink = StdSink::new(Writer {
        writer: Guarded {
            writer,
            failure: rejects.failure,
        },
        failure: &failure,
    });
    let told = &mut rejects.rejects;
    let end = run_amounts(
        rt.alloc(),
        limit,
        lines,
        told,
        &mut source,
        &mut sink,
        steps,
    );
    let status = rejects.end(end.status);
    // After a failed write, not all counted answers were written.
    if !is_last(status) {
        report_refused(rt, lines, file, &end.watch, steps);
    }
    report_end(rt, file, status, sink.lines(), rejects.failure_or(&failure));
    *output = sink.into_writer().writer.writer;
    status
}
