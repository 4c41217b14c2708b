//! `fixed fit`: finds the finest format of a width that each numeral of an input fits, or the least within an error,
//! and the greatest error in it.

ghost use Rattle.std.specs.Prelude.{◌≡◌, ◌≤◌, ◌++◌, ◌∷◌, [], ◌⊎◌, ◌+◌, ◌*◌, ℕ, IfErr, IfOk, List, MatchOption, None};
ghost use Rattle.std.specs.Prelude.{OnOk, Option, Some, codes, is_some, length, option_map, slice_index};
ghost use Rattle.std.specs.Str.Parse.{AllDigits, digits_value};
ghost use Rattle.command_line.specs.Device.{written_to};
ghost use Rattle.command_line.specs.Words.{has_flag, value_of};
ghost use Rattle.command_line.specs.declared.given.Refusal.{Refusal};
ghost use Rattle.fixed.specs.Fit.{IsErrorAsked, IsErrorNumeral, IsFractionsAsked, IsPower, IsPowerWord, IsWholeWord};
ghost use Rattle.fixed.specs.Fit.{HasNoHyphen, IsFitAsked, IsRangeAsked, half_power, has_hyphen, widths_asked};
ghost use Rattle.fixed.specs.FitRuns.{RunsFitWithin};
ghost use Rattle.fixed.specs.Inner.Fractions.{IsFraction};
ghost use Rattle.fixed.specs.Lines.{IsKindAsked, IsKindWord};
ghost use Rattle.fixed.specs.declared.commands.fit.FitTask.{FitTask};
ghost use Rattle.fixed_bits.specs.Formats.{FormatParts};
ghost use Rattle.fixed_command.specs.Limits.{limit_of};
ghost use Rattle.line_engine.specs.Program.{outside};

use crate::inputs::{Job, run_inputs};
use crate::line_layout::{layout_asked, refuse_layout};
use crate::options::{LIMIT, OUTPUT, PASS_BLANK, PASS_COMMENTS, RADIX, TRIM};
use crate::output::open_answers;
use crate::settings::{radix_of, refuse_value};
use command_line::device::{Failure, Output, Writer};
use command_line::given::{Asked, Given, Refusal};
use command_line::page::{FILES, Page, Row};
use command_line::report::{Report, report_end};
use fixed_bits::Format;
use fixed_command::{Layout, Limit};
use fixed_fit::{FitEnd, Fractions, InputForm, Question, Unfit, Widths, run_fit};
use fixed_io::StdSink;
use fixed_numeral::{Radix, scan};
use fixed_respell::number_word;
use fixed_steps::Steps;
use line_engine::{MemorySource, Sink, Source, Status};
use std::alloc::{AllocError, Global};
use std::io::Write;
use std::mem;
use std::sync::ledger::Ledger;

/// The greatest K in an error 2^-K.
const MOST_POWER: u32 = 1000;

/// Why an option for an input is refused beside a range.
const NO_INPUT: &str = "is for an input: '--range' reads none";

/// The question about a list.
#[derive(Drop)]
pub struct FitTask {
    question: Question,
    /// The greatest error that a numeral may have, as a numeral, if requested.
    error: Option<Vec<u8>>,
    /// The widths that a format within the error may have.
    widths: Widths,
    /// What a line may have besides its numeral, if an option says so.
    layout: Option<Layout>,
}

const WIDTH: Row = Row {
    name: "width",
    letter: Some('w'),
    value: "W",
    choices: &[],
    help: "The width of the format in bits, from 1 to 64",
};

const SIGNED: Row = Row {
    name: "signed",
    letter: None,
    value: "",
    choices: &[],
    help: "Only signed formats, even if no numeral is negative",
};

const WHY: Row = Row {
    name: "why",
    letter: None,
    value: "",
    choices: &[],
    help: "Also what rules out a finer format or lesser width",
};

const RANGE: Row = Row {
    name: "range",
    letter: None,
    value: "",
    choices: &[],
    help: "Every value from LO to HI, in place of files",
};

const ERROR: Row = Row {
    name: "error",
    letter: Some('e'),
    value: "E",
    choices: &[],
    help: "The least format within an error: a numeral or 2^-K",
};

const ANY: Row = Row {
    name: "any",
    letter: None,
    value: "",
    choices: &[],
    help: "With --error, of any width, not only 8, 16, 32 and 64",
};

const WHOLE: Row = Row {
    name: "whole",
    letter: None,
    value: "N",
    choices: &[],
    help: "At least N whole bits, sign included: 1 as in Q15",
};

const BEYOND: Row = Row {
    name: "beyond",
    letter: None,
    value: "",
    choices: &[],
    help: "Also fractions longer than the width, up to 64 bits",
};

pub fn page() -> Page {
    Page {
        name: "fit",
        hidden_name: "",
        about: "Find the finest format of a width, or the least within an error",
        usage: "fixed fit --width W [OPTIONS] [FILE]...\n       fixed fit --error E [OPTIONS] [FILE]...\n       \
                fixed fit (--width W | --error E) [OPTIONS] --range LO HI",
        operands: &[FILES],
        has_numerals: true,
        options: &[
            WIDTH,
            ERROR,
            ANY,
            WHOLE,
            BEYOND,
            SIGNED,
            WHY,
            RANGE,
            RADIX,
            TRIM,
            PASS_BLANK,
            PASS_COMMENTS,
            LIMIT,
            OUTPUT,
        ],
        end: "A numeral fits a format where it is in range after rounding to nearest, ties to\n\
              even. The finest format has the greatest fraction length. It is signed exactly\n\
              where a numeral is below zero, or where --signed asks for it. After its name\n\
              stands the greatest error of a numeral in it; of a range half an ulp. Of a\n\
              range LO is line 1 and HI line 2, and either may begin with a minus.\n\
              \n\
              With --error the answer is the format of the least width of 8, 16, 32 and 64, or\n\
              of W alone, at which one has each numeral in range with an error of at most E,\n\
              and of those of that width the finest; or none, and the first line that rules\n\
              out the last of them. A range has one where half an ulp is at most E. With\n\
              --why a last line has the next lesser width that was tried, and the first line\n\
              that rules out the last of its formats.\n\
              \n\
              A format has no less than 0 whole bits, or N with --whole. With --beyond it may\n\
              have less than 0, as I-9F25 has, whose 16 bits reach from -2^-10 to 2^-10.\n\
              \n\
              Example: printf '0.5\\n-3.2\\n' | fixed fit --width 16 --why",
    }
}

/// Returns the format with the width `word` and a sign rule.
fn kind_named(word: &str, is_signed: bool) -> Option<Format>
    ensures { MatchOption result ((kind : FormatParts) → ¬ IsKindWord is_signed word.now kind)
        (λ kind. IsKindWord is_signed word.now kind) }
{
    match number_word(word.as_bytes(), 64) {
        Some(width) if width > 0 => Some(Format::of(is_signed, width as u32, 0)),
        _ => None,
    }
}

/// Returns the format with the width and the sign rule in the options; of 64 bits if an error is requested and no
/// width.
fn kind_of<'a>(given: &Given<'_, 'a>) -> Asked<'a, Format>
    ensures value { IfOk result (λ kind. IsKindAsked (has_flag given.now (codes "signed"))
        (is_some (value_of given.now (codes "error"))) (value_of given.now (codes "width")) kind) }
    ensures refused { IfErr result (λ _. (kind : FormatParts) → ¬ IsKindAsked (has_flag given.now (codes "signed"))
        (is_some (value_of given.now (codes "error"))) (value_of given.now (codes "width")) kind) }
{
    let word = match given.value(&WIDTH) {
        Some(word) => word,
        None if given.value(&ERROR).is_some() => "64",
        None => return Err(Refusal::Missing("--width W or --error E")),
    };
    match kind_named(word, given.has(&SIGNED)) {
        Some(kind) => Ok(kind),
        None => Err(Refusal::Word(word, "is not a width: it is a number from 1 to 64")),
    }
}

/// Returns the widths that a format within an error may have.
fn widths_of<'a>(given: &Given<'_, 'a>) -> Asked<'a, Widths>
    ensures value { IfOk result (λ a. widths_asked (has_flag given.now (codes "any"))
        (is_some (value_of given.now (codes "error"))) (is_some (value_of given.now (codes "width"))) ≡ Some a) }
    ensures refused { IfErr result (λ _. widths_asked (has_flag given.now (codes "any"))
        (is_some (value_of given.now (codes "error"))) (is_some (value_of given.now (codes "width"))) ≡ None) }
{
    let is_any = given.has(&ANY);
    if is_any && given.value(&ERROR).is_none() {
        return Err(Refusal::Word("--any", "is for --error"));
    }
    match (given.value(&WIDTH), is_any) {
        (None, true) => Ok(Widths::Any),
        (None, false) => Ok(Widths::Types),
        (Some(_), false) => Ok(Widths::One),
        (Some(word), true) => Err(Refusal::Word(word, "is one width, and --any is for all")),
    }
}

/// Returns the number of whole bits, at most a width, that `word` writes.
fn whole_named(word: &str, width: u32) -> Option<u32>
    requires { width ≤ 64 }
    ensures { MatchOption result ((least : ℕ) → ¬ IsWholeWord width word.now least)
        (λ least. IsWholeWord width word.now least) }
{
    match number_word(word.as_bytes(), u64::from(width)) {
        Some(least) => Some(least as u32),
        None => None,
    }
}

/// Returns the fraction lengths that a format of the width may have.
fn fractions_of<'a>(given: &Given<'_, 'a>, width: u32) -> Asked<'a, Fractions>
    requires { width ≤ 64 }
    ensures value { IfOk result (λ a. IsFractionsAsked width (value_of given.now (codes "whole"))
        (has_flag given.now (codes "beyond")) a) }
    ensures refused { IfErr result (λ _. (a : Fractions) → ¬ IsFractionsAsked width
        (value_of given.now (codes "whole")) (has_flag given.now (codes "beyond")) a) }
{
    let is_beyond = given.has(&BEYOND);
    let word = match given.value(&WHOLE) {
        Some(word) => word,
        None if is_beyond => return Ok(Fractions::Beyond),
        None => return Ok(Fractions::Whole(0)),
    };
    if is_beyond {
        return Err(Refusal::Word(
            "--beyond",
            "allows fewer than 0 whole bits, and --whole does not",
        ));
    }
    match whole_named(word, width) {
        Some(least) => Ok(Fractions::Whole(least)),
        None => Err(Refusal::Word(
            word,
            "is not a number of whole bits: it is a number from 0 to the width",
        )),
    }
}

/// Halves a decimal fraction, given and returned as the digits after its point.
fn halved(alloc: Global, digits: &[u8]) -> Result<Vec<u8>, AllocError>
    requires { AllDigits 10 digits.now }
    ensures { IfOk result (λ half. IsFraction (length digits.now + 1) (5 * digits_value 10 digits.now) half.items) }
{
    let mut half = Vec::new(alloc);
    let mut rest = 0;
    'digits: for at in 0..digits.len() {
        let all = 10 * rest + (digits[at] - b'0');
        half.push(b'0' + all / 2)?;
        rest = all % 2;
    }
    half.push(b'0' + 5 * rest)?;
    Ok(half)
}

/// Returns 2^-`power` in decimal.
fn power_of_half(alloc: Global, power: u32) -> Result<Vec<u8>, AllocError>
    ensures { IfOk result (λ text. text.items ≡ half_power power) }
{
    let mut text = Vec::new(alloc);
    if power == 0 {
        text.push(b'1')?;
        return Ok(text);
    }
    let mut digits = Vec::new(alloc);
    digits.push(b'5')?;
    'halves: for place in 1..power {
        digits = halved(alloc, &digits)?;
    }
    text.extend_from_slice(b"0.")?;
    text.extend_from_slice(&digits)?;
    Ok(text)
}

/// Returns the first byte of a text, or 0 if it is empty.
fn first_byte(text: &str) -> u8
    ensures { result ≡ slice_index text.now 0 }
{
    match text.as_bytes() {
        [first, ..] => *first,
        [] => 0,
    }
}

/// Returns the K, up to 1,000, that `word` writes in decimal digits.
fn power_named(word: &str) -> Option<u32>
    ensures { MatchOption result (¬ IsPower word.now) (λ k. IsPower word.now × (k ≡ digits_value 10 word.now)) }
{
    if first_byte(word) == b'+' {
        return None;
    }
    match word.parse::<u32>() {
        Ok(power) if power <= MOST_POWER => Some(power),
        _ => None,
    }
}

/// Returns `word` after `prefix`.
fn prefixed(alloc: Global, prefix: &str, word: &str) -> Result<Vec<u8>, AllocError>
    ensures { IfOk result (λ text. text.items ≡ prefix.now ++ word.now) }
{
    let mut text = Vec::new(alloc);
    text.extend_from_slice(prefix.as_bytes())?;
    text.extend_from_slice(word.as_bytes())?;
    Ok(text)
}

/// Returns 2^-K as a numeral of the radix; `None` if `word` is not a K up to 1,000.
fn power_numeral(alloc: Global, word: &str, radix: Radix) -> Result<Option<Vec<u8>>, AllocError>
    ensures { IfOk result (λ found. MatchOption found ((text : List ℕ) → ¬ IsPowerWord radix word.now text)
        (λ text. IsPowerWord radix word.now text.items)) }
{
    let power = match power_named(word) {
        Some(power) => power,
        None => return Ok(None),
    };
    match radix {
        Radix::Dec => Ok(Some(power_of_half(alloc, power)?)),
        Radix::Bin => Ok(Some(prefixed(alloc, "1p-", word)?)),
        Radix::Oct => Ok(Some(prefixed(alloc, "1p-", word)?)),
        Radix::Hex => Ok(Some(prefixed(alloc, "1p-", word)?)),
    }
}

/// Returns the numeral of an error, which is not below zero; `None` if `word` is not one.
fn error_numeral<L: Ledger>(
    alloc: Global,
    word: &str,
    radix: Radix,
    steps: &mut Steps<L>,
) -> Result<Option<Vec<u8>>, AllocError>
    ensures { IfOk result (λ found. MatchOption found ((text : List ℕ) → ¬ IsErrorNumeral radix word.now text)
        (λ text. IsErrorNumeral radix word.now text.items)) }
{
    if let Some(power) = word.strip_prefix("2^-") {
        return power_numeral(alloc, power, radix);
    }
    if first_byte(word) == b'-' {
        return Ok(None);
    }
    match scan(word.as_bytes(), radix, steps) {
        Ok(_) => Ok(Some(prefixed(alloc, "", word)?)),
        Err(_) => Ok(None),
    }
}

/// Returns the error that the option names, as a numeral; `None` without the option.
fn error_of<'a, L: Ledger>(
    alloc: Global,
    given: &Given<'_, 'a>,
    radix: Radix,
    steps: &mut Steps<L>,
) -> Asked<'a, Option<Vec<u8>>>
    ensures value { IfOk result (λ a. IsErrorAsked radix (value_of given.now (codes "error"))
        (option_map (λ text. text.items) a)) }
    ensures refused { IfErr result (λ e. (e ≡ Refusal.NoMemory) ⊎ ((a : Option (List ℕ))
        → ¬ IsErrorAsked radix (value_of given.now (codes "error")) a)) }
{
    let word = match given.value(&ERROR) {
        Some(word) => word,
        None => return Ok(None),
    };
    match error_numeral(alloc, word, radix, steps) {
        Ok(Some(error)) => Ok(Some(error)),
        Ok(None) => Err(Refusal::Word(
            word,
            "is not an error: it is a numeral that is not below zero, or 2^-K with K up to 1000",
        )),
        Err(_) => Err(Refusal::NoMemory),
    }
}

/// Reports on standard error which line is not a numeral, or rules out the last format.
fn report_unfit(rt: &HostRuntime, file: Option<&str>, unfit: &Unfit) {
    let mut report = Report::of(file);
    match unfit {
        Unfit::NotNumeral { place, error } => {
            report.text("line ");
            report.number(*place);
            report.text(": ");
            report.text(error.message());
        }
        Unfit::NoneFits(place) => {
            report.text("no format of the width fits line ");
            report.number(*place);
        }
        Unfit::NoneServes(0) => report.text("half an ulp of each format is greater than the error"),
        Unfit::NoneServes(place) => {
            report.text("no format fits within the error from line ");
            report.number(*place);
        }
    }
    report.send(rt);
}

/// Answers the list of a source.
fn answer_list<S: Source, K: Sink, L: Ledger>(
    rt: &HostRuntime,
    task: &FitTask,
    limit: &Option<Limit>,
    source: &mut S,
    sink: &mut K,
    steps: &mut Steps<L>,
) -> FitEnd
    ensures { RunsFitWithin (option_map (λ text. text.items) task.now.error) (limit_of limit.now) task.now result.status
        (outside (S.left source.old) (S.asked source.old) (S.failures source.old) (K.written sink.old)
        (K.failures sink.old) steps.old)
        (outside (S.left source.new) (S.asked source.new) (S.failures source.new) (K.written sink.new)
        (K.failures sink.new) steps.new) }
{
    let question = &task.question;
    let widths = Some(task.widths);
    let form = InputForm {
        limit,
        layout: &task.layout,
    };
    match &task.error {
        None => run_fit(rt.alloc(), &form, question, None, &[], source, sink, steps),
        Some(error) => match scan(error, question.radix, steps) {
            Ok(_) => run_fit(
                rt.alloc(),
                &form,
                question,
                widths,
                error,
                source,
                sink,
                steps,
            ),
            Err(_) => FitEnd {
                status: Status::Usage,
                unfit: None,
            },
        },
    }
}

/// Answers the list of a source, and reports on standard error why it did not end well.
#[inline(never)]
pub fn run_on<S: Source, O: Write + Drop, F: Write + Drop, L: Ledger>(
    rt: &HostRuntime,
    task: &FitTask,
    limit: &Option<Limit>,
    file: Option<&str>,
    source: &mut S,
    output: &mut Output<O, F>,
    steps: &mut Steps<L>,
) -> Status
    ensures { (failures : ℕ) × RunsFitWithin (option_map (λ text. text.items) task.now.error) (limit_of limit.now)
        task.now result
        (outside (S.left source.old) (S.asked source.old) (S.failures source.old)
        (written_to O.contents F.contents output.old) 0 steps.old)
        (outside (S.left source.new) (S.asked source.new) (S.failures source.new)
        (written_to O.contents F.contents output.new) failures steps.new) }
{
    let failure = Failure::new(None);
    // The sink owns the writer meanwhile, so that contracts know what it contains.
    let writer = mem::replace(output, Output::Nowhere);
    let mut sink = StdSink::new(Writer {
        writer,
        failure: &failure,
    });
    let end = answer_list(rt, task, limit, source, &mut sink, steps);
    if end.status == Status::Faults {
        if let Some(unfit) = &end.unfit {
            report_unfit(rt, file, unfit);
        }
    }
    report_end(rt, file, end.status, sink.lines(), &failure);
    *output = sink.into_writer().writer;
    end.status
}

/// Appends a text and a newline.
fn push_line(bytes: &mut Vec<u8>, text: &str) -> Result<(), AllocError>
    ensures { OnOk result (bytes.new.items ≡ bytes.old.items ++ (text.now ++ 10 ∷ [])) }
{
    bytes.extend_from_slice(text.as_bytes())?;
    bytes.push(b'\n')?;
    Ok(())
}

/// Returns the list of the two ends of a range.
fn ends_of(alloc: Global, low: &str, high: &str) -> Result<Vec<u8>, AllocError>
    ensures { IfOk result (λ bytes. bytes.items ≡ (low.now ++ 10 ∷ []) ++ (high.now ++ 10 ∷ [])) }
{
    let mut bytes = Vec::new(alloc);
    push_line(&mut bytes, low)?;
    push_line(&mut bytes, high)?;
    Ok(bytes)
}

/// Returns the list of the two ends of the range that the operands are.
fn range_of<'a>(alloc: Global, given: &Given<'_, 'a>) -> Asked<'a, Vec<u8>>
    ensures value { IfOk result (λ list. IsRangeAsked given.now list.items) }
    ensures refused { IfErr result (λ e. (e ≡ Refusal.NoMemory) ⊎ ((list : List ℕ) → ¬ IsRangeAsked given.now list)) }
{
    refuse_layout(given, NO_INPUT)?;
    refuse_value(given, &LIMIT, NO_INPUT)?;
    match given.from(0) {
        [low, high] => match ends_of(alloc, low, high) {
            Ok(list) => Ok(list),
            Err(_) => Err(Refusal::NoMemory),
        },
        [_, _, word, ..] => Err(Refusal::Word(word, "is one word too many: a range is LO HI")),
        _ => Err(Refusal::Missing("range: it is LO HI")),
    }
}

/// Answers for every value between two numerals, passed as a list of the two.
fn run_range<'a, L: Ledger>(
    rt: &HostRuntime,
    task: &FitTask,
    given: &Given<'_, 'a>,
    steps: &mut Steps<L>,
) -> Asked<'a, Status> {
    let list = match range_of(rt.alloc(), given) {
        Ok(list) => list,
        Err(refusal) => return Err(refusal),
    };
    let mut source = MemorySource::new(list, 4096, Vec::new(rt.alloc()));
    match open_answers(rt, given) {
        Ok(mut output) => Ok(run_on(rt, task, &None, None, &mut source, &mut output, steps)),
        Err(status) => Ok(status),
    }
}

/// Whether a word begins with a hyphen before another byte.
fn has_hyphen(word: &[u8]) -> bool
    ensures { result ≡ has_hyphen word.now }
{
    match word {
        [first, _, ..] => *first == b'-',
        _ => false,
    }
}

/// Refuses an operand that begins with a hyphen, which is not a file: such a file is written `./-x`, or after `--`.
fn refuse_hyphens<'a>(given: &Given<'_, 'a>) -> Asked<'a, ()>
    ensures value { IfOk result (λ _. HasNoHyphen given.now) }
    ensures refused { IfErr result (λ _. ¬ HasNoHyphen given.now) }
{
    'words: for place in 0..given.words.len() {
        if let Some(word) = given.keyword(place) {
            if has_hyphen(word.as_bytes()) {
                return Err(Refusal::Word(
                    word,
                    "is not an option, nor a file: a numeral is an end of '--range'",
                ));
            }
        }
    }
    Ok(())
}

/// Returns the question about each list, from the options.
fn task_of<'a, L: Ledger>(
    alloc: Global,
    given: &Given<'_, 'a>,
    steps: &mut Steps<L>,
) -> Asked<'a, FitTask>
    ensures value { IfOk result (λ task. IsFitAsked given.now task) }
    ensures refused { IfErr result (λ e. (e ≡ Refusal.NoMemory) ⊎ ((task : FitTask) → ¬ IsFitAsked given.now task)) }
{
    let kind = match kind_of(given) {
        Ok(kind) => kind,
        Err(refusal) => return Err(refusal),
    };
    let layout = match layout_asked(given) {
        Ok(layout) => layout,
        Err(refusal) => return Err(refusal),
    };
    let radix = radix_of(given)?;
    Ok(FitTask {
        question: Question {
            radix,
            kind,
            fractions: fractions_of(given, kind.width())?,
            is_reason_asked: given.has(&WHY),
            is_range: given.has(&RANGE),
        },
        error: error_of(alloc, given, radix, steps)?,
        widths: widths_of(given)?,
        layout,
    })
}

/// Answers each file, or a range.
pub fn run<'a, L: Ledger>(
    rt: &HostRuntime,
    given: &Given<'_, 'a>,
    steps: &mut Steps<L>,
) -> Asked<'a, Status> {
    let task = match task_of(rt.alloc(), given, steps) {
        Ok(task) => task,
        Err(refusal) => return Err(refusal),
    };
    if given.has(&RANGE) {
        return run_range(rt, &task, given, steps);
    }
    refuse_hyphens(given)?;
    run_inputs(rt, &Job::Fit(task), "", given, 0, steps)
}
