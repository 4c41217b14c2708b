//! `fixed repack`: converts raw words to raw words of another format.

ghost use Rattle.std.specs.Prelude.{IfErr, IfOk};
ghost use Rattle.command_line.specs.Device.{written_to};
ghost use Rattle.fixed.specs.RecodeRuns.{RepacksBetween};
ghost use Rattle.fixed.specs.Repack.{IsRepackAsked, IsRepackNamed};
ghost use Rattle.fixed.specs.declared.inputs.Job.{Job};
ghost use Rattle.fixed_pack.specs.declared.repack.Repack.{Repack};

use crate::commands::floats::{Item, WordInput, recode_on};
use crate::inputs::{Job, run_inputs};
use crate::options::{ENDIAN, ENDIAN_OUT, LIMIT, OUTPUT, POLICY, REPORT, TARGET_MODE};
use crate::reports::{ReportForm, report_asked};
use crate::settings::{endian_of, endian_out_of, format_at, policy_of, target_mode_of};
use command_line::device::Output;
use command_line::given::{Asked, Given};
use command_line::page::{FILES, Operand, Page};
use fixed_command::Limit;
use fixed_pack::{Repack, WordReport};
use fixed_steps::Steps;
use line_engine::Status;
use std::io::{Read, Write};
use std::sync::ledger::Ledger;

const SOURCE: Operand = Operand {
    name: "SOURCE",
    help: "The format of a word that is read",
};

const TARGET: Operand = Operand {
    name: "TARGET",
    help: "The format of a word that is written",
};

pub fn page() -> Page {
    Page {
        name: "repack",
        hidden_name: "",
        about: "Write raw words of one format as raw words of another",
        usage: "fixed repack [OPTIONS] SOURCE TARGET [FILE]...",
        operands: &[SOURCE, TARGET, FILES],
        has_numerals: false,
        options: &[
            ENDIAN,
            ENDIAN_OUT,
            POLICY,
            TARGET_MODE,
            LIMIT,
            REPORT,
            OUTPUT,
        ],
        end: "Each word becomes the word of its number in TARGET, rounded as --target-mode\n\
              says. The first word that has a bit above the width of SOURCE, or whose number\n\
              is out of range, ends its input, and standard error says which it is and why.\n\
              --report counts the words and says which has the greatest error.\n\
              \n\
              A format is I (signed) or U (unsigned), its whole bits, F and its fraction bits,\n\
              as in I16F16 or I-9F25, 1 to 64 bits in all; or as in Q15 and UQ8.8.\n\
              \n\
              Example: printf '\\x00\\x00\\x40' | fixed repack Q23 Q15 | od -An -tx1",
    }
}

/// Writes the words of one input as words of another format, and reports on standard error why it did not end well.
#[inline(never)]
pub fn run_on<R: Read + Drop, S: Write + Drop, F: Write + Drop, L: Ledger>(
    rt: &HostRuntime,
    words: &Repack,
    limit: &Option<Limit>,
    form: Option<ReportForm>,
    file: Option<&str>,
    reader: R,
    output: &mut Output<S, F>,
    steps: &mut Steps<L>,
) -> Status
    ensures { RepacksBetween form limit.now words.now result (R.remaining reader)
        (written_to S.contents F.contents output.old) (written_to S.contents F.contents output.new) }
{
    let input = WordInput {
        item: Item::Word,
        file,
        limit,
    };
    match form {
        None => {
            let form = ReportForm::Text;
            recode_on(rt, *words, (), form, &input, reader, output, steps)
        }
        Some(form) => {
            let report = WordReport::new(rt.alloc(), *words);
            recode_on(rt, *words, report, form, &input, reader, output, steps)
        }
    }
}

/// Returns how a word is written in another format, from the operands and options.
fn words_of<'a>(given: &Given<'_, 'a>) -> Asked<'a, Repack>
    ensures value { IfOk result (λ words. IsRepackNamed given.now words) }
    ensures refused { IfErr result (λ _. (words : Repack) → ¬ IsRepackNamed given.now words) }
{
    let source = match format_at(given, 0, "SOURCE") {
        Ok(source) => source,
        Err(refusal) => return Err(refusal),
    };
    let target = match format_at(given, 1, "TARGET") {
        Ok(target) => target,
        Err(refusal) => return Err(refusal),
    };
    let endian = endian_of(given)?;
    Ok(Repack {
        source,
        target,
        policy: policy_of(given)?,
        target_mode: target_mode_of(given)?,
        endian,
        endian_out: endian_out_of(given, endian)?,
    })
}

/// Returns the job for each input.
fn job_of<'a>(given: &Given<'_, 'a>) -> Asked<'a, Job<'a>>
    ensures value { IfOk result (λ job. IsRepackAsked given.now job) }
    ensures refused { IfErr result (λ _. (job : Job) → ¬ IsRepackAsked given.now job) }
{
    match words_of(given) {
        Ok(words) => Ok(Job::Repack {
            words,
            report: report_asked(given),
        }),
        Err(refusal) => Err(refusal),
    }
}

/// Writes the words of each file as words of another format.
pub fn run<'a, L: Ledger>(
    rt: &HostRuntime,
    given: &Given<'_, 'a>,
    steps: &mut Steps<L>,
) -> Asked<'a, Status> {
    match job_of(given) {
        Ok(job) => run_inputs(rt, &job, "", given, 2, steps),
        Err(refusal) => Err(refusal),
    }
}
