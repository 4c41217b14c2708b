//! Converts the words of an input, over any source and any sink.

ghost use Rattle.std.specs.Prelude.{◌≡◌, Option};
ghost use Rattle.line_engine.specs.Program.{outside};
ghost use Rattle.line_engine.specs.declared.status.Status.{Status};
ghost use Rattle.fixed_command.specs.Limits.{limit_of};
ghost use Rattle.fixed_command.specs.Rejects.{name_of};
ghost use Rattle.fixed_report.specs.Report.{Kept};
ghost use Rattle.fixed_words.specs.Run.{HasWordsRun};
ghost use Rattle.fixed_words.specs.Told.{IsNoError, nothing_told};
ghost use Rattle.line_rejects.specs.Rejects.{sight_of};

use crate::rule::WordRule;
use crate::splitter::{WordBytes, WordRefusal, Words};
use column_engine::RecordBuffer;
use fixed_command::{Limit, Tally, bytes_within, error_report, status_of};
use fixed_report::ErrorReport;
use fixed_steps::Steps;
use line_engine::{Sink, Source, Status};
use line_rejects::Rejects;
use run_engine::{Cut, Devices, Gathered, run};
use std::alloc::Global;
use std::mem;
use std::sync::ledger::Ledger;

/// How the conversion of the words of an input ended.
#[derive(Drop)]
pub struct WordsEnd {
    /// Its status: `Faults` if a word was refused.
    pub status: Status,
    /// How many words were refused.
    pub refused: u64,
    /// The first refused word.
    pub first: Option<WordRefusal>,
    /// The outcomes of the words, if requested.
    pub tally: Tally,
    /// The report of the greatest error, if requested.
    pub errors: Option<ErrorReport>,
}

impl WordsEnd {
    /// Returns the end of a run with this status.
    fn of(words: Words, status: Status) -> WordsEnd
        ensures { result ≡ record {
          status = status;
          refused = words.refused;
          first = words.first;
          tally = words.tally;
          errors = words.errors;
        } }
    {
        WordsEnd {
            status,
            refused: words.refused,
            first: words.first,
            tally: words.tally,
            errors: words.errors,
        }
    }
}

/// Returns the report of the greatest error, if requested.
fn errors_of(alloc: Global, rule: &WordRule<'_>, has_report: bool) -> Option<ErrorReport>
    ensures { IsNoError has_report rule.now.rule result }
{
    if has_report {
        Some(error_report(alloc, rule.rule.settings()))
    } else {
        None
    }
}

/// Converts the words of an input in place. Returns how that ended.
///
/// A word is a stretch of bytes between separators, which are ASCII white space and those of the rule. It is a numeral
/// or a register word. It is replaced by the answer to a line with only this word; a refused word is replaced by the
/// token or, if the rule leaves it, stays. Separators are written unchanged. With `has_report` the end has the outcomes
/// of the words and the greatest error. Each refused word has a line of rejects. The answers of a chunk of 4,096 bytes
/// are written before the next is read. Before the first read it allocates one word of 1,048,576 bytes, and ends with
/// `NoMemory` if that fails. An input is too long if it has more bytes than the limit or, without one, than 2^62.
pub fn convert_words<S: Source, K: Sink, J: Sink + Drop, L: Ledger>(
    alloc: Global,
    limit: &Option<Limit>,
    rule: &WordRule<'_>,
    has_report: bool,
    rejects: &mut Rejects<'_, J>,
    source: &mut S,
    sink: &mut K,
    steps: &mut Steps<L>,
) -> WordsEnd
    // The bytes read, made and written, by status; which count of failures rose; what reads requested; how many words
    // were refused, and the first of them; the outcomes and the greatest error, if requested; and the lines of rejects.
    ensures run { ¬ (result.status ≡ Status.NoMemory) → (none : Option Kept) × IsNoError has_report rule.now.rule none
        × HasWordsRun (limit_of limit.now) rule.now
        (outside (S.left source.old) (S.asked source.old) (S.failures source.old) (K.written sink.old)
        (K.failures sink.old) steps.old)
        (outside (S.left source.new) (S.asked source.new) (S.failures source.new) (K.written sink.new)
        (K.failures sink.new) steps.new) result.status
        (nothing_told none (name_of rejects.old) (sight_of J.written J.failures rejects.old)) (record {
          refused = result.refused;
          first = result.first;
          tally = result.tally;
          errors = result.errors;
          name = name_of rejects.new;
          rejects = sight_of J.written J.failures rejects.new;
        }) }

    // Without memory, nothing was read, written or put.
    ensures memory { result.status ≡ Status.NoMemory → (source.new ≡ source.old) × (sink.new ≡ sink.old)
        × (rejects.new ≡ rejects.old) × (steps.new ≡ steps.old) }
{
    match RecordBuffer::new(alloc) {
        Err(_) => WordsEnd {
            status: Status::NoMemory,
            refused: 0,
            first: None,
            tally: Tally::new(),
            errors: None,
        },
        Ok(word) => {
            let words = Words::new(word, errors_of(alloc, rule, has_report));
            let mut machine = Cut(WordBytes {
                rule,
                words,
                rejects: mem::replace(rejects, Rejects::none()),
            });
            let mut out = Gathered::new(Devices { source, sink });
            let end = run(&mut machine, bytes_within(limit), &mut out, steps);
            let WordBytes {
                words,
                rejects: told,
                ..
            } = machine.0;
            *rejects = told;
            WordsEnd::of(words, status_of(end))
        }
    }
}
