//! A run: a list in, its answer out.

ghost use Rattle.std.specs.Prelude.{◌≡◌, ◌⊎◌, IfSome};
ghost use Rattle.fixed_numeral.specs.Numeral.{IsNumeral};
ghost use Rattle.fixed_command.specs.Limits.{limit_of};
ghost use Rattle.fixed_fit.specs.Run.{HasFitRun};
ghost use Rattle.line_engine.specs.declared.status.Status.{Status};
ghost use Rattle.run_engine.specs.Seen.{seen_of};

use crate::answer::Unfit;
use crate::question::{Question, Widths};
use crate::reader::FitList;
use fixed_command::{Layout, Limit, bytes_within};
use fixed_steps::Steps;
use line_engine::{Sink, Source, Status};
use run_engine::{Cut, Devices, Gathered, run, status_of};
use std::alloc::Global;
use std::sync::ledger::Ledger;

/// The form of an input: how long it may be, and what its lines may have.
#[derive(Clone, Copy)]
pub struct InputForm<'f> {
    /// The most bytes, if there is a limit.
    pub limit: &'f Option<Limit>,
    /// What a line has besides its numeral, if anything.
    pub layout: &'f Option<Layout>,
}

/// How a run ended.
#[derive(Drop)]
pub struct FitEnd {
    /// The status: `Faults` if no format is named.
    pub status: Status,
    /// The reason why no format is named.
    pub unfit: Option<Unfit>,
}

impl FitEnd {
    /// Returns the end of a run with this status.
    fn of(list: FitList, status: Status) -> FitEnd
        ensures status { result.status ≡ status }
        ensures unfit { result.unfit ≡ list.unfit }
    {
        FitEnd {
            status,
            unfit: list.unfit,
        }
    }
}

/// Answers an input: a list of numerals, one a line. A line that the layout skips counts as `0`, which fits each format
/// without an error.
///
/// The answer names a format and the greatest error of the list in it. Without widths, it is the format of the
/// question's width and sign rule with the greatest fraction length at which every numeral is in range after rounding
/// to nearest. With widths, it has the least of them at which every numeral is in range with an error of at most the
/// bound, the magnitude of a numeral, and the greatest fraction length of that width. If the input is the two ends of a
/// range, the error is half an ulp. If the reason is requested, the answer also names the first line that rules out the
/// next finer format and, with widths, the first line with which no format of the next lesser width serves.
///
/// Each line is read as it comes. Of the lines before it only those with the greatest error are kept, one for each
/// fraction length that is left. Nothing is written before the end of the input. An input is too long if it has more
/// bytes than the limit or, without one, than 2^62.
pub fn run_fit<S: Source, K: Sink, L: Ledger>(
    alloc: Global,
    form: &InputForm<'_>,
    question: &Question,
    widths: Option<Widths>,
    bound: &[u8],
    source: &mut S,
    sink: &mut K,
    steps: &mut Steps<L>,
) -> FitEnd
    requires { IfSome widths (λ w. IsNumeral question.now.radix bound.now) }

    // By status: what was read and written, which count of failures rose, and what was requested from the source. Or
    // there was no memory, and nothing was read or written.
    ensures { HasFitRun (limit_of form.now.limit.now) form.now.layout.now question.now widths bound.now
        (seen_of (S.left source.old) (S.asked source.old) (S.failures source.old) (K.written sink.old)
        (K.failures sink.old))
        (seen_of (S.left source.new) (S.asked source.new) (S.failures source.new) (K.written sink.new)
        (K.failures sink.new)) result.unfit result.status
        ⊎ ((result.status ≡ Status.NoMemory) × (source.new ≡ source.old) × (sink.new ≡ sink.old)) }
{
    match FitList::new(alloc, question, widths, bound, form.layout, steps) {
        Err(_) => FitEnd {
            status: Status::NoMemory,
            unfit: None,
        },
        Ok(list) => {
            let mut machine = Cut(list);
            let mut out = Gathered::new(Devices { source, sink });
            let end = run(&mut machine, bytes_within(form.limit), &mut out, steps);
            FitEnd::of(machine.0, status_of(end))
        }
    }
}
