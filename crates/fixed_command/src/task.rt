//! The tasks of commands, over any source and any sink.

ghost use Rattle.std.specs.Prelude.{◌≡◌, ◌≤◌, ◌+◌, MatchOption, Some, max};
ghost use Rattle.line_engine.specs.Program.{outside};
ghost use Rattle.line_engine.specs.Status.{code_of};
ghost use Rattle.fixed_constants.specs.Forms.{IsFormAnswer};
ghost use Rattle.fixed_constants.specs.Plain.{IsPlainAnswer};
ghost use Rattle.fixed_columns.specs.Answer as columns;
ghost use Rattle.fixed_enclose.specs.Answer as enclose;
ghost use Rattle.fixed_respell.specs.Answer.{IsAnswer, fault_message};
ghost use Rattle.fixed_command.specs.Convert.{IsLineReply, IsReply, without_return};
ghost use Rattle.fixed_command.specs.Errors.{IsErrorLine};
ghost use Rattle.fixed_command.specs.LaidList.{laid_out};
ghost use Rattle.fixed_command.specs.Layout.{AnswersLaidOut, IsLaidOut};
ghost use Rattle.fixed_command.specs.LeastLines.{IsLeastWritten};
ghost use Rattle.fixed_command.specs.Limits.{limit_of, max_limit, no_limit, whole_limit_of};
ghost use Rattle.fixed_command.specs.LineBlocks.{IsLineBlock, line_refusal};
ghost use Rattle.fixed_command.specs.Message.{message_text};
ghost use Rattle.fixed_command.specs.Observed.{IsLineOutcome};
ghost use Rattle.fixed_command.specs.Products.{IsProduct};
ghost use Rattle.fixed_command.specs.Rejects.{RejectsLaid, RejectsNamed, RejectsRun, TaskRejects};
ghost use Rattle.fixed_command.specs.Renamed.{IsRenamedAnswer};
ghost use Rattle.fixed_command.specs.Reports.{ReportsCounted, ReportsLaid, ReportsRefused, ReportsReturned};
ghost use Rattle.fixed_command.specs.Reports.{ReportsWhole};
ghost use Rattle.fixed_command.specs.Reports.{NoNote, TaskReports, block_rule, message_of};
ghost use Rattle.fixed_command.specs.declared.line_blocks.BlockRule.{BlockRule};
ghost use Rattle.fixed_enclose.specs.declared.rule.EncloseRule.{EncloseRule};
ghost use Rattle.fixed_respell.specs.Refusal.{refusal_message, refusal_text};
ghost use Rattle.fixed_respell.specs.declared.respell_rule.RespellRule.{RespellRule};
ghost use Rattle.fixed_command.specs.Runs.{HasLineRun, IsWholeRun, TaskRuns, reported_extra, reported_per_byte};
ghost use Rattle.line_engine.specs.Refusals.{IsWritten};
ghost use Rattle.run_engine.specs.LineRun.{HasLinesRun};
ghost use Rattle.run_engine.specs.Reply.{Returns};

use crate::ConvertRule;
use crate::blocks::Question;
use crate::error_lines::ErrorLines;
use crate::laid_lines::{LaidOutLines, LaidRefusals};
use crate::laid_list::LaidOutList;
use crate::layout::{LaidOutRule, Layout};
use crate::least_lines::LeastLines;
use crate::line_blocks::BlockRule;
use crate::observed::{CountedRule, LineReport, RefusedLines, Worded, reported};
use crate::outcome::Tally;
use crate::rejecting::{Rejecting, ShowsLines};
use crate::renamed::RenamedRule;
use crate::watch::Refusals;
use fixed_columns::ColumnsRule;
use fixed_constants::{FormRule, PlainRule};
use fixed_enclose::EncloseRule;
use fixed_report::ErrorReport;
use fixed_respell::RespellRule;
use fixed_show::Form;
use fixed_steps::Steps;
use line_engine::{MAX_LIMIT, NO_LIMIT, Sink, Source, Status, WholeRule, answer_whole};
use line_rejects::Rejects;
use run_engine::{LineRule, LinesEnd, Refusals as Refused, Rule, Watch as Observer, run_watched};
use std::alloc::Global;
use std::marker::Model;
use std::mem;
use std::sync::ledger::Ledger;

/// The most bytes of an input, from 1 to 4,294,967,296.
#[derive(Drop)]
pub struct Limit {
    bytes: u64,
}

impl Model for Limit {
    ghost use Rattle.std.specs.Prelude.{◌≤◌, ℕ};
    ghost use Rattle.fixed_command.specs.Layout.{IsLaidOut};
    ghost use Rattle.fixed_command.specs.Limits.{max_limit};

    ghost Value = { ℕ };

    ghost view = { λ l. l.bytes };

    ghost invariant = { λ l. (1 ≤ l.bytes) × (l.bytes ≤ max_limit) };
}

impl Limit {
    /// Returns the limit of this many bytes. `None` if it is out of range.
    pub fn new(bytes: u64) -> Option<Limit>
        ensures { MatchOption result (¬ ((1 ≤ bytes) × (bytes ≤ max_limit)))
            (λ l. (l ≡ bytes) × (1 ≤ bytes) × (bytes ≤ max_limit)) }
    {
        if bytes >= 1 && bytes <= MAX_LIMIT {
            Some(Limit { bytes })
        } else {
            None
        }
    }

    /// How many bytes.
    pub fn bytes(&self) -> u64
        ensures value { result ≡ self.now }
        ensures some { 1 ≤ result }
        ensures most { result ≤ max_limit }
    {
        self.bytes
    }
}

/// What to do with an input.
#[derive(Drop)]
pub enum Task<'a> {
    /// Each line is answered as `fixed_tool` answers it.
    Lines,
    /// The same for lines as people write them.
    LaidOutLines(Layout),
    /// Each line is a numeral that is converted.
    Convert(ConvertRule),
    /// The same for lines as people write them.
    LaidOut(LaidOutRule),
    /// The same, with a report of the outcomes and of the greatest error.
    Reported(CountedRule),
    /// Each line is answered with the error of its numeral.
    Errors(ErrorLines),
    /// Each line is answered with the enclosure of its numeral.
    Enclose,
    /// The same for lines as people write them.
    LaidOutEnclose(Layout),
    /// Each line is answered in a form, as a question requests.
    Ask(Form, Question),
    /// The same for lines as people write them.
    LaidOutAsk(Form, Question, Layout),
    /// The lines are numerals; the answer is the least format that holds them.
    Least(LeastLines),
    /// The same for lines as people write them.
    LaidOutLeast(LeastLines, Layout),
    /// The input is a constants file, with any blanks and comments; the answer is its text in this form.
    Constants(FormRule<'a>),
    /// The lines are cells; the answer is the column of them in order.
    Columns,
}

/// How a run of a task ended, and what it reports.
#[derive(Drop)]
pub struct TaskEnd {
    /// Its status.
    pub status: Status,
    /// The refused lines: their count, and the first.
    pub refusals: Refusals,
    /// The outcomes of the numerals, if a report of them was requested.
    pub tally: Tally,
    /// The greatest error, if a report of it was requested.
    pub errors: Option<ErrorReport>,
}

impl TaskEnd {
    /// The end of a task without a report of outcomes.
    fn of(status: Status, refusals: Refusals) -> TaskEnd
        ensures status { result.status ≡ status }
        ensures refusals { result.refusals ≡ refusals }
    {
        TaskEnd {
            status,
            refusals,
            tally: Tally::new(),
            errors: None,
        }
    }
}

/// Answers each line of an input within the limit by a rule, and tells an observer.
fn run_observed<R: LineRule<L>, W: Observer<R, L> + Drop, S: Source, K: Sink, L: Ledger>(
    alloc: Global,
    limit: &Option<Limit>,
    rule: &R,
    watch: W,
    source: &mut S,
    sink: &mut K,
    steps: &mut Steps<L>,
) -> LinesEnd<W>
    ensures run { HasLineRun (R.Answers rule.now) (limit_of limit.now) (R.PER_BYTE + W.PER_BYTE) (R.EXTRA + W.EXTRA)
        (outside (S.left source.old) (S.asked source.old) (S.failures source.old)
        (K.written sink.old) (K.failures sink.old) steps.old)
        (outside (S.left source.new) (S.asked source.new) (S.failures source.new)
        (K.written sink.new) (K.failures sink.new) steps.new) result.status }
    ensures saw { ¬ (result.status ≡ Status.NoMemory) → HasLinesRun rule.now (R.Answers rule.now)
        (Returns (R.Notes rule.now) (R.refusal rule.now)) (W.Saw rule.now) (R.PER_BYTE + W.PER_BYTE)
        (R.EXTRA + W.EXTRA) (limit_of limit.now)
        (outside (S.left source.old) (S.asked source.old) (S.failures source.old)
        (K.written sink.old) (K.failures sink.old) steps.old)
        (outside (S.left source.new) (S.asked source.new) (S.failures source.new)
        (K.written sink.new) (K.failures sink.new) steps.new) result.status watch result.watch }
    ensures memory { result.status ≡ Status.NoMemory → (source.new ≡ source.old) × (sink.new ≡ sink.old)
        × (steps.new ≡ steps.old) }
{
    run_watched(alloc, bytes_within(limit), rule, watch, source, sink, steps)
}

/// Answers each line of an input within the limit by a rule, tells an observer, and puts a line of rejects for each
/// refused line.
pub(crate) fn run_rule<
    C: Worded + Drop,
    R: LineRule<L> + Rule<L, Cause = C> + ShowsLines,
    W: Observer<R, L> + Drop,
    S: Source,
    K: Sink,
    J: Sink + Drop,
    L: Ledger,
>(
    alloc: Global,
    limit: &Option<Limit>,
    rule: &R,
    watch: W,
    rejects: &mut Rejects<'_, J>,
    source: &mut S,
    sink: &mut K,
    steps: &mut Steps<L>,
) -> LinesEnd<W>
    ensures run { HasLineRun (R.Answers rule.now) (limit_of limit.now) (R.PER_BYTE + W.PER_BYTE) (R.EXTRA + W.EXTRA)
        (outside (S.left source.old) (S.asked source.old) (S.failures source.old)
        (K.written sink.old) (K.failures sink.old) steps.old)
        (outside (S.left source.new) (S.asked source.new) (S.failures source.new)
        (K.written sink.new) (K.failures sink.new) steps.new) result.status }
    ensures saw { ¬ (result.status ≡ Status.NoMemory) → HasLinesRun rule.now (R.Answers rule.now)
        (Returns (R.Notes rule.now) (R.refusal rule.now)) (W.Saw rule.now) (R.PER_BYTE + W.PER_BYTE)
        (R.EXTRA + W.EXTRA) (limit_of limit.now)
        (outside (S.left source.old) (S.asked source.old) (S.failures source.old)
        (K.written sink.old) (K.failures sink.old) steps.old)
        (outside (S.left source.new) (S.asked source.new) (S.failures source.new)
        (K.written sink.new) (K.failures sink.new) steps.new) result.status watch result.watch }
    ensures rejects { ¬ (result.status ≡ Status.NoMemory) → RejectsRun rule.now (R.Answers rule.now)
        (R.Notes rule.now) (R.refusal rule.now) (R.shown rule.now) C.message (R.PER_BYTE + W.PER_BYTE)
        (R.EXTRA + W.EXTRA) (limit_of limit.now) J.written J.failures
        (outside (S.left source.old) (S.asked source.old) (S.failures source.old)
        (K.written sink.old) (K.failures sink.old) steps.old)
        (outside (S.left source.new) (S.asked source.new) (S.failures source.new)
        (K.written sink.new) (K.failures sink.new) steps.new) result.status rejects.old rejects.new }
    ensures memory { result.status ≡ Status.NoMemory → (source.new ≡ source.old) × (sink.new ≡ sink.old)
        × (steps.new ≡ steps.old) }
{
    let both = Rejecting {
        watch,
        rejects: mem::replace(rejects, Rejects::none()),
    };
    let end = run_observed(alloc, limit, rule, both, source, sink, steps);
    let LinesEnd { status, watch } = end;
    let Rejecting {
        watch,
        rejects: told,
    } = watch;
    *rejects = told;
    LinesEnd { status, watch }
}

/// Answers a whole input within the limit by a rule. A refusal is written only if `writes_refusal`.
pub fn run_whole_rule<R: WholeRule<L>, S: Source, K: Sink, L: Ledger>(
    alloc: Global,
    limit: &Option<Limit>,
    rule: &R,
    writes_refusal: bool,
    source: &mut S,
    sink: &mut K,
    steps: &mut Steps<L>,
) -> TaskEnd
    ensures run { IsWholeRun (IsWritten writes_refusal (R.Answers rule.now)) (whole_limit_of limit.now)
        (outside (S.left source.old) (S.asked source.old) (S.failures source.old)
        (K.written sink.old) (K.failures sink.old) steps.old)
        (outside (S.left source.new) (S.asked source.new) (S.failures source.new)
        (K.written sink.new) (K.failures sink.new) steps.new) result.status }
    ensures reports { ReportsWhole (R.Answers rule.now)
        (outside (S.left source.old) (S.asked source.old) (S.failures source.old)
        (K.written sink.old) (K.failures sink.old) steps.old)
        (outside (S.left source.new) (S.asked source.new) (S.failures source.new)
        (K.written sink.new) (K.failures sink.new) steps.new) result }
    ensures memory { result.status ≡ Status.NoMemory → sink.new ≡ sink.old }
{
    let bytes = whole_within(limit);
    let end = answer_whole(alloc, bytes, rule, writes_refusal, source, sink, steps);
    TaskEnd::of(end.status, Refusals::of_whole(&end.refusal))
}

/// Returns the most bytes of an input that is read piece by piece: 2^62 without a limit.
pub fn bytes_within(limit: &Option<Limit>) -> u64
    ensures value { result ≡ limit_of limit.now }
    ensures some { 1 ≤ result }
    ensures most { result ≤ no_limit }
{
    match limit {
        Some(limit) => limit.bytes(),
        None => NO_LIMIT,
    }
}

/// Returns the most bytes of an input that is read whole: 4,294,967,296 without a limit.
pub fn whole_within(limit: &Option<Limit>) -> u64
    ensures value { result ≡ whole_limit_of limit.now }
    ensures most { result ≤ max_limit }
{
    match limit {
        Some(limit) => limit.bytes(),
        None => MAX_LIMIT,
    }
}

/// Answers each line of an input within the limit as `fixed_tool` does.
fn run_words<S: Source, K: Sink, J: Sink + Drop, L: Ledger>(
    alloc: Global,
    limit: &Option<Limit>,
    rejects: &mut Rejects<'_, J>,
    source: &mut S,
    sink: &mut K,
    steps: &mut Steps<L>,
) -> TaskEnd
    ensures run { HasLineRun IsAnswer (limit_of limit.now) 8 624
        (outside (S.left source.old) (S.asked source.old) (S.failures source.old)
        (K.written sink.old) (K.failures sink.old) steps.old)
        (outside (S.left source.new) (S.asked source.new) (S.failures source.new)
        (K.written sink.new) (K.failures sink.new) steps.new) result.status }
    ensures reports { ¬ (result.status ≡ Status.NoMemory) → ReportsRefused RespellRule IsAnswer
        (refusal_text fault_message) (refusal_message fault_message) 8 624 (limit_of limit.now)
        (outside (S.left source.old) (S.asked source.old) (S.failures source.old)
        (K.written sink.old) (K.failures sink.old) steps.old)
        (outside (S.left source.new) (S.asked source.new) (S.failures source.new)
        (K.written sink.new) (K.failures sink.new) steps.new) result }
    ensures rejects { ¬ (result.status ≡ Status.NoMemory) → RejectsNamed RespellRule IsAnswer
        (refusal_text fault_message) (refusal_message fault_message) 8 624 (limit_of limit.now) J.written J.failures
        (outside (S.left source.old) (S.asked source.old) (S.failures source.old)
        (K.written sink.old) (K.failures sink.old) steps.old)
        (outside (S.left source.new) (S.asked source.new) (S.failures source.new)
        (K.written sink.new) (K.failures sink.new) steps.new) result.status rejects.old rejects.new }
    ensures memory { result.status ≡ Status.NoMemory → sink.new ≡ sink.old }
{
    let end = run_rule(
        alloc,
        limit,
        &RespellRule,
        Refused::new(),
        rejects,
        source,
        sink,
        steps,
    );
    TaskEnd::of(end.status, reported(&end.watch))
}

/// Answers each line of an input, as people write them, as `fixed_tool` does.
fn run_laid_words<S: Source, K: Sink, J: Sink + Drop, L: Ledger>(
    alloc: Global,
    limit: &Option<Limit>,
    layout: &Layout,
    rejects: &mut Rejects<'_, J>,
    source: &mut S,
    sink: &mut K,
    steps: &mut Steps<L>,
) -> TaskEnd
    ensures run { HasLineRun (AnswersLaidOut layout.now IsAnswer) (limit_of limit.now) 8 624
        (outside (S.left source.old) (S.asked source.old) (S.failures source.old)
        (K.written sink.old) (K.failures sink.old) steps.old)
        (outside (S.left source.new) (S.asked source.new) (S.failures source.new)
        (K.written sink.new) (K.failures sink.new) steps.new) result.status }
    ensures reports { ¬ (result.status ≡ Status.NoMemory) → ReportsLaid RespellRule (λ line. line) layout.now
        IsAnswer (refusal_text fault_message) (refusal_message fault_message) 8 624 (limit_of limit.now)
        (outside (S.left source.old) (S.asked source.old) (S.failures source.old)
        (K.written sink.old) (K.failures sink.old) steps.old)
        (outside (S.left source.new) (S.asked source.new) (S.failures source.new)
        (K.written sink.new) (K.failures sink.new) steps.new) result }
    ensures rejects { ¬ (result.status ≡ Status.NoMemory) → RejectsLaid RespellRule layout.now IsAnswer
        (refusal_text fault_message) (refusal_message fault_message) 8 624 (limit_of limit.now) J.written J.failures
        (outside (S.left source.old) (S.asked source.old) (S.failures source.old)
        (K.written sink.old) (K.failures sink.old) steps.old)
        (outside (S.left source.new) (S.asked source.new) (S.failures source.new)
        (K.written sink.new) (K.failures sink.new) steps.new) result.status rejects.old rejects.new }
    ensures memory { result.status ≡ Status.NoMemory → sink.new ≡ sink.old }
{
    let laid = LaidOutLines {
        rule: RespellRule,
        layout: layout.same(),
    };
    let end = run_rule(
        alloc,
        limit,
        &laid,
        LaidRefusals::new(),
        rejects,
        source,
        sink,
        steps,
    );
    TaskEnd::of(end.status, reported(&end.watch.refusals))
}

/// Answers each line of an input with the enclosure of its numeral.
fn run_enclosures<S: Source, K: Sink, J: Sink + Drop, L: Ledger>(
    alloc: Global,
    limit: &Option<Limit>,
    rejects: &mut Rejects<'_, J>,
    source: &mut S,
    sink: &mut K,
    steps: &mut Steps<L>,
) -> TaskEnd
    ensures run { HasLineRun enclose.IsAnswer (limit_of limit.now) 16 1248
        (outside (S.left source.old) (S.asked source.old) (S.failures source.old)
        (K.written sink.old) (K.failures sink.old) steps.old)
        (outside (S.left source.new) (S.asked source.new) (S.failures source.new)
        (K.written sink.new) (K.failures sink.new) steps.new) result.status }
    ensures reports { ¬ (result.status ≡ Status.NoMemory) → ReportsRefused EncloseRule enclose.IsAnswer
        (refusal_text enclose.fault_message) (refusal_message enclose.fault_message) 16 1248 (limit_of limit.now)
        (outside (S.left source.old) (S.asked source.old) (S.failures source.old)
        (K.written sink.old) (K.failures sink.old) steps.old)
        (outside (S.left source.new) (S.asked source.new) (S.failures source.new)
        (K.written sink.new) (K.failures sink.new) steps.new) result }
    ensures rejects { ¬ (result.status ≡ Status.NoMemory) → RejectsNamed EncloseRule enclose.IsAnswer
        (refusal_text enclose.fault_message) (refusal_message enclose.fault_message) 16 1248 (limit_of limit.now)
        J.written J.failures
        (outside (S.left source.old) (S.asked source.old) (S.failures source.old)
        (K.written sink.old) (K.failures sink.old) steps.old)
        (outside (S.left source.new) (S.asked source.new) (S.failures source.new)
        (K.written sink.new) (K.failures sink.new) steps.new) result.status rejects.old rejects.new }
    ensures memory { result.status ≡ Status.NoMemory → sink.new ≡ sink.old }
{
    let end = run_rule(
        alloc,
        limit,
        &EncloseRule,
        Refused::new(),
        rejects,
        source,
        sink,
        steps,
    );
    TaskEnd::of(end.status, reported(&end.watch))
}

/// Answers each line of an input, as people write them, with the enclosure of its numeral.
fn run_laid_enclosures<S: Source, K: Sink, J: Sink + Drop, L: Ledger>(
    alloc: Global,
    limit: &Option<Limit>,
    layout: &Layout,
    rejects: &mut Rejects<'_, J>,
    source: &mut S,
    sink: &mut K,
    steps: &mut Steps<L>,
) -> TaskEnd
    ensures run { HasLineRun (AnswersLaidOut layout.now enclose.IsAnswer) (limit_of limit.now) 16 1248
        (outside (S.left source.old) (S.asked source.old) (S.failures source.old)
        (K.written sink.old) (K.failures sink.old) steps.old)
        (outside (S.left source.new) (S.asked source.new) (S.failures source.new)
        (K.written sink.new) (K.failures sink.new) steps.new) result.status }
    ensures reports { ¬ (result.status ≡ Status.NoMemory) → ReportsLaid EncloseRule (λ line. line) layout.now
        enclose.IsAnswer (refusal_text enclose.fault_message) (refusal_message enclose.fault_message) 16 1248
        (limit_of limit.now)
        (outside (S.left source.old) (S.asked source.old) (S.failures source.old)
        (K.written sink.old) (K.failures sink.old) steps.old)
        (outside (S.left source.new) (S.asked source.new) (S.failures source.new)
        (K.written sink.new) (K.failures sink.new) steps.new) result }
    ensures rejects { ¬ (result.status ≡ Status.NoMemory) → RejectsLaid EncloseRule layout.now enclose.IsAnswer
        (refusal_text enclose.fault_message) (refusal_message enclose.fault_message) 16 1248 (limit_of limit.now)
        J.written J.failures
        (outside (S.left source.old) (S.asked source.old) (S.failures source.old)
        (K.written sink.old) (K.failures sink.old) steps.old)
        (outside (S.left source.new) (S.asked source.new) (S.failures source.new)
        (K.written sink.new) (K.failures sink.new) steps.new) result.status rejects.old rejects.new }
    ensures memory { result.status ≡ Status.NoMemory → sink.new ≡ sink.old }
{
    let laid = LaidOutLines {
        rule: EncloseRule,
        layout: layout.same(),
    };
    let end = run_rule(
        alloc,
        limit,
        &laid,
        LaidRefusals::new(),
        rejects,
        source,
        sink,
        steps,
    );
    TaskEnd::of(end.status, reported(&end.watch.refusals))
}

/// Answers each line of an input in a form, as a question requests.
fn run_questions<S: Source, K: Sink, L: Ledger>(
    alloc: Global,
    limit: &Option<Limit>,
    form: Form,
    question: Question,
    source: &mut S,
    sink: &mut K,
    steps: &mut Steps<L>,
) -> TaskEnd
    ensures run { HasLineRun (IsLineBlock form question) (limit_of limit.now) 26 3307
        (outside (S.left source.old) (S.asked source.old) (S.failures source.old)
        (K.written sink.old) (K.failures sink.old) steps.old)
        (outside (S.left source.new) (S.asked source.new) (S.failures source.new)
        (K.written sink.new) (K.failures sink.new) steps.new) result.status }
    ensures reports { ¬ (result.status ≡ Status.NoMemory) → ReportsReturned (block_rule form question)
        (IsLineBlock form question) (line_refusal form) 26 3307 (limit_of limit.now)
        (outside (S.left source.old) (S.asked source.old) (S.failures source.old)
        (K.written sink.old) (K.failures sink.old) steps.old)
        (outside (S.left source.new) (S.asked source.new) (S.failures source.new)
        (K.written sink.new) (K.failures sink.new) steps.new) result }
    ensures memory { result.status ≡ Status.NoMemory → sink.new ≡ sink.old }
{
    let rule = BlockRule { form, question };
    let end = run_observed(
        alloc,
        limit,
        &rule,
        RefusedLines::new(),
        source,
        sink,
        steps,
    );
    TaskEnd::of(end.status, reported(&end.watch.refusals))
}

/// Answers each line of an input, as people write them, in a form, as a question requests.
fn run_laid_questions<S: Source, K: Sink, L: Ledger>(
    alloc: Global,
    limit: &Option<Limit>,
    rule: BlockRule,
    layout: &Layout,
    source: &mut S,
    sink: &mut K,
    steps: &mut Steps<L>,
) -> TaskEnd
    ensures run { HasLineRun (AnswersLaidOut layout.now (IsLineBlock rule.form rule.question)) (limit_of limit.now) 26
        3307
        (outside (S.left source.old) (S.asked source.old) (S.failures source.old)
        (K.written sink.old) (K.failures sink.old) steps.old)
        (outside (S.left source.new) (S.asked source.new) (S.failures source.new)
        (K.written sink.new) (K.failures sink.new) steps.new) result.status }
    ensures reports { ¬ (result.status ≡ Status.NoMemory) → ReportsLaid BlockRule without_return layout.now
        (IsLineBlock rule.form rule.question) (line_refusal rule.form) message_of 26 3307 (limit_of limit.now)
        (outside (S.left source.old) (S.asked source.old) (S.failures source.old)
        (K.written sink.old) (K.failures sink.old) steps.old)
        (outside (S.left source.new) (S.asked source.new) (S.failures source.new)
        (K.written sink.new) (K.failures sink.new) steps.new) result }
    ensures memory { result.status ≡ Status.NoMemory → sink.new ≡ sink.old }
{
    let laid = LaidOutLines {
        rule,
        layout: layout.same(),
    };
    let end = run_observed(
        alloc,
        limit,
        &laid,
        LaidRefusals::new(),
        source,
        sink,
        steps,
    );
    TaskEnd::of(end.status, reported(&end.watch.refusals))
}

/// Answers each line of an input with the conversion of its numeral. It allocates one line buffer before the first
/// read.
pub fn run_convert<S: Source, K: Sink, J: Sink + Drop, L: Ledger>(
    alloc: Global,
    limit: &Option<Limit>,
    rule: &ConvertRule,
    rejects: &mut Rejects<'_, J>,
    source: &mut S,
    sink: &mut K,
    steps: &mut Steps<L>,
) -> TaskEnd
    ensures run { HasLineRun (IsLineReply rule.now) (limit_of limit.now) 8 624
        (outside (S.left source.old) (S.asked source.old) (S.failures source.old)
        (K.written sink.old) (K.failures sink.old) steps.old)
        (outside (S.left source.new) (S.asked source.new) (S.failures source.new)
        (K.written sink.new) (K.failures sink.new) steps.new) result.status }
    ensures reports { ¬ (result.status ≡ Status.NoMemory) → ReportsReturned rule.now (IsLineReply rule.now)
        message_text 8 624 (limit_of limit.now)
        (outside (S.left source.old) (S.asked source.old) (S.failures source.old)
        (K.written sink.old) (K.failures sink.old) steps.old)
        (outside (S.left source.new) (S.asked source.new) (S.failures source.new)
        (K.written sink.new) (K.failures sink.new) steps.new) result }
    ensures rejects { ¬ (result.status ≡ Status.NoMemory) → RejectsRun rule.now (IsLineReply rule.now) NoNote
        message_text without_return message_of 8 624 (limit_of limit.now) J.written J.failures
        (outside (S.left source.old) (S.asked source.old) (S.failures source.old)
        (K.written sink.old) (K.failures sink.old) steps.old)
        (outside (S.left source.new) (S.asked source.new) (S.failures source.new)
        (K.written sink.new) (K.failures sink.new) steps.new) result.status rejects.old rejects.new }
    ensures memory { result.status ≡ Status.NoMemory → (source.new ≡ source.old) × (sink.new ≡ sink.old)
        × (steps.new ≡ steps.old) }
{
    let end = run_rule(
        alloc,
        limit,
        rule,
        RefusedLines::new(),
        rejects,
        source,
        sink,
        steps,
    );
    TaskEnd::of(end.status, reported(&end.watch.refusals))
}

/// Answers each line of an input, as people write them, with the conversion of its numeral.
fn run_laid_out<S: Source, K: Sink, J: Sink + Drop, L: Ledger>(
    alloc: Global,
    limit: &Option<Limit>,
    laid: &LaidOutRule,
    rejects: &mut Rejects<'_, J>,
    source: &mut S,
    sink: &mut K,
    steps: &mut Steps<L>,
) -> TaskEnd
    ensures run { HasLineRun (IsLaidOut laid.now.layout (IsReply laid.now.rule)) (limit_of limit.now) 8 624
        (outside (S.left source.old) (S.asked source.old) (S.failures source.old)
        (K.written sink.old) (K.failures sink.old) steps.old)
        (outside (S.left source.new) (S.asked source.new) (S.failures source.new)
        (K.written sink.new) (K.failures sink.new) steps.new) result.status }
    ensures reports { ¬ (result.status ≡ Status.NoMemory) → ReportsReturned laid.now
        (IsLaidOut laid.now.layout (IsReply laid.now.rule)) message_text 8 624 (limit_of limit.now)
        (outside (S.left source.old) (S.asked source.old) (S.failures source.old)
        (K.written sink.old) (K.failures sink.old) steps.old)
        (outside (S.left source.new) (S.asked source.new) (S.failures source.new)
        (K.written sink.new) (K.failures sink.new) steps.new) result }
    ensures rejects { ¬ (result.status ≡ Status.NoMemory) → RejectsRun laid.now
        (IsLaidOut laid.now.layout (IsReply laid.now.rule)) NoNote message_text without_return message_of 8 624
        (limit_of limit.now) J.written J.failures
        (outside (S.left source.old) (S.asked source.old) (S.failures source.old)
        (K.written sink.old) (K.failures sink.old) steps.old)
        (outside (S.left source.new) (S.asked source.new) (S.failures source.new)
        (K.written sink.new) (K.failures sink.new) steps.new) result.status rejects.old rejects.new }
    ensures memory { result.status ≡ Status.NoMemory → sink.new ≡ sink.old }
{
    let end = run_rule(
        alloc,
        limit,
        laid,
        RefusedLines::new(),
        rejects,
        source,
        sink,
        steps,
    );
    TaskEnd::of(end.status, reported(&end.watch.refusals))
}

/// Answers each line of an input with the error of its numeral.
fn run_errors<S: Source, K: Sink, J: Sink + Drop, L: Ledger>(
    alloc: Global,
    limit: &Option<Limit>,
    lines: &ErrorLines,
    rejects: &mut Rejects<'_, J>,
    source: &mut S,
    sink: &mut K,
    steps: &mut Steps<L>,
) -> TaskEnd
    ensures run { HasLineRun (IsErrorLine lines.now) (limit_of limit.now) 11 1565
        (outside (S.left source.old) (S.asked source.old) (S.failures source.old)
        (K.written sink.old) (K.failures sink.old) steps.old)
        (outside (S.left source.new) (S.asked source.new) (S.failures source.new)
        (K.written sink.new) (K.failures sink.new) steps.new) result.status }
    ensures reports { ¬ (result.status ≡ Status.NoMemory) → ReportsReturned lines.now (IsErrorLine lines.now)
        message_text 11 1565 (limit_of limit.now)
        (outside (S.left source.old) (S.asked source.old) (S.failures source.old)
        (K.written sink.old) (K.failures sink.old) steps.old)
        (outside (S.left source.new) (S.asked source.new) (S.failures source.new)
        (K.written sink.new) (K.failures sink.new) steps.new) result }
    ensures rejects { ¬ (result.status ≡ Status.NoMemory) → RejectsRun lines.now (IsErrorLine lines.now) NoNote
        message_text without_return message_of 11 1565 (limit_of limit.now) J.written J.failures
        (outside (S.left source.old) (S.asked source.old) (S.failures source.old)
        (K.written sink.old) (K.failures sink.old) steps.old)
        (outside (S.left source.new) (S.asked source.new) (S.failures source.new)
        (K.written sink.new) (K.failures sink.new) steps.new) result.status rejects.old rejects.new }
    ensures memory { result.status ≡ Status.NoMemory → sink.new ≡ sink.old }
{
    let end = run_rule(
        alloc,
        limit,
        lines,
        RefusedLines::new(),
        rejects,
        source,
        sink,
        steps,
    );
    TaskEnd::of(end.status, reported(&end.watch.refusals))
}

/// Answers each line of an input, as people write them, with the conversion of its numeral, and reports the outcomes
/// and the greatest error.
fn run_reported<S: Source, K: Sink, J: Sink + Drop, L: Ledger>(
    alloc: Global,
    limit: &Option<Limit>,
    counted: &CountedRule,
    rejects: &mut Rejects<'_, J>,
    source: &mut S,
    sink: &mut K,
    steps: &mut Steps<L>,
) -> TaskEnd
    ensures run { HasLineRun (IsLaidOut counted.now.laid.layout (IsReply counted.now.laid.rule))
        (limit_of limit.now) reported_per_byte reported_extra
        (outside (S.left source.old) (S.asked source.old) (S.failures source.old)
        (K.written sink.old) (K.failures sink.old) steps.old)
        (outside (S.left source.new) (S.asked source.new) (S.failures source.new)
        (K.written sink.new) (K.failures sink.new) steps.new) result.status }
    ensures reports { ¬ (result.status ≡ Status.NoMemory) → ReportsCounted counted.now (limit_of limit.now)
        (outside (S.left source.old) (S.asked source.old) (S.failures source.old)
        (K.written sink.old) (K.failures sink.old) steps.old)
        (outside (S.left source.new) (S.asked source.new) (S.failures source.new)
        (K.written sink.new) (K.failures sink.new) steps.new) result }
    ensures rejects { ¬ (result.status ≡ Status.NoMemory) → RejectsRun counted.now
        (IsLaidOut counted.now.laid.layout (IsReply counted.now.laid.rule)) (IsLineOutcome counted.now.laid)
        message_text without_return message_of reported_per_byte reported_extra (limit_of limit.now) J.written
        J.failures
        (outside (S.left source.old) (S.asked source.old) (S.failures source.old)
        (K.written sink.old) (K.failures sink.old) steps.old)
        (outside (S.left source.new) (S.asked source.new) (S.failures source.new)
        (K.written sink.new) (K.failures sink.new) steps.new) result.status rejects.old rejects.new }
    ensures memory { result.status ≡ Status.NoMemory → sink.new ≡ sink.old }
{
    let report = LineReport::new(alloc, &counted.laid);
    let end = run_rule(alloc, limit, counted, report, rejects, source, sink, steps);
    let LinesEnd { status, watch } = end;
    TaskEnd {
        status,
        refusals: reported(&watch.refusals),
        tally: watch.tally,
        errors: Some(watch.errors),
    }
}

/// Answers a constants file within the limit, with any blanks and comments, with its text in a form. Writes nothing for
/// a file with a fault.
fn run_constants<S: Source, K: Sink, L: Ledger>(
    alloc: Global,
    limit: &Option<Limit>,
    rule: &FormRule<'_>,
    source: &mut S,
    sink: &mut K,
    steps: &mut Steps<L>,
) -> TaskEnd
    ensures run { IsWholeRun (IsProduct (IsPlainAnswer (IsRenamedAnswer
        (IsFormAnswer rule.now.form rule.now.guard.now)))) (whole_limit_of limit.now)
        (outside (S.left source.old) (S.asked source.old) (S.failures source.old)
        (K.written sink.old) (K.failures sink.old) steps.old)
        (outside (S.left source.new) (S.asked source.new) (S.failures source.new)
        (K.written sink.new) (K.failures sink.new) steps.new) result.status }
    ensures reports { ReportsWhole (IsPlainAnswer (IsRenamedAnswer (IsFormAnswer rule.now.form rule.now.guard.now)))
        (outside (S.left source.old) (S.asked source.old) (S.failures source.old)
        (K.written sink.old) (K.failures sink.old) steps.old)
        (outside (S.left source.new) (S.asked source.new) (S.failures source.new)
        (K.written sink.new) (K.failures sink.new) steps.new) result }
    ensures memory { result.status ≡ Status.NoMemory → sink.new ≡ sink.old }
{
    let renamed = RenamedRule { rule };
    let rule = PlainRule { rule: &renamed };
    run_whole_rule(alloc, limit, &rule, false, source, sink, steps)
}

/// Answers a whole input within the limit with the least format of its numerals.
fn run_least<S: Source, K: Sink, L: Ledger>(
    alloc: Global,
    limit: &Option<Limit>,
    rule: &LeastLines,
    source: &mut S,
    sink: &mut K,
    steps: &mut Steps<L>,
) -> TaskEnd
    ensures run { IsWholeRun (IsLeastWritten rule.now) (whole_limit_of limit.now)
        (outside (S.left source.old) (S.asked source.old) (S.failures source.old)
        (K.written sink.old) (K.failures sink.old) steps.old)
        (outside (S.left source.new) (S.asked source.new) (S.failures source.new)
        (K.written sink.new) (K.failures sink.new) steps.new) result.status }
    ensures reports { ReportsWhole (IsLeastWritten rule.now)
        (outside (S.left source.old) (S.asked source.old) (S.failures source.old)
        (K.written sink.old) (K.failures sink.old) steps.old)
        (outside (S.left source.new) (S.asked source.new) (S.failures source.new)
        (K.written sink.new) (K.failures sink.new) steps.new) result }
    ensures memory { result.status ≡ Status.NoMemory → sink.new ≡ sink.old }
{
    run_whole_rule(alloc, limit, rule, true, source, sink, steps)
}

/// Answers a whole input within the limit, a list as people write it, with the least format of its numerals.
fn run_laid_least<S: Source, K: Sink, L: Ledger>(
    alloc: Global,
    limit: &Option<Limit>,
    least: &LeastLines,
    layout: &Layout,
    source: &mut S,
    sink: &mut K,
    steps: &mut Steps<L>,
) -> TaskEnd
    ensures run { IsWholeRun (λ input. IsLeastWritten least.now (laid_out (Some layout.now) input))
        (whole_limit_of limit.now)
        (outside (S.left source.old) (S.asked source.old) (S.failures source.old)
        (K.written sink.old) (K.failures sink.old) steps.old)
        (outside (S.left source.new) (S.asked source.new) (S.failures source.new)
        (K.written sink.new) (K.failures sink.new) steps.new) result.status }
    ensures reports { ReportsWhole (λ input. IsLeastWritten least.now (laid_out (Some layout.now) input))
        (outside (S.left source.old) (S.asked source.old) (S.failures source.old)
        (K.written sink.old) (K.failures sink.old) steps.old)
        (outside (S.left source.new) (S.asked source.new) (S.failures source.new)
        (K.written sink.new) (K.failures sink.new) steps.new) result }
    ensures memory { result.status ≡ Status.NoMemory → sink.new ≡ sink.old }
{
    let rule = LaidOutList {
        rule: least,
        layout,
    };
    run_whole_rule(alloc, limit, &rule, true, source, sink, steps)
}

/// Answers lines of cells with the column of them in order, in an input within the limit.
fn run_cells<S: Source, K: Sink, L: Ledger>(
    alloc: Global,
    limit: &Option<Limit>,
    source: &mut S,
    sink: &mut K,
    steps: &mut Steps<L>,
) -> TaskEnd
    ensures run { IsWholeRun columns.IsWholeAnswer (whole_limit_of limit.now)
        (outside (S.left source.old) (S.asked source.old) (S.failures source.old)
        (K.written sink.old) (K.failures sink.old) steps.old)
        (outside (S.left source.new) (S.asked source.new) (S.failures source.new)
        (K.written sink.new) (K.failures sink.new) steps.new) result.status }
    ensures reports { ReportsWhole columns.IsWholeAnswer
        (outside (S.left source.old) (S.asked source.old) (S.failures source.old)
        (K.written sink.old) (K.failures sink.old) steps.old)
        (outside (S.left source.new) (S.asked source.new) (S.failures source.new)
        (K.written sink.new) (K.failures sink.new) steps.new) result }
    ensures memory { result.status ≡ Status.NoMemory → sink.new ≡ sink.old }
{
    run_whole_rule(alloc, limit, &ColumnsRule, true, source, sink, steps)
}

/// Does a task with an input within the limit. Returns how that ended and what it reports.
///
/// Without a limit an input has at most 2^62 bytes, and one that is read whole at most 4,294,967,296.
pub fn run_task<S: Source, K: Sink, J: Sink + Drop, L: Ledger>(
    alloc: Global,
    limit: &Option<Limit>,
    task: &Task<'_>,
    rejects: &mut Rejects<'_, J>,
    source: &mut S,
    sink: &mut K,
    steps: &mut Steps<L>,
) -> TaskEnd
    ensures run { TaskRuns limit.now task.now
        (outside (S.left source.old) (S.asked source.old) (S.failures source.old)
        (K.written sink.old) (K.failures sink.old) steps.old)
        (outside (S.left source.new) (S.asked source.new) (S.failures source.new)
        (K.written sink.new) (K.failures sink.new) steps.new) result.status }

    // Which refused lines, outcomes and errors of the lines of the input it reports.
    ensures reports { ¬ (result.status ≡ Status.NoMemory) → TaskReports limit.now task.now
        (outside (S.left source.old) (S.asked source.old) (S.failures source.old)
        (K.written sink.old) (K.failures sink.old) steps.old)
        (outside (S.left source.new) (S.asked source.new) (S.failures source.new)
        (K.written sink.new) (K.failures sink.new) steps.new) result }

    // Which lines of rejects it puts.
    ensures rejects { ¬ (result.status ≡ Status.NoMemory) → TaskRejects J.written J.failures limit.now task.now
        (outside (S.left source.old) (S.asked source.old) (S.failures source.old)
        (K.written sink.old) (K.failures sink.old) steps.old)
        (outside (S.left source.new) (S.asked source.new) (S.failures source.new)
        (K.written sink.new) (K.failures sink.new) steps.new) result.status rejects.old rejects.new }
    ensures memory { result.status ≡ Status.NoMemory → sink.new ≡ sink.old }
{
    match task {
        Task::Lines => run_words(alloc, limit, rejects, source, sink, steps),
        Task::LaidOutLines(layout) => run_laid_words(
            alloc, limit, layout, rejects, source, sink, steps,
        ),
        Task::Convert(rule) => run_convert(alloc, limit, rule, rejects, source, sink, steps),
        Task::LaidOut(laid) => run_laid_out(alloc, limit, laid, rejects, source, sink, steps),
        Task::Reported(counted) => run_reported(
            alloc, limit, counted, rejects, source, sink, steps,
        ),
        Task::Errors(lines) => run_errors(alloc, limit, lines, rejects, source, sink, steps),
        Task::Enclose => run_enclosures(alloc, limit, rejects, source, sink, steps),
        Task::LaidOutEnclose(layout) => {
            run_laid_enclosures(alloc, limit, layout, rejects, source, sink, steps)
        }
        Task::Ask(form, question) => {
            run_questions(alloc, limit, *form, *question, source, sink, steps)
        }
        Task::LaidOutAsk(form, question, layout) => {
            let rule = BlockRule {
                form: *form,
                question: *question,
            };
            run_laid_questions(alloc, limit, rule, layout, source, sink, steps)
        }
        Task::Least(rule) => run_least(alloc, limit, rule, source, sink, steps),
        Task::LaidOutLeast(rule, layout) => {
            run_laid_least(alloc, limit, rule, layout, source, sink, steps)
        }
        Task::Constants(rule) => run_constants(alloc, limit, rule, source, sink, steps),
        Task::Columns => run_cells(alloc, limit, source, sink, steps),
    }
}

/// Returns the one of two statuses with the greater code.
pub fn greater_end(one: Status, other: Status) -> Status
    ensures code { code_of result ≡ max (code_of one) (code_of other) }
{
    if one.code() < other.code() {
        other
    } else {
        one
    }
}
