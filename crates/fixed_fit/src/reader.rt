//! The machine of a list: it keeps what is known of the lines so far and writes the answer at the end of the input.

ghost use Rattle.std.specs.Prelude.{◌≡◌, ◌<◌, ◌++◌, ◌∷◌, [], List, ℕ, Bool, true, OnOk, IfOk, IfSome, MatchOption};
ghost use Rattle.std.specs.Prelude.{Option, get_or, length, map, take};
ghost use Rattle.line_engine.specs.Lines.{lines};
ghost use Rattle.run_engine.specs.Pieces.{HasNone, is_newline};
ghost use Rattle.fixed_bits.specs.Ranges.{IsWidth};
ghost use Rattle.fixed_numeral.specs.Numeral.{IsNumeral};
ghost use Rattle.fixed_command.specs.LaidList.{laid};
ghost use Rattle.fixed_command.specs.Layout.{LineLayout};
ghost use Rattle.fixed_error.specs.Short.{IsShortRead};
ghost use Rattle.fixed_fit.specs.Inner.Lengths.{IsFlatRead};
ghost use Rattle.fixed_fit.specs.Inner.Serving.{AreServed, Asked, asked_of, bounded, unbounded};
ghost use Rattle.fixed_fit.specs.Run.{IsAnswerTo, asked_by};
ghost use Rattle.fixed_fit.specs.Unfit.{said};
ghost use Rattle.fixed_fit.specs.Within.{most_width};
ghost use Rattle.fixed_fit.specs.declared.question.Widths.{Widths};
ghost use Rattle.fixed_fit.specs.Inner.Reading.{AreKept, HasLines, HasRead, HasSomeRead};

use crate::answer::{Answer, Unfit, answer_of, put_answer, why};
use crate::bounded::bounded_answer;
use crate::progress::Progress;
use crate::question::{Fractions, Question, Widths};
use crate::serving::{Within, most_width};
use crate::short::{FlatDecimal, flat_decimal};
use fixed_command::Layout;
use fixed_error::{GreatestErrors, read_short};
use fixed_numeral::{Radix, ShortNumeral};
use fixed_steps::Steps;
use line_engine::NoMemory;
use run_engine::{Gathered, Halt, Pieces, Streams, find_newline};
use std::alloc::{AllocError, Global};
use std::convert::Infallible;
use std::sync::ledger::Ledger;

/// The most lines counted: an input of less than 2^62 bytes has fewer.
const MOST_LINES: u64 = 4_611_686_018_427_387_904;

/// What is kept of the bytes so far.
#[derive(Drop)]
pub struct Reader {
    /// The unfinished line.
    pub line: Vec<u8>,
    /// What is kept of the lines before the unfinished one.
    pub progress: Progress,
    /// The greatest errors of those lines at the fraction lengths left, if each line is a numeral.
    pub errors: GreatestErrors,
    /// The formats that those lines fit within a bound, if each line is a numeral.
    pub within: Within,
    /// What a line has besides its numeral, if anything.
    pub layout: Option<Layout>,
}

/// Returns the numeral of a line, which is the line without a layout. A skipped line counts as `0`.
#[inline(always)]
fn numeral_of<'l>(layout: &Option<Layout>, line: &'l [u8]) -> &'l [u8]
    ensures { result.now ≡ laid layout.now line.now }
{
    match layout {
        Some(layout) => layout.numeral_in_list(line),
        None => line,
    }
}

/// Returns the same layout.
fn same_layout(layout: &Option<Layout>) -> Option<Layout>
    ensures { result ≡ layout.now }
{
    match layout {
        Some(layout) => Some(layout.same()),
        None => None,
    }
}

/// Returns a numeral that was read as a short decimal, if it has no exponent.
#[inline(always)]
fn flat_of(short: Option<ShortNumeral>) -> Option<FlatDecimal>
    requires { (r : Radix) × (line : List ℕ) × IfSome short (IsShortRead r line) }
    ensures { (r : Radix) (line : List ℕ) → IfSome short (IsShortRead r line) → IfSome result (IsFlatRead r line) }
{
    match short {
        Some(found) => flat_decimal(found),
        None => None,
    }
}

/// Takes one more line.
fn add_line<L: Ledger>(
    progress: &mut Progress,
    errors: &mut GreatestErrors,
    within: &mut Within,
    line: &[u8],
    steps: &mut Steps<L>,
) -> Result<(), NoMemory>
    requires { (r : Radix) × (a : Asked) × (done : List (List ℕ))
        × AreKept r a done progress.old errors.old within.old }
    ensures { OnOk result ((r : Radix) (a : Asked) (done : List (List ℕ))
        → AreKept r a done progress.old errors.old within.old
        → AreKept r a (done ++ line.now ∷ []) progress.new errors.new within.new) }
{
    if progress.lines >= MOST_LINES {
        return Err(NoMemory);
    }
    let short = read_short(line, progress.radix, steps);
    let flat = flat_of(short);
    progress.push(line, flat, steps);
    if progress.fault.is_some() {
        return Ok(());
    }
    errors.shorten(progress.count());
    match errors.add_read(line, progress.lines, short, steps) {
        Ok(()) => {
            within.add(line, progress.radix, progress.lines, flat, steps);
            Ok(())
        }
        Err(_) => Err(NoMemory),
    }
}

/// Appends bytes to a line.
fn extend(line: &mut Vec<u8>, part: &[u8]) -> Result<(), NoMemory>
    ensures { OnOk result (line.new.items ≡ line.old.items ++ part.now) }
{
    match line.extend_from_slice(part) {
        Ok(()) => Ok(()),
        Err(_) => Err(NoMemory),
    }
}

impl Reader {
    /// Ends the line with this part and begins a new one. A line that is whole in the part is not copied.
    fn end_line<L: Ledger>(&mut self, part: &[u8], steps: &mut Steps<L>) -> Result<(), NoMemory>
        requires { HasSomeRead self.old }
        ensures line { OnOk result (self.new.line.items ≡ []) }
        ensures layout { OnOk result (self.new.layout ≡ self.old.layout) }
        ensures ended { OnOk result ((r : Radix) (a : Asked) (done : List (List ℕ)) → HasLines r a done self.old
            → HasLines r a (done ++ laid self.old.layout (self.old.line.items ++ part.now) ∷ []) self.new) }
    {
        if !self.line.is_empty() {
            return self.end_long_line(part, steps);
        }
        match add_line(
            &mut self.progress,
            &mut self.errors,
            &mut self.within,
            numeral_of(&self.layout, part),
            steps,
        ) {
            Ok(()) => Ok(()),
            Err(error) => Err(error),
        }
    }

    /// Ends the line that began before this part and begins a new one.
    #[cold]
    fn end_long_line<L: Ledger>(
        &mut self,
        part: &[u8],
        steps: &mut Steps<L>,
    ) -> Result<(), NoMemory>
        requires { HasSomeRead self.old }
        ensures line { OnOk result (self.new.line.items ≡ []) }
        ensures layout { OnOk result (self.new.layout ≡ self.old.layout) }
        ensures ended { OnOk result ((r : Radix) (a : Asked) (done : List (List ℕ)) → HasLines r a done self.old
            → HasLines r a (done ++ laid self.old.layout (self.old.line.items ++ part.now) ∷ []) self.new) }
    {
        extend(&mut self.line, part)?;
        match add_line(
            &mut self.progress,
            &mut self.errors,
            &mut self.within,
            numeral_of(&self.layout, &self.line),
            steps,
        ) {
            Ok(()) => {
                self.line.clear();
                Ok(())
            }
            Err(error) => Err(error),
        }
    }

    /// Ends the last line, unless the input ended with a newline.
    fn finish<L: Ledger>(&mut self, steps: &mut Steps<L>) -> Result<(), NoMemory>
        requires { HasSomeRead self.old }
        ensures { OnOk result ((r : Radix) (a : Asked) (l : Option LineLayout) (whole : List ℕ)
            → HasRead r a l whole self.old → HasLines r a (map (laid l) (lines whole)) self.new) }
    {
        if self.line.is_empty() {
            return Ok(());
        }
        match self.end_line(&[], steps) {
            Ok(()) => Ok(()),
            Err(error) => Err(error),
        }
    }
}

/// Returns the reader before the first byte, with these formats within a bound.
fn new_reader(
    alloc: Global,
    radix: Radix,
    width: u32,
    fractions: Fractions,
    within: Within,
    layout: &Option<Layout>,
) -> Result<Reader, AllocError>
    requires { IsWidth width }
    ensures { IfOk result (λ reader. (is range : Bool) (bound : List ℕ) (widths : Widths) (one : ℕ)
        → within.is_bounded ≡ is → (is ≡ true → AreServed radix (asked_of width fractions is range bound widths one) []
        within) → HasRead radix (asked_of width fractions is range bound widths one) layout.now [] reader) }
{
    let progress = Progress::new(radix, width, fractions);
    let errors = GreatestErrors::new(alloc, radix, progress.count())?;
    Ok(Reader {
        line: Vec::new(alloc),
        progress,
        errors,
        within,
        layout: same_layout(layout),
    })
}

/// Returns the reader before the first byte, without a bound.
fn plain_reader(
    alloc: Global,
    radix: Radix,
    width: u32,
    fractions: Fractions,
    layout: &Option<Layout>,
) -> Result<Reader, AllocError>
    requires { IsWidth width }
    ensures { IfOk result (HasRead radix (unbounded width fractions) layout.now []) }
{
    match new_reader(alloc, radix, width, fractions, Within::none(alloc), layout) {
        Ok(reader) => Ok(reader),
        Err(error) => Err(error),
    }
}

/// Returns the reader before the first byte, with a bound.
fn bounded_reader<L: Ledger>(
    alloc: Global,
    question: &Question,
    bound: &[u8],
    widths: Widths,
    layout: &Option<Layout>,
    steps: &mut Steps<L>,
) -> Result<Reader, AllocError>
    requires bound { IsNumeral question.now.radix bound.now }
    ensures { IfOk result (HasRead question.now.radix (bounded question.now.is_range
        (most_width widths question.now.kind.width) question.now.fractions bound.now widths
        question.now.kind.width) layout.now []) }
{
    let one = question.kind.width();
    let within = Within::new(alloc, question, bound, widths, steps)?;
    let most = most_width(widths, one);
    match new_reader(
        alloc,
        question.radix,
        most,
        question.fractions,
        within,
        layout,
    ) {
        Ok(reader) => Ok(reader),
        Err(error) => Err(error),
    }
}

/// Returns the reader before the first byte, for a question.
fn asked_reader<L: Ledger>(
    alloc: Global,
    question: &Question,
    widths: Option<Widths>,
    bound: &[u8],
    layout: &Option<Layout>,
    steps: &mut Steps<L>,
) -> Result<Reader, AllocError>
    requires { IfSome widths (λ w. IsNumeral question.now.radix bound.now) }
    ensures { IfOk result (HasRead question.now.radix (asked_by question.now widths bound.now) layout.now []) }
{
    match widths {
        None => {
            let width = question.kind.width();
            plain_reader(alloc, question.radix, width, question.fractions, layout)
        }
        Some(some) => bounded_reader(alloc, question, bound, some, layout, steps),
    }
}

/// A list that is read, and the question about it.
#[derive(Drop)]
pub struct FitList {
    /// The question.
    pub question: Question,
    /// The widths to try, if a format within an error is requested.
    pub widths: Option<Widths>,
    /// The greatest error allowed: the magnitude of a numeral.
    pub bound: Vec<u8>,
    /// What is kept of the bytes so far.
    pub reader: Reader,
    /// The reason why no format is named, once the list has ended.
    pub unfit: Option<Unfit>,
}

impl FitList {
    /// Returns the list before the first byte.
    pub fn new<L: Ledger>(
        alloc: Global,
        question: &Question,
        widths: Option<Widths>,
        bound: &[u8],
        layout: &Option<Layout>,
        steps: &mut Steps<L>,
    ) -> Result<FitList, AllocError>
        requires { IfSome widths (λ w. IsNumeral question.now.radix bound.now) }
        ensures question { IfOk result (λ list. list.question ≡ question.now) }
        ensures widths { IfOk result (λ list. list.widths ≡ widths) }
        ensures bound { IfOk result (λ list. list.bound.items ≡ bound.now) }
        ensures read { IfOk result (λ list. HasRead question.now.radix (asked_by question.now widths bound.now)
            layout.now [] list.reader) }
    {
        let mut text = Vec::new(alloc);
        text.extend_from_slice(bound)?;
        let reader = asked_reader(alloc, question, widths, bound, layout, steps)?;
        Ok(FitList {
            question: *question,
            widths,
            bound: text,
            reader,
            unfit: None,
        })
    }

    /// Returns the answer from what is known of the lines.
    fn answer<L: Ledger>(&self, steps: &mut Steps<L>) -> Answer
        requires { (list : List (List ℕ)) × HasLines self.now.question.radix
            (asked_by self.now.question self.now.widths self.now.bound.items) list self.now.reader }
        ensures { (input : List ℕ) → HasLines self.now.question.radix
            (asked_by self.now.question self.now.widths self.now.bound.items) (lines input) self.now.reader
            → IsAnswerTo self.now.question self.now.widths self.now.bound.items input (said result) }
    {
        match self.widths {
            None => answer_of(&self.reader, &self.question, steps),
            Some(widths) => bounded_answer(&self.reader, &self.question, widths, steps),
        }
    }
}

impl<L: Ledger> Pieces<L> for FitList {
    ghost use Rattle.run_engine.specs.Pieces.{is_newline};
    ghost use Rattle.fixed_fit.specs.Run.{MakesBy};
    ghost use Rattle.fixed_fit.specs.Lemmas.MadeLaws.{made_one};

    type Stop = Infallible;

    ghost Makes = { MakesBy };

    ghost ends = { is_newline };

    #[inline(always)]
    fn find(bytes: &[u8]) -> Option<usize>
        ensures { MatchOption result (HasNone is_newline bytes.now)
            (λ end. (end < length bytes.now) × HasNone is_newline (take end bytes.now)
            × (is_newline (get_or bytes.now end 0) ≡ true)) }
    {
        find_newline(bytes)
    }

    #[inline(always)]
    fn end_piece<I: Streams>(
        &mut self,
        part: &[u8],
        _byte: u8,
        _out: &mut Gathered<I>,
        steps: &mut Steps<L>,
    ) -> Result<(), Halt<Infallible>> {
        match self.reader.end_line(part, steps) {
            Err(_) => Err(Halt::NoMemory),
            Ok(()) => Ok(()),
        }
    }

    fn keep<I: Streams>(
        &mut self,
        part: &[u8],
        _out: &mut Gathered<I>,
        _steps: &mut Steps<L>,
    ) -> Result<(), Halt<Infallible>> {
        match extend(&mut self.reader.line, part) {
            Err(_) => Err(Halt::NoMemory),
            Ok(()) => Ok(()),
        }
    }

    fn finish<I: Streams>(
        &mut self,
        out: &mut Gathered<I>,
        steps: &mut Steps<L>,
    ) -> Result<bool, Halt<Infallible>> {
        match self.reader.finish(steps) {
            Err(_) => Err(Halt::NoMemory),
            Ok(()) => {
                let answer = self.answer(steps);
                self.unfit = why(&answer);
                match put_answer(&answer, out) {
                    Err(_) => Err(Halt::WriteFault),
                    Ok(()) => Ok(self.unfit.is_some()),
                }
            }
        }
    }

    ghost one_law = { made_one };

    ghost stop_law = { λ first last bytes more text spent why stopped. stopped };
}
