//! Answers lines as the bytes of their input arrive.

ghost use Rattle.std.specs.Prelude.{◌≡◌, ◌≤◌, ◌||◌, ◌-◌, [], IfOk, false, length};
ghost use Rattle.std.specs.Prelude.{take, true};
ghost use Rattle.json_lines.specs.Answers.{fault_text, longest};
ghost use Rattle.json_lines.specs.Inner.Made.{is_refused};
ghost use Rattle.json_lines.specs.Inner.Progress.{LineEnds, NotesLine};
ghost use Rattle.json_lines.specs.Run.{Answers};
ghost use Rattle.json_lines.specs.Told.{IsStop, SeesLine, nothing_told, told_of};
ghost use Rattle.line_engine.specs.Memory.{next_count};

use crate::answer::{Refused, Space, answer_line};
use crate::fault::JsonFault;
use crate::refusals::JsonRefusals;
use crate::stop::stop_in;
use crate::task::JsonTask;
use column_engine::{FieldPlace, FieldRule, FieldWatch};
use fixed_steps::Steps;
use json::Scratch;
use line_engine::{LineBuffer, MAX_LINE};
use run_engine::{Gathered, Halt, Pieces, Streams, find_newline};
use std::alloc::{AllocError, Global};
use std::convert::Infallible;
use std::sync::ledger::Ledger;

/// Lines of JSON.
#[derive(Drop)]
pub struct JsonLines<'a, A, W> {
    /// How they are answered.
    pub task: &'a JsonTask<'a, A>,
    /// The first bytes of the line that has not ended.
    pub line: LineBuffer,
    /// Memory for answers.
    pub space: Space,
    /// Whether a line was refused.
    pub has_fault: bool,
    /// The refused lines.
    pub refusals: JsonRefusals,
    /// The observer of the values, and of the lines that are refused as a whole.
    pub observer: W,
}

/// The memory of a run: a line, and what answers need.
#[derive(Drop)]
pub struct Room {
    pub line: LineBuffer,
    pub space: Space,
}

impl Room {
    /// Allocates it.
    pub fn new(alloc: Global) -> Result<Room, AllocError>
        ensures { IfOk result (λ room. room.line ≡ []) }
    {
        let line = LineBuffer::new(alloc)?;
        let space = Space::new(alloc)?;
        Ok(Room { line, space })
    }
}

/// Returns the place of a line that is refused as a whole, by where it stops being JSON, from 1, or 0.
fn whole_place(number: u64, stop: u64) -> FieldPlace
    ensures { result ≡ record { «record» = number; line = number; column = stop - 1 } }
{
    FieldPlace {
        record: number,
        line: number,
        column: stop.saturating_sub(1) as usize,
    }
}

/// Returns the first bytes of a line, as many as the longest may have.
#[tactic(auto, using(std::proofs::lemmas::List::take_min))]
fn first_bytes(line: &[u8]) -> &[u8]
    ensures value { result.now ≡ take longest line.now }
    ensures short { length result.now ≤ longest }
{
    &line[..MAX_LINE.min(line.len())]
}

/// Returns the position, from 1, at which a line that is refused since it is not JSON stops being so; else 0.
fn stop_of(refused: Refused, line: &[u8], scratch: &mut Scratch) -> u64
    ensures { IsStop refused line.now result }
{
    match refused {
        Refused::Line(JsonFault::NotJson) => stop_in(line, scratch),
        _ => 0,
    }
}

impl<'a, A, W> JsonLines<'a, A, W> {
    /// The state before the first line.
    pub fn new(task: &'a JsonTask<'a, A>, room: Room, observer: W) -> JsonLines<'a, A, W>
        ensures task { result.task.now ≡ task.now }
        ensures line { result.line ≡ room.line }
        ensures fault { result.has_fault ≡ false }
        ensures lines { result.refusals.lines ≡ 0 }
        ensures told { told_of result ≡ nothing_told observer }
    {
        JsonLines {
            task,
            line: room.line,
            space: room.space,
            has_fault: false,
            refusals: JsonRefusals::new(),
            observer,
        }
    }

    /// Tells the observer of the line with this number, which is refused as a whole: where it stops being JSON, from 1,
    /// or 0.
    #[cold]
    fn tell<L: Ledger>(&mut self, number: u64, fault: JsonFault, stop: u64, steps: &mut Steps<L>)
    where
        A: FieldRule<L>,
        W: FieldWatch<A, L>,
        ensures fault { self.new.has_fault ≡ self.old.has_fault }
        ensures line { self.new.line ≡ self.old.line }
        ensures task { self.new.task ≡ self.old.task }
        ensures answer { self.new.space.answer ≡ self.old.space.answer }
        ensures refusals { self.new.refusals ≡ self.old.refusals }
        ensures saw { W.Saw self.old.task.now.rule.now self.old.observer (record {
          «record» = number;
          line = number;
          column = stop - 1;
        }) (take longest self.old.line) (record { text = fault_text fault; fault = true }) self.new.observer }
    {
        let place = whole_place(number, stop);
        let shown = first_bytes(self.line.as_slice());
        let scratch = &mut self.space.scratch;
        self.observer.see(
            self.task.rule,
            place,
            shown,
            fault.message(),
            true,
            scratch,
            steps,
        );
    }

    /// Counts a line, keeps the report of the first refused one, and tells the observer of one that is refused as a
    /// whole.
    fn note<L: Ledger>(&mut self, refused: Refused, steps: &mut Steps<L>)
    where
        A: FieldRule<L>,
        W: FieldWatch<A, L>,
        ensures fault { self.new.has_fault ≡ (self.old.has_fault || is_refused refused) }
        ensures line { self.new.line ≡ self.old.line }
        ensures task { self.new.task ≡ self.old.task }
        ensures answer { self.new.space.answer ≡ self.old.space.answer }
        ensures lines { self.new.refusals.lines ≡ next_count self.old.refusals.lines }
        ensures notes { NotesLine (W.Saw self.old.task.now.rule.now) refused self.old self.new }
    {
        let line = self.line.as_slice();
        let stop = stop_of(refused, line, &mut self.space.json);
        self.refusals
            .note(refused, stop, line, self.space.reply.as_bytes());
        self.has_fault |= refused.is_refused();
        if let Refused::Line(fault) = refused {
            let number = self.refusals.lines();
            self.tell(number, fault, stop, steps);
        }
    }

    /// Answers the line whose last bytes are `part`, and begins a new one.
    fn end_line<I: Streams, L: Ledger>(
        &mut self,
        part: &[u8],
        out: &mut Gathered<I>,
        steps: &mut Steps<L>,
    ) -> Result<(), Halt<Infallible>>
    where
        A: FieldRule<L>,
        W: FieldWatch<A, L>,
        ensures { LineEnds (Answers (A.Answers self.old.task.now.rule.now) self.old.task.now)
            (SeesLine self.old.task.now (A.Answers self.old.task.now.rule.now) (W.Saw self.old.task.now.rule.now))
            part.now self.old self.new (I.seen out.old.io) (I.seen out.new.io) out.old.text out.new.text result }
    {
        self.line.append(part);
        let number = self.refusals.lines().saturating_add(1);
        match answer_line(
            self.task,
            number,
            self.line.as_slice(),
            &mut self.space,
            &mut self.observer,
            steps,
        ) {
            Err(_) => Err(Halt::NoMemory),
            Ok(refused) => {
                self.note(refused, steps);
                self.space.answer.append(b"\n");
                self.line.clear();
                match out.put(self.space.answer.as_slice()) {
                    Err(_) => Err(Halt::WriteFault),
                    Ok(()) => Ok(()),
                }
            }
        }
    }
}

impl<'a, A: FieldRule<L>, W: FieldWatch<A, L> + Drop, L: Ledger> Pieces<L> for JsonLines<'a, A, W> {
    ghost use Rattle.run_engine.specs.Pieces.{is_newline};
    ghost use Rattle.json_lines.specs.Run.{MakesBy};
    ghost use Rattle.json_lines.specs.Lemmas.RunLaws.{made_one};

    type Stop = Infallible;

    ghost Makes = { λ first bytes text spent how last. MakesBy (A.Answers first.task.now.rule.now)
        (W.Saw first.task.now.rule.now) first bytes text spent how last };

    ghost ends = { is_newline };

    #[inline(always)]
    fn find(bytes: &[u8]) -> Option<usize> {
        find_newline(bytes)
    }

    fn end_piece<I: Streams>(
        &mut self,
        part: &[u8],
        _byte: u8,
        out: &mut Gathered<I>,
        steps: &mut Steps<L>,
    ) -> Result<(), Halt<Infallible>> {
        self.end_line(part, out, steps)
    }

    fn keep<I: Streams>(
        &mut self,
        part: &[u8],
        _out: &mut Gathered<I>,
        _steps: &mut Steps<L>,
    ) -> Result<(), Halt<Infallible>> {
        self.line.append(part);
        Ok(())
    }

    fn finish<I: Streams>(
        &mut self,
        out: &mut Gathered<I>,
        steps: &mut Steps<L>,
    ) -> Result<bool, Halt<Infallible>> {
        if self.line.is_empty() {
            return Ok(self.has_fault);
        }
        match self.end_line(&[], out, steps) {
            Err(halt) => Err(halt),
            Ok(()) => Ok(self.has_fault),
        }
    }

    ghost one_law = { λ first. made_one (A.Answers first.task.now.rule.now) (W.Saw first.task.now.rule.now)
        (A.one_law first.task.now.rule.now) first };

    ghost stop_law = { λ first last bytes more text spent why stopped. stopped };
}
