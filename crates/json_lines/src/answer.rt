//! The answer to a line: the values at a path exchanged for the replies of a rule, and every other byte as it was.

ghost use Rattle.std.specs.Prelude.{◌≡◌, ◌≤◌, ◌↔◌, ◌&&◌, ◌⊎◌, ◌++◌, [], IfOk, IsTrue, OnErr, OnOk, codes, false};
ghost use Rattle.std.specs.Prelude.{length, map, take};
ghost use Rattle.json_lines.specs.Answers.{AnswersValues, IsJson, IsJsonAnswer, IsValueReply, RefusesLine};
ghost use Rattle.json_lines.specs.Answers.{exchanged, fault_text, fitted, longest, opens};
ghost use Rattle.json_lines.specs.Inner.Made.{IsHeld, IsMade, IsReplied, IsWhole, is_refused};
ghost use Rattle.line_engine.specs.AnswerText.{AnswerText};
ghost use Rattle.json_lines.specs.Path.{step_of};
ghost use Rattle.json_lines.specs.Pieces.{content};
ghost use Rattle.json_lines.specs.Told.{HasReply, IsWithin, SeesFrom, SeesLineValues, SeesNone, SeesReply};
ghost use Rattle.json_lines.specs.Told.{SeesValues, fitted_refusal, value_place};
ghost use Rattle.line_engine.specs.Lines.{kept_length};

use crate::fault::JsonFault;
use crate::piece::{content, is_string, piece_end};
use crate::place::Place;
use crate::task::JsonTask;
use column_engine::{FieldPlace, FieldRule, FieldWatch, RecordBuffer};
use fixed_steps::Steps;
use json::{Scratch, is_valid};
use line_engine::{LineBuffer, MAX_LINE, Output};
use std::alloc::{AllocError, Global};
use std::sync::ledger::Ledger;

/// The memory that answers need.
#[derive(Drop)]
pub struct Space {
    /// The answer to a line.
    pub answer: LineBuffer,
    /// The last reply of the rule.
    pub reply: Output,
    /// Working space of the rule.
    pub scratch: RecordBuffer,
    /// Working space of the reader of JSON.
    pub json: Scratch,
}

/// Whether and why a line is refused.
#[derive(Clone, Copy, Debug, PartialEq, Eq)]
pub enum Refused {
    /// It is not refused.
    No,
    /// It is refused as a whole.
    Line(JsonFault),
    /// Its value from one index to another is refused.
    Value(usize, usize),
}

impl Refused {
    /// Whether a line is refused.
    pub fn is_refused(self) -> bool
        ensures { result ≡ is_refused self }
    {
        match self {
            Refused::No => false,
            Refused::Line(_) | Refused::Value(..) => true,
        }
    }
}

impl Space {
    /// Allocates a line for the answer, and a record for the rule. Only the reader of JSON allocates more, up to the
    /// length of the longest line.
    pub fn new(alloc: Global) -> Result<Space, AllocError> {
        let answer = LineBuffer::new(alloc)?;
        let scratch = RecordBuffer::new(alloc)?;
        Ok(Space {
            answer,
            reply: Output::new(),
            scratch,
            json: Scratch::new(alloc),
        })
    }
}

/// Whether a line is JSON.
fn is_json(line: &[u8], scratch: &mut Scratch) -> Result<bool, AllocError>
    ensures { IfOk result (λ it. IsTrue it ↔ IsJson line.now) }
{
    match std::str::from_utf8(line) {
        Err(_) => Ok(false),
        Ok(text) => is_valid(text, scratch),
    }
}

/// Writes a refusal as the answer.
fn refuse(fault: JsonFault, answer: &mut LineBuffer)
    ensures { answer.new ≡ codes "error: " ++ fault_text fault }
{
    answer.clear();
    answer.append(b"error: ");
    answer.append(fault.message());
}

/// Whether a piece opens an object or an array.
fn opens(piece: &[u8]) -> bool
    ensures { result ≡ opens piece.now }
{
    !piece.is_empty() && (piece[0] == b'{' || piece[0] == b'[')
}

/// Appends what takes the place of a piece.
fn push_exchanged(quotes: bool, piece: &[u8], reply: &[u8], answer: &mut LineBuffer)
    ensures { answer.new ≡ take kept_length (answer.old ++ exchanged quotes piece.now reply.now) }
{
    if reply.is_empty() {
        answer.append(piece);
    } else if quotes || is_string(piece) {
        answer.append(b"\"");
        answer.append(reply);
        answer.append(b"\"");
    } else {
        answer.append(reply);
    }
}

/// Returns the position of the text of a value: of its line, from 1, and in it, from 0.
fn place_of(number: u64, at: usize, piece: &[u8]) -> FieldPlace
    ensures { result ≡ value_place number at piece.now }
{
    let before = if is_string(piece) { 1 } else { 0 };
    FieldPlace {
        record: number,
        line: number,
        column: at.saturating_add(before),
    }
}

/// Writes the reply to a value, and tells the observer. Returns whether it is refused.
fn reply_to<A: FieldRule<L>, W: FieldWatch<A, L>, L: Ledger>(
    task: &JsonTask<'_, A>,
    place: FieldPlace,
    piece: &[u8],
    space: &mut Space,
    observer: &mut W,
    steps: &mut Steps<L>,
) -> bool
    requires { length piece.now ≤ longest }
    ensures reply { IsValueReply (opens piece.now) (A.Answers task.now.rule.now) piece.now (record {
      text = space.new.reply;
      fault = result;
    }) }
    ensures answer { space.new.answer ≡ space.old.answer }
    ensures saw { W.Saw task.now.rule.now observer.old place (content piece.now) (record {
      text = space.new.reply;
      fault = result;
    }) observer.new }
{
    space.reply.clear();
    let value = content(piece);
    let is_refused = if opens(piece) {
        space.reply.push_bytes(b"error: ");
        space.reply.push_bytes(JsonFault::Nested.message());
        true
    } else {
        task.rule
            .answer(value, &mut space.scratch, &mut space.reply, steps)
    };
    let reply = space.reply.as_bytes();
    observer.see(
        task.rule,
        place,
        value,
        reply,
        is_refused,
        &mut space.scratch,
        steps,
    );
    is_refused
}

/// Exchanges a value, or writes its refusal as the answer. Returns whether it is refused.
fn answer_value<A: FieldRule<L>, W: FieldWatch<A, L>, L: Ledger>(
    task: &JsonTask<'_, A>,
    place: FieldPlace,
    piece: &[u8],
    space: &mut Space,
    observer: &mut W,
    steps: &mut Steps<L>,
) -> bool
    requires { length piece.now ≤ longest }
    ensures replied { IsReplied (A.Answers task.now.rule.now) task.now.form.quotes piece.now result space.old.answer
        space.new.answer }
    ensures sees { SeesReply (A.Answers task.now.rule.now) (W.Saw task.now.rule.now) place piece.now result observer.old
        observer.new }
    ensures reply { IsValueReply (opens piece.now) (A.Answers task.now.rule.now) piece.now (record {
      text = space.new.reply;
      fault = result;
    }) }
{
    let is_refused = reply_to(task, place, piece, space, observer, steps);
    if is_refused {
        space.answer.clear();
        space.answer.append(space.reply.as_bytes());
    } else {
        push_exchanged(
            task.form.quotes,
            piece,
            space.reply.as_bytes(),
            &mut space.answer,
        );
    }
    is_refused
}

/// Writes the answer to a line that is JSON.
fn answer_values<A: FieldRule<L>, W: FieldWatch<A, L>, L: Ledger>(
    task: &JsonTask<'_, A>,
    number: u64,
    line: &[u8],
    space: &mut Space,
    observer: &mut W,
    steps: &mut Steps<L>,
) -> Refused
    requires { length line.now ≤ longest }
    ensures whole { IsWhole (map step_of task.now.steps.now) task.now.form.quotes (A.Answers task.now.rule.now) line.now
        space.new.answer result }
    ensures sees { SeesFrom (map step_of task.now.steps.now) (A.Answers task.now.rule.now) (W.Saw task.now.rule.now)
        number (length line.now) [] false 0 line.now observer.old result observer.new }
    ensures reply { HasReply result (A.Answers task.now.rule.now) line.now space.new.reply }
    ensures within { IsWithin result line.now }
{
    space.answer.clear();
    let mut place = Place::new();
    let mut is_found = false;
    let mut at = 0;
    'pieces: while at < line.len() {
        let end = piece_end(line, at);
        let piece = &line[at..end];
        let rest = &line[end..];
        if place.is_at(task.steps, piece, rest) {
            let at_value = place_of(number, at, piece);
            if answer_value(task, at_value, piece, space, observer, steps) {
                return Refused::Value(at, end);
            }
            is_found = true;
        } else {
            space.answer.append(piece);
        }
        place.pass_piece(task.steps, piece, rest);
        at = end;
    }
    if is_found {
        return Refused::No;
    }
    refuse(JsonFault::NoValue, &mut space.answer);
    Refused::Line(JsonFault::NoValue)
}

/// Refuses an answer that is too long.
fn fit(refused: Refused, answer: &mut LineBuffer) -> Refused
    ensures made { (whole : AnswerText) → IsHeld whole answer.old refused → IsMade (fitted whole) answer.new result }
    ensures refused { (whole : AnswerText) → IsHeld whole answer.old refused → result ≡ fitted_refusal whole refused }
    ensures short { length answer.new ≤ longest }
{
    if answer.as_slice().len() > MAX_LINE {
        refuse(JsonFault::AnswerTooLong, answer);
        return Refused::Line(JsonFault::AnswerTooLong);
    }
    refused
}

/// Writes the answer to a line that is not too long and not skipped.
fn answer_read<A: FieldRule<L>, W: FieldWatch<A, L>, L: Ledger>(
    task: &JsonTask<'_, A>,
    number: u64,
    line: &[u8],
    space: &mut Space,
    observer: &mut W,
    steps: &mut Steps<L>,
) -> Result<Refused, AllocError>
    requires { length line.now ≤ longest }
    ensures made { IfOk result (λ refused. (read : AnswerText) × (RefusesLine line.now read
        ⊎ AnswersValues (map step_of task.now.steps.now) task.now.form.quotes (A.Answers task.now.rule.now) line.now
        read) × IsMade read space.new.answer refused) }
    ensures short { OnOk result (length space.new.answer ≤ longest) }
    ensures sees { IfOk result (λ refused. SeesNone line.now observer.old refused observer.new
        ⊎ SeesValues (map step_of task.now.steps.now) task.now.form.quotes (A.Answers task.now.rule.now)
        (W.Saw task.now.rule.now) number line.now observer.old refused observer.new) }
    ensures reply { IfOk result (λ refused. HasReply refused (A.Answers task.now.rule.now) line.now space.new.reply) }
    ensures within { IfOk result (λ refused. IsWithin refused line.now) }
    ensures lacks { OnErr result (observer.new ≡ observer.old) }
{
    if !is_json(line, &mut space.json)? {
        refuse(JsonFault::NotJson, &mut space.answer);
        return Ok(Refused::Line(JsonFault::NotJson));
    }
    let refused = answer_values(task, number, line, space, observer, steps);
    Ok(fit(refused, &mut space.answer))
}

/// Writes the answer to the line with this number, and tells the observer of each value up to the first refused one.
/// Returns whether and why the line is refused.
pub fn answer_line<A: FieldRule<L>, W: FieldWatch<A, L>, L: Ledger>(
    task: &JsonTask<'_, A>,
    number: u64,
    line: &[u8],
    space: &mut Space,
    observer: &mut W,
    steps: &mut Steps<L>,
) -> Result<Refused, AllocError>
    ensures made { IfOk result (λ refused. (answer : AnswerText)
        × IsJsonAnswer (map step_of task.now.steps.now) task.now.form (A.Answers task.now.rule.now) line.now answer
        × IsMade answer space.new.answer refused) }
    ensures short { OnOk result (length space.new.answer ≤ longest) }
    ensures sees { IfOk result (λ refused. SeesLineValues task.now (A.Answers task.now.rule.now)
        (W.Saw task.now.rule.now) number line.now observer.old refused observer.new) }
    ensures reply { IfOk result (λ refused. HasReply refused (A.Answers task.now.rule.now) line.now space.new.reply) }
    ensures within { IfOk result (λ refused. IsWithin refused line.now) }
    ensures lacks { OnErr result (observer.new ≡ observer.old) }
{
    if line.len() > MAX_LINE {
        refuse(JsonFault::LineTooLong, &mut space.answer);
        return Ok(Refused::Line(JsonFault::LineTooLong));
    }
    if task.form.layout.is_skipped(line) {
        space.answer.clear();
        space.answer.append(line);
        return Ok(Refused::No);
    }
    let refused = answer_read(task, number, line, space, observer, steps)?;
    if task.form.keeps && refused.is_refused() {
        space.answer.clear();
        space.answer.append(line);
    }
    Ok(refused)
}
