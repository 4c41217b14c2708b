//! Converts words as the bytes of their text arrive: the word that has not ended, and the pieces of a run.

ghost use Rattle.std.specs.Prelude.{◌≡◌, ◌≤◌, ◌<◌, ◌++◌, ◌∷◌, ◌||◌, [], List, MatchOption, ℕ, OnOk, Option};
ghost use Rattle.std.specs.Prelude.{◌==◌, None, OnErr, get_or, if◌then◌else◌, length, take, true};
ghost use Rattle.fixed_command.specs.Observed.{ErrorAddedIf};
ghost use Rattle.fixed_command.specs.Outcome.{has_error};
ghost use Rattle.fixed_command.specs.Rejects.{name_of};
ghost use Rattle.fixed_words.specs.Told.{Counts, NotesEnding, NotesWord, PutsReject, TellsWord, nothing_told, told_by};
ghost use Rattle.fixed_words.specs.Told.{told_of};
ghost use Rattle.line_rejects.specs.Rejects.{Sight, sight_of};
ghost use Rattle.fixed_words.specs.Words.{is_refused, is_separator, kept_word};
ghost use Rattle.fixed_words.specs.Run.{GoesOn, is_piece};
ghost use Rattle.fixed_words.specs.Inner.Progress.{EndsWord, IsAtSamePlace, IsToldAlike, Passes, Takes, TakesByte};
ghost use Rattle.fixed_words.specs.Inner.Progress.{TellsIfEnded, start_of};
ghost use Rattle.fixed_words.specs.declared.rule.WordRule.{WordRule};
ghost use Rattle.run_engine.specs.Pieces.{HasNone};
ghost use Rattle.run_engine.specs.Seen.{Breaks, Puts};

use crate::rule::{Ending, WordRule, ending_of, is_overflow, is_separator, put_shown};
use column_engine::{MAX_RECORD, RecordBuffer};
use fixed_command::{ConvertRule, Outcome, RefusedLine, Tally, has_error, outcome_of};
use fixed_report::ErrorReport;
use fixed_steps::Steps;
use line_engine::{Failed, MAX_ANSWER, Sink};
use line_rejects::Rejects;
use run_engine::{Gathered, Halt, Pieces, Streams};
use std::convert::Infallible;
use std::sync::ledger::Ledger;
use text_buffer::TextBuffer;

/// A refused word.
#[derive(Drop)]
pub struct WordRefusal {
    /// Its line, and the first bytes of the word and of the cause.
    pub line: RefusedLine,
    /// The position of its first byte in its line, from 1.
    pub byte: u64,
}

/// The conversion of words.
#[derive(Drop)]
pub struct Words {
    /// The first bytes of the word that has not ended.
    pub word: RecordBuffer,
    /// Whether a word was refused.
    pub has_fault: bool,
    /// The line of the next byte, from 1.
    pub line: u64,
    /// The position of the next byte in its line, from 1.
    pub byte: u64,
    /// The position in its line of the first byte of the word that has not ended, or of the next word.
    pub start: u64,
    /// How many words were refused.
    pub refused: u64,
    /// The first refused word.
    pub first: Option<WordRefusal>,
    /// The report of the greatest error, if outcomes are kept.
    pub errors: Option<ErrorReport>,
    /// The outcomes of the words.
    pub tally: Tally,
}

/// Whether a word with this ending is refused.
fn is_refused(ending: Ending) -> bool
    ensures { result ≡ is_refused ending }
{
    match ending {
        Ending::Converted | Ending::Left(_) => false,
        Ending::Refused(_) => true,
    }
}

/// Returns the outcome of a word with this ending. A word that stays has none if it is not a numeral.
fn noted_outcome<L: Ledger>(
    rule: &ConvertRule,
    ending: Ending,
    word: &[u8],
    steps: &mut Steps<L>,
) -> Option<Outcome>
    ensures { NotesEnding rule.now ending word.now result }
{
    match ending {
        Ending::Converted => Some(outcome_of(rule.settings(), word, steps)),
        Ending::Left(cause) if is_overflow(cause) => Some(Outcome::Overflowed),
        Ending::Left(_) => None,
        Ending::Refused(_) => Some(Outcome::Refused),
    }
}

/// Records the error of a word in this line, if its outcome has one.
fn add_error<L: Ledger>(
    rule: &ConvertRule,
    line: u64,
    word: &[u8],
    outcome: Outcome,
    errors: &mut ErrorReport,
    steps: &mut Steps<L>,
)
    ensures { ErrorAddedIf (has_error rule.now.spelling outcome) errors.old line word.now errors.new }
{
    if has_error(rule.settings().spelling, outcome) {
        errors.add(word, line, steps);
    }
}

impl Words {
    /// The state before the first byte, with room for a word.
    pub fn new(word: RecordBuffer, errors: Option<ErrorReport>) -> Words
        requires { word ≡ [] }
        ensures nothing { (name : Option (List ℕ)) (rejects : Sight) → told_by result name rejects
            ≡ nothing_told errors name rejects }
        ensures goes { (s : WordRule) (name : Option (List ℕ)) (rejects : Sight) → GoesOn s
            (told_by result name rejects) [] [] result (told_by result name rejects) }
    {
        Words {
            word,
            has_fault: false,
            line: 1,
            byte: 1,
            start: 1,
            refused: 0,
            first: None,
            errors,
            tally: Tally::new(),
        }
    }

    /// Counts a word with this ending, and keeps the first refused one.
    fn count(&mut self, ending: Ending)
        ensures word { self.new.word ≡ self.old.word }
        ensures fault { self.new.has_fault ≡ (self.old.has_fault || is_refused ending) }
        ensures counts { Counts ending (start_of self.old) self.old.word self.old.refused self.old.first
            self.new.refused self.new.first }
        ensures place { IsAtSamePlace self.old self.new }
        ensures tally { self.new.tally ≡ self.old.tally }
        ensures errors { self.new.errors ≡ self.old.errors }
    {
        if let Ending::Refused(cause) = ending {
            self.has_fault = true;
            self.refused = self.refused.saturating_add(1);
            if self.first.is_none() {
                let (word, cause) = (self.word.as_slice(), cause.text.as_bytes());
                self.first = Some(WordRefusal {
                    line: RefusedLine::new(self.line, word, cause),
                    byte: self.start,
                });
            }
        }
    }

    /// Records the outcome and the error of a word with this ending, if outcomes are kept.
    fn note<L: Ledger>(&mut self, rule: &ConvertRule, ending: Ending, steps: &mut Steps<L>)
        ensures word { self.new.word ≡ self.old.word }
        ensures fault { self.new.has_fault ≡ self.old.has_fault }
        ensures refused { self.new.refused ≡ self.old.refused }
        ensures first { self.new.first ≡ self.old.first }
        ensures place { IsAtSamePlace self.old self.new }
        ensures noted { NotesWord rule.now ending self.old.line self.old.word self.old.tally self.old.errors
            self.new.tally self.new.errors }
    {
        let Some(errors) = &mut self.errors else {
            return;
        };
        let word = self.word.as_slice();
        match noted_outcome(rule, ending, word, steps) {
            None => (),
            Some(outcome) => {
                self.tally.note(self.line, outcome);
                add_error(rule, self.line, word, outcome, errors, steps);
            }
        }
    }

    /// Puts a line of rejects for the word, which has this ending, if it is refused: the number of its line, its
    /// position there, the word and the cause.
    fn reject<J: Sink>(&self, ending: Ending, rejects: &mut Rejects<'_, J>)
        ensures puts { PutsReject ending (name_of rejects.old) (start_of self.now) self.now.word
            (sight_of J.written J.failures rejects.old) (sight_of J.written J.failures rejects.new) }
        ensures name { rejects.new.name ≡ rejects.old.name }
    {
        if let Ending::Refused(cause) = ending {
            let word = self.word.as_slice();
            rejects.put(self.line, Some(self.start), word, cause.text.as_bytes());
        }
    }

    /// Appends a byte of a word. Bytes past the greatest length of a record are dropped.
    fn keep(&mut self, byte: u8)
        ensures word { (word : List ℕ) → self.old.word ≡ kept_word word
            → self.new.word ≡ kept_word (word ++ byte ∷ []) }
        ensures fault { self.new.has_fault ≡ self.old.has_fault }
        ensures place { IsAtSamePlace self.old self.new }
        ensures told { IsToldAlike self.old self.new }
    {
        if self.word.len() < MAX_RECORD {
            self.word.push(byte);
        }
    }

    /// Answers the word that ends, which is not empty, and puts the answer and the separator that ends it, if any.
    fn answer_word<I: Streams, J: Sink, L: Ledger>(
        &mut self,
        rule: &WordRule<'_>,
        end: &[u8],
        rejects: &mut Rejects<'_, J>,
        out: &mut Gathered<I>,
        steps: &mut Steps<L>,
    ) -> Result<(), Failed>
        requires some { 0 < length self.old.word }
        requires end { length end.now ≤ 1 }
        ensures tells { TellsWord rule.now (start_of self.old) self.old.word
            (told_of J.written J.failures self.old rejects.old) (told_of J.written J.failures self.new rejects.new) }
        ensures place { IsAtSamePlace self.old self.new }
        ensures ok { OnOk result (EndsWord rule.now self.old.word end.now self.old self.new
            (Puts (I.seen out.old.io) (I.seen out.new.io) out.old.text out.new.text)) }
        ensures err { OnErr result (EndsWord rule.now self.old.word end.now self.old self.new
            (Breaks (I.seen out.old.io) (I.seen out.new.io) out.old.text)) }
    {
        let mut reply: TextBuffer<MAX_ANSWER> = TextBuffer::new();
        let word = self.word.as_slice();
        let replied = rule.rule.reply_or_refuse(word, &mut reply, steps);
        let ending = ending_of(rule, word, &replied);
        self.reject(ending, rejects);
        self.count(ending);
        self.note(&rule.rule, ending, steps);
        put_shown(rule, ending, &mut self.word, reply.as_bytes(), end, out)
    }

    /// Answers the word that ends, unless it is empty, puts the separator that ends it, if any, and begins a new word.
    fn end_word<I: Streams, J: Sink, L: Ledger>(
        &mut self,
        rule: &WordRule<'_>,
        end: &[u8],
        rejects: &mut Rejects<'_, J>,
        out: &mut Gathered<I>,
        steps: &mut Steps<L>,
    ) -> Result<(), Failed>
        requires { length end.now ≤ 1 }
        ensures word { self.new.word ≡ [] }
        ensures tells { TellsWord rule.now (start_of self.old) self.old.word
            (told_of J.written J.failures self.old rejects.old) (told_of J.written J.failures self.new rejects.new) }
        ensures place { IsAtSamePlace self.old self.new }
        ensures ok { OnOk result (EndsWord rule.now self.old.word end.now self.old self.new
            (Puts (I.seen out.old.io) (I.seen out.new.io) out.old.text out.new.text)) }
        ensures err { OnErr result (EndsWord rule.now self.old.word end.now self.old self.new
            (Breaks (I.seen out.old.io) (I.seen out.new.io) out.old.text)) }
    {
        if self.word.is_empty() {
            return out.put(end);
        }
        let result = self.answer_word(rule, end, rejects, out, steps);
        self.word.clear();
        result
    }

    /// Takes the next byte, and answers the word that ends with it. The position stays.
    fn take<I: Streams, J: Sink, L: Ledger>(
        &mut self,
        rule: &WordRule<'_>,
        byte: u8,
        rejects: &mut Rejects<'_, J>,
        out: &mut Gathered<I>,
        steps: &mut Steps<L>,
    ) -> Result<(), Failed>
        ensures tells { TellsIfEnded (is_separator rule.now.separators.now byte) rule.now self.old
            (told_of J.written J.failures self.old rejects.old) (told_of J.written J.failures self.new rejects.new) }
        ensures place { IsAtSamePlace self.old self.new }
        ensures ok { OnOk result (Takes rule.now byte self.old self.new
            (Puts (I.seen out.old.io) (I.seen out.new.io) out.old.text out.new.text)) }
        ensures err { OnErr result (Takes rule.now byte self.old self.new
            (Breaks (I.seen out.old.io) (I.seen out.new.io) out.old.text)) }
    {
        if is_separator(rule.separators, byte) {
            return self.end_word(rule, &[byte], rejects, out, steps);
        }
        self.keep(byte);
        Ok(())
    }

    /// Moves to the position after a byte.
    fn pass(&mut self, byte: u8)
        ensures passes { Passes byte self.old self.new }
        ensures told { IsToldAlike self.old self.new }
    {
        if byte == b'\n' {
            self.line = self.line.saturating_add(1);
            self.byte = 1;
        } else {
            self.byte = self.byte.saturating_add(1);
        }
        if self.word.is_empty() {
            self.start = self.byte;
        }
    }

    /// Takes the next byte, answers the word that ends with it, and moves to the next position.
    fn push<I: Streams, J: Sink, L: Ledger>(
        &mut self,
        rule: &WordRule<'_>,
        byte: u8,
        rejects: &mut Rejects<'_, J>,
        out: &mut Gathered<I>,
        steps: &mut Steps<L>,
    ) -> Result<(), Failed>
        ensures ok { OnOk result (TakesByte rule.now byte self.old self.new
            (told_of J.written J.failures self.old rejects.old) (told_of J.written J.failures self.new rejects.new)
            (Puts (I.seen out.old.io) (I.seen out.new.io) out.old.text out.new.text)) }
        ensures err { OnErr result (TakesByte rule.now byte self.old self.new
            (told_of J.written J.failures self.old rejects.old) (told_of J.written J.failures self.new rejects.new)
            (Breaks (I.seen out.old.io) (I.seen out.new.io) out.old.text)) }
    {
        let result = self.take(rule, byte, rejects, out, steps);
        self.pass(byte);
        result
    }
}

/// The machine that converts the words of an input by a rule. It takes the input byte by byte.
#[derive(Drop)]
pub struct WordBytes<'a, 'n, J> {
    /// The rule.
    pub rule: &'a WordRule<'a>,
    /// The words so far.
    pub words: Words,
    /// Where the refused words go.
    pub rejects: Rejects<'n, J>,
}

impl<'a, 'n, J: Sink + Drop, L: Ledger> Pieces<L> for WordBytes<'a, 'n, J> {
    ghost use Rattle.fixed_words.specs.Run.{MakesBy, is_piece};
    ghost use Rattle.fixed_words.specs.Lemmas.WordLaws.{made_one};

    type Stop = Infallible;

    ghost Makes = { MakesBy J.written J.failures };

    ghost ends = { is_piece };

    #[inline(always)]
    fn find(bytes: &[u8]) -> Option<usize>
        ensures { MatchOption result (HasNone is_piece bytes.now)
            (λ end. (end < length bytes.now) × HasNone is_piece (take end bytes.now)
            × (is_piece (get_or bytes.now end 0) ≡ true)) }
    {
        if bytes.is_empty() { None } else { Some(0) }
    }

    #[inline(always)]
    fn end_piece<I: Streams>(
        &mut self,
        _part: &[u8],
        byte: u8,
        out: &mut Gathered<I>,
        steps: &mut Steps<L>,
    ) -> Result<(), Halt<Infallible>> {
        match self
            .words
            .push(self.rule, byte, &mut self.rejects, out, steps)
        {
            Err(_) => Err(Halt::WriteFault),
            Ok(()) => Ok(()),
        }
    }

    #[inline(always)]
    fn keep<I: Streams>(
        &mut self,
        _part: &[u8],
        _out: &mut Gathered<I>,
        _steps: &mut Steps<L>,
    ) -> Result<(), Halt<Infallible>> {
        Ok(())
    }

    fn finish<I: Streams>(
        &mut self,
        out: &mut Gathered<I>,
        steps: &mut Steps<L>,
    ) -> Result<bool, Halt<Infallible>> {
        match self
            .words
            .end_word(self.rule, &[], &mut self.rejects, out, steps)
        {
            Err(_) => Err(Halt::WriteFault),
            Ok(()) => Ok(self.words.has_fault),
        }
    }

    ghost one_law = { made_one J.written J.failures };

    ghost stop_law = { λ first last bytes more text spent why stopped. stopped };
}
